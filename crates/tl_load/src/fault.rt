//! The faults of loading.

ghost use Rattle.std.specs.Prelude.{Some, ◌≡◌};
ghost use Rattle.fault_report.specs.Reports.{report_line};
ghost use Rattle.tl_load.specs.Reports.{at_column, at_line, load_report};
ghost use Rattle.tl_load.specs.Verdicts.{fault_at};

use fault_report::{FaultKind, FaultPlace, FaultReport};
use std::fmt;
use thiserror::Error;
use tl_layout::{FieldFault, FieldKind};

/// The fault of one line, without its place.
#[derive(Clone, Copy, Debug, PartialEq, Eq, Error)]
pub enum LineFault {
    /// The line is empty, or its first byte isn't a record type.
    #[error("the first byte is no known record type")]
    UnknownType,
    /// The line is longer than the layout of its record type.
    #[error("the line is longer than its record type allows")]
    LineTooLong,
    /// The byte at this column, counted from 1, isn't allowed.
    #[error("column {0}: this byte is not allowed")]
    BadByte(u16),
    /// A field is malformed.
    #[error(transparent)]
    Field(FieldFault),
}

/// Why loading failed. Parts, lines and columns are counted from 1. The number in brackets is the refusal's.
#[derive(Clone, Copy, Debug, PartialEq, Eq, Error)]
pub enum LoadFault {
    /// The line is empty, or its first byte isn't a record type (1).
    UnknownType { part: u64, line: u64 },
    /// The line is longer than the layout of its record type (2).
    LineTooLong { part: u64, line: u64 },
    /// A byte of the line isn't allowed (3). The leftmost one is reported: `column` is its column.
    BadByte { part: u64, line: u64, column: u16 },
    /// A malformed number field, or no number in a field that requires one (4). `column` is the field's first column.
    BadNumber { part: u64, line: u64, column: u16 },
    /// A malformed or out-of-range coordinate, a pair with one half blank, or no point in a field that requires one (5). `column` is the
    /// first column of the longitude, or, if only the latitude is malformed or out of range, of the latitude.
    BadPoint { part: u64, line: u64, column: u16 },
    /// A used place after an unused one (6). `column` is the used place's first column.
    GapInRecord { part: u64, line: u64, column: u16 },
    /// There are more records of this type, the byte in column 1, than a set may have (7).
    TooManyRecords { rtype: u8 },
    /// A read from the source failed (8).
    Device,
    /// An allocation failed (9).
    Memory,
}

impl LoadFault {
    /// Returns the fault as every interface reports it: its number, its name and its places.
    pub fn report(&self) -> FaultReport
        ensures { result ≡ load_report self.now }
    {
        match self {
            LoadFault::UnknownType { part, line } => at_line(FaultKind::UnknownType, *part, *line),
            LoadFault::LineTooLong { part, line } => at_line(FaultKind::LineTooLong, *part, *line),
            LoadFault::BadByte { part, line, column } => {
                at_column(FaultKind::BadByte, *part, *line, *column)
            }
            LoadFault::BadNumber { part, line, column } => {
                at_column(FaultKind::BadNumber, *part, *line, *column)
            }
            LoadFault::BadPoint { part, line, column } => {
                at_column(FaultKind::BadPoint, *part, *line, *column)
            }
            LoadFault::GapInRecord { part, line, column } => {
                at_column(FaultKind::GapInRecord, *part, *line, *column)
            }
            LoadFault::TooManyRecords { rtype } => {
                FaultReport::at(FaultKind::TooManyRecords, FaultPlace::RecordType(*rtype))
            }
            LoadFault::Device => FaultReport::bare(FaultKind::Device),
            LoadFault::Memory => FaultReport::bare(FaultKind::Memory),
        }
    }
}

/// The line of the fault's report.
impl fmt::Display for LoadFault {
    ghost output = { λ fault. Some (report_line (load_report fault)) };

    fn fmt<W: fmt::Write>(&self, f: &mut fmt::Formatter<W>) -> fmt::Result {
        self.report().fmt(f)
    }
}

fn at_line(kind: FaultKind, part: u64, line: u64) -> FaultReport
    ensures { result ≡ at_line kind part line }
{
    FaultReport::at_two(kind, FaultPlace::Number(part), FaultPlace::Number(line))
}

fn at_column(kind: FaultKind, part: u64, line: u64, column: u16) -> FaultReport
    ensures { result ≡ at_column kind part line column }
{
    FaultReport::at_three(
        kind,
        FaultPlace::Number(part),
        FaultPlace::Number(line),
        FaultPlace::Number(column as u64),
    )
}

impl LineFault {
    /// Adds the place: the numbers of the part and the line.
    #[tactic(auto, unfolding(crate::specs::Verdicts::fault_at))]
    pub(crate) fn at(self, part: u64, line: u64) -> LoadFault
        ensures { result ≡ fault_at part line self }
    {
        match self {
            LineFault::UnknownType => LoadFault::UnknownType { part, line },
            LineFault::LineTooLong => LoadFault::LineTooLong { part, line },
            LineFault::BadByte(column) => LoadFault::BadByte { part, line, column },
            LineFault::Field(FieldFault { kind, column }) => match kind {
                FieldKind::BadNumber => LoadFault::BadNumber { part, line, column },
                FieldKind::BadPoint => LoadFault::BadPoint { part, line, column },
                FieldKind::GapInRecord => LoadFault::GapInRecord { part, line, column },
            },
        }
    }
}
