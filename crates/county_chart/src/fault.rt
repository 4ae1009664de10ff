//! How records can fail to fit together.

ghost use Rattle.std.specs.Prelude.{◌≡◌};
ghost use Rattle.fault_report.specs.Reports.{at};
ghost use Rattle.fault_report.specs.declared.report.FaultPlace.TheVariants.{Number};
ghost use Rattle.county_chart.specs.LinkedTypes.{byte_of, linked_type};
ghost use Rattle.county_chart.specs.Reports.{at_polygon, at_type};

use fault_report::{FaultKind, FaultPlace, FaultReport};
use std::alloc::{AllocError, AllocFailed};
use std::fmt;
use thiserror::Error;

/// A record type whose records belong to a chain.
#[derive(Clone, Copy, Debug, PartialEq, Eq)]
pub enum LinkedType {
    /// Shape points (record type 2).
    Two,
    /// Further names (record type 4).
    Four,
    /// Further address ranges (record type 6).
    Six,
    /// Nodes and polygons (record type I).
    I,
}

/// A record type whose records of one chain are ordered by RTSQ.
#[derive(Clone, Copy, Debug, PartialEq, Eq)]
pub enum SequencedType {
    /// Shape points (record type 2).
    Two,
    /// Further names (record type 4).
    Four,
    /// Further address ranges (record type 6).
    Six,
}

impl LinkedType {
    /// Returns the byte in column 1 of the record type's lines.
    pub fn byte(self) -> u8
        ensures { result ≡ byte_of self }
    {
        match self {
            LinkedType::Two => b'2',
            LinkedType::Four => b'4',
            LinkedType::Six => b'6',
            LinkedType::I => b'I',
        }
    }
}

impl SequencedType {
    /// Returns the record type, among all whose records belong to a chain.
    pub fn linked(self) -> LinkedType
        ensures { result ≡ linked_type self }
    {
        match self {
            SequencedType::Two => LinkedType::Two,
            SequencedType::Four => LinkedType::Four,
            SequencedType::Six => LinkedType::Six,
        }
    }
}

/// The first rule that a list of records breaks, with the least place that breaks it. The number in brackets is the rule's.
#[derive(Clone, Copy, PartialEq, Eq, Error)]
pub enum LinkFault {
    /// Two records of type 1 have the same TLID (11).
    ChainTwice { tlid: u64 },
    /// A record of type 2, 4, 6 or I has a TLID that no record of type 1 has (12).
    NoChain { rtype: LinkedType, tlid: u64 },
    /// An RTSQ occurs twice for a chain in one record type (13).
    SequenceBroken { rtype: SequencedType, tlid: u64 },
    /// A record of type 1 has no record of type I (14).
    LinkMissing { tlid: u64 },
    /// Two records of type I have the same TLID (15).
    LinkTwice { tlid: u64 },
    /// Two records of type 5 have the same FEAT (16).
    NameTwice { feat: u32 },
    /// A record of type 4 names a FEAT that no record of type 5 has (17).
    NameUnknown { tlid: u64, feat: u32 },
    /// Two records of type P describe the same polygon (18).
    PolygonTwice { cenid: [u8; 5], polyid: u64 },
    /// A record of type 8 has a LAND that no record of type 7 has (19).
    LandUnknown { land: u64 },
    /// The polygon of a record of type 8 is on no side and has no record of type P (20).
    PolygonUnknown { cenid: [u8; 5], polyid: u64 },
    /// An allocation failed (9).
    Memory,
}

/// Prints the fault as a derived `Debug` would.
///
/// Trick: one derived function for all variants is too large for the prover.
impl fmt::Debug for LinkFault {
    fn fmt<W: fmt::Write>(&self, f: &mut fmt::Formatter<W>) -> fmt::Result {
        match self {
            LinkFault::ChainTwice { tlid } => show_number(f, "ChainTwice", "tlid", tlid),
            LinkFault::NoChain { rtype, tlid } => {
                show_two(f, "NoChain", "rtype", rtype, "tlid", tlid)
            }
            LinkFault::SequenceBroken { rtype, tlid } => {
                show_two(f, "SequenceBroken", "rtype", rtype, "tlid", tlid)
            }
            LinkFault::LinkMissing { tlid } => show_number(f, "LinkMissing", "tlid", tlid),
            LinkFault::LinkTwice { tlid } => show_number(f, "LinkTwice", "tlid", tlid),
            LinkFault::NameTwice { feat } => show_number(f, "NameTwice", "feat", feat),
            LinkFault::NameUnknown { tlid, feat } => {
                show_two(f, "NameUnknown", "tlid", tlid, "feat", feat)
            }
            LinkFault::PolygonTwice { cenid, polyid } => {
                show_two(f, "PolygonTwice", "cenid", cenid, "polyid", polyid)
            }
            LinkFault::LandUnknown { land } => show_number(f, "LandUnknown", "land", land),
            LinkFault::PolygonUnknown { cenid, polyid } => {
                show_two(f, "PolygonUnknown", "cenid", cenid, "polyid", polyid)
            }
            LinkFault::Memory => f.write_str("Memory"),
        }
    }
}

/// Prints a fault that has one number.
fn show_number<T: fmt::Debug, W: fmt::Write>(
    f: &mut fmt::Formatter<W>,
    fault: &str,
    field: &str,
    number: &T,
) -> fmt::Result {
    f.debug_struct(fault).field(field, number).finish()
}

/// Prints a fault that has two fields.
fn show_two<T: fmt::Debug, U: fmt::Debug, W: fmt::Write>(
    f: &mut fmt::Formatter<W>,
    fault: &str,
    field: &str,
    value: &T,
    next_field: &str,
    next_value: &U,
) -> fmt::Result {
    f.debug_struct(fault)
        .field(field, value)
        .field(next_field, next_value)
        .finish()
}

impl LinkFault {
    ghost use Rattle.std.specs.Prelude.{◌≡◌};
    ghost use Rattle.county_chart.specs.Reports.{link_report};

    /// Returns the fault as every interface reports it: its number, its name and its places.
    pub fn report(&self) -> FaultReport
        ensures { result ≡ link_report self.now }
    {
        match self {
            LinkFault::ChainTwice { tlid } => at_number(FaultKind::ChainTwice, *tlid),
            LinkFault::NoChain { rtype, tlid } => at_type(FaultKind::NoChain, *rtype, *tlid),
            LinkFault::SequenceBroken { rtype, tlid } => {
                at_type(FaultKind::SequenceBroken, rtype.linked(), *tlid)
            }
            LinkFault::LinkMissing { tlid } => at_number(FaultKind::LinkMissing, *tlid),
            LinkFault::LinkTwice { tlid } => at_number(FaultKind::LinkTwice, *tlid),
            LinkFault::NameTwice { feat } => at_number(FaultKind::NameTwice, *feat as u64),
            LinkFault::NameUnknown { tlid, feat } => FaultReport::at_two(
                FaultKind::NameUnknown,
                FaultPlace::Number(*tlid),
                FaultPlace::Number(*feat as u64),
            ),
            LinkFault::PolygonTwice { cenid, polyid } => {
                at_polygon(FaultKind::PolygonTwice, *cenid, *polyid)
            }
            LinkFault::LandUnknown { land } => at_number(FaultKind::LandUnknown, *land),
            LinkFault::PolygonUnknown { cenid, polyid } => {
                at_polygon(FaultKind::PolygonUnknown, *cenid, *polyid)
            }
            LinkFault::Memory => FaultReport::bare(FaultKind::Memory),
        }
    }
}

/// The line of the fault's report.
impl fmt::Display for LinkFault {
    ghost use Rattle.std.specs.Prelude.{Some};
    ghost use Rattle.fault_report.specs.Reports.{report_line};
    ghost use Rattle.county_chart.specs.Reports.{link_report};

    ghost output = { λ fault. Some (report_line (link_report fault)) };

    fn fmt<W: fmt::Write>(&self, f: &mut fmt::Formatter<W>) -> fmt::Result {
        self.report().fmt(f)
    }
}

/// Returns a fault with one number as its place.
fn at_number(kind: FaultKind, number: u64) -> FaultReport
    ensures { result ≡ at kind (Number number) }
{
    FaultReport::at(kind, FaultPlace::Number(number))
}

/// Returns a fault with a record type and a TLID as its places.
fn at_type(kind: FaultKind, rtype: LinkedType, tlid: u64) -> FaultReport
    ensures { result ≡ at_type kind rtype tlid }
{
    FaultReport::at_two(
        kind,
        FaultPlace::RecordType(rtype.byte()),
        FaultPlace::Number(tlid),
    )
}

/// Returns a fault with a polygon as its places.
fn at_polygon(kind: FaultKind, cenid: [u8; 5], polyid: u64) -> FaultReport
    ensures { result ≡ at_polygon kind cenid polyid }
{
    FaultReport::at_two(kind, FaultPlace::Cenid(cenid), FaultPlace::Number(polyid))
}

impl From<AllocError> for LinkFault {
    ghost use Rattle.std.specs.Prelude.{◌≡◌};
    ghost use Rattle.county_chart.specs.declared.fault.LinkFault.TheVariants.{Memory};

    ghost from_gives = { λ _ fault. fault ≡ Memory };

    fn from(_error: AllocError) -> LinkFault {
        LinkFault::Memory
    }
}

impl<T: Drop> From<AllocFailed<T>> for LinkFault {
    ghost use Rattle.std.specs.Prelude.{◌≡◌};
    ghost use Rattle.county_chart.specs.declared.fault.LinkFault.TheVariants.{Memory};

    ghost from_gives = { λ _ fault. fault ≡ Memory };

    fn from(_error: AllocFailed<T>) -> LinkFault {
        LinkFault::Memory
    }
}
