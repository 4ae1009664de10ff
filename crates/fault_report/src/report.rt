//! A fault with its places.

ghost use Rattle.std.specs.Prelude.{Some, length, ◌≡◌, ◌≤◌};
ghost use Rattle.fault_report.specs.Reports.{at, at_three, at_two, bare, report_line};

use crate::kind::FaultKind;
use crate::line::{Line, push, push_digits, push_place};
use std::{fmt, str};

/// One place of a fault.
#[derive(Clone, Copy, Debug, PartialEq, Eq)]
pub enum FaultPlace {
    /// The fault has no such place.
    Nowhere,
    /// A part, line or column, each counted from 1; a TLID, FEAT, LAND or POLYID; or a count of bytes.
    Number(u64),
    /// A record type: the byte in column 1 of its lines.
    RecordType(u8),
    /// The five bytes of a CENID.
    Cenid([u8; 5]),
}

/// A fault as every interface reports it: its kind, and its places in the order of the refusal line. Places that the fault doesn't
/// have are `Nowhere` and come last.
#[derive(Clone, Copy, Debug, PartialEq, Eq)]
pub struct FaultReport {
    /// The kind of the fault.
    pub kind: FaultKind,
    /// Its places.
    pub places: [FaultPlace; 3],
}

impl FaultReport {
    /// Makes a fault without a place.
    pub fn bare(kind: FaultKind) -> FaultReport
        ensures { result ≡ bare kind }
    {
        FaultReport::at(kind, FaultPlace::Nowhere)
    }

    /// Makes a fault with one place.
    pub fn at(kind: FaultKind, first: FaultPlace) -> FaultReport
        ensures { result ≡ at kind first }
    {
        FaultReport::at_two(kind, first, FaultPlace::Nowhere)
    }

    /// Makes a fault with two places.
    pub fn at_two(kind: FaultKind, first: FaultPlace, second: FaultPlace) -> FaultReport
        ensures { result ≡ at_two kind first second }
    {
        FaultReport::at_three(kind, first, second, FaultPlace::Nowhere)
    }

    /// Makes a fault with three places.
    pub fn at_three(
        kind: FaultKind,
        first: FaultPlace,
        second: FaultPlace,
        third: FaultPlace,
    ) -> FaultReport
        ensures { result ≡ at_three kind first second third }
    {
        FaultReport {
            kind,
            places: [first, second, third],
        }
    }

    /// Returns the line that reports the fault, without its line ending: `refused`, the number, the name and the places.
    pub fn line(&self) -> Line
        ensures bytes { result.items ≡ report_line self.now }
        ensures short { length result.items ≤ 111 }
    {
        let mut line = Line::new();
        push(&mut line, b"refused ");
        push_digits(&mut line, self.kind.number() as u64);
        push(&mut line, b" ");
        push(&mut line, self.kind.name().as_bytes());
        let [first, second, third] = &self.places;
        push_place(&mut line, first);
        push_place(&mut line, second);
        push_place(&mut line, third);
        line
    }
}

/// The line of [`FaultReport::line`].
impl fmt::Display for FaultReport {
    ghost output = { λ report. Some (report_line report) };

    fn fmt<W: fmt::Write>(&self, f: &mut fmt::Formatter<W>) -> fmt::Result {
        match str::from_utf8(self.line().as_slice()) {
            Ok(line) => f.write_str(line),
            Err(_) => Err(fmt::Error),
        }
    }
}
