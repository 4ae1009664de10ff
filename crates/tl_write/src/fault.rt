//! How writing can fail.

ghost use Rattle.std.specs.Prelude.{Some, ◌≡◌};
ghost use Rattle.fault_report.specs.Reports.{report_line};
ghost use Rattle.tl_write.specs.Reports.{write_report};

use fault_report::{FaultKind, FaultPlace, FaultReport};
use std::fmt;
use thiserror::Error;

/// A sink failed before all of a text was written (10).
#[derive(Clone, Copy, Debug, PartialEq, Eq, Error)]
pub struct WriteFault {
    /// How many bytes of the text were written before that, from its beginning.
    pub written: u64,
}

impl WriteFault {
    /// Returns the fault as every interface reports it: its number, its name and its place.
    pub fn report(&self) -> FaultReport
        ensures { result ≡ write_report self.now }
    {
        FaultReport::at(FaultKind::WriteFault, FaultPlace::Number(self.written))
    }
}

/// The line of the fault's report.
impl fmt::Display for WriteFault {
    ghost output = { λ fault. Some (report_line (write_report fault)) };

    fn fmt<W: fmt::Write>(&self, f: &mut fmt::Formatter<W>) -> fmt::Result {
        self.report().fmt(f)
    }
}
