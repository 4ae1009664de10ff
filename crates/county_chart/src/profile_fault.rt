//! How a county can be outside the profile.

ghost use Rattle.std.specs.Prelude.{Some, ◌≡◌};
ghost use Rattle.fault_report.specs.Reports.{report_line};
ghost use Rattle.county_chart.specs.ProfileReports.{profile_report};

use fault_report::{FaultKind, FaultPlace, FaultReport};
use std::alloc::AllocError;
use std::fmt;
use thiserror::Error;

/// The first clause of the profile that a county breaks, and the lowest place at which it breaks it.
#[derive(Clone, Copy, Debug, PartialEq, Eq, Error)]
pub enum ProfileFault {
    /// A polygon with a record of type P is on no side of a chain (23).
    PolygonWithoutChain { cenid: [u8; 5], polyid: u64 },
    /// Chains with the same points, or with points that are the same from both ends, leave more than 5,040 choices open (24).
    TooSymmetric,
    /// An allocation failed (9).
    Memory,
}

impl ProfileFault {
    /// Returns the fault as every interface reports it: its number, its name and its places.
    pub fn report(&self) -> FaultReport
        ensures { result ≡ profile_report self.now }
    {
        match self {
            ProfileFault::PolygonWithoutChain { cenid, polyid } => FaultReport::at_two(
                FaultKind::PolygonWithoutChain,
                FaultPlace::Cenid(*cenid),
                FaultPlace::Number(*polyid),
            ),
            ProfileFault::TooSymmetric => FaultReport::bare(FaultKind::TooSymmetric),
            ProfileFault::Memory => FaultReport::bare(FaultKind::Memory),
        }
    }
}

/// The line of the fault's report.
impl fmt::Display for ProfileFault {
    ghost output = { λ fault. Some (report_line (profile_report fault)) };

    fn fmt<W: fmt::Write>(&self, f: &mut fmt::Formatter<W>) -> fmt::Result {
        self.report().fmt(f)
    }
}

impl From<AllocError> for ProfileFault {
    ghost use Rattle.county_chart.specs.declared.profile_fault.ProfileFault.TheVariants.{Memory};

    ghost from_gives = { λ _ fault. fault ≡ Memory };

    fn from(_error: AllocError) -> ProfileFault {
        ProfileFault::Memory
    }
}
