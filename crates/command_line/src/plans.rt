//! What a command line asks the program to do.

ghost use Rattle.std.specs.Prelude.{◌≡◌};
ghost use Rattle.command_line.specs.declared.plans.PlanFault.TheVariants.{Memory};

use std::alloc::{AllocError, AllocFailed};
use thiserror::Error;
use tl_layout::Mask;

/// A job of the program.
#[derive(Clone, Copy, Debug, PartialEq, Eq)]
pub enum Job {
    /// Print a set's records in canonical spelling, in the same order and with the same numbers.
    Respell,
    /// Print the canonical text of an accepted set.
    Normalise,
    /// Report whether a set is accepted: its lines spell records, the records fit together, and their county is in the
    /// profile.
    Check,
    /// Print the fingerprint of an accepted set.
    Fingerprint,
    /// Report whether two accepted sets are the same map.
    Compare,
}

/// A job, the names of the files that it reads, and the fields that it leaves out.
#[derive(Debug, Drop)]
pub struct Plan {
    /// The job to do.
    pub job: Job,
    /// The fields to leave out when a map is printed or compared. Respelling and checking leave none out.
    pub mask: Mask,
    /// The files of the set, in order, or of the first of two sets.
    pub first: Vec<String>,
    /// The files of the second set, if the job has two.
    pub second: Vec<String>,
}

/// Why a command line has no plan.
#[derive(Debug, Drop, Error)]
pub enum PlanFault {
    /// The arguments ask for help or the version, or aren't valid. This is the text for the user.
    #[error("{0}")]
    Usage(String),
    /// There wasn't enough memory to parse the arguments.
    #[error("refused 9 Memory")]
    Memory,
}

impl From<AllocError> for PlanFault {
    ghost from_gives = { λ _ made. made ≡ Memory };

    fn from(_error: AllocError) -> PlanFault {
        PlanFault::Memory
    }
}

impl<T: Drop> From<AllocFailed<T>> for PlanFault {
    ghost from_gives = { λ _ made. made ≡ Memory };

    fn from(_error: AllocFailed<T>) -> PlanFault {
        PlanFault::Memory
    }
}
