//! Why a call of the library returns no result.

ghost use Rattle.std.specs.Prelude.{Some, length, ◌≡◌, ◌≤◌};
ghost use Rattle.fault_report.specs.Reports.{report_line};
ghost use Rattle.tigercanon.specs.declared.fault.Fault.TheVariants.{Link, Load, Memory, Profile, Write};
ghost use Rattle.tigercanon.specs.Refusals.{report_of, reported_of};
ghost use Rattle.tigercanon.specs.Statuses.{status_of};

use fault_report::{FaultKind, FaultReport, Line, push, push_digits};
use std::alloc::{AllocError, AllocFailed};
use std::fmt;
use thiserror::Error;
use tl_county::LinkFault;
use tl_load::LoadFault;
use tl_profile::ProfileFault;
use tl_write::WriteFault;

/// Why a call returned no result, or wrote only part of it.
#[derive(Clone, Copy, Debug, PartialEq, Eq, Error)]
pub enum Fault {
    /// Loading refused the set: the first faulty line, or what kept the parts from being read.
    Load(LoadFault),
    /// Linking refused the set: the first rule that its records break, or a failed allocation.
    Link(LinkFault),
    /// Admission refused the set: the first clause of the profile that its county breaks, or a failed allocation.
    Profile(ProfileFault),
    /// The set is accepted, and the sink failed before the whole result was written.
    Write(WriteFault),
    /// An allocation failed while the parts were read or the result was made.
    Memory,
}

impl Fault {
    /// Returns the fault as every interface reports it: its number, its name and its places.
    pub fn report(&self) -> FaultReport
        ensures { result ≡ report_of self.now }
    {
        match self {
            Fault::Load(fault) => fault.report(),
            Fault::Link(fault) => fault.report(),
            Fault::Profile(fault) => fault.report(),
            Fault::Write(fault) => fault.report(),
            Fault::Memory => FaultReport::bare(FaultKind::Memory),
        }
    }

    /// Returns the exit status of a job that stops because of it: 3 for a refused set, 4 for an I/O error, 5 if an allocation failed.
    pub fn status(&self) -> u8
        ensures { result ≡ status_of self.now }
    {
        match self {
            Fault::Load(LoadFault::Device) | Fault::Write(_) => 4,
            Fault::Load(LoadFault::Memory) | Fault::Memory => 5,
            Fault::Link(LinkFault::Memory) => 5,
            Fault::Profile(ProfileFault::Memory) => 5,
            Fault::Load(_) | Fault::Link(_) | Fault::Profile(_) => 3,
        }
    }

    /// Returns the line of the fault's report, without its line ending. If one of two sets is at fault, the line names it.
    pub(crate) fn line(&self, set: Option<u8>) -> Line
        ensures bytes { result.items ≡ reported_of self.now set }
        ensures short { length result.items ≤ 139 }
    {
        let mut line = self.report().line();
        if let Some(number) = set {
            push(&mut line, b" in set ");
            push_digits(&mut line, number as u64);
        }
        line
    }
}

/// The line of the fault's report.
impl fmt::Display for Fault {
    ghost output = { λ fault. Some (report_line (report_of fault)) };

    fn fmt<W: fmt::Write>(&self, f: &mut fmt::Formatter<W>) -> fmt::Result {
        self.report().fmt(f)
    }
}

impl From<LoadFault> for Fault {
    ghost from_gives = { λ fault made. made ≡ Load fault };

    fn from(fault: LoadFault) -> Fault {
        Fault::Load(fault)
    }
}

impl From<LinkFault> for Fault {
    ghost from_gives = { λ fault made. made ≡ Link fault };

    fn from(fault: LinkFault) -> Fault {
        Fault::Link(fault)
    }
}

impl From<ProfileFault> for Fault {
    ghost from_gives = { λ fault made. made ≡ Profile fault };

    fn from(fault: ProfileFault) -> Fault {
        Fault::Profile(fault)
    }
}

impl From<WriteFault> for Fault {
    ghost from_gives = { λ fault made. made ≡ Write fault };

    fn from(fault: WriteFault) -> Fault {
        Fault::Write(fault)
    }
}

impl From<AllocError> for Fault {
    ghost from_gives = { λ _ made. made ≡ Memory };

    fn from(_error: AllocError) -> Fault {
        Fault::Memory
    }
}

impl<T: Drop> From<AllocFailed<T>> for Fault {
    ghost from_gives = { λ _ made. made ≡ Memory };

    fn from(_error: AllocFailed<T>) -> Fault {
        Fault::Memory
    }
}
