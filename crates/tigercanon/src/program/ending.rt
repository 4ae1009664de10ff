//! How jobs end, and how the program reports it, or that a command line isn't a plan.

ghost use Rattle.std.specs.IoError.{error_kind};
ghost use Rattle.std.specs.Prelude.{IfErr, IfOk, IsTrue, None, OnOk, false, ◌<◌, ◌≡◌};
ghost use Rattle.tigercanon.specs.Refusals.{IsUsage, fault_line, not_utf8, plan_text_of};
ghost use Rattle.tigercanon.specs.Devices.{PrintsTo};
ghost use Rattle.tigercanon.specs.Outcomes.{ReportsLineTo};
ghost use Rattle.tigercanon.specs.Running.{lacks_one, stopped_at_missing};
ghost use Rattle.tigercanon.specs.Statuses.{plan_status_of, set_of_job, status_of, status_of_outcome, stopped_by};

use crate::fault::Fault;
use crate::library::comparing::{CompareFault, FIRST, SECOND};
use command_line::{Job, PlanFault};
use fault_report::push;
use std::alloc::Global;
use std::io::{Error, ErrorKind};
use tl_load::LoadFault;
use tl_write::{Sink, write_bytes};

/// How a completed job ended.
#[derive(Clone, Copy, Debug, PartialEq, Eq)]
pub(crate) enum Ending {
    /// The result was printed; for two sets, that they describe the same map.
    Done,
    /// It was printed that two sets are different maps.
    Different,
}

/// Why a job stopped, and, if one of two sets is at fault, which one: 1 or 2.
#[derive(Clone, Copy, Debug)]
pub struct Stopped {
    pub fault: Fault,
    pub set: Option<u8>,
}

impl From<CompareFault> for Stopped {
    ghost from_gives = { λ reported made. made ≡ stopped_by reported };

    fn from(reported: CompareFault) -> Stopped {
        match reported {
            CompareFault::In { set, fault } => Stopped {
                fault,
                set: Some(set),
            },
            CompareFault::Memory => Stopped::from(Fault::Memory),
        }
    }
}

/// A fault of a job's only set, which needs no number.
impl From<Fault> for Stopped {
    ghost from_gives = { λ fault made. made ≡ record { fault = fault; set = None } };

    fn from(fault: Fault) -> Stopped {
        Stopped { fault, set: None }
    }
}

/// Writes a line to a sink, or a beginning of it if the sink fails.
pub(crate) fn write_line<E: Sink>(line: &[u8], err: &mut E)
    requires { E.failed err.old < u64.MAX }
    ensures { ReportsLineTo E.failed E.holds err.old err.new line.now }
{
    let _ = write_bytes(line, err);
}

/// Writes to a sink, in one line, why a job stopped, if it did, and returns the exit status.
pub(crate) fn report_outcome<E: Sink>(outcome: Result<Ending, Stopped>, err: &mut E) -> u8
    requires { E.failed err.old < u64.MAX }
    ensures status { result ≡ status_of_outcome outcome }
    ensures reported { IfErr outcome (λ stopped. ReportsLineTo E.failed E.holds err.old err.new (fault_line stopped.fault stopped.set)) }
    ensures unreported { OnOk outcome (err.new ≡ err.old) }
{
    match outcome {
        Ok(Ending::Done) => 0,
        Ok(Ending::Different) => 1,
        Err(stopped) => {
            let mut line = stopped.fault.line(stopped.set);
            push(&mut line, b"\n");
            write_line(line.as_slice(), err);
            stopped.fault.status()
        }
    }
}

/// Prints the text of a job that ends in this way, or a beginning of it if the sink fails.
pub(crate) fn print_text<W: Sink>(
    text: &[u8],
    ending: Ending,
    out: &mut W,
) -> Result<Ending, Stopped>
    requires { W.failed out.old < u64.MAX }
    ensures { PrintsTo W.failed W.holds out.old out.new text.now ending result }
{
    match write_bytes(text, out) {
        Ok(_) => Ok(ending),
        Err(fault) => Err(Stopped::from(Fault::Write(fault))),
    }
}

/// Returns the report of a fault of one of a job's sets. A job that reads only one set names none.
pub(crate) fn stopped_in(job: Job, set: u8, fault: Fault) -> Stopped
    ensures { result ≡ record { fault = fault; set = set_of_job job set } }
{
    match job {
        Job::Compare => Stopped {
            fault,
            set: Some(set),
        },
        Job::Respell | Job::Normalise | Job::Check | Job::Fingerprint => Stopped::from(fault),
    }
}

/// Refuses the sets if one that the job reads lacks a file that it needs, which is given for each. The first set is reported before
/// the second.
pub(crate) fn refuse_missing(
    job: Job,
    first_lacks_one: bool,
    second_lacks_one: bool,
) -> Result<(), Stopped>
    ensures found { OnOk result (lacks_one job first_lacks_one second_lacks_one ≡ false) }
    ensures missing { IfErr result (λ stopped. IsTrue (lacks_one job first_lacks_one second_lacks_one)
        × (stopped ≡ stopped_at_missing job first_lacks_one)) }
{
    let fault = Fault::Load(LoadFault::Device);
    if first_lacks_one {
        return Err(stopped_in(job, FIRST, fault));
    }
    match job {
        Job::Compare if second_lacks_one => Err(stopped_in(job, SECOND, fault)),
        Job::Compare => Ok(()),
        Job::Respell | Job::Normalise | Job::Check | Job::Fingerprint => Ok(()),
    }
}

/// Returns the fault if the arguments couldn't be read: a failed allocation, or arguments that aren't UTF-8.
pub fn args_error(alloc: Global, error: &Error) -> PlanFault
    ensures memory { error_kind error.now ≡ ErrorKind.OutOfMemory → result ≡ PlanFault.Memory }
    ensures usage { IsUsage result not_utf8 }
{
    if error.kind() == ErrorKind::OutOfMemory {
        return PlanFault::Memory;
    }
    match String::from_str(
        alloc,
        "error: invalid UTF-8 was detected in one or more arguments\n",
    ) {
        Ok(text) => PlanFault::Usage(text),
        Err(_) => PlanFault::Memory,
    }
}

/// Writes to a sink why a command line isn't a plan, and returns the exit status: 2 for the usage, 5 for a failed allocation. The
/// whole text is written unless the sink fails.
pub fn report<E: Sink>(fault: &PlanFault, err: &mut E) -> u8
    requires { E.failed err.old < u64.MAX }
    ensures status { result ≡ plan_status_of fault.now }
    ensures reported { ReportsLineTo E.failed E.holds err.old err.new (plan_text_of fault.now) }
{
    match fault {
        PlanFault::Usage(text) => {
            write_line(text.as_bytes(), err);
            2
        }
        PlanFault::Memory => report_outcome(Err(Stopped::from(Fault::Memory)), err),
    }
}

/// Returns the exit status of a job: its own, or, if its files weren't opened, the status of the fault that is then written to `err` in one
/// line.
pub fn job_status<E: Sink>(outcome: Result<u8, Stopped>, err: &mut E) -> u8
    requires { E.failed err.old < u64.MAX }
    ensures done { IfOk outcome (λ status. (result ≡ status) × (err.new ≡ err.old)) }
    ensures reported { IfErr outcome (λ stopped. (result ≡ status_of stopped.fault)
        × ReportsLineTo E.failed E.holds err.old err.new (fault_line stopped.fault stopped.set)) }
{
    match outcome {
        Ok(status) => status,
        Err(stopped) => report_outcome(Err(stopped), err),
    }
}

/// Returns the program's exit status: the job's, or, if the command line led to no job, the status of the fault that [`report`] writes to
/// `err`.
pub fn exit_status<E: Sink>(outcome: Result<u8, PlanFault>, err: &mut E) -> u8
    requires { E.failed err.old < u64.MAX }
    ensures done { IfOk outcome (λ status. (result ≡ status) × (err.new ≡ err.old)) }
    ensures reported { IfErr outcome (λ fault. (result ≡ plan_status_of fault)
        × ReportsLineTo E.failed E.holds err.old err.new (plan_text_of fault)) }
{
    match outcome {
        Ok(status) => status,
        Err(fault) => report(&fault, err),
    }
}
