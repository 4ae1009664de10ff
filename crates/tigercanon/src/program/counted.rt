//! What the program does, over open files and outputs that count their failures.

ghost use Rattle.std.specs.Prelude.{Contains, Err, [], ◌<◌, ◌∷◌, ◌≡◌, ◌≢◌, ◌≤◌};
ghost use Rattle.tigercanon.specs.Devices.{DeviceFailed, NoFileFailed, ReportsNoDevice, set_of_counted, to_sink};
ghost use Rattle.tigercanon.specs.TwoSets.{Does, IsDifferent, IsDone, IsReportedWhy};
ghost use Rattle.tigercanon.specs.Files.{AreReadable, lacks_file, opened_of};
ghost use Rattle.tigercanon.specs.Outcomes.{ReportsLineTo};
ghost use Rattle.tigercanon.specs.Running.{IsMissingOne, ReportsMissing, stopped_at_missing};

use crate::program::ending::{Ending, Stopped, refuse_missing, report_outcome};
use crate::program::files::{CountedFile, lacks_counted_file};
use crate::program::jobs::do_job;
use command_line::Job;
use std::alloc::Global;
use std::io::Read;
use tl_layout::Mask;
use tl_write::Sink;

/// Does a job over the files of its sets, unless one that it needs is missing. Nothing is read then.
fn do_counted<R: Read, W: Sink>(
    alloc: Global,
    job: Job,
    first: &mut [CountedFile<R>],
    second: &mut [CountedFile<R>],
    out: &mut W,
    mask: Mask,
) -> Result<Ending, Stopped>
    requires first { AreReadable first.old }
    requires second { AreReadable second.old }
    requires out { W.failed out.old < u64.MAX }
    ensures did { ¬ IsMissingOne job (opened_of first.old) (opened_of second.old) →
        Does mask job (set_of_counted job R.remaining first.old first.new) (set_of_counted job R.remaining second.old second.new)
        (to_sink W.failed W.holds out.old out.new) result }
    ensures no_device { ReportsNoDevice result → NoFileFailed first.old first.new × NoFileFailed second.old second.new }
    ensures missing { IsMissingOne job (opened_of first.old) (opened_of second.old) →
        result ≡ Err (stopped_at_missing job (lacks_file (opened_of first.old))) }
    ensures missing_silent { IsMissingOne job (opened_of first.old) (opened_of second.old) →
        (out.new ≡ out.old) × (first.new ≡ first.old) × (second.new ≡ second.old) }
{
    refuse_missing(job, lacks_counted_file(first), lacks_counted_file(second))?;
    do_job(alloc, job, first, second, out, mask)
}

/// Does a job over the files of its sets, which count their failures as `out` and `err` do, and returns the exit status, as
/// [`run`](crate::run) does over files and outputs that may not. So this contract states that a device is reported only if one failed,
/// that every refusal is reported as itself, and that the line on `err` is whole unless `err` failed.
pub fn run_counted<R: Read, W: Sink, E: Sink>(
    alloc: Global,
    job: Job,
    first: &mut [CountedFile<R>],
    second: &mut [CountedFile<R>],
    out: &mut W,
    err: &mut E,
    mask: Mask,
) -> u8
    requires first { AreReadable first.old }
    requires second { AreReadable second.old }
    requires out { W.failed out.old < u64.MAX }
    requires err { E.failed err.old < u64.MAX }
    ensures statuses { Contains (0 ∷ 1 ∷ 3 ∷ 4 ∷ 5 ∷ []) result }
    ensures done { result ≡ 0 → IsDone mask job (set_of_counted job R.remaining first.old first.new)
        (set_of_counted job R.remaining second.old second.new) (to_sink W.failed W.holds out.old out.new) }
    // Only a comparison returns this.
    ensures different { result ≡ 1 → IsDifferent mask job (set_of_counted job R.remaining first.old first.new)
        (set_of_counted job R.remaining second.old second.new) (to_sink W.failed W.holds out.old out.new) }

    // A refusal is reported as itself, and a device only if it failed. The line is whole unless `err` failed.
    ensures reported { 1 < result → ¬ IsMissingOne job (opened_of first.old) (opened_of second.old) →
        IsReportedWhy mask job (set_of_counted job R.remaining first.old first.new)
        (set_of_counted job R.remaining second.old second.new)
        (to_sink W.failed W.holds out.old out.new) (ReportsLineTo E.failed E.holds err.old err.new) result }
    ensures unreported { result ≤ 1 → err.new ≡ err.old }
    ensures device { result ≡ 4 → ¬ IsMissingOne job (opened_of first.old) (opened_of second.old) →
        DeviceFailed (set_of_counted job R.remaining first.old first.new) (set_of_counted job R.remaining second.old second.new)
        (to_sink W.failed W.holds out.old out.new) }
    ensures no_device { result ≢ 4 → NoFileFailed first.old first.new × NoFileFailed second.old second.new }

    // If a file is missing, none is read.
    ensures missing { IsMissingOne job (opened_of first.old) (opened_of second.old) → result ≡ 4 }
    ensures missing_silent { IsMissingOne job (opened_of first.old) (opened_of second.old) →
        (out.new ≡ out.old) × (first.new ≡ first.old) × (second.new ≡ second.old) }
    ensures missing_reported { IsMissingOne job (opened_of first.old) (opened_of second.old) →
        ReportsMissing job (opened_of first.old) (opened_of second.old) (ReportsLineTo E.failed E.holds err.old err.new) }
{
    let outcome = do_counted(alloc, job, first, second, out, mask);
    report_outcome(outcome, err)
}
