//! What the program does, over files that are already open.

ghost use Rattle.std.specs.Io.KnownBytes.{Keeps};
ghost use Rattle.std.specs.Prelude.{Contains, Err, IfErr, IfOk, OnOk, [], ◌<◌, ◌∷◌, ◌≡◌, ◌≤◌};
ghost use Rattle.tigercanon.specs.Running.{IsMissingOne, IsRefusedBy, IsUnopened, PrintsDifferent, PrintsDone, PrintsSome, ReportsMissing, ReportsWhy, set_of_files, stopped_at_missing};
ghost use Rattle.tigercanon.specs.Devices.{to_sink};
ghost use Rattle.tigercanon.specs.Files.{AreCounted, lacks_file};
ghost use Rattle.tigercanon.specs.Outcomes.{ReportsLine, ReportsLineTo};
ghost use Rattle.tigercanon.specs.TwoSets.{HasRun};

use crate::library::comparing::{FIRST, SECOND};
use crate::program::counted::run_counted;
use crate::program::ending::{Stopped, refuse_missing, report_outcome};
use crate::program::files::{CountedFile, Opened, lacks_file, open_set};
use command_line::Job;
use std::alloc::Global;
use std::io::{Read, Write};
use tl_layout::{DeviceFault, Mask};
use tl_write::Sink;

/// A sink over a lent writer. Every error of the writer counts as a failure, and so does a write that takes none of a nonempty
/// buffer. No failed write is tried again.
#[derive(Drop)]
pub(crate) struct LentOut<'a, W> {
    writer: &'a mut W,
    failures: u64,
}

impl<'a, W: Write> LentOut<'a, W> {
    /// Makes a sink that hasn't failed yet.
    pub(crate) fn new(writer: &'a mut W) -> LentOut<'a, W>
        ensures same { result.writer.ghost_name ≡ writer.entry.ghost_name }
        ensures now { result.writer.now ≡ writer.old }
        ensures failures { result.failures ≡ 0 }
    {
        LentOut {
            writer,
            failures: 0,
        }
    }

    pub(crate) fn give_back(self) -> &'a mut W
        ensures same { result.ghost_name ≡ self.entry.writer.ghost_name }
        ensures now { result.now ≡ self.entry.writer.now }
    {
        self.writer
    }
}

impl<W: Write> Sink for LentOut<'_, W> {
    ghost use Rattle.tigercanon.specs.Lending.{HoldsUnderName};

    ghost failed = { λ s. s.failures };

    ghost holds = { λ s. HoldsUnderName s.writer.ghost_name (W.contents s.writer.now) };

    fn failures(&self) -> u64 {
        self.failures
    }

    fn write(&mut self, buf: &[u8]) -> Result<usize, DeviceFault> {
        match self.writer.write(buf) {
            Ok(count) if count > 0 || buf.is_empty() => Ok(count),
            _ => {
                self.failures += 1;
                Err(DeviceFault)
            }
        }
    }
}

/// Returns the files of a job's sets as sources that haven't failed, unless one that it needs is missing. Nothing is allocated then.
fn open_sets<R: Read + Drop>(
    alloc: Global,
    job: Job,
    first: Vec<Opened<R>>,
    second: Vec<Opened<R>>,
) -> Result<(Vec<CountedFile<R>>, Vec<CountedFile<R>>), Stopped>
    ensures opened { IfOk result (λ sets. AreCounted sets.0.items first.items × AreCounted sets.1.items second.items) }
    ensures found { OnOk result (¬ IsMissingOne job first.items second.items) }
    ensures missing { IsMissingOne job first.items second.items → result ≡ Err (stopped_at_missing job (lacks_file first.items)) }
    ensures unopened { IfErr result (IsUnopened job) }
{
    refuse_missing(job, lacks_file(&first), lacks_file(&second))?;
    let first = open_set(alloc, job, FIRST, Ok(first))?;
    let second = open_set(alloc, job, SECOND, Ok(second))?;
    Ok((first, second))
}

/// Does what [`run`] does, over outputs that count their failures.
fn run_files<R: Read + Drop, W: Sink, E: Sink>(
    alloc: Global,
    job: Job,
    first: Vec<Opened<R>>,
    second: Vec<Opened<R>>,
    out: &mut W,
    err: &mut E,
    mask: Mask,
) -> u8
    requires out { W.failed out.old < u64.MAX }
    requires err { E.failed err.old < u64.MAX }
    ensures ran { HasRun mask job (set_of_files R.remaining first.items) (set_of_files R.remaining second.items)
        (to_sink W.failed W.holds out.old out.new) (ReportsLineTo E.failed E.holds err.old err.new) (err.new ≡ err.old) result }
    ensures missing { IsMissingOne job first.items second.items → result ≡ 4 }
    ensures missing_silent { IsMissingOne job first.items second.items → out.new ≡ out.old }
    ensures missing_reported { IsMissingOne job first.items second.items →
        ReportsMissing job first.items second.items (ReportsLineTo E.failed E.holds err.old err.new) }
{
    match open_sets(alloc, job, first, second) {
        Ok((mut first, mut second)) => {
            run_counted(alloc, job, &mut first, &mut second, out, err, mask)
        }
        Err(stopped) => report_outcome(Err(stopped), err),
    }
}

/// Does a job over the files of its sets, and returns the exit status: 0 if it is done, 1 if two sets are different maps, 3 if a
/// set is refused, 4 if a file is missing, can't be opened or can't be read, or if `out` failed, 5 if an allocation failed. Only a
/// comparison looks at `second`. Only the jobs that print or compare maps look at the mask: they see the fields that it leaves out as
/// blank.
///
/// The result is written to `out`, after all sets were judged: `respell` judges only lines, the other jobs also whether records fit
/// together. If the job isn't done, one line on `err` reports why: the refusal, and which of two sets is at fault. A failure of `err`
/// changes nothing.
pub fn run<R: Read + Drop, W: Write, E: Write>(
    alloc: Global,
    job: Job,
    first: Vec<Opened<R>>,
    second: Vec<Opened<R>>,
    out: &mut W,
    err: &mut E,
    mask: Mask,
) -> u8
    ensures statuses { Contains (0 ∷ 1 ∷ 3 ∷ 4 ∷ 5 ∷ []) result }
    ensures done { result ≡ 0 → PrintsDone mask job R.remaining first.items second.items (W.contents out.old) (W.contents out.new) }
    // Only a comparison returns this.
    ensures different { result ≡ 1 → PrintsDifferent mask job R.remaining first.items second.items (W.contents out.old) (W.contents out.new) }

    // If a set is refused, nothing is written to `out`.
    ensures refused { result ≡ 3 → IsRefusedBy job R.remaining first.items second.items }
    ensures silent { result ≡ 3 → Keeps (W.contents out.old) (W.contents out.new) }
    ensures memory { result ≡ 5 → Keeps (W.contents out.old) (W.contents out.new) }

    ensures device { result ≡ 4 → PrintsSome mask job R.remaining first.items second.items (W.contents out.old) (W.contents out.new) }
    ensures missing { IsMissingOne job first.items second.items → result ≡ 4 }
    ensures missing_silent { IsMissingOne job first.items second.items → Keeps (W.contents out.old) (W.contents out.new) }

    // The line on `err` reports the fault, and which of two sets is at fault. Nothing is written there if the job is done.
    ensures reported { 1 < result → ReportsWhy mask job R.remaining first.items second.items (W.contents out.old) (W.contents out.new)
        (ReportsLine (E.contents err.old) (E.contents err.new)) result }
    ensures missing_reported { IsMissingOne job first.items second.items →
        ReportsMissing job first.items second.items (ReportsLine (E.contents err.old) (E.contents err.new)) }
    ensures unreported { result ≤ 1 → Keeps (E.contents err.old) (E.contents err.new) }
{
    let mut text = LentOut::new(out);
    let mut lines = LentOut::new(err);
    let status = run_files(alloc, job, first, second, &mut text, &mut lines, mask);
    text.give_back();
    lines.give_back();
    status
}
