//! What the program's jobs do with the sources of their sets and a sink.
//!
//! Sources and sinks count their failures. So the contract of each job can state that it reports a device only if one failed, and
//! that the whole result was written if the sink didn't fail.

ghost use Rattle.hex.specs.Hex.{encode_lower};
ghost use Rattle.std.specs.Prelude.{All, Err, IfErr, IfOk, [], string_bytes, ◌++◌, ◌<◌, ◌∷◌, ◌≡◌, ◌≢◌};
ghost use Rattle.tigercanon.specs.Devices.{ReportsNoDevice, set_of_sources, to_sink};
ghost use Rattle.tigercanon.specs.TwoSets.{Does, DoesAlone, IsTextOf, ReportsOne, line_of_ending};
ghost use Rattle.tigercanon.specs.Outcomes.{IsAnswered, Reports};
ghost use Rattle.tigercanon.specs.Reading.{NoneFailed};
ghost use Rattle.tigercanon.specs.Respelling.{IsRespelt};
ghost use Rattle.tl_layout.specs.Masked.{no_mask};

use crate::fault::Fault;
use crate::library::comparing::{FIRST, SECOND, compare_unlinked, tag_set};
use crate::library::linked::judge;
use crate::library::making::make_of;
use crate::library::normalising::normalise_to_masked;
use crate::library::products::Hash;
use crate::library::reading::read_to_ends;
use crate::program::ending::{Ending, Stopped, print_text};
use command_line::Job;
use std::alloc::Global;
use tl_layout::{Mask, Tables};
use tl_load::{CanonicalText, LoadFault, Source};
use tl_write::Sink;

/// Returns the records of a set in canonical spelling, once all of it is read.
fn spelling_of<R: Source>(alloc: Global, set: &mut [R]) -> Result<CanonicalText, Fault>
    requires { All (λ part. R.failed part < u64.MAX) set.old }
    ensures respelt { IfOk result (λ text. IsAnswered IsRespelt
        (set_of_sources Job.Respell R.remaining R.given R.failed R.reads set.old set.new) text.bytes.items) }
    ensures stopped { IfErr result (Reports Job.Respell (set_of_sources Job.Respell R.remaining R.given R.failed R.reads set.old set.new)) }
    // If the fault isn't a device's, no source has failed.
    ensures no_device { result ≢ Err (Fault.Load LoadFault.Device) → NoneFailed R.failed set.old set.new }
{
    let loader = read_to_ends::<CanonicalText, R>(alloc, set)?;
    Ok(loader.finish()?)
}

/// Prints that a set is accepted, once all of it is read and judged.
fn check_set<R: Source, W: Sink>(
    alloc: Global,
    set: &mut [R],
    out: &mut W,
) -> Result<Ending, Stopped>
    requires set { All (λ part. R.failed part < u64.MAX) set.old }
    requires out { W.failed out.old < u64.MAX }
    ensures did { DoesAlone no_mask Job.Check (set_of_sources Job.Check R.remaining R.given R.failed R.reads set.old set.new)
        (to_sink W.failed W.holds out.old out.new) result }
    // If the fault isn't a device's, no source has failed.
    ensures no_device { ReportsNoDevice result → NoneFailed R.failed set.old set.new }
{
    let loader = read_to_ends::<Tables, R>(alloc, set)?;
    judge(alloc, loader)?;
    print_text(b"accepted\n", Ending::Done, out)
}

/// Returns the line of these bytes: two lowercase hexadecimal digits per byte, and LF.
fn line_of_digits(alloc: Global, bytes: &[u8]) -> Result<String, Fault>
    ensures digits { IfOk result (λ line. string_bytes line ≡ encode_lower bytes.now ++ 10 ∷ []) }
    ensures memory { IfErr result (λ fault. fault ≡ Fault.Memory) }
{
    let mut line = hex::encode(alloc, bytes)?;
    line.push('\n')?;
    Ok(line)
}

/// Prints the fingerprint of a set under a mask, once all of it is read and judged.
fn fingerprint_set<R: Source, W: Sink>(
    alloc: Global,
    set: &mut [R],
    out: &mut W,
    mask: Mask,
) -> Result<Ending, Stopped>
    requires set { All (λ part. R.failed part < u64.MAX) set.old }
    requires out { W.failed out.old < u64.MAX }
    ensures did { DoesAlone mask Job.Fingerprint (set_of_sources Job.Fingerprint R.remaining R.given R.failed R.reads set.old set.new)
        (to_sink W.failed W.holds out.old out.new) result }
    // If the fault isn't a device's, no source has failed.
    ensures no_device { ReportsNoDevice result → NoneFailed R.failed set.old set.new }
{
    let loader = read_to_ends::<Tables, R>(alloc, set)?;
    let hash = make_of(alloc, loader, Hash, &mut (), mask)?;
    let line = line_of_digits(alloc, &hash)?;
    print_text(line.as_bytes(), Ending::Done, out)
}

/// Reads two sets, each part to its end, and compares them under a mask once both are read.
fn compare_sources<R: Source>(
    alloc: Global,
    first: &mut [R],
    second: &mut [R],
    mask: Mask,
) -> Result<Ending, Stopped>
    requires first { All (λ part. R.failed part < u64.MAX) first.old }
    requires second { All (λ part. R.failed part < u64.MAX) second.old }
    ensures verdict { IfOk result (λ ending. IsTextOf mask Job.Compare
        (set_of_sources Job.Compare R.remaining R.given R.failed R.reads first.old first.new)
        (set_of_sources Job.Compare R.remaining R.given R.failed R.reads second.old second.new) ending (line_of_ending ending)) }
    ensures refused { IfErr result (λ stopped. ReportsOne (set_of_sources Job.Compare R.remaining R.given R.failed R.reads first.old first.new)
        (set_of_sources Job.Compare R.remaining R.given R.failed R.reads second.old second.new) stopped.fault stopped.set) }
    // If the fault isn't a device's, no source has failed.
    ensures no_device { ReportsNoDevice result → NoneFailed R.failed first.old first.new × NoneFailed R.failed second.old second.new }
{
    let one = tag_set(FIRST, read_to_ends::<Tables, R>(alloc, first))?;
    let other = tag_set(SECOND, read_to_ends::<Tables, R>(alloc, second))?;
    let is_one_map = compare_unlinked(alloc, one, other, mask)?;
    if is_one_map {
        Ok(Ending::Done)
    } else {
        Ok(Ending::Different)
    }
}

/// Returns the line that a comparison prints.
fn line_of_ending(ending: Ending) -> &'static [u8]
    ensures { result.now ≡ line_of_ending ending }
{
    match ending {
        Ending::Done => b"same\n",
        Ending::Different => b"different\n",
    }
}

/// Does a job over the sources of its sets. Normalising reads no further than the read that brings a fault. Every other job reads its
/// sets to their ends, and reports a part that can't be read before a fault in the lines. The mask applies to the jobs that print or
/// compare maps; respelling and checking read everything.
pub(crate) fn do_job<R: Source, W: Sink>(
    alloc: Global,
    job: Job,
    first: &mut [R],
    second: &mut [R],
    out: &mut W,
    mask: Mask,
) -> Result<Ending, Stopped>
    requires first { All (λ part. R.failed part < u64.MAX) first.old }
    requires second { All (λ part. R.failed part < u64.MAX) second.old }
    requires out { W.failed out.old < u64.MAX }
    ensures did { Does mask job (set_of_sources job R.remaining R.given R.failed R.reads first.old first.new)
        (set_of_sources job R.remaining R.given R.failed R.reads second.old second.new) (to_sink W.failed W.holds out.old out.new) result }
    // If the fault isn't a device's, no source has failed.
    ensures no_device { ReportsNoDevice result → NoneFailed R.failed first.old first.new × NoneFailed R.failed second.old second.new }
{
    match job {
        Job::Respell => {
            let text = spelling_of(alloc, first)?;
            print_text(&text.bytes, Ending::Done, out)
        }
        Job::Normalise => {
            normalise_to_masked(alloc, first, out, mask)?;
            Ok(Ending::Done)
        }
        Job::Check => check_set(alloc, first, out),
        Job::Fingerprint => fingerprint_set(alloc, first, out, mask),
        Job::Compare => {
            let ending = compare_sources(alloc, first, second, mask)?;
            print_text(line_of_ending(ending), ending, out)
        }
    }
}
