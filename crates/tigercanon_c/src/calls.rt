//! The calls over parts as C lends them. Each makes the library's call and restates its contract.

ghost use Rattle.std.specs.Prelude.{Err, IfErr, IfOk, List, Ok, OnOk, [], false, true, ℕ, ◌∷◌, ◌≡◌, ◌≢◌};
ghost use Rattle.tigercanon.specs.Comparing.{AreDifferentInView, AreOneMapInView, ReportsMemoryOfAccepted, ReportsRefusalOfOne};
ghost use Rattle.tigercanon.specs.Sets.{IsAcceptedSet, IsCanonicalText, IsCanonicalTextInView, IsOneCanonicalTextInView};
ghost use Rattle.tigercanon.specs.Faults.{IsWantOfMemory, ReportsRefusalOfRead};
ghost use Rattle.tigercanon.specs.Fingerprints.{IsFingerprintInView};
ghost use Rattle.tigercanon.specs.LentParts.{bytes_of_parts};
ghost use Rattle.tigercanon.specs.Normalising.{IsOnlyTextInView};
ghost use Rattle.tigercanon.specs.Respelling.{IsRespelt};
ghost use Rattle.tl_layout.specs.Limits.{most_records};
ghost use Rattle.tl_layout.specs.declared.record_type.Record.{Record};
ghost use Rattle.tigercanon_c.specs.Answers.{ReportsFirstFaultOfRead, bytes_of_lent};
ghost use Rattle.county_chart.specs.MaskedCounty.{masked};
ghost use Rattle.tl_load.specs.Choice.{tiger};
ghost use Rattle.tl_load.specs.Outcome.{SpellsWithin};

use crate::edge::Part;
use std::alloc::{AllocError, Global};
use tigercanon::{
    CompareFault, Fault, are_one_map_masked, check, fingerprint_masked, normalise_masked, respell,
};
use tl_layout::Mask;
use tl_load::LoadFault;

/// Returns the parts as slices.
fn beside<'a>(alloc: Global, parts: &[Part<'a>]) -> Result<Vec<&'a [u8]>, AllocError>
    ensures { IfOk result (λ slices. bytes_of_parts slices.items ≡ bytes_of_lent parts.now) }
{
    parts.iter().map(|part| part.bytes).collect(alloc)
}

/// Returns the parts of one of two sets as slices. If there is no memory for the slices, the fault is reported for the first set, because
/// its work would have been first.
fn beside_of_two<'a>(alloc: Global, parts: &[Part<'a>]) -> Result<Vec<&'a [u8]>, CompareFault>
    ensures slices { IfOk result (λ slices. bytes_of_parts slices.items ≡ bytes_of_lent parts.now) }
    ensures memory { IfErr result (λ fault. fault ≡ CompareFault.In 1 Fault.Memory) }
{
    match beside(alloc, parts) {
        Ok(slices) => Ok(slices),
        Err(_) => Err(CompareFault::In {
            set: 1,
            fault: Fault::Memory,
        }),
    }
}

/// Returns the bytes of a text as a block of memory that the caller frees, or no block if there are no bytes.
fn handed_out<'t>(text: Vec<u8>) -> &'t [u8]
    ensures { result.now ≡ text.items }
{
    if text.is_empty() { &[] } else { text.leak() }
}

/// Checks whether the parts are accepted.
pub(crate) fn check_parts(alloc: Global, parts: &[Part]) -> Result<(), Fault>
    ensures accepted { OnOk result ((records : List Record) × IsAcceptedSet (bytes_of_lent parts.now) records) }
    ensures refused { IfErr result (ReportsRefusalOfRead (bytes_of_lent parts.now)) }
    ensures succeeds { (records : List Record) → IsAcceptedSet (bytes_of_lent parts.now) records → IfErr result IsWantOfMemory }
{
    let slices = beside(alloc, parts)?;
    check(alloc, slices.as_slice())
}

/// Returns the records of the parts in canonical spelling.
pub(crate) fn respell_parts<'t>(alloc: Global, parts: &[Part]) -> Result<&'t [u8], Fault>
    ensures respelt { IfOk result (λ text. IsRespelt (bytes_of_lent parts.now) text.now) }
    ensures faulty { IfErr result (ReportsFirstFaultOfRead (bytes_of_lent parts.now)) }
    ensures succeeds { (records : List Record) →
        SpellsWithin tiger most_records (bytes_of_lent parts.now) records → IfErr result IsWantOfMemory }
{
    let slices = beside(alloc, parts)?;
    match respell(alloc, slices.as_slice()) {
        Ok(text) => Ok(handed_out(text)),
        Err(fault) => Err(fault),
    }
}

/// Returns the canonical text of the parts under a mask.
pub(crate) fn normalise_parts<'t>(
    alloc: Global,
    parts: &[Part],
    mask: Mask,
) -> Result<&'t [u8], Fault>
    ensures canonical { IfOk result (λ text. IsCanonicalTextInView (masked mask) (bytes_of_lent parts.now) text.now) }
    ensures only { IfOk result (λ text. IsOnlyTextInView (masked mask) (bytes_of_lent parts.now) text.now) }
    ensures again { (bytes : List ℕ) → IsOneCanonicalTextInView (masked mask) (bytes_of_lent parts.now) bytes →
        IfOk result (λ text. text.now ≡ bytes) }
    ensures again_succeeds { (bytes : List ℕ) → IsOneCanonicalTextInView (masked mask) (bytes_of_lent parts.now) bytes →
        IfErr result IsWantOfMemory }
    ensures plain { IfOk result (λ text. IsCanonicalText (text.now ∷ []) text.now) }
    ensures refused { IfErr result (ReportsRefusalOfRead (bytes_of_lent parts.now)) }
    ensures succeeds { (records : List Record) → IsAcceptedSet (bytes_of_lent parts.now) records → IfErr result IsWantOfMemory }
{
    let slices = beside(alloc, parts)?;
    match normalise_masked(alloc, slices.as_slice(), mask) {
        Ok(text) => Ok(handed_out(text)),
        Err(fault) => Err(fault),
    }
}

pub(crate) fn fingerprint_parts(
    alloc: Global,
    parts: &[Part],
    mask: Mask,
) -> Result<[u8; 32], Fault>
    ensures fingerprint { IfOk result (IsFingerprintInView (masked mask) (bytes_of_lent parts.now)) }
    ensures refused { IfErr result (ReportsRefusalOfRead (bytes_of_lent parts.now)) }
    ensures succeeds { (records : List Record) → IsAcceptedSet (bytes_of_lent parts.now) records → IfErr result IsWantOfMemory }
{
    let slices = beside(alloc, parts)?;
    fingerprint_masked(alloc, slices.as_slice(), mask)
}

/// Checks whether two sets of parts describe the same map under a mask.
pub(crate) fn compare_parts(
    alloc: Global,
    first: &[Part],
    second: &[Part],
    mask: Mask,
) -> Result<bool, CompareFault>
    ensures same { result ≡ Ok true → AreOneMapInView (masked mask) (bytes_of_lent first.now) (bytes_of_lent second.now) }
    ensures different { result ≡ Ok false →
        AreDifferentInView (masked mask) (bytes_of_lent first.now) (bytes_of_lent second.now) }
    ensures refused { IfErr result (ReportsRefusalOfOne (bytes_of_lent first.now) (bytes_of_lent second.now)) }
    ensures no_device { (set : ℕ) → result ≢ Err (CompareFault.In set (Fault.Load LoadFault.Device)) }
    ensures succeeds { IfErr result (ReportsMemoryOfAccepted (bytes_of_lent first.now) (bytes_of_lent second.now)) }
{
    let first = beside_of_two(alloc, first)?;
    let second = beside_of_two(alloc, second)?;
    are_one_map_masked(alloc, first.as_slice(), second.as_slice(), mask)
}
