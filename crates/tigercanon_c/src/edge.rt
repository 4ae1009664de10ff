//! The interface to C: the types that cross it, and the five calls.
//!
//! Everything here is safe code. The caller isn't checked: each [`Part`] must be what it claims, an address that isn't null and as
//! many bytes from there as its length, and nothing may write to them during the call.

ghost use Rattle.std.specs.Prelude.{List, [], ℕ, ◌<◌, ◌∷◌, ◌≡◌, ◌≢◌, ◌⊎◌};
ghost use Rattle.tigercanon.specs.Comparing.{AreDifferentInView, AreOneMapInView, ReportsMemoryOfAccepted, ReportsRefusalOfOne};
ghost use Rattle.tigercanon.specs.Sets.{IsAcceptedSet, IsCanonicalText, IsCanonicalTextInView, IsOneCanonicalTextInView};
ghost use Rattle.tigercanon.specs.Faults.{ReportsRefusalOfRead};
ghost use Rattle.tigercanon.specs.Fingerprints.{IsFingerprintInView};
ghost use Rattle.tigercanon.specs.Normalising.{IsOnlyTextInView};
ghost use Rattle.tigercanon.specs.Respelling.{IsRespelt};
ghost use Rattle.tl_layout.specs.Limits.{most_records};
ghost use Rattle.tl_layout.specs.declared.record_type.Record.{Record};
ghost use Rattle.tigercanon_c.specs.Answers.{ReportsFirstFaultOfRead, ReportsOne, ReportsOneOfTwo, bytes_of_lent, mask_of};
ghost use Rattle.tigercanon_c.specs.Reported.{no_fault};
ghost use Rattle.county_chart.specs.MaskedCounty.{masked};
ghost use Rattle.tl_load.specs.Choice.{tiger};
ghost use Rattle.tl_load.specs.Outcome.{SpellsWithin};

use crate::calls::{check_parts, compare_parts, fingerprint_parts, normalise_parts, respell_parts};
use crate::reporting::{report, report_none, report_of_two};
use std::alloc::Global;
use tl_layout::Mask;

/// A part of a set: in C, an address and a length.
#[repr(C)]
#[derive(Clone, Copy)]
pub struct Part<'a> {
    /// The bytes of the part.
    pub bytes: &'a [u8],
}

/// A text that a call returns: in C, an address and a length. If it isn't empty, its owner frees it with `free`.
#[repr(C)]
#[derive(Clone, Copy)]
pub struct Text<'t> {
    /// The bytes of the text.
    pub bytes: &'t [u8],
}

/// A fingerprint.
#[repr(C)]
#[derive(Clone, Copy)]
pub struct Hash {
    /// Its 32 bytes, in the order of SHA-256.
    pub bytes: [u8; 32],
}

/// A fault as numbers. Fields that a fault doesn't use are 0.
#[repr(C)]
#[derive(Clone, Copy)]
pub struct FaultNumbers {
    /// The number of the refusal, from 1 to 24, or 0 if no fault is reported.
    pub number: u8,
    /// Which of two sets is at fault, 1 or 2.
    pub set: u8,
    /// The record type, as the byte in column 1 of its lines.
    pub record_type: u8,
    /// The bytes of the CENID.
    pub cenid: [u8; 5],
    /// The numbers among the places, in the order of the refusal line: parts, lines and columns, which count from 1, or TLIDs,
    /// FEATs, LANDs and POLYIDs.
    pub first: u64,
    /// The second number.
    pub second: u64,
    /// The third.
    pub third: u64,
}

/// Returns the mask that the two flags ask for.
fn mask_of(no_sources: bool, no_reserved: bool) -> Mask
    ensures { result ≡ mask_of no_sources no_reserved }
{
    Mask {
        sources: no_sources,
        reserved: no_reserved,
    }
}

/// Returns a text, and reports no fault.
fn answer_text<'t>(bytes: &'t [u8], text: &mut Text<'t>, fault: &mut FaultNumbers) -> u8
    ensures text { text.new.bytes.now ≡ bytes.now }
    ensures status { result ≡ 0 }
    ensures unreported { fault.new ≡ no_fault }
{
    text.bytes = bytes;
    report_none(fault)
}

/// Checks whether the parts are accepted, like [`tigercanon::check`]. Returns 0 if they are, and otherwise the status of the
/// reported fault.
#[unsafe(no_mangle)]
pub extern "C" fn tigercanon_check(alloc: Global, parts: &[Part], fault: &mut FaultNumbers) -> u8
    ensures accepted { result ≡ 0 → (records : List Record) × IsAcceptedSet (bytes_of_lent parts.now) records }
    ensures refused { result ≢ 0 → ReportsOne (ReportsRefusalOfRead (bytes_of_lent parts.now)) result fault.new }
    ensures statuses { (result ≡ 0) ⊎ (result ≡ 3) ⊎ (result ≡ 5) }
    ensures unreported { result ≡ 0 → fault.new ≡ no_fault }
    // If the parts are accepted, the only possible fault is out of memory.
    ensures succeeds { (records : List Record) → IsAcceptedSet (bytes_of_lent parts.now) records → (result ≡ 0) ⊎ (result ≡ 5) }
{
    match check_parts(alloc, parts) {
        Ok(()) => report_none(fault),
        Err(of) => report(of, fault),
    }
}

/// Makes the records of the parts in canonical spelling, like [`tigercanon::respell`]. Returns 0 if the parts spell records, and
/// otherwise the status of the reported fault.
#[unsafe(no_mangle)]
pub extern "C" fn tigercanon_respell<'t>(
    alloc: Global,
    parts: &[Part],
    text: &mut Text<'t>,
    fault: &mut FaultNumbers,
) -> u8
    ensures respelt { result ≡ 0 → IsRespelt (bytes_of_lent parts.now) text.new.bytes.now }
    ensures faulty { result ≢ 0 → ReportsOne (ReportsFirstFaultOfRead (bytes_of_lent parts.now)) result fault.new }
    ensures statuses { (result ≡ 0) ⊎ (result ≡ 3) ⊎ (result ≡ 5) }
    ensures empty { result ≢ 0 → text.new.bytes.now ≡ [] }
    ensures unreported { result ≡ 0 → fault.new ≡ no_fault }
    // If the parts spell records, the only possible fault is out of memory.
    ensures succeeds { (records : List Record) →
        SpellsWithin tiger most_records (bytes_of_lent parts.now) records → (result ≡ 0) ⊎ (result ≡ 5) }
{
    match respell_parts(alloc, parts) {
        Ok(bytes) => answer_text(bytes, text, fault),
        Err(of) => {
            text.bytes = &[];
            report(of, fault)
        }
    }
}

/// Makes the canonical text of the parts under a mask, like [`tigercanon::normalise_masked`]. Returns 0 if they are accepted, and
/// otherwise the status of the reported fault.
#[unsafe(no_mangle)]
pub extern "C" fn tigercanon_normalise<'t>(
    alloc: Global,
    parts: &[Part],
    no_sources: bool,
    no_reserved: bool,
    text: &mut Text<'t>,
    fault: &mut FaultNumbers,
) -> u8
    ensures canonical { result ≡ 0 →
        IsCanonicalTextInView (masked (mask_of no_sources no_reserved)) (bytes_of_lent parts.now) text.new.bytes.now }
    // No canonical list of the same map under the mask has another text.
    ensures only { result ≡ 0 →
        IsOnlyTextInView (masked (mask_of no_sources no_reserved)) (bytes_of_lent parts.now) text.new.bytes.now }
    // A text that is canonical under the mask is returned unchanged,
    ensures again { (bytes : List ℕ) → IsOneCanonicalTextInView (masked (mask_of no_sources no_reserved)) (bytes_of_lent parts.now) bytes
        → result ≡ 0 → text.new.bytes.now ≡ bytes }
    ensures again_succeeds { (bytes : List ℕ)
        → IsOneCanonicalTextInView (masked (mask_of no_sources no_reserved)) (bytes_of_lent parts.now) bytes
        → (result ≡ 0) ⊎ (result ≡ 5) }
    // and is its own canonical text under no mask.
    ensures plain { result ≡ 0 → IsCanonicalText (text.new.bytes.now ∷ []) text.new.bytes.now }
    ensures refused { result ≢ 0 → ReportsOne (ReportsRefusalOfRead (bytes_of_lent parts.now)) result fault.new }
    ensures statuses { (result ≡ 0) ⊎ (result ≡ 3) ⊎ (result ≡ 5) }
    ensures empty { result ≢ 0 → text.new.bytes.now ≡ [] }
    ensures unreported { result ≡ 0 → fault.new ≡ no_fault }
    // If the parts are accepted, the only possible fault is out of memory.
    ensures succeeds { (records : List Record) → IsAcceptedSet (bytes_of_lent parts.now) records → (result ≡ 0) ⊎ (result ≡ 5) }
{
    let mask = mask_of(no_sources, no_reserved);
    match normalise_parts(alloc, parts, mask) {
        Ok(bytes) => answer_text(bytes, text, fault),
        Err(of) => {
            text.bytes = &[];
            report(of, fault)
        }
    }
}

/// Makes the fingerprint of the parts under a mask, like [`tigercanon::fingerprint_masked`]. Returns 0 if they are accepted, and
/// otherwise the status of the reported fault.
#[unsafe(no_mangle)]
pub extern "C" fn tigercanon_fingerprint(
    alloc: Global,
    parts: &[Part],
    no_sources: bool,
    no_reserved: bool,
    hash: &mut Hash,
    fault: &mut FaultNumbers,
) -> u8
    ensures fingerprint { result ≡ 0 →
        IsFingerprintInView (masked (mask_of no_sources no_reserved)) (bytes_of_lent parts.now) hash.new.bytes }
    ensures refused { result ≢ 0 → ReportsOne (ReportsRefusalOfRead (bytes_of_lent parts.now)) result fault.new }
    ensures statuses { (result ≡ 0) ⊎ (result ≡ 3) ⊎ (result ≡ 5) }
    ensures kept { result ≢ 0 → hash.new ≡ hash.old }
    ensures unreported { result ≡ 0 → fault.new ≡ no_fault }
    // If the parts are accepted, the only possible fault is out of memory.
    ensures succeeds { (records : List Record) → IsAcceptedSet (bytes_of_lent parts.now) records → (result ≡ 0) ⊎ (result ≡ 5) }
{
    let mask = mask_of(no_sources, no_reserved);
    match fingerprint_parts(alloc, parts, mask) {
        Ok(bytes) => {
            hash.bytes = bytes;
            report_none(fault)
        }
        Err(of) => report(of, fault),
    }
}

/// Checks whether two sets of parts describe the same map under a mask, like [`tigercanon::compare_masked`]. Returns 0 if they do, 1 if
/// they describe different maps, and otherwise the status of the reported fault.
#[unsafe(no_mangle)]
pub extern "C" fn tigercanon_compare(
    alloc: Global,
    first: &[Part],
    second: &[Part],
    no_sources: bool,
    no_reserved: bool,
    fault: &mut FaultNumbers,
) -> u8
    // The sets describe the same map only if both are accepted and some renaming carries one onto the other under the mask,
    ensures same { result ≡ 0 →
        AreOneMapInView (masked (mask_of no_sources no_reserved)) (bytes_of_lent first.now) (bytes_of_lent second.now) }
    // and different only if both are accepted and no renaming does.
    ensures different { result ≡ 1 →
        AreDifferentInView (masked (mask_of no_sources no_reserved)) (bytes_of_lent first.now) (bytes_of_lent second.now) }
    // Otherwise, unless memory ran out, one of them is refused, the second only if the first is accepted.
    ensures refused { 1 < result →
        ReportsOneOfTwo (ReportsRefusalOfOne (bytes_of_lent first.now) (bytes_of_lent second.now)) result fault.new }
    ensures statuses { (result ≡ 0) ⊎ (result ≡ 1) ⊎ (result ≡ 3) ⊎ (result ≡ 5) }
    ensures unreported { result < 2 → fault.new ≡ no_fault }
    // For a set that is accepted, the only possible fault is out of memory.
    ensures succeeds { 1 < result →
        ReportsOneOfTwo (ReportsMemoryOfAccepted (bytes_of_lent first.now) (bytes_of_lent second.now)) result fault.new }
{
    let mask = mask_of(no_sources, no_reserved);
    match compare_parts(alloc, first, second, mask) {
        Ok(true) => report_none(fault),
        Ok(false) => {
            report_none(fault);
            1
        }
        Err(of) => report_of_two(of, fault),
    }
}
