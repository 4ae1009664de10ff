//! The canonical text of a set, without a mask or under one.

ghost use Rattle.std.specs.Prelude.{All, Err, IfErr, IfOk, List, [], false, if◌then◌else◌, length, ℕ, ◌+◌, ◌<◌, ◌∷◌, ◌≡◌, ◌≢◌};
ghost use Rattle.tigercanon.specs.Normalising.{AreNormalised, AreNormalisedInView, IsCutOff, IsCutOffInView, IsOnlyText, IsOnlyTextInView, ReportsRead, Took, is_of_sink, is_stopped};
ghost use Rattle.tigercanon.specs.Reading.{AreRead, NoneFailed, OneFailed};
ghost use Rattle.tigercanon.specs.Sets.{CarriesSet, CarriesSetInView, IsAcceptedSet, IsCanonicalText, IsCanonicalTextInView, IsLinkedSet, IsOneCanonicalText, IsOneCanonicalTextInView};
ghost use Rattle.tigercanon.specs.Faults.{IsWantOfMemory, ReportsRefusal};
ghost use Rattle.tigercanon.specs.LentParts.{bytes_of_parts};
ghost use Rattle.county_chart.specs.MaskedCounty.{masked};
ghost use Rattle.tl_layout.specs.declared.record_type.Record.{Record};
ghost use Rattle.tl_write.specs.declared.fault.WriteFault.{WriteFault};

use crate::fault::Fault;
use crate::library::making::{make_of, make_of_linked};
use crate::library::products::{TextAndRenaming, TextInMemory, Written};
use crate::library::reading::load_sources;
use bumpalo::Bump;
use renamings::Renaming;
use std::alloc::Global;
use tl_county::{LinkedRecords, link_in_order};
use tl_layout::{Mask, Tables};
use tl_load::{LoadFault, Source};
use tl_write::Sink;

/// Returns the canonical text of the parts: the records of their map in canonical numbers, order, packing and spelling. All sets of one map
/// have the same canonical text.
///
/// # Errors
///
/// What the set is refused for: [`Fault::Load`] has the first faulty line, [`Fault::Link`] the first rule that the records break,
/// and [`Fault::Profile`] the first clause of the profile that the county breaks. Each of them, and [`Fault::Memory`], can also
/// report a failed allocation.
#[tactic(auto, using(crate::proofs::Masking::none_is_plain))]
pub fn normalise(alloc: Global, parts: &[&[u8]]) -> Result<Vec<u8>, Fault>
    ensures canonical { IfOk result (λ text. IsCanonicalText (bytes_of_parts parts.now) text.items) }
    // No canonical list of the same map has another text.
    ensures only { IfOk result (λ text. IsOnlyText (bytes_of_parts parts.now) text.items) }
    // For a canonical text, the result is that text.
    ensures again { (text : List ℕ) → IsOneCanonicalText (bytes_of_parts parts.now) text → IfOk result (λ answer. answer.items ≡ text) }
    ensures again_succeeds { (text : List ℕ) → IsOneCanonicalText (bytes_of_parts parts.now) text → IfErr result IsWantOfMemory }
    ensures refused { IfErr result (ReportsRefusal (bytes_of_parts parts.now)) }
    ensures no_device { result ≢ Err (Fault.Load LoadFault.Device) }
    // For accepted parts the only fault is a failed allocation.
    ensures succeeds { (records : List Record) → IsAcceptedSet (bytes_of_parts parts.now) records → IfErr result IsWantOfMemory }
{
    normalise_masked(alloc, parts, Mask::NONE)
}

/// Returns the canonical text of the parts under a mask, as [`normalise`] returns it without a mask: the fields that the mask leaves out
/// are blank in it. All sets of one map under the mask have the same text.
///
/// # Errors
///
/// As for [`normalise`], whatever the mask is.
pub fn normalise_masked(alloc: Global, parts: &[&[u8]], mask: Mask) -> Result<Vec<u8>, Fault>
    ensures canonical { IfOk result (λ text. IsCanonicalTextInView (masked mask) (bytes_of_parts parts.now) text.items) }
    // No canonical list of the same map under the mask has another text.
    ensures only { IfOk result (λ text. IsOnlyTextInView (masked mask) (bytes_of_parts parts.now) text.items) }
    // For a text that is canonical under the mask, the result is that text.
    ensures again { (text : List ℕ) → IsOneCanonicalTextInView (masked mask) (bytes_of_parts parts.now) text →
        IfOk result (λ answer. answer.items ≡ text) }
    ensures again_succeeds { (text : List ℕ) → IsOneCanonicalTextInView (masked mask) (bytes_of_parts parts.now) text →
        IfErr result IsWantOfMemory }
    // The result is its own canonical text without a mask.
    ensures plain { IfOk result (λ text. IsCanonicalText (text.items ∷ []) text.items) }
    ensures refused { IfErr result (ReportsRefusal (bytes_of_parts parts.now)) }
    ensures no_device { result ≢ Err (Fault.Load LoadFault.Device) }
    // For accepted parts the only fault is a failed allocation.
    ensures succeeds { (records : List Record) → IsAcceptedSet (bytes_of_parts parts.now) records → IfErr result IsWantOfMemory }
{
    let made = make_of(alloc, parts, TextInMemory, &mut (), mask)?;
    let text = made?;
    Ok(text)
}

/// Returns the canonical text of the parts, and the renaming that carries the county of the parts onto the text's: each old number with its
/// new one, and the old TLIDs of the chains that are turned.
///
/// # Errors
///
/// As for [`normalise`].
#[tactic(auto, using(crate::proofs::Masking::none_is_plain))]
pub fn normalise_with_renaming(alloc: Global, parts: &[&[u8]]) -> Result<(Vec<u8>, Renaming), Fault>
    ensures canonical { IfOk result (λ answer. IsCanonicalText (bytes_of_parts parts.now) answer.0.items) }
    // No canonical list of the same map has another text.
    ensures only { IfOk result (λ answer. IsOnlyText (bytes_of_parts parts.now) answer.0.items) }
    ensures carries { IfOk result (λ answer. CarriesSet answer.1 (bytes_of_parts parts.now) (answer.0.items ∷ [])) }
    ensures refused { IfErr result (ReportsRefusal (bytes_of_parts parts.now)) }
    ensures no_device { result ≢ Err (Fault.Load LoadFault.Device) }
    // For accepted parts the only fault is a failed allocation.
    ensures succeeds { (records : List Record) → IsAcceptedSet (bytes_of_parts parts.now) records → IfErr result IsWantOfMemory }
{
    normalise_with_renaming_masked(alloc, parts, Mask::NONE)
}

/// Returns the canonical text of the parts under a mask, and the renaming that carries the county of the parts under the mask onto the
/// text's, as [`normalise_with_renaming`] returns them without a mask.
///
/// # Errors
///
/// As for [`normalise`], whatever the mask is.
pub fn normalise_with_renaming_masked(
    alloc: Global,
    parts: &[&[u8]],
    mask: Mask,
) -> Result<(Vec<u8>, Renaming), Fault>
    ensures canonical { IfOk result (λ answer. IsCanonicalTextInView (masked mask) (bytes_of_parts parts.now) answer.0.items) }
    // No canonical list of the same map under the mask has another text.
    ensures only { IfOk result (λ answer. IsOnlyTextInView (masked mask) (bytes_of_parts parts.now) answer.0.items) }
    ensures carries { IfOk result (λ answer. CarriesSetInView (masked mask) answer.1 (bytes_of_parts parts.now) (answer.0.items ∷ [])) }
    ensures refused { IfErr result (ReportsRefusal (bytes_of_parts parts.now)) }
    ensures no_device { result ≢ Err (Fault.Load LoadFault.Device) }
    // For accepted parts the only fault is a failed allocation.
    ensures succeeds { (records : List Record) → IsAcceptedSet (bytes_of_parts parts.now) records → IfErr result IsWantOfMemory }
{
    let made = make_of(alloc, parts, TextAndRenaming, &mut (), mask)?;
    let answer = made?;
    Ok(answer)
}

/// Links the records of the parts that the sources give. Reads each source to its end, in order, but no further than the read that brings a
/// fault.
fn link_sources<R: Source>(alloc: Global, parts: &mut [R]) -> Result<LinkedRecords, Fault>
    requires { All (λ part. R.failed part < u64.MAX) parts.old }
    ensures linked { IfOk result (λ linked. (set : List (List ℕ)) × AreRead R.remaining R.given parts.old parts.new set
        × IsLinkedSet set linked) }
    ensures refused { IfErr result (ReportsRead R.remaining R.given R.reads parts.old parts.new) }
    ensures of_no_sink { IfErr result (λ fault. is_of_sink fault ≡ false) }
    ensures device { result ≡ Err (Fault.Load LoadFault.Device) → OneFailed R.failed parts.old parts.new }
    ensures no_device { result ≢ Err (Fault.Load LoadFault.Device) → NoneFailed R.failed parts.old parts.new }
{
    let tables: Tables = load_sources(alloc, parts)?;
    Ok(link_in_order(alloc, tables)?)
}

/// Reads the parts from their sources, writes their canonical text to the sink, and returns how many bytes the text has. No part
/// and no text is kept in memory. Nothing is written to the sink unless the set is accepted.
///
/// # Errors
///
/// What the set is refused for, as for [`normalise`]; a faulty line is reported before the sources after it are read.
/// [`LoadFault::Device`] if a source failed, and [`Fault::Write`] if the sink failed, after exactly the first `written` bytes of
/// the text.
#[tactic(auto, using(crate::proofs::Masking::none_is_plain))]
pub fn normalise_to<R: Source, W: Sink>(
    alloc: Global,
    parts: &mut [R],
    out: &mut W,
) -> Result<u64, Fault>
    requires parts { All (λ part. R.failed part < u64.MAX) parts.old }
    requires out { W.failed out.old < u64.MAX }
    // The sink took the whole canonical text of the parts.
    ensures written { IfOk result (λ n. (text : List ℕ) × AreNormalised R.remaining R.given parts.old parts.new text
        × (n ≡ length text) × Took W.holds out.old out.new text) }
    // Or the sink failed, after as many bytes from the beginning of the text as the fault reports.
    ensures stopped { (fault : WriteFault) → result ≡ Err (Fault.Write fault) →
        IsCutOff R.remaining R.given parts.old parts.new W.holds out.old out.new fault.written }
    ensures failures { W.failed out.new ≡ (if is_stopped result then W.failed out.old + 1 else W.failed out.old) }
    // Or the set is refused, and nothing was written.
    ensures refused { IfErr result (ReportsRead R.remaining R.given R.reads parts.old parts.new) }
    ensures silent { IfErr result (λ fault. is_of_sink fault ≡ false → out.new ≡ out.old) }
    // The fault is `Device` if and only if one of the sources failed.
    ensures device { result ≡ Err (Fault.Load LoadFault.Device) → OneFailed R.failed parts.old parts.new }
    ensures no_device { result ≢ Err (Fault.Load LoadFault.Device) → NoneFailed R.failed parts.old parts.new }
{
    normalise_to_masked(alloc, parts, out, Mask::NONE)
}

/// Reads the parts from their sources, writes their canonical text under a mask to the sink, and returns how many bytes the text
/// has, as [`normalise_to`] does without a mask.
///
/// # Errors
///
/// As for [`normalise_to`], whatever the mask is; [`Fault::Write`] after exactly the first `written` bytes of the text under the
/// mask.
pub fn normalise_to_masked<R: Source, W: Sink>(
    alloc: Global,
    parts: &mut [R],
    out: &mut W,
    mask: Mask,
) -> Result<u64, Fault>
    requires parts { All (λ part. R.failed part < u64.MAX) parts.old }
    requires out { W.failed out.old < u64.MAX }
    // The sink took the whole canonical text of the parts under the mask.
    ensures written { IfOk result (λ n. (text : List ℕ) × AreNormalisedInView (masked mask) R.remaining R.given parts.old parts.new text
        × (n ≡ length text) × Took W.holds out.old out.new text) }
    // Or the sink failed, after as many bytes from the beginning of the text as the fault reports.
    ensures stopped { (fault : WriteFault) → result ≡ Err (Fault.Write fault) →
        IsCutOffInView (masked mask) R.remaining R.given parts.old parts.new W.holds out.old out.new fault.written }
    ensures failures { W.failed out.new ≡ (if is_stopped result then W.failed out.old + 1 else W.failed out.old) }
    // Or the set is refused, and nothing was written.
    ensures refused { IfErr result (ReportsRead R.remaining R.given R.reads parts.old parts.new) }
    ensures silent { IfErr result (λ fault. is_of_sink fault ≡ false → out.new ≡ out.old) }
    // The fault is `Device` if and only if one of the sources failed.
    ensures device { result ≡ Err (Fault.Load LoadFault.Device) → OneFailed R.failed parts.old parts.new }
    ensures no_device { result ≢ Err (Fault.Load LoadFault.Device) → NoneFailed R.failed parts.old parts.new }
{
    let linked = link_sources(alloc, parts)?;
    let arena = Bump::new(alloc);
    let made = make_of_linked(alloc, &arena, &linked, Written, out, mask)?;
    let written = made?;
    Ok(written)
}
