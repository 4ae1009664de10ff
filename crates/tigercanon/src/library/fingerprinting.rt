//! The fingerprint of a map, to cite it by, without a mask or under one.

ghost use Rattle.std.specs.Prelude.{Err, IfErr, IfOk, List, ◌≢◌};
ghost use Rattle.tigercanon.specs.Faults.{IsWantOfMemory, ReportsRefusal};
ghost use Rattle.tigercanon.specs.Fingerprints.{IsFingerprint, IsFingerprintInView};
ghost use Rattle.tigercanon.specs.LentParts.{bytes_of_parts};
ghost use Rattle.tigercanon.specs.Sets.{IsAcceptedSet};
ghost use Rattle.county_chart.specs.MaskedCounty.{masked};
ghost use Rattle.tl_layout.specs.declared.record_type.Record.{Record};

use crate::fault::Fault;
use crate::library::making::make_of;
use crate::library::products::Hash;
use std::alloc::Global;
use tl_layout::Mask;
use tl_load::LoadFault;

/// Returns the fingerprint of the parts: the SHA-256 hash of the text that [`normalise`](crate::normalise) returns for them. All sets of
/// one map have the same fingerprint. The text itself isn't made.
///
/// # Errors
///
/// As for [`normalise`](crate::normalise).
#[tactic(auto, using(crate::proofs::Masking::none_is_plain))]
pub fn fingerprint(alloc: Global, parts: &[&[u8]]) -> Result<[u8; 32], Fault>
    ensures fingerprint { IfOk result (IsFingerprint (bytes_of_parts parts.now)) }
    ensures refused { IfErr result (ReportsRefusal (bytes_of_parts parts.now)) }
    ensures no_device { result ≢ Err (Fault.Load LoadFault.Device) }
    // For accepted parts the only fault is a failed allocation.
    ensures succeeds { (records : List Record) → IsAcceptedSet (bytes_of_parts parts.now) records → IfErr result IsWantOfMemory }
{
    fingerprint_masked(alloc, parts, Mask::NONE)
}

/// Returns the fingerprint of the parts under a mask: the SHA-256 hash of the text that [`normalise_masked`](crate::normalise_masked)
/// returns for them under it. All sets of one map under the mask have the same one. The text itself isn't made.
///
/// # Errors
///
/// As for [`fingerprint`], whatever the mask is.
pub fn fingerprint_masked(alloc: Global, parts: &[&[u8]], mask: Mask) -> Result<[u8; 32], Fault>
    ensures fingerprint { IfOk result (IsFingerprintInView (masked mask) (bytes_of_parts parts.now)) }
    ensures refused { IfErr result (ReportsRefusal (bytes_of_parts parts.now)) }
    ensures no_device { result ≢ Err (Fault.Load LoadFault.Device) }
    // For accepted parts the only fault is a failed allocation.
    ensures succeeds { (records : List Record) → IsAcceptedSet (bytes_of_parts parts.now) records → IfErr result IsWantOfMemory }
{
    make_of(alloc, parts, Hash, &mut (), mask)
}
