//! Whether a set is accepted.

ghost use Rattle.std.specs.Prelude.{Err, IfErr, List, OnOk, ◌≢◌};
ghost use Rattle.tigercanon.specs.Faults.{IsWantOfMemory, ReportsRefusal};
ghost use Rattle.tigercanon.specs.LentParts.{bytes_of_parts};
ghost use Rattle.tigercanon.specs.Sets.{IsAcceptedSet};
ghost use Rattle.tl_layout.specs.declared.record_type.Record.{Record};

use crate::fault::Fault;
use crate::library::linked::judge;
use std::alloc::Global;
use tl_load::LoadFault;

/// Checks whether the parts are accepted: their lines spell records, these fit together, and their county is in the profile.
///
/// # Errors
///
/// What the set is refused for: [`Fault::Load`] has the first faulty line, [`Fault::Link`] the first rule that the records break,
/// and [`Fault::Profile`] the first clause of the profile that the county breaks. Each of them can also report a failed allocation.
pub fn check(alloc: Global, parts: &[&[u8]]) -> Result<(), Fault>
    ensures accepted { OnOk result ((records : List Record) × IsAcceptedSet (bytes_of_parts parts.now) records) }
    ensures refused { IfErr result (ReportsRefusal (bytes_of_parts parts.now)) }
    ensures no_device { result ≢ Err (Fault.Load LoadFault.Device) }
    // For accepted parts the only fault is a failed allocation.
    ensures succeeds { (records : List Record) → IsAcceptedSet (bytes_of_parts parts.now) records → IfErr result IsWantOfMemory }
{
    judge(alloc, parts)
}
