//! Records in canonical spelling, in the order of their lines.

ghost use Rattle.std.specs.Prelude.{Err, IfErr, IfOk, List, ◌≢◌};
ghost use Rattle.tigercanon.specs.Faults.{IsWantOfMemory, ReportsFirstFault};
ghost use Rattle.tigercanon.specs.LentParts.{bytes_of_parts};
ghost use Rattle.tigercanon.specs.Respelling.{IsRespelt};
ghost use Rattle.tl_layout.specs.Limits.{most_records};
ghost use Rattle.tl_layout.specs.declared.record_type.Record.{Record};
ghost use Rattle.tl_load.specs.Choice.{tiger};
ghost use Rattle.tl_load.specs.Outcome.{SpellsWithin};

use crate::fault::Fault;
use crate::library::reading::load;
use std::alloc::Global;
use tl_load::{CanonicalText, LoadFault};

/// Returns the records of the parts in canonical spelling, each line ended by LF, in the order of their lines. Numbers are kept, and no
/// records are joined.
///
/// # Errors
///
/// [`Fault::Load`] with the first faulty line, or a failed allocation.
pub fn respell(alloc: Global, parts: &[&[u8]]) -> Result<Vec<u8>, Fault>
    ensures respelt { IfOk result (λ text. IsRespelt (bytes_of_parts parts.now) text.items) }
    ensures faulty { IfErr result (ReportsFirstFault (bytes_of_parts parts.now)) }
    ensures no_device { result ≢ Err (Fault.Load LoadFault.Device) }
    // If the parts spell records, the only fault is a failed allocation.
    ensures succeeds { (records : List Record) →
        SpellsWithin tiger most_records (bytes_of_parts parts.now) records → IfErr result IsWantOfMemory }
{
    let text: CanonicalText = load(alloc, parts)?;
    Ok(text.bytes)
}
