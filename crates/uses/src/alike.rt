//! Two files with the same records, compared record by record.

ghost use Rattle.std.specs.Prelude.{IfOk, IsTrue, List, [], ℕ, ◌↔◌, ◌∷◌, ◌≡◌};
ghost use Rattle.tigercanon.specs.Respelling.{IsRespelt};

use std::alloc::Global;
use tigercanon::{Fault, respell};

/// Checks whether two files have the same records in the same order, whatever their blanks, zeros, signs and line endings.
///
/// # Errors
///
/// The first fault of one of the files, or out of memory.
pub fn spell_alike(alloc: Global, file: &[u8], other: &[u8]) -> Result<bool, Fault>
    ensures { IfOk result (λ alike. (text other_text : List ℕ) × IsRespelt (file.now ∷ []) text × IsRespelt (other.now ∷ []) other_text
        × (IsTrue alike ↔ (text ≡ other_text))) }
{
    let text = respell(alloc, &[file])?;
    let other_text = respell(alloc, &[other])?;
    Ok(text.as_slice() == other_text.as_slice())
}
