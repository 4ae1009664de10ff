//! A file that comes in pieces, for example from a network.

ghost use Rattle.std.specs.List.{concat};
ghost use Rattle.std.specs.Prelude.{IfErr, IfOk, [], map, ◌∷◌};
ghost use Rattle.tl_load.specs.Choice.{tiger};
ghost use Rattle.tl_load.specs.Loaded.{IsOfLines};
ghost use Rattle.tl_load.specs.Outcome.{FaultAt, SpellsWithin};
ghost use Rattle.tl_layout.specs.Limits.{most_records};

use std::alloc::Global;
use tl_layout::Record;
use tl_load::{LoadFault, Loader, parts_may_be_cut_between_lines};

/// Returns the records of one file whose bytes come in pieces. The cuts between the pieces don't matter.
///
/// # Errors
///
/// The first fault of the file, or out of memory.
pub fn load_pieces(alloc: Global, pieces: &[&[u8]]) -> Result<Vec<Record>, LoadFault>
    ensures loaded { IfOk result (λ records. SpellsWithin tiger most_records (concat (map (λ p. p.now) pieces.now) ∷ []) records.items) }
    ensures fault { IfErr result (λ f. IsOfLines f → FaultAt tiger most_records (concat (map (λ p. p.now) pieces.now) ∷ []) f) }
{
    parts_may_be_cut_between_lines();
    let mut loader = Loader::new(alloc);
    for piece in pieces {
        loader.feed(piece)?;
    }
    loader.end_part()?;
    loader.finish()
}
