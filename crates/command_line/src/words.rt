//! The arguments of a program.

ghost use Rattle.std.specs.Prelude.{IfOk, drop, ◌≡◌};
ghost use Rattle.std.specs.Vec.Iter.{into_iter_items};

use std::alloc::{AllocError, Global};
use std::env::Args;

/// Returns a program's arguments without its own name, each as it was given: an empty one too.
pub fn words_of(alloc: Global, args: Args) -> Result<Vec<String>, AllocError>
    ensures { IfOk result (λ words. words.items ≡ drop 1 (into_iter_items args)) }
{
    args.skip(1).collect(alloc)
}
