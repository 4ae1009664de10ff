//! Lists of pairs of an old and a new number: swapped, and one list after another.

ghost use Rattle.std.specs.Prelude.{IfOk, filter_map, ◌≡◌};
ghost use Rattle.renamings.specs.Images.{named_images, pair_on};
ghost use Rattle.ordered_lists.specs.Pairs.{composed, swapped};

use crate::images::Images;
use ordered_lists::Key;
use std::alloc::{AllocError, Global};
use std::hash::Hash;

/// Returns the pairs with their numbers swapped.
pub(crate) fn swap_pairs<K: Key>(alloc: Global, pairs: &[(K, K)]) -> Result<Vec<(K, K)>, AllocError>
    ensures { IfOk result (λ others. others.items ≡ swapped pairs.now) }
{
    pairs.iter().map(|pair| (pair.1, pair.0)).collect(alloc)
}

/// Returns the new numbers of old ones, in the same order. A number that no pair names is left out.
pub(crate) fn named_images_of<K: Key + Hash>(
    alloc: Global,
    images: &Images<K>,
    olds: &[K],
) -> Result<Vec<K>, AllocError>
    ensures { IfOk result (λ news. news.items ≡ named_images K.cmp images.now olds.now) }
{
    olds.iter().filter_map(|old| images.of(*old)).collect(alloc)
}

/// Returns the pair of the old number and the next new number of the new one, or `None` if that isn't named.
fn pair_after<K: Key + Hash>(nexts: &Images<K>, pair: (K, K)) -> Option<(K, K)>
    ensures { result ≡ pair_on K.cmp nexts.now pair }
{
    match nexts.of(pair.1) {
        Some(new) => Some((pair.0, new)),
        None => None,
    }
}

/// Returns each pair with the next new number of its new one. A pair whose new number isn't named is left out.
fn pairs_after<K: Key + Hash>(
    alloc: Global,
    firsts: &[(K, K)],
    nexts: &Images<K>,
) -> Result<Vec<(K, K)>, AllocError>
    ensures { IfOk result (λ pairs. pairs.items ≡ filter_map (pair_on K.cmp nexts.now) firsts.now) }
{
    firsts
        .iter()
        .filter_map(|pair| pair_after(nexts, *pair))
        .collect(alloc)
}

/// Returns the pairs of two steps: each old number of `firsts` with the number that it has after both lists. A pair whose new number
/// `nexts` doesn't name is left out.
pub(crate) fn join_pairs<K: Key + Hash>(
    alloc: Global,
    firsts: &[(K, K)],
    nexts: &[(K, K)],
) -> Result<Vec<(K, K)>, AllocError>
    ensures { IfOk result (λ pairs. pairs.items ≡ composed K.cmp firsts.now nexts.now) }
{
    let images = Images::new(alloc, nexts)?;
    // Trick: `?` lets the prover look at each outcome by itself.
    let pairs = pairs_after(alloc, firsts, &images)?;
    Ok(pairs)
}
