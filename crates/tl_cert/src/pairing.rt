//! Whether a list of numbers is a permutation of another.

ghost use Rattle.std.specs.Bool.{Decides};
ghost use Rattle.std.specs.Prelude.{IfOk, IsPermutation, map, ◌≡◌};
ghost use Rattle.ordered_lists.specs.Pairs.{ArePaired};

use county_chart::{Listed, push_all, sort_by_keys};
use ordered_lists::Key;
use std::alloc::{AllocError, Global};

/// Checks whether the ones are a permutation of the others.
pub(crate) fn are_reordered<K: Key>(ones: Vec<K>, others: Vec<K>) -> Result<bool, AllocError>
    ensures { IfOk result (λ yes. Decides yes (IsPermutation ones.items others.items)) }
{
    let mut sorted = ones;
    sorted.sort()?;
    let mut known = others;
    sort_by_keys::<K, K>(&mut known)?;
    Ok(sorted.as_slice().cmp(known.as_slice()).is_eq())
}

/// Returns the numbers on the left of pairs.
fn old_numbers<K: Key>(alloc: Global, pairs: &[(K, K)]) -> Result<Vec<K>, AllocError>
    ensures { IfOk result (λ numbers. numbers.items ≡ map (λ pair. pair.0) pairs.now) }
{
    pairs.iter().map(|pair| pair.0).collect(alloc)
}

/// Returns the numbers on the right of pairs.
fn new_numbers<K: Key>(alloc: Global, pairs: &[(K, K)]) -> Result<Vec<K>, AllocError>
    ensures { IfOk result (λ numbers. numbers.items ≡ map (λ pair. pair.1) pairs.now) }
{
    pairs.iter().map(|pair| pair.1).collect(alloc)
}

/// Checks whether the numbers are a permutation of the items of a list.
fn are_items_of<K: Key, L: Listed<Item = K>>(
    alloc: Global,
    numbers: Vec<K>,
    list: &L,
) -> Result<bool, AllocError>
    ensures { IfOk result (λ yes. Decides yes (IsPermutation numbers.items (L.items list.now))) }
{
    let mut items = Vec::with_capacity(alloc, list.count())?;
    push_all(&mut items, list)?;
    are_reordered(numbers, items)
}

/// Checks whether the pairs have each old number once on the left and each new number once on the right, and no other numbers.
pub(crate) fn are_paired<K: Key, A: Listed<Item = K>, B: Listed<Item = K>>(
    alloc: Global,
    pairs: &[(K, K)],
    olds: &A,
    news: &B,
) -> Result<bool, AllocError>
    ensures { IfOk result (λ yes. Decides yes (ArePaired pairs.now (A.items olds.now) (B.items news.now))) }
{
    let lefts = old_numbers(alloc, pairs)?;
    let left = are_items_of(alloc, lefts, olds)?;
    if !left {
        return Ok(false);
    }
    let rights = new_numbers(alloc, pairs)?;
    // Trick: `?` lets the prover look at each outcome by itself.
    let right = are_items_of(alloc, rights, news)?;
    Ok(right)
}
