//! The keys of items, and the least one that occurs twice.

ghost use Rattle.std.specs.Ordering.{on};
ghost use Rattle.std.specs.Prelude.{IfOk, IsPermutation, None, OnOk, map, true, ◌≡◌};
ghost use Rattle.ordered_lists.specs.Keyed.{IsLeastPassing, is_repeated};
ghost use Rattle.ordered_lists.specs.Orders.{IsInOrder};

use county_chart::{Keyed, sort_by_keys};
use ordered_lists::Key;
use std::alloc::{AllocError, Global};

/// Returns the least key that occurs twice among the items, or none. The items must be in order.
pub(crate) fn least_repeated<K: Key, T: Keyed<K>>(items: &[T]) -> Option<K>
    requires { IsInOrder (on T.key_of K.cmp) items.now }
    ensures { IsLeastPassing K.cmp (is_repeated K.cmp (map T.key_of items.now)) result }
{
    let mut rest = items;
    while let Some((first, later)) = rest.split_first() {
        if let Some((second, _)) = later.split_first() {
            if second.key().cmp(&first.key()).is_eq() {
                return Some(first.key());
            }
        }
        rest = later;
    }
    None
}

/// Checks whether each item's key is less than the next one's. If so, no key occurs twice.
fn are_ascending<K: Key, T: Keyed<K>>(items: &[T]) -> bool
    ensures in_order { result ≡ true → IsInOrder (on T.key_of K.cmp) items.now }
    ensures apart { result ≡ true → IsLeastPassing K.cmp (is_repeated K.cmp (map T.key_of items.now)) None }
{
    items.is_sorted_by(|item, next| item.key().cmp(&next.key()).is_lt())
}

/// Puts the items in the order of their keys, and returns the least key that occurs twice. If each key is less than the next one
/// already, a single pass finds both.
pub(crate) fn put_in_order_with_repeated<K: Key, T: Keyed<K>>(
    items: &mut Vec<T>,
) -> Result<Option<K>, AllocError>
    ensures permutation { IsPermutation items.old.items items.new.items }
    ensures in_order { OnOk result (IsInOrder (on T.key_of K.cmp) items.new.items) }
    ensures repeated { IfOk result (IsLeastPassing K.cmp (is_repeated K.cmp (map T.key_of items.new.items))) }
{
    if are_ascending::<K, T>(items) {
        return Ok(None);
    }
    sort_by_keys::<K, T>(items)?;
    Ok(least_repeated::<K, T>(items))
}

/// Returns the keys of the items, in the order of the items.
pub(crate) fn keys_of<K: Ord + Copy, T: Keyed<K>>(
    alloc: Global,
    items: &[T],
) -> Result<Vec<K>, AllocError>
    ensures { IfOk result (λ keys. keys.items ≡ map T.key_of items.now) }
{
    items.iter().map(|item| item.key()).collect(alloc)
}
