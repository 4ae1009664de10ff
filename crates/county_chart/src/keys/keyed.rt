//! Lists of items that have a key, in the order of the keys.

ghost use Rattle.std.specs.Ordering.{is_eq, is_gt, is_le, is_lt, on};
ghost use Rattle.std.specs.Prelude.{IsPermutation, OnOk, filter, length, map, true, ◌≡◌, ◌≤◌};
ghost use Rattle.std.specs.List.{prefix_len};
ghost use Rattle.std.specs.declared.cmp.Ordering.TheVariants.{Equal};
ghost use Rattle.ordered_lists.specs.Keyed.{IsLeastPassing, is_unknown};
ghost use Rattle.ordered_lists.specs.Orders.{IsInOrder};

use ordered_lists::Key;
use std::alloc::AllocError;
use std::cmp::Ordering;

/// An item that has a key, as a record has its number.
pub trait Keyed<K: Ord + Copy> {
    /// The key.
    ghost key_of: { Self → K };

    /// Returns the key.
    fn key(&self) -> K
        ensures { result ≡ key_of self.now };
}

/// Checks whether the items are in the order of their keys.
pub fn are_in_order<K: Ord + Copy, T: Keyed<K>>(items: &[T]) -> bool
    ensures in_order { result ≡ true → IsInOrder (on T.key_of K.cmp) items.now }
    ensures stated { IsInOrder (on T.key_of K.cmp) items.now → result ≡ true }
{
    items.is_sorted_by(|item, next| item.key().cmp(&next.key()).is_le())
}

/// Puts the items in the order of their keys. If they are in order already, this takes linear time and no memory. Otherwise their
/// keys are sorted, and each item is moved to its place once.
///
/// # Errors
///
/// `AllocError` if an allocation failed. The items are then the same, in any order.
pub fn sort_by_keys<K: Ord + Copy, T: Keyed<K>>(items: &mut Vec<T>) -> Result<(), AllocError>
    ensures permutation { IsPermutation items.old.items items.new.items }
    ensures in_order { OnOk result (IsInOrder (on T.key_of K.cmp) items.new.items) }
{
    if are_in_order::<K, T>(items) {
        return Ok(());
    }
    items.sort_by_cached_key(|item| item.key())
}

/// Returns the least key of `items` that no item of `known` has, or none. Both lists must be in order.
pub fn least_unknown<K: Key, A: Keyed<K>, B: Keyed<K>>(items: &[A], known: &[B]) -> Option<K>
    requires items { IsInOrder (on A.key_of K.cmp) items.now }
    requires known { IsInOrder (on B.key_of K.cmp) known.now }
    ensures { IsLeastPassing K.cmp (is_unknown K.cmp (map A.key_of items.now) (map B.key_of known.now)) result }
{
    let mut asked = items;
    let mut known = known;
    while let Some((first, later)) = asked.split_first() {
        match known.split_first() {
            None => return Some(first.key()),
            Some((least, others)) => match first.key().cmp(&least.key()) {
                Ordering::Less => return Some(first.key()),
                Ordering::Equal => asked = later,
                Ordering::Greater => known = others,
            },
        }
    }
    None
}

/// Returns the number of items before the first one whose key isn't less than `key`.
fn count_below<K: Ord + Copy, T: Keyed<K>>(items: &[T], key: K) -> usize
    ensures count { result ≡ prefix_len (λ item. is_lt (K.cmp (T.key_of item) key)) items.now }
    ensures bound { result ≤ length items.now }
{
    items
        .iter()
        .take_while(|item| item.key().cmp(&key).is_lt())
        .count()
}

/// Returns the number of items before the first one whose key is greater than `key`.
fn count_up_to<K: Ord + Copy, T: Keyed<K>>(items: &[T], key: K) -> usize
    ensures count { result ≡ prefix_len (λ item. is_le (K.cmp (T.key_of item) key)) items.now }
    ensures bound { result ≤ length items.now }
{
    items
        .iter()
        .take_while(|item| item.key().cmp(&key).is_le())
        .count()
}

/// Returns the items with this key, and the items with greater keys. The items must be in order.
pub fn split_group<K: Key, T: Keyed<K>>(items: &[T], key: K) -> (&[T], &[T])
    requires { IsInOrder (on T.key_of K.cmp) items.now }
    ensures group { result.0.now ≡ filter (λ item. is_eq (K.cmp (T.key_of item) key)) items.now }
    ensures later { result.1.now ≡ filter (λ item. is_gt (K.cmp (T.key_of item) key)) items.now }
{
    let (_, from) = items.split_at(count_below(items, key));
    from.split_at(count_up_to(from, key))
}
