//! Keys of one list that another doesn't have.

ghost use Rattle.ordered_lists.specs.Keyed.{IsLeastPassing, is_unknown};
ghost use Rattle.ordered_lists.specs.Orders.{IsInOrder};
ghost use Rattle.std.specs.Ordering.{on};
ghost use Rattle.std.specs.Prelude.{map, true, ◌≡◌};

use county_chart::{Keyed, least_unknown};
use ordered_lists::Key;

/// Checks whether the items have the same keys as the others, in the same order.
pub(crate) fn have_same_keys<K: Key, A: Keyed<K>, B: Keyed<K>>(items: &[A], others: &[B]) -> bool
    ensures { result ≡ true → map A.key_of items.now ≡ map B.key_of others.now }
{
    if items.len() != others.len() {
        return false;
    }
    let mut left = items;
    let mut right = others;
    while let Some((item, later)) = left.split_first() {
        let Some((other, more)) = right.split_first() else {
            return false;
        };
        if !item.key().cmp(&other.key()).is_eq() {
            return false;
        }
        left = later;
        right = more;
    }
    right.is_empty()
}

/// Returns the least key of `items` that no item of `known` has, or none. Both lists must be in order. Usually they have the same keys, and
/// then nothing else is compared.
pub(crate) fn least_absent<K: Key, A: Keyed<K>, B: Keyed<K>>(items: &[A], known: &[B]) -> Option<K>
    requires items { IsInOrder (on A.key_of K.cmp) items.now }
    requires known { IsInOrder (on B.key_of K.cmp) known.now }
    ensures { IsLeastPassing K.cmp (is_unknown K.cmp (map A.key_of items.now) (map B.key_of known.now)) result }
{
    if have_same_keys::<K, A, B>(items, known) {
        return None;
    }
    least_unknown::<K, A, B>(items, known)
}
