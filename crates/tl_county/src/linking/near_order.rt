//! Puts tables whose records are copied in order: first close to it, in linear time, and then, if need be, by comparisons.

ghost use Rattle.ordered_lists.specs.Keyed.{IsLeastPassing, is_repeated};
ghost use Rattle.ordered_lists.specs.Orders.{IsInOrder};
ghost use Rattle.std.specs.Ordering.{on};
ghost use Rattle.std.specs.Prelude.{IfOk, IsPermutation, OnOk, map};

use crate::keys::repeated::put_in_order_with_repeated;
use county_chart::{Keyed, PolygonKey, are_in_order, polygon_number};
use ordered_lists::{Key, bring_close};
use std::alloc::AllocError;

/// A key with a number. Greater keys mostly have greater numbers.
pub(crate) trait KeyAsNumber {
    fn number(&self) -> u64;
}

/// TLID, and below it RTSQ, which takes 10 bits.
impl KeyAsNumber for (u64, u16) {
    fn number(&self) -> u64 {
        self.0.wrapping_shl(10) | u64::from(self.1)
    }
}

impl KeyAsNumber for PolygonKey {
    fn number(&self) -> u64 {
        polygon_number(*self)
    }
}

/// Brings the items close to the order of their keys.
fn bring_close_by_key<K: Key + KeyAsNumber, T: Keyed<K> + Copy>(
    items: &mut Vec<T>,
) -> Result<(), AllocError>
    ensures { IsPermutation items.old.items items.new.items }
{
    if are_in_order::<K, T>(items) {
        return Ok(());
    }
    let numbers = items
        .iter()
        .map(|item| item.key().number())
        .collect(*items.allocator())?;
    bring_close(items, numbers)
}

/// Puts the items in the order of their keys, and returns the least key that occurs twice.
pub(crate) fn put_copies_in_order<K: Key + KeyAsNumber, T: Keyed<K> + Copy>(
    items: &mut Vec<T>,
) -> Result<Option<K>, AllocError>
    ensures permutation { IsPermutation items.old.items items.new.items }
    ensures in_order { OnOk result (IsInOrder (on T.key_of K.cmp) items.new.items) }
    ensures repeated { IfOk result (IsLeastPassing K.cmp (is_repeated K.cmp (map T.key_of items.new.items))) }
{
    bring_close_by_key::<K, T>(items)?;
    put_in_order_with_repeated::<K, T>(items)
}
