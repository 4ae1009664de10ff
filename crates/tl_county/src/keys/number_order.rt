//! The order of items by their numbers. The items stay where they are and are read at their places.

ghost use Rattle.ordered_lists.specs.Orders.{IsInOrder};
ghost use Rattle.ordered_lists.specs.Places.{at_places};
ghost use Rattle.std.specs.Prelude.{IfOk, IsPermutation, OnOk, get_or, length, map, slice_get, ◌≡◌};
ghost use Rattle.std.specs.List.{range_with_len};
ghost use Rattle.std.specs.Ordering.{nat_cmp, on};

use crate::keys::repeated::keys_of;
use county_chart::{Keyed, are_in_order};
use ordered_lists::{all_places, near_places};
use std::alloc::{AllocError, Global};

/// The order of items by their numbers.
#[derive(Drop)]
pub(crate) struct NumberOrder {
    /// The numbers, in order.
    pub(crate) numbers: Vec<u64>,
    /// The places of the items, in the order of their numbers.
    pub(crate) places: Vec<u64>,
}

fn number_there(numbers: &[u64], place: u64) -> Option<u64>
    ensures { result ≡ slice_get numbers.now place }
{
    numbers.get(place as usize).copied()
}

fn numbers_at(alloc: Global, numbers: &[u64], places: &[u64]) -> Result<Vec<u64>, AllocError>
    ensures { IfOk result (λ found. found.items ≡ at_places numbers.now places.now) }
{
    let mut found = Vec::with_capacity(alloc, places.len())?;
    found.extend(
        places
            .iter()
            .filter_map(|place| number_there(numbers, *place)),
    )?;
    Ok(found)
}

fn sort_places(numbers: &[u64], places: &mut Vec<u64>) -> Result<(), AllocError>
    ensures permutation { IsPermutation places.old.items places.new.items }
    ensures in_order { OnOk result (IsInOrder (on (λ place. get_or numbers.now place 0) nat_cmp) places.new.items) }
{
    places.sort_by_cached_key(|place| number_there(numbers, *place).unwrap_or(0))
}

/// Returns the order of numbers that aren't in order.
fn sorted_order(alloc: Global, numbers: &[u64]) -> Result<NumberOrder, AllocError>
    ensures permutation { IfOk result (λ order. IsPermutation (range_with_len 0 (length numbers.now)) order.places.items) }
    ensures numbers { IfOk result (λ order. order.numbers.items ≡ at_places numbers.now order.places.items) }
    ensures in_order { IfOk result (λ order. IsInOrder nat_cmp (at_places numbers.now order.places.items)) }
{
    let mut places = near_places(alloc, Vec::from_slice(alloc, numbers)?)?;
    let near = numbers_at(alloc, numbers, &places)?;
    if are_in_order::<u64, u64>(&near) {
        return Ok(NumberOrder {
            numbers: near,
            places,
        });
    }
    sort_places(numbers, &mut places)?;
    let sorted = numbers_at(alloc, numbers, &places)?;
    Ok(NumberOrder {
        numbers: sorted,
        places,
    })
}

/// Returns the order of items by their numbers. Items with the same number may be in any order.
pub(crate) fn number_order<T: Keyed<u64>>(
    alloc: Global,
    items: &[T],
) -> Result<NumberOrder, AllocError>
    ensures permutation { IfOk result (λ order. IsPermutation items.now (at_places items.now order.places.items)) }
    ensures in_order { IfOk result (λ order. IsInOrder (on T.key_of nat_cmp) (at_places items.now order.places.items)) }
    ensures numbers { IfOk result (λ order. order.numbers.items ≡ map T.key_of (at_places items.now order.places.items)) }
{
    let numbers = keys_of::<u64, T>(alloc, items)?;
    if are_in_order::<u64, u64>(&numbers) {
        let places = all_places(alloc, items.len())?;
        return Ok(NumberOrder { numbers, places });
    }
    sorted_order(alloc, &numbers)
}
