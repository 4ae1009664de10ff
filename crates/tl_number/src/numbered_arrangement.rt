//! The choice with a given number. For each open place in the order of shapes, the number determines how many chains of the same shape
//! come before the chain there, and whether it is turned. Chains at fixed places stay. From one number to the next, only the few chains
//! at open places are put back and moved.

ghost use Rattle.std.specs.Prelude.{IfOk, drop, length, take, ◌++◌, ◌≡◌};
ghost use Rattle.tl_number.specs.ChoiceSearch.{IsChosen};
ghost use Rattle.canonical_form.specs.MovedChains.{AgreeApart, AreWithin, IsWithin, other_way};
ghost use Rattle.canonical_form.specs.NumberedChoices.{moved, moved_at};

use crate::ascending_order::arrangement_in_order;
use county_chart::DirectedChain;
use std::alloc::{AllocError, Global};
use tl_profile::{OpenPlace, ShapeOrder};

/// Inserts the chain at an open place among the later chains of its shape, by the last two digits of a number. The last digit is how
/// many of them come before it, and the next one whether it takes the other direction. Returns the rest of the number.
fn place_chain(arrangement: &mut [DirectedChain], at: OpenPlace, number: u64) -> u64
    requires { IsWithin (length arrangement.old) at }
    ensures arrangement { arrangement.new ≡ (moved_at other_way at (arrangement.old, number)).0 }
    ensures left { result ≡ (moved_at other_way at (arrangement.old, number)).1 }
    ensures count { length arrangement.new ≡ length arrangement.old }
{
    let first = at.place as usize;
    let behind = (number % u64::from(at.alike)) as usize;
    let left = number / u64::from(at.alike);
    if left % at.ways() == 1 {
        arrangement[first].turned = !arrangement[first].turned;
    }
    arrangement[first..first + behind + 1].rotate_left(1);
    left / at.ways()
}

/// Moves chains from the order of shapes to the choice with this number, from the last open place to the first.
pub(crate) fn choose(arrangement: &mut [DirectedChain], places: &[OpenPlace], number: u64)
    requires { AreWithin (length arrangement.old) places.now }
    ensures arrangement { arrangement.new ≡ (moved other_way places.now (arrangement.old, number)).0 }
    ensures count { length arrangement.new ≡ length arrangement.old }
{
    let mut left = number;
    let mut rest = places;
    while let Some((at, before)) = rest.split_last() {
        left = place_chain(arrangement, *at, left);
        rest = before;
    }
}

/// Puts back the chains among which an open place moves one.
fn put_back_at(arrangement: &mut [DirectedChain], by_shape: &[DirectedChain], at: OpenPlace)
    requires within { IsWithin (length arrangement.old) at }
    requires count { length arrangement.old ≡ length by_shape.now }
    ensures arrangement { arrangement.new ≡ take at.place arrangement.old ++ (take at.alike (drop at.place by_shape.now) ++ drop at.alike (drop at.place arrangement.old)) }
    ensures count { length arrangement.new ≡ length arrangement.old }
{
    let first = at.place as usize;
    let end = first + at.alike as usize;
    arrangement[first..end].copy_from_slice(&by_shape[first..end]);
}

/// Puts chains that were moved at open places back to their places in the order of shapes.
fn put_back(arrangement: &mut [DirectedChain], by_shape: &[DirectedChain], places: &[OpenPlace])
    requires within { AreWithin (length arrangement.old) places.now }
    requires count { length arrangement.old ≡ length by_shape.now }
    requires apart { AgreeApart places.now arrangement.old by_shape.now }
    ensures { arrangement.new ≡ by_shape.now }
{
    let mut rest = places;
    while let Some((at, behind)) = rest.split_first() {
        put_back_at(arrangement, by_shape, *at);
        rest = behind;
    }
}

/// The directed chains of a choice, and its number.
#[derive(Drop)]
pub(crate) struct NumberedArrangement {
    pub(crate) number: u64,
    pub(crate) chains: Vec<DirectedChain>,
}

impl NumberedArrangement {
    /// Makes the choice with this number.
    pub(crate) fn new(
        alloc: Global,
        shape_order: &ShapeOrder,
        number: u64,
    ) -> Result<NumberedArrangement, AllocError>
        requires { AreWithin (length shape_order.now.by_shape) shape_order.now.places }
        ensures number { IfOk result (λ arrangement. arrangement.number ≡ number) }
        ensures chosen { IfOk result (IsChosen shape_order.now) }
    {
        let mut chains = arrangement_in_order(alloc, shape_order)?;
        choose(&mut chains, shape_order.open_places(), number);
        Ok(NumberedArrangement { number, chains })
    }

    /// Makes this the choice with another number.
    pub(crate) fn choose_again(&mut self, shape_order: &ShapeOrder, number: u64)
        requires within { AreWithin (length shape_order.now.by_shape) shape_order.now.places }
        requires chosen { IsChosen shape_order.now self.old }
        ensures number { self.new.number ≡ number }
        ensures chosen { IsChosen shape_order.now self.new }
    {
        let places = shape_order.open_places();
        let chains = self.chains.as_mut_slice();
        put_back(chains, shape_order.by_shape(), places);
        choose(chains, places, number);
        self.number = number;
    }
}
