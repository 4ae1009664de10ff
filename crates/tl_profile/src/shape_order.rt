//! The order of a county's chains by their shapes.

ghost use Rattle.std.specs.List.{AllByRecursion};
ghost use Rattle.std.specs.Prelude.{IfOk, map, ◌≡◌};
ghost use Rattle.tl_profile.specs.PlacedShapes.{HasFirstPoints, placed_directed};
ghost use Rattle.county_chart.specs.ShapeOrder.{AreInShapeOrder, IsShapeOrder};

use crate::open_places::find_choices;
use crate::shapes::{PlacedShape, ordered_shapes};
use county_chart::{Chart, DirectedChain, OpenPlace};
use std::alloc::{AllocError, Global};
use std::marker::Model;

/// The chains of a county in the order of their shapes, each with the direction in which its points are its shape, which is the
/// lesser of the points and their reverse. It also has the places at which several chains have the same shape, or at which a
/// shape is the same from both ends.
#[derive(Drop)]
pub struct ShapeOrder {
    by_shape: Vec<DirectedChain>,
    open_places: Vec<OpenPlace>,
    choices: u64,
}

impl Model for ShapeOrder {
    ghost use Rattle.county_chart.specs.ShapeOrder.{OrderOfShapes};

    ghost Value = { OrderOfShapes };

    ghost view = { λ order. record { by_shape = order.by_shape.items; places = order.open_places.items; choices = order.choices } };
}

/// Returns the chains along their shapes, one after another.
fn chains_by_shape(alloc: Global, shapes: &[PlacedShape]) -> Result<Vec<DirectedChain>, AllocError>
    ensures { IfOk result (λ by_shape. by_shape.items ≡ map placed_directed shapes.now) }
{
    shapes.iter().map(|shape| shape.directed()).collect(alloc)
}

impl ShapeOrder {
    /// Makes the order from chains that are already sorted.
    pub(crate) fn of_shapes<C: Chart>(
        alloc: Global,
        chart: &C,
        shapes: &[PlacedShape],
    ) -> Result<ShapeOrder, AllocError>
        requires heads { AllByRecursion (HasFirstPoints (C.county chart.now)) shapes.now }
        requires order { AreInShapeOrder (C.county chart.now) (map placed_directed shapes.now) }
        ensures { IfOk result (IsShapeOrder (C.county chart.now)) }
    {
        let by_shape = chains_by_shape(alloc, shapes)?;
        let found = find_choices(alloc, chart, shapes)?;
        Ok(ShapeOrder {
            by_shape,
            open_places: found.places,
            choices: found.count,
        })
    }

    /// Returns the chains in the order of their shapes, each in the direction of its shape.
    pub fn by_shape(&self) -> &[DirectedChain]
        ensures { result.now ≡ self.now.by_shape }
    {
        &self.by_shape
    }

    /// Returns the places in this order that leave a choice, provided that the county leaves at most 5,040 choices.
    pub fn open_places(&self) -> &[OpenPlace]
        ensures { result.now ≡ self.now.places }
    {
        &self.open_places
    }

    /// Returns the number of choices that the county leaves open: 1 if there is no choice, and 5,041 for more than 5,040.
    pub fn choices(&self) -> u64
        ensures { result ≡ self.now.choices }
    {
        self.choices
    }
}

/// Sorts the chains of a county by their shapes. Chains of the same shape stay in the order of their TLIDs.
///
/// # Errors
///
/// `AllocError` if an allocation failed.
pub fn order_by_shape<C: Chart>(alloc: Global, chart: &C) -> Result<ShapeOrder, AllocError>
    ensures { IfOk result (IsShapeOrder (C.county chart.now)) }
{
    let shapes = ordered_shapes(alloc, chart)?;
    ShapeOrder::of_shapes(alloc, chart, &shapes)
}
