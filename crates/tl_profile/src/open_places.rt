//! The places in the order of shapes that leave a choice of chain or direction, and how many choices they leave.
//!
//! Chains of the same shape are neighbours in that order. One pass from the last shape to the first, comparing each with the
//! next one, therefore knows how many of the same shape are still to come.

ghost use Rattle.std.specs.List.{AllByRecursion};
ghost use Rattle.std.specs.Prelude.{IfOk, OnOk, [], cond, length, map, min, reverse, suc, ◌*◌, ◌++◌, ◌+◌, ◌<◌, ◌^◌, ◌∷◌, ◌≡◌, ◌≤◌};
ghost use Rattle.ordered_lists.specs.Orders.{IsInOrder};
ghost use Rattle.county_chart.specs.Choices.{alike_first, choices, counted_choices, is_either_way, is_first, is_settled, most_choices, open_place_at, open_places, ways_at};
ghost use Rattle.tl_profile.specs.PlacedShapes.{HasFirstPoints, placed_directed, whole_shape};
ghost use Rattle.county_chart.specs.ShapeOrder.{AreInShapeOrder};
ghost use Rattle.tl_shape.specs.PointOrder.{points_cmp};

use crate::shapes::{PlacedShape, compare_shapes};
use county_chart::{Chart, OpenPlace};
use std::alloc::{AllocError, Global};

/// The greatest number of choices that are tried.
pub(crate) const MOST_CHOICES: u64 = 5040;

/// The choices that ordered shapes leave open from some place on.
#[derive(Drop)]
pub(crate) struct OpenChoices {
    /// The open places, the last of them first.
    pub(crate) places: Vec<OpenPlace>,
    /// The number of choices that they leave.
    pub(crate) count: u64,
    /// How many of the shapes are the same as the first, including it.
    alike: u32,
}

impl OpenChoices {
    /// Returns the choices of no shapes.
    fn none(alloc: Global) -> OpenChoices
        ensures places { result.places.items ≡ [] }
        ensures count { result.count ≡ 1 }
        ensures alike { result.alike ≡ 0 }
    {
        OpenChoices {
            places: Vec::new(alloc),
            count: 1,
            alike: 0,
        }
    }

    /// Adds the place before the others.
    fn put_in_front(&mut self, at: OpenPlace) -> Result<(), AllocError>
        requires { self.old.count ≤ most_choices }
        ensures places { OnOk result (self.new.places.items ≡ cond (is_settled at) self.old.places.items (self.old.places.items ++ (at ∷ []))) }
        ensures count { OnOk result (self.new.count ≡ at.alike * (ways_at at * self.old.count)) }
        ensures alike { OnOk result (self.new.alike ≡ at.alike) }
    {
        if !at.is_settled() {
            self.places.push(at)?;
        }
        self.count = u64::from(at.alike) * (at.ways() * self.count);
        self.alike = at.alike;
        Ok(())
    }

    /// Returns the places in order, and the count limited to one more than the most.
    fn in_order(self) -> OpenChoices
        ensures places { result.places.items ≡ reverse self.places.items }
        ensures count { result.count ≡ min self.count (suc most_choices) }
    {
        let mut places = self.places;
        places.reverse();
        OpenChoices {
            places,
            count: self.count.min(MOST_CHOICES + 1),
            alike: self.alike,
        }
    }
}

/// Checks whether a shape is the same as the first shape after it.
fn is_twin<C: Chart>(chart: &C, shape: &PlacedShape, later: &[PlacedShape]) -> bool
    requires shape { HasFirstPoints (C.county chart.now) shape.now }
    requires later { AllByRecursion (HasFirstPoints (C.county chart.now)) later.now }
    ensures { result ≡ is_first points_cmp (whole_shape (C.county chart.now) shape.now) (map (whole_shape (C.county chart.now)) later.now) }
{
    match later.split_first() {
        Some((next, _)) => compare_shapes(chart, shape, next).is_eq(),
        None => false,
    }
}

/// Returns the place of a shape. `later` are the shapes after it, and `alike` is how many of them are the same as the first later one.
fn place_in_order<C: Chart>(
    chart: &C,
    shape: &PlacedShape,
    later: &[PlacedShape],
    place: u32,
    alike: u32,
) -> OpenPlace
    requires shape { HasFirstPoints (C.county chart.now) shape.now }
    requires later { AllByRecursion (HasFirstPoints (C.county chart.now)) later.now }
    requires in_order { IsInOrder points_cmp (whole_shape (C.county chart.now) shape.now ∷ map (whole_shape (C.county chart.now)) later.now) }
    requires alike { alike ≡ alike_first points_cmp (map (whole_shape (C.county chart.now)) later.now) }
    requires few { length later.now + 1 < 2 ^ 32 }
    ensures { result ≡ open_place_at points_cmp is_either_way place (whole_shape (C.county chart.now) shape.now)
        (map (whole_shape (C.county chart.now)) later.now) }
{
    let is_twin = is_twin(chart, shape, later);
    OpenPlace {
        place,
        alike: if is_twin { alike + 1 } else { 1 },
        either_way: shape.either_way,
    }
}

/// Finds the choices that the shapes of a county's chains, given in order, leave open. It stops when there are more than are
/// tried.
pub(crate) fn find_choices<C: Chart>(
    alloc: Global,
    chart: &C,
    shapes: &[PlacedShape],
) -> Result<OpenChoices, AllocError>
    requires heads { AllByRecursion (HasFirstPoints (C.county chart.now)) shapes.now }
    requires order { AreInShapeOrder (C.county chart.now) (map placed_directed shapes.now) }
    ensures count { IfOk result (λ found. found.count ≡ counted_choices (C.county chart.now)) }
    ensures places { choices (C.county chart.now) ≤ most_choices → IfOk result (λ found.
        found.places.items ≡ open_places points_cmp is_either_way 0 (map (whole_shape (C.county chart.now)) shapes.now)) }
{
    let mut found = OpenChoices::none(alloc);
    let mut rest = shapes;
    while let Some((shape, before)) = rest.split_last() {
        let later = &shapes[rest.len()..];
        let place = before.len() as u32;
        let alike = found.alike;
        found.put_in_front(place_in_order(chart, shape, later, place, alike))?;
        if found.count > MOST_CHOICES {
            break;
        }
        rest = before;
    }
    Ok(found.in_order())
}
