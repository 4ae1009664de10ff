//! The shapes of chains, and sorting them.
//!
//! Most shapes differ in their first two points. The ranks of these are therefore stored with a chain's place and direction
//! while chains are sorted, and the county is read only if both are equal. Afterwards chains of the same shape are neighbours.

ghost use Rattle.std.specs.List.{AllByRecursion};
ghost use Rattle.std.specs.Prelude.{IfOk, IsPermutation, length, map, reverse, ◌<◌, ◌≡◌};
ghost use Rattle.ordered_lists.specs.Orders.{IsInOrder};
ghost use Rattle.tl_profile.specs.PlacedShapes.{HasFirstPoints, beyond_first_cmp, placed_cmp, placed_directed, placed_key_cmp};
ghost use Rattle.county_chart.specs.ShapeOrder.{AreInShapeOrder, along_shape, along_shapes, points_along};
ghost use Rattle.county_chart.specs.Shapes.{points_at};
ghost use Rattle.tl_shape.specs.PointOrder.{points_cmp};

use crate::point_rank::PointRank;
use county_chart::{Chart, DirectedChain, Listed, compare};
use std::alloc::{AllocError, Global};
use std::cmp::Ordering;

/// A chain with the beginning of its shape, in which most shapes differ. Its shape is the lesser of its points and their
/// reverse.
#[derive(Clone, Copy)]
pub(crate) struct PlacedShape {
    /// The rank of the first point of the shape.
    pub(crate) first: PointRank,
    /// The rank of the second point of the shape.
    pub(crate) second: PointRank,
    /// The chain's place.
    pub(crate) place: u32,
    /// Whether the shape has the chain's points from the end node on.
    pub(crate) turned: bool,
    /// Whether the shape is the same from both ends.
    pub(crate) either_way: bool,
}

impl PlacedShape {
    /// Returns the chain in the direction in which its points are its shape.
    pub(crate) fn directed(&self) -> DirectedChain
        ensures { result ≡ placed_directed self.now }
    {
        DirectedChain {
            place: self.place,
            turned: self.turned,
        }
    }
}

/// Compares the points of two directed chains. The first points that differ decide; a list comes after each of its beginnings.
fn compare_directed<C: Chart>(chart: &C, directed: DirectedChain, other: DirectedChain) -> Ordering
    ensures { result ≡ points_cmp (points_along (C.county chart.now) directed) (points_along (C.county chart.now) other) }
{
    compare(&directed.points(chart), &other.points(chart))
}

/// Compares the points of the chain at a place, in reverse, with the points themselves.
fn compare_reverse<C: Chart>(chart: &C, place: u32) -> Ordering
    ensures { let points = points_at (C.county chart.now) place in result ≡ points_cmp (reverse points) points }
{
    let backward = DirectedChain {
        place,
        turned: true,
    };
    let forward = DirectedChain {
        place,
        turned: false,
    };
    compare_directed(chart, backward, forward)
}

/// Returns the chain at a place, with the beginning of its shape.
fn placed_shape<C: Chart>(chart: &C, place: u32) -> PlacedShape
    requires { place < length (C.county chart.now).chains }
    ensures directed { placed_directed result ≡ along_shape (C.county chart.now) place }
    ensures head { HasFirstPoints (C.county chart.now) result }
{
    let reversed = compare_reverse(chart, place);
    let turned = reversed.is_lt();
    let directed = DirectedChain { place, turned };
    let points = directed.points(chart);
    PlacedShape {
        first: PointRank::of(points.item(0)),
        second: PointRank::of(points.item(1)),
        place,
        turned,
        either_way: reversed.is_eq(),
    }
}

/// Returns the chains with the beginnings of their shapes, in the order of their places.
fn placed_shapes<C: Chart>(alloc: Global, chart: &C) -> Result<Vec<PlacedShape>, AllocError>
    ensures by_shape { IfOk result (λ shapes. map placed_directed shapes.items ≡ along_shapes (C.county chart.now)) }
    ensures heads { IfOk result (λ shapes. AllByRecursion (HasFirstPoints (C.county chart.now)) shapes.items) }
{
    let count = chart.chain_count();
    let mut shapes = Vec::with_capacity(alloc, count)?;
    for place in 0..count {
        shapes.push(placed_shape(chart, place as u32))?;
    }
    Ok(shapes)
}

/// Compares the shapes of two chains whose first points are the same.
#[inline(never)]
fn compare_beyond_first<C: Chart>(chart: &C, shape: &PlacedShape, other: &PlacedShape) -> Ordering
    ensures { result ≡ beyond_first_cmp (C.county chart.now) shape.now other.now }
{
    match shape.second.cmp(&other.second) {
        Ordering::Equal => compare_directed(chart, shape.directed(), other.directed()),
        unequal => unequal,
    }
}

/// Compares the shapes of two chains.
///
/// Trick: nearly all pairs differ in their first points, so only this comparison is inlined into the loops of the sort, and the rest is
/// a separate function. Testing for equality first leaves those loops no branch that is hard to predict.
#[inline(always)]
pub(crate) fn compare_shapes<C: Chart>(
    chart: &C,
    shape: &PlacedShape,
    other: &PlacedShape,
) -> Ordering
    ensures { result ≡ placed_cmp (C.county chart.now) shape.now other.now }
{
    if shape.first == other.first {
        compare_beyond_first(chart, shape, other)
    } else if shape.first < other.first {
        Ordering::Less
    } else {
        Ordering::Greater
    }
}

/// Compares two chains by their shapes, and if these are the same, by their places.
#[inline(always)]
fn compare_placed<C: Chart>(chart: &C, shape: &PlacedShape, other: &PlacedShape) -> Ordering
    ensures { result ≡ placed_key_cmp (C.county chart.now) shape.now other.now }
{
    match compare_shapes(chart, shape, other) {
        Ordering::Equal => shape.place.cmp(&other.place),
        unequal => unequal,
    }
}

/// Sorts chains by their shapes, and chains of the same shape by their places.
fn order_shapes<C: Chart>(chart: &C, shapes: &mut Vec<PlacedShape>)
    ensures permutation { IsPermutation shapes.old.items shapes.new.items }
    ensures in_order { IsInOrder (placed_key_cmp (C.county chart.now)) shapes.new.items }
{
    shapes.sort_unstable_by(|shape, other| compare_placed(chart, shape, other));
}

/// Returns the chains of a county with the beginnings of their shapes, sorted by shape.
pub(crate) fn ordered_shapes<C: Chart>(
    alloc: Global,
    chart: &C,
) -> Result<Vec<PlacedShape>, AllocError>
    ensures order { IfOk result (λ shapes. AreInShapeOrder (C.county chart.now) (map placed_directed shapes.items)) }
    ensures heads { IfOk result (λ shapes. AllByRecursion (HasFirstPoints (C.county chart.now)) shapes.items) }
{
    let mut shapes = placed_shapes(alloc, chart)?;
    order_shapes(chart, &mut shapes);
    Ok(shapes)
}
