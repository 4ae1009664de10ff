//! The points of a chain.

ghost use Rattle.std.specs.Prelude.{IfOk, IsTrue, List, [], length, reverse, ◌++◌, ◌↔◌, ◌∷◌, ◌≡◌, ◌≤◌};
ghost use Rattle.tl_layout.specs.Coordinates.{Coordinates};
ghost use Rattle.tl_shape.specs.PointOrder.{ComeAfterReverse, points_cmp};

use std::alloc::{AllocError, Global};
use std::cmp::Ordering;
use std::marker::Model;
use tl_layout::Point;

/// The points of a chain from its start node to its end node, at least two (record type 1, FRLONG to TOLAT, and the shape
/// points of record type 2 between them).
#[derive(Debug, Drop)]
pub struct Shape {
    points: Vec<Point>,
}

impl Model for Shape {
    ghost use Rattle.std.specs.Prelude.{List, length, ◌≤◌};
    ghost use Rattle.tl_layout.specs.Coordinates.{Coordinates};

    ghost Value = { List Coordinates };

    ghost view = { λ s. s.points.items };

    ghost invariant = { λ s. 2 ≤ length s.points.items };
}

impl Shape {
    /// Makes the shape from `start` through the shape points `inner` to `end`.
    ///
    /// # Errors
    ///
    /// `AllocError` if an allocation failed.
    pub fn new(
        alloc: Global,
        start: Point,
        inner: &[Point],
        end: Point,
    ) -> Result<Shape, AllocError>
        ensures { IfOk result (λ shape. shape ≡ (start ∷ inner.now) ++ end ∷ []) }
    {
        let mut points = Vec::new(alloc);
        points.push(start)?;
        points.extend_from_slice(inner)?;
        points.push(end)?;
        Ok(Shape { points })
    }

    /// Returns the points, from the chain's start to its end.
    pub fn points(&self) -> &[Point]
        ensures value { result.now ≡ self.now }
        ensures two { 2 ≤ length self.now }
    {
        self.points.as_slice()
    }

    /// Compares the points with another shape's. The first point that differs decides, by longitude and then by latitude as numbers; a
    /// shape comes after each of its beginnings.
    pub fn cmp(&self, other: &Shape) -> Ordering
        ensures { result ≡ points_cmp self.now other.now }
    {
        self.points.as_slice().cmp(other.points.as_slice())
    }

    /// Compares the reverse of the points with the points.
    fn cmp_reverse(&self) -> Ordering
        ensures { result ≡ points_cmp (reverse self.now) self.now }
    {
        let points = self.points.as_slice();
        let len = points.len();
        for i in 0..len {
            match points[len - 1 - i].cmp(&points[i]) {
                Ordering::Equal => {}
                unequal => return unequal,
            }
        }
        Ordering::Equal
    }

    /// Checks whether the points are the same from both ends.
    pub fn is_own_reverse(&self) -> bool
        ensures { IsTrue result ↔ (reverse self.now ≡ self.now) }
    {
        self.cmp_reverse().is_eq()
    }

    /// Checks whether the points come after their reverse. If so, the canonical form has the chain turned.
    pub fn needs_turn(&self) -> bool
        ensures { IsTrue result ↔ ComeAfterReverse self.now }
    {
        self.cmp_reverse().is_lt()
    }

    /// Reverses the points.
    pub fn reverse(&mut self)
        ensures { self.new ≡ reverse self.old }
    {
        self.points.reverse();
    }
}
