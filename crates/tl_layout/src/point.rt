//! Points of the map.

ghost use Rattle.std.specs.Prelude.{IfSome, pos, ◌≡◌};
ghost use Rattle.tl_layout.specs.Coordinates.{Coordinates, IsOnMap};

use std::marker::Model;

/// A point of the map, in millionths of a degree. Its longitude is of magnitude at most 999,999,999, its latitude of
/// magnitude at most 99,999,999, and they aren't both 0. Points are ordered by longitude, then by latitude, as numbers.
#[derive(Clone, Copy, Debug, PartialEq, Eq, PartialOrd, Ord)]
pub struct Point {
    long: i32,
    lat: i32,
}

impl Model for Point {
    ghost Value = { Coordinates };

    ghost view = { λ p. record { long = p.long; lat = p.lat } };

    ghost invariant = { λ p. IsOnMap (record { long = p.long; lat = p.lat }) };

    ghost inverse = { λ c. record { long = c.long; lat = c.lat } };
}

impl Point {
    /// Makes the point at this longitude and latitude, in millionths of a degree. It must be on the map: within the
    /// limits, and not both 0.
    pub fn new(long: i32, lat: i32) -> Point
        requires { IsOnMap (record { long = long; lat = lat }) }
        ensures { result ≡ record { long = long; lat = lat } }
    {
        Point { long, lat }
    }

    /// Returns the longitude, in millionths of a degree.
    pub fn long(&self) -> i32
        ensures value { result ≡ self.now.long }
        ensures on_map { IsOnMap self.now }
    {
        self.long
    }

    /// Returns the latitude, in millionths of a degree.
    pub fn lat(&self) -> i32
        ensures value { result ≡ self.now.lat }
        ensures on_map { IsOnMap self.now }
    {
        self.lat
    }

    /// Proves that the point is on the map, which its type guarantees. Does nothing at run time.
    pub(crate) fn show_fit(&self)
        ensures { IsOnMap self.now }
    {
        let _ = &self.lat;
    }
}

/// Proves that the point, if there is one, is on the map, which its type guarantees. Does nothing at run time.
pub(crate) fn show_point_fits(point: &Option<Point>)
    ensures { IfSome point.now IsOnMap }
{
    if let Some(point) = point {
        point.show_fit();
    }
}

/// The point at longitude 0 and one millionth of a degree north. It only fills arrays and is never a point of a map.
impl Default for Point {
    ghost is_default = { λ p. p ≡ record { long = pos 0; lat = pos 1 } };

    fn default() -> Point {
        Point::new(0, 1)
    }
}
