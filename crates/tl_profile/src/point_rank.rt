//! Points of the map, each as one number.

ghost use Rattle.std.specs.Prelude.{◌≡◌};
ghost use Rattle.tl_layout.specs.Coordinates.{IsOnMap};
ghost use Rattle.tl_profile.specs.PointRanks.{point_rank};

use std::marker::Model;
use tl_layout::Point;

/// More than the number of latitudes, which go from -99,999,999 to 99,999,999 millionths of a degree.
const LATITUDES: i64 = 200_000_000;

/// The position of a point among all points of the map, as one number. Ranks are compared in one step, and compare as their
/// points do.
#[derive(Clone, Copy, PartialEq, Eq, PartialOrd, Ord)]
pub(crate) struct PointRank {
    number: i64,
}

impl Model for PointRank {
    ghost use Rattle.std.specs.Prelude.{ℤ};

    ghost Value = { ℤ };

    ghost view = { λ rank. rank.number };

    ghost inverse = { λ number. record { number = number } };
}

impl PointRank {
    pub(crate) fn of(point: Point) -> PointRank
        ensures rank { result ≡ point_rank point }
        ensures on_map { IsOnMap point }
    {
        PointRank {
            number: i64::from(point.long()) * LATITUDES + i64::from(point.lat()),
        }
    }
}
