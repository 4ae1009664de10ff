//! Landmarks, with their polygons.

ghost use Rattle.std.specs.Prelude.{◌≡◌};

use crate::stored::storage::StoredLandmark;
use std::marker::Model;
use tl_layout::{Body7, Rec8};

/// A landmark: the contents of its type 7 records and its type 8 records, both in order and repeated as often as in the set.
#[derive(Debug, Drop)]
pub struct Landmark {
    bodies: Vec<Body7>,
    links: Vec<Rec8>,
}

impl Model for Landmark {
    ghost use Rattle.county_chart.specs.LandmarkParts.{LandmarkParts};

    ghost Value = { LandmarkParts };

    ghost view = { λ l. record { bodies = l.bodies.items; links = l.links.items } };
}

impl Landmark {
    /// Makes the landmark with these contents and links.
    pub fn new(bodies: Vec<Body7>, links: Vec<Rec8>) -> Landmark
        ensures { result ≡ record { bodies = bodies.items; links = links.items } }
    {
        Landmark { bodies, links }
    }
}

impl StoredLandmark for Landmark {
    ghost landmark = { λ l. l };

    fn bodies(&self) -> &[Body7] {
        self.bodies.as_slice()
    }

    fn links(&self) -> &[Rec8] {
        self.links.as_slice()
    }
}
