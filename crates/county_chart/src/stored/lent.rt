//! Names and landmarks that borrow their contents.

ghost use Rattle.std.specs.Prelude.{◌≡◌};

use crate::stored::storage::{StoredLandmark, StoredName};
use std::marker::Model;
use tl_layout::{Body5, Body7, Rec8};

/// A name that borrows its content, for example from an arena.
#[derive(Debug, Drop)]
pub struct NameIn<'a> {
    body: &'a Body5,
}

impl<'a> Model for NameIn<'a> {
    ghost use Rattle.tl_layout.specs.declared.type5.Body5.{Body5};

    ghost Value = { Body5 };

    ghost view = { λ n. n.body.now };
}

impl<'a> NameIn<'a> {
    /// Makes the name with this content.
    pub fn new(body: &'a Body5) -> NameIn<'a>
        ensures { result ≡ body.now }
    {
        NameIn { body }
    }

    /// Returns the content of its record of type 5.
    pub(crate) fn body(&self) -> &'a Body5
        ensures { result.now ≡ self.now }
    {
        self.body
    }
}

impl<'a> StoredName for NameIn<'a> {
    ghost name = { λ n. n };

    fn content(&self) -> &Body5 {
        self.body()
    }
}

/// A landmark like [`Landmark`](crate::stored::landmark::Landmark) that borrows its lists, for example from an arena.
#[derive(Debug, Drop)]
pub struct LandmarkIn<'a> {
    bodies: &'a [Body7],
    links: &'a [Rec8],
}

impl<'a> Model for LandmarkIn<'a> {
    ghost use Rattle.county_chart.specs.LandmarkParts.{LandmarkParts};

    ghost Value = { LandmarkParts };

    ghost view = { λ l. record { bodies = l.bodies.now; links = l.links.now } };
}

impl<'a> LandmarkIn<'a> {
    /// Makes the landmark with these contents and links.
    pub fn new(bodies: &'a [Body7], links: &'a [Rec8]) -> LandmarkIn<'a>
        ensures { result ≡ record { bodies = bodies.now; links = links.now } }
    {
        LandmarkIn { bodies, links }
    }

    /// Returns the contents of its type 7 records, ordered by FILE, SOURCE, CFCC, LANAME and the point, with no point first.
    pub(crate) fn bodies(&self) -> &'a [Body7]
        ensures { result.now ≡ self.now.bodies }
    {
        self.bodies
    }

    /// Returns its type 8 records, ordered by POLYID, CENID and FILE.
    pub(crate) fn links(&self) -> &'a [Rec8]
        ensures { result.now ≡ self.now.links }
    {
        self.links
    }
}

impl<'a> StoredLandmark for LandmarkIn<'a> {
    ghost landmark = { λ l. l };

    fn bodies(&self) -> &[Body7] {
        self.bodies()
    }

    fn links(&self) -> &[Rec8] {
        self.links()
    }
}
