//! Whether a county has the names, the polygons and the landmarks of another under their new numbers.

use crate::renaming_tables::RenamingTables;
use county_chart::{Chart, LandmarkBodies, Same, Tested, are_same};

/// The names of `a`, each looked for in `b` under its new FEAT.
#[derive(Drop)]
pub(crate) struct Names<'a, A, B> {
    pub(crate) a: &'a A,
    pub(crate) b: &'a B,
    pub(crate) tables: &'a RenamingTables<'a>,
}

impl<'a, A: Chart, B: Chart> Tested for Names<'a, A, B> {
    ghost use Rattle.std.specs.Prelude.{ℕ};
    ghost use Rattle.tl_cert.specs.PartsThere.{IsNameThere, tabled};
    ghost use Rattle.tl_layout.specs.declared.type5.Body5.{Body5};

    ghost Entry = { ℕ × Body5 };

    ghost entries = { λ t. (A.county t.a.now).names };

    ghost Holds = { λ t. IsNameThere (tabled t.tables.now) (B.county t.b.now) };

    fn count(&self) -> usize {
        self.a.name_count()
    }

    fn holds(&self, place: usize) -> bool {
        let feat = self.tables.names.image(self.a.feat_there(place));
        let other = self.b.name_place_or_end(feat);
        self.b
            .name_body_at(other)
            .is_same(&self.a.name_body_at(place))
    }
}

/// The polygons of `a`, each looked for in `b` under its new key.
#[derive(Drop)]
pub(crate) struct PolygonParts<'a, A, B> {
    pub(crate) a: &'a A,
    pub(crate) b: &'a B,
    pub(crate) tables: &'a RenamingTables<'a>,
}

impl<'a, A: Chart, B: Chart> Tested for PolygonParts<'a, A, B> {
    ghost use Rattle.std.specs.Prelude.{Option};
    ghost use Rattle.tl_cert.specs.PartsThere.{IsPolygonThere, tabled};
    ghost use Rattle.county_chart.specs.PolygonKeys.{PolygonKey};
    ghost use Rattle.tl_layout.specs.declared.type_p.BodyP.{BodyP};

    ghost Entry = { PolygonKey × Option BodyP };

    ghost entries = { λ t. (A.county t.a.now).polygons };

    ghost Holds = { λ t. IsPolygonThere (tabled t.tables.now) (B.county t.b.now) };

    fn count(&self) -> usize {
        self.a.polygon_count()
    }

    fn holds(&self, place: usize) -> bool {
        let key = self.tables.polygons.image(self.a.polygon_key_there(place));
        let other = self.b.polygon_place_or_end(key);
        self.b
            .polygon_body_at(other)
            .is_same(&self.a.polygon_body_at(place))
    }
}

/// The landmarks of `a`, each looked for in `b` under its new LAND.
#[derive(Drop)]
pub(crate) struct Landmarks<'a, A, B> {
    pub(crate) a: &'a A,
    pub(crate) b: &'a B,
    pub(crate) tables: &'a RenamingTables<'a>,
}

impl<'a, A: Chart, B: Chart> Tested for Landmarks<'a, A, B> {
    ghost use Rattle.std.specs.Prelude.{List, ℕ};
    ghost use Rattle.tl_cert.specs.PartsThere.{IsLandmarkThere, tabled};
    ghost use Rattle.tl_layout.specs.declared.type7.Body7.{Body7};

    ghost Entry = { ℕ × List Body7 };

    ghost entries = { λ t. (A.county t.a.now).landmarks };

    ghost Holds = { λ t. IsLandmarkThere (tabled t.tables.now) (B.county t.b.now) };

    fn count(&self) -> usize {
        self.a.landmark_count()
    }

    fn holds(&self, place: usize) -> bool {
        let land = self.tables.lands.image(self.a.land_there(place));
        let bodies = LandmarkBodies {
            chart: self.a,
            place,
        };
        let others = LandmarkBodies {
            chart: self.b,
            place: self.b.landmark_place_or_end(land),
        };
        are_same(&bodies, &others)
    }
}
