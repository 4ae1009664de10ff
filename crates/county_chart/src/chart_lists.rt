//! Lists of a chart that are read by place: its numbers by kind, and the contents of a landmark.

use crate::chart::Chart;
use crate::keys::record_keys::PolygonKey;
use crate::listed::Listed;
use tl_layout::Body7;

/// The TLIDs of a county's chains, ascending.
#[derive(Drop)]
pub struct Tlids<'a, C: Chart>(pub &'a C);

impl<C: Chart> Listed for Tlids<'_, C> {
    ghost use Rattle.county_chart.specs.CountyRules.{tlids};

    type Item = u64;

    ghost items = { λ l. tlids (C.county l.0.now) };

    fn count(&self) -> usize {
        self.0.chain_count()
    }

    fn item(&self, place: usize) -> u64 {
        self.0.tlid_there(place)
    }
}

/// The FEATs of a county's names, ascending.
#[derive(Drop)]
pub struct Feats<'a, C: Chart>(pub &'a C);

impl<C: Chart> Listed for Feats<'_, C> {
    ghost use Rattle.county_chart.specs.CountyRules.{feats};

    type Item = u32;

    ghost items = { λ l. feats (C.county l.0.now) };

    fn count(&self) -> usize {
        self.0.name_count()
    }

    fn item(&self, place: usize) -> u32 {
        self.0.feat_there(place)
    }
}

/// The keys of a county's polygons, ascending.
#[derive(Drop)]
pub struct Polygons<'a, C: Chart>(pub &'a C);

impl<C: Chart> Listed for Polygons<'_, C> {
    ghost use Rattle.county_chart.specs.CountyRules.{polygon_keys};

    type Item = PolygonKey;

    ghost items = { λ l. polygon_keys (C.county l.0.now) };

    fn count(&self) -> usize {
        self.0.polygon_count()
    }

    fn item(&self, place: usize) -> PolygonKey {
        self.0.polygon_key_there(place)
    }
}

/// The LANDs of a county's landmarks, ascending.
#[derive(Drop)]
pub struct Lands<'a, C: Chart>(pub &'a C);

impl<C: Chart> Listed for Lands<'_, C> {
    ghost use Rattle.county_chart.specs.CountyRules.{lands};

    type Item = u64;

    ghost items = { λ l. lands (C.county l.0.now) };

    fn count(&self) -> usize {
        self.0.landmark_count()
    }

    fn item(&self, place: usize) -> u64 {
        self.0.land_there(place)
    }
}

/// The nodes of a county, ascending.
#[derive(Drop)]
pub struct Nodes<'a, C: Chart>(pub &'a C);

impl<C: Chart> Listed for Nodes<'_, C> {
    ghost use Rattle.county_chart.specs.CountyRules.{nodes};

    type Item = u64;

    ghost items = { λ l. nodes (C.county l.0.now) };

    fn count(&self) -> usize {
        self.0.node_count()
    }

    fn item(&self, place: usize) -> u64 {
        self.0.node_there(place)
    }
}

/// The contents of the landmark at a place, in the order in which the county has them. There are none past the last landmark.
#[derive(Drop)]
pub struct LandmarkBodies<'a, C> {
    /// The county.
    pub chart: &'a C,
    /// The landmark's place in the ascending list of LANDs, counted from 0.
    pub place: usize,
}

impl<'a, C: Chart> Listed for LandmarkBodies<'a, C> {
    ghost use Rattle.county_chart.specs.ChartWords.{bodies_at};

    type Item = Body7;

    ghost items = { λ l. bodies_at (C.county l.chart.now) l.place };

    fn count(&self) -> usize {
        self.chart.body_count_at(self.place)
    }

    fn item(&self, place: usize) -> Body7 {
        self.chart.landmark_body_there(self.place, place)
    }
}
