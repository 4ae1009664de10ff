//! A reference to a chart, as a chart.

ghost use Rattle.std.specs.Prelude.{◌≡◌};

use crate::chart::Chart;
use crate::keys::record_keys::PolygonKey;
use tl_layout::{Body1, Body5, Body7, BodyI, BodyP, Point, Ranges, Rec8, Side};

/// A reference to a chart, which is a chart of the same county.
#[derive(Drop)]
pub struct Lent<'a, C: Chart> {
    chart: &'a C,
}

impl<'a, C: Chart> Lent<'a, C> {
    /// Makes a chart of the reference.
    pub fn new(chart: &'a C) -> Lent<'a, C>
        ensures { ⟦<Lent<'a, C> as Chart>⟧.county result ≡ C.county chart.now }
    {
        Lent { chart }
    }
}

/// The county of the chart that is referred to.
impl<'a, C: Chart> Chart for Lent<'a, C> {
    ghost county = { λ lent. C.county lent.chart.now };

    fn chain_count(&self) -> usize {
        self.chart.chain_count()
    }

    fn tlid_there(&self, place: usize) -> u64 {
        self.chart.tlid_there(place)
    }

    fn chain_place(&self, tlid: u64) -> Option<usize> {
        self.chart.chain_place(tlid)
    }

    fn name_count(&self) -> usize {
        self.chart.name_count()
    }

    fn feat_there(&self, place: usize) -> u32 {
        self.chart.feat_there(place)
    }

    fn name_place(&self, feat: u32) -> Option<usize> {
        self.chart.name_place(feat)
    }

    fn polygon_count(&self) -> usize {
        self.chart.polygon_count()
    }

    fn polygon_key_there(&self, place: usize) -> PolygonKey {
        self.chart.polygon_key_there(place)
    }

    fn polygon_place(&self, key: PolygonKey) -> Option<usize> {
        self.chart.polygon_place(key)
    }

    fn landmark_count(&self) -> usize {
        self.chart.landmark_count()
    }

    fn land_there(&self, place: usize) -> u64 {
        self.chart.land_there(place)
    }

    fn landmark_place(&self, land: u64) -> Option<usize> {
        self.chart.landmark_place(land)
    }

    fn node_count(&self) -> usize {
        self.chart.node_count()
    }

    fn node_there(&self, place: usize) -> u64 {
        self.chart.node_there(place)
    }

    fn node_place(&self, node: u64) -> Option<usize> {
        self.chart.node_place(node)
    }

    fn chain_body_there(&self, place: usize) -> Body1 {
        self.chart.chain_body_there(place)
    }

    fn point_count_there(&self, place: usize) -> usize {
        self.chart.point_count_there(place)
    }

    fn point_there(&self, place: usize, point: usize) -> Point {
        self.chart.point_there(place, point)
    }

    fn feat_count_there(&self, place: usize) -> usize {
        self.chart.feat_count_there(place)
    }

    fn chain_feat_there(&self, place: usize, name: usize) -> u32 {
        self.chart.chain_feat_there(place, name)
    }

    fn range_count_there(&self, place: usize) -> usize {
        self.chart.range_count_there(place)
    }

    fn range_there(&self, place: usize, range: usize) -> Ranges {
        self.chart.range_there(place, range)
    }

    fn topology_there(&self, place: usize) -> BodyI {
        self.chart.topology_there(place)
    }

    fn ends_there(&self, place: usize) -> (Option<u64>, Option<u64>) {
        self.chart.ends_there(place)
    }

    fn sides_there(&self, place: usize) -> (Side, Side) {
        self.chart.sides_there(place)
    }

    fn name_body_there(&self, place: usize) -> Body5 {
        self.chart.name_body_there(place)
    }

    fn polygon_body_there(&self, place: usize) -> Option<BodyP> {
        self.chart.polygon_body_there(place)
    }

    fn body_count_there(&self, place: usize) -> usize {
        self.chart.body_count_there(place)
    }

    fn landmark_body_there(&self, place: usize, body: usize) -> Body7 {
        self.chart.landmark_body_there(place, body)
    }

    fn link_count_there(&self, place: usize) -> usize {
        self.chart.link_count_there(place)
    }

    fn landmark_link_there(&self, place: usize, link: usize) -> Rec8 {
        self.chart.landmark_link_there(place, link)
    }

    ghost is_county = { λ lent. C.is_county lent.chart.now };

    ghost within_limits = { λ lent. C.within_limits lent.chart.now };
}
