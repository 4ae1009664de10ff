//! A county in an arrangement, as a chart.
//!
//! Chains, names, landmarks and nodes are numbered from 1, so the place of a number follows from it. Old numbers and points
//! aren't copied: chains are read through the source county, and turned and renumbered as they are read.

ghost use Rattle.std.specs.Ordering.{nat_cmp};
ghost use Rattle.std.specs.Prelude.{IfSome, Some, is_some, slice_get, ◌<◌, ◌≡◌};
ghost use Rattle.ordered_lists.specs.Orders.{contains};
ghost use Rattle.canonical_form.specs.Growth.{up_to};

use crate::arranged::{Arranged, Evidence};
use crate::landmark_links::links_of_landmark;
use county_chart::{Chart, Listed, PolygonKey};
use ordered_lists::place_of;
use tl_layout::{Body1, Body5, Body7, BodyI, BodyP, Point, Ranges, Rec8, Side};

/// Returns the place of a number, counted from 0, or `None` if it isn't one of them.
pub(crate) fn place_of_number(count: usize, number: u64) -> Option<usize>
    ensures found { IfSome result (λ place. slice_get (up_to count) place ≡ Some number) }
    ensures known { is_some result ≡ contains nat_cmp number (up_to count) }
{
    if number == 0 {
        return None;
    }
    let place = (number - 1) as usize;
    if place < count { Some(place) } else { None }
}

/// The county that the arrangement makes from the source county.
impl<C: Chart, S: Evidence> Chart for Arranged<C, S> {
    ghost use Rattle.canonical_form.specs.WholeArrangements.{arranged_by};

    ghost county = { λ view. arranged_by (C.county view.chart) view.arrangement.items };

    fn chain_count(&self) -> usize {
        self.arrangement.as_slice().len()
    }

    fn tlid_there(&self, place: usize) -> u64 {
        place as u64 + 1
    }

    fn chain_place(&self, tlid: u64) -> Option<usize> {
        place_of_number(self.arrangement.as_slice().len(), tlid)
    }

    fn name_count(&self) -> usize {
        self.names.feats.len()
    }

    fn feat_there(&self, place: usize) -> u32 {
        place as u32 + 1
    }

    fn name_place(&self, feat: u32) -> Option<usize> {
        place_of_number(self.names.feats.len(), feat as u64)
    }

    fn polygon_count(&self) -> usize {
        self.polygons.keys.as_slice().len()
    }

    fn polygon_key_there(&self, place: usize) -> PolygonKey {
        self.polygons.keys.as_slice().item(place)
    }

    fn polygon_place(&self, key: PolygonKey) -> Option<usize> {
        place_of(self.polygons.keys.as_slice(), key)
    }

    fn landmark_count(&self) -> usize {
        self.landmarks.places.as_slice().len()
    }

    fn land_there(&self, place: usize) -> u64 {
        place as u64 + 1
    }

    fn landmark_place(&self, land: u64) -> Option<usize> {
        place_of_number(self.landmarks.places.as_slice().len(), land)
    }

    fn node_count(&self) -> usize {
        self.nodes.numbers.len()
    }

    fn node_there(&self, place: usize) -> u64 {
        place as u64 + 1
    }

    fn node_place(&self, node: u64) -> Option<usize> {
        place_of_number(self.nodes.numbers.len(), node)
    }

    fn chain_body_there(&self, place: usize) -> Body1 {
        self.directed_there(place).body(&self.chart)
    }

    fn put_chain_body(&self, place: usize, turned: bool, out: &mut [u8]) {
        let directed = self.directed_there(place);
        directed.put_body(&self.chart, turned, out);
    }

    fn chain_byte(&self, place: usize) -> u8 {
        match self.arrangement.as_slice().get(place) {
            Some(directed) => self.chart.chain_byte(directed.place as usize),
            None => 0,
        }
    }

    fn point_count_there(&self, place: usize) -> usize {
        self.directed_there(place).points(&self.chart).count()
    }

    fn point_there(&self, place: usize, point: usize) -> Point {
        self.directed_there(place).points(&self.chart).item(point)
    }

    fn feat_count_there(&self, place: usize) -> usize {
        self.directed_there(place).feats(&self.chart).count()
    }

    fn chain_feat_there(&self, place: usize, name: usize) -> u32 {
        let feats = self.directed_there(place).feats(&self.chart);
        self.renumbered_feat(feats.item(name))
    }

    fn range_count_there(&self, place: usize) -> usize {
        self.directed_there(place).ranges(&self.chart).count()
    }

    fn range_there(&self, place: usize, range: usize) -> Ranges {
        self.directed_there(place).ranges(&self.chart).item(range)
    }

    fn topology_there(&self, place: usize) -> BodyI {
        self.directed_there(place).topology(&self.chart)
    }

    fn ends_there(&self, place: usize) -> (Option<u64>, Option<u64>) {
        let (start, end) = self.nodes.ends.as_slice().item(place);
        (start.get(), end.get())
    }

    fn sides_there(&self, place: usize) -> (Side, Side) {
        self.polygons.sides.as_slice().item(place)
    }

    fn name_body_there(&self, place: usize) -> Body5 {
        let old = self.names.places.as_slice().item(place);
        self.chart.name_body_there(old as usize)
    }

    fn polygon_body_there(&self, place: usize) -> Option<BodyP> {
        let old = self.polygons.places.as_slice().item(place);
        self.chart.polygon_body_there(old as usize)
    }

    fn body_count_there(&self, place: usize) -> usize {
        let old = self.landmarks.places.as_slice().item(place);
        self.chart.body_count_there(old as usize)
    }

    fn landmark_body_there(&self, place: usize, body: usize) -> Body7 {
        let old = self.landmarks.places.as_slice().item(place);
        self.chart.landmark_body_there(old as usize, body)
    }

    fn link_count_there(&self, place: usize) -> usize {
        links_of_landmark(&self.landmarks.links, &self.landmarks.bounds, place).len()
    }

    fn landmark_link_there(&self, place: usize, link: usize) -> Rec8 {
        let links = links_of_landmark(&self.landmarks.links, &self.landmarks.bounds, place);
        links.item(link)
    }

    ghost is_county = { λ view. view.whole.is_county };

    ghost within_limits = { λ view. view.whole.within_limits };
}
