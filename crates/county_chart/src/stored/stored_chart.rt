//! A stored county as a chart, whichever way it is stored.

ghost use Rattle.county_chart.specs.StoredCounty.{county_of_tables};

use crate::chart::Chart;
use crate::keys::record_keys::PolygonKey;
use crate::stored::StoredCounty;
use crate::stored::storage::{StoredChain, StoredLandmark, StoredName};
use ordered_lists::place_of;
use tl_layout::{Body1, Body5, Body7, BodyI, BodyP, Point, Ranges, Rec8, Side};

/// Calls read the county's own tables, and its chains, names and landmarks by their own traits.
#[tactic(auto, using(crate::proofs::Lists::StoredParts::stored_parts))]
impl<C: StoredChain, N: StoredName, L: StoredLandmark> Chart for StoredCounty<C, N, L> {
    ghost county = { λ k. county_of_tables C.chain N.name L.landmark k.chains k.names k.polygons k.landmarks };

    fn chain_count(&self) -> usize {
        self.chains.len()
    }

    fn tlid_there(&self, place: usize) -> u64 {
        self.chains.key_there(place)
    }

    fn chain_place(&self, tlid: u64) -> Option<usize> {
        self.chains.place(tlid)
    }

    fn name_count(&self) -> usize {
        self.names.len()
    }

    fn feat_there(&self, place: usize) -> u32 {
        self.names.key_there(place)
    }

    fn name_place(&self, feat: u32) -> Option<usize> {
        self.names.place(feat)
    }

    fn polygon_count(&self) -> usize {
        self.polygons.len()
    }

    fn polygon_key_there(&self, place: usize) -> PolygonKey {
        self.polygons.key_there(place)
    }

    fn polygon_place(&self, key: PolygonKey) -> Option<usize> {
        self.polygons.place(key)
    }

    fn landmark_count(&self) -> usize {
        self.landmarks.len()
    }

    fn land_there(&self, place: usize) -> u64 {
        self.landmarks.key_there(place)
    }

    fn landmark_place(&self, land: u64) -> Option<usize> {
        self.landmarks.place(land)
    }

    fn node_count(&self) -> usize {
        self.nodes.as_slice().len()
    }

    fn node_there(&self, place: usize) -> u64 {
        self.nodes[place]
    }

    fn node_place(&self, node: u64) -> Option<usize> {
        place_of(self.nodes.as_slice(), node)
    }

    fn chain_body_there(&self, place: usize) -> Body1 {
        *self.chain_there(place).body()
    }

    fn put_chain_body(&self, place: usize, turned: bool, out: &mut [u8]) {
        self.chain_there(place).body().put_towards(turned, out);
    }

    fn chain_byte(&self, place: usize) -> u8 {
        match self.chains.value_at(place) {
            Some(chain) => chain.body().any_byte(),
            None => 0,
        }
    }

    fn point_count_there(&self, place: usize) -> usize {
        self.chain_there(place).points().len()
    }

    fn feat_count_there(&self, place: usize) -> usize {
        self.chain_there(place).feats().len()
    }

    fn range_count_there(&self, place: usize) -> usize {
        self.chain_there(place).ranges().len()
    }

    fn point_there(&self, place: usize, point: usize) -> Point {
        self.chain_there(place).points()[point]
    }

    fn chain_feat_there(&self, place: usize, name: usize) -> u32 {
        self.chain_there(place).feats()[name]
    }

    fn range_there(&self, place: usize, range: usize) -> Ranges {
        self.chain_there(place).ranges()[range]
    }

    fn topology_there(&self, place: usize) -> BodyI {
        *self.chain_there(place).topology()
    }

    fn ends_there(&self, place: usize) -> (Option<u64>, Option<u64>) {
        let chain = self.chain_there(place);
        (chain.start_node(), chain.end_node())
    }

    fn sides_there(&self, place: usize) -> (Side, Side) {
        let chain = self.chain_there(place);
        (*chain.left(), *chain.right())
    }

    fn name_body_there(&self, place: usize) -> Body5 {
        *self.names.value_there(place).content()
    }

    fn polygon_body_there(&self, place: usize) -> Option<BodyP> {
        *self.polygons.value_there(place)
    }

    fn body_count_there(&self, place: usize) -> usize {
        self.landmark_there(place).bodies().len()
    }

    fn link_count_there(&self, place: usize) -> usize {
        self.landmark_there(place).links().len()
    }

    fn landmark_body_there(&self, place: usize, body: usize) -> Body7 {
        self.landmark_there(place).bodies()[body]
    }

    fn landmark_link_there(&self, place: usize, link: usize) -> Rec8 {
        self.landmark_there(place).links()[link]
    }

    ghost is_county = { λ k. k.is_county };

    ghost within_limits = { λ k. k.within_limits };
}
