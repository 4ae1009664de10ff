//! A part of a county as a chart. Only the names of chains are copied: each other call finds the place in the whole county, and reads it
//! there.

ghost use Rattle.std.specs.Ordering.{nat_cmp};
ghost use Rattle.std.specs.Prelude.{length, map, option_map, slice_get, ◌<◌, ◌≡◌};
ghost use Rattle.county_chart.specs.ChartWords.{bodies_at, chain_at, ends_of, links_at, name_at, points_of, polygon_at, ranges_of, sides_of};
ghost use Rattle.county_chart.specs.CountyRules.{IsCounty, feats, lands, nodes, polygon_keys, tlids};
ghost use Rattle.county_chart.specs.Limits.{IsWithinLimits};
ghost use Rattle.tl_layout.specs.Limits.{most_records};
ghost use Rattle.county_chart.specs.CountyProps.{IsCounty-prop};
ghost use Rattle.county_chart.specs.LimitsProps.{IsWithinLimits-prop};
ghost use Rattle.canonical_form.specs.WholeArrangements.{AreReadAt};
ghost use Rattle.ordered_lists.specs.Orders.{contains};
ghost use Rattle.tl_number.specs.CountyParts.{HoldsPart, narrowed, part_with};

use crate::part_tables::PartTables;
use county_chart::{Chart, Listed, PolygonKey};
use ordered_lists::place_of;
use tl_layout::{Body1, Body5, Body7, BodyI, BodyP, Point, Ranges, Rec8, Side};

/// A part of a county: some of its chains, with some of their names and with their polygons, and some of its landmarks.
#[derive(Drop)]
pub(crate) struct CountyPart<'a, C: Chart> {
    chart: &'a C,
    tables: &'a PartTables,
    ghost tlids: { tables.now.chains.keys.items ≡ tlids (part_with (C.county chart.now) tables.now) },
    ghost chains: { AreReadAt (narrowed (λ feat. contains nat_cmp feat tables.now.kept.names) (C.county chart.now)).chains tables.now.chains.places.items
        (part_with (C.county chart.now) tables.now).chains },
    ghost named: { map (λ own. own.items) tables.now.feats.items ≡ map (λ entry. entry.1.feats) (part_with (C.county chart.now) tables.now).chains },
    ghost feats: { tables.now.names.keys.items ≡ feats (part_with (C.county chart.now) tables.now) },
    ghost names: { AreReadAt (C.county chart.now).names tables.now.names.places.items (part_with (C.county chart.now) tables.now).names },
    ghost keys: { tables.now.polygons.keys.items ≡ polygon_keys (part_with (C.county chart.now) tables.now) },
    ghost polygons: { AreReadAt (C.county chart.now).polygons tables.now.polygons.places.items (part_with (C.county chart.now) tables.now).polygons },
    ghost lands: { tables.now.landmarks.keys.items ≡ lands (part_with (C.county chart.now) tables.now) },
    ghost landmarks: { AreReadAt (C.county chart.now).landmarks tables.now.landmarks.places.items (part_with (C.county chart.now) tables.now).landmarks },
    ghost nodes: { tables.now.nodes.items ≡ nodes (part_with (C.county chart.now) tables.now) },
    ghost is_county: { IsCounty (part_with (C.county chart.now) tables.now) } by { IsCounty-prop (part_with (C.county chart.now) tables.now) },
    ghost within_limits: { IsWithinLimits most_records (part_with (C.county chart.now) tables.now) } by { IsWithinLimits-prop most_records (part_with (C.county chart.now) tables.now) },
}

impl<'a, C: Chart> CountyPart<'a, C> {
    /// Makes the part of a county that these tables describe. The polygons of its landmarks are on its chains.
    pub(crate) fn new(chart: &'a C, tables: &'a PartTables) -> CountyPart<'a, C>
        requires tables { HoldsPart (C.county chart.now) tables.now }
        requires county { IsCounty (part_with (C.county chart.now) tables.now) }
        requires limits { IsWithinLimits most_records (part_with (C.county chart.now) tables.now) }
        ensures { ⟦<CountyPart<'a, C> as Chart>⟧.county result ≡ part_with (C.county chart.now) tables.now }
    {
        CountyPart { chart, tables }
    }

    /// Returns the place in the whole county of the chain at a place, which must be less than the number of chains.
    fn chain(&self, place: usize) -> usize
        requires { place < length (part_with (C.county self.now.chart.now) self.now.tables.now).chains }
        ensures there { result < length (C.county self.now.chart.now).chains }
        ensures body { option_map (λ c. c.body) (chain_at (C.county self.now.chart.now) result)
            ≡ option_map (λ c. c.body) (chain_at (part_with (C.county self.now.chart.now) self.now.tables.now) place) }
        ensures points { points_of (chain_at (C.county self.now.chart.now) result)
            ≡ points_of (chain_at (part_with (C.county self.now.chart.now) self.now.tables.now) place) }
        ensures ranges { ranges_of (chain_at (C.county self.now.chart.now) result)
            ≡ ranges_of (chain_at (part_with (C.county self.now.chart.now) self.now.tables.now) place) }
        ensures topology { option_map (λ c. c.topology) (chain_at (C.county self.now.chart.now) result)
            ≡ option_map (λ c. c.topology) (chain_at (part_with (C.county self.now.chart.now) self.now.tables.now) place) }
        ensures ends { option_map ends_of (chain_at (C.county self.now.chart.now) result)
            ≡ option_map ends_of (chain_at (part_with (C.county self.now.chart.now) self.now.tables.now) place) }
        ensures sides { option_map sides_of (chain_at (C.county self.now.chart.now) result)
            ≡ option_map sides_of (chain_at (part_with (C.county self.now.chart.now) self.now.tables.now) place) }
    {
        self.tables.chains.places.as_slice().item(place) as usize
    }

    /// Returns the place in the whole county of the name at a place, which must be less than the number of names.
    fn name(&self, place: usize) -> usize
        requires { place < length (part_with (C.county self.now.chart.now) self.now.tables.now).names }
        ensures name { name_at (C.county self.now.chart.now) result ≡ name_at (part_with (C.county self.now.chart.now) self.now.tables.now) place }
        ensures there { result < length (C.county self.now.chart.now).names }
    {
        self.tables.names.places.as_slice().item(place) as usize
    }

    /// Returns the place in the whole county of the polygon at a place, which must be less than the number of polygons.
    fn polygon(&self, place: usize) -> usize
        requires { place < length (part_with (C.county self.now.chart.now) self.now.tables.now).polygons }
        ensures polygon { polygon_at (C.county self.now.chart.now) result ≡ polygon_at (part_with (C.county self.now.chart.now) self.now.tables.now) place }
        ensures there { result < length (C.county self.now.chart.now).polygons }
    {
        self.tables.polygons.places.as_slice().item(place) as usize
    }

    /// Returns the place in the whole county of the landmark at a place, which must be less than the number of landmarks.
    fn landmark(&self, place: usize) -> usize
        requires { place < length (part_with (C.county self.now.chart.now) self.now.tables.now).landmarks }
        ensures there { result < length (C.county self.now.chart.now).landmarks }
        ensures land { slice_get (lands (C.county self.now.chart.now)) result
            ≡ slice_get (lands (part_with (C.county self.now.chart.now) self.now.tables.now)) place }
        ensures bodies { bodies_at (C.county self.now.chart.now) result ≡ bodies_at (part_with (C.county self.now.chart.now) self.now.tables.now) place }
        ensures links { links_at (C.county self.now.chart.now) result ≡ links_at (part_with (C.county self.now.chart.now) self.now.tables.now) place }
    {
        self.tables.landmarks.places.as_slice().item(place) as usize
    }
}

/// The part of the county.
#[tactic(auto, using(crate::proofs::Ties::PartTables::part_reads))]
impl<'a, C: Chart> Chart for CountyPart<'a, C> {
    ghost county = { λ part. part_with (C.county part.chart.now) part.tables.now };

    fn chain_count(&self) -> usize {
        self.tables.chains.keys.len()
    }

    fn tlid_there(&self, place: usize) -> u64 {
        self.tables.chains.keys[place]
    }

    fn chain_place(&self, tlid: u64) -> Option<usize> {
        place_of(self.tables.chains.keys.as_slice(), tlid)
    }

    fn name_count(&self) -> usize {
        self.tables.names.keys.len()
    }

    fn feat_there(&self, place: usize) -> u32 {
        self.tables.names.keys[place]
    }

    fn name_place(&self, feat: u32) -> Option<usize> {
        place_of(self.tables.names.keys.as_slice(), feat)
    }

    fn polygon_count(&self) -> usize {
        self.tables.polygons.keys.len()
    }

    fn polygon_key_there(&self, place: usize) -> PolygonKey {
        self.tables.polygons.keys[place]
    }

    fn polygon_place(&self, key: PolygonKey) -> Option<usize> {
        place_of(self.tables.polygons.keys.as_slice(), key)
    }

    fn landmark_count(&self) -> usize {
        self.tables.landmarks.keys.len()
    }

    fn land_there(&self, place: usize) -> u64 {
        self.tables.landmarks.keys[place]
    }

    fn landmark_place(&self, land: u64) -> Option<usize> {
        place_of(self.tables.landmarks.keys.as_slice(), land)
    }

    fn node_count(&self) -> usize {
        self.tables.nodes.len()
    }

    fn node_there(&self, place: usize) -> u64 {
        self.tables.nodes[place]
    }

    fn node_place(&self, node: u64) -> Option<usize> {
        place_of(self.tables.nodes.as_slice(), node)
    }

    fn chain_body_there(&self, place: usize) -> Body1 {
        self.chart.chain_body_there(self.chain(place))
    }

    fn point_count_there(&self, place: usize) -> usize {
        self.chart.point_count_there(self.chain(place))
    }

    fn point_there(&self, place: usize, point: usize) -> Point {
        self.chart.point_there(self.chain(place), point)
    }

    fn feat_count_there(&self, place: usize) -> usize {
        self.tables.feats[place].len()
    }

    fn chain_feat_there(&self, place: usize, name: usize) -> u32 {
        self.tables.feats[place][name]
    }

    fn range_count_there(&self, place: usize) -> usize {
        self.chart.range_count_there(self.chain(place))
    }

    fn range_there(&self, place: usize, range: usize) -> Ranges {
        self.chart.range_there(self.chain(place), range)
    }

    fn topology_there(&self, place: usize) -> BodyI {
        self.chart.topology_there(self.chain(place))
    }

    fn ends_there(&self, place: usize) -> (Option<u64>, Option<u64>) {
        self.chart.ends_there(self.chain(place))
    }

    fn sides_there(&self, place: usize) -> (Side, Side) {
        self.chart.sides_there(self.chain(place))
    }

    fn name_body_there(&self, place: usize) -> Body5 {
        self.chart.name_body_there(self.name(place))
    }

    fn polygon_body_there(&self, place: usize) -> Option<BodyP> {
        self.chart.polygon_body_there(self.polygon(place))
    }

    fn body_count_there(&self, place: usize) -> usize {
        self.chart.body_count_there(self.landmark(place))
    }

    fn landmark_body_there(&self, place: usize, body: usize) -> Body7 {
        self.chart.landmark_body_there(self.landmark(place), body)
    }

    fn link_count_there(&self, place: usize) -> usize {
        self.chart.link_count_there(self.landmark(place))
    }

    fn landmark_link_there(&self, place: usize, link: usize) -> Rec8 {
        self.chart.landmark_link_there(self.landmark(place), link)
    }

    ghost is_county = { λ part. part.is_county };

    ghost within_limits = { λ part. part.within_limits };
}
