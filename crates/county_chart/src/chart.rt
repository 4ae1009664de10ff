//! Read access to a county, whatever its storage.

ghost use Rattle.std.specs.Prelude.{IfSome, Some, false, is_some, length, option_map, slice_get, take, true, ◌<◌, ◌≡◌, ◌≤◌};
ghost use Rattle.std.specs.Option.{option_and_then};
ghost use Rattle.std.specs.Ordering.{nat_cmp};
ghost use Rattle.county_chart.specs.ChartWords.{bodies_at, bodies_under, chain_at, chain_under, ends_of, feats_of, links_at, links_under, name_at, name_under, points_of, polygon_at, polygon_under, ranges_of, sides_of};
ghost use Rattle.county_chart.specs.CountyRules.{IsCounty, feats, lands, nodes, polygon_keys, tlids};
ghost use Rattle.county_chart.specs.County.{County};
ghost use Rattle.county_chart.specs.Limits.{IsWithinLimits};
ghost use Rattle.tl_layout.specs.Limits.{most_records};
ghost use Rattle.county_chart.specs.PolygonKeys.{key_cmp};
ghost use Rattle.ordered_lists.specs.Orders.{contains};
ghost use Rattle.tl_layout.specs.Columns.{joined};
ghost use Rattle.tl_layout.specs.Turned.{body_towards};
ghost use Rattle.tl_layout.specs.Type1Groups.{body_1_texts};

use crate::keys::record_keys::PolygonKey;
use tl_layout::{Body1, Body5, Body7, BodyI, BodyP, Point, Ranges, Rec8, Side};

/// A county, whatever its storage. Places count from 0 along the ascending lists of TLIDs, FEATs, polygons, LANDs and nodes. Calls
/// whose names end in `_there` require a place that exists, and return no `Option`; a chart writes these. From them are made the
/// calls that return `None` if a place or a number isn't in the county. A count is 0 then. TLIDs, LANDs, POLYIDs and nodes are from
/// 1 to 9,999,999,999, and FEATs from 1 to 99,999,999. A coordinate is in millionths of a degree. No call allocates memory.
pub trait Chart {
    /// The county.
    ghost county: { Self → County };

    /// Returns the number of chains.
    fn chain_count(&self) -> usize
        ensures { result ≡ length (county self.now).chains };

    /// Returns the TLID of the chain at a place, which must be less than the number of chains.
    fn tlid_there(&self, place: usize) -> u64
        requires { place < length (county self.now).chains }
        ensures { Some result ≡ slice_get (tlids (county self.now)) place };

    /// Returns the place of the chain with this TLID, or `None` if no chain has it.
    fn chain_place(&self, tlid: u64) -> Option<usize>
        ensures found { IfSome result (λ place. slice_get (tlids (county self.now)) place ≡ Some tlid) }
        ensures known { is_some result ≡ contains nat_cmp tlid (tlids (county self.now)) };

    /// Returns the number of names.
    fn name_count(&self) -> usize
        ensures { result ≡ length (county self.now).names };

    /// Returns the FEAT of the name at a place, which must be less than the number of names.
    fn feat_there(&self, place: usize) -> u32
        requires { place < length (county self.now).names }
        ensures { Some result ≡ slice_get (feats (county self.now)) place };

    /// Returns the place of the name with this FEAT, or `None` if no name has it.
    fn name_place(&self, feat: u32) -> Option<usize>
        ensures found { IfSome result (λ place. slice_get (feats (county self.now)) place ≡ Some feat) }
        ensures known { is_some result ≡ contains nat_cmp feat (feats (county self.now)) };

    /// Returns the number of polygons.
    fn polygon_count(&self) -> usize
        ensures { result ≡ length (county self.now).polygons };

    /// Returns the key of the polygon at a place, which must be less than the number of polygons.
    fn polygon_key_there(&self, place: usize) -> PolygonKey
        requires { place < length (county self.now).polygons }
        ensures { Some result ≡ slice_get (polygon_keys (county self.now)) place };

    /// Returns the place of the polygon with this key, or `None` if no polygon has it.
    fn polygon_place(&self, key: PolygonKey) -> Option<usize>
        ensures found { IfSome result (λ place. slice_get (polygon_keys (county self.now)) place ≡ Some key) }
        ensures known { is_some result ≡ contains key_cmp key (polygon_keys (county self.now)) };

    /// Returns the number of landmarks.
    fn landmark_count(&self) -> usize
        ensures { result ≡ length (county self.now).landmarks };

    /// Returns the LAND of the landmark at a place, which must be less than the number of landmarks.
    fn land_there(&self, place: usize) -> u64
        requires { place < length (county self.now).landmarks }
        ensures { Some result ≡ slice_get (lands (county self.now)) place };

    /// Returns the place of the landmark with this LAND, or `None` if no landmark has it.
    fn landmark_place(&self, land: u64) -> Option<usize>
        ensures found { IfSome result (λ place. slice_get (lands (county self.now)) place ≡ Some land) }
        ensures known { is_some result ≡ contains nat_cmp land (lands (county self.now)) };

    /// Returns the number of nodes.
    fn node_count(&self) -> usize
        ensures { result ≡ length (nodes (county self.now)) };

    /// Returns the number of the node at a place, which must be less than the number of nodes.
    fn node_there(&self, place: usize) -> u64
        requires { place < length (nodes (county self.now)) }
        ensures { Some result ≡ slice_get (nodes (county self.now)) place };

    /// Returns the place of a node, or `None` if no chain starts or ends there.
    fn node_place(&self, node: u64) -> Option<usize>
        ensures found { IfSome result (λ place. slice_get (nodes (county self.now)) place ≡ Some node) }
        ensures known { is_some result ≡ contains nat_cmp node (nodes (county self.now)) };

    /// Returns the content of the type 1 record of the chain at a place, which must be less than the number of chains.
    fn chain_body_there(&self, place: usize) -> Body1
        requires { place < length (county self.now).chains }
        ensures { Some result ≡ option_map (λ c. c.body) (chain_at (county self.now) place) };

    /// Writes the content of the type 1 record of the chain at a place into columns 16 to 190 of `out`, a line of at least 190
    /// bytes; columns 1 to 15 stay. If `turned`, the content is written as seen from the chain's other end. `place` must be less
    /// than the number of chains.
    fn put_chain_body(&self, place: usize, turned: bool, out: &mut [u8])
        requires place { place < length (county self.now).chains }
        requires columns { 190 ≤ length out.old }
        ensures { Some (take 190 out.new)
            ≡ option_map (λ c. joined (take 15 out.old) (body_1_texts (body_towards turned c.body))) (chain_at (county self.now) place) }
    {
        let body = self.chain_body_there(place);
        body.put_towards(turned, out);
    }

    /// Returns a byte made from the content of the type 1 record of the chain at a place. It has no meaning.
    ///
    /// Trick: reading the byte brings the content into the cache.
    fn chain_byte(&self, _place: usize) -> u8 {
        0
    }

    /// Returns the number of points of the chain at a place: its start node, its shape points (record type 2) and its end node. The place
    /// must be less than the number of chains.
    fn point_count_there(&self, place: usize) -> usize
        requires { place < length (county self.now).chains }
        ensures { result ≡ length (points_of (chain_at (county self.now) place)) };

    /// Returns a point of the chain at a place. Point 0 is at the start node; `point` must be less than the number of the chain's points.
    fn point_there(&self, place: usize, point: usize) -> Point
        requires { point < length (points_of (chain_at (county self.now) place)) }
        ensures { Some result ≡ slice_get (points_of (chain_at (county self.now) place)) point };

    /// Returns the number of further names (record type 4) of the chain at a place, which must be less than the number of chains.
    fn feat_count_there(&self, place: usize) -> usize
        requires { place < length (county self.now).chains }
        ensures { result ≡ length (feats_of (chain_at (county self.now) place)) };

    /// Returns the FEAT of a further name (record type 4) of the chain at a place. `name` must be less than the number of its further
    /// names.
    fn chain_feat_there(&self, place: usize, name: usize) -> u32
        requires { name < length (feats_of (chain_at (county self.now) place)) }
        ensures { Some result ≡ slice_get (feats_of (chain_at (county self.now) place)) name };

    /// Returns the number of further address ranges (record type 6) of the chain at a place, which must be less than the number of chains.
    fn range_count_there(&self, place: usize) -> usize
        requires { place < length (county self.now).chains }
        ensures { result ≡ length (ranges_of (chain_at (county self.now) place)) };

    /// Returns a further address range (record type 6) of the chain at a place. `range` must be less than the number of its further ranges.
    fn range_there(&self, place: usize, range: usize) -> Ranges
        requires { range < length (ranges_of (chain_at (county self.now) place)) }
        ensures { Some result ≡ slice_get (ranges_of (chain_at (county self.now) place)) range };

    /// Returns the content of the type I record of the chain at a place, which must be less than the number of chains.
    fn topology_there(&self, place: usize) -> BodyI
        requires { place < length (county self.now).chains }
        ensures { Some result ≡ option_map (λ c. c.topology) (chain_at (county self.now) place) };

    /// Returns the start node and the end node of the chain at a place (record type I, TZIDS and TZIDE), each if it has one. The place must
    /// be less than the number of chains.
    fn ends_there(&self, place: usize) -> (Option<u64>, Option<u64>)
        requires { place < length (county self.now).chains }
        ensures { Some result ≡ option_map ends_of (chain_at (county self.now) place) };

    /// Returns the left and the right side of the chain at a place, which must be less than the number of chains.
    fn sides_there(&self, place: usize) -> (Side, Side)
        requires { place < length (county self.now).chains }
        ensures { Some result ≡ option_map sides_of (chain_at (county self.now) place) };

    /// Returns the content of the name at a place (record type 5), which must be less than the number of names.
    fn name_body_there(&self, place: usize) -> Body5
        requires { place < length (county self.now).names }
        ensures { Some result ≡ name_at (county self.now) place };

    /// Returns the content of the type P record of the polygon at a place, or none if the polygon has no such record. The place must be
    /// less than the number of polygons.
    fn polygon_body_there(&self, place: usize) -> Option<BodyP>
        requires { place < length (county self.now).polygons }
        ensures { Some result ≡ polygon_at (county self.now) place };

    /// Returns the number of type 7 records of the landmark at a place, which must be less than the number of landmarks.
    fn body_count_there(&self, place: usize) -> usize
        requires { place < length (county self.now).landmarks }
        ensures { result ≡ length (bodies_at (county self.now) place) };

    /// Returns the content of a type 7 record of the landmark at a place. `body` must be less than the number of its type 7 records.
    fn landmark_body_there(&self, place: usize, body: usize) -> Body7
        requires { body < length (bodies_at (county self.now) place) }
        ensures { Some result ≡ slice_get (bodies_at (county self.now) place) body };

    /// Returns the number of type 8 records of the landmark at a place, which must be less than the number of landmarks.
    fn link_count_there(&self, place: usize) -> usize
        requires { place < length (county self.now).landmarks }
        ensures { result ≡ length (links_at (county self.now) place) };

    /// Returns a type 8 record of the landmark at a place. `link` must be less than the number of its type 8 records.
    fn landmark_link_there(&self, place: usize, link: usize) -> Rec8
        requires { link < length (links_at (county self.now) place) }
        ensures { Some result ≡ slice_get (links_at (county self.now) place) link };

    /// The county is well-formed, as linking makes it.
    ghost is_county: { (chart : Self) → IsCounty (county chart) };

    /// The county is within its limits, as one made from records within theirs is.
    ghost within_limits: { (chart : Self) → IsWithinLimits most_records (county chart) };

    /// The TLID of the chain at a place (record type 1).
    final fn tlid_at(&self, place: usize) -> Option<u64>
        ensures { result ≡ slice_get (tlids (county self.now)) place }
    {
        (place < self.chain_count()).then(|| self.tlid_there(place))
    }

    /// The FEAT of the name at a place (record type 5).
    final fn feat_at(&self, place: usize) -> Option<u32>
        ensures { result ≡ slice_get (feats (county self.now)) place }
    {
        (place < self.name_count()).then(|| self.feat_there(place))
    }

    /// The key of the polygon at a place: its CENID and POLYID (record types I, P and 8).
    final fn polygon_key_at(&self, place: usize) -> Option<PolygonKey>
        ensures { result ≡ slice_get (polygon_keys (county self.now)) place }
    {
        (place < self.polygon_count()).then(|| self.polygon_key_there(place))
    }

    /// The LAND of the landmark at a place (record type 7).
    final fn land_at(&self, place: usize) -> Option<u64>
        ensures { result ≡ slice_get (lands (county self.now)) place }
    {
        (place < self.landmark_count()).then(|| self.land_there(place))
    }

    /// The number of the node at a place (record type I, TZIDS and TZIDE).
    final fn node_at(&self, place: usize) -> Option<u64>
        ensures { result ≡ slice_get (nodes (county self.now)) place }
    {
        (place < self.node_count()).then(|| self.node_there(place))
    }

    /// The content of the type 1 record of the chain at a place.
    final fn chain_body_at(&self, place: usize) -> Option<Body1>
        ensures { result ≡ option_map (λ c. c.body) (chain_at (county self.now) place) }
    {
        (place < self.chain_count()).then(|| self.chain_body_there(place))
    }

    /// The content of the type I record of the chain at a place.
    final fn topology_at(&self, place: usize) -> Option<BodyI>
        ensures { result ≡ option_map (λ c. c.topology) (chain_at (county self.now) place) }
    {
        (place < self.chain_count()).then(|| self.topology_there(place))
    }

    /// The start node of the chain at a place (record type I, TZIDS), or none.
    final fn start_node_at(&self, place: usize) -> Option<Option<u64>>
        ensures { result ≡ option_map (λ c. c.start_node) (chain_at (county self.now) place) }
    {
        (place < self.chain_count()).then(|| self.ends_there(place).0)
    }

    /// The end node of the chain at a place (record type I, TZIDE), or none.
    final fn end_node_at(&self, place: usize) -> Option<Option<u64>>
        ensures { result ≡ option_map (λ c. c.end_node) (chain_at (county self.now) place) }
    {
        (place < self.chain_count()).then(|| self.ends_there(place).1)
    }

    /// The left side of the chain at a place (record type I, CENIDL and POLYIDL).
    final fn left_at(&self, place: usize) -> Option<Side>
        ensures { result ≡ option_map (λ c. c.left) (chain_at (county self.now) place) }
    {
        (place < self.chain_count()).then(|| self.sides_there(place).0)
    }

    /// The right side of the chain at a place (record type I, CENIDR and POLYIDR).
    final fn right_at(&self, place: usize) -> Option<Side>
        ensures { result ≡ option_map (λ c. c.right) (chain_at (county self.now) place) }
    {
        (place < self.chain_count()).then(|| self.sides_there(place).1)
    }

    /// The number of points of the chain at a place (record types 1 and 2), or 0 past the last chain.
    final fn point_count_at(&self, place: usize) -> usize
        ensures { result ≡ length (points_of (chain_at (county self.now) place)) }
    {
        if place < self.chain_count() {
            self.point_count_there(place)
        } else {
            0
        }
    }

    /// A point of the chain at a place (record types 1 and 2). Point 0 is at the start node.
    final fn point_at(&self, place: usize, point: usize) -> Option<Point>
        ensures { result ≡ slice_get (points_of (chain_at (county self.now) place)) point }
    {
        (point < self.point_count_at(place)).then(|| self.point_there(place, point))
    }

    /// The number of further names (record type 4) of the chain at a place, or 0 past the last chain.
    final fn feat_count_at(&self, place: usize) -> usize
        ensures { result ≡ length (feats_of (chain_at (county self.now) place)) }
    {
        if place < self.chain_count() {
            self.feat_count_there(place)
        } else {
            0
        }
    }

    /// The FEAT of a further name (record type 4) of the chain at a place.
    final fn chain_feat_at(&self, place: usize, name: usize) -> Option<u32>
        ensures { result ≡ slice_get (feats_of (chain_at (county self.now) place)) name }
    {
        (name < self.feat_count_at(place)).then(|| self.chain_feat_there(place, name))
    }

    /// The number of further address ranges (record type 6) of the chain at a place, or 0 past the last chain.
    final fn range_count_at(&self, place: usize) -> usize
        ensures { result ≡ length (ranges_of (chain_at (county self.now) place)) }
    {
        if place < self.chain_count() {
            self.range_count_there(place)
        } else {
            0
        }
    }

    /// A further address range (record type 6) of the chain at a place.
    final fn range_at(&self, place: usize, range: usize) -> Option<Ranges>
        ensures { result ≡ slice_get (ranges_of (chain_at (county self.now) place)) range }
    {
        (range < self.range_count_at(place)).then(|| self.range_there(place, range))
    }

    /// The content of the name at a place (record type 5).
    final fn name_body_at(&self, place: usize) -> Option<Body5>
        ensures { result ≡ name_at (county self.now) place }
    {
        (place < self.name_count()).then(|| self.name_body_there(place))
    }

    /// The content of the type P record of the polygon at a place, or none if the polygon has no such record.
    final fn polygon_body_at(&self, place: usize) -> Option<Option<BodyP>>
        ensures { result ≡ polygon_at (county self.now) place }
    {
        (place < self.polygon_count()).then(|| self.polygon_body_there(place))
    }

    /// The number of type 7 records of the landmark at a place, or 0 past the last landmark.
    final fn body_count_at(&self, place: usize) -> usize
        ensures { result ≡ length (bodies_at (county self.now) place) }
    {
        if place < self.landmark_count() {
            self.body_count_there(place)
        } else {
            0
        }
    }

    /// The content of a type 7 record of the landmark at a place.
    final fn landmark_body_at(&self, place: usize, body: usize) -> Option<Body7>
        ensures { result ≡ slice_get (bodies_at (county self.now) place) body }
    {
        (body < self.body_count_at(place)).then(|| self.landmark_body_there(place, body))
    }

    /// The number of type 8 records of the landmark at a place, or 0 past the last landmark.
    final fn link_count_at(&self, place: usize) -> usize
        ensures { result ≡ length (links_at (county self.now) place) }
    {
        if place < self.landmark_count() {
            self.link_count_there(place)
        } else {
            0
        }
    }

    /// A type 8 record of the landmark at a place.
    final fn landmark_link_at(&self, place: usize, link: usize) -> Option<Rec8>
        ensures { result ≡ slice_get (links_at (county self.now) place) link }
    {
        (link < self.link_count_at(place)).then(|| self.landmark_link_there(place, link))
    }

    /// The place of the chain with this TLID, or the number of chains if no chain has it.
    final fn chain_place_or_end(&self, tlid: u64) -> usize
        ensures chain { chain_at (county self.now) result ≡ chain_under (county self.now) tlid }
        ensures found { contains nat_cmp tlid (tlids (county self.now)) ≡ true → slice_get (tlids (county self.now)) result ≡ Some tlid }
        ensures end { contains nat_cmp tlid (tlids (county self.now)) ≡ false → result ≡ length (county self.now).chains }
    {
        self.chain_place(tlid).unwrap_or(self.chain_count())
    }

    /// The place of the name with this FEAT, or the number of names if no name has it.
    final fn name_place_or_end(&self, feat: u32) -> usize
        ensures name { name_at (county self.now) result ≡ name_under (county self.now) feat }
        ensures found { contains nat_cmp feat (feats (county self.now)) ≡ true → slice_get (feats (county self.now)) result ≡ Some feat }
        ensures end { contains nat_cmp feat (feats (county self.now)) ≡ false → result ≡ length (county self.now).names }
    {
        self.name_place(feat).unwrap_or(self.name_count())
    }

    /// The place of the polygon with this key, or the number of polygons if no polygon has it.
    final fn polygon_place_or_end(&self, key: PolygonKey) -> usize
        ensures polygon { polygon_at (county self.now) result ≡ polygon_under (county self.now) key }
        ensures found { contains key_cmp key (polygon_keys (county self.now)) ≡ true → slice_get (polygon_keys (county self.now)) result ≡ Some key }
        ensures end { contains key_cmp key (polygon_keys (county self.now)) ≡ false → result ≡ length (county self.now).polygons }
    {
        self.polygon_place(key).unwrap_or(self.polygon_count())
    }

    /// The place of the landmark with this LAND, or the number of landmarks if no landmark has it.
    final fn landmark_place_or_end(&self, land: u64) -> usize
        ensures bodies { bodies_at (county self.now) result ≡ bodies_under (county self.now) land }
        ensures links { links_at (county self.now) result ≡ links_under (county self.now) land }
        ensures found { contains nat_cmp land (lands (county self.now)) ≡ true → slice_get (lands (county self.now)) result ≡ Some land }
        ensures end { contains nat_cmp land (lands (county self.now)) ≡ false → result ≡ length (county self.now).landmarks }
    {
        self.landmark_place(land).unwrap_or(self.landmark_count())
    }

    /// The content of the type 1 record of the chain with this TLID.
    final fn chain_body_of(&self, tlid: u64) -> Option<Body1>
        ensures { result ≡ option_map (λ c. c.body) (chain_under (county self.now) tlid) }
    {
        self.chain_body_at(self.chain_place_or_end(tlid))
    }

    /// The content of the type I record of the chain with this TLID.
    final fn topology_of(&self, tlid: u64) -> Option<BodyI>
        ensures { result ≡ option_map (λ c. c.topology) (chain_under (county self.now) tlid) }
    {
        self.topology_at(self.chain_place_or_end(tlid))
    }

    /// The node where the chain with this TLID starts (record type I, TZIDS), or none.
    final fn start_node_of(&self, tlid: u64) -> Option<Option<u64>>
        ensures { result ≡ option_map (λ c. c.start_node) (chain_under (county self.now) tlid) }
    {
        self.start_node_at(self.chain_place_or_end(tlid))
    }

    /// The node where the chain with this TLID ends (record type I, TZIDE), or none.
    final fn end_node_of(&self, tlid: u64) -> Option<Option<u64>>
        ensures { result ≡ option_map (λ c. c.end_node) (chain_under (county self.now) tlid) }
    {
        self.end_node_at(self.chain_place_or_end(tlid))
    }

    /// The left side of the chain with this TLID.
    final fn left_of(&self, tlid: u64) -> Option<Side>
        ensures { result ≡ option_map (λ c. c.left) (chain_under (county self.now) tlid) }
    {
        self.left_at(self.chain_place_or_end(tlid))
    }

    /// The right side of the chain with this TLID.
    final fn right_of(&self, tlid: u64) -> Option<Side>
        ensures { result ≡ option_map (λ c. c.right) (chain_under (county self.now) tlid) }
    {
        self.right_at(self.chain_place_or_end(tlid))
    }

    /// The number of points of the chain with this TLID, or 0 if no chain has it.
    final fn point_count_of(&self, tlid: u64) -> usize
        ensures { result ≡ length (points_of (chain_under (county self.now) tlid)) }
    {
        self.point_count_at(self.chain_place_or_end(tlid))
    }

    /// A point of the chain with this TLID. Point 0 is at the start node.
    final fn point_of(&self, tlid: u64, point: usize) -> Option<Point>
        ensures { result ≡ slice_get (points_of (chain_under (county self.now) tlid)) point }
    {
        self.point_at(self.chain_place_or_end(tlid), point)
    }

    /// The number of further names (record type 4) of the chain with this TLID, or 0 if no chain has it.
    final fn feat_count_of(&self, tlid: u64) -> usize
        ensures { result ≡ length (feats_of (chain_under (county self.now) tlid)) }
    {
        self.feat_count_at(self.chain_place_or_end(tlid))
    }

    /// The FEAT of a further name (record type 4) of the chain with this TLID.
    final fn chain_feat_of(&self, tlid: u64, name: usize) -> Option<u32>
        ensures { result ≡ slice_get (feats_of (chain_under (county self.now) tlid)) name }
    {
        self.chain_feat_at(self.chain_place_or_end(tlid), name)
    }

    /// The number of further address ranges (record type 6) of the chain with this TLID, or 0 if no chain has it.
    final fn range_count_of(&self, tlid: u64) -> usize
        ensures { result ≡ length (ranges_of (chain_under (county self.now) tlid)) }
    {
        self.range_count_at(self.chain_place_or_end(tlid))
    }

    /// A further address range (record type 6) of the chain with this TLID.
    final fn range_of(&self, tlid: u64, range: usize) -> Option<Ranges>
        ensures { result ≡ slice_get (ranges_of (chain_under (county self.now) tlid)) range }
    {
        self.range_at(self.chain_place_or_end(tlid), range)
    }

    /// The content of the name with this FEAT (record type 5).
    final fn name_body_of(&self, feat: u32) -> Option<Body5>
        ensures { result ≡ name_under (county self.now) feat }
    {
        self.name_body_at(self.name_place_or_end(feat))
    }

    /// The content of the type P record of a polygon, or none if the county doesn't have the polygon or it has no such record.
    final fn polygon_body_of(&self, key: PolygonKey) -> Option<BodyP>
        ensures { result ≡ option_and_then (λ body. body) (polygon_under (county self.now) key) }
    {
        match self.polygon_body_at(self.polygon_place_or_end(key)) {
            Some(body) => body,
            None => None,
        }
    }

    /// The number of type 7 records of the landmark with this LAND, or 0 if no landmark has it.
    final fn body_count_of(&self, land: u64) -> usize
        ensures { result ≡ length (bodies_under (county self.now) land) }
    {
        self.body_count_at(self.landmark_place_or_end(land))
    }

    /// The content of a type 7 record of the landmark with this LAND.
    final fn landmark_body_of(&self, land: u64, body: usize) -> Option<Body7>
        ensures { result ≡ slice_get (bodies_under (county self.now) land) body }
    {
        self.landmark_body_at(self.landmark_place_or_end(land), body)
    }

    /// The number of type 8 records of the landmark with this LAND, or 0 if no landmark has it.
    final fn link_count_of(&self, land: u64) -> usize
        ensures { result ≡ length (links_under (county self.now) land) }
    {
        self.link_count_at(self.landmark_place_or_end(land))
    }

    /// A type 8 record of the landmark with this LAND.
    final fn landmark_link_of(&self, land: u64, link: usize) -> Option<Rec8>
        ensures { result ≡ slice_get (links_under (county self.now) land) link }
    {
        self.landmark_link_at(self.landmark_place_or_end(land), link)
    }
}
