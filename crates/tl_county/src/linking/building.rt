//! The parts of a county, built by walking tables in order side by side.

ghost use Rattle.std.specs.Prelude.{IfOk, OnOk, Some, [], filter, flat_map, map, option_to_list, ◌++◌, ◌∷◌, ◌≡◌};
ghost use Rattle.std.specs.List.{AllByRecursion};
ghost use Rattle.std.specs.List.Sorted.{IsStrictlySortedBy};
ghost use Rattle.std.specs.Ordering.{is_gt, nat_cmp, on};
ghost use Rattle.tl_county.specs.Building.{chain_with, chains_along, landmark_of, polygon_body_of, topology_nodes};
ghost use Rattle.county_chart.specs.County.{eight_land, first, four_tlid, one_tlid, p_key, seven_land, six_tlid, two_tlid};
ghost use Rattle.county_chart.specs.PolygonKeys.{key_cmp};
ghost use Rattle.ordered_lists.specs.Orders.{IsInOrder, distinct};
ghost use Rattle.tl_layout.specs.Fields.{Fields2, Fields4, Fields5, Fields6, Fields7, FieldsP};
ghost use Rattle.tl_layout.specs.ByType.{of_number};
ghost use Rattle.tl_layout.specs.Numbers.{IsNumber, IsNumberOrNone};

use crate::keys::absent::have_same_keys;
use crate::keys::repeated::keys_of;
use crate::linking::chain_records::{ChainBasics, ChainTopology};
use county_chart::{PolygonKey, StoredChain, StoredLandmark, split_group};
use ordered_lists::NumberSet;
use std::alloc::{AllocError, Global};
use tl_layout::{
    Body5, Body7, BodyP, Point, Ranges, Rec2, Rec4, Rec5, Rec6, Rec7, Rec8, RecI, RecP,
};
use tl_shape::Surroundings;

/// Returns the contents of the type 5 records, in their order.
pub(crate) fn name_bodies(alloc: Global, names: &[Rec5]) -> Result<Vec<Body5>, AllocError>
    ensures { IfOk result (λ bodies. bodies.items ≡ map (λ (r : Fields5). r.body) names.now) }
{
    names.iter().map(|name| *name.body()).collect(alloc)
}

/// Returns the content of the first of these records, if there is one.
fn first_body(points: &[RecP]) -> Option<BodyP>
    ensures { result ≡ first (map (λ (r : FieldsP). r.body) points.now) }
{
    match points.split_first() {
        Some((point, _)) => Some(*point.body()),
        None => None,
    }
}

/// Returns the contents of the type P records, in their order.
fn point_bodies(alloc: Global, points: &[RecP]) -> Result<Vec<Option<BodyP>>, AllocError>
    ensures { IfOk result (λ bodies. bodies.items ≡ map (λ (r : FieldsP). Some r.body) points.now) }
{
    points
        .iter()
        .map(|point| Some(*point.body()))
        .collect(alloc)
}

/// Returns the content of each polygon's type P record, if it has one. The polygons and the records must be in order. Usually each polygon
/// has one record.
pub(crate) fn polygon_bodies(
    alloc: Global,
    polygons: &[PolygonKey],
    points: &[RecP],
) -> Result<Vec<Option<BodyP>>, AllocError>
    requires polygons { IsStrictlySortedBy key_cmp polygons.now }
    requires points { IsInOrder (on p_key key_cmp) points.now }
    ensures { IfOk result (λ bodies. bodies.items ≡ map (polygon_body_of points.now) polygons.now) }
{
    if have_same_keys::<PolygonKey, RecP, PolygonKey>(points, polygons) {
        return point_bodies(alloc, points);
    }
    let mut bodies = Vec::with_capacity(alloc, polygons.len())?;
    let mut rest = points;
    let mut keys = polygons;
    while let Some((key, later)) = keys.split_first() {
        let (group, others) = split_group::<PolygonKey, RecP>(rest, *key);
        bodies.push(first_body(group))?;
        rest = others;
        keys = later;
    }
    Ok(bodies)
}

/// Appends the shape points of type 2 records.
pub(crate) fn join_points(points: &mut Vec<Point>, records: &[Rec2]) -> Result<(), AllocError>
    ensures { OnOk result (points.new.items ≡ points.old.items ++ flat_map (λ (r : Fields2). r.points) records.now) }
{
    for shape in records {
        points.extend_from_slice(shape.points())?;
    }
    Ok(())
}

/// Appends the FEATs of type 4 records.
pub(crate) fn join_feats(feats: &mut Vec<u32>, records: &[Rec4]) -> Result<(), AllocError>
    requires { AllByRecursion (IsNumber 8) feats.old.items }
    ensures value { OnOk result (feats.new.items ≡ feats.old.items ++ flat_map (λ (r : Fields4). r.feats) records.now) }
    ensures in_range { OnOk result (AllByRecursion (IsNumber 8) feats.new.items) }
{
    for names in records {
        feats.extend_from_slice(names.feats())?;
    }
    Ok(())
}

/// Appends the address ranges of type 6 records.
pub(crate) fn join_ranges(ranges: &mut Vec<Ranges>, records: &[Rec6]) -> Result<(), AllocError>
    ensures { OnOk result (ranges.new.items ≡ ranges.old.items ++ map (λ (r : Fields6). r.ranges) records.now) }
{
    ranges.extend(records.iter().map(|entry| *entry.ranges()))
}

/// Appends the contents of type 7 records.
pub(crate) fn join_bodies(bodies: &mut Vec<Body7>, records: &[Rec7]) -> Result<(), AllocError>
    ensures { OnOk result (bodies.new.items ≡ bodies.old.items ++ map (λ (r : Fields7). r.body) records.now) }
{
    bodies.extend(records.iter().map(|landmark| *landmark.body()))
}

/// Returns the nodes and the sides of a record of type I.
pub(crate) fn surroundings_of(topology: &RecI) -> Surroundings
    ensures start_node { result.start_node ≡ topology.now.start_node }
    ensures end_node { result.end_node ≡ topology.now.end_node }
    ensures left { result.left ≡ topology.now.left }
    ensures right { result.right ≡ topology.now.right }
    ensures in_range { IsNumberOrNone 10 result.start_node × IsNumberOrNone 10 result.end_node }
{
    Surroundings {
        start_node: topology.start_node(),
        end_node: topology.end_node(),
        left: *topology.left(),
        right: *topology.right(),
    }
}

/// The records of a chain: those of types 1 and I, which live for `'t`, and the records of types 2, 4 and 6 in the order of their RTSQs.
#[derive(Drop)]
pub(crate) struct OneChain<'t, 'h, 'r> {
    pub(crate) basics: &'h ChainBasics<'t>,
    pub(crate) shape: &'r [Rec2],
    pub(crate) names: &'r [Rec4],
    pub(crate) ranges: &'r [Rec6],
    pub(crate) topology: &'t RecI,
}

/// Builds the chains of a county in the way that it stores them. The chains may borrow the records of types 1 and I, which live for
/// `'t`.
pub(crate) trait ChainBuilder<'t, C: StoredChain> {
    /// Returns the chain made from its records.
    fn build_chain<'h, 'r>(&mut self, records: &OneChain<'t, 'h, 'r>) -> Result<C, AllocError>
        ensures { IfOk result (λ built. C.chain built ≡ chain_with records.now.basics.now records.now.topology.now records.now.shape.now
            records.now.names.now records.now.ranges.now) };
}

/// Records of types 2, 4 and 6, with the parts of chains that the records of types 1 and I don't hold.
#[derive(Drop)]
pub(crate) struct Details<'r> {
    pub(crate) shapes: &'r [Rec2],
    pub(crate) names: &'r [Rec4],
    pub(crate) ranges: &'r [Rec6],
}

/// Appends one chain, made from its records of types 1 and I and from the details with its TLID. `details` keeps the records of
/// greater TLIDs.
fn push_chain<'t, 'h, 'r, C: StoredChain, B: ChainBuilder<'t, C>>(
    chains: &mut Vec<C>,
    builder: &mut B,
    basics: &'h ChainBasics<'t>,
    topology: &'t RecI,
    details: &mut Details<'r>,
) -> Result<(), AllocError>
    requires shapes { IsInOrder (on two_tlid nat_cmp) details.old.shapes.now }
    requires names { IsInOrder (on four_tlid nat_cmp) details.old.names.now }
    requires ranges { IsInOrder (on six_tlid nat_cmp) details.old.ranges.now }
    ensures chains { OnOk result (map C.chain chains.new.items ≡ map C.chain chains.old.items ++ (chain_with basics.now topology.now
        (of_number two_tlid basics.now.tlid details.old.shapes.now)
        (of_number four_tlid basics.now.tlid details.old.names.now)
        (of_number six_tlid basics.now.tlid details.old.ranges.now) ∷ [])) }
    ensures shapes { OnOk result (details.new.shapes.now ≡ filter (λ r. is_gt (nat_cmp (two_tlid r) basics.now.tlid)) details.old.shapes.now) }
    ensures names { OnOk result (details.new.names.now ≡ filter (λ r. is_gt (nat_cmp (four_tlid r) basics.now.tlid)) details.old.names.now) }
    ensures ranges { OnOk result (details.new.ranges.now ≡ filter (λ r. is_gt (nat_cmp (six_tlid r) basics.now.tlid)) details.old.ranges.now) }
{
    let tlid = basics.tlid();
    let (shape, shapes) = split_group::<u64, Rec2>(details.shapes, tlid);
    let (named, names) = split_group::<u64, Rec4>(details.names, tlid);
    let (ranged, ranges) = split_group::<u64, Rec6>(details.ranges, tlid);
    details.shapes = shapes;
    details.names = names;
    details.ranges = ranges;
    let records = OneChain {
        basics,
        shape,
        names: named,
        ranges: ranged,
        topology,
    };
    chains.push(builder.build_chain(&records)?)?;
    Ok(())
}

/// Returns the chains of type 1 and type I records, paired by place, each with its records of types 2, 4 and 6.
pub(crate) fn chains_of_records<'t, 'r, C: StoredChain, B: ChainBuilder<'t, C>>(
    alloc: Global,
    builder: &mut B,
    all_basics: &[ChainBasics<'t>],
    topologies: &[ChainTopology<'t>],
    details: Details<'r>,
) -> Result<Vec<C>, AllocError>
    requires all_basics { IsStrictlySortedBy nat_cmp (map one_tlid all_basics.now) }
    requires shapes { IsInOrder (on two_tlid nat_cmp) details.shapes.now }
    requires names { IsInOrder (on four_tlid nat_cmp) details.names.now }
    requires ranges { IsInOrder (on six_tlid nat_cmp) details.ranges.now }
    ensures { IfOk result (λ chains. map C.chain chains.items
        ≡ chains_along details.entry.shapes.now details.entry.names.now details.entry.ranges.now all_basics.now topologies.now) }
{
    let mut chains = Vec::with_capacity(alloc, all_basics.len())?;
    let mut details = details;
    for place in 0..all_basics.len().min(topologies.len()) {
        let topology = topologies[place].record();
        push_chain::<C, B>(
            &mut chains,
            builder,
            &all_basics[place],
            topology,
            &mut details,
        )?;
    }
    Ok(chains)
}

/// Returns the LANDs of type 7 records in order, each once.
pub(crate) fn lands_of(alloc: Global, landmarks: &[Rec7]) -> Result<Vec<u64>, AllocError>
    requires { IsInOrder (on seven_land nat_cmp) landmarks.now }
    ensures { IfOk result (λ lands. lands.items ≡ distinct nat_cmp (map seven_land landmarks.now)) }
{
    let mut lands = keys_of::<u64, Rec7>(alloc, landmarks)?;
    lands.dedup_by(|later, kept| later.cmp(&kept).is_eq());
    Ok(lands)
}

/// Builds the landmarks of a county in the way that it stores them.
pub(crate) trait LandmarkBuilder<L: StoredLandmark> {
    /// Returns the landmark made from its records of types 7 and 8, in their order.
    fn build_landmark(&mut self, records: &[Rec7], links: &[Rec8]) -> Result<L, AllocError>
        ensures { IfOk result (λ built. L.landmark built ≡ record { bodies = map (λ (r : Fields7). r.body) records.now; links = links.now }) };
}

/// Returns the landmarks with these LANDs, made from records of types 7 and 8 in the order of their LANDs.
pub(crate) fn landmarks_of<L: StoredLandmark, B: LandmarkBuilder<L>>(
    alloc: Global,
    builder: &mut B,
    lands: &[u64],
    landmarks: &[Rec7],
    links: &[Rec8],
) -> Result<Vec<L>, AllocError>
    requires lands { IsStrictlySortedBy nat_cmp lands.now }
    requires landmarks { IsInOrder (on seven_land nat_cmp) landmarks.now }
    requires links { IsInOrder (on eight_land nat_cmp) links.now }
    ensures { IfOk result (λ found. map L.landmark found.items ≡ map (landmark_of landmarks.now links.now) lands.now) }
{
    let mut found = Vec::with_capacity(alloc, lands.len())?;
    let mut landmarks = landmarks;
    let mut links = links;
    let mut lands = lands;
    while let Some((land, later)) = lands.split_first() {
        let (group, more_landmarks) = split_group::<u64, Rec7>(landmarks, *land);
        let (linked, more_links) = split_group::<u64, Rec8>(links, *land);
        found.push(builder.build_landmark(group, linked)?)?;
        landmarks = more_landmarks;
        links = more_links;
        lands = later;
    }
    Ok(found)
}

fn insert_node(nodes: &mut NumberSet, node: Option<u64>) -> Result<(), AllocError>
    ensures { OnOk result (distinct nat_cmp nodes.new ≡ distinct nat_cmp (nodes.old ++ option_to_list node)) }
{
    if let Some(number) = node {
        nodes.insert(number)?;
    }
    Ok(())
}

/// Returns the nodes of type I records in order, each once. If nodes are numbered from 1 without gaps, each has a mark.
pub(crate) fn nodes_of(alloc: Global, topologies: &[RecI]) -> Result<Vec<u64>, AllocError>
    ensures { IfOk result (λ nodes. nodes.items ≡ distinct nat_cmp (flat_map topology_nodes topologies.now)) }
{
    let mut nodes = NumberSet::new(alloc, 2 * topologies.len())?;
    for topology in topologies {
        insert_node(&mut nodes, topology.start_node())?;
        insert_node(&mut nodes, topology.end_node())?;
    }
    nodes.in_order(alloc)
}
