//! The results of the getters of a county.

use super::comparing::{same, same_items};
use super::{Host, county_of, lines_of};
use test_support::worked_sets::record_of_each_type;
use tl_county::{County, PolygonKey};
use tl_layout::Point;

/// The county has the numbers of its lines.
fn has_the_numbers(rt: &impl Host, county: &County) {
    same_items(rt, "TLIDs", county.tlids(), &[500]);
    same_items(rt, "FEATs", county.feats(), &[8, 9]);
    same_items(rt, "LANDs", county.lands(), &[30, 40]);
    same_items(rt, "nodes", county.nodes(), &[11, 12]);
    let polygons = [(*b"00001", 12), (*b"00002", 12)];
    same_items(rt, "polygons", county.polygons(), &polygons);
}

fn type_of_name(county: &County, feat: u32) -> Option<[u8; 4]> {
    match county.name(feat) {
        Some(body) => Some(body.fetype()),
        None => None,
    }
}

/// The WATER of this polygon, if it has a record of type P.
fn water_of(county: &County, polygon: PolygonKey) -> Option<[u8; 1]> {
    match county.polygon_body(polygon) {
        Some(body) => Some(body.water()),
        None => None,
    }
}

/// The county has the names and polygons of its lines, and no others.
fn has_the_names_and_polygons(rt: &impl Host, county: &County) {
    let names = [type_of_name(county, 9), type_of_name(county, 7)];
    same(rt, "FEAT 9, FEAT 7", &names, &[Some(*b"Rd  "), None]);
    let first = water_of(county, (*b"00002", 12));
    let polygons = [first, water_of(county, (*b"00001", 12))];
    let row = "polygons 00002 12, 00001 12";
    same(rt, row, &polygons, &[Some(*b"1"), None]);
}

/// The county has the chain of its lines.
fn has_the_chain(rt: &impl Host, county: &County) {
    let chain = county.chain(500).expect(rt, "TLID 500");
    let points = [
        Point::new(-86468669, 32424914),
        Point::new(-86468650, 32424920),
        Point::new(-86468600, 32424930),
        Point::new(-86468545, 32424948),
    ];
    same_items(rt, "points", chain.shape().points(), &points);
    same_items(rt, "further names", chain.feats(), &[9, 8]);
    let found = (
        (county.chain(501).is_some(), chain.ranges().len()),
        (chain.start_node(), chain.right().cenid()),
    );
    let wanted = ((false, 1), (Some(11), *b"00002"));
    let row = "TLID 501, further address ranges, start node, right CENID";
    same(rt, row, &found, &wanted);
}

/// The county has the landmarks of its lines. LAND 40 has two contents, in order.
fn has_the_landmarks(rt: &impl Host, county: &County) {
    let bodies = county.landmark_bodies(40);
    let first = bodies.first().expect(rt, "LAND 40");
    let found = (bodies.len(), first.laname());
    let wanted = (2, *b"Annex                         ");
    same(rt, "contents of LAND 40, the first", &found, &wanted);
    let bodies = county.landmark_bodies(41).len();
    let links = county.landmark_links(30).len();
    let others = county.landmark_links(40).len();
    let row = "contents of LAND 41, links of LAND 30 and 40";
    same(rt, row, &(bodies, links, others), &(0, 1, 0));
}

#[test]
fn getters_report_what_the_lines_say(rt: HostRuntime) {
    let set = lines_of(&rt, record_of_each_type());
    let county = county_of(&rt, "a record of each type", &set);
    has_the_numbers(&rt, &county);
    has_the_names_and_polygons(&rt, &county);
    has_the_chain(&rt, &county);
    has_the_landmarks(&rt, &county);
    drop(county);
}

/// Returns two chains on three polygons.
fn on_three_polygons() -> &'static [&'static str] {
    &[
        "1{13}5{183}+2{7}+1{8}+3{7}+1",
        "1{13}3{183}+1{7}+1{8}+2{7}+1",
        "I{4}01001{9}5{8}71{8}72B4701{9}9A4701{8}10",
        "I{4}01001{9}3{8}70{8}71A4701{9}2B4701{9}9",
    ]
}

/// Each polygon is in the county once, however many sides it is on. The order is by the CENID's bytes, and then by the POLYID as a
/// number.
#[test]
fn polygons_of_a_county_stand_once_and_in_order(rt: HostRuntime) {
    let set = lines_of(&rt, on_three_polygons());
    let county = county_of(&rt, "two chains", &set);
    let polygons = [(*b"A4701", 2), (*b"A4701", 10), (*b"B4701", 9)];
    same_items(&rt, "polygons", county.polygons(), &polygons);
}
