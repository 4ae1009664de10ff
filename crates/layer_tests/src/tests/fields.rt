//! The fields of a loaded record, each by its name.

use super::comparing::{same, same_items};
use super::{Host, lines_of};
use test_support::sets::records_of;
use tl_layout::{
    Body1, Body5, Body7, Point, Ranges, Rec1, Rec2, Rec4, Rec6, Rec8, RecI, RecP, Record,
};

/// The fields as one text, each followed by a bar.
fn joined(rt: &impl Host, fields: &[&[u8]]) -> Vec<u8> {
    let mut text = Vec::new(rt.alloc());
    for field in fields {
        text.extend_from_slice(field).expect(rt, "there is memory");
        text.push(b'|').expect(rt, "there is memory");
    }
    text
}

/// Checks that the fields, each followed by a bar, make up this text.
fn are(rt: &impl Host, row: &str, fields: &[&[u8]], wanted: &[u8]) {
    let found = joined(rt, fields);
    same_items(rt, row, &found, wanted);
}

/// Checks the kind of a chain, and the name of its feature.
fn reports_feature(rt: &impl Host, body: &Body1) {
    let fields = [
        &body.side1()[..],
        &body.source()[..],
        &body.fedirp()[..],
        &body.fename()[..],
        &body.fetype()[..],
        &body.fedirs()[..],
        &body.cfcc()[..],
    ];
    let wanted = b"1|A|N |Main                          |St  |SW|A41|";
    are(rt, "SIDE1 to CFCC", &fields, wanted);
}

/// Checks the native areas beside a chain, the reserved fields, and the states and counties with their parts.
fn reports_entities(rt: &impl Host, body: &Body1) {
    let fields = [
        &body.aianhhfpl()[..],
        &body.aianhhfpr()[..],
        &body.aihhtlil()[..],
        &body.aihhtlir()[..],
        &body.census1()[..],
        &body.census2()[..],
        &body.statel()[..],
        &body.stater()[..],
        &body.countyl()[..],
        &body.countyr()[..],
    ];
    let wanted = b"70001|70002|L|R|4|5|01|28|001|051|";
    are(rt, "AIANHHFPL to COUNTYR", &fields, wanted);
}

/// Checks the subdivisions, places, census tracts and census blocks beside a chain.
fn reports_blocks(rt: &impl Host, body: &Body1) {
    let fields = [
        &body.cousubl()[..],
        &body.cousubr()[..],
        &body.submcdl()[..],
        &body.submcdr()[..],
        &body.placel()[..],
        &body.placer()[..],
        &body.tractl()[..],
        &body.tractr()[..],
        &body.blockl()[..],
        &body.blockr()[..],
    ];
    let wanted = b"90001|90002|80001|80002|60001|60002|020200|020300|1001|2002|";
    are(rt, "COUSUBL to BLOCKR", &fields, wanted);
}

/// Checks address ranges and ZIP codes.
fn reports_ranges(rt: &impl Host, ranges: &Ranges) {
    let fields = [
        &ranges.fraddl()[..],
        &ranges.toaddl()[..],
        &ranges.fraddr()[..],
        &ranges.toaddr()[..],
        &ranges.friaddl()[..],
        &ranges.toiaddl()[..],
        &ranges.friaddr()[..],
        &ranges.toiaddr()[..],
        &ranges.zipl()[..],
        &ranges.zipr()[..],
    ];
    let wanted = b"        101|        199|        100|        198|6|7|8|9|36003|36006|";
    are(rt, "FRADDL to ZIPR", &fields, wanted);
}

/// Makes a chain's content again from its fields, and checks that it is the same.
fn is_of_its_fields(rt: &impl Host, body: &Body1) {
    let again = Body1::of(&body.fields());
    same(rt, "the content of its fields", &again, body);
}

/// Checks the number, the ends and the content of a chain.
fn reports_1(rt: &impl Host, record: &Rec1) {
    let found = (record.tlid(), record.start(), record.end());
    let start = Point::new(-86468669, 32424914);
    let end = Point::new(-86468545, 32424948);
    same(rt, "TLID, start, end", &found, &(500, start, end));
    is_of_its_fields(rt, record.body());
    reports_feature(rt, record.body());
    reports_entities(rt, record.body());
    reports_blocks(rt, record.body());
    reports_ranges(rt, &record.body().ranges());
}

/// Checks shape points.
fn reports_2(rt: &impl Host, record: &Rec2) {
    same(rt, "TLID, RTSQ", &(record.tlid(), record.rtsq()), &(500, 2));
    let points = [Point::new(-86468650, 32424920)];
    same_items(rt, "points", record.points(), &points);
}

/// Checks the further names of a chain.
fn reports_4(rt: &impl Host, record: &Rec4) {
    same(rt, "TLID, RTSQ", &(record.tlid(), record.rtsq()), &(500, 1));
    same_items(rt, "FEATs", record.feats(), &[9, 8]);
}

/// Checks a name.
fn reports_5(rt: &impl Host, body: &Body5) {
    let fields = [
        &body.file()[..],
        &body.fedirp()[..],
        &body.fename()[..],
        &body.fetype()[..],
        &body.fedirs()[..],
    ];
    let wanted = b"01001|N |Old Mill                      |Rd  |SW|";
    are(rt, "FILE to FEDIRS", &fields, wanted);
}

/// Checks further address ranges of a chain.
fn reports_6(rt: &impl Host, record: &Rec6) {
    same(rt, "TLID, RTSQ", &(record.tlid(), record.rtsq()), &(500, 3));
    reports_ranges(rt, record.ranges());
}

/// Checks the content of a landmark.
fn reports_7(rt: &impl Host, body: &Body7) {
    let point = Point::new(-86468669, 32424914);
    same(rt, "point", &body.point(), &Some(point));
    let fields = [
        &body.file()[..],
        &body.source()[..],
        &body.cfcc()[..],
        &body.laname()[..],
    ];
    let wanted = b"01001|A|D43|Barn                          |";
    are(rt, "FILE to LANAME", &fields, wanted);
}

/// Checks the polygon of a landmark.
fn reports_8(rt: &impl Host, record: &Rec8) {
    let found = (
        (record.file(), record.cenid()),
        (record.polyid(), record.land()),
    );
    let wanted = ((*b"01001", *b"00001"), (12, 30));
    same(rt, "FILE, CENID; POLYID, LAND", &found, &wanted);
}

/// Checks the nodes and the polygons of a chain.
fn reports_between(rt: &impl Host, record: &RecI) {
    let found = [
        record.start_node(),
        record.end_node(),
        record.left().polyid(),
        record.right().polyid(),
    ];
    let wanted = [Some(11), Some(12), Some(13), Some(14)];
    same(rt, "TZIDS, TZIDE, POLYIDL, POLYIDR", &found, &wanted);
    let found = [record.left().cenid(), record.right().cenid()];
    same(rt, "CENIDL, CENIDR", &found, &[*b"00001", *b"00002"]);
}

/// Checks the other fields of a type I record.
fn reports_i(rt: &impl Host, record: &RecI) {
    reports_between(rt, record);
    let body = record.body();
    let fields = [
        &body.file()[..],
        &body.source()[..],
        &body.ftseg()[..],
        &body.rs_i1()[..],
        &body.rs_i2()[..],
        &body.rs_i3()[..],
    ];
    let wanted = b"01001|Bureau    |                9|         6|         7|         8|";
    are(rt, "FILE to RS_I3", &fields, wanted);
}

/// Checks a polygon.
fn reports_p(rt: &impl Host, record: &RecP) {
    let body = record.body();
    let point = Point::new(-86468669, 32424914);
    let found = (
        (record.cenid(), record.polyid()),
        (body.file(), body.water(), body.point()),
    );
    let wanted = ((*b"00001", 12), (*b"01001", *b"1", Some(point)));
    same(rt, "CENID, POLYID; FILE, WATER, point", &found, &wanted);
}

/// Checks the fields of one record.
fn reports_record(rt: &impl Host, record: &Record) {
    match record {
        Record::One(record) => reports_1(rt, record),
        Record::Two(record) => reports_2(rt, record),
        Record::Four(record) => reports_4(rt, record),
        Record::Five(record) => reports_5(rt, record.body()),
        Record::Six(record) => reports_6(rt, record),
        Record::Seven(record) => reports_7(rt, record.body()),
        Record::Eight(record) => reports_8(rt, record),
        Record::I(record) => reports_i(rt, record),
        Record::P(record) => reports_p(rt, record),
    }
}

/// A record of each type, in which no two fields of the same width have the same value.
fn lines() -> &'static [&'static str] {
    &[
        "12006{7}5001AN Main{26}St{2}SWA41{8}101{8}199{8}100{8}198678936003360067000170002LR45012800105190001900028000180002600016000202020002030010012002-086468669+32424914-086468545+32424948",
        "22006{7}500{2}2-086468650+32424920",
        "42006{7}500{2}1{7}9{7}8",
        "5200601001{7}8N Old Mill{22}Rd{2}SW",
        "62006{7}500{2}3{8}101{8}199{8}100{8}19867893600336006",
        "7200601001{8}40AD43Barn{26}-086468669+32424914",
        "820060100100001{8}12{8}30",
        "I200601001{7}500{8}11{8}1200001{8}1300002{8}14Bureau{20}9{9}6{9}7{9}8",
        "P20060100100001{8}12-086468669+324249141",
    ]
}

#[test]
fn fields_are_reported_by_their_names(rt: HostRuntime) {
    let set = lines_of(&rt, lines());
    let records = records_of(rt.alloc(), &set).expect(&rt, "a record of each type");
    same(&rt, "records", &records.len(), &9);
    for record in &records {
        reports_record(&rt, record);
    }
}
