//! What `Display` shows of each fault of a layer, and `Debug` where it isn't derived.

use super::comparing::{same, same_items};
use super::{Host, lines_of};
use std::fmt::{Debug, Display};
use test_support::sets::records_of;
use test_support::worked_sets::street;
use tl_county::LinkFault::{
    self, ChainTwice, LandUnknown, LinkMissing, LinkTwice, NameTwice, NameUnknown, NoChain,
    PolygonTwice, PolygonUnknown, SequenceBroken,
};
use tl_county::{LinkedType, SequencedType};
use tl_layout::{Body1, DeviceFault, FieldFault, FieldKind, NumberOrNone, Record};
use tl_load::{LineFault, LoadFault};
use tl_profile::ProfileFault;
use tl_write::WriteFault;

/// The message of the fault is exactly this.
fn says<T: Display>(rt: &impl Host, fault: &T, text: &str) {
    let said = format!(in rt.alloc(); "{fault}").expect(rt, text);
    same_items(rt, text, said.as_bytes(), text.as_bytes());
}

/// `Debug` prints the value exactly like this.
fn shows<T: Debug>(rt: &impl Host, value: &T, text: &str) {
    let found = format!(in rt.alloc(); "{value:?}").expect(rt, text);
    same_items(rt, text, found.as_bytes(), text.as_bytes());
}

/// The line of the fault is `refused` and this text.
fn is_refused<T: Display>(rt: &impl Host, fault: &T, text: &str) {
    let line = format!(in rt.alloc(); "refused {text}").expect(rt, text);
    says(rt, fault, &line);
}

/// The message about a number that isn't valid.
const NO_NUMBER: &str = "column 16: this is not a number of the field";

const NUMBER: FieldFault = FieldFault {
    kind: FieldKind::BadNumber,
    column: 16,
};

fn of_a_line() -> [(LineFault, &'static str); 4] {
    let no_type = "the first byte is no known record type";
    let too_long = "the line is longer than its record type allows";
    let no_byte = "column 7: this byte is not allowed";
    [
        (LineFault::UnknownType, no_type),
        (LineFault::LineTooLong, too_long),
        (LineFault::BadByte(7), no_byte),
        (LineFault::Field(NUMBER), NO_NUMBER),
    ]
}

#[test]
fn faults_of_a_line_say_what_is_wrong(rt: HostRuntime) {
    for (fault, text) in of_a_line() {
        says(&rt, &fault, text);
    }
}

/// Broken rules, and how `Debug` prints them, like a derived `Debug`.
fn of_linking() -> [(LinkFault, &'static str, &'static str); 10] {
    let (tlid, feat, land) = (9_000_000_001, 8, 30);
    let (cenid, polyid) = (*b"00012", 9);
    let (link, names) = (LinkedType::I, SequencedType::Four);
    [
        (
            ChainTwice { tlid },
            "11 ChainTwice 9000000001",
            "ChainTwice { tlid: 9000000001 }",
        ),
        (
            NoChain { rtype: link, tlid },
            "12 NoChain I 9000000001",
            "NoChain { rtype: I, tlid: 9000000001 }",
        ),
        (
            SequenceBroken { rtype: names, tlid },
            "13 SequenceBroken 4 9000000001",
            "SequenceBroken { rtype: Four, tlid: 9000000001 }",
        ),
        (
            LinkMissing { tlid },
            "14 LinkMissing 9000000001",
            "LinkMissing { tlid: 9000000001 }",
        ),
        (
            LinkTwice { tlid },
            "15 LinkTwice 9000000001",
            "LinkTwice { tlid: 9000000001 }",
        ),
        (
            NameTwice { feat },
            "16 NameTwice 8",
            "NameTwice { feat: 8 }",
        ),
        (
            NameUnknown { tlid, feat },
            "17 NameUnknown 9000000001 8",
            "NameUnknown { tlid: 9000000001, feat: 8 }",
        ),
        (
            PolygonTwice { cenid, polyid },
            "18 PolygonTwice 3030303132 9",
            "PolygonTwice { cenid: [48, 48, 48, 49, 50], polyid: 9 }",
        ),
        (
            LandUnknown { land },
            "19 LandUnknown 30",
            "LandUnknown { land: 30 }",
        ),
        (
            PolygonUnknown { cenid, polyid },
            "20 PolygonUnknown 3030303132 9",
            "PolygonUnknown { cenid: [48, 48, 48, 49, 50], polyid: 9 }",
        ),
    ]
}

#[test]
fn broken_rules_are_reported(rt: HostRuntime) {
    for (fault, text, shown) in of_linking() {
        is_refused(&rt, &fault, text);
        shows(&rt, &fault, shown);
    }
}

/// The faults that no small set has. `layer_memory_tests` compares the lines of the others.
#[test]
fn failed_devices_and_want_of_memory_are_reported(rt: HostRuntime) {
    let many = LoadFault::TooManyRecords { rtype: b'8' };
    is_refused(&rt, &many, "7 TooManyRecords 8");
    is_refused(&rt, &LoadFault::Device, "8 Device");
    is_refused(&rt, &WriteFault { written: 229 }, "10 WriteFault 229");
    is_refused(&rt, &LoadFault::Memory, "9 Memory");
    is_refused(&rt, &LinkFault::Memory, "9 Memory");
    is_refused(&rt, &ProfileFault::Memory, "9 Memory");
}

/// Hand-written `Debug` prints like a derived one, and a number that can be none prints like an `Option`.
#[test]
fn values_are_shown_as_a_derive_would_show_them(rt: HostRuntime) {
    shows(&rt, &LinkFault::Memory, "Memory");
    shows(&rt, &NumberOrNone::new(Some(9)), "Some(9)");
    shows(&rt, &NumberOrNone::new(None), "None");
}

/// The content of a type 1 record is kept as its columns, and is shown as its fields are.
fn is_shown_by_its_fields(rt: &impl Host, body: &Body1) {
    let fields = body.fields();
    let text = format!(in rt.alloc(); "{fields:?}").expect(rt, "the fields");
    let begins = text.as_bytes().starts_with(b"Body1Fields { side1: ");
    let shown = format!(in rt.alloc(); "{body:?}").expect(rt, "the content");
    let found = (begins, shown.as_str());
    same(rt, "a content", &found, &(true, text.as_str()));
}

#[test]
fn a_content_of_type_1_is_shown_by_its_fields(rt: HostRuntime) {
    let set = lines_of(&rt, street());
    let records = records_of(rt.alloc(), &set).expect(&rt, "the street");
    match records.first() {
        Some(Record::One(record)) => is_shown_by_its_fields(&rt, record.body()),
        _ => assert!(&rt; false, "the first record is of type 1"),
    }
}

#[test]
fn faults_beside_those_of_sets_say_what_they_are(rt: HostRuntime) {
    says(&rt, &FieldKind::BadPoint, "this is not a point");
    let gap = "a used place follows an unused one";
    says(&rt, &FieldKind::GapInRecord, gap);
    says(&rt, &NUMBER, NO_NUMBER);
    says(&rt, &DeviceFault, "the device failed");
}
