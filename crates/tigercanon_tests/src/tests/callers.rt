//! The three callers of `uses`, on lines of a county.

use super::comparing::{same, same_items};
use super::{Host, lines_of};
use test_support::sets::spelled;
use tl_load::LoadFault;
use uses::{cited_tlid, load_pieces, spell_alike};

/// A landmark's polygon, and the same record in another spelling.
const LINK: &[u8] = b"8    0100100001        12        30 ";

const LINK_BY_ANOTHER_HAND: &[u8] = b"803060100100001000000001230\r\n";

#[test]
fn a_file_may_come_in_any_pieces(rt: HostRuntime) {
    let (front, back) = LINK.split_at(9);
    let records = load_pieces(rt.alloc(), &[front, b"", back]).expect(&rt, "three pieces");
    let text = spelled(rt.alloc(), &records).expect(&rt, "there is memory");
    let wanted = b"820060100100001        12        30 \n";
    same_items(&rt, "three pieces", &text, wanted);
    let refused = load_pieces(rt.alloc(), &[b"A", b"\n"]).err();
    let unknown = LoadFault::UnknownType { part: 1, line: 1 };
    same(&rt, "an unknown type", &refused, &Some(unknown));
}

#[test]
fn zeros_and_ends_of_lines_make_no_difference(rt: HostRuntime) {
    for (row, other, wanted) in [
        ("itself", LINK, true),
        ("another hand", LINK_BY_ANOTHER_HAND, true),
        ("nothing", b"".as_slice(), false),
    ] {
        same(&rt, row, &spell_alike(rt.alloc(), LINK, other), &Ok(wanted));
    }
}

/// A chain with no content except its two points, and one with another TLID that runs back between these points or between others.
const CHAIN: &[&str] = &[
    "1{11}500{175}+000000001+00000001+000000002+00000001",
    "I{16}500",
];

const BACK: &[&str] = &[
    "1{12}77{175}+000000002+00000001+000000001+00000001",
    "I{17}77",
];

const OTHER: &[&str] = &[
    "1{12}77{175}+000000002+00000001+000000001+00000002",
    "I{17}77",
];

/// A TLID of the file is this one in another file.
fn is_cited(rt: &impl Host, tlid: u64, other: &[&str], wanted: Option<u64>) {
    let file = lines_of(rt, CHAIN);
    let other = lines_of(rt, other);
    let found = cited_tlid(rt.alloc(), &file, &other, tlid);
    same(rt, "a TLID", &(tlid, found), &(tlid, Ok(wanted)));
}

#[test]
fn a_cited_chain_is_found_in_another_file(rt: HostRuntime) {
    is_cited(&rt, 500, BACK, Some(77));
    is_cited(&rt, 77, BACK, None);
    is_cited(&rt, 500, OTHER, None);
}
