//! The contents of records under masks.

use super::comparing::same;
use super::{Host, lines_of};
use test_support::masks::{BOTH, RESERVED, SOURCES, are_masked, plain, without_either};
use test_support::sets::records_of;
use tl_layout::Mask;

const NO_SOURCES: &[&str] = &[
    "12006{7}5001{1}N Main{26}St{2}SWA41{8}101{8}199{8}100{8}198678936003360067000170002LR45012800105190001900028000180002600016000202020002030010012002-086468669+32424914-086468545+32424948",
    "7200601001{8}40{1}D43Barn{26}-086468669+32424914",
    "I200601001{7}500{8}11{8}1200001{8}1300002{8}14{26}9{9}6{9}7{9}8",
];

const NO_RESERVED: &[&str] = &[
    "12006{7}5001AN Main{26}St{2}SWA41{8}101{8}199{8}100{8}198678936003360067000170002LR{2}012800105190001900028000180002600016000202020002030010012002-086468669+32424914-086468545+32424948",
    "7200601001{8}40AD43Barn{26}-086468669+32424914",
    "I200601001{7}500{8}11{8}1200001{8}1300002{8}14Bureau{20}9",
];

/// Under this mask the plain records have the contents of these.
fn become_these(rt: &impl Host, row: &str, mask: Mask, wanted: &[&str]) {
    let plain = records_of(rt.alloc(), &lines_of(rt, plain())).expect(rt, row);
    let masked = records_of(rt.alloc(), &lines_of(rt, wanted)).expect(rt, row);
    let are_masked = are_masked(&plain, &masked, mask);
    let found = (masked.len(), are_masked, mask.is_none());
    let is_none = !mask.sources && !mask.reserved;
    same(rt, row, &found, &(3, true, is_none));
}

#[test]
fn a_mask_leaves_out_its_fields(rt: HostRuntime) {
    become_these(&rt, "none", Mask::NONE, plain());
    become_these(&rt, "sources", SOURCES, NO_SOURCES);
    become_these(&rt, "reserved", RESERVED, NO_RESERVED);
    become_these(&rt, "both", BOTH, without_either());
}
