//! Whole calls under masks, and the calls of the layers that take one.

ghost use Rattle.std.specs.Prelude.{◌<◌};

use super::comparing::{same, same_items};
use super::{Host, lines_of};
use bumpalo::Bump;
use std::alloc::{AllocError, Global};
use test_support::masks::{ANNEX_AND_BARN, BARN_FIRST, BOTH, RESERVED, SOURCES};
use test_support::renaming_lists::{Lists, TURN};
use test_support::sets::{Set, SetLines, county_in_of, county_of};
use test_support::twin_sets::{OF_TWO_SOURCES, OF_TWO_SOURCES_TEXT};
use test_support::worked_sets::{CHAIN_1, LINK, LINK_1, MAIN_TEXT, street, street_turned};
use test_support::writing::are_written;
use tigercanon::{
    Fault, Verdict, are_one_map_masked, compare_masked, fingerprint_masked, normalise_masked,
    normalise_to_masked, normalise_with_renaming_masked,
};
use tl_cert::{Renaming, check_masked};
use tl_county::Chart;
use tl_layout::Mask;
use tl_load::SlowSource;
use tl_number::{CanonCounty, canonise_in_masked, canonise_masked};
use tl_profile::{admit, admit_in};
use tl_write::SlowSink;

const NONE: Mask = Mask::NONE;

/// The chain of Main St with another SOURCE.
const CHAIN_OF_B: &str =
    "1{11}500{1}B{2}Main{26}St{4}A41{8}101{8}199{8}100{8}19801{2}3600336006{14}0101001001{30}02020002030010012002{1}-86468669+32424914{1}-86468545+32424948";

/// The canonical chain of Main St without SOURCE.
const CHAIN_1_OF_NONE: &str =
    "12006{9}1{4}Main{26}St{4}A41{8}101{8}199{8}100{8}19801{2}3600336006{14}0101001001{30}02020002030010012002-086468669+32424914-086468545+32424948";

/// The text of Main St without SOURCE.
const TEXT_OF_NONE: &[&str] = &[CHAIN_1_OF_NONE, LINK_1];

const ANNEX_FIRST: &[&str] = &[
    CHAIN_1_OF_NONE,
    "7200601001{9}1{1}D43Annex{45}",
    "7200601001{9}1{1}D43Barn{46}",
    LINK_1,
];

/// The text of `OF_TWO_SOURCES` if the sources are left out: the nodes decide.
const OF_NO_SOURCES_TEXT: &[&str] = &[
    CHAIN_1_OF_NONE,
    "12006{9}2{4}Main{26}St{4}A41{8}101{8}199{8}100{8}19801{2}3600336006{14}0101001001{30}02020002030010012002-086468669+32424914-086468545+32424948",
    LINK_1,
    "I200601001{9}2{9}2{9}300001{82}",
];

/// The call returns a canonical county with the set's text. Returns the renaming onto it, as `Debug` prints it.
fn canonised<C: Chart + Drop>(
    rt: &impl Host,
    set: &Set<'_>,
    outcome: Result<(CanonCounty<C>, Renaming), AllocError>,
) -> String {
    let (county, renaming) = outcome.expect(rt, set.row);
    let mut buffer = vec![in rt.alloc(); 0u8; set.text.len()].expect(rt, set.row);
    let found = are_written(&county, set.text, &mut buffer);
    drop(county);
    same(rt, set.row, &found, &[true; 2]);
    format!(in rt.alloc(); "{renaming:?}").expect(rt, set.row)
}

/// The renaming of the set's county onto its canonical county under the set's mask.
fn renaming_of(rt: &impl Host, set: &Set<'_>) -> String {
    let county = county_of(rt.alloc(), set.bytes).expect(rt, set.row);
    let admitted = admit(rt.alloc(), county).expect(rt, set.row);
    canonised(rt, set, canonise_masked(rt.alloc(), admitted, set.mask))
}

/// The same for the county in an arena.
fn renaming_in_of(rt: &impl Host, set: &Set<'_>) -> String {
    let arena = Bump::new(rt.alloc());
    let county = county_in_of(rt.alloc(), &arena, set.bytes).expect(rt, set.row);
    let admitted = admit_in(rt.alloc(), county).expect(rt, set.row);
    canonised(rt, set, canonise_in_masked(rt.alloc(), admitted, set.mask))
}

/// The set becomes its text under its mask, by a whole call and as a county, which may be in an arena.
fn becomes(rt: &impl Host, set: &Set<'_>) {
    let found = normalise_masked(rt.alloc(), &[set.bytes], set.mask).expect(rt, set.row);
    same_items(rt, set.row, &found, set.text);
    let (renaming, other) = (renaming_of(rt, set), renaming_in_of(rt, set));
    same(rt, set.row, &other.as_str(), &renaming.as_str());
}

/// The purpose of a row, a set, a mask, and the lines of the set's text under it.
type MaskedRow = (
    &'static str,
    &'static [&'static str],
    Mask,
    &'static [&'static str],
);

/// Contents of a landmark, and chains with the same shape, have the order that they have without the fields left out.
fn in_order() -> [MaskedRow; 4] {
    let (with, without) = (OF_TWO_SOURCES_TEXT, OF_NO_SOURCES_TEXT);
    [
        ("contents", ANNEX_AND_BARN, NONE, BARN_FIRST),
        ("without sources", ANNEX_AND_BARN, SOURCES, ANNEX_FIRST),
        ("chains", OF_TWO_SOURCES, NONE, with),
        ("chains without sources", OF_TWO_SOURCES, SOURCES, without),
    ]
}

#[test]
fn sets_become_their_canonical_counties_under_masks(rt: HostRuntime) {
    for (row, lines, mask, text) in in_order() {
        let set = SetLines::of(rt.alloc(), &(row, lines, text)).expect(&rt, row);
        becomes(&rt, &set.under(mask));
    }
}

/// The fingerprint of Main St as it is, and without SOURCE, made by another program.
pub(super) const PRINT: [u8; 32] = [
    0x06, 0x44, 0x2d, 0x8d, 0x2f, 0x1e, 0x29, 0xf7, 0xc2, 0x0b, 0x1d, 0xdf, 0xe1, 0xd6, 0xb4, 0xd9,
    0x83, 0xcc, 0x26, 0x85, 0x62, 0x7d, 0x23, 0x5e, 0x84, 0x17, 0xe7, 0xe9, 0x55, 0x09, 0x75, 0xc9,
];

const PRINT_OF_NONE: [u8; 32] = [
    0x37, 0x4a, 0x0e, 0x85, 0xff, 0xb0, 0x81, 0x64, 0x8d, 0xe3, 0x40, 0x2e, 0xec, 0xe0, 0x9d, 0x5e,
    0x15, 0xcd, 0xf2, 0x0b, 0xea, 0xa6, 0x98, 0x0a, 0xb8, 0xaa, 0x0f, 0x4c, 0x08, 0x72, 0x86, 0xfb,
];

/// A mask, whether it leaves out SOURCE, and the text of Main St under it with the text's fingerprint.
type StreetRow = (&'static str, Mask, bool, &'static [&'static str], [u8; 32]);

fn street_rows() -> [StreetRow; 4] {
    [
        ("no mask", NONE, false, MAIN_TEXT, PRINT),
        ("no sources", SOURCES, true, TEXT_OF_NONE, PRINT_OF_NONE),
        ("no reserved fields", RESERVED, false, MAIN_TEXT, PRINT),
        ("neither", BOTH, true, TEXT_OF_NONE, PRINT_OF_NONE),
    ]
}

/// Writes the text of a set under a mask from a source to a sink.
fn write_masked(
    alloc: Global,
    set: &[u8],
    sink: &mut SlowSink<'_>,
    mask: Mask,
) -> Result<u64, Fault>
    requires { sink.old.failures < u64.MAX }
{
    let mut sources = [SlowSource::new(set, 100, None)];
    normalise_to_masked(alloc, &mut sources, sink, mask)
}

/// The text written from a source to a sink under the set's mask is the set's text.
fn is_written(rt: &impl Host, set: &Set<'_>) {
    let mut buffer = vec![in rt.alloc(); 0u8; 400].expect(rt, set.row);
    let mut sink = SlowSink::new(&mut buffer, 7);
    let answer = write_masked(rt.alloc(), set.bytes, &mut sink, set.mask);
    same(rt, set.row, &answer, &Ok(set.text.len() as u64));
    same_items(rt, set.row, sink.held(), set.text);
}

/// The set has its text and this fingerprint under its mask: in memory, beside a renaming, at a sink, and as a county.
fn has_text_under(rt: &impl Host, set: &Set<'_>, print: [u8; 32]) {
    let Set { row, mask, .. } = *set;
    becomes(rt, set);
    let parts = [set.bytes];
    let reported = normalise_with_renaming_masked(rt.alloc(), &parts, mask).expect(rt, row);
    same_items(rt, row, &reported.0, set.text);
    let found = fingerprint_masked(rt.alloc(), &parts, mask);
    same(rt, row, &found, &Ok(print));
    is_written(rt, set);
}

/// Main St from either end has the row's text under its mask. The text has it too, and is its own text without a mask.
fn street_has_text(rt: &impl Host, (row, mask, _, text, print): StreetRow) {
    for lines in [street(), street_turned(), text] {
        let set = SetLines::of(rt.alloc(), &(row, lines, text)).expect(rt, row);
        has_text_under(rt, &set.under(mask), print);
    }
    let text = lines_of(rt, text);
    let plain = normalise_masked(rt.alloc(), &[&text], NONE).expect(rt, row);
    same_items(rt, row, &plain, &text);
}

#[test]
fn a_street_has_a_text_under_each_mask(rt: HostRuntime) {
    for row in street_rows() {
        street_has_text(&rt, row);
    }
}

/// The renaming turns Main St, and carries the first set onto the second under the mask.
fn is_turned_under(rt: &impl Host, mask: Mask, sets: [&[u8]; 2], by: &Renaming) {
    same(rt, "the street", &Lists::of(by), &TURN);
    let here = county_of(rt.alloc(), sets[0]).expect(rt, "here");
    let there = county_of(rt.alloc(), sets[1]).expect(rt, "there");
    let carried = check_masked(rt.alloc(), &here, &there, by, mask);
    drop(here);
    drop(there);
    same(rt, "carried", &carried, &Ok(true));
}

/// Whether the sets describe the same map under the mask. If they do, Main St is turned.
fn are_one_map(rt: &impl Host, mask: Mask, set: &[u8], other: &[u8]) -> bool {
    let verdict = compare_masked(rt.alloc(), &[set], &[other], mask);
    let verdict = verdict.expect(rt, "both are accepted");
    let is_same = match &verdict {
        Verdict::Same(by) => {
            is_turned_under(rt, mask, [set, other], by);
            true
        }
        Verdict::Different => false,
    };
    drop(verdict);
    let answered = are_one_map_masked(rt.alloc(), &[set], &[other], mask);
    same(rt, "asked alone", &answered, &Ok(is_same));
    is_same
}

/// Under the row's mask, Main St is the same map as itself from its other end. It is the same map as a Main St of another SOURCE if the
/// mask leaves SOURCE out.
fn street_is_one_map(rt: &impl Host, (row, mask, is_of_any_source, _, _): StreetRow) {
    let set = lines_of(rt, street());
    let turned = lines_of(rt, street_turned());
    let found = are_one_map(rt, mask, &set, &turned);
    same(rt, row, &found, &true);
    let set = lines_of(rt, &[CHAIN_OF_B, LINK]);
    let found = are_one_map(rt, mask, &set, &turned);
    same(rt, row, &found, &is_of_any_source);
}

#[test]
fn a_street_is_one_map_with_its_twin_under_each_mask(rt: HostRuntime) {
    for row in street_rows() {
        street_is_one_map(&rt, row);
    }
}
