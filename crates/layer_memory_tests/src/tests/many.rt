//! A made map of many chains through the calls of each layer.

use super::Host;
use super::comparing::{same, same_items};
use super::refusals::{
    answer_for_arenas, sweep_admitting, sweep_linking, sweep_others, sweep_reading,
    text_of_admitted,
};
use test_support::growths::on_sets;
use test_support::long::{long_street, long_street_text};
use test_support::made::made;
use test_support::sets::{Set, SetLines, admitted_of};
use tl_layout::Mask;
use tl_load::{Counted, Loader};
use tl_write::{CountedOut, write_bytes};

/// The canonical text of the map, made of its other spelling. It is its own text.
fn text_of_many(rt: &impl Host) -> Vec<u8> {
    let other = made(rt.alloc(), true).expect(rt, "the other hand");
    let admitted = admitted_of(rt.alloc(), &other).expect(rt, "the other hand");
    let text = text_of_admitted(rt, admitted);
    let admitted = admitted_of(rt.alloc(), &text).expect(rt, "the text");
    same_items(rt, "the text", &text_of_admitted(rt, admitted), &text);
    text
}

/// More than a million bytes are read from a reader and written to a writer, without a failure.
fn goes_through_devices(rt: &impl Host, set: &[u8]) {
    assert!(rt; set.len() > 1_000_000, "the text is long");
    let mut source = Counted::new(set);
    let mut loader = Loader::new(rt.alloc());
    same(rt, "reading", &loader.read_part(&mut source), &Ok(()));
    let mut sink = CountedOut::new(Vec::new(rt.alloc()));
    let wanted = Ok(set.len() as u64);
    same(rt, "writing", &write_bytes(set, &mut sink), &wanted);
    same_items(rt, "what is held", &sink.into_inner(), set);
}

#[test]
fn a_map_of_many_chains_goes_through_the_layers(rt: HostRuntime) {
    let row = "many chains";
    let text = text_of_many(&rt);
    goes_through_devices(&rt, &text);
    let bytes = made(rt.alloc(), false).expect(&rt, row);
    let sets = [SetLines { row, bytes, text }];
    let of = on_sets(" of many chains", &sets);
    sweep_reading(&rt, of);
    sweep_linking(&rt, of);
    sweep_admitting(&rt, of);
    sweep_others(&rt, of);
}

/// Each call has the text of the street, and the renaming onto it, for a county in an arena too.
#[test]
fn a_street_of_very_many_chains_goes_through_the_layers(rt: HostRuntime) {
    let bytes = long_street(rt.alloc()).expect(&rt, "the street");
    let text = long_street_text(rt.alloc()).expect(&rt, "its text");
    let set = Set {
        row: "very many chains",
        bytes: &bytes,
        text: &text,
        mask: Mask::NONE,
    };
    answer_for_arenas(&rt, &set);
}
