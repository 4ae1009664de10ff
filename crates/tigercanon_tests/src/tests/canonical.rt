//! The canonical texts of sets and the renamings onto them.

use super::comparing::{same, same_items};
use super::{Host, lines_of};
use test_support::renaming_lists::{Lists, NOTHING};
use test_support::sets::{Set, carries, county_of};
use test_support::worked_sets::{street_turned, two_chains, worked};
use tigercanon::{check, normalise, normalise_with_renaming};
use tl_county::Chart;
use tl_number::ascending_arrangement;
use tl_profile::{Admitted, admit, order_by_shape};

/// The set is accepted, its text is this one, and the renaming returned with it carries the set onto it.
fn becomes(rt: &impl Host, set: &Set<'_>) {
    let accepted = check(rt.alloc(), &[set.bytes]);
    let found = normalise(rt.alloc(), &[set.bytes]).expect(rt, set.row);
    same_items(rt, set.row, &found, set.text);
    let reported = normalise_with_renaming(rt.alloc(), &[set.bytes]).expect(rt, set.row);
    let carried = carries(rt.alloc(), set.bytes, set.text, &reported.1);
    drop(reported);
    same(rt, set.row, &(accepted, carried), &(Ok(()), Some(true)));
}

/// The number of chains of an admitted county, by its count, by its list of TLIDs, by its order of shapes and by its arrangement.
fn has_chains(rt: &impl Host, row: &str, admitted: &Admitted, chains: usize) {
    let shapes = order_by_shape(rt.alloc(), admitted.county()).expect(rt, row);
    let arrangement = ascending_arrangement(rt.alloc(), admitted.county()).expect(rt, row);
    let counts = [
        admitted.county().chain_count(),
        admitted.county().tlids().len(),
        shapes.by_shape().len(),
        arrangement.len(),
    ];
    same(rt, row, &counts, &[chains; 4]);
}

#[test]
fn an_admitted_county_has_its_chains(rt: HostRuntime) {
    let set = lines_of(&rt, two_chains());
    let county = county_of(rt.alloc(), &set).expect(&rt, "two chains");
    let admitted = admit(rt.alloc(), county).expect(&rt, "two chains");
    has_chains(&rt, "two chains", &admitted, 2);
    drop(admitted);
}

#[test]
fn sets_become_their_texts(rt: HostRuntime) {
    let sets = worked(rt.alloc()).expect(&rt, "there is memory");
    for lines in &sets {
        becomes(&rt, &lines.set());
    }
}

/// From Main St from its other end to the canonical text.
const ONTO_THE_TEXT: Lists<'static> = Lists {
    chains: &[(77, 1)],
    nodes: &[(5, 1), (6, 2)],
    turned: &[77],
    ..NOTHING
};

/// The renaming onto the text names old numbers, those of the set.
#[test]
fn a_turned_chain_is_reported_by_its_old_number(rt: HostRuntime) {
    let set = lines_of(&rt, street_turned());
    let reported = normalise_with_renaming(rt.alloc(), &[&set]).expect(&rt, "the street");
    same(&rt, "the street", &Lists::of(&reported.1), &ONTO_THE_TEXT);
}
