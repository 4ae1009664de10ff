//! A street of more chains than 16 bits can count, through the library calls that the program doesn't make, or makes differently.

use super::Host;
use super::comparing::{same, same_items};
use super::refusals::{Canonise, NormaliseWithRenaming};
use test_support::growths::answer_alike;
use test_support::long::{CHAINS, long_street, long_street_text};
use test_support::sets::{Set, county_of};
use tigercanon::{Verdict, check, compare, fingerprint, normalise, respell};
use tl_cert::Renaming;
use tl_layout::Mask;

/// The calls return the text, the fingerprint and the verdict, and the text is its own in each way.
fn has_its_text(rt: &impl Host, set: &[u8], text: &[u8]) {
    let found = normalise(rt.alloc(), &[set]).expect(rt, "normalise");
    same_items(rt, "normalise", &found, text);
    let found = respell(rt.alloc(), &[text]).expect(rt, "respell");
    same_items(rt, "respell", &found, text);
    let print = fingerprint(rt.alloc(), &[text]).expect(rt, "fingerprint of the text");
    let answers = (check(rt.alloc(), &[set]), fingerprint(rt.alloc(), &[set]));
    same(rt, "answers", &answers, &(Ok(()), Ok(print)));
}

/// The renaming carries the street onto its text, its inverse carries back, and both in turn leave each number as it is.
fn goes_there_and_back(rt: &impl Host, set: &[u8], text: &[u8], renaming: &Renaming) {
    let here = county_of(rt.alloc(), set).expect(rt, "here");
    let there = county_of(rt.alloc(), text).expect(rt, "there");
    let inverse = renaming.inverse().expect(rt, "inverse");
    let through = renaming.then(&inverse).expect(rt, "then");
    let found = [
        tl_cert::check(rt.alloc(), &here, &there, renaming),
        tl_cert::check(rt.alloc(), &there, &here, &inverse),
        tl_cert::check(rt.alloc(), &here, &here, &through),
    ];
    drop(here);
    drop(there);
    same(rt, "there and back", &found, &[Ok(true); 3]);
    let chains = renaming.chains().len() as u64;
    let turned = renaming.turned().len() as u64;
    let wanted = [CHAINS, CHAINS / 3];
    same(rt, "chains, turned ones", &[chains, turned], &wanted);
}

/// Both sets describe the same map.
fn are_one_map(rt: &impl Host, set: &[u8], text: &[u8]) {
    let verdict = compare(rt.alloc(), &[set], &[text]).expect(rt, "compare");
    match &verdict {
        Verdict::Same(renaming) => goes_there_and_back(rt, set, text, renaming),
        Verdict::Different => assert!(rt; false, "they are one map"),
    }
    drop(verdict);
}

#[test]
fn a_street_of_very_many_chains_goes_through_the_calls(rt: HostRuntime) {
    let bytes = long_street(rt.alloc()).expect(&rt, "the street");
    let text = long_street_text(rt.alloc()).expect(&rt, "its text");
    has_its_text(&rt, &bytes, &text);
    are_one_map(&rt, &bytes, &text);
    let set = Set {
        row: "very many chains",
        bytes: &bytes,
        text: &text,
        mask: Mask::NONE,
    };
    let found = answer_alike(&rt, &set, &NormaliseWithRenaming, &Canonise);
    found.expect(&rt, "one renaming");
}
