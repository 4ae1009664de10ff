//! A made map of many chains through each call.

use super::Host;
use super::comparing::{same, same_items};
use super::refusals::{sweep_steps, sweep_whole_calls};
use test_support::growths::on_sets;
use test_support::made::made;
use test_support::sets::SetLines;
use tigercanon::{Verdict, compare, normalise};

/// Both spellings describe the same map, and have the same text. It is its own text, and is longer than the buffer of a writer.
fn has_one_text(rt: &impl Host, set: &[u8], other: &[u8]) -> Vec<u8> {
    let text = normalise(rt.alloc(), &[set]).expect(rt, "one hand");
    assert!(rt; text.len() > 1_000_000, "the text is long");
    let of_other = normalise(rt.alloc(), &[other]).expect(rt, "the other hand");
    same_items(rt, "the other hand", &of_other, &text);
    let of_text = normalise(rt.alloc(), &[&text]).expect(rt, "the text");
    same_items(rt, "the text", &of_text, &text);
    text
}

/// The sets describe the same map.
fn are_same(rt: &impl Host, set: &[u8], other: &[u8]) {
    let verdict = compare(rt.alloc(), &[set], &[other]).expect(rt, "both are accepted");
    let is_same = matches!(&verdict, Verdict::Same(_));
    drop(verdict);
    same(rt, "one map", &is_same, &true);
}

#[test]
fn a_map_of_many_chains_goes_through_each_call(rt: HostRuntime) {
    let bytes = made(rt.alloc(), false).expect(&rt, "one hand");
    let other = made(rt.alloc(), true).expect(&rt, "the other hand");
    let text = has_one_text(&rt, &bytes, &other);
    are_same(&rt, &bytes, &other);
    let row = "many chains";
    let sets = [SetLines { row, bytes, text }];
    let of = on_sets(" of many chains", &sets);
    sweep_whole_calls(&rt, of);
    sweep_steps(&rt, of);
}
