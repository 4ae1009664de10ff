//! The whole calls that take a mask, with growths refused, under each mask that leaves out something.

use super::sweep_masked_calls;
use test_support::growths::Swept;
use test_support::masks::{masks, sets_for_masks};

#[test]
fn masked_calls_report_refused_growths_under_each_mask(rt: HostRuntime) {
    let sets = &sets_for_masks(rt.alloc()).expect(&rt, "there is memory");
    for (what, mask) in masks() {
        sweep_masked_calls(&rt, Swept { what, sets, mask });
    }
}
