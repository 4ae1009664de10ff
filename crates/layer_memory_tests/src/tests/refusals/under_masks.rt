//! The calls of layers that take a mask, with growths refused, under each mask that leaves out something.

use super::super::Host;
use super::carrying::CheckMasked;
use super::{CanoniseInMasked, CanoniseMasked, sweep};
use test_support::growths::Swept;
use test_support::masks::{masks, sets_for_masks};

/// Sweeps all calls that take a mask.
fn sweep_under(rt: &impl Host, of: Swept<'_>) {
    sweep(rt, "CanoniseMasked", of, &CanoniseMasked);
    sweep(rt, "CanoniseInMasked", of, &CanoniseInMasked);
    sweep(rt, "CheckMasked", of, &CheckMasked);
}

#[test]
fn masked_calls_of_layers_report_refused_growths_under_each_mask(rt: HostRuntime) {
    let sets = &sets_for_masks(rt.alloc()).expect(&rt, "there is memory");
    for (what, mask) in masks() {
        sweep_under(&rt, Swept { what, sets, mask });
    }
}
