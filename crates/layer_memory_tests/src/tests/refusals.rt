//! Growths of memory that are refused in the calls of each layer. The whole calls, and the steps that only they make, are in
//! `memory_tests`; `test_support::growths` says how growths are refused.
//!
//! These sets are swept:
//!
//! - the accepted sets of `test_support`, by all calls: streets, shape points, names, a record of each type, and twins in one
//!   group and in two
//! - sets that are rejected, one for each refusal but 7 (`refused.rt`), by the calls of the layer that rejects them
//! - a record of each type, twins, and sets that a mask changes (`under_masks.rt`), by the calls that take a mask, under each mask
//!   that leaves out something. All others are swept under the mask that leaves out everything
//! - a made map of 2,000 chains (`many.rt`), by all calls
//!
//! Trick: each call is a type, whose function runs that call alone. A function that named all calls would take long to prove, and so would
//! each function above it. A function that is passed on by its name is proved three times more, as `Fn`, `FnMut` and `FnOnce`.

mod canonising;
mod carrying;
mod linking;
mod reading;
mod refused;
mod under_masks;

use super::Host;
pub(super) use canonising::text_of_admitted;
use canonising::{Canonise, CanoniseIn, CanoniseInMasked, CanoniseMasked, RecordsOf, RecordsOfIn};
use std::alloc::AllocError;
use std::fmt::Debug;
use test_support::growths::{Call, Run, Swept, answer_alike, count_on_sets, has_refused, on_sets};
use test_support::sets::{Set, SetLines};
use test_support::worked_sets::worked;
use tl_county::LinkFault;
use tl_load::LoadFault;
use tl_profile::ProfileFault;

/// A fault that can be out of memory.
trait Reported: Debug + Drop {
    /// Checks whether the fault is out of memory.
    fn is_memory(&self) -> bool;
}

impl Reported for AllocError {
    fn is_memory(&self) -> bool {
        true
    }
}

impl Reported for LoadFault {
    fn is_memory(&self) -> bool {
        matches!(self, LoadFault::Memory)
    }
}

impl Reported for LinkFault {
    fn is_memory(&self) -> bool {
        matches!(self, LinkFault::Memory)
    }
}

impl Reported for ProfileFault {
    fn is_memory(&self) -> bool {
        matches!(self, ProfileFault::Memory)
    }
}

/// The run that ends with this outcome of its call.
fn ended<T: Debug + Drop, E: Reported>(rt: &impl Host, outcome: Result<T, E>) -> Run {
    let refused = has_refused(rt.alloc());
    answered(rt, refused, outcome)
}

/// The run with this result, made after growths were refused or not.
fn answered<T: Debug + Drop, E: Reported>(
    rt: &impl Host,
    refused: bool,
    outcome: Result<T, E>,
) -> Run {
    match &outcome {
        Err(fault) if fault.is_memory() => Run::out_of_memory(refused),
        _ => Run::with(rt.alloc(), refused, &outcome).expect(rt, "there is memory"),
    }
}

/// Refuses each growth of a call on each set, and prints how many there are: if a test fails, the call at fault is the one after the
/// last printed.
fn sweep<R: Host, C: Call<R>>(rt: &R, name: &str, of: Swept<'_>, call: &C) {
    let what = of.what;
    let count = count_on_sets(rt, of, call).expect(rt, name);
    println!(rt; "{name}{what}: {count} growths refused").expect(rt, "a line goes out");
}

/// Checks that the renaming onto the text and the records are the same, whether the county is in an arena or not.
pub(super) fn answer_for_arenas(rt: &impl Host, set: &Set<'_>) {
    let renaming = answer_alike(rt, set, &Canonise, &CanoniseIn);
    renaming.expect(rt, set.row);
    let records = answer_alike(rt, set, &RecordsOf, &RecordsOfIn);
    records.expect(rt, set.row);
}

/// The renaming is the same under a mask too.
fn answer_alike_under_masks(rt: &impl Host, set: &Set<'_>) {
    let renaming = answer_alike(rt, set, &CanoniseMasked, &CanoniseInMasked);
    renaming.expect(rt, set.row);
}

/// Both hold for each set.
fn answer_one_renaming(rt: &impl Host, sets: &[SetLines]) {
    for lines in sets {
        answer_for_arenas(rt, &lines.set());
        answer_alike_under_masks(rt, &lines.set());
    }
}

/// Sweeps the calls of a loader.
pub(super) fn sweep_reading(rt: &impl Host, of: Swept<'_>) {
    sweep(rt, "Feed", of, &reading::Feed);
    sweep(rt, "EndPart", of, &reading::EndPart);
    sweep(rt, "ReadPart", of, &reading::ReadPart);
}

/// Sweeps the calls that link records.
pub(super) fn sweep_linking(rt: &impl Host, of: Swept<'_>) {
    sweep(rt, "Link", of, &linking::Link);
    sweep(rt, "LinkIn", of, &linking::LinkIn);
}

/// Sweeps the calls that admit a county.
pub(super) fn sweep_admitting(rt: &impl Host, of: Swept<'_>) {
    sweep(rt, "Admit", of, &linking::Admit);
    sweep(rt, "AdmitIn", of, &linking::AdmitIn);
}

/// Sweeps the calls that reject nothing.
pub(super) fn sweep_others(rt: &impl Host, of: Swept<'_>) {
    sweep(rt, "NewShape", of, &carrying::NewShape);
    sweep(rt, "Canonise", of, &Canonise);
    sweep(rt, "CanoniseIn", of, &CanoniseIn);
    sweep(rt, "CanoniseMasked", of, &CanoniseMasked);
    sweep(rt, "CanoniseInMasked", of, &CanoniseInMasked);
    sweep(rt, "RecordsOf", of, &RecordsOf);
    sweep(rt, "RecordsOfIn", of, &RecordsOfIn);
    sweep(rt, "CheckRenaming", of, &carrying::CheckRenaming);
    sweep(rt, "CheckMasked", of, &carrying::CheckMasked);
    sweep(rt, "Inverse", of, &carrying::Inverse);
    sweep(rt, "Then", of, &carrying::Then);
    answer_one_renaming(rt, of.sets);
}

#[test]
fn calls_of_layers_report_refused_growths(rt: HostRuntime) {
    let sets = worked(rt.alloc()).expect(&rt, "there is memory");
    let of = on_sets("", &sets);
    sweep_reading(&rt, of);
    sweep_linking(&rt, of);
    sweep_admitting(&rt, of);
    sweep_others(&rt, of);
}
