//! Growths of memory that are refused in whole calls, and in the steps that they are made of, each as a call of its layer. The calls that
//! only users of a layer make are in `layer_memory_tests`; `test_support::growths` says how growths are refused.
//!
//! These sets are swept:
//!
//! - the accepted sets of `test_support`, by all calls: streets, shape points, names, a record of each type, and twins in one
//!   group and in two
//! - sets that are rejected, one for each refusal but 7 (`refused.rt`), by the whole calls, and by the step that rejects them
//! - a record of each type, twins, and sets that a mask changes (`under_masks.rt`), by the calls that take a mask, under each mask
//!   that leaves out something. All others are swept under the mask that leaves out everything
//! - a made map of 2,000 chains (`many.rt`), by all calls
//!
//! Trick: each call is a type, whose function runs that call alone. A function that named all calls would take long to prove, and so would
//! each function above it. A function that is passed on by its name is proved three times more, as `Fn`, `FnMut` and `FnOnce`.

mod layers;
mod linking;
mod over_linked;
mod pieces;
mod refused;
mod under_masks;
pub(super) mod whole;

use super::Host;
use super::comparing::same;
pub(super) use pieces::Canonise;
use std::fmt::Debug;
use test_support::growths::{
    Call, Run, Swept, answer_alike, count_on_sets, growths_on, has_refused, on_sets,
};
use test_support::sets::{Set, SetLines};
use test_support::worked_sets::worked;
use tigercanon::{Fault, check};
use tl_county::LinkFault;
use tl_load::LoadFault;
use tl_profile::ProfileFault;
pub(super) use whole::NormaliseWithRenaming;

/// Checks whether the fault is out of memory.
pub(super) fn is_memory(fault: Fault) -> bool {
    matches!(
        fault,
        Fault::Memory
            | Fault::Load(LoadFault::Memory)
            | Fault::Link(LinkFault::Memory)
            | Fault::Profile(ProfileFault::Memory)
    )
}

/// The run that ends with this outcome of its call.
fn ended<T: Debug + Drop, E: Into<Fault>>(rt: &impl Host, outcome: Result<T, E>) -> Run {
    let refused = has_refused(rt.alloc());
    answered(rt, refused, outcome.map_err(E::into))
}

/// The run with this result, made after growths were refused or not.
fn answered<T: Debug + Drop>(rt: &impl Host, refused: bool, outcome: Result<T, Fault>) -> Run {
    match &outcome {
        Err(fault) if is_memory(*fault) => Run::out_of_memory(refused),
        _ => Run::with(rt.alloc(), refused, &outcome).expect(rt, "there is memory"),
    }
}

/// Prints how many growths of a call were refused: if a test fails, the call at fault is the one after the last printed.
fn print_growths(rt: &impl Host, call: &str, what: &str, count: usize) {
    println!(rt; "{call}{what}: {count} growths refused").expect(rt, "a line goes out");
}

/// Refuses each growth of a call on each set, and prints how many there are.
fn sweep<R: Host, C: Call<R>>(rt: &R, name: &str, of: Swept<'_>, call: &C) {
    let count = count_on_sets(rt, of, call).expect(rt, name);
    print_growths(rt, name, of.what, count);
}

/// The same for a call that compares a set with itself. If the set is accepted, as many faults are reported for set 2 as for set 1;
/// if it is rejected, set 2 is never reached.
fn sweep_twice<R: Host, C: Call<R>>(rt: &R, name: &str, of: Swept<'_>, call: &C) {
    let mut count = 0usize;
    for lines in of.sets {
        let found = growths_on(rt, &lines.under(of.mask), call).expect(rt, lines.row);
        let accepted = usize::from(check(rt.alloc(), &[&lines.bytes]).is_ok());
        let wanted = found.reported[0].saturating_mul(accepted);
        same(rt, lines.row, &found.reported[1], &wanted);
        count = count.saturating_add(found.count);
    }
    print_growths(rt, name, of.what, count);
}

/// The renaming onto the text is the same, whether a call returns it with the text or with the county.
fn answer_one_renaming(rt: &impl Host, sets: &[SetLines]) {
    for lines in sets {
        let found = answer_alike(rt, &lines.set(), &NormaliseWithRenaming, &Canonise);
        found.expect(rt, lines.row);
    }
}

pub(super) fn sweep_whole_calls(rt: &impl Host, of: Swept<'_>) {
    sweep(rt, "Respell", of, &whole::Respell);
    sweep(rt, "Normalise", of, &whole::Normalise);
    sweep(rt, "NormaliseWithRenaming", of, &NormaliseWithRenaming);
    sweep(rt, "NormaliseTo", of, &whole::NormaliseTo);
    sweep(rt, "Fingerprint", of, &whole::Fingerprint);
    sweep(rt, "Check", of, &whole::Check);
    sweep_twice(rt, "CompareWithItself", of, &whole::CompareWithItself);
    sweep(rt, "CompareWithStreet", of, &whole::CompareWithStreet);
    sweep(rt, "CompareStreetWith", of, &whole::CompareStreetWith);
    sweep_twice(rt, "AreOneMap", of, &whole::AreOneMap);
    sweep_masked_calls(rt, of);
}

/// Sweeps the whole calls that take a mask.
fn sweep_masked_calls(rt: &impl Host, of: Swept<'_>) {
    sweep(rt, "NormaliseMasked", of, &whole::NormaliseMasked);
    let with_renaming = &whole::NormaliseWithRenamingMasked;
    sweep(rt, "NormaliseWithRenamingMasked", of, with_renaming);
    sweep(rt, "NormaliseToMasked", of, &whole::NormaliseToMasked);
    sweep(rt, "FingerprintMasked", of, &whole::FingerprintMasked);
    sweep_twice(rt, "CompareMasked", of, &whole::CompareMasked);
    sweep_twice(rt, "AreOneMapMasked", of, &whole::AreOneMapMasked);
}

fn sweep_linking(rt: &impl Host, of: Swept<'_>) {
    sweep(rt, "LinkInOrder", of, &linking::LinkInOrder);
}

fn sweep_admitting(rt: &impl Host, of: Swept<'_>) {
    sweep(rt, "AdmitLinked", of, &over_linked::AdmitLinked);
}

pub(super) fn sweep_steps(rt: &impl Host, of: Swept<'_>) {
    sweep_linking(rt, of);
    sweep_admitting(rt, of);
    sweep(rt, "TablesOf", of, &linking::TablesOf);
    sweep(rt, "OrderByShape", of, &linking::OrderByShape);
    sweep(rt, "Arrange", of, &pieces::ArrangeChains);
    sweep(rt, "WriteAdmitted", of, &pieces::WriteAdmitted);
    answer_one_renaming(rt, of.sets);
}

#[test]
fn whole_calls_report_refused_growths(rt: HostRuntime) {
    let sets = worked(rt.alloc()).expect(&rt, "there is memory");
    sweep_whole_calls(&rt, on_sets("", &sets));
}

#[test]
fn steps_of_whole_calls_report_refused_growths(rt: HostRuntime) {
    let sets = worked(rt.alloc()).expect(&rt, "there is memory");
    sweep_steps(&rt, on_sets("", &sets));
}
