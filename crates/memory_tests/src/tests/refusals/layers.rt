//! The layer that reports out of memory within a whole call is the one whose growth was refused.

use super::super::Host;
use super::super::comparing::same;
use super::{ended, linking, pieces, print_growths};
use test_support::growths::{Call, Run, growths_on, refuse};
use test_support::sets::{Set, SetLines};
use test_support::worked_sets::worked;
use tigercanon::Fault;

/// The run of a whole call, counted by the layer that reports out of memory: loading, linking, the profile, or the steps after them.
struct NormaliseByLayer;

impl<R: Host> Call<R> for NormaliseByLayer {
    fn run(&self, rt: &R, set: &Set<'_>, asked: usize) -> Run {
        refuse(rt.alloc(), asked);
        let outcome = tigercanon::normalise(rt.alloc(), &[set.bytes]);
        let place = match &outcome {
            Err(Fault::Load(_)) => 0usize,
            Err(Fault::Link(_)) => 1,
            Err(Fault::Profile(_)) => 2,
            _ => 3,
        };
        ended(rt, outcome).counted_at(place)
    }
}

/// How often a call reports out of memory while each of its growths is refused in turn, by the place where it is counted.
fn memory_reports<R: Host, C: Call<R>>(rt: &R, set: &Set<'_>, call: &C) -> [usize; 4] {
    growths_on(rt, set, call).expect(rt, set.row).reported
}

/// Each layer reports as many refusals within a whole call as it does alone. Returns how many linking reports.
fn layers_report_their_refusals(rt: &impl Host, lines: &SetLines) -> usize {
    let set = lines.set();
    let found = memory_reports(rt, &set, &NormaliseByLayer);
    let wanted = [
        memory_reports(rt, &set, &linking::TablesOf)[3],
        memory_reports(rt, &set, &linking::LinkInOrder)[3],
        memory_reports(rt, &set, &linking::OrderByShape)[3],
        memory_reports(rt, &set, &pieces::WriteAdmitted)[3],
    ];
    same(rt, lines.row, &found, &wanted);
    found[1]
}

#[test]
fn want_of_memory_is_reported_by_the_layer_that_was_refused(rt: HostRuntime) {
    let mut count = 0usize;
    let sets = worked(rt.alloc()).expect(&rt, "there is memory");
    for lines in &sets {
        count = count.saturating_add(layers_report_their_refusals(&rt, lines));
    }
    print_growths(&rt, "Linking", " within Normalise", count);
}
