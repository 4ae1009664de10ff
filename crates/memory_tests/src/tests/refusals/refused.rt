//! Rejected sets, by whole calls whose growths of memory are refused too: the reported fault is the same, or it is out of memory.

use super::super::Host;
use super::super::comparing::{same, same_items};
use super::{sweep_admitting, sweep_linking, sweep_whole_calls};
use test_support::growths::on_sets;
use test_support::refused_sets::{Refused, of_clauses, of_lines, of_rules, refused_sets};
use test_support::sets::{Set, SetLines};
use tigercanon::{
    CompareFault, Fault, check, compare, fingerprint, normalise, normalise_with_renaming,
};

/// Each whole call reports this fault of the set, and comparing reports which set it is.
fn each_reports(rt: &impl Host, set: &Set<'_>, fault: Fault) {
    let reported = Some(fault);
    let faults = [
        normalise(rt.alloc(), &[set.bytes]).err(),
        normalise_with_renaming(rt.alloc(), &[set.bytes]).err(),
        fingerprint(rt.alloc(), &[set.bytes]).err(),
    ];
    same(rt, set.row, &faults, &[reported; 3]);
    let in_set = Some(CompareFault::In { set: 2, fault });
    let compared = compare(rt.alloc(), &[], &[set.bytes]).err();
    same(rt, set.row, &compared, &in_set);
}

/// Each whole call rejects the set as its row states.
fn is_refused(rt: &impl Host, set: &Set<'_>) {
    let fault = check(rt.alloc(), &[set.bytes]).expect_err(rt, set.row);
    let line = format!(in rt.alloc(); "{}", fault).expect(rt, "there is memory");
    let wanted = format!(in rt.alloc(); "refused {}", set.row).expect(rt, "there is memory");
    same_items(rt, set.row, line.as_bytes(), wanted.as_bytes());
    each_reports(rt, set, fault);
}

/// The sets of this table. Each is rejected as its row states, even where growths are refused.
fn refused_by_calls(rt: &impl Host, what: &str, rows: &[Refused]) -> Vec<SetLines> {
    let sets = refused_sets(rt.alloc(), rows).expect(rt, "there is memory");
    for lines in &sets {
        is_refused(rt, &lines.set());
    }
    sweep_whole_calls(rt, on_sets(what, &sets));
    sets
}

#[test]
fn rejected_sets_are_reported_where_growths_are_refused(rt: HostRuntime) {
    refused_by_calls(&rt, " of faulty lines", &of_lines());
    let what = " of broken rules";
    let sets = refused_by_calls(&rt, what, &of_rules());
    sweep_linking(&rt, on_sets(what, &sets));
    let what = " of broken clauses";
    let sets = refused_by_calls(&rt, what, &of_clauses());
    sweep_admitting(&rt, on_sets(what, &sets));
}
