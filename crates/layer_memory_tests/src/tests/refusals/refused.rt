//! Rejected sets, by the calls of the layer that rejects them, whose growths of memory are refused too: the reported fault is the same,
//! or it is out of memory.

use super::super::comparing::same_items;
use super::super::{Host, county_of};
use super::{sweep_admitting, sweep_linking, sweep_reading};
use bumpalo::Bump;
use std::fmt::Display;
use test_support::growths::on_sets;
use test_support::refused_sets::{of_clauses, of_lines, of_rules, refused_sets};
use test_support::sets::{Set, county_in_of, records_of};
use tl_county::{link, link_in};
use tl_profile::{admit, admit_in};

/// The call rejects the set as its row states.
fn is_refused<T: Drop, E: Display + Drop>(rt: &impl Host, row: &str, outcome: Result<T, E>) {
    let fault = outcome.err().expect(rt, row);
    let line = format!(in rt.alloc(); "{fault}").expect(rt, "there is memory");
    let wanted = format!(in rt.alloc(); "refused {row}").expect(rt, "there is memory");
    same_items(rt, row, line.as_bytes(), wanted.as_bytes());
}

/// The records of the set don't fit together, by both calls that link them.
fn is_not_linked(rt: &impl Host, set: &Set<'_>) {
    let arena = Bump::new(rt.alloc());
    let records = records_of(rt.alloc(), set.bytes).expect(rt, set.row);
    is_refused(rt, set.row, link(rt.alloc(), records));
    let records = records_of(rt.alloc(), set.bytes).expect(rt, set.row);
    is_refused(rt, set.row, link_in(rt.alloc(), &arena, records));
}

/// The county of the set is outside the profile, by both calls that admit it.
fn is_kept_out(rt: &impl Host, set: &Set<'_>) {
    let arena = Bump::new(rt.alloc());
    let county = county_of(rt, set.row, set.bytes);
    is_refused(rt, set.row, admit(rt.alloc(), county));
    let county = county_in_of(rt.alloc(), &arena, set.bytes).expect(rt, set.row);
    is_refused(rt, set.row, admit_in(rt.alloc(), county));
}

#[test]
fn faulty_lines_are_reported_where_growths_are_refused(rt: HostRuntime) {
    let sets = refused_sets(rt.alloc(), &of_lines()).expect(&rt, "there is memory");
    for lines in &sets {
        is_refused(&rt, lines.row, records_of(rt.alloc(), &lines.bytes));
    }
    sweep_reading(&rt, on_sets(" of faulty lines", &sets));
}

#[test]
fn broken_rules_are_reported_where_growths_are_refused(rt: HostRuntime) {
    let sets = refused_sets(rt.alloc(), &of_rules()).expect(&rt, "there is memory");
    for lines in &sets {
        is_not_linked(&rt, &lines.set());
    }
    sweep_linking(&rt, on_sets(" of broken rules", &sets));
}

#[test]
fn broken_clauses_are_reported_where_growths_are_refused(rt: HostRuntime) {
    let sets = refused_sets(rt.alloc(), &of_clauses()).expect(&rt, "there is memory");
    for lines in &sets {
        is_kept_out(&rt, &lines.set());
    }
    sweep_admitting(&rt, on_sets(" of broken clauses", &sets));
}
