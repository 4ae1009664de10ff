//! Linking and the order of chains within whole calls, with growths refused as requested.

ghost use Rattle.county_chart.specs.Limits.{HoldsWithinLimits};

use super::super::Host;
use super::{answered, ended};
use bumpalo::Bump;
use std::alloc::AllocError;
use test_support::growths::{Call, Run, has_refused, refuse};
use test_support::sets::{Set, county_of, records_of};
use tigercanon::{Fault, normalise_with_renaming};
use tl_cert::Renaming;
use tl_county::{Chart, DirectedChain, LinkedRecords};
use tl_layout::Tables;
use tl_profile::ShapeOrder;

pub(super) struct TablesOf;

impl<R: Host> Call<R> for TablesOf {
    fn run(&self, rt: &R, set: &Set<'_>, asked: usize) -> Run {
        let records = records_of(rt.alloc(), set.bytes).expect(rt, set.row);
        refuse(rt.alloc(), asked);
        ended(rt, Tables::of(rt.alloc(), records))
    }
}

/// Returns the records of a set in tables.
pub(super) fn tables_of(rt: &impl Host, set: &Set<'_>) -> Tables
    ensures { HoldsWithinLimits result }
{
    let records = records_of(rt.alloc(), set.bytes).expect(rt, set.row);
    Tables::of(rt.alloc(), records).expect(rt, set.row)
}

/// The renaming of the set's county that leaves each number as it is.
fn standstill(rt: &impl Host, set: &Set<'_>) -> Renaming {
    let reported = normalise_with_renaming(rt.alloc(), &[set.bytes]).expect(rt, set.row);
    let back = reported.1.inverse().expect(rt, set.row);
    reported.1.then(&back).expect(rt, set.row)
}

/// Checks whether the renaming carries the set's county onto this one.
pub(super) fn carries_onto<C: Chart>(
    rt: &impl Host,
    set: &Set<'_>,
    county: &C,
    renaming: &Renaming,
) -> Result<bool, AllocError> {
    let own = county_of(rt.alloc(), set.bytes).expect(rt, set.row);
    let carried = tl_cert::check(rt.alloc(), &own, county, renaming);
    drop(own);
    carried
}

/// Checks whether the county is the set's, number by number.
pub(super) fn is_of_set<C: Chart>(
    rt: &impl Host,
    set: &Set<'_>,
    county: &C,
) -> Result<bool, AllocError> {
    carries_onto(rt, set, county, &standstill(rt, set))
}

/// The run that builds the county over linked records. The result is whether it is the set's county.
fn built_over(rt: &impl Host, set: &Set<'_>, linked: &LinkedRecords) -> Run {
    let arena = Bump::new(rt.alloc());
    let outcome = linked.county(rt.alloc(), &arena);
    let refused = has_refused(rt.alloc());
    let outcome = match &outcome {
        Ok(county) => is_of_set(rt, set, county).map_err(Fault::from),
        Err(_) => Err(Fault::Memory),
    };
    answered(rt, refused, outcome)
}

/// Linking, and then the county over the linked records.
pub(super) struct LinkInOrder;

impl<R: Host> Call<R> for LinkInOrder {
    fn run(&self, rt: &R, set: &Set<'_>, asked: usize) -> Run {
        let tables = tables_of(rt, set);
        refuse(rt.alloc(), asked);
        match tl_county::link_in_order(rt.alloc(), tables) {
            Ok(linked) => {
                let run = built_over(rt, set, &linked);
                drop(linked);
                run
            }
            Err(fault) => ended::<(), _>(rt, Err(fault)),
        }
    }
}

pub(super) fn chains_by_shape(rt: &impl Host, shape_order: &ShapeOrder) -> Vec<DirectedChain> {
    Vec::from_slice(rt.alloc(), shape_order.by_shape()).expect(rt, "there is memory")
}

pub(super) struct OrderByShape;

impl<R: Host> Call<R> for OrderByShape {
    fn run(&self, rt: &R, set: &Set<'_>, asked: usize) -> Run {
        let county = county_of(rt.alloc(), set.bytes).expect(rt, set.row);
        refuse(rt.alloc(), asked);
        let outcome = tl_profile::order_by_shape(rt.alloc(), &county);
        let refused = has_refused(rt.alloc());
        drop(county);
        let outcome = match outcome {
            Ok(order) => Ok(chains_by_shape(rt, &order)),
            Err(_) => Err(Fault::Memory),
        };
        answered(rt, refused, outcome)
    }
}
