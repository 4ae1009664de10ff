//! Comparing choices by their records of type 1, which come first in a text. A choice alone determines them, so nothing needs to be
//! arranged. All choices have the same records of type 1, except those among which an open place inserts a chain.

ghost use Rattle.std.specs.Prelude.{Some, length, option_map, ◌+◌, ◌<◌, ◌≡◌, ◌≢◌};
ghost use Rattle.std.specs.Option.{option_cmp};
ghost use Rattle.std.specs.declared.cmp.Ordering.TheVariants.{Equal};
ghost use Rattle.county_chart.specs.DirectedChains.{directed_chain};
ghost use Rattle.county_chart.specs.Packing.{packed_one};
ghost use Rattle.tl_layout.specs.declared.record_type.Record.TheVariants.{One};
ghost use Rattle.record_groups.specs.RecordOrder.{AreTiedBelow, groups_cmp, records_cmp, spelling_cmp};
ghost use Rattle.record_groups.specs.CountyGroups.{type_1_by_chain};
ghost use Rattle.record_groups.specs.TypeOneOrder.{one_at, ones_of};
ghost use Rattle.canonical_form.specs.MovedChains.{AgreeButOpen, IsWithin};
ghost use Rattle.canonical_form.specs.WholeArrangements.{AreWhole, arranged_by};

use crate::group_order::compare_records;
use county_chart::{Chart, DirectedChain, Listed, OpenPlace, Same};
use std::cmp::Ordering;
use tl_layout::Rec1;

/// Returns the record of type 1 of a directed chain, if there is one at a place.
fn record_of_directed<C: Chart>(chart: &C, directed: DirectedChain, place: usize) -> Rec1
    requires directed { directed.place < length (C.county chart.now).chains }
    requires place { place < length (C.county chart.now).chains }
    ensures { Some result ≡ option_map (λ chain. packed_one (place + 1, chain)) (directed_chain (C.county chart.now) directed) }
{
    let points = directed.points(chart);
    let last = points.count() - 1;
    let body = directed.body(chart);
    Rec1::new(place as u64 + 1, body, points.item(0), points.item(last))
}

/// Compares the records of type 1 of two directed chains, if both are at the same place.
fn compare_at<C: Chart>(
    chart: &C,
    one: DirectedChain,
    other: DirectedChain,
    place: usize,
) -> Ordering
    requires one { one.place < length (C.county chart.now).chains }
    requires other { other.place < length (C.county chart.now).chains }
    requires place { place < length (C.county chart.now).chains }
    ensures { result ≡ option_cmp spelling_cmp (one_at (C.county chart.now) one place) (one_at (C.county chart.now) other place) }
{
    if one.is_same(&other) {
        return Ordering::Equal;
    }
    let first = record_of_directed(chart, one, place);
    let second = record_of_directed(chart, other, place);
    compare_records(&first, &second)
}

/// Compares two arrangements of a county by the records of type 1 among which an open place inserts a chain. The records before these
/// must be tied.
fn compare_at_open<C: Chart>(
    chart: &C,
    at: OpenPlace,
    one: &[DirectedChain],
    other: &[DirectedChain],
) -> Ordering
    requires one { AreWhole (C.county chart.now) one.now }
    requires other { AreWhole (C.county chart.now) other.now }
    requires count { length one.now ≡ length other.now }
    requires within { IsWithin (length one.now) at }
    requires before { AreTiedBelow at.place (ones_of (arranged_by (C.county chart.now) one.now)) (ones_of (arranged_by (C.county chart.now) other.now)) }
    ensures tied { result ≡ Equal → AreTiedBelow (at.place + at.alike)
        (ones_of (arranged_by (C.county chart.now) one.now)) (ones_of (arranged_by (C.county chart.now) other.now)) }
    ensures untied { result ≢ Equal → result ≡ records_cmp
        (ones_of (arranged_by (C.county chart.now) one.now)) (ones_of (arranged_by (C.county chart.now) other.now)) }
{
    let first = at.place as usize;
    for place in first..first + at.alike as usize {
        match compare_at(chart, one[place], other[place], place) {
            Ordering::Equal => {}
            unequal => return unequal,
        }
    }
    Ordering::Equal
}

/// Compares two arrangements of a county that agree except at open places, by their records of type 1. `places` are the open places, in
/// their order.
pub fn compare_ones<C: Chart>(
    chart: &C,
    places: &[OpenPlace],
    one: &[DirectedChain],
    other: &[DirectedChain],
) -> Ordering
    requires { AgreeButOpen (C.county chart.now) places.now one.now other.now }
    ensures { result ≡ groups_cmp One (type_1_by_chain (arranged_by (C.county chart.now) one.now)) (type_1_by_chain (arranged_by (C.county chart.now) other.now)) }
{
    let mut rest = places;
    while let Some((at, behind)) = rest.split_first() {
        match compare_at_open(chart, *at, one, other) {
            Ordering::Equal => {}
            unequal => return unequal,
        }
        rest = behind;
    }
    Ordering::Equal
}
