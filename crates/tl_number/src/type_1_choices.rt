//! The choices of a county with the least records of type 1.
//!
//! Records of type 1 come first in a text, and those at the places of one shape depend on the order and the directions of the chains of
//! this shape alone. So they are compared shape by shape: the orders and directions with the least records of type 1 are candidates, and
//! the choice with the least text is among their combinations. Where a shape has one candidate, its chains stay. In the number of a choice,
//! the last shape has the last digit.

ghost use Rattle.std.specs.List.{AllByRecursion, list_any};
ghost use Rattle.std.specs.Ordering.{is_eq, is_gt};
ghost use Rattle.std.specs.Prelude.{IfOk, OnOk, [], cond, drop, get_or, length, map, nat_lt, take, ◌*◌, ◌++◌, ◌+◌, ◌<◌, ◌∷◌, ◌≡◌, ◌≤◌};
ghost use Rattle.canonical_form.specs.MovedChains.{ArePlacesInOrder, AreWithin};
ghost use Rattle.county_chart.specs.Choices.{choices, most_choices};
ghost use Rattle.record_groups.specs.TypeOneOrder.{ones_cmp};
ghost use Rattle.tl_number.specs.ChoiceSearch.{IsChosen, LeavesChoices};
ghost use Rattle.tl_number.specs.LeastOnes.{AreLeastChoices, HaveLeastOnesByDigit, IsDigitApart};
ghost use Rattle.tl_number.specs.ShapeDigits.{ArePlacesApart, combined, ways_of};
ghost use Rattle.tl_number.specs.StillOpen.{AreStillOpen, LeavesOpen};

use crate::numbered_arrangement::NumberedArrangement;
use crate::still_open::StillOpen;
use county_chart::{Chart, OpenPlace};
use record_groups::compare_ones;
use std::alloc::{AllocError, Global};
use std::cmp::Ordering;
use std::mem::swap;
use tl_profile::ShapeOrder;

/// Compares two choices by their records of type 1.
fn compare_by_type_1<C: Chart>(
    chart: &C,
    shape_order: &ShapeOrder,
    one: &NumberedArrangement,
    other: &NumberedArrangement,
) -> Ordering
    requires known { LeavesChoices (C.county chart.now) shape_order.now }
    requires one { IsChosen shape_order.now one.now }
    requires other { IsChosen shape_order.now other.now }
    ensures { result ≡ ones_cmp (C.county chart.now) one.now.number other.now.number }
{
    compare_ones(chart, shape_order.open_places(), &one.chains, &other.chains)
}

/// Stores the least of the digits so far, given how these compare with the next one.
fn keep_least(digits: &mut Vec<u64>, ordering: Ordering, digit: u64) -> Result<(), AllocError>
    ensures { OnOk result (digits.new.items
        ≡ cond (is_gt ordering) (digit ∷ []) (digits.old.items ++ cond (is_eq ordering) (digit ∷ []) [])) }
{
    if ordering.is_gt() {
        digits.clear();
    }
    if ordering.is_ge() {
        digits.push(digit)?;
    }
    Ok(())
}

/// The numbers of the choices with the least records of type 1 by the digits so far, the first of these choices, and the places at which
/// they differ.
#[derive(Drop)]
pub(crate) struct LeastChoices {
    pub(crate) numbers: Vec<u64>,
    pub(crate) first: NumberedArrangement,
    pub(crate) still_open: StillOpen,
}

/// Finds the choices with the least records of type 1 among those whose later digits are the number of `first`. Returns what their next
/// digit, which is below `count`, can be. The first of them replaces `first`.
fn least_digits<C: Chart>(
    alloc: Global,
    chart: &C,
    shape_order: &ShapeOrder,
    count: u64,
    ways: u64,
    first: &mut NumberedArrangement,
) -> Result<Vec<u64>, AllocError>
    requires known { LeavesChoices (C.county chart.now) shape_order.now }
    requires some { 0 < count }
    requires few { count * ways ≤ most_choices }
    requires behind { first.old.number < ways }
    requires chosen { IsChosen shape_order.now first.old }
    ensures digits { IfOk result (λ digits. HaveLeastOnesByDigit (C.county chart.now) ways first.old.number count digits.items) }
    ensures first { IfOk result (λ digits. first.new.number ≡ get_or digits.items 0 0 * ways + first.old.number) }
    ensures chosen { OnOk result (IsChosen shape_order.now first.new) }
{
    let behind = first.number;
    let mut other = NumberedArrangement::new(alloc, shape_order, behind)?;
    let mut digits = Vec::new(alloc);
    digits.push(0)?;
    for digit in 1..count {
        other.choose_again(shape_order, digit * ways + behind);
        let ordering = compare_by_type_1(chart, shape_order, first, &other);
        keep_least(&mut digits, ordering, digit)?;
        if ordering.is_le() {
            continue;
        }
        swap(first, &mut other);
    }
    Ok(digits)
}

/// Adds numbers that have this one before them.
fn add_numbers(all: &mut Vec<u64>, first: u64, numbers: &[u64]) -> Result<(), AllocError>
    requires { AllByRecursion (λ number. first + number < most_choices) numbers.now }
    ensures { OnOk result (all.new.items ≡ all.old.items ++ map (λ number. first + number) numbers.now) }
{
    for number in numbers {
        all.push(first + *number)?;
    }
    Ok(())
}

/// Returns each of the digits before each of the numbers.
fn combine(
    alloc: Global,
    digits: &[u64],
    ways: u64,
    numbers: &[u64],
) -> Result<Vec<u64>, AllocError>
    requires some { 0 < length numbers.now }
    requires few { AllByRecursion (λ digit. AllByRecursion (λ number. digit * ways + number < most_choices) numbers.now) digits.now }
    ensures { IfOk result (λ all. all.items ≡ combined ways digits.now numbers.now) }
{
    let mut all = Vec::new(alloc);
    for digit in digits {
        add_numbers(&mut all, *digit * ways, numbers)?;
    }
    Ok(all)
}

/// Counts the choices that open places leave.
fn count_ways(places: &[OpenPlace]) -> u64
    requires some { 0 < ways_of places.now }
    requires few { ways_of places.now ≤ most_choices }
    ensures { result ≡ ways_of places.now }
{
    let mut ways = 1;
    let mut rest = places;
    while let Some((at, behind)) = rest.split_first() {
        ways *= u64::from(at.alike) * at.ways();
        rest = behind;
    }
    ways
}

/// Checks whether an open place moves chains past this place.
fn reaches(at: OpenPlace, edge: u32) -> bool
    ensures { result ≡ nat_lt edge (at.place + at.alike) }
{
    u64::from(edge) < u64::from(at.place) + u64::from(at.alike)
}

/// Checks whether some open place in `places` moves chains past this place.
fn any_reaches(places: &[OpenPlace], edge: u32) -> bool
    ensures { result ≡ list_any (λ at. nat_lt edge (at.place + at.alike)) places.now }
{
    places.iter().any(|at| reaches(*at, edge))
}

/// Returns the first open place of the last shape among the open places before `end`.
fn last_shape(shape_order: &ShapeOrder, end: usize) -> usize
    requires within { AreWithin (length shape_order.now.by_shape) shape_order.now.places }
    requires in_order { ArePlacesInOrder shape_order.now.places }
    requires some { 0 < end }
    requires end { end ≤ length shape_order.now.places }
    ensures before { result < end }
    ensures apart { ArePlacesApart (length shape_order.now.by_shape) (take result shape_order.now.places) (drop result shape_order.now.places) }
{
    let places = shape_order.open_places();
    for first in (1..end).rev() {
        let past = any_reaches(&places[..first], places[first].place);
        if !past {
            return first;
        }
    }
    0
}

/// Adds one more digit, below `count`, to the numbers of the choices with the least records of type 1. Returns what the digit can be.
fn add_digit<C: Chart>(
    alloc: Global,
    chart: &C,
    shape_order: &ShapeOrder,
    count: u64,
    ways: u64,
    least: &mut LeastChoices,
) -> Result<Vec<u64>, AllocError>
    requires known { LeavesChoices (C.county chart.now) shape_order.now }
    requires some { 0 < count }
    requires few { count * ways ≤ most_choices }
    requires apart { IsDigitApart (C.county chart.now) ways }
    requires least { AreLeastChoices (C.county chart.now) shape_order.now ways least.old }
    ensures least { OnOk result (AreLeastChoices (C.county chart.now) shape_order.now (count * ways) least.new) }
    ensures digits { IfOk result (λ digits. AllByRecursion (λ digit. digit < count) digits.items) }
    ensures numbers { IfOk result (λ digits. least.new.numbers.items ≡ combined ways digits.items least.old.numbers.items) }
    ensures still { least.new.still_open ≡ least.old.still_open }
{
    let digits = least_digits(alloc, chart, shape_order, count, ways, &mut least.first)?;
    least.numbers = combine(alloc, &digits, ways, &least.numbers)?;
    Ok(digits)
}

/// Returns the only choice before any digit is known: the order of shapes, where no place is still open.
fn choice_without_digits(
    alloc: Global,
    shape_order: &ShapeOrder,
) -> Result<LeastChoices, AllocError>
    requires { AreWithin (length shape_order.now.by_shape) shape_order.now.places }
    ensures numbers { IfOk result (λ least. least.numbers.items ≡ 0 ∷ []) }
    ensures first { IfOk result (λ least. least.first.number ≡ 0) }
    ensures chosen { IfOk result (λ least. IsChosen shape_order.now least.first) }
    ensures chains { IfOk result (λ least. least.still_open.by_shape ≡ shape_order.now.by_shape) }
    ensures places { IfOk result (λ least. least.still_open.places ≡ []) }
{
    let mut numbers = Vec::new(alloc);
    numbers.push(0)?;
    let first = NumberedArrangement::new(alloc, shape_order, 0)?;
    let still_open = StillOpen::new(alloc, shape_order)?;
    Ok(LeastChoices {
        numbers,
        first,
        still_open,
    })
}

/// Returns the choices with the least records of type 1.
pub(crate) fn least_by_type_1<C: Chart>(
    alloc: Global,
    chart: &C,
    shape_order: &ShapeOrder,
) -> Result<LeastChoices, AllocError>
    requires { LeavesChoices (C.county chart.now) shape_order.now }
    ensures least { IfOk result (AreLeastChoices (C.county chart.now) shape_order.now (choices (C.county chart.now))) }
    ensures left { IfOk result (λ least. LeavesOpen shape_order.now.by_shape shape_order.now.places least.numbers.items least.still_open) }
    ensures still { IfOk result (λ least. AreStillOpen shape_order.now.places least.still_open) }
{
    let places = shape_order.open_places();
    let mut least = choice_without_digits(alloc, shape_order)?;
    let mut ways = 1;
    let mut end = places.len();
    while end > 0 {
        let first = last_shape(shape_order, end);
        let count = count_ways(&places[first..end]);
        let digits = add_digit(alloc, chart, shape_order, count, ways, &mut least)?;
        least
            .still_open
            .settle(alloc, &places[first..end], &digits)?;
        ways *= count;
        end = first;
    }
    Ok(least)
}
