//! The choice with the least text.
//!
//! Two choices with the least records of type 1 compare as they do in the small county. It has the chains that choices can move, the
//! landmarks that can differ, and the first other chain with each node, polygon or name of the chains at places still open. So the least
//! choice is looked for there.

ghost use Rattle.std.specs.Prelude.{IfOk, length, ◌<◌, ◌≤◌};
ghost use Rattle.county_chart.specs.CountyRules.{AllKeysContained, polygon_keys, polygons_along};
ghost use Rattle.county_chart.specs.Choices.{choices, most_choices};
ghost use Rattle.county_chart.specs.ShapeOrder.{IsShapeOrder};
ghost use Rattle.tl_number.specs.ChoiceSearch.{IsChosen, LeavesChoices};
ghost use Rattle.tl_number.specs.LeastOnes.{HaveLeastOnes, HaveSameOnes, IsLeastOf};
ghost use Rattle.tl_number.specs.StillOpen.{AreStillOpen, LeavesOpen};
ghost use Rattle.canonical_form.specs.DirectedChains.{HasChainsOf, arrangement_of};
ghost use Rattle.canonical_form.specs.LeastNumber.{IsLeastBelow};
ghost use Rattle.canonical_form.specs.Tidy.{IsLeastChoice};
ghost use Rattle.canonical_form.specs.WholeArrangements.{NamesEachOnce};

use crate::choice_search::least_among_choices;
use crate::county_part::CountyPart;
use crate::kept_places::find_kept;
use crate::numbered_arrangement::NumberedArrangement;
use crate::part_tables::part_tables;
use crate::still_open::StillOpen;
use crate::type_1_choices::least_by_type_1;
use county_chart::{Chart, DirectedChain};
use std::alloc::{AllocError, Global};
use tl_profile::{ShapeOrder, order_by_shape};

/// Returns the number of the choice with the least text among these, which have the same records of type 1.
fn least_in_part<C: Chart>(alloc: Global, part: &C, numbers: &[u64]) -> Result<u64, AllocError>
    requires few { choices (C.county part.now) ≤ most_choices }
    requires sides { AllKeysContained (polygons_along (C.county part.now).chains) (polygon_keys (C.county part.now)) }
    requires some { 0 < length numbers.now }
    requires ones { HaveSameOnes (C.county part.now) numbers.now }
    ensures { IfOk result (IsLeastOf (C.county part.now) numbers.now) }
{
    let order = order_by_shape(alloc, part)?;
    least_among_choices(alloc, part, &order, numbers)
}

/// Returns the number of the choice with the least text, which is among `numbers`. It searches a part of the county, made for the places
/// still open.
fn least_number<C: Chart>(
    alloc: Global,
    chart: &C,
    shape_order: &ShapeOrder,
    still_open: &StillOpen,
    numbers: &[u64],
) -> Result<u64, AllocError>
    requires known { LeavesChoices (C.county chart.now) shape_order.now }
    requires ones { HaveLeastOnes (C.county chart.now) (choices (C.county chart.now)) numbers.now }
    requires left { LeavesOpen shape_order.now.by_shape shape_order.now.places numbers.now still_open.now }
    requires still { AreStillOpen shape_order.now.places still_open.now }
    ensures { IfOk result (IsLeastBelow (C.county chart.now) (choices (C.county chart.now))) }
{
    let kept = find_kept(alloc, chart, shape_order, still_open)?;
    let tables = part_tables(alloc, chart, kept)?;
    let found = least_in_part(alloc, &CountyPart::new(chart, &tables), numbers);
    // Trick: one call for the prover, which otherwise reads the drop of each table.
    drop(tables);
    found
}

/// Returns the choice with the least text. Makes no part of the county if records of type 1 decide.
fn least_choice<C: Chart>(
    alloc: Global,
    chart: &C,
    shape_order: &ShapeOrder,
) -> Result<NumberedArrangement, AllocError>
    requires { LeavesChoices (C.county chart.now) shape_order.now }
    ensures number { IfOk result (λ least. IsLeastBelow (C.county chart.now) (choices (C.county chart.now)) least.number) }
    ensures chosen { IfOk result (IsChosen shape_order.now) }
{
    let mut least = least_by_type_1(alloc, chart, shape_order)?;
    if least.numbers.len() == 1 {
        return Ok(least.first);
    }
    let number = least_number(alloc, chart, shape_order, &least.still_open, &least.numbers)?;
    least.first.choose_again(shape_order, number);
    Ok(least.first)
}

/// Returns a choice with the least text, given the order of the chains by their shapes.
pub(crate) fn least_arrangement<C: Chart>(
    alloc: Global,
    chart: &C,
    shape_order: &ShapeOrder,
) -> Result<Vec<DirectedChain>, AllocError>
    requires order { IsShapeOrder (C.county chart.now) shape_order.now }
    requires few { choices (C.county chart.now) ≤ most_choices }
    requires sides { AllKeysContained (polygons_along (C.county chart.now).chains) (polygon_keys (C.county chart.now)) }
    ensures least { IfOk result (λ arrangement. IsLeastChoice (C.county chart.now) (arrangement_of (C.county chart.now) arrangement.items)) }
    ensures there { IfOk result (λ arrangement. HasChainsOf (C.county chart.now) arrangement.items) }
    ensures once { IfOk result (λ arrangement. NamesEachOnce (C.county chart.now) (arrangement_of (C.county chart.now) arrangement.items)) }
{
    let least = least_choice(alloc, chart, shape_order)?;
    Ok(least.chains)
}
