//! Searching the choice of a county with the least text.
//!
//! It is among choices with the same records of type 1. So two choices are arranged, and compared by the records of the other types.
//! The lesser one stays arranged for the next comparison.

ghost use Rattle.std.specs.Prelude.{IfOk, cond, length, ◌<◌, ◌≡◌};
ghost use Rattle.std.specs.Ordering.{is_gt};
ghost use Rattle.std.specs.declared.cmp.Ordering.TheVariants.{Equal};
ghost use Rattle.tl_number.specs.ChoiceSearch.{IsArrangedChoice, LeavesChoices, lesser_choice};
ghost use Rattle.canonical_form.specs.LeastNumber.{choices_cmp};
ghost use Rattle.record_groups.specs.TypeOneOrder.{ones_cmp};
ghost use Rattle.tl_number.specs.AlikeRanges.{AreAlike};
ghost use Rattle.tl_number.specs.LeastOnes.{HaveSameOnes, IsLeastOf};
ghost use Rattle.arranged_county.specs.Views.{classed_county};

use crate::alike_ranges::{AlikeChain, alike_chains};
use crate::arranged_order::compare_arranged;
use crate::numbered_arrangement::NumberedArrangement;
use arranged_county::{Arranged, Classes, arrange_in_classes};
use county_chart::{Chart, Lent};
use std::alloc::{AllocError, Global};
use std::cmp::Ordering;
use tl_profile::ShapeOrder;

/// A choice, by its number, and its county.
#[derive(Drop)]
pub(crate) struct ArrangedChoice<C: Chart> {
    pub(crate) number: u64,
    pub(crate) county: Arranged<C>,
}

/// A county whose choices are compared: its names and landmarks in classes, the order of its chains by their shapes, and which of its
/// movable chains have the same ranges.
#[derive(Drop)]
pub(crate) struct ComparedCounty<'s, 'a, C: Chart> {
    pub(crate) classes: &'s Classes<'a, C>,
    pub(crate) shape_order: &'s ShapeOrder,
    pub(crate) alike: &'s [AlikeChain],
}

/// Returns the lesser of two values, given how they compare: `other` if `one` comes after it.
fn lesser<V: Drop>(ordering: Ordering, one: V, other: V) -> V
    ensures { result ≡ cond (is_gt ordering) other one }
{
    if ordering.is_gt() { other } else { one }
}

impl<'a, C: Chart> ComparedCounty<'_, 'a, C> {
    /// Returns the choice with this number, arranged.
    fn arrange(&self, alloc: Global, number: u64) -> Result<ArrangedChoice<Lent<'a, C>>, AllocError>
        requires { LeavesChoices (classed_county self.now.classes.now) self.now.shape_order.now }
        ensures number { IfOk result (λ choice. choice.number ≡ number) }
        ensures arranged { IfOk result (IsArrangedChoice (classed_county self.now.classes.now) self.now.shape_order.now) }
    {
        let classes = self.classes;
        let choice = NumberedArrangement::new(alloc, self.shape_order, number)?;
        let chart = Lent::new(classes.chart());
        let county = arrange_in_classes(alloc, chart, classes, choice.chains)?;
        Ok(ArrangedChoice { number, county })
    }

    /// Compares two choices with the same records of type 1.
    fn compare(
        &self,
        one: &ArrangedChoice<Lent<'a, C>>,
        other: &ArrangedChoice<Lent<'a, C>>,
    ) -> Ordering
        requires known { LeavesChoices (classed_county self.now.classes.now) self.now.shape_order.now }
        requires alike { AreAlike (classed_county self.now.classes.now) self.now.alike.now }
        requires one { IsArrangedChoice (classed_county self.now.classes.now) self.now.shape_order.now one.now }
        requires other { IsArrangedChoice (classed_county self.now.classes.now) self.now.shape_order.now other.now }
        requires ones { ones_cmp (classed_county self.now.classes.now) one.now.number other.now.number ≡ Equal }
        ensures { result ≡ choices_cmp (classed_county self.now.classes.now) one.now.number other.now.number }
    {
        let alike = self.count_alike(one, other);
        compare_arranged(&one.county, &other.county, alike)
    }

    /// Returns the lesser of a choice and the choice with this number, which has the same records of type 1.
    fn lesser_with(
        &self,
        alloc: Global,
        one: ArrangedChoice<Lent<'a, C>>,
        number: u64,
    ) -> Result<ArrangedChoice<Lent<'a, C>>, AllocError>
        requires known { LeavesChoices (classed_county self.now.classes.now) self.now.shape_order.now }
        requires alike { AreAlike (classed_county self.now.classes.now) self.now.alike.now }
        requires arranged { IsArrangedChoice (classed_county self.now.classes.now) self.now.shape_order.now one }
        requires ones { ones_cmp (classed_county self.now.classes.now) one.number number ≡ Equal }
        ensures number { IfOk result (λ least. least.number ≡ lesser_choice (classed_county self.now.classes.now) one.entry.number number) }
        ensures arranged { IfOk result (IsArrangedChoice (classed_county self.now.classes.now) self.now.shape_order.now) }
    {
        match self.arrange(alloc, number) {
            Ok(other) => {
                let ordering = self.compare(&one, &other);
                Ok(lesser(ordering, one, other))
            }
            Err(error) => {
                // Trick: one call for the prover, which otherwise reads the drop of each table.
                drop(one);
                Err(error)
            }
        }
    }

    /// Returns the number of the choice with the least text among these, which have the same records of type 1.
    fn search_least(&self, alloc: Global, numbers: &[u64]) -> Result<u64, AllocError>
        requires known { LeavesChoices (classed_county self.now.classes.now) self.now.shape_order.now }
        requires alike { AreAlike (classed_county self.now.classes.now) self.now.alike.now }
        requires some { 0 < length numbers.now }
        requires ones { HaveSameOnes (classed_county self.now.classes.now) numbers.now }
        ensures { IfOk result (IsLeastOf (classed_county self.now.classes.now) numbers.now) }
    {
        let mut least = self.arrange(alloc, numbers[0])?;
        for place in 1..numbers.len() {
            least = self.lesser_with(alloc, least, numbers[place])?;
        }
        let number = least.number;
        // Trick: one call for the prover, which otherwise reads the drop of each table.
        drop(least);
        Ok(number)
    }
}

/// Returns the number of the choice with the least text among these, which have the same records of type 1.
pub(crate) fn least_among_choices<C: Chart>(
    alloc: Global,
    chart: &C,
    shape_order: &ShapeOrder,
    numbers: &[u64],
) -> Result<u64, AllocError>
    requires known { LeavesChoices (C.county chart.now) shape_order.now }
    requires some { 0 < length numbers.now }
    requires ones { HaveSameOnes (C.county chart.now) numbers.now }
    ensures { IfOk result (IsLeastOf (C.county chart.now) numbers.now) }
{
    let alike = alike_chains(alloc, chart, shape_order)?;
    let classes = Classes::for_many(alloc, chart)?;
    let county = ComparedCounty {
        classes: &classes,
        shape_order,
        alike: &alike,
    };
    let least = county.search_least(alloc, numbers);
    // Trick: one call for the prover, which otherwise reads the drop of each table.
    drop(classes);
    least
}
