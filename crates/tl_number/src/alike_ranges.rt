//! Which of the chains that choices can move have the same further address ranges.
//!
//! A choice moves ranges only with their chains. So they are compared once, and for each choice it is only asked which chains it has at
//! a place.

ghost use Rattle.std.specs.Prelude.{IfOk, IsTrue, OnOk, take, ◌≡◌};
ghost use Rattle.arranged_county.specs.Views.{classed_county};
ghost use Rattle.record_groups.specs.CountyGroups.{type_6_by_chain};
ghost use Rattle.tl_number.specs.AlikeRanges.{AreAlike, ranges_towards};
ghost use Rattle.tl_number.specs.ChoiceSearch.{IsArrangedChoice, LeavesChoices, chosen_county};

use crate::choice_search::{ArrangedChoice, ComparedCounty};
use crate::kept_places::open_chains;
use county_chart::{Chart, DirectedChain, Lent, Same, are_same};
use std::alloc::{AllocError, Global};
use tl_profile::ShapeOrder;

/// A directed chain, and its representative: the first one with the same further address ranges.
#[derive(Clone, Copy, Drop)]
pub(crate) struct AlikeChain {
    chain: DirectedChain,
    representative: DirectedChain,
}

/// Returns the first representative with the same further address ranges as a chain, or the chain itself if there is none.
fn find_representative<C: Chart>(
    chart: &C,
    alike: &[AlikeChain],
    directed: DirectedChain,
) -> DirectedChain
    ensures { ranges_towards (C.county chart.now) directed ≡ ranges_towards (C.county chart.now) result }
{
    for pair in alike {
        let known = pair.representative;
        if are_same(&known.ranges(chart), &directed.ranges(chart)) {
            return known;
        }
    }
    directed
}

/// Adds a directed chain with its representative.
fn add_alike<C: Chart>(
    chart: &C,
    alike: &mut Vec<AlikeChain>,
    directed: DirectedChain,
) -> Result<(), AllocError>
    requires { AreAlike (C.county chart.now) alike.old.items }
    ensures { OnOk result (AreAlike (C.county chart.now) alike.new.items) }
{
    let representative = find_representative(chart, alike, directed);
    alike.push(AlikeChain {
        chain: directed,
        representative,
    })?;
    Ok(())
}

/// Returns the chains at open places in both directions, with their representatives.
pub(crate) fn alike_chains<C: Chart>(
    alloc: Global,
    chart: &C,
    shape_order: &ShapeOrder,
) -> Result<Vec<AlikeChain>, AllocError>
    ensures { IfOk result (λ alike. AreAlike (C.county chart.now) alike.items) }
{
    let chains = open_chains(alloc, shape_order.by_shape(), shape_order.open_places())?;
    let mut alike = Vec::new(alloc);
    for chain in &chains {
        let place = chain.place;
        add_alike(
            chart,
            &mut alike,
            DirectedChain {
                place,
                turned: false,
            },
        )?;
        add_alike(
            chart,
            &mut alike,
            DirectedChain {
                place,
                turned: true,
            },
        )?;
    }
    Ok(alike)
}

impl<'a, C: Chart> ComparedCounty<'_, 'a, C> {
    /// Returns the representative that is known of a directed chain, or the chain itself.
    fn representative_of(&self, directed: DirectedChain) -> DirectedChain
        requires { AreAlike (classed_county self.now.classes.now) self.now.alike.now }
        ensures { ranges_towards (classed_county self.now.classes.now) directed ≡ ranges_towards (classed_county self.now.classes.now) result }
    {
        for pair in self.alike {
            let known = pair.chain;
            if known.is_same(&directed) {
                return pair.representative;
            }
        }
        directed
    }

    /// Checks whether two directed chains are the same, or have the same representative, and so the same further address ranges.
    fn are_alike(&self, one: DirectedChain, other: DirectedChain) -> bool
        requires { AreAlike (classed_county self.now.classes.now) self.now.alike.now }
        ensures { IsTrue result → ranges_towards (classed_county self.now.classes.now) one ≡ ranges_towards (classed_county self.now.classes.now) other }
    {
        one.is_same(&other)
            || self
                .representative_of(one)
                .is_same(&self.representative_of(other))
    }

    /// Returns a number of places, from the first on, where two choices have chains with the same further address ranges.
    pub(crate) fn count_alike(
        &self,
        one: &ArrangedChoice<Lent<'a, C>>,
        other: &ArrangedChoice<Lent<'a, C>>,
    ) -> usize
        requires known { LeavesChoices (classed_county self.now.classes.now) self.now.shape_order.now }
        requires alike { AreAlike (classed_county self.now.classes.now) self.now.alike.now }
        requires one { IsArrangedChoice (classed_county self.now.classes.now) self.now.shape_order.now one.now }
        requires other { IsArrangedChoice (classed_county self.now.classes.now) self.now.shape_order.now other.now }
        ensures { take result (type_6_by_chain (chosen_county (classed_county self.now.classes.now) one.now.number))
            ≡ take result (type_6_by_chain (chosen_county (classed_county self.now.classes.now) other.now.number)) }
    {
        let chains = one.county.directed_chains();
        let others = other.county.directed_chains();
        for place in 0..chains.len() {
            let same = self.are_alike(chains[place], others[place]);
            if !same {
                return place;
            }
        }
        chains.len()
    }
}
