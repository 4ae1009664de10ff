//! The names of a county in their new order: by their 43 bytes, and then by where chains first use them.
//!
//! Each use belongs to one name. If two names have the same content, the name that chains use first comes first, and one that no chain uses
//! comes before both. A rank for each name is therefore enough, and no list of uses is made. Names with the same content are in one class,
//! so ordering names compares only numbers.

ghost use Rattle.std.specs.Ordering.{nat_cmp};
ghost use Rattle.std.specs.Prelude.{IfOk, IsPermutation, filter_map, length, map, slice_get, ◌<◌, ◌^◌, ◌≡◌};
ghost use Rattle.county_chart.specs.CountyRules.{feats};
ghost use Rattle.canonical_form.specs.WholeArrangements.{AreReadAt, AreWhole};
ghost use Rattle.canonical_form.specs.Arrangement.{names_in_order};
ghost use Rattle.canonical_form.specs.DirectedChains.{arrangement_of};
ghost use Rattle.canonical_form.specs.Growth.{first_seen};
ghost use Rattle.arranged_county.specs.NameItems.{AreSortedNames, feats_along_arrangement, name_key_at, rank_of};
ghost use Rattle.arranged_county.specs.ViewFacts.{MatchesNames};
ghost use Rattle.arranged_county.specs.Views.{classed_county};

use crate::arranged_tables::NameTables;
use crate::content_classes::{ClassedPlace, Classes};
use crate::numbers::Interner;
use county_chart::{Chart, DirectedChain};
use ordered_lists::{bring_close, sort_keys};
use std::alloc::{AllocError, Global};

/// What orders names: the class, the number by first use, counted from 1, or 0 if no chain uses the name, and the place in the ascending list
/// of FEATs, counted from 0.
type NameKey = (u32, (u64, u32));

/// Returns the FEATs that chains list, in the order of their first appearance along these directed chains, in a table with this many
/// slots.
fn number_uses<C: Chart>(
    alloc: Global,
    chart: &C,
    arrangement: &[DirectedChain],
    slots: usize,
) -> Result<Interner<u32>, AllocError>
    ensures { IfOk result (λ feats. feats ≡ first_seen nat_cmp (feats_along_arrangement (C.county chart.now) arrangement.now)) }
{
    let mut feats = Interner::with_marks(alloc, slots)?;
    let mut rest = arrangement;
    while let Some((directed, later)) = rest.split_first() {
        feats.see_all(&directed.feats(chart))?;
        rest = later;
    }
    Ok(feats)
}

/// Returns the number of a name by its first use, counted from 1, or 0 if no chain uses it.
fn rank(uses: &Interner<u32>, feat: Option<u32>) -> usize
    ensures { result ≡ rank_of uses.now feat }
{
    match feat {
        Some(feat) => match uses.place(feat) {
            Some(place) => place + 1,
            None => 0,
        },
        None => 0,
    }
}

/// Returns the key of a name, given its class and its place.
fn name_key<C: Chart>(chart: &C, uses: &Interner<u32>, classed: ClassedPlace) -> NameKey
    ensures { result ≡ name_key_at (C.county chart.now) uses.now classed }
{
    let (class, place) = classed;
    (
        class,
        (rank(uses, chart.feat_at(place as usize)) as u64, place),
    )
}

/// Returns the keys of names, given their classes and their places.
fn name_keys<C: Chart>(
    alloc: Global,
    chart: &C,
    uses: &Interner<u32>,
    classed: &[ClassedPlace],
) -> Result<Vec<NameKey>, AllocError>
    ensures { IfOk result (λ keys. keys.items ≡ map (name_key_at (C.county chart.now) uses.now) classed.now) }
{
    classed
        .iter()
        .map(|name| name_key(chart, uses, *name))
        .collect(alloc)
}

/// Returns a number that is in the order of the keys of names, unless it overflows. Ranks are less than `ranks`.
fn near_number(key: NameKey, ranks: u64) -> u64 {
    let (class, (rank, _)) = key;
    u64::from(class).wrapping_mul(ranks).wrapping_add(rank)
}

/// Brings keys of names close to their order. Ranks are less than `ranks`.
fn bring_close_by_rank(alloc: Global, keys: &mut Vec<NameKey>, ranks: u64) -> Result<(), AllocError>
    ensures { IsPermutation keys.old.items keys.new.items }
{
    let numbers = keys
        .iter()
        .map(|key| near_number(*key, ranks))
        .collect(alloc)?;
    bring_close(keys, numbers)
}

/// Returns the places of names, one after another.
fn places_of(alloc: Global, keys: &[NameKey]) -> Result<Vec<u32>, AllocError>
    ensures { IfOk result (λ places. places.items ≡ map (λ key. key.1.1) keys.now) }
{
    keys.iter().map(|key| key.1.1).collect(alloc)
}

/// Returns the places of names in the order of their keys. Ranks are less than `ranks`.
fn sorted_places(alloc: Global, keys: Vec<NameKey>, ranks: u64) -> Result<Vec<u32>, AllocError>
    ensures { IfOk result (λ places. AreSortedNames keys.items places.items) }
{
    let mut keys = keys;
    bring_close_by_rank(alloc, &mut keys, ranks)?;
    sort_keys::<NameKey>(&mut keys);
    places_of(alloc, &keys)
}

/// Returns the FEATs at places, one after another.
fn feats_there<C: Chart>(alloc: Global, chart: &C, places: &[u32]) -> Result<Vec<u32>, AllocError>
    ensures { IfOk result (λ numbers. numbers.items ≡ filter_map (slice_get (feats (C.county chart.now))) places.now) }
{
    places
        .iter()
        .filter_map(|place| chart.feat_at(*place as usize))
        .collect(alloc)
}

/// Returns the places of the names of a county in their new order.
fn places_in_order<C: Chart>(
    alloc: Global,
    classes: &Classes<'_, C>,
    arrangement: &[DirectedChain],
) -> Result<Vec<u32>, AllocError>
    requires { AreWhole (classed_county classes.now) arrangement.now }
    ensures { IfOk result (λ places. AreReadAt (classed_county classes.now).names places.items
        (names_in_order (classed_county classes.now) (arrangement_of (classed_county classes.now) arrangement.now))) }
{
    let chart = classes.chart;
    let uses = number_uses(alloc, chart, arrangement, classes.slots.names)?;
    let keys = name_keys(alloc, chart, &uses, &classes.names)?;
    let ranks = uses.len() as u64 + 1;
    sorted_places(alloc, keys, ranks)
}

/// Returns the names of a county in this arrangement. There are fewer than 2^32.
pub(crate) fn arrange_names<C: Chart>(
    alloc: Global,
    classes: &Classes<'_, C>,
    arrangement: &[DirectedChain],
) -> Result<NameTables, AllocError>
    requires whole { AreWhole (classed_county classes.now) arrangement.now }
    requires few { length (classed_county classes.now).names < 2 ^ 32 }
    ensures { IfOk result (MatchesNames (classed_county classes.now) arrangement.now) }
{
    let places = places_in_order(alloc, classes, arrangement)?;
    let numbers = feats_there(alloc, classes.chart, &places)?;
    let feats = Interner::of_distinct(alloc, &numbers, classes.slots.names)?;
    Ok(NameTables { feats, places })
}
