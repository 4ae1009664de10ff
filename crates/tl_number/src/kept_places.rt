//! The kept chains: comparing only them compares the choices of a county.
//!
//! The remaining choices can differ at places still open, and in the numbers of nodes, polygons and names that the chains there have. These
//! keys are wanted, and so are the polygons of kept landmarks. The chains at all open places are kept, and for each wanted key the first
//! chain that has it where all remaining choices have the same chain. Of the names of a kept chain only the wanted ones are kept.

ghost use Rattle.std.specs.Prelude.{IfOk, OnOk, flat_map, length, ◌++◌, ◌+◌, ◌<◌, ◌||◌, ◌≡◌};
ghost use Rattle.canonical_form.specs.MovedChains.{AreWithin};
ghost use Rattle.canonical_form.specs.DirectedChains.{HasChainsOf};
ghost use Rattle.canonical_form.specs.Growth.{first_seen, first_seen_after};
ghost use Rattle.county_chart.specs.CountyRules.{chain_polygons};
ghost use Rattle.county_chart.specs.PolygonKeys.{key_cmp};
ghost use Rattle.ordered_lists.specs.Places.{at_places};
ghost use Rattle.record_groups.specs.Groups.{grouped};
ghost use Rattle.tl_number.specs.ChoiceSearch.{LeavesChoices};
ghost use Rattle.tl_number.specs.KeptLandmarks.{kept_landmarks, kept_lands, link_keys_at};
ghost use Rattle.tl_number.specs.KeptPlaces.{AreSameKeys, AreSearched};
ghost use Rattle.tl_number.specs.KeysAlong.{keys_along, open_among};
ghost use Rattle.tl_number.specs.SmallCounty.{is_kept, kept_tlids, wanted_feats};
ghost use Rattle.std.specs.Ordering.{nat_cmp};

use crate::kept_landmarks::{LinkKeys, kept_landmarks};
use crate::key_groups::{FeatKeys, NodeKeys, PolygonKeys};
use crate::key_search::{KeySearch, search_place};
use crate::open_keys::{is_open_at, keys_of};
use crate::part_tables::keys_at;
use crate::still_open::StillOpen;
use arranged_county::{Interner, both};
use county_chart::{Chart, DirectedChain, Lands, PolygonKey};
use std::alloc::{AllocError, Global};
use tl_profile::{OpenPlace, ShapeOrder};

/// The kept chains and landmarks of a county, and the names that kept chains keep.
#[derive(Drop)]
pub(crate) struct Kept {
    /// The TLIDs of the chains, in the order of shapes.
    pub(crate) tlids: Vec<u64>,
    /// The FEATs of the names that are wanted.
    pub(crate) names: Interner<u32>,
    /// The LANDs of the landmarks, ascending.
    pub(crate) lands: Vec<u64>,
}

/// Sees the polygons of the landmarks at these places.
fn see_links<C: Chart>(
    chart: &C,
    landmarks: &[u32],
    polygons: &mut Interner<PolygonKey>,
) -> Result<(), AllocError>
    ensures { OnOk result (polygons.new ≡ first_seen_after key_cmp polygons.old (flat_map (link_keys_at (C.county chart.now)) landmarks.now)) }
{
    for landmark in landmarks {
        let place = *landmark as usize;
        polygons.see_all(&LinkKeys { chart, place })?;
    }
    Ok(())
}

/// Returns the chains of an arrangement that are at open places.
pub(crate) fn open_chains(
    alloc: Global,
    by_shape: &[DirectedChain],
    places: &[OpenPlace],
) -> Result<Vec<DirectedChain>, AllocError>
    ensures { IfOk result (λ chains. chains.items ≡ at_places by_shape.now (open_among places.now (length by_shape.now))) }
{
    let mut chains = Vec::new(alloc);
    for place in 0..by_shape.len() {
        let opened = is_open_at(places, place);
        if !opened {
            continue;
        }
        chains.push(by_shape[place])?;
    }
    Ok(chains)
}

/// Returns the wanted polygons: those on the sides of these chains, and those of the landmarks at these places.
fn wanted_polygons<C: Chart>(
    alloc: Global,
    chart: &C,
    landmarks: &[u32],
    chains: &[DirectedChain],
) -> Result<Interner<PolygonKey>, AllocError>
    ensures { IfOk result (λ wanted. wanted ≡ first_seen key_cmp (grouped (keys_along chain_polygons (C.county chart.now) chains.now)
        ++ flat_map (link_keys_at (C.county chart.now)) landmarks.now)) }
{
    let mut polygons = keys_of(alloc, &PolygonKeys(chart, chains))?;
    see_links(chart, landmarks, &mut polygons)?;
    Ok(polygons)
}

/// What is looked for along the order of shapes.
#[derive(Drop)]
pub(crate) struct Searches {
    pub(crate) nodes: KeySearch<u64>,
    pub(crate) polygons: KeySearch<PolygonKey>,
    pub(crate) names: KeySearch<u32>,
}

/// Searches for the keys whose numbers can differ between the remaining choices, at the first place.
fn searches_for<C: Chart>(
    alloc: Global,
    chart: &C,
    still_open: &StillOpen,
    landmarks: &[u32],
) -> Result<Searches, AllocError>
    requires { landmarks.now ≡ kept_landmarks (C.county chart.now) still_open.now }
    ensures { IfOk result (AreSearched (C.county chart.now) still_open.now 0) }
{
    let chains = open_chains(alloc, still_open.by_shape(), still_open.open_places())?;
    let nodes = keys_of(alloc, &NodeKeys(chart, &chains))?;
    let polygons = wanted_polygons(alloc, chart, landmarks, &chains)?;
    let names = keys_of(alloc, &FeatKeys(chart, &chains))?;
    Ok(Searches {
        nodes: KeySearch::new(alloc, nodes),
        polygons: KeySearch::new(alloc, polygons),
        names: KeySearch::new(alloc, names),
    })
}

/// Checks whether a chain is kept: its place is open, or has a new node, polygon or name.
fn any_of(at_open: bool, node: bool, polygon: bool, name: bool) -> bool
    ensures { result ≡ (at_open || (node || (polygon || name))) }
{
    at_open || node || polygon || name
}

/// Checks whether the chain at a place of the order of shapes is kept. The searches go on to the next place.
fn keeps_place<C: Chart>(
    chart: &C,
    shape_order: &ShapeOrder,
    still_open: &StillOpen,
    place: usize,
    searches: &mut Searches,
) -> Result<bool, AllocError>
    requires within { place < length still_open.now.by_shape }
    requires searches { AreSearched (C.county chart.now) still_open.now place searches.old }
    ensures kept { IfOk result (λ kept. kept ≡ is_kept (C.county chart.now) shape_order.now still_open.now place) }
    ensures searches { OnOk result (AreSearched (C.county chart.now) still_open.now (place + 1) searches.new) }
{
    let places = still_open.open_places();
    let chains = still_open.by_shape();
    let node = search_place(places, &NodeKeys(chart, chains), place, &mut searches.nodes)?;
    let polygon = search_place(
        places,
        &PolygonKeys(chart, chains),
        place,
        &mut searches.polygons,
    )?;
    let name = search_place(places, &FeatKeys(chart, chains), place, &mut searches.names)?;
    let at_open = is_open_at(shape_order.open_places(), place);
    Ok(any_of(at_open, node, polygon, name))
}

/// Returns the TLIDs of the chains that are kept, by searches at the first place.
fn kept_along<C: Chart>(
    alloc: Global,
    chart: &C,
    shape_order: &ShapeOrder,
    still_open: &StillOpen,
    searches: &mut Searches,
) -> Result<Vec<u64>, AllocError>
    requires there { HasChainsOf (C.county chart.now) shape_order.now.by_shape }
    requires count { length shape_order.now.by_shape ≡ length still_open.now.by_shape }
    requires searches { AreSearched (C.county chart.now) still_open.now 0 searches.old }
    ensures tlids { IfOk result (λ tlids. tlids.items ≡ kept_tlids (C.county chart.now) shape_order.now still_open.now) }
    ensures names { OnOk result (AreSameKeys nat_cmp (wanted_feats (C.county chart.now) still_open.now) searches.new.names.wanted) }
{
    let by_shape = shape_order.by_shape();
    let mut tlids = Vec::new(alloc);
    for place in 0..by_shape.len() {
        let kept = keeps_place(chart, shape_order, still_open, place, searches)?;
        if !kept {
            continue;
        }
        let directed = by_shape[place];
        tlids.push(chart.tlid_there(directed.place as usize))?;
    }
    Ok(tlids)
}

/// Returns the FEATs of the wanted names.
///
/// Trick: one call for the prover, which otherwise reads the drop of each search.
fn names_of(searches: Searches) -> Interner<u32>
    ensures { result ≡ searches.names.wanted }
{
    let names = searches.names;
    names.wanted
}

/// Returns the FEATs of the wanted names and the TLIDs of the chains that are kept, given the places of the kept landmarks.
fn kept_chains<C: Chart>(
    alloc: Global,
    chart: &C,
    shape_order: &ShapeOrder,
    still_open: &StillOpen,
    landmarks: &[u32],
) -> Result<(Interner<u32>, Vec<u64>), AllocError>
    requires known { LeavesChoices (C.county chart.now) shape_order.now }
    requires count { length shape_order.now.by_shape ≡ length still_open.now.by_shape }
    requires landmarks { landmarks.now ≡ kept_landmarks (C.county chart.now) still_open.now }
    ensures names { IfOk result (λ kept. AreSameKeys nat_cmp (wanted_feats (C.county chart.now) still_open.now) kept.0) }
    ensures tlids { IfOk result (λ kept. kept.1.items ≡ kept_tlids (C.county chart.now) shape_order.now still_open.now) }
{
    let mut searches = searches_for(alloc, chart, still_open, landmarks)?;
    let tlids = kept_along(alloc, chart, shape_order, still_open, &mut searches);
    both(names_of(searches), tlids)
}

/// Returns the kept chains and landmarks of a county, given the order of its chains by their shapes and the places still open.
///
/// # Errors
///
/// `AllocError` if an allocation failed.
pub(crate) fn find_kept<C: Chart>(
    alloc: Global,
    chart: &C,
    shape_order: &ShapeOrder,
    still_open: &StillOpen,
) -> Result<Kept, AllocError>
    requires known { LeavesChoices (C.county chart.now) shape_order.now }
    requires count { length shape_order.now.by_shape ≡ length still_open.now.by_shape }
    requires within { AreWithin (length still_open.now.by_shape) still_open.now.places }
    ensures tlids { IfOk result (λ kept. kept.tlids.items ≡ kept_tlids (C.county chart.now) shape_order.now still_open.now) }
    ensures names { IfOk result (λ kept. AreSameKeys nat_cmp (wanted_feats (C.county chart.now) still_open.now) kept.names) }
    ensures lands { IfOk result (λ kept. kept.lands.items ≡ kept_lands (C.county chart.now) still_open.now) }
{
    let landmarks = kept_landmarks(alloc, chart, still_open)?;
    let (names, tlids) = kept_chains(alloc, chart, shape_order, still_open, &landmarks)?;
    let lands = keys_at(alloc, &Lands(chart), &landmarks)?;
    Ok(Kept {
        tlids,
        names,
        lands,
    })
}
