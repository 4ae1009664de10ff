//! Tables that describe a part of a county: some of its chains, with their names and polygons, and some of its landmarks.

ghost use Rattle.std.specs.Prelude.{IfOk, false, length, map, option_to_list, ◌<◌, ◌^◌, ◌≡◌};
ghost use Rattle.std.specs.List.{list_any};
ghost use Rattle.std.specs.Ordering.{nat_cmp};
ghost use Rattle.canonical_form.specs.Growth.{first_seen};
ghost use Rattle.county_chart.specs.CountyRules.{AllKeysContained, chain_nodes, feats, polygon_keys, polygons_along};
ghost use Rattle.ordered_lists.specs.Orders.{contains, distinct};
ghost use Rattle.ordered_lists.specs.Places.{at_places};
ghost use Rattle.record_groups.specs.Groups.{grouped};
ghost use Rattle.tl_number.specs.CountyParts.{ArePartKeys, HoldsPart, places_among};
ghost use Rattle.tl_number.specs.KeysAlong.{keys_along};

use crate::kept_places::Kept;
use crate::key_groups::{FeatKeys, KeyGroups, NodeKeys, PolygonKeys, WantedFeatKeys};
use crate::open_keys::{has_key, interned, keys_of};
use arranged_county::{Interner, NumericKey, both};
use county_chart::{Chart, DirectedChain, Feats, Lands, Listed, PolygonKey, Polygons, Tlids};
use ordered_lists::{Key, sort_distinct};
use std::alloc::{AllocError, Global};
use std::hash::Hash;

/// The keys of the part in a list, ascending, and their places in the list.
#[derive(Drop)]
pub(crate) struct PartKeys<K: Drop> {
    pub(crate) keys: Vec<K>,
    pub(crate) places: Vec<u32>,
}

/// Tables that describe a part of a county.
#[derive(Drop)]
pub(crate) struct PartTables {
    pub(crate) kept: Kept,
    pub(crate) chains: PartKeys<u64>,
    /// The FEATs of the further names of each chain.
    pub(crate) feats: Vec<Vec<u32>>,
    pub(crate) names: PartKeys<u32>,
    pub(crate) polygons: PartKeys<PolygonKey>,
    pub(crate) landmarks: PartKeys<u64>,
    /// The nodes at the ends of its chains, ascending.
    pub(crate) nodes: Vec<u64>,
}

fn is_among<K: Key + Hash + NumericKey>(keys: &Interner<K>, key: Option<K>) -> bool
    ensures { result ≡ list_any (λ key. contains K.cmp key keys.now) (option_to_list key) }
{
    match key {
        Some(key) => has_key(keys, key),
        None => false,
    }
}

pub(crate) fn keys_at<L: Listed>(
    alloc: Global,
    all: &L,
    places: &[u32],
) -> Result<Vec<L::Item>, AllocError>
where
    L::Item: Drop,
    ensures { IfOk result (λ keys. keys.items ≡ at_places (L.items all.now) places.now) }
{
    places
        .iter()
        .filter_map(|place| all.get(*place as usize))
        .collect(alloc)
}

/// Returns the places of the keys in a list that are wanted.
fn places_of<K: Key + Hash + NumericKey, L: Listed<Item = K>>(
    alloc: Global,
    all: &L,
    wanted: &Interner<K>,
) -> Result<Vec<u32>, AllocError>
    requires { length (L.items all.now) < 2 ^ 32 }
    ensures { IfOk result (λ places. places.items ≡ places_among K.cmp wanted.now (L.items all.now)) }
{
    (0..all.count() as u32)
        .filter(|place| is_among(wanted, all.get(*place as usize)))
        .collect(alloc)
}

/// Returns the wanted keys of a list, with their places.
fn wanted_among<K: Key + Hash + NumericKey, L: Listed<Item = K>>(
    alloc: Global,
    all: &L,
    wanted: &Interner<K>,
) -> Result<PartKeys<K>, AllocError>
    requires { length (L.items all.now) < 2 ^ 32 }
    ensures { IfOk result (ArePartKeys K.cmp wanted.now (L.items all.now)) }
{
    let places = places_of(alloc, all, wanted)?;
    let keys = keys_at(alloc, all, &places)?;
    Ok(PartKeys { keys, places })
}

/// Returns the keys of a list that these chains have, with their places.
fn named_among<K: Key + Hash + NumericKey, L: Listed<Item = K>, G: KeyGroups<Item = K>>(
    alloc: Global,
    all: &L,
    chains: &G,
) -> Result<PartKeys<K>, AllocError>
    requires { length (L.items all.now) < 2 ^ 32 }
    ensures { IfOk result (ArePartKeys K.cmp (first_seen K.cmp (grouped (G.groups chains.now))) (L.items all.now)) }
{
    let wanted = keys_of(alloc, chains)?;
    wanted_among(alloc, all, &wanted)
}

/// Returns these numbers of a list, which may be in any order, with their places.
fn these_among<L: Listed<Item = u64>>(
    alloc: Global,
    all: &L,
    these: &[u64],
) -> Result<PartKeys<u64>, AllocError>
    requires { length (L.items all.now) < 2 ^ 32 }
    ensures { IfOk result (ArePartKeys nat_cmp (first_seen nat_cmp these.now) (L.items all.now)) }
{
    let wanted = interned(alloc, these)?;
    wanted_among(alloc, all, &wanted)
}

/// Returns the chains at places, in the directions that they have in the county.
fn chains_at(alloc: Global, places: &[u32]) -> Result<Vec<DirectedChain>, AllocError>
    ensures { IfOk result (λ chains. chains.items ≡ map (λ place. record { place = place; turned = false }) places.now) }
{
    places
        .iter()
        .map(|place| DirectedChain {
            place: *place,
            turned: false,
        })
        .collect(alloc)
}

/// Returns the nodes at the ends of chains, ascending.
fn nodes_of<C: Chart>(
    alloc: Global,
    chart: &C,
    chains: &[DirectedChain],
) -> Result<Vec<u64>, AllocError>
    ensures { IfOk result (λ nodes. nodes.items ≡ distinct nat_cmp (first_seen nat_cmp (grouped (keys_along chain_nodes (C.county chart.now) chains.now)))) }
{
    let seen = keys_of(alloc, &NodeKeys(chart, chains))?;
    let mut nodes = Vec::from_slice(alloc, seen.keys())?;
    sort_distinct(&mut nodes);
    Ok(nodes)
}

/// Returns the keys of each chain.
fn keys_by_chain<G: KeyGroups>(alloc: Global, chains: &G) -> Result<Vec<Vec<G::Item>>, AllocError>
    ensures { IfOk result (λ keys. map (λ own. own.items) keys.items ≡ G.groups chains.now) }
{
    let mut here = Vec::new(alloc);
    let mut keys = Vec::new(alloc);
    for place in 0..chains.count() {
        chains.copy_keys(place, &mut here)?;
        let own = Vec::from_slice(alloc, &here)?;
        keys.push(own)?;
    }
    Ok(keys)
}

/// Returns the keys of a list that these chains have, with their places, and the keys of each chain.
fn named_by_chain<K: Key + Hash + NumericKey, L: Listed<Item = K>, G: KeyGroups<Item = K>>(
    alloc: Global,
    all: &L,
    chains: &G,
) -> Result<(PartKeys<K>, Vec<Vec<K>>), AllocError>
    requires { length (L.items all.now) < 2 ^ 32 }
    ensures among { IfOk result (λ found. ArePartKeys K.cmp (first_seen K.cmp (grouped (G.groups chains.now))) (L.items all.now) found.0) }
    ensures by_chain { IfOk result (λ found. map (λ own. own.items) found.1.items ≡ G.groups chains.now) }
{
    let among = named_among(alloc, all, chains)?;
    let by_chain = keys_by_chain(alloc, chains);
    both(among, by_chain)
}

/// Makes the tables of the part.
pub(crate) fn part_tables<C: Chart>(
    alloc: Global,
    chart: &C,
    kept: Kept,
) -> Result<PartTables, AllocError>
    requires { AllKeysContained (polygons_along (C.county chart.now).chains) (polygon_keys (C.county chart.now)) }
    ensures kept { IfOk result (λ tables. tables.kept ≡ kept) }
    ensures holds { IfOk result (HoldsPart (C.county chart.now)) }
{
    let chains = these_among(alloc, &Tlids(chart), &kept.tlids)?;
    let landmarks = these_among(alloc, &Lands(chart), &kept.lands)?;
    let there = chains_at(alloc, &chains.places)?;
    let nodes = nodes_of(alloc, chart, &there)?;
    let wanted = WantedFeatKeys {
        names: FeatKeys(chart, &there),
        wanted: &kept.names,
    };
    let (names, feats) = named_by_chain(alloc, &Feats(chart), &wanted)?;
    let polygons = named_among(alloc, &Polygons(chart), &PolygonKeys(chart, &there))?;
    Ok(PartTables {
        kept,
        chains,
        feats,
        names,
        polygons,
        landmarks,
        nodes,
    })
}
