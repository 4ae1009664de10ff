//! Keys of chains, chain by chain: nodes, polygons or further names.

ghost use Rattle.county_chart.specs.PolygonKeys.{key_on};
ghost use Rattle.ordered_lists.specs.Orders.{contains};
ghost use Rattle.std.specs.Prelude.{OnOk, filter, flat_map, option_to_list, ◌++◌, ◌≡◌};

use crate::open_keys::has_key;
use arranged_county::{Half, Interner, NumericKey};
use county_chart::{Chart, DirectedChain, PolygonKey, push_all};
use ordered_lists::Key;
use std::alloc::AllocError;
use std::hash::Hash;
use tl_layout::Side;

/// Keys of chains, chain by chain.
pub(crate) trait KeyGroups {
    ghost use Rattle.std.specs.Prelude.{List, OnOk, length, ◌<◌, ◌≡◌};
    ghost use Rattle.record_groups.specs.Groups.{group_at};

    /// A key.
    type Item: Key + Hash + NumericKey;

    /// The keys of each chain.
    ghost groups: { Self → List (List Self.Item) };

    /// Returns how many chains there are.
    fn count(&self) -> usize
        ensures { result ≡ length (groups self.now) };

    /// Replaces what `keys` holds by the keys of the chain at a place.
    fn copy_keys(&self, place: usize, keys: &mut Vec<Self::Item>) -> Result<(), AllocError>
        requires { place < length (groups self.now) }
        ensures { OnOk result (keys.new.items ≡ group_at (groups self.now) place) };
}

pub(crate) fn push_if_some<K: Drop>(keys: &mut Vec<K>, key: Option<K>) -> Result<(), AllocError>
    ensures { OnOk result (keys.new.items ≡ keys.old.items ++ option_to_list key) }
{
    if let Some(key) = key {
        keys.push(key)?;
    }
    Ok(())
}

fn key_of(side: Option<Side>) -> Option<PolygonKey>
    ensures { option_to_list result ≡ flat_map key_on (option_to_list side) }
{
    match side {
        Some(side) => side.key(),
        None => None,
    }
}

/// The nodes at the ends of directed chains, start before end.
#[derive(Drop)]
pub(crate) struct NodeKeys<'a, C: Chart>(pub(crate) &'a C, pub(crate) &'a [DirectedChain]);

#[tactic(auto, using(crate::proofs::Ties::ReadKeys::nodes_read))]
impl<C: Chart> KeyGroups for NodeKeys<'_, C> {
    ghost use Rattle.county_chart.specs.CountyRules.{chain_nodes};
    ghost use Rattle.tl_number.specs.KeysAlong.{keys_along};

    type Item = u64;

    ghost groups = { λ nodes. keys_along chain_nodes (C.county nodes.0.now) nodes.1.now };

    fn count(&self) -> usize {
        self.1.len()
    }

    fn copy_keys(&self, place: usize, keys: &mut Vec<u64>) -> Result<(), AllocError> {
        let directed = self.1[place];
        keys.clear();
        push_if_some(keys, directed.start_node(self.0).flatten())?;
        push_if_some(keys, directed.end_node(self.0).flatten())
    }
}

/// The polygons on the sides of directed chains, left before right.
#[derive(Drop)]
pub(crate) struct PolygonKeys<'a, C: Chart>(pub(crate) &'a C, pub(crate) &'a [DirectedChain]);

#[tactic(auto, using(crate::proofs::Ties::ReadKeys::polygons_read))]
impl<C: Chart> KeyGroups for PolygonKeys<'_, C> {
    ghost use Rattle.county_chart.specs.CountyRules.{chain_polygons};
    ghost use Rattle.tl_number.specs.KeysAlong.{keys_along};

    type Item = PolygonKey;

    ghost groups = { λ polygons. keys_along chain_polygons (C.county polygons.0.now) polygons.1.now };

    fn count(&self) -> usize {
        self.1.len()
    }

    fn copy_keys(&self, place: usize, keys: &mut Vec<PolygonKey>) -> Result<(), AllocError> {
        let directed = self.1[place];
        keys.clear();
        push_if_some(keys, key_of(directed.left(self.0)))?;
        push_if_some(keys, key_of(directed.right(self.0)))
    }
}

/// The FEATs of the further names of directed chains.
#[derive(Drop)]
pub(crate) struct FeatKeys<'a, C: Chart>(pub(crate) &'a C, pub(crate) &'a [DirectedChain]);

impl<C: Chart> KeyGroups for FeatKeys<'_, C> {
    ghost use Rattle.tl_number.specs.KeysAlong.{keys_along};
    ghost use Rattle.tl_number.specs.NamesAlong.{chain_feats};

    type Item = u32;

    ghost groups = { λ names. keys_along chain_feats (C.county names.0.now) names.1.now };

    fn count(&self) -> usize {
        self.1.len()
    }

    fn copy_keys(&self, place: usize, keys: &mut Vec<u32>) -> Result<(), AllocError> {
        let feats = self.1[place].feats(self.0);
        keys.clear();
        push_all(keys, &feats)
    }
}

/// Removes the keys that aren't wanted.
fn keep_wanted<K: Key + Hash + NumericKey>(wanted: &Interner<K>, keys: &mut Vec<K>)
    ensures { keys.new.items ≡ filter (λ key. contains K.cmp key wanted.now) keys.old.items }
{
    keys.retain(|key| has_key(wanted, *key));
}

/// Those FEATs of the further names of directed chains that are wanted.
#[derive(Drop)]
pub(crate) struct WantedFeatKeys<'a, C: Chart> {
    pub(crate) names: FeatKeys<'a, C>,
    pub(crate) wanted: &'a Interner<u32>,
}

impl<C: Chart> KeyGroups for WantedFeatKeys<'_, C> {
    ghost use Rattle.ordered_lists.specs.Orders.{contains};
    ghost use Rattle.std.specs.Ordering.{nat_cmp};
    ghost use Rattle.tl_number.specs.CountyParts.{narrowed};
    ghost use Rattle.tl_number.specs.KeysAlong.{keys_along};
    ghost use Rattle.tl_number.specs.NamesAlong.{chain_feats};

    type Item = u32;

    ghost groups = { λ keys. keys_along chain_feats (narrowed (λ feat. contains nat_cmp feat keys.wanted.now) (C.county keys.names.0.now)) keys.names.1.now };

    fn count(&self) -> usize {
        self.names.count()
    }

    fn copy_keys(&self, place: usize, keys: &mut Vec<u32>) -> Result<(), AllocError> {
        self.names.copy_keys(place, keys)?;
        keep_wanted(self.wanted, keys);
        Ok(())
    }
}
