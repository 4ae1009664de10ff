//! The places of the keys that have no mark.

ghost use Rattle.indexmap.specs.IndexMap.{get as found_by_hash};
ghost use Rattle.std.specs.BTreeMap.{get as found_in_order};
ghost use Rattle.std.specs.Prelude.{IsTrue, None, OnOk, Some, ◌≡◌};
ghost use Rattle.arranged_county.specs.PlacedKeys.{found_by_either};

use indexmap::IndexMap;
use ordered_lists::Key;
use std::alloc::{AllocError, Global};
use std::collections::BTreeMap;
use std::hash::Hash;

/// The most keys that are found by hash. Their hashes may all collide, since the author of a file chooses its numbers, and then each of
/// these few is compared.
const MOST_HASHED: usize = 1024;

/// Places of keys. The first keys are found by hash, and all later ones by their order, so no choice of numbers makes it slow to find one.
#[derive(Drop)]
pub(crate) struct OtherPlaces<K: Key + Hash> {
    /// The places of the first keys, by hash.
    pub(crate) few: IndexMap<K, usize>,
    /// The places of the later keys, in order.
    pub(crate) many: BTreeMap<K, usize>,
}

/// Checks whether a key isn't among those in order.
fn is_absent<K: Key>(many: &BTreeMap<K, usize>, key: K) -> bool
    ensures { IsTrue result → found_in_order K.cmp many.now key ≡ None }
{
    match many.get(&key) {
        Some(_) => false,
        None => true,
    }
}

impl<K: Key + Hash> OtherPlaces<K> {
    /// Makes a list without places. Takes no memory.
    pub(crate) fn new(alloc: Global) -> OtherPlaces<K> {
        OtherPlaces {
            few: IndexMap::new(alloc),
            many: BTreeMap::new(alloc),
        }
    }

    /// Returns the place of a key, or none if it isn't known.
    pub(crate) fn get(&self, key: K) -> Option<usize>
        ensures { result ≡ found_by_either (found_in_order K.cmp self.now.many) (found_by_hash K.eq self.now.few) key }
    {
        match self.many.get(&key) {
            Some(place) => Some(*place),
            None => self.few.get(&key).copied(),
        }
    }

    pub(crate) fn insert(&mut self, key: K, place: usize) -> Result<(), AllocError>
        ensures stated { OnOk result (found_by_either (found_in_order K.cmp self.new.many) (found_by_hash K.eq self.new.few) key ≡ Some place) }
        ensures apart { (other : K) → (other ≡ key → ⊥)
            → found_by_either (found_in_order K.cmp self.new.many) (found_by_hash K.eq self.new.few) other
            ≡ found_by_either (found_in_order K.cmp self.old.many) (found_by_hash K.eq self.old.few) other }
    {
        if self.few.len() < MOST_HASHED && is_absent(&self.many, key) {
            self.few.insert(key, place)?;
        } else {
            self.many.insert(key, place)?;
        }
        Ok(())
    }
}
