//! Looking for wanted keys along chains in the order of their shapes.

ghost use Rattle.std.specs.Prelude.{IfOk, OnOk, [], cond, filter, length, not, ◌&&◌, ◌+◌, ◌<◌, ◌∷◌, ◌≡◌};
ghost use Rattle.ordered_lists.specs.Orders.{contains};
ghost use Rattle.canonical_form.specs.Growth.{first_seen_after};
ghost use Rattle.tl_number.specs.NewKeys.{earlier_keys, has_new, has_new_at};
ghost use Rattle.tl_number.specs.KeysAlong.{is_open};

use crate::key_groups::KeyGroups;
use crate::open_keys::{has_key, is_open_at};
use arranged_county::{Interner, NumericKey};
use ordered_lists::Key;
use std::alloc::{AllocError, Global};
use std::hash::Hash;
use tl_profile::OpenPlace;

/// Wanted keys, and the earlier ones: wanted keys that fixed places had so far.
#[derive(Drop)]
pub(crate) struct KeySearch<K: Key + Hash + NumericKey> {
    pub(crate) wanted: Interner<K>,
    pub(crate) earlier: Interner<K>,
    /// The keys of one chain.
    here: Vec<K>,
}

impl<K: Key + Hash + NumericKey> KeySearch<K> {
    /// Starts a search for these keys, at the first place.
    pub(crate) fn new(alloc: Global, wanted: Interner<K>) -> KeySearch<K>
        ensures wanted { result.wanted ≡ wanted }
        ensures earlier { result.earlier ≡ [] }
    {
        KeySearch {
            wanted,
            earlier: Interner::new(alloc),
            here: Vec::new(alloc),
        }
    }
}

/// Checks whether a key is new: wanted, and not an earlier one.
fn is_new<K: Key + Hash + NumericKey>(wanted: &Interner<K>, earlier: &Interner<K>, key: K) -> bool
    ensures { result ≡ (contains K.cmp key wanted.now && not (contains K.cmp key earlier.now)) }
{
    has_key(wanted, key) && !has_key(earlier, key)
}

/// Checks whether one of these keys is new.
fn has_new_key<K: Key + Hash + NumericKey>(
    wanted: &Interner<K>,
    earlier: &Interner<K>,
    keys: &[K],
) -> bool
    ensures { result ≡ has_new K.cmp wanted.now earlier.now keys.now }
{
    keys.iter().any(|key| is_new(wanted, earlier, *key))
}

fn add_if_wanted<K: Key + Hash + NumericKey>(
    wanted: &Interner<K>,
    earlier: &mut Interner<K>,
    key: K,
) -> Result<(), AllocError>
    ensures { OnOk result (earlier.new ≡ first_seen_after K.cmp earlier.old (filter (λ key. contains K.cmp key wanted.now) (key ∷ []))) }
{
    if has_key(wanted, key) {
        earlier.see(key)?;
    }
    Ok(())
}

fn add_wanted<K: Key + Hash + NumericKey>(
    wanted: &Interner<K>,
    earlier: &mut Interner<K>,
    keys: &[K],
) -> Result<(), AllocError>
    ensures { OnOk result (earlier.new ≡ first_seen_after K.cmp earlier.old (filter (λ key. contains K.cmp key wanted.now) keys.now)) }
{
    for key in keys {
        add_if_wanted(wanted, earlier, *key)?;
    }
    Ok(())
}

/// Checks whether one of the keys at a place is new. If the place is fixed, its wanted keys are earlier ones from now on.
fn search_keys<K: Key + Hash + NumericKey>(
    places: &[OpenPlace],
    wanted: &Interner<K>,
    earlier: &mut Interner<K>,
    place: usize,
    keys: &[K],
) -> Result<bool, AllocError>
    ensures new { IfOk result (λ new. new ≡ has_new K.cmp wanted.now earlier.old keys.now) }
    ensures earlier { OnOk result (earlier.new ≡ first_seen_after K.cmp earlier.old
        (cond (is_open places.now place) [] (filter (λ key. contains K.cmp key wanted.now) keys.now))) }
{
    let new = has_new_key(wanted, earlier, keys);
    if !is_open_at(places, place) {
        add_wanted(wanted, earlier, keys)?;
    }
    Ok(new)
}

/// Checks whether a place has a new key: a wanted one that no fixed place before has. The search goes on to the next place.
pub(crate) fn search_place<G: KeyGroups>(
    places: &[OpenPlace],
    groups: &G,
    place: usize,
    search: &mut KeySearch<G::Item>,
) -> Result<bool, AllocError>
    requires within { place < length (G.groups groups.now) }
    requires earlier { search.old.earlier ≡ earlier_keys G.Item.cmp places.now search.old.wanted (G.groups groups.now) place }
    ensures new { IfOk result (λ new. new ≡ has_new_at G.Item.cmp places.now search.old.wanted (G.groups groups.now) place) }
    ensures wanted { search.new.wanted ≡ search.old.wanted }
    ensures earlier { OnOk result (search.new.earlier ≡ earlier_keys G.Item.cmp places.now search.old.wanted (G.groups groups.now) (place + 1)) }
{
    groups.copy_keys(place, &mut search.here)?;
    // Trick: `?` lets the prover look at each outcome by itself.
    let new = search_keys(
        places,
        &search.wanted,
        &mut search.earlier,
        place,
        &search.here,
    )?;
    Ok(new)
}
