//! Keys of chains in the order of their first appearance, and the open ones, which first appear at an open place.

ghost use Rattle.std.specs.Prelude.{IfOk, OnOk, [], cond, ◌++◌, ◌∷◌, ◌≡◌};
ghost use Rattle.ordered_lists.specs.Orders.{contains};
ghost use Rattle.record_groups.specs.Groups.{grouped};
ghost use Rattle.canonical_form.specs.Growth.{first_seen, first_seen_after};
ghost use Rattle.tl_number.specs.KeysAlong.{covers, first_open, is_open, newly_seen};

use crate::key_groups::KeyGroups;
use arranged_county::{Interner, NumericKey, if_done, marks_for};
use ordered_lists::Key;
use std::alloc::{AllocError, Global};
use std::hash::Hash;
use tl_profile::OpenPlace;

/// Checks whether an open place moves a chain to or from a place.
fn covers(at: OpenPlace, place: usize) -> bool
    ensures { result ≡ covers at place }
{
    let first = at.place as usize;
    first <= place && place < first + at.alike as usize
}

/// Checks whether some open place in `places` moves a chain to or from a place.
pub(crate) fn is_open_at(places: &[OpenPlace], place: usize) -> bool
    ensures { result ≡ is_open places.now place }
{
    places.iter().any(|at| covers(*at, place))
}

pub(crate) fn has_key<K: Key + Hash + NumericKey>(keys: &Interner<K>, key: K) -> bool
    ensures { result ≡ contains K.cmp key keys.now }
{
    keys.place(key).is_some()
}

/// Returns these keys in the order of their first appearance.
pub(crate) fn interned<K: Key + Hash + NumericKey>(
    alloc: Global,
    keys: &[K],
) -> Result<Interner<K>, AllocError>
    ensures { IfOk result (λ seen. seen ≡ first_seen K.cmp keys.now) }
{
    let mut all = Interner::with_marks(alloc, marks_for(keys.len()))?;
    let seen = all.see_all(&keys);
    if_done(all, seen)
}

/// Sees a key. If it is new and its place is open, it's put after the open keys.
fn see_key<K: Key + Hash + NumericKey>(
    all: &mut Interner<K>,
    opened: &mut Vec<K>,
    at_open: bool,
    key: K,
) -> Result<(), AllocError>
    ensures all { OnOk result (all.new ≡ first_seen_after K.cmp all.old (key ∷ [])) }
    ensures opened { OnOk result (opened.new.items ≡ opened.old.items ++ cond at_open (newly_seen K.cmp all.old (key ∷ [])) []) }
{
    if at_open && !has_key(all, key) {
        opened.push(key)?;
    }
    all.see(key)?;
    Ok(())
}

/// Sees the keys of a chain. If its place is open, the new ones are put after the open keys.
fn see_keys<K: Key + Hash + NumericKey>(
    all: &mut Interner<K>,
    opened: &mut Vec<K>,
    at_open: bool,
    keys: &[K],
) -> Result<(), AllocError>
    ensures all { OnOk result (all.new ≡ first_seen_after K.cmp all.old keys.now) }
    ensures opened { OnOk result (opened.new.items ≡ opened.old.items ++ cond at_open (newly_seen K.cmp all.old keys.now) []) }
{
    for key in keys {
        see_key(all, opened, at_open, *key)?;
    }
    Ok(())
}

/// Sees the keys of chains, and puts those that first appear at an open place after the open keys.
fn see_groups<G: KeyGroups>(
    alloc: Global,
    places: &[OpenPlace],
    groups: &G,
    all: &mut Interner<G::Item>,
    opened: &mut Vec<G::Item>,
) -> Result<(), AllocError>
    requires all { all.old ≡ [] }
    requires opened { opened.old.items ≡ [] }
    ensures all { OnOk result (all.new ≡ first_seen G.Item.cmp (grouped (G.groups groups.now))) }
    ensures opened { OnOk result (opened.new.items ≡ first_open G.Item.cmp places.now (G.groups groups.now)) }
{
    let mut keys = Vec::new(alloc);
    for place in 0..groups.count() {
        groups.copy_keys(place, &mut keys)?;
        let at_open = is_open_at(places, place);
        see_keys(all, opened, at_open, &keys)?;
    }
    Ok(())
}

/// Returns the keys of chains in the order of their first appearance, and the open ones, which first appear at an open place.
pub(crate) fn see_along<G: KeyGroups>(
    alloc: Global,
    places: &[OpenPlace],
    groups: &G,
) -> Result<(Interner<G::Item>, Vec<G::Item>), AllocError>
    ensures all { IfOk result (λ seen. seen.0 ≡ first_seen G.Item.cmp (grouped (G.groups groups.now))) }
    ensures opened { IfOk result (λ seen. seen.1.items ≡ first_open G.Item.cmp places.now (G.groups groups.now)) }
{
    let mut all = Interner::with_marks(alloc, marks_for(groups.count()))?;
    let mut opened = Vec::new(alloc);
    let seen = see_groups(alloc, places, groups, &mut all, &mut opened);
    if_done((all, opened), seen)
}

/// Returns the keys of chains in the order of their first appearance.
pub(crate) fn keys_of<G: KeyGroups>(
    alloc: Global,
    groups: &G,
) -> Result<Interner<G::Item>, AllocError>
    ensures { IfOk result (λ keys. keys ≡ first_seen G.Item.cmp (grouped (G.groups groups.now))) }
{
    let (keys, _) = see_along(alloc, &[], groups)?;
    Ok(keys)
}
