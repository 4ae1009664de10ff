//! Numbers by first appearance.
//!
//! The numbers that keys have in the county they come from mostly run on with few gaps, so a key is found by its number: a table of marks
//! has a slot for each number up to its length, and then begins again, so numbers that are far apart share a slot. The mark in a slot
//! is the place of one key, and the key itself is compared. A key whose slot was taken is looked up among the other keys.

ghost use Rattle.indexmap.specs.IndexMap.{get as found_by_hash};
ghost use Rattle.std.specs.BTreeMap.{get as found_in_order};
ghost use Rattle.std.specs.Prelude.{IfOk, IfSome, IsTrue, OnErr, OnOk, Some, [], false, is_some, length, slice_get, slice_index, ℕ, ◌%◌, ◌*◌, ◌++◌, ◌+◌, ◌<◌, ◌^◌, ◌↔◌, ◌∷◌, ◌≡◌, ◌≤◌};
ghost use Rattle.std.specs.List.{position};
ghost use Rattle.std.specs.Ordering.{is_eq};
ghost use Rattle.ordered_lists.specs.Orders.{contains, has_repeat};
ghost use Rattle.canonical_form.specs.Growth.{first_seen_after};
ghost use Rattle.arranged_county.specs.PlacedKeys.{AreApart, ArePlaced, found_by_either};

use crate::other_places::OtherPlaces;
use crate::pairing::if_done;
use county_chart::{Listed, PolygonKey};
use ordered_lists::Key;
use std::alloc::{AllocError, Global};
use std::hash::Hash;
use std::marker::Model;

/// The most keys that a list can hold: each takes at least a byte.
const MOST_KEYS: usize = isize::MAX as usize;

/// How many slots there are for each item that may have a key: numbers that run on are hardly more than the items.
const MARKS_AN_ITEM: usize = 2;

/// The same if there are few items. These may be numbered many times, and then fewer keys share a slot, even if the numbers are spread.
const MARKS_OF_FEW: usize = 8;

/// Fewer items than these are few.
const MANY_ITEMS: usize = 1 << 13;

/// The most items that slots are counted for.
const MOST_ITEMS: usize = 1 << 40;

/// Returns the number of slots for marks for this many items: at most eight an item.
pub fn marks_for(items: usize) -> usize
    ensures { result ≤ 8 * items }
{
    if items < MANY_ITEMS {
        MARKS_OF_FEW * items
    } else {
        MARKS_AN_ITEM * items.min(MOST_ITEMS)
    }
}

/// A key with a number that finds it in a table. Other keys may have the same number.
pub trait NumericKey {
    ghost use Rattle.std.specs.Prelude.{ℕ};

    /// The number.
    ghost number_of: { Self → ℕ };

    /// Returns the number.
    fn number(&self) -> u64
        ensures { result ≡ number_of self.now };
}

/// A number is its own number.
impl NumericKey for u64 {
    ghost number_of = { λ number. number };

    fn number(&self) -> u64 {
        *self
    }
}

/// A number is its own number.
impl NumericKey for u32 {
    ghost number_of = { λ number. number };

    fn number(&self) -> u64 {
        u64::from(*self)
    }
}

/// The number of a polygon is its POLYID. Most counties have only one CENID, or few.
impl NumericKey for PolygonKey {
    ghost number_of = { λ key. key.1 };

    fn number(&self) -> u64 {
        self.1
    }
}

/// Keys in the order in which they were first seen, without repetition. A key's place is counted from 0, and its new number is one
/// more.
#[derive(Drop)]
pub struct Interner<K: Key + Hash + NumericKey> {
    /// The keys.
    keys: Vec<K>,
    /// In each slot the place of one key, counted from 1, or 0.
    marks: Vec<u32>,
    /// The places of keys that have no mark: another key has the mark in their slot, or there are no slots.
    others: OtherPlaces<K>,
}

impl<K: Key + Hash + NumericKey> Model for Interner<K> {
    ghost use Rattle.indexmap.specs.IndexMap.{get as found_by_hash};
    ghost use Rattle.std.specs.BTreeMap.{get as found_in_order};
    ghost use Rattle.std.specs.Prelude.{List, length, ◌%◌, ◌<◌, ◌^◌};
    ghost use Rattle.arranged_county.specs.PlacedKeys.{AreApart, ArePlaced, found_by_either};

    ghost Value = { List K };

    ghost view = { λ n. n.keys.items };

    ghost invariant = { λ n. AreApart n.keys.items × ArePlaced (λ key. K.number_of key % length n.marks.items)
        (found_by_either (found_in_order K.cmp n.others.many) (found_by_hash K.eq n.others.few)) n.marks.items n.keys.items
        × (length n.keys.items < 2 ^ 63) };
}

/// The keys, by place.
impl<K: Key + Hash + NumericKey> Listed for Interner<K> {
    type Item = K;

    ghost items = { λ numbers. numbers };

    fn count(&self) -> usize {
        self.keys.len()
    }

    fn item(&self, place: usize) -> K {
        self.keys[place]
    }
}

/// Returns the slot of a number in a table of marks of this length, or the number itself if there is no slot.
#[inline(always)]
pub(crate) fn slot_of(len: usize, number: u64) -> usize
    ensures { result ≡ number % len }
{
    let len = len as u64;
    if number < len || len == 0 {
        number as usize
    } else {
        (number % len) as usize
    }
}

/// Returns the mark in a slot, or 0 if it has none.
#[inline(always)]
fn mark_at(marks: &[u32], slot: usize) -> u32
    ensures { result ≡ slice_index marks.now slot }
{
    match marks.get(slot) {
        Some(mark) => *mark,
        None => 0,
    }
}

/// Checks whether a slot is there, and has no mark.
#[inline(always)]
fn is_free(marks: &[u32], slot: usize) -> bool
    ensures within { IsTrue result → slot < length marks.now }
    ensures free { IsTrue result → slice_index marks.now slot ≡ 0 }
{
    match marks.get(slot) {
        Some(mark) => *mark == 0,
        None => false,
    }
}

#[inline(always)]
pub(crate) fn is_at<K: Key>(keys: &[K], place: usize, key: K) -> bool
    ensures { IsTrue result ↔ (slice_get keys.now place ≡ Some key) }
{
    match keys.get(place) {
        Some(other) => key.eq(other),
        None => false,
    }
}

/// Returns the place of a key without a mark, counted from 0, or `None` if there is none.
///
/// Trick: not inlined, because nearly all keys have a mark.
#[inline(never)]
fn place_among<K: Key + Hash>(keys: &[K], others: &OtherPlaces<K>, key: K) -> Option<usize>
    ensures found { IfSome result (λ place. slice_get keys.now place ≡ Some key) }
    ensures stated { (place : ℕ) → found_by_either (found_in_order K.cmp others.now.many) (found_by_hash K.eq others.now.few) key ≡ Some place → slice_get keys.now place ≡ Some key → result ≡ Some place }
{
    match others.get(key) {
        Some(place) if is_at(keys, place, key) => Some(place),
        _ => None,
    }
}

/// Returns the place of a key, counted from 0, or `None` if it isn't one of the keys.
#[inline(always)]
fn place_of_key<K: Key + Hash + NumericKey>(
    keys: &[K],
    marks: &[u32],
    others: &OtherPlaces<K>,
    key: K,
) -> Option<usize>
    requires apart { AreApart keys.now }
    requires placed { ArePlaced (λ key. K.number_of key % length marks.now)
        (found_by_either (found_in_order K.cmp others.now.many) (found_by_hash K.eq others.now.few)) marks.now keys.now }
    ensures found { IfSome result (λ place. slice_get keys.now place ≡ Some key) }
    ensures stated { (place : ℕ) → slice_get keys.now place ≡ Some key → result ≡ Some place }
{
    let mark = mark_at(marks, slot_of(marks.len(), key.number())) as usize;
    if mark > 0 && is_at(keys, mark - 1, key) {
        return Some(mark - 1);
    }
    place_among(keys, others, key)
}

/// Adds a key to the keys, and its place to the others. If an allocation fails, the keys are unchanged, but the others may already have
/// the place.
fn push_into_table<K: Key + Hash>(
    keys: &mut Vec<K>,
    others: &mut OtherPlaces<K>,
    key: K,
    place: usize,
) -> Result<(), AllocError>
    ensures small { OnOk result (place + 1 < 2 ^ 63) }
    ensures added { OnOk result (keys.new.items ≡ keys.old.items ++ key ∷ []) }
    ensures placed { OnOk result (found_by_either (found_in_order K.cmp others.new.many) (found_by_hash K.eq others.new.few) key ≡ Some place) }
    ensures kept { OnErr result (keys.new.items ≡ keys.old.items) }
    ensures apart { (other : K) → (other ≡ key → ⊥)
        → found_by_either (found_in_order K.cmp others.new.many) (found_by_hash K.eq others.new.few) other
        ≡ found_by_either (found_in_order K.cmp others.old.many) (found_by_hash K.eq others.old.few) other }
{
    if place >= MOST_KEYS {
        return Err(AllocError);
    }
    others.insert(key, place)?;
    keys.push(key)?;
    Ok(())
}

impl<K: Key + Hash + NumericKey> Interner<K> {
    /// Makes a numbering without keys. Takes no memory.
    pub fn new(alloc: Global) -> Interner<K>
        ensures { result ≡ [] }
    {
        Interner {
            keys: Vec::new(alloc),
            marks: Vec::new(alloc),
            others: OtherPlaces::new(alloc),
        }
    }

    /// Makes a numbering without keys, with this many slots for marks. The numbers are the same with any number of slots; numbering is
    /// faster with a few more slots than keys.
    ///
    /// # Errors
    ///
    /// `AllocError` if an allocation failed.
    pub fn with_marks(alloc: Global, limit: usize) -> Result<Interner<K>, AllocError>
        ensures { IfOk result (λ numbers. numbers ≡ []) }
    {
        let marks = Vec::from_elem(alloc, 0, limit)?;
        Ok(Interner {
            keys: Vec::new(alloc),
            marks,
            others: OtherPlaces::new(alloc),
        })
    }

    /// Adds a key that wasn't seen before, and returns its place, counted from 0.
    fn add(&mut self, key: K) -> Result<usize, AllocError>
        requires new { contains K.cmp key self.old ≡ false }
        ensures added { OnOk result (self.new ≡ self.old ++ key ∷ []) }
        ensures place { IfOk result (λ place. place ≡ length self.old) }
        ensures small { IfOk result (λ place. place < 2 ^ 63) }
        ensures kept { OnErr result (self.new ≡ self.old) }
    {
        let place = self.keys.len();
        let number = key.number();
        let slots = self.marks.len();
        let slot = slot_of(slots, number);
        if place < u32::MAX as usize && is_free(&self.marks, slot) {
            self.keys.push(key)?;
            self.marks[slot] = place as u32 + 1;
        } else {
            push_into_table(&mut self.keys, &mut self.others, key, place)?;
        }
        Ok(place)
    }

    /// Sees a key: unless it was seen before, it gets the next number.
    ///
    /// # Errors
    ///
    /// `AllocError` if an allocation failed. The keys are then the same as before.
    pub fn see(&mut self, key: K) -> Result<(), AllocError>
        ensures seen { OnOk result (self.new ≡ first_seen_after K.cmp self.old (key ∷ [])) }
        ensures kept { OnErr result (self.new ≡ self.old) }
    {
        self.see_place(key)?;
        Ok(())
    }

    /// Sees a key as `see` does, and returns its place, counted from 0.
    ///
    /// # Errors
    ///
    /// `AllocError` if an allocation failed. The keys are then the same as before.
    pub fn see_place(&mut self, key: K) -> Result<usize, AllocError>
        ensures seen { OnOk result (self.new ≡ first_seen_after K.cmp self.old (key ∷ [])) }
        ensures first { IfOk result (λ place. Some place ≡ position (λ other. is_eq (K.cmp key other)) self.new) }
        ensures small { IfOk result (λ place. place < 2 ^ 63) }
        ensures kept { OnErr result (self.new ≡ self.old) }
    {
        match self.place(key) {
            Some(place) => Ok(place),
            None => self.add(key),
        }
    }

    /// Returns how many keys were seen.
    pub fn len(&self) -> usize
        ensures len { result ≡ length self.now }
        ensures small { result < 2 ^ 63 }
    {
        self.keys.len()
    }

    /// Returns the keys, in the order of their numbers.
    pub fn keys(&self) -> &[K]
        ensures { result.now ≡ self.now }
    {
        &self.keys
    }

    /// Sees keys, one after another.
    ///
    /// # Errors
    ///
    /// `AllocError` if an allocation failed. Some of the keys may then have been seen.
    pub fn see_all<L: Listed<Item = K>>(&mut self, keys: &L) -> Result<(), AllocError>
        ensures { OnOk result (self.new ≡ first_seen_after K.cmp self.old (L.items keys.now)) }
    {
        for place in 0..keys.count() {
            self.see(keys.item(place))?;
        }
        Ok(())
    }

    /// Numbers keys in their order, with this many slots for marks. No key is repeated.
    ///
    /// # Errors
    ///
    /// `AllocError` if an allocation failed.
    pub fn of_distinct(alloc: Global, keys: &[K], slots: usize) -> Result<Interner<K>, AllocError>
        requires { has_repeat K.cmp keys.now ≡ false }
        ensures { IfOk result (λ numbers. numbers ≡ keys.now) }
    {
        let mut numbers = Interner::with_marks(alloc, slots)?;
        let seen = numbers.see_all(&keys);
        if_done(numbers, seen)
    }

    /// Returns the key at a place, counted from 0, or `None` past the end.
    pub fn key_at(&self, place: usize) -> Option<K>
        ensures { result ≡ slice_get self.now place }
    {
        self.keys.get(place).copied()
    }

    /// Returns the place of a key, counted from 0, or `None` if it wasn't seen.
    pub fn place(&self, key: K) -> Option<usize>
        ensures found { IfSome result (λ place. slice_get self.now place ≡ Some key) }
        ensures known { is_some result ≡ contains K.cmp key self.now }
        ensures first { result ≡ position (λ other. is_eq (K.cmp key other)) self.now }
        ensures small { IfSome result (λ place. place < 2 ^ 63) }
    {
        place_of_key(&self.keys, &self.marks, &self.others, key)
    }
}
