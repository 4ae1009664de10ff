//! Tables: values under ascending keys.

ghost use Rattle.std.specs.Prelude.{IfSome, List, Some, is_some, length, slice_get, ◌<◌, ◌≡◌};
ghost use Rattle.std.specs.List.Sorted.{IsStrictlySortedBy};
ghost use Rattle.std.specs.Option.{option_copied};
ghost use Rattle.ordered_lists.specs.Entries.{entry_keys, entry_values, value_under};
ghost use Rattle.ordered_lists.specs.Orders.{contains};

use ordered_lists::{Key, place_of};
use std::marker::Model;

/// Values under keys. The keys ascend, and no key occurs twice.
#[derive(Debug, Drop)]
pub struct Table<K: Key, V> {
    keys: Vec<K>,
    values: Vec<V>,
}

impl<K: Key, V> Model for Table<K, V> {
    ghost use Rattle.std.specs.Prelude.{List, length, ◌≡◌};
    ghost use Rattle.std.specs.List.Sorted.{IsStrictlySortedBy};
    ghost use Rattle.std.specs.List.{zip};

    ghost Value = { List (K × V) };

    ghost view = { λ t. zip t.keys.items t.values.items };

    ghost invariant = { λ t. IsStrictlySortedBy K.cmp t.keys.items × (length t.keys.items ≡ length t.values.items) };
}

#[tactic(auto, using(crate::proofs::Lists::TableEntries::table_entries))]
impl<K: Key, V> Table<K, V> {
    /// Makes the table of these values under these keys. The keys must ascend, and there must be as many values as keys.
    pub fn new(keys: Vec<K>, values: Vec<V>) -> Table<K, V>
        requires ascending { IsStrictlySortedBy K.cmp keys.items }
        requires same_length { length keys.items ≡ length values.items }
        ensures keys { entry_keys result ≡ keys.items }
        ensures values { entry_values result ≡ values.items }
    {
        Table { keys, values }
    }

    /// Returns the number of keys.
    pub(crate) fn len(&self) -> usize
        ensures { result ≡ length self.now }
    {
        self.keys().len()
    }

    /// Returns the keys, ascending.
    pub(crate) fn keys(&self) -> &[K]
        ensures value { result.now ≡ entry_keys self.now }
        ensures ascending { IsStrictlySortedBy K.cmp (entry_keys self.now) }
    {
        self.keys.as_slice()
    }

    /// Returns the values, in the order of their keys.
    pub(crate) fn values(&self) -> &[V]
        ensures { result.now ≡ entry_values self.now }
    {
        self.values.as_slice()
    }

    /// Returns the key at a place, counted from 0, which must be less than the number of keys.
    pub(crate) fn key_there(&self, place: usize) -> K
        requires { place < length self.now }
        ensures { Some result ≡ slice_get (entry_keys self.now) place }
    {
        self.keys()[place]
    }

    /// Returns the value at a place, counted from 0, which must be less than the number of keys.
    pub(crate) fn value_there(&self, place: usize) -> &V
        requires { place < length self.now }
        ensures { Some result.now ≡ slice_get (entry_values self.now) place }
    {
        &self.values()[place]
    }

    /// Returns the value at a place, counted from 0, or none past the end.
    pub(crate) fn value_at(&self, place: usize) -> Option<&V>
        ensures { option_copied result ≡ slice_get (entry_values self.now) place }
    {
        self.values().get(place)
    }

    /// Returns the place of a key, counted from 0, or none if the table doesn't have it.
    pub(crate) fn place(&self, key: K) -> Option<usize>
        ensures found { IfSome result (λ place. slice_get (entry_keys self.now) place ≡ Some key) }
        ensures known { is_some result ≡ contains K.cmp key (entry_keys self.now) }
        ensures ascending { IsStrictlySortedBy K.cmp (entry_keys self.now) }
    {
        place_of(self.keys(), key)
    }

    /// Returns the value under a key, or none if the table doesn't have it.
    pub(crate) fn get(&self, key: K) -> Option<&V>
        ensures { option_copied result ≡ value_under K.cmp key self.now }
    {
        match self.place(key) {
            Some(place) => self.value_at(place),
            None => None,
        }
    }
}
