//! The new numbers that pairs of an old and a new number give.

ghost use Rattle.std.specs.Prelude.{IfOk, ◌≡◌};
ghost use Rattle.ordered_lists.specs.Entries.{value_under};
ghost use Rattle.ordered_lists.specs.Pairs.{image};

use indexmap::IndexMap;
use ordered_lists::Key;
use std::alloc::{AllocError, Global};
use std::hash::Hash;
use std::marker::Model;

/// Pairs of an old and a new number, with a table of the new number of each old one. If several pairs have the same old number, the
/// first counts.
#[derive(Drop)]
pub struct Images<'a, K: Key + Hash> {
    table: IndexMap<K, K>,
    pairs: &'a [(K, K)],
}

impl<'a, K: Key + Hash> Model for Images<'a, K> {
    ghost use Rattle.std.specs.Prelude.{List, ◌≡◌};
    ghost use Rattle.indexmap.specs.IndexMap.{get};
    ghost use Rattle.ordered_lists.specs.Entries.{value_under};

    ghost Value = { List (K × K) };

    ghost view = { λ i. i.pairs.now };

    ghost invariant = { λ i. (old : K) → get K.eq i.table old ≡ value_under K.cmp old i.pairs.now };
}

impl<'a, K: Key + Hash> Images<'a, K> {
    /// Returns the pairs with their table.
    pub fn new(alloc: Global, pairs: &'a [(K, K)]) -> Result<Images<'a, K>, AllocError>
        ensures { IfOk result (λ images. images ≡ pairs.now) }
    {
        let mut table = IndexMap::with_capacity(alloc, pairs.len())?;
        let mut rest = pairs;
        while let Some((last, before)) = rest.split_last() {
            table.insert(last.0, last.1)?;
            rest = before;
        }
        Ok(Images { table, pairs })
    }

    /// Returns the new number of an old one, or `None` if no pair names it.
    pub fn of(&self, old: K) -> Option<K>
        ensures { result ≡ value_under K.cmp old self.now }
    {
        self.table.get(&old).copied()
    }

    /// Returns the new number of an old one, or the old number itself if no pair names it.
    pub fn image(&self, old: K) -> K
        ensures { result ≡ image K.cmp self.now old }
    {
        match self.of(old) {
            Some(new) => new,
            None => old,
        }
    }
}
