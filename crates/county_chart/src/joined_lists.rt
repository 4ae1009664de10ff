//! Lists that are stored one after the other in one vector.

ghost use Rattle.std.specs.Prelude.{OnOk, [], slice_get, unwrap_or, ◌++◌, ◌∷◌, ◌≡◌};

use std::alloc::{AllocError, Global};
use std::marker::Model;

/// Lists that are stored one after the other in one vector.
#[derive(Drop)]
pub(crate) struct JoinedLists<T: Copy> {
    items: Vec<T>,
    ranges: Vec<(usize, usize)>,
}

impl<T: Copy> Model for JoinedLists<T> {
    ghost use Rattle.std.specs.Prelude.{List, length};
    ghost use Rattle.county_chart.specs.JoinedLists.{AreWithin, pieces_in};

    ghost Value = { List (List T) };

    ghost view = { λ lists. pieces_in lists.items.items lists.ranges.items };

    ghost invariant = { λ lists. AreWithin (length lists.items.items) lists.ranges.items };
}

impl<T: Copy> JoinedLists<T> {
    /// Makes an empty list of lists. It allocates nothing.
    pub(crate) fn new(alloc: Global) -> JoinedLists<T>
        ensures { result ≡ [] }
    {
        JoinedLists {
            items: Vec::new(alloc),
            ranges: Vec::new(alloc),
        }
    }

    /// Appends a list.
    pub(crate) fn push(&mut self, list: &[T]) -> Result<(), AllocError>
        ensures { OnOk result (self.new ≡ self.old ++ (list.now ∷ [])) }
    {
        let start = self.items.len();
        self.items.extend_from_slice(list)?;
        self.ranges.push((start, self.items.len()))?;
        Ok(())
    }

    /// Returns the list at a place, from 0, empty past the last one.
    pub(crate) fn at(&self, place: usize) -> &[T]
        ensures { result.now ≡ unwrap_or (slice_get self.now place) [] }
    {
        match self.ranges.as_slice().get(place) {
            Some(range) => &self.items[range.0..range.1],
            None => &[],
        }
    }
}
