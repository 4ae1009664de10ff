//! Lists of numbers that are asked which numbers are in them.

ghost use Rattle.std.specs.Prelude.{IfOk, false, ◌≡◌};
ghost use Rattle.std.specs.Bool.{Decides};
ghost use Rattle.std.specs.Ordering.{nat_cmp};
ghost use Rattle.ordered_lists.specs.Orders.{contains, has_repeat};

use ordered_lists::place_of;
use std::alloc::{AllocError, Global};
use std::marker::Model;

/// A list of numbers, with a sorted copy that is searched.
#[derive(Drop)]
pub struct SortedNumbers<'a> {
    sorted: Vec<u64>,
    numbers: &'a [u64],
}

impl<'a> Model for SortedNumbers<'a> {
    ghost use Rattle.std.specs.Ordering.{nat_cmp};
    ghost use Rattle.std.specs.Prelude.{IsPermutation, List, ℕ};
    ghost use Rattle.ordered_lists.specs.Orders.{IsInOrder};

    ghost Value = { List ℕ };

    ghost view = { λ s. s.numbers.now };

    ghost invariant = { λ s. IsInOrder nat_cmp s.sorted.items × IsPermutation s.numbers.now s.sorted.items };
}

impl<'a> SortedNumbers<'a> {
    /// Returns the numbers with their sorted copy.
    pub fn new(alloc: Global, numbers: &'a [u64]) -> Result<SortedNumbers<'a>, AllocError>
        ensures { IfOk result (λ set. set ≡ numbers.now) }
    {
        let mut sorted = Vec::from_slice(alloc, numbers)?;
        sorted.sort()?;
        Ok(SortedNumbers { sorted, numbers })
    }

    /// Checks whether a number is in the list.
    pub fn contains(&self, number: u64) -> bool
        ensures { result ≡ contains nat_cmp number self.now }
    {
        place_of(&self.sorted, number).is_some()
    }

    /// Checks whether no number is in the list twice.
    pub fn has_no_repeat(&self) -> bool
        ensures { Decides result (has_repeat nat_cmp self.now ≡ false) }
    {
        self.sorted.is_sorted_by(|number, next| number < next)
    }
}
