//! Marks by number. A number that has a place for a mark is looked up in a list by one read.

ghost use Rattle.std.specs.Ordering.{nat_cmp};
ghost use Rattle.std.specs.Prelude.{IfOk, length, ◌*◌, ◌≡◌, ◌≤◌};
ghost use Rattle.ordered_lists.specs.Marks.{AreMarksOf};
ghost use Rattle.ordered_lists.specs.Orders.{IsInOrder, contains};

use crate::keys::place_of;
use std::alloc::{AllocError, Global};

/// The most places for marks per number of a list.
const PLACES_EACH: usize = 8;

/// Returns the number of places for marks that a list in order gets: one for each number up to its greatest, but at most 8 per element.
fn places_for(numbers: &[u32]) -> usize
    ensures { result ≤ 8 * length numbers.now }
{
    let most = numbers.len().saturating_mul(PLACES_EACH);
    match numbers.last() {
        Some(greatest) => most.min(*greatest as usize + 1),
        None => 0,
    }
}

/// Marks for the numbers of a list in order, each at the place of its number. Numbers past the last place have none: a shorter list of
/// marks is right too, and slower to use.
///
/// # Errors
///
/// `AllocError` if an allocation failed.
pub fn marks_of(alloc: Global, numbers: &[u32]) -> Result<Vec<bool>, AllocError>
    ensures { IfOk result (λ marks. AreMarksOf numbers.now marks.items) }
{
    let mut marks = vec![in alloc; false; places_for(numbers)]?;
    for number in numbers {
        let place = *number as usize;
        if place < marks.len() {
            marks[place] = true;
        }
    }
    Ok(marks)
}

/// Checks whether a list in order has a number, read from the list's marks. The list is searched only if the number has no place for a
/// mark.
pub fn is_marked(marks: &[bool], numbers: &[u32], number: u32) -> bool
    requires marks { AreMarksOf numbers.now marks.now }
    requires numbers { IsInOrder nat_cmp numbers.now }
    ensures { result ≡ contains nat_cmp number numbers.now }
{
    match marks.get(number as usize) {
        Some(mark) => *mark,
        None => place_of::<u32>(numbers, number).is_some(),
    }
}
