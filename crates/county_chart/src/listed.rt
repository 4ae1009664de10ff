//! Lists that are read by place: one loop for each question about all items.

ghost use Rattle.std.specs.Prelude.{OnErr, OnOk, take, ℕ, ◌++◌, ◌≡◌};
ghost use Rattle.std.specs.Bool.{Decides};
ghost use Rattle.std.specs.Cmp.Lexicographic.{slice_cmp};
ghost use Rattle.std.specs.List.{AllByRecursion};

use crate::same::Same;
use std::alloc::AllocError;
use std::cmp::Ordering;

/// A list that is read by place.
pub trait Listed {
    ghost use Rattle.std.specs.Prelude.{List, Some, length, slice_get, ◌<◌, ◌≡◌};

    /// An item.
    type Item;

    /// The items.
    ghost items: { Self → List Self.Item };

    /// Returns the number of items.
    fn count(&self) -> usize
        ensures { result ≡ length (items self.now) };

    /// Returns the item at a place, which is below their number.
    fn item(&self, place: usize) -> Self::Item
        requires { place < length (items self.now) }
        ensures { Some result ≡ slice_get (items self.now) place };

    /// The item at a place, or `None` past the last item.
    final fn get(&self, place: usize) -> Option<Self::Item>
        ensures { result ≡ slice_get (items self.now) place }
    {
        if place < self.count() {
            Some(self.item(place))
        } else {
            None
        }
    }
}

/// A slice is the list of its items.
impl<T: Copy> Listed for &[T] {
    type Item = T;

    ghost items = { λ slice. slice.now };

    fn count(&self) -> usize {
        self.len()
    }

    fn item(&self, place: usize) -> T {
        self[place]
    }
}

/// Checks whether two lists have the same items in the same order.
pub fn are_same<A: Listed, B: Listed<Item = A::Item>>(a: &A, b: &B) -> bool
where
    A::Item: Same,
    ensures { Decides result (B.items b.now ≡ A.items a.now) }
{
    let count = a.count();
    if b.count() != count {
        return false;
    }
    for place in 0..count {
        let same = b.item(place).is_same(&a.item(place));
        if !same {
            return false;
        }
    }
    true
}

/// Compares two lists. The first items that differ decide; a list comes after each of its beginnings.
pub fn compare<T: Ord + Drop, A: Listed<Item = T>, B: Listed<Item = T>>(a: &A, b: &B) -> Ordering
    ensures { result ≡ slice_cmp T.cmp (A.items a.now) (B.items b.now) }
{
    let count = a.count();
    let other_count = b.count();
    let shared = if count < other_count {
        count
    } else {
        other_count
    };
    for place in 0..shared {
        match a.item(place).cmp(&b.item(place)) {
            Ordering::Equal => {}
            unequal => return unequal,
        }
    }
    count.cmp(&other_count)
}

/// Appends the items of a list.
///
/// # Errors
///
/// `AllocError` if an allocation failed. The first of these items may then have been appended.
pub fn push_all<L: Listed>(items: &mut Vec<L::Item>, list: &L) -> Result<(), AllocError>
where
    L::Item: Drop,
    ensures ok { OnOk result (items.new.items ≡ items.old.items ++ L.items list.now) }
    // What was there stays in front, and only a beginning of the list follows it.
    ensures err { OnErr result ((count : ℕ) × (items.new.items ≡ items.old.items ++ take count (L.items list.now))) }
{
    for place in 0..list.count() {
        items.push(list.item(place))?;
    }
    Ok(())
}

/// A list whose entries are tested one by one.
pub trait Tested {
    ghost use Rattle.std.specs.Bool.{Decides};
    ghost use Rattle.std.specs.Prelude.{IfSome, List, length, slice_get, ◌<◌, ◌≡◌};

    /// An entry.
    ghost Entry: { Type 0 };

    /// The entries.
    ghost entries: { Self → List Entry };

    /// The property that is tested.
    ghost Holds: { Self → Entry → Type 0 };

    /// Returns the number of entries.
    fn count(&self) -> usize
        ensures { result ≡ length (entries self.now) };

    /// Checks whether the entry at a place, which is below their number, has the property.
    fn holds(&self, place: usize) -> bool
        requires { place < length (entries self.now) }
        ensures { Decides result (IfSome (slice_get (entries self.now) place) (Holds self.now)) };
}

/// Checks whether all entries have the property.
pub fn all_hold<T: Tested>(tested: &T) -> bool
    ensures { Decides result (AllByRecursion (T.Holds tested.now) (T.entries tested.now)) }
{
    (0..tested.count()).all(|place| tested.holds(place))
}
