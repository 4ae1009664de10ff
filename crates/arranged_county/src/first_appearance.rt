//! Nodes and polygons in the order of their first appearance along an arrangement, and the chains with these numbers.
//!
//! First the ends and the sides of all chains are copied along the arrangement. They are numbered from the copy, so reading one
//! chain doesn't wait until another's number is found. They are stored with their new numbers, and no number is looked up
//! again.

ghost use Rattle.std.specs.Prelude.{IfOk, OnOk, Some, [], flat_map, length, map, option_map, ◌≡◌};
ghost use Rattle.ordered_lists.specs.Entries.{entry_values};
ghost use Rattle.county_chart.specs.ChartWords.{ends_of, sides_of};
ghost use Rattle.canonical_form.specs.EndsAndSides.{changed_both, keys_at};
ghost use Rattle.canonical_form.specs.Arrangement.{polygons_in_order};
ghost use Rattle.canonical_form.specs.DirectedChains.{HasChainsOf, arrangement_of};
ghost use Rattle.canonical_form.specs.Growth.{first_seen};
ghost use Rattle.canonical_form.specs.WholeArrangements.{AreWhole, arranged_by};
ghost use Rattle.county_chart.specs.DirectedChains.{directed_chain};
ghost use Rattle.arranged_county.specs.ViewFacts.{MatchesNodes};

use crate::arranged_tables::{Ends, NodeTables, Sides};
use crate::directed_readers::{ends_of_directed, sides_of_directed};
use crate::numbers::{Interner, NumericKey};
use crate::pairing::if_done;
use crate::slots::Slots;
use county_chart::{Chart, DirectedChain, PolygonKey};
use ordered_lists::Key;
use std::alloc::{AllocError, Global};
use std::hash::Hash;
use tl_layout::{NumberOrNone, Side};

/// Returns the ends and the sides of these directed chains, in two lists.
///
/// Trick: they are read before any node or polygon is numbered, so that reading one chain need not wait for another, and in one walk,
/// since a chain may be anywhere in memory.
///
/// # Errors
///
/// `AllocError` if an allocation failed.
pub fn topologies_along<C: Chart>(
    alloc: Global,
    chart: &C,
    arrangement: &[DirectedChain],
) -> Result<(Vec<Ends>, Vec<Sides>), AllocError>
    requires { HasChainsOf (C.county chart.now) arrangement.now }
    ensures ends { IfOk result (λ met. map Some met.0.items ≡ map (λ directed. option_map ends_of (directed_chain (C.county chart.now) directed)) arrangement.now) }
    ensures sides { IfOk result (λ met. map Some met.1.items ≡ map (λ directed. option_map sides_of (directed_chain (C.county chart.now) directed)) arrangement.now) }
{
    let mut ends = Vec::with_capacity(alloc, arrangement.len())?;
    let mut sides = Vec::with_capacity(alloc, arrangement.len())?;
    for directed in arrangement {
        ends.push(ends_of_directed(chart, *directed))?;
        sides.push(sides_of_directed(chart, *directed))?;
    }
    Ok((ends, sides))
}

/// An end or a side of a chain. It may have a key, a node or a polygon, which is replaced with its number.
pub trait Half: Copy + Drop {
    ghost use Rattle.std.specs.Prelude.{IfOk, List, OnOk, length, option_to_list, ℕ, ◌≡◌, ◌≤◌};
    ghost use Rattle.canonical_form.specs.Growth.{first_seen_after};

    /// A key.
    type Old: Key + Hash + NumericKey;

    /// Its key, if it has one.
    ghost keys: { Self → List Self.Old };

    /// What it is with the number of its key among these keys.
    ghost among: { List Self.Old → Self → Self };

    /// This many keys can be numbered.
    ghost AreFew: { ℕ → Type 0 };

    /// Returns its key, if it has one.
    fn key(self) -> Option<Self::Old>
        ensures { option_to_list result ≡ keys self };

    /// Sees the key, if there is one, and returns the half with its number, which stays whatever is seen later.
    fn number(self, numbers: &mut Interner<Self::Old>) -> Result<Self, AllocError>
        requires { AreFew (length (first_seen_after Self.Old.cmp numbers.old (keys self))) }
        ensures seen { OnOk result (numbers.new ≡ first_seen_after Self.Old.cmp numbers.old (keys self)) }
        ensures number { IfOk result (λ new. (later : List Self.Old) → new ≡ among (first_seen_after Self.Old.cmp numbers.new later) self) };

    /// Fewer keys can be numbered too.
    ghost fewer: { (m n : ℕ) → m ≤ n → AreFew n → AreFew m };
}

/// A node.
impl Half for NumberOrNone {
    ghost use Rattle.std.specs.Prelude.{option_to_list};
    ghost use Rattle.canonical_form.specs.EndsAndSides.{node_among};

    type Old = u64;

    ghost keys = { option_to_list };

    ghost among = { node_among };

    ghost AreFew = { λ _. Unit {0} };

    fn key(self) -> Option<u64> {
        self.get()
    }

    fn number(self, numbers: &mut Interner<u64>) -> Result<NumberOrNone, AllocError> {
        match self.get() {
            Some(number) => {
                let place = numbers.see_place(number)?;
                Ok(NumberOrNone::new(Some(place as u64 + 1)))
            }
            None => Ok(self),
        }
    }

    ghost fewer = { λ _ _ _ _. tt };
}

/// A side, with its polygon's CENID and POLYID.
impl Half for Side {
    ghost use Rattle.county_chart.specs.PolygonKeys.{key_on};
    ghost use Rattle.canonical_form.specs.EndsAndSides.{AreFewPolygons, fewer_polygons, side_among};

    type Old = PolygonKey;

    ghost keys = { key_on };

    ghost among = { side_among };

    ghost AreFew = { AreFewPolygons };

    fn key(self) -> Option<PolygonKey> {
        self.polyid().map(|polyid| (self.cenid(), polyid))
    }

    fn number(self, numbers: &mut Interner<PolygonKey>) -> Result<Side, AllocError> {
        match self.polyid() {
            Some(polyid) => {
                let cenid = self.cenid();
                let place = numbers.see_place((cenid, polyid))?;
                Ok(Side::new(cenid, Some(place as u64 + 1)))
            }
            None => Ok(self),
        }
    }

    ghost fewer = { fewer_polygons };
}

/// Sees the keys of ends or sides, and replaces them with their numbers.
fn see_pairs<T: Half>(
    numbers: &mut Interner<T::Old>,
    pairs: &mut [(T, T)],
) -> Result<(), AllocError>
    requires first { numbers.old ≡ [] }
    requires few { T.AreFew (length (first_seen T.Old.cmp (flat_map (keys_at T.keys) pairs.old))) }
    ensures numbers { OnOk result (numbers.new ≡ first_seen T.Old.cmp (flat_map (keys_at T.keys) pairs.old)) }
    ensures pairs { OnOk result
        (pairs.new ≡ map (changed_both (T.among (first_seen T.Old.cmp (flat_map (keys_at T.keys) pairs.old)))) pairs.old) }
{
    for pair in pairs.iter_mut() {
        let (first, second) = *pair;
        let new_first = first.number(numbers)?;
        let new_second = second.number(numbers)?;
        *pair = (new_first, new_second);
    }
    Ok(())
}

/// Returns the keys of these ends or sides in the order of their first appearance, and the ends or sides with these numbers. The table of
/// the keys gets this many slots.
pub(crate) fn number_pairs<T: Half>(
    alloc: Global,
    pairs: Vec<(T, T)>,
    slots: usize,
) -> Result<(Interner<T::Old>, Vec<(T, T)>), AllocError>
    requires { T.AreFew (length (first_seen T.Old.cmp (flat_map (keys_at T.keys) pairs.items))) }
    ensures numbers { IfOk result (λ tables. tables.0 ≡ first_seen T.Old.cmp (flat_map (keys_at T.keys) pairs.items)) }
    ensures pairs { IfOk result (λ tables. tables.1.items
        ≡ map (changed_both (T.among (first_seen T.Old.cmp (flat_map (keys_at T.keys) pairs.items)))) pairs.items) }
{
    let mut pairs = pairs;
    let mut numbers = Interner::with_marks(alloc, slots)?;
    let seen = see_pairs(&mut numbers, &mut pairs);
    if_done((numbers, pairs), seen)
}

/// Returns the nodes and the polygons of a county in the order of their first appearance along these directed chains, start before end and
/// left before right, and the ends and the sides of these chains with the new numbers and keys.
pub(crate) fn number_topologies<C: Chart>(
    alloc: Global,
    chart: &C,
    arrangement: &[DirectedChain],
    slots: Slots,
) -> Result<(NodeTables, Interner<PolygonKey>, Vec<Sides>), AllocError>
    requires { AreWhole (C.county chart.now) arrangement.now }
    ensures nodes { IfOk result (λ tables. MatchesNodes (C.county chart.now) arrangement.now tables.0) }
    ensures polygons { IfOk result (λ tables. tables.1 ≡ polygons_in_order (C.county chart.now) (arrangement_of (C.county chart.now) arrangement.now)) }
    ensures sides { IfOk result (λ tables. tables.2.items ≡ map sides_of (entry_values (arranged_by (C.county chart.now) arrangement.now).chains)) }
{
    let (ends, sides) = topologies_along(alloc, chart, arrangement)?;
    let (nodes, ends) = number_pairs(alloc, ends, slots.nodes)?;
    let (polygons, sides) = number_pairs(alloc, sides, slots.polygons)?;
    Ok((
        NodeTables {
            numbers: nodes,
            ends,
        },
        polygons,
        sides,
    ))
}
