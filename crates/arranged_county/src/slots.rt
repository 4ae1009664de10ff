//! How many slots the tables of marks have.
//!
//! A key that shares a slot is slow to find, and the author of a file chooses its numbers. So if many tables are filled with the same
//! keys, several numbers of slots are tried first: keys that share slots with one of them mostly don't with another.

ghost use Rattle.std.specs.Prelude.{IfOk, length, ◌*◌, ◌+◌, ◌≤◌};
ghost use Rattle.county_chart.specs.CountyRules.{nodes};

use crate::numbers::{NumericKey, marks_for, slot_of};
use county_chart::{Chart, Feats, Listed, Nodes, Polygons};
use ordered_lists::sort_distinct;
use std::alloc::{AllocError, Global};

/// How many numbers of slots are tried.
const MOST_TRIES: usize = 16;

/// How many slots there are for nodes, polygons and names.
#[derive(Clone, Copy, Drop)]
pub(crate) struct Slots {
    pub(crate) nodes: usize,
    pub(crate) polygons: usize,
    pub(crate) names: usize,
}

/// Returns how many of this many slots keys take.
fn count_taken<L: Listed>(alloc: Global, keys: &L, slots: usize) -> Result<usize, AllocError>
where
    L::Item: NumericKey + Drop,
{
    let mut taken = (0..keys.count())
        .filter_map(|place| keys.get(place))
        .map(|key| slot_of(slots, key.number()) as u64)
        .collect(alloc)?;
    sort_distinct(&mut taken);
    Ok(taken.len())
}

/// Returns how many slots a try gives this many keys: the usual number at first, and with each further try a sixteenth of it more, up to
/// about twice as many.
fn slots_of_try(count: usize, attempt: usize) -> usize
    ensures { result ≤ 16 * count + 16 }
{
    let usual = marks_for(count);
    let more = usual / MOST_TRIES + 1;
    usual.saturating_add(attempt.min(MOST_TRIES - 1) * more)
}

/// Returns a number of slots of which these keys take at least seven for every eight keys. If no try has one, returns the best that was
/// tried.
fn slots_apart<L: Listed>(alloc: Global, keys: &L) -> Result<usize, AllocError>
where
    L::Item: NumericKey + Drop,
    ensures { IfOk result (λ slots. slots ≤ 16 * length (L.items keys.now) + 16) }
{
    let count = keys.count();
    let mut best = 0;
    let mut most = 0;
    for attempt in 0..MOST_TRIES {
        let taken = count_taken(alloc, keys, slots_of_try(count, attempt))?;
        if taken > most {
            best = attempt;
            most = taken;
        }
        if taken >= count - count / 8 {
            break;
        }
    }
    Ok(slots_of_try(count, best))
}

impl Slots {
    /// Returns the usual numbers of slots, for tables that are filled once.
    pub(crate) fn usual<C: Chart>(chart: &C) -> Slots
        ensures nodes { result.nodes ≤ 8 * length (C.county chart.now).chains }
        ensures polygons { result.polygons ≤ 8 * length (C.county chart.now).chains }
        ensures names { result.names ≤ 8 * length (C.county chart.now).names }
    {
        let for_sides = marks_for(chart.chain_count());
        Slots {
            nodes: for_sides,
            polygons: for_sides,
            names: marks_for(chart.name_count()),
        }
    }

    /// Returns numbers of slots with which few numbers of the county share one, for tables that are filled many times.
    pub(crate) fn apart<C: Chart>(alloc: Global, chart: &C) -> Result<Slots, AllocError>
        ensures nodes { IfOk result (λ slots. slots.nodes ≤ 16 * length (nodes (C.county chart.now)) + 16) }
        ensures polygons { IfOk result (λ slots. slots.polygons ≤ 16 * length (C.county chart.now).polygons + 16) }
        ensures names { IfOk result (λ slots. slots.names ≤ 16 * length (C.county chart.now).names + 16) }
    {
        Ok(Slots {
            nodes: slots_apart(alloc, &Nodes(chart))?,
            polygons: slots_apart(alloc, &Polygons(chart))?,
            names: slots_apart(alloc, &Feats(chart))?,
        })
    }
}
