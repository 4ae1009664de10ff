//! Whether the lists of a renaming pair the numbers of two counties.

ghost use Rattle.std.specs.Prelude.{IfOk, IsTrue, false, ◌≡◌};
ghost use Rattle.std.specs.Bool.{Decides};
ghost use Rattle.std.specs.List.{AllByRecursion};
ghost use Rattle.std.specs.Ordering.{nat_cmp};
ghost use Rattle.county_chart.specs.CountyRules.{feats, lands, nodes, polygon_keys, tlids};
ghost use Rattle.county_chart.specs.Renumbering.{NumbersArePaired};
ghost use Rattle.ordered_lists.specs.Orders.{contains, has_repeat};
ghost use Rattle.ordered_lists.specs.Pairs.{ArePaired};

use crate::pairing::are_paired;
use county_chart::{Chart, Feats, Lands, Nodes, PolygonKey, Polygons, Tested, Tlids, all_hold};
use renamings::{Renaming, SortedNumbers};
use std::alloc::{AllocError, Global};

/// Checks whether two polygons have the same CENID.
fn have_one_cenid(old: PolygonKey, new: PolygonKey) -> bool
    ensures { Decides result (old.0 ≡ new.0) }
{
    old.0 == new.0
}

/// Pairs of polygons, tested for keeping the CENID.
#[derive(Drop)]
struct PolygonPairs<'a> {
    pairs: &'a [(PolygonKey, PolygonKey)],
}

impl<'a> Tested for PolygonPairs<'a> {
    ghost use Rattle.county_chart.specs.PolygonKeys.{PolygonKey};

    ghost Entry = { PolygonKey × PolygonKey };

    ghost entries = { λ p. p.pairs.now };

    ghost Holds = { λ p pair. pair.0.0 ≡ pair.1.0 };

    fn count(&self) -> usize {
        self.pairs.len()
    }

    fn holds(&self, place: usize) -> bool {
        let pair = self.pairs[place];
        have_one_cenid(pair.0, pair.1)
    }
}

/// Checks whether the pairs of all five kinds pair the two counties' numbers, and polygons keep their CENIDs.
fn lists_are_paired<A: Chart, B: Chart>(
    alloc: Global,
    a: &A,
    b: &B,
    renaming: &Renaming,
) -> Result<bool, AllocError>
    ensures { IfOk result (λ yes. Decides yes (ArePaired renaming.now.chains (tlids (A.county a.now)) (tlids (B.county b.now))
        × ArePaired renaming.now.names (feats (A.county a.now)) (feats (B.county b.now))
        × ArePaired renaming.now.polygons (polygon_keys (A.county a.now)) (polygon_keys (B.county b.now))
        × ArePaired renaming.now.lands (lands (A.county a.now)) (lands (B.county b.now))
        × ArePaired renaming.now.nodes (nodes (A.county a.now)) (nodes (B.county b.now))
        × AllByRecursion (λ pair. pair.0.0 ≡ pair.1.0) renaming.now.polygons)) }
{
    let chains = are_paired(alloc, renaming.chains(), &Tlids(a), &Tlids(b))?;
    if !chains {
        return Ok(false);
    }
    let names = are_paired(alloc, renaming.names(), &Feats(a), &Feats(b))?;
    if !names {
        return Ok(false);
    }
    let polygons = are_paired(alloc, renaming.polygons(), &Polygons(a), &Polygons(b))?;
    if !polygons {
        return Ok(false);
    }
    let lands = are_paired(alloc, renaming.lands(), &Lands(a), &Lands(b))?;
    if !lands {
        return Ok(false);
    }
    let nodes = are_paired(alloc, renaming.nodes(), &Nodes(a), &Nodes(b))?;
    if !nodes {
        return Ok(false);
    }
    let pairs = renaming.polygons();
    Ok(all_hold(&PolygonPairs { pairs }))
}

/// Checks whether a county has chains with all TLIDs of a list.
fn has_chains<C: Chart>(chart: &C, numbers: &[u64]) -> bool
    ensures { Decides result (AllByRecursion (λ tlid. IsTrue (contains nat_cmp tlid (tlids (C.county chart.now)))) numbers.now) }
{
    numbers
        .iter()
        .all(|tlid| chart.chain_place(*tlid).is_some())
}

/// Checks whether each turned TLID is one of the county and is listed once.
fn are_turned_once<C: Chart>(
    alloc: Global,
    chart: &C,
    renaming: &Renaming,
) -> Result<bool, AllocError>
    ensures { IfOk result (λ yes. Decides yes ((has_repeat nat_cmp renaming.now.turned ≡ false)
        × AllByRecursion (λ tlid. IsTrue (contains nat_cmp tlid (tlids (C.county chart.now)))) renaming.now.turned)) }
{
    let turned = SortedNumbers::new(alloc, renaming.turned())?;
    Ok(turned.has_no_repeat() && has_chains(chart, renaming.turned()))
}

/// Checks whether the renaming pairs the numbers of the two counties: each old number is once on the left, each new one once on the right,
/// and no other number is there; polygons keep their CENIDs; and each turned TLID is one of `a` and is listed once.
pub(crate) fn numbers_are_paired<A: Chart, B: Chart>(
    alloc: Global,
    a: &A,
    b: &B,
    renaming: &Renaming,
) -> Result<bool, AllocError>
    ensures { IfOk result (λ yes. Decides yes (NumbersArePaired renaming.now (A.county a.now) (B.county b.now))) }
{
    let lists = lists_are_paired(alloc, a, b, renaming)?;
    if !lists {
        return Ok(false);
    }
    // Trick: `?` lets the prover look at each outcome by itself.
    let turned = are_turned_once(alloc, a, renaming)?;
    Ok(turned)
}
