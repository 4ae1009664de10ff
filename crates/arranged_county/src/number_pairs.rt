//! The renaming that carries a county onto its arrangement.

ghost use Rattle.std.specs.Prelude.{IfOk, List, length, map, ℕ, ◌<◌, ◌^◌, ◌≡◌};
ghost use Rattle.ordered_lists.specs.Entries.{entry_keys};
ghost use Rattle.county_chart.specs.Renumbering.{Carries};
ghost use Rattle.tl_layout.specs.declared.type7.Body7.{Body7};
ghost use Rattle.canonical_form.specs.Arrangement.{arranged_tlids, renaming_of, turned_tlids, under_cenid};
ghost use Rattle.canonical_form.specs.DirectedChains.{HasChainsOf, arrangement_of};
ghost use Rattle.canonical_form.specs.Growth.{numbered};
ghost use Rattle.canonical_form.specs.WholeArrangements.{AreReadAt};
ghost use Rattle.arranged_county.specs.Views.{arranged_county, arrangement_in, source_of};

use crate::arranged::{Arranged, Evidence};
use crate::landmark_order::lands_there;
use county_chart::{Chart, DirectedChain, PolygonKey};
use renamings::Renaming;
use std::alloc::{AllocError, Global};

/// Pairs each number with its place, counted from 1.
fn number_all(alloc: Global, olds: &[u64]) -> Result<Vec<(u64, u64)>, AllocError>
    ensures { IfOk result (λ pairs. pairs.items ≡ numbered olds.now) }
{
    olds.iter()
        .copied()
        .zip(1..olds.len() as u64 + 1)
        .collect(alloc)
}

fn tlids_of<C: Chart>(
    alloc: Global,
    chart: &C,
    arrangement: &[DirectedChain],
) -> Result<Vec<u64>, AllocError>
    requires { HasChainsOf (C.county chart.now) arrangement.now }
    ensures { IfOk result (λ tlids. tlids.items ≡ arranged_tlids (arrangement_of (C.county chart.now) arrangement.now)) }
{
    arrangement
        .iter()
        .filter_map(|directed| chart.tlid_at(directed.place as usize))
        .collect(alloc)
}

/// Returns the TLIDs of the chains that the arrangement turns.
fn turned_chains<C: Chart>(
    alloc: Global,
    chart: &C,
    arrangement: &[DirectedChain],
) -> Result<Vec<u64>, AllocError>
    requires { HasChainsOf (C.county chart.now) arrangement.now }
    ensures { IfOk result (λ tlids. tlids.items ≡ turned_tlids (arrangement_of (C.county chart.now) arrangement.now)) }
{
    arrangement
        .iter()
        .filter(|directed| directed.turned)
        .filter_map(|directed| chart.tlid_at(directed.place as usize))
        .collect(alloc)
}

/// Pairs each FEAT with its number, counted from 1.
fn name_pairs(alloc: Global, feats: &[u32]) -> Result<Vec<(u32, u32)>, AllocError>
    requires { length feats.now < 2 ^ 32 }
    ensures { IfOk result (λ pairs. pairs.items ≡ numbered feats.now) }
{
    feats
        .iter()
        .enumerate()
        .map(|(place, feat)| (*feat, place as u32 + 1))
        .collect(alloc)
}

/// Returns a polygon's key with its new key, which has the same CENID.
fn polygon_pair(key: PolygonKey, number: u64) -> (PolygonKey, PolygonKey)
    ensures { result ≡ under_cenid (key, number) }
{
    let cenid = key.0;
    (key, (cenid, number))
}

/// Returns polygons in the order of their new numbers, each with its new key.
fn polygon_pairs(
    alloc: Global,
    polygons: &[PolygonKey],
) -> Result<Vec<(PolygonKey, PolygonKey)>, AllocError>
    ensures { IfOk result (λ pairs. pairs.items ≡ map under_cenid (numbered polygons.now)) }
{
    polygons
        .iter()
        .copied()
        .zip(1..polygons.len() as u64 + 1)
        .map(|(key, number)| polygon_pair(key, number))
        .collect(alloc)
}

/// Returns the LANDs of the landmarks at these places, each with the new one.
fn land_pairs<C: Chart>(
    alloc: Global,
    chart: &C,
    places: &[u32],
) -> Result<Vec<(u64, u64)>, AllocError>
    ensures { IfOk result (λ pairs. (ls : List (ℕ × List Body7)) → AreReadAt (C.county chart.now).landmarks places.now ls → pairs.items ≡ numbered (entry_keys ls)) }
{
    let lands = lands_there(alloc, chart, places)?;
    // Trick: `?` lets the prover look at each outcome by itself.
    let pairs = number_all(alloc, &lands)?;
    Ok(pairs)
}

impl<C: Chart, S: Evidence> Arranged<C, S> {
    /// Returns the pairs of polygons and the pairs of landmarks: each old number with the new one, in the order of the new ones.
    fn place_pairs(
        &self,
        alloc: Global,
    ) -> Result<(Vec<(PolygonKey, PolygonKey)>, Vec<(u64, u64)>), AllocError>
        ensures polygons { IfOk result (λ pairs. pairs.0.items ≡
            (renaming_of (C.county self.now.chart) (arrangement_of (C.county self.now.chart) self.now.arrangement.items)).polygons) }
        ensures lands { IfOk result (λ pairs. pairs.1.items ≡
            (renaming_of (C.county self.now.chart) (arrangement_of (C.county self.now.chart) self.now.arrangement.items)).lands) }
    {
        let polygons = polygon_pairs(alloc, self.polygons.numbers.keys())?;
        let lands = land_pairs(alloc, &self.chart, &self.landmarks.places)?;
        Ok((polygons, lands))
    }

    /// Returns the pairs of chains: each old TLID with the new one, in the order of the new ones. Also the old TLIDs of the turned chains.
    fn tlid_pairs(&self, alloc: Global) -> Result<(Vec<(u64, u64)>, Vec<u64>), AllocError>
        ensures chains { IfOk result (λ stated. stated.0.items ≡
            (renaming_of (C.county self.now.chart) (arrangement_of (C.county self.now.chart) self.now.arrangement.items)).chains) }
        ensures turned { IfOk result (λ stated. stated.1.items ≡
            (renaming_of (C.county self.now.chart) (arrangement_of (C.county self.now.chart) self.now.arrangement.items)).turned) }
    {
        let tlids = tlids_of(alloc, &self.chart, &self.arrangement)?;
        let chains = number_all(alloc, &tlids)?;
        let turned = turned_chains(alloc, &self.chart, &self.arrangement)?;
        Ok((chains, turned))
    }

    /// Makes the renaming that carries the source county onto this one: each old number with the new one, in the order of the
    /// new ones, and the old TLIDs of the turned chains.
    ///
    /// # Errors
    ///
    /// `AllocError` if an allocation failed.
    pub fn renaming(&self, alloc: Global) -> Result<Renaming, AllocError>
        ensures value { IfOk result (λ r. r ≡ renaming_of (C.county (source_of self.now)) (arrangement_in self.now)) }
        ensures carries { IfOk result (λ r. Carries r (C.county (source_of self.now)) (arranged_county self.now)) }
    {
        let (chains, turned) = self.tlid_pairs(alloc)?;
        let names = name_pairs(alloc, self.names.feats.keys())?;
        let (polygons, lands) = self.place_pairs(alloc)?;
        let nodes = number_all(alloc, self.nodes.numbers.keys())?;
        Ok(Renaming::new(chains, names, polygons, lands, nodes, turned))
    }
}
