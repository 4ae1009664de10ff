//! A county in an arrangement of its chains, read through its source county.

ghost use Rattle.std.specs.Prelude.{Some, length, option_map, slice_get, ◌<◌, ◌≡◌};
ghost use Rattle.std.specs.Option.{option_and_then};
ghost use Rattle.std.specs.Ordering.{nat_cmp};
ghost use Rattle.county_chart.specs.CountyRules.{AllKeysContained, polygon_keys, polygons_along};
ghost use Rattle.county_chart.specs.ChartWords.{chain_at, polygon_under};
ghost use Rattle.county_chart.specs.DirectedChains.{directed_chain};
ghost use Rattle.county_chart.specs.Renumbering.{renumbered};
ghost use Rattle.ordered_lists.specs.Pairs.{image};
ghost use Rattle.canonical_form.specs.Arrangement.{renaming_of};
ghost use Rattle.canonical_form.specs.WholeArrangements.{AreWhole, arranged_by};
ghost use Rattle.canonical_form.specs.ByNumber.{polygons_by_number};
ghost use Rattle.canonical_form.specs.DirectedChains.{arrangement_of};
ghost use Rattle.arranged_county.specs.ViewFacts.{MatchesLandmarks, MatchesNames, MatchesNodes, MatchesPolygons};
ghost use Rattle.arranged_county.specs.ViewProps.{AreSidesContained-prop, AreWhole-prop, MatchesLandmarks-prop, MatchesNames-prop, MatchesNodes-prop, MatchesPolygons-prop};

use crate::arranged_tables::{Ends, LandmarkTables, NameTables, NodeTables, PolygonTables, Sides};
use crate::numbers::is_at;
use crate::renumbering::new_feat;
use county_chart::{Chart, DirectedChain, Listed, PolygonKey};
use std::marker::PhantomData;
use tl_layout::{BodyP, Rec8};

/// A fact about an arranged county, in terms of its source county and of itself.
pub trait Evidence {
    ghost use Rattle.county_chart.specs.County.{County};

    ghost holds: { County → County → Type 0 };
}

/// No further fact is known.
#[derive(Drop)]
pub struct Unknown;

impl Evidence for Unknown {
    ghost holds = { λ source county. Unit {0} };
}

/// A county whose chains have the order and the directions of an arrangement, and all numbers that follow from these. It stores
/// only the new numbers of nodes and sides for each chain. Everything else is read from the source county, and turned and
/// renumbered as it is read.
#[derive(Drop)]
pub struct Arranged<C: Chart, S: Evidence = Unknown> {
    pub(crate) chart: C,
    pub(crate) arrangement: Vec<DirectedChain>,
    pub(crate) nodes: NodeTables,
    pub(crate) polygons: PolygonTables,
    pub(crate) names: NameTables,
    pub(crate) landmarks: LandmarkTables,
    pub(crate) evidence: PhantomData<S>,
    ghost whole: { AreWhole (C.county chart) arrangement.items } by { AreWhole-prop (C.county chart) arrangement.items },
    ghost sides: { AllKeysContained (polygons_along (C.county chart).chains) (polygon_keys (C.county chart)) } by { AreSidesContained-prop (C.county chart) },
    ghost nodes_stated: { MatchesNodes (C.county chart) arrangement.items nodes } by { MatchesNodes-prop (C.county chart) arrangement.items nodes },
    ghost polygons_stated: { MatchesPolygons (C.county chart) arrangement.items polygons } by { MatchesPolygons-prop (C.county chart) arrangement.items polygons },
    ghost names_stated: { MatchesNames (C.county chart) arrangement.items names } by { MatchesNames-prop (C.county chart) arrangement.items names },
    ghost landmarks_stated: { MatchesLandmarks (C.county chart) arrangement.items landmarks } by { MatchesLandmarks-prop (C.county chart) arrangement.items landmarks },
    ghost stands: { ∥ S.holds (C.county chart) (arranged_by (C.county chart) arrangement.items) ∥₁ },
}

impl<C: Chart, S: Evidence> Arranged<C, S> {
    /// Returns the directed chain at a place in the new order, which must be less than the number of chains.
    pub(crate) fn directed_there(&self, place: usize) -> DirectedChain
        requires { place < length (arranged_by (C.county self.now.chart) self.now.arrangement.items).chains }
        ensures chain { chain_at (arranged_by (C.county self.now.chart) self.now.arrangement.items) place
            ≡ option_map (renumbered (renaming_of (C.county self.now.chart) (arrangement_of (C.county self.now.chart) self.now.arrangement.items)))
            (directed_chain (C.county self.now.chart) result) }
        ensures there { result.place < length (C.county self.now.chart).chains }
    {
        self.arrangement.as_slice().item(place)
    }

    /// Returns a further name with its new FEAT.
    pub(crate) fn renumbered_feat(&self, feat: u32) -> u32
        ensures { result ≡ image nat_cmp (renaming_of (C.county self.now.chart) (arrangement_of (C.county self.now.chart) self.now.arrangement.items)).names feat }
    {
        new_feat(&self.names.feats, feat)
    }

    /// Returns the content of the type P record of the polygon at a place in the order of the new numbers, if it has one. If all polygons
    /// have the same CENID, it is at that place in the order of the new keys too, and isn't searched.
    fn polygon_body_at_number(&self, place: usize, old: PolygonKey) -> Option<BodyP>
        requires { slice_get self.now.polygons.numbers place ≡ Some old }
        ensures { result ≡ option_and_then (λ body. body) (polygon_under (C.county self.now.chart) old) }
    {
        let cenid = old.0;
        let new = (cenid, place as u64 + 1);
        if !is_at(&self.polygons.keys, place, new) {
            return self.chart.polygon_body_of(old);
        }
        self.polygon_body_there(place)
    }

    /// Returns the polygon at a place in the order of the new numbers, or `None` past the last one: its new key, and the content of its
    /// type P record, if it has one.
    pub(crate) fn polygon_at_number(&self, place: usize) -> Option<(PolygonKey, Option<BodyP>)>
        ensures { result ≡ slice_get (polygons_by_number (arranged_by (C.county self.now.chart) self.now.arrangement.items)) place }
    {
        match self.polygons.numbers.key_at(place) {
            Some(old) => {
                let cenid = old.0;
                let body = self.polygon_body_at_number(place, old);
                Some(((cenid, place as u64 + 1), body))
            }
            None => None,
        }
    }
}

impl<C: Chart, S: Evidence> Arranged<C, S> {
    ghost use Rattle.arranged_county.specs.Views.{arranged_county, directed_chains_of};

    /// Returns the chains of the source county in their new order, with their directions.
    pub fn directed_chains(&self) -> &[DirectedChain]
        ensures { result.now ≡ (directed_chains_of self.now).items }
    {
        &self.arrangement
    }

    /// Returns the polygon with the POLYID `place + 1`: its key, and the content of its type P record, if it has one. `place` must be below
    /// the number of polygons.
    pub fn polygon_by_number(&self, place: usize) -> (PolygonKey, Option<BodyP>)
        requires { place < length (arranged_county self.now).polygons }
        ensures { Some result ≡ slice_get (polygons_by_number (arranged_county self.now)) place }
    {
        self.polygon_at_number(place).unwrap()
    }

    /// Returns the links of all landmarks and their polygons (type 8 records), in order.
    pub fn links(&self) -> &[Rec8]
        ensures { result.now ≡ (arranged_county self.now).links }
    {
        &self.landmarks.links
    }
}
