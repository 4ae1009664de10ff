//! A county: chains, names, polygons and landmarks under their numbers, in each of the ways to store them.

ghost use Rattle.std.specs.Prelude.{Some, [], length, unwrap_or, ◌<◌, ◌≡◌};
ghost use Rattle.std.specs.Option.{option_and_then, option_copied};
ghost use Rattle.std.specs.Ordering.{nat_cmp};
ghost use Rattle.county_chart.specs.CountyRules.{IsCounty, feats, lands, nodes as nodes_in_order, polygon_keys, tlids};
ghost use Rattle.county_chart.specs.ChartWords.{bodies_at, chain_at, links_at};
ghost use Rattle.county_chart.specs.CountyProps.{IsCounty-prop, LinksUnderLands-prop};
ghost use Rattle.county_chart.specs.Limits.{IsWithinLimits};
ghost use Rattle.county_chart.specs.StoredCounty.{LinksUnderLands, county_of_tables};
ghost use Rattle.county_chart.specs.County.{eight_land};
ghost use Rattle.tl_layout.specs.Limits.{most_records};
ghost use Rattle.county_chart.specs.PolygonKeys.{key_cmp};
ghost use Rattle.county_chart.specs.LimitsProps.{IsWithinLimits-prop};
ghost use Rattle.ordered_lists.specs.Entries.{map_values, value_under};
ghost use Rattle.tl_layout.specs.ByType.{of_number};

pub(crate) mod landmark;
pub(crate) mod lent;
pub(crate) mod storage;
mod stored_chart;
pub(crate) mod table;

use crate::chart::Chart;
use crate::keys::record_keys::PolygonKey;
use crate::stored::landmark::Landmark;
use crate::stored::lent::{LandmarkIn, NameIn};
use crate::stored::storage::{StoredChain, StoredLandmark, StoredName};
use crate::stored::table::Table;
use tl_layout::{Body5, Body7, BodyP, Rec8};
use tl_shape::{Chain, ChainIn};

/// The map of one county that a set of records describes, as linking makes it. The types of its chains, names and landmarks choose
/// how these are stored. The getters lend what linking made and put in order, and allocate no memory.
#[derive(Debug, Drop)]
pub struct StoredCounty<C: StoredChain, N: StoredName, L: StoredLandmark> {
    pub(crate) chains: Table<u64, C>,
    pub(crate) names: Table<u32, N>,
    pub(crate) polygons: Table<PolygonKey, Option<BodyP>>,
    pub(crate) landmarks: Table<u64, L>,
    pub(crate) nodes: Vec<u64>,
    ghost is_county: { IsCounty (county_of_tables C.chain N.name L.landmark chains names polygons landmarks) } by { IsCounty-prop (county_of_tables C.chain N.name L.landmark chains names polygons landmarks) },
    ghost within_limits: { IsWithinLimits most_records (county_of_tables C.chain N.name L.landmark chains names polygons landmarks) } by { IsWithinLimits-prop most_records (county_of_tables C.chain N.name L.landmark chains names polygons landmarks) },
    ghost links_under_lands: { LinksUnderLands (map_values L.landmark landmarks) } by { LinksUnderLands-prop (map_values L.landmark landmarks) },
    ghost nodes_contained: { nodes.items ≡ nodes_in_order (county_of_tables C.chain N.name L.landmark chains names polygons landmarks) },
}

/// The map of one county that a set of records describes, as linking makes it, with its own lists. The getters lend what linking made and
/// put in order, and allocate no memory.
pub type County = StoredCounty<Chain, Body5, Landmark>;

/// The map of one county that a set of records describes, as [`County`], over an arena that outlives it. Its points, FEATs, address
/// ranges and the contents of its names and landmarks are slices of the arena; its tables are in ordinary memory. The getters
/// allocate no memory.
pub type CountyIn<'a> = StoredCounty<ChainIn<'a>, NameIn<'a>, LandmarkIn<'a>>;

#[tactic(auto, using(crate::proofs::Lists::StoredParts::stored_parts))]
impl<C: StoredChain, N: StoredName, L: StoredLandmark> StoredCounty<C, N, L> {
    /// Makes the county of these tables: chains under their TLIDs, names under their FEATs, the contents of polygons under their keys,
    /// landmarks under their LANDs, and the nodes at the ends of chains, ascending and each once. The numbers that a part names must be in
    /// the tables, there may be at most 10,000,000 records of each type, and each link must have the LAND of its landmark.
    pub fn new(
        chains: Table<u64, C>,
        names: Table<u32, N>,
        polygons: Table<PolygonKey, Option<BodyP>>,
        landmarks: Table<u64, L>,
        nodes: Vec<u64>,
    ) -> StoredCounty<C, N, L>
        requires county { IsCounty (county_of_tables C.chain N.name L.landmark chains names polygons landmarks) }
        requires limits { IsWithinLimits most_records (county_of_tables C.chain N.name L.landmark chains names polygons landmarks) }
        requires links { LinksUnderLands (map_values L.landmark landmarks) }
        requires nodes { nodes.items ≡ nodes_in_order (county_of_tables C.chain N.name L.landmark chains names polygons landmarks) }
        ensures { ⟦<StoredCounty<C, N, L> as Chart>⟧.county result ≡ county_of_tables C.chain N.name L.landmark chains names polygons landmarks }
    {
        StoredCounty {
            chains,
            names,
            polygons,
            landmarks,
            nodes,
        }
    }

    /// Returns the content of a polygon's record of type P, or none if the county doesn't have the polygon or it has no such record.
    pub fn polygon_body(&self, key: PolygonKey) -> Option<BodyP>
        ensures { result ≡ option_and_then (λ body. body) (value_under key_cmp key (⟦<StoredCounty<C, N, L> as Chart>⟧.county self.now).polygons) }
    {
        match self.polygons.get(key) {
            Some(body) => *body,
            None => None,
        }
    }

    /// Returns the TLIDs of the chains, ascending.
    pub fn tlids(&self) -> &[u64]
        ensures { result.now ≡ tlids (⟦<StoredCounty<C, N, L> as Chart>⟧.county self.now) }
    {
        self.chains.keys()
    }

    /// Returns the FEATs of the names, ascending.
    pub fn feats(&self) -> &[u32]
        ensures { result.now ≡ feats (⟦<StoredCounty<C, N, L> as Chart>⟧.county self.now) }
    {
        self.names.keys()
    }

    /// Returns the keys of the polygons, ascending by the bytes of the CENID and then by POLYID.
    pub fn polygons(&self) -> &[PolygonKey]
        ensures { result.now ≡ polygon_keys (⟦<StoredCounty<C, N, L> as Chart>⟧.county self.now) }
    {
        self.polygons.keys()
    }

    /// Returns the LANDs of the landmarks, ascending.
    pub fn lands(&self) -> &[u64]
        ensures { result.now ≡ lands (⟦<StoredCounty<C, N, L> as Chart>⟧.county self.now) }
    {
        self.landmarks.keys()
    }

    /// Returns the nodes at the ends of chains, ascending and each once.
    pub fn nodes(&self) -> &[u64]
        ensures { result.now ≡ nodes_in_order (⟦<StoredCounty<C, N, L> as Chart>⟧.county self.now) }
    {
        self.nodes.as_slice()
    }

    /// Returns the chain at a place, which must be less than the number of chains.
    pub(crate) fn chain_there(&self, place: usize) -> &C
        requires { place < length (⟦<StoredCounty<C, N, L> as Chart>⟧.county self.now).chains }
        ensures { Some (C.chain result.now) ≡ chain_at (⟦<StoredCounty<C, N, L> as Chart>⟧.county self.now) place }
    {
        self.chains.value_there(place)
    }

    /// Returns the landmark at a place, which must be less than the number of landmarks.
    pub(crate) fn landmark_there(&self, place: usize) -> &L
        requires { place < length (⟦<StoredCounty<C, N, L> as Chart>⟧.county self.now).landmarks }
        ensures bodies { (L.landmark result.now).bodies ≡ bodies_at (⟦<StoredCounty<C, N, L> as Chart>⟧.county self.now) place }
        ensures links { (L.landmark result.now).links ≡ links_at (⟦<StoredCounty<C, N, L> as Chart>⟧.county self.now) place }
    {
        self.landmarks.value_there(place)
    }
}

#[tactic(auto, using(crate::proofs::Lists::StoredParts::stored_parts))]
impl County {
    /// Returns the chain with this TLID, or none if no chain has it.
    pub fn chain(&self, tlid: u64) -> Option<&Chain>
        ensures { option_copied result ≡ value_under nat_cmp tlid (⟦<County as Chart>⟧.county self.now).chains }
    {
        self.chains.get(tlid)
    }

    /// Returns the content of the name with this FEAT (record type 5), or none if no name has it.
    pub fn name(&self, feat: u32) -> Option<&Body5>
        ensures { option_copied result ≡ value_under nat_cmp feat (⟦<County as Chart>⟧.county self.now).names }
    {
        self.names.get(feat)
    }

    /// Returns the contents of the type 7 records with this LAND, ordered by FILE, SOURCE, CFCC, LANAME and the point, with no point first.
    /// The list is empty if no landmark has the LAND.
    pub fn landmark_bodies(&self, land: u64) -> &[Body7]
        ensures { result.now ≡ unwrap_or (value_under nat_cmp land (⟦<County as Chart>⟧.county self.now).landmarks) [] }
    {
        match self.landmarks.get(land) {
            Some(landmark) => landmark.bodies(),
            None => &[],
        }
    }

    /// Returns the type 8 records with this LAND, ordered by POLYID, CENID and FILE. The list is empty if no landmark has the LAND.
    pub fn landmark_links(&self, land: u64) -> &[Rec8]
        ensures { result.now ≡ of_number eight_land land (⟦<County as Chart>⟧.county self.now).links }
    {
        match self.landmarks.get(land) {
            Some(landmark) => landmark.links(),
            None => &[],
        }
    }
}

#[tactic(auto, using(crate::proofs::Lists::StoredParts::stored_parts))]
impl<'a> CountyIn<'a> {
    /// Returns the chain with this TLID, or none if no chain has it.
    pub fn chain(&self, tlid: u64) -> Option<&ChainIn<'a>>
        ensures { option_copied result ≡ value_under nat_cmp tlid (⟦<CountyIn<'a> as Chart>⟧.county self.now).chains }
    {
        self.chains.get(tlid)
    }

    /// Returns the content of the name with this FEAT (record type 5), or none if no name has it.
    pub fn name(&self, feat: u32) -> Option<&'a Body5>
        ensures { option_copied result ≡ value_under nat_cmp feat (⟦<CountyIn<'a> as Chart>⟧.county self.now).names }
    {
        match self.names.get(feat) {
            Some(name) => Some(name.body()),
            None => None,
        }
    }

    /// Returns the contents of the type 7 records with this LAND, ordered by FILE, SOURCE, CFCC, LANAME and the point, with no point first.
    /// The list is empty if no landmark has the LAND.
    pub fn landmark_bodies(&self, land: u64) -> &'a [Body7]
        ensures { result.now ≡ unwrap_or (value_under nat_cmp land (⟦<CountyIn<'a> as Chart>⟧.county self.now).landmarks) [] }
    {
        match self.landmarks.get(land) {
            Some(landmark) => landmark.bodies(),
            None => &[],
        }
    }

    /// Returns the type 8 records with this LAND, ordered by POLYID, CENID and FILE. The list is empty if no landmark has the LAND.
    pub fn landmark_links(&self, land: u64) -> &'a [Rec8]
        ensures { result.now ≡ of_number eight_land land (⟦<CountyIn<'a> as Chart>⟧.county self.now).links }
    {
        match self.landmarks.get(land) {
            Some(landmark) => landmark.links(),
            None => &[],
        }
    }
}
