//! Linking: turns records into a county, or reports the first rule that they break.
//!
//! Each table is put in order once. Then the tables are walked side by side, both to check the rules and to build the county. Only
//! names are looked up, once for each use by a chain; uses are sorted only if some FEAT has no record of type 5. Every kind of
//! county is built the same way: a builder makes its chains and landmarks.

ghost use Rattle.std.specs.Prelude.{IfErr, IfOk, IsPermutation, List, OnOk, flat_map, map, ◌++◌, ◌≡◌, ◌≢◌};
ghost use Rattle.tl_county.specs.OrderedTables.{AreInOrder, ArePermuted, ordered_of, typed_of};
ghost use Rattle.tl_county.specs.Building.{county_along, landmarks_along};
ghost use Rattle.tl_county.specs.RepeatedKeys.{AreLeastRepeated};
ghost use Rattle.county_chart.specs.County.{county_of, five_feat, i_tlid, link_key, one_tlid, p_key, side_keys};
ghost use Rattle.county_chart.specs.Limits.{IsWithinLimits};
ghost use Rattle.county_chart.specs.Packing.{by_type, type_after_type};
ghost use Rattle.county_chart.specs.SequenceKeys.{is_unnamed, sequence_cmp, uses_of};
ghost use Rattle.tl_layout.specs.Limits.{IsWithinLimit, most_records};
ghost use Rattle.county_chart.specs.LinkRules.{IsFirstBrokenRule, IsLinked};
ghost use Rattle.county_chart.specs.PolygonKeys.{key_cmp};
ghost use Rattle.county_chart.specs.declared.fault.LinkFault.TheVariants.{Memory};
ghost use Rattle.ordered_lists.specs.Entries.{map_values};
ghost use Rattle.ordered_lists.specs.Keyed.{IsLeastPassing, is_unknown};
ghost use Rattle.ordered_lists.specs.Orders.{IsInOrder, distinct};
ghost use Rattle.tl_layout.specs.Fields.{Fields5};
ghost use Rattle.tl_layout.specs.Tables.{HoldsByType};
ghost use Rattle.tl_layout.specs.declared.record_type.Record.{Record};

mod arena;
mod building;
pub(crate) mod chain_over;
mod chain_records;
mod gathering;
pub(crate) mod linked_records;
pub(crate) mod near_order;
mod owned;
mod rules;
mod table_order;

use crate::keys::repeated::keys_of;
use crate::linking::building::{
    ChainBuilder, Details, LandmarkBuilder, chains_of_records, landmarks_of, lands_of, nodes_of,
    polygon_bodies,
};
use crate::linking::chain_records::{all_basics_at, topologies_at};
use crate::linking::gathering::{GatheredPolygons, gather_polygons, linked_polygons};
use crate::linking::linked_records::link_in_order;
use crate::linking::rules::{
    check_chains, check_landmarks, check_names, check_sequences, check_topologies, unnamed_use,
};
use crate::linking::table_order::{Ordered, OrderedTables, order_tables};
use bumpalo::Bump;
use county_chart::{
    Chart, County, CountyIn, LinkFault, PolygonKey, StoredChain, StoredCounty, StoredLandmark,
    StoredName, Table,
};
use std::alloc::{AllocError, Global};
use tl_layout::{BodyP, Rec5, Record, Tables};

fn polygons_of(alloc: Global, tables: &OrderedTables) -> Result<GatheredPolygons, AllocError>
    requires tables { AreInOrder (ordered_of tables.now) }
    requires topologies { IsPermutation tables.now.records.type_i.items (ordered_of tables.now).of_type_i }
    ensures keys { IfOk result (λ polygons. polygons.keys.items ≡
        distinct key_cmp (flat_map side_keys (ordered_of tables.now).of_type_i ++ map p_key tables.now.records.type_p.items)) }
    ensures without_side { IfOk result (λ polygons. IsLeastPassing key_cmp (is_unknown key_cmp
        (map p_key tables.now.records.type_p.items) (flat_map side_keys (ordered_of tables.now).of_type_i)) polygons.without_side) }
{
    gather_polygons(alloc, &tables.records.type_i, &tables.records.type_p)
}

/// Checks the ten rules over tables in order, given what the sorting found, the least use of a FEAT without a type 5 record, the
/// polygons of the type 8 records in order, and all polygons in order.
fn check_rules(
    tables: &OrderedTables,
    ordered: &Ordered,
    unnamed: Option<(u64, u32)>,
    linked: &[PolygonKey],
    polygons: &[PolygonKey],
) -> Result<(), LinkFault>
    requires tables { AreInOrder (ordered_of tables.now) }
    requires chains { ordered.now.tlids.chains.items ≡ map one_tlid (ordered_of tables.now).of_type_1 }
    requires topologies { ordered.now.tlids.topologies.items ≡ map i_tlid (ordered_of tables.now).of_type_i }
    requires repeated { AreLeastRepeated ordered.now.repeated (ordered_of tables.now) }
    requires unnamed { IsLeastPassing sequence_cmp
        (is_unnamed (flat_map uses_of tables.now.records.type_4.items) (map five_feat tables.now.records.type_5.items)) unnamed }
    requires linked { IsInOrder key_cmp linked.now × IsPermutation (map link_key tables.now.records.type_8.items) linked.now }
    requires polygons { polygons.now ≡ distinct key_cmp (flat_map side_keys (ordered_of tables.now).of_type_i ++ map p_key tables.now.records.type_p.items) }
    ensures linked { OnOk result ((records : List Record) → by_type records ≡ ordered_of tables.now → IsLinked records) }
    ensures broken { IfErr result (λ fault. (records : List Record) → by_type records ≡ ordered_of tables.now → IsFirstBrokenRule records fault) }
{
    check_chains(tables, &ordered.tlids)?;
    check_sequences(&ordered.repeated)?;
    check_topologies(tables, &ordered.tlids)?;
    check_names(tables, unnamed)?;
    check_landmarks(tables, ordered.repeated.type_p, linked, polygons)
}

fn build_chains<'t, C: StoredChain, B: ChainBuilder<'t, C>>(
    alloc: Global,
    builder: &mut B,
    tables: &'t OrderedTables,
    tlids: Vec<u64>,
) -> Result<Table<u64, C>, AllocError>
    requires tables { AreInOrder (ordered_of tables.now) }
    requires linked { IsLinked (type_after_type (ordered_of tables.now)) }
    requires tlids { tlids.items ≡ map one_tlid (ordered_of tables.now).of_type_1 }
    ensures { IfOk result (λ chains. map_values C.chain chains ≡ (county_along (ordered_of tables.now)).chains) }
{
    let all_basics = all_basics_at(alloc, &tables.records.type_1, &tables.all_basics)?;
    let topologies = topologies_at(alloc, &tables.records.type_i, &tables.topologies)?;
    let details = Details {
        shapes: &tables.records.type_2,
        names: &tables.records.type_4,
        ranges: &tables.records.type_6,
    };
    let chains = chains_of_records::<C, B>(alloc, builder, &all_basics, &topologies, details)?;
    Ok(Table::new(tlids, chains))
}

fn build_polygons(
    alloc: Global,
    tables: &OrderedTables,
    keys: Vec<PolygonKey>,
) -> Result<Table<PolygonKey, Option<BodyP>>, AllocError>
    requires tables { AreInOrder (ordered_of tables.now) }
    requires keys { keys.items ≡ distinct key_cmp (flat_map side_keys (ordered_of tables.now).of_type_i ++ map p_key tables.now.records.type_p.items) }
    ensures { IfOk result (λ polygons. polygons ≡ (county_along (ordered_of tables.now)).polygons) }
{
    let bodies = polygon_bodies(alloc, &keys, &tables.records.type_p)?;
    Ok(Table::new(keys, bodies))
}

fn build_landmarks<L: StoredLandmark, B: LandmarkBuilder<L>>(
    alloc: Global,
    builder: &mut B,
    tables: &OrderedTables,
) -> Result<Table<u64, L>, AllocError>
    requires tables { AreInOrder (ordered_of tables.now) }
    ensures { IfOk result (λ landmarks. map_values L.landmark landmarks ≡ landmarks_along (ordered_of tables.now)) }
{
    let lands = lands_of(alloc, &tables.records.type_7)?;
    let landmarks = landmarks_of::<L, B>(
        alloc,
        builder,
        &lands,
        &tables.records.type_7,
        &tables.records.type_8,
    )?;
    Ok(Table::new(lands, landmarks))
}

/// Returns the county of linked tables in order. `names` are the names of its type 5 records, in their order.
pub(crate) fn build_county<
    't,
    C: StoredChain,
    N: StoredName,
    L: StoredLandmark,
    B: ChainBuilder<'t, C> + LandmarkBuilder<L>,
>(
    alloc: Global,
    builder: &mut B,
    tables: &'t OrderedTables,
    gathered: Gathered,
    names: Vec<N>,
) -> Result<StoredCounty<C, N, L>, AllocError>
    requires tables { AreInOrder (ordered_of tables.now) }
    requires topologies { IsPermutation tables.now.records.type_i.items (ordered_of tables.now).of_type_i }
    requires linked { IsLinked (type_after_type (ordered_of tables.now)) }
    requires tlids { gathered.tlids.items ≡ map one_tlid (ordered_of tables.now).of_type_1 }
    requires feats { gathered.feats.items ≡ map five_feat tables.now.records.type_5.items }
    requires names { map N.name names.items ≡ map (λ (r : Fields5). r.body) tables.now.records.type_5.items }
    requires polygons { gathered.polygons.keys.items ≡ distinct key_cmp (flat_map side_keys (ordered_of tables.now).of_type_i ++ map p_key tables.now.records.type_p.items) }
    requires limits { IsWithinLimits most_records (county_of (type_after_type (ordered_of tables.now))) }
    ensures { IfOk result (λ county. ⟦<StoredCounty<C, N, L> as Chart>⟧.county county ≡ county_of (type_after_type (ordered_of tables.now))) }
{
    let chains = build_chains::<C, B>(alloc, builder, tables, gathered.tlids)?;
    let nodes = nodes_of(alloc, &tables.records.type_i)?;
    let polygons = build_polygons(alloc, tables, gathered.polygons.keys)?;
    let landmarks = build_landmarks::<L, B>(alloc, builder, tables)?;
    let names = Table::new(gathered.feats, names);
    Ok(StoredCounty::new(chains, names, polygons, landmarks, nodes))
}

/// What was gathered from tables in order: the TLIDs of chains and the FEATs of names, both in order, and the polygons.
#[derive(Drop)]
pub(crate) struct Gathered {
    pub(crate) tlids: Vec<u64>,
    pub(crate) feats: Vec<u32>,
    pub(crate) polygons: GatheredPolygons,
}

/// Puts the tables in order and checks the ten rules. Returns the first rule that the records break, if any.
pub(crate) fn sort_and_check(
    alloc: Global,
    tables: &mut OrderedTables,
) -> Result<Gathered, LinkFault>
    ensures in_order { OnOk result (AreInOrder (ordered_of tables.new)) }
    ensures same { OnOk result (ArePermuted (typed_of tables.old.records) (ordered_of tables.new)) }
    ensures topologies_there { OnOk result (IsPermutation tables.new.records.type_i.items (ordered_of tables.new).of_type_i) }
    ensures linked { OnOk result (IsLinked (type_after_type (ordered_of tables.new))) }
    ensures tlids { IfOk result (λ gathered. gathered.tlids.items ≡ map one_tlid (ordered_of tables.new).of_type_1) }
    ensures feats { IfOk result (λ gathered. gathered.feats.items ≡ map five_feat tables.new.records.type_5.items) }
    ensures polygons { IfOk result (λ gathered. gathered.polygons.keys.items ≡
        distinct key_cmp (flat_map side_keys (ordered_of tables.new).of_type_i ++ map p_key tables.new.records.type_p.items)) }
    ensures without_side { IfOk result (λ gathered. IsLeastPassing key_cmp
        (is_unknown key_cmp (map p_key tables.new.records.type_p.items) (flat_map side_keys (ordered_of tables.new).of_type_i)) gathered.polygons.without_side) }
    ensures broken { IfErr result (λ fault. fault ≢ Memory → (records : List Record) →
        HoldsByType tables.old.records records → IsFirstBrokenRule records fault) }
{
    let ordered = order_tables(alloc, tables)?;
    let feats = keys_of::<u32, Rec5>(alloc, &tables.records.type_5)?;
    let polygons = polygons_of(alloc, tables)?;
    let unnamed = unnamed_use(alloc, &tables.records.type_4, &feats)?;
    let linked = linked_polygons(alloc, &tables.records.type_8)?;
    check_rules(tables, &ordered, unnamed, &linked, &polygons.keys)?;
    Ok(Gathered {
        tlids: ordered.tlids.chains,
        feats,
        polygons,
    })
}

/// Returns the county of a list of records. The list's order has no meaning. It may hold at most 10,000,000 records of each type.
///
/// # Errors
///
/// The first rule that the records break, or `LinkFault::Memory` if an allocation failed.
pub fn link(alloc: Global, records: Vec<Record>) -> Result<County, LinkFault>
    requires few { IsWithinLimit most_records records.items }
    ensures linked { IfOk result (λ county. IsLinked records.items × (⟦<County as Chart>⟧.county county ≡ county_of records.items)) }
    ensures broken { IfErr result (λ fault. fault ≢ Memory → IsFirstBrokenRule records.items fault) }
{
    let tables = Tables::of(alloc, records)?;
    let linked = link_in_order(alloc, tables)?;
    Ok(linked.into_county(alloc)?)
}

/// Returns the county of a list of records, in an arena that outlives it. The list's order has no meaning. It may hold at most 10,000,000
/// records of each type.
///
/// # Errors
///
/// The first rule that the records break, or `LinkFault::Memory` if an allocation failed.
pub fn link_in<'a>(
    alloc: Global,
    arena: &'a Bump,
    records: Vec<Record>,
) -> Result<CountyIn<'a>, LinkFault>
    requires few { IsWithinLimit most_records records.items }
    ensures linked { IfOk result (λ county. IsLinked records.items × (⟦<CountyIn<'a> as Chart>⟧.county county ≡ county_of records.items)) }
    ensures broken { IfErr result (λ fault. fault ≢ Memory → IsFirstBrokenRule records.items fault) }
{
    let tables = Tables::of(alloc, records)?;
    let linked = link_in_order(alloc, tables)?;
    Ok(linked.into_county_in(alloc, arena)?)
}
