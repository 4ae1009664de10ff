//! Records that fit together, in order, and the counties built from them.

ghost use Rattle.std.specs.Prelude.{IfErr, IfOk, List, ◌≡◌, ◌≢◌};
ghost use Rattle.county_chart.specs.LinkRules.{IsFirstBrokenRule, IsLinked};
ghost use Rattle.county_chart.specs.County.{county_of};
ghost use Rattle.county_chart.specs.CountyRules.{is_without_chain};
ghost use Rattle.county_chart.specs.Limits.{HoldsWithinLimits};
ghost use Rattle.county_chart.specs.Packing.{type_after_type};
ghost use Rattle.county_chart.specs.PolygonKeys.{key_cmp};
ghost use Rattle.county_chart.specs.declared.fault.LinkFault.TheVariants.{Memory};
ghost use Rattle.ordered_lists.specs.Keyed.{IsLeastPassing};
ghost use Rattle.tl_layout.specs.Tables.{HoldsByType};
ghost use Rattle.tl_layout.specs.declared.record_type.Record.{Record};

use crate::linking::arena::{InArena, names_in, names_over};
use crate::linking::building::name_bodies;
use crate::linking::chain_over::CountyOver;
use crate::linking::gathering::GatheredPolygons;
use crate::linking::owned::Owned;
use crate::linking::table_order::OrderedTables;
use crate::linking::{Gathered, build_county, sort_and_check};
use bumpalo::Bump;
use county_chart::{Chart, County, CountyIn, LinkFault, PolygonKey};
use std::alloc::{AllocError, Global};
use std::marker::Model;
use tl_layout::Tables;

/// Records that fit together, in tables by type, each in the order of its records' numbers.
#[derive(Drop)]
pub struct LinkedRecords {
    tables: OrderedTables,
    gathered: Gathered,
}

impl Model for LinkedRecords {
    ghost use Rattle.std.specs.Prelude.{IsPermutation, flat_map, map, ◌++◌, ◌≡◌};
    ghost use Rattle.county_chart.specs.County.{county_of, five_feat, one_tlid, p_key, side_keys};
    ghost use Rattle.county_chart.specs.Limits.{IsWithinLimits};
    ghost use Rattle.tl_layout.specs.Limits.{most_records};
    ghost use Rattle.county_chart.specs.LinkRules.{IsLinked};
    ghost use Rattle.county_chart.specs.Packing.{Typed, type_after_type};
    ghost use Rattle.county_chart.specs.PolygonKeys.{key_cmp};
    ghost use Rattle.ordered_lists.specs.Keyed.{IsLeastPassing, is_unknown};
    ghost use Rattle.ordered_lists.specs.Orders.{distinct};
    ghost use Rattle.tl_county.specs.OrderedTables.{AreInOrder, ordered_of};

    ghost Value = { Typed };

    ghost view = { λ l. ordered_of l.tables };

    ghost invariant = { λ l. AreInOrder (ordered_of l.tables)
        × IsLinked (type_after_type (ordered_of l.tables))
        × IsWithinLimits most_records (county_of (type_after_type (ordered_of l.tables)))
        × (l.gathered.tlids.items ≡ map one_tlid (ordered_of l.tables).of_type_1)
        × (l.gathered.feats.items ≡ map five_feat l.tables.records.type_5.items)
        × (l.gathered.polygons.keys.items ≡ distinct key_cmp (flat_map side_keys (ordered_of l.tables).of_type_i ++ map p_key l.tables.records.type_p.items))
        × IsLeastPassing key_cmp (is_unknown key_cmp (map p_key l.tables.records.type_p.items) (flat_map side_keys (ordered_of l.tables).of_type_i))
        l.gathered.polygons.without_side
        × IsPermutation l.tables.records.type_i.items (ordered_of l.tables).of_type_i };
}

impl LinkedRecords {
    /// Returns the county of the records, which borrows from these tables and from an arena; both outlive it.
    ///
    /// # Errors
    ///
    /// `AllocError` if an allocation failed.
    pub fn county<'a>(
        &'a self,
        alloc: Global,
        arena: &'a Bump,
    ) -> Result<CountyOver<'a>, AllocError>
        ensures { IfOk result (λ county. ⟦<CountyOver<'a> as Chart>⟧.county county ≡ county_of (type_after_type self.now)) }
    {
        let gathered = Gathered {
            tlids: Vec::from_slice(alloc, &self.gathered.tlids)?,
            feats: Vec::from_slice(alloc, &self.gathered.feats)?,
            polygons: GatheredPolygons {
                keys: Vec::from_slice(alloc, &self.gathered.polygons.keys)?,
                without_side: self.gathered.polygons.without_side,
            },
        };
        let names = names_over(alloc, &self.tables.records.type_5)?;
        let mut builder = InArena::new(alloc, arena);
        build_county(alloc, &mut builder, &self.tables, gathered, names)
    }

    /// Returns the county of the records, with its own lists.
    ///
    /// # Errors
    ///
    /// `AllocError` if an allocation failed.
    pub(crate) fn into_county(self, alloc: Global) -> Result<County, AllocError>
        ensures { IfOk result (λ county. ⟦<County as Chart>⟧.county county ≡ county_of (type_after_type self)) }
    {
        let tables = self.tables;
        let gathered = self.gathered;
        let names = name_bodies(alloc, &tables.records.type_5)?;
        let mut builder = Owned { alloc };
        build_county(alloc, &mut builder, &tables, gathered, names)
    }

    /// Returns the county of the records in an arena that outlives it.
    ///
    /// # Errors
    ///
    /// `AllocError` if an allocation failed.
    pub(crate) fn into_county_in<'a>(
        self,
        alloc: Global,
        arena: &'a Bump,
    ) -> Result<CountyIn<'a>, AllocError>
        ensures { IfOk result (λ county. ⟦<CountyIn<'a> as Chart>⟧.county county ≡ county_of (type_after_type self)) }
    {
        let tables = self.tables;
        let gathered = self.gathered;
        let names = names_in(alloc, arena, &tables.records.type_5)?;
        let mut builder = InArena::new(alloc, arena);
        build_county(alloc, &mut builder, &tables, gathered, names)
    }

    /// Returns the least polygon that has a type P record and is on no side of a chain, ordered by the bytes of the CENID and then by
    /// POLYID, or none.
    pub fn polygon_without_chain(&self) -> Option<PolygonKey>
        ensures { IsLeastPassing key_cmp (is_without_chain (county_of (type_after_type self.now))) result }
    {
        self.gathered.polygons.without_side
    }
}

/// Puts tables of records in order and checks that the records fit together. The order within a table has no meaning. A table may
/// hold at most 10,000,000 records.
///
/// # Errors
///
/// The first rule that the records break, or `LinkFault::Memory` if an allocation failed.
pub fn link_in_order(alloc: Global, tables: Tables) -> Result<LinkedRecords, LinkFault>
    requires { HoldsWithinLimits tables }
    ensures linked { IfOk result (λ linked. (records : List Record) →
        HoldsByType tables records → IsLinked records × (county_of (type_after_type linked) ≡ county_of records)) }
    ensures broken { IfErr result (λ fault. fault ≢ Memory → (records : List Record) →
        HoldsByType tables records → IsFirstBrokenRule records fault) }
{
    let mut tables = OrderedTables {
        records: tables,
        all_basics: Vec::new(alloc),
        topologies: Vec::new(alloc),
    };
    let gathered = sort_and_check(alloc, &mut tables)?;
    Ok(LinkedRecords { tables, gathered })
}
