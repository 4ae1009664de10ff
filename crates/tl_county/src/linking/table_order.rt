//! Puts tables in the order of their records' numbers, and reports what the sorting finds.
//!
//! Each table is put in order once; a table that is in order already is read once. The larger ones, of records that are copied, are
//! first brought close to their order in linear time; the others are sorted by std's stable sort. The pass that finds it in
//! order also returns its keys, or the least key that occurs twice.

ghost use Rattle.std.specs.Ordering.{nat_cmp, on};
ghost use Rattle.std.specs.Prelude.{IfOk, IsPermutation, OnOk, map, ◌≡◌};
ghost use Rattle.county_chart.specs.County.{five_feat, i_tlid, one_tlid, p_key};
ghost use Rattle.county_chart.specs.SequenceKeys.{four_sequence, sequence_cmp, six_sequence, two_sequence};
ghost use Rattle.county_chart.specs.BodyOrder.{landmark_cmp, link_cmp};
ghost use Rattle.county_chart.specs.PolygonKeys.{key_cmp};
ghost use Rattle.ordered_lists.specs.Keyed.{IsLeastPassing, is_repeated};
ghost use Rattle.ordered_lists.specs.PutInOrder.{IsPutInOrder};
ghost use Rattle.tl_county.specs.OrderedTables.{AreInOrder, ArePermuted, ordered_of, typed_of};
ghost use Rattle.tl_county.specs.RepeatedKeys.{AreLeastRepeated};

use crate::keys::number_order::number_order;
use crate::keys::repeated::put_in_order_with_repeated;
use crate::linking::near_order::put_copies_in_order;
use county_chart::{LandmarkKey, LinkKey, PolygonKey, sort_by_keys};
use std::alloc::{AllocError, Global};
use tl_layout::{Rec1, Rec2, Rec4, Rec5, Rec6, Rec7, Rec8, RecI, RecP, Tables};

/// Tables in the order of their records' numbers. The records of types 1 and I are in any order, and are read at their places.
#[derive(Drop)]
pub(crate) struct OrderedTables {
    /// The records. The records of all types except 1 and I are in order.
    pub(crate) records: Tables,
    /// The places of the type 1 records, in the order of their TLIDs.
    pub(crate) all_basics: Vec<u64>,
    /// The places of the type I records, in the order of their TLIDs.
    pub(crate) topologies: Vec<u64>,
}

/// The TLIDs of the records of types 1 and I.
#[derive(Drop)]
pub(crate) struct ChainTlids {
    /// The TLIDs of the type 1 records.
    pub(crate) chains: Vec<u64>,
    /// The TLIDs of the type I records.
    pub(crate) topologies: Vec<u64>,
}

/// The least key of each type that two records have, if any.
#[derive(Drop)]
pub(crate) struct Repeated {
    /// TLID and RTSQ of type 2 records.
    pub(crate) type_2: Option<(u64, u16)>,
    /// TLID and RTSQ of type 4 records.
    pub(crate) type_4: Option<(u64, u16)>,
    /// TLID and RTSQ of type 6 records.
    pub(crate) type_6: Option<(u64, u16)>,
    /// The polygon of type P records.
    pub(crate) type_p: Option<PolygonKey>,
}

/// What is found when records are put in order.
#[derive(Drop)]
pub(crate) struct Ordered {
    /// The TLIDs, in order.
    pub(crate) tlids: ChainTlids,
    /// The keys that occur twice.
    pub(crate) repeated: Repeated,
}

/// Puts the records of types 2, 4, 6 and P in the order of their keys, and returns the least key of each type that occurs twice.
fn order_repeated(
    shapes: &mut Vec<Rec2>,
    names: &mut Vec<Rec4>,
    ranges: &mut Vec<Rec6>,
    points: &mut Vec<RecP>,
) -> Result<Repeated, AllocError>
    ensures shapes { OnOk result (IsPutInOrder (on two_sequence sequence_cmp) shapes.old.items shapes.new.items) }
    ensures names { OnOk result (IsPutInOrder (on four_sequence sequence_cmp) names.old.items names.new.items) }
    ensures ranges { OnOk result (IsPutInOrder (on six_sequence sequence_cmp) ranges.old.items ranges.new.items) }
    ensures points { OnOk result (IsPutInOrder (on p_key key_cmp) points.old.items points.new.items) }
    ensures type_2 { IfOk result (λ repeated. IsLeastPassing sequence_cmp (is_repeated sequence_cmp (map two_sequence shapes.new.items)) repeated.type_2) }
    ensures type_4 { IfOk result (λ repeated. IsLeastPassing sequence_cmp (is_repeated sequence_cmp (map four_sequence names.new.items)) repeated.type_4) }
    ensures type_6 { IfOk result (λ repeated. IsLeastPassing sequence_cmp (is_repeated sequence_cmp (map six_sequence ranges.new.items)) repeated.type_6) }
    ensures type_p { IfOk result (λ repeated. IsLeastPassing key_cmp (is_repeated key_cmp (map p_key points.new.items)) repeated.type_p) }
{
    let type_2 = put_in_order_with_repeated::<(u64, u16), Rec2>(shapes)?;
    let type_4 = put_in_order_with_repeated::<(u64, u16), Rec4>(names)?;
    let type_6 = put_copies_in_order::<(u64, u16), Rec6>(ranges)?;
    let type_p = put_copies_in_order::<PolygonKey, RecP>(points)?;
    Ok(Repeated {
        type_2,
        type_4,
        type_6,
        type_p,
    })
}

/// Puts the records of types 5, 7 and 8 in the order of their numbers.
fn order_named(
    names: &mut Vec<Rec5>,
    landmarks: &mut Vec<Rec7>,
    links: &mut Vec<Rec8>,
) -> Result<(), AllocError>
    ensures names { OnOk result (IsPutInOrder (on five_feat nat_cmp) names.old.items names.new.items) }
    ensures landmarks { OnOk result (IsPutInOrder landmark_cmp landmarks.old.items landmarks.new.items) }
    ensures links { OnOk result (IsPutInOrder link_cmp links.old.items links.new.items) }
{
    sort_by_keys::<u32, Rec5>(names)?;
    sort_by_keys::<LandmarkKey, Rec7>(landmarks)?;
    sort_by_keys::<LinkKey, Rec8>(links)
}

/// Finds the places of the records of types 1 and I in the order of their TLIDs, and returns the TLIDs.
fn order_chains(alloc: Global, tables: &mut OrderedTables) -> Result<ChainTlids, AllocError>
    ensures records { tables.new.records ≡ tables.old.records }
    ensures all_basics { OnOk result (IsPutInOrder (on one_tlid nat_cmp) tables.old.records.type_1.items (ordered_of tables.new).of_type_1) }
    ensures topologies { OnOk result (IsPutInOrder (on i_tlid nat_cmp) tables.old.records.type_i.items (ordered_of tables.new).of_type_i) }
    ensures tlids_of_basics { IfOk result (λ tlids. tlids.chains.items ≡ map one_tlid (ordered_of tables.new).of_type_1) }
    ensures tlids_of_topologies { IfOk result (λ tlids. tlids.topologies.items ≡ map i_tlid (ordered_of tables.new).of_type_i) }
{
    let all_basics = number_order::<Rec1>(alloc, &tables.records.type_1)?;
    let topologies = number_order::<RecI>(alloc, &tables.records.type_i)?;
    tables.all_basics = all_basics.places;
    tables.topologies = topologies.places;
    Ok(ChainTlids {
        chains: all_basics.numbers,
        topologies: topologies.numbers,
    })
}

/// Puts each table in the order of its records' numbers. Returns the TLIDs of the records of types 1 and I in that order, and the
/// keys of types 2, 4, 6 and P that occur twice.
pub(crate) fn order_tables(alloc: Global, tables: &mut OrderedTables) -> Result<Ordered, AllocError>
    ensures in_order { OnOk result (AreInOrder (ordered_of tables.new)) }
    ensures same { OnOk result (ArePermuted (typed_of tables.old.records) (ordered_of tables.new)) }
    ensures topologies_there { OnOk result (IsPermutation tables.new.records.type_i.items (ordered_of tables.new).of_type_i) }
    ensures chains { IfOk result (λ ordered. ordered.tlids.chains.items ≡ map one_tlid (ordered_of tables.new).of_type_1) }
    ensures topologies { IfOk result (λ ordered. ordered.tlids.topologies.items ≡ map i_tlid (ordered_of tables.new).of_type_i) }
    ensures repeated { IfOk result (λ ordered. AreLeastRepeated ordered.repeated (ordered_of tables.new)) }
{
    let records = &mut tables.records;
    let repeated = order_repeated(
        &mut records.type_2,
        &mut records.type_4,
        &mut records.type_6,
        &mut records.type_p,
    )?;
    order_named(
        &mut records.type_5,
        &mut records.type_7,
        &mut records.type_8,
    )?;
    let tlids = order_chains(alloc, tables)?;
    Ok(Ordered { tlids, repeated })
}
