//! The rules for records that fit together, over tables in order.

ghost use Rattle.std.specs.Ordering.{nat_cmp};
ghost use Rattle.std.specs.Prelude.{IfOk, IsPermutation, List, MatchResult, flat_map, map, ◌++◌, ◌≡◌};
ghost use Rattle.county_chart.specs.County.{five_feat, i_tlid, link_key, one_tlid, p_key, side_keys};
ghost use Rattle.county_chart.specs.SequenceKeys.{is_unnamed, sequence_cmp, uses_of};
ghost use Rattle.county_chart.specs.Packing.{by_type};
ghost use Rattle.county_chart.specs.PolygonKeys.{key_cmp};
ghost use Rattle.ordered_lists.specs.Keyed.{IsLeastPassing, is_repeated};
ghost use Rattle.ordered_lists.specs.Marks.{AreMarksOf};
ghost use Rattle.ordered_lists.specs.Orders.{IsInOrder, distinct};
ghost use Rattle.tl_county.specs.Marks.{all_have_names, have_names};
ghost use Rattle.tl_county.specs.OrderedTables.{AreInOrder, ordered_of};
ghost use Rattle.tl_county.specs.RepeatedKeys.{AreLeastRepeated};
ghost use Rattle.tl_county.specs.RuleOrder.{IsFirstFrom, RulesHold};
ghost use Rattle.tl_layout.specs.declared.record_type.Record.{Record};

use crate::keys::absent::least_absent;
use crate::keys::repeated::least_repeated;
use crate::linking::gathering::uses_in_order;
use crate::linking::table_order::{ChainTlids, OrderedTables, Repeated};
use county_chart::{LinkFault, LinkedType, PolygonKey, SequencedType, least_unknown};
use ordered_lists::{is_marked, marks_of, place_of};
use std::alloc::{AllocError, Global};
use tl_layout::{Rec2, Rec4, Rec5, Rec6, Rec7, Rec8};

/// Rules 11 and 12: no TLID has two records of type 1, and each record of types 2, 4, 6 and I has its chain. The lists of `tlids`
/// are searched, not the records.
pub(crate) fn check_chains(tables: &OrderedTables, tlids: &ChainTlids) -> Result<(), LinkFault>
    requires tables { AreInOrder (ordered_of tables.now) }
    requires chains { tlids.now.chains.items ≡ map one_tlid (ordered_of tables.now).of_type_1 }
    requires topologies { tlids.now.topologies.items ≡ map i_tlid (ordered_of tables.now).of_type_i }
    ensures { (records : List Record) → by_type records ≡ ordered_of tables.now → MatchResult result (λ _. RulesHold records 0 5) (IsFirstFrom records 0) }
{
    let chains = tlids.chains.as_slice();
    if let Some(tlid) = least_repeated::<u64, u64>(chains) {
        return Err(LinkFault::ChainTwice { tlid });
    }
    if let Some(tlid) = least_unknown::<u64, Rec2, u64>(&tables.records.type_2, chains) {
        let rtype = LinkedType::Two;
        return Err(LinkFault::NoChain { rtype, tlid });
    }
    if let Some(tlid) = least_unknown::<u64, Rec4, u64>(&tables.records.type_4, chains) {
        let rtype = LinkedType::Four;
        return Err(LinkFault::NoChain { rtype, tlid });
    }
    if let Some(tlid) = least_unknown::<u64, Rec6, u64>(&tables.records.type_6, chains) {
        let rtype = LinkedType::Six;
        return Err(LinkFault::NoChain { rtype, tlid });
    }
    if let Some(tlid) = least_absent::<u64, u64, u64>(&tlids.topologies, chains) {
        let rtype = LinkedType::I;
        return Err(LinkFault::NoChain { rtype, tlid });
    }
    Ok(())
}

/// Checks rule 13: no two records of a chain have the same type and RTSQ. `repeated` are the least repeated keys.
pub(crate) fn check_sequences(repeated: &Repeated) -> Result<(), LinkFault>
    ensures { (records : List Record) → AreLeastRepeated repeated.now (by_type records) →
        MatchResult result (λ _. RulesHold records 5 8) (IsFirstFrom records 5) }
{
    if let Some((tlid, _)) = repeated.type_2 {
        let rtype = SequencedType::Two;
        return Err(LinkFault::SequenceBroken { rtype, tlid });
    }
    if let Some((tlid, _)) = repeated.type_4 {
        let rtype = SequencedType::Four;
        return Err(LinkFault::SequenceBroken { rtype, tlid });
    }
    if let Some((tlid, _)) = repeated.type_6 {
        let rtype = SequencedType::Six;
        return Err(LinkFault::SequenceBroken { rtype, tlid });
    }
    Ok(())
}

/// Rules 14 and 15: each record of type 1 has its record of type I, and no TLID has two.
pub(crate) fn check_topologies(tables: &OrderedTables, tlids: &ChainTlids) -> Result<(), LinkFault>
    requires tables { AreInOrder (ordered_of tables.now) }
    requires chains { tlids.now.chains.items ≡ map one_tlid (ordered_of tables.now).of_type_1 }
    requires topologies { tlids.now.topologies.items ≡ map i_tlid (ordered_of tables.now).of_type_i }
    ensures { (records : List Record) → by_type records ≡ ordered_of tables.now → MatchResult result (λ _. RulesHold records 8 10) (IsFirstFrom records 8) }
{
    if let Some(tlid) = least_absent::<u64, u64, u64>(&tlids.chains, &tlids.topologies) {
        return Err(LinkFault::LinkMissing { tlid });
    }
    if let Some(tlid) = least_repeated::<u64, u64>(&tlids.topologies) {
        return Err(LinkFault::LinkTwice { tlid });
    }
    Ok(())
}

/// Returns the least use, as TLID and FEAT, of a FEAT that isn't in `feats`. Both lists must be in order.
fn least_unnamed(uses: &[(u64, u32)], feats: &[u32]) -> Option<(u64, u32)>
    requires uses { IsInOrder sequence_cmp uses.now }
    requires feats { IsInOrder nat_cmp feats.now }
    ensures { IsLeastPassing sequence_cmp (is_unnamed uses.now feats.now) result }
{
    uses.iter()
        .copied()
        .find(|pair| place_of(feats, pair.1).is_none())
}

/// Checks whether each FEAT that a type 4 record names is in `feats`, which must be in order.
fn are_named(names: &Rec4, feats: &[u32], marks: &[bool]) -> bool
    requires feats { IsInOrder nat_cmp feats.now }
    requires marks { AreMarksOf feats.now marks.now }
    ensures { result ≡ have_names feats.now names.now.feats }
{
    names
        .feats()
        .iter()
        .all(|feat| is_marked(marks, feats, *feat))
}

/// Checks whether each FEAT that type 4 records name is in `feats`, which must be in order. The records are read once, in their own order.
fn all_named(alloc: Global, names: &[Rec4], feats: &[u32]) -> Result<bool, AllocError>
    requires { IsInOrder nat_cmp feats.now }
    ensures { IfOk result (λ all. all ≡ all_have_names feats.now names.now) }
{
    let marks = marks_of(alloc, feats)?;
    Ok(names.iter().all(|record| are_named(record, feats, &marks)))
}

/// Returns the least use, as TLID and FEAT, of a FEAT that isn't in `feats`, which must be in order. Usually there is none, and then no
/// list of uses is made.
pub(crate) fn unnamed_use(
    alloc: Global,
    names: &[Rec4],
    feats: &[u32],
) -> Result<Option<(u64, u32)>, AllocError>
    requires { IsInOrder nat_cmp feats.now }
    ensures { IfOk result (λ found. IsLeastPassing sequence_cmp (is_unnamed (flat_map uses_of names.now) feats.now) found) }
{
    if all_named(alloc, names, feats)? {
        return Ok(None);
    }
    let uses = uses_in_order(alloc, names)?;
    Ok(least_unnamed(&uses, feats))
}

/// Rules 16 and 17: no FEAT has two records of type 5, and each FEAT that a type 4 record names has one. `unnamed` is the least use
/// of a FEAT that has none.
pub(crate) fn check_names(
    tables: &OrderedTables,
    unnamed: Option<(u64, u32)>,
) -> Result<(), LinkFault>
    requires tables { AreInOrder (ordered_of tables.now) }
    requires unnamed { IsLeastPassing sequence_cmp
        (is_unnamed (flat_map uses_of tables.now.records.type_4.items) (map five_feat tables.now.records.type_5.items)) unnamed }
    ensures { (records : List Record) → by_type records ≡ ordered_of tables.now → MatchResult result (λ _. RulesHold records 10 12) (IsFirstFrom records 10) }
{
    if let Some(feat) = least_repeated::<u32, Rec5>(&tables.records.type_5) {
        return Err(LinkFault::NameTwice { feat });
    }
    if let Some((tlid, feat)) = unnamed {
        return Err(LinkFault::NameUnknown { tlid, feat });
    }
    Ok(())
}

/// Rules 18 to 20: no polygon has two records of type P; each landmark of a type 8 record has a record of type 7; and each polygon
/// of a type 8 record is on a side or has a record of type P. `linked` are the polygons of the type 8 records, and `polygons` the
/// keys on sides and of type P, both in order. `repeated` is the least polygon that has two records.
pub(crate) fn check_landmarks(
    tables: &OrderedTables,
    repeated: Option<PolygonKey>,
    linked: &[PolygonKey],
    polygons: &[PolygonKey],
) -> Result<(), LinkFault>
    requires tables { AreInOrder (ordered_of tables.now) }
    requires repeated { IsLeastPassing key_cmp (is_repeated key_cmp (map p_key tables.now.records.type_p.items)) repeated }
    requires linked { IsInOrder key_cmp linked.now × IsPermutation (map link_key tables.now.records.type_8.items) linked.now }
    requires polygons { polygons.now ≡ distinct key_cmp (flat_map side_keys (ordered_of tables.now).of_type_i ++ map p_key tables.now.records.type_p.items) }
    ensures { (records : List Record) → by_type records ≡ ordered_of tables.now → MatchResult result (λ _. RulesHold records 12 15) (IsFirstFrom records 12) }
{
    if let Some(key) = repeated {
        let cenid = key.0;
        let polyid = key.1;
        return Err(LinkFault::PolygonTwice { cenid, polyid });
    }
    if let Some(land) = least_unknown::<u64, Rec8, Rec7>(
        &tables.records.type_8,
        &tables.records.type_7,
    ) {
        return Err(LinkFault::LandUnknown { land });
    }
    if let Some(key) = least_unknown::<PolygonKey, PolygonKey, PolygonKey>(linked, polygons) {
        let cenid = key.0;
        let polyid = key.1;
        return Err(LinkFault::PolygonUnknown { cenid, polyid });
    }
    Ok(())
}
