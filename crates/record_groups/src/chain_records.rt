//! The records of a county's chains.

ghost use Rattle.std.specs.Prelude.{Some, drop, length, slice_get, take, ◌+◌, ◌<◌, ◌≡◌};
ghost use Rattle.county_chart.specs.CountyRules.{tlids};
ghost use Rattle.tl_layout.specs.Numbers.{IsNumber};

use crate::groups::{CountedGroups, RecordGroups};
use crate::heads::HeadBuffers;
use arrayvec::ArrayVec;
use county_chart::{ChainFeats, Chart, Listed};
use std::marker::PhantomData;
use tl_layout::{Point, Rec1, Rec2, Rec4, Rec6, RecI, Tabled};

/// The number of shape points in a full record of type 2.
const POINTS_A_RECORD: usize = 10;

/// The number of further names in a full record of type 4.
pub const NAMES_A_RECORD: usize = 5;

/// Returns the number of a record among the chain's records of the same type (RTSQ), counted from 1. `place` is counted from 0, and below
/// 999.
pub fn sequence_number(place: usize) -> u16
    requires { place < 999 }
    ensures number { result ≡ place + 1 }
    ensures in_range { IsNumber 3 result }
{
    place as u16 + 1
}

/// Returns the TLID of the chain at a place. It has at most 10 digits, and isn't 0.
fn chain_tlid<C: Chart>(chart: &C, place: usize) -> u64
    requires { place < length (C.county chart.now).chains }
    ensures tlid { Some result ≡ slice_get (tlids (C.county chart.now)) place }
    ensures in_range { IsNumber 10 result }
{
    chart.tlid_there(place)
}

/// Returns the items of a list from one of them on, at most `N`. `first` is below the number of items.
pub fn items_from<const N: usize, L: Listed>(list: &L, first: usize) -> ArrayVec<L::Item, N>
where
    L::Item: Default + Drop,
    requires { first < length (L.items list.now) }
    ensures { result.items ≡ take N (drop first (L.items list.now)) }
{
    let count = (list.count() - first).min(N);
    let mut items = ArrayVec::new();
    for ahead in 0..count {
        items.push(list.item(first + ahead));
    }
    items
}

/// The shape points of the chain at a place: those between its ends.
#[derive(Drop)]
struct ShapePoints<'a, C> {
    chart: &'a C,
    chain: usize,
}

impl<C: Chart> Listed for ShapePoints<'_, C> {
    ghost use Rattle.county_chart.specs.ChartWords.{chain_at, points_of};
    ghost use Rattle.county_chart.specs.Packing.{inner_points};

    type Item = Point;

    ghost items = { λ l. inner_points (points_of (chain_at (C.county l.chart.now) l.chain)) };

    fn count(&self) -> usize {
        self.chart.point_count_at(self.chain).saturating_sub(2)
    }

    fn item(&self, place: usize) -> Point {
        self.chart.point_there(self.chain, place + 1)
    }
}

/// The type 1 record of each chain. A head has the ends of the chain, and a byte that has no meaning.
///
/// Trick: reading the byte brings the record's content into the cache before the record is written.
#[derive(Drop)]
pub struct ChainRecords<'a, C: Chart> {
    /// The county.
    pub chart: &'a C,
}

impl<C: Chart> RecordGroups for ChainRecords<'_, C> {
    ghost use Rattle.record_groups.specs.CountyGroups.{AreEndsAt, type_1_by_chain};

    type Item = Rec1;

    type Head = ((Point, Point), u8);

    ghost groups = { λ g. type_1_by_chain (C.county g.chart.now) };

    ghost IsHead = { λ g place head. AreEndsAt (C.county g.chart.now) place head.0 };

    fn count(&self) -> usize {
        self.chart.chain_count()
    }

    fn buffer(buffers: &mut HeadBuffers) -> &mut [((Point, Point), u8)] {
        let ends = &mut buffers.ends;
        &mut ends[..]
    }

    fn head(&self, group: usize) -> ((Point, Point), u8) {
        let last = self.chart.point_count_at(group) - 1;
        let ends = (
            self.chart.point_there(group, 0),
            self.chart.point_there(group, last),
        );
        (ends, self.chart.chain_byte(group))
    }

    fn count_in(&self, _group: usize, _head: ((Point, Point), u8)) -> usize {
        1
    }

    fn record(&self, group: usize, head: ((Point, Point), u8), _place: usize) -> Rec1 {
        let ((start, end), _) = head;
        Rec1::new(
            chain_tlid(self.chart, group),
            self.chart.chain_body_there(group),
            start,
            end,
        )
    }

    fn put(&self, group: usize, head: ((Point, Point), u8), _place: usize, out: &mut [u8]) {
        Rec1::put_number(chain_tlid(self.chart, group), out);
        self.chart.put_chain_body(group, false, out);
        let ((start, end), _) = head;
        Rec1::put_points(&start, &end, out);
    }
}

/// A type of record with a sequence number (RTSQ): 2, 4 or 6. A chain has as many of them as it needs for its shape points, further
/// names or further address ranges.
pub trait SequencedRecord: Tabled {
    ghost use Rattle.std.specs.Prelude.{List, Some, length, slice_get, ◌<◌, ◌≡◌};
    ghost use Rattle.county_chart.specs.County.{County};
    ghost use Rattle.record_groups.specs.Groups.{group_at};

    /// The records of each chain of a county.
    ghost by_chain: { County → List (List Self) };

    /// Each chain has one list of records.
    ghost one_a_chain: { (county : County) → length (by_chain county) ≡ length county.chains };

    /// Returns the number of records of the chain at a place.
    fn count_at<C: Chart>(chart: &C, chain: usize) -> usize
        requires { chain < length (by_chain (C.county chart.now)) }
        ensures { result ≡ length (group_at (by_chain (C.county chart.now)) chain) };

    /// Makes a record of the chain at a place.
    fn make<C: Chart>(chart: &C, chain: usize, place: usize) -> Self
        requires chain { chain < length (by_chain (C.county chart.now)) }
        requires place { place < length (group_at (by_chain (C.county chart.now)) chain) }
        ensures { Some result ≡ slice_get (group_at (by_chain (C.county chart.now)) chain) place };
}

/// Records of type 2: shape points.
impl SequencedRecord for Rec2 {
    ghost use Rattle.std.proofs.lemmas.List.{length-map};
    ghost use Rattle.county_chart.specs.Packing.{packed_twos};
    ghost use Rattle.record_groups.specs.CountyGroups.{type_2_by_chain};

    ghost by_chain = { type_2_by_chain };

    ghost one_a_chain = { λ county. length-map county.chains packed_twos };

    fn count_at<C: Chart>(chart: &C, chain: usize) -> usize {
        let points = ShapePoints { chart, chain };
        points.count().div_ceil(POINTS_A_RECORD)
    }

    fn make<C: Chart>(chart: &C, chain: usize, place: usize) -> Rec2 {
        let points = items_from(&ShapePoints { chart, chain }, place * POINTS_A_RECORD);
        Rec2::new(chain_tlid(chart, chain), sequence_number(place), points)
    }
}

/// Records of type 4: further names.
impl SequencedRecord for Rec4 {
    ghost use Rattle.std.proofs.lemmas.List.{length-map};
    ghost use Rattle.county_chart.specs.Packing.{packed_fours};
    ghost use Rattle.record_groups.specs.CountyGroups.{type_4_by_chain};

    ghost by_chain = { type_4_by_chain };

    ghost one_a_chain = { λ county. length-map county.chains packed_fours };

    fn count_at<C: Chart>(chart: &C, chain: usize) -> usize {
        chart.feat_count_at(chain).div_ceil(NAMES_A_RECORD)
    }

    fn make<C: Chart>(chart: &C, chain: usize, place: usize) -> Rec4 {
        let list = ChainFeats {
            chart,
            place: chain,
        };
        let names = items_from(&list, place * NAMES_A_RECORD);
        Rec4::new(chain_tlid(chart, chain), sequence_number(place), names)
    }
}

/// Records of type 6: further address ranges.
impl SequencedRecord for Rec6 {
    ghost use Rattle.std.proofs.lemmas.List.{length-map};
    ghost use Rattle.county_chart.specs.Packing.{packed_sixes};
    ghost use Rattle.record_groups.specs.CountyGroups.{type_6_by_chain};

    ghost by_chain = { type_6_by_chain };

    ghost one_a_chain = { λ county. length-map county.chains packed_sixes };

    fn count_at<C: Chart>(chart: &C, chain: usize) -> usize {
        chart.range_count_at(chain)
    }

    fn make<C: Chart>(chart: &C, chain: usize, place: usize) -> Rec6 {
        let ranges = chart.range_there(chain, place);
        Rec6::new(chain_tlid(chart, chain), sequence_number(place), ranges)
    }
}

/// The records of each chain of one type with a sequence number.
#[derive(Drop)]
pub struct SequencedRecords<'a, C: Chart, R> {
    /// The county.
    pub chart: &'a C,
    /// The type of the records.
    pub records: PhantomData<R>,
}

impl<C: Chart, R: SequencedRecord> CountedGroups for SequencedRecords<'_, C, R> {
    type Record = R;

    ghost counted = { λ g. R.by_chain (C.county g.chart.now) };

    fn group_count(&self) -> usize {
        self.chart.chain_count()
    }

    fn record_count(&self, group: usize) -> usize {
        R::count_at(self.chart, group)
    }

    fn record_at(&self, group: usize, place: usize) -> R {
        R::make(self.chart, group, place)
    }
}

/// The record of type I of each chain: its nodes and the polygons on its sides. A head is a byte made from two bytes of the record's
/// content. It has no meaning.
///
/// Trick: reading the byte brings the content into the cache before the record is written.
#[derive(Drop)]
pub struct TopologyRecords<'a, C: Chart> {
    /// The county.
    pub chart: &'a C,
}

impl<C: Chart> RecordGroups for TopologyRecords<'_, C> {
    ghost use Rattle.record_groups.specs.CountyGroups.{type_i_by_chain};

    type Item = RecI;

    type Head = u8;

    ghost groups = { λ g. type_i_by_chain (C.county g.chart.now) };

    ghost IsHead = { λ _ _ _. Unit {0} };

    fn count(&self) -> usize {
        self.chart.chain_count()
    }

    fn buffer(buffers: &mut HeadBuffers) -> &mut [u8] {
        &mut buffers.topology_bytes
    }

    fn head(&self, group: usize) -> u8 {
        let body = self.chart.topology_there(group);
        body.file.as_bytes()[0] ^ body.rs_i3.as_bytes()[9]
    }

    fn count_in(&self, _group: usize, _head: u8) -> usize {
        1
    }

    fn record(&self, group: usize, _head: u8, _place: usize) -> RecI {
        let tlid = chain_tlid(self.chart, group);
        let body = self.chart.topology_there(group);
        let (start, end) = self.chart.ends_there(group);
        let (left, right) = self.chart.sides_there(group);
        RecI::new(tlid, body, start, end, left, right)
    }

    fn put(&self, group: usize, _head: u8, _place: usize, out: &mut [u8]) {
        let tlid = chain_tlid(self.chart, group);
        let body = self.chart.topology_there(group);
        let (start, end) = self.chart.ends_there(group);
        let (left, right) = self.chart.sides_there(group);
        RecI::put_fields(tlid, &body, start, end, &left, &right, out);
    }
}
