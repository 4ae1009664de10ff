//! Record type 2: shape points of a chain.

ghost use Rattle.std.proofs.Common.{lit≤};
ghost use Rattle.std.specs.Prelude.{length, ◌≡◌, ◌≤◌};
ghost use Rattle.tl_layout.specs.RecordTypes.{FitsFields, SpellsFields, Type2, byte_of, fields_spelling, line_length, reading_of, table_of};
ghost use Rattle.tl_layout.specs.FieldFaults.{IsLeftmostFault};
ghost use Rattle.tl_layout.specs.Laws.TypeLaws.{layout_laws};
ghost use Rattle.tl_layout.specs.Numbers.{IsNumber};

use crate::field::read_number;
use crate::place::{read_places, show_points_fit, write_places};
use crate::writing::{write_head, write_number};
use crate::{FieldFault, Layout, Point};
use arrayvec::ArrayVec;
use std::marker::Model;

/// Up to ten shape points of a chain, between its two end points (record type 2, 208 bytes).
#[derive(Debug, Drop)]
pub struct Rec2 {
    tlid: u64,
    rtsq: u16,
    points: ArrayVec<Point, 10>,
}

impl Model for Rec2 {
    ghost use Rattle.tl_layout.specs.Fields.{Fields2};
    ghost use Rattle.tl_layout.specs.Numbers.{IsNumber};

    ghost Value = { Fields2 };

    ghost view = { λ r. record { tlid = r.tlid; rtsq = r.rtsq; points = r.points.items } };

    ghost invariant = { λ r. IsNumber 10 r.tlid × IsNumber 3 r.rtsq };
}

impl Rec2 {
    /// Makes a record from these fields. The TLID must be from 1 to 9,999,999,999, the RTSQ from 1 to
    /// 999.
    pub fn new(tlid: u64, rtsq: u16, points: ArrayVec<Point, 10>) -> Rec2
        requires tlid { IsNumber 10 tlid }
        requires rtsq { IsNumber 3 rtsq }
        ensures { result ≡ record { tlid = tlid; rtsq = rtsq; points = points.items } }
    {
        Rec2 { tlid, rtsq, points }
    }

    /// Returns the number of the chain (TLID), from 1 to 9,999,999,999.
    pub fn tlid(&self) -> u64
        ensures value { result ≡ self.now.tlid }
        ensures in_range { IsNumber 10 result }
    {
        self.tlid
    }

    /// Returns the position of the record among the chain's (RTSQ), from 1 to 999.
    pub fn rtsq(&self) -> u16
        ensures value { result ≡ self.now.rtsq }
        ensures in_range { IsNumber 3 result }
    {
        self.rtsq
    }

    /// Returns the used places, from left to right.
    pub fn points(&self) -> &[Point]
        ensures value { result.now ≡ self.now.points }
        ensures len { length result.now ≤ 10 }
    {
        self.points.as_slice()
    }

    #[tactic(auto, unfolding(crate::specs::RecordTypes::FitsFields))]
    pub(crate) fn show_fit(&self)
        ensures { FitsFields Type2 self.now }
    {
        show_points_fit(self.points.as_slice());
    }
}

impl Layout for Rec2 {
    const LEN: usize = 208;

    ghost LEN = { line_length Type2 };

    const RTYPE: u8 = b'2';

    ghost RTYPE = { byte_of Type2 };

    ghost Fits = { FitsFields Type2 };

    ghost Spells = { SpellsFields Type2 };

    ghost IsFault = { IsLeftmostFault (table_of Type2) };

    ghost reading = { reading_of Type2 };

    ghost spelling = { fields_spelling Type2 };

    #[tactic(auto, unfolding(crate::specs::RecordTypes::reading_of, crate::specs::FieldReading::and_then))]
    fn read(line: &[u8]) -> Result<Rec2, FieldFault> {
        let tlid = read_number(line, 6, 15)?;
        let rtsq = read_number(line, 16, 18)?;
        let points = read_places(line)?;
        Ok(Rec2::new(tlid, rtsq as u16, points))
    }

    #[tactic(auto, unfolding(crate::specs::RecordTypes::FitsFields, crate::specs::RecordTypes::fields_spelling))]
    fn put(&self, out: &mut [u8]) {
        self.show_fit();
        write_head(out, b'2');
        write_number(out, 6, 15, self.tlid);
        write_number(out, 16, 18, u64::from(self.rtsq));
        write_places::<ArrayVec<Point, 10>>(out, self.points.as_slice());
    }

    ghost bounded = { (lit≤ tt, lit≤ tt) };

    ghost spelling_is_line = { (layout_laws Type2).spelling_is_line };

    ghost reads_spelling = { (layout_laws Type2).reads_spelling };

    ghost reads_spelled = { (layout_laws Type2).reads_spelled };

    ghost spelled_is_read = { (layout_laws Type2).spelled_is_read };

    ghost shows_leftmost = { (layout_laws Type2).shows_leftmost };
}
