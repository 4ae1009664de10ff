//! Record type 4: further names of a chain.

ghost use Rattle.std.proofs.Common.{lit≤};
ghost use Rattle.std.specs.List.{AllByRecursion};
ghost use Rattle.std.specs.Prelude.{length, ◌≡◌, ◌≤◌};
ghost use Rattle.tl_layout.specs.RecordTypes.{FitsFields, SpellsFields, Type4, byte_of, fields_spelling, line_length, reading_of, table_of};
ghost use Rattle.tl_layout.specs.FieldFaults.{IsLeftmostFault};
ghost use Rattle.tl_layout.specs.Laws.TypeLaws.{layout_laws};
ghost use Rattle.tl_layout.specs.Numbers.{IsNumber};

use crate::field::read_number;
use crate::place::{read_places, write_places};
use crate::writing::{write_head, write_number};
use crate::{FieldFault, Layout};
use arrayvec::ArrayVec;
use std::marker::Model;

/// Up to five features whose names a chain has besides its own (record type 4, 58 bytes).
#[derive(Debug, Drop)]
pub struct Rec4 {
    tlid: u64,
    rtsq: u16,
    feats: ArrayVec<u32, 5>,
}

impl Model for Rec4 {
    ghost use Rattle.std.specs.List.{AllByRecursion};
    ghost use Rattle.tl_layout.specs.Fields.{Fields4};
    ghost use Rattle.tl_layout.specs.Numbers.{IsNumber};

    ghost Value = { Fields4 };

    ghost view = { λ r. record { tlid = r.tlid; rtsq = r.rtsq; feats = r.feats.items } };

    ghost invariant = { λ r. IsNumber 10 r.tlid × IsNumber 3 r.rtsq × AllByRecursion (IsNumber 8) r.feats.items };
}

impl Rec4 {
    /// Makes a record from these fields. The TLID must be from 1 to 9,999,999,999, the RTSQ from 1 to 999, each
    /// FEAT from 1 to 99,999,999.
    pub fn new(tlid: u64, rtsq: u16, feats: ArrayVec<u32, 5>) -> Rec4
        requires tlid { IsNumber 10 tlid }
        requires rtsq { IsNumber 3 rtsq }
        requires feats { AllByRecursion (IsNumber 8) feats.items }
        ensures { result ≡ record { tlid = tlid; rtsq = rtsq; feats = feats.items } }
    {
        Rec4 { tlid, rtsq, feats }
    }

    /// Returns the number of the chain (TLID), from 1 to 9,999,999,999.
    pub fn tlid(&self) -> u64
        ensures value { result ≡ self.now.tlid }
        ensures in_range { IsNumber 10 result }
    {
        self.tlid
    }

    /// Returns the position of the record among the chain's (RTSQ), from 1 to 999.
    pub fn rtsq(&self) -> u16
        ensures value { result ≡ self.now.rtsq }
        ensures in_range { IsNumber 3 result }
    {
        self.rtsq
    }

    /// Returns the used places, from left to right.
    pub fn feats(&self) -> &[u32]
        ensures value { result.now ≡ self.now.feats }
        ensures len { length result.now ≤ 5 }
        ensures in_range { AllByRecursion (IsNumber 8) result.now }
    {
        self.feats.as_slice()
    }

    #[tactic(auto, unfolding(crate::specs::RecordTypes::FitsFields))]
    pub(crate) fn show_fit(&self)
        ensures { FitsFields Type4 self.now }
    {
        let _ = self.feats.as_slice();
    }
}

impl Layout for Rec4 {
    const LEN: usize = 58;

    ghost LEN = { line_length Type4 };

    const RTYPE: u8 = b'4';

    ghost RTYPE = { byte_of Type4 };

    ghost Fits = { FitsFields Type4 };

    ghost Spells = { SpellsFields Type4 };

    ghost IsFault = { IsLeftmostFault (table_of Type4) };

    ghost reading = { reading_of Type4 };

    ghost spelling = { fields_spelling Type4 };

    #[tactic(auto, using(crate::specs::Laws::Type4Laws::feats_in_range), unfolding(crate::specs::RecordTypes::reading_of, crate::specs::FieldReading::and_then))]
    fn read(line: &[u8]) -> Result<Rec4, FieldFault> {
        let tlid = read_number(line, 6, 15)?;
        let rtsq = read_number(line, 16, 18)?;
        let feats = read_places(line)?;
        Ok(Rec4::new(tlid, rtsq as u16, feats))
    }

    #[tactic(auto, unfolding(crate::specs::RecordTypes::fields_spelling))]
    fn put(&self, out: &mut [u8]) {
        self.show_fit();
        write_head(out, b'4');
        write_number(out, 6, 15, self.tlid);
        write_number(out, 16, 18, u64::from(self.rtsq));
        write_places::<ArrayVec<u32, 5>>(out, self.feats.as_slice());
    }

    ghost bounded = { (lit≤ tt, lit≤ tt) };

    ghost spelling_is_line = { (layout_laws Type4).spelling_is_line };

    ghost reads_spelling = { (layout_laws Type4).reads_spelling };

    ghost reads_spelled = { (layout_laws Type4).reads_spelled };

    ghost spelled_is_read = { (layout_laws Type4).spelled_is_read };

    ghost shows_leftmost = { (layout_laws Type4).shows_leftmost };
}
