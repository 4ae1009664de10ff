//! Record type 6: further address ranges of a chain.

ghost use Rattle.std.proofs.Common.{lit≤};
ghost use Rattle.std.specs.Prelude.{◌≡◌};
ghost use Rattle.tl_layout.specs.RecordTypes.{FitsFields, SpellsFields, Type6, byte_of, fields_spelling, line_length, reading_of, table_of};
ghost use Rattle.tl_layout.specs.FieldFaults.{IsLeftmostFault};
ghost use Rattle.tl_layout.specs.Laws.TypeLaws.{layout_laws};
ghost use Rattle.tl_layout.specs.Numbers.{IsNumber};

use crate::field::read_number;
use crate::writing::{write_head, write_number};
use crate::{FieldFault, Layout, Ranges};
use std::marker::Model;

/// Further address ranges and ZIP codes of a chain (record type 6, 76 bytes).
#[derive(Clone, Copy, Debug, PartialEq, Eq)]
pub struct Rec6 {
    tlid: u64,
    rtsq: u16,
    ranges: Ranges,
}

impl Model for Rec6 {
    ghost use Rattle.tl_layout.specs.Fields.{Fields6};
    ghost use Rattle.tl_layout.specs.Numbers.{IsNumber};

    ghost Value = { Fields6 };

    ghost view = { λ r. record { tlid = r.tlid; rtsq = r.rtsq; ranges = r.ranges } };

    ghost invariant = { λ r. IsNumber 10 r.tlid × IsNumber 3 r.rtsq };

    ghost inverse = { λ r. record { tlid = r.tlid; rtsq = r.rtsq; ranges = r.ranges } };
}

impl Rec6 {
    /// Makes a record from these fields. The TLID must be from 1 to 9,999,999,999, the RTSQ from 1 to
    /// 999.
    pub fn new(tlid: u64, rtsq: u16, ranges: Ranges) -> Rec6
        requires tlid { IsNumber 10 tlid }
        requires rtsq { IsNumber 3 rtsq }
        ensures { result ≡ record { tlid = tlid; rtsq = rtsq; ranges = ranges } }
    {
        Rec6 { tlid, rtsq, ranges }
    }

    /// Returns the number of the chain (TLID), from 1 to 9,999,999,999.
    pub fn tlid(&self) -> u64
        ensures value { result ≡ self.now.tlid }
        ensures in_range { IsNumber 10 result }
    {
        self.tlid
    }

    /// Returns the position of the record among the chain's (RTSQ), from 1 to 999.
    pub fn rtsq(&self) -> u16
        ensures value { result ≡ self.now.rtsq }
        ensures in_range { IsNumber 3 result }
    {
        self.rtsq
    }

    /// Address ranges and ZIP codes (FRADDL to ZIPR).
    pub fn ranges(&self) -> &Ranges
        ensures { result.now ≡ self.now.ranges }
    {
        &self.ranges
    }

    #[tactic(auto, unfolding(crate::specs::RecordTypes::FitsFields))]
    pub(crate) fn show_fit(&self)
        ensures { FitsFields Type6 self.now }
    {
        self.ranges.show_fit();
    }
}

impl Layout for Rec6 {
    const LEN: usize = 76;

    ghost LEN = { line_length Type6 };

    const RTYPE: u8 = b'6';

    ghost RTYPE = { byte_of Type6 };

    ghost Fits = { FitsFields Type6 };

    ghost Spells = { SpellsFields Type6 };

    ghost IsFault = { IsLeftmostFault (table_of Type6) };

    ghost reading = { reading_of Type6 };

    ghost spelling = { fields_spelling Type6 };

    #[tactic(auto, unfolding(crate::specs::RecordTypes::reading_of, crate::specs::FieldReading::and_then))]
    fn read(line: &[u8]) -> Result<Rec6, FieldFault> {
        let tlid = read_number(line, 6, 15)?;
        let rtsq = read_number(line, 16, 18)?;
        Ok(Rec6::new(tlid, rtsq as u16, Ranges::at(line, 19)))
    }

    #[tactic(auto, unfolding(crate::specs::RecordTypes::fields_spelling))]
    fn put(&self, out: &mut [u8]) {
        self.show_fit();
        write_head(out, b'6');
        write_number(out, 6, 15, self.tlid);
        write_number(out, 16, 18, u64::from(self.rtsq));
        self.ranges.put(out, 19);
    }

    ghost bounded = { (lit≤ tt, lit≤ tt) };

    ghost spelling_is_line = { (layout_laws Type6).spelling_is_line };

    ghost reads_spelling = { (layout_laws Type6).reads_spelling };

    ghost reads_spelled = { (layout_laws Type6).reads_spelled };

    ghost spelled_is_read = { (layout_laws Type6).spelled_is_read };

    ghost shows_leftmost = { (layout_laws Type6).shows_leftmost };
}
