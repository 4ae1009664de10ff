//! Record type 1: a chain's basic data.

ghost use Rattle.std.proofs.Common.{lit≤};
ghost use Rattle.std.specs.Prelude.{codes, length, take, ◌++◌, ◌∷◌, ◌≡◌, ◌≤◌};
ghost use Rattle.tl_layout.specs.RecordTypes.{FitsFields, SpellsFields, Type1, byte_of, fields_spelling, line_length, reading_of, table_of};
ghost use Rattle.tl_layout.specs.Bytes.{IsText};
ghost use Rattle.tl_layout.specs.Columns.{joined};
ghost use Rattle.tl_layout.specs.FieldFaults.{IsLeftmostFault};
ghost use Rattle.tl_layout.specs.FieldTexts.{number_text};
ghost use Rattle.tl_layout.specs.Laws.TypeLaws.{layout_laws};
ghost use Rattle.tl_layout.specs.Numbers.{IsNumber};
ghost use Rattle.tl_layout.specs.Type1.{type_1_short_reading};
ghost use Rattle.tl_layout.specs.Type1Groups.{point_texts};

pub(crate) mod body;
pub(crate) mod fields;

use crate::field::{read_number, read_point};
use crate::writing::{write_head, write_number, write_point};
use crate::{Body1, FieldFault, Layout, Point};
use std::marker::Model;

/// A chain with its two end points (record type 1, 228 bytes).
#[derive(Clone, Copy, Debug, PartialEq, Eq)]
pub struct Rec1 {
    tlid: u64,
    body: Body1,
    start: Point,
    end: Point,
}

impl Model for Rec1 {
    ghost use Rattle.tl_layout.specs.Fields.{Fields1};
    ghost use Rattle.tl_layout.specs.Numbers.{IsNumber};

    ghost Value = { Fields1 };

    ghost view = { λ r. record { tlid = r.tlid; body = r.body; start = r.start; end = r.end } };

    ghost invariant = { λ r. IsNumber 10 r.tlid };

    ghost inverse = { λ r. record { tlid = r.tlid; body = r.body; start = r.start; end = r.end } };
}

impl Rec1 {
    /// Makes a record from these fields. The TLID must be from 1 to 9,999,999,999.
    pub fn new(tlid: u64, body: Body1, start: Point, end: Point) -> Rec1
        requires { IsNumber 10 tlid }
        ensures { result ≡ record { tlid = tlid; body = body; start = start; end = end } }
    {
        Rec1 {
            tlid,
            body,
            start,
            end,
        }
    }

    /// Returns the number of the chain (TLID), from 1 to 9,999,999,999.
    pub fn tlid(&self) -> u64
        ensures value { result ≡ self.now.tlid }
        ensures in_range { IsNumber 10 result }
    {
        self.tlid
    }

    /// Returns the content: all except the TLID and the two points.
    pub fn body(&self) -> &Body1
        ensures { result.now ≡ self.now.body }
    {
        &self.body
    }

    /// Returns the chain's first point (FRLONG, FRLAT).
    pub fn start(&self) -> Point
        ensures { result ≡ self.now.start }
    {
        self.start
    }

    /// Returns the chain's last point (TOLONG, TOLAT).
    pub fn end(&self) -> Point
        ensures { result ≡ self.now.end }
    {
        self.end
    }

    #[tactic(auto, using(crate::specs::Laws::Type1Laws::type_1_fits))]
    pub(crate) fn show_fit(&self)
        ensures { FitsFields Type1 self.now }
    {
        let _ = &self.tlid;
        self.body.show_fit();
        self.start.show_fit();
        self.end.show_fit();
    }

    /// Writes columns 1 to 15 of the record with this number: the record type, the version and the TLID.
    pub fn put_number(tlid: u64, out: &mut [u8])
        requires { 15 ≤ length out.old }
        ensures { take 15 out.new ≡ (byte_of Type1 ∷ codes "2006") ++ number_text 10 tlid }
    {
        write_head(out, b'1');
        write_number(out, 6, 15, tlid);
    }

    /// Writes columns 191 to 228 of a record with these points, after the columns already written.
    pub fn put_points(start: &Point, end: &Point, out: &mut [u8])
        requires { length out.old ≡ 228 }
        ensures { out.new ≡ joined (joined (take 190 out.old) (point_texts start.now)) (point_texts end.now) }
    {
        write_point(out, 191, start);
        write_point(out, 210, end);
    }

    /// Reads a full line, group by group.
    #[tactic(auto, unfolding(crate::specs::Type1::type_1_short_reading, crate::specs::FieldReading::and_then))]
    fn read_groups(line: &[u8]) -> Result<Rec1, FieldFault>
        requires { IsText (line_length Type1) line.now }
        ensures { result ≡ type_1_short_reading line.now }
    {
        let tlid = read_number(line, 6, 15)?;
        let start = read_point(line, 191)?;
        let end = read_point(line, 210)?;
        Ok(Rec1::new(tlid, Body1::at(line), start, end))
    }
}

impl Layout for Rec1 {
    const LEN: usize = 228;

    ghost LEN = { line_length Type1 };

    const RTYPE: u8 = b'1';

    ghost RTYPE = { byte_of Type1 };

    ghost Fits = { FitsFields Type1 };

    ghost Spells = { SpellsFields Type1 };

    ghost IsFault = { IsLeftmostFault (table_of Type1) };

    ghost reading = { reading_of Type1 };

    ghost spelling = { fields_spelling Type1 };

    fn read(line: &[u8]) -> Result<Rec1, FieldFault> {
        Rec1::read_groups(line)
    }

    #[tactic(auto, unfolding(crate::specs::RecordTypes::fields_spelling))]
    fn put(&self, out: &mut [u8]) {
        self.show_fit();
        Rec1::put_number(self.tlid, out);
        self.body.put(out);
        Rec1::put_points(&self.start, &self.end, out);
    }

    ghost bounded = { (lit≤ tt, lit≤ tt) };

    ghost spelling_is_line = { (layout_laws Type1).spelling_is_line };

    ghost reads_spelling = { (layout_laws Type1).reads_spelling };

    ghost reads_spelled = { (layout_laws Type1).reads_spelled };

    ghost spelled_is_read = { (layout_laws Type1).spelled_is_read };

    ghost shows_leftmost = { (layout_laws Type1).shows_leftmost };
}
