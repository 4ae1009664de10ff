//! Record type I: the nodes of a chain and the polygons on its sides.

ghost use Rattle.std.proofs.Common.{lit≤};
ghost use Rattle.std.specs.Prelude.{Ok, Option, Result, length, ◌≡◌};
ghost use Rattle.tl_layout.specs.RecordTypes.{FitsFields, SpellsFields, TypeI, byte_of, fields_spelling, line_length, reading_of, table_of};
ghost use Rattle.tl_layout.specs.Bytes.{AreAllowed, IsText};
ghost use Rattle.tl_layout.specs.FieldFaults.{IsLeftmostFault};
ghost use Rattle.tl_layout.specs.Laws.TypeLaws.{layout_laws};
ghost use Rattle.tl_layout.specs.Numbers.{IsNumber, IsNumberOrNone};
ghost use Rattle.tl_layout.specs.TypeI.{body_i_at, type_i_spelling};

use crate::field::{read_number, read_number_or_none, text_at};
use crate::writing::{write_head, write_number, write_text};
use crate::{FieldFault, Layout, NumberOrNone, Side, Text};
use std::marker::Model;

/// The content of a record of type I: all except its TLID, its nodes and its sides.
#[derive(Clone, Copy, Debug, PartialEq, Eq)]
pub struct BodyI {
    /// State and county of the file (FILE).
    pub file: Text<5>,
    /// Source of the chain's coordinates (SOURCE).
    pub source: Text<10>,
    /// Feature segment (FTSEG).
    pub ftseg: Text<17>,
    /// Reserved (RS_I1).
    pub rs_i1: Text<10>,
    /// Reserved (RS_I2).
    pub rs_i2: Text<10>,
    /// Reserved (RS_I3).
    pub rs_i3: Text<10>,
}

/// The nodes of a chain and the polygons on its sides (record type I, 127 bytes).
#[derive(Clone, Copy, Debug, PartialEq, Eq)]
pub struct RecI {
    tlid: u64,
    body: BodyI,
    start_node: NumberOrNone,
    end_node: NumberOrNone,
    left: Side,
    right: Side,
}

impl Model for RecI {
    ghost use Rattle.tl_layout.specs.Fields.{FieldsI};
    ghost use Rattle.tl_layout.specs.Numbers.{IsNumber, IsNumberOrNone};

    ghost Value = { FieldsI };

    ghost view = { λ r. record { tlid = r.tlid; body = r.body; start_node = r.start_node; end_node = r.end_node; left = r.left; right = r.right } };

    ghost invariant = { λ r. IsNumber 10 r.tlid × IsNumberOrNone 10 r.start_node × IsNumberOrNone 10 r.end_node };

    ghost inverse = { λ r. record { tlid = r.tlid; body = r.body; start_node = r.start_node; end_node = r.end_node; left = r.left; right = r.right } };
}

impl BodyI {
    /// Makes a content from these fields. Each of their bytes must be allowed in a line.
    pub fn new(
        file: [u8; 5],
        source: [u8; 10],
        ftseg: [u8; 17],
        rs_i1: [u8; 10],
        rs_i2: [u8; 10],
        rs_i3: [u8; 10],
    ) -> BodyI
        requires file { AreAllowed file }
        requires source { AreAllowed source }
        requires ftseg { AreAllowed ftseg }
        requires rs_i1 { AreAllowed rs_i1 }
        requires rs_i2 { AreAllowed rs_i2 }
        requires rs_i3 { AreAllowed rs_i3 }
        ensures { result
            ≡ record {
              file = file;
              source = source;
              ftseg = ftseg;
              rs_i1 = rs_i1;
              rs_i2 = rs_i2;
              rs_i3 = rs_i3;
            } }
    {
        BodyI {
            file: Text::new(file),
            source: Text::new(source),
            ftseg: Text::new(ftseg),
            rs_i1: Text::new(rs_i1),
            rs_i2: Text::new(rs_i2),
            rs_i3: Text::new(rs_i3),
        }
    }

    /// Returns the state and county of the file (FILE).
    pub fn file(&self) -> [u8; 5]
        ensures value { result ≡ self.now.file }
        ensures text { IsText 5 result }
    {
        self.file.bytes()
    }

    /// Returns the source of the chain's coordinates (SOURCE).
    pub fn source(&self) -> [u8; 10]
        ensures value { result ≡ self.now.source }
        ensures text { IsText 10 result }
    {
        self.source.bytes()
    }

    /// Returns the feature segment (FTSEG).
    pub fn ftseg(&self) -> [u8; 17]
        ensures value { result ≡ self.now.ftseg }
        ensures text { IsText 17 result }
    {
        self.ftseg.bytes()
    }

    /// Returns the reserved field (RS_I1).
    pub fn rs_i1(&self) -> [u8; 10]
        ensures value { result ≡ self.now.rs_i1 }
        ensures text { IsText 10 result }
    {
        self.rs_i1.bytes()
    }

    /// Returns the reserved field (RS_I2).
    pub fn rs_i2(&self) -> [u8; 10]
        ensures value { result ≡ self.now.rs_i2 }
        ensures text { IsText 10 result }
    {
        self.rs_i2.bytes()
    }

    /// Returns the reserved field (RS_I3).
    pub fn rs_i3(&self) -> [u8; 10]
        ensures value { result ≡ self.now.rs_i3 }
        ensures text { IsText 10 result }
    {
        self.rs_i3.bytes()
    }

    /// Returns the content of a full line.
    fn at(line: &[u8]) -> BodyI
        requires { IsText (line_length TypeI) line.now }
        ensures { result ≡ body_i_at line.now }
    {
        BodyI {
            file: text_at(line, 6, 10),
            source: text_at(line, 71, 80),
            ftseg: text_at(line, 81, 97),
            rs_i1: text_at(line, 98, 107),
            rs_i2: text_at(line, 108, 117),
            rs_i3: text_at(line, 118, 127),
        }
    }
}

impl RecI {
    /// Makes a record from these fields. The numbers must be from 1 to 9,999,999,999; a node can be none.
    pub fn new(
        tlid: u64,
        body: BodyI,
        start_node: Option<u64>,
        end_node: Option<u64>,
        left: Side,
        right: Side,
    ) -> RecI
        requires tlid { IsNumber 10 tlid }
        requires nodes { IsNumberOrNone 10 start_node × IsNumberOrNone 10 end_node }
        ensures { result ≡ record { tlid = tlid; body = body; start_node = start_node; end_node = end_node; left = left; right = right } }
    {
        RecI {
            tlid,
            body,
            start_node: NumberOrNone::new(start_node),
            end_node: NumberOrNone::new(end_node),
            left,
            right,
        }
    }

    /// Returns the number of the chain (TLID), from 1 to 9,999,999,999.
    pub fn tlid(&self) -> u64
        ensures value { result ≡ self.now.tlid }
        ensures in_range { IsNumber 10 result }
    {
        self.tlid
    }

    /// Returns the content: all except the TLID, the nodes and the sides.
    pub fn body(&self) -> &BodyI
        ensures { result.now ≡ self.now.body }
    {
        &self.body
    }

    /// Returns the number of the node at the chain's start (TZIDS), from 1 to 9,999,999,999, or none.
    pub fn start_node(&self) -> Option<u64>
        ensures value { result ≡ self.now.start_node }
        ensures in_range { IsNumberOrNone 10 result }
    {
        self.start_node.get()
    }

    /// Returns the number of the node at the chain's end (TZIDE), from 1 to 9,999,999,999, or none.
    pub fn end_node(&self) -> Option<u64>
        ensures value { result ≡ self.now.end_node }
        ensures in_range { IsNumberOrNone 10 result }
    {
        self.end_node.get()
    }

    /// Returns the polygon on the left side (CENIDL, POLYIDL).
    pub fn left(&self) -> &Side
        ensures { result.now ≡ self.now.left }
    {
        &self.left
    }

    /// Returns the polygon on the right side (CENIDR, POLYIDR).
    pub fn right(&self) -> &Side
        ensures { result.now ≡ self.now.right }
    {
        &self.right
    }

    /// Writes the canonical spelling of the record with these fields.
    #[tactic(auto, unfolding(crate::specs::RecordTypes::fields_spelling))]
    pub fn put_fields(
        tlid: u64,
        body: &BodyI,
        start_node: Option<u64>,
        end_node: Option<u64>,
        left: &Side,
        right: &Side,
        out: &mut [u8],
    )
        requires { length out.old ≡ line_length TypeI }
        ensures { out.new
            ≡ type_i_spelling (record {
              tlid = tlid;
              body = body.now;
              start_node = start_node;
              end_node = end_node;
              left = left.now;
              right = right.now;
            }) }
    {
        write_head(out, b'I');
        write_text(out, 6, 10, &body.file);
        write_number(out, 11, 20, tlid);
        write_number(out, 21, 30, start_node.unwrap_or(0));
        write_number(out, 31, 40, end_node.unwrap_or(0));
        write_text(out, 41, 45, left.cenid_text());
        write_number(out, 46, 55, left.polyid().unwrap_or(0));
        write_text(out, 56, 60, right.cenid_text());
        write_number(out, 61, 70, right.polyid().unwrap_or(0));
        write_text(out, 71, 80, &body.source);
        write_text(out, 81, 97, &body.ftseg);
        write_text(out, 98, 107, &body.rs_i1);
        write_text(out, 108, 117, &body.rs_i2);
        write_text(out, 118, 127, &body.rs_i3);
    }

    #[tactic(auto, unfolding(crate::specs::RecordTypes::FitsFields))]
    pub(crate) fn show_fit(&self)
        ensures { FitsFields TypeI self.now }
    {
        let body = &self.body;
        body.file.show_fit();
        body.source.show_fit();
        body.ftseg.show_fit();
        body.rs_i1.show_fit();
        body.rs_i2.show_fit();
        body.rs_i3.show_fit();
        self.left.show_fit();
        self.right.show_fit();
    }
}

impl Layout for RecI {
    const LEN: usize = 127;

    ghost LEN = { line_length TypeI };

    const RTYPE: u8 = b'I';

    ghost RTYPE = { byte_of TypeI };

    ghost Fits = { FitsFields TypeI };

    ghost Spells = { SpellsFields TypeI };

    ghost IsFault = { IsLeftmostFault (table_of TypeI) };

    ghost reading = { reading_of TypeI };

    ghost spelling = { fields_spelling TypeI };

    #[tactic(auto, unfolding(crate::specs::RecordTypes::reading_of, crate::specs::FieldReading::and_then))]
    fn read(line: &[u8]) -> Result<RecI, FieldFault> {
        let tlid = read_number(line, 11, 20)?;
        let start_node = read_number_or_none(line, 21, 30)?;
        let end_node = read_number_or_none(line, 31, 40)?;
        let left_polyid = read_number_or_none(line, 46, 55)?;
        let right_polyid = read_number_or_none(line, 61, 70)?;
        let left = Side::of(text_at(line, 41, 45), left_polyid);
        let right = Side::of(text_at(line, 56, 60), right_polyid);
        Ok(RecI::new(tlid, BodyI::at(line), start_node, end_node, left, right))
    }

    fn put(&self, out: &mut [u8]) {
        self.show_fit();
        RecI::put_fields(
            self.tlid,
            &self.body,
            self.start_node.get(),
            self.end_node.get(),
            &self.left,
            &self.right,
            out,
        );
    }

    ghost bounded = { (lit≤ tt, lit≤ tt) };

    ghost spelling_is_line = { (layout_laws TypeI).spelling_is_line };

    ghost reads_spelling = { (layout_laws TypeI).reads_spelling };

    ghost reads_spelled = { (layout_laws TypeI).reads_spelled };

    ghost spelled_is_read = { (layout_laws TypeI).spelled_is_read };

    ghost shows_leftmost = { (layout_laws TypeI).shows_leftmost };
}
