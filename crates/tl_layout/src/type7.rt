//! Record type 7: a landmark.

ghost use Rattle.std.proofs.Common.{lit≤};
ghost use Rattle.std.specs.Prelude.{◌≡◌};
ghost use Rattle.tl_layout.specs.RecordTypes.{FitsFields, SpellsFields, Type7, byte_of, fields_spelling, line_length, reading_of, table_of};
ghost use Rattle.tl_layout.specs.Bytes.{AreAllowed, IsText};
ghost use Rattle.tl_layout.specs.FieldFaults.{IsLeftmostFault};
ghost use Rattle.tl_layout.specs.Laws.TypeLaws.{layout_laws};
ghost use Rattle.tl_layout.specs.Numbers.{IsNumber};

use crate::field::{read_number, read_point_or_none, text_at};
use crate::point::{Point, show_point_fits};
use crate::writing::{write_blanks, write_head, write_number, write_point_or_blanks, write_text};
use crate::{FieldFault, Layout, Text};
use std::marker::Model;

/// The content of a record of type 7: all except its LAND.
#[derive(Clone, Copy, Debug, PartialEq, Eq)]
pub struct Body7 {
    /// State and county of the file (FILE).
    pub file: Text<5>,
    /// Source of the landmark (SOURCE).
    pub source: Text<1>,
    /// Census feature class code (CFCC).
    pub cfcc: Text<3>,
    /// Name of the landmark (LANAME).
    pub laname: Text<30>,
    /// The location of a landmark that is a point (LALONG, LALAT).
    pub point: Option<Point>,
}

/// A landmark (record type 7, 74 bytes).
#[derive(Clone, Copy, Debug, PartialEq, Eq)]
pub struct Rec7 {
    land: u64,
    body: Body7,
}

impl Body7 {
    /// Makes a content from these fields and the landmark's point, or none. Each byte must be allowed in a
    /// line.
    pub fn new(
        file: [u8; 5],
        source: [u8; 1],
        cfcc: [u8; 3],
        laname: [u8; 30],
        point: Option<Point>,
    ) -> Body7
        requires file { AreAllowed file }
        requires source { AreAllowed source }
        requires cfcc { AreAllowed cfcc }
        requires laname { AreAllowed laname }
        ensures { result
            ≡ record { file = file; source = source; cfcc = cfcc; laname = laname; point = point } }
    {
        Body7 {
            file: Text::new(file),
            source: Text::new(source),
            cfcc: Text::new(cfcc),
            laname: Text::new(laname),
            point,
        }
    }

    /// Returns the state and county of the file (FILE).
    pub fn file(&self) -> [u8; 5]
        ensures value { result ≡ self.now.file }
        ensures text { IsText 5 result }
    {
        self.file.bytes()
    }

    /// Returns the source of the landmark (SOURCE).
    pub fn source(&self) -> [u8; 1]
        ensures value { result ≡ self.now.source }
        ensures text { IsText 1 result }
    {
        self.source.bytes()
    }

    /// Census feature class code (CFCC).
    pub fn cfcc(&self) -> [u8; 3]
        ensures value { result ≡ self.now.cfcc }
        ensures text { IsText 3 result }
    {
        self.cfcc.bytes()
    }

    /// Returns the name of the landmark (LANAME).
    pub fn laname(&self) -> [u8; 30]
        ensures value { result ≡ self.now.laname }
        ensures text { IsText 30 result }
    {
        self.laname.bytes()
    }

    /// Returns the location of the landmark, if the record has one (LALONG, LALAT).
    pub fn point(&self) -> Option<Point>
        ensures { result ≡ self.now.point }
    {
        self.point
    }
}

impl Model for Rec7 {
    ghost use Rattle.tl_layout.specs.Fields.{Fields7};
    ghost use Rattle.tl_layout.specs.Numbers.{IsNumber};

    ghost Value = { Fields7 };

    ghost view = { λ r. record { land = r.land; body = r.body } };

    ghost invariant = { λ r. IsNumber 10 r.land };

    ghost inverse = { λ r. record { land = r.land; body = r.body } };
}

impl Rec7 {
    /// Makes a record from these fields. The LAND must be from 1 to 9,999,999,999.
    pub fn new(land: u64, body: Body7) -> Rec7
        requires { IsNumber 10 land }
        ensures { result ≡ record { land = land; body = body } }
    {
        Rec7 { land, body }
    }

    /// Returns the number of the landmark (LAND), from 1 to 9,999,999,999.
    pub fn land(&self) -> u64
        ensures value { result ≡ self.now.land }
        ensures in_range { IsNumber 10 result }
    {
        self.land
    }

    /// Returns the content: all except the LAND.
    pub fn body(&self) -> &Body7
        ensures { result.now ≡ self.now.body }
    {
        &self.body
    }

    #[tactic(auto, unfolding(crate::specs::RecordTypes::FitsFields))]
    pub(crate) fn show_fit(&self)
        ensures { FitsFields Type7 self.now }
    {
        let body = &self.body;
        body.file.show_fit();
        body.source.show_fit();
        body.cfcc.show_fit();
        body.laname.show_fit();
        show_point_fits(&body.point);
    }
}

impl Layout for Rec7 {
    const LEN: usize = 74;

    ghost LEN = { line_length Type7 };

    const RTYPE: u8 = b'7';

    ghost RTYPE = { byte_of Type7 };

    ghost Fits = { FitsFields Type7 };

    ghost Spells = { SpellsFields Type7 };

    ghost IsFault = { IsLeftmostFault (table_of Type7) };

    ghost reading = { reading_of Type7 };

    ghost spelling = { fields_spelling Type7 };

    #[tactic(auto, unfolding(crate::specs::RecordTypes::reading_of, crate::specs::FieldReading::and_then))]
    fn read(line: &[u8]) -> Result<Rec7, FieldFault> {
        let land = read_number(line, 11, 20)?;
        let point = read_point_or_none(line, 55)?;
        let body = Body7 {
            file: text_at(line, 6, 10),
            source: text_at(line, 21, 21),
            cfcc: text_at(line, 22, 24),
            laname: text_at(line, 25, 54),
            point,
        };
        Ok(Rec7::new(land, body))
    }

    #[tactic(auto, unfolding(crate::specs::RecordTypes::fields_spelling))]
    fn put(&self, out: &mut [u8]) {
        let body = &self.body;
        self.show_fit();
        write_head(out, b'7');
        write_text(out, 6, 10, &body.file);
        write_number(out, 11, 20, self.land);
        write_text(out, 21, 21, &body.source);
        write_text(out, 22, 24, &body.cfcc);
        write_text(out, 25, 54, &body.laname);
        write_point_or_blanks(out, 55, &body.point);
        write_blanks(out, 74, 74);
    }

    ghost bounded = { (lit≤ tt, lit≤ tt) };

    ghost spelling_is_line = { (layout_laws Type7).spelling_is_line };

    ghost reads_spelling = { (layout_laws Type7).reads_spelling };

    ghost reads_spelled = { (layout_laws Type7).reads_spelled };

    ghost spelled_is_read = { (layout_laws Type7).spelled_is_read };

    ghost shows_leftmost = { (layout_laws Type7).shows_leftmost };
}
