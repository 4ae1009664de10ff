//! Record type P: a polygon's inner point.

ghost use Rattle.std.proofs.Common.{lit≤};
ghost use Rattle.std.specs.Prelude.{◌≡◌};
ghost use Rattle.tl_layout.specs.RecordTypes.{FitsFields, SpellsFields, TypeP, byte_of, fields_spelling, line_length, reading_of, table_of};
ghost use Rattle.tl_layout.specs.Bytes.{AreAllowed, IsText};
ghost use Rattle.tl_layout.specs.FieldFaults.{IsLeftmostFault};
ghost use Rattle.tl_layout.specs.Laws.TypeLaws.{layout_laws};
ghost use Rattle.tl_layout.specs.Numbers.{IsNumber};

use crate::field::{read_number, read_point_or_none, text_at};
use crate::point::{Point, show_point_fits};
use crate::writing::{write_head, write_number, write_point_or_blanks, write_text};
use crate::{FieldFault, Layout, Text};
use std::marker::Model;

/// The content of a record of type P: all except the polygon's key.
#[derive(Clone, Copy, Debug, PartialEq, Eq)]
pub struct BodyP {
    /// State and county of the file (FILE).
    pub file: Text<5>,
    /// A point inside the polygon (POLYLONG, POLYLAT).
    pub point: Option<Point>,
    /// Whether the polygon is water (WATER).
    pub water: Text<1>,
}

/// A polygon's inner point (record type P, 45 bytes).
#[derive(Clone, Copy, Debug, PartialEq, Eq)]
pub struct RecP {
    cenid: Text<5>,
    polyid: u64,
    body: BodyP,
}

impl BodyP {
    /// Makes a content from these fields and the polygon's inner point, or none. Each byte must be allowed in a
    /// line.
    pub fn new(file: [u8; 5], point: Option<Point>, water: [u8; 1]) -> BodyP
        requires file { AreAllowed file }
        requires water { AreAllowed water }
        ensures { result ≡ record { file = file; point = point; water = water } }
    {
        BodyP {
            file: Text::new(file),
            point,
            water: Text::new(water),
        }
    }

    /// Returns the state and county of the file (FILE).
    pub fn file(&self) -> [u8; 5]
        ensures value { result ≡ self.now.file }
        ensures text { IsText 5 result }
    {
        self.file.bytes()
    }

    /// Returns a point inside the polygon, if the record has one (POLYLONG, POLYLAT).
    pub fn point(&self) -> Option<Point>
        ensures { result ≡ self.now.point }
    {
        self.point
    }

    /// Returns whether the polygon is water (WATER).
    pub fn water(&self) -> [u8; 1]
        ensures value { result ≡ self.now.water }
        ensures text { IsText 1 result }
    {
        self.water.bytes()
    }
}

impl Model for RecP {
    ghost use Rattle.tl_layout.specs.Fields.{FieldsP};
    ghost use Rattle.tl_layout.specs.Numbers.{IsNumber};

    ghost Value = { FieldsP };

    ghost view = { λ r. record { cenid = r.cenid; polyid = r.polyid; body = r.body } };

    ghost invariant = { λ r. IsNumber 10 r.polyid };

    ghost inverse = { λ r. record { cenid = r.cenid; polyid = r.polyid; body = r.body } };
}

impl RecP {
    /// Makes a record from these fields. The CENID's bytes must be allowed in a line; the POLYID must be from 1
    /// to 9,999,999,999.
    pub fn new(cenid: [u8; 5], polyid: u64, body: BodyP) -> RecP
        requires cenid { AreAllowed cenid }
        requires polyid { IsNumber 10 polyid }
        ensures { result ≡ record { cenid = cenid; polyid = polyid; body = body } }
    {
        RecP {
            cenid: Text::new(cenid),
            polyid,
            body,
        }
    }

    /// Returns the CENID of the polygon (CENID).
    pub fn cenid(&self) -> [u8; 5]
        ensures value { result ≡ self.now.cenid }
        ensures text { IsText 5 result }
    {
        self.cenid.bytes()
    }

    /// Returns the POLYID of the polygon (POLYID), from 1 to 9,999,999,999.
    pub fn polyid(&self) -> u64
        ensures value { result ≡ self.now.polyid }
        ensures in_range { IsNumber 10 result }
    {
        self.polyid
    }

    /// Returns the content: all except the polygon's key.
    pub fn body(&self) -> &BodyP
        ensures { result.now ≡ self.now.body }
    {
        &self.body
    }

    #[tactic(auto, unfolding(crate::specs::RecordTypes::FitsFields))]
    pub(crate) fn show_fit(&self)
        ensures { FitsFields TypeP self.now }
    {
        let body = &self.body;
        self.cenid.show_fit();
        body.file.show_fit();
        show_point_fits(&body.point);
        body.water.show_fit();
    }
}

impl Layout for RecP {
    const LEN: usize = 45;

    ghost LEN = { line_length TypeP };

    const RTYPE: u8 = b'P';

    ghost RTYPE = { byte_of TypeP };

    ghost Fits = { FitsFields TypeP };

    ghost Spells = { SpellsFields TypeP };

    ghost IsFault = { IsLeftmostFault (table_of TypeP) };

    ghost reading = { reading_of TypeP };

    ghost spelling = { fields_spelling TypeP };

    #[tactic(auto, unfolding(crate::specs::RecordTypes::reading_of, crate::specs::FieldReading::and_then))]
    fn read(line: &[u8]) -> Result<RecP, FieldFault> {
        let polyid = read_number(line, 16, 25)?;
        let point = read_point_or_none(line, 26)?;
        let body = BodyP {
            file: text_at(line, 6, 10),
            point,
            water: text_at(line, 45, 45),
        };
        Ok(RecP {
            cenid: text_at(line, 11, 15),
            polyid,
            body,
        })
    }

    #[tactic(auto, unfolding(crate::specs::RecordTypes::fields_spelling))]
    fn put(&self, out: &mut [u8]) {
        let body = &self.body;
        self.show_fit();
        write_head(out, b'P');
        write_text(out, 6, 10, &body.file);
        write_text(out, 11, 15, &self.cenid);
        write_number(out, 16, 25, self.polyid);
        write_point_or_blanks(out, 26, &body.point);
        write_text(out, 45, 45, &body.water);
    }

    ghost bounded = { (lit≤ tt, lit≤ tt) };

    ghost spelling_is_line = { (layout_laws TypeP).spelling_is_line };

    ghost reads_spelling = { (layout_laws TypeP).reads_spelling };

    ghost reads_spelled = { (layout_laws TypeP).reads_spelled };

    ghost spelled_is_read = { (layout_laws TypeP).spelled_is_read };

    ghost shows_leftmost = { (layout_laws TypeP).shows_leftmost };
}
