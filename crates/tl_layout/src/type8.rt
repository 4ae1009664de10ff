//! Record type 8: a polygon of a landmark.

ghost use Rattle.std.proofs.Common.{lit≤};
ghost use Rattle.std.specs.Prelude.{◌≡◌};
ghost use Rattle.tl_layout.specs.RecordTypes.{FitsFields, SpellsFields, Type8, byte_of, fields_spelling, line_length, reading_of, table_of};
ghost use Rattle.tl_layout.specs.Bytes.{AreAllowed, IsText};
ghost use Rattle.tl_layout.specs.FieldFaults.{IsLeftmostFault};
ghost use Rattle.tl_layout.specs.Laws.TypeLaws.{layout_laws};
ghost use Rattle.tl_layout.specs.Numbers.{IsNumber};

use crate::field::{read_number, text_at};
use crate::writing::{write_blanks, write_head, write_number, write_text};
use crate::{FieldFault, Layout, Text};
use std::marker::Model;

/// A polygon that belongs to a landmark (record type 8, 36 bytes).
#[derive(Clone, Copy, Debug, PartialEq, Eq)]
pub struct Rec8 {
    file: Text<5>,
    cenid: Text<5>,
    polyid: u64,
    land: u64,
}

impl Model for Rec8 {
    ghost use Rattle.tl_layout.specs.Fields.{Fields8};
    ghost use Rattle.tl_layout.specs.Numbers.{IsNumber};

    ghost Value = { Fields8 };

    ghost view = { λ r. record { file = r.file; cenid = r.cenid; polyid = r.polyid; land = r.land } };

    ghost invariant = { λ r. IsNumber 10 r.polyid × IsNumber 10 r.land };

    ghost inverse = { λ r. record { file = r.file; cenid = r.cenid; polyid = r.polyid; land = r.land } };
}

impl Rec8 {
    /// Makes a record from these fields. Each byte must be allowed in a line; the POLYID and the LAND
    /// must be from 1 to 9,999,999,999.
    pub fn new(file: [u8; 5], cenid: [u8; 5], polyid: u64, land: u64) -> Rec8
        requires file { AreAllowed file }
        requires cenid { AreAllowed cenid }
        requires polyid { IsNumber 10 polyid }
        requires land { IsNumber 10 land }
        ensures { result ≡ record { file = file; cenid = cenid; polyid = polyid; land = land } }
    {
        Rec8 {
            file: Text::new(file),
            cenid: Text::new(cenid),
            polyid,
            land,
        }
    }

    /// Returns the state and county of the file (FILE).
    pub fn file(&self) -> [u8; 5]
        ensures value { result ≡ self.now.file }
        ensures text { IsText 5 result }
    {
        self.file.bytes()
    }

    /// Returns the CENID of the polygon (CENID).
    pub fn cenid(&self) -> [u8; 5]
        ensures value { result ≡ self.now.cenid }
        ensures text { IsText 5 result }
    {
        self.cenid.bytes()
    }

    /// Returns the POLYID of the polygon (POLYID), from 1 to 9,999,999,999.
    pub fn polyid(&self) -> u64
        ensures value { result ≡ self.now.polyid }
        ensures in_range { IsNumber 10 result }
    {
        self.polyid
    }

    /// Returns the number of the landmark (LAND), from 1 to 9,999,999,999.
    pub fn land(&self) -> u64
        ensures value { result ≡ self.now.land }
        ensures in_range { IsNumber 10 result }
    {
        self.land
    }

    #[tactic(auto, unfolding(crate::specs::RecordTypes::FitsFields))]
    pub(crate) fn show_fit(&self)
        ensures { FitsFields Type8 self.now }
    {
        self.file.show_fit();
        self.cenid.show_fit();
    }
}

impl Layout for Rec8 {
    const LEN: usize = 36;

    ghost LEN = { line_length Type8 };

    const RTYPE: u8 = b'8';

    ghost RTYPE = { byte_of Type8 };

    ghost Fits = { FitsFields Type8 };

    ghost Spells = { SpellsFields Type8 };

    ghost IsFault = { IsLeftmostFault (table_of Type8) };

    ghost reading = { reading_of Type8 };

    ghost spelling = { fields_spelling Type8 };

    #[tactic(auto, unfolding(crate::specs::RecordTypes::reading_of, crate::specs::FieldReading::and_then))]
    fn read(line: &[u8]) -> Result<Rec8, FieldFault> {
        let polyid = read_number(line, 16, 25)?;
        let land = read_number(line, 26, 35)?;
        Ok(Rec8 {
            file: text_at(line, 6, 10),
            cenid: text_at(line, 11, 15),
            polyid,
            land,
        })
    }

    #[tactic(auto, unfolding(crate::specs::RecordTypes::fields_spelling))]
    fn put(&self, out: &mut [u8]) {
        self.show_fit();
        write_head(out, b'8');
        write_text(out, 6, 10, &self.file);
        write_text(out, 11, 15, &self.cenid);
        write_number(out, 16, 25, self.polyid);
        write_number(out, 26, 35, self.land);
        write_blanks(out, 36, 36);
    }

    ghost bounded = { (lit≤ tt, lit≤ tt) };

    ghost spelling_is_line = { (layout_laws Type8).spelling_is_line };

    ghost reads_spelling = { (layout_laws Type8).reads_spelling };

    ghost reads_spelled = { (layout_laws Type8).reads_spelled };

    ghost spelled_is_read = { (layout_laws Type8).spelled_is_read };

    ghost shows_leftmost = { (layout_laws Type8).shows_leftmost };
}
