//! Record type 5: the name of a feature.

ghost use Rattle.std.proofs.Common.{lit≤};
ghost use Rattle.std.specs.Prelude.{◌≡◌};
ghost use Rattle.tl_layout.specs.RecordTypes.{FitsFields, SpellsFields, Type5, byte_of, fields_spelling, line_length, reading_of, table_of};
ghost use Rattle.tl_layout.specs.Bytes.{AreAllowed, IsText};
ghost use Rattle.tl_layout.specs.FieldFaults.{IsLeftmostFault};
ghost use Rattle.tl_layout.specs.Laws.TypeLaws.{layout_laws};
ghost use Rattle.tl_layout.specs.Numbers.{IsNumber};

use crate::field::{read_number, text_at};
use crate::writing::{write_head, write_number, write_text};
use crate::{FeatureName, FieldFault, Layout, Text};
use std::marker::Model;

/// The content of a record of type 5: all except its FEAT, 43 bytes.
#[derive(Clone, Copy, Debug, PartialEq, Eq)]
pub struct Body5 {
    /// State and county of the file (FILE).
    pub file: Text<5>,
    /// Name of the feature (FEDIRP, FENAME, FETYPE, FEDIRS).
    pub name: FeatureName,
}

/// The name of a feature (record type 5, 56 bytes).
#[derive(Clone, Copy, Debug, PartialEq, Eq)]
pub struct Rec5 {
    feat: u32,
    body: Body5,
}

impl Body5 {
    /// Makes a content from these fields. Each of their bytes must be allowed in a line.
    pub fn new(
        file: [u8; 5],
        fedirp: [u8; 2],
        fename: [u8; 30],
        fetype: [u8; 4],
        fedirs: [u8; 2],
    ) -> Body5
        requires file { AreAllowed file }
        requires fedirp { AreAllowed fedirp }
        requires fename { AreAllowed fename }
        requires fetype { AreAllowed fetype }
        requires fedirs { AreAllowed fedirs }
        ensures { result
            ≡ record {
              file = file;
              name = record { fedirp = fedirp; fename = fename; fetype = fetype; fedirs = fedirs };
            } }
    {
        Body5 {
            file: Text::new(file),
            name: FeatureName::new(fedirp, fename, fetype, fedirs),
        }
    }

    /// Returns the state and county of the file (FILE).
    pub fn file(&self) -> [u8; 5]
        ensures value { result ≡ self.now.file }
        ensures text { IsText 5 result }
    {
        self.file.bytes()
    }

    /// Returns the direction before the name (FEDIRP).
    pub fn fedirp(&self) -> [u8; 2]
        ensures value { result ≡ self.now.name.fedirp }
        ensures text { IsText 2 result }
    {
        self.name.fedirp.bytes()
    }

    /// Returns the name itself (FENAME).
    pub fn fename(&self) -> [u8; 30]
        ensures value { result ≡ self.now.name.fename }
        ensures text { IsText 30 result }
    {
        self.name.fename.bytes()
    }

    /// Returns the type of the feature, such as `St` (FETYPE).
    pub fn fetype(&self) -> [u8; 4]
        ensures value { result ≡ self.now.name.fetype }
        ensures text { IsText 4 result }
    {
        self.name.fetype.bytes()
    }

    /// Returns the direction after the name (FEDIRS).
    pub fn fedirs(&self) -> [u8; 2]
        ensures value { result ≡ self.now.name.fedirs }
        ensures text { IsText 2 result }
    {
        self.name.fedirs.bytes()
    }
}

impl Model for Rec5 {
    ghost use Rattle.tl_layout.specs.Fields.{Fields5};
    ghost use Rattle.tl_layout.specs.Numbers.{IsNumber};

    ghost Value = { Fields5 };

    ghost view = { λ r. record { feat = r.feat; body = r.body } };

    ghost invariant = { λ r. IsNumber 8 r.feat };

    ghost inverse = { λ r. record { feat = r.feat; body = r.body } };
}

impl Rec5 {
    /// Makes a record from these fields. The FEAT must be from 1 to 99,999,999.
    pub fn new(feat: u32, body: Body5) -> Rec5
        requires { IsNumber 8 feat }
        ensures { result ≡ record { feat = feat; body = body } }
    {
        Rec5 { feat, body }
    }

    /// Returns the number of the feature (FEAT), from 1 to 99,999,999.
    pub fn feat(&self) -> u32
        ensures value { result ≡ self.now.feat }
        ensures in_range { IsNumber 8 result }
    {
        self.feat
    }

    /// Returns the content: all except the FEAT.
    pub fn body(&self) -> &Body5
        ensures { result.now ≡ self.now.body }
    {
        &self.body
    }

    #[tactic(auto, unfolding(crate::specs::RecordTypes::FitsFields))]
    pub(crate) fn show_fit(&self)
        ensures { FitsFields Type5 self.now }
    {
        let body = &self.body;
        body.file.show_fit();
        body.name.show_fit();
    }
}

impl Layout for Rec5 {
    const LEN: usize = 56;

    ghost LEN = { line_length Type5 };

    const RTYPE: u8 = b'5';

    ghost RTYPE = { byte_of Type5 };

    ghost Fits = { FitsFields Type5 };

    ghost Spells = { SpellsFields Type5 };

    ghost IsFault = { IsLeftmostFault (table_of Type5) };

    ghost reading = { reading_of Type5 };

    ghost spelling = { fields_spelling Type5 };

    #[tactic(auto, unfolding(crate::specs::RecordTypes::reading_of, crate::specs::FieldReading::and_then))]
    fn read(line: &[u8]) -> Result<Rec5, FieldFault> {
        let feat = read_number(line, 11, 18)?;
        let body = Body5 {
            file: text_at(line, 6, 10),
            name: FeatureName::at(line, 19),
        };
        Ok(Rec5::new(feat as u32, body))
    }

    #[tactic(auto, unfolding(crate::specs::RecordTypes::fields_spelling))]
    fn put(&self, out: &mut [u8]) {
        let body = &self.body;
        self.show_fit();
        write_head(out, b'5');
        write_text(out, 6, 10, &body.file);
        write_number(out, 11, 18, u64::from(self.feat));
        body.name.put(out, 19);
    }

    ghost bounded = { (lit≤ tt, lit≤ tt) };

    ghost spelling_is_line = { (layout_laws Type5).spelling_is_line };

    ghost reads_spelling = { (layout_laws Type5).reads_spelling };

    ghost reads_spelled = { (layout_laws Type5).reads_spelled };

    ghost spelled_is_read = { (layout_laws Type5).spelled_is_read };

    ghost shows_leftmost = { (layout_laws Type5).shows_leftmost };
}
