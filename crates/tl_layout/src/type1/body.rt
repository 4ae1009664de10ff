//! The content of a record of type 1, stored as its columns.

ghost use Rattle.std.specs.Prelude.{length, take, ◌≡◌, ◌≤◌};
ghost use Rattle.tl_layout.specs.Bytes.{AreAllowed, IsText};
ghost use Rattle.tl_layout.specs.Columns.{joined};

use crate::field::text_at;
use crate::writing::write_text;
use crate::{Body1Fields, FeatureName, GeographicEntities, LeftRight, NativeAreas, Ranges, Text};
use std::fmt;
use std::marker::Model;

/// The content of a record of type 1: all except its TLID and its two points.
///
/// It is stored as columns 16 to 190 of a line, because a content is read, written and compared far more often than one of its
/// fields is needed.
#[derive(Clone, Copy)]
pub struct Body1 {
    columns: Text<175>,
}

impl Model for Body1 {
    ghost use Rattle.std.proofs.Common.{ap};
    ghost use Rattle.tl_layout.specs.Type1Columns.{body_1_of, body_1_text};
    ghost use Rattle.tl_layout.specs.Bytes.{IsText};
    ghost use Rattle.tl_layout.specs.Laws.Type1ColumnLaws.{text_of_columns};
    ghost use Rattle.tl_layout.specs.declared.type1.fields.Body1Fields.{Body1Fields};

    ghost Value = { Body1Fields };

    ghost view = { λ content. body_1_of content.columns };

    ghost invariant = { λ content. IsText 175 content.columns };

    ghost inverse = { λ fields. record { columns = body_1_text fields } };

    ghost inverse_ok = { λ content is_text. ap (λ text. record { columns = text }) (text_of_columns content.columns is_text) };
}

/// Contents are equal if all their fields are.
impl PartialEq for Body1 {
    ghost use Rattle.tl_layout.specs.contracts.type1.fields.Body1FieldsPartialEq.TheImpl.Laws as fields;

    ghost eq = { ⟦<Body1Fields as PartialEq>⟧.eq };

    ghost laws = { fields.laws-law };

    fn eq(&self, other: &Body1) -> bool {
        self.columns == other.columns
    }
}

impl Eq for Body1 {
    ghost use Rattle.tl_layout.specs.contracts.type1.fields.Body1FieldsEq.TheImpl.Laws as fields;

    ghost laws = { fields.laws-law };
}

/// Prints the fields by name.
impl fmt::Debug for Body1 {
    fn fmt<W: fmt::Write>(&self, f: &mut fmt::Formatter<W>) -> fmt::Result {
        self.fields().fmt(f)
    }
}

impl Body1 {
    ghost use Rattle.tl_layout.specs.Type1Groups.{FitsBody1, body_1_at, body_1_texts};

    /// Makes a content from these fields.
    #[tactic(auto, using(crate::specs::Laws::Type1ColumnLaws::columns_are_text, crate::specs::Laws::Type1ColumnLaws::fields_again))]
    pub fn of(fields: &Body1Fields) -> Body1
        ensures { result ≡ fields.now }
    {
        let mut line = [b' '; 190];
        fields.show_fit();
        fields.put(&mut line);
        Body1 {
            columns: Text::from_slice(&line[15..]),
        }
    }

    /// Returns the fields by name.
    pub fn fields(&self) -> Body1Fields
        ensures { result ≡ self.now }
    {
        let mut line = [b' '; 190];
        write_text(&mut line, 16, 190, &self.columns);
        Body1Fields::at(&line)
    }

    /// Returns a byte made from bytes that are less than 64 apart. It has no meaning.
    ///
    /// Trick: reading the byte brings the whole content into the cache.
    pub fn any_byte(&self) -> u8 {
        let bytes = self.columns.as_bytes();
        bytes[0] ^ bytes[58] ^ bytes[116] ^ bytes[174]
    }

    /// Returns the content in columns 16 to 190 of a line.
    #[tactic(auto, using(crate::specs::Laws::Type1ColumnLaws::content_of_line))]
    pub(crate) fn at(line: &[u8]) -> Body1
        requires allowed { AreAllowed line.now }
        requires within { 190 ≤ length line.now }
        ensures { result ≡ body_1_at line.now }
    {
        Body1 {
            columns: text_at(line, 16, 190),
        }
    }

    /// Writes the content into columns 16 to 190 of a line.
    pub(crate) fn put(&self, out: &mut [u8])
        requires { 190 ≤ length out.old }
        ensures { take 190 out.new ≡ joined (take 15 out.old) (body_1_texts self.now) }
    {
        write_text(out, 16, 190, &self.columns);
    }

    #[tactic(auto, using(crate::specs::Laws::Type1ColumnLaws::content_fits))]
    pub(crate) fn show_fit(&self)
        ensures { FitsBody1 self.now }
    {
        self.columns.show_fit();
    }

    /// Makes a content from these fields, with the address ranges and ZIP codes. Each of their bytes must be allowed in a
    /// line. With a literal of [`Body1Fields`] you can name the fields instead of passing them in this order.
    pub fn new(
        side1: [u8; 1],
        source: [u8; 1],
        fedirp: [u8; 2],
        fename: [u8; 30],
        fetype: [u8; 4],
        fedirs: [u8; 2],
        cfcc: [u8; 3],
        ranges: Ranges,
        aianhhfpl: [u8; 5],
        aianhhfpr: [u8; 5],
        aihhtlil: [u8; 1],
        aihhtlir: [u8; 1],
        census1: [u8; 1],
        census2: [u8; 1],
        statel: [u8; 2],
        stater: [u8; 2],
        countyl: [u8; 3],
        countyr: [u8; 3],
        cousubl: [u8; 5],
        cousubr: [u8; 5],
        submcdl: [u8; 5],
        submcdr: [u8; 5],
        placel: [u8; 5],
        placer: [u8; 5],
        tractl: [u8; 6],
        tractr: [u8; 6],
        blockl: [u8; 4],
        blockr: [u8; 4],
    ) -> Body1
        requires side1 { AreAllowed side1 }
        requires source { AreAllowed source }
        requires fedirp { AreAllowed fedirp }
        requires fename { AreAllowed fename }
        requires fetype { AreAllowed fetype }
        requires fedirs { AreAllowed fedirs }
        requires cfcc { AreAllowed cfcc }
        requires aianhhfpl { AreAllowed aianhhfpl }
        requires aianhhfpr { AreAllowed aianhhfpr }
        requires aihhtlil { AreAllowed aihhtlil }
        requires aihhtlir { AreAllowed aihhtlir }
        requires census1 { AreAllowed census1 }
        requires census2 { AreAllowed census2 }
        requires statel { AreAllowed statel }
        requires stater { AreAllowed stater }
        requires countyl { AreAllowed countyl }
        requires countyr { AreAllowed countyr }
        requires cousubl { AreAllowed cousubl }
        requires cousubr { AreAllowed cousubr }
        requires submcdl { AreAllowed submcdl }
        requires submcdr { AreAllowed submcdr }
        requires placel { AreAllowed placel }
        requires placer { AreAllowed placer }
        requires tractl { AreAllowed tractl }
        requires tractr { AreAllowed tractr }
        requires blockl { AreAllowed blockl }
        requires blockr { AreAllowed blockr }
        ensures { result
            ≡ record {
              side1 = side1;
              source = source;
              name = record { fedirp = fedirp; fename = fename; fetype = fetype; fedirs = fedirs };
              cfcc = cfcc;
              ranges = ranges;
              native_areas = record {
                aianhhfp = record { left = aianhhfpl; right = aianhhfpr };
                aihhtli = record { left = aihhtlil; right = aihhtlir };
              };
              census1 = census1;
              census2 = census2;
              entities = record {
                state = record { left = statel; right = stater };
                county = record { left = countyl; right = countyr };
                cousub = record { left = cousubl; right = cousubr };
                submcd = record { left = submcdl; right = submcdr };
                place = record { left = placel; right = placer };
                tract = record { left = tractl; right = tractr };
                block = record { left = blockl; right = blockr };
              };
            } }
    {
        Body1::of(&Body1Fields {
            side1: Text::new(side1),
            source: Text::new(source),
            name: FeatureName::new(fedirp, fename, fetype, fedirs),
            cfcc: Text::new(cfcc),
            ranges,
            native_areas: NativeAreas {
                aianhhfp: LeftRight::new(aianhhfpl, aianhhfpr),
                aihhtli: LeftRight::new(aihhtlil, aihhtlir),
            },
            census1: Text::new(census1),
            census2: Text::new(census2),
            entities: GeographicEntities {
                state: LeftRight::new(statel, stater),
                county: LeftRight::new(countyl, countyr),
                cousub: LeftRight::new(cousubl, cousubr),
                submcd: LeftRight::new(submcdl, submcdr),
                place: LeftRight::new(placel, placer),
                tract: LeftRight::new(tractl, tractr),
                block: LeftRight::new(blockl, blockr),
            },
        })
    }

    /// Returns the one-sided chain indicator (SIDE1).
    pub fn side1(&self) -> [u8; 1]
        ensures value { result ≡ self.now.side1 }
        ensures text { IsText 1 result }
    {
        self.fields().side1.bytes()
    }

    /// Returns the source of the chain (SOURCE).
    pub fn source(&self) -> [u8; 1]
        ensures value { result ≡ self.now.source }
        ensures text { IsText 1 result }
    {
        self.fields().source.bytes()
    }

    /// Returns the direction before the name (FEDIRP).
    pub fn fedirp(&self) -> [u8; 2]
        ensures value { result ≡ self.now.name.fedirp }
        ensures text { IsText 2 result }
    {
        self.fields().name.fedirp.bytes()
    }

    /// Returns the name itself (FENAME).
    pub fn fename(&self) -> [u8; 30]
        ensures value { result ≡ self.now.name.fename }
        ensures text { IsText 30 result }
    {
        self.fields().name.fename.bytes()
    }

    /// Returns the type of the feature, such as `St` (FETYPE).
    pub fn fetype(&self) -> [u8; 4]
        ensures value { result ≡ self.now.name.fetype }
        ensures text { IsText 4 result }
    {
        self.fields().name.fetype.bytes()
    }

    /// Returns the direction after the name (FEDIRS).
    pub fn fedirs(&self) -> [u8; 2]
        ensures value { result ≡ self.now.name.fedirs }
        ensures text { IsText 2 result }
    {
        self.fields().name.fedirs.bytes()
    }

    /// Census feature class code (CFCC).
    pub fn cfcc(&self) -> [u8; 3]
        ensures value { result ≡ self.now.cfcc }
        ensures text { IsText 3 result }
    {
        self.fields().cfcc.bytes()
    }

    /// Address ranges and ZIP codes (FRADDL to ZIPR).
    pub fn ranges(&self) -> Ranges
        ensures { result ≡ self.now.ranges }
    {
        self.fields().ranges
    }

    /// Returns the FIPS 55 code of the American Indian, Alaska Native or Hawaiian Home Land area, left (AIANHHFPL).
    pub fn aianhhfpl(&self) -> [u8; 5]
        ensures value { result ≡ self.now.native_areas.aianhhfp.left }
        ensures text { IsText 5 result }
    {
        self.fields().native_areas.aianhhfp.left.bytes()
    }

    /// Returns the FIPS 55 code of the American Indian, Alaska Native or Hawaiian Home Land area, right (AIANHHFPR).
    pub fn aianhhfpr(&self) -> [u8; 5]
        ensures value { result ≡ self.now.native_areas.aianhhfp.right }
        ensures text { IsText 5 result }
    {
        self.fields().native_areas.aianhhfp.right.bytes()
    }

    /// Returns the trust land indicator, left (AIHHTLIL).
    pub fn aihhtlil(&self) -> [u8; 1]
        ensures value { result ≡ self.now.native_areas.aihhtli.left }
        ensures text { IsText 1 result }
    {
        self.fields().native_areas.aihhtli.left.bytes()
    }

    /// Returns the trust land indicator, right (AIHHTLIR).
    pub fn aihhtlir(&self) -> [u8; 1]
        ensures value { result ≡ self.now.native_areas.aihhtli.right }
        ensures text { IsText 1 result }
    {
        self.fields().native_areas.aihhtli.right.bytes()
    }

    /// Returns the field reserved for the Census Bureau (CENSUS1).
    pub fn census1(&self) -> [u8; 1]
        ensures value { result ≡ self.now.census1 }
        ensures text { IsText 1 result }
    {
        self.fields().census1.bytes()
    }

    /// Returns the field reserved for the Census Bureau (CENSUS2).
    pub fn census2(&self) -> [u8; 1]
        ensures value { result ≡ self.now.census2 }
        ensures text { IsText 1 result }
    {
        self.fields().census2.bytes()
    }

    /// Returns the state, left (STATEL).
    pub fn statel(&self) -> [u8; 2]
        ensures value { result ≡ self.now.entities.state.left }
        ensures text { IsText 2 result }
    {
        self.fields().entities.state.left.bytes()
    }

    /// Returns the state, right (STATER).
    pub fn stater(&self) -> [u8; 2]
        ensures value { result ≡ self.now.entities.state.right }
        ensures text { IsText 2 result }
    {
        self.fields().entities.state.right.bytes()
    }

    /// Returns the county, left (COUNTYL).
    pub fn countyl(&self) -> [u8; 3]
        ensures value { result ≡ self.now.entities.county.left }
        ensures text { IsText 3 result }
    {
        self.fields().entities.county.left.bytes()
    }

    /// Returns the county, right (COUNTYR).
    pub fn countyr(&self) -> [u8; 3]
        ensures value { result ≡ self.now.entities.county.right }
        ensures text { IsText 3 result }
    {
        self.fields().entities.county.right.bytes()
    }

    /// Returns the county subdivision, left (COUSUBL).
    pub fn cousubl(&self) -> [u8; 5]
        ensures value { result ≡ self.now.entities.cousub.left }
        ensures text { IsText 5 result }
    {
        self.fields().entities.cousub.left.bytes()
    }

    /// Returns the county subdivision, right (COUSUBR).
    pub fn cousubr(&self) -> [u8; 5]
        ensures value { result ≡ self.now.entities.cousub.right }
        ensures text { IsText 5 result }
    {
        self.fields().entities.cousub.right.bytes()
    }

    /// Returns the subminor civil division, left (SUBMCDL).
    pub fn submcdl(&self) -> [u8; 5]
        ensures value { result ≡ self.now.entities.submcd.left }
        ensures text { IsText 5 result }
    {
        self.fields().entities.submcd.left.bytes()
    }

    /// Returns the subminor civil division, right (SUBMCDR).
    pub fn submcdr(&self) -> [u8; 5]
        ensures value { result ≡ self.now.entities.submcd.right }
        ensures text { IsText 5 result }
    {
        self.fields().entities.submcd.right.bytes()
    }

    /// Returns the place, left (PLACEL).
    pub fn placel(&self) -> [u8; 5]
        ensures value { result ≡ self.now.entities.place.left }
        ensures text { IsText 5 result }
    {
        self.fields().entities.place.left.bytes()
    }

    /// Returns the place, right (PLACER).
    pub fn placer(&self) -> [u8; 5]
        ensures value { result ≡ self.now.entities.place.right }
        ensures text { IsText 5 result }
    {
        self.fields().entities.place.right.bytes()
    }

    /// Census tract, left (TRACTL).
    pub fn tractl(&self) -> [u8; 6]
        ensures value { result ≡ self.now.entities.tract.left }
        ensures text { IsText 6 result }
    {
        self.fields().entities.tract.left.bytes()
    }

    /// Census tract, right (TRACTR).
    pub fn tractr(&self) -> [u8; 6]
        ensures value { result ≡ self.now.entities.tract.right }
        ensures text { IsText 6 result }
    {
        self.fields().entities.tract.right.bytes()
    }

    /// Census block, left (BLOCKL).
    pub fn blockl(&self) -> [u8; 4]
        ensures value { result ≡ self.now.entities.block.left }
        ensures text { IsText 4 result }
    {
        self.fields().entities.block.left.bytes()
    }

    /// Census block, right (BLOCKR).
    pub fn blockr(&self) -> [u8; 4]
        ensures value { result ≡ self.now.entities.block.right }
        ensures text { IsText 4 result }
    {
        self.fields().entities.block.right.bytes()
    }
}
