//! The fields of a record of type 1 other than its TLID and its points, in groups, and their columns in a line.

ghost use Rattle.std.specs.Prelude.{length, take, ◌≡◌, ◌≤◌};
ghost use Rattle.tl_layout.specs.Type1Groups.{FitsBody1, FitsEntities, body_1_at, body_1_texts, entities_at, entities_texts};
ghost use Rattle.tl_layout.specs.Bytes.{AreAllowed};
ghost use Rattle.tl_layout.specs.Columns.{joined};

use crate::field::text_at;
use crate::writing::write_text;
use crate::{FeatureName, LeftRight, Ranges, Text};

/// The American Indian, Alaska Native and Hawaiian Home Land areas beside a chain (columns 117-128).
#[derive(Clone, Copy, Debug, PartialEq, Eq)]
pub struct NativeAreas {
    /// FIPS 55 code of the area (AIANHHFPL, AIANHHFPR).
    pub aianhhfp: LeftRight<5>,
    /// Trust land indicator (AIHHTLIL, AIHHTLIR).
    pub aihhtli: LeftRight<1>,
}

/// The geographic entities beside a chain (columns 131-190).
#[derive(Clone, Copy, Debug, PartialEq, Eq)]
pub struct GeographicEntities {
    /// State (STATEL, STATER).
    pub state: LeftRight<2>,
    /// County (COUNTYL, COUNTYR).
    pub county: LeftRight<3>,
    /// County subdivision (COUSUBL, COUSUBR).
    pub cousub: LeftRight<5>,
    /// Subminor civil division (SUBMCDL, SUBMCDR).
    pub submcd: LeftRight<5>,
    /// Place (PLACEL, PLACER).
    pub place: LeftRight<5>,
    /// Census tract (TRACTL, TRACTR).
    pub tract: LeftRight<6>,
    /// Census block (BLOCKL, BLOCKR).
    pub block: LeftRight<4>,
}

/// The content of a record of type 1, field by field.
///
/// With this many fields, two are easily swapped, so a literal names them:
///
/// ```
/// Body1Fields {
///     side1: Text::new(*b" "),
///     source: Text::new(*b"A"),
///     name: FeatureName { fedirp, fename, fetype, fedirs },
///     cfcc: Text::new(*b"A41"),
///     ranges,
///     native_areas: NativeAreas { aianhhfp, aihhtli },
///     census1: Text::new(*b" "),
///     census2: Text::new(*b" "),
///     entities: GeographicEntities { state, county, cousub, submcd, place, tract, block },
/// }
/// ```
///
/// Here `state` is `LeftRight { left: Text::new(*b"06"), right: Text::new(*b"06") }`, and likewise for the others.
#[derive(Clone, Copy, Debug, PartialEq, Eq)]
pub struct Body1Fields {
    /// One-sided chain indicator (SIDE1).
    pub side1: Text<1>,
    /// Source of the chain (SOURCE).
    pub source: Text<1>,
    /// Name of the feature (FEDIRP, FENAME, FETYPE, FEDIRS).
    pub name: FeatureName,
    /// Census feature class code (CFCC).
    pub cfcc: Text<3>,
    /// Address ranges and ZIP codes (FRADDL to ZIPR).
    pub ranges: Ranges,
    /// American Indian, Alaska Native and Hawaiian Home Land areas (AIANHHFPL to AIHHTLIR).
    pub native_areas: NativeAreas,
    /// Reserved for the Census Bureau (CENSUS1).
    pub census1: Text<1>,
    /// Reserved for the Census Bureau (CENSUS2).
    pub census2: Text<1>,
    /// Geographic entities (STATEL to BLOCKR).
    pub entities: GeographicEntities,
}

impl GeographicEntities {
    /// Returns the geographic entities in columns 131 to 190 of a line.
    fn at(line: &[u8]) -> GeographicEntities
        requires allowed { AreAllowed line.now }
        requires within { 190 ≤ length line.now }
        ensures { result ≡ entities_at line.now }
    {
        GeographicEntities {
            state: LeftRight::at(line, 131),
            county: LeftRight::at(line, 135),
            cousub: LeftRight::at(line, 141),
            submcd: LeftRight::at(line, 151),
            place: LeftRight::at(line, 161),
            tract: LeftRight::at(line, 171),
            block: LeftRight::at(line, 183),
        }
    }

    /// Writes the geographic entities into columns 131 to 190.
    fn put(&self, out: &mut [u8])
        requires { 190 ≤ length out.old }
        ensures { take 190 out.new ≡ joined (take 130 out.old) (entities_texts self.now) }
    {
        self.state.put(out, 131);
        self.county.put(out, 135);
        self.cousub.put(out, 141);
        self.submcd.put(out, 151);
        self.place.put(out, 161);
        self.tract.put(out, 171);
        self.block.put(out, 183);
    }

    fn show_fit(&self)
        ensures { FitsEntities self.now }
    {
        self.state.show_fit();
        self.county.show_fit();
        self.cousub.show_fit();
        self.submcd.show_fit();
        self.place.show_fit();
        self.tract.show_fit();
        self.block.show_fit();
    }
}

impl Body1Fields {
    /// Returns the fields in columns 16 to 190 of a line.
    pub(crate) fn at(line: &[u8]) -> Body1Fields
        requires allowed { AreAllowed line.now }
        requires within { 190 ≤ length line.now }
        ensures { result ≡ body_1_at line.now }
    {
        Body1Fields {
            side1: text_at(line, 16, 16),
            source: text_at(line, 17, 17),
            name: FeatureName::at(line, 18),
            cfcc: text_at(line, 56, 58),
            ranges: Ranges::at(line, 59),
            native_areas: NativeAreas {
                aianhhfp: LeftRight::at(line, 117),
                aihhtli: LeftRight::at(line, 127),
            },
            census1: text_at(line, 129, 129),
            census2: text_at(line, 130, 130),
            entities: GeographicEntities::at(line),
        }
    }

    /// Writes the fields into columns 16 to 190.
    pub(crate) fn put(&self, out: &mut [u8])
        requires { 190 ≤ length out.old }
        ensures { take 190 out.new ≡ joined (take 15 out.old) (body_1_texts self.now) }
    {
        write_text(out, 16, 16, &self.side1);
        write_text(out, 17, 17, &self.source);
        self.name.put(out, 18);
        write_text(out, 56, 58, &self.cfcc);
        self.ranges.put(out, 59);
        self.native_areas.aianhhfp.put(out, 117);
        self.native_areas.aihhtli.put(out, 127);
        write_text(out, 129, 129, &self.census1);
        write_text(out, 130, 130, &self.census2);
        self.entities.put(out);
    }

    pub(crate) fn show_fit(&self)
        ensures { FitsBody1 self.now }
    {
        self.side1.show_fit();
        self.source.show_fit();
        self.name.show_fit();
        self.cfcc.show_fit();
        self.ranges.show_fit();
        self.native_areas.aianhhfp.show_fit();
        self.native_areas.aihhtli.show_fit();
        self.census1.show_fit();
        self.census2.show_fit();
        self.entities.show_fit();
    }
}
