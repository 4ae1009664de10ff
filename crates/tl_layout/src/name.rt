//! The name of a feature, as in record types 1 and 5.

ghost use Rattle.std.specs.Prelude.{length, take, ◌+◌, ◌-◌, ◌≡◌, ◌≤◌};
ghost use Rattle.tl_layout.specs.Names.{FitsName, feature_name_at, name_texts};
ghost use Rattle.tl_layout.specs.Bytes.{AreAllowed, longest_line};
ghost use Rattle.tl_layout.specs.Columns.{joined};

use crate::field::text_at;
use crate::text::Text;
use crate::writing::write_text;

/// A feature's name: 38 bytes (record type 1, columns 18-55; record type 5, columns 19-56).
#[derive(Clone, Copy, Debug, PartialEq, Eq)]
pub struct FeatureName {
    /// Direction before the name (FEDIRP).
    pub fedirp: Text<2>,
    /// The name itself (FENAME).
    pub fename: Text<30>,
    /// Type of the feature, such as `St` (FETYPE).
    pub fetype: Text<4>,
    /// Direction after the name (FEDIRS).
    pub fedirs: Text<2>,
}

impl FeatureName {
    /// Makes a name from these fields. Each of their bytes must be allowed in a line.
    pub(crate) fn new(
        fedirp: [u8; 2],
        fename: [u8; 30],
        fetype: [u8; 4],
        fedirs: [u8; 2],
    ) -> FeatureName
        requires fedirp { AreAllowed fedirp }
        requires fename { AreAllowed fename }
        requires fetype { AreAllowed fetype }
        requires fedirs { AreAllowed fedirs }
        ensures { result ≡ record { fedirp = fedirp; fename = fename; fetype = fetype; fedirs = fedirs } }
    {
        FeatureName {
            fedirp: Text::new(fedirp),
            fename: Text::new(fename),
            fetype: Text::new(fetype),
            fedirs: Text::new(fedirs),
        }
    }

    /// Returns the name that begins at this column of a line.
    pub(crate) fn at(line: &[u8], first: usize) -> FeatureName
        requires allowed { AreAllowed line.now }
        requires from_one { 1 ≤ first }
        requires within { (first + 37 ≤ length line.now) × (first + 37 ≤ longest_line) }
        ensures { result ≡ feature_name_at first line.now }
    {
        FeatureName {
            fedirp: text_at(line, first, first + 1),
            fename: text_at(line, first + 2, first + 31),
            fetype: text_at(line, first + 32, first + 35),
            fedirs: text_at(line, first + 36, first + 37),
        }
    }

    /// Writes the name from this column on.
    pub(crate) fn put(&self, out: &mut [u8], first: usize)
        requires from_one { 1 ≤ first }
        requires within { (first + 37 ≤ length out.old) × (first + 37 ≤ longest_line) }
        ensures { take (first + 37) out.new ≡ joined (take (first - 1) out.old) (name_texts self.now) }
    {
        write_text(out, first, first + 1, &self.fedirp);
        write_text(out, first + 2, first + 31, &self.fename);
        write_text(out, first + 32, first + 35, &self.fetype);
        write_text(out, first + 36, first + 37, &self.fedirs);
    }

    pub(crate) fn show_fit(&self)
        ensures { FitsName self.now }
    {
        self.fedirp.show_fit();
        self.fename.show_fit();
        self.fetype.show_fit();
        self.fedirs.show_fit();
    }
}
