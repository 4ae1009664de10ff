//! A record of any type.

ghost use Rattle.std.specs.Prelude.{length, ◌<◌, ◌≡◌, ◌≤◌};
ghost use Rattle.tl_layout.specs.Bytes.{longest_line};
ghost use Rattle.tl_layout.specs.RecordText.{FitsRecord, len_of, spelling_of, type_of};

use crate::{Layout, Rec1, Rec2, Rec4, Rec5, Rec6, Rec7, Rec8, RecI, RecP};

/// The greatest number of records of one type in a set.
pub const MOST_RECORDS: u64 = 10_000_000;

/// A record of one of the nine record types.
#[derive(Debug, Drop)]
pub enum Record {
    /// A chain with its two end points (record type 1).
    One(Rec1),
    /// Shape points of a chain (record type 2).
    Two(Rec2),
    /// Further names of a chain (record type 4).
    Four(Rec4),
    /// The name of a feature (record type 5).
    Five(Rec5),
    /// Further address ranges of a chain (record type 6).
    Six(Rec6),
    /// A landmark (record type 7).
    Seven(Rec7),
    /// A polygon of a landmark (record type 8).
    Eight(Rec8),
    /// The nodes of a chain and the polygons beside it (record type I).
    I(RecI),
    /// A polygon's inner point (record type P).
    P(RecP),
}

impl Record {
    /// Returns the record type: the byte in column 1.
    #[tactic(auto, unfolding(crate::specs::RecordText::type_of))]
    pub fn record_type(&self) -> u8
        ensures value { result ≡ type_of self.now }
        ensures ascii { result < 128 }
    {
        match self {
            Record::One(_) => Rec1::RTYPE,
            Record::Two(_) => Rec2::RTYPE,
            Record::Four(_) => Rec4::RTYPE,
            Record::Five(_) => Rec5::RTYPE,
            Record::Six(_) => Rec6::RTYPE,
            Record::Seven(_) => Rec7::RTYPE,
            Record::Eight(_) => Rec8::RTYPE,
            Record::I(_) => RecI::RTYPE,
            Record::P(_) => RecP::RTYPE,
        }
    }

    /// Returns the length of the record's full line, in bytes, without a line ending.
    #[tactic(auto, unfolding(crate::specs::RecordText::len_of))]
    pub fn line_len(&self) -> usize
        ensures value { result ≡ len_of self.now }
        ensures bound { result ≤ longest_line }
    {
        match self {
            Record::One(_) => Rec1::LEN,
            Record::Two(_) => Rec2::LEN,
            Record::Four(_) => Rec4::LEN,
            Record::Five(_) => Rec5::LEN,
            Record::Six(_) => Rec6::LEN,
            Record::Seven(_) => Rec7::LEN,
            Record::Eight(_) => Rec8::LEN,
            Record::I(_) => RecI::LEN,
            Record::P(_) => RecP::LEN,
        }
    }

    /// Proves that the record fits its columns, which its type guarantees. Does nothing at run time.
    #[tactic(auto, unfolding(crate::specs::RecordText::FitsRecord))]
    pub(crate) fn show_fit(&self)
        ensures { FitsRecord self.now }
    {
        match self {
            Record::One(r) => r.show_fit(),
            Record::Two(r) => r.show_fit(),
            Record::Four(r) => r.show_fit(),
            Record::Five(r) => r.show_fit(),
            Record::Six(r) => r.show_fit(),
            Record::Seven(r) => r.show_fit(),
            Record::Eight(r) => r.show_fit(),
            Record::I(r) => r.show_fit(),
            Record::P(r) => r.show_fit(),
        }
    }

    /// Writes the canonical spelling, without a line ending. `out` must be as long as the record's line.
    #[tactic(auto, unfolding(crate::specs::RecordText::len_of, crate::specs::RecordText::spelling_of, crate::specs::RecordText::FitsRecord))]
    pub fn put(&self, out: &mut [u8])
        requires { length out.old ≡ len_of self.now }
        ensures spelling { out.new ≡ spelling_of self.now }
        ensures fits { FitsRecord self.now }
    {
        match self {
            Record::One(r) => r.put(out),
            Record::Two(r) => r.put(out),
            Record::Four(r) => r.put(out),
            Record::Five(r) => r.put(out),
            Record::Six(r) => r.put(out),
            Record::Seven(r) => r.put(out),
            Record::Eight(r) => r.put(out),
            Record::I(r) => r.put(out),
            Record::P(r) => r.put(out),
        }
    }
}
