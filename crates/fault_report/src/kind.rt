//! The kinds of fault, with the numbers and names of their refusals.

ghost use Rattle.std.specs.Prelude.{length, ◌≡◌, ◌≤◌};
ghost use Rattle.fault_report.specs.Reports.{refusal_name, refusal_number};

/// Why a set was refused, or a command not finished.
#[derive(Clone, Copy, Debug, PartialEq, Eq)]
pub enum FaultKind {
    /// 1: a line is of no known record type. Places: the part and the line.
    UnknownType,
    /// 2: a line is longer than its record type. Places: the part and the line.
    LineTooLong,
    /// 3: a byte isn't allowed. Places: the part, the line and the column.
    BadByte,
    /// 4: a number field is malformed. Places: the part, the line and the column.
    BadNumber,
    /// 5: a pair of coordinates isn't a point. Places: the part, the line and the column.
    BadPoint,
    /// 6: a used place follows an unused one. Places: the part, the line and the column.
    GapInRecord,
    /// 7: a record type has too many records. Place: the record type.
    TooManyRecords,
    /// 8: the input could not be read.
    Device,
    /// 9: an allocation failed.
    Memory,
    /// 10: the output could not be written. Place: the number of bytes that were written.
    WriteFault,
    /// 11: two records of type 1 have the same TLID. Place: the TLID.
    ChainTwice,
    /// 12: a record belongs to no chain. Places: its record type and its TLID.
    NoChain,
    /// 13: an RTSQ occurs twice for a chain. Places: the record type and the TLID.
    SequenceBroken,
    /// 14: a chain has no record of type I. Place: the TLID.
    LinkMissing,
    /// 15: two records of type I have the same TLID. Place: the TLID.
    LinkTwice,
    /// 16: two records of type 5 have the same FEAT. Place: the FEAT.
    NameTwice,
    /// 17: a record of type 4 refers to a FEAT that doesn't exist. Places: the TLID and the FEAT.
    NameUnknown,
    /// 18: two records of type P describe the same polygon. Places: the CENID and the POLYID.
    PolygonTwice,
    /// 19: a record of type 8 refers to a landmark that doesn't exist. Place: the LAND.
    LandUnknown,
    /// 20: a record of type 8 refers to a polygon that doesn't exist. Places: the CENID and the POLYID.
    PolygonUnknown,
    /// 23: a polygon with a record of type P is on no side of a chain. Places: the CENID and the POLYID.
    PolygonWithoutChain,
    /// 24: too many choices of order and direction are left.
    TooSymmetric,
}

impl FaultKind {
    /// Returns the number of the refusal, from 1 to 24; 21 and 22 are no longer used.
    pub fn number(self) -> u8
        ensures { result ≡ refusal_number self }
    {
        match self {
            FaultKind::UnknownType => 1,
            FaultKind::LineTooLong => 2,
            FaultKind::BadByte => 3,
            FaultKind::BadNumber => 4,
            FaultKind::BadPoint => 5,
            FaultKind::GapInRecord => 6,
            FaultKind::TooManyRecords => 7,
            FaultKind::Device => 8,
            FaultKind::Memory => 9,
            FaultKind::WriteFault => 10,
            FaultKind::ChainTwice => 11,
            FaultKind::NoChain => 12,
            FaultKind::SequenceBroken => 13,
            FaultKind::LinkMissing => 14,
            FaultKind::LinkTwice => 15,
            FaultKind::NameTwice => 16,
            FaultKind::NameUnknown => 17,
            FaultKind::PolygonTwice => 18,
            FaultKind::LandUnknown => 19,
            FaultKind::PolygonUnknown => 20,
            FaultKind::PolygonWithoutChain => 23,
            FaultKind::TooSymmetric => 24,
        }
    }

    /// Returns the name of the refusal, at most 19 letters.
    pub fn name(self) -> &'static str
        ensures name { result.now ≡ refusal_name self }
        ensures short { length result.now ≤ 19 }
    {
        match self {
            FaultKind::UnknownType => "UnknownType",
            FaultKind::LineTooLong => "LineTooLong",
            FaultKind::BadByte => "BadByte",
            FaultKind::BadNumber => "BadNumber",
            FaultKind::BadPoint => "BadPoint",
            FaultKind::GapInRecord => "GapInRecord",
            FaultKind::TooManyRecords => "TooManyRecords",
            FaultKind::Device => "Device",
            FaultKind::Memory => "Memory",
            FaultKind::WriteFault => "WriteFault",
            FaultKind::ChainTwice => "ChainTwice",
            FaultKind::NoChain => "NoChain",
            FaultKind::SequenceBroken => "SequenceBroken",
            FaultKind::LinkMissing => "LinkMissing",
            FaultKind::LinkTwice => "LinkTwice",
            FaultKind::NameTwice => "NameTwice",
            FaultKind::NameUnknown => "NameUnknown",
            FaultKind::PolygonTwice => "PolygonTwice",
            FaultKind::LandUnknown => "LandUnknown",
            FaultKind::PolygonUnknown => "PolygonUnknown",
            FaultKind::PolygonWithoutChain => "PolygonWithoutChain",
            FaultKind::TooSymmetric => "TooSymmetric",
        }
    }
}
