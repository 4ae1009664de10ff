//! Each record type's test whether a line is canonical. Columns that no test looks at are text, which is kept as it is.

ghost use Rattle.canonical_lines.specs.SpeltLine.{IsSpeltLine};
ghost use Rattle.std.specs.Prelude.{IsTrue, ◌<◌};
ghost use Rattle.tl_layout.specs.Bytes.{IsLine};

use crate::number::{are_numbers_or_none, is_number};
use crate::places::{NumberPlaces, PointPlaces, are_places};
use crate::point::{is_point, is_point_or_none};
use tl_layout::{Rec1, Rec2, Rec4, Rec5, Rec6, Rec7, Rec8, RecI, RecP, Tabled, is_blank};

/// A record type that can recognise lines in canonical spelling, whatever their version, without reading them.
pub trait CanonicalLine: Tabled {
    /// Checks whether the full line is recognised: it is in canonical spelling, except for its version. `false` says nothing about the
    /// line.
    fn is_canonical(line: &[u8]) -> bool
        requires { IsLine Self.RTYPE Self.LEN line.now }
        ensures { IsTrue result → (r : Self) × IsSpeltLine Self.reading Self.spelling line.now r };

    /// The record type is an ASCII character.
    ghost is_ascii: { Self.RTYPE < 128 };
}

impl CanonicalLine for Rec1 {
    ghost use Rattle.std.proofs.Common.{lit<};

    #[inline(always)]
    fn is_canonical(line: &[u8]) -> bool {
        if !is_number(&line[5..15]) {
            return false;
        }
        is_point(&line[190..209]) && is_point(&line[209..228])
    }

    ghost is_ascii = { lit< tt };
}

impl CanonicalLine for Rec2 {
    ghost use Rattle.std.proofs.Common.{lit<};

    #[inline(always)]
    fn is_canonical(line: &[u8]) -> bool {
        if !is_number(&line[5..15]) {
            return false;
        }
        is_number(&line[15..18]) && are_places::<PointPlaces>(&line[18..208])
    }

    ghost is_ascii = { lit< tt };
}

impl CanonicalLine for Rec4 {
    ghost use Rattle.std.proofs.Common.{lit<};

    #[inline(always)]
    fn is_canonical(line: &[u8]) -> bool {
        if !is_number(&line[5..15]) {
            return false;
        }
        is_number(&line[15..18]) && are_places::<NumberPlaces>(&line[18..58])
    }

    ghost is_ascii = { lit< tt };
}

impl CanonicalLine for Rec5 {
    ghost use Rattle.std.proofs.Common.{lit<};

    #[inline(always)]
    fn is_canonical(line: &[u8]) -> bool {
        is_number(&line[10..18])
    }

    ghost is_ascii = { lit< tt };
}

impl CanonicalLine for Rec6 {
    ghost use Rattle.std.proofs.Common.{lit<};

    #[inline(always)]
    fn is_canonical(line: &[u8]) -> bool {
        is_number(&line[5..15]) && is_number(&line[15..18])
    }

    ghost is_ascii = { lit< tt };
}

impl CanonicalLine for Rec7 {
    ghost use Rattle.std.proofs.Common.{lit<};

    #[inline(always)]
    fn is_canonical(line: &[u8]) -> bool {
        if !is_blank(&line[73..74]) {
            return false;
        }
        is_number(&line[10..20]) && is_point_or_none(&line[54..73])
    }

    ghost is_ascii = { lit< tt };
}

impl CanonicalLine for Rec8 {
    ghost use Rattle.std.proofs.Common.{lit<};

    #[inline(always)]
    fn is_canonical(line: &[u8]) -> bool {
        if !is_blank(&line[35..36]) {
            return false;
        }
        is_number(&line[15..25]) && is_number(&line[25..35])
    }

    ghost is_ascii = { lit< tt };
}

impl CanonicalLine for RecI {
    ghost use Rattle.std.proofs.Common.{lit<};

    #[inline(always)]
    fn is_canonical(line: &[u8]) -> bool {
        if !is_number(&line[10..20]) {
            return false;
        }
        are_numbers_or_none(&line[20..30], &line[30..40])
            && are_numbers_or_none(&line[45..55], &line[60..70])
    }

    ghost is_ascii = { lit< tt };
}

impl CanonicalLine for RecP {
    ghost use Rattle.std.proofs.Common.{lit<};

    #[inline(always)]
    fn is_canonical(line: &[u8]) -> bool {
        is_number(&line[15..25]) && is_point_or_none(&line[25..44])
    }

    ghost is_ascii = { lit< tt };
}
