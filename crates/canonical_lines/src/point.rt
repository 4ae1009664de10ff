//! Columns that hold the canonical text of a point.

ghost use Rattle.canonical_lines.specs.Texts.{IsCoordinateText, IsPointOrNoneText, IsPointText};
ghost use Rattle.std.specs.Prelude.{IsTrue, None, length, ◌≡◌, ◌⊎◌};
ghost use Rattle.tl_layout.specs.FieldTexts.{point_place_text};

use std::simd::prelude::*;
use tl_layout::{are_digits, is_blank};

/// The text of an unused place: a pair of zeros.
const UNUSED: [u8; 19] = *b"+000000000+00000000";

/// Checks whether a canonical coordinate can have this sign before these digits: a plus, or a minus unless the digits are zeros.
#[inline(always)]
fn is_sign(sign: u8, digits: &[u8], zeros: &[u8]) -> bool
    ensures { IsTrue result → (sign ≡ 43) ⊎ ((sign ≡ 45) × (digits.now ≡ zeros.now → ⊥)) }
{
    sign == b'+' || sign == b'-' && digits != zeros
}

/// Checks whether the columns hold the canonical text of a longitude.
#[inline(always)]
fn is_longitude(columns: &[u8]) -> bool
    requires { length columns.now ≡ 10 }
    ensures { IsTrue result → IsCoordinateText 9 columns.now }
{
    match columns {
        [sign, b'0'..=b'9', rest @ ..] => are_digits(u8x8::from_slice(rest))
            && is_sign(*sign, &columns[1..], &UNUSED[1..10]),
        _ => false,
    }
}

/// Checks whether the columns hold the canonical text of a latitude.
#[inline(always)]
fn is_latitude(columns: &[u8]) -> bool
    requires { length columns.now ≡ 9 }
    ensures { IsTrue result → IsCoordinateText 8 columns.now }
{
    are_digits(u8x8::from_slice(&columns[1..])) && is_sign(columns[0], &columns[1..], &UNUSED[11..])
}

/// Checks whether the columns hold the canonical text of an unused place.
#[inline(always)]
pub(crate) fn is_unused(columns: &[u8]) -> bool
    requires { length columns.now ≡ 19 }
    ensures is { IsTrue result → columns.now ≡ point_place_text None }
    ensures only { columns.now ≡ point_place_text None → IsTrue result }
{
    columns[0] == b'+' && columns[..] == UNUSED[..]
}

/// Checks whether the columns hold the canonical text of a point.
#[inline(always)]
pub(crate) fn is_point(columns: &[u8]) -> bool
    requires { length columns.now ≡ 19 }
    ensures { IsTrue result → IsPointText columns.now }
{
    if is_unused(columns) {
        return false;
    }
    is_longitude(&columns[..10]) && is_latitude(&columns[10..])
}

/// Checks whether the columns hold the canonical text of a point, or only blanks.
#[inline(always)]
pub(crate) fn is_point_or_none(columns: &[u8]) -> bool
    requires { length columns.now ≡ 19 }
    ensures { IsTrue result → IsPointOrNoneText columns.now }
{
    is_blank(columns) || is_point(columns)
}
