//! Columns that hold the canonical text of a number.

ghost use Rattle.canonical_lines.specs.Texts.{IsNumberOrNoneText, IsNumberText, IsNumeral, IsNumeralOrNone};
ghost use Rattle.std.specs.List.{list_all};
ghost use Rattle.std.specs.Prelude.{IsTrue, ◌≡◌};
ghost use Rattle.tl_layout.specs.NumberField.{is_digit};
ghost use Rattle.tl_layout.specs.NumberReading.{drop_blanks};

use std::simd::prelude::*;
use tl_layout::trim_start;

/// Checks whether each of the bytes is a digit.
#[inline(always)]
fn are_digits(bytes: &[u8]) -> bool
    ensures { result ≡ list_all is_digit bytes.now }
{
    bytes.iter().all(|byte| *byte >= b'0' && *byte <= b'9')
}

/// Checks whether the bytes are one digit or more, the first of them not a zero.
#[inline(always)]
fn is_numeral(bytes: &[u8]) -> bool
    ensures { IsTrue result → IsNumeral bytes.now }
{
    match bytes {
        [b'1'..=b'9', digits @ ..] => are_digits(digits),
        _ => false,
    }
}

/// Checks whether eight bytes are blanks and then digits without leading zeros, or only blanks. Each bit of a mask belongs to a byte, the
/// lowest one to the first.
#[inline(always)]
fn is_right_justified(bytes: u8x8) -> bool
    ensures { IsTrue result → IsNumeralOrNone (drop_blanks bytes) }
{
    let blanks = bytes.simd_eq(u8x8::splat(b' ')).to_bitmask();
    let zeros = bytes.simd_eq(u8x8::splat(b'0')).to_bitmask();
    let values = bytes - u8x8::splat(b'0');
    let digits = values.simd_lt(u8x8::splat(10)).to_bitmask();
    // Each byte is a blank or a digit. The blanks come first, and no zero follows them.
    if blanks + digits != 0xff {
        return false;
    }
    blanks & (blanks + 1) == 0 && zeros & (blanks + 1) == 0
}

/// Checks whether the columns hold blanks and then digits without leading zeros, or only blanks.
#[inline(always)]
fn is_plain(columns: &[u8]) -> bool
    ensures { IsTrue result → IsNumberOrNoneText columns.now }
{
    match trim_start(columns) {
        [] => true,
        numeral => is_numeral(numeral),
    }
}

/// Checks whether the columns hold the canonical text of a number, or only blanks. At the usual widths, eight columns are tested at once.
#[inline(always)]
fn is_number_or_none(columns: &[u8]) -> bool
    ensures { IsTrue result → IsNumberOrNoneText columns.now }
{
    match columns.len() {
        8 => is_right_justified(u8x8::from_slice(columns)),
        10 if columns[0] == b' ' && columns[1] == b' ' => {
            is_right_justified(u8x8::from_slice(&columns[2..]))
        }
        _ => is_plain(columns),
    }
}

/// Checks whether the columns hold the canonical text of a number: blanks, and then digits without leading zeros.
#[inline(always)]
pub(crate) fn is_number(columns: &[u8]) -> bool
    ensures { IsTrue result → IsNumberText columns.now }
{
    match columns {
        [] => false,
        [.., last] => *last != b' ' && is_number_or_none(columns),
    }
}

/// Checks whether two fields each hold the canonical text of a number, or only blanks.
#[inline(always)]
pub(crate) fn are_numbers_or_none(left: &[u8], right: &[u8]) -> bool
    ensures { IsTrue result → IsNumberOrNoneText left.now × IsNumberOrNoneText right.now }
{
    is_number_or_none(left) && is_number_or_none(right)
}
