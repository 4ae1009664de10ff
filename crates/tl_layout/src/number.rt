//! Number fields.

ghost use Rattle.std.specs.Bool.{Decides};
ghost use Rattle.std.specs.List.{list_all};
ghost use Rattle.std.specs.Prelude.{IfSome, Some, if◌then◌else◌, length, slice_index, true, ℕ, ◌%◌, ◌*◌, ◌+◌, ◌<◌, ◌==◌, ◌∷◌, ◌≡◌, ◌≤◌};
ghost use Rattle.tl_layout.specs.NumberReading.{drop_blanks, number_after, number_of};
ghost use Rattle.tl_layout.specs.FieldTexts.{number_text};
ghost use Rattle.tl_layout.specs.NumberField.{is_blank, is_digit};

use crate::digits::{put_behind, put_eight_columns, put_eight_digits};
use std::simd::prelude::*;

/// Returns the field without its leading blanks.
#[inline(never)]
pub fn trim_start(field: &[u8]) -> &[u8]
    ensures value { result.now ≡ drop_blanks field.now }
    ensures len { length result.now ≤ length field.now }
{
    let mut rest = field;
    while let [b' ', after @ ..] = rest {
        rest = after;
    }
    rest
}

/// Checks whether the field has only blanks.
#[inline(always)]
pub fn is_blank(field: &[u8]) -> bool
    ensures { result ≡ list_all is_blank field.now }
{
    field.iter().all(|byte| *byte == b' ')
}

/// Checks whether each of eight bytes is a digit.
#[inline(always)]
pub fn are_digits(bytes: u8x8) -> bool
    ensures { Decides result ((k : ℕ) → k < 8 → is_digit (slice_index bytes k) ≡ true) }
{
    let values = bytes - u8x8::splat(b'0');
    values.simd_lt(u8x8::splat(10)).to_bitmask() == 0xff
}

/// Returns the number that eight bytes spell, if each of them is a digit. Within one word, it joins neighbouring digits into pairs, the
/// pairs into fours, and the fours into the number.
#[inline(always)]
pub fn eight_digits(bytes: u8x8) -> Option<u64>
    ensures value { IfSome result (λ number. number_after 0 bytes ≡ Some number) }
    // After other digits, the eight digits continue their number.
    ensures behind { IfSome result (λ number. (before : ℕ) → number_after before bytes ≡ Some (before * 100000000 + number)) }
    ensures below { IfSome result (λ number. number < 100000000) }
    ensures begins { IfSome result (λ _. is_digit (slice_index bytes 0) ≡ true) }
{
    if !are_digits(bytes) {
        return None;
    }
    let ones = u64::from_le_bytes(bytes.to_array()) - 0x3030_3030_3030_3030;
    let pairs = (10 * ones + (ones >> 8)) & 0x00ff_00ff_00ff_00ff;
    let fours = (100 * pairs + (pairs >> 16)) & 0x0000_ffff_0000_ffff;
    Some((10_000 * fours + (fours >> 32)) & 0xffff_ffff)
}

/// Returns the number that nine bytes spell, if each of them is a digit.
#[inline(always)]
pub fn nine_digits(first: u8, rest: u8x8) -> Option<u64>
    ensures value { IfSome result (λ number. number_after 0 (first ∷ rest) ≡ Some number) }
    ensures below { IfSome result (λ number. number < 1000000000) }
    ensures begins { IfSome result (λ _. is_digit first ≡ true) }
{
    if first < b'0' || first > b'9' {
        return None;
    }
    match eight_digits(rest) {
        Some(value) => Some(u64::from(first - b'0') * 100_000_000 + value),
        None => None,
    }
}

/// Returns the number in eight columns that are blanks and then digits up to the last column, or blanks only.
#[inline(always)]
fn right_justified(bytes: u8x8) -> Option<u64>
    ensures { IfSome result (λ number. number_of bytes ≡ Some number) }
{
    let blanks = bytes.simd_eq(u8x8::splat(b' '));
    let mask = blanks.to_bitmask();
    if mask & (mask + 1) != 0 {
        return None;
    }
    eight_digits(blanks.select(u8x8::splat(b'0'), bytes))
}

/// Reads a number field in the form and at the widths that are usual. Any other field yields `None`.
#[inline(always)]
fn usual_number(field: &[u8]) -> Option<u64>
    ensures { IfSome result (λ number. number_of field.now ≡ Some number) }
{
    match field.len() {
        8 => right_justified(u8x8::from_slice(field)),
        10 if field[0] == b' ' => {
            let last = u8x8::from_slice(&field[2..]);
            if field[1] == b' ' {
                right_justified(last)
            } else {
                nine_digits(field[1], last)
            }
        }
        _ => None,
    }
}

/// Returns the number that digits spell, with only blanks after them.
#[inline(never)]
#[tactic(auto, using(crate::proofs::NumberLemmas::stepping), unfolding(crate::specs::NumberReading::number_after))]
pub fn digits(field: &[u8]) -> Option<u64>
    requires { length field.now ≤ 19 }
    ensures { result ≡ number_after 0 field.now }
{
    let mut value = 0;
    for (i, byte) in field.iter().enumerate() {
        if *byte < b'0' || *byte > b'9' {
            return if is_blank(&field[i..]) {
                Some(value)
            } else {
                None
            };
        }
        value = 10 * value + u64::from(*byte - b'0');
    }
    Some(value)
}

/// Returns the number that a field spells: 0 if it is blank, `None` if it is malformed.
#[inline(always)]
#[tactic(auto, unfolding(crate::specs::NumberReading::number_of))]
pub fn number(field: &[u8]) -> Option<u64>
    requires { length field.now ≤ 19 }
    ensures { result ≡ number_of field.now }
{
    match usual_number(field) {
        Some(value) => Some(value),
        None => digits(trim_start(field)),
    }
}

/// Writes a number right justified. 0 is written as blanks.
#[inline(always)]
#[tactic(auto, using(crate::proofs::Columns::behind_blanks))]
pub fn put_number(out: &mut [u8], number: u64)
    ensures { out.new ≡ number_text (length out.old) number }
{
    match out.len() {
        3 if number < 1_000 => put_three_columns(out, number as u16),
        8 if number < 100_000_000 => put_eight_columns(out, number as u32),
        10 if number < 10_000_000_000 => put_ten_columns(out, number),
        _ => put_behind(out, b' ', number),
    }
}

/// Writes a number right justified into ten columns. 0 is written as blanks.
#[inline(always)]
fn put_ten_columns(out: &mut [u8], number: u64)
    requires len { length out.old ≡ 10 }
    requires below { number < 10000000000 }
    ensures { out.new ≡ number_text 10 number }
{
    if number < 100_000_000 {
        out[0] = b' ';
        out[1] = b' ';
        put_eight_columns(&mut out[2..], number as u32);
    } else {
        let high = (number / 100_000_000) as u8;
        let low = (number % 100_000_000) as u32;
        out[0] = if high < 10 { b' ' } else { b'0' + high / 10 };
        out[1] = b'0' + high % 10;
        put_eight_digits(&mut out[2..], low);
    }
}

/// Returns the byte of the column in which the last digit of a number is shown, a blank for 0.
#[inline(always)]
fn column(left: u16) -> u8
    ensures { result ≡ (if left == 0 then 32 else 48 + left % 10) }
{
    if left == 0 {
        b' '
    } else {
        b'0' + (left % 10) as u8
    }
}

/// Writes a number into three columns, right justified, blanks for 0.
#[inline(always)]
#[tactic(auto, unfolding(crate::specs::FieldTexts::number_text))]
fn put_three_columns(out: &mut [u8], number: u16)
    requires len { length out.old ≡ 3 }
    ensures { out.new ≡ number_text 3 number }
{
    let tens = number / 10;
    out.copy_from_slice(&[column(tens / 10), column(tens), column(number)]);
}
