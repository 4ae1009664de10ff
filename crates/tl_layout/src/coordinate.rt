//! Coordinates: longitudes and latitudes in millionths of a degree.

ghost use Rattle.std.specs.Prelude.{IfSome, Some, length, ◌-◌, ◌<◌, ◌≡◌, ◌≤◌, ◌⊎◌};
ghost use Rattle.tl_layout.specs.CoordinateReading.{coordinate_of, magnitude_of, minus_of, plus_of, signed_of};
ghost use Rattle.tl_layout.specs.FieldTexts.{coordinate_text, digits_text, sign_of};
ghost use Rattle.tl_layout.specs.Coordinates.{most_latitude, most_longitude};
ghost use Rattle.tl_layout.specs.declared.coordinate.Coordinate.TheVariants.{Value};

use crate::digits::{put_behind, put_eight_digits};
use crate::number::{digits, eight_digits, nine_digits, trim_start};
use std::simd::prelude::*;

/// The greatest magnitude of a longitude, in millionths of a degree (nine digits).
pub(crate) const MOST_LONGITUDE: u32 = 999_999_999;

/// The greatest magnitude of a latitude, in millionths of a degree (eight digits).
pub(crate) const MOST_LATITUDE: u32 = 99_999_999;

/// What the field of a coordinate holds.
#[derive(Clone, Copy, Debug, PartialEq, Eq)]
pub enum Coordinate {
    /// Neither all blanks nor a coordinate within the limit.
    Malformed,
    /// All blanks.
    Blank,
    /// A coordinate, in millionths of a degree.
    Value(i32),
}

/// Returns the magnitude if `text` is at least one digit, then only blanks, and the number is at most `limit`.
#[tactic(auto, unfolding(crate::specs::CoordinateReading::magnitude_of))]
fn magnitude(text: &[u8], limit: u32) -> Option<u32>
    requires { length text.now ≤ 19 }
    ensures value { result ≡ magnitude_of limit text.now }
    ensures within { IfSome result (λ magnitude. magnitude ≤ limit) }
{
    match text {
        [] => None,
        [first, ..] => {
            if *first < b'0' || *first > b'9' {
                return None;
            }
            match digits(text) {
                None => None,
                Some(magnitude) => {
                    if magnitude <= u64::from(limit) {
                        Some(magnitude as u32)
                    } else {
                        None
                    }
                }
            }
        }
    }
}

/// Returns the coordinate with a plus sign and this magnitude, or `Malformed` if there is none.
fn plus(magnitude: Option<u32>) -> Coordinate
    requires { IfSome magnitude (λ magnitude. magnitude ≤ most_longitude) }
    ensures { result ≡ plus_of magnitude }
{
    match magnitude {
        None => Coordinate::Malformed,
        Some(magnitude) => Coordinate::Value(magnitude as i32),
    }
}

/// Returns the coordinate with a minus sign and this magnitude, or `Malformed` if there is none.
fn minus(magnitude: Option<u32>) -> Coordinate
    requires { IfSome magnitude (λ magnitude. magnitude ≤ most_longitude) }
    ensures { result ≡ minus_of magnitude }
{
    match magnitude {
        None => Coordinate::Malformed,
        Some(magnitude) => Coordinate::Value(-(magnitude as i32)),
    }
}

/// Reads a coordinate's field. The magnitude may be at most `limit`.
#[inline(never)]
#[tactic(auto, unfolding(crate::specs::CoordinateReading::coordinate_of, crate::specs::CoordinateReading::signed_of))]
fn read_coordinate(field: &[u8], limit: u32) -> Coordinate
    requires len { length field.now ≤ 19 }
    requires within { limit ≤ most_longitude }
    ensures { result ≡ coordinate_of limit field.now }
{
    match trim_start(field) {
        [] => Coordinate::Blank,
        [b'+', text @ ..] => plus(magnitude(text, limit)),
        [b'-', text @ ..] => minus(magnitude(text, limit)),
        text => plus(magnitude(text, limit)),
    }
}

/// Returns the coordinate with this magnitude and this sign, which must be a plus or a minus: any other byte yields `None`.
#[inline(always)]
fn signed(sign: u8, magnitude: u64) -> Option<i32>
    requires { magnitude < 1000000000 }
    ensures plus { IfSome result (λ value. sign ≡ 43 → Value value ≡ plus_of (Some magnitude)) }
    ensures minus { IfSome result (λ value. sign ≡ 45 → Value value ≡ minus_of (Some magnitude)) }
    ensures reported { IfSome result (λ _. (sign ≡ 43) ⊎ (sign ≡ 45)) }
{
    match sign {
        b'+' => Some(magnitude as i32),
        b'-' => Some(-(magnitude as i32)),
        _ => None,
    }
}

/// Reads a longitude in the usual form, a sign and nine digits. Any other form yields `None`.
#[inline(always)]
fn usual_longitude(field: &[u8]) -> Option<i32>
    requires { length field.now ≡ 10 }
    ensures { IfSome result (λ value. coordinate_of most_longitude field.now ≡ Value value) }
{
    signed(
        field[0],
        nine_digits(field[1], u8x8::from_slice(&field[2..]))?,
    )
}

/// Reads a latitude in the usual form, a sign and eight digits. Any other form yields `None`.
#[inline(always)]
fn usual_latitude(field: &[u8]) -> Option<i32>
    requires { length field.now ≡ 9 }
    ensures { IfSome result (λ value. coordinate_of most_latitude field.now ≡ Value value) }
{
    signed(field[0], eight_digits(u8x8::from_slice(&field[1..]))?)
}

/// Reads the field of a longitude.
#[inline(always)]
pub fn read_longitude(field: &[u8]) -> Coordinate
    requires { length field.now ≡ 10 }
    ensures { result ≡ coordinate_of most_longitude field.now }
{
    match usual_longitude(field) {
        Some(value) => Coordinate::Value(value),
        None => read_coordinate(field, MOST_LONGITUDE),
    }
}

/// Reads the field of a latitude.
#[inline(always)]
pub fn read_latitude(field: &[u8]) -> Coordinate
    requires { length field.now ≡ 9 }
    ensures { result ≡ coordinate_of most_latitude field.now }
{
    match usual_latitude(field) {
        Some(value) => Coordinate::Value(value),
        None => read_coordinate(field, MOST_LATITUDE),
    }
}

/// Writes the last digits of a number, as many as `out` is long.
#[inline(always)]
#[tactic(auto, using(crate::proofs::Columns::behind_zeros))]
fn put_digits(out: &mut [u8], number: u32)
    ensures { out.new ≡ digits_text (length out.old) number }
{
    match out.len() {
        8 => put_eight_digits(out, number % 100_000_000),
        9 => {
            out[0] = b'0' + (number / 100_000_000 % 10) as u8;
            put_eight_digits(&mut out[1..], number % 100_000_000);
        }
        _ => put_behind(out, b'0', u64::from(number)),
    }
}

/// Returns the sign of a coordinate: a plus for 0.
fn sign(value: i32) -> u8
    ensures { result ≡ sign_of value }
{
    if value < 0 { b'-' } else { b'+' }
}

/// Writes a coordinate: its sign in the first column and digits in all others.
#[inline(always)]
#[tactic(auto, using(crate::proofs::Writes::first_then_rest), unfolding(crate::specs::FieldTexts::coordinate_text))]
pub fn put_coordinate(out: &mut [u8], value: i32)
    requires { 1 ≤ length out.old }
    ensures { out.new ≡ coordinate_text (length out.old - 1) value }
{
    let len = out.len();
    out[0] = sign(value);
    put_digits(&mut out[1..len], value.unsigned_abs());
}
