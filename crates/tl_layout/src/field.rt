//! Reading fields by their columns, which are counted from 1 as in the column tables.

ghost use Rattle.std.specs.Prelude.{IfOk, length, ◌+◌, ◌-◌, ◌<◌, ◌≡◌, ◌≤◌};
ghost use Rattle.tl_layout.specs.Bytes.{AreAllowed, columns, longest_line};
ghost use Rattle.tl_layout.specs.FieldReading.{number_at, number_or_none_at, point_at, point_or_none_at};
ghost use Rattle.tl_layout.specs.FieldFaults.{bad_point, gap};
ghost use Rattle.tl_layout.specs.Numbers.{IsNumber, IsNumberOrNone};

use crate::coordinate::{Coordinate, read_latitude, read_longitude};
use crate::number::{number, put_number};
use crate::{FieldFault, FieldKind, Point, Text};

/// Returns the bytes in these columns as they are.
#[inline(always)]
pub fn text_at<const N: usize>(line: &[u8], first: usize, last: usize) -> Text<N>
    requires allowed { AreAllowed line.now }
    requires from_one { 1 ≤ first }
    requires within { (last ≤ length line.now) × (last ≤ longest_line) }
    requires width { last + 1 ≡ first + N }
    ensures { result ≡ columns first last line.now }
{
    Text::from_slice(&line[first - 1..last])
}

/// Reads the number in these columns. The field must have one.
///
/// # Errors
///
/// `BadNumber` at column `first`.
#[inline(always)]
#[tactic(auto, unfolding(crate::specs::FieldReading::number_at, crate::specs::FieldReading::number_or_none_at, crate::specs::FieldReading::and_then))]
pub fn read_number(line: &[u8], first: usize, last: usize) -> Result<u64, FieldFault>
    requires from_one { 1 ≤ first }
    requires ordered { first ≤ last }
    requires within { (last ≤ length line.now) × (last ≤ longest_line) }
    requires short { last < first + 19 }
    ensures value { result ≡ number_at first last line.now }
    ensures in_range { IfOk result (IsNumber (last + 1 - first)) }
{
    match number(&line[first - 1..last]) {
        Some(number) if number > 0 => Ok(number),
        _ => Err(FieldFault {
            kind: FieldKind::BadNumber,
            column: first as u16,
        }),
    }
}

/// Reads the number in these columns, which may have none.
///
/// # Errors
///
/// `BadNumber` at column `first`.
#[inline(always)]
#[tactic(auto, unfolding(crate::specs::FieldReading::number_or_none_at))]
pub fn read_number_or_none(
    line: &[u8],
    first: usize,
    last: usize,
) -> Result<Option<u64>, FieldFault>
    requires from_one { 1 ≤ first }
    requires ordered { first ≤ last }
    requires within { (last ≤ length line.now) × (last ≤ longest_line) }
    requires short { last < first + 19 }
    ensures value { result ≡ number_or_none_at first last line.now }
    ensures in_range { IfOk result (IsNumberOrNone (last + 1 - first)) }
{
    match number(&line[first - 1..last]) {
        Some(0) => Ok(None),
        Some(number) => Ok(Some(number)),
        None => Err(FieldFault {
            kind: FieldKind::BadNumber,
            column: first as u16,
        }),
    }
}

/// Returns the fault of a bad point, reported at this column.
fn bad_point(column: usize) -> FieldFault
    requires { column ≤ longest_line }
    ensures { result ≡ bad_point column }
{
    FieldFault {
        kind: FieldKind::BadPoint,
        column: column as u16,
    }
}

/// Returns the fault of a used place after an unused one, reported at this column.
pub fn gap(column: usize) -> FieldFault
    requires { column ≤ longest_line }
    ensures { result ≡ gap column }
{
    FieldFault {
        kind: FieldKind::GapInRecord,
        column: column as u16,
    }
}

/// Reads the pair of coordinates that begins at this column. It may hold no point.
#[inline(always)]
#[tactic(auto, using(crate::specs::Laws::CoordinateLaws::coordinate_read_within), unfolding(crate::specs::FieldReading::point_or_none_at, crate::specs::FieldReading::point_or_none))]
pub fn read_point_or_none(line: &[u8], column: usize) -> Result<Option<Point>, FieldFault>
    requires from_one { 1 ≤ column }
    requires within { (column + 18 ≤ length line.now) × (column + 18 ≤ longest_line) }
    ensures { result ≡ point_or_none_at column line.now }
{
    let long = read_longitude(&line[column - 1..column + 9]);
    let lat = read_latitude(&line[column + 9..column + 18]);
    match (long, lat) {
        (Coordinate::Malformed, _) => Err(bad_point(column)),
        (_, Coordinate::Malformed) => Err(bad_point(column + 10)),
        (Coordinate::Blank, Coordinate::Blank) => Ok(None),
        (Coordinate::Value(0), Coordinate::Value(0)) => Ok(None),
        (Coordinate::Value(long), Coordinate::Value(lat)) => Ok(Some(Point::new(long, lat))),
        _ => Err(bad_point(column)),
    }
}

/// Reads the pair of coordinates that begins at this column. It must hold a point.
#[inline(always)]
#[tactic(auto, unfolding(crate::specs::FieldReading::point_at, crate::specs::FieldReading::and_then))]
pub fn read_point(line: &[u8], column: usize) -> Result<Point, FieldFault>
    requires from_one { 1 ≤ column }
    requires within { (column + 18 ≤ length line.now) × (column + 18 ≤ longest_line) }
    ensures { result ≡ point_at column line.now }
{
    match read_point_or_none(line, column)? {
        Some(point) => Ok(point),
        None => Err(bad_point(column)),
    }
}
