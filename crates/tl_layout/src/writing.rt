//! Writing fields into the columns of a line, from left to right. Columns are counted from 1, as in the column tables.

ghost use Rattle.std.specs.Prelude.{[], codes, length, pos, replicate, take, ◌++◌, ◌+◌, ◌-◌, ◌∷◌, ◌≡◌, ◌≤◌};
ghost use Rattle.tl_layout.specs.FieldTexts.{coordinate_text, lat_text, long_text, number_text};
ghost use Rattle.tl_layout.specs.Columns.{joined};
ghost use Rattle.tl_layout.specs.Coordinates.{IsOnMap};

use crate::coordinate::put_coordinate;
use crate::number::put_number;
use crate::{Layout, Point, Text};

/// Writes the record type and the version, 2006.
#[inline(always)]
#[tactic(auto, using(crate::proofs::Writes::head_written))]
pub fn write_head(out: &mut [u8], rtype: u8)
    requires { 5 ≤ length out.old }
    ensures { take 5 out.new ≡ rtype ∷ codes "2006" }
{
    out[0] = rtype;
    out[1..5].copy_from_slice(b"2006");
}

/// Writes bytes as they are into these columns.
#[inline(always)]
#[tactic(auto, using(crate::proofs::Writes::columns_written))]
pub fn write_text<const N: usize>(out: &mut [u8], first: usize, last: usize, text: &Text<N>)
    requires from_one { 1 ≤ first }
    requires within { last ≤ length out.old }
    requires width { last + 1 ≡ first + N }
    ensures { take last out.new ≡ take (first - 1) out.old ++ text.now }
{
    out[first - 1..last].copy_from_slice(text.as_bytes());
}

/// Writes a number right justified into these columns. 0 is written as blanks.
#[inline(always)]
#[tactic(auto, using(crate::proofs::Writes::columns_written))]
pub fn write_number(out: &mut [u8], first: usize, last: usize, number: u64)
    requires from_one { 1 ≤ first }
    requires ordered { first ≤ last + 1 }
    requires within { last ≤ length out.old }
    ensures { take last out.new ≡ take (first - 1) out.old ++ number_text (last + 1 - first) number }
{
    put_number(&mut out[first - 1..last], number);
}

/// Writes blanks into these columns.
#[inline(always)]
#[tactic(auto, using(crate::proofs::Writes::columns_written))]
pub fn write_blanks(out: &mut [u8], first: usize, last: usize)
    requires from_one { 1 ≤ first }
    requires ordered { first ≤ last + 1 }
    requires within { last ≤ length out.old }
    ensures { take last out.new ≡ take (first - 1) out.old ++ replicate (last + 1 - first) 32 }
{
    out[first - 1..last].fill(b' ');
}

/// Writes a coordinate, a sign and digits, into these columns.
#[inline(always)]
#[tactic(auto, using(crate::proofs::Writes::columns_written))]
fn write_coordinate(out: &mut [u8], first: usize, last: usize, value: i32)
    requires from_one { 1 ≤ first }
    requires ordered { first ≤ last }
    requires within { last ≤ length out.old }
    ensures { take last out.new ≡ take (first - 1) out.old ++ coordinate_text (last - first) value }
{
    put_coordinate(&mut out[first - 1..last], value);
}

/// Writes the pair of coordinates of a point into 19 columns, from this one on.
#[inline(always)]
pub fn write_point(out: &mut [u8], column: usize, point: &Point)
    requires from_one { 1 ≤ column }
    requires within { column + 18 ≤ length out.old }
    ensures written { take (column + 18) out.new
        ≡ joined (take (column - 1) out.old) (coordinate_text 9 point.now.long ∷ coordinate_text 8 point.now.lat ∷ []) }
    ensures on_map { IsOnMap point.now }
{
    write_coordinate(out, column, column + 9, point.long());
    write_coordinate(out, column + 10, column + 18, point.lat());
}

/// The pair of zeros in an unused place for a point.
pub const ZEROS: [u8; 19] = *b"+000000000+00000000";

/// Writes a pair of zeros into 19 columns, from this one on.
#[inline(always)]
pub fn write_zeros(out: &mut [u8], column: usize)
    requires from_one { 1 ≤ column }
    requires within { column + 18 ≤ length out.old }
    ensures { take (column + 18) out.new
        ≡ joined (take (column - 1) out.old) (coordinate_text 9 (pos 0) ∷ coordinate_text 8 (pos 0) ∷ []) }
{
    out[column - 1..column + 18].copy_from_slice(&ZEROS);
}

/// Writes the pair of coordinates of a point into 19 columns, from this one on, or blanks if there is no point.
pub fn write_point_or_blanks(out: &mut [u8], column: usize, point: &Option<Point>)
    requires from_one { 1 ≤ column }
    requires within { column + 18 ≤ length out.old }
    ensures { take (column + 18) out.new
        ≡ joined (take (column - 1) out.old) (long_text point.now ∷ lat_text point.now ∷ []) }
{
    match point {
        Some(point) => write_point(out, column, point),
        None => {
            write_blanks(out, column, column + 9);
            write_blanks(out, column + 10, column + 18);
        }
    }
}

/// Writes a record's line, which is its canonical spelling and LF, into a buffer of that length.
pub fn put_line<L: Layout>(found: &L, line: &mut [u8])
    requires { length line.old ≡ L.LEN + 1 }
    ensures { line.new ≡ L.spelling found.now ++ 10 ∷ [] }
{
    let len = L::LEN;
    found.put(&mut line[..len]);
    line[len] = b'\n';
}
