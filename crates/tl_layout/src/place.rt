//! Places of one kind, side by side in a line.

ghost use Rattle.std.specs.List.{AllByRecursion};
ghost use Rattle.std.specs.Prelude.{List, Option, Result, [], false, length, slice_get, take, ℕ, ◌*◌, ◌++◌, ◌+◌, ◌-◌, ◌<◌, ◌∷◌, ◌≡◌, ◌≤◌};
ghost use Rattle.tl_layout.specs.FieldTexts.{number_place_text, places_text, point_place_text};
ghost use Rattle.tl_layout.specs.Bytes.{longest_line};
ghost use Rattle.tl_layout.specs.Coordinates.{IsOnMap};
ghost use Rattle.tl_layout.specs.FieldReading.{Gives, places_reading};

use crate::field::{gap, read_number_or_none, read_point_or_none};
use crate::writing::{ZEROS, write_number, write_point, write_zeros};
use crate::{FieldFault, Point};
use arrayvec::ArrayVec;

/// A list whose items are in places side by side in a line, from column 19 on.
pub trait Places: Sized {
    ghost use Rattle.tl_layout.specs.declared.fault.FieldFault.{FieldFault};

    /// The content of a used place.
    type Item: Copy;

    /// The number of places.
    const COUNT: usize;

    ghost COUNT: { ℕ };

    /// The width of a place, in columns.
    const WIDTH: usize;

    ghost WIDTH: { ℕ };

    /// The items of the list.
    ghost items: { Self → List Self.Item };

    /// How the place that begins at this column of a line is read.
    ghost reading: { List ℕ → ℕ → Result (Option Self.Item) FieldFault };

    /// The canonical text of a place.
    ghost text: { Option Self.Item → List ℕ };

    /// Makes the empty list.
    fn empty() -> Self
        ensures { items result ≡ [] };

    /// Reads the place that begins at this column. An unused place yields `None`.
    fn read(line: &[u8], column: usize) -> Result<Option<Self::Item>, FieldFault>
        requires from_one { 1 ≤ column }
        requires within { (column + WIDTH ≤ length line.now + 1) × (column + WIDTH ≤ longest_line + 1) }
        ensures { result ≡ reading line.now column };

    /// Appends an item.
    fn add(&mut self, item: Self::Item)
        requires { length (items self.old) < COUNT }
        ensures { items self.new ≡ items self.old ++ item ∷ [] };

    /// Writes the place with this index.
    fn write_item(out: &mut [u8], place: usize, item: &Option<Self::Item>)
        requires place { place < COUNT }
        requires within { 18 + COUNT * WIDTH ≤ length out.old }
        ensures { take (18 + (place + 1) * WIDTH) out.new ≡ take (18 + place * WIDTH) out.old ++ text item.now };
}

/// Ten places for points. An unused place is a pair of zeros.
impl Places for ArrayVec<Point, 10> {
    ghost use Rattle.tl_layout.specs.FieldReading.{point_or_none_at};

    type Item = Point;

    const COUNT: usize = 10;

    ghost COUNT = { 10 };

    const WIDTH: usize = 19;

    ghost WIDTH = { 19 };

    ghost items = { λ points. points.items };

    ghost reading = { λ line column. point_or_none_at column line };

    ghost text = { point_place_text };

    fn empty() -> ArrayVec<Point, 10> {
        ArrayVec::new()
    }

    fn read(line: &[u8], column: usize) -> Result<Option<Point>, FieldFault> {
        // Trick: most points are west of Greenwich, so a minus sign shows at once that the place is used.
        if line[column - 1] == b'+' && line[column - 1..column + 18] == ZEROS[..] {
            return Ok(None);
        }
        read_point_or_none(line, column)
    }

    fn add(&mut self, point: Point) {
        self.push(point);
    }

    #[inline(always)]
    fn write_item(out: &mut [u8], place: usize, item: &Option<Point>) {
        let column = 19 + 19 * place;
        match item {
            Some(point) => write_point(out, column, point),
            None => write_zeros(out, column),
        }
    }
}

/// Five places for FEATs.
impl Places for ArrayVec<u32, 5> {
    ghost use Rattle.std.specs.Prelude.{◌+◌};
    ghost use Rattle.tl_layout.specs.FieldReading.{number_or_none_at};

    type Item = u32;

    const COUNT: usize = 5;

    ghost COUNT = { 5 };

    const WIDTH: usize = 8;

    ghost WIDTH = { 8 };

    ghost items = { λ feats. feats.items };

    ghost reading = { λ line column. number_or_none_at column (column + 7) line };

    ghost text = { number_place_text };

    fn empty() -> ArrayVec<u32, 5> {
        ArrayVec::new()
    }

    fn read(line: &[u8], column: usize) -> Result<Option<u32>, FieldFault> {
        match read_number_or_none(line, column, column + 7) {
            Ok(Some(number)) => Ok(Some(number as u32)),
            Ok(None) => Ok(None),
            Err(fault) => Err(fault),
        }
    }

    fn add(&mut self, feat: u32) {
        self.push(feat);
    }

    #[inline(always)]
    fn write_item(out: &mut [u8], place: usize, item: &Option<u32>) {
        let number = u64::from(item.unwrap_or(0));
        write_number(out, 19 + 8 * place, 26 + 8 * place, number);
    }
}

/// Reads the places of a full line. The used places must come first.
pub fn read_places<P: Places + Drop>(line: &[u8]) -> Result<P, FieldFault>
    requires wide { 1 ≤ P.WIDTH }
    requires within { (18 + P.COUNT * P.WIDTH ≤ length line.now) × (18 + P.COUNT * P.WIDTH ≤ longest_line) }
    ensures { Gives P.items result (places_reading (P.reading line.now) P.WIDTH false P.COUNT 19) }
{
    let count = P::COUNT;
    let width = P::WIDTH;
    let mut items = P::empty();
    let mut unused = false;
    let mut column = 19;
    for _place in 0..count {
        let item = match P::read(line, column) {
            Ok(item) => item,
            Err(fault) => return Err(fault),
        };
        match item {
            None => unused = true,
            Some(item) => {
                if unused {
                    return Err(gap(column));
                }
                items.add(item);
            }
        }
        column += width;
    }
    Ok(items)
}

/// Returns the item at this index, or `None` past the end of the list.
fn item_at<T: Copy>(items: &[T], place: usize) -> Option<T>
    ensures { result ≡ slice_get items.now place }
{
    items.get(place).copied()
}

/// Proves that each point is on the map, which its type guarantees. Does nothing at run time.
pub(crate) fn show_points_fit(points: &[Point])
    ensures { AllByRecursion IsOnMap points.now }
{
    for point in points {
        point.show_fit();
    }
}

/// Writes the places of a full line. Only the first ones are used.
pub fn write_places<P: Places>(out: &mut [u8], items: &[P::Item])
    requires columns { 18 + P.COUNT * P.WIDTH ≤ length out.old }
    requires count { length items.now ≤ P.COUNT }
    ensures { take (18 + P.COUNT * P.WIDTH) out.new ≡ take 18 out.old ++ places_text P.text P.COUNT items.now }
{
    let count = P::COUNT;
    for place in 0..count {
        P::write_item(out, place, &item_at(items, place));
    }
}
