//! Columns that hold the canonical text of places: used ones first, and after them only unused ones.

ghost use Rattle.canonical_lines.specs.Texts.{IsPlacesText, IsUsedText};
ghost use Rattle.std.specs.Prelude.{IsTrue, List, None, Option, length, ℕ, ◌*◌, ◌≡◌};

use crate::number::is_number;
use crate::point::{is_point, is_unused};
use tl_layout::is_blank;

/// Places of one kind, side by side.
pub(crate) trait LinePlaces {
    /// The item of a used place.
    ghost Item: { Type 0 };

    /// The items that fit into a place.
    ghost Fits: { Item → Type 0 };

    /// The canonical text of a place.
    ghost text: { Option Item → List ℕ };

    /// The number of places.
    const COUNT: usize;

    ghost COUNT: { ℕ };

    /// The width of a place, in columns.
    const WIDTH: usize;

    ghost WIDTH: { ℕ };

    /// Checks whether the columns hold the canonical text of an unused place.
    fn is_unused(columns: &[u8]) -> bool
        requires { length columns.now ≡ WIDTH }
        ensures { IsTrue result → columns.now ≡ text None };

    /// Checks whether the columns hold the canonical text of a used place.
    fn is_used(columns: &[u8]) -> bool
        requires { length columns.now ≡ WIDTH }
        ensures { IsTrue result → IsUsedText Fits text columns.now };
}

/// Ten places for points.
#[derive(Drop)]
pub(crate) struct PointPlaces;

impl LinePlaces for PointPlaces {
    ghost use Rattle.tl_layout.specs.Coordinates.{Coordinates, IsOnMap};
    ghost use Rattle.tl_layout.specs.FieldTexts.{point_place_text};

    ghost Item = { Coordinates };

    ghost Fits = { IsOnMap };

    ghost text = { point_place_text };

    const COUNT: usize = 10;

    ghost COUNT = { 10 };

    const WIDTH: usize = 19;

    ghost WIDTH = { 19 };

    #[inline(always)]
    fn is_unused(columns: &[u8]) -> bool {
        is_unused(columns)
    }

    #[inline(always)]
    fn is_used(columns: &[u8]) -> bool {
        is_point(columns)
    }
}

/// Five places for numbers.
#[derive(Drop)]
pub(crate) struct NumberPlaces;

impl LinePlaces for NumberPlaces {
    ghost use Rattle.std.specs.Prelude.{ℕ};
    ghost use Rattle.tl_layout.specs.FieldTexts.{number_place_text};
    ghost use Rattle.tl_layout.specs.Numbers.{IsNumber};

    ghost Item = { ℕ };

    ghost Fits = { IsNumber 8 };

    ghost text = { number_place_text };

    const COUNT: usize = 5;

    ghost COUNT = { 5 };

    const WIDTH: usize = 8;

    ghost WIDTH = { 8 };

    #[inline(always)]
    fn is_unused(columns: &[u8]) -> bool {
        is_blank(columns)
    }

    #[inline(always)]
    fn is_used(columns: &[u8]) -> bool {
        is_number(columns)
    }
}

/// Checks whether the columns hold the canonical text of places. It goes through them from the last one.
#[inline(always)]
pub(crate) fn are_places<P: LinePlaces>(columns: &[u8]) -> bool
    requires { length columns.now ≡ P.WIDTH * P.COUNT }
    ensures { IsTrue result → IsPlacesText P.Fits P.text P.COUNT columns.now }
{
    let width = P::WIDTH;
    let mut used = false;
    let mut place = P::COUNT;
    while place > 0 {
        place -= 1;
        let columns = &columns[width * place..width * place + width];
        if used || !P::is_unused(columns) {
            if !P::is_used(columns) {
                return false;
            }
            used = true;
        }
    }
    true
}
