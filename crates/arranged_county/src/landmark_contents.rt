//! The bodies of landmarks: the contents of their records of type 7.

ghost use Rattle.std.specs.Prelude.{length, ◌<◌, ◌^◌, ◌≡◌};
ghost use Rattle.std.specs.Cmp.Lexicographic.{slice_cmp};
ghost use Rattle.std.specs.Option.{option_cmp};
ghost use Rattle.county_chart.specs.BodyOrder.{landmark_body_cmp};
ghost use Rattle.county_chart.specs.ChartWords.{bodies_at};

use crate::content_classes::Contents;
use county_chart::{Chart, cmp_landmark_bodies};
use std::cmp::Ordering;
use tl_layout::Body7;

/// Compares two bodies; a missing one comes first.
fn cmp_optional_body(a: Option<Body7>, b: Option<Body7>) -> Ordering
    ensures { result ≡ option_cmp landmark_body_cmp a b }
{
    match a {
        Some(a) => match b {
            Some(b) => cmp_landmark_bodies(&a, &b),
            None => Ordering::Greater,
        },
        None => match b {
            Some(_) => Ordering::Less,
            None => Ordering::Equal,
        },
    }
}

/// Compares the bodies of the landmarks at two places.
fn cmp_bodies<C: Chart>(chart: &C, a: usize, b: usize) -> Ordering
    ensures { result ≡ slice_cmp landmark_body_cmp (bodies_at (C.county chart.now) a) (bodies_at (C.county chart.now) b) }
{
    let count = chart.body_count_at(a);
    for body in 0..count {
        match cmp_optional_body(
            chart.landmark_body_at(a, body),
            chart.landmark_body_at(b, body),
        ) {
            Ordering::Equal => {}
            unequal => return unequal,
        }
    }
    if count < chart.body_count_at(b) {
        Ordering::Less
    } else {
        Ordering::Equal
    }
}

/// The bodies of the landmarks of a county. There are fewer than 2^32 landmarks.
#[derive(Drop)]
pub(crate) struct LandmarkContents<'a, C: Chart> {
    pub(crate) chart: &'a C,
    ghost few: { length (C.county chart.now).landmarks < 2 ^ 32 },
}

impl<C: Chart> Contents for LandmarkContents<'_, C> {
    ghost use Rattle.std.specs.Prelude.{length};
    ghost use Rattle.std.proofs.lemmas.Cmp.{lists_total, on_total};
    ghost use Rattle.county_chart.specs.ChartWords.{bodies_at};
    ghost use Rattle.county_chart.specs.Laws.KeyOrders.{landmark_body_keys};
    ghost use Rattle.arranged_county.specs.ContentItems.{landmark_bodies_cmp};

    ghost places = { λ landmarks. length (C.county landmarks.chart.now).landmarks };

    ghost order = { λ landmarks. landmark_bodies_cmp (C.county landmarks.chart.now) };

    fn count(&self) -> u32 {
        self.chart.landmark_count() as u32
    }

    fn compare(&self, a: u32, b: u32) -> Ordering {
        cmp_bodies(self.chart, a as usize, b as usize)
    }

    ghost total = { λ landmarks. on_total (bodies_at (C.county landmarks.chart.now)) (lists_total landmark_body_keys.total) };
}
