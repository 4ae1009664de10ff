//! The names of a county in classes with the same content, and its landmarks in classes with the same bodies.
//!
//! Each arrangement of a county has its names in the order of their content, and its landmarks in the order of their bodies. Only the order
//! within a class depends on the arrangement. So contents are compared once, however many arrangements of the county are made.

ghost use Rattle.std.specs.List.{range_with_len};
ghost use Rattle.std.specs.Prelude.{IfOk, IsPermutation, length, ◌+◌, ◌<◌, ◌^◌, ◌≡◌, ◌≤◌};
ghost use Rattle.ordered_lists.specs.Orders.{IsInOrder};
ghost use Rattle.arranged_county.specs.ContentItems.{AreClasses, class_after, classes_along, landmark_bodies_cmp, name_content_cmp};
ghost use Rattle.arranged_county.specs.ViewProps.{AreClasses-prop};

use crate::landmark_contents::LandmarkContents;
use crate::name_contents::NameContents;
use crate::slots::Slots;
use county_chart::Chart;
use std::alloc::{AllocError, Global};
use std::cmp::Ordering;

/// A place, counted from 0, after the number of its class. Places in the same class have the same content, and the numbers of classes are
/// in the order of the contents.
pub(crate) type ClassedPlace = (u32, u32);

/// The contents at the places of a list.
pub(crate) trait Contents {
    ghost use Rattle.std.specs.Prelude.{ℕ, ◌≡◌};
    ghost use Rattle.std.specs.Cmp.{IsTotalOrder};
    ghost use Rattle.std.specs.declared.cmp.Ordering.{Ordering};

    /// The number of places.
    ghost places: { Self → ℕ };

    /// The order of the contents at two places.
    ghost order: { Self → ℕ → ℕ → Ordering };

    /// Returns the number of places.
    fn count(&self) -> u32
        ensures { result ≡ places self.now };

    /// Compares the contents at two places.
    fn compare(&self, a: u32, b: u32) -> Ordering
        ensures { result ≡ order self.now a b };

    /// The order of contents is total.
    ghost total: { (contents : Self) → IsTotalOrder (order contents) };
}

/// Returns all places, ascending.
pub(crate) fn all_places<T: Contents>(alloc: Global, contents: &T) -> Result<Vec<u32>, AllocError>
    ensures { IfOk result (λ places. places.items ≡ range_with_len 0 (T.places contents.now)) }
{
    (0..contents.count()).collect(alloc)
}

/// Returns all places, in the order of their contents.
fn places_by_content<T: Contents>(alloc: Global, contents: &T) -> Result<Vec<u32>, AllocError>
    ensures permutation { IfOk result (λ places. IsPermutation (range_with_len 0 (T.places contents.now)) places.items) }
    ensures in_order { IfOk result (λ places. IsInOrder (T.order contents.now) places.items) }
{
    let mut places = all_places(alloc, contents)?;
    places.sort_unstable_by(|a, b| contents.compare(*a, *b));
    Ok(places)
}

/// Returns the class of the place after this one, if there is one: the same class if it has the same content, else the next class.
fn next_class<T: Contents>(contents: &T, class: u32, place: u32, later: &[u32]) -> u32
    requires { class + 1 < 2 ^ 32 }
    ensures class { result ≡ class_after (T.order contents.now) class place later.now }
    ensures few { result ≤ class + 1 }
{
    match later.split_first() {
        Some((next, _)) => {
            if contents.compare(place, *next).is_eq() {
                class
            } else {
                class + 1
            }
        }
        None => class,
    }
}

/// Returns places that are in the order of their contents, each with its class.
fn with_classes<T: Contents>(
    alloc: Global,
    contents: &T,
    places: &[u32],
) -> Result<Vec<ClassedPlace>, AllocError>
    requires { length places.now < 2 ^ 32 }
    ensures { IfOk result (λ classed. classed.items ≡ classes_along (T.order contents.now) 0 places.now) }
{
    let mut classed = Vec::with_capacity(alloc, places.len())?;
    let mut class = 0;
    let mut rest = places;
    while let Some((place, later)) = rest.split_first() {
        classed.push((class, *place))?;
        class = next_class(contents, class, *place, later);
        rest = later;
    }
    Ok(classed)
}

/// Returns all places with their classes, in the order of their contents.
fn classes_in<T: Contents>(alloc: Global, contents: &T) -> Result<Vec<ClassedPlace>, AllocError>
    requires { T.places contents.now < 2 ^ 32 }
    ensures { IfOk result (λ classed. AreClasses (T.places contents.now) (T.order contents.now) classed.items) }
{
    let places = places_by_content(alloc, contents)?;
    with_classes(alloc, contents, &places)
}

/// A county with its names in classes with the same content, and its landmarks in classes with the same bodies.
#[derive(Drop)]
pub struct Classes<'a, C: Chart> {
    pub(crate) chart: &'a C,
    pub(crate) names: Vec<ClassedPlace>,
    pub(crate) landmarks: Vec<ClassedPlace>,
    pub(crate) slots: Slots,
    ghost names_stated: { AreClasses (length (C.county chart.now).names) (name_content_cmp (C.county chart.now)) names.items } by { AreClasses-prop (length (C.county chart.now).names) (name_content_cmp (C.county chart.now)) names.items },
    ghost landmarks_stated: { AreClasses (length (C.county chart.now).landmarks) (landmark_bodies_cmp (C.county chart.now)) landmarks.items } by { AreClasses-prop (length (C.county chart.now).landmarks) (landmark_bodies_cmp (C.county chart.now)) landmarks.items },
}

impl<'a, C: Chart> Classes<'a, C> {
    ghost use Rattle.arranged_county.specs.Views.{classed_county};

    /// Puts the names and the landmarks of a county into classes.
    ///
    /// # Errors
    ///
    /// `AllocError` if an allocation failed.
    pub fn of(alloc: Global, chart: &'a C) -> Result<Classes<'a, C>, AllocError>
        ensures { IfOk result (λ classes. classed_county classes ≡ C.county chart.now) }
    {
        Classes::with_slots(alloc, chart, Slots::usual(chart))
    }

    /// Does the same for a county that is arranged many times: looks for tables in which few of its numbers share a slot.
    ///
    /// # Errors
    ///
    /// `AllocError` if an allocation failed.
    pub fn for_many(alloc: Global, chart: &'a C) -> Result<Classes<'a, C>, AllocError>
        ensures { IfOk result (λ classes. classed_county classes ≡ C.county chart.now) }
    {
        let slots = Slots::apart(alloc, chart)?;
        Classes::with_slots(alloc, chart, slots)
    }

    /// Puts the names and the landmarks of a county into classes. Tables for its numbers are to have these slots.
    fn with_slots(alloc: Global, chart: &'a C, slots: Slots) -> Result<Classes<'a, C>, AllocError>
        ensures { IfOk result (λ classes. classed_county classes ≡ C.county chart.now) }
    {
        let contents = NameContents { chart };
        let names = classes_in(alloc, &contents)?;
        let bodies = LandmarkContents { chart };
        let landmarks = classes_in(alloc, &bodies)?;
        Ok(Classes {
            chart,
            names,
            landmarks,
            slots,
        })
    }

    /// Returns the county.
    pub fn chart(&self) -> &'a C
        ensures { C.county result.now ≡ classed_county self.now }
    {
        self.chart
    }
}
