//! The kept landmarks: those whose LANDs and links can differ between choices.
//!
//! Landmarks are ordered by their contents first. So a choice moves only landmarks that have the same contents as one with a polygon that
//! first appears at a place still open. Landmarks are kept by CFCC and LANAME, which all landmarks with the same contents share.

ghost use Rattle.std.specs.List.{list_any, range_with_len};
ghost use Rattle.std.specs.Prelude.{IfOk, OnOk, filter, length, option_map, option_to_list, ◌++◌, ◌<◌, ◌^◌, ◌≡◌};
ghost use Rattle.canonical_form.specs.MovedChains.{AreWithin};
ghost use Rattle.county_chart.specs.ChartWords.{bodies_at};
ghost use Rattle.county_chart.specs.PolygonKeys.{key_cmp};
ghost use Rattle.ordered_lists.specs.Orders.{IsInOrder, contains};
ghost use Rattle.tl_number.specs.KeptLandmarks.{first_name, has_name, kept_landmarks, landmark_name, landmark_name_cmp, link_keys_at, name_if_linked, names_linked, opened_polygons};

use crate::key_groups::{PolygonKeys, push_if_some};
use crate::moved_keys::any_moves_keys;
use crate::open_keys::{has_key, interned, see_along};
use crate::still_open::StillOpen;
use arranged_county::Interner;
use county_chart::{Chart, Listed, PolygonKey, push_all};
use ordered_lists::{place_of, sort_distinct};
use std::alloc::{AllocError, Global};
use tl_layout::Body7;

/// CFCC and LANAME of a landmark.
type LandmarkName = ([u8; 3], [u8; 30]);

/// The polygons of the landmark at a place.
#[derive(Drop)]
pub(crate) struct LinkKeys<'a, C: Chart> {
    pub(crate) chart: &'a C,
    pub(crate) place: usize,
}

impl<C: Chart> Listed for LinkKeys<'_, C> {
    ghost use Rattle.tl_number.specs.KeptLandmarks.{link_keys_at};

    type Item = PolygonKey;

    ghost items = { λ l. link_keys_at (C.county l.chart.now) l.place };

    fn count(&self) -> usize {
        self.chart.link_count_at(self.place)
    }

    fn item(&self, place: usize) -> PolygonKey {
        let link = self.chart.landmark_link_there(self.place, place);
        (link.cenid(), link.polyid())
    }
}

/// Returns CFCC and LANAME of the first of a landmark's contents.
fn name_of(body: Option<Body7>) -> Option<LandmarkName>
    ensures { result ≡ option_map landmark_name body }
{
    match body {
        Some(body) => Some((body.cfcc(), body.laname())),
        None => None,
    }
}

fn name_at<C: Chart>(chart: &C, place: usize) -> Option<LandmarkName>
    ensures { result ≡ first_name (bodies_at (C.county chart.now) place) }
{
    name_of(chart.landmark_body_at(place, 0))
}

fn has_any(keys: &Interner<PolygonKey>, others: &[PolygonKey]) -> bool
    ensures { result ≡ list_any (λ key. contains key_cmp key keys.now) others.now }
{
    others.iter().any(|key| has_key(keys, *key))
}

/// Checks whether the landmark at a place has one of these polygons. Replaces what `here` holds by its polygons.
fn has_polygon<C: Chart>(
    chart: &C,
    polygons: &Interner<PolygonKey>,
    place: usize,
    here: &mut Vec<PolygonKey>,
) -> Result<bool, AllocError>
    ensures { IfOk result (λ has. has ≡ list_any (λ key. contains key_cmp key polygons.now) (link_keys_at (C.county chart.now) place)) }
{
    here.clear();
    push_all(here, &LinkKeys { chart, place })?;
    Ok(has_any(polygons, here))
}

/// Adds the name of the landmark at a place, if it has one of these polygons.
fn add_name<C: Chart>(
    chart: &C,
    polygons: &Interner<PolygonKey>,
    place: usize,
    here: &mut Vec<PolygonKey>,
    names: &mut Vec<LandmarkName>,
) -> Result<(), AllocError>
    ensures { OnOk result (names.new.items ≡ names.old.items ++ name_if_linked (C.county chart.now) polygons.now place) }
{
    let has = has_polygon(chart, polygons, place, here)?;
    if has {
        push_if_some(names, name_at(chart, place))?;
    }
    Ok(())
}

/// Returns the names of the landmarks with one of these polygons.
fn names_with<C: Chart>(
    alloc: Global,
    chart: &C,
    polygons: &Interner<PolygonKey>,
) -> Result<Vec<LandmarkName>, AllocError>
    ensures { IfOk result (λ names. names.items ≡ names_linked (C.county chart.now) polygons.now) }
{
    let mut here = Vec::new(alloc);
    let mut names = Vec::new(alloc);
    for place in 0..chart.landmark_count() {
        add_name(chart, polygons, place, &mut here, &mut names)?;
    }
    Ok(names)
}

fn is_one_of(names: &[LandmarkName], name: Option<LandmarkName>) -> bool
    requires { IsInOrder landmark_name_cmp names.now }
    ensures { result ≡ list_any (λ name. contains landmark_name_cmp name names.now) (option_to_list name) }
{
    match name {
        Some(name) => place_of::<LandmarkName>(names, name).is_some(),
        None => false,
    }
}

/// Checks whether the landmark at a place has one of these names.
fn is_named<C: Chart>(chart: &C, names: &[LandmarkName], place: usize) -> bool
    requires { IsInOrder landmark_name_cmp names.now }
    ensures { result ≡ has_name names.now (bodies_at (C.county chart.now) place) }
{
    is_one_of(names, name_at(chart, place))
}

/// Returns the places of the landmarks with one of these names.
fn places_named<C: Chart>(
    alloc: Global,
    chart: &C,
    names: &[LandmarkName],
) -> Result<Vec<u32>, AllocError>
    requires few { length (C.county chart.now).landmarks < 2 ^ 32 }
    requires in_order { IsInOrder landmark_name_cmp names.now }
    ensures { IfOk result (λ places. places.items
        ≡ filter (λ place. has_name names.now (bodies_at (C.county chart.now) place)) (range_with_len 0 (length (C.county chart.now).landmarks))) }
{
    let mut places = Vec::new(alloc);
    for place in 0..chart.landmark_count() {
        let named = is_named(chart, names, place);
        if !named {
            continue;
        }
        places.push(place as u32)?;
    }
    Ok(places)
}

/// Returns the polygons that first appear at a place still open.
fn opened<C: Chart>(
    alloc: Global,
    chart: &C,
    still_open: &StillOpen,
) -> Result<Vec<PolygonKey>, AllocError>
    ensures { IfOk result (λ polygons. polygons.items ≡ opened_polygons (C.county chart.now) still_open.now) }
{
    let groups = PolygonKeys(chart, still_open.by_shape());
    let (_, polygons) = see_along(alloc, still_open.open_places(), &groups)?;
    Ok(polygons)
}

/// Returns the places of the landmarks with the name of one that has a polygon which first appears at a place still open.
fn places_opened<C: Chart>(
    alloc: Global,
    chart: &C,
    still_open: &StillOpen,
) -> Result<Vec<u32>, AllocError>
    requires { length (C.county chart.now).landmarks < 2 ^ 32 }
    ensures { IfOk result (λ places. places.items
        ≡ filter (λ place. has_name (names_linked (C.county chart.now) (opened_polygons (C.county chart.now) still_open.now)) (bodies_at (C.county chart.now) place))
        (range_with_len 0 (length (C.county chart.now).landmarks))) }
{
    let keys = opened(alloc, chart, still_open)?;
    let polygons = interned(alloc, &keys)?;
    let mut names = names_with(alloc, chart, &polygons)?;
    sort_distinct(&mut names);
    places_named(alloc, chart, &names)
}

/// Returns the places of the landmarks that are kept.
pub(crate) fn kept_landmarks<C: Chart>(
    alloc: Global,
    chart: &C,
    still_open: &StillOpen,
) -> Result<Vec<u32>, AllocError>
    requires few { length (C.county chart.now).landmarks < 2 ^ 32 }
    requires within { AreWithin (length still_open.now.by_shape) still_open.now.places }
    ensures { IfOk result (λ places. places.items ≡ kept_landmarks (C.county chart.now) still_open.now) }
{
    let polygons = PolygonKeys(chart, still_open.by_shape());
    let moves = any_moves_keys(alloc, still_open.open_places(), &polygons)?;
    if !moves {
        return Ok(Vec::new(alloc));
    }
    places_opened(alloc, chart, still_open)
}
