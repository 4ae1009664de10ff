//! The landmarks of a county in their new order: by their bodies, and then by their links with the new numbers.

ghost use Rattle.std.specs.Prelude.{IfOk, length, map, ◌-◌, ◌<◌, ◌^◌, ◌≡◌};
ghost use Rattle.std.specs.Cmp.Lexicographic.{slice_cmp};
ghost use Rattle.std.specs.Ordering.{nat_cmp, on};
ghost use Rattle.county_chart.specs.BodyOrder.{link_part, link_part_cmp};
ghost use Rattle.county_chart.specs.County.{eight_land};
ghost use Rattle.county_chart.specs.CountyProps.{IsInOrder-prop};
ghost use Rattle.ordered_lists.specs.Orders.{IsInOrder};
ghost use Rattle.canonical_form.specs.WholeArrangements.{AreWhole, link_bounds};
ghost use Rattle.canonical_form.specs.Arrangement.{polygons_in_order};
ghost use Rattle.canonical_form.specs.DirectedChains.{arrangement_of};
ghost use Rattle.arranged_county.specs.LandmarkItems.{AreSortedLandmarks, classed_landmark_cmp, lands_at, links_from};
ghost use Rattle.arranged_county.specs.ContentItems.{classed_place};
ghost use Rattle.arranged_county.specs.ViewFacts.{MatchesLandmarks};
ghost use Rattle.arranged_county.specs.Views.{classed_county};

use crate::arranged_tables::LandmarkTables;
use crate::content_classes::{ClassedPlace, Classes};
use crate::landmark_links::{bounds_of, links_by_place, links_of_landmark, push_with_land};
use crate::numbers::Interner;
use county_chart::{Chart, DirectedChain, PolygonKey};
use std::alloc::{AllocError, Global};
use std::cmp::Ordering;
use tl_layout::Rec8;

/// The fields of a link without its LAND in the order of comparison: POLYID, CENID, FILE.
type LinkBytes = (u64, ([u8; 5], [u8; 5]));

/// Returns the fields of a link in the order of comparison.
fn bytes_of_link(link: &Rec8) -> LinkBytes
    ensures { result ≡ (link.now.polyid, (link.now.cenid, link.now.file)) }
{
    let cenid = link.cenid();
    let file = link.file();
    (link.polyid(), (cenid, file))
}

/// Compares two lists of links without their LANDs.
fn cmp_links(a: &[Rec8], b: &[Rec8]) -> Ordering
    ensures { result ≡ slice_cmp link_part_cmp (map link_part a.now) (map link_part b.now) }
{
    let others = b.iter().map(bytes_of_link);
    a.iter().map(bytes_of_link).cmp(others)
}

/// Links with LANDs counted from 1, and how many have a LAND up to 0, 1, 2, ..
#[derive(Clone, Copy)]
struct LinkLists<'a> {
    links: &'a [Rec8],
    bounds: &'a [usize],
    ghost in_order: { IsInOrder (on eight_land nat_cmp) links.now } by { IsInOrder-prop (on eight_land nat_cmp) links.now },
    ghost some: { 0 < length bounds.now },
    ghost bounded: { bounds.now ≡ link_bounds links.now (length bounds.now - 1) },
}

/// Compares two landmarks: by their classes, their links, their places.
fn cmp_landmarks(lists: &LinkLists<'_>, a: ClassedPlace, b: ClassedPlace) -> Ordering
    ensures { result ≡ classed_landmark_cmp lists.now.links.now (length lists.now.bounds.now - 1) a b }
{
    let classes = a.0.cmp(&b.0);
    if classes.is_ne() {
        return classes;
    }
    let own = links_of_landmark(lists.links, lists.bounds, a.1 as usize);
    let others = links_of_landmark(lists.links, lists.bounds, b.1 as usize);
    let links = cmp_links(own, others);
    if links.is_ne() {
        return links;
    }
    a.1.cmp(&b.1)
}

/// Returns the LANDs at places, one after another.
pub(crate) fn lands_there<C: Chart>(
    alloc: Global,
    chart: &C,
    places: &[u32],
) -> Result<Vec<u64>, AllocError>
    ensures { IfOk result (λ numbers. numbers.items ≡ lands_at (C.county chart.now) places.now) }
{
    places
        .iter()
        .filter_map(|place| chart.land_at(*place as usize))
        .collect(alloc)
}

/// Returns the places of landmarks, one after another.
fn places_of(alloc: Global, landmarks: &[ClassedPlace]) -> Result<Vec<u32>, AllocError>
    ensures { IfOk result (λ places. places.items ≡ map classed_place landmarks.now) }
{
    landmarks.iter().map(|landmark| landmark.1).collect(alloc)
}

/// Returns the places of landmarks, given their classes and their places, in their new order.
fn sorted_places(
    alloc: Global,
    landmarks: &[ClassedPlace],
    lists: &LinkLists<'_>,
) -> Result<Vec<u32>, AllocError>
    ensures { IfOk result (λ places. AreSortedLandmarks lists.now.links.now (length lists.now.bounds.now - 1) landmarks.now places.items) }
{
    let mut sorted = Vec::from_slice(alloc, landmarks)?;
    sorted.sort_unstable_by(|a, b| cmp_landmarks(lists, *a, *b));
    places_of(alloc, &sorted)
}

/// Returns the links of the landmarks at these places, landmark after landmark, with LANDs counted from 1.
fn links_along(
    alloc: Global,
    lists: &LinkLists<'_>,
    places: &[u32],
) -> Result<Vec<Rec8>, AllocError>
    requires { length places.now < 2 ^ 32 }
    ensures { IfOk result (λ links. links.items ≡ links_from lists.now.links.now (length lists.now.bounds.now - 1) 1 places.now) }
{
    let mut links = Vec::with_capacity(alloc, lists.links.len())?;
    let mut land = 1;
    for place in places {
        let own = links_of_landmark(lists.links, lists.bounds, *place as usize);
        push_with_land(&mut links, own, land)?;
        land += 1;
    }
    Ok(links)
}

/// Returns the landmarks of a county in this arrangement. Its polygons are numbered in the order of `polygons`.
pub(crate) fn arrange_landmarks<C: Chart>(
    alloc: Global,
    classes: &Classes<'_, C>,
    arrangement: &[DirectedChain],
    polygons: &Interner<PolygonKey>,
) -> Result<LandmarkTables, AllocError>
    requires whole { AreWhole (classed_county classes.now) arrangement.now }
    requires polygons { polygons.now ≡ polygons_in_order (classed_county classes.now) (arrangement_of (classed_county classes.now) arrangement.now) }
    requires few_polygons { length polygons.now < 10 ^ 10 }
    requires few { length (classed_county classes.now).landmarks < 2 ^ 32 }
    ensures { IfOk result (MatchesLandmarks (classed_county classes.now) arrangement.now) }
{
    let chart = classes.chart;
    let count = chart.landmark_count();
    let by_place = links_by_place(alloc, chart, polygons)?;
    let counts = bounds_of(alloc, &by_place, count)?;
    let lists = LinkLists {
        links: by_place.as_slice(),
        bounds: counts.as_slice(),
    };
    let places = sorted_places(alloc, &classes.landmarks, &lists)?;
    let links = links_along(alloc, &lists, &places)?;
    let bounds = bounds_of(alloc, &links, count)?;
    Ok(LandmarkTables {
        places,
        links,
        bounds,
    })
}
