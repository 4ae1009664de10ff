//! The links of a county's landmarks with new numbers, in order, and the links of one landmark among them.

ghost use Rattle.std.specs.Prelude.{IfOk, IsPermutation, OnOk, flat_map, length, map, slice_get, ◌++◌, ◌+◌, ◌-◌, ◌<◌, ◌^◌, ◌≡◌};
ghost use Rattle.std.specs.List.{range_with_len};
ghost use Rattle.std.specs.Ordering.{nat_cmp, on};
ghost use Rattle.tl_layout.specs.Numbers.{IsNumber};
ghost use Rattle.county_chart.specs.BodyOrder.{link_cmp};
ghost use Rattle.county_chart.specs.ChartWords.{links_at, links_with};
ghost use Rattle.county_chart.specs.CountyRules.{lands};
ghost use Rattle.county_chart.specs.County.{eight_land};
ghost use Rattle.ordered_lists.specs.Orders.{IsInOrder};
ghost use Rattle.canonical_form.specs.Growth.{up_to};
ghost use Rattle.canonical_form.specs.WholeArrangements.{link_bounds};
ghost use Rattle.arranged_county.specs.LandmarkItems.{link_in, numbered_links, with_land};

use crate::numbers::Interner;
use crate::renumbering::new_key;
use county_chart::{Chart, LinkKey, PolygonKey, are_in_order, sort_by_keys, split_group};
use ordered_lists::bring_close;
use std::alloc::{AllocError, Global};
use tl_layout::Rec8;

/// The new numbers of polygons, and the new LAND of a landmark.
#[derive(Drop)]
struct NewNumbers<'a> {
    polygons: &'a Interner<PolygonKey>,
    land: u64,
    ghost few_polygons: { length polygons.now < 10 ^ 10 },
    ghost in_range: { IsNumber 10 land },
}

/// Returns a link with the new number of its polygon, and with the new LAND.
fn renumbered_link(numbers: &NewNumbers<'_>, link: &Rec8) -> Rec8
    ensures { result ≡ link_in numbers.now.polygons.now numbers.now.land link.now }
{
    let cenid = link.cenid();
    let key = new_key(numbers.polygons, (cenid, link.polyid()));
    Rec8::new(link.file(), cenid, key.1, numbers.land)
}

/// Returns a number that is in the order of links by LAND and POLYID, unless it overflows. POLYIDs are up to `polygons`.
fn near_number(link: &Rec8, polygons: u64) -> u64 {
    let lands = link.land().wrapping_mul(polygons.wrapping_add(1));
    lands.wrapping_add(link.polyid())
}

/// Appends the links of the landmark at a place with their new numbers.
fn push_links<C: Chart>(
    links: &mut Vec<Rec8>,
    chart: &C,
    numbers: &NewNumbers<'_>,
    place: usize,
) -> Result<(), AllocError>
    ensures { OnOk result (links.new.items
        ≡ links.old.items ++ map (link_in numbers.now.polygons.now numbers.now.land) (links_at (C.county chart.now) place)) }
{
    let own = (0..chart.link_count_at(place)).filter_map(|link| chart.landmark_link_at(
        place, link,
    ));
    links.extend(own.map(|link| renumbered_link(numbers, &link)))
}

/// Returns the links of a county, landmark after landmark, with these numbers of their polygons, and with LANDs counted from 1.
fn gather_links<C: Chart>(
    alloc: Global,
    chart: &C,
    polygons: &Interner<PolygonKey>,
) -> Result<Vec<Rec8>, AllocError>
    requires few_polygons { length polygons.now < 10 ^ 10 }
    requires few { length (C.county chart.now).landmarks < 2 ^ 32 }
    ensures { IfOk result (λ links. links.items ≡ flat_map (λ place. map (link_in polygons.now (place + 1)) (links_at (C.county chart.now) place))
        (range_with_len 0 (length (C.county chart.now).landmarks))) }
{
    let mut links = Vec::new(alloc);
    for place in 0..chart.landmark_count() {
        let land = place as u64 + 1;
        push_links(&mut links, chart, &NewNumbers { polygons, land }, place)?;
    }
    Ok(links)
}

/// Brings links close to the order of their LANDs and POLYIDs. POLYIDs are up to `polygons`.
fn bring_close_by_land(
    alloc: Global,
    links: &mut Vec<Rec8>,
    polygons: u64,
) -> Result<(), AllocError>
    ensures { IsPermutation links.old.items links.new.items }
{
    let numbers = links
        .iter()
        .map(|link| near_number(link, polygons))
        .collect(alloc)?;
    bring_close(links, numbers)
}

/// Puts links in order. POLYIDs are up to `polygons`. Links that aren't in order yet are first brought close to it.
fn order_links(alloc: Global, links: &mut Vec<Rec8>, polygons: u64) -> Result<(), AllocError>
    ensures permutation { IsPermutation links.old.items links.new.items }
    ensures in_order { OnOk result (IsInOrder link_cmp links.new.items) }
{
    if are_in_order::<LinkKey, Rec8>(links) {
        return Ok(());
    }
    bring_close_by_land(alloc, links, polygons)?;
    sort_by_keys::<LinkKey, Rec8>(links)
}

/// Returns the links of a county in order, with these numbers of their polygons, and with LANDs counted from 1.
pub(crate) fn links_by_place<C: Chart>(
    alloc: Global,
    chart: &C,
    polygons: &Interner<PolygonKey>,
) -> Result<Vec<Rec8>, AllocError>
    requires few_polygons { length polygons.now < 10 ^ 10 }
    requires few { length (C.county chart.now).landmarks < 2 ^ 32 }
    ensures { IfOk result (λ links. links.items ≡ numbered_links (C.county chart.now) polygons.now (lands (C.county chart.now))) }
{
    let mut links = gather_links(alloc, chart, polygons)?;
    order_links(alloc, &mut links, polygons.len() as u64)?;
    Ok(links)
}

/// Returns for each of 0, 1, 2, .., up to `count`, how many links have a LAND up to it.
pub(crate) fn bounds_of(
    alloc: Global,
    links: &[Rec8],
    count: usize,
) -> Result<Vec<usize>, AllocError>
    requires in_order { IsInOrder (on eight_land nat_cmp) links.now }
    requires few { count < 2 ^ 32 }
    ensures { IfOk result (λ bounds. bounds.items ≡ link_bounds links.now count) }
{
    let mut bounds = Vec::with_capacity(alloc, count + 1)?;
    let mut rest = links;
    for land in 0..count + 1 {
        let (_, later) = split_group::<u64, Rec8>(rest, land as u64);
        rest = later;
        bounds.push(links.len() - rest.len())?;
    }
    Ok(bounds)
}

/// Returns the links of the landmark at a place, for LANDs counted from 1. `bounds` are how many links have a LAND up to 0, 1, 2, ..
pub(crate) fn links_of_landmark<'a>(links: &'a [Rec8], bounds: &[usize], place: usize) -> &'a [Rec8]
    requires in_order { IsInOrder (on eight_land nat_cmp) links.now }
    requires some { 0 < length bounds.now }
    requires bounds { bounds.now ≡ link_bounds links.now (length bounds.now - 1) }
    ensures { result.now ≡ links_with links.now (slice_get (up_to (length bounds.now - 1)) place) }
{
    if place >= bounds.len() - 1 {
        return &links[..0];
    }
    let start = bounds[place];
    let end = bounds[place + 1];
    let (_, rest) = links.split_at(start);
    let (own, _) = rest.split_at(end - start);
    own
}

/// Appends links with another LAND.
pub(crate) fn push_with_land(
    links: &mut Vec<Rec8>,
    own: &[Rec8],
    land: u64,
) -> Result<(), AllocError>
    requires { IsNumber 10 land }
    ensures { OnOk result (links.new.items ≡ links.old.items ++ map (with_land land) own.now) }
{
    for link in own {
        links.push(Rec8::new(link.file(), link.cenid(), link.polyid(), land))?;
    }
    Ok(())
}
