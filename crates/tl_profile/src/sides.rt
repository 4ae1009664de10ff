//! Polygons with a record of type P that are on no side of a chain.

ghost use Rattle.std.specs.Prelude.{IfErr, IfOk, OnOk, slice_get, ◌++◌, ◌≡◌};
ghost use Rattle.county_chart.specs.County.{County};
ghost use Rattle.county_chart.specs.CountyRules.{is_without_chain, polygons_along};
ghost use Rattle.county_chart.specs.PolygonKeys.{key_cmp};
ghost use Rattle.county_chart.specs.Profile.{AreAllOnSides, IsFirstBrokenClause};
ghost use Rattle.ordered_lists.specs.Keyed.{IsLeastPassing};
ghost use Rattle.ordered_lists.specs.Orders.{distinct};
ghost use Rattle.tl_profile.specs.Sides.{key_if_bodied, keys_on, keys_with_body};

use county_chart::{Chart, PolygonKey, ProfileFault, least_unknown};
use ordered_lists::sort_distinct;
use std::alloc::{AllocError, Global};
use tl_layout::Side;

/// Appends the polygon on a side, if there is one.
fn push_polygon(polygons: &mut Vec<PolygonKey>, side: Option<Side>) -> Result<(), AllocError>
    ensures { OnOk result (polygons.new.items ≡ polygons.old.items ++ keys_on side) }
{
    if let Some(side) = side {
        let cenid = side.cenid();
        if let Some(polyid) = side.polyid() {
            polygons.push((cenid, polyid))?;
        }
    }
    Ok(())
}

/// Returns the polygons on the sides of chains, in order and without repetition.
fn sides_in_order<C: Chart>(alloc: Global, chart: &C) -> Result<Vec<PolygonKey>, AllocError>
    ensures { IfOk result (λ keys. keys.items ≡ distinct key_cmp (polygons_along (C.county chart.now).chains)) }
{
    let mut polygons = Vec::new(alloc);
    for place in 0..chart.chain_count() {
        push_polygon(&mut polygons, chart.left_at(place))?;
        push_polygon(&mut polygons, chart.right_at(place))?;
    }
    sort_distinct::<PolygonKey>(&mut polygons);
    Ok(polygons)
}

/// Returns the key of the polygon at a place, if it has a record of type P.
fn key_with_body<C: Chart>(chart: &C, place: usize) -> Option<PolygonKey>
    ensures { result ≡ key_if_bodied (slice_get (C.county chart.now).polygons place) }
{
    match chart.polygon_body_at(place) {
        Some(Some(_)) => chart.polygon_key_at(place),
        _ => None,
    }
}

/// Returns the polygons with a record of type P, in order.
fn polygons_with_body<C: Chart>(alloc: Global, chart: &C) -> Result<Vec<PolygonKey>, AllocError>
    ensures { IfOk result (λ keys. keys.items ≡ keys_with_body (C.county chart.now).polygons) }
{
    (0..chart.polygon_count())
        .filter_map(|place| key_with_body(chart, place))
        .collect(alloc)
}

/// Returns the least polygon with a record of type P that is on no side of a chain, by the bytes of the CENID and then by POLYID.
pub(crate) fn least_without_chain<C: Chart>(
    alloc: Global,
    chart: &C,
) -> Result<Option<PolygonKey>, AllocError>
    ensures { IfOk result (IsLeastPassing key_cmp (is_without_chain (C.county chart.now))) }
{
    let sides = sides_in_order(alloc, chart)?;
    let bodies = polygons_with_body(alloc, chart)?;
    Ok(least_unknown::<PolygonKey, PolygonKey, PolygonKey>(&bodies, &sides))
}

/// Checks the clause on polygons: each polygon with a record of type P is on a side of a chain. `least` is the least polygon
/// that isn't, if there is one.
pub(crate) fn refuse_without_chain(least: Option<PolygonKey>) -> Result<(), ProfileFault>
    ensures all { OnOk result ((county : County) → IsLeastPassing key_cmp (is_without_chain county) least → AreAllOnSides county) }
    ensures broken { IfErr result (λ fault. (county : County) → IsLeastPassing key_cmp (is_without_chain county) least
        → IsFirstBrokenClause county fault) }
{
    if let Some(key) = least {
        let cenid = key.0;
        let polyid = key.1;
        return Err(ProfileFault::PolygonWithoutChain { cenid, polyid });
    }
    Ok(())
}
