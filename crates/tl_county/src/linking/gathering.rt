//! What linking gathers from tables in order: uses of names, linked polygons, and all polygons, with whether each is on a side.

ghost use Rattle.std.specs.Prelude.{IfOk, IsPermutation, OnOk, flat_map, map, ◌++◌, ◌≡◌};
ghost use Rattle.std.specs.List.Sorted.{IsStrictlySortedBy};
ghost use Rattle.std.specs.Ordering.{on};
ghost use Rattle.county_chart.specs.County.{link_key, p_key, side_keys};
ghost use Rattle.county_chart.specs.BodyOrder.{bytes_cmp};
ghost use Rattle.county_chart.specs.PolygonKeys.{key_cmp};
ghost use Rattle.county_chart.specs.SequenceKeys.{sequence_cmp, uses_of};
ghost use Rattle.ordered_lists.specs.Keyed.{IsLeastPassing, is_unknown};
ghost use Rattle.ordered_lists.specs.Orders.{IsInOrder, distinct};

use crate::keys::absent::least_absent;
use crate::keys::polygon_set::{cenids_of, distinct_polygons};
use crate::keys::repeated::keys_of;
use county_chart::{Keyed, PolygonKey};
use ordered_lists::sort_keys;
use std::alloc::{AllocError, Global};
use tl_layout::{Rec4, Rec8, RecI, RecP};

/// Appends the FEATs that a type 4 record names, each with its TLID.
fn push_uses(uses: &mut Vec<(u64, u32)>, names: &Rec4) -> Result<(), AllocError>
    ensures { OnOk result (uses.new.items ≡ uses.old.items ++ uses_of names.now) }
{
    let tlid = names.tlid();
    uses.extend(names.feats().iter().map(|feat| (tlid, *feat)))
}

/// Returns each FEAT that a type 4 record names, with its TLID, in order.
pub(crate) fn uses_in_order(alloc: Global, names: &[Rec4]) -> Result<Vec<(u64, u32)>, AllocError>
    ensures in_order { IfOk result (λ uses. IsInOrder sequence_cmp uses.items) }
    ensures same { IfOk result (λ uses. IsPermutation (flat_map uses_of names.now) uses.items) }
{
    let mut uses = Vec::new(alloc);
    for record4 in names {
        push_uses(&mut uses, record4)?;
    }
    sort_keys::<(u64, u32)>(&mut uses);
    Ok(uses)
}

/// Returns the polygons of the type 8 records, in order.
pub(crate) fn linked_polygons(alloc: Global, links: &[Rec8]) -> Result<Vec<PolygonKey>, AllocError>
    ensures in_order { IfOk result (λ keys. IsInOrder key_cmp keys.items) }
    ensures same { IfOk result (λ keys. IsPermutation (map link_key links.now) keys.items) }
{
    let mut keys = keys_of::<PolygonKey, Rec8>(alloc, links)?;
    sort_keys::<PolygonKey>(&mut keys);
    Ok(keys)
}

/// Appends the polygons of type P records.
fn push_points(polygons: &mut Vec<PolygonKey>, points: &[RecP]) -> Result<(), AllocError>
    ensures { OnOk result (polygons.new.items ≡ polygons.old.items ++ map p_key points.now) }
{
    polygons.extend(points.iter().map(|point| point.key()))
}

/// Returns the CENIDs of most polygons on sides, in order. They are read from the type P records, since usually each polygon has one.
fn likely_cenids(alloc: Global, sides: &[RecI], points: &[RecP]) -> Result<Vec<[u8; 5]>, AllocError>
    ensures { IfOk result (λ cenids. IsStrictlySortedBy bytes_cmp cenids.items) }
{
    if points.is_empty() {
        return cenids_of::<RecI>(alloc, sides);
    }
    cenids_of::<RecP>(alloc, points)
}

/// The polygons on sides and of type P records.
#[derive(Drop)]
pub(crate) struct GatheredPolygons {
    /// The polygons in order, each once.
    pub(crate) keys: Vec<PolygonKey>,
    /// The least polygon that has a type P record and is on no side.
    pub(crate) without_side: Option<PolygonKey>,
}

/// Returns the polygons on sides and of type P records; the type P records must be in order. Usually each polygon of type P is on a side;
/// then the polygons on sides are all of them.
pub(crate) fn gather_polygons(
    alloc: Global,
    sides: &[RecI],
    points: &[RecP],
) -> Result<GatheredPolygons, AllocError>
    requires { IsInOrder (on p_key key_cmp) points.now }
    ensures keys { IfOk result (λ polygons. polygons.keys.items ≡ distinct key_cmp (flat_map side_keys sides.now ++ map p_key points.now)) }
    ensures without_side { IfOk result (λ polygons.
        IsLeastPassing key_cmp (is_unknown key_cmp (map p_key points.now) (flat_map side_keys sides.now)) polygons.without_side) }
{
    let cenids = likely_cenids(alloc, sides, points)?;
    let mut keys = distinct_polygons::<RecI>(alloc, cenids, sides)?;
    let without_side = least_absent::<PolygonKey, RecP, PolygonKey>(points, &keys);
    if without_side.is_some() {
        push_points(&mut keys, points)?;
        let cenids = cenids_of::<PolygonKey>(alloc, &keys)?;
        keys = distinct_polygons::<PolygonKey>(alloc, cenids, &keys)?;
    }
    Ok(GatheredPolygons { keys, without_side })
}
