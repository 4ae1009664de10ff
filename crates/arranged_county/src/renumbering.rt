//! New numbers for old ones, by first appearance. A number that wasn't seen stays the same.

ghost use Rattle.std.specs.Ordering.{nat_cmp};
ghost use Rattle.std.specs.Prelude.{length, map, ◌<◌, ◌^◌, ◌≡◌};
ghost use Rattle.county_chart.specs.PolygonKeys.{key_cmp};
ghost use Rattle.ordered_lists.specs.Pairs.{image};
ghost use Rattle.tl_layout.specs.Numbers.{IsNumber};
ghost use Rattle.canonical_form.specs.Arrangement.{under_cenid};
ghost use Rattle.canonical_form.specs.Growth.{numbered};

use crate::numbers::Interner;
use county_chart::PolygonKey;

/// Returns the new FEAT of a name.
pub(crate) fn new_feat(feats: &Interner<u32>, feat: u32) -> u32
    requires { length feats.now < 2 ^ 32 }
    ensures { result ≡ image nat_cmp (numbered feats.now) feat }
{
    match feats.place(feat) {
        Some(place) => place as u32 + 1,
        None => feat,
    }
}

/// Returns the new key of a polygon: its CENID with its new POLYID. A polygon that wasn't seen keeps its key.
pub(crate) fn new_key(polygons: &Interner<PolygonKey>, key: PolygonKey) -> PolygonKey
    ensures image { result ≡ image key_cmp (map under_cenid (numbered polygons.now)) key }
    ensures cenid { result.0 ≡ key.0 }
    ensures in_range { IsNumber 10 key.1 → length polygons.now < 10 ^ 10 → IsNumber 10 result.1 }
{
    match polygons.place(key) {
        Some(place) => {
            let cenid = key.0;
            (cenid, place as u64 + 1)
        }
        None => key,
    }
}
