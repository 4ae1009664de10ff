//! Whether choices can have the keys of chains in another order.
//!
//! Chains of one shape mostly have the same polygons on the same sides. Wherever they stand, the polygons are in the same order then.

ghost use Rattle.std.specs.Prelude.{IfOk, length, ◌<◌, ◌||◌, ◌≡◌};
ghost use Rattle.std.specs.List.{list_any};
ghost use Rattle.canonical_form.specs.MovedChains.{AreWithin, IsWithin};
ghost use Rattle.record_groups.specs.Groups.{group_at};
ghost use Rattle.tl_number.specs.MovedKeys.{are_other, moves_keys};

use crate::key_groups::KeyGroups;
use county_chart::compare;
use std::alloc::{AllocError, Global};
use tl_profile::OpenPlace;

/// Checks whether the chain at a place has other keys than these. Replaces what `here` holds by its keys.
fn has_other_keys<G: KeyGroups>(
    groups: &G,
    place: usize,
    keys: &[G::Item],
    here: &mut Vec<G::Item>,
) -> Result<bool, AllocError>
    requires { place < length (G.groups groups.now) }
    ensures { IfOk result (λ other. other ≡ are_other G.Item.cmp keys.now (group_at (G.groups groups.now) place)) }
{
    groups.copy_keys(place, here)?;
    Ok(compare(&keys, &here.as_slice()).is_ne())
}

fn either(one: bool, other: bool) -> bool
    ensures { result ≡ (one || other) }
{
    one || other
}

/// Checks whether an open place can turn its chain, or moves one with other keys.
fn moves_keys_at<G: KeyGroups>(alloc: Global, groups: &G, at: OpenPlace) -> Result<bool, AllocError>
    requires { IsWithin (length (G.groups groups.now)) at }
    ensures { IfOk result (λ moves. moves ≡ moves_keys G.Item.cmp (G.groups groups.now) at) }
{
    let first = at.place as usize;
    let mut keys = Vec::new(alloc);
    groups.copy_keys(first, &mut keys)?;
    let mut here = Vec::new(alloc);
    let mut moves = at.either_way;
    for behind in 0..at.alike as usize {
        let other = has_other_keys(groups, first + behind, &keys, &mut here)?;
        moves = either(moves, other);
    }
    Ok(moves)
}

/// Checks whether one of these open places can turn its chain, or moves one with other keys.
pub(crate) fn any_moves_keys<G: KeyGroups>(
    alloc: Global,
    places: &[OpenPlace],
    groups: &G,
) -> Result<bool, AllocError>
    requires { AreWithin (length (G.groups groups.now)) places.now }
    ensures { IfOk result (λ moves. moves ≡ list_any (moves_keys G.Item.cmp (G.groups groups.now)) places.now) }
{
    let mut moves = false;
    for at in places {
        let here = moves_keys_at(alloc, groups, *at)?;
        moves = either(moves, here);
    }
    Ok(moves)
}
