//! The ascending arrangement: each chain in its lesser direction, and the chains in the order of their shapes.

ghost use Rattle.std.specs.Prelude.{IfOk, ◌≡◌};
ghost use Rattle.canonical_form.specs.Arrangement.{ascending};
ghost use Rattle.canonical_form.specs.DirectedChains.{HasChainsOf, arrangement_of};

use county_chart::{Chart, DirectedChain};
use std::alloc::{AllocError, Global};
use tl_profile::{ShapeOrder, order_by_shape};

/// Returns a copy of the directed chains, which are in the order of their shapes.
pub(crate) fn arrangement_in_order(
    alloc: Global,
    shape_order: &ShapeOrder,
) -> Result<Vec<DirectedChain>, AllocError>
    ensures { IfOk result (λ arrangement. arrangement.items ≡ shape_order.now.by_shape) }
{
    Vec::from_slice(alloc, shape_order.by_shape())
}

/// Returns the ascending arrangement of a county: each chain runs so that its points come before their reverse, and the chains are in the
/// order of their points. Chains with equal points stay in the order of their TLIDs.
///
/// # Errors
///
/// `AllocError` if an allocation failed.
pub fn ascending_arrangement<C: Chart>(
    alloc: Global,
    chart: &C,
) -> Result<Vec<DirectedChain>, AllocError>
    ensures arrangement { IfOk result (λ arrangement. arrangement_of (C.county chart.now) arrangement.items ≡ ascending (C.county chart.now)) }
    ensures there { IfOk result (λ arrangement. HasChainsOf (C.county chart.now) arrangement.items) }
{
    let order = order_by_shape(alloc, chart)?;
    arrangement_in_order(alloc, &order)
}
