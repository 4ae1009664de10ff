//! The one way from a set to a product of its map: the set is linked and admitted, put under a mask and into canonical form.

ghost use Rattle.std.specs.Prelude.{IfErr, IfOk, List, ℕ, ◌≡◌};
ghost use Rattle.tigercanon.specs.Faults.{RefusesSpelled, ReportsRefusalOfRead};
ghost use Rattle.tigercanon.specs.Sets.{IsCanonSetInView, IsLinkedSet, IsViewedSet};
ghost use Rattle.county_chart.specs.MaskedCounty.{masked};
ghost use Rattle.tl_layout.specs.declared.mask.Mask.{Mask};
ghost use Rattle.arranged_county.specs.Views.{arranged_county, source_of};

use crate::fault::Fault;
use crate::library::linked::{UnlinkedSet, admitted_county};
use bumpalo::Bump;
use std::alloc::{AllocError, Global};
use tl_county::{Chart, LinkedRecords};
use tl_layout::Mask;
use tl_number::{CanonCounty, admitted_masked, canonise_alone};
use tl_profile::Admitted;

/// A product that is made from the canonical county of a set, with a device such as a sink, or with `()` if it needs none.
pub(crate) trait Product<D>: Drop + Sized {
    /// The type of the product.
    type Out: Drop;

    /// The product can be made with this device.
    ghost IsReady: { Self → D → Type 0 };

    /// From a set of these parts under this mask this product is made, with this device before and after.
    ghost Answers: { Mask → List (List ℕ) → Self → D → Self.Out → D → Type 0 };

    /// Makes the product from the canonical county of a set under this mask.
    fn of<C: Chart>(
        self,
        alloc: Global,
        county: &CanonCounty<C>,
        device: &mut D,
        mask: Mask,
    ) -> Self::Out
        requires { IsReady self device.old }
        ensures { (parts : List (List ℕ))
            → IsCanonSetInView (masked mask) parts (C.county (source_of county.now)) (arranged_county county.now)
            → Answers mask parts self device.old result device.new };
}

/// Makes the product from an admitted county that is under this mask already.
fn make_masked<D, P: Product<D>, C: Chart + Drop>(
    alloc: Global,
    admitted: Admitted<C>,
    product: P,
    device: &mut D,
    mask: Mask,
) -> Result<P::Out, AllocError>
    requires { P.IsReady product device.old }
    ensures made { IfOk result (λ made. (parts : List (List ℕ)) → IsViewedSet (masked mask) parts (C.county admitted)
        → P.Answers mask parts product device.old made device.new) }
    ensures untouched { IfErr result (λ _. device.new ≡ device.old) }
{
    let county = canonise_alone(alloc, admitted)?;
    let made = product.of(alloc, &county, device, mask);
    // Trick: one call for the prover, which otherwise reads the drop of each table.
    drop(county);
    Ok(made)
}

/// Makes the product from linked records under a mask. Their county is kept in their tables and an arena. A mask that leaves nothing
/// out costs nothing.
pub(crate) fn make_of_linked<'a, D, P: Product<D>>(
    alloc: Global,
    arena: &'a Bump,
    linked: &'a LinkedRecords,
    product: P,
    device: &mut D,
    mask: Mask,
) -> Result<P::Out, Fault>
    requires { P.IsReady product device.old }
    ensures made { IfOk result (λ made. (parts : List (List ℕ)) → IsLinkedSet parts linked.now
        → P.Answers mask parts product device.old made device.new) }
    ensures refused { IfErr result (λ fault. (parts : List (List ℕ)) → IsLinkedSet parts linked.now → RefusesSpelled parts fault) }
    ensures untouched { IfErr result (λ _. device.new ≡ device.old) }
{
    let admitted = admitted_county(alloc, arena, linked)?;
    if mask.is_none() {
        return Ok(make_masked(alloc, admitted, product, device, mask)?);
    }
    let masked_county = admitted_masked(alloc, admitted, mask)?;
    Ok(make_masked(alloc, masked_county, product, device, mask)?)
}

pub(crate) fn make_of<S: UnlinkedSet, D, P: Product<D>>(
    alloc: Global,
    set: S,
    product: P,
    device: &mut D,
    mask: Mask,
) -> Result<P::Out, Fault>
    requires set { S.IsReady set }
    requires device { P.IsReady product device.old }
    ensures made { (parts : List (List ℕ)) → S.Says set parts
        → IfOk result (λ made. P.Answers mask parts product device.old made device.new) }
    ensures refused { (parts : List (List ℕ)) → S.Says set parts → IfErr result (ReportsRefusalOfRead parts) }
{
    let linked = set.link(alloc)?;
    let arena = Bump::new(alloc);
    make_of_linked(alloc, &arena, &linked, product, device, mask)
}
