//! Making the canonical county.

ghost use Rattle.std.specs.Prelude.{IfOk, ◌≡◌};
ghost use Rattle.county_chart.specs.Profile.{IsInProfile};
ghost use Rattle.county_chart.specs.Renumbering.{Carries};
ghost use Rattle.county_chart.specs.ShapeOrder.{IsShapeOrder};
ghost use Rattle.canonical_form.specs.Arrangement.{arranged, renaming_of};
ghost use Rattle.canonical_form.specs.CanonCounties.{IsCanonCounty};
ghost use Rattle.canonical_form.specs.Tidy.{IsLeastChoice};
ghost use Rattle.arranged_county.specs.Views.{arranged_county, arrangement_in, source_of};

use crate::least_choice::least_arrangement;
use arranged_county::{CanonCounty, CanonCountyIn, arrange, both, with_evidence};
use county_chart::{Chart, CountyIn};
use renamings::Renaming;
use std::alloc::{AllocError, Global};
use tl_profile::{Admitted, AdmittedIn, ShapeOrder};

/// Returns the canonical county of a county in the profile, from the order of its chains by their shapes.
fn canonise_in_order<C: Chart + Drop>(
    alloc: Global,
    chart: C,
    shape_order: &ShapeOrder,
) -> Result<CanonCounty<C>, AllocError>
    requires profile { IsInProfile (C.county chart) }
    requires shapes { IsShapeOrder (C.county chart) shape_order.now }
    ensures source { IfOk result (λ canon. source_of canon ≡ chart) }
    ensures source_county { IfOk result (λ canon. C.county (source_of canon) ≡ C.county chart) }
    ensures county { IfOk result (λ canon. arranged_county canon ≡ arranged (C.county chart) (arrangement_in canon)) }
    ensures choice { IfOk result (λ canon. IsLeastChoice (C.county chart) (arrangement_in canon)) }
    ensures carried { IfOk result
        (λ canon. Carries (renaming_of (C.county chart) (arrangement_in canon)) (C.county chart)
        (arranged_county canon)) }
    ensures canonical { IfOk result (λ canon. IsCanonCounty (arranged_county canon)) }
{
    let arrangement = least_arrangement(alloc, &chart, shape_order)?;
    let view = arrange(alloc, chart, arrangement)?;
    Ok(with_evidence(view))
}

/// Returns the canonical county of an admitted county, without the renaming onto it. Its chains have the order and the directions that
/// their points decide; what the points leave open is decided by the least text. All other numbers follow, and it is the same map.
///
/// # Errors
///
/// `AllocError` if an allocation failed.
pub fn canonise_alone<C: Chart + Drop>(
    alloc: Global,
    admitted: Admitted<C>,
) -> Result<CanonCounty<C>, AllocError>
    ensures source { IfOk result (λ canon. source_of canon ≡ admitted) }
    ensures source_county { IfOk result (λ canon. C.county (source_of canon) ≡ C.county admitted) }
    ensures county { IfOk result (λ canon. arranged_county canon ≡ arranged (C.county admitted) (arrangement_in canon)) }
    ensures choice { IfOk result (λ canon. IsLeastChoice (C.county admitted) (arrangement_in canon)) }
    ensures carried { IfOk result
        (λ canon. Carries (renaming_of (C.county admitted) (arrangement_in canon)) (C.county admitted)
        (arranged_county canon)) }
    ensures canonical { IfOk result (λ canon. IsCanonCounty (arranged_county canon)) }
{
    let (chart, order) = admitted.into_parts();
    canonise_in_order(alloc, chart, &order)
}

/// Makes the canonical county of an admitted county, and the renaming that carries the admitted county onto it.
///
/// # Errors
///
/// `AllocError` if an allocation failed.
pub fn canonise<C: Chart + Drop>(
    alloc: Global,
    admitted: Admitted<C>,
) -> Result<(CanonCounty<C>, Renaming), AllocError>
    ensures source { IfOk result (λ pair. C.county (source_of pair.0) ≡ C.county admitted) }
    ensures county { IfOk result (λ pair. arranged_county pair.0 ≡ arranged (C.county admitted) (arrangement_in pair.0)) }
    ensures choice { IfOk result (λ pair. IsLeastChoice (C.county admitted) (arrangement_in pair.0)) }
    ensures renaming { IfOk result (λ pair. pair.1 ≡ renaming_of (C.county admitted) (arrangement_in pair.0)) }
    ensures carried { IfOk result (λ pair. Carries pair.1 (C.county admitted) (arranged_county pair.0)) }
    ensures canonical { IfOk result (λ pair. IsCanonCounty (arranged_county pair.0)) }
{
    let canon = canonise_alone(alloc, admitted)?;
    let renaming = canon.renaming(alloc);
    both(canon, renaming)
}

/// Makes the canonical county of an admitted county in an arena, and the renaming that carries the admitted county onto it.
///
/// # Errors
///
/// `AllocError` if an allocation failed.
pub fn canonise_in<'a>(
    alloc: Global,
    admitted: AdmittedIn<'a>,
) -> Result<(CanonCountyIn<'a>, Renaming), AllocError>
    ensures source { IfOk result
        (λ pair. ⟦<CountyIn<'a> as Chart>⟧.county (source_of pair.0) ≡ ⟦<CountyIn<'a> as Chart>⟧.county admitted.entry) }
    ensures county { IfOk result
        (λ pair. arranged_county pair.0 ≡ arranged (⟦<CountyIn<'a> as Chart>⟧.county admitted.entry) (arrangement_in pair.0)) }
    ensures choice { IfOk result
        (λ pair. IsLeastChoice (⟦<CountyIn<'a> as Chart>⟧.county admitted.entry) (arrangement_in pair.0)) }
    ensures renaming { IfOk result
        (λ pair. pair.1 ≡ renaming_of (⟦<CountyIn<'a> as Chart>⟧.county admitted.entry) (arrangement_in pair.0)) }
    ensures carried { IfOk result
        (λ pair. Carries pair.1 (⟦<CountyIn<'a> as Chart>⟧.county admitted.entry) (arranged_county pair.0)) }
    ensures canonical { IfOk result (λ pair. IsCanonCounty (arranged_county pair.0)) }
{
    canonise(alloc, admitted)
}
