//! Admitted counties under a mask, and their canonical counties.

ghost use Rattle.std.specs.Prelude.{IfErr, IfOk, true, ◌≡◌};
ghost use Rattle.county_chart.specs.MaskedCounty.{masked};
ghost use Rattle.county_chart.specs.Renumbering.{Carries};
ghost use Rattle.canonical_form.specs.Arrangement.{arranged, renaming_of};
ghost use Rattle.canonical_form.specs.CanonCounties.{IsCanonCounty};
ghost use Rattle.canonical_form.specs.Tidy.{IsLeastChoice};
ghost use Rattle.arranged_county.specs.Views.{arranged_county, arrangement_in, source_of};

use crate::canonising::canonise;
use arranged_county::CanonCounty;
use county_chart::{Chart, CountyIn, Masked};
use renamings::Renaming;
use std::alloc::{AllocError, Global};
use tl_layout::Mask;
use tl_profile::{Admitted, AdmittedIn};

/// Returns an admitted county under a mask. It is in the profile too, and the order of its chains by their shapes is the same: neither
/// depends on a field that a mask leaves out.
///
/// # Errors
///
/// `AllocError` if an allocation failed, and only if the mask leaves out SOURCE.
pub fn admitted_masked<C: Chart + Drop>(
    alloc: Global,
    admitted: Admitted<C>,
    mask: Mask,
) -> Result<Admitted<Masked<C>>, AllocError>
    ensures county { IfOk result (λ masked_chart. ⟦<Masked<C> as Chart>⟧.county masked_chart ≡ masked mask (C.county admitted)) }
    ensures memory { IfErr result (λ error. mask.sources ≡ true) }
{
    let (chart, order) = admitted.into_parts();
    let masked_chart = Masked::new(alloc, chart, mask)?;
    Ok(Admitted::known(masked_chart, order))
}

/// Returns the canonical county of an admitted county under a mask, and the renaming that carries the county under the mask onto it. All
/// fields that the mask leaves out are blank in it, and all counties that are the same map under the mask have the same one.
///
/// # Errors
///
/// `AllocError` if an allocation failed.
pub fn canonise_masked<C: Chart + Drop>(
    alloc: Global,
    admitted: Admitted<C>,
    mask: Mask,
) -> Result<(CanonCounty<Masked<C>>, Renaming), AllocError>
    ensures source { IfOk result (λ pair. ⟦<Masked<C> as Chart>⟧.county (source_of pair.0) ≡ masked mask (C.county admitted)) }
    ensures county { IfOk result
        (λ pair. arranged_county pair.0 ≡ arranged (masked mask (C.county admitted)) (arrangement_in pair.0)) }
    ensures choice { IfOk result (λ pair. IsLeastChoice (masked mask (C.county admitted)) (arrangement_in pair.0)) }
    ensures renaming { IfOk result (λ pair. pair.1 ≡ renaming_of (masked mask (C.county admitted)) (arrangement_in pair.0)) }
    ensures carried { IfOk result (λ pair. Carries pair.1 (masked mask (C.county admitted)) (arranged_county pair.0)) }
    ensures canonical { IfOk result (λ pair. IsCanonCounty (arranged_county pair.0)) }
    // The mask leaves nothing more out of it.
    ensures own { IfOk result (λ pair. masked mask (arranged_county pair.0) ≡ arranged_county pair.0) }
{
    canonise(alloc, admitted_masked(alloc, admitted, mask)?)
}

/// Makes the canonical county of an admitted county in an arena under a mask, and the renaming that carries the county under
/// the mask onto it, like [`canonise_masked`].
///
/// # Errors
///
/// `AllocError` if an allocation failed.
pub fn canonise_in_masked<'a>(
    alloc: Global,
    admitted: AdmittedIn<'a>,
    mask: Mask,
) -> Result<(CanonCounty<Masked<CountyIn<'a>>>, Renaming), AllocError>
    ensures source { IfOk result
        (λ pair. ⟦<Masked<CountyIn<'a>> as Chart>⟧.county (source_of pair.0) ≡ masked mask (⟦<CountyIn<'a> as Chart>⟧.county admitted.entry)) }
    ensures county { IfOk result
        (λ pair. arranged_county pair.0
        ≡ arranged (masked mask (⟦<CountyIn<'a> as Chart>⟧.county admitted.entry)) (arrangement_in pair.0)) }
    ensures choice { IfOk result
        (λ pair. IsLeastChoice (masked mask (⟦<CountyIn<'a> as Chart>⟧.county admitted.entry)) (arrangement_in pair.0)) }
    ensures renaming { IfOk result
        (λ pair. pair.1 ≡ renaming_of (masked mask (⟦<CountyIn<'a> as Chart>⟧.county admitted.entry)) (arrangement_in pair.0)) }
    ensures carried { IfOk result
        (λ pair. Carries pair.1 (masked mask (⟦<CountyIn<'a> as Chart>⟧.county admitted.entry)) (arranged_county pair.0)) }
    ensures canonical { IfOk result (λ pair. IsCanonCounty (arranged_county pair.0)) }
    // The mask leaves nothing more out of it.
    ensures own { IfOk result (λ pair. masked mask (arranged_county pair.0) ≡ arranged_county pair.0) }
{
    canonise_masked(alloc, admitted, mask)
}
