//! Admission: a county in the profile is kept as such. For any other county, the first clause that it breaks is reported.

ghost use Rattle.std.specs.Prelude.{IfErr, IfOk, ◌≡◌, ◌≢◌};
ghost use Rattle.county_chart.specs.CountyRules.{is_without_chain};
ghost use Rattle.county_chart.specs.PolygonKeys.{key_cmp};
ghost use Rattle.county_chart.specs.Profile.{AreAllOnSides, IsFirstBrokenClause, IsInProfile};
ghost use Rattle.county_chart.specs.ShapeOrder.{IsShapeOrder};
ghost use Rattle.county_chart.specs.declared.profile_fault.ProfileFault.TheVariants.{Memory};
ghost use Rattle.ordered_lists.specs.Keyed.{IsLeastPassing};

use crate::open_places::MOST_CHOICES;
use crate::shape_order::{ShapeOrder, order_by_shape};
use crate::sides::{least_without_chain, refuse_without_chain};
use county_chart::{Chart, County, CountyIn, PolygonKey, ProfileFault};
use std::alloc::Global;
use std::marker::Model;

/// A county in the profile, however it is stored: each polygon with a record of type P is on a side of a chain, and the shapes
/// of the chains leave at most 5,040 choices open. It keeps the order of its chains by their shapes, which the choices are
/// counted by.
#[derive(Drop)]
pub struct Admitted<C: Chart = County> {
    chart: C,
    shape_order: ShapeOrder,
}

impl<C: Chart> Model for Admitted<C> {
    ghost use Rattle.county_chart.specs.Profile.{IsInProfile};
    ghost use Rattle.county_chart.specs.ShapeOrder.{IsShapeOrder};

    ghost Value = { C };

    ghost view = { λ a. a.chart };

    ghost invariant = { λ a. IsInProfile (C.county a.chart) × IsShapeOrder (C.county a.chart) a.shape_order };
}

impl<C: Chart> Admitted<C> {
    /// Makes an admitted county from a county that is known to be in the profile, and the order of its chains by their shapes.
    pub fn known(chart: C, shape_order: ShapeOrder) -> Admitted<C>
        requires profile { IsInProfile (C.county chart) }
        requires shapes { IsShapeOrder (C.county chart) shape_order }
        ensures value { result ≡ chart }
        ensures same { C.county result ≡ C.county chart }
    {
        Admitted { chart, shape_order }
    }

    /// Returns the county.
    pub fn county(&self) -> &C
        ensures value { result.now ≡ self.now }
        ensures in_profile { IsInProfile (C.county self.now) }
    {
        &self.chart
    }

    /// Returns the chains in the order of their shapes.
    pub fn shape_order(&self) -> &ShapeOrder
        ensures { IsShapeOrder (C.county self.now) result.now }
    {
        &self.shape_order
    }

    /// Returns the county and the order of its chains by their shapes.
    pub fn into_parts(self) -> (C, ShapeOrder)
        ensures value { result.0 ≡ self }
        ensures same { C.county result.0 ≡ C.county self }
        ensures in_profile { IsInProfile (C.county result.0) }
        ensures shapes { IsShapeOrder (C.county result.0) result.1 }
    {
        (self.chart, self.shape_order)
    }
}

/// A county in an arena, in the profile.
pub type AdmittedIn<'a> = Admitted<CountyIn<'a>>;

/// Checks the clause on choices, for a county that keeps the clause on polygons: at most as many choices are open as are tried.
/// Returns the order of the chains by their shapes, which it needs to count the choices.
fn check_choices<C: Chart>(alloc: Global, chart: &C) -> Result<ShapeOrder, ProfileFault>
    requires { AreAllOnSides (C.county chart.now) }
    ensures shape_order { IfOk result (IsShapeOrder (C.county chart.now)) }
    ensures within { IfOk result (λ _. IsInProfile (C.county chart.now)) }
    ensures broken { IfErr result (λ fault. fault ≢ Memory → IsFirstBrokenClause (C.county chart.now) fault) }
{
    let shape_order = order_by_shape(alloc, chart)?;
    if shape_order.choices() > MOST_CHOICES {
        return Err(ProfileFault::TooSymmetric);
    }
    Ok(shape_order)
}

/// Admits a county, however it is stored, if it is in the profile.
fn admit_kept<C: Chart + Drop>(alloc: Global, chart: C) -> Result<Admitted<C>, ProfileFault>
    ensures same { IfOk result (λ admitted. admitted ≡ chart) }
    ensures within { IfOk result (λ admitted. IsInProfile (C.county admitted)) }
    ensures broken { IfErr result (λ fault. fault ≢ Memory → IsFirstBrokenClause (C.county chart) fault) }
    // For a county in the profile, `Memory` is the only possible fault.
    ensures succeeds { IsInProfile (C.county chart) → IfErr result (λ fault. fault ≡ Memory) }
{
    let without_chain = least_without_chain(alloc, &chart)?;
    admit_linked(alloc, chart, without_chain)
}

/// Admits a county if it is in the profile, but doesn't search the sides: `without_chain` is the least polygon that has a
/// record of type P and is on no side of a chain, or `None`, as linking found it.
///
/// # Errors
///
/// The first clause that the county breaks, at its lowest place, or [`ProfileFault::Memory`] if an allocation failed.
pub fn admit_linked<C: Chart + Drop>(
    alloc: Global,
    chart: C,
    without_chain: Option<PolygonKey>,
) -> Result<Admitted<C>, ProfileFault>
    requires { IsLeastPassing key_cmp (is_without_chain (C.county chart)) without_chain }
    ensures same { IfOk result (λ admitted. admitted ≡ chart) }
    ensures within { IfOk result (λ admitted. IsInProfile (C.county admitted)) }
    ensures broken { IfErr result (λ fault. fault ≢ Memory → IsFirstBrokenClause (C.county chart) fault) }
    // For a county in the profile, `Memory` is the only possible fault.
    ensures succeeds { IsInProfile (C.county chart) → IfErr result (λ fault. fault ≡ Memory) }
{
    refuse_without_chain(without_chain)?;
    let shape_order = check_choices(alloc, &chart)?;
    Ok(Admitted { chart, shape_order })
}

/// Admits a county if it is in the profile.
///
/// # Errors
///
/// The first clause that the county breaks, at its lowest place, or [`ProfileFault::Memory`] if an allocation failed.
pub fn admit(alloc: Global, county: County) -> Result<Admitted, ProfileFault>
    ensures same { IfOk result (λ admitted. admitted ≡ county) }
    ensures within { IfOk result (λ admitted. IsInProfile (⟦<County as Chart>⟧.county admitted)) }
    ensures broken { IfErr result (λ fault. fault ≢ Memory → IsFirstBrokenClause (⟦<County as Chart>⟧.county county) fault) }
    // For a county in the profile, `Memory` is the only possible fault.
    ensures succeeds { IsInProfile (⟦<County as Chart>⟧.county county) → IfErr result (λ fault. fault ≡ Memory) }
{
    admit_kept(alloc, county)
}

/// Admits a county in an arena if it is in the profile.
///
/// # Errors
///
/// The first clause that the county breaks, at its lowest place, or [`ProfileFault::Memory`] if an allocation failed.
pub fn admit_in<'a>(alloc: Global, county: CountyIn<'a>) -> Result<AdmittedIn<'a>, ProfileFault>
    ensures same { IfOk result (λ admitted. admitted ≡ county.entry) }
    ensures within { IfOk result (λ admitted. IsInProfile (⟦<CountyIn<'a> as Chart>⟧.county admitted)) }
    ensures broken { IfErr result (λ fault. fault ≢ Memory → IsFirstBrokenClause (⟦<CountyIn<'a> as Chart>⟧.county county.entry) fault) }
    // For a county in the profile, `Memory` is the only possible fault.
    ensures succeeds { IsInProfile (⟦<CountyIn<'a> as Chart>⟧.county county.entry) → IfErr result (λ fault. fault ≡ Memory) }
{
    admit_kept(alloc, county)
}
