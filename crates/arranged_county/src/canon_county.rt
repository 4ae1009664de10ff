//! The canonical county.

use crate::arranged::{Arranged, Evidence};
use county_chart::{County, CountyIn};

/// The fact that a county is in canonical form: the points of its chains determine their directions and order; if these leave a
/// choice, it is the one with the least text; all numbers follow from these, and the county is the same map as its source
/// county.
#[derive(Drop)]
pub struct Canonical;

impl Evidence for Canonical {
    ghost use Rattle.county_chart.specs.Renumbering.{AreSame};
    ghost use Rattle.canonical_form.specs.CanonCounties.{IsCanonCounty};

    ghost holds = { λ source county. IsCanonCounty county × AreSame source county };
}

/// A county in canonical form, read through its source county, which is the same map.
pub type CanonCounty<C = County> = Arranged<C, Canonical>;

/// A canonical county, read through a county in an arena.
pub type CanonCountyIn<'a> = CanonCounty<CountyIn<'a>>;
