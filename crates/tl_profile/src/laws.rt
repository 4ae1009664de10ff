//! Laws of the definitions in `specs/`. The functions do nothing; their contracts are the laws.

ghost use Rattle.std.specs.Prelude.{◌≡◌, ◌⊎◌};
ghost use Rattle.county_chart.specs.Choices.{choices};
ghost use Rattle.county_chart.specs.County.{County};
ghost use Rattle.county_chart.specs.CountyRules.{IsCounty};
ghost use Rattle.county_chart.specs.Profile.{IsFirstBrokenClause, IsInProfile};
ghost use Rattle.county_chart.specs.Renumbering.{AreSame};
ghost use Rattle.county_chart.specs.declared.profile_fault.ProfileFault.{ProfileFault};

/// A county is in the profile, or exactly one clause is the first that it breaks, never both.
#[tactic(auto, using(county_chart::proofs::Profile::ProfileFaults::profile_has_none, county_chart::proofs::Profile::ProfileFaults::one_first_clause))]
pub fn in_profile_or_one_first_broken_clause()
    ensures either { (county : County) →
        IsInProfile county ⊎ ((fault : ProfileFault) × IsFirstBrokenClause county fault) }
    ensures not_both { (county : County) (fault : ProfileFault) →
        IsInProfile county → IsFirstBrokenClause county fault → ⊥ }
    ensures only_one { (county : County) (fault other : ProfileFault) →
        IsFirstBrokenClause county fault → IsFirstBrokenClause county other → fault ≡ other }
{}

/// If two counties are the same, both are in the profile or neither is.
pub fn same_counties_agree_on_the_profile()
    ensures forth { (a b : County) → AreSame a b → IsInProfile a → IsInProfile b }
    ensures back { (a b : County) → IsCounty a → IsCounty b → AreSame a b → IsInProfile b → IsInProfile a }
{}

/// Counties that are the same leave equally many choices open.
#[tactic(auto, using(county_chart::proofs::Profile::SameChoices::same_choices))]
pub fn same_counties_have_equal_choices()
    ensures { (a b : County) → AreSame a b → choices a ≡ choices b }
{}
