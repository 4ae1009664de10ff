//! Laws of the definitions in `specs/`. The functions do nothing; their contracts are the laws.

ghost use Rattle.std.specs.List.{AllByRecursion};
ghost use Rattle.std.specs.Prelude.{IsPermutation, List, map, ℕ, ◌≡◌, ◌⊎◌};
ghost use Rattle.county_chart.specs.Renumbering.{AreSame, Carries, Renumbering, identity, inverse, then};
ghost use Rattle.county_chart.specs.County.{County, county_of};
ghost use Rattle.county_chart.specs.CountyRules.{IsCounty};
ghost use Rattle.county_chart.specs.Limits.{IsWithinLimits};
ghost use Rattle.county_chart.specs.LinkRules.{IsFirstBrokenRule, IsLinked};
ghost use Rattle.county_chart.specs.Packing.{packed};
ghost use Rattle.county_chart.specs.declared.fault.LinkFault.{LinkFault};
ghost use Rattle.tl_county.specs.Repacked.{IsSplit, KeepsSequence, LeavesEmptyOut, Sequence, resequenced};
ghost use Rattle.tl_layout.specs.Limits.{IsWithinLimit};
ghost use Rattle.tl_layout.specs.RecordText.{FitsRecord};
ghost use Rattle.tl_layout.specs.declared.record_type.Record.{Record};

/// `AreSame` is an equivalence of counties.
#[tactic(auto, using(county_chart::proofs::Sameness::Equivalence::laws_of_sameness))]
pub fn sameness_is_an_equivalence()
    ensures reflexive { (a : County) → AreSame a a }
    ensures symmetric { (a b : County) → IsCounty a → IsCounty b → AreSame a b → AreSame b a }
    ensures transitive { (a b c : County) → IsCounty a → IsCounty b → AreSame a b → AreSame b c → AreSame a c }
{}

/// The identity carries a county onto itself. The inverse of a renaming carries back. Two renamings, one after the other, carry as
/// one.
pub fn renamings_compose()
    ensures identity { (a : County) → Carries (identity a) a a }
    ensures inverse { (r : Renumbering) (a b : County) → IsCounty a → IsCounty b → Carries r a b → Carries (inverse r) b a }
    ensures then { (r next : Renumbering) (a b c : County) →
        IsCounty a → IsCounty b → Carries r a b → Carries next b c → Carries (then r next) a c }
{}

/// A list of records either is linked or has exactly one first broken rule.
#[tactic(auto, using(county_chart::proofs::Rules::LinkFaults::linked_has_none, county_chart::proofs::Rules::LinkFaults::one_first_rule))]
pub fn linked_or_one_first_broken_rule()
    ensures either { (records : List Record) →
        IsLinked records ⊎ ((fault : LinkFault) × IsFirstBrokenRule records fault) }
    ensures not_both { (records : List Record) (fault : LinkFault) →
        IsLinked records → IsFirstBrokenRule records fault → ⊥ }
    ensures only_one { (records : List Record) (fault other : LinkFault) →
        IsFirstBrokenRule records fault → IsFirstBrokenRule records other → fault ≡ other }
{}

/// In the county of a linked list of records the numbers ascend, and each number that a part names exists.
pub fn linked_records_have_a_well_formed_county()
    ensures { (records : List Record) → IsLinked records → IsCounty (county_of records) }
{}

/// If linked records fit, and there are at most `limit` of each type, their county is within its limits.
pub fn linked_records_have_a_county_within_limits()
    ensures { (limit : ℕ) (records : List Record) →
        IsLinked records → AllByRecursion FitsRecord records → IsWithinLimit limit records →
        IsWithinLimits limit (county_of records) }
{}

/// A county within its limits is packed into records that fit.
pub fn counties_within_limits_are_packed_into_records_that_fit()
    ensures { (limit : ℕ) (county : County) →
        IsCounty county → IsWithinLimits limit county → AllByRecursion FitsRecord (packed county) }
{}

/// Linked records stay linked, and their county stays the same, if they are reordered, if a record of type 2 or 4 is split or two
/// are joined again, if one that holds nothing is left out, and if other RTSQs keep the order of each chain's records.
pub fn the_county_is_what_the_records_say()
    ensures reordered { (records others : List Record) →
        IsPermutation records others → IsLinked records → IsLinked others × (county_of others ≡ county_of records) }
    ensures split { (records split : List Record) →
        IsSplit records split → IsLinked records → IsLinked split × (county_of split ≡ county_of records) }
    ensures joined { (records split : List Record) →
        IsSplit records split → IsLinked split → IsLinked records × (county_of records ≡ county_of split) }
    ensures left_out { (records others : List Record) →
        LeavesEmptyOut records others → IsLinked records → IsLinked others × (county_of others ≡ county_of records) }
    ensures resequenced { (sequence : Sequence) (records : List Record) →
        KeepsSequence sequence records → IsLinked records →
        IsLinked (map (resequenced sequence) records) × (county_of (map (resequenced sequence) records) ≡ county_of records) }
{}
