//! Whether two sets describe the same map, as they are or under a mask.

ghost use Rattle.std.specs.Prelude.{Err, IfErr, IfOk, List, MatchResult, Ok, Some, false, if◌then◌else◌, true, ℕ, ◌≡◌, ◌≢◌};
ghost use Rattle.tigercanon.specs.Comparing.{AreDifferent, AreDifferentInView, AreOneMap, AreOneMapInView, IsAcceptable, ReportsMemoryOfAccepted, ReportsRefusalOfOne, ReportsRefusalOfOneRead};
ghost use Rattle.tigercanon.specs.Faults.{ReportsRefusalOfRead};
ghost use Rattle.tigercanon.specs.LentParts.{bytes_of_parts};
ghost use Rattle.tigercanon.specs.Refusals.{reported_of};
ghost use Rattle.tigercanon.specs.declared.fault.Fault.{Fault};
ghost use Rattle.tigercanon.specs.Findings.{Finding, IsFound, IsFoundOfCounties, finding_of};
ghost use Rattle.tigercanon.specs.Findings.Finding.{OneMap, TwoMaps};
ghost use Rattle.tigercanon.specs.Sets.{CarriesSet, CarriesSetInView, IsCanonSetInView};
ghost use Rattle.tigercanon.specs.Statuses.{stopped_by};
ghost use Rattle.county_chart.specs.MaskedCounty.{masked};
ghost use Rattle.county_chart.specs.Packing.{packed};
ghost use Rattle.county_chart.specs.Renumbering.{Carries, Renumbering};
ghost use Rattle.arranged_county.specs.Views.{arranged_county, source_of};

use crate::fault::Fault;
use crate::library::linked::UnlinkedSet;
use crate::library::making::{Product, make_of};
use canonical_records::same_records;
use renamings::Renaming;
use std::alloc::{AllocError, Global};
use std::marker::PhantomData;
use std::{fmt, str};
use thiserror::Error;
use tl_county::Chart;
use tl_layout::Mask;
use tl_load::LoadFault;
use tl_number::CanonCounty;

/// The number of the first set in a fault.
pub const FIRST: u8 = 1;

/// The number of the second set in a fault.
pub const SECOND: u8 = 2;

/// The result of comparing two sets.
#[derive(Debug, Drop)]
pub enum Verdict {
    /// The sets describe the same map: the renaming carries the county of the first set onto the second's.
    Same(Renaming),
    /// The sets are different maps: no renaming carries one county onto the other.
    Different,
}

/// Why comparing two sets has no result.
#[derive(Clone, Copy, Debug, PartialEq, Eq, Error)]
pub enum CompareFault {
    /// One of the sets is refused, or an allocation failed while it was judged or put into canonical form.
    In {
        /// The set: 1 or 2.
        set: u8,
        /// What the set is refused for, or a failed allocation.
        fault: Fault,
    },
    /// Both sets are accepted, and an allocation failed for the verdict.
    Memory,
}

/// The line of the fault's report, which names the set.
impl fmt::Display for CompareFault {
    ghost output = { λ fault. Some (reported_of (stopped_by fault).fault (stopped_by fault).set) };

    fn fmt<W: fmt::Write>(&self, f: &mut fmt::Formatter<W>) -> fmt::Result {
        let line = match self {
            CompareFault::In { set, fault } => fault.line(Some(*set)),
            CompareFault::Memory => Fault::Memory.line(None),
        };
        match str::from_utf8(line.as_slice()) {
            Ok(text) => f.write_str(text),
            Err(_) => Err(fmt::Error),
        }
    }
}

/// Returns the outcome of a step on one of two sets. A fault gets the number of that set.
pub(crate) fn tag_set<T: Drop>(set: u8, outcome: Result<T, Fault>) -> Result<T, CompareFault>
    ensures ok { IfOk result (λ value. outcome ≡ Ok value) }
    ensures err { IfErr result (λ reported. (fault : Fault) × (outcome ≡ Err fault) × (reported ≡ CompareFault.In set fault)) }
{
    match outcome {
        Ok(value) => Ok(value),
        Err(fault) => Err(CompareFault::In { set, fault }),
    }
}

/// What a comparison of two canonical counties returns.
pub(crate) trait Comparison: Drop + Sized {
    /// The finding that it states.
    ghost finding: { Self → Finding };

    /// Compares the counties that two canonical counties were made from.
    fn of<A: Chart, B: Chart>(alloc: Global, a: &CanonCounty<A>, b: &CanonCounty<B>) -> Self
        ensures { IsFoundOfCounties (A.county (source_of a.now)) (B.county (source_of b.now))
            (arranged_county a.now) (arranged_county b.now) (finding result) };
}

/// Returns the renaming onto the county that `b` was made from, of the county that `a` was made from. The two canonical counties have the
/// same records.
fn renaming_between<A: Chart, B: Chart>(
    alloc: Global,
    a: &CanonCounty<A>,
    b: &CanonCounty<B>,
) -> Result<Renaming, AllocError>
    requires { packed (arranged_county a.now) ≡ packed (arranged_county b.now) }
    ensures { IfOk result (λ r. Carries r (A.county (source_of a.now)) (B.county (source_of b.now))) }
{
    let there = a.renaming(alloc)?;
    let onto = b.renaming(alloc)?;
    let back = onto.inverse()?;
    there.then(&back)
}

/// If the canonical counties have the same records, the renaming of the county that the first was made from onto the county that
/// the second was made from.
impl Comparison for Result<Verdict, AllocError> {
    ghost finding = { finding_of };

    fn of<A: Chart, B: Chart>(
        alloc: Global,
        a: &CanonCounty<A>,
        b: &CanonCounty<B>,
    ) -> Result<Verdict, AllocError> {
        if !same_records(a, b) {
            return Ok(Verdict::Different);
        }
        Ok(Verdict::Same(renaming_between(alloc, a, b)?))
    }
}

/// Whether the counties are the same map. This takes no memory.
impl Comparison for bool {
    ghost finding = { λ is_one_map. if is_one_map then OneMap else TwoMaps };

    fn of<A: Chart, B: Chart>(_alloc: Global, a: &CanonCounty<A>, b: &CanonCounty<B>) -> bool {
        same_records(a, b)
    }
}

/// Compares two canonical counties: `first`, and the county of the product's set.
#[derive(Drop)]
struct Compared<'a, A: Chart, V> {
    first: &'a CanonCounty<A>,
    comparison: PhantomData<V>,
}

impl<'a, A: Chart, V: Comparison> Product<()> for Compared<'a, A, V> {
    type Out = V;

    ghost IsReady = { λ _ _. Unit {0} };

    ghost Answers = { λ mask b self _ comparison _. (a : List (List ℕ))
        → IsCanonSetInView (masked mask) a (A.county (source_of self.first.now)) (arranged_county self.first.now)
        → IsFound (masked mask) a b (V.finding comparison) };

    fn of<B: Chart>(
        self,
        alloc: Global,
        county: &CanonCounty<B>,
        _device: &mut (),
        _mask: Mask,
    ) -> V {
        V::of(alloc, self.first, county)
    }
}

/// Compares the canonical county of the product's set with `second`, a set that isn't linked yet.
#[derive(Drop)]
struct Against<S, V> {
    second: S,
    comparison: PhantomData<V>,
}

impl<S: UnlinkedSet, V: Comparison> Product<()> for Against<S, V> {
    type Out = Result<V, Fault>;

    ghost IsReady = { λ self _. S.IsReady self.second };

    ghost Answers = { λ mask a self _ made _. (b : List (List ℕ)) → S.Says self.second b
        → MatchResult made (λ comparison. IsFound (masked mask) a b (V.finding comparison))
        (λ fault. IsAcceptable a × ReportsRefusalOfRead b fault) };

    fn of<A: Chart>(
        self,
        alloc: Global,
        county: &CanonCounty<A>,
        device: &mut (),
        mask: Mask,
    ) -> Result<V, Fault> {
        let compared = Compared {
            first: county,
            comparison: PhantomData,
        };
        make_of(alloc, self.second, compared, device, mask)
    }
}

/// Compares two sets that aren't linked yet, under a mask. The first set is judged completely before the second is linked.
pub(crate) fn compare_unlinked<A: UnlinkedSet, B: UnlinkedSet, V: Comparison>(
    alloc: Global,
    first: A,
    second: B,
    mask: Mask,
) -> Result<V, CompareFault>
    requires first { A.IsReady first }
    requires second { B.IsReady second }
    ensures found { (a b : List (List ℕ)) → A.Says first a → B.Says second b
        → IfOk result (λ comparison. IsFound (masked mask) a b (V.finding comparison)) }
    ensures refused { (a b : List (List ℕ)) → A.Says first a → B.Says second b → IfErr result (ReportsRefusalOfOneRead a b) }
{
    let against = Against {
        second,
        comparison: PhantomData,
    };
    let made = tag_set(FIRST, make_of(alloc, first, against, &mut (), mask))?;
    tag_set(SECOND, made)
}

/// Checks whether two sets of parts describe the same map: some renumbering and turning of chains carries the county of the first set onto
/// the second's. If so, returns such a renaming. The first set is judged completely before the second is looked at.
///
/// # Errors
///
/// [`CompareFault::In`] with what a set is refused for, as [`crate::check`] reports it, or with a memory fault if an allocation
/// failed for that set. [`CompareFault::Memory`] if an allocation failed for the verdict.
#[tactic(auto, using(crate::proofs::Masking::none_is_plain))]
pub fn compare(alloc: Global, a: &[&[u8]], b: &[&[u8]]) -> Result<Verdict, CompareFault>
    // The sets describe the same map only if both are accepted and this renaming carries the first onto the second,
    ensures same { (r : Renumbering) → result ≡ Ok (Verdict.Same r) → CarriesSet r (bytes_of_parts a.now) (bytes_of_parts b.now) }
    // and different only if both are accepted and no renaming does.
    ensures different { result ≡ Ok Verdict.Different → AreDifferent (bytes_of_parts a.now) (bytes_of_parts b.now) }
    // Otherwise one of them is refused, the second only if the first is accepted.
    ensures refused { IfErr result (ReportsRefusalOfOne (bytes_of_parts a.now) (bytes_of_parts b.now)) }
    ensures no_device { (set : ℕ) → result ≢ Err (CompareFault.In set (Fault.Load LoadFault.Device)) }
    // For an accepted set the only fault is a failed allocation.
    ensures succeeds { IfErr result (ReportsMemoryOfAccepted (bytes_of_parts a.now) (bytes_of_parts b.now)) }
{
    compare_masked(alloc, a, b, Mask::NONE)
}

/// Checks whether two sets of parts describe the same map under a mask, as [`compare`] does without a mask: the renaming carries the first
/// set's county under the mask onto the second's under it.
///
/// # Errors
///
/// As for [`compare`], whatever the mask is.
pub fn compare_masked(
    alloc: Global,
    a: &[&[u8]],
    b: &[&[u8]],
    mask: Mask,
) -> Result<Verdict, CompareFault>
    // The sets describe the same map only if both are accepted and this renaming carries the first onto the second under the mask,
    ensures same { (r : Renumbering) → result ≡ Ok (Verdict.Same r) →
        CarriesSetInView (masked mask) r (bytes_of_parts a.now) (bytes_of_parts b.now) }
    // and different only if both are accepted and no renaming does.
    ensures different { result ≡ Ok Verdict.Different → AreDifferentInView (masked mask) (bytes_of_parts a.now) (bytes_of_parts b.now) }
    // Otherwise one of them is refused, the second only if the first is accepted.
    ensures refused { IfErr result (ReportsRefusalOfOne (bytes_of_parts a.now) (bytes_of_parts b.now)) }
    ensures no_device { (set : ℕ) → result ≢ Err (CompareFault.In set (Fault.Load LoadFault.Device)) }
    // For an accepted set the only fault is a failed allocation.
    ensures succeeds { IfErr result (ReportsMemoryOfAccepted (bytes_of_parts a.now) (bytes_of_parts b.now)) }
{
    let found: Result<Verdict, AllocError> = compare_unlinked(alloc, a, b, mask)?;
    match found {
        Ok(verdict) => Ok(verdict),
        Err(_) => Err(CompareFault::Memory),
    }
}

/// Checks whether two sets of parts describe the same map, as for [`compare`], but without making the renaming.
///
/// # Errors
///
/// As for [`compare`], but each names a set: [`CompareFault::Memory`] doesn't occur.
#[tactic(auto, using(crate::proofs::Masking::none_is_plain))]
pub fn are_one_map(alloc: Global, a: &[&[u8]], b: &[&[u8]]) -> Result<bool, CompareFault>
    // The sets describe the same map only if both are accepted and some renaming carries the first onto the second,
    ensures same { result ≡ Ok true → AreOneMap (bytes_of_parts a.now) (bytes_of_parts b.now) }
    // and different only if both are accepted and no renaming does.
    ensures different { result ≡ Ok false → AreDifferent (bytes_of_parts a.now) (bytes_of_parts b.now) }
    // Otherwise one of them is refused, the second only if the first is accepted.
    ensures refused { IfErr result (ReportsRefusalOfOne (bytes_of_parts a.now) (bytes_of_parts b.now)) }
    ensures no_device { (set : ℕ) → result ≢ Err (CompareFault.In set (Fault.Load LoadFault.Device)) }
    ensures names_set { result ≢ Err CompareFault.Memory }
    // For an accepted set the only fault is a failed allocation.
    ensures succeeds { IfErr result (ReportsMemoryOfAccepted (bytes_of_parts a.now) (bytes_of_parts b.now)) }
{
    are_one_map_masked(alloc, a, b, Mask::NONE)
}

/// Checks whether two sets of parts describe the same map under a mask, as for [`compare_masked`], but without making the renaming.
///
/// # Errors
///
/// As for [`are_one_map`], whatever the mask is.
pub fn are_one_map_masked(
    alloc: Global,
    a: &[&[u8]],
    b: &[&[u8]],
    mask: Mask,
) -> Result<bool, CompareFault>
    // The sets describe the same map only if both are accepted and some renaming carries the first onto the second under the mask,
    ensures same { result ≡ Ok true → AreOneMapInView (masked mask) (bytes_of_parts a.now) (bytes_of_parts b.now) }
    // and different only if both are accepted and no renaming does.
    ensures different { result ≡ Ok false → AreDifferentInView (masked mask) (bytes_of_parts a.now) (bytes_of_parts b.now) }
    // Otherwise one of them is refused, the second only if the first is accepted.
    ensures refused { IfErr result (ReportsRefusalOfOne (bytes_of_parts a.now) (bytes_of_parts b.now)) }
    ensures no_device { (set : ℕ) → result ≢ Err (CompareFault.In set (Fault.Load LoadFault.Device)) }
    ensures names_set { result ≢ Err CompareFault.Memory }
    // For an accepted set the only fault is a failed allocation.
    ensures succeeds { IfErr result (ReportsMemoryOfAccepted (bytes_of_parts a.now) (bytes_of_parts b.now)) }
{
    compare_unlinked(alloc, a, b, mask)
}
