//! Sets, the records that are linked from them, and their county, which reads the records' tables.

ghost use Rattle.std.specs.Prelude.{IfErr, IfOk, IfSome, List, OnOk, [], ℕ, ◌≡◌};
ghost use Rattle.tigercanon.specs.Comparing.{IsAcceptable};
ghost use Rattle.tigercanon.specs.Faults.{RefusesSpelled, ReportsRefusalOfRead};
ghost use Rattle.tigercanon.specs.Sets.{IsLinkedSet, IsViewedSet};
ghost use Rattle.county_chart.specs.County.{county_of};
ghost use Rattle.county_chart.specs.Packing.{type_after_type};
ghost use Rattle.canonical_form.specs.CountyViews.{plain};

use crate::fault::Fault;
use crate::library::reading::load;
use bumpalo::Bump;
use std::alloc::Global;
use tl_county::{Chart, CountyOver, LinkFault, LinkedRecords, link_in_order};
use tl_layout::Tables;
use tl_load::LoaderFor;
use tl_profile::{Admitted, admit_linked};

/// A set that isn't linked yet.
pub(crate) trait UnlinkedSet: Drop + Sized {
    /// The set can be linked.
    ghost IsReady: { Self → Type 0 };

    /// These are the parts of the set.
    ghost Says: { Self → List (List ℕ) → Type 0 };

    /// Links the records of the set.
    fn link(self, alloc: Global) -> Result<LinkedRecords, Fault>
        requires { IsReady self }
        ensures linked { (parts : List (List ℕ)) → Says self parts → IfOk result (IsLinkedSet parts) }
        ensures refused { (parts : List (List ℕ)) → Says self parts → IfErr result (ReportsRefusalOfRead parts) };
}

/// Parts in memory.
impl<'a, 'b> UnlinkedSet for &'a [&'b [u8]] {
    ghost use Rattle.tigercanon.specs.LentParts.{bytes_of_parts};

    ghost IsReady = { λ _. Unit {0} };

    ghost Says = { λ slices parts. parts ≡ bytes_of_parts slices.now };

    fn link(self, alloc: Global) -> Result<LinkedRecords, Fault> {
        let tables: Tables = load(alloc, self)?;
        Ok(link_in_order(alloc, tables)?)
    }
}

/// What a loader was fed, if it has no fault of a device.
impl UnlinkedSet for LoaderFor<Tables> {
    ghost use Rattle.tl_layout.specs.Limits.{most_records};
    ghost use Rattle.tl_layout.specs.Tables.{HoldsByType};
    ghost use Rattle.tl_load.specs.Keeping.{WasFedInto};
    ghost use Rattle.tl_load.specs.Loaded.{IsNotDevice};

    ghost IsReady = { λ loader. ((parts : List (List ℕ)) × WasFedInto HoldsByType most_records loader parts [])
        × IfSome loader.fault IsNotDevice };

    ghost Says = { λ loader parts. WasFedInto HoldsByType most_records loader parts [] };

    fn link(self, alloc: Global) -> Result<LinkedRecords, Fault> {
        let tables = self.finish()?;
        Ok(link_in_order(alloc, tables)?)
    }
}

/// Returns the county of linked records, over their tables and an arena, which outlive it.
fn county_of_linked<'a>(
    alloc: Global,
    arena: &'a Bump,
    linked: &'a LinkedRecords,
) -> Result<CountyOver<'a>, Fault>
    ensures county { IfOk result (λ county. ⟦<CountyOver<'a> as Chart>⟧.county county ≡ county_of (type_after_type linked.now)) }
    // A failed allocation is reported as one of linking.
    ensures memory { IfErr result (λ fault. fault ≡ Fault.Link LinkFault.Memory) }
{
    match linked.county(alloc, arena) {
        Ok(county) => Ok(county),
        Err(error) => Err(Fault::Link(LinkFault::from(error))),
    }
}

/// Returns the admitted county of linked records. It is kept in their tables and an arena, which outlive it.
pub(crate) fn admitted_county<'a>(
    alloc: Global,
    arena: &'a Bump,
    linked: &'a LinkedRecords,
) -> Result<Admitted<CountyOver<'a>>, Fault>
    ensures view { IfOk result (λ admitted. (parts : List (List ℕ)) → IsLinkedSet parts linked.now
        → IsViewedSet plain parts (⟦<CountyOver<'a> as Chart>⟧.county admitted)) }
    ensures refused { IfErr result (λ fault. (parts : List (List ℕ)) → IsLinkedSet parts linked.now → RefusesSpelled parts fault) }
{
    let county = county_of_linked(alloc, arena, linked)?;
    Ok(admit_linked(alloc, county, linked.polygon_without_chain())?)
}

/// Checks whether a set is accepted.
pub(crate) fn judge<S: UnlinkedSet>(alloc: Global, set: S) -> Result<(), Fault>
    requires { S.IsReady set }
    ensures accepted { (parts : List (List ℕ)) → S.Says set parts → OnOk result (IsAcceptable parts) }
    ensures refused { (parts : List (List ℕ)) → S.Says set parts → IfErr result (ReportsRefusalOfRead parts) }
{
    let linked = set.link(alloc)?;
    let arena = Bump::new(alloc);
    admitted_county(alloc, &arena, &linked)?;
    Ok(())
}
