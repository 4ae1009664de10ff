//! The steps after admission within whole calls, with growths refused as requested.

ghost use Rattle.std.specs.Prelude.{◌≡◌};
ghost use Rattle.canonical_form.specs.Arrangement.{ascending};
ghost use Rattle.canonical_form.specs.DirectedChains.{HasChainsOf, arrangement_of};
ghost use Rattle.county_chart.specs.Profile.{IsInProfile};

use super::super::Host;
use super::super::comparing::same;
use super::linking::carries_onto;
use super::{answered, ended};
use std::alloc::{AllocError, Global};
use test_support::growths::{Call, Run, has_refused, refuse};
use test_support::sets::{Set, admitted_of};
use tigercanon::Fault;
use tl_cert::Renaming;
use tl_county::{Chart, DirectedChain};
use tl_number::{Arranged, arrange, ascending_arrangement, canonise_alone};
use tl_profile::Admitted;
use tl_write::{CountedOut, write_to};

/// The text of an admitted county, in memory.
fn text_of_admitted<C: Chart + Drop>(
    alloc: Global,
    admitted: Admitted<C>,
) -> Result<Vec<u8>, Fault> {
    let county = canonise_alone(alloc, admitted)?;
    let mut sink = CountedOut::new(Vec::new(alloc));
    let written = write_to(&county, &mut sink);
    drop(county);
    match written {
        Ok(_) => Ok(sink.into_inner()),
        // A vector fails only where it can't grow.
        Err(_) => Err(Fault::Memory),
    }
}

/// The canonical county, and its text in memory.
pub(super) struct WriteAdmitted;

impl<R: Host> Call<R> for WriteAdmitted {
    fn run(&self, rt: &R, set: &Set<'_>, asked: usize) -> Run {
        let admitted = admitted_of(rt.alloc(), set.bytes).expect(rt, set.row);
        refuse(rt.alloc(), asked);
        ended(rt, text_of_admitted(rt.alloc(), admitted))
    }
}

/// The canonical county. The answer is the renaming onto it.
pub(crate) struct Canonise;

impl<R: Host> Call<R> for Canonise {
    fn run(&self, rt: &R, set: &Set<'_>, asked: usize) -> Run {
        let admitted = admitted_of(rt.alloc(), set.bytes).expect(rt, set.row);
        refuse(rt.alloc(), asked);
        let outcome = tl_number::canonise(rt.alloc(), admitted);
        let refused = has_refused(rt.alloc());
        match outcome {
            Ok((county, renaming)) => {
                drop(county);
                answered(rt, refused, Ok(renaming))
            }
            Err(_) => Run::out_of_memory(refused),
        }
    }
}

/// A county in the profile, in its ascending arrangement.
fn arrange_ascending<C: Chart + Drop>(
    alloc: Global,
    chart: C,
    arrangement: Vec<DirectedChain>,
) -> Result<Arranged<C>, AllocError>
    requires profile { IsInProfile (C.county chart) }
    requires there { HasChainsOf (C.county chart) arrangement.items }
    requires ascending { arrangement_of (C.county chart) arrangement.items ≡ ascending (C.county chart) }
{
    arrange(alloc, chart, arrangement)
}

/// The renaming of the set's county onto an arranged one. It carries the county there.
fn renaming_onto<C: Chart>(rt: &impl Host, set: &Set<'_>, view: &Arranged<C>) -> Renaming {
    let renaming = view.renaming(rt.alloc()).expect(rt, set.row);
    let carried = carries_onto(rt, set, view, &renaming);
    same(rt, set.row, &carried, &Ok(true));
    renaming
}

/// The arranged county. The answer is the renaming onto it.
pub(super) struct ArrangeChains;

impl<R: Host> Call<R> for ArrangeChains {
    fn run(&self, rt: &R, set: &Set<'_>, asked: usize) -> Run {
        let admitted = admitted_of(rt.alloc(), set.bytes).expect(rt, set.row);
        let (chart, _) = admitted.into_parts();
        let arrangement = ascending_arrangement(rt.alloc(), &chart).expect(rt, set.row);
        refuse(rt.alloc(), asked);
        let outcome = arrange_ascending(rt.alloc(), chart, arrangement);
        let refused = has_refused(rt.alloc());
        match outcome {
            Ok(view) => {
                let renaming = renaming_onto(rt, set, &view);
                drop(view);
                answered(rt, refused, Ok(renaming))
            }
            Err(_) => Run::out_of_memory(refused),
        }
    }
}
