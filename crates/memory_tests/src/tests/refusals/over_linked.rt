//! Admission within whole calls, of a county over linked records, with growths refused as requested.

ghost use Rattle.std.specs.Prelude.{◌≡◌};
ghost use Rattle.county_chart.specs.County.{county_of};
ghost use Rattle.county_chart.specs.Packing.{type_after_type};

use super::super::Host;
use super::super::comparing::same;
use super::answered;
use super::linking::{chains_by_shape, is_of_set, tables_of};
use bumpalo::Bump;
use std::alloc::Global;
use test_support::growths::{Call, Run, has_refused, refuse};
use test_support::sets::Set;
use tigercanon::Fault;
use tl_county::{Chart, CountyOver, DirectedChain, LinkedRecords, link_in_order};
use tl_profile::{Admitted, ProfileFault};

fn admit_over<'a>(
    alloc: Global,
    county: CountyOver<'a>,
    linked: &LinkedRecords,
) -> Result<Admitted<CountyOver<'a>>, ProfileFault>
    requires { ⟦<CountyOver<'a> as Chart>⟧.county county ≡ county_of (type_after_type linked.now) }
{
    tl_profile::admit_linked(alloc, county, linked.polygon_without_chain())
}

/// The set's county is admitted. The answer is the order of its chains, or why it isn't admitted.
fn order_of<C: Chart + Drop>(
    rt: &impl Host,
    set: &Set<'_>,
    outcome: Result<Admitted<C>, ProfileFault>,
) -> Result<Vec<DirectedChain>, Fault> {
    match outcome {
        Ok(admitted) => {
            let (county, order) = admitted.into_parts();
            let is_same = is_of_set(rt, set, &county);
            drop(county);
            same(rt, set.row, &is_same, &Ok(true));
            Ok(chains_by_shape(rt, &order))
        }
        Err(fault) => Err(Fault::Profile(fault)),
    }
}

pub(super) struct AdmitLinked;

impl<R: Host> Call<R> for AdmitLinked {
    fn run(&self, rt: &R, set: &Set<'_>, asked: usize) -> Run {
        let arena = Bump::new(rt.alloc());
        let linked = link_in_order(rt.alloc(), tables_of(rt, set)).expect(rt, set.row);
        let county = linked.county(rt.alloc(), &arena).expect(rt, set.row);
        refuse(rt.alloc(), asked);
        let outcome = admit_over(rt.alloc(), county, &linked);
        let refused = has_refused(rt.alloc());
        answered(rt, refused, order_of(rt, set, outcome))
    }
}
