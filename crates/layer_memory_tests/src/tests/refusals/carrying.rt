//! Renamings and shapes, with growths refused as requested.

use super::super::{Host, county_of};
use super::ended;
use test_support::growths::{Call, Run, refuse};
use test_support::sets::{Set, admitted_of};
use tl_cert::Renaming;
use tl_layout::Point;
use tl_number::canonise;
use tl_shape::Shape;

/// The renaming of the set onto its text.
fn renaming_of(rt: &impl Host, set: &Set<'_>) -> Renaming {
    let admitted = admitted_of(rt.alloc(), set.bytes).expect(rt, set.row);
    let (county, renaming) = canonise(rt.alloc(), admitted).expect(rt, set.row);
    drop(county);
    renaming
}

/// The run that checks the renaming that carries the set onto its text.
pub(super) struct CheckRenaming;

impl<R: Host> Call<R> for CheckRenaming {
    fn run(&self, rt: &R, set: &Set<'_>, asked: usize) -> Run {
        let here = county_of(rt, set.row, set.bytes);
        let there = county_of(rt, set.row, set.text);
        let renaming = renaming_of(rt, set);
        refuse(rt.alloc(), asked);
        let run = ended(rt, tl_cert::check(rt.alloc(), &here, &there, &renaming));
        drop(here);
        drop(there);
        run
    }
}

/// The run that checks it under the set's mask, under which it carries the set too.
pub(super) struct CheckMasked;

impl<R: Host> Call<R> for CheckMasked {
    fn run(&self, rt: &R, set: &Set<'_>, asked: usize) -> Run {
        let here = county_of(rt, set.row, set.bytes);
        let there = county_of(rt, set.row, set.text);
        let renaming = renaming_of(rt, set);
        refuse(rt.alloc(), asked);
        let outcome = tl_cert::check_masked(rt.alloc(), &here, &there, &renaming, set.mask);
        let run = ended(rt, outcome);
        drop(here);
        drop(there);
        run
    }
}

pub(super) struct Inverse;

impl<R: Host> Call<R> for Inverse {
    fn run(&self, rt: &R, set: &Set<'_>, asked: usize) -> Run {
        let renaming = renaming_of(rt, set);
        refuse(rt.alloc(), asked);
        ended(rt, renaming.inverse())
    }
}

pub(super) struct Then;

impl<R: Host> Call<R> for Then {
    fn run(&self, rt: &R, set: &Set<'_>, asked: usize) -> Run {
        let renaming = renaming_of(rt, set);
        let back = renaming.inverse().expect(rt, set.row);
        refuse(rt.alloc(), asked);
        ended(rt, renaming.then(&back))
    }
}

/// A shape with thirty inner points, whatever the set is.
pub(super) struct NewShape;

impl<R: Host> Call<R> for NewShape {
    fn run(&self, rt: &R, _set: &Set<'_>, asked: usize) -> Run {
        let point = Point::new(-86468669, 32424914);
        refuse(rt.alloc(), asked);
        ended(rt, Shape::new(rt.alloc(), point, &[point; 30], point))
    }
}
