//! Linking, and admission to the profile, with growths refused as requested.

use super::super::{Host, county_of};
use super::ended;
use bumpalo::Bump;
use test_support::growths::{Call, Run, refuse};
use test_support::sets::{Set, county_in_of, records_of};

pub(super) struct Link;

impl<R: Host> Call<R> for Link {
    fn run(&self, rt: &R, set: &Set<'_>, asked: usize) -> Run {
        let records = records_of(rt.alloc(), set.bytes).expect(rt, set.row);
        refuse(rt.alloc(), asked);
        ended(rt, tl_county::link(rt.alloc(), records))
    }
}

pub(super) struct LinkIn;

impl<R: Host> Call<R> for LinkIn {
    fn run(&self, rt: &R, set: &Set<'_>, asked: usize) -> Run {
        let arena = Bump::new(rt.alloc());
        let records = records_of(rt.alloc(), set.bytes).expect(rt, set.row);
        refuse(rt.alloc(), asked);
        ended(rt, tl_county::link_in(rt.alloc(), &arena, records))
    }
}

pub(super) struct Admit;

impl<R: Host> Call<R> for Admit {
    fn run(&self, rt: &R, set: &Set<'_>, asked: usize) -> Run {
        let county = county_of(rt, set.row, set.bytes);
        refuse(rt.alloc(), asked);
        let outcome = tl_profile::admit(rt.alloc(), county);
        ended(rt, outcome.map(|admitted| admitted.into_parts().0))
    }
}

pub(super) struct AdmitIn;

impl<R: Host> Call<R> for AdmitIn {
    fn run(&self, rt: &R, set: &Set<'_>, asked: usize) -> Run {
        let arena = Bump::new(rt.alloc());
        let county = county_in_of(rt.alloc(), &arena, set.bytes).expect(rt, set.row);
        refuse(rt.alloc(), asked);
        let outcome = tl_profile::admit_in(rt.alloc(), county);
        ended(rt, outcome.map(|admitted| admitted.into_parts().0))
    }
}
