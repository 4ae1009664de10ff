//! Canonised counties and their records, with growths refused as requested.

use super::super::Host;
use super::super::comparing::{same, same_items};
use super::{answered, ended};
use bumpalo::Bump;
use std::alloc::AllocError;
use test_support::growths::{Call, Run, has_refused, refuse};
use test_support::sets::{Set, admitted_in_of, admitted_of, spelled};
use test_support::writing::are_written;
use tl_cert::Renaming;
use tl_county::Chart;
use tl_layout::Record;
use tl_number::{CanonCounty, admitted_masked, canonise_alone};
use tl_profile::Admitted;
use tl_write::{CountedOut, write_to};

/// Returns the canonical text of this county.
pub(crate) fn text_of_admitted<C: Chart + Drop>(rt: &impl Host, admitted: Admitted<C>) -> Vec<u8> {
    let county = canonise_alone(rt.alloc(), admitted).expect(rt, "there is memory");
    let mut sink = CountedOut::new(Vec::new(rt.alloc()));
    let written = write_to(&county, &mut sink).is_ok();
    drop(county);
    same(rt, "a text", &written, &true);
    sink.into_inner()
}

/// A canonical county and the renaming onto it.
type Canonised<C> = (CanonCounty<C>, Renaming);

/// Both calls that write the canonical county write this text.
fn has_text<C: Chart>(rt: &impl Host, row: &str, text: &[u8], county: &CanonCounty<C>) {
    let mut buffer = vec![in rt.alloc(); 0u8; text.len()].expect(rt, "there is memory");
    let found = are_written(county, text, &mut buffer);
    same(rt, row, &found, &[true; 2]);
}

/// The run that ended with a canonical county with this text, or with nothing. The result is the renaming.
fn canonised<C: Chart + Drop>(
    rt: &impl Host,
    row: &str,
    text: &[u8],
    outcome: Result<Canonised<C>, AllocError>,
) -> Run {
    let refused = has_refused(rt.alloc());
    match outcome {
        Ok((county, renaming)) => {
            has_text(rt, row, text, &county);
            drop(county);
            answered::<_, AllocError>(rt, refused, Ok(renaming))
        }
        Err(_) => Run::out_of_memory(refused),
    }
}

pub(crate) struct Canonise;

impl<R: Host> Call<R> for Canonise {
    fn run(&self, rt: &R, set: &Set<'_>, asked: usize) -> Run {
        let admitted = admitted_of(rt.alloc(), set.bytes).expect(rt, set.row);
        refuse(rt.alloc(), asked);
        let outcome = tl_number::canonise(rt.alloc(), admitted);
        canonised(rt, set.row, set.text, outcome)
    }
}

pub(crate) struct CanoniseIn;

impl<R: Host> Call<R> for CanoniseIn {
    fn run(&self, rt: &R, set: &Set<'_>, asked: usize) -> Run {
        let arena = Bump::new(rt.alloc());
        let admitted = admitted_in_of(rt.alloc(), &arena, set.bytes).expect(rt, set.row);
        refuse(rt.alloc(), asked);
        let outcome = tl_number::canonise_in(rt.alloc(), admitted);
        canonised(rt, set.row, set.text, outcome)
    }
}

/// The text of the set under its mask.
fn text_of(rt: &impl Host, set: &Set<'_>) -> Vec<u8> {
    let admitted = admitted_of(rt.alloc(), set.bytes).expect(rt, set.row);
    let shown = admitted_masked(rt.alloc(), admitted, set.mask).expect(rt, set.row);
    text_of_admitted(rt, shown)
}

pub(crate) struct CanoniseMasked;

impl<R: Host> Call<R> for CanoniseMasked {
    fn run(&self, rt: &R, set: &Set<'_>, asked: usize) -> Run {
        let text = text_of(rt, set);
        let admitted = admitted_of(rt.alloc(), set.bytes).expect(rt, set.row);
        refuse(rt.alloc(), asked);
        let outcome = tl_number::canonise_masked(rt.alloc(), admitted, set.mask);
        canonised(rt, set.row, &text, outcome)
    }
}

pub(crate) struct CanoniseInMasked;

impl<R: Host> Call<R> for CanoniseInMasked {
    fn run(&self, rt: &R, set: &Set<'_>, asked: usize) -> Run {
        let text = text_of(rt, set);
        let arena = Bump::new(rt.alloc());
        let admitted = admitted_in_of(rt.alloc(), &arena, set.bytes).expect(rt, set.row);
        refuse(rt.alloc(), asked);
        let outcome = tl_number::canonise_in_masked(rt.alloc(), admitted, set.mask);
        canonised(rt, set.row, &text, outcome)
    }
}

/// The run that ended with the records of a canonical county, or with nothing. Their lines are the set's text.
fn listed(rt: &impl Host, set: &Set<'_>, outcome: Result<Vec<Record>, AllocError>) -> Run {
    let refused = has_refused(rt.alloc());
    if let Ok(records) = &outcome {
        let text = spelled(rt.alloc(), records).expect(rt, set.row);
        same_items(rt, set.row, &text, set.text);
    }
    answered(rt, refused, outcome.map(|_| ()))
}

pub(crate) struct RecordsOf;

impl<R: Host> Call<R> for RecordsOf {
    fn run(&self, rt: &R, set: &Set<'_>, asked: usize) -> Run {
        let admitted = admitted_of(rt.alloc(), set.bytes).expect(rt, set.row);
        let county = canonise_alone(rt.alloc(), admitted).expect(rt, set.row);
        refuse(rt.alloc(), asked);
        let run = listed(rt, set, tl_write::records_of(rt.alloc(), &county));
        drop(county);
        run
    }
}

pub(crate) struct RecordsOfIn;

impl<R: Host> Call<R> for RecordsOfIn {
    fn run(&self, rt: &R, set: &Set<'_>, asked: usize) -> Run {
        let arena = Bump::new(rt.alloc());
        let admitted = admitted_in_of(rt.alloc(), &arena, set.bytes).expect(rt, set.row);
        let county = canonise_alone(rt.alloc(), admitted).expect(rt, set.row);
        refuse(rt.alloc(), asked);
        let run = listed(rt, set, tl_write::records_of_in(rt.alloc(), &county));
        drop(county);
        run
    }
}
