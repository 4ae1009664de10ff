//! The whole calls with growths refused as requested, without a mask and under the set's mask.

use super::super::comparing::{same, same_items};
use super::super::{Host, lines_of};
use super::{answered, ended, is_memory};
use std::fmt::Debug;
use test_support::growths::{Call, Run, has_refused, refuse};
use test_support::sets::Set;
use test_support::worked_sets::street;
use tigercanon::{CompareFault, Fault};
use tl_load::SlowSource;
use tl_write::SlowSink;

pub(crate) struct Respell;

impl<R: Host> Call<R> for Respell {
    fn run(&self, rt: &R, set: &Set<'_>, asked: usize) -> Run {
        refuse(rt.alloc(), asked);
        ended(rt, tigercanon::respell(rt.alloc(), &[set.bytes]))
    }
}

pub(crate) struct Normalise;

impl<R: Host> Call<R> for Normalise {
    fn run(&self, rt: &R, set: &Set<'_>, asked: usize) -> Run {
        refuse(rt.alloc(), asked);
        ended(rt, tigercanon::normalise(rt.alloc(), &[set.bytes]))
    }
}

/// The result is the renaming.
pub(crate) struct NormaliseWithRenaming;

impl<R: Host> Call<R> for NormaliseWithRenaming {
    fn run(&self, rt: &R, set: &Set<'_>, asked: usize) -> Run {
        refuse(rt.alloc(), asked);
        let outcome = tigercanon::normalise_with_renaming(rt.alloc(), &[set.bytes]);
        let refused = has_refused(rt.alloc());
        match outcome {
            Ok((text, renaming)) => {
                same_items(rt, set.row, &text, set.text);
                answered(rt, refused, Ok(renaming))
            }
            Err(fault) => answered::<()>(rt, refused, Err(fault)),
        }
    }
}

/// The run with this outcome at a sink. The result is the content of the sink, which is empty if a growth was refused.
fn written_by(
    rt: &impl Host,
    set: &Set<'_>,
    sink: &SlowSink<'_>,
    outcome: Result<u64, Fault>,
) -> Run {
    let refused = has_refused(rt.alloc());
    let held = Vec::from_slice(rt.alloc(), sink.held()).expect(rt, "there is memory");
    let outcome = match outcome {
        Ok(count) => Ok((count, held)),
        Err(fault) => {
            same(rt, set.row, &held.len(), &0);
            Err(fault)
        }
    };
    answered(rt, refused, outcome)
}

pub(crate) struct NormaliseTo;

impl<R: Host> Call<R> for NormaliseTo {
    fn run(&self, rt: &R, set: &Set<'_>, asked: usize) -> Run {
        let mut buffer = vec![in rt.alloc(); 0u8; set.text.len()].expect(rt, "there is memory");
        let mut sink = SlowSink::new(&mut buffer, 100);
        let mut sources = [SlowSource::new(set.bytes, 100, None)];
        refuse(rt.alloc(), asked);
        let outcome = tigercanon::normalise_to(rt.alloc(), &mut sources, &mut sink);
        written_by(rt, set, &sink, outcome)
    }
}

pub(crate) struct Fingerprint;

impl<R: Host> Call<R> for Fingerprint {
    fn run(&self, rt: &R, set: &Set<'_>, asked: usize) -> Run {
        refuse(rt.alloc(), asked);
        ended(rt, tigercanon::fingerprint(rt.alloc(), &[set.bytes]))
    }
}

pub(crate) struct Check;

impl<R: Host> Call<R> for Check {
    fn run(&self, rt: &R, set: &Set<'_>, asked: usize) -> Run {
        refuse(rt.alloc(), asked);
        ended(rt, tigercanon::check(rt.alloc(), &[set.bytes]))
    }
}

/// The result of a comparison, apart from out of memory.
type Comparison<V> = Result<V, CompareFault>;

/// The result of a comparison, with out of memory as other calls report it.
fn reported<V: Drop>(outcome: Comparison<V>) -> Result<Comparison<V>, Fault> {
    match outcome {
        Err(CompareFault::Memory) => Err(Fault::Memory),
        Err(CompareFault::In { fault, .. }) if is_memory(fault) => Err(fault),
        other => Ok(other),
    }
}

/// The run with this outcome of a comparison, counted by the set that the fault names.
fn compared<V: Debug + Drop>(rt: &impl Host, outcome: Comparison<V>) -> Run {
    let place = match &outcome {
        Err(CompareFault::In { set: 1, .. }) => 0usize,
        Err(CompareFault::In { set: 2, .. }) => 1,
        _ => 3,
    };
    ended(rt, reported(outcome)).counted_at(place)
}

pub(crate) struct CompareWithItself;

impl<R: Host> Call<R> for CompareWithItself {
    fn run(&self, rt: &R, set: &Set<'_>, asked: usize) -> Run {
        refuse(rt.alloc(), asked);
        let outcome = tigercanon::compare(rt.alloc(), &[set.bytes], &[set.bytes]);
        compared(rt, outcome)
    }
}

pub(crate) struct CompareWithStreet;

impl<R: Host> Call<R> for CompareWithStreet {
    fn run(&self, rt: &R, set: &Set<'_>, asked: usize) -> Run {
        let other = lines_of(rt, street());
        refuse(rt.alloc(), asked);
        let outcome = tigercanon::compare(rt.alloc(), &[set.bytes], &[&other]);
        compared(rt, outcome)
    }
}

pub(crate) struct CompareStreetWith;

impl<R: Host> Call<R> for CompareStreetWith {
    fn run(&self, rt: &R, set: &Set<'_>, asked: usize) -> Run {
        let other = lines_of(rt, street());
        refuse(rt.alloc(), asked);
        let outcome = tigercanon::compare(rt.alloc(), &[&other], &[set.bytes]);
        compared(rt, outcome)
    }
}

pub(crate) struct AreOneMap;

impl<R: Host> Call<R> for AreOneMap {
    fn run(&self, rt: &R, set: &Set<'_>, asked: usize) -> Run {
        refuse(rt.alloc(), asked);
        let outcome = tigercanon::are_one_map(rt.alloc(), &[set.bytes], &[set.bytes]);
        compared(rt, outcome)
    }
}

pub(crate) struct NormaliseMasked;

impl<R: Host> Call<R> for NormaliseMasked {
    fn run(&self, rt: &R, set: &Set<'_>, asked: usize) -> Run {
        refuse(rt.alloc(), asked);
        let outcome = tigercanon::normalise_masked(rt.alloc(), &[set.bytes], set.mask);
        ended(rt, outcome)
    }
}

pub(crate) struct NormaliseWithRenamingMasked;

impl<R: Host> Call<R> for NormaliseWithRenamingMasked {
    fn run(&self, rt: &R, set: &Set<'_>, asked: usize) -> Run {
        refuse(rt.alloc(), asked);
        let outcome = tigercanon::normalise_with_renaming_masked(
            rt.alloc(),
            &[set.bytes],
            set.mask,
        );
        ended(rt, outcome)
    }
}

/// The text under the mask is as long as the text.
pub(crate) struct NormaliseToMasked;

impl<R: Host> Call<R> for NormaliseToMasked {
    fn run(&self, rt: &R, set: &Set<'_>, asked: usize) -> Run {
        let mut buffer = vec![in rt.alloc(); 0u8; set.text.len()].expect(rt, "there is memory");
        let mut sink = SlowSink::new(&mut buffer, 100);
        let mut sources = [SlowSource::new(set.bytes, 100, None)];
        refuse(rt.alloc(), asked);
        let outcome = tigercanon::normalise_to_masked(
            rt.alloc(),
            &mut sources,
            &mut sink,
            set.mask,
        );
        written_by(rt, set, &sink, outcome)
    }
}

pub(crate) struct FingerprintMasked;

impl<R: Host> Call<R> for FingerprintMasked {
    fn run(&self, rt: &R, set: &Set<'_>, asked: usize) -> Run {
        refuse(rt.alloc(), asked);
        let outcome = tigercanon::fingerprint_masked(rt.alloc(), &[set.bytes], set.mask);
        ended(rt, outcome)
    }
}

pub(crate) struct CompareMasked;

impl<R: Host> Call<R> for CompareMasked {
    fn run(&self, rt: &R, set: &Set<'_>, asked: usize) -> Run {
        refuse(rt.alloc(), asked);
        let outcome = tigercanon::compare_masked(rt.alloc(), &[set.bytes], &[set.bytes], set.mask);
        compared(rt, outcome)
    }
}

pub(crate) struct AreOneMapMasked;

impl<R: Host> Call<R> for AreOneMapMasked {
    fn run(&self, rt: &R, set: &Set<'_>, asked: usize) -> Run {
        refuse(rt.alloc(), asked);
        let outcome = tigercanon::are_one_map_masked(
            rt.alloc(),
            &[set.bytes],
            &[set.bytes],
            set.mask,
        );
        compared(rt, outcome)
    }
}
