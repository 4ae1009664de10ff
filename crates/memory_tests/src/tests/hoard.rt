//! Calls with no memory left. A test takes all memory first, so that every growth is refused. The input of a call is made before,
//! and its result is compared afterwards. The stack can't grow then either: a call that needs much stack is made once before, with
//! ample memory, and must return there too.

use super::Host;
use super::comparing::same;
use super::refusals::{is_memory, whole};
use test_support::growths::{Call, NONE};
use test_support::hoard::all_memory;
use test_support::sets::{Set, SetLines};
use test_support::worked_sets::{street, street_text};
use tigercanon::normalise_to;
use tl_load::SlowSource;
use tl_write::SlowSink;

/// Whether writing a set's text to a sink reports out of memory, and writes nothing.
fn writes_nothing(rt: &impl Host, set: &[u8]) -> bool {
    let mut buffer = [0; 400];
    let mut sink = SlowSink::new(&mut buffer, 100);
    let mut sources = [SlowSource::new(set, 100, None)];
    let fault = normalise_to(rt.alloc(), &mut sources, &mut sink).err();
    fault.is_some_and(is_memory) && sink.held().is_empty()
}

/// Whether each whole call reports out of memory.
fn whole_calls_report(rt: &impl Host, set: &Set<'_>) -> [bool; 7] {
    [
        writes_nothing(rt, set.bytes),
        whole::Respell.run(rt, set, NONE).is_out_of_memory(),
        whole::Normalise.run(rt, set, NONE).is_out_of_memory(),
        whole::NormaliseWithRenaming
            .run(rt, set, NONE)
            .is_out_of_memory(),
        whole::Fingerprint.run(rt, set, NONE).is_out_of_memory(),
        whole::Check.run(rt, set, NONE).is_out_of_memory(),
        whole::CompareWithItself
            .run(rt, set, NONE)
            .is_out_of_memory(),
    ]
}

/// The whole calls report out of memory, and write nothing. With ample memory, none reports it.
#[test]
fn whole_calls_report_want_of_memory(rt: HostRuntime) {
    let row = "the street";
    let lines = SetLines::of(rt.alloc(), &(row, street(), street_text())).expect(&rt, row);
    let set = lines.set();
    let before = whole_calls_report(&rt, &set);
    let pieces = all_memory(rt.alloc()).expect(&rt, "there is memory");
    let found = whole_calls_report(&rt, &set);
    drop(pieces);
    let wanted = ([false; 7], [true; 7]);
    same(&rt, "ample memory, and none", &(before, found), &wanted);
}
