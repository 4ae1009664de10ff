//! The library's whole calls on sets in memory, and over sources and sinks that transfer few bytes and fail.

use super::comparing::{same, same_items};
use super::masked::PRINT;
use super::{Host, lines_of};
use test_support::renaming_lists::{Lists, TURN};
use test_support::sets::{Set, carries};
use test_support::worked_sets::{street, street_respelt, street_text, street_turned, worked};
use tigercanon::{Fault, Verdict, are_one_map, compare, fingerprint, normalise_to, respell};
use tl_load::{LoadFault, SlowSource, Source};
use tl_write::{SlowSink, WriteFault};

#[test]
fn a_street_is_respelt_and_has_a_fingerprint(rt: HostRuntime) {
    let set = lines_of(&rt, street());
    let respelt = respell(rt.alloc(), &[b"", &set]).expect(&rt, "the street");
    same_items(&rt, "respelt", &respelt, &lines_of(&rt, street_respelt()));
    let set = lines_of(&rt, street_turned());
    let print = fingerprint(rt.alloc(), &[&set]);
    same(&rt, "its fingerprint", &print, &Ok(PRINT));
}

/// The sets describe the same map exactly if they have the same text, and then the returned renaming carries the first onto the second.
fn are_compared(rt: &impl Host, set: &Set<'_>, other: &Set<'_>) {
    let verdict = compare(rt.alloc(), &[set.bytes], &[other.bytes]).expect(rt, set.row);
    let found = match &verdict {
        Verdict::Same(by) => carries(rt.alloc(), set.bytes, other.bytes, by),
        Verdict::Different => None,
    };
    drop(verdict);
    let is_one_map = set.text == other.text;
    let wanted = if is_one_map { Some(true) } else { None };
    same(rt, set.row, &(other.row, found), &(other.row, wanted));
    let answered = are_one_map(rt.alloc(), &[set.bytes], &[other.bytes]);
    same(rt, set.row, &answered, &Ok(is_one_map));
}

#[test]
fn sets_are_one_map_exactly_if_they_have_one_text(rt: HostRuntime) {
    let sets = worked(rt.alloc()).expect(&rt, "there is memory");
    for lines in &sets {
        for others in &sets {
            are_compared(&rt, &lines.set(), &others.set());
        }
    }
}

#[test]
fn a_street_is_renamed_onto_the_street_from_its_other_end(rt: HostRuntime) {
    let set = lines_of(&rt, street());
    let other = lines_of(&rt, street_turned());
    let verdict = compare(rt.alloc(), &[&set], &[&other]).expect(&rt, "both are accepted");
    match &verdict {
        Verdict::Same(renaming) => same(&rt, "the street", &Lists::of(renaming), &TURN),
        Verdict::Different => assert!(&rt; false, "they are one map"),
    }
    drop(verdict);
}

/// Reads a set and then an empty source, 100 bytes at a time, and writes to a sink of this capacity, 7 bytes at a time. The named reads
/// fail. The result and the sources that failed are these, and the sink has as much of the text as is reported.
fn passes(
    rt: &impl Host,
    [set, text]: [&[u8]; 2],
    failing: [Option<u64>; 2],
    capacity: usize,
    wanted: (Result<u64, Fault>, [u64; 2]),
) {
    let row = "the street";
    let mut place = vec![in rt.alloc(); 0u8; capacity].expect(rt, row);
    let mut sink = SlowSink::new(&mut place, 7);
    let mut sources = [
        SlowSource::new(set, 100, failing[0]),
        SlowSource::new(b"", 100, failing[1]),
    ];
    let answer = normalise_to(rt.alloc(), &mut sources, &mut sink);
    let failures = [sources[0].failures(), sources[1].failures()];
    let found = (failing, capacity, (answer, failures));
    same(rt, row, &found, &(failing, capacity, wanted));
    let written = match answer {
        Ok(written) | Err(Fault::Write(WriteFault { written })) => written,
        Err(_) => 0,
    };
    let beginning = text.get(..written as usize).unwrap_or_default();
    same_items(rt, row, sink.held(), beginning);
}

/// Sinks that take all but the last byte, some writes, a line, one byte, and nothing.
#[test]
fn a_text_goes_out_as_far_as_the_sink_lets_it(rt: HostRuntime) {
    let set = lines_of(&rt, street());
    let text = lines_of(&rt, street_text());
    let sets = [set.as_slice(), text.as_slice()];
    for capacity in [400, 357] {
        passes(&rt, sets, [None, None], capacity, (Ok(357), [0, 0]));
    }
    // These reads would fail, but the sources have ended before them.
    let past_the_end = [Some(6), Some(2)];
    passes(&rt, sets, past_the_end, 400, (Ok(357), [0, 0]));
    for capacity in [356, 300, 229, 1, 0] {
        let written = capacity as u64;
        let full = Err(Fault::Write(WriteFault { written }));
        passes(&rt, sets, [None, None], capacity, (full, [0, 0]));
    }
}

/// The failing read of Main St, or of a second source, and which source failed. The fifth read of Main St is the one at its end. Nothing is
/// read after a failure.
fn failing() -> [([Option<u64>; 2], [u64; 2]); 7] {
    [
        ([Some(1), None], [1, 0]),
        ([Some(2), None], [1, 0]),
        ([Some(3), None], [1, 0]),
        ([Some(4), None], [1, 0]),
        ([Some(5), None], [1, 0]),
        ([None, Some(1)], [0, 1]),
        ([Some(2), Some(1)], [1, 0]),
    ]
}

/// A faulty line is reported before its source is read again: the next read would fail.
#[test]
fn a_faulty_line_is_reported_before_the_next_read(rt: HostRuntime) {
    let mut place = [0; 1];
    let mut sink = SlowSink::new(&mut place, 1);
    let mut sources = [SlowSource::new(b"A\n", 2, Some(2))];
    let answer = normalise_to(rt.alloc(), &mut sources, &mut sink);
    let found = (answer, sources[0].failures());
    let unknown = LoadFault::UnknownType { part: 1, line: 1 };
    let wanted = (Err(Fault::Load(unknown)), 0);
    same(&rt, "answer, failures", &found, &wanted);
}

#[test]
fn nothing_goes_out_if_a_source_fails(rt: HostRuntime) {
    let set = lines_of(&rt, street());
    let text = lines_of(&rt, street_text());
    let device = Err(Fault::Load(LoadFault::Device));
    for (reads, failures) in failing() {
        passes(&rt, [&set, &text], reads, 400, (device, failures));
    }
}
