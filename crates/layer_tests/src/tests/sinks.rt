//! A text to sinks that take a few bytes at a time, and fail.

use super::comparing::{same, same_items};
use super::{Host, lines_of};
use std::io::ErrorKind;
use test_support::devices::{failing_writer, kinds, writer};
use test_support::worked_sets::street_text;
use tl_write::{CountedOut, Sink, SlowSink, WriteFault, write_bytes};

/// Writes the text to a sink of this capacity, which takes at most `most` bytes a write. The result and the content of the sink are
/// right.
fn writes(rt: &impl Host, text: &[u8], capacity: usize, most: usize) {
    let mut place = [0; 400];
    assert!(rt; capacity <= 400 && 0 < most);
    let mut sink = SlowSink::new(&mut place[..capacity], most);
    let answer = write_bytes(text, &mut sink);
    let beginning = text.get(..capacity).unwrap_or(text);
    let written = beginning.len() as u64;
    let is_whole = text.len() <= capacity;
    let wanted = if is_whole {
        Ok(written)
    } else {
        Err(WriteFault { written })
    };
    let found = (capacity, most, answer, sink.failures());
    let wanted = (capacity, most, wanted, u64::from(!is_whole));
    same(rt, "answer", &found, &wanted);
    same_items(rt, "what is held", sink.held(), beginning);
}

#[test]
fn a_beginning_goes_out_before_a_failure(rt: HostRuntime) {
    let text = lines_of(&rt, street_text());
    same(&rt, "bytes", &text.len(), &357);
    for capacity in 0..=357 {
        writes(&rt, &text, capacity, 7);
    }
    for most in [1, 100, 356, 357, 4096] {
        writes(&rt, &text, 300, most);
        writes(&rt, &text, 400, most);
    }
}

/// How many bytes a writer takes at a time, its capacity, the result for two bytes, and how often it failed.
fn few() -> [(usize, usize, Result<u64, WriteFault>, u64); 3] {
    [
        (0, 9, Err(WriteFault { written: 0 }), 1),
        (9, 0, Err(WriteFault { written: 0 }), 1),
        (1, 9, Ok(2), 0),
    ]
}

/// A write that takes nothing is a failure, unless there are no bytes to write.
#[test]
fn a_write_of_nothing_is_a_failure(rt: HostRuntime) {
    for (step, capacity, wanted, failures) in few() {
        let mut sink = CountedOut::new(writer(rt.alloc(), step, capacity));
        let found = (step, write_bytes(b"ab", &mut sink), sink.failures());
        same(&rt, "two bytes", &found, &(step, wanted, failures));
    }
    let mut sink = CountedOut::new(writer(rt.alloc(), 0, 0));
    let found = (
        write_bytes(b"", &mut sink),
        sink.write(b""),
        sink.failures(),
    );
    same(&rt, "no bytes", &found, &(Ok(0), Ok(0), 0));
}

/// A writer that takes 7 bytes at a time and fails once it holds 300 was called 44 times, and not again.
fn fails_once(rt: &impl Host, text: &[u8], kind: ErrorKind) {
    let mut sink = CountedOut::new(failing_writer(rt.alloc(), 7, 300, kind));
    let answer = write_bytes(text, &mut sink);
    let failures = sink.failures();
    let writer = sink.into_inner();
    let found = (answer, failures, writer.writes, writer.held.len());
    let wanted = (Err(WriteFault { written: 300 }), 1, 44, 300);
    same(rt, "answer, failures, writes, bytes", &found, &wanted);
}

#[test]
fn no_write_is_tried_again(rt: HostRuntime) {
    let text = lines_of(&rt, street_text());
    for kind in kinds() {
        fails_once(&rt, &text, *kind);
    }
}
