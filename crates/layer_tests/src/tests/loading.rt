//! Sources that a loader reads, and the number of records of a type that it takes.

ghost use Rattle.std.specs.Prelude.{◌<◌};

use super::comparing::{same, same_items};
use super::{Host, lines_of};
use std::cell::Cell;
use std::io::ErrorKind;
use test_support::devices::{kinds, reader};
use test_support::sets::spelled;
use test_support::worked_sets::{street, street_respelt};
use tl_load::{Counted, LoadFault, Loader, SlowSource, Source};

/// The source has Main St.
fn gives_the_street<S: Source>(rt: &impl Host, row: &str, source: &mut S) {
    let mut loader = Loader::new(rt.alloc());
    assert!(rt; source.failures() < u64::MAX);
    let answer = loader.read_part(source);
    same(rt, row, &(answer, loader.parts()), &(Ok(()), 1));
    let records = loader.finish().expect(rt, row);
    let text = spelled(rt.alloc(), &records).expect(rt, row);
    same_items(rt, row, &text, &lines_of(rt, street_respelt()));
}

#[test]
fn sources_are_read_to_their_end(rt: HostRuntime) {
    let set = lines_of(&rt, street());
    let mut slow = SlowSource::new(&set, 100, None);
    gives_the_street(&rt, "100 bytes a read", &mut slow);
    let mut counted = Counted::new(set.as_slice());
    gives_the_street(&rt, "a reader", &mut counted);
}

fn feed_pieces(rt: &impl Host, loader: &mut Loader, set: &[u8], size: usize) {
    assert!(rt; 0 < size, "a piece has a byte");
    for piece in set.chunks(size) {
        assert!(rt; loader.parts() == 0, "no part was ended");
        same(rt, "a piece", &loader.feed(piece), &Ok(()));
    }
}

/// Main St in pieces of this size is Main St, although no part was ended.
fn is_fed_in_pieces(rt: &impl Host, set: &[u8], size: usize) {
    let mut loader = Loader::new(rt.alloc());
    feed_pieces(rt, &mut loader, set, size);
    let records = loader.finish().expect(rt, "the street");
    let text = spelled(rt.alloc(), &records).expect(rt, "the street");
    same_items(rt, "the street", &text, set);
}

#[test]
fn pieces_of_any_size_give_the_same_records(rt: HostRuntime) {
    let set = lines_of(&rt, street_respelt());
    same(&rt, "bytes", &set.len(), &357);
    for size in 1..358 {
        is_fed_in_pieces(&rt, &set, size);
    }
}

/// A line that is too long is reported by its first 230 bytes, and the source isn't read again.
#[test]
fn a_long_line_is_reported_before_a_read_fails(rt: HostRuntime) {
    let mut source = SlowSource::new(&[b'1'; 1000], 230, Some(2));
    let mut loader = Loader::new(rt.alloc());
    let answer = loader.read_part(&mut source);
    let too_long = LoadFault::LineTooLong { part: 1, line: 1 };
    let found = (answer, source.failures(), loader.finish().err());
    let wanted = (Err(too_long), 0, Some(too_long));
    same(&rt, "answer, failures, in the end", &found, &wanted);
}

/// The source returns this set by a hundred bytes a read, and fails at the named read. The failure is reported, then and at the
/// end, and no part is closed.
fn fails_at(rt: &impl Host, set: &[u8], read: u64) {
    let mut source = SlowSource::new(set, 100, Some(read));
    let mut loader = Loader::new(rt.alloc());
    let answer = loader.read_part(&mut source);
    let reported = (read, answer, source.failures(), loader.parts());
    let wanted = (read, Err(LoadFault::Device), 1, 0);
    let fault = loader.finish().err();
    let device = Some(LoadFault::Device);
    let row = "what is reported in the end";
    same(rt, row, &(reported, fault), &(wanted, device));
}

#[test]
fn a_failed_read_is_reported_wherever_it_comes(rt: HostRuntime) {
    let set = lines_of(&rt, street_respelt());
    same(&rt, "bytes", &set.len(), &357);
    for read in 1..6 {
        fails_at(&rt, &set, read);
    }
}

/// The fifth read meets the end of the source, which isn't read again: the sixth read would fail.
#[test]
fn nothing_is_read_past_the_end(rt: HostRuntime) {
    let set = lines_of(&rt, street_respelt());
    let mut source = SlowSource::new(&set, 100, Some(6));
    let mut loader = Loader::new(rt.alloc());
    let answer = loader.read_part(&mut source);
    let found = (answer, source.failures(), loader.parts());
    same(&rt, "answer, failures, parts", &found, &(Ok(()), 0, 1));
}

/// A reader that fails at its third read was called three times, and not again.
fn fails_once(rt: &impl Host, kind: ErrorKind) {
    let count = Cell::new(0);
    let set = lines_of(rt, street());
    let mut source = Counted::new(reader(set, 100, Some(2), kind, &count));
    let mut loader = Loader::new(rt.alloc());
    let answer = loader.read_part(&mut source);
    let found = (answer, source.failures(), count.get());
    let wanted = (Err(LoadFault::Device), 1, 3);
    same(rt, "answer, failures, reads", &found, &wanted);
}

#[test]
fn no_read_is_tried_again(rt: HostRuntime) {
    for kind in kinds() {
        fails_once(&rt, *kind);
    }
}

const POLYGON: &str = "8{4}0100100001{8}12{8}30";

const LANDMARK: &str = "7{4}01001{8}30 D43";

/// A loader that takes two records of a type returns this number of records for these lines, or this fault.
fn takes(rt: &impl Host, row: &str, lines: &[&str], wanted: Result<usize, LoadFault>) {
    let mut loader = Loader::with_limit(rt.alloc(), 2);
    let found = match loader.feed(&lines_of(rt, lines)) {
        Ok(()) => Ok(loader.finish().expect(rt, row).len()),
        Err(fault) => Err(fault),
    };
    same(rt, row, &found, &wanted);
}

#[test]
fn no_type_has_more_records_than_the_limit(rt: HostRuntime) {
    let many = LoadFault::TooManyRecords { rtype: b'8' };
    takes(&rt, "three of a type", &[POLYGON; 3], Err(many));
    takes(&rt, "two of a type", &[POLYGON, POLYGON, LANDMARK], Ok(3));
}
