//! Calls with no memory left. A test takes all memory first, so that every growth is refused. The input of a call is made before,
//! and its result is compared afterwards. The stack can't grow then either: a call that needs much stack is made once before, with
//! ample memory, and must return there too.

ghost use Rattle.std.specs.Prelude.{◌≡◌};

use super::comparing::same;
use super::{Host, county_of, lines_of};
use bumpalo::Bump;
use std::cmp::Ordering;
use test_support::hoard::{all_memory, is_all_taken};
use test_support::masks::{BOTH, are_masked, plain, without_either};
use test_support::sets::{admitted_in_of, admitted_of, records_of};
use test_support::worked_sets::{
    chain_of_each_type_turned, record_of_each_type, street, street_text,
};
use test_support::writing::are_written;
use tl_county::Chart;
use tl_layout::{Layout, Point, Record, Turn};
use tl_load::{LoadFault, Loader, first_bad};
use tl_number::canonise_alone;
use tl_profile::Admitted;
use tl_shape::{Chain, Shape, Surroundings};

/// Whether writing a record to a line, reading it and writing it again produces the same line.
fn is_read_again<L: Layout + Drop>(record: &L) -> bool {
    let mut line = [0; 228];
    let mut again = [0; 228];
    record.put(&mut line[..L::LEN]);
    match L::take(&line[..L::LEN]) {
        Ok(other) => {
            other.put(&mut again[..L::LEN]);
            again == line
        }
        Err(_) => false,
    }
}

/// Whether this holds for a record of any type.
fn is_record_read_again(record: &Record) -> bool {
    match record {
        Record::One(record) => is_read_again(record),
        Record::Two(record) => is_read_again(record),
        Record::Four(record) => is_read_again(record),
        Record::Five(record) => is_read_again(record),
        Record::Six(record) => is_read_again(record),
        Record::Seven(record) => is_read_again(record),
        Record::Eight(record) => is_read_again(record),
        Record::I(record) => is_read_again(record),
        Record::P(record) => is_read_again(record),
    }
}

/// Whether a second turn restores the value, and a single turn doesn't.
fn is_turned_back<T: Turn + PartialEq + Copy>(value: &T) -> bool {
    let mut other = *value;
    other.turn();
    let is_turned = other != *value;
    other.turn();
    is_turned && other == *value
}

/// Whether this holds for the parts of a record that can be turned.
fn is_record_turned_back(record: &Record) -> bool {
    match record {
        Record::One(record) => is_turned_back(record.body()),
        Record::Six(record) => is_turned_back(record.ranges()),
        _ => true,
    }
}

fn records_in(rt: &impl Host, lines: &[&str]) -> Vec<Record> {
    let set = lines_of(rt, lines);
    records_of(rt.alloc(), &set).expect(rt, "the lines are records")
}

/// Whether each record is read again as it was written.
fn are_read_again(records: &[Record]) -> bool {
    for record in records {
        if !is_record_read_again(record) {
            return false;
        }
    }
    true
}

/// Whether a second turn restores the parts of each record that can be turned.
fn are_turned_back(records: &[Record]) -> bool {
    for record in records {
        if !is_record_turned_back(record) {
            return false;
        }
    }
    true
}

/// Records of each type are read, written and turned.
#[test]
fn records_are_read_and_written(rt: HostRuntime) {
    let records = records_in(&rt, record_of_each_type());
    let pieces = all_memory(rt.alloc()).expect(&rt, "there is memory");
    let is_taken = is_all_taken(rt.alloc());
    let are_read = are_read_again(&records);
    let are_turned = are_turned_back(&records);
    let bad = first_bad(b"I200601001\x7f");
    drop(pieces);
    let found = (records.len(), is_taken, are_read, are_turned, bad);
    same(&rt, "records", &found, &(13, true, true, true, Some(10)));
}

#[test]
fn contents_are_blanked(rt: HostRuntime) {
    let records = records_in(&rt, plain());
    let others = records_in(&rt, without_either());
    let pieces = all_memory(rt.alloc()).expect(&rt, "there is memory");
    let is_taken = is_all_taken(rt.alloc());
    let are_masked = are_masked(&records, &others, BOTH);
    drop(pieces);
    same(&rt, "contents", &[is_taken, are_masked], &[true, true]);
}

/// The results of the calls on a shape, with another shape.
fn shapes_answer(shape: &mut Shape, other: &Shape) -> (Ordering, bool, bool, usize, Ordering) {
    let order = shape.cmp(other);
    let is_own_reverse = shape.is_own_reverse();
    let needs_turn = shape.needs_turn();
    shape.reverse();
    let len = shape.points().len();
    (order, is_own_reverse, needs_turn, len, shape.cmp(other))
}

/// Shapes are compared and reversed, and no new one is made.
#[test]
fn shapes_are_compared_and_reversed(rt: HostRuntime) {
    let first = Point::new(1, 1);
    let second = Point::new(1, 2);
    let third = Point::new(2, 1);
    let mut shape = Shape::new(rt.alloc(), third, &[second], first).expect(&rt, "a shape");
    let other = Shape::new(rt.alloc(), first, &[second], third).expect(&rt, "its reverse");
    let pieces = all_memory(rt.alloc()).expect(&rt, "there is memory");
    let is_refused = Shape::new(rt.alloc(), first, &[second; 30], third).is_err();
    let found = shapes_answer(&mut shape, &other);
    drop(pieces);
    let wanted = (Ordering::Greater, false, true, 3, Ordering::Equal);
    same(&rt, "shapes", &(is_refused, found), &(true, wanted));
}

/// A chain of its own with the same parts.
fn copy_of(rt: &impl Host, chain: &Chain) -> Chain {
    let points = chain.shape().points();
    let last = points.len() - 1;
    let shape = Shape::new(rt.alloc(), points[0], &points[1..last], points[last]);
    let surroundings = Surroundings {
        start_node: chain.start_node(),
        end_node: chain.end_node(),
        left: *chain.left(),
        right: *chain.right(),
    };
    Chain::new(
        *chain.body(),
        shape.expect(rt, "there is memory"),
        Vec::from_slice(rt.alloc(), chain.feats()).expect(rt, "there is memory"),
        Vec::from_slice(rt.alloc(), chain.ranges()).expect(rt, "there is memory"),
        *chain.topology(),
        surroundings,
    )
}

/// The chain of this TLID in the county of these lines.
fn chain_of(rt: &impl Host, lines: &[&str], tlid: u64) -> Chain {
    let county = county_of(rt, "a chain", &lines_of(rt, lines));
    let chain = copy_of(rt, county.chain(tlid).expect(rt, "a chain"));
    drop(county);
    chain
}

/// The chain with all its parts, as `Debug` prints them.
fn shown(rt: &impl Host, chain: &Chain) -> String {
    format!(in rt.alloc(); "{chain:?}").expect(rt, "there is memory")
}

/// A whole chain is turned.
#[test]
fn chains_are_turned(rt: HostRuntime) {
    let mut chain = chain_of(&rt, record_of_each_type(), 500);
    let other = chain_of(&rt, chain_of_each_type_turned(), 77);
    let pieces = all_memory(rt.alloc()).expect(&rt, "there is memory");
    let is_taken = is_all_taken(rt.alloc());
    chain.turn();
    drop(pieces);
    let (found, wanted) = (shown(&rt, &chain), shown(&rt, &other));
    same(&rt, "parts", &found.as_str(), &wanted.as_str());
    same(&rt, "memory", &is_taken, &true);
}

/// The results of a loader for a line that is a record, and for the line after it.
fn loader_answers(mut loader: Loader) -> (u64, Result<(), LoadFault>, Result<(), LoadFault>, u64)
    requires { loader.parts ≡ 0 }
{
    let before = loader.parts();
    let first = loader.feed(b"8    0100100001        12        30\n");
    let second = loader.feed(b"x\n");
    (before, first, second, loader.parts())
}

/// A loader is made, and reports out of memory at the first record and ever after.
#[test]
fn loaders_are_made(rt: HostRuntime) {
    let pieces = all_memory(rt.alloc()).expect(&rt, "there is memory");
    let found = loader_answers(Loader::new(rt.alloc()));
    let limited = loader_answers(Loader::with_limit(rt.alloc(), 2));
    drop(pieces);
    let memory = Err(LoadFault::Memory);
    let reported = (0, memory, memory, 0);
    let row = "a loader, and one with a limit";
    same(&rt, row, &(found, limited), &(reported, reported));
}

/// The canonical county of Main St is written as its text by both calls, with ample memory and with none left.
fn are_written_anyhow<C: Chart + Drop>(rt: &impl Host, admitted: Admitted<C>) {
    let text = lines_of(rt, street_text());
    let county = canonise_alone(rt.alloc(), admitted).expect(rt, "the street");
    let mut buffer = [0; 400];
    let before = are_written(&county, &text, &mut buffer);
    let pieces = all_memory(rt.alloc()).expect(rt, "there is memory");
    let is_taken = is_all_taken(rt.alloc());
    let found = are_written(&county, &text, &mut buffer);
    drop(pieces);
    drop(county);
    let found = (before, is_taken, found);
    same(rt, "the street", &found, &([true; 2], true, [true; 2]));
}

/// A canonical county is written.
#[test]
fn counties_are_written(rt: HostRuntime) {
    let set = lines_of(&rt, street());
    let admitted = admitted_of(rt.alloc(), &set).expect(&rt, "the street");
    are_written_anyhow(&rt, admitted);
}

/// A county in an arena is written too.
#[test]
fn counties_in_an_arena_are_written(rt: HostRuntime) {
    let arena = Bump::new(rt.alloc());
    let set = lines_of(&rt, street());
    let admitted = admitted_in_of(rt.alloc(), &arena, &set).expect(&rt, "the street");
    are_written_anyhow(&rt, admitted);
}
