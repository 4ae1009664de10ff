//! Jobs over files that are missing or fail, and over devices that take little. `rows.rt` has the jobs, and `messages.rt` the tests of
//! what is printed on standard error.

mod messages;
mod rows;

use super::comparing::{same, same_items};
use super::{Host, lines_of};
use std::cell::Cell;
use std::io::{ErrorKind, Read};
use test_support::devices::{SlowReader, failing_writer, kinds, reader};
use tigercanon::{Job, Opened, run};
use tl_layout::Mask;

/// A file, by the outcome of opening it.
enum File {
    /// It has these lines.
    Whole(&'static [&'static str]),
    /// The same, and the read after this number of reads is interrupted.
    Failing(&'static [&'static str], usize),
    Absent,
    Failed,
}

/// A job over the files of two sets, and its outcome. Only a comparison uses the second set.
#[derive(Clone, Copy)]
struct Row {
    name: &'static str,
    job: Job,
    files: [&'static [File]; 2],
    /// How many bytes a read returns and a write takes at most.
    step: usize,
    /// The capacity of standard output, and of standard error.
    capacity: [usize; 2],
    status: u8,
    /// The lines of the full output, and how many of its bytes are written.
    lines: &'static [&'static str],
    written: usize,
    reported: &'static str,
    /// The number of reads of all files, if the row has it.
    reads: Option<usize>,
}

fn opened<'a>(
    rt: &impl Host,
    files: &[File],
    step: usize,
    kind: ErrorKind,
    count: &'a Cell<usize>,
) -> Vec<Opened<SlowReader<'a>>> {
    let mut all = Vec::new(rt.alloc());
    for file in files {
        let one = match file {
            File::Whole(lines) => {
                Opened::Found(reader(lines_of(rt, lines), step, None, kind, count))
            }
            File::Failing(lines, reads) => {
                Opened::Found(reader(lines_of(rt, lines), step, Some(*reads), kind, count))
            }
            File::Absent => Opened::Absent,
            File::Failed => Opened::Failed,
        };
        all.push(one).expect(rt, "there is memory");
    }
    all
}

/// The job ends as in its row if devices fail in this way. A reader returns at least one byte.
fn ends_by(rt: &impl Host, row: &Row, kind: ErrorKind) {
    let Row { name, job, .. } = *row;
    let count = Cell::new(0);
    let first = opened(rt, row.files[0], row.step.max(1), kind, &count);
    let second = opened(rt, row.files[1], row.step.max(1), kind, &count);
    let mut out = failing_writer(rt.alloc(), row.step, row.capacity[0], kind);
    let mut err = failing_writer(rt.alloc(), 7, row.capacity[1], kind);
    let mask = Mask::NONE;
    let status = run(rt.alloc(), job, first, second, &mut out, &mut err, mask);
    let lines = lines_of(rt, row.lines);
    let written = lines.get(..row.written).unwrap_or(&lines);
    let reads = row.reads.unwrap_or(count.get());
    let found = (status, count.get(), err.held.as_slice());
    let wanted = (row.status, reads, row.reported.as_bytes());
    same(rt, name, &found, &wanted);
    same_items(rt, name, &out.held, written);
}

/// The job ends as in its row, whatever the kind of failure.
fn ends(rt: &impl Host, row: &Row) {
    for kind in kinds() {
        ends_by(rt, row, *kind);
    }
}

/// A read of an opened file returns this number of its bytes, or fails.
fn gives(rt: &impl Host, row: &str, file: Opened<SlowReader<'_>>, wanted: Option<usize>) {
    let mut file = file;
    let mut buffer = [0; 9];
    let found = file.read(&mut buffer).ok();
    same(rt, row, &found, &wanted);
}

#[test]
fn a_file_is_read_as_it_was_opened(rt: HostRuntime) {
    let count = Cell::new(0);
    let lines = lines_of(&rt, &["8"]);
    let open = reader(lines, 100, None, ErrorKind::Other, &count);
    gives(&rt, "one that is open", Opened::Found(open), Some(2));
    gives(&rt, "one that isn't there", Opened::Absent, Some(0));
    gives(&rt, "one that couldn't be opened", Opened::Failed, None);
}
