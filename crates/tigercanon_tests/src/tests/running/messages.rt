//! Messages: usages, and the exit status of the program.

use super::super::Host;
use super::super::comparing::same;
use std::io::ErrorKind;
use test_support::devices::{failing_writer, kinds};
use tigercanon::{PlanFault, exit_status, report};
use tl_write::{CountedOut, Sink};

/// As much of this text is written as the device takes if it fails in this way, and the status is this one.
fn is_reported_by(
    rt: &impl Host,
    fault: &PlanFault,
    text: &str,
    status: u8,
    (capacity, kind): (usize, ErrorKind),
) {
    let mut err = CountedOut::new(failing_writer(rt.alloc(), 7, capacity, kind));
    let reported = report(fault, &mut err);
    let failures = err.failures();
    let held = err.into_inner().held;
    let bytes = text.as_bytes();
    let found = (reported, failures, held.as_slice());
    let beginning = bytes.get(..capacity).unwrap_or(bytes);
    let failed = u64::from(capacity < text.len());
    same(rt, text, &found, &(status, failed, beginning));
}

/// The same, whatever the kind of failure.
fn is_reported(rt: &impl Host, fault: &PlanFault, text: &str, status: u8, capacity: usize) {
    for kind in kinds() {
        is_reported_by(rt, fault, text, status, (capacity, *kind));
    }
}

/// The beginning of a usage is written, or all of it: its lines, including the empty one.
const USAGE: &str = "error: unexpected argument 'b' found\n\nUsage: tigercanon check\n";

#[test]
fn a_usage_is_reported_whole(rt: HostRuntime) {
    let text = String::from_str(rt.alloc(), USAGE).expect(&rt, USAGE);
    let fault = PlanFault::Usage(text);
    for capacity in [0, 37, 38, 61, 62, 100] {
        is_reported(&rt, &fault, USAGE, 2, capacity);
    }
}

#[test]
fn want_of_memory_is_reported(rt: HostRuntime) {
    let line = "refused 9 Memory\n";
    for capacity in [0, 16, 17] {
        is_reported(&rt, &PlanFault::Memory, line, 5, capacity);
    }
}

#[test]
fn the_program_exits_with_the_status_of_its_job(rt: HostRuntime) {
    let mut err = CountedOut::new(failing_writer(rt.alloc(), 7, 100, ErrorKind::Other));
    let of_a_job = exit_status(Ok(3), &mut err);
    let of_no_job = exit_status(Err(PlanFault::Memory), &mut err);
    let held = err.into_inner().held;
    let found = (of_a_job, of_no_job, held.as_slice());
    let wanted = (3, 5, b"refused 9 Memory\n".as_slice());
    same(
        &rt,
        "of a job, of no job, what is reported",
        &found,
        &wanted,
    );
}
