//! Jobs over the files of sets, and their outcomes.

use super::File::{Absent, Failed, Failing, Whole};
use super::{File, Row, ends};
use test_support::worked_sets::{
    CHAIN, LINK, MAIN, MAIN_TEXT, MAIN_TURNED, OTHER_ADDRESSES, RESPELT,
};
use tigercanon::Job::{self, Check, Compare, Fingerprint, Normalise, Respell};

/// A completed job that prints nothing.
const DONE: Row = Row {
    name: "no files",
    job: Respell,
    files: [&[], &[]],
    step: 100,
    capacity: [1000, 1000],
    status: 0,
    lines: &[],
    written: usize::MAX,
    reported: "",
    reads: None,
};

/// The row of a job on one set.
fn on_one(name: &'static str, job: Job, files: &'static [File], base: Row) -> Row {
    Row {
        name,
        job,
        files: [files, &[]],
        ..base
    }
}

/// A job that a device stops.
const STOPPED: Row = Row {
    status: 4,
    reported: "refused 8 Device\n",
    ..DONE
};

/// A faulty file, and a job that rejects it.
const UNKNOWN: File = Whole(&["A"]);

const REFUSED: Row = Row {
    files: [&[UNKNOWN], &[]],
    status: 3,
    reported: "refused 1 UnknownType 1 1\n",
    ..DONE
};

/// The file of Main St, and of Main St from its other end.
const STREET: &[File] = &[Whole(MAIN)];

const TURNED: &[File] = &[Whole(MAIN_TURNED)];

/// The files of a stem: only chains and links.
const STEM: &[File] = &[
    Whole(&[CHAIN]),
    Absent,
    Absent,
    Absent,
    Absent,
    Absent,
    Absent,
    Whole(&[LINK]),
    Absent,
];

/// Files with an absent one between them, and files with an absent one and an empty one behind.
const PARTED: &[File] = &[Whole(&[CHAIN]), Absent, Whole(&[LINK])];

const ENDED: &[File] = &[Whole(MAIN), Absent, Whole(&[])];

/// The fingerprints of Main St and of no records, made by another program.
const PRINT: &[&str] = &["06442d8d2f1e29f7c20b1ddfe1d6b4d983cc2685627d235e8417e7e9550975c9"];

const NO_PRINT: &[&str] = &["e3b0c44298fc1c149afbf4c8996fb92427ae41e4649b934ca495991b7852b855"];

const ACCEPTED: &[&str] = &["accepted"];

/// The purpose of a row, a completed job, its files, and the lines that it prints.
type Printed = (&'static str, Job, &'static [File], &'static [&'static str]);

fn done() -> [Printed; 9] {
    [
        ("respell no files", Respell, &[], &[]),
        ("respell the files of a stem", Respell, STEM, RESPELT),
        ("respell three files", Respell, ENDED, RESPELT),
        ("normalise no files", Normalise, &[], &[]),
        ("normalise parted files", Normalise, PARTED, MAIN_TEXT),
        ("check no files", Check, &[], ACCEPTED),
        ("check parted files", Check, PARTED, ACCEPTED),
        ("fingerprint no files", Fingerprint, &[], NO_PRINT),
        ("fingerprint parted files", Fingerprint, PARTED, PRINT),
    ]
}

#[test]
fn absent_files_are_empty_parts_and_no_files_are_no_records(rt: HostRuntime) {
    for (name, job, files, lines) in done() {
        let row = on_one(name, job, files, DONE);
        ends(&rt, &Row { lines, ..row });
    }
}

/// The purpose of a row, a job that a device stops, and its files.
type Stopped = (&'static str, Job, &'static [File]);

/// Files that can't be opened.
fn unopened() -> [Stopped; 4] {
    [
        ("a faulty file before", Respell, &[UNKNOWN, Failed]),
        ("an absent first file", Respell, &[Absent, UNKNOWN]),
        ("normalise", Normalise, &[Whole(MAIN), Failed]),
        ("check an absent first file", Check, &[Absent, Whole(MAIN)]),
    ]
}

#[test]
fn files_that_cannot_be_opened_are_reported_before_anything_is_read(rt: HostRuntime) {
    for (name, job, files) in unopened() {
        let row = on_one(name, job, files, STOPPED);
        let reads = Some(0);
        ends(&rt, &Row { reads, ..row });
    }
}

/// Files that can't be read. Such a file is reported before any fault in the lines.
fn unread() -> [Stopped; 7] {
    [
        ("the first read fails", Respell, &[Failing(MAIN, 0)]),
        ("a read fails in the midst", Respell, &[Failing(MAIN, 2)]),
        ("the read at the end fails", Respell, &[Failing(MAIN, 4)]),
        ("a faulty file before", Respell, &[UNKNOWN, Failing(&[], 0)]),
        ("normalise", Normalise, &[Failing(MAIN, 2)]),
        ("check, no link", Check, &[Failing(&[CHAIN, CHAIN], 2)]),
        ("fingerprint", Fingerprint, &[UNKNOWN, Failing(MAIN, 0)]),
    ]
}

#[test]
fn files_that_cannot_be_read_are_reported(rt: HostRuntime) {
    for (name, job, files) in unread() {
        ends(&rt, &on_one(name, job, files, STOPPED));
    }
}

/// A faulty file. Only normalising stops reading at the faulty line.
fn refused() -> [Row; 3] {
    [
        Row {
            name: "normalise a faulty file, and one that fails",
            job: Normalise,
            files: [&[UNKNOWN, Failing(MAIN, 0)], &[]],
            ..REFUSED
        },
        Row {
            name: "a faulty file is read to its end",
            step: 1,
            reads: Some(3),
            ..REFUSED
        },
        Row {
            name: "standard error fails",
            capacity: [1000, 20],
            reported: "refused 1 UnknownTyp",
            ..REFUSED
        },
    ]
}

#[test]
fn faulty_files_are_refused(rt: HostRuntime) {
    for row in &refused() {
        ends(&rt, row);
    }
}

/// The files of two sets, and which of them is reported. All files are opened before one is read, and both sets are read before one
/// is judged.
fn unread_sets() -> [([&'static [File]; 2], &'static str); 4] {
    [
        ([&[Failing(MAIN, 0)], &[Failed]], IN_SET_2),
        ([&[Absent], &[Failed]], IN_SET_1),
        ([&[UNKNOWN], &[Failing(MAIN, 1)]], IN_SET_2),
        ([&[Failing(MAIN, 1)], &[Failing(MAIN, 1)]], IN_SET_1),
    ]
}

const IN_SET_1: &str = "refused 8 Device in set 1\n";

const IN_SET_2: &str = "refused 8 Device in set 2\n";

#[test]
fn the_set_that_cannot_be_read_is_reported(rt: HostRuntime) {
    for (files, reported) in unread_sets() {
        let row = Row {
            name: reported,
            job: Compare,
            files,
            reported,
            ..STOPPED
        };
        ends(&rt, &row);
    }
}

/// Comparisons, and an output that takes just the answer, or less than that.
fn compared() -> [Row; 3] {
    [
        Row {
            name: "one map, and an output that takes just the answer",
            job: Compare,
            files: [PARTED, TURNED],
            capacity: [5, 1000],
            lines: &["same"],
            ..DONE
        },
        Row {
            name: "different maps, and an output that takes just the answer",
            job: Compare,
            files: [STEM, &[Whole(OTHER_ADDRESSES)]],
            capacity: [10, 1000],
            status: 1,
            lines: &["different"],
            ..DONE
        },
        Row {
            name: "one map, and an output that takes less than the answer",
            job: Compare,
            files: [STREET, TURNED],
            capacity: [4, 1000],
            lines: &["same"],
            written: 4,
            reported: "refused 10 WriteFault 4\n",
            ..STOPPED
        },
    ]
}

#[test]
fn comparisons_print_one_line(rt: HostRuntime) {
    for row in &compared() {
        ends(&rt, row);
    }
}

/// A job on Main St, how many bytes a write takes at most, how many the output takes, the whole output, and the reported lines. Where a
/// write takes nothing, nothing is written.
type Limited = (Job, usize, usize, &'static [&'static str], &'static str);

/// Outputs that take nothing, less than one write, some writes, and all but the last byte.
fn full() -> [Limited; 8] {
    [
        (Respell, 7, 0, RESPELT, "refused 10 WriteFault 0\n"),
        (Respell, 7, 6, RESPELT, "refused 10 WriteFault 6\n"),
        (Respell, 7, 300, RESPELT, "refused 10 WriteFault 300\n"),
        (Respell, 1000, 356, RESPELT, "refused 10 WriteFault 356\n"),
        (Respell, 0, 1000, RESPELT, "refused 10 WriteFault 0\n"),
        (Normalise, 7, 300, MAIN_TEXT, "refused 10 WriteFault 300\n"),
        (Check, 4, 8, ACCEPTED, "refused 10 WriteFault 8\n"),
        (Fingerprint, 7, 64, PRINT, "refused 10 WriteFault 64\n"),
    ]
}

#[test]
fn an_output_stops_when_its_device_is_full(rt: HostRuntime) {
    for (job, step, capacity, lines, reported) in full() {
        let row = Row {
            name: reported,
            job,
            files: [STREET, &[]],
            step,
            capacity: [capacity, 1000],
            lines,
            written: if step == 0 { 0 } else { capacity },
            reported,
            ..STOPPED
        };
        ends(&rt, &row);
    }
}

#[test]
fn an_output_is_the_same_whatever_the_steps(rt: HostRuntime) {
    for step in [1, 7, 356, 357, 4096] {
        let row = Row {
            files: [STREET, &[]],
            step,
            lines: RESPELT,
            ..DONE
        };
        ends(&rt, &row);
    }
}
