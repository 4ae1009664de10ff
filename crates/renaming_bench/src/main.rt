//! Checks the renaming between two files of one map, so that its time can be measured:
//!
//!     renaming_bench check FILE OTHER
//!     renaming_bench link FILE OTHER
//!
//! Both commands make the renaming and the counties of both files. `check` also checks that the renaming carries the first county
//! onto the second. If so, the program prints `carried` and exits with 0, otherwise with 1. The difference between the two times is
//! the time of the checker.
#![tactic(auto)]

use std::alloc::Global;
use std::io::Write;
use std::process::ExitCode;
use std::{env, fs, io};
use tigercanon::{Fault, Verdict, compare};
use tl_cert::check;
use tl_county::{County, link};
use tl_load::Loader;

/// The county of a file's records.
fn county_of(alloc: Global, file: &[u8]) -> Result<County, Fault> {
    let mut loader = Loader::new(alloc);
    loader.feed(file)?;
    loader.end_part()?;
    let records = loader.finish()?;
    Ok(link(alloc, records)?)
}

/// Whether the renaming between the files carries; it is checked only if `is_checked`. `false` also if the files aren't one map, or
/// if an allocation failed.
fn carries(alloc: Global, file: &[u8], other: &[u8], is_checked: bool) -> bool {
    let Ok(Verdict::Same(renaming)) = compare(alloc, &[file], &[other]) else {
        return false;
    };
    let Ok(from) = county_of(alloc, file) else {
        return false;
    };
    let Ok(onto) = county_of(alloc, other) else {
        return false;
    };
    !is_checked || check(alloc, &from, &onto, &renaming) == Ok(true)
}

/// The result of the job that the command line asks for.
fn outcome(rt: &HostRuntime) -> io::Result<bool> {
    let mut words = env::args(rt)?.skip(1);
    let (Some(job), Some(file), Some(other)) = (words.next(), words.next(), words.next()) else {
        return Ok(false);
    };
    let file = fs::read(rt, file.as_str())?;
    let other = fs::read(rt, other.as_str())?;
    Ok(carries(rt.alloc(), &file, &other, job.as_str() == "check"))
}

fn main(rt: HostRuntime) -> ExitCode {
    if let Ok(true) = outcome(&rt) {
        let _ = rt.stdout().write_all(b"carried\n");
        return ExitCode::SUCCESS;
    }
    ExitCode::from(1)
}
