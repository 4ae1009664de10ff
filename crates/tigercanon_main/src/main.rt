//! The program `tigercanon`: reads the command line, opens the files that it names, and does the job.
#![tactic(auto)]

use std::alloc::AllocError;
use std::env;
use std::fs::{self, File};
use std::process::ExitCode;
use tigercanon::{
    FIRST, Opened, Plan, PlanFault, SECOND, Stopped, args_error, exit_status, job_status, open_set,
    plan, run_counted, words_of,
};
use tl_write::CountedOut;

/// Returns the command-line arguments, without the program's own name.
fn words(rt: &HostRuntime) -> Result<Vec<String>, PlanFault> {
    match env::args(rt) {
        Ok(args) => Ok(words_of(rt.alloc(), args)?),
        Err(error) => Err(args_error(rt.alloc(), &error)),
    }
}

/// Opens the files with these names, in order, and keeps the outcome of each.
fn open_all(rt: &HostRuntime, names: &[String]) -> Result<Vec<Opened<File>>, AllocError> {
    names
        .iter()
        .map(|name| Opened::of(fs::open(rt, name.as_str())))
        .collect(rt.alloc())
}

/// Opens the files of both sets, does the job over them, and returns its exit status, or why the files weren't opened.
fn done(rt: &HostRuntime, planned: &Plan) -> Result<u8, Stopped> {
    let alloc = rt.alloc();
    let job = planned.job;
    let mut first = open_set(alloc, job, FIRST, open_all(rt, &planned.first))?;
    let mut second = open_set(alloc, job, SECOND, open_all(rt, &planned.second))?;
    let mut out = CountedOut::new(rt.stdout());
    let mut err = CountedOut::new(rt.stderr());
    Ok(run_counted(
        alloc,
        job,
        &mut first,
        &mut second,
        &mut out,
        &mut err,
        planned.mask,
    ))
}

/// Does what the command line asks for, and returns the exit status.
fn status(rt: &HostRuntime) -> Result<u8, PlanFault> {
    let words = words(rt)?;
    let planned = plan(rt.alloc(), &words)?;
    let mut err = CountedOut::new(rt.stderr());
    Ok(job_status(done(rt, &planned), &mut err))
}

fn main(rt: HostRuntime) -> ExitCode {
    let mut err = CountedOut::new(rt.stderr());
    ExitCode::from(exit_status(status(&rt), &mut err))
}
