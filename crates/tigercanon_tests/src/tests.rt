//! Tests of whole calls: sets and their texts, comparisons, masks, and jobs over files and devices that transfer little and fail.

mod callers;
mod canonical;
mod comparing;
mod masked;
mod running;
mod texts;
mod whole_calls;

use std::process::Abort;
use test_support::sets;

/// What tests need of the runtime: to end the process, and to take memory.
trait Host: Abort + AllocGlobal {}

impl<R: Abort + AllocGlobal> Host for R {}

/// Returns the lines of the patterns, each terminated by LF.
fn lines_of(rt: &impl Host, patterns: &[&str]) -> Vec<u8> {
    sets::lines_of(rt.alloc(), patterns).expect(rt, "there is memory")
}
