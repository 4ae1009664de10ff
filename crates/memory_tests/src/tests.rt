//! Tests of whole calls to which memory is refused, and of calls that take much.

mod comparing;
mod hoard;
mod long;
mod many;
mod refusals;

use std::process::Abort;
use test_support::sets;

/// What tests need of the runtime: to end the process, to take memory and to print.
trait Host: Abort + AllocGlobal + Print {}

impl<R: Abort + AllocGlobal + Print> Host for R {}

/// Returns the lines of the patterns, each terminated by LF.
fn lines_of(rt: &impl Host, patterns: &[&str]) -> Vec<u8> {
    sets::lines_of(rt.alloc(), patterns).expect(rt, "there is memory")
}
