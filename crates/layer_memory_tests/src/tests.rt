//! Tests that refuse memory to single layers, and tests in which a layer needs much memory.

mod comparing;
mod hoard;
mod many;
mod refusals;

use std::process::Abort;
use test_support::sets;
use tl_county::County;

/// What tests need of the runtime: to end the process, to take memory and to print.
trait Host: Abort + AllocGlobal + Print {}

impl<R: Abort + AllocGlobal + Print> Host for R {}

/// Returns the lines of the patterns, each terminated by LF.
fn lines_of(rt: &impl Host, patterns: &[&str]) -> Vec<u8> {
    sets::lines_of(rt.alloc(), patterns).expect(rt, "there is memory")
}

fn county_of(rt: &impl Host, row: &str, set: &[u8]) -> County {
    sets::county_of(rt.alloc(), set).expect(rt, row)
}
