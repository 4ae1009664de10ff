//! Tests that need a running call of a layer.

mod carrying;
mod comparing;
mod counties;
mod fields;
mod lanes;
mod loading;
mod masks;
mod sinks;
mod texts;

use std::process::Abort;
use test_support::sets;
use tl_county::County;

/// What tests need of the runtime: to end the process, and to take memory.
trait Host: Abort + AllocGlobal {}

impl<R: Abort + AllocGlobal> Host for R {}

/// Returns the lines of the patterns, each terminated by LF.
fn lines_of(rt: &impl Host, patterns: &[&str]) -> Vec<u8> {
    sets::lines_of(rt.alloc(), patterns).expect(rt, "there is memory")
}

fn county_of(rt: &impl Host, row: &str, set: &[u8]) -> County {
    sets::county_of(rt.alloc(), set).expect(rt, row)
}
