//! Canonical counties at sinks in memory.

use tl_county::Chart;
use tl_number::CanonCounty;
use tl_write::{SlowSink, write_in, write_to};

/// Checks whether both calls that write a canonical county write this text. The buffer is at least as long as the text.
pub fn are_written<C: Chart>(county: &CanonCounty<C>, text: &[u8], buffer: &mut [u8]) -> [bool; 2] {
    let len = text.len() as u64;
    let mut sink = SlowSink::new(buffer, 100);
    let is_written = write_to(county, &mut sink) == Ok(len) && sink.held() == text;
    let mut sink = SlowSink::new(buffer, 100);
    let is_written_in = write_in(county, &mut sink) == Ok(len) && sink.held() == text;
    [is_written, is_written_in]
}
