//! Canonical records and their text, written to any sink.
//!
//! If you have a canonical county, `write_to` writes its text to a `Sink`: a writer in a `CountedOut`, a slice in a `SlowSink`,
//! or a sink of your own. `records_of` returns its records as a list, and `write_bytes` writes given bytes. The crate `uses` has a
//! proved caller, in `layers.rt`.
#![tactic(auto)]

mod bytes_out;
mod county_text;
mod fault;
mod sink;
mod slow_sink;
mod text_buffer;
mod visitor;

pub use bytes_out::write_bytes;
pub use county_text::{records_of, records_of_in, write_in, write_to};
pub use fault::WriteFault;
pub use sink::{CountedOut, Sink};
pub use slow_sink::SlowSink;
