//! Finds lines that are already spelled as they would be written, so that they can be copied without being read.
//!
//! [`CanonicalLine::is_canonical`] tests a full line by its columns: numbers, points and places must be spelled canonically, fillers
//! must be blank, and the version may be any. [`copy_line`] appends such a line with the version 2006.
#![tactic(auto)]

mod canonical;
mod copy;
mod number;
mod places;
mod point;

pub use canonical::CanonicalLine;
pub use copy::copy_line;
