//! Faults as every interface reports them: the number, the name and the places of a refusal.
//!
//! This is the one table of refusals. [`FaultKind`] has their numbers and names. A [`FaultReport`] is a kind with up to three
//! places, and [`FaultReport::line`] is the line that the program prints, which `Display` shows too. The fault types of the other
//! crates each have a function `report`.
#![tactic(auto)]

mod kind;
mod line;
mod report;

pub use kind::FaultKind;
pub use line::{LINE_CAPACITY, Line, push, push_digits};
pub use report::{FaultPlace, FaultReport};
