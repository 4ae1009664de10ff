//! The calls of the crate `tigercanon` for C, and so for each language that can call C.
//!
//! [`tigercanon_check`], [`tigercanon_respell`], [`tigercanon_normalise`], [`tigercanon_fingerprint`] and [`tigercanon_compare`]
//! take the parts of a set by address and length, return the program's exit status, and report a fault in a struct of numbers
//! ([`FaultNumbers`]). Each has the contract of the library call that it makes. `include/tigercanon.h` declares them for C, and lists
//! the duties of a caller.
#![tactic(auto)]

mod calls;
mod edge;
mod reporting;

pub use edge::{
    FaultNumbers, Hash, Part, Text, tigercanon_check, tigercanon_compare, tigercanon_fingerprint,
    tigercanon_normalise, tigercanon_respell,
};
