//! Tests of how the whole calls behave if memory is refused, or if a county takes much of it.
//!
//! They are in a separate crate, so that the prover can work on them beside `tigercanon_tests`.
#![tactic(auto)]

#[cfg(test)]
mod tests;
