//! Tests of the layers below `tigercanon`: getters, counties and renamings as values, and devices that transfer little and fail.
//!
//! They are in a separate crate, so that they are proved beside `tigercanon` and not after it.
#![tactic(auto)]

#[cfg(test)]
mod tests;
