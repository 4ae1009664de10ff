//! Tests of how the calls of the layers below `tigercanon` behave if memory is refused, or if a county takes much of it.
//!
//! They are in a separate crate, so that they are proved beside `tigercanon` and not after it.
#![tactic(auto)]

#[cfg(test)]
mod tests;
