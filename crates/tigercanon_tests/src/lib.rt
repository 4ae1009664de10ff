//! Tests of whole calls: worked sets and their texts, comparisons, masks, and jobs over files and devices that fail.
//!
//! They are in a separate crate, so that editing a test doesn't require proving `tigercanon` again.
#![tactic(auto)]

#[cfg(test)]
mod tests;
