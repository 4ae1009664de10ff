//! Point lists, their order, and chains with their turn.
//!
//! Make a `Shape` of two or more points with `Shape::new`. Make a `Chain` of all that the records of one TLID describe with
//! `Chain::new`, or a `ChainIn` with borrowed lists. Shapes are compared with `cmp`, `is_own_reverse` and `needs_turn`; `turn`
//! turns a chain in place. `IsTurned` defines a turned chain as a relation of two chains, and each chain has exactly one turned
//! chain.
#![tactic(auto)]

mod chain;
mod chain_in;
mod laws;
mod shape;

pub use chain::{Chain, Surroundings};
pub use chain_in::ChainIn;
pub use laws::{each_chain_has_one_turned_chain, point_lists_are_totally_ordered};
pub use shape::Shape;
