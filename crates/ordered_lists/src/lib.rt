//! Lists in order, over any key: sorted, without repetitions, and searched.
//!
//! `Key` is a key that orders items exactly: keys that compare as equal are the same key. `sort_keys` and `sort_distinct` put keys in
//! order, and `place_of` finds one. A `NumberSet` collects numbers, each once; `marks_of` makes a table of marks in which `is_marked`
//! looks a number up by one read. `bring_close` moves items close to the order of their numbers, and `near_places` finds the places
//! of items in that order. The definitions are in `specs`, and the lemmas about lists in order, which the crates above cite, in
//! `proofs`.
#![tactic(auto)]

mod keys;
mod marks;
mod near_order;
mod number_set;

pub use keys::{Key, place_of, sort_distinct, sort_keys};
pub use marks::{is_marked, marks_of};
pub use near_order::{all_places, bring_close, near_places};
pub use number_set::NumberSet;
