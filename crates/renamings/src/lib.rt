//! Renamings: which old number became which new one, and which chains were turned.
//!
//! `Renaming::of_parts` makes a renaming from its six lists, and its getters return them. `inverse` is the renaming back, and `then` is
//! one renaming after another. `Images` and `SortedNumbers` look numbers up in tables, and never search along a list. `tl_cert` checks
//! whether a renaming carries one county onto another. `citing.rt` of the crate `uses` has a proved caller.
#![tactic(auto)]

mod composing;
mod images;
mod pairs;
mod renaming;
mod sorted_numbers;
mod turning;

pub use county_chart::PolygonKey;
pub use images::Images;
pub use renaming::{Renaming, RenamingParts};
pub use sorted_numbers::SortedNumbers;
