//! Checking renamings.
//!
//! `check` decides whether a renaming carries one county onto another. It accepts any counties and any renaming: it returns `false` if
//! the renaming doesn't pair their numbers. `check_masked` decides the same for two counties under a mask, which it reads through
//! references (`Lent`). Numbers are sorted and looked up in tables, never searched along a list. A `Renaming` is made in `renamings`,
//! whose public items are public here too.
#![tactic(auto)]

mod carrying;
mod chains;
mod links;
mod numbers_paired;
mod pairing;
mod parts;
mod renaming_tables;

pub use carrying::{check, check_masked};
pub use renamings::{Images, PolygonKey, Renaming, RenamingParts, SortedNumbers};
