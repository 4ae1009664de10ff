//! What the crates of tests share: sets as patterns of lines, worked sets with their canonical texts, made maps, readers and writers that
//! fail, growths of memory that are refused, and calls that say whether a result is right. Nothing here ends the process, which only a
//! test may do.
#![tactic(auto)]

pub mod devices;
pub mod growths;
pub mod hoard;
pub mod long;
pub mod made;
pub mod masks;
pub mod refused_sets;
pub mod renaming_lists;
pub mod sets;
pub mod twin_sets;
pub mod worked_sets;
pub mod writing;
