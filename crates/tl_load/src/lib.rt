//! Loads TIGER/Line 2006 records: splits pieces of bytes into lines, judges each line by its layout, and reports the first
//! fault.
//!
//! Start with [`Loader::new`]. For each part call [`Loader::feed`] with its bytes in any pieces, and then
//! [`Loader::end_part`]; or call [`Loader::read_part`] with a [`Source`], such as a [`Counted`] reader. [`Loader::finish`]
//! returns the records or the first [`LoadFault`]. A [`LoaderFor`] reads through its caller's buffer, and passes each record to a
//! [`Collector`]: tables by type, or [`CanonicalText`]. The crate `uses` has a proved caller, in `pieces.rt`.
#![tactic(auto)]

mod bytes;
mod collector;
mod fault;
mod judge;
mod laws;
mod line;
mod loader;
mod loader_for;
mod source;

pub use bytes::first_bad;
pub use collector::{CanonicalText, Collector};
pub use fault::{LineFault, LoadFault};
pub use laws::{
    line_has_record, line_is_judged_as_its_record, parts_may_be_cut_between_lines,
    sets_of_the_same_lines_are_alike, spelled_or_one_fault, spelled_records_fit,
    text_spells_its_records,
};
pub use loader::Loader;
pub use loader_for::LoaderFor;
pub use source::{Counted, SlowSource, Source};
