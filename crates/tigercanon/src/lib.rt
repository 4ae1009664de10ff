//! Whole calls over a county's record files, and the command line that makes them.
//!
//! [`normalise`] returns the canonical text of the map that a set of record files describes, and [`normalise_to`] reads the set from
//! sources and writes the text to a sink. [`fingerprint`] returns the hash of that text, and [`compare`] returns whether two sets describe
//! the same map. Each of them has a form for maps under a mask, without the fields that name the sources of the data, or without the
//! reserved ones: [`normalise_masked`] and the like. [`respell`] returns records in canonical spelling, and [`check`] returns whether a set
//! is accepted. [`plan`] reads a command line, and [`run_counted`] does the planned job, over files and outputs that count their failures.
//! [`run`] does it over any files and outputs, by the same call. The crate `tigercanon_main` is the program around these. `alike.rt` and
//! `citing.rt` of the crate `uses` are proved callers.
#![tactic(auto)]

mod fault;
mod laws;
mod library;
mod program;

pub use command_line::{
    Job, Plan, PlanFault, masks_are_for_jobs_on_maps, plan, usual_words_are_planned, words_of,
};
pub use fault::Fault;
pub use laws::{
    a_canonical_text_is_its_own, accepted_set_or_one_refusal,
    an_accepted_set_has_one_canonical_text, one_canonical_text_exactly_for_one_map,
    one_canonical_text_in_each_view, one_canonical_text_under_each_mask,
    sets_of_the_same_lines_are_alike, strict_sets_keep_their_texts,
};
pub use library::checking::check;
pub use library::comparing::{
    CompareFault, FIRST, SECOND, Verdict, are_one_map, are_one_map_masked, compare, compare_masked,
};
pub use library::fingerprinting::{fingerprint, fingerprint_masked};
pub use library::normalising::{
    normalise, normalise_masked, normalise_to, normalise_to_masked, normalise_with_renaming,
    normalise_with_renaming_masked,
};
pub use library::respelling::respell;
pub use program::counted::run_counted;
pub use program::ending::{Stopped, args_error, exit_status, job_status, report};
pub use program::files::{CountedFile, Opened, open_set};
pub use program::running::run;
