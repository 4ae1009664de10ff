//! The program's command line, and the plan that it asks for.
//!
//! [`words_of`] takes the arguments of a program, and [`plan`] parses them as `clap` does, with the commands in the help, and returns
//! a [`Plan`]: a [`Job`], the names of the files that it reads, and the fields that it leaves out. If there is no plan, a
//! [`PlanFault`] has the message for the user.
#![tactic(auto)]

mod command;
mod laws;
mod names;
mod planning;
mod plans;
mod words;

pub use laws::{masks_are_for_jobs_on_maps, usual_words_are_planned};
pub use planning::plan;
pub use plans::{Job, Plan, PlanFault};
pub use words::words_of;
