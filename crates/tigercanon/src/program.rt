//! What the program does: it turns files into sources, does a job, prints the result and reports why a job stopped.

pub(crate) mod counted;
pub(crate) mod ending;
pub(crate) mod files;
pub(crate) mod jobs;
pub(crate) mod running;
