//! Laws about which arguments are a valid command line. The functions do nothing; their contracts are the laws.

ghost use Rattle.command_line.specs.Names.{AreUsualWordsPlanned, TakesNoMask};
ghost use Rattle.command_line.specs.declared.plans.Job.{Job};

/// The usual command lines, as in the help, are valid, and a plan with the files of the sets that they name is their plan. They
/// have the name of a job, `--stem` if sets are named by their stems, a flag for each kind of field that is left out if the job
/// prints or compares maps, and a name for each set that doesn't begin with a hyphen.
pub fn usual_words_are_planned()
    ensures { AreUsualWordsPlanned }
{}

/// Respelling and checking have no flags that leave fields out. Arguments of one form aren't a valid command line: the job, perhaps
/// `--stem`, one or both of these flags, and a name. Nothing is said about other orders.
pub fn masks_are_for_jobs_on_maps()
    ensures respell { TakesNoMask Job.Respell }
    ensures check { TakesNoMask Job.Check }
{}
