//! Parsing the arguments of a command line.

ghost use Rattle.clap.specs.Words.{Text, first_of, found_of, kind_of, rows_of};
ghost use Rattle.clap.specs.Simple.{subcommand_rows_of};
ghost use Rattle.clap.specs.declared.error.kind.ErrorKind.TheVariants.{OutOfMemory};
ghost use Rattle.std.specs.Prelude.{Bool, IfErr, IfOk, IfSome, List, OnOk, Some, map, string_bytes, ◌≡◌};
ghost use Rattle.command_line.specs.Names.{AreFilesOf, AreSecondOf, AreUnderstood, IsMaskGiven, IsPlanOf, IsPlanned, NamesItsSets};
ghost use Rattle.command_line.specs.Words.{word_of};
ghost use Rattle.command_line.specs.declared.plans.Job.{Job};
ghost use Rattle.command_line.specs.declared.plans.Plan.{Plan};

use crate::command::{FIRST, NO_RESERVED, NO_SOURCES, SECOND, STEM, command};
use crate::names::files_of;
use crate::plans::{Job, Plan, PlanFault};
use clap::ArgMatches;
use clap::error::ErrorKind;
use std::alloc::{AllocError, Global};
use tl_layout::Mask;

fn job_named(name: &str) -> Option<Job>
    ensures named { IfSome result (λ job. name.now ≡ word_of job) }
    ensures known { (job : Job) → name.now ≡ word_of job → result ≡ Some job }
{
    match name {
        "respell" => Some(Job::Respell),
        "normalise" => Some(Job::Normalise),
        "check" => Some(Job::Check),
        "fingerprint" => Some(Job::Fingerprint),
        "compare" => Some(Job::Compare),
        _ => None,
    }
}

/// Converts an error of the parser.
fn fault_of(alloc: Global, error: &clap::Error) -> PlanFault
    ensures { kind_of error.now ≡ OutOfMemory → result ≡ PlanFault.Memory }
{
    if error.kind() == ErrorKind::OutOfMemory {
        return PlanFault::Memory;
    }
    match format!(in alloc; "{error}") {
        Ok(text) => PlanFault::Usage(text),
        Err(_) => PlanFault::Memory,
    }
}

fn usage_text(alloc: Global) -> Result<String, AllocError> {
    let mut command = command(alloc)?;
    command.render_usage()
}

/// Returns the fault with the program's usage message.
fn usage(alloc: Global) -> PlanFault {
    match usage_text(alloc) {
        Ok(text) => PlanFault::Usage(text),
        Err(_) => PlanFault::Memory,
    }
}

/// Returns the file names of the set that this argument names.
fn files_given(
    alloc: Global,
    given: &ArgMatches<'_>,
    argument: &str,
    is_stem: bool,
) -> Result<Vec<String>, PlanFault>
    ensures files { IfOk result (λ names. AreFilesOf (rows_of (found_of given.now)) argument.now is_stem (map string_bytes names.items)) }
    ensures usage { (name : Text) → first_of argument.now (rows_of (found_of given.now)) ≡ Some name →
        IfErr result (λ fault. fault ≡ PlanFault.Memory) }
{
    match given.get_str(argument) {
        Some(name) => Ok(files_of(alloc, name, is_stem)?),
        None => Err(usage(alloc)),
    }
}

/// Returns the file names of a second set, if the job has one.
fn second_files_given(
    alloc: Global,
    job: Job,
    given: &ArgMatches<'_>,
    is_stem: bool,
) -> Result<Vec<String>, PlanFault>
    ensures files { IfOk result (λ names. AreSecondOf (rows_of (found_of given.now)) job is_stem (map string_bytes names.items)) }
    ensures usage { (stem : Bool) (names : List Text) → AreSecondOf (rows_of (found_of given.now)) job stem names →
        IfErr result (λ fault. fault ≡ PlanFault.Memory) }
{
    match job {
        Job::Compare => files_given(alloc, given, SECOND, is_stem),
        Job::Respell | Job::Normalise | Job::Check | Job::Fingerprint => Ok(Vec::new(alloc)),
    }
}

/// Returns the fields that the arguments leave out.
fn mask_given(given: &ArgMatches<'_>) -> Mask
    ensures { IsMaskGiven (rows_of (found_of given.now)) result }
{
    Mask {
        sources: given.get_flag(NO_SOURCES),
        reserved: given.get_flag(NO_RESERVED),
    }
}

/// Returns the plan to do a job for the sets that the arguments name.
fn plan_of(alloc: Global, job: Job, given: &ArgMatches<'_>) -> Result<Plan, PlanFault>
    ensures job { IfOk result (λ p. p.job ≡ job) }
    ensures sets { IfOk result (NamesItsSets (rows_of (found_of given.now))) }
    ensures usage { (p : Plan) → p.job ≡ job → NamesItsSets (rows_of (found_of given.now)) p →
        IfErr result (λ fault. fault ≡ PlanFault.Memory) }
{
    let is_stem = given.get_flag(STEM);
    Ok(Plan {
        job,
        mask: mask_given(given),
        first: files_given(alloc, given, FIRST, is_stem)?,
        second: second_files_given(alloc, job, given, is_stem)?,
    })
}

/// Returns the plan that parsed arguments ask for.
fn plan_in(alloc: Global, matches: &ArgMatches<'_>) -> Result<Plan, PlanFault>
    ensures planned { IfOk result (IsPlanOf (subcommand_rows_of matches.now)) }
    ensures usage { (p : Plan) → IsPlanOf (subcommand_rows_of matches.now) p → IfErr result (λ fault. fault ≡ PlanFault.Memory) }
{
    let Some((name, given)) = matches.subcommand() else {
        return Err(usage(alloc));
    };
    match job_named(name) {
        Some(job) => plan_of(alloc, job, given),
        None => Err(usage(alloc)),
    }
}

/// Parses the arguments of a command line, without the program's own name.
///
/// # Errors
///
/// `Usage` with the text to print if the arguments ask for help or the version, or aren't valid; `Memory` if there wasn't enough
/// memory.
pub fn plan(alloc: Global, words: &[String]) -> Result<Plan, PlanFault>
    ensures planned { IfOk result (IsPlanned (map string_bytes words.now)) }
    ensures understood { OnOk result (AreUnderstood (map string_bytes words.now)) }
    // If there is a plan for the arguments, only running out of memory prevents it. `Usage` is returned only for other
    // arguments.
    ensures usage { (p : Plan) → AreUnderstood (map string_bytes words.now) → IsPlanned (map string_bytes words.now) p →
        IfErr result (λ fault. fault ≡ PlanFault.Memory) }
{
    match command(alloc)?.try_get_matches_from(words) {
        Ok(matches) => plan_in(alloc, &matches),
        Err(error) => Err(fault_of(alloc, &error)),
    }
}
