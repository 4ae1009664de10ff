//! The commands of the program, as in its help.

ghost use Rattle.clap.specs.Words.{app_of, rule_of, with_subcommand};
ghost use Rattle.clap.specs.declared.builder.command.Command.TheViews.{out-Command};
ghost use Rattle.std.specs.Prelude.{IfOk, codes, false, ◌≡◌};
ghost use Rattle.command_line.specs.Grammar.{flag_named, over_one_set, over_two_sets, program_alone, set_argument, stem_flag, understood, with_mask};

use clap::{Arg, ArgAction, Command};
use std::alloc::{AllocError, Global};

/// The flag to name sets by their stems.
pub(crate) const STEM: &str = "stem";

/// The flag to leave out the fields that name the source of data.
pub(crate) const NO_SOURCES: &str = "no-sources";

/// The flag to leave out reserved fields.
pub(crate) const NO_RESERVED: &str = "no-reserved";

/// The argument that names the first or only set.
pub(crate) const FIRST: &str = "FIRST";

/// The argument that names the second set.
pub(crate) const SECOND: &str = "SECOND";

/// The program's version, its canonical form, and the logic that it was proved in, which several kits have.
const VERSION: &str = "\
0.1.0
canonical form: tigercanon form 1
proved with: rattle, logic dac8208d650f15bf";

/// The end of the program's help.
const EXAMPLES: &str = "\
Examples:
  tigercanon normalise county.txt > canonical.txt
  tigercanon fingerprint --stem 2006/TGR06001
  tigercanon compare --stem 2006/TGR06001 copy/TGR06001

Exit status:
  0  done; compare: the sets are the same map
  1  compare: the sets are different maps
  2  help was requested, or the command line is wrong
  3  the set is refused; one line on standard error gives the reason and the place
  4  a file or standard output failed
  5  out of memory
";

fn flag<'a>(alloc: Global, name: &'a str, help: &'a str) -> Arg<'a>
    ensures rule { rule_of result ≡ flag_named name.entry.now }
    ensures local { result.global ≡ false }
{
    Arg::new(alloc, name)
        .long(name)
        .action(ArgAction::SetTrue)
        .help(help)
}

fn stem<'a>(alloc: Global) -> Arg<'a>
    ensures rule { rule_of result ≡ stem_flag }
    ensures local { result.global ≡ false }
{
    flag(
        alloc,
        STEM,
        "Read a set from the files NAME.RT1, .RT2, .RT4, .RT5, .RT6, .RT7, .RT8, .RTI and .RTP; all but .RT1 may be absent",
    )
}

/// Adds the flags that leave fields out to a subcommand.
fn masked<'a>(alloc: Global, command: Command<'a>) -> Result<Command<'a>, AllocError>
    requires { (out-Command command).has_globals ≡ false }
    ensures app { IfOk result (λ c. app_of c ≡ with_mask (app_of command.entry)) }
    ensures local { IfOk result (λ c. (out-Command c).has_globals ≡ false) }
{
    let with_sources = command.arg(flag(
        alloc,
        NO_SOURCES,
        "Leave out the fields that name the source of the data: SOURCE of record types 1, 7 and I",
    ))?;
    with_sources.arg(flag(
        alloc,
        NO_RESERVED,
        "Leave out reserved fields: CENSUS1 and CENSUS2 of record type 1, RS_I1, RS_I2 and RS_I3 of type I",
    ))
}

/// Returns a required argument that names a set.
fn set<'a>(alloc: Global, id: &'a str, shown: &'a str, help: &'a str) -> Arg<'a>
    ensures rule { rule_of result ≡ set_argument id.entry.now }
    ensures local { result.global ≡ false }
{
    Arg::new(alloc, id)
        .required(true)
        .action(ArgAction::Set)
        .value_name(shown)
        .help(help)
}

/// Returns a subcommand with an argument that names a set, which the help shows as `shown`.
fn over_one_set<'a>(
    alloc: Global,
    name: &'a str,
    about: &'a str,
    shown: &'a str,
) -> Result<Command<'a>, AllocError>
    ensures app { IfOk result (λ c. app_of c ≡ over_one_set name.entry.now) }
    ensures local { IfOk result (λ c. (out-Command c).has_globals ≡ false) }
{
    let of_stem = Command::new(alloc, name).about(about).arg(stem(alloc))?;
    of_stem.arg(set(
        alloc,
        FIRST,
        shown,
        "The file with all records of a county, or with --stem the beginning of its files' names",
    ))
}

fn compare<'a>(alloc: Global) -> Result<Command<'a>, AllocError>
    ensures app { IfOk result (λ c. app_of c ≡ with_mask (over_two_sets (codes "compare"))) }
    ensures local { IfOk result (λ c. (out-Command c).has_globals ≡ false) }
{
    let of_one = over_one_set(
        alloc,
        "compare",
        "Compare two maps: same or different",
        FIRST,
    )?;
    let of_two = of_one.arg(set(
        alloc,
        SECOND,
        SECOND,
        "Another county, named in the same way",
    ))?;
    masked(alloc, of_two)
}

/// Returns the program without its subcommands.
fn program<'a>(alloc: Global) -> Result<Command<'a>, AllocError>
    ensures { IfOk result (λ c. app_of c ≡ program_alone) }
{
    let named = Command::new(alloc, "tigercanon").bin_name("tigercanon")?;
    Ok(
        named
            .version(VERSION)
            .about(
                "Reads TIGER/Line 2006 record files of one county, checks them, and prints them in canonical form",
            )
            .after_help(EXAMPLES)
            .no_binary_name(true)
            .subcommand_required(true),
    )
}

/// Adds to the program a subcommand that reads one set.
fn with_set_job<'a>(
    alloc: Global,
    program: Command<'a>,
    name: &'a str,
    about: &'a str,
) -> Result<Command<'a>, AllocError>
    ensures { IfOk result (λ c. app_of c ≡ with_subcommand (app_of program.entry) (over_one_set name.entry.now).top) }
{
    program.subcommand(over_one_set(alloc, name, about, "SET")?)
}

/// Adds to the program a subcommand that reads one set and has the flags to leave fields out.
fn with_map_job<'a>(
    alloc: Global,
    program: Command<'a>,
    name: &'a str,
    about: &'a str,
) -> Result<Command<'a>, AllocError>
    ensures { IfOk result (λ c. app_of c ≡ with_subcommand (app_of program.entry) (with_mask (over_one_set name.entry.now)).top) }
{
    program.subcommand(masked(alloc, over_one_set(alloc, name, about, "SET")?)?)
}

/// Returns the grammar of the command line: the subcommands and their arguments.
pub(crate) fn command<'a>(alloc: Global) -> Result<Command<'a>, AllocError>
    ensures { IfOk result (λ c. app_of c ≡ understood) }
{
    let program = with_set_job(
        alloc,
        program(alloc)?,
        "respell",
        "Print the records in canonical spelling, in their order and with their numbers",
    )?;
    let program = with_map_job(
        alloc,
        program,
        "normalise",
        "Print the canonical text of the map that the records describe",
    )?;
    let program = with_set_job(
        alloc,
        program,
        "check",
        "Check whether the records fit together and have a canonical text",
    )?;
    let program = with_map_job(
        alloc,
        program,
        "fingerprint",
        "Print the SHA-256 hash of the canonical text, to cite the map by",
    )?;
    program.subcommand(compare(alloc)?)
}
