//! The commands of the program, with their options.
ghost use Rattle.std.specs.Prelude.{List, ◌≡◌, false, IfOk};
ghost use Rattle.clap.specs.Words.{Rule, app_of, new_app, rule_of};
ghost use Rattle.asm_driver.specs.Words.{capacity as capacity_rule, journal as journal_rule, terms as terms_rule};
ghost use Rattle.asm_driver.specs.Words.{every as every_rule, kind_rule, number_rule};
ghost use Rattle.asm_driver.specs.Words.{AreCommands, AreOptions, IsCommand, bare_program, commands, program};
ghost use Rattle.asm_driver.specs.Words.{run_rules, trace_rules, with_rules};

use asm_row::CAPACITY_LIMIT;
use clap::{Arg, ArgAction, Command, value_parser};
use std::alloc::{AllocError, Global};

const ABOUT: &str =
    "Plays the steps of an abstract state machine's agents on one storage, checks, rewrites and traces journals, audits runs, and explains why a text is refused";

const ABOUT_RUN: &str = "Plays a script, which is read from standard input, and writes the report";

const ABOUT_CHECK: &str =
    "Checks a journal of at most 16777216 bytes, which is read from standard input, and writes whether it is legal; audit has no such limit";

const ABOUT_REWRITE: &str =
    "Rewrites a journal of at most 16777216 bytes, which is read from standard input, in version 2, and doesn't check it; audit has no such limit";

const ABOUT_TRACE: &str =
    "Traces a journal of at most 16777216 bytes, which is read from standard input, and writes what each call did; with an option it traces a window of a run of any length, judges only the part with that window, from the state in its header, and holds the window's text in memory until its end was read";

const ABOUT_EXPLAIN: &str =
    "Explains where and why a script or a journal, which is read from standard input, is refused";

const ABOUT_AUDIT: &str =
    "Audits a run of any length, whose parts are journals and are read from standard input, and writes whether it is legal";

fn capacity_option<'a>(alloc: Global) -> Arg<'a>
    ensures rule { rule_of result ≡ capacity_rule }
    ensures local { result.global ≡ false }
{
    Arg::new(alloc, "capacity")
        .long("capacity")
        .action(ArgAction::Set)
        .value_parser(value_parser!(u32).range(1..=i64::from(CAPACITY_LIMIT)))
        .default_value("4096")
        .value_name("N")
        .help("How many moves may be fired, from 1 to 1048576")
}

fn journal_option<'a>(alloc: Global) -> Arg<'a>
    ensures rule { rule_of result ≡ journal_rule }
    ensures local { result.global ≡ false }
{
    Arg::new(alloc, "journal")
        .long("journal")
        .action(ArgAction::SetTrue)
        .help("Writes the journal of the calls in place of the report")
}

fn terms_option<'a>(alloc: Global) -> Arg<'a>
    ensures rule { rule_of result ≡ terms_rule }
    ensures local { result.global ≡ false }
{
    Arg::new(alloc, "terms")
        .long("terms")
        .action(ArgAction::SetTrue)
        .help("Writes behind the report where terms had no value, and why")
}

// Return an option with a number of 32 bits.
fn number_option<'a>(alloc: Global, name: &'a str, help: &'a str) -> Arg<'a>
    ensures rule { rule_of result ≡ number_rule name.now }
    ensures local { result.global ≡ false }
{
    Arg::new(alloc, name)
        .long(name)
        .action(ArgAction::Set)
        .value_parser(value_parser!(u32).range(0..=4_294_967_295))
        .value_name("N")
        .help(help)
}

fn every_option<'a>(alloc: Global) -> Arg<'a>
    ensures rule { rule_of result ≡ every_rule }
    ensures local { result.global ≡ false }
{
    Arg::new(alloc, "every")
        .long("every")
        .action(ArgAction::Set)
        .value_parser(value_parser!(u32).range(1..=4_294_967_295))
        .value_name("N")
        .help("Writes so far CALLS MOVES PARTS after each N calls, from 1 to 4294967295")
}

fn kind_word<'a>(alloc: Global) -> Arg<'a>
    ensures rule { rule_of result ≡ kind_rule }
    ensures local { result.global ≡ false }
{
    Arg::new(alloc, "kind")
        .action(ArgAction::Set)
        .required(true)
        .value_name("script|journal")
        .help("What the text should be")
}

// Return the options of `run`.
fn run_options<'a>(alloc: Global) -> Result<Vec<Arg<'a>>, AllocError>
    ensures { IfOk result (λ v. AreOptions run_rules v.items) }
{
    Ok(vec![in alloc;
        capacity_option(alloc),
        journal_option(alloc),
        terms_option(alloc),
    ]?)
}

// Return the options of `trace`.
fn trace_options<'a>(alloc: Global) -> Result<Vec<Arg<'a>>, AllocError>
    ensures { IfOk result (λ v. AreOptions trace_rules v.items) }
{
    Ok(vec![in alloc;
        number_option(
            alloc,
            "part",
            "Which part of the run, counted from 0; 0 where it isn't given"
        ),
        number_option(
            alloc,
            "from",
            "The window's first call, counted from 0 in its part; 0 where it isn't given"
        ),
        number_option(
            alloc,
            "to",
            "The call behind the window's last one; the end of its part where it isn't given"
        ),
    ]?)
}

// Return the command with this name and these options.
fn command<'a>(
    alloc: Global,
    name: &'a str,
    about: &'a str,
    options: Vec<Arg<'a>>,
) -> Result<Command<'a>, AllocError>
    ensures { (rules : List Rule) → AreOptions rules options.entry.items → IfOk result (IsCommand (with_rules (new_app name.entry.now) rules)) }
{
    Command::new(alloc, name).about(about).args(options)
}

/// Return the commands of the program, in the order of its help.
pub fn subcommands<'a>(alloc: Global) -> Result<Vec<Command<'a>>, AllocError>
    ensures { IfOk result (λ v. AreCommands commands v.items) }
{
    let kind = vec![in alloc; kind_word(alloc)]?;
    let every = vec![in alloc; every_option(alloc)]?;
    Ok(vec![in alloc;
        command(alloc, "run", ABOUT_RUN, run_options(alloc)?)?,
        command(alloc, "check", ABOUT_CHECK, Vec::new(alloc))?,
        command(alloc, "rewrite", ABOUT_REWRITE, Vec::new(alloc))?,
        command(alloc, "trace", ABOUT_TRACE, trace_options(alloc)?)?,
        command(alloc, "explain", ABOUT_EXPLAIN, kind)?,
        command(alloc, "audit", ABOUT_AUDIT, every)?,
    ]?)
}

/// Return the program without its commands.
pub fn bare_program<'a>(alloc: Global) -> Command<'a>
    ensures { app_of result ≡ bare_program }
{
    Command::new(alloc, "asm_driver")
        .about(ABOUT)
        .version("0.2.0")
        .subcommand_required(true)
}

/// Return the program with its commands.
pub(crate) fn program_command<'a>(alloc: Global) -> Result<Command<'a>, AllocError>
    ensures app { IfOk result (λ c. app_of c ≡ program) }
{
    bare_program(alloc).subcommands(subcommands(alloc)?)
}
