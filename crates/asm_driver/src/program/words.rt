//! The program's words.
ghost use Rattle.std.specs.Prelude.{◌≡◌, ◌↔◌, map, IfOk, IfErr, IfSome, IfNone, IsTrue, string_bytes};
ghost use Rattle.clap.specs.Words.{FailsBy, found_of, kind_of, rows_of, subcommand_of, subcommand_rows_of};
ghost use Rattle.asm_driver.specs.Words.{program, faults, Asks, AsksKind, AsksRun};
ghost use Rattle.asm_driver.specs.Words.{AsksAudit, AsksTrace, IsForward, AsksFor, IsNoCommand, IsMadeOf, IsRefusal};

use crate::program::grammar::program_command;
use clap::error::ErrorKind;
use clap::{ArgMatches, Error};
use std::alloc::Global;

// The capacity if none is given; the option's default has the same digits.
const DEFAULT_CAPACITY: u32 = 4096;

/// What the words ask for.
#[derive(Clone, Copy, Debug, PartialEq, Eq)]
pub enum Request {
    /// Play a script with a limit of moves, and write the report or the journal.
    Run { capacity: u32, journal: bool },
    /// Play a script in the same way, and write the report with its terms.
    ///
    /// Behind the report are lines that say which terms had no value.
    Terms { capacity: u32 },
    /// Check a journal.
    Check,
    /// Write a journal again.
    Rewrite,
    /// Write the trace of a journal.
    Trace,
    /// Write the trace of these calls of a run, whose segments are journals.
    Show(Window),
    /// Audit a run, whose segments are journals.
    ///
    /// It writes its progress after each `every` calls, or never if `every` is 0.
    Audit { every: u32 },
    /// Write where and why a text of this kind is refused.
    Explain(TextKind),
}

/// Consecutive calls of a run.
#[derive(Clone, Copy, Debug, PartialEq, Eq)]
pub struct Window {
    /// The number of the segment that they are in. Segments count from 0.
    pub part: u32,
    /// The number of the first of them. Calls of a segment count from 0.
    pub from: u32,
    /// The number of the call behind the last of them.
    ///
    /// `None` if they go on to the segment's end.
    pub to: Option<u32>,
}

impl Window {
    /// Return whether the window doesn't end before it begins.
    fn is_forward(self) -> bool
        ensures { IsTrue result ↔ IsForward self }
    {
        match self.to {
            Some(to) => self.from <= to,
            None => true,
        }
    }
}

/// The kinds of texts that are explained.
#[derive(Clone, Copy, Debug, PartialEq, Eq)]
pub enum TextKind {
    /// A script.
    Script,
    /// A journal.
    Journal,
}

/// Why the words are no request.
#[derive(Drop)]
pub enum WordsError {
    /// Help was asked for: its text.
    Help(String),
    /// The version was asked for.
    Version,
    /// The program doesn't accept these words.
    Bad,
    /// Memory was refused.
    Memory,
}

fn parse<'a>(alloc: Global, words: &'a [String]) -> Result<ArgMatches<'a>, Error>
    ensures matches { IfOk result (λ m. subcommand_rows_of m ≡ subcommand_of program (map string_bytes words.now)) }
    ensures kinds { FailsBy (faults (map string_bytes words.now)) result }
{
    let command = program_command(alloc)?;
    command.try_get_matches_from(words)
}

/// Return what the options of `run` ask for.
fn run_asked(options: &ArgMatches<'_>) -> Request
    ensures { AsksRun (rows_of (found_of options.now)) result }
{
    let capacity = options
        .get_one::<u32>("capacity")
        .unwrap_or(DEFAULT_CAPACITY);
    if options.get_flag("journal") {
        return Request::Run {
            capacity,
            journal: true,
        };
    }
    if options.get_flag("terms") {
        return Request::Terms { capacity };
    }
    Request::Run {
        capacity,
        journal: false,
    }
}

/// Return what the options of `audit` ask for.
fn audit_asked(options: &ArgMatches<'_>) -> Request
    ensures { AsksAudit (rows_of (found_of options.now)) result }
{
    Request::Audit {
        every: options.get_one::<u32>("every").unwrap_or(0),
    }
}

/// Return what the options of `trace` ask for.
///
/// `None` if a window would end before it begins.
fn trace_asked(options: &ArgMatches<'_>) -> Option<Request>
    ensures some { IfSome result (AsksTrace (rows_of (found_of options.now))) }
    ensures none { IfNone result ((r : Request) → ¬ AsksTrace (rows_of (found_of options.now)) r) }
{
    let part = options.get_one::<u32>("part");
    let from = options.get_one::<u32>("from");
    let to = options.get_one::<u32>("to");
    if part.or(from).or(to).is_none() {
        return Some(Request::Trace);
    }
    let window = Window {
        part: part.unwrap_or(0),
        from: from.unwrap_or(0),
        to,
    };
    if window.is_forward() {
        Some(Request::Show(window))
    } else {
        None
    }
}

/// Return the kind of text that the word behind `explain` names, if it is one.
fn kind_asked(options: &ArgMatches<'_>) -> Option<TextKind>
    ensures some { IfSome result (AsksKind (rows_of (found_of options.now))) }
    ensures none { IfNone result ((t : TextKind) → ¬ AsksKind (rows_of (found_of options.now)) t) }
{
    let Some(word) = options.get_str("kind") else {
        return None;
    };
    if word == "script" {
        return Some(TextKind::Script);
    }
    if word == "journal" {
        Some(TextKind::Journal)
    } else {
        None
    }
}

/// Return what the command asks for.
///
/// `None` if there is no command or an unknown one, if `explain` names another kind of text, or if a window of `trace`
/// would end before it begins.
fn asked(matches: &ArgMatches<'_>) -> Option<Request>
    ensures some { IfSome result (Asks (subcommand_rows_of matches.now)) }
    ensures none { IfNone result (IsNoCommand (subcommand_rows_of matches.now)) }
{
    let (name, options) = matches.subcommand()?;
    if name == "run" {
        return Some(run_asked(options));
    }
    if name == "check" {
        return Some(Request::Check);
    }
    if name == "rewrite" {
        return Some(Request::Rewrite);
    }
    if name == "trace" {
        return trace_asked(options);
    }
    if name == "audit" {
        return Some(audit_asked(options));
    }
    if name == "explain" {
        Some(Request::Explain(kind_asked(options)?))
    } else {
        None
    }
}

// Return the error for one of `clap`: to ask for help or the version is no mistake.
fn refusal(alloc: Global, error: &Error) -> WordsError
    ensures { IsMadeOf (kind_of error.now) result }
{
    match error.kind() {
        ErrorKind::OutOfMemory => WordsError::Memory,
        ErrorKind::DisplayHelp => match error.to_string(alloc) {
            Ok(text) => WordsError::Help(text),
            Err(_) => WordsError::Memory,
        },
        ErrorKind::DisplayVersion => WordsError::Version,
        _ => WordsError::Bad,
    }
}

/// Return what the words ask for.
///
/// They begin with the program's name.
///
/// # Errors
///
/// - `Help` if they ask for help.
/// - `Version` if they ask for the version.
/// - `Bad` if they are not the program's name, a command and its options, or if a window of `trace` would end before it
///   begins.
/// - `Memory` only if memory is refused.
pub fn read_words(alloc: Global, words: &[String]) -> Result<Request, WordsError>
    ensures asked { IfOk result (AsksFor (map string_bytes words.now)) }
    ensures refused { IfErr result (IsRefusal (map string_bytes words.now)) }
{
    match parse(alloc, words) {
        Ok(matches) => asked(&matches).ok_or(WordsError::Bad),
        Err(error) => Err(refusal(alloc, &error)),
    }
}
