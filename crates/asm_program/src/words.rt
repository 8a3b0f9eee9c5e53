//! The words of the program, with the name of a file, which `asm_driver` doesn't take.
use asm_driver::{bare_program, shown_text, subcommands};
use clap::builder::ValueParser;
use clap::error::ErrorKind;
use clap::{Arg, ArgAction, ArgMatches, Command, Error};
use std::alloc::{AllocError, Global};

// The kinds of texts that are explained.
static KINDS: [&str; 2] = ["script", "journal"];

// The options that take a number.
const NUMBERS: [&str; 5] = ["capacity", "part", "from", "to", "every"];

/// The kinds of texts that are read completely before they are judged.
#[derive(Clone, Copy, PartialEq, Eq)]
pub(crate) enum TextKind {
    Script,
    Journal,
}

/// What is asked for.
#[derive(Clone, Copy)]
pub(crate) struct Invocation<'a> {
    /// The command.
    pub(crate) command: &'a str,
    /// Whether a journal is written in place of a report, or terms after it.
    pub(crate) has_journal: bool,
    pub(crate) has_terms: bool,
    /// Whether the calls of a window are asked for.
    pub(crate) is_window: bool,
    /// The file that is read.
    pub(crate) file: Option<&'a str>,
}

impl Invocation<'_> {
    /// Return whether the input is a run, which is read line by line.
    pub(crate) fn is_run(self) -> bool {
        self.is_window || self.command == "audit"
    }

    /// Return what kind of text is read, if it isn't a run.
    pub(crate) fn kind(self) -> TextKind {
        if self.command == "run" {
            TextKind::Script
        } else {
            TextKind::Journal
        }
    }

    /// Return whether lines of terms may be written: only a report is asked for.
    pub(crate) fn reports_terms(self) -> bool {
        self.command == "run" && !self.has_journal && !self.has_terms
    }

    /// Return whether a journal is asked for.
    pub(crate) fn wants_journal(self) -> bool {
        self.has_journal || self.command == "rewrite"
    }
}

/// What is asked for instead of a command, or why there is none.
#[derive(Drop)]
pub(crate) enum NoRequest {
    /// Help is asked for.
    Help,
    /// The version is asked for.
    Version,
    /// The words are refused, with this text.
    Wrong(String),
    /// Memory was refused.
    Memory,
}

impl From<AllocError> for NoRequest {
    fn from(_refused: AllocError) -> NoRequest {
        NoRequest::Memory
    }
}

fn file<'a>(alloc: Global) -> Arg<'a> {
    Arg::new(alloc, "file")
        .action(ArgAction::Set)
        .value_name("FILE")
}

// Return the program of `asm_driver`, where each command takes a file.
fn program<'a>(alloc: Global) -> Result<Command<'a>, AllocError> {
    let mut program = bare_program(alloc);
    for command in subcommands(alloc)? {
        program = program.subcommand(command.arg(file(alloc))?)?;
    }
    Ok(program)
}

// Return what is said of an error.
fn refused_by(alloc: Global, error: &Error) -> NoRequest {
    match error.kind() {
        ErrorKind::OutOfMemory => NoRequest::Memory,
        ErrorKind::DisplayHelp => NoRequest::Help,
        ErrorKind::DisplayVersion => NoRequest::Version,
        _ => match error.to_string(alloc) {
            Ok(text) => NoRequest::Wrong(text),
            Err(_) => NoRequest::Memory,
        },
    }
}

// Return why the words are refused. What a terminal would obey in them is escaped, and long ones are cut.
fn wrong(alloc: Global, words: &[String]) -> Result<NoRequest, AllocError> {
    let mut seen = Vec::new(alloc);
    for word in words {
        seen.push(shown_text(alloc, word.as_str())?)?;
    }
    match program(alloc)?.try_get_matches_from(seen.as_slice()) {
        Ok(_) => Ok(NoRequest::Wrong(String::from_str(
            alloc,
            "asm_driver: the program refuses these words\n",
        )?)),
        Err(error) => Ok(refused_by(alloc, &error)),
    }
}

// Return the words of the command and its options.
fn words_of(
    alloc: Global,
    command: &str,
    options: &ArgMatches<'_>,
) -> Result<Vec<String>, AllocError> {
    let mut words = Vec::new(alloc);
    words.push(String::from_str(alloc, "asm_driver")?)?;
    words.push(String::from_str(alloc, command)?)?;
    if let Some(kind) = options.get_str("kind") {
        words.push(String::from_str(alloc, kind)?)?;
    }
    for name in NUMBERS {
        if let Some(number) = options.get_str(name) {
            words.push(format!(in alloc; "--{name}={number}")?)?;
        }
    }
    for name in ["journal", "terms"] {
        if options.get_flag(name) {
            words.push(format!(in alloc; "--{name}")?)?;
        }
    }
    Ok(words)
}

// Return whether the window would end before it begins.
fn is_backward(options: &ArgMatches<'_>) -> bool {
    match options.get_one::<u32>("to") {
        Some(to) => options.get_one::<u32>("from").unwrap_or(0) > to,
        None => false,
    }
}

// Return what `clap` says of a text's kind, if there is no such kind.
fn why_no_kind(alloc: Global, kind: &str) -> Result<Option<String>, AllocError> {
    let mut words = Vec::new(alloc);
    words.push(String::from_str(alloc, "asm_driver")?)?;
    words.push(String::from_str(alloc, "--")?)?;
    words.push(shown_text(alloc, kind)?)?;
    let known = Arg::new(alloc, "kind")
        .required(true)
        .value_parser(ValueParser::Names(&KINDS))
        .value_name("script|journal");
    match Command::new(alloc, "asm_driver")
        .arg(known)?
        .try_get_matches_from(words.as_slice())
    {
        Ok(_) => Ok(None),
        Err(error) => Ok(Some(error.to_string(alloc)?)),
    }
}

// Return why `asm_driver` refuses the options, if it does.
fn why_refused(alloc: Global, options: &ArgMatches<'_>) -> Result<Option<String>, AllocError> {
    if let Some(kind) = options.get_str("kind") {
        return why_no_kind(alloc, kind);
    }
    if is_backward(options) {
        let from = options.get_one::<u32>("from").unwrap_or(0);
        let to = options.get_one::<u32>("to").unwrap_or(0);
        return Ok(Some(format!(in alloc;
            "error: --from {from} stands behind --to {to}, so there is no such window\n"
        )?));
    }
    Ok(None)
}

fn invocation_of<'a>(
    alloc: Global,
    command: &'a str,
    options: &ArgMatches<'a>,
) -> Result<Invocation<'a>, NoRequest> {
    if let Some(why) = why_refused(alloc, options)? {
        return Err(NoRequest::Wrong(why));
    }
    Ok(Invocation {
        command,
        has_journal: options.get_flag("journal"),
        has_terms: options.get_flag("terms"),
        is_window: ["part", "from", "to"]
            .iter()
            .any(|name| options.get_str(*name).is_some()),
        file: options.get_str("file"),
    })
}

/// Return what the words ask for, and the words without the file.
/// The latter begin with the program's name.
pub(crate) fn read_words<'a>(
    alloc: Global,
    words: &'a [String],
) -> Result<(Invocation<'a>, Vec<String>), NoRequest> {
    let matches = match program(alloc)?.try_get_matches_from(words) {
        Ok(matches) => matches,
        Err(error) => match error.kind() {
            ErrorKind::OutOfMemory => return Err(NoRequest::Memory),
            _ => return Err(wrong(alloc, words)?),
        },
    };
    match matches.subcommand() {
        Some((command, options)) => Ok((
            invocation_of(alloc, command, options)?,
            words_of(alloc, command, options)?,
        )),
        None => Err(NoRequest::Memory),
    }
}
