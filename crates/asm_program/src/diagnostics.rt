//! What the program says on standard error.
ghost use Rattle.std.specs.Prelude.{◌≢◌, IfOk, IsNone};

use crate::hints::hint;
use crate::input::{Opened, Recorder, RunFolder, Unreadable, open, open_segments};
use crate::output::Output;
use crate::words::{Invocation, NoRequest, TextKind, read_words};
use crate::wrong::wrong_answer;
use asm_driver::{run_folder, run_given, run_main, segment_files, shown_text};
use asm_explain::{Form, explain, explain_journal};
use std::alloc::{AllocError, Global};
use std::io;
use std::io::{Eprint, ErrorKind, Read};
use std::rt::Runtime;
use std::sync::Wait;
use std::thread::Threads;

/// The most bytes that the program reads of a script or a journal.
pub(crate) const INPUT_LIMIT: usize = 16_777_216;

// How many bytes of a run are retained.
const HEAD: usize = 65_536;

// How many lines of terms are written.
const TERMS: usize = 10;

const TOO_LARGE: &str = "more than 16,777,216 bytes, which are the most that the program reads";

const LONG_LINE: &str =
    "a line has more than 1,073,741,824 bytes, which are the most that an audit keeps";

/// Write the text on standard error.
/// If that fails, there is nobody to report it to.
pub(crate) fn print_error<R: Eprint>(rt: &R, text: &str) {
    let _written = rt.eprint(text);
}

// Write this about the input.
fn print_line<R: Eprint>(rt: &R, name: &str, sentence: &str) {
    let _written = eprintln!(rt; "asm_driver: {name}: {sentence}");
}

// Return why the text is refused as one of this kind.
fn refusal_reason(alloc: Global, kind: TextKind, bytes: &[u8]) -> Result<String, AllocError> {
    if bytes.len() > INPUT_LIMIT {
        return String::from_str(alloc, TOO_LARGE);
    }
    let sentence = match kind {
        TextKind::Script => explain(alloc, Form::Script, bytes)?,
        TextKind::Journal => explain_journal(alloc, bytes)?,
    };
    let Some(reason) = sentence else {
        return String::from_str(alloc, "refused");
    };
    match hint(alloc, kind, bytes, reason.as_str())? {
        Some(hint) => format!(in alloc; "{reason} ({hint})"),
        None => Ok(reason),
    }
}

// Return why a run is refused, by the line that reports it and the first bytes of the run.
fn run_refusal_reason(alloc: Global, line: &[u8], head: &[u8]) -> Result<String, AllocError> {
    if line.starts_with(b"the run has ") || line.ends_with(b" calls\n") {
        return String::from_str(
            alloc,
            "the window isn't in the run; parts and calls are counted from 0",
        );
    }
    if line == b"input too large\n".as_slice() {
        return String::from_str(alloc, LONG_LINE);
    }
    let reason = "refused; standard output has the part, counted from 0, and its line";
    match hint(alloc, TextKind::Journal, head, reason)? {
        Some(hint) => format!(in alloc; "{reason} ({hint})"),
        None => String::from_str(alloc, reason),
    }
}

// Return why the status is 1.
fn wrong_answer_reason(
    alloc: Global,
    invocation: Invocation<'_>,
    bytes: &[u8],
) -> Result<String, AllocError> {
    if invocation.command == "check" {
        if let Some(sentence) = wrong_answer(alloc, bytes)? {
            return Ok(sentence);
        }
    }
    let reason = if invocation.is_run() {
        "an answer is wrong; standard output has its part and its call, both counted from 0"
    } else {
        "a move of the run has no receipt, so there is no report"
    };
    String::from_str(alloc, reason)
}

// Return why the request wasn't met, by the status, the line that was written and what was read. With status 0, 3 or 4
// there is nothing to say.
fn reason(
    alloc: Global,
    invocation: Invocation<'_>,
    status: u8,
    line: &[u8],
    bytes: &[u8],
) -> Result<Option<String>, AllocError>
    ensures { (status ≢ 1) → (status ≢ 2) → IfOk result IsNone }
{
    if status != 1 && status != 2 {
        return Ok(None);
    }
    if invocation.command == "explain" {
        return match status {
            2 => Ok(Some(String::from_str(alloc, TOO_LARGE)?)),
            _ => Ok(None),
        };
    }
    let reason = match status {
        1 => wrong_answer_reason(alloc, invocation, bytes)?,
        _ if invocation.is_run() => run_refusal_reason(alloc, line, bytes)?,
        _ => refusal_reason(alloc, invocation.kind(), bytes)?,
    };
    Ok(Some(reason))
}

// Write which terms had no value.
fn print_terms<R: Eprint>(rt: &R, name: &str, terms: &[u8]) {
    let Ok(terms) = std::str::from_utf8(terms) else {
        return;
    };
    for line in terms.lines().take(TERMS) {
        print_line(rt, name, line);
    }
    let more = terms.lines().skip(TERMS).count();
    if more > 0 {
        let _written = eprintln!(rt;
            "asm_driver: {name}: and {more} more steps whose terms have no value"
        );
    }
}

// Write why the program ended so.
fn print_reason<R: Eprint>(rt: &R, name: &str, reason: Result<Option<String>, AllocError>) {
    if let Ok(Some(reason)) = reason {
        print_line(rt, name, reason.as_str());
    }
}

// Do what is asked for with the input, which has this name, and return the status.
fn run_on<R: Runtime + AllocGlobal + Threads + Wait + Sync, I: Read + Drop>(
    rt: &R,
    alloc: Global,
    invocation: Invocation<'_>,
    words: Vec<String>,
    name: &str,
    input: I,
) -> u8 {
    let most = if invocation.is_run() {
        HEAD
    } else {
        usize::MAX
    };
    let mut input = Recorder::new(alloc, input, most);
    let mut output = Output::new(alloc, io::writer(rt), invocation.reports_terms());
    let status = run_main(rt, alloc, words, &mut input, &mut output);
    if input.failed {
        print_line(rt, name, "can't be read");
    } else if let Some(bytes) = input.head() {
        let line = output.last.as_slice();
        print_reason(rt, name, reason(alloc, invocation, status, line, bytes));
    }
    if status == 2 && invocation.wants_journal() {
        print_error(rt, "asm_driver: standard output has no journal\n");
    }
    print_terms(rt, name, output.terms.as_slice());
    status
}

// Return what is wrong with a segment, by the end of the line that reports it.
fn segment_reason(line: &[u8]) -> Option<&'static str> {
    const REASONS: [(&[u8], &str); 6] = [
        (b" damaged\n", "it isn't the text that was saved"),
        (b" missing\n", "a segment before it is missing"),
        (b" twice\n", "another file has the same number"),
        (b" misnamed\n", "this is no name of a segment"),
        (
            b" misplaced\n",
            "its name has another FIRST or PREVIOUS than the segments before it",
        ),
        (
            b" miscounted\n",
            "its name has other MOVES or EVENTS than its text",
        ),
    ];
    for (end, reason) in REASONS {
        if line.starts_with(b"segment ") && line.ends_with(end) {
            return Some(reason);
        }
    }
    None
}

// Return whether the line says that a run is refused.
fn is_refusal(line: &[u8]) -> bool {
    const OTHERS: [&[u8]; 3] = [b"legal ", b"so far ", b"out of memory\n"];
    !line.is_empty() && !OTHERS.iter().any(|other| line.starts_with(*other))
}

// Write why the audit of a folder ended so: where it was, and what is wrong there.
fn print_folder_reason<R: Eprint>(rt: &R, alloc: Global, name: &str, file: &str, line: &[u8]) {
    if file.is_empty() {
        return print_line(rt, name, "it has no file that ends in .journal");
    }
    let Ok(file) = shown_text(alloc, file) else {
        return;
    };
    let reason = if line.is_empty() || line == b"input fault\n".as_slice() {
        "can't be read"
    } else if line == b"input too large\n".as_slice() {
        LONG_LINE
    } else {
        segment_reason(line).unwrap_or(
            "refused; standard output has the segment and its line or call",
        )
    };
    let _written = eprintln!(rt; "asm_driver: {name}: {file}: {reason}");
}

// Audit the run in the folder at this path, and return the status.
fn audit_folder<R: Runtime + AllocGlobal + Threads + Wait + Sync>(
    rt: &R,
    alloc: Global,
    words: &[String],
    name: &str,
    path: String,
    names: &[String],
) -> u8 {
    let mut folder = RunFolder::new(rt, alloc, path);
    let mut output = Output::new(alloc, io::writer(rt), false);
    let status = run_folder(rt, alloc, words, names, &mut folder, &mut output);
    let line = output.last.as_slice();
    if folder.has_failed || is_refusal(line) {
        print_folder_reason(rt, alloc, name, folder.name.as_str(), line);
    }
    status
}

// Say why a folder isn't read.
fn print_unread<R: Eprint>(
    rt: &R,
    alloc: Global,
    invocation: Invocation<'_>,
    name: &str,
    names: &[String],
) -> Result<(), AllocError> {
    if invocation.is_run() {
        print_line(
            rt,
            name,
            "its segments aren't those of a run; audit says which",
        );
        return Ok(());
    }
    let files = segment_files(alloc, names)?;
    let first = match files.first() {
        Some(first) => format!(in alloc; "{name}/{first}")?,
        None => String::from_str(alloc, "none is there")?,
    };
    let first = shown_text(alloc, first.as_str())?;
    let _written = eprintln!(rt;
        "asm_driver: {name}: it is a folder; of a run audit takes all segments, and the other commands take one: {first}"
    );
    Ok(())
}

// Do what is asked for with the folder at this path, which has files of these names.
fn run_on_folder<R: Runtime + AllocGlobal + Threads + Wait + Sync>(
    rt: &R,
    alloc: Global,
    invocation: Invocation<'_>,
    words: Vec<String>,
    name: &str,
    path: String,
    names: Vec<String>,
) -> Result<u8, NoRequest> {
    if invocation.command == "audit" {
        let words = words.as_slice();
        return Ok(audit_folder(rt, alloc, words, name, path, names.as_slice()));
    }
    if invocation.is_window {
        match open_segments(rt, alloc, path, names.as_slice()) {
            Ok(Some(run)) => return Ok(run_on(rt, alloc, invocation, words, name, run)),
            Ok(None) => {}
            Err(_) => return Err(NoRequest::Memory),
        }
    }
    print_unread(rt, alloc, invocation, name, names.as_slice())?;
    Ok(run_main(rt, alloc, words, &mut Unreadable, &mut io::writer(rt)))
}

// Do what is asked for with the file or the folder of this name.
fn run_on_file<R: Runtime + AllocGlobal + Threads + Wait + Sync>(
    rt: &R,
    alloc: Global,
    invocation: Invocation<'_>,
    words: Vec<String>,
    path: &str,
) -> Result<u8, NoRequest> {
    let name = shown_text(alloc, path)?;
    let name = name.as_str();
    match open(rt, alloc, path) {
        Ok(Opened::File(file)) => Ok(run_on(rt, alloc, invocation, words, name, file)),
        Ok(Opened::Folder(path, names)) => {
            run_on_folder(rt, alloc, invocation, words, name, path, names)
        }
        Err(error) if error.kind() == ErrorKind::NotFound => Err(NoRequest::Wrong(format!(in alloc;
            "asm_driver: {name}: there is no such file\n"
        )?)),
        Err(error) if error.kind() == ErrorKind::OutOfMemory => Err(NoRequest::Memory),
        Err(_) => Ok(run_on(rt, alloc, invocation, words, name, Unreadable)),
    }
}

// Do what the words ask for, if they ask for something.
fn run_words<R: Runtime + AllocGlobal + Threads + Wait + Sync>(
    rt: &R,
    alloc: Global,
    words: &[String],
    is_terminal: bool,
) -> Result<u8, NoRequest> {
    let (invocation, mut words) = read_words(alloc, words)?;
    if invocation.reports_terms() {
        let terms = String::from_str(alloc, "--terms")?;
        if words.push(terms).is_err() {
            return Err(NoRequest::Memory);
        }
    }
    if let Some(path) = invocation.file {
        return run_on_file(rt, alloc, invocation, words, path);
    }
    if is_terminal {
        print_error(
            rt,
            "asm_driver: no file is named, so standard input is read; Ctrl-D ends it\n",
        );
    }
    let input = rt.reader();
    Ok(run_on(rt, alloc, invocation, words, "standard input", input))
}

// Return the words for the program if the given ones ask for nothing that is done.
fn refused_words(
    rt: &impl Eprint,
    alloc: Global,
    words: Vec<String>,
    unasked: NoRequest,
) -> io::Result<Vec<String>> {
    match unasked {
        NoRequest::Help => {
            print_error(
                rt,
                "asm_driver: behind the options FILE may stand, which is read in place of standard input\n",
            );
            Ok(words)
        }
        NoRequest::Version => Ok(words),
        NoRequest::Wrong(text) => {
            print_error(rt, text.as_str());
            Ok(Vec::new(alloc))
        }
        NoRequest::Memory => Err(io::Error::from(ErrorKind::OutOfMemory)),
    }
}

/// Do what the words ask for, or say why it isn't done, and return the status.
pub(crate) fn carry_out<R: Runtime + AllocGlobal + Threads + Wait + Sync>(
    rt: &R,
    alloc: Global,
    words: io::Result<Vec<String>>,
    is_terminal: bool,
) -> u8 {
    let given = match words {
        Ok(words) => match run_words(rt, alloc, words.as_slice(), is_terminal) {
            Ok(status) => return status,
            Err(unasked) => refused_words(rt, alloc, words, unasked),
        },
        Err(error) => {
            if error.kind() == ErrorKind::InvalidData {
                print_error(rt, "asm_driver: a word isn't UTF-8\n");
            }
            Err(error)
        }
    };
    run_given(rt, alloc, given, &mut rt.reader(), &mut io::writer(rt))
}
