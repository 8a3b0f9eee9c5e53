//! The program over an input and an output.
ghost use Rattle.std.specs.Prelude.{◌≡◌, ◌≢◌, ◌↔◌, ℕ, false, [], map, IfOk, IfErr, string_bytes};
ghost use Rattle.std.specs.IoError.{error_kind};
ghost use Rattle.asm_driver.specs.Refusal.{has_number};
ghost use Rattle.asm_driver.specs.Words.{Words, faults, AsksFor};
ghost use Rattle.asm_driver.specs.declared.program.words.Request.TheVariants as requests;
ghost use Rattle.asm_driver.specs.Run.{IsAnswer, IsNoAnswer, IsAnswerTo, version_line, Takes, Writes, Refuses};
ghost use Rattle.asm_driver.specs.Run.{WritesLegal, Watches};
ghost use Rattle.asm_driver.specs.Run.{input_of, output_of, Runs, RunsOver, HasFailed, RefusesKind, IsRefusalOfKind};

mod commands;
mod explained;
mod foldered;
mod grammar;
mod refusal;
mod segments;
mod tracing;
mod watching;
mod windowing;
mod words;

use crate::ports::input::read_input;
use crate::ports::output::write_whole;
use crate::ports::sink::{NotedWriter, Sink};
use crate::ports::source::{NotedReader, Source};
use crate::program::commands::{Ending, carry_out};
use crate::program::refusal::Refusal;
use crate::program::tracing::{read_journal, write_trace};
use crate::program::watching::{Stop, legal_line, watched};
use crate::program::windowing::window_input;
use crate::program::words::{Request, WordsError, read_words};
use asm_audit::Counts;
pub use foldered::run_folder;
pub use grammar::{bare_program, subcommands};
pub use segments::segment_files;
use std::alloc::{AllocError, Global};
use std::io;
use std::io::{ErrorKind, Read, Write};
use std::sync::Wait;
use std::thread::Threads;

// Return the line with the version.
fn version_text(alloc: Global) -> Result<String, AllocError>
    ensures { IfOk result (λ text. string_bytes text ≡ version_line) }
{
    format!(in alloc; "asm_driver 0.2.0\n")
}

// Return the answer to an error of the words: help and the version are answers, not refusals.
fn answer_to(alloc: Global, error: WordsError) -> Result<Ending, Refusal>
    ensures { IsAnswerTo error result }
{
    match error {
        WordsError::Help(text) => Ok(Ending { status: 0, text }),
        WordsError::Version => Ok(Ending {
            status: 0,
            text: version_text(alloc)?,
        }),
        WordsError::Bad => Err(Refusal::Words),
        WordsError::Memory => Err(Refusal::Memory),
    }
}

/// Carry out the request on the input.
fn answer<T: Threads + Wait + Sync, S: Source>(
    rt: &T,
    alloc: Global,
    request: Request,
    input: &mut S,
) -> Result<Ending, Refusal>
    requires unread { S.failed input.old ≡ false }
    requires audit { (every : ℕ) → request ≢ requests.Audit every }
    requires trace { request ≢ requests.Trace }
    ensures same_reference { S.lender input.new ≡ S.lender input.old }
    ensures ok { IfOk result (λ e. (words : Words) → AsksFor words request → IsAnswer words
        (input_of (S.remaining input.old) (S.remaining input.new) (S.failed input.new))
        e.status (string_bytes e.text)) }
    ensures err { IfErr result (λ r. (words : Words) → AsksFor words request → IsNoAnswer words
        (input_of (S.remaining input.old) (S.remaining input.new) (S.failed input.new)) r) }
{
    match request {
        Request::Show(window) => window_input(rt, alloc, window, input),
        _ => {
            let bytes = read_input(alloc, input)?;
            carry_out(rt, alloc, request, bytes.as_slice())
        }
    }
}

// Write the text; return the given status, or 4 if the output failed.
fn write_out<K: Sink>(output: &mut K, text: &[u8], status: u8) -> u8
    requires { K.failed output.old ≡ false }
    ensures same_reference { K.lender output.new ≡ K.lender output.old }
    ensures writes { Writes
        (output_of (K.contents output.old) (K.contents output.new) (K.failed output.new) (K.flushed output.new))
        status text.now result }
{
    match write_whole(output, text) {
        Ok(()) => status,
        Err(_) => 4,
    }
}

// Write the refusal's line; return its status, or 4 if the output failed.
// If there is no memory for the line, it writes the line of an allocation failure, with the status of that.
fn refuse<K: Sink>(alloc: Global, output: &mut K, refusal: Refusal) -> u8
    requires { K.failed output.old ≡ false }
    ensures same_reference { K.lender output.new ≡ K.lender output.old }
    ensures refuses { Refuses
        (output_of (K.contents output.old) (K.contents output.new) (K.failed output.new) (K.flushed output.new))
        refusal result }
{
    match refusal.line(alloc) {
        Ok(line) => write_out(output, line.as_bytes(), refusal.status()),
        Err(_) => write_out(output, b"out of memory\n", 3),
    }
}

// Write the answer, or the refusal's line; return its status, or 4 if the output failed.
fn write_answer<K: Sink>(alloc: Global, output: &mut K, answer: Result<Ending, Refusal>) -> u8
    requires { K.failed output.old ≡ false }
    ensures same_reference { K.lender output.new ≡ K.lender output.old }
    ensures ok { IfOk answer (λ e. Writes
        (output_of (K.contents output.old) (K.contents output.new) (K.failed output.new) (K.flushed output.new))
        e.status (string_bytes e.text) result) }
    ensures err { IfErr answer (λ r. Refuses
        (output_of (K.contents output.old) (K.contents output.new) (K.failed output.new) (K.flushed output.new))
        r result) }
{
    match answer {
        Ok(ending) => write_out(output, ending.text.as_bytes(), ending.status),
        Err(refusal) => refuse(alloc, output, refusal),
    }
}

// Write the line of a legal run, or that of an allocation failure; return its status, or 4 if the output failed.
fn write_legal<K: Sink>(alloc: Global, output: &mut K, counts: Counts) -> u8
    requires { K.failed output.old ≡ false }
    ensures same_reference { K.lender output.new ≡ K.lender output.old }
    ensures writes { WritesLegal counts
        (output_of (K.contents output.old) (K.contents output.new) (K.failed output.new) (K.flushed output.new)) result }
{
    match legal_line(alloc, counts) {
        Ok(line) => write_out(output, line.as_bytes(), 0),
        Err(_) => refuse(alloc, output, Refusal::Memory),
    }
}

/// Audit the run on the input, and return the program's status.
///
/// It writes its progress after each `every` calls, or never if `every` is 0, and then its last line: that
/// of a legal run, or that of the refusal.
fn watch<T: Wait, S: Source, K: Sink>(
    rt: &T,
    alloc: Global,
    every: u32,
    input: &mut S,
    output: &mut K,
) -> u8
    requires input { S.failed input.old ≡ false }
    requires output { K.failed output.old ≡ false }
    ensures same_input { S.lender input.new ≡ S.lender input.old }
    ensures same_output { K.lender output.new ≡ K.lender output.old }
    ensures watches { Watches every
        (input_of (S.remaining input.old) (S.remaining input.new) (S.failed input.new))
        (output_of (K.contents output.old) (K.contents output.new) (K.failed output.new) (K.flushed output.new)) result }
{
    match watched(rt, alloc, every, input, output) {
        Ok(counts) => write_legal(alloc, output, counts),
        Err(stop) => match stop {
            Stop::Refused(refusal) => refuse(alloc, output, refusal),
            Stop::Unwritten => 4,
        },
    }
}

/// Write the trace of the journal on the input, and return the program's status.
///
/// It writes nothing before it has read the complete journal, and then the events one by one.
fn trace<S: Source, K: Sink>(alloc: Global, input: &mut S, output: &mut K) -> u8
    requires input { S.failed input.old ≡ false }
    requires output { K.failed output.old ≡ false }
    ensures same_input { S.lender input.new ≡ S.lender input.old }
    ensures same_output { K.lender output.new ≡ K.lender output.old }
    ensures runs { (words : Words) → AsksFor words requests.Trace → Runs words
        (input_of (S.remaining input.old) (S.remaining input.new) (S.failed input.new))
        (output_of (K.contents output.old) (K.contents output.new) (K.failed output.new) (K.flushed output.new)) result }
{
    let history = match read_journal(alloc, input) {
        Ok(history) => history,
        Err(refusal) => return refuse(alloc, output, refusal),
    };
    match write_trace(alloc, &history, output) {
        Ok(()) => 0,
        Err(stop) => match stop {
            Stop::Refused(refusal) => refuse(alloc, output, refusal),
            Stop::Unwritten => 4,
        },
    }
}

// Do what the words ask for, and return the program's status.
fn run_words<T: Threads + Wait + Sync, S: Source, K: Sink>(
    rt: &T,
    alloc: Global,
    words: &[String],
    input: &mut S,
    output: &mut K,
) -> u8
    requires input { S.failed input.old ≡ false }
    requires output { K.failed output.old ≡ false }
    ensures same_input { S.lender input.new ≡ S.lender input.old }
    ensures same_output { K.lender output.new ≡ K.lender output.old }
    ensures runs { Runs (map string_bytes words.now)
        (input_of (S.remaining input.old) (S.remaining input.new) (S.failed input.new))
        (output_of (K.contents output.old) (K.contents output.new) (K.failed output.new) (K.flushed output.new)) result }
    ensures unread { ¬ (faults (map string_bytes words.now) ≡ []) → input.new ≡ input.old }
{
    let request = match read_words(alloc, words) {
        Ok(request) => request,
        Err(error) => return write_answer(alloc, output, answer_to(alloc, error)),
    };
    match request {
        Request::Audit { every } => watch(rt, alloc, every, input, output),
        Request::Trace => trace(alloc, input, output),
        _ => {
            let answered = answer(rt, alloc, request, input);
            write_answer(alloc, output, answered)
        }
    }
}

/// Do what the words ask for, and return the program's status.
///
/// It works as `run_main`, over an input and an output that record whether a call failed. The status is 4 exactly if a
/// read of the input or a call of the output failed. It reads nothing unless the words are accepted.
pub fn run_noted<T: Threads + Wait + Sync, S: Source, K: Sink>(
    rt: &T,
    alloc: Global,
    words: Vec<String>,
    input: &mut S,
    output: &mut K,
) -> u8
    requires input { S.failed input.old ≡ false }
    requires output { K.failed output.old ≡ false }
    ensures same_input { S.lender input.new ≡ S.lender input.old }
    ensures same_output { K.lender output.new ≡ K.lender output.old }
    ensures runs { Runs (map string_bytes words.items)
        (input_of (S.remaining input.old) (S.remaining input.new) (S.failed input.new))
        (output_of (K.contents output.old) (K.contents output.new) (K.failed output.new) (K.flushed output.new)) result }
    ensures faults { (result ≡ 4) ↔ HasFailed
        (input_of (S.remaining input.old) (S.remaining input.new) (S.failed input.new))
        (output_of (K.contents output.old) (K.contents output.new) (K.failed output.new) (K.flushed output.new)) }
    ensures taken { Takes (map string_bytes words.items) (S.remaining input.old) (S.remaining input.new) }
    ensures unread { ¬ (faults (map string_bytes words.items) ≡ []) → input.new ≡ input.old }
{
    run_words(rt, alloc, words.as_slice(), input, output)
}

/// Do what the words ask for, and return the program's status.
///
/// The words begin with the program's name; then they are a command with its options. Each command reads the input to
/// its end, at most 16,777,216 bytes, except `audit`, and `trace` of a window. The input and the text that is written:
/// - `run`: the input is a script, which is played. The text is the report, or with `--journal` the journal of the
///   calls, with status 0.
/// - `check`: the input is a journal. The text is `legal CALLS MOVES` with status 0, or `illegal CALL` with status 1.
/// - `rewrite`: the input is a journal, whether legal or not. The text is the journal of the same history, with status
///   0.
/// - `trace`: the input is a journal, whether legal or not. The text is its trace, with status 0. It is written event by
///   event: if an allocation fails meanwhile, the line with that cause comes after the trace's first lines.
/// - `explain script` and `explain journal`: if `run` or `check` would accept the input, the text is empty, with status
///   0. Else it is a line that says where and why not, with status 1.
/// - `audit`: the input is a run of any length, whose segments are journals. No line of it may have more than
///   1,073,741,824 bytes. It is read to its end, or up to its first fault or wrong answer. The text is
///   `legal CALLS MOVES PARTS` with status 0, or `illegal PART CALL` with status 1. With `--every N`, it also writes
///   `so far CALLS MOVES PARTS` after each N calls, before it reads more.
/// - `trace` with `--part`, `--from` or `--to`: the input is such a run too, which is read up to the window's end. Only
///   the segment with the window is judged, from the state in its header. The text is the trace of the window with
///   status 0, or `illegal PART CALL` with status 1.
///
/// If the words ask for help, the text is the help, with status 0. If they ask for the version, it is
/// `asm_driver 0.2.0`, with status 0.
///
/// Otherwise the text is one line with the cause, and the status is:
/// - 1 if a fired move has no receipt,
/// - 2 if the words, a size, a script, a journal or a run is refused,
/// - 3 if an allocation failed, or a thread couldn't be started,
/// - 4 if a read failed.
///
/// If a write or the flush fails, the status is 4, and the first bytes of the text went out, any number of them. Faults
/// are found in this order: words, input, script or journal, the command, output.
pub fn run_main<T: Threads + Wait + Sync, R: Read, W: Write>(
    rt: &T,
    alloc: Global,
    words: Vec<String>,
    input: &mut R,
    output: &mut W,
) -> u8
    ensures runs { RunsOver (map string_bytes words.items) (R.remaining input.old) (R.remaining input.new)
        (W.contents output.old) (W.contents output.new) result }
    ensures unread { ¬ (faults (map string_bytes words.items) ≡ []) → input.new ≡ input.old }
{
    let mut source = NotedReader::new(input);
    let mut sink = NotedWriter::new(output);
    run_noted(rt, alloc, words, &mut source, &mut sink)
}

// Return the refusal for words that the system couldn't provide.
fn refusal_of_kind(kind: ErrorKind) -> Refusal
    ensures kind { IsRefusalOfKind kind result }
    ensures known { has_number result ≡ false }
{
    match kind {
        ErrorKind::InvalidData => Refusal::Words,
        _ => Refusal::Memory,
    }
}

/// Do what the system's words ask for, and return the program's status.
///
/// It works as `run_main`, except for words that the system couldn't provide:
/// - If a word isn't UTF-8, they are refused as words.
/// - After an allocation failure, they are refused as that.
pub fn run_given<T: Threads + Wait + Sync, R: Read, W: Write>(
    rt: &T,
    alloc: Global,
    words: io::Result<Vec<String>>,
    input: &mut R,
    output: &mut W,
) -> u8
    ensures given { IfOk words (λ ws. RunsOver (map string_bytes ws.items)
        (R.remaining input.old) (R.remaining input.new) (W.contents output.old) (W.contents output.new) result) }
    ensures refused { IfErr words (λ e. RefusesKind (error_kind e)
        (W.contents output.old) (W.contents output.new) result) }
    ensures unread { IfErr words (λ _. input.new ≡ input.old) }
{
    match words {
        Ok(words) => run_main(rt, alloc, words, input, output),
        Err(error) => refuse(
            alloc,
            &mut NotedWriter::new(output),
            refusal_of_kind(error.kind()),
        ),
    }
}
