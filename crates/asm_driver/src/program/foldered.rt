//! The program over the folder of a run.
ghost use Rattle.std.specs.Prelude.{◌≡◌, false, map, IfOk, IfErr, string_bytes, string_cmp};
ghost use Rattle.asm_driver.specs.Folder.{audited_line as line_of_audited, later_line as line_of_later, WritesAudited};
ghost use Rattle.asm_driver.specs.Folder.{AuditsFolder, AsksForAudit, IsNoAudit, IsRefusalOfWords, AreSegmentFiles, RunsFolder};
ghost use Rattle.asm_driver.specs.Folder.{RunsFolderOver};
ghost use Rattle.std.specs.Prelude.{IsSorted};
ghost use Rattle.asm_driver.specs.Run.{output_of};

use crate::ports::folder::Folder;
use crate::ports::sink::{NotedWriter, Sink};
use crate::program::refusal::Refusal;
use crate::program::segments::{Audited, segment_files, take_segments};
use crate::program::watching::{Stop, legal_line};
use crate::program::words::{Request, WordsError, read_words};
use crate::program::{refuse, write_out};
use asm_audit::Counts;
use asm_play::aggregator::script_aggregator;
use asm_run::RunReader;
use std::alloc::{AllocError, Global};
use std::io::Write;
use std::sync::Wait;

// Return the line of a legal run whose first segments were dropped.
fn later_line(alloc: Global, audited: Audited) -> Result<String, AllocError>
    ensures { IfOk result (λ l. string_bytes l ≡ line_of_later audited) }
{
    let Counts {
        calls,
        moves,
        parts,
    } = audited.counts;
    let first = audited.from.segments;
    let from = audited.from.moves;
    Ok(format!(in alloc; "legal {calls} {moves} {parts} from segment {first} move {from}\n")?)
}

// Return the line of a legal run; it says where the run begins, if its first segments were dropped.
fn audited_line(alloc: Global, audited: Audited) -> Result<String, AllocError>
    ensures { IfOk result (λ l. string_bytes l ≡ line_of_audited audited) }
{
    if audited.from.segments == 0 {
        return legal_line(alloc, audited.counts);
    }
    later_line(alloc, audited)
}

// Write the line of a legal run, or that of an allocation failure; return its status, or 4 if the output failed.
fn write_audited<K: Sink>(alloc: Global, output: &mut K, audited: Audited) -> u8
    requires { K.failed output.old ≡ false }
    ensures same_reference { K.lender output.new ≡ K.lender output.old }
    ensures writes { WritesAudited audited
        (output_of (K.contents output.old) (K.contents output.new) (K.failed output.new) (K.flushed output.new)) result }
{
    match audited_line(alloc, audited) {
        Ok(line) => write_out(output, line.as_bytes(), 0),
        Err(_) => refuse(alloc, output, Refusal::Memory),
    }
}

// Audit the segments in the files of these names, in this order, and return the program's status.
fn audit_files<T: Wait, F: Folder, K: Sink>(
    rt: &T,
    alloc: Global,
    every: u32,
    names: &[String],
    folder: &mut F,
    output: &mut K,
) -> u8
    requires unread { F.failed folder.old ≡ false }
    requires unwritten { K.failed output.old ≡ false }
    ensures same_reference { K.lender output.new ≡ K.lender output.old }
    ensures audits { AuditsFolder every (F.files folder.old) (map string_bytes names.now) (F.failed folder.new)
        (output_of (K.contents output.old) (K.contents output.new) (K.failed output.new) (K.flushed output.new)) result }
{
    let mut reader = RunReader::new(alloc, script_aggregator());
    match take_segments(rt, alloc, every, &mut reader, names, folder, output) {
        Ok(audited) => write_audited(alloc, output, audited),
        Err(stop) => match stop {
            Stop::Refused(refusal) => refuse(alloc, output, refusal),
            Stop::Unwritten => 4,
        },
    }
}

// Return after how many calls the progress is written, if the words ask for an audit.
fn every_asked(alloc: Global, words: &[String]) -> Result<u32, Refusal>
    ensures ok { IfOk result (AsksForAudit (map string_bytes words.now)) }
    ensures err { IfErr result (IsNoAudit (map string_bytes words.now)) }
{
    match read_words(alloc, words) {
        Ok(request) => match request {
            Request::Audit { every } => Ok(every),
            _ => Err(Refusal::Words),
        },
        Err(error) => Err(refusal_of_words(error)),
    }
}

// Return the refusal of words that ask for nothing that is carried out here.
fn refusal_of_words(error: WordsError) -> Refusal
    ensures { IsRefusalOfWords error result }
{
    match error {
        WordsError::Memory => Refusal::Memory,
        WordsError::Bad | WordsError::Version | WordsError::Help(_) => Refusal::Words,
    }
}

// Return after how many calls the progress is written, and the names of a run's files in order.
fn prepared(
    alloc: Global,
    words: &[String],
    names: &[String],
) -> Result<(u32, Vec<String>), Refusal>
    ensures ok { IfOk result (λ r. AsksForAudit (map string_bytes words.now) r.0) }
    ensures files { IfOk result (λ r. AreSegmentFiles (map string_bytes names.now) (map string_bytes r.1.items)) }
    ensures sorted { IfOk result (λ r. IsSorted string_cmp r.1.items) }
    ensures err { IfErr result (IsNoAudit (map string_bytes words.now)) }
{
    let every = every_asked(alloc, words)?;
    let files = segment_files(alloc, names)?;
    Ok((every, files))
}

// Audit the run in a folder, as `run_folder` does, over an output that records whether a call failed.
fn run_folder_noted<T: Wait, F: Folder, K: Sink>(
    rt: &T,
    alloc: Global,
    words: &[String],
    names: &[String],
    folder: &mut F,
    output: &mut K,
) -> u8
    requires unread { F.failed folder.old ≡ false }
    requires unwritten { K.failed output.old ≡ false }
    ensures same_reference { K.lender output.new ≡ K.lender output.old }
    ensures runs { RunsFolder (map string_bytes words.now) names.now (F.files folder.old) (F.failed folder.new)
        (output_of (K.contents output.old) (K.contents output.new) (K.failed output.new) (K.flushed output.new)) result }
{
    match prepared(alloc, words, names) {
        Ok((every, files)) => audit_files(rt, alloc, every, files.as_slice(), folder, output),
        Err(refusal) => refuse(alloc, output, refusal),
    }
}

/// Audit the run in a folder that has files of these names, and return the program's status.
///
/// The words ask for an audit; others are refused. The names that end in `.journal` are read in ascending order, each
/// byte once. The text that is written is as of `audit` over the texts in this order, except:
/// - `legal CALLS MOVES PARTS from segment N move M` with status 0, if the first segment is the one with number N, which
///   has M moves before it, and N isn't 0. In all lines parts count from N.
/// - `segment N damaged`, `missing`, `twice`, `misnamed`, `misplaced` or `miscounted` with status 1.
/// - `bad words` with status 2, if the words ask for something else.
pub fn run_folder<T: Wait, F: Folder, W: Write>(
    rt: &T,
    alloc: Global,
    words: &[String],
    names: &[String],
    folder: &mut F,
    output: &mut W,
) -> u8
    requires { F.failed folder.old ≡ false }
    ensures runs { RunsFolderOver (map string_bytes words.now) names.now (F.files folder.old)
        (F.failed folder.new) (W.contents output.old) (W.contents output.new) result }
{
    let mut sink = NotedWriter::new(output);
    run_folder_noted(rt, alloc, words, names, folder, &mut sink)
}
