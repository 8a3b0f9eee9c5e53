//! The audit of the segments in a run's folder.
ghost use Rattle.std.specs.Prelude.{◌≡◌, ◌≢◌, ◌≤◌, ◌<◌, ◌+◌, ◌++◌, ◌∷◌, [], false, map, take, drop, length, string_bytes, string_cmp};
ghost use Rattle.std.specs.Prelude.{IfOk, IfSome, IfNone, OnOk};
ghost use Rattle.std.specs.List.{filter};
ghost use Rattle.std.specs.Prelude.{IsSorted};
ghost use Rattle.asm_aggregate.specs.Standard.{standard_meaning};
ghost use Rattle.asm_journal.specs.Reading.{HasNoLineFeed, EndsLine};
ghost use Rattle.asm_run.specs.Reader.{HasRead};
ghost use Rattle.asm_driver.specs.Folder.{has_segment_name, AreSegmentFiles, next_number};
ghost use Rattle.asm_driver.specs.Folder.{misnumbered as refusal_of_number, refusal_behind as refusal_of_behind};
ghost use Rattle.asm_driver.specs.Folder.{refusal_of_read as refusal_of_error, IsFolderEnd};
ghost use Rattle.asm_driver.specs.Segments.{IsTakenOn, IsChunkTaken, IsFileTaken, IsBegun, IsEnded, IsSegmentTaken};
ghost use Rattle.asm_driver.specs.Parts.{IsOneLine};
ghost use Rattle.asm_driver.specs.Watch.{is_unwritten};

use crate::ports::folder::Folder;
use crate::ports::sink::Sink;
use crate::program::refusal::{Refusal, SegmentFault};
use crate::program::watching::{Stop, add_due, write_lines};
use asm_audit::{AuditError, Counts};
use asm_run::{ReadError, RunEnd, RunReader, SegmentName};
use asm_update::Aggregator;
use std::alloc::{AllocError, Global};
use std::sync::Wait;

// Number of bytes that a read asks for.
const CHUNK: usize = 4096;

/// How the audit of a legal run ends.
#[derive(Clone, Copy)]
pub struct Audited {
    /// The end before the first segment.
    pub from: RunEnd,
    /// The counts of all segments.
    pub counts: Counts,
}

// Return whether a file of this name belongs to a run.
fn is_segment_file(name: &str) -> bool
    ensures { result ≡ has_segment_name name.now }
{
    name.as_bytes().ends_with(b".journal")
}

// Append the name of a file that belongs to a run.
fn push_name(alloc: Global, name: &str, files: &mut Vec<String>) -> Result<(), AllocError>
    ensures { OnOk result (map string_bytes files.new.items ≡
        map string_bytes files.old.items ++ filter has_segment_name (name.now ∷ [])) }
{
    if !is_segment_file(name) {
        return Ok(());
    }
    files.push(String::from_str(alloc, name)?)?;
    Ok(())
}

// Return the names of the files that belong to a run.
fn segment_names(alloc: Global, names: &[String]) -> Result<Vec<String>, AllocError>
    ensures { IfOk result (λ v. map string_bytes v.items ≡ filter has_segment_name (map string_bytes names.now)) }
{
    let mut files = Vec::new(alloc);
    for name in names {
        push_name(alloc, name.as_str(), &mut files)?;
    }
    Ok(files)
}

/// Return the names of a run's files, which end in `.journal`, in ascending order.
///
/// # Errors
///
/// - `AllocError` only if memory is refused.
pub fn segment_files(alloc: Global, names: &[String]) -> Result<Vec<String>, AllocError>
    ensures files { IfOk result (λ v. AreSegmentFiles (map string_bytes names.now) (map string_bytes v.items)) }
    ensures sorted { IfOk result (λ v. IsSorted string_cmp v.items) }
{
    let mut files = segment_names(alloc, names)?;
    files.sort()?;
    Ok(files)
}

// Return the refusal for a name with this number, where another one comes next.
fn misnumbered(number: u64, found: u64) -> Refusal
    ensures { result ≡ refusal_of_number number found }
{
    if found < number {
        Refusal::BadSegment {
            number: found,
            fault: SegmentFault::Twice,
        }
    } else {
        Refusal::BadSegment {
            number,
            fault: SegmentFault::Missing,
        }
    }
}

// Return the refusal for a fault of the journals that were read. The first of them is the segment with this number.
fn refusal_behind(first: u64, error: AuditError) -> Refusal
    ensures { result ≡ refusal_of_behind first error }
{
    match error {
        AuditError::Journal { part, fault } => Refusal::BadPart {
            part: first.saturating_add(part),
            fault,
        },
        AuditError::Apart { part } => Refusal::Apart(first.saturating_add(part)),
        AuditError::Illegal { part, call } => Refusal::Illegal {
            part: first.saturating_add(part),
            call,
        },
        AuditError::LongLine => Refusal::TooLarge,
        AuditError::Memory => Refusal::Memory,
    }
}

// Return the refusal for what a reader reports of the segment with this number, in whose name the other was found.
fn refusal_of_read(first: u64, number: u64, found: u64, error: ReadError) -> Refusal
    ensures { result ≡ refusal_of_error first number found error }
{
    match error {
        ReadError::Memory => Refusal::Memory,
        ReadError::Audit(error) => refusal_behind(first, error),
        ReadError::Number => misnumbered(number, found),
        ReadError::Damaged => Refusal::BadSegment {
            number,
            fault: SegmentFault::Damaged,
        },
        ReadError::Previous => Refusal::BadSegment {
            number,
            fault: SegmentFault::Misplaced,
        },
        ReadError::Counts => Refusal::BadSegment {
            number,
            fault: SegmentFault::Miscounted,
        },
        ReadError::Name | ReadError::Opening | ReadError::Many | ReadError::Busy => {
            Refusal::BadSegment {
                number,
                fault: SegmentFault::Misnamed,
            }
        }
    }
}

// Return the position of the first line feed of the bytes.
fn line_feed_in(bytes: &[u8]) -> Option<usize>
    ensures some { IfSome result (λ end. EndsLine bytes.now (take end bytes.now) (drop (end + 1) bytes.now)) }
    ensures none { IfNone result (HasNoLineFeed bytes.now) }
{
    bytes.iter().position(|byte| *byte == b'\n')
}

// Return how many bytes the first line has, with its line feed; all, if there is none.
fn line_length(bytes: &[u8]) -> usize
    requires { bytes.now ≢ [] }
    ensures within { result ≤ length bytes.now }
    ensures some { 0 < result }
    ensures line { IsOneLine (take result bytes.now) }
{
    match line_feed_in(bytes) {
        Some(end) => end + 1,
        None => bytes.len(),
    }
}

// Feed a line, or a part of one, and append the line that is due behind it.
fn take_line<A: Aggregator + Drop>(
    alloc: Global,
    every: u32,
    reader: &mut RunReader<A>,
    line: &[u8],
    lines: &mut String,
) -> Result<(), AllocError>
    requires meaning { A.meaning reader.old.judge.auditor.auditor.aggregator ≡ standard_meaning }
    requires line { IsOneLine line.now }
    ensures aggregator { reader.new.judge.auditor.auditor.aggregator ≡ reader.old.judge.auditor.auditor.aggregator }
    ensures taken { OnOk result (IsTakenOn every reader.old reader.new line.now (string_bytes lines.old)
        (string_bytes lines.new)) }
{
    let before = reader.judge.auditor.counts();
    reader.feed(alloc, line);
    match reader.judge.fault {
        Some(_) => return Ok(()),
        None => {}
    }
    add_due(alloc, every, before, reader.judge.auditor.counts(), lines)?;
    Ok(())
}

// Feed the bytes line by line, and append the lines that are due behind them.
fn take_lines<A: Aggregator + Drop>(
    alloc: Global,
    every: u32,
    reader: &mut RunReader<A>,
    bytes: &[u8],
    lines: &mut String,
) -> Result<(), AllocError>
    requires { A.meaning reader.old.judge.auditor.auditor.aggregator ≡ standard_meaning }
    ensures aggregator { reader.new.judge.auditor.auditor.aggregator ≡ reader.old.judge.auditor.auditor.aggregator }
    ensures taken { OnOk result (IsTakenOn every reader.old reader.new bytes.now (string_bytes lines.old)
        (string_bytes lines.new)) }
{
    let mut rest = bytes;
    while !rest.is_empty() {
        let length = line_length(rest);
        take_line(alloc, every, reader, &rest[..length], lines)?;
        rest = &rest[length..];
    }
    Ok(())
}

// Feed the bytes, and write the lines that become due.
fn take_chunk<A: Aggregator + Drop, K: Sink>(
    alloc: Global,
    every: u32,
    reader: &mut RunReader<A>,
    bytes: &[u8],
    output: &mut K,
) -> Result<(), Stop>
    requires meaning { A.meaning reader.old.judge.auditor.auditor.aggregator ≡ standard_meaning }
    requires output { K.failed output.old ≡ false }
    ensures aggregator { reader.new.judge.auditor.auditor.aggregator ≡ reader.old.judge.auditor.auditor.aggregator }
    ensures same_reference { K.lender output.new ≡ K.lender output.old }
    ensures taken { IsChunkTaken every reader.old reader.new bytes.now (K.contents output.old) (K.contents output.new)
        result }
    ensures noted { K.failed output.new ≡ is_unwritten result }
{
    let mut lines = String::new(alloc);
    take_lines(alloc, every, reader, bytes, &mut lines)?;
    write_lines(output, lines.as_str())?;
    Ok(())
}

// Feed the open file up to its end, and write the lines that become due.
fn take_file<T: Wait, A: Aggregator + Drop, F: Folder, K: Sink>(
    rt: &T,
    alloc: Global,
    every: u32,
    reader: &mut RunReader<A>,
    folder: &mut F,
    output: &mut K,
) -> Result<(), Stop>
    requires meaning { A.meaning reader.old.judge.auditor.auditor.aggregator ≡ standard_meaning }
    requires unread { F.failed folder.old ≡ false }
    requires unwritten { K.failed output.old ≡ false }
    ensures aggregator { reader.new.judge.auditor.auditor.aggregator ≡ reader.old.judge.auditor.auditor.aggregator }
    ensures files { F.files folder.new ≡ F.files folder.old }
    ensures same_reference { K.lender output.new ≡ K.lender output.old }
    ensures taken { IsFileTaken every reader.old reader.new (F.remaining folder.old) (F.remaining folder.new)
        (F.failed folder.new) (K.contents output.old) (K.contents output.new) result }
    ensures noted { K.failed output.new ≡ is_unwritten result }
{
    let mut buffer = [0u8; CHUNK];
    'chunks: for _ in rt.forever() {
        let count = match folder.read(&mut buffer) {
            Ok(count) => count,
            Err(_) => return Err(Stop::Refused(Refusal::InputFault)),
        };
        if count == 0 {
            return Ok(());
        }
        take_chunk(alloc, every, reader, &buffer[..count], output)?;
    }
    unreachable!()
}

// Return the number of the next segment; 0, if none was read.
fn number_after<A: Aggregator + Drop>(reader: &RunReader<A>) -> u64
    ensures { result ≡ next_number reader.now.trail }
{
    if reader.trail.from.segments == reader.trail.end.segments {
        0
    } else {
        reader.trail.end.segments
    }
}

// Begin the next segment, whose file has this name and size.
fn begin<A: Aggregator + Drop>(
    alloc: Global,
    reader: &mut RunReader<A>,
    name: &str,
    size: u64,
) -> Result<(), Refusal>
    requires meaning { A.meaning reader.old.judge.auditor.auditor.aggregator ≡ standard_meaning }
    ensures aggregator { reader.new.judge.auditor.auditor.aggregator ≡ reader.old.judge.auditor.auditor.aggregator }
    ensures begun { IsBegun reader.old reader.new name.now size result }
{
    let number = number_after(reader);
    let first = reader.trail.since.segments;
    let Some(parsed) = SegmentName::parse(name) else {
        return Err(refusal_of_read(first, number, number, ReadError::Name));
    };
    match reader.name(alloc, name, size) {
        Ok(_) => Ok(()),
        Err(error) => Err(refusal_of_read(first, number, parsed.number, error)),
    }
}

// End the segment, whose file has this name.
fn end<A: Aggregator + Drop>(
    alloc: Global,
    reader: &mut RunReader<A>,
    name: &str,
) -> Result<(), Refusal>
    requires meaning { A.meaning reader.old.judge.auditor.auditor.aggregator ≡ standard_meaning }
    ensures aggregator { reader.new.judge.auditor.auditor.aggregator ≡ reader.old.judge.auditor.auditor.aggregator }
    ensures ended { IsEnded reader.old reader.new name.now result }
{
    let number = reader.trail.end.segments;
    let first = reader.trail.since.segments;
    match reader.end(alloc) {
        Ok(()) => Ok(()),
        Err(error) => Err(refusal_of_read(first, number, number, error)),
    }
}

// Audit the next segment, whose file has this name, and write the lines that become due.
fn take_segment<T: Wait, A: Aggregator + Drop, F: Folder, K: Sink>(
    rt: &T,
    alloc: Global,
    every: u32,
    reader: &mut RunReader<A>,
    name: &str,
    folder: &mut F,
    output: &mut K,
) -> Result<(), Stop>
    requires meaning { A.meaning reader.old.judge.auditor.auditor.aggregator ≡ standard_meaning }
    requires unread { F.failed folder.old ≡ false }
    requires unwritten { K.failed output.old ≡ false }
    ensures aggregator { reader.new.judge.auditor.auditor.aggregator ≡ reader.old.judge.auditor.auditor.aggregator }
    ensures files { F.files folder.new ≡ F.files folder.old }
    ensures same_reference { K.lender output.new ≡ K.lender output.old }
    ensures taken { IsSegmentTaken every (F.files folder.old) name.now reader.old reader.new (F.failed folder.new)
        (K.contents output.old) (K.contents output.new) result }
    ensures noted { K.failed output.new ≡ is_unwritten result }
{
    let size = folder.open(name)?;
    begin(alloc, reader, name, size)?;
    take_file(rt, alloc, every, reader, folder, output)?;
    end(alloc, reader, name)?;
    Ok(())
}

/// Audit the segments in the files of these names, in this order, and write the progress.
///
/// It stops at the first fault. No call is retried. It holds one state and one line.
pub(crate) fn take_segments<T: Wait, A: Aggregator + Drop, F: Folder, K: Sink>(
    rt: &T,
    alloc: Global,
    every: u32,
    reader: &mut RunReader<A>,
    names: &[String],
    folder: &mut F,
    output: &mut K,
) -> Result<Audited, Stop>
    requires meaning { A.meaning reader.old.judge.auditor.auditor.aggregator ≡ standard_meaning }
    requires new { HasRead reader.old [] [] }
    requires unread { F.failed folder.old ≡ false }
    requires unwritten { K.failed output.old ≡ false }
    ensures same_reference { K.lender output.new ≡ K.lender output.old }
    ensures audited { IsFolderEnd every (F.files folder.old) (map string_bytes names.now) (F.failed folder.new)
        (K.contents output.old) (K.contents output.new) result }
    ensures noted { K.failed output.new ≡ is_unwritten result }
{
    if names.is_empty() {
        return Err(Stop::Refused(Refusal::BadSegment {
            number: 0,
            fault: SegmentFault::Missing,
        }));
    }
    for name in names {
        take_segment(rt, alloc, every, reader, name.as_str(), folder, output)?;
    }
    Ok(Audited {
        from: reader.trail.since,
        counts: reader.trail.counts,
    })
}
