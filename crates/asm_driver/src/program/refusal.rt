//! Why the program refuses what is asked, with the line and the status of each cause.
ghost use Rattle.std.specs.Prelude.{◌≡◌, false, IfOk, IsOk, string_bytes};
ghost use Rattle.asm_driver.specs.Audit.{refusal_of_audit};
ghost use Rattle.asm_driver.specs.Refusal.{refusal_line, refusal_status, has_number, cause_line as line_of_cause};
ghost use Rattle.asm_driver.specs.Refusal.{journal_line as line_of_journal, part_line as line_of_part, line_bytes};
ghost use Rattle.asm_driver.specs.Refusal.{few_calls_line as line_of_few_calls, journal_has_number};
ghost use Rattle.asm_driver.specs.Refusal.{fault_word, segment_line as line_of_segment};
ghost use Rattle.asm_driver.specs.Refusal.{journal_status as status_of_journal, refusal_of_input, refusal_of_script};
ghost use Rattle.asm_driver.specs.Refusal.{refusal_of_run, refusal_of_journal};
ghost use Rattle.asm_driver.specs.declared.program.refusal.Refusal.TheVariants as refusals;

use crate::ports::input::InputError;
use asm_audit::AuditError;
use asm_journal::JournalError;
use asm_play::RunError;
use asm_script::{ScriptCause, ScriptError};
use std::alloc::{AllocError, Global};

/// Why the program refuses what is asked. Each cause has a line and a status.
#[derive(Clone, Copy, Debug, PartialEq, Eq)]
pub enum Refusal {
    /// The program doesn't accept these words.
    Words,
    /// The input has more than 16,777,216 bytes.
    ///
    /// In a run: a line has more than 1,073,741,824 bytes.
    TooLarge,
    /// The input is not a script.
    BadScript(ScriptCause),
    /// The input is not a journal.
    BadJournal(JournalError),
    /// This segment of a run is not a journal.
    BadPart { part: u64, fault: JournalError },
    /// This segment of a run doesn't open with the state that the one before leaves.
    Apart(u64),
    /// In a run, this is the first call with a wrong answer.
    ///
    /// That is an answer other than that of the sequential storage.
    Illegal { part: u64, call: u64 },
    /// The segment of a run has this many calls, and a window goes beyond them.
    FewCalls { part: u32, calls: u32 },
    /// A run has this many segments, and none with the number of a window's.
    FewParts(u64),
    /// The history of the script's calls is beyond a journal's limits.
    Unfit,
    /// The fired move with this number has no receipt.
    Missing(u32),
    /// In a folder, the segment with this number isn't the one that was saved.
    BadSegment { number: u64, fault: SegmentFault },
    /// A read of the input failed.
    InputFault,
    /// A thread for an agent couldn't be started.
    NoThread,
    /// Memory was refused.
    Memory,
}

/// What is wrong with a segment of a run's folder, beside a fault of its journal.
#[derive(Clone, Copy, Debug, PartialEq, Eq)]
pub enum SegmentFault {
    /// Its text isn't the one that was saved.
    Damaged,
    /// It isn't there.
    Missing,
    /// Two files have its number.
    Twice,
    /// The name of its file isn't that of a segment.
    Misnamed,
    /// Its name has another FIRST or PREVIOUS than the segments before it have moves or digest.
    Misplaced,
    /// Its name has other MOVES or EVENTS than its text.
    Miscounted,
}

impl SegmentFault {
    // Return the word for the fault.
    fn word(self) -> &'static str
        ensures { result.now ≡ fault_word self }
    {
        match self {
            SegmentFault::Damaged => "damaged",
            SegmentFault::Missing => "missing",
            SegmentFault::Twice => "twice",
            SegmentFault::Misnamed => "misnamed",
            SegmentFault::Misplaced => "misplaced",
            SegmentFault::Miscounted => "miscounted",
        }
    }
}

impl From<AllocError> for Refusal {
    ghost from_gives = { λ _ e. e ≡ refusals.Memory };

    fn from(_refused: AllocError) -> Refusal {
        Refusal::Memory
    }
}

impl From<InputError> for Refusal {
    ghost from_gives = { λ e r. r ≡ refusal_of_input e };

    fn from(error: InputError) -> Refusal {
        match error {
            InputError::TooLarge => Refusal::TooLarge,
            InputError::Fault => Refusal::InputFault,
            InputError::Memory => Refusal::Memory,
        }
    }
}

impl From<ScriptError> for Refusal {
    ghost from_gives = { λ e r. r ≡ refusal_of_script e };

    fn from(error: ScriptError) -> Refusal {
        match error {
            ScriptError::BadScript(cause) => Refusal::BadScript(cause),
            ScriptError::Memory => Refusal::Memory,
        }
    }
}

impl From<RunError> for Refusal {
    ghost from_gives = { λ e r. r ≡ refusal_of_run e };

    fn from(error: RunError) -> Refusal {
        match error {
            RunError::BadCapacity => Refusal::Words,
            RunError::NoThread => Refusal::NoThread,
            RunError::Missing(number) => Refusal::Missing(number),
            RunError::Memory => Refusal::Memory,
        }
    }
}

impl From<JournalError> for Refusal {
    ghost from_gives = { λ e r. r ≡ refusal_of_journal e };

    fn from(error: JournalError) -> Refusal {
        match error {
            JournalError::Memory => Refusal::Memory,
            _ => Refusal::BadJournal(error),
        }
    }
}

impl From<AuditError> for Refusal {
    ghost from_gives = { λ e r. r ≡ refusal_of_audit e };

    fn from(error: AuditError) -> Refusal {
        match error {
            AuditError::Journal { part, fault } => Refusal::BadPart { part, fault },
            AuditError::Apart { part } => Refusal::Apart(part),
            AuditError::Illegal { part, call } => Refusal::Illegal { part, call },
            AuditError::LongLine => Refusal::TooLarge,
            AuditError::Memory => Refusal::Memory,
        }
    }
}

/// A line with its line feed.
///
/// It is either fixed, and needs no memory, or was built.
#[derive(Drop)]
pub(crate) enum Line {
    Known(&'static [u8]),
    Made(String),
}

impl Line {
    pub(crate) fn as_bytes(&self) -> &[u8]
        ensures { result.now ≡ line_bytes self.now }
    {
        match self {
            Line::Known(line) => line,
            Line::Made(line) => line.as_bytes(),
        }
    }
}

fn cause_line(cause: ScriptCause) -> &'static [u8]
    ensures { result.now ≡ line_of_cause cause }
{
    match cause {
        ScriptCause::NotJson => b"bad script: not JSON\n",
        ScriptCause::Shape => b"bad script: shape\n",
        ScriptCause::Agents => b"bad script: agents\n",
        ScriptCause::Blocks => b"bad script: blocks\n",
        ScriptCause::Instructions => b"bad script: instructions\n",
        ScriptCause::Reads => b"bad script: reads\n",
    }
}

fn journal_line(alloc: Global, error: JournalError) -> Result<Line, AllocError>
    ensures line { IfOk result (λ l. line_bytes l ≡ line_of_journal error) }
    ensures known { (journal_has_number error ≡ false) → IsOk result }
{
    Ok(match error {
        JournalError::NotJson(line) => {
            Line::Made(format!(in alloc; "journal line {line}: not JSON\n")?)
        }
        JournalError::Shape(line) => {
            Line::Made(format!(in alloc; "journal line {line}: shape\n")?)
        }
        JournalError::Version => Line::Known(b"journal version\n"),
        JournalError::Cut => Line::Known(b"journal cut\n"),
        JournalError::Memory => Line::Known(b"out of memory\n"),
    })
}

fn part_line(alloc: Global, part: u64, fault: JournalError) -> Result<String, AllocError>
    ensures { IfOk result (λ l. string_bytes l ≡ line_of_part part fault) }
{
    match fault {
        JournalError::NotJson(line) => {
            format!(in alloc; "part {part} journal line {line}: not JSON\n")
        }
        JournalError::Shape(line) => {
            format!(in alloc; "part {part} journal line {line}: shape\n")
        }
        JournalError::Version => format!(in alloc; "part {part} journal version\n"),
        JournalError::Cut => format!(in alloc; "part {part} journal cut\n"),
        JournalError::Memory => format!(in alloc; "part {part} out of memory\n"),
    }
}

fn few_calls_line(alloc: Global, part: u32, calls: u32) -> Result<String, AllocError>
    ensures { IfOk result (λ l. string_bytes l ≡ line_of_few_calls part calls) }
{
    format!(in alloc; "part {part} has {calls} calls\n")
}

fn segment_line(alloc: Global, number: u64, fault: SegmentFault) -> Result<String, AllocError>
    ensures { IfOk result (λ l. string_bytes l ≡ line_of_segment number fault) }
{
    let word = fault.word();
    format!(in alloc; "segment {number} {word}\n")
}

fn journal_status(error: JournalError) -> u8
    ensures { result ≡ status_of_journal error }
{
    match error {
        JournalError::Memory => 3,
        _ => 2,
    }
}

impl Refusal {
    /// Return the line that is written.
    ///
    /// # Errors
    ///
    /// - `AllocError` only for a line with a number, and only if memory is refused.
    pub(crate) fn line(self, alloc: Global) -> Result<Line, AllocError>
        ensures line { IfOk result (λ l. line_bytes l ≡ refusal_line self) }
        ensures known { (has_number self ≡ false) → IsOk result }
    {
        Ok(match self {
            Refusal::Words => Line::Known(b"bad words\n"),
            Refusal::TooLarge => Line::Known(b"input too large\n"),
            Refusal::BadScript(cause) => Line::Known(cause_line(cause)),
            Refusal::BadJournal(error) => return journal_line(alloc, error),
            Refusal::BadPart { part, fault } => Line::Made(part_line(alloc, part, fault)?),
            Refusal::Apart(part) => Line::Made(format!(in alloc; "part {part} apart\n")?),
            Refusal::Illegal { part, call } => {
                Line::Made(format!(in alloc; "illegal {part} {call}\n")?)
            }
            Refusal::FewCalls { part, calls } => Line::Made(few_calls_line(alloc, part, calls)?),
            Refusal::FewParts(parts) => {
                Line::Made(format!(in alloc; "the run has {parts} parts\n")?)
            }
            Refusal::Unfit => Line::Known(b"bad script: shape\n"),
            Refusal::Missing(number) => {
                Line::Made(format!(in alloc; "missing move {number}\n")?)
            }
            Refusal::BadSegment { number, fault } => {
                Line::Made(segment_line(alloc, number, fault)?)
            }
            Refusal::InputFault => Line::Known(b"input fault\n"),
            Refusal::NoThread => Line::Known(b"no thread\n"),
            Refusal::Memory => Line::Known(b"out of memory\n"),
        })
    }

    /// Return the program's status.
    pub(crate) fn status(self) -> u8
        ensures { result ≡ refusal_status self }
    {
        match self {
            Refusal::Missing(_) | Refusal::Illegal { part: _, call: _ } => 1,
            Refusal::BadSegment {
                number: _,
                fault: _,
            } => 1,
            Refusal::Words
            | Refusal::TooLarge
            | Refusal::BadScript(_)
            | Refusal::Unfit
            | Refusal::Apart(_)
            | Refusal::FewCalls { part: _, calls: _ }
            | Refusal::FewParts(_) => 2,
            Refusal::BadJournal(error) => journal_status(error),
            Refusal::BadPart { part: _, fault } => journal_status(fault),
            Refusal::NoThread | Refusal::Memory => 3,
            Refusal::InputFault => 4,
        }
    }
}
