//! Checking a journal, the state that it leaves, and its trace.
#![tactic(auto, unfolding(asm_aggregate::specs::Standard::standard_meaning))]

ghost use Rattle.std.specs.Prelude.{◌≡◌, string_bytes, IfErr, IfOk, MatchResult};
ghost use Rattle.asm_slots.specs.Journals.{Checks, DoesNotCheck, IsChecked, IsNoJournal, IsReplayed, IsTraceOf, code_of_journal, line_of};
ghost use Rattle.asm_slots.specs.WrittenText.{IsWritten};
ghost use Rattle.asm_journal.specs.Fault.{IsRefused};

use crate::codes::{Code, write};
use asm_aggregate::standard;
use asm_journal::{JournalError, Legality, from_text, state_text};
use asm_trace::standard_trace_text;
use std::alloc::{AllocError, Global};

/// Return the code of the error, and set the number of the line at fault, or 0.
pub(crate) fn code_of_error(error: JournalError, line: &mut u64) -> Code
    ensures code { result ≡ code_of_journal error }
    ensures line { line.new ≡ line_of error }
{
    *line = 0;
    match error {
        JournalError::NotJson(number) => {
            *line = number;
            Code::NotJson
        }
        JournalError::Shape(number) => {
            *line = number;
            Code::Shape
        }
        JournalError::Version => Code::Version,
        JournalError::Cut => Code::Cut,
        JournalError::Memory => Code::Memory,
    }
}

fn checked(alloc: Global, journal: &[u8]) -> Result<Legality, JournalError>
    ensures ok { IfOk result (IsChecked journal.now) }
    ensures err { IfErr result (IsRefused journal.now) }
{
    let history = from_text(alloc, journal)?;
    match asm_journal::check(alloc, &standard(), &history) {
        Ok(legality) => Ok(legality),
        Err(AllocError) => Err(JournalError::Memory),
    }
}

/// Do what `asm_check` does.
pub fn check(alloc: Global, journal: &[u8], calls: &mut u64, moves: &mut u32) -> Result<(), Code>
    ensures { MatchResult result (λ done. Checks journal.now calls.new moves.new)
        (DoesNotCheck journal.now calls.new moves.new) }
{
    *calls = 0;
    *moves = 0;
    match checked(alloc, journal) {
        Ok(
            Legality::Legal {
                calls: events,
                moves: fired,
            },
        ) => {
            *calls = events;
            *moves = fired;
            Ok(())
        }
        Ok(Legality::Illegal { call }) => {
            *calls = call;
            Err(Code::Illegal)
        }
        Err(error) => Err(code_of_error(error, calls)),
    }
}

fn replayed(alloc: Global, journal: &[u8]) -> Result<String, JournalError>
    ensures ok { IfOk result (λ text. IsReplayed journal.now (string_bytes text)) }
    ensures err { IfErr result (IsRefused journal.now) }
{
    let history = from_text(alloc, journal)?;
    let Ok(state) = asm_journal::replay(alloc, &standard(), &history) else {
        return Err(JournalError::Memory);
    };
    match state_text(alloc, &state) {
        Ok(text) => Ok(text),
        Err(AllocError) => Err(JournalError::Memory),
    }
}

/// Do what `asm_replay` does.
pub fn replay(
    alloc: Global,
    journal: &[u8],
    out: &mut [u8],
    written: &mut usize,
    line: &mut u64,
) -> Result<(), Code>
    ensures { IsWritten (λ text. (line.new ≡ 0) × IsReplayed journal.now text) (IsNoJournal journal.now line.new)
        out.old out.new written.new result }
{
    *written = 0;
    *line = 0;
    match replayed(alloc, journal) {
        Ok(text) => write(text.as_bytes(), out, written),
        Err(error) => Err(code_of_error(error, line)),
    }
}

fn traced(alloc: Global, journal: &[u8]) -> Result<String, JournalError>
    ensures ok { IfOk result (λ text. IsTraceOf journal.now (string_bytes text)) }
    ensures err { IfErr result (IsRefused journal.now) }
{
    let history = from_text(alloc, journal)?;
    match standard_trace_text(alloc, &history) {
        Ok(text) => Ok(text),
        Err(AllocError) => Err(JournalError::Memory),
    }
}

/// Do what `asm_trace` does.
pub fn trace(
    alloc: Global,
    journal: &[u8],
    out: &mut [u8],
    written: &mut usize,
    line: &mut u64,
) -> Result<(), Code>
    ensures { IsWritten (λ text. (line.new ≡ 0) × IsTraceOf journal.now text) (IsNoJournal journal.now line.new)
        out.old out.new written.new result }
{
    *written = 0;
    *line = 0;
    match traced(alloc, journal) {
        Ok(text) => write(text.as_bytes(), out, written),
        Err(error) => Err(code_of_error(error, line)),
    }
}
