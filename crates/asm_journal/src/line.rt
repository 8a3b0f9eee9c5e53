//! The lines of a journal text.
ghost use Rattle.std.specs.Prelude.{◌≡◌, ◌⊎◌, IfSome, IfNone, IfOk, IfErr};
ghost use Rattle.serde_json.specs.Data.{Data};
ghost use Rattle.serde_json.specs.View.{view};
ghost use Rattle.asm_journal.specs.Reading.{IsJson, HasNoLineFeed, EndsLine, HasLine};
ghost use Rattle.asm_journal.specs.Fault.{BreaksLine};

use crate::error::JournalError;
use serde_json::Value as Json;
use std::alloc::Global;

/// Split a text behind its first line feed, into the line before it and the rest.
fn split_line(text: &[u8]) -> Option<(&[u8], &[u8])>
    ensures some { IfSome result (λ p. EndsLine text.now p.0.now p.1.now) }
    ensures none { IfNone result (HasNoLineFeed text.now) }
{
    let end = text.iter().position(|b| *b == b'\n')?;
    Some((&text[..end], &text[end + 1..]))
}

/// Parse the line with this number.
///
/// In a stack frame of its own, as `serde_json` reads with 16 KiB of the stack.
#[inline(never)]
fn parse(alloc: Global, line: &[u8], number: u64) -> Result<Json, JournalError>
    ensures ok { IfOk result (λ v. IsJson line.now (view v)) }
    ensures err { IfErr result (λ e. (e ≡ JournalError.Memory)
        ⊎ ((e ≡ JournalError.NotJson number) × ((d : Data) → ¬ IsJson line.now d))) }
{
    match Json::from_slice(alloc, line) {
        Ok(json) => Ok(json),
        Err(error) if error.is_memory() => Err(JournalError::Memory),
        Err(_) => Err(JournalError::NotJson(number)),
    }
}

/// Parse the first line of a text, and return the rest of the text too.
///
/// The line has this number.
pub(crate) fn json_line(
    alloc: Global,
    text: &[u8],
    number: u64,
) -> Result<(Json, &[u8]), JournalError>
    ensures ok { IfOk result (λ p. HasLine text.now (view p.0) p.1.now) }
    ensures err { IfErr result (BreaksLine number text.now) }
{
    if text.is_empty() {
        return Err(JournalError::Cut);
    }
    match split_line(text) {
        Some((line, rest)) => Ok((parse(alloc, line, number)?, rest)),
        None => {
            parse(alloc, text, number)?;
            Err(JournalError::Cut)
        }
    }
}
