//! Sentences on what is wrong in a text.
ghost use Rattle.std.specs.Prelude.{◌≢◌, ◌≤◌, ◌↔◌, [], IfOk, IsTrue, length, string_bytes};
ghost use Rattle.asm_journal.specs.Reading.{HasNoLineFeed};
ghost use Rattle.asm_explain.specs.Limits.{sentence_limit};

use std::alloc::{AllocError, Global};

/// The most bytes of a sentence.
pub const SENTENCE_LIMIT: usize = 512;

/// Return the number with a comma before each three of its last digits.
pub(crate) fn grouped(alloc: Global, number: usize) -> Result<String, AllocError> {
    let digits = format!(in alloc; "{number}")?;
    let mut left = digits.len();
    let mut text = String::new(alloc);
    for digit in digits.chars() {
        if !text.is_empty() && left % 3 == 0 {
            text.push_str(",")?;
        }
        text.push(digit)?;
        left = left.saturating_sub(1);
    }
    Ok(text)
}

fn has_no_line_feed(text: &[u8]) -> bool
    ensures { IsTrue result ↔ HasNoLineFeed text.now }
{
    text.iter().all(|byte| *byte != b'\n')
}

/// Return the sentence if it is one line, not empty and not too long.
///
/// Else return the sentence that the text has another shape.
pub(crate) fn as_one_line(alloc: Global, said: String) -> Result<String, AllocError>
    ensures some { IfOk result (λ s. string_bytes s ≢ []) }
    ensures one_line { IfOk result (λ s. HasNoLineFeed (string_bytes s)) }
    ensures short { IfOk result (λ s. length (string_bytes s) ≤ sentence_limit) }
{
    if said.is_empty() || said.len() > SENTENCE_LIMIT || !has_no_line_feed(said.as_bytes()) {
        return String::from_str(alloc, "JSON of another shape");
    }
    Ok(said)
}

// Where the text ceases to be JSON: how many bytes end with the one at fault.
fn byte_of(text: &[u8], line: usize, column: usize) -> usize {
    let mut left = line;
    let mut behind = 0;
    for (at, byte) in text.iter().enumerate() {
        if left <= 1 {
            break;
        }
        if *byte == b'\n' {
            left -= 1;
            behind = at + 1;
        }
    }
    column.saturating_add(behind)
}

/// Return the sentence on a text that isn't JSON.
///
/// It has the line, if that is wanted and isn't the first.
pub(crate) fn not_json(
    alloc: Global,
    text: &[u8],
    error: &serde_json::Error,
    with_line: bool,
) -> Result<String, AllocError> {
    let line = error.line();
    let byte = if error.is_eof() {
        text.len()
    } else {
        byte_of(text, line, error.column())
    };
    let place = if with_line && line > 1 {
        format!(in alloc; "{byte}, in line {line}")?
    } else {
        format!(in alloc; "{byte}")?
    };
    if error.is_eof() {
        return format!(in alloc; "not JSON: cut off after byte {place}");
    }
    format!(in alloc; "not JSON at byte {place}")
}
