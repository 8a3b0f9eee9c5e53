//! What a refused text seems to be.
use crate::words::TextKind;
use std::alloc::{AllocError, Global};

// How many bytes are inspected.
const HEAD: usize = 65_536;

// Recognise another format by the first bytes.
fn other_format(bytes: &[u8]) -> Option<&'static str> {
    if bytes.is_empty() {
        return Some("it is empty");
    }
    if bytes.starts_with(b"\x1f\x8b") {
        return Some("it is compressed by gzip");
    }
    if bytes.starts_with(b"\xef\xbb\xbf") {
        return Some("it begins with a byte order mark, which no JSON has");
    }
    if bytes.starts_with(b"\xff\xfe") || bytes.starts_with(b"\xfe\xff") {
        return Some("it is UTF-16, and has to be UTF-8");
    }
    if bytes
        .iter()
        .any(|byte| *byte < b' ' && !byte.is_ascii_whitespace())
    {
        return Some("it is no text");
    }
    None
}

fn ends_with_one_of(line: &[u8], first: &[u8], second: &[u8]) -> bool {
    line.ends_with(first) || line.ends_with(second)
}

// Recognise the text without blanks by its first line.
fn hint_of_line(kind: TextKind, line: &[u8]) -> Option<&'static str> {
    if ends_with_one_of(line, b"\"trace\":1}", b"\"trace\":2}") {
        return Some("it is a trace, which view shows");
    }
    if kind == TextKind::Journal {
        return None;
    }
    if ends_with_one_of(line, b"\"version\":1}", b"\"version\":2}") {
        return Some("it is a journal, which check, rewrite, trace and view take");
    }
    if line.starts_with(b"{'") {
        return Some("texts and keys stand between double quotes");
    }
    None
}

// Recognise the text without white space.
fn hint_of_text(kind: TextKind, text: &[u8], reason: &str) -> Option<&'static str> {
    if kind == TextKind::Journal {
        if text.starts_with(b"{\"init\":[") || text.starts_with(b"{\"agents\":[") {
            return Some("it is a script, which run plays");
        }
        return None;
    }
    let has_comma = text.windows(2).any(|pair| pair == b",]".as_slice()
        || pair == b",}".as_slice());
    if has_comma && reason.contains("not JSON") {
        return Some("perhaps for a comma in front of a closing bracket");
    }
    None
}

fn without(alloc: Global, text: &[u8], blanks: &[u8]) -> Result<Vec<u8>, AllocError> {
    let mut left = Vec::new(alloc);
    for byte in text {
        if !blanks.contains(byte) {
            left.push(*byte)?;
        }
    }
    Ok(left)
}

/// Return what the bytes seem to be, if that is known.
/// They were refused as such a text for this cause.
pub(crate) fn hint(
    alloc: Global,
    kind: TextKind,
    bytes: &[u8],
    reason: &str,
) -> Result<Option<&'static str>, AllocError> {
    let head = bytes.get(..HEAD).unwrap_or(bytes);
    if let Some(other) = other_format(head) {
        return Ok(Some(other));
    }
    let lines = without(alloc, head, b" \t\r")?;
    let first = lines.as_slice().split(|byte| *byte == b'\n').next();
    if let Some(known) = hint_of_line(kind, first.unwrap_or(b"")) {
        return Ok(Some(known));
    }
    let text = without(alloc, lines.as_slice(), b"\n")?;
    Ok(hint_of_text(kind, text.as_slice(), reason))
}
