//! Texts of the input for a line on a terminal.
use std::alloc::{AllocError, Global};

// Number of bytes after which a text is cut.
const SHOWN: usize = 200;

// Return whether a terminal obeys the character, or changes the direction for it, instead of showing it.
fn is_obeyed(character: char) -> bool {
    matches!(u32::from(character),
        0..=0x1f | 0x7f..=0x9f | 0x61c | 0x200e | 0x200f | 0x2028..=0x202e | 0x2066..=0x2069)
}

// Append the character, escaped as in JSON if a terminal obeys it.
fn push_shown(alloc: Global, text: &mut String, character: char) -> Result<(), AllocError> {
    if !is_obeyed(character) {
        return text.push(character);
    }
    let code = u32::from(character);
    let escaped = format!(in alloc; "\\u{code:04x}")?;
    text.push_str(escaped.as_str())
}

/// Return the text as a terminal may show it, cut after 200 bytes.
///
/// Characters that a terminal would obey are escaped. The text is cut after the first character with which at least 200
/// bytes are shown, and `...` follows if there are more.
///
/// # Errors
///
/// - `AllocError` only if memory is refused.
pub fn shown_text(alloc: Global, text: &str) -> Result<String, AllocError> {
    let mut shown = String::new(alloc);
    for character in text.chars() {
        if shown.len() >= SHOWN {
            shown.push_str("...")?;
            return Ok(shown);
        }
        push_shown(alloc, &mut shown, character)?;
    }
    Ok(shown)
}
