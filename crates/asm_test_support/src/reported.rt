//! What errors say: their texts, and clashes.
use crate::plain_data::location;
use asm_update::{Cause, Clash};
use std::alloc::{AllocError, Global};
use std::fmt::Display;

/// Return whether it is shown as this text.
///
/// # Errors
///
/// - `AllocError` only if memory is refused.
pub fn has_text<T: Display>(alloc: Global, shown: &T, text: &str) -> Result<bool, AllocError> {
    Ok(shown.to_string(alloc)?.as_str() == text)
}

/// Return a clash at the location of this name, without arguments.
///
/// # Errors
///
/// - `AllocError` if memory was refused, and for a name that isn't one, which no table has.
pub fn clash_at(alloc: Global, name: &str, cause: Cause) -> Result<Clash, AllocError> {
    let at = location(alloc, name)?;
    Ok(Clash { at, cause })
}

/// Return whether it is the clash at the location of this name, without arguments, for this cause.
pub fn is_clash(clash: &Clash, name: &str, cause: Cause) -> bool {
    clash.at.name() == name && clash.at.args().is_empty() && clash.cause == cause
}
