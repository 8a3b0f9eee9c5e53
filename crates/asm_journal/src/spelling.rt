//! The compact JSON of values, appended to a text in its order: no value of `serde_json` is made on the way.
ghost use Rattle.std.specs.Prelude.{◌≡◌, ◌++◌, IfOk, OnOk, string_bytes};
ghost use Rattle.serde_json.specs.Written.{compact_text};

use crate::form::ToJson;
use std::alloc::{AllocError, Global};

mod answer;
mod call;
mod element;
mod instruction;
mod items;
mod scalars;
mod state;
mod value;

pub use answer::values_text;
pub(crate) use items::push_member;
pub(crate) use scalars::push_sign;
pub use state::list_text;

/// A value whose compact JSON is written without a tree of it.
pub trait ToText: ToJson {
    /// Append its compact JSON to the text.
    ///
    /// # Errors
    ///
    /// - `AllocError` only if memory is refused; the text may have grown by a part of the JSON then.
    fn push_text(&self, alloc: Global, text: &mut String) -> Result<(), AllocError>
        ensures { OnOk result (string_bytes text.new
            ≡ string_bytes text.old ++ compact_text (Self.json_of self.now)) };
}

/// Return the compact JSON of a value.
///
/// # Errors
///
/// - `AllocError` only if memory is refused.
pub(crate) fn text_of<T: ToText>(alloc: Global, value: &T) -> Result<String, AllocError>
    ensures { IfOk result (λ s. string_bytes s ≡ compact_text (T.json_of value.now)) }
{
    let mut text = String::with_capacity(alloc, 64)?;
    value.push_text(alloc, &mut text)?;
    Ok(text)
}
