//! States and update sets: locations with their values.
ghost use Rattle.std.specs.Prelude.{◌≡◌, ◌++◌, IfOk, OnOk, map, string_bytes};
ghost use Rattle.serde_json.specs.Written.{compact_text};
ghost use Rattle.asm_journal.specs.Shape.{list_of};
ghost use Rattle.asm_journal.specs.Value.{pair_json_of};
ghost use Rattle.asm_state.specs.Listed.{by_value};

use crate::spelling::ToText;
use crate::spelling::items::push_pair;
use crate::spelling::scalars::{push_comma, push_sign};
use asm_element::{Location, Value};
use asm_update::{PlainState, UpdateSet};
use std::alloc::{AllocError, Global};
use std::collections::btree_map::Iter;

// Append an array of locations with their values.
fn push_pairs(
    alloc: Global,
    text: &mut String,
    pairs: Iter<'_, Location, Value>,
) -> Result<(), AllocError>
    ensures { OnOk result (string_bytes text.new ≡ string_bytes text.old
        ++ compact_text (list_of (map pair_json_of pairs.entry))) }
{
    push_sign(text, '[')?;
    let mut later = false;
    for (at, value) in pairs {
        push_comma(text, later)?;
        push_pair(alloc, text, at, value)?;
        later = true;
    }
    push_sign(text, ']')?;
    Ok(())
}

// Append an array of locations with their values.
fn push_listed(
    alloc: Global,
    text: &mut String,
    list: &[(&Location, &Value)],
) -> Result<(), AllocError>
    ensures { OnOk result (string_bytes text.new ≡ string_bytes text.old
        ++ compact_text (list_of (map pair_json_of (by_value list.now)))) }
{
    push_sign(text, '[')?;
    let mut later = false;
    for (at, value) in list {
        push_comma(text, later)?;
        push_pair(alloc, text, *at, *value)?;
        later = true;
    }
    push_sign(text, ']')?;
    Ok(())
}

/// Write locations with their values as a state that has them is written.
///
/// It copies no value.
///
/// # Errors
///
/// - `AllocError` only if memory is refused.
pub fn list_text(alloc: Global, list: &[(&Location, &Value)]) -> Result<String, AllocError>
    ensures { IfOk result (λ s. string_bytes s ≡ compact_text (list_of (map pair_json_of (by_value list.now)))) }
{
    let mut text = String::with_capacity(alloc, 64)?;
    push_listed(alloc, &mut text, list)?;
    Ok(text)
}

impl ToText for PlainState {
    fn push_text(&self, alloc: Global, text: &mut String) -> Result<(), AllocError> {
        push_pairs(alloc, text, self.iter())
    }
}

impl ToText for UpdateSet {
    fn push_text(&self, alloc: Global, text: &mut String) -> Result<(), AllocError> {
        push_pairs(alloc, text, self.iter())
    }
}
