//! Answers: the number and values of a read, and the replies to a fire.
ghost use Rattle.std.specs.Option.{option_copied};
ghost use Rattle.std.specs.Prelude.{◌≡◌, ◌++◌, IfOk, OnOk, map, string_bytes, unwrap_or};
ghost use Rattle.serde_json.specs.Data.{string};
ghost use Rattle.serde_json.specs.Written.{comma_if, compact_text};
ghost use Rattle.asm_element.specs.Value.{undef};
ghost use Rattle.asm_journal.specs.Event.{answer_json_of, word_of_cause};
ghost use Rattle.asm_journal.specs.Shape.{list_of};
ghost use Rattle.asm_journal.specs.Value.{value_json_of};
ghost use Rattle.asm_storage.specs.declared.call.Answer.TheVariants as answer;

use crate::form::{ToJson, word_of_cause};
use crate::spelling::ToText;
use crate::spelling::items::{push_key, push_member, push_one, push_pair, push_with_list};
use crate::spelling::scalars::{push_comma, push_quoted, push_sign};
use asm_element::{Location, Value};
use asm_storage::{Answer, Reply};
use asm_update::{Cause, Clash, Lookup};
use serde_json::Value as Json;
use std::alloc::{AllocError, Global};

impl ToJson for Cause {
    ghost json_of = { λ c. string (word_of_cause c) };

    fn to_json(&self, alloc: Global) -> Result<Json, AllocError> {
        Json::try_from_str(alloc, word_of_cause(*self))
    }
}

impl ToText for Cause {
    fn push_text(&self, alloc: Global, text: &mut String) -> Result<(), AllocError> {
        push_quoted(alloc, text, word_of_cause(*self))
    }
}

impl ToText for Clash {
    fn push_text(&self, alloc: Global, text: &mut String) -> Result<(), AllocError> {
        push_pair(alloc, text, &self.at, &self.cause)
    }
}

impl ToText for Reply {
    fn push_text(&self, alloc: Global, text: &mut String) -> Result<(), AllocError> {
        match self {
            Reply::Fired(number) => push_one(alloc, text, "fired", number),
            Reply::Stale(at) => push_one(alloc, text, "stale", at),
            Reply::Clash(clash) => push_one(alloc, text, "clash", clash),
            Reply::Full => push_quoted(alloc, text, "full"),
        }
    }
}

impl ToText for Answer {
    fn push_text(&self, alloc: Global, text: &mut String) -> Result<(), AllocError> {
        match self {
            Answer::Read { number, values } => {
                push_with_list(alloc, text, "number", number, "values", values.as_slice())
            }
            Answer::Fire(reply) => reply.push_text(alloc, text),
        }
    }
}

// Append a value that is seen, or undef if none is, behind a comma if others come before.
fn push_seen(
    alloc: Global,
    text: &mut String,
    later: bool,
    value: Option<&Value>,
) -> Result<(), AllocError>
    ensures { OnOk result (string_bytes text.new ≡ string_bytes text.old
        ++ (comma_if later ++ compact_text (value_json_of (unwrap_or (option_copied value.entry) undef)))) }
{
    push_comma(text, later)?;
    match value {
        Some(value) => value.push_text(alloc, text),
        None => text.push_str("null"),
    }
}

// Append an array of the values that are seen at the locations.
fn push_each_seen<L: Lookup>(
    alloc: Global,
    text: &mut String,
    seen: &L,
    locations: &[Location],
) -> Result<(), AllocError>
    ensures { OnOk result (string_bytes text.new ≡ string_bytes text.old
        ++ compact_text (list_of (map value_json_of (map (L.value_at seen.now) locations.now)))) }
{
    push_sign(text, '[')?;
    let mut later = false;
    for at in locations {
        push_seen(alloc, text, later, seen.get(at))?;
        later = true;
    }
    push_sign(text, ']')?;
    Ok(())
}

/// Write the answer to a read of these locations as a journal does, with what is seen there.
///
/// It copies no value.
///
/// # Errors
///
/// - `AllocError` only if memory is refused.
pub fn values_text<L: Lookup>(
    alloc: Global,
    number: u32,
    seen: &L,
    locations: &[Location],
) -> Result<String, AllocError>
    ensures { IfOk result (λ s. string_bytes s
        ≡ compact_text (answer_json_of (answer.Read number (map (L.value_at seen.now) locations.now)))) }
{
    let mut text = String::with_capacity(alloc, 64)?;
    push_sign(&mut text, '{')?;
    push_member(alloc, &mut text, false, "number", &number)?;
    push_key(alloc, &mut text, true, "values")?;
    push_each_seen(alloc, &mut text, seen, locations)?;
    push_sign(&mut text, '}')?;
    Ok(text)
}
