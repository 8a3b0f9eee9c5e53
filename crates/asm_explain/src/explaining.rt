//! Whether a text reads as a form, and a sentence that says where and why it doesn't.
ghost use Rattle.std.specs.Prelude.{◌≡◌, ◌≢◌, ◌≤◌, ◌⊎◌, [], true, false, length, string_bytes};
ghost use Rattle.std.specs.Prelude.{IfOk, IfNone, IfSome};
ghost use Rattle.asm_journal.specs.Reading.{HasNoLineFeed};
ghost use Rattle.asm_explain.specs.Bytes.{IsNoJson, IsOtherJson, ReadAs};
ghost use Rattle.asm_explain.specs.Forms.{IsOfForm, IsOfNoForm};
ghost use Rattle.asm_explain.specs.Limits.{sentence_limit};
ghost use Rattle.asm_explain.specs.declared.explaining.Form.TheVariants as forms;

use crate::fault::{LOCATIONS, OBJECT, SCRIPT, STATE, sentence_of, why_not};
use crate::reading::{TextError, fire_of, read_as};
use crate::sentence::{as_one_line, not_json};
use asm_element::Location;
use asm_journal::{FormCause, FormError, FromJson, Listed, one_member};
use asm_script::{ScriptError, parse_script, read_script};
use asm_storage::{Call, Event};
use asm_update::PlainState;
use serde_json::Value as Json;
use std::alloc::{AllocError, Global};

/// The forms of texts that are explained.
#[derive(Clone, Copy, Debug, PartialEq, Eq)]
pub enum Form {
    /// Locations, `[LOC, ..]`.
    Locations,
    /// A move with its declared reads, `{"fire":[INSTR, ..],"reads":[NAMED, ..]}`.
    Move,
    /// A state, `[PAIR, ..]`.
    State,
    /// An event, as in a journal's lines after the first.
    Event,
    /// A script.
    Script,
}

// Whether the text is JSON of a value of this type.
fn reads_as<T: FromJson>(alloc: Global, text: &[u8]) -> Result<bool, AllocError>
    ensures reads { IfOk result (λ b. b ≡ true → (x : T) × ReadAs T.is_form text.now x) }
    ensures other { IfOk result (λ b. b ≡ false → IsNoJson text.now ⊎ IsOtherJson T.is_form text.now) }
{
    match read_as::<T>(alloc, text) {
        Ok(_) => Ok(true),
        Err(TextError::Memory) => Err(AllocError),
        Err(_) => Ok(false),
    }
}

fn reads_as_move(alloc: Global, text: &[u8]) -> Result<bool, AllocError>
    ensures reads { IfOk result (λ b. b ≡ true → IsOfForm forms.Move text.now) }
    ensures other { IfOk result (λ b. b ≡ false → IsOfNoForm forms.Move text.now) }
{
    match fire_of(alloc, text) {
        Ok(_) => Ok(true),
        Err(TextError::Memory) => Err(AllocError),
        Err(_) => Ok(false),
    }
}

fn reads_as_script(alloc: Global, text: &[u8]) -> Result<bool, AllocError>
    ensures reads { IfOk result (λ b. b ≡ true → IsOfForm forms.Script text.now) }
    ensures other { IfOk result (λ b. b ≡ false → IsOfNoForm forms.Script text.now) }
{
    let refused = match parse_script(alloc, text) {
        Ok(_script) => return Ok(true),
        Err(refused) => refused,
    };
    match refused {
        ScriptError::BadScript(_) => Ok(false),
        ScriptError::Memory => Err(AllocError),
    }
}

// Whether the reader of this form accepts the text.
fn accepts(alloc: Global, form: Form, text: &[u8]) -> Result<bool, AllocError>
    ensures reads { IfOk result (λ b. b ≡ true → IsOfForm form text.now) }
    ensures other { IfOk result (λ b. b ≡ false → IsOfNoForm form text.now) }
{
    match form {
        Form::Locations => reads_as::<Listed<Location>>(alloc, text),
        Form::Move => reads_as_move(alloc, text),
        Form::State => reads_as::<PlainState>(alloc, text),
        Form::Event => reads_as::<Event>(alloc, text),
        Form::Script => reads_as_script(alloc, text),
    }
}

// Where and why JSON is no move with its reads; `None` if it is one.
fn why_no_move(alloc: Global, json: &Json) -> Result<Option<String>, AllocError> {
    if one_member(json, "read").is_some() {
        let error = FormError::of(alloc, FormCause::Call);
        return Ok(Some(sentence_of(alloc, OBJECT, json, error)?));
    }
    why_not::<Call>(alloc, OBJECT, json)
}

// Where and why JSON is no script; `None` if it is one.
fn why_no_script(alloc: Global, json: &Json) -> Result<Option<String>, AllocError> {
    match read_script(alloc, json) {
        Ok(_script) => Ok(None),
        Err(error) => Ok(Some(sentence_of(alloc, SCRIPT, json, error)?)),
    }
}

// Where and why JSON has another form; `None` if it has this one.
fn why_other(alloc: Global, form: Form, json: &Json) -> Result<Option<String>, AllocError> {
    match form {
        Form::Locations => why_not::<Listed<Location>>(alloc, LOCATIONS, json),
        Form::Move => why_no_move(alloc, json),
        Form::State => why_not::<PlainState>(alloc, STATE, json),
        Form::Event => why_not::<Event>(alloc, OBJECT, json),
        Form::Script => why_no_script(alloc, json),
    }
}

// The sentence on a text that has another form.
fn sentence(alloc: Global, form: Form, text: &[u8]) -> Result<String, AllocError>
    ensures some { IfOk result (λ s. string_bytes s ≢ []) }
    ensures one_line { IfOk result (λ s. HasNoLineFeed (string_bytes s)) }
    ensures short { IfOk result (λ s. length (string_bytes s) ≤ sentence_limit) }
{
    let said = match Json::from_slice(alloc, text) {
        Ok(json) => why_other(alloc, form, &json)?.unwrap_or(String::new(alloc)),
        Err(error) if error.is_memory() => return Err(AllocError),
        Err(error) => not_json(alloc, text, &error, form == Form::Script)?,
    };
    as_one_line(alloc, said)
}

/// Explain where and why a text isn't of this form; return None if it is.
///
/// The sentence isn't empty, has no line feed, and has at most `SENTENCE_LIMIT` bytes. The call judges what the readers of
/// these forms accept, and nothing for which another call is refused: more than 256 locations are locations. A script is
/// accepted if `parse_script` reads it, within its limits. Agents, steps, blocks, instructions and pairs of a script are
/// counted from 0, as in its report; the parts of other texts, bytes and lines from 1. The choice of the sentence is
/// tested.
///
/// # Errors
///
/// - `AllocError` only if memory is refused.
pub fn explain(alloc: Global, form: Form, text: &[u8]) -> Result<Option<String>, AllocError>
    ensures accepted { IfOk result (λ said. IfNone said (IsOfForm form text.now)) }
    ensures refused { IfOk result (λ said. IfSome said (λ s. IsOfNoForm form text.now)) }
    ensures reports { IfOk result (λ said. IfSome said (λ s. string_bytes s ≢ [])) }
    ensures one_line { IfOk result (λ said. IfSome said (λ s. HasNoLineFeed (string_bytes s))) }
    ensures short { IfOk result (λ said. IfSome said (λ s. length (string_bytes s) ≤ sentence_limit)) }
{
    if accepts(alloc, form, text)? {
        return Ok(None);
    }
    Ok(Some(sentence(alloc, form, text)?))
}
