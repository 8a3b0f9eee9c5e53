//! Signs, texts in quotes, and whole numbers.
ghost use Rattle.std.specs.Prelude.{◌≡◌, ◌<◌, ◌++◌, ◌∷◌, [], IfOk, OnOk, false, string_bytes};
ghost use Rattle.std.specs.List.{list_all};
ghost use Rattle.json.specs.Print.{quoted};
ghost use Rattle.json.specs.Run.{is_plain};
ghost use Rattle.serde_json.specs.View.{view};
ghost use Rattle.serde_json.specs.Written.{comma_if, compact_text, has_float};
ghost use Rattle.asm_journal.specs.Element.{integer_json_of};
ghost use Rattle.asm_journal.specs.Shape.{number_json_of};

use crate::form::ToJson;
use crate::front::scalars::is_own;
use crate::spelling::ToText;
use itoa::Buffer;
use serde_json::Value as Json;
use std::alloc::{AllocError, Global};

/// Append a sign of ASCII.
pub(crate) fn push_sign(text: &mut String, sign: char) -> Result<(), AllocError>
    requires { sign < 128 }
    ensures { OnOk result (string_bytes text.new ≡ string_bytes text.old ++ sign ∷ []) }
{
    text.push(sign)
}

/// Append a comma, if an item comes before.
pub(crate) fn push_comma(text: &mut String, later: bool) -> Result<(), AllocError>
    ensures { OnOk result (string_bytes text.new ≡ string_bytes text.old ++ comma_if later) }
{
    if later {
        push_sign(text, ',')?;
    }
    Ok(())
}

// Return whether each byte means itself in quotes.
fn are_own(text: &str) -> bool
    ensures { result ≡ list_all is_plain text.now }
{
    text.as_bytes().iter().all(|b| is_own(*b))
}

// Append a text of which no byte is escaped, in quotes.
fn push_plain(text: &mut String, body: &str) -> Result<(), AllocError>
    ensures { OnOk result (string_bytes text.new ≡ string_bytes text.old ++ 34 ∷ (body.now ++ 34 ∷ [])) }
{
    push_sign(text, '"')?;
    text.push_str(body)?;
    push_sign(text, '"')?;
    Ok(())
}

// Return the compact text of a value without floats.
fn compact(alloc: Global, json: &Json) -> Result<String, AllocError>
    requires { has_float (view json.now) ≡ false }
    ensures { IfOk result (λ s. string_bytes s ≡ compact_text (view json.now)) }
{
    json.to_string(alloc)
}

// Append a text in quotes, by the writer of JSON.
fn push_escaped(alloc: Global, text: &mut String, body: &str) -> Result<(), AllocError>
    ensures { OnOk result (string_bytes text.new ≡ string_bytes text.old ++ quoted body.now) }
{
    let json = Json::try_from_str(alloc, body)?;
    let escaped = compact(alloc, &json)?;
    text.push_str(escaped.as_str())?;
    Ok(())
}

/// Append a text in quotes, with the escapes of JSON.
pub(crate) fn push_quoted(alloc: Global, text: &mut String, body: &str) -> Result<(), AllocError>
    ensures { OnOk result (string_bytes text.new ≡ string_bytes text.old ++ quoted body.now) }
{
    if are_own(body) {
        push_plain(text, body)?;
        return Ok(());
    }
    push_escaped(alloc, text, body)
}

// Append a whole number, which may be below 0.
fn push_integer(text: &mut String, number: i64) -> Result<(), AllocError>
    ensures { OnOk result (string_bytes text.new ≡ string_bytes text.old ++ compact_text (integer_json_of number)) }
{
    let mut digits = Buffer::new();
    text.push_str(digits.format(number))?;
    Ok(())
}

impl ToText for i64 {
    fn push_text(&self, _alloc: Global, text: &mut String) -> Result<(), AllocError> {
        push_integer(text, *self)
    }
}

impl ToJson for u32 {
    ghost json_of = { number_json_of };

    fn to_json(&self, _alloc: Global) -> Result<Json, AllocError> {
        Ok(Json::from(*self))
    }
}

impl ToText for u32 {
    fn push_text(&self, _alloc: Global, text: &mut String) -> Result<(), AllocError> {
        let mut digits = Buffer::new();
        text.push_str(digits.format(*self))?;
        Ok(())
    }
}
