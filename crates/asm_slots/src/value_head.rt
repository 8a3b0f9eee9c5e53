//! Values as kind, number and bytes.
ghost use Rattle.std.specs.Prelude.{◌≡◌, pos, IfErr, IfNone, IfOk, IfSome};
ghost use Rattle.serde_json.specs.Written.{compact_text};
ghost use Rattle.asm_element.specs.declared.value.Value.TheVariants as values;
ghost use Rattle.asm_journal.specs.Value.{value_json_of};
ghost use Rattle.asm_slots.specs.Answers.{IsMemory};
ghost use Rattle.asm_slots.specs.Kinds.{IsValueBy, bytes_of, kind_of, number_of};
ghost use Rattle.asm_slots.specs.WrittenText.{HasNoText, HasText, IsWritten};

use crate::codes::{Code, write};
use asm_element::{Element, Location, Value};
use asm_journal::value_text;
use asm_update::Lookup;
use std::alloc::Global;

pub(crate) const UNDEF: i32 = 0;

pub(crate) const BOOL: i32 = 1;

pub(crate) const NUM: i32 = 2;

pub(crate) const TEXT: i32 = 3;

pub(crate) const LIST: i32 = 4;

pub(crate) const SET: i32 = 5;

pub(crate) const BAG: i32 = 6;

/// A value without its bytes: its kind, and its number if it has one.
#[repr(C)]
#[derive(Drop)]
pub struct ValueHead {
    /// The kind of the value.
    pub kind: i32,
    /// The number, 1 for true, and 0 for any other value.
    pub number: i64,
}

impl ValueHead {
    pub fn none() -> ValueHead
        ensures kind { result.kind ≡ pos 0 }
        ensures number { result.number ≡ pos 0 }
    {
        ValueHead { kind: 0, number: 0 }
    }

    pub(crate) fn of_element(element: &Element) -> ValueHead
        ensures kind { result.kind ≡ kind_of (values.Plain element.now) }
        ensures number { result.number ≡ number_of (values.Plain element.now) }
    {
        let (kind, number) = match element {
            Element::Undef => (UNDEF, 0),
            Element::Bool(truth) => (BOOL, *truth as i64),
            Element::Num(number) => (NUM, *number),
            Element::Text(_) => (TEXT, 0),
            Element::List(_) => (LIST, 0),
        };
        ValueHead { kind, number }
    }

    pub(crate) fn of(value: &Value) -> ValueHead
        ensures kind { result.kind ≡ kind_of value.now }
        ensures number { result.number ≡ number_of value.now }
    {
        match value {
            Value::Plain(element) => ValueHead::of_element(element),
            Value::Set(_) => ValueHead {
                kind: SET,
                number: 0,
            },
            Value::Bag(_) => ValueHead {
                kind: BAG,
                number: 0,
            },
        }
    }
}

// Return the bytes of an element, except a list.
fn bytes_of_element(element: &Element) -> Option<&[u8]>
    ensures some { IfSome result (λ bytes. bytes.now ≡ bytes_of (values.Plain element.now)) }
    ensures none { IfNone result (bytes_of (values.Plain element.now)
        ≡ compact_text (value_json_of (values.Plain element.now))) }
{
    match element {
        Element::Text(text) => Some(text.as_str().as_bytes()),
        Element::List(_) => None,
        _ => Some(&[]),
    }
}

// Return the bytes of the value if it holds them; else its JSON has to be written.
pub(crate) fn bytes_in(value: &Value) -> Option<&[u8]>
    ensures some { IfSome result (λ bytes. bytes.now ≡ bytes_of value.now) }
    ensures none { IfNone result (bytes_of value.now ≡ compact_text (value_json_of value.now)) }
{
    match value {
        Value::Plain(element) => bytes_of_element(element),
        Value::Set(_) | Value::Bag(_) => None,
    }
}

// Write the bytes of the value.
fn write_bytes(
    alloc: Global,
    value: &Value,
    out: &mut [u8],
    written: &mut usize,
) -> Result<(), Code>
    requires { written.old ≡ 0 }
    ensures { IsWritten (λ bytes. bytes ≡ bytes_of value.now) IsMemory out.old out.new written.new result }
{
    if let Some(bytes) = bytes_in(value) {
        return write(bytes, out, written);
    }
    let text = value_text(alloc, value)?;
    write(text.as_bytes(), out, written)
}

/// Write the value that is seen at the location, or undef if there is none; return it without its bytes.
pub(crate) fn write_value_at<L: Lookup>(
    alloc: Global,
    seen: &L,
    at: &Location,
    out: &mut [u8],
    written: &mut usize,
) -> Result<ValueHead, Code>
    requires { written.old ≡ 0 }
    ensures ok { IfOk result (λ head. HasText (IsValueBy (L.value_at seen.now at.now) head.kind head.number) out.old out.new written.new) }
    ensures err { IfErr result (HasNoText (λ bytes. bytes ≡ bytes_of (L.value_at seen.now at.now)) IsMemory out.old out.new written.new) }
{
    let Some(value) = seen.get(at) else {
        return Ok(ValueHead::none());
    };
    write_bytes(alloc, value, out, written)?;
    Ok(ValueHead::of(value))
}
