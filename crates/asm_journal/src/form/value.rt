//! The JSON of values.
ghost use Rattle.std.specs.Prelude.{◌≡◌, IfOk};
ghost use Rattle.serde_json.specs.View.{view};
ghost use Rattle.asm_journal.specs.Shape.{IsParsed};
ghost use Rattle.asm_journal.specs.Value.{value_json_of, IsValueForm};

use crate::form::fault::{FormError, OfPart};
use crate::form::object::one_member;
use crate::form::{FromJson, ToJson, read_form};
use asm_element::{ElemBag, ElemSet, Element, Value};
use serde_json::Value as Json;
use std::alloc::{AllocError, Global};

impl ToJson for Value {
    ghost json_of = { value_json_of };

    fn to_json(&self, alloc: Global) -> Result<Json, AllocError> {
        match self {
            Value::Plain(element) => element.to_json(alloc),
            Value::Set(set) => set.to_json(alloc),
            Value::Bag(bag) => bag.to_json(alloc),
        }
    }
}

impl FromJson for Value {
    ghost is_form = { IsValueForm };

    fn from_json(alloc: Global, json: &Json) -> Result<Value, FormError> {
        if let Some(items) = one_member(json, "set") {
            let set = ElemSet::from_json(alloc, items).at("set")?;
            return Ok(Value::Set(set));
        }
        if let Some(items) = one_member(json, "bag") {
            let bag = ElemBag::from_json(alloc, items).at("bag")?;
            return Ok(Value::Bag(bag));
        }
        Ok(Value::Plain(Element::from_json(alloc, json)?))
    }
}

/// Write a value as JSON: an element, or an object with a set or a bag.
///
/// The member `set` or `bag` has the elements in ascending order.
///
/// # Errors
///
/// - `AllocError` only if memory is refused.
pub fn value_json(alloc: Global, value: &Value) -> Result<Json, AllocError>
    ensures { IfOk result (λ json. view json ≡ value_json_of value.now) }
{
    value.to_json(alloc)
}

/// Read a value from JSON.
///
/// The elements of sets and bags may come in any order. `None` means that the JSON has another shape, that an element
/// is in a set or a bag twice, that a number is outside the range of i64, or that a count isn't 1 to 4,294,967,295.
///
/// # Errors
///
/// - `AllocError` only if memory is refused.
pub fn read_value(alloc: Global, json: &Json) -> Result<Option<Value>, AllocError>
    ensures { IfOk result (IsParsed IsValueForm (view json.now)) }
{
    read_form(alloc, json)
}
