//! Sets, bags and values.
ghost use Rattle.std.specs.Prelude.{◌≡◌, ◌++◌, OnOk, map, string_bytes};
ghost use Rattle.serde_json.specs.Written.{compact_text};
ghost use Rattle.asm_element.specs.Bag as bag;
ghost use Rattle.asm_element.specs.Set as set;
ghost use Rattle.asm_journal.specs.Element.{element_json_of};
ghost use Rattle.asm_journal.specs.Set.{count_json_of};
ghost use Rattle.asm_journal.specs.Shape.{list_of};

use crate::spelling::ToText;
use crate::spelling::items::{push_key, push_next, push_pair};
use crate::spelling::scalars::{push_comma, push_sign};
use asm_element::{ElemBag, ElemSet, Value};
use std::alloc::{AllocError, Global};

// Append an array of the elements of a set.
fn push_elements(alloc: Global, text: &mut String, all: &ElemSet) -> Result<(), AllocError>
    ensures { OnOk result (string_bytes text.new ≡ string_bytes text.old
        ++ compact_text (list_of (map element_json_of (set.elements all.now)))) }
{
    push_sign(text, '[')?;
    let mut later = false;
    for element in all.iter() {
        push_next(alloc, text, later, element)?;
        later = true;
    }
    push_sign(text, ']')?;
    Ok(())
}

// Append an array of the elements of a bag, each with its count.
fn push_counts(alloc: Global, text: &mut String, all: &ElemBag) -> Result<(), AllocError>
    ensures { OnOk result (string_bytes text.new ≡ string_bytes text.old
        ++ compact_text (list_of (map count_json_of (bag.entries all.now)))) }
{
    push_sign(text, '[')?;
    let mut later = false;
    for (element, count) in all.iter() {
        push_comma(text, later)?;
        push_pair(alloc, text, element, count)?;
        later = true;
    }
    push_sign(text, ']')?;
    Ok(())
}

impl ToText for ElemSet {
    fn push_text(&self, alloc: Global, text: &mut String) -> Result<(), AllocError> {
        push_sign(text, '{')?;
        push_key(alloc, text, false, "set")?;
        push_elements(alloc, text, self)?;
        push_sign(text, '}')?;
        Ok(())
    }
}

impl ToText for ElemBag {
    fn push_text(&self, alloc: Global, text: &mut String) -> Result<(), AllocError> {
        push_sign(text, '{')?;
        push_key(alloc, text, false, "bag")?;
        push_counts(alloc, text, self)?;
        push_sign(text, '}')?;
        Ok(())
    }
}

impl ToText for Value {
    fn push_text(&self, alloc: Global, text: &mut String) -> Result<(), AllocError> {
        match self {
            Value::Plain(element) => element.push_text(alloc, text),
            Value::Set(set) => set.push_text(alloc, text),
            Value::Bag(bag) => bag.push_text(alloc, text),
        }
    }
}
