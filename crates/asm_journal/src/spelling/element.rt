//! Elements and locations.
ghost use Rattle.std.specs.Prelude.{◌≡◌, ◌++◌, OnOk, string_bytes};
ghost use Rattle.serde_json.specs.Written.{compact_text};
ghost use Rattle.asm_journal.specs.Element.{element_json_of};

use crate::spelling::ToText;
use crate::spelling::items::{push_close, push_items, push_open};
use crate::spelling::scalars::{push_comma, push_quoted, push_sign};
use asm_element::{Element, Location};
use std::alloc::{AllocError, Global};

/// Append an element.
///
/// It recurses as deep as lists nest, at most 8 levels.
fn push_element(alloc: Global, text: &mut String, element: &Element) -> Result<(), AllocError>
    ensures { OnOk result (string_bytes text.new ≡ string_bytes text.old ++ compact_text (element_json_of element.now)) }
{
    match element {
        Element::Undef => text.push_str("null"),
        Element::Bool(true) => text.push_str("true"),
        Element::Bool(false) => text.push_str("false"),
        Element::Num(number) => number.push_text(alloc, text),
        Element::Text(body) => push_quoted(alloc, text, body.as_str()),
        Element::List(list) => {
            push_open(alloc, text, "list")?;
            let mut later = false;
            for item in list.items() {
                push_comma(text, later)?;
                push_element(alloc, text, item)?;
                later = true;
            }
            push_close(text)?;
            Ok(())
        }
    }
}

impl ToText for Element {
    fn push_text(&self, alloc: Global, text: &mut String) -> Result<(), AllocError> {
        push_element(alloc, text, self)
    }
}

impl ToText for Location {
    fn push_text(&self, alloc: Global, text: &mut String) -> Result<(), AllocError> {
        let name = self.name();
        let behind = self.args();
        push_sign(text, '[')?;
        push_quoted(alloc, text, name)?;
        push_items(alloc, text, true, behind)?;
        Ok(())
    }
}
