//! Instructions: the word of an action, a location, and the action's operands.
ghost use Rattle.std.specs.Prelude.{◌≡◌, ◌++◌, ◌∷◌, [], OnOk, string_bytes};
ghost use Rattle.serde_json.specs.View.{items_of};
ghost use Rattle.serde_json.specs.Written.{compact_text};
ghost use Rattle.asm_journal.specs.Element.{element_json_of, location_json_of};
ghost use Rattle.asm_journal.specs.Instruction.{instruction_of};
ghost use Rattle.asm_journal.specs.Shape.{number_json_of};

use crate::spelling::ToText;
use crate::spelling::items::{push_list, push_next};
use crate::spelling::scalars::{push_quoted, push_sign};
use asm_element::{Element, Location};
use asm_update::{Action, Amount, Instruction, Instructions};
use std::alloc::{AllocError, Global};

// Append an instruction with one operand.
fn push_with<T: ToText>(
    alloc: Global,
    text: &mut String,
    word: &str,
    at: &Location,
    operand: &T,
) -> Result<(), AllocError>
    ensures { OnOk result (string_bytes text.new ≡ string_bytes text.old ++ compact_text (instruction_of
        word.now (location_json_of at.now) (items_of (T.json_of operand.now ∷ [])))) }
{
    push_sign(text, '[')?;
    push_quoted(alloc, text, word)?;
    push_next(alloc, text, true, at)?;
    push_next(alloc, text, true, operand)?;
    push_sign(text, ']')?;
    Ok(())
}

// Append an instruction with an element and an amount of it.
fn push_counted(
    alloc: Global,
    text: &mut String,
    word: &str,
    at: &Location,
    element: &Element,
    amount: &Amount,
) -> Result<(), AllocError>
    ensures { OnOk result (string_bytes text.new ≡ string_bytes text.old ++ compact_text (instruction_of
        word.now (location_json_of at.now)
        (items_of (element_json_of element.now ∷ number_json_of amount.now ∷ [])))) }
{
    push_sign(text, '[')?;
    push_quoted(alloc, text, word)?;
    push_next(alloc, text, true, at)?;
    push_next(alloc, text, true, element)?;
    push_next(alloc, text, true, &amount.get())?;
    push_sign(text, ']')?;
    Ok(())
}

impl ToText for Instruction {
    fn push_text(&self, alloc: Global, text: &mut String) -> Result<(), AllocError> {
        let at = &self.at;
        match &self.action {
            Action::Regular(value) => push_with(alloc, text, "put", at, value),
            Action::SetAdd(element) => push_with(alloc, text, "add", at, element),
            Action::SetRemove(element) => push_with(alloc, text, "remove", at, element),
            Action::BagAdd(element, amount) => {
                push_counted(alloc, text, "bagadd", at, element, amount)
            }
            Action::BagRemove(element, amount) => {
                push_counted(alloc, text, "bagremove", at, element, amount)
            }
            Action::Increment(number) => push_with(alloc, text, "inc", at, number),
        }
    }
}

impl ToText for Instructions {
    fn push_text(&self, alloc: Global, text: &mut String) -> Result<(), AllocError> {
        push_list(alloc, text, self.as_slice())
    }
}
