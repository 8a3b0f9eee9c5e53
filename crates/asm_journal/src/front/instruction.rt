//! Instructions.
ghost use Rattle.std.specs.Prelude.{◌∷◌, true, IfSome};
ghost use Rattle.asm_journal.specs.Set.{IsCounted};
ghost use Rattle.asm_journal.specs.Instruction.{IsActionForm, IsInstructionForm};
ghost use Rattle.asm_journal.specs.readback.{instruction_form_clean};
ghost use Rattle.asm_journal.specs.Shape.{BeginsItems};

use crate::front::FromFront;
use crate::front::items::only_item;
use crate::front::scalars::{behind, number, quoted_text};
use asm_element::{Element, Location, Value};
use asm_update::{Action, Amount, Instruction};
use std::alloc::Global;

/// Return an element and an amount of it, the last items of an array, and the rest.
///
/// They are after a comma; the rest is after the closing bracket.
pub(crate) fn counted(alloc: Global, text: &[u8]) -> Option<(Element, Amount, &[u8])>
    ensures { IfSome result (λ p. BeginsItems true IsCounted (44 ∷ text.now) (p.0, p.1) p.2.now) }
{
    let (element, left) = Element::from_front(alloc, text)?;
    let second = behind(left, b",")?;
    let (count, end) = number(second)?;
    let rest = behind(end, b"]")?;
    let amount = Amount::new(count)?;
    Some((element, amount, rest))
}

/// Return the action that the word names, from its operands, and the rest.
///
/// The rest is after the closing bracket.
fn front_action<'t>(alloc: Global, word: &str, text: &'t [u8]) -> Option<(Action, &'t [u8])>
    ensures { IfSome result (λ p. BeginsItems true (IsActionForm word.now) (44 ∷ text.now) p.0 p.1.now) }
{
    match word {
        "put" => {
            let (value, rest) = only_item::<Value>(alloc, text)?;
            Some((Action::Regular(value), rest))
        }
        "add" => {
            let (element, rest) = only_item::<Element>(alloc, text)?;
            Some((Action::SetAdd(element), rest))
        }
        "remove" => {
            let (element, rest) = only_item::<Element>(alloc, text)?;
            Some((Action::SetRemove(element), rest))
        }
        "bagadd" => {
            let (element, amount, rest) = counted(alloc, text)?;
            Some((Action::BagAdd(element, amount), rest))
        }
        "bagremove" => {
            let (element, amount, rest) = counted(alloc, text)?;
            Some((Action::BagRemove(element, amount), rest))
        }
        "inc" => {
            let (step, rest) = only_item::<i64>(alloc, text)?;
            Some((Action::Increment(step), rest))
        }
        _ => None,
    }
}

impl FromFront for Instruction {
    ghost nests = { 20 };

    ghost clean = { instruction_form_clean };

    fn from_front(alloc: Global, text: &[u8]) -> Option<(Instruction, &[u8])> {
        let inside = behind(text, b"[")?;
        let (word, left) = quoted_text(inside)?;
        let place = behind(left, b",")?;
        let (at, end) = Location::from_front(alloc, place)?;
        let operands = behind(end, b",")?;
        let (action, rest) = front_action(alloc, word, operands)?;
        Some((Instruction { at, action }, rest))
    }
}
