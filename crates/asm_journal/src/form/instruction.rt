//! The JSON of instructions: the word of an action, a location, and the action's operands.
ghost use Rattle.std.specs.Prelude.{◌≡◌, ◌≢◌, ◌∷◌, [], List, ℕ, map, IfOk, IfSome, IfNone};
ghost use Rattle.serde_json.specs.Data.{Data, Items, string, number, unsigned};
ghost use Rattle.serde_json.specs.View.{view, items_view};
ghost use Rattle.asm_journal.specs.Form.{IsRead};
ghost use Rattle.asm_journal.specs.Shape.{IsParsed};
ghost use Rattle.asm_journal.specs.Element.{location_json_of};
ghost use Rattle.asm_journal.specs.Instruction.{IsActionForm, instruction_of, instruction_json_of, IsInstructionForm};

use crate::form::array::{array_of, read_one};
use crate::form::fault::{FormCause, FormError, OfPart};
use crate::form::set::{Counted, read_counted};
use crate::form::{FromJson, ToJson, read_form};
use asm_element::{Element, Location, Value};
use asm_update::{Action, Amount, Instruction};
use serde_json::Value as Json;
use std::alloc::{AllocError, Global};

/// Return the items of an instruction with one operand.
fn instruction_with(
    alloc: Global,
    word: &str,
    at: &Location,
    operand: Json,
) -> Result<Vec<Json>, AllocError>
    ensures { IfOk result (λ list. map view list.items
        ≡ string word.now ∷ location_json_of at.now ∷ view operand ∷ []) }
{
    let word = Json::try_from_str(alloc, word)?;
    let at = at.to_json(alloc)?;
    Ok(vec![in alloc; word, at, operand]?)
}

/// Return the items of an instruction with an operand and its amount.
fn counted_with(
    alloc: Global,
    word: &str,
    at: &Location,
    operand: Json,
    amount: &Amount,
) -> Result<Vec<Json>, AllocError>
    ensures { IfOk result (λ list. map view list.items ≡ string word.now ∷ location_json_of at.now
        ∷ view operand ∷ number (unsigned amount.now) ∷ []) }
{
    let mut list = instruction_with(alloc, word, at, operand)?;
    list.push(Json::from(amount.get()))?;
    Ok(list)
}

impl ToJson for Instruction {
    ghost json_of = { instruction_json_of };

    fn to_json(&self, alloc: Global) -> Result<Json, AllocError> {
        let at = &self.at;
        let list = match &self.action {
            Action::Regular(value) => instruction_with(alloc, "put", at, value.to_json(alloc)?)?,
            Action::SetAdd(element) => instruction_with(alloc, "add", at, element.to_json(alloc)?)?,
            Action::SetRemove(element) => {
                instruction_with(alloc, "remove", at, element.to_json(alloc)?)?
            }
            Action::BagAdd(element, amount) => {
                counted_with(alloc, "bagadd", at, element.to_json(alloc)?, amount)?
            }
            Action::BagRemove(element, amount) => {
                counted_with(alloc, "bagremove", at, element.to_json(alloc)?, amount)?
            }
            Action::Increment(number) => {
                instruction_with(alloc, "inc", at, number.to_json(alloc)?)?
            }
        };
        Ok(array_of(list))
    }
}

/// Return the word, the location's JSON and the operands of an instruction's array.
///
/// `None` means that the value isn't an array of at least two items that begins with a text.
pub fn instruction_parts(json: &Json) -> Option<(&str, &Json, &[Json])>
    ensures some { IfSome result
        (λ p. view json.now ≡ instruction_of p.0.now (view p.1.now) (items_view p.2.now)) }
    ensures none { IfNone result ((word : List ℕ) (at : Data) (operands : Items)
        → view json.now ≢ instruction_of word at operands) }
{
    let (word, rest) = json.as_array()?.split_first()?;
    let (at, operands) = rest.split_first()?;
    Some((word.as_str()?, at, operands))
}

/// Read the action that the word names from its operands.
fn read_action(alloc: Global, word: &str, operands: &[Json]) -> Result<Action, FormError>
    ensures { IsRead (IsActionForm word.now) (items_view operands.now) result }
{
    match word {
        "put" => Ok(Action::Regular(read_one(alloc, operands, FormCause::PutOperand)?)),
        "add" => Ok(Action::SetAdd(read_one(alloc, operands, FormCause::SetOperand)?)),
        "remove" => Ok(Action::SetRemove(read_one(alloc, operands, FormCause::SetOperand)?)),
        "bagadd" => {
            let Counted(element, amount) = read_counted(
                alloc,
                operands,
                2,
                FormCause::BagOperands,
            )?;
            Ok(Action::BagAdd(element, amount))
        }
        "bagremove" => {
            let Counted(element, amount) = read_counted(
                alloc,
                operands,
                2,
                FormCause::BagOperands,
            )?;
            Ok(Action::BagRemove(element, amount))
        }
        "inc" => Ok(Action::Increment(read_one(alloc, operands, FormCause::IncOperand)?)),
        _ => Err(FormError::of(alloc, FormCause::Word)),
    }
}

impl FromJson for Instruction {
    ghost is_form = { IsInstructionForm };

    fn from_json(alloc: Global, json: &Json) -> Result<Instruction, FormError> {
        let Some((word, at, operands)) = instruction_parts(json) else {
            return Err(FormError::of(alloc, FormCause::Instruction));
        };
        let at = Location::from_json(alloc, at).within(1)?;
        let action = read_action(alloc, word, operands)?;
        Ok(Instruction { at, action })
    }
}

/// Write an instruction as JSON: the action's word, the location and the operands.
///
/// They are an array. The operands are a value, an element, an element and its amount, or the number that is added.
///
/// # Errors
///
/// - `AllocError` only if memory is refused.
pub fn instruction_json(alloc: Global, instruction: &Instruction) -> Result<Json, AllocError>
    ensures { IfOk result (λ json. view json ≡ instruction_json_of instruction.now) }
{
    instruction.to_json(alloc)
}

/// Read an instruction from JSON.
///
/// `None` where the value has another shape, where the word is none of the six, or where the location or an operand
/// isn't one that is read.
///
/// # Errors
///
/// - `AllocError` only if memory is refused.
pub fn read_instruction(alloc: Global, json: &Json) -> Result<Option<Instruction>, AllocError>
    ensures { IfOk result (IsParsed IsInstructionForm (view json.now)) }
{
    read_form(alloc, json)
}
