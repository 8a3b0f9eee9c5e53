//! Terms, and instructions with terms, that are read from JSON.
ghost use Rattle.std.specs.Prelude.{◌≡◌, ◌≢◌, IfSome, IfNone};
ghost use Rattle.serde_json.specs.Data.{Data};
ghost use Rattle.serde_json.specs.View.{view, items_view};
ghost use Rattle.asm_journal.specs.Form.{IsRead};
ghost use Rattle.asm_script.specs.TermForm.{sum_json_of, IsTermForm, IsCounted, IsActionForm, IsInstructionForm};

use crate::block::{TermAction, TermInstruction};
use crate::term::Term;
use asm_element::{Location, Value};
use asm_journal::{
    FormCause, FormError, FormFault, FromJson, OfPart, instruction_parts, one_member, read_amount,
    read_one, two_items,
};
use asm_update::Amount;
use serde_json::Value as Json;
use std::alloc::Global;

/// Return the two terms of a sum.
fn terms_of(json: &Json) -> Option<(&Json, &Json)>
    ensures some { IfSome result (λ p. view json.now ≡ sum_json_of (view p.0.now) (view p.1.now)) }
    ensures none { IfNone result ((a b : Data) → view json.now ≢ sum_json_of a b) }
{
    two_items(one_member(json, "sum")?.as_array()?)
}

/// Return why JSON is no term, where it is no value for this fault, and no location's.
fn no_term(alloc: Global, json: &Json, fault: FormFault) -> FormError {
    if one_member(json, "sum").is_some() {
        return FormError::of(alloc, FormCause::Sum);
    }
    if fault.cause() == FormCause::Object && fault.path().is_empty() {
        return FormError::of(alloc, FormCause::Term);
    }
    FormError::Form(fault)
}

/// Return the term that the JSON writes, if it writes one.
///
/// It recurses as deep as the value nests, at most 127 levels in what was read from a text.
fn read_term(alloc: Global, json: &Json) -> Result<Term, FormError>
    ensures { IsRead IsTermForm (view json.now) result }
{
    let fault = match Value::from_json(alloc, json) {
        Ok(value) => return Ok(Term::Value(value)),
        Err(FormError::Memory) => return Err(FormError::Memory),
        Err(FormError::Form(fault)) => fault,
    };
    if let Some(at) = one_member(json, "val") {
        let at = Location::from_json(alloc, at).at("val")?;
        return Ok(Term::Val(at));
    }
    let Some((first, second)) = terms_of(json) else {
        return Err(no_term(alloc, json, fault));
    };
    let first = read_term(alloc, first).within(0).at("sum")?;
    let second = read_term(alloc, second).within(1).at("sum")?;
    Ok(Term::Sum(Box::new(alloc, first)?, Box::new(alloc, second)?))
}

impl FromJson for Term {
    ghost is_form = { IsTermForm };

    fn from_json(alloc: Global, json: &Json) -> Result<Term, FormError> {
        read_term(alloc, json)
    }
}

/// Return the two items, read as a term and an amount.
fn read_counted(alloc: Global, items: &[Json]) -> Result<(Term, Amount), FormError>
    ensures { IsRead (λ p. IsCounted p.0 p.1) (items_view items.now) result }
{
    let Some((term, amount)) = two_items(items) else {
        return Err(FormError::of(alloc, FormCause::BagOperands));
    };
    let term = read_term(alloc, term).within(2)?;
    match read_amount(amount) {
        Some(amount) => Ok((term, amount)),
        None => Err(FormError::of(alloc, FormCause::Amount)),
    }
}

/// Return the action that the word names, with these operands.
fn read_action(alloc: Global, word: &str, operands: &[Json]) -> Result<TermAction, FormError>
    ensures { IsRead (IsActionForm word.now) (items_view operands.now) result }
{
    match word {
        "put" => Ok(TermAction::Put(read_one(alloc, operands, FormCause::PutOperand)?)),
        "add" => Ok(TermAction::Add(read_one(alloc, operands, FormCause::SetOperand)?)),
        "remove" => Ok(TermAction::Remove(read_one(alloc, operands, FormCause::SetOperand)?)),
        "bagadd" => {
            let (term, amount) = read_counted(alloc, operands)?;
            Ok(TermAction::BagAdd(term, amount))
        }
        "bagremove" => {
            let (term, amount) = read_counted(alloc, operands)?;
            Ok(TermAction::BagRemove(term, amount))
        }
        "inc" => Ok(TermAction::Increment(read_one(alloc, operands, FormCause::IncOperand)?)),
        _ => Err(FormError::of(alloc, FormCause::Word)),
    }
}

impl FromJson for TermInstruction {
    ghost is_form = { IsInstructionForm };

    fn from_json(alloc: Global, json: &Json) -> Result<TermInstruction, FormError> {
        let Some((word, at, operands)) = instruction_parts(json) else {
            return Err(FormError::of(alloc, FormCause::Instruction));
        };
        let at = Location::from_json(alloc, at).within(1)?;
        let action = read_action(alloc, word, operands)?;
        Ok(TermInstruction { at, action })
    }
}
