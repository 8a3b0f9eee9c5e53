//! Instructions whose terms are written out, so that they are the same in each state.
ghost use Rattle.std.specs.Prelude.{◌≡◌, true, IfOk, map};
ghost use Rattle.std.specs.List.{list_all};
ghost use Rattle.asm_script.specs.Terms.{given_element};
ghost use Rattle.asm_script.specs.Ready as ready;

use crate::block::{TermAction, TermInstruction};
use crate::term::Term;
use asm_element::{Element, Value};
use asm_update::{Action, Instruction};
use std::alloc::{AllocError, Global};

/// Return whether the instruction is the same in each state.
///
/// Its term is then literal, and an element if the action takes one.
fn is_ready(instruction: &TermInstruction) -> bool
    ensures { result ≡ ready.is_ready instruction.now }
{
    match &instruction.action {
        TermAction::Put(term) => matches!(term, Term::Value(_)),
        TermAction::Add(term)
        | TermAction::Remove(term)
        | TermAction::BagAdd(term, _)
        | TermAction::BagRemove(term, _) => matches!(term, Term::Value(Value::Plain(_))),
        TermAction::Increment(_) => true,
    }
}

/// Return whether each of the instructions is ready.
pub(crate) fn are_ready(instructions: &[TermInstruction]) -> bool
    ensures { result ≡ list_all ready.is_ready instructions.now }
{
    instructions.iter().all(|instruction| is_ready(instruction))
}

/// Return the value that is written out, if the term is one.
fn written_value(term: Term) -> Option<Value>
    ensures { result ≡ ready.written_value term }
{
    match term {
        Term::Value(value) => Some(value),
        Term::Val(_at) => None,
        Term::Sum(_first, _second) => None,
    }
}

/// Return the element that is written out, if the term is one.
fn written_element(term: Term) -> Option<Element>
    ensures { result ≡ given_element (ready.written_value term) }
{
    match written_value(term)? {
        Value::Plain(element) => Some(element),
        Value::Set(_set) => None,
        Value::Bag(_bag) => None,
    }
}

/// Return the action that it is in each state, if it is ready.
fn ready_action(action: TermAction) -> Option<Action>
    ensures { result ≡ ready.ready_action action }
{
    Some(match action {
        TermAction::Put(term) => Action::Regular(written_value(term)?),
        TermAction::Add(term) => Action::SetAdd(written_element(term)?),
        TermAction::Remove(term) => Action::SetRemove(written_element(term)?),
        TermAction::BagAdd(term, amount) => Action::BagAdd(written_element(term)?, amount),
        TermAction::BagRemove(term, amount) => Action::BagRemove(written_element(term)?, amount),
        TermAction::Increment(n) => Action::Increment(n),
    })
}

/// Return the instruction that it is in each state, if it is ready.
fn ready_instruction(instruction: TermInstruction) -> Option<Instruction>
    ensures { result ≡ ready.ready_instruction instruction }
{
    let TermInstruction { at, action } = instruction;
    let action = ready_action(action)?;
    Some(Instruction { at, action })
}

/// These instructions without terms, the same in each state.
///
/// # Errors
///
/// - `AllocError` only if memory is refused.
pub(crate) fn ready_instructions(
    alloc: Global,
    instructions: Vec<TermInstruction>,
) -> Result<Vec<Instruction>, AllocError>
    requires { list_all ready.is_ready instructions.items ≡ true }
    ensures { IfOk result (λ made. map ready.written made.items ≡ instructions.items) }
{
    let mut made = Vec::with_capacity(alloc, instructions.len())?;
    for instruction in instructions {
        let Some(instruction) = ready_instruction(instruction) else {
            unreachable!()
        };
        made.push(instruction)?;
    }
    Ok(made)
}
