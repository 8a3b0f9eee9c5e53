//! Moves of puts at different locations, which a layer holds as they were pushed.
ghost use Rattle.std.specs.Prelude.{◌≡◌, IfOk, OnOk};
ghost use Rattle.std.specs.Bool.{OnTrue};
ghost use Rattle.std.specs.FinMap as map;
ghost use Rattle.std.specs.Option.{option_copied};
ghost use Rattle.asm_update.specs.Action.{regular_value};
ghost use Rattle.asm_update.specs.Move as moves;
ghost use Rattle.asm_step.specs.Outcomes as specs;

use crate::held::{Gathered, Held};
use crate::outcomes::{Outcome, Outcomes};
use asm_element::{Location, Value};
use asm_update::{Action, Instruction, Instructions};
use std::alloc::{AllocError, Global};

/// The most instructions that are compared with each other, which costs less than an aggregation.
const MOST_PUTS: usize = 16;

// Whether one of the instructions is at the location.
fn writes(instructions: &[Instruction], at: &Location) -> bool
    ensures { result ≡ moves.writes instructions.now at.now }
{
    instructions.iter().any(|instruction| instruction.at == *at)
}

// Whether no instruction is at the location of an earlier one.
fn are_apart(instructions: &[Instruction]) -> bool
    ensures { result ≡ specs.are_apart instructions.now }
{
    for (i, instruction) in instructions.iter().enumerate() {
        if writes(&instructions[i + 1..], &instruction.at) {
            return false;
        }
    }
    true
}

// Whether there is one instruction, which is a put.
#[tactic(auto, using(crate::proofs::HeldPuts::one_put))]
fn is_one_put(instructions: &[Instruction]) -> bool
    ensures { OnTrue result (specs.ArePuts instructions.now) }
{
    match instructions {
        [one] => one.action.family().is_none(),
        _ => false,
    }
}

/// Return whether a move has puts at different locations, and nothing else. A wide one isn't tested.
pub(crate) fn are_puts(instructions: &Instructions) -> bool
    ensures { OnTrue result (specs.ArePuts instructions.now) }
{
    let list = instructions.as_slice();
    if is_one_put(list) {
        return true;
    }
    if list.is_empty() || list.len() > MOST_PUTS {
        return false;
    }
    instructions.all_regular() && are_apart(list)
}

/// Return the value of a put.
pub(crate) fn value_put(instruction: &Instruction) -> Option<&Value>
    ensures { option_copied result ≡ regular_value instruction.now.action }
{
    match &instruction.action {
        Action::Regular(value) => Some(value),
        _ => None,
    }
}

// What the instruction comes to at the location, if it is a put there.
fn held_by<'a>(put: &'a Instruction, at: &Location) -> Option<Held<'a>>
    ensures { result ≡ specs.held_by put.now at.now }
{
    if put.at != *at {
        return None;
    }
    match value_put(put) {
        Some(value) => Some(Held::of_put(value)),
        None => None,
    }
}

/// Return what the puts come to at the location.
pub(crate) fn held_put<'a>(puts: &'a [Instruction], at: &Location) -> Option<Held<'a>>
    ensures { result ≡ map.get (specs.puts_on map.empty puts.now) at.now }
{
    for put in puts.iter().rev() {
        if let Some(held) = held_by(put, at) {
            return Some(held);
        }
    }
    None
}

// Gives the put's location what it comes to.
fn gather_put<'a>(put: &'a Instruction, all: &mut Gathered<'a>) -> Result<(), AllocError>
    ensures { OnOk result (all.new ≡ specs.put_on all.old put.now) }
{
    match value_put(put) {
        Some(value) => all.put(&put.at, Held::of_put(value)),
        None => Ok(()),
    }
}

/// Give each location of the puts what they come to there.
pub(crate) fn gather_puts<'a>(
    puts: &'a [Instruction],
    all: &mut Gathered<'a>,
) -> Result<(), AllocError>
    ensures { OnOk result (all.new ≡ specs.puts_on all.old puts.now) }
{
    for put in puts {
        gather_put(put, all)?;
    }
    Ok(())
}

// Puts in the outcome of a put.
fn lay_put(alloc: Global, each: &mut Outcomes, put: &Instruction) -> Result<(), AllocError>
    ensures { OnOk result (each.new ≡ specs.put_on each.old put.now) }
{
    match value_put(put) {
        Some(value) => {
            let mut outcome = Outcome::new(alloc, value.copy(alloc)?, false, false);
            outcome.add(Action::Regular(value.copy(alloc)?))?;
            each.put(put.at.copy(alloc)?, outcome)
        }
        None => Ok(()),
    }
}

/// Return the outcomes of the puts, laid open.
pub(crate) fn outcomes_of_puts(alloc: Global, puts: &[Instruction]) -> Result<Outcomes, AllocError>
    ensures { IfOk result (λ each. each ≡ specs.puts_on map.empty puts.now) }
{
    let mut each = Outcomes::new(alloc);
    for put in puts {
        lay_put(alloc, &mut each, put)?;
    }
    Ok(each)
}
