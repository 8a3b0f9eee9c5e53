//! First moves that need no update set: puts at different locations, and one partial update.
ghost use Rattle.std.specs.Prelude.{◌≡◌, ◌∷◌, [], true, length, IfOk, IfSome};
ghost use Rattle.std.specs.FinMap as map;
ghost use Rattle.asm_update.specs.Action.{is_partial};
ghost use Rattle.asm_step.specs.Next.{IsChangeOn};
ghost use Rattle.asm_step.specs.Outcomes.{change_alone, own_of};

use crate::error::StepError;
use crate::layer::OwnLayer;
use crate::outcomes::{Outcome, Outcomes};
use crate::own::Own;
use crate::popped::Popped;
use asm_element::Value;
use asm_update::{Aggregator, Clash, Group, Instruction, Instructions, Lookup, ResultError};
use std::alloc::{AllocError, Global};

/// Return the layer of a first move of puts at different locations.
pub(crate) fn puts_layer(alloc: Global, puts: &Instructions) -> Result<OwnLayer, AllocError>
    ensures { IfOk result (λ y. y ≡ record {
      own = own_of puts.now map.empty;
      moves = puts.now ∷ [];
      is_alone = true;
      count = length puts.now;
    }) }
{
    Ok(OwnLayer {
        own: Own::of_puts(alloc, puts.copy(alloc)?),
        moves: Popped::of(alloc, puts.copy(alloc)?),
        is_alone: true,
        count: puts.len(),
    })
}

// The instruction, if it is a partial update.
fn if_partial(one: &Instruction) -> Option<&Instruction>
    ensures same { IfSome result (λ i. i.now ≡ one.now) }
    ensures partial { IfSome result (λ i. is_partial one.now.action ≡ true) }
{
    if one.action.family().is_none() {
        return None;
    }
    Some(one)
}

/// Return the instruction of a move that is one partial update.
pub(crate) fn only_change(instructions: &Instructions) -> Option<&Instruction>
    ensures only { IfSome result (λ i. instructions.now ≡ i.now ∷ []) }
    ensures partial { IfSome result (λ i. is_partial i.now.action ≡ true) }
{
    match instructions.as_slice() {
        [one] => if_partial(one),
        _ => None,
    }
}

/// Return the value that a partial update leaves on what is seen, or its clash.
pub(crate) fn value_on<A: Aggregator, L: Lookup>(
    alloc: Global,
    aggregator: &A,
    seen: &L,
    one: &Instruction,
) -> Result<Value, StepError>
    requires { is_partial one.now.action ≡ true }
    ensures { IsChangeOn (A.meaning aggregator.now).part (L.value_at seen.now one.now.at) one.now result }
{
    let group = Group::new(None, vec![in alloc; one.action.clone()?]?);
    match aggregator.result(alloc, seen.get(&one.at), &group) {
        Ok(value) => Ok(value),
        Err(ResultError::Cause(cause)) => {
            let at = one.at.copy(alloc)?;
            Err(StepError::Clash(Clash { at, cause }))
        }
        Err(ResultError::Memory) => Err(StepError::Memory),
    }
}

/// Return the layer of a first move of one partial update, which leaves this value.
pub(crate) fn change_layer(
    alloc: Global,
    instructions: &Instructions,
    one: &Instruction,
    value: Value,
) -> Result<OwnLayer, AllocError>
    ensures { IfOk result (λ y. y ≡ record {
      own = change_alone one.now value;
      moves = instructions.now ∷ [];
      is_alone = true;
      count = 1;
    }) }
{
    let mut outcome = Outcome::new(alloc, value, true, false);
    outcome.add(one.action.clone()?)?;
    let mut own = Outcomes::new(alloc);
    own.put(one.at.copy(alloc)?, outcome)?;
    Ok(OwnLayer {
        own: Own::of_each(alloc, own),
        moves: Popped::of(alloc, instructions.copy(alloc)?),
        is_alone: true,
        count: 1,
    })
}
