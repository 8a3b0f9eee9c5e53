//! Pushing one instruction onto a step, without a slot for its move.
ghost use Rattle.std.specs.Prelude.{◌≡◌, [], IfErr, IfOk, MatchResult};
ghost use Rattle.asm_slots.specs.Answers.{IsNotGathered};
ghost use Rattle.asm_slots.specs.Kinds.{IsInstructed};
ghost use Rattle.asm_slots.specs.PushAnswers.{DoesNotPushAt, PushesAt};
ghost use Rattle.asm_slots.specs.Slots.{content_of};

use crate::codes::Code;
use crate::lend;
use crate::operands::action_of;
use crate::pushing::{PushMode, grow_with};
use crate::slot::Slot;
use asm_element::Location;
use asm_update::{Instruction, Instructions};
use std::alloc::Global;

// Return the move of the one instruction that these mean at the location.
#[tactic(auto, using(crate::proofs::Refused::no_gathered))]
fn move_at(
    alloc: Global,
    at: &Location,
    verb: i32,
    kind: i32,
    number: i64,
    bytes: &[u8],
    amount: u32,
) -> Result<Instructions, Code>
    ensures ok { IfOk result (IsInstructed at.now verb kind number bytes.now amount []) }
    ensures err { IfErr result (IsNotGathered [] verb kind number bytes.now amount) }
{
    let action = action_of(alloc, verb, kind, number, bytes, amount)?;
    let at = at.copy(alloc)?;
    Ok(Instructions::one(alloc, Instruction { at, action })?)
}

/// Do what `asm_push_at` does.
#[tactic(auto, using(crate::proofs::Refused::no_instructed))]
pub fn push_at(
    alloc: Global,
    agent: &mut Slot,
    step: &mut Slot,
    at: &mut Slot,
    verb: i32,
    kind: i32,
    number: i64,
    bytes: &[u8],
    amount: u32,
    out: &mut [u8],
    written: &mut usize,
) -> Result<(), Code>
    ensures answers { MatchResult result
        (λ done. PushesAt (content_of at.old) verb kind number bytes.now amount
        (content_of agent.old) (content_of step.old) (content_of step.new) out.old out.new written.new)
        (DoesNotPushAt (content_of at.old) verb kind number bytes.now amount
        (content_of agent.old) (content_of step.old) (content_of step.new) out.old out.new written.new) }
    ensures kept { content_of agent.new ≡ content_of agent.old }
    ensures held { content_of at.new ≡ content_of at.old }
{
    *written = 0;
    lend!(at: Location = at, Err(Code::Empty));
    let instrs = move_at(alloc, at, verb, kind, number, bytes, amount)?;
    grow_with(alloc, agent, step, PushMode::Push, &instrs, out, written)
}
