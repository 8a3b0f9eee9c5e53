//! Pushing one instruction onto a step, without a slot for its move.
ghost use Rattle.std.specs.Prelude.{◌≡◌};
ghost use Rattle.asm_slots.specs.Codes.{Answers};
ghost use Rattle.asm_slots.specs.PushAnswers.{DoesNotPushAt, PushesAt};
ghost use Rattle.asm_slots.specs.Slots.{content_of};

use asm_slots::pushing_at::push_at;
use asm_slots::{Slot, answer};
use std::alloc::Global;

/// Push the move of one instruction at a prepared location onto the step.
/// It does what `asm_instruct` into an empty slot and then `asm_push_move` of that slot do, with less memory and in less
/// time. Later gets and pushes see what it leaves. The slots of the agent and the location are unchanged. On error, the
/// pushed moves are unchanged; a refusal tracks what one of `asm_push` tracks.
///
/// # Errors
/// The codes are those of `asm_instruct` except `ASM_TAKEN`, and then those of `asm_push_move`.
/// - `ASM_EMPTY`: the first slot has no agent, the second no step, the third no location, or two of them are one.
#[unsafe(no_mangle)]
pub extern "C" fn asm_push_at(
    alloc: Global,
    agent: &mut Slot,
    step: &mut Slot,
    at: &mut Slot,
    verb: i32,
    kind: i32,
    number: i64,
    bytes: &[u8],
    amount: u32,
    out: &mut [u8],
    written: &mut usize,
) -> i32
    ensures answers { Answers result
        (PushesAt (content_of at.old) verb kind number bytes.now amount
        (content_of agent.old) (content_of step.old) (content_of step.new) out.old out.new written.new)
        (DoesNotPushAt (content_of at.old) verb kind number bytes.now amount
        (content_of agent.old) (content_of step.old) (content_of step.new) out.old out.new written.new) }
    ensures kept { content_of agent.new ≡ content_of agent.old }
    ensures held { content_of at.new ≡ content_of at.old }
{
    answer(push_at(
        alloc, agent, step, at, verb, kind, number, bytes, amount, out, written,
    ))
}
