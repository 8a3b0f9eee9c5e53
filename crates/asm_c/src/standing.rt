//! Whether a commit of a step would be stale.
ghost use Rattle.std.specs.Prelude.{◌≡◌};
ghost use Rattle.asm_slots.specs.Codes.{Answers};
ghost use Rattle.asm_slots.specs.Slots.{content_of};
ghost use Rattle.asm_slots.specs.Standing.{DoesNotStand, StepStands};
ghost use Rattle.asm_slots.specs.WrittenText.{WritesNothing};

use asm_slots::standing::step_stands;
use asm_slots::{Slot, answer};
use std::alloc::Global;

/// Validate what the step depends on, after polling.
/// The agent polls until no further move is found, and its own state follows, so another step must be begun to read on. A
/// commit still fires what was pushed, if the step stands. No receipt is added, and the step's slot is unchanged. The step
/// must be one of the agent's storage. These codes are answers:
/// - `ASM_DONE`: no move after the step's number has written a location that its commit would name, or one of a function
///   that it scanned.
/// - `ASM_STALE`: one has, and `{"stale":LOC}` with such a location is written. A commit would be `ASM_STALE` too.
///
/// After `ASM_DONE` a commit may still be refused, by a move that comes in between.
///
/// # Errors
/// - `ASM_SMALL`: `out` is too small for the text, and `written` is the room that is needed.
/// - `ASM_EMPTY`: the first slot has no agent, the second no step, or the two are one; nothing changes.
/// - `ASM_MEMORY`: out of memory; the agent may have seen more moves.
#[unsafe(no_mangle)]
pub extern "C" fn asm_step_stands(
    alloc: Global,
    agent: &mut Slot,
    step: &mut Slot,
    out: &mut [u8],
    written: &mut usize,
) -> i32
    ensures answers { Answers result
        (StepStands (content_of agent.old) (content_of agent.new) (content_of step.old) × WritesNothing out.old out.new written.new)
        (DoesNotStand (content_of agent.old) (content_of agent.new) (content_of step.old) out.old out.new written.new) }
    ensures kept { content_of step.new ≡ content_of step.old }
{
    answer(step_stands(alloc, agent, step, out, written))
}
