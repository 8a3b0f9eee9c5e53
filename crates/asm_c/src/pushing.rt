//! Pushing moves onto a step, and extending the one that was pushed last.
ghost use Rattle.std.specs.Prelude.{◌≡◌};
ghost use Rattle.asm_slots.specs.Codes.{Answers};
ghost use Rattle.asm_slots.specs.Slots.{content_of};
ghost use Rattle.asm_slots.specs.StepAnswers.{DoesNotGrow, DoesNotGrowBy, Grows, GrowsBy};
ghost use Rattle.asm_slots.specs.declared.pushing.PushMode.TheVariants as ways;

use asm_slots::pushing::{grow_from, grow_of};
use asm_slots::{PushMode, Slot, answer};
use std::alloc::Global;

/// Push the move `[INSTR, ..]` onto the step.
/// Later gets and pushes see what it leaves. A push that is refused, or is popped, is a dry run, on which the step
/// depends. The call doesn't poll and adds no receipt, and the agent's slot is unchanged. The step must be one of the
/// agent's storage. On error, the pushed moves are unchanged.
///
/// A refusal (`ASM_CLASH`, `ASM_LARGE`, `ASM_LONG_MOVE`, or `ASM_SMALL` for its text) depends on the state below the
/// step. So it tracks its location, and the smaller ones at which the move has partial updates, which fit; with
/// `ASM_LONG_MOVE` all at which the move has partial updates. Each is tracked only if a get of it would track it. After
/// any other error the step is unchanged.
///
/// The call costs by the move's own instructions, not by those pushed before. It costs also by the size of a set or a
/// bag that they change and the earlier updates of it.
///
/// # Errors
/// - `ASM_CLASH`: the updates of the move clash on what is seen, and `{"clash":[LOC,CAUSE]}` is written.
/// - `ASM_DEEP`: 64 moves are pushed already.
/// - `ASM_LONG_MOVE`: the one move of all pushed moves would have more than 4,096 instructions.
/// - `ASM_MANY`: the move is refused, and tracking it would take more than 256 places. Nothing is tracked or written.
/// - `ASM_LARGE`, with the text `{"large":LOC}`: never for a step of the agent's storage.
/// - `ASM_MOVED`: the agent's own state isn't at the step's number.
/// - `ASM_SMALL`: `out` is too small for the text of a refusal, and `written` is the room that is needed.
/// - `ASM_EMPTY`: the first slot has no agent, the second no step, or the two are one.
/// - `ASM_NOT_JSON`: `instrs` isn't JSON.
/// - `ASM_SHAPE`: `instrs` is JSON of another shape, or beyond a limit.
/// - `ASM_MEMORY`: out of memory.
#[unsafe(no_mangle)]
pub extern "C" fn asm_push(
    alloc: Global,
    agent: &mut Slot,
    step: &mut Slot,
    instrs: &[u8],
    out: &mut [u8],
    written: &mut usize,
) -> i32
    ensures answers { Answers result
        (Grows ways.Push instrs.now (content_of agent.old) (content_of step.old) (content_of step.new) out.old out.new written.new)
        (DoesNotGrow ways.Push instrs.now (content_of agent.old) (content_of step.old) (content_of step.new)
        out.old out.new written.new) }
    ensures kept { content_of agent.new ≡ content_of agent.old }
{
    answer(grow_of(alloc, agent, step, PushMode::Push, instrs, out, written))
}

/// Extend the move that was pushed last by the move `[INSTR, ..]`.
/// Later gets and pushes see what it leaves, and a pop takes both away. Without a pushed move it is pushed. A loop of a
/// thousand rounds is one move deep, and each round costs by what it does itself. All else is as of `asm_push`.
///
/// A round of one partial update changes a set or a bag in place: it costs by the logarithm of the size, after the
/// first two in a pushed move, which copy the value. Any other round costs also by the size of a set or a bag that it
/// changes and the earlier updates of it. A copy of a set or a bag of more than 32 elements reads none of them.
///
/// # Errors
/// The codes are those of `asm_push` except `ASM_DEEP`: the step is no deeper, however often it is extended.
#[unsafe(no_mangle)]
pub extern "C" fn asm_extend(
    alloc: Global,
    agent: &mut Slot,
    step: &mut Slot,
    instrs: &[u8],
    out: &mut [u8],
    written: &mut usize,
) -> i32
    ensures answers { Answers result
        (Grows ways.Extend instrs.now (content_of agent.old) (content_of step.old) (content_of step.new) out.old out.new written.new)
        (DoesNotGrow ways.Extend instrs.now (content_of agent.old) (content_of step.old) (content_of step.new)
        out.old out.new written.new) }
    ensures kept { content_of agent.new ≡ content_of agent.old }
{
    answer(grow_of(alloc, agent, step, PushMode::Extend, instrs, out, written))
}

/// Push the move in a slot, as `asm_push` does.
/// Later gets and pushes see what it leaves. The slots of the agent and the move are unchanged.
///
/// # Errors
/// The codes are those of `asm_push` except `ASM_NOT_JSON` and `ASM_SHAPE`.
/// - `ASM_EMPTY`: the first slot has no agent, the second no step, the third no move, or two of them are one. An empty
///   slot has no move, not one of no instructions.
#[unsafe(no_mangle)]
pub extern "C" fn asm_push_move(
    alloc: Global,
    agent: &mut Slot,
    step: &mut Slot,
    instrs: &mut Slot,
    out: &mut [u8],
    written: &mut usize,
) -> i32
    ensures answers { Answers result
        (GrowsBy ways.Push (content_of instrs.old) (content_of agent.old) (content_of step.old) (content_of step.new)
        out.old out.new written.new)
        (DoesNotGrowBy ways.Push (content_of instrs.old) (content_of agent.old) (content_of step.old) (content_of step.new)
        out.old out.new written.new) }
    ensures kept { content_of agent.new ≡ content_of agent.old }
    ensures held { content_of instrs.new ≡ content_of instrs.old }
{
    answer(grow_from(alloc, agent, step, PushMode::Push, instrs, out, written))
}

/// Extend the move that was pushed last by the one in a slot, as `asm_extend` does.
/// Later gets and pushes see what it leaves, and a pop takes both away. Without a pushed move it is pushed. The slots
/// of the agent and the move are unchanged.
///
/// # Errors
/// The codes are those of `asm_push_move` except `ASM_DEEP`: the step is no deeper, however often it is extended.
#[unsafe(no_mangle)]
pub extern "C" fn asm_extend_move(
    alloc: Global,
    agent: &mut Slot,
    step: &mut Slot,
    instrs: &mut Slot,
    out: &mut [u8],
    written: &mut usize,
) -> i32
    ensures answers { Answers result
        (GrowsBy ways.Extend (content_of instrs.old) (content_of agent.old) (content_of step.old) (content_of step.new)
        out.old out.new written.new)
        (DoesNotGrowBy ways.Extend (content_of instrs.old) (content_of agent.old) (content_of step.old) (content_of step.new)
        out.old out.new written.new) }
    ensures kept { content_of agent.new ≡ content_of agent.old }
    ensures held { content_of instrs.new ≡ content_of instrs.old }
{
    answer(grow_from(alloc, agent, step, PushMode::Extend, instrs, out, written))
}
