//! Whether a function has a value anywhere, and at how many locations, without listing it.
ghost use Rattle.std.specs.Prelude.{◌≡◌, ◌≢◌};
ghost use Rattle.asm_slots.specs.Codes.{ASM_DONE, Answers};
ghost use Rattle.asm_slots.specs.Counting.{FindsNothingOf, FindsOf, IsAnyBy, IsCountBy};
ghost use Rattle.asm_slots.specs.Slots.{content_of};

use asm_slots::counting::{any as any_of, count as count_all};
use asm_slots::{Slot, answer};
use std::alloc::Global;

/// Return whether a function has a value at a location, through the pushed moves.
/// `any` is 1 if `asm_step_scan` would list a location, else 0. The function is scanned as by that call, whatever the
/// answer: the step depends on all its locations. It writes no text, and asks for locations up to the first with a
/// value. The call doesn't poll and adds no receipt, and the agent's slot is unchanged. On error, the step's slot is
/// unchanged too, and `any` is 0. The step must be one of the agent's storage.
///
/// # Errors
/// - `ASM_MANY`: the function isn't scanned yet, and 256 places are taken, one by each tracked location and one by each
///   scanned function.
/// - `ASM_SHAPE`: the name isn't UTF-8.
/// - `ASM_MOVED`: the agent's own state isn't at the step's number.
/// - `ASM_EMPTY`: the first slot has no agent, the second no step, or the two are one.
/// - `ASM_MEMORY`: out of memory.
#[unsafe(no_mangle)]
pub extern "C" fn asm_any(
    alloc: Global,
    agent: &mut Slot,
    step: &mut Slot,
    name: &[u8],
    any: &mut u32,
) -> i32
    ensures answers { Answers result
        (FindsOf IsAnyBy name.now (content_of agent.old) (content_of step.old) (content_of step.new) any.new)
        (FindsNothingOf name.now (content_of agent.old) (content_of step.old)) }
    ensures none { result ≢ ASM_DONE → any.new ≡ 0 }
    ensures stays { result ≢ ASM_DONE → content_of step.new ≡ content_of step.old }
    ensures kept { content_of agent.new ≡ content_of agent.old }
{
    answer(any_of(alloc, agent, step, name, any))
}

/// Return at how many locations a function has a value, through the pushed moves.
/// `count` is how many locations `asm_step_scan` would list, at most 18,446,744,073,709,551,615. The function is scanned
/// as by that call. It writes no text and copies no location of the state. The call doesn't poll and adds no receipt, and
/// the agent's slot is unchanged. On error, the step's slot is unchanged too, and `count` is 0. The step must be one of
/// the agent's storage.
///
/// # Errors
/// The codes are those of `asm_any`.
#[unsafe(no_mangle)]
pub extern "C" fn asm_count(
    alloc: Global,
    agent: &mut Slot,
    step: &mut Slot,
    name: &[u8],
    count: &mut u64,
) -> i32
    ensures answers { Answers result
        (FindsOf IsCountBy name.now (content_of agent.old) (content_of step.old) (content_of step.new) count.new)
        (FindsNothingOf name.now (content_of agent.old) (content_of step.old)) }
    ensures none { result ≢ ASM_DONE → count.new ≡ 0 }
    ensures stays { result ≢ ASM_DONE → content_of step.new ≡ content_of step.old }
    ensures kept { content_of agent.new ≡ content_of agent.old }
{
    answer(count_all(alloc, agent, step, name, count))
}
