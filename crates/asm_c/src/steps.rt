//! Beginning a step, what is seen through its pushed moves, and popping the last of them.
ghost use Rattle.std.specs.Prelude.{◌≡◌, ◌≢◌, ◌⊎◌, length};
ghost use Rattle.asm_slots.specs.Answers.{IsNoName};
ghost use Rattle.asm_slots.specs.Codes.{ASM_DONE, Answers};
ghost use Rattle.asm_slots.specs.OwnState.{Begins, DoesNotBegin};
ghost use Rattle.asm_slots.specs.Popping.{HasPoppedLast, IsNotPoppedIn, IsNotPoppedInto};
ghost use Rattle.asm_slots.specs.Slots.{Changes, HasRoomFor, Holds, IfHolds, Lacks, a_move, a_step, content_of};
ghost use Rattle.asm_slots.specs.StepAnswers.{ShowsBoth, ShowsNoText};
ghost use Rattle.asm_slots.specs.StepCalls.{HasTrackedBy, IsFoundBy, IsNotGot, IsNotScanned, IsNotSeen, IsSeenBy};
ghost use Rattle.asm_slots.specs.Standard.{standard};
ghost use Rattle.asm_transaction.specs.Popping.{HasPoppedMove};
ghost use Rattle.asm_transaction.specs.Scanning.{HasScanned};

use asm_slots::getting_all::step_scan;
use asm_slots::popping::{pop, pop_move};
use asm_slots::steps::{begin, get, see};
use asm_slots::{Slot, answer, lend};
use std::alloc::Global;

/// Begin a step of the agent in a slot that is empty or holds a step.
/// A step that the slot held is dropped. The agent polls until no further move is found, and its own state follows.
/// `number` is then how many moves it has seen. Until the agent's next call that polls, reads or fires, gets and pushes
/// see the state at this number. On error, the step's slot is unchanged, and `number` is 0.
///
/// # Errors
/// - `ASM_TAKEN`: the second slot holds something else.
/// - `ASM_EMPTY`: the first slot has no agent.
/// - `ASM_MEMORY`: out of memory; the agent may have seen more moves.
#[unsafe(no_mangle)]
pub extern "C" fn asm_begin(
    alloc: Global,
    agent: &mut Slot,
    step: &mut Slot,
    number: &mut u32,
) -> i32
    ensures answers { Answers result
        (Begins number.new (content_of agent.old) (content_of agent.new) (content_of step.old) (content_of step.new))
        (DoesNotBegin (content_of agent.old) (content_of agent.new) (content_of step.old)) }
    ensures stays { result ≢ ASM_DONE → content_of step.new ≡ content_of step.old }
    ensures none { result ≢ ASM_DONE → number.new ≡ 0 }
{
    answer(begin(alloc, agent, step, number))
}

/// Return how many moves are pushed, at most 64; 0 for a slot without a step.
#[unsafe(no_mangle)]
pub extern "C" fn asm_depth(alloc: Global, step: &mut Slot) -> u32
    ensures kept { content_of step.new ≡ content_of step.old }
    ensures value { IfHolds a_step (content_of step.old) (λ s. result ≡ length s.layers) }
    ensures none { Lacks a_step (content_of step.old) → result ≡ 0 }
{
    lend!(taken: Step = step, 0);
    taken.depth()
}

/// Write what is seen through the pushed moves at the locations `[LOC, ..]`.
/// There may be any number of them. The text is `{"number":N,"values":[VALUE, ..]}`, with the step's number. Each
/// location is tracked whose value depends on the state below the step, and the commit names it. A value that pushed
/// moves put there is the step's own, and depends on nothing.
///
/// The call doesn't poll and adds no receipt, and the agent's slot is unchanged. On error, the step's slot is unchanged
/// too. The step must be one of the agent's storage.
///
/// # Errors
/// - `ASM_MOVED`: the agent's own state isn't at the step's number, which another agent may not have reached.
/// - `ASM_MANY`: more than 256 places would be taken, one by each tracked location and one by each scanned function.
/// - `ASM_SMALL`: `out` is too small, and `written` is the room that is needed.
/// - `ASM_EMPTY`: the first slot has no agent, the second no step, or the two are one.
/// - `ASM_NOT_JSON`: `locations` isn't JSON.
/// - `ASM_SHAPE`: `locations` is JSON of another shape, or beyond a limit.
/// - `ASM_MEMORY`: out of memory.
#[unsafe(no_mangle)]
pub extern "C" fn asm_get(
    alloc: Global,
    agent: &mut Slot,
    step: &mut Slot,
    locations: &[u8],
    out: &mut [u8],
    written: &mut usize,
) -> i32
    ensures answers { Answers result
        (ShowsBoth (IsSeenBy locations.now) (content_of agent.old) (content_of step.old) out.old out.new written.new
        × Changes a_step (content_of step.old) (content_of step.new) (HasTrackedBy locations.now))
        (ShowsNoText (IsSeenBy locations.now) (IsNotGot locations.now) (content_of agent.old) (content_of step.old)
        out.old out.new written.new) }
    ensures stays { result ≢ ASM_DONE → content_of step.new ≡ content_of step.old }
    ensures kept { content_of agent.new ≡ content_of agent.old }
{
    answer(get(alloc, agent, step, locations, out, written))
}

/// Write what `asm_get` writes, and track nothing.
/// The step doesn't depend on it: a commit fires though another agent has written there since. It is for what is only
/// shown, and for what is tracked anyway. Both slots are unchanged.
///
/// # Errors
/// The codes are those of `asm_get` except `ASM_MANY`.
#[unsafe(no_mangle)]
pub extern "C" fn asm_see(
    alloc: Global,
    agent: &mut Slot,
    step: &mut Slot,
    locations: &[u8],
    out: &mut [u8],
    written: &mut usize,
) -> i32
    ensures answers { Answers result
        (ShowsBoth (IsSeenBy locations.now) (content_of agent.old) (content_of step.old) out.old out.new written.new)
        (ShowsNoText (IsSeenBy locations.now) (IsNotSeen locations.now) (content_of agent.old) (content_of step.old)
        out.old out.new written.new) }
    ensures kept { content_of agent.new ≡ content_of agent.old }
    ensures held { content_of step.new ≡ content_of step.old }
{
    answer(see(alloc, agent, step, locations, out, written))
}

/// Take away the move that was pushed last, with those that extended it.
/// It tracks each location at which these have partial updates that were judged on the state below the step: that they
/// were accepted shows that these fit. What was tracked and scanned stays so. On error, the slot is unchanged.
///
/// # Errors
/// - `ASM_NO_PUSH`: no move is pushed.
/// - `ASM_MANY`: more than 256 places would be taken.
/// - `ASM_EMPTY`: the slot has no step.
/// - `ASM_MEMORY`: out of memory.
#[unsafe(no_mangle)]
pub extern "C" fn asm_pop(alloc: Global, step: &mut Slot) -> i32
    ensures answers { Answers result
        (Changes a_step (content_of step.old) (content_of step.new) HasPoppedLast)
        (IsNotPoppedIn (content_of step.old)) }
    ensures kept { result ≢ ASM_DONE → content_of step.new ≡ content_of step.old }
{
    answer(pop(alloc, step))
}

/// Take away the last pushed move as `asm_pop` does, and put it into a slot.
/// The slot gets the one move that does in turn what that move and those that extended it do. It must be empty or hold
/// a move, which is then dropped. `asm_push_move` and `asm_extend_move` take the new one, on this step or on another.
///
/// A move that none extended is put unchanged, and tracks nothing. Others are put as what they compose to. They track
/// each location where the first of them that writes has partial updates alone, judged on the state below the step, and
/// another of them writes too. The one move may come to less there. What was tracked stays so. On error, both slots are
/// unchanged.
///
/// # Errors
/// - `ASM_TAKEN`: the second slot holds something else than a move. It comes before all others.
/// - `ASM_EMPTY`: the first slot has no step.
/// - `ASM_NO_PUSH`: no move is pushed.
/// - `ASM_LONG_MOVE`: the first of the moves come to more than 4,096 instructions, though all might come to fewer.
/// - `ASM_MANY`: more than 256 places would be taken.
/// - `ASM_CLASH`, `ASM_LARGE`: the moves fire in turn on no state; never for a step of the agent's storage.
/// - `ASM_MEMORY`: out of memory.
#[unsafe(no_mangle)]
pub extern "C" fn asm_pop_move(alloc: Global, step: &mut Slot, instrs: &mut Slot) -> i32
    ensures answers { Answers result (HasRoomFor a_move (content_of instrs.old)
        × Changes a_step (content_of step.old) (content_of step.new) (λ s t. Holds a_move (content_of instrs.new)
        (HasPoppedMove standard s t)))
        (IsNotPoppedInto (content_of step.old) (content_of instrs.old)) }
    ensures kept { result ≢ ASM_DONE → content_of step.new ≡ content_of step.old }
    ensures held { result ≢ ASM_DONE → content_of instrs.new ≡ content_of instrs.old }
{
    answer(pop_move(alloc, step, instrs))
}

/// Write what is seen through the pushed moves at all locations of a function.
/// The text is `[PAIR, ..]`, in ascending order of locations, any number of them. The function name is passed in UTF-8
/// without quotes. The function is scanned, also if no location is found: the step depends on all its locations as they
/// were at the step's number, those that have a value and those that have none. A pop leaves it scanned.
///
/// The call doesn't poll and adds no receipt, and the agent's slot is unchanged. On error, the step's slot is unchanged
/// too. The step must be one of the agent's storage.
///
/// # Errors
/// - `ASM_MANY`: the function isn't scanned yet, and 256 places are taken, one by each tracked location and one by each
///   scanned function.
/// - `ASM_SHAPE`: the name isn't UTF-8.
/// - `ASM_MOVED`, `ASM_SMALL`, `ASM_EMPTY`, `ASM_MEMORY`: as of `asm_get`.
#[unsafe(no_mangle)]
pub extern "C" fn asm_step_scan(
    alloc: Global,
    agent: &mut Slot,
    step: &mut Slot,
    name: &[u8],
    out: &mut [u8],
    written: &mut usize,
) -> i32
    ensures answers { Answers result
        (ShowsBoth (IsFoundBy name.now) (content_of agent.old) (content_of step.old) out.old out.new written.new
        × Changes a_step (content_of step.old) (content_of step.new) (HasScanned name.now))
        (ShowsNoText (IsFoundBy name.now) (λ a s c. IsNoName name.now c ⊎ IsNotScanned name.now a s c)
        (content_of agent.old) (content_of step.old) out.old out.new written.new) }
    ensures stays { result ≢ ASM_DONE → content_of step.new ≡ content_of step.old }
    ensures kept { content_of agent.new ≡ content_of agent.old }
{
    answer(step_scan(alloc, agent, step, name, out, written))
}
