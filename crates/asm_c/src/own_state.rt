//! Polling, an agent's own state, values at prepared locations, and validating declared reads.
ghost use Rattle.std.specs.Prelude.{◌≡◌, ◌≢◌};
ghost use Rattle.asm_slots.specs.AgentAnswers.{DoesNotValidate, Validates};
ghost use Rattle.asm_slots.specs.Answers.{EmptyOr, IsMemory, IsNoName, IsUnreadAs};
ghost use Rattle.asm_slots.specs.Bytes.{AreLocations};
ghost use Rattle.asm_slots.specs.Codes.{ASM_DONE, Answers};
ghost use Rattle.asm_slots.specs.OwnState.{DoesNotFollow, Follows, IsOwnOfName, IsOwnState, IsPeekOf};
ghost use Rattle.asm_slots.specs.Slots.{Holds, Lacks, an_agent, content_of};
ghost use Rattle.asm_slots.specs.StepAnswers.{DoesNotGetAt, DoesNotPeekAt, GetsAt, IsNoValue, PeeksAt};
ghost use Rattle.asm_slots.specs.WrittenText.{WritesText};

use asm_slots::own_state::{follow, own_state, peek, peek_at, scan, validate};
use asm_slots::steps::get_at;
use asm_slots::{Slot, ValueHead, answer};
use std::alloc::Global;

/// Write the agent's own state `[PAIR, ..]`, in ascending order of locations.
/// It is the state after `number` moves. The call doesn't poll and adds no receipt, and the slot is unchanged.
///
/// # Errors
/// - `ASM_SMALL`: `out` is too small, and `written` is the room that is needed. `number` is set too.
/// - `ASM_EMPTY`: the slot has no agent. `number` and `written` are 0.
/// - `ASM_MEMORY`: out of memory. `number` and `written` are 0.
#[unsafe(no_mangle)]
pub extern "C" fn asm_state(
    alloc: Global,
    agent: &mut Slot,
    number: &mut u32,
    out: &mut [u8],
    written: &mut usize,
) -> i32
    ensures text { WritesText (λ text. Holds an_agent (content_of agent.old) (λ a. IsOwnState a number.new text))
        (λ c. (number.new ≡ 0) × EmptyOr (Lacks an_agent (content_of agent.old)) IsMemory c)
        out.old out.new written.new result }
    ensures kept { content_of agent.new ≡ content_of agent.old }
{
    answer(own_state(alloc, agent, number, out, written))
}

/// Write what the agent's own state has at all locations of one function name.
/// The text is `[PAIR, ..]`, in ascending order of locations, after `number` moves. The name is passed in UTF-8 without
/// quotes. The call doesn't poll and adds no receipt, and the slot is unchanged. A fire may name each location that was
/// found, with this number. It doesn't notice that a further location of the name is written later; a fire over the
/// scan does (`asm_try_fire_over`), as does the commit of a step that reads them by `asm_step_scan`.
///
/// # Errors
/// - `ASM_SMALL`: `out` is too small, and `written` is the room that is needed. `number` is set too.
/// - `ASM_EMPTY`: the slot has no agent. `number` and `written` are 0.
/// - `ASM_SHAPE`: the name isn't UTF-8. `number` and `written` are 0.
/// - `ASM_MEMORY`: out of memory. `number` and `written` are 0.
#[unsafe(no_mangle)]
pub extern "C" fn asm_scan(
    alloc: Global,
    agent: &mut Slot,
    name: &[u8],
    number: &mut u32,
    out: &mut [u8],
    written: &mut usize,
) -> i32
    ensures text { WritesText (λ text. Holds an_agent (content_of agent.old) (λ a. IsOwnOfName name.now a number.new text))
        (λ c. (number.new ≡ 0) × EmptyOr (Lacks an_agent (content_of agent.old)) (IsNoName name.now) c)
        out.old out.new written.new result }
    ensures kept { content_of agent.new ≡ content_of agent.old }
{
    answer(scan(alloc, agent, name, number, out, written))
}

/// Poll until no further move is found; the agent's own state follows.
/// `number` is then how many moves the agent has seen. No receipt is added. Until the next call that polls or fires,
/// its own state is at this number. On error, `number` is 0.
///
/// # Errors
/// - `ASM_EMPTY`: the slot has no agent, and is unchanged.
/// - `ASM_MEMORY`: out of memory; the agent may have seen more moves.
#[unsafe(no_mangle)]
pub extern "C" fn asm_follow(alloc: Global, agent: &mut Slot, number: &mut u32) -> i32
    ensures answers { Answers result (Follows number.new (content_of agent.old) (content_of agent.new))
        (DoesNotFollow (content_of agent.old) (content_of agent.new)) }
    ensures none { result ≢ ASM_DONE → number.new ≡ 0 }
{
    answer(follow(alloc, agent, number))
}

/// Write the values of the locations `[LOC, ..]` in the agent's own state.
/// There may be any number of them. The text is `{"number":N,"values":[VALUE, ..]}`, after N moves. The call doesn't
/// poll and adds no receipt, and the slot is unchanged.
///
/// # Errors
/// - `ASM_EMPTY`: the slot has no agent.
/// - `ASM_SMALL`: `out` is too small, and `written` is the room that is needed.
/// - `ASM_NOT_JSON`: `locations` isn't JSON.
/// - `ASM_SHAPE`: `locations` is JSON of another shape, or beyond a limit.
/// - `ASM_MEMORY`: out of memory.
#[unsafe(no_mangle)]
pub extern "C" fn asm_peek(
    alloc: Global,
    agent: &mut Slot,
    locations: &[u8],
    out: &mut [u8],
    written: &mut usize,
) -> i32
    ensures text { WritesText (λ text. Holds an_agent (content_of agent.old) (λ a. IsPeekOf locations.now a text))
        (EmptyOr (Lacks an_agent (content_of agent.old)) (IsUnreadAs AreLocations locations.now))
        out.old out.new written.new result }
    ensures kept { content_of agent.new ≡ content_of agent.old }
{
    answer(peek(alloc, agent, locations, out, written))
}

/// Validate the declared reads `[NAMED, ..]`, at most 256, after polling.
/// The agent polls until no further move is found, and its own state follows. No receipt is added. These codes are
/// answers:
/// - `ASM_DONE`: none of the locations was written since the number under which it is named.
/// - `ASM_STALE`: one was, and `{"stale":LOC}` with the smallest such location is written.
///
/// A fire that declares the same reads may still be refused, by a move that comes in between.
///
/// # Errors
/// - `ASM_SMALL`: `out` is too small for the text, and `written` is the room that is needed.
/// - `ASM_EMPTY`: the slot has no agent.
/// - `ASM_NOT_JSON`: `reads` isn't JSON.
/// - `ASM_SHAPE`: `reads` is JSON of another shape, or beyond a limit.
/// - `ASM_AHEAD`: a read has a number above that of the moves that the agent has seen, so it can't be judged.
/// - `ASM_MANY`: there are more than 256 reads. `ASM_AHEAD` comes before it.
/// - `ASM_MEMORY`: out of memory; the agent may have seen more moves.
///
/// After `ASM_EMPTY`, `ASM_NOT_JSON`, `ASM_SHAPE`, `ASM_AHEAD` and `ASM_MANY` the slot is unchanged.
#[unsafe(no_mangle)]
pub extern "C" fn asm_stands(
    alloc: Global,
    agent: &mut Slot,
    reads: &[u8],
    out: &mut [u8],
    written: &mut usize,
) -> i32
    ensures { Answers result
        (Validates reads.now (content_of agent.old) (content_of agent.new) × (out.new ≡ out.old) × (written.new ≡ 0))
        (DoesNotValidate reads.now (content_of agent.old) (content_of agent.new) out.old out.new written.new) }
{
    answer(validate(alloc, agent, reads, out, written))
}

/// Return the value at a prepared location in the agent's own state.
/// The state is the one after `number` moves. The bytes of a text, and the JSON of a list, a set or a bag, are written
/// to `out`. The call doesn't poll and adds no receipt, and both slots are unchanged. On error, `number` and `value`
/// are 0.
///
/// # Errors
/// - `ASM_SMALL`: `out` is too small, and `written` is the room that the bytes need.
/// - `ASM_EMPTY`: the first slot has no agent, the second no location, or the two are one.
/// - `ASM_MEMORY`: out of memory.
#[unsafe(no_mangle)]
pub extern "C" fn asm_peek_at(
    alloc: Global,
    agent: &mut Slot,
    at: &mut Slot,
    number: &mut u32,
    value: &mut ValueHead,
    out: &mut [u8],
    written: &mut usize,
) -> i32
    ensures answers { Answers result
        (PeeksAt (content_of at.old) (content_of agent.old) number.new value.new out.old out.new written.new)
        (DoesNotPeekAt (content_of at.old) (content_of agent.old) out.old out.new written.new) }
    ensures none { result ≢ ASM_DONE → (number.new ≡ 0) × IsNoValue value.new }
    ensures kept { content_of agent.new ≡ content_of agent.old }
    ensures stays { content_of at.new ≡ content_of at.old }
{
    answer(peek_at(alloc, agent, at, number, value, out, written))
}

/// Return what is seen through the pushed moves at a prepared location.
/// The bytes of a text, and the JSON of a list, a set or a bag, are written to `out`. The location is tracked as by
/// `asm_get`, and the commit names it, unless pushed moves put what is seen there. The call doesn't poll and adds no
/// receipt, and the slots of the agent and the location are unchanged. On error, the step's slot is unchanged too, and
/// `value` is 0. The step must be one of the agent's storage.
///
/// # Errors
/// - `ASM_MOVED`: the agent's own state isn't at the step's number.
/// - `ASM_MANY`: 256 places are taken, by other tracked locations and by scanned functions.
/// - `ASM_SMALL`: `out` is too small, and `written` is the room that the bytes need.
/// - `ASM_EMPTY`: the first slot has no agent, the second no step, the third no location, or two of them are one.
/// - `ASM_MEMORY`: out of memory.
#[unsafe(no_mangle)]
pub extern "C" fn asm_get_at(
    alloc: Global,
    agent: &mut Slot,
    step: &mut Slot,
    at: &mut Slot,
    value: &mut ValueHead,
    out: &mut [u8],
    written: &mut usize,
) -> i32
    ensures answers { Answers result
        (GetsAt (content_of at.old) (content_of agent.old) (content_of step.old) (content_of step.new) value.new out.old out.new written.new)
        (DoesNotGetAt (content_of at.old) (content_of agent.old) (content_of step.old) out.old out.new written.new) }
    ensures none { result ≢ ASM_DONE → IsNoValue value.new }
    ensures stays { result ≢ ASM_DONE → content_of step.new ≡ content_of step.old }
    ensures kept { content_of agent.new ≡ content_of agent.old }
    ensures held { content_of at.new ≡ content_of at.old }
{
    answer(get_at(alloc, agent, step, at, value, out, written))
}
