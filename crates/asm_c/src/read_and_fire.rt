//! Reading, firing, and the answers to both.
ghost use Rattle.std.specs.Prelude.{◌≡◌, ◌⊎◌, []};
ghost use Rattle.asm_slots.specs.AgentAnswers.{Fires, FiresOver, IsNotRead, Reads, TriesIn};
ghost use Rattle.asm_slots.specs.AgentCalls.{IsLastAnswer};
ghost use Rattle.asm_slots.specs.Answers.{EmptyOr, IsMemory};
ghost use Rattle.asm_slots.specs.Codes.{Answers, Replies};
ghost use Rattle.asm_slots.specs.Slots.{Holds, Lacks, an_agent, content_of};
ghost use Rattle.asm_slots.specs.WrittenText.{WritesText};
ghost use Rattle.asm_slots.specs.declared.codes.Code.TheVariants as variant;

use asm_slots::read_and_fire::{fire, fire_over, last_answer, read};
use asm_slots::{Numbers, Slot, answer};
use std::alloc::Global;

/// Read the locations `[LOC, ..]`, at most 256.
/// The answer is the text `{"number":N,"values":[VALUE, ..]}`: their values after the first N moves, which `asm_answer`
/// writes. After `ASM_MEMORY` the agent has no further receipt, and may have seen more moves. After any other error its
/// slot is unchanged.
///
/// # Errors
/// - `ASM_EMPTY`: the slot has no agent.
/// - `ASM_NOT_JSON`: `locations` isn't JSON.
/// - `ASM_SHAPE`: `locations` is JSON of another shape, or beyond a limit.
/// - `ASM_LONG_LINE`: with the values in the agent's own state, before it polls, the read's line in a journal would be
///   longer than an audit reads (1,073,741,824 bytes).
/// - `ASM_MANY`: there are more than 256 locations.
/// - `ASM_MEMORY`: out of memory.
#[unsafe(no_mangle)]
pub extern "C" fn asm_read(alloc: Global, agent: &mut Slot, locations: &[u8]) -> i32
    ensures { Answers result (Reads locations.now (content_of agent.old) (content_of agent.new))
        (IsNotRead locations.now (content_of agent.old) (content_of agent.new)) }
{
    answer(read(alloc, agent, locations))
}

/// Fire the move `{"fire":[INSTR, ..],"reads":[NAMED, ..]}`.
/// It has at most 4,096 instructions, and names at most 256 locations, each with the number of moves under which it was
/// read. These codes are answers, of which `asm_answer` writes the text:
/// - `ASM_DONE`, `{"fired":N}`: fired, and `numbers.fired` is the number of the move.
/// - `ASM_STALE`, `{"stale":LOC}`: a named location was written since.
/// - `ASM_CLASH`, `{"clash":[LOC,CAUSE]}`: the updates of the move clash.
/// - `ASM_FULL`, `"full"`: as many moves were fired as the capacity.
///
/// A number that its code doesn't set is 0.
///
/// # Errors
/// Nothing was fired, and no receipt was added.
/// - `ASM_EMPTY`: the slot has no agent.
/// - `ASM_NOT_JSON`: `call` isn't JSON.
/// - `ASM_SHAPE`: `call` is JSON of another shape, or beyond a limit.
/// - `ASM_AHEAD`: a location is named at a number above that of the moves that the agent has seen, which would guard
///   nothing.
/// - `ASM_LONG_LINE`: with the longest reply that it may have, the fire's line in a journal would be longer than an audit
///   reads (1,073,741,824 bytes).
/// - `ASM_MANY`: there are more than 256 named locations. `ASM_AHEAD` and `ASM_LONG_LINE` come before it.
/// - `ASM_BUSY`: 64 attempts to append were lost to other agents. `numbers.from` and `numbers.to` are how many moves
///   the agent had seen at the start and at the end of the call.
/// - `ASM_MEMORY`: out of memory.
///
/// After `ASM_BUSY` and `ASM_MEMORY` the agent may have seen more moves. After any other error the slot is unchanged.
#[unsafe(no_mangle)]
pub extern "C" fn asm_try_fire(
    alloc: Global,
    agent: &mut Slot,
    call: &[u8],
    numbers: &mut Numbers,
) -> i32
    ensures { Replies result (TriesIn (Fires call.now) (content_of agent.old) (content_of agent.new) numbers.new) }
{
    answer(fire(alloc, agent, call, numbers))
}

/// Write the text of the answer to the agent's last answered call.
/// It can be written any number of times. The slot is unchanged.
///
/// # Errors
/// - `ASM_EMPTY`: the slot has no agent.
/// - `ASM_NO_ANSWER`: no call was answered yet.
/// - `ASM_SMALL`: `out` is too small, and `written` is the room that is needed.
/// - `ASM_MEMORY`: out of memory.
#[unsafe(no_mangle)]
pub extern "C" fn asm_answer(
    alloc: Global,
    agent: &mut Slot,
    out: &mut [u8],
    written: &mut usize,
) -> i32
    ensures text { WritesText (λ text. Holds an_agent (content_of agent.old) (λ a. IsLastAnswer a.account.receipts text))
        (EmptyOr (Lacks an_agent (content_of agent.old))
        (λ c. IsMemory c ⊎ ((c ≡ variant.NoAnswer) × Holds an_agent (content_of agent.old) (λ a. a.account.receipts ≡ []))))
        out.old out.new written.new result }
    ensures kept { content_of agent.new ≡ content_of agent.old }
{
    answer(last_answer(alloc, agent, out, written))
}

/// Fire a move that depends on whole functions too.
/// The call is `{"fire":[INSTR, ..],"reads":[NAMED, ..]}`, as of `asm_try_fire`. The scans are `[[NAME,NUMBER], ..]`:
/// each function by its name, with the number of moves at which it was scanned. The move depends on all locations with
/// the name, those that have a value and those that have none, as they were at the scan's number.
///
/// With `ASM_DONE` each location of a scanned function, whether it has a value or none, had before the move what it had
/// at the scan's number. `ASM_STALE` is also the answer if one of these was written since, including its first value.
/// The receipt then names the smallest such location of one scan, behind the others; otherwise the journal doesn't
/// record scans. All other codes, numbers and effects are as of `asm_try_fire`.
///
/// A scan costs a walk of the locations of this name that moves wrote; with a text that is no name of a function, of
/// all that they wrote.
///
/// # Errors
/// - `ASM_NOT_JSON`, `ASM_SHAPE`: as of `asm_try_fire`, of the call, or else of the scans.
/// - `ASM_AHEAD`: a location is named, or a function was scanned, at a number above that of the moves that the agent
///   has seen.
/// - `ASM_LONG_LINE`: as of `asm_try_fire`, without the location that a scan adds to the reply.
/// - `ASM_MANY`: there are more than 256 named locations and scans together. `ASM_AHEAD` and `ASM_LONG_LINE` come before
///   it.
/// - `ASM_EMPTY`, `ASM_BUSY`, `ASM_MEMORY`: as of `asm_try_fire`.
#[unsafe(no_mangle)]
pub extern "C" fn asm_try_fire_over(
    alloc: Global,
    agent: &mut Slot,
    call: &[u8],
    scans: &[u8],
    numbers: &mut Numbers,
) -> i32
    ensures { Replies result
        (TriesIn (FiresOver call.now scans.now) (content_of agent.old) (content_of agent.new) numbers.new) }
{
    answer(fire_over(alloc, agent, call, scans, numbers))
}
