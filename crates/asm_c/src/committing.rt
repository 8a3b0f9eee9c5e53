//! Firing the one move of a step, with or without a receipt of what the step read.
ghost use Rattle.std.specs.Prelude.{◌≡◌, MatchResult, None};
ghost use Rattle.asm_slots.specs.Answers.{EmptyOr, IsMemory};
ghost use Rattle.asm_slots.specs.Codes.{Replies};
ghost use Rattle.asm_slots.specs.Commit.{CommitsIn, HasCommitted, HasCommittedRecorded, HasFiredOnce, IsOfferText};
ghost use Rattle.asm_slots.specs.Slots.{Holds, Lacks, a_step, content_of};
ghost use Rattle.asm_slots.specs.WrittenText.{WritesText};

use asm_slots::committing::{commit, commit_recorded, offer};
use asm_slots::{Numbers, Slot, answer};
use std::alloc::Global;

/// Fire the one move that does what the pushed moves do in turn.
/// It names, at the step's number, each tracked location, and each that one pushed move writes with partial updates
/// alone and a later one writes too. It covers each scanned function. Codes, numbers and receipt are those of
/// `asm_try_fire`, and `asm_answer` writes the answer. The step must be one of the agent's storage.
///
/// If it fires, what was tracked, what was scanned and what pushed moves put is as if it were read at that moment. With
/// `ASM_DONE` the step is over, and its slot is empty. After any other code it is unchanged. The call polls, so it
/// returns neither `ASM_MOVED` nor `ASM_AHEAD`.
///
/// # Errors
/// - `ASM_STALE`: also if a later move wrote a location of a scanned function, including one that had no value. The
///   receipt names the smallest of these, behind the others, at the step's number.
/// - `ASM_MANY`: the locations that it would name and the scanned functions are more than 256 together.
/// - `ASM_EMPTY`: the first slot has no agent, the second no step, or the two are one.
/// - `ASM_LONG_LINE`: as of `asm_try_fire_over`.
/// - `ASM_CLASH`: each push was accepted, and something was written since that one of the moves doesn't fit. Begin the
///   step again, as after `ASM_STALE`.
/// - `ASM_FULL`, `ASM_BUSY`, `ASM_MEMORY`: as of `asm_try_fire`.
#[unsafe(no_mangle)]
pub extern "C" fn asm_commit(
    alloc: Global,
    agent: &mut Slot,
    step: &mut Slot,
    numbers: &mut Numbers,
) -> i32
    ensures commits { Replies result (λ r.
        CommitsIn HasCommitted (content_of agent.old) (content_of agent.new) (content_of step.old) numbers.new r
        × MatchResult r (λ done. content_of step.new ≡ None) (λ c. content_of step.new ≡ content_of step.old)) }
    ensures once { Replies result (
        CommitsIn HasFiredOnce (content_of agent.old) (content_of agent.new) (content_of step.old) numbers.new) }
{
    answer(commit(alloc, agent, step, numbers))
}

/// Record what the step read, and then commit it as `asm_commit` does.
/// The call polls. If a location that the fire names was written since the step's number, it reads nothing, and the fire
/// is stale. Else the journal has a read in front of the fire. That read has the locations that the fire names, in its
/// order, with their values at the step's number. It has none of the scanned functions, and there is no read if the fire
/// names no location. The numbers, and what becomes of the step, are as of `asm_commit`.
///
/// # Errors
/// - `ASM_MANY`: as of `asm_commit`, and nothing changes.
/// - `ASM_LONG_LINE`: as of `asm_commit`, or the line of the read would be too long with the values in the agent's own
///   state. Nothing changes.
/// - `ASM_EMPTY`: as of `asm_commit`.
/// - `ASM_STALE`, `ASM_CLASH`, `ASM_FULL`, `ASM_BUSY`: as of `asm_commit`. The receipt of the read stays: it is a legal
///   read.
/// - `ASM_MEMORY`: nothing was fired. The agent may have the receipt of the read.
///
/// After `ASM_BUSY` and `ASM_MEMORY` the same call may be made again.
#[unsafe(no_mangle)]
pub extern "C" fn asm_commit_recorded(
    alloc: Global,
    agent: &mut Slot,
    step: &mut Slot,
    numbers: &mut Numbers,
) -> i32
    ensures { Replies result (λ r.
        CommitsIn HasCommittedRecorded (content_of agent.old) (content_of agent.new) (content_of step.old) numbers.new r
        × MatchResult r (λ done. content_of step.new ≡ None) (λ c. content_of step.new ≡ content_of step.old)) }
{
    answer(commit_recorded(alloc, agent, step, numbers))
}

/// Write `{"fire":[INSTR, ..],"reads":[NAMED, ..]}`, as a commit would fire it.
/// It has the one move that does what the pushed moves do in turn. It names each location that a commit of the step
/// would name, with the step's number. `asm_try_fire` takes it, if these are at most 256. A commit depends on the
/// scanned functions too, which aren't in it. The call doesn't poll and adds no receipt, and the slot is unchanged.
///
/// # Errors
/// - `ASM_SMALL`: `out` is too small, and `written` is the room that is needed.
/// - `ASM_EMPTY`: the slot has no step.
/// - `ASM_MEMORY`: out of memory.
#[unsafe(no_mangle)]
pub extern "C" fn asm_offer(
    alloc: Global,
    step: &mut Slot,
    out: &mut [u8],
    written: &mut usize,
) -> i32
    ensures text { WritesText (λ text. Holds a_step (content_of step.old) (λ s. IsOfferText s text))
        (EmptyOr (Lacks a_step (content_of step.old)) IsMemory) out.old out.new written.new result }
    ensures kept { content_of step.new ≡ content_of step.old }
{
    answer(offer(alloc, step, out, written))
}
