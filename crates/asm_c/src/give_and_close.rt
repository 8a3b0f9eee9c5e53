//! Counting a storage's moves, returning agents, closing them into a journal, and its text.
ghost use Rattle.std.specs.Prelude.{◌≡◌, ◌≢◌, ◌≤◌, length, None, Some};
ghost use Rattle.asm_slots.specs.AgentCalls.{Gives, HasClosed};
ghost use Rattle.asm_slots.specs.Answers.{EmptyOr};
ghost use Rattle.asm_slots.specs.ClosedStore.{IsNotClosed};
ghost use Rattle.asm_slots.specs.Codes.{ASM_DONE, Answers};
ghost use Rattle.asm_slots.specs.MadeAgents.{IsNotGiven};
ghost use Rattle.asm_slots.specs.Slots.{Changes, Holds, IsOfStore, Lacks, a_store, content_of};
ghost use Rattle.asm_slots.specs.WrittenText.{WritesText};
ghost use Rattle.asm_slots.specs.declared.codes.Code.TheVariants as variant;

use asm_slots::giving::{close, give, journal, moves as moves_of};
use asm_slots::{Slot, answer};
use std::alloc::Global;

/// Return how many moves were fired on the storage: `moves` is that number.
/// The call polls all of them, from the first one until no further move is found; agents may fire more meanwhile. The
/// slot is unchanged. Contracts don't cover the cells of a row: that it counts the moves that were fired before the
/// call is tested.
///
/// # Errors
/// - `ASM_EMPTY`: the slot has no storage, and `moves` is 0.
#[unsafe(no_mangle)]
pub extern "C" fn asm_moves(alloc: Global, store: &mut Slot, moves: &mut u32) -> i32
    ensures counted { Answers result (Holds a_store (content_of store.old) (λ s. moves.new ≤ length s.storage.row))
        (λ c. (c ≡ variant.Empty) × Lacks a_store (content_of store.old) × (moves.new ≡ 0)) }
    ensures kept { content_of store.new ≡ content_of store.old }
{
    answer(moves_of(store, moves))
}

/// Return an agent to its storage, in any order; its slot is then empty.
/// The journal that the storage retained is discarded. On error, both slots are unchanged.
///
/// The caller must pass an agent of the storage. `ASM_OTHER` reports a mistake, except possibly while other threads are
/// in `asm_learn`, `asm_take_state` or `asm_give` on both storages.
///
/// # Errors
/// - `ASM_EMPTY`: the first slot has no storage, the second no agent, or the two are one.
/// - `ASM_NUMBER`: an agent with this number was returned before. One of the two is then of another storage, which
///   `ASM_OTHER` didn't detect: of one storage no two agents have the same number.
/// - `ASM_OTHER`: the agent is of another storage.
/// - `ASM_MEMORY`: out of memory.
#[unsafe(no_mangle)]
pub extern "C" fn asm_give(alloc: Global, store: &mut Slot, agent: &mut Slot) -> i32
    requires { IsOfStore (content_of agent.old) (content_of store.old) }
    ensures answers { Answers result
        (Gives (content_of store.old) (content_of agent.old) (content_of store.new) × (content_of agent.new ≡ None))
        (IsNotGiven (content_of store.old) (content_of agent.old)) }
    ensures kept { result ≢ ASM_DONE → content_of store.new ≡ content_of store.old }
    ensures back { result ≢ ASM_DONE → content_of agent.new ≡ content_of agent.old }
{
    answer(give(alloc, store, agent))
}

/// Make the journal of the returned agents, which the storage retains.
/// They must have a receipt of every move that was fired before this call. If each move that they have seen has one,
/// the call polls along the storage's row. So it also detects a move that none of them has seen. More agents may be
/// made, returned and closed afterwards. On error, the slot is unchanged. Contracts don't cover the cells of a row:
/// that it reports no such move if there is none is tested.
///
/// # Errors
/// - `ASM_MISSING`: the move `number`, the smallest such, has no receipt among them. Return the agent that fired it,
///   and close again. The moves of an agent that was freed without being returned are missing for good. With any other
///   code `number` is 0.
/// - `ASM_MANY_CALLS`: there are more calls than the 4,294,967,295 that a journal holds.
/// - `ASM_EMPTY`: the slot has no storage.
/// - `ASM_MEMORY`: out of memory.
#[unsafe(no_mangle)]
pub extern "C" fn asm_close(alloc: Global, store: &mut Slot, number: &mut u32) -> i32
    ensures answers { Answers result ((number.new ≡ 0) × Changes a_store (content_of store.old) (content_of store.new) HasClosed)
        (IsNotClosed (content_of store.old) number.new) }
    ensures kept { result ≢ ASM_DONE → content_of store.new ≡ content_of store.old }
{
    answer(close(alloc, store, number))
}

/// Write the journal that `asm_close` made.
/// It can be written any number of times. The slot is unchanged.
///
/// # Errors
/// - `ASM_SMALL`: `out` is too small, and `written` is the room that is needed.
/// - `ASM_NO_JOURNAL`: the storage wasn't closed since an agent was returned or checked out.
/// - `ASM_EMPTY`: the slot has no storage.
#[unsafe(no_mangle)]
pub extern "C" fn asm_journal(
    alloc: Global,
    store: &mut Slot,
    out: &mut [u8],
    written: &mut usize,
) -> i32
    ensures text { WritesText (λ text. Holds a_store (content_of store.old) (λ s. s.journal ≡ Some text))
        (EmptyOr (Lacks a_store (content_of store.old))
        (λ c. (c ≡ variant.NoJournal) × Holds a_store (content_of store.old) (λ s. s.journal ≡ None)))
        out.old out.new written.new result }
    ensures kept { content_of store.new ≡ content_of store.old }
{
    answer(journal(store, out, written))
}
