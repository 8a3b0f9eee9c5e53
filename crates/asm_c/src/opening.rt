//! Opening storages, making agents and checking them out again, and freeing what slots hold.
ghost use Rattle.std.specs.Prelude.{◌≡◌, ◌≢◌, None};
ghost use Rattle.asm_slots.specs.Codes.{ASM_DONE, Answers};
ghost use Rattle.asm_slots.specs.MadeAgents.{MakesAgent, MakesAgents, MakesNoAgent, MakesNoAgents, TakesAgent, TakesNoAgent};
ghost use Rattle.asm_slots.specs.NextStore.{DoesNotGoOn, GoesOn, IsNextOf, IsNotNext, IsNotOpened, Opens};
ghost use Rattle.asm_slots.specs.Slots.{content_of};

use asm_slots::giving::check_out;
use asm_slots::opening::{go_on, open, open_next};
use asm_slots::store_agents::{make_agent, make_agents};
use asm_slots::{Slot, answer};
use std::alloc::Global;

/// Open a storage with the state `[PAIR, ..]` in an empty slot.
/// It has room for `capacity` moves, 1 to 1,048,576. On error, the slot is unchanged.
///
/// # Errors
/// - `ASM_TAKEN`: the slot is full.
/// - `ASM_NOT_JSON`: `init` isn't JSON.
/// - `ASM_SHAPE`: `init` is JSON of another shape, or beyond a limit.
/// - `ASM_CAPACITY`: the capacity isn't 1 to 1,048,576.
/// - `ASM_LONG_LINE`: the first line of its journal would be longer than an audit reads (1,073,741,824 bytes).
/// - `ASM_MEMORY`: out of memory.
#[unsafe(no_mangle)]
pub extern "C" fn asm_open(alloc: Global, init: &[u8], capacity: u32, store: &mut Slot) -> i32
    ensures answers { Answers result (Opens init.now capacity (content_of store.old) (content_of store.new))
        (IsNotOpened init.now capacity (content_of store.old)) }
    ensures kept { result ≢ ASM_DONE → content_of store.new ≡ content_of store.old }
{
    answer(open(alloc, init, capacity, store))
}

/// Make an agent of the storage with the number `id`, below 256, in an empty slot.
/// A storage has one agent of each number: also one that was freed keeps its number, as its moves may be in the
/// journal. On error, both slots are unchanged, and the number is as free as before.
///
/// # Errors
/// The first of these that holds is returned.
/// - `ASM_AGENTS`: the number isn't below 256.
/// - `ASM_TAKEN`: the slot for the agent is full.
/// - `ASM_EMPTY`: the other slot has no storage.
/// - `ASM_NUMBER`: an agent of the storage with this number was made before, whether or not it was freed.
/// - `ASM_MEMORY`: out of memory.
#[unsafe(no_mangle)]
pub extern "C" fn asm_agent(alloc: Global, store: &mut Slot, id: u32, agent: &mut Slot) -> i32
    ensures answers { Answers result
        (MakesAgent id (content_of store.old) (content_of store.new) (content_of agent.old) (content_of agent.new))
        (MakesNoAgent id (content_of store.old) (content_of agent.old)) }
    ensures kept { result ≢ ASM_DONE → content_of store.new ≡ content_of store.old }
    ensures held { result ≢ ASM_DONE → content_of agent.new ≡ content_of agent.old }
{
    answer(make_agent(alloc, store, id, agent))
}

/// Make an agent of the storage in each of at most 256 empty slots.
/// Their numbers go from 0 up. On error, the storage's slot is unchanged, and every agent slot still holds what it
/// held.
///
/// # Errors
/// The first of these that holds is returned.
/// - `ASM_AGENTS`: there are more than 256 slots.
/// - `ASM_TAKEN`: one of the agents' slots is full.
/// - `ASM_EMPTY`: the other slot has no storage.
/// - `ASM_NUMBER`: an agent with one of the numbers was made before.
/// - `ASM_MEMORY`: out of memory.
#[unsafe(no_mangle)]
pub extern "C" fn asm_agents(alloc: Global, store: &mut Slot, agents: &mut [Slot]) -> i32
    ensures answers { Answers result (MakesAgents (content_of store.old) (content_of store.new) agents.old agents.new)
        (MakesNoAgents (content_of store.old) agents.old agents.new) }
    ensures kept { result ≢ ASM_DONE → content_of store.new ≡ content_of store.old }
{
    answer(make_agents(alloc, store, agents))
}

/// Check a returned agent out of its storage again, into an empty slot.
/// It continues with its number and its receipts. The journal that the storage retained is discarded. On error, both
/// slots are unchanged.
///
/// # Errors
/// The first of these that holds is returned.
/// - `ASM_TAKEN`: the slot for the agent is full.
/// - `ASM_EMPTY`: the other slot has no storage.
/// - `ASM_NO_AGENT`: no agent with this number was returned.
/// - `ASM_MEMORY`: out of memory.
#[unsafe(no_mangle)]
pub extern "C" fn asm_take(alloc: Global, store: &mut Slot, number: u32, agent: &mut Slot) -> i32
    ensures answers { Answers result
        (TakesAgent number (content_of store.old) (content_of store.new) (content_of agent.old) (content_of agent.new))
        (TakesNoAgent number (content_of store.old) (content_of agent.old)) }
    ensures kept { result ≢ ASM_DONE → content_of store.new ≡ content_of store.old }
    ensures held { result ≢ ASM_DONE → content_of agent.new ≡ content_of agent.old }
{
    answer(check_out(alloc, store, number, agent))
}

/// Release what the slot holds, if anything, and leave the slot empty.
/// The memory of a storage is freed with the last slot that holds it or an agent of it.
#[unsafe(no_mangle)]
pub extern "C" fn asm_free(alloc: Global, slot: &mut Slot)
    ensures { content_of slot.new ≡ None }
{
    *slot = Slot::empty(alloc);
}

/// Open a storage in an empty slot that continues one that was closed.
/// It has room for `capacity` moves, 1 to 1,048,576. Its opening state is the one that the moves of the retained
/// journal leave; its agents start again, and numbers begin at 0. Keep no number of an earlier read: it is taken for
/// one of this storage once so many moves were seen. The journals of both, one after the other, are one run; moves that
/// were fired after `asm_close` are in neither. The first slot is unchanged; on error, both are.
///
/// # Errors
/// - `ASM_TAKEN`: the second slot is full.
/// - `ASM_EMPTY`: the first slot has no storage.
/// - `ASM_NO_JOURNAL`: the storage wasn't closed since an agent was returned or checked out.
/// - `ASM_CAPACITY`: the capacity isn't 1 to 1,048,576.
/// - `ASM_LONG_LINE`: as of `asm_open`.
/// - `ASM_MEMORY`: out of memory.
#[unsafe(no_mangle)]
pub extern "C" fn asm_next(alloc: Global, store: &mut Slot, capacity: u32, next: &mut Slot) -> i32
    ensures answers { Answers result (IsNextOf capacity (content_of store.old) (content_of next.old) (content_of next.new))
        (IsNotNext capacity (content_of store.old) (content_of next.old)) }
    ensures kept { content_of store.new ≡ content_of store.old }
    ensures refused { result ≢ ASM_DONE → content_of next.new ≡ content_of next.old }
{
    answer(open_next(alloc, store, capacity, next))
}

/// Open a storage in an empty slot that continues the agent's full one.
/// It has room for `capacity` moves, 1 to 1,048,576. Its opening state is the agent's own state, if that is after all
/// moves that the agent's storage has room for: that storage is full, and the agent has polled to its end
/// (`asm_follow`, `asm_begin`).
///
/// No journal is needed, and no other agent waits: each may read on, be returned and be closed into the first storage's
/// journal later. The journals of both storages, one after the other, are one run. Numbers begin at 0, as after
/// `asm_next`. The agent's slot is unchanged; on error, the second is too.
///
/// # Errors
/// The first of these that holds is returned.
/// - `ASM_TAKEN`: the second slot is full.
/// - `ASM_EMPTY`: the first slot has no agent.
/// - `ASM_NOT_FULL`: the agent's own state is at fewer moves than its storage has room for.
/// - `ASM_CAPACITY`: the capacity isn't 1 to 1,048,576.
/// - `ASM_LONG_LINE`: as of `asm_open`.
/// - `ASM_MEMORY`: out of memory.
#[unsafe(no_mangle)]
pub extern "C" fn asm_go_on(alloc: Global, agent: &mut Slot, capacity: u32, next: &mut Slot) -> i32
    ensures answers { Answers result (GoesOn capacity (content_of agent.old) (content_of next.old) (content_of next.new))
        (DoesNotGoOn capacity (content_of agent.old) (content_of next.old)) }
    ensures kept { content_of agent.new ≡ content_of agent.old }
    ensures refused { result ≢ ASM_DONE → content_of next.new ≡ content_of next.old }
{
    answer(go_on(alloc, agent, capacity, next))
}
