//! Opening storages, and freeing what slots hold.
ghost use Rattle.std.specs.Prelude.{◌≡◌, length, MatchResult, OnErr, OnOk};
ghost use Rattle.std.specs.Bool.{OnTrue, OnFalse};
ghost use Rattle.asm_slots.specs.AgentCalls.{IsNoCapacity};
ghost use Rattle.asm_slots.specs.LongLines.{IsLongState};
ghost use Rattle.asm_slots.specs.NextStore.{DoesNotGoOn, GoesOn, IsNextOf, IsNotNext, IsNotOpened, Opens, StartsShort};
ghost use Rattle.asm_slots.specs.Slots.{AreEmpty, Holds, a_store, content_of};
ghost use Rattle.asm_slots.specs.Store.{IsNew};

use crate::codes::Code;
use crate::content::Content;
use crate::lend;
use crate::long_lines::expect_state;
use crate::parsing::state_of;
use crate::shared::Shared;
use crate::slot::Slot;
use crate::store::Store;
use asm_aggregate::{Standard, standard};
use asm_row::CAPACITY_LIMIT;
use asm_storage::Storage;
use std::alloc::{AllocError, Global};
use std::sync::Arc;

// Replace what the slot holds with the storage, without agents.
fn hold_store(
    alloc: Global,
    slot: &mut Slot,
    storage: Storage<Standard>,
    capacity: u32,
) -> Result<(), AllocError>
    requires capacity { length storage.row ≡ capacity }
    requires short { ¬ IsLongState storage.init }
    ensures held { OnOk result (Holds a_store (content_of slot.new) (λ s. IsNew storage s × StartsShort s)) }
    ensures kept { OnErr result (content_of slot.new ≡ content_of slot.old) }
{
    let shared = Arc::new(alloc, Shared::new(storage, capacity))?;
    let store = Store {
        shared,
        numbers: Vec::new(alloc),
        parts: Vec::new(alloc),
        journal: None,
    };
    *slot = Slot::holding(Box::new(alloc, Content::Store(store))?);
    Ok(())
}

/// Do what `asm_open` does.
pub fn open(alloc: Global, init: &[u8], capacity: u32, store: &mut Slot) -> Result<(), Code>
    ensures answers { MatchResult result (λ done. Opens init.now capacity (content_of store.old) (content_of store.new))
        (IsNotOpened init.now capacity (content_of store.old)) }
    ensures kept { OnErr result (content_of store.new ≡ content_of store.old) }
{
    if store.is_full() {
        return Err(Code::Taken);
    }
    let init = state_of(alloc, init)?;
    expect_state(alloc, &init)?;
    let storage = Storage::new(alloc, standard(), init, capacity)?;
    hold_store(alloc, store, storage, capacity)?;
    Ok(())
}

/// Return whether one of the slots holds something.
pub fn is_any_full(slots: &[Slot]) -> bool
    ensures no { OnFalse result (AreEmpty slots.now) }
    ensures yes { OnTrue result (¬ AreEmpty slots.now) }
{
    for slot in slots {
        if slot.is_full() {
            return true;
        }
    }
    false
}

/// Release what the slots hold.
pub fn clear(alloc: Global, slots: &mut [Slot])
    ensures { AreEmpty slots.new }
{
    for at in 0..slots.len() {
        slots[at] = Slot::empty(alloc);
    }
}

/// Do what `asm_next` does.
pub fn open_next(
    alloc: Global,
    store: &mut Slot,
    capacity: u32,
    next: &mut Slot,
) -> Result<(), Code>
    ensures answers { MatchResult result (λ done. IsNextOf capacity (content_of store.old) (content_of next.old) (content_of next.new))
        (IsNotNext capacity (content_of store.old) (content_of next.old)) }
    ensures kept { OnErr result (content_of next.new ≡ content_of next.old) }
    ensures held { content_of store.new ≡ content_of store.old }
{
    if next.is_full() {
        return Err(Code::Taken);
    }
    lend!(kept: Store = store, Err(Code::Empty));
    let Some(journal) = &kept.journal else {
        return Err(Code::NoJournal);
    };
    let storage = journal.next(alloc, capacity)?;
    hold_store(alloc, next, storage, capacity)?;
    Ok(())
}

// Return whether a storage may have this capacity.
fn is_capacity(capacity: u32) -> bool
    ensures yes { OnTrue result (¬ IsNoCapacity capacity) }
    ensures no { OnFalse result (IsNoCapacity capacity) }
{
    1 <= capacity && capacity <= CAPACITY_LIMIT
}

/// Do what `asm_go_on` does.
pub fn go_on(alloc: Global, agent: &mut Slot, capacity: u32, next: &mut Slot) -> Result<(), Code>
    ensures answers { MatchResult result (λ done. GoesOn capacity (content_of agent.old) (content_of next.old) (content_of next.new))
        (DoesNotGoOn capacity (content_of agent.old) (content_of next.old)) }
    ensures kept { OnErr result (content_of next.new ≡ content_of next.old) }
    ensures held { content_of agent.new ≡ content_of agent.old }
{
    if next.is_full() {
        return Err(Code::Taken);
    }
    lend!(inner: Agent = agent, Err(Code::Empty));
    let state = inner.state();
    if state.number() != inner.capacity() {
        return Err(Code::NotFull);
    }
    if !is_capacity(capacity) {
        return Err(Code::Capacity);
    }
    let left = state.to_plain(alloc)?;
    // Proof: the clause is about a state without undef, and only this call shows that it is one.
    left.proper();
    expect_state(alloc, &left)?;
    let storage = Storage::new(alloc, standard(), left, capacity)?;
    hold_store(alloc, next, storage, capacity)?;
    Ok(())
}
