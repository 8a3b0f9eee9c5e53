//! The state that a history leaves, and the storage that continues from it.
ghost use Rattle.std.specs.Prelude.{◌≡◌, ◌↔◌, OnOk, IfOk, IsErrOf};
ghost use Rattle.asm_row.specs.Limits.{IsNoCapacity};
ghost use Rattle.asm_update.specs.State.{overwrite};
ghost use Rattle.asm_update.specs.Fire.{state_of};
ghost use Rattle.asm_update.specs.Move.{Move};
ghost use Rattle.asm_state.specs.Change.{IsOneChange};
ghost use Rattle.asm_state.specs.FollowsFrom.{after_move};
ghost use Rattle.asm_storage.specs.History.{fired_moves};
ghost use Rattle.asm_storage.specs.Storage.{machine_of};
ghost use Rattle.asm_storage.specs.declared.error.StorageError.TheVariants as storage_error;
ghost use Rattle.asm_journal.specs.Check.{machine_of as history_machine};
ghost use Rattle.asm_journal.specs.Next.{next_machine};

use asm_aggregate::aggregate;
use asm_element::Location;
use asm_row::CAPACITY_LIMIT;
use asm_state::one_change;
use asm_storage::{Closing, Event, History, Storage, StorageError};
use asm_update::{AggError, Aggregator, Group, Instructions, PlainState, ResultError, UpdateSet};
use std::alloc::{AllocError, Global};

/// Write the updates one by one.
///
/// Where memory is refused, those before are written.
fn write_updates(state: &mut PlainState, updates: UpdateSet) -> Result<(), AllocError>
    ensures { OnOk result (state.new ≡ overwrite state.old updates) }
{
    for (at, value) in updates {
        state.set(at, value)?;
    }
    Ok(())
}

/// Fire a move by its update set.
///
/// A move that clashes changes nothing.
fn fire_all<A: Aggregator>(
    alloc: Global,
    aggregator: &A,
    state: &mut PlainState,
    instructions: &Instructions,
) -> Result<(), AllocError>
    ensures { OnOk result
        (state.new ≡ after_move (A.meaning aggregator.now).part state.old instructions.now) }
{
    match aggregate(alloc, aggregator, state, instructions) {
        Ok(updates) => write_updates(state, updates),
        Err(AggError::Clash(_)) => Ok(()),
        Err(AggError::Memory) => Err(AllocError),
    }
}

/// Fire a move of one location by its group.
///
/// A move that clashes changes nothing.
fn change_or_keep<A: Aggregator>(
    alloc: Global,
    aggregator: &A,
    state: &mut PlainState,
    at: &Location,
    group: &Group,
) -> Result<(), AllocError>
    ensures { OnOk result ((M : Move) → IsOneChange M at.now group.now →
        state.new ≡ after_move (A.meaning aggregator.now).part state.old M) }
{
    match state.change(alloc, aggregator, at, group) {
        Ok(()) => Ok(()),
        Err(ResultError::Cause(_)) => Ok(()),
        Err(ResultError::Memory) => Err(AllocError),
    }
}

/// Fire a move.
///
/// A move that clashes changes nothing.
fn fire_or_keep<A: Aggregator>(
    alloc: Global,
    aggregator: &A,
    state: &mut PlainState,
    instructions: &Instructions,
) -> Result<(), AllocError>
    ensures { OnOk result
        (state.new ≡ after_move (A.meaning aggregator.now).part state.old instructions.now) }
{
    match one_change(alloc, instructions)? {
        Some((at, group)) => change_or_keep(alloc, aggregator, state, at, &group),
        None => fire_all(alloc, aggregator, state, instructions),
    }
}

/// Return the state that events leave: the opening state with their moves fired.
///
/// The opening state moves in, and the moves are fired in order. A move that clashes changes nothing.
///
/// # Errors
///
/// - `AllocError` only if memory is refused.
pub fn replay_over<A: Aggregator>(
    alloc: Global,
    aggregator: &A,
    init: PlainState,
    events: &[Event],
) -> Result<PlainState, AllocError>
    ensures { IfOk result (λ state. state ≡ state_of (A.meaning aggregator.now).part init (fired_moves events.now)) }
{
    let mut state = init;
    for event in events {
        if let Some(instructions) = event.fired_move() {
            fire_or_keep(alloc, aggregator, &mut state, instructions)?;
        }
    }
    Ok(state)
}

/// Return the state that the history of agents leaves.
///
/// It is the opening state, which is copied, with the history's moves fired in order. A move that clashes changes
/// nothing.
///
/// # Errors
///
/// - `AllocError` only if memory is refused.
pub fn replay_closing<A: Aggregator>(
    alloc: Global,
    aggregator: &A,
    closing: &Closing<'_>,
) -> Result<PlainState, AllocError>
    ensures { IfOk result (λ state. state ≡ state_of (A.meaning aggregator.now).part
        closing.now.init (fired_moves closing.now.events)) }
{
    let mut state = closing.init().copy(alloc)?;
    for number in 0..closing.len() {
        if let Some(instructions) = closing.fired_move(number) {
            fire_or_keep(alloc, aggregator, &mut state, instructions)?;
        }
    }
    Ok(state)
}

/// Return the state that a history leaves.
///
/// It is a copy of the opening state, with the history's moves fired in order. A move that clashes changes nothing.
///
/// # Errors
///
/// - `AllocError` only if memory is refused.
pub fn replay<A: Aggregator>(
    alloc: Global,
    aggregator: &A,
    history: &History,
) -> Result<PlainState, AllocError>
    ensures { IfOk result (λ state. state ≡ state_of (A.meaning aggregator.now).part
        history.now.init (fired_moves history.now.events)) }
{
    let init = history.init.copy(alloc)?;
    replay_over(alloc, aggregator, init, history.events.as_slice())
}

/// Open a storage that continues where a history ended.
///
/// It is for at most `capacity` moves, from 1 to 1,048,576. It opens with the state that the history's moves leave, and
/// its agents start again. What is then fired continues the history's run (`laws::run_continues`); its moves are numbered
/// from 1 again.
///
/// # Errors
///
/// - `StorageError::BadCapacity` exactly for another capacity, before any memory is asked for.
/// - `Memory` only if memory is refused.
pub fn next_storage<A: Aggregator + Sync + Drop>(
    alloc: Global,
    aggregator: A,
    history: &History,
    capacity: u32,
) -> Result<Storage<A>, StorageError>
    ensures aggregator { IfOk result (λ s. s.agg ≡ aggregator) }
    ensures machine { IfOk result (λ s. machine_of A.meaning s ≡ next_machine
        (history_machine (A.meaning aggregator).part history.now) history.now.events capacity) }
    ensures bad { IsErrOf result storage_error.BadCapacity ↔ IsNoCapacity capacity }
{
    if capacity == 0 || capacity > CAPACITY_LIMIT {
        return Err(StorageError::BadCapacity);
    }
    match replay(alloc, &aggregator, history) {
        Ok(init) => Storage::new(alloc, aggregator, init, capacity),
        Err(_) => Err(StorageError::Memory),
    }
}
