ghost use Rattle.std.specs.Prelude.{◌≡◌, ◌+◌, ◌-◌, ◌^◌, ◌<◌, ◌≤◌, ◌↔◌, ◌⊎◌, [], ◌∷◌, ◌++◌, map, length, min, nat_lt};
ghost use Rattle.std.specs.Prelude.{if◌then◌else◌, IfOk, IsErrOf};
ghost use Rattle.std.specs.Arc.{arc_value};
ghost use Rattle.std.specs.Bool.{OnTrue, OnFalse};
ghost use Rattle.std.specs.List.{range_with_len};
ghost use Rattle.asm_storage.specs.declared.error.StorageError.TheVariants as storage_error;
ghost use Rattle.asm_storage.specs.declared.error.AgentsError.TheVariants as agents_error;
ghost use Rattle.asm_row.specs.Limits.{IsNoCapacity};
ghost use Rattle.asm_update.specs.Fire.{Part};
ghost use Rattle.asm_state.specs.FollowsFrom.{FollowsFrom};
ghost use Rattle.asm_storage.specs.declared.entry.Entry.{Entry};
ghost use Rattle.asm_storage.specs.Limits.{agents_limit};
ghost use Rattle.asm_storage.specs.Storage.{at_start};

use crate::agent::Agent;
use crate::entry::Entry;
use crate::error::{AgentsError, StorageError};
use crate::limits::AGENTS_LIMIT;
use crate::part::AgentPart;
use asm_row::{Progress, Row, RowError};
use asm_state::State;
use asm_update::{Aggregator, PlainState};
use std::alloc::{AllocError, Global};
use std::marker::Model;
use std::sync::Arc;

/// A state that agents share: an aggregator, an opening state and a row for moves.
///
/// It is the shared object of a universal construction (Herlihy and Shavit, "The Art of Multiprocessor Programming"):
/// threads agree on the list of moves, and each agent follows that list with a state of its own, beside the opening
/// state, which all share. Contracts see the cells of the row, the aggregator and the opening state. It is `Sync` if
/// the aggregator is, and no call of it or of its agents waits.
#[derive(Drop)]
pub struct Storage<A: Aggregator + Sync + Drop> {
    row: Row<Entry>,
    aggregator: A,
    // The states of the agents share it.
    init: Arc<PlainState>,
}

impl<A: Aggregator + Sync + Drop> Model for Storage<A> {
    ghost use Rattle.std.specs.Arc.{arc_value};
    ghost use Rattle.asm_update.specs.contracts.plain_state.PlainState.{the_row as state_row};
    ghost use Rattle.asm_storage.specs.Storage.{StorageView, storage_code};

    ghost Value = { StorageView A };

    ghost coded = { storage_code A.code state_row.coded };

    ghost view = { λ s. record { row = s.row; agg = s.aggregator; init = arc_value s.init } };
}

// A row for so many moves.
fn new_row(alloc: Global, capacity: u32) -> Result<Row<Entry>, StorageError>
    ensures capacity { IfOk result (λ r. length r ≡ capacity) }
    ensures bad { IsErrOf result storage_error.BadCapacity ↔ IsNoCapacity capacity }
{
    match Row::new(alloc, capacity) {
        Ok(row) => Ok(row),
        Err(RowError::BadCapacity) => Err(StorageError::BadCapacity),
        Err(RowError::Memory) => Err(StorageError::Memory),
    }
}

impl<A: Aggregator + Sync + Drop> Storage<A> {
    /// Return a storage for at most `capacity` moves, from 1 to 1,048,576.
    ///
    /// Its row is empty, which is tested, as contracts don't cover its cells.
    ///
    /// # Errors
    ///
    /// - `StorageError::BadCapacity` exactly for another capacity, before any memory is asked for.
    /// - `Memory` only if memory is refused.
    pub fn new(
        alloc: Global,
        aggregator: A,
        init: PlainState,
        capacity: u32,
    ) -> Result<Storage<A>, StorageError>
        ensures aggregator { IfOk result (λ s. s.agg ≡ aggregator) }
        ensures init { IfOk result (λ s. s.init ≡ init) }
        ensures capacity { IfOk result (λ s. length s.row ≡ capacity) }
        ensures bad { IsErrOf result storage_error.BadCapacity ↔ IsNoCapacity capacity }
    {
        let row = new_row(alloc, capacity)?;
        let init = match Arc::new(alloc, init) {
            Ok(init) => init,
            Err(_) => return Err(StorageError::Memory),
        };
        Ok(Storage {
            row,
            aggregator,
            init,
        })
    }

    /// Return a storage as `new` does, over an opening state that the caller shares.
    ///
    /// No value is copied, so a state that was read once may open several storages.
    ///
    /// # Errors
    ///
    /// - Those of `new`.
    pub fn over(
        alloc: Global,
        aggregator: A,
        init: Arc<PlainState>,
        capacity: u32,
    ) -> Result<Storage<A>, StorageError>
        ensures aggregator { IfOk result (λ s. s.agg ≡ aggregator) }
        ensures init { IfOk result (λ s. s.init ≡ arc_value init) }
        ensures capacity { IfOk result (λ s. length s.row ≡ capacity) }
        ensures bad { IsErrOf result storage_error.BadCapacity ↔ IsNoCapacity capacity }
    {
        let row = new_row(alloc, capacity)?;
        Ok(Storage {
            row,
            aggregator,
            init,
        })
    }

    /// `n` agents, from 1 to 256, with the numbers 0 to n − 1.
    ///
    /// They have seen nothing and have no receipts. A second call numbers from 0 again. That the call adds no move
    /// to the row is tested.
    ///
    /// # Errors
    ///
    /// - `AgentsError::BadAgents` exactly for another number, before any memory is asked for.
    /// - `Memory` only if memory is refused.
    pub fn agents(&self, alloc: Global, n: u32) -> Result<Vec<Agent<'_, A>>, AgentsError>
        ensures made { IfOk result (λ agents. agents.items ≡ map (at_start self.now) (range_with_len 0 n)) }
        ensures bad { IsErrOf result agents_error.BadAgents ↔ ((n ≡ 0) ⊎ (agents_limit < n)) }
    {
        if n == 0 || n > AGENTS_LIMIT {
            return Err(AgentsError::BadAgents);
        }
        let mut agents = Vec::new(alloc);
        for id in 0..n {
            let agent = self.agent_at(alloc, id)?;
            agents.push(agent)?;
        }
        Ok(agents)
    }

    /// Return a new agent with the number `id`, below 256.
    ///
    /// Agents that are closed together must have different numbers. That the call adds no move to the row is
    /// tested.
    ///
    /// # Errors
    ///
    /// - `AllocError` only if memory is refused.
    pub fn agent_at(&self, alloc: Global, id: u32) -> Result<Agent<'_, A>, AllocError>
        requires { id < agents_limit }
        ensures { IfOk result (λ a. a ≡ at_start self.now id) }
    {
        let part = AgentPart::at_start(alloc, self, id)?;
        Ok(Agent::of(self, part))
    }

    /// Look once at the row; true where an entry was found.
    pub(crate) fn finds_next(&self, progress: &mut Progress<Entry>) -> bool
        requires { progress.old.row ≡ self.now.row }
        ensures row { progress.new.row ≡ progress.old.row }
        ensures within { length progress.new.seen ≤ length self.now.row }
        ensures found { OnTrue result ((entry : Entry) ×
            (progress.new ≡ record progress.old { seen = progress.old.seen ++ entry ∷ [] })) }
        ensures none { OnFalse result (progress.new ≡
            (if nat_lt (length progress.old.seen) (length self.now.row)
            then record progress.old { misses = min (progress.old.misses + 1) (2 ^ 64 - 1) } else progress.old)) }
    {
        if progress.is_full() {
            return false;
        }
        progress.next(&self.row).is_some()
    }

    /// Count the moves in its row: poll from the first one on until no move is left.
    ///
    /// It takes no memory, and no agent notices it. A caller who holds only agents can't know of a move that none of
    /// them has seen. Agents may fire more meanwhile. Contracts don't cover the cells of the row. It is tested that the
    /// call counts all moves that were fired before it, so at least as many as any agent has seen.
    pub fn moves(&self) -> u32
        ensures { result ≤ length self.now.row }
    {
        let mut progress = self.row.progress();
        while self.finds_next(&mut progress) {}
        progress.seen_len()
    }

    pub(crate) fn row(&self) -> &Row<Entry>
        ensures { result.now ≡ self.now.row }
    {
        &self.row
    }

    /// Return the aggregator by which it answers.
    ///
    /// A caller who prepares moves uses the same one.
    pub fn aggregator(&self) -> &A
        ensures { result.now ≡ self.now.agg }
    {
        &self.aggregator
    }

    pub(crate) fn init(&self) -> &PlainState
        ensures { result.now ≡ self.now.init }
    {
        &self.init
    }

    /// Return a state before the first move, which shares the opening values.
    pub(crate) fn opening(&self, alloc: Global) -> Result<State, AllocError>
        ensures { IfOk result (λ s. (part : Part) → FollowsFrom part self.now.init s []) }
    {
        let init = Arc::try_clone(&self.init)?;
        Ok(State::over(alloc, init))
    }
}
