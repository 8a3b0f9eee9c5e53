ghost use Rattle.std.specs.Prelude.{◌≡◌, ◌+◌, ◌≤◌, ℕ, All, length, Err, IfOk, IfErr};
ghost use Rattle.std.specs.List.Sorted.{IsStrictlyIncreasing};
ghost use mathlib.Core.List.{IsPrefix};
ghost use Rattle.asm_storage.specs.declared.error.CloseError.TheVariants.{Missing};
ghost use Rattle.asm_storage.specs.Agents.{ids, id_bound, merged, most_seen, IsAgent, NoneMissing, IsHistoryOf};
ghost use Rattle.asm_storage.specs.Closed.{IsClosed};
ghost use Rattle.asm_storage.specs.Storage.{machine_of, accounts, IsOf, IsMissing};

mod closing;
mod merging;
mod missing_moves;

use crate::agent::Agent;
use crate::close::merging::merge;
use crate::close::missing_moves::first_missing;
use crate::entry::Entry;
use crate::error::CloseError;
use crate::history::History;
use crate::storage::Storage;
use asm_row::Seat;
use asm_update::Aggregator;
pub use closing::Closing;
use std::alloc::{AllocError, Global};

// One more than the greatest of the agents' numbers, or 0.
fn bound_of_ids<A: Aggregator + Sync + Drop>(agents: &[Agent<'_, A>]) -> u32
    ensures { result ≡ id_bound (accounts agents.now) }
{
    let mut bound = 0;
    for agent in agents {
        bound = bound.max(agent.id() + 1);
    }
    bound
}

impl<A: Aggregator + Sync + Drop> Storage<A> {
    // A seat that has seen what each of the agents has.
    fn seat_of_all(
        &self,
        alloc: Global,
        agents: &[Agent<'_, A>],
    ) -> Result<Seat<'_, Entry>, AllocError>
        requires { All (IsOf self.now) agents.now }
        ensures each { IfOk result (λ s. All (IsAgent (machine_of A.meaning self.now)) (accounts agents.now)) }
        ensures prefixes { IfOk result (λ s. All (λ a. IsPrefix a.seen s.seen) (accounts agents.now)) }
        ensures longest { IfOk result (λ s. length s.seen ≡ most_seen (accounts agents.now)) }
    {
        let mut seat = self.row().seat(alloc)?;
        for agent in agents {
            seat.learn(&agent.mark(alloc)?);
        }
        Ok(seat)
    }

    /// Return the history of agents, as `close` does, with its events made on request.
    ///
    /// It holds only references to the agents' receipts and their order. Its requirements on the agents are those of
    /// `close`.
    ///
    /// # Errors
    ///
    /// - Those of `close`.
    pub fn closing<'a>(
        &'a self,
        alloc: Global,
        agents: &'a [Agent<'_, A>],
    ) -> Result<Closing<'a>, CloseError>
        requires of_this { All (IsOf self.now) agents.now }
        requires ascending { IsStrictlyIncreasing (ids (accounts agents.now)) }
        ensures closed { IfOk result (IsClosed A.meaning self.now agents.now) }
        ensures missing { IfErr result (IsMissing (accounts agents.now)) }
        ensures within { (number : ℕ) → result ≡ Err (Missing number) →
            (1 ≤ number) × (number ≤ most_seen (accounts agents.now)) }
    {
        let seat = self.seat_of_all(alloc, agents)?;
        match first_missing(alloc, agents, seat.seen_len())? {
            Some(k) => return Err(CloseError::Missing(k + 1)),
            None => {}
        }
        let receipts = merge(alloc, agents)?;
        Ok(Closing::of(
            self.init(),
            self.row().capacity(),
            bound_of_ids(agents),
            receipts,
        ))
    }

    /// Close the receipts of agents into one history: that of a sequential storage.
    ///
    /// The agents must be of this storage, in strictly ascending order of their numbers; there may be none. They are
    /// only lent, so no call of theirs is under way. The history has the opening state and the capacity of the storage
    /// and one more than the greatest number of an agent, or 0. Its events are ordered by the number of moves at which
    /// they were answered: for each number those that fired nothing, agent by agent, and then the move with the next
    /// number. It is legal, has each agent's calls once and in their order, and its fired moves are a run of the
    /// machine. The agents are unchanged, and the call may be made again. That it adds no move to the row is tested, as
    /// contracts don't cover its cells.
    ///
    /// # Errors
    ///
    /// - `CloseError::Missing` exactly if one of the agents has seen a move of which none has a receipt, apart from
    ///   `Memory`; with the smallest number of such a move.
    /// - `Memory` only if memory is refused.
    pub fn close(&self, alloc: Global, agents: &[Agent<'_, A>]) -> Result<History, CloseError>
        requires of_this { All (IsOf self.now) agents.now }
        requires ascending { IsStrictlyIncreasing (ids (accounts agents.now)) }
        ensures merged { IfOk result (λ h. h.events ≡ merged (accounts agents.now)) }
        ensures history { IfOk result (λ h.
            IsHistoryOf (machine_of A.meaning self.now) (accounts agents.now) h.events) }
        ensures init { IfOk result (λ h. h.init ≡ self.now.init) }
        ensures capacity { IfOk result (λ h. h.capacity ≡ length self.now.row) }
        ensures agents { IfOk result (λ h. h.agents ≡ id_bound (accounts agents.now)) }
        ensures none_missing { IfOk result (λ h. NoneMissing (accounts agents.now)) }
        ensures missing { IfErr result (IsMissing (accounts agents.now)) }
        ensures within { (number : ℕ) → result ≡ Err (Missing number) →
            (1 ≤ number) × (number ≤ most_seen (accounts agents.now)) }
    {
        let closing = self.closing(alloc, agents)?;
        Ok(closing.history(alloc)?)
    }
}
