//! Whether a transaction stands: whether its commit would find it stale.
ghost use Rattle.std.specs.Prelude.{◌≡◌, List, length, Contains, IfOk, OnOk};
ghost use Rattle.std.specs.Option.{option_copied};
ghost use mathlib.Core.List.{IsPrefix};
ghost use Rattle.asm_update.specs.Fire.{Part};
ghost use Rattle.asm_update.specs.Move.{Move};
ghost use Rattle.asm_update.specs.State as plain;
ghost use Rattle.asm_state.specs.FollowsFrom.{FollowsFrom, is_stale};
ghost use Rattle.asm_storage.specs.Part.{IsFollowing};
ghost use Rattle.asm_storage.specs.Storage.{AgentAt, has_polled, last_poll, machine_of, IsSameAgent, IsUpToDate, Missed};
ghost use Rattle.asm_transaction.specs.Reading.{IsOf};
ghost use Rattle.asm_transaction.specs.Standing.{FindsWritten, IsOfOne, Stands};
ghost use Rattle.asm_transaction.specs.View.{names_of, places_of};

use crate::transaction::Transaction;
use asm_element::Location;
use asm_state::{Named, Scanned, State};
use asm_storage::Agent;
use asm_update::Aggregator;
use std::alloc::{AllocError, Global};

// Return whether a move above the number wrote the location.
fn is_written(state: &State, number: u32, at: &Location) -> bool
    ensures { (part : Part) (init : plain.State) (q : List Move) → FollowsFrom part init state.now q →
        result ≡ is_stale part init q at.now number }
{
    number < state.written_at(at)
}

// Return the first of the declared locations that a move above the number wrote.
fn first_written<'a>(state: &State, number: u32, reads: &'a [Named]) -> Option<&'a Location>
    ensures { (part : Part) (init : plain.State) (q : List Move) → FollowsFrom part init state.now q →
        FindsWritten part init q number (Contains (places_of reads.now)) (option_copied result) }
{
    for read in reads {
        if is_written(state, number, &read.at) {
            return Some(&read.at);
        }
    }
    None
}

// Return the smallest location of the first scanned function of which a move above the number wrote one.
fn first_written_in(
    alloc: Global,
    state: &State,
    number: u32,
    scans: &[Scanned],
) -> Result<Option<Location>, AllocError>
    ensures { (part : Part) (init : plain.State) (q : List Move) → FollowsFrom part init state.now q →
        IfOk result (FindsWritten part init q number (IsOfOne (names_of scans.now))) }
{
    for scan in scans {
        let found = state.least_written_in(alloc, scan.name.as_str(), number)?;
        match found {
            Some(at) => {
                return Ok(Some(at.copy(alloc)?));
            }
            None => {}
        }
    }
    Ok(None)
}

impl Transaction {
    /// Return a location on which its commit depends and that a move after its version wrote.
    ///
    /// The state is the agent's own, after all moves that the agent has seen.
    ///
    /// # Errors
    ///
    /// - `AllocError` only if memory is refused.
    pub fn overwritten_on<A: Aggregator>(
        &self,
        alloc: Global,
        state: &State,
    ) -> Result<Option<Location>, AllocError>
        ensures { IfOk result (λ found. (a b : AgentAt A) → IsOf A.meaning a self.now →
            IsFollowing (machine_of A.meaning b.storage) b.account.seen state.now →
            state.now.number ≡ length b.account.seen → Stands A.meaning b self.now found) }
    {
        let reads = self.reads(alloc)?;
        match first_written(state, self.number, reads.as_slice()) {
            Some(at) => Ok(Some(at.copy(alloc)?)),
            None => first_written_in(alloc, state, self.number, &self.scanned),
        }
    }

    /// Poll the row until no move is left, and follow; return a location on which the commit depends, if one was written.
    ///
    /// `None` means that no move after the transaction's version has written a location on which it depends, nor one of
    /// a function that it scanned. Else a commit would answer `Stale`. It fires nothing and adds no receipt. A commit may
    /// still be refused, by a move that comes in between. Until the agent's own state is at the transaction's version
    /// again, it reads nothing: another one is begun.
    ///
    /// # Errors
    ///
    /// - `AllocError` only if memory is refused; the agent may then have seen more.
    pub fn stands<A: Aggregator + Sync + Drop>(
        &self,
        alloc: Global,
        agent: &mut Agent<'_, A>,
    ) -> Result<Option<Location>, AllocError>
        ensures stands { IfOk result (λ found. IsOf A.meaning agent.old self.now → Stands A.meaning agent.new self.now found) }
        ensures same { IsSameAgent agent.old agent.new }
        ensures seen { IsPrefix agent.old.account.seen agent.new.account.seen }
        ensures missed { Missed agent.old (last_poll agent.new) agent.new }
        ensures polled { agent.new ≡ has_polled agent.old agent.new.account.seen agent.new.misses agent.new.number }
        ensures level { OnOk result (IsUpToDate agent.new) }
    {
        agent.follow(alloc)?;
        self.overwritten_on::<A>(alloc, agent.state())
    }
}
