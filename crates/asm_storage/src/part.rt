ghost use Rattle.std.specs.Prelude.{◌≡◌, ◌<◌, ◌≤◌, length, max, IfOk, OnOk};
ghost use mathlib.Core.List.{IsPrefix};
ghost use Rattle.asm_storage.specs.Storage.{at_start, has_seen, last_poll, Missed};
ghost use Rattle.asm_storage.specs.Limits.{agents_limit};
ghost use Rattle.asm_storage.specs.Part.{agent_of, IsPartOf, HasPolledRow};
ghost use Rattle.asm_storage.specs.Taken.{HasTaken};

mod fire;
mod judging;
pub(crate) mod offering;
mod read;
mod scanning;
mod turns;

use crate::agent::Mark;
use crate::entry::Entry;
use crate::receipt::Receipt;
use crate::storage::Storage;
use asm_row::Progress;
use asm_state::State;
use asm_update::Aggregator;
use std::alloc::{AllocError, Global};
use std::mem;

/// An agent without its borrow of the storage.
///
/// It has the agent's number, how far it has followed the row, its own state, which may lag behind what was seen, and
/// its receipts. It borrows nothing, so one value may hold it beside an owner of the storage. To call the agent, its
/// owner passes the part to `Agent::of` with the storage that it came from, and takes it out again by
/// `Agent::into_part`.
#[derive(Drop)]
pub struct AgentPart {
    pub(crate) id: u32,
    pub(crate) progress: Progress<Entry>,
    pub(crate) state: State,
    pub(crate) receipts: Vec<Receipt>,
}

impl AgentPart {
    /// Return the agent's number, below 256.
    pub fn id(&self) -> u32
        ensures { result ≡ self.now.id }
    {
        self.id
    }

    /// Return how many moves the agent has seen.
    pub fn seen(&self) -> u32
        ensures { result ≡ length self.now.progress.seen }
    {
        self.progress.seen_len()
    }

    /// Return how many of its attempts to append won.
    pub fn won(&self) -> u32
        ensures { result ≡ self.now.progress.won }
    {
        self.progress.won()
    }

    /// Return how many of its polls found an empty cell.
    pub fn misses(&self) -> u64
        ensures { result ≡ self.now.progress.misses }
    {
        self.progress.misses()
    }

    /// Return the agent's state: that after the first of the moves that it has seen.
    ///
    /// It may lag behind.
    pub fn state(&self) -> &State
        ensures { result.now ≡ self.now.state }
    {
        &self.state
    }

    /// Return the part of an agent of the storage that has made no call.
    pub(crate) fn at_start<A: Aggregator + Sync + Drop>(
        alloc: Global,
        storage: &Storage<A>,
        id: u32,
    ) -> Result<AgentPart, AllocError>
        requires { id < agents_limit }
        ensures agent { IfOk result (λ p. agent_of storage.now p ≡ at_start storage.now id) }
        ensures part { IfOk result (IsPartOf A.meaning storage.now) }
    {
        let progress = storage.row().progress();
        let state = storage.opening(alloc)?;
        Ok(AgentPart {
            id,
            progress,
            state,
            receipts: Vec::new(alloc),
        })
    }

    // Polls until no move is left, or the whole row is seen.
    pub(crate) fn poll<A: Aggregator + Sync + Drop>(&mut self, storage: &Storage<A>)
        requires { IsPartOf A.meaning storage.now self.old }
        ensures polls { HasPolledRow A.meaning storage.now self.old self.new }
        ensures missed { Missed (agent_of storage.now self.old) (last_poll (agent_of storage.now self.new))
            (agent_of storage.now self.new) }
        ensures state { self.new.state ≡ self.old.state }
    {
        while storage.finds_next(&mut self.progress) {}
    }

    // The state follows all that was seen.
    fn catch_up<A: Aggregator + Sync + Drop>(
        &mut self,
        alloc: Global,
        storage: &Storage<A>,
    ) -> Result<(), AllocError>
        requires { IsPartOf A.meaning storage.now self.old }
        ensures part { IsPartOf A.meaning storage.now self.new }
        ensures kept { self.new ≡ record self.old { state = self.new.state } }
        ensures onward { self.old.state.number ≤ self.new.state.number }
        ensures level { OnOk result (self.new.state.number ≡ length self.new.progress.seen) }
    {
        while self.state.number() < self.progress.seen_len() {
            let entry = self.progress.at(storage.row(), self.state.number());
            self.state
                .follow(alloc, storage.aggregator(), &entry.instrs)?;
        }
        Ok(())
    }

    /// Poll on, and have the state follow all that was seen.
    pub(crate) fn follow_row<A: Aggregator + Sync + Drop>(
        &mut self,
        alloc: Global,
        storage: &Storage<A>,
    ) -> Result<(), AllocError>
        requires { IsPartOf A.meaning storage.now self.old }
        ensures polls { HasPolledRow A.meaning storage.now self.old self.new }
        ensures missed { Missed (agent_of storage.now self.old) (last_poll (agent_of storage.now self.new))
            (agent_of storage.now self.new) }
        ensures level { OnOk result (self.new.state.number ≡ length self.new.progress.seen) }
    {
        self.poll(storage);
        self.catch_up(alloc, storage)
    }

    /// Poll the row until no move is left, and follow, as `Agent::follow` does.
    ///
    /// The part came from this storage. The answer is the number of moves that the state has then followed.
    ///
    /// # Errors
    ///
    /// - `AllocError` only if memory is refused; it may then have seen more, and the state may lag behind.
    pub fn follow<A: Aggregator + Sync + Drop>(
        &mut self,
        alloc: Global,
        storage: &Storage<A>,
    ) -> Result<u32, AllocError>
        requires { IsPartOf A.meaning storage.now self.old }
        ensures polls { HasPolledRow A.meaning storage.now self.old self.new }
        ensures missed { Missed (agent_of storage.now self.old) (last_poll (agent_of storage.now self.new))
            (agent_of storage.now self.new) }
        ensures number { IfOk result (λ n. n ≡ self.new.state.number) }
        ensures level { IfOk result (λ n. n ≡ length self.new.progress.seen) }
    {
        self.follow_row(alloc, storage)?;
        Ok(self.progress.seen_len())
    }

    /// Learn the moves of the mark that come after those already seen.
    pub(crate) fn learn<A: Aggregator + Sync + Drop>(&mut self, storage: &Storage<A>, mark: &Mark)
        requires part { IsPartOf A.meaning storage.now self.old }
        requires mark { mark.now.row ≡ storage.now.row }
        ensures part { IsPartOf A.meaning storage.now self.new }
        ensures kept { agent_of storage.now self.new ≡ has_seen (agent_of storage.now self.old) self.new.progress.seen }
        ensures mine { IsPrefix self.old.progress.seen self.new.progress.seen }
        ensures theirs { IsPrefix mark.now.seen self.new.progress.seen }
        ensures longest { length self.new.progress.seen ≡ max (length self.old.progress.seen) (length mark.now.seen) }
    {
        self.progress.learn(mark);
    }

    /// Learn what another agent has seen, and take its newer state.
    ///
    /// It does what `Agent::take_state` does. Both parts came from this storage.
    pub fn take_state<A: Aggregator + Sync + Drop>(
        &mut self,
        storage: &Storage<A>,
        other: &mut AgentPart,
    )
        requires part { IsPartOf A.meaning storage.now self.old }
        requires other { IsPartOf A.meaning storage.now other.old }
        ensures part { IsPartOf A.meaning storage.now self.new }
        ensures other { IsPartOf A.meaning storage.now other.new }
        ensures taken { HasTaken (agent_of storage.now self.old) (agent_of storage.now other.old)
            (agent_of storage.now self.new) (agent_of storage.now other.new) }
    {
        self.progress.learn_from(&other.progress);
        if self.state.number() < other.state.number() {
            mem::swap(&mut self.state, &mut other.state);
        }
    }
}
