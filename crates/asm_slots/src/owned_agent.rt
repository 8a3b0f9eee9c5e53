//! An agent that owns a share of its storage and borrows nothing, and its calls.
#![tactic(auto, unfolding(asm_aggregate::specs::Standard::standard_meaning))]

ghost use Rattle.std.specs.Prelude.{◌≡◌, ◌↔◌, ◌<◌, ◌≤◌, ◌+◌, length, map, option_map, string_bytes};
ghost use Rattle.std.specs.Prelude.{IfOk, OnOk, OnErr, IfErr, IsErrOf, MatchResult, nat_lt};
ghost use Rattle.std.specs.List.{list_any};
ghost use Rattle.std_alloc.specs.Arc.{arc_value};
ghost use Rattle.asm_storage.specs.Limits.{agents_limit, reads_limit};
ghost use Rattle.asm_storage.specs.declared.error.FireError.TheVariants.{ManyReads};
ghost use Rattle.asm_storage.specs.declared.error.ReadError.TheVariants.{ManyLocations};
ghost use Rattle.asm_storage.specs.Part.{IsFollowing};
ghost use Rattle.asm_storage.specs.Storage.{at_start, last_poll, machine_of, IsSameAgent, Missed};
ghost use Rattle.asm_storage.specs.Calls.{HasPolledFor, IsReplied, IsCoherentReply, IsRead};
ghost use Rattle.asm_storage.specs.Calls.{IsStaleRead};
ghost use Rattle.asm_storage.specs.Taken.{HasTaken};
ghost use Rattle.asm_slots.specs.Standard.{meaning};
ghost use Rattle.asm_slots.specs.AgentAnswers.{IsLongOwnRead, is_any_over, is_any_above};
ghost use Rattle.asm_slots.specs.LongLines.{LongOr};
ghost use Rattle.asm_slots.specs.OwnState.{HasPolledOn};
ghost use Rattle.asm_slots.specs.AgentCalls.{HasAnswered, HasLearnt, HasPolled, IsLastText, IsRepliedOver, SeesOn};

use crate::codes::Code;
use crate::line_room::HasPlace;
use crate::long_lines::expect_read;
use crate::shared::Shared;
use asm_aggregate::Standard;
use asm_element::{Items, Location};
use asm_journal::answer_text;
use asm_state::{Named, Scanned, State};
use asm_storage::{Agent, AgentPart, FireError, Mark, ReadError, Reading, Reply};
use asm_transaction::Transaction;
use asm_update::Instructions;
use std::alloc::{AllocError, Global};
use std::marker::Model;
use std::sync::Arc;

/// A share of a storage, and the part of one of its agents, with the memory of its last step.
#[derive(Drop)]
pub struct OwnedAgent {
    pub(crate) shared: Arc<Shared>,
    pub(crate) part: AgentPart,
    // Empty: the next step begins in its memory.
    pub(crate) spare: Transaction,
}

impl Model for OwnedAgent {
    ghost use Rattle.std_alloc.specs.Arc.{arc_value};
    ghost use Rattle.asm_aggregate.specs.contracts.pair.Pair.{the_row as pair_row};
    ghost use Rattle.asm_aggregate.specs.contracts.set_agg.SetAgg.{the_row as set_row};
    ghost use Rattle.asm_aggregate.specs.contracts.bag_agg.BagAgg.{the_row as bag_row};
    ghost use Rattle.asm_aggregate.specs.contracts.count_agg.CountAgg.{the_row as count_row};
    ghost use Rattle.asm_update.specs.contracts.plain_state.PlainState.{the_row as state_row};
    ghost use Rattle.asm_storage.specs.contracts.entry.Entry.{the_row as entry_row};
    ghost use Rattle.asm_storage.specs.contracts.receipt.Receipt.{the_row as receipt_row};
    ghost use Rattle.asm_storage.specs.Agents.{account_code};
    ghost use Rattle.asm_storage.specs.Part.{agent_of, IsPartOf};
    ghost use Rattle.asm_storage.specs.Storage.{AgentAt, storage_code, agent_code};
    ghost use Rattle.asm_slots.specs.Standard.{Standard, meaning};

    ghost Value = { AgentAt Standard };

    ghost coded = { agent_code
        (storage_code (pair_row (pair_row set_row bag_row) count_row).coded state_row.coded)
        (account_code entry_row.coded receipt_row.coded) };

    ghost view = { λ p. agent_of (arc_value p.shared).storage p.part };

    ghost invariant = { λ p. IsPartOf meaning (arc_value p.shared).storage p.part };
}

impl OwnedAgent {
    /// Return an agent of the storage with this number, which has made no call.
    pub(crate) fn at_start(
        alloc: Global,
        shared: &Arc<Shared>,
        id: u32,
    ) -> Result<OwnedAgent, AllocError>
        requires { id < agents_limit }
        ensures { IfOk result (λ p. p ≡ at_start (arc_value shared.now).storage id) }
    {
        let shared = Arc::try_clone(shared)?;
        let agent = shared.storage.agent_at(alloc, id)?;
        let part = agent.into_part();
        let spare = Transaction::empty(alloc);
        Ok(OwnedAgent {
            shared,
            part,
            spare,
        })
    }

    /// Return the share of the storage.
    pub fn shared(&self) -> &Arc<Shared>
        ensures { (arc_value result.now).storage ≡ self.now.storage }
    {
        &self.shared
    }

    /// Return how many moves its storage has room for.
    pub(crate) fn capacity(&self) -> u32
        ensures { result ≡ length self.now.storage.row }
    {
        self.shared.capacity()
    }

    /// Read the locations.
    pub(crate) fn read(
        self,
        alloc: Global,
        locations: &[Location],
    ) -> (OwnedAgent, Result<Reading, ReadError>)
        ensures same { IsSameAgent self result.0 }
        ensures answered { IfOk result.1 (IsRead meaning self result.0 locations.now) }
        ensures polled { OnOk result.1 (Missed self (last_poll result.0) result.0) }
        ensures seen { SeesOn self result.0 }
        ensures refused { OnErr result.1 (HasPolled self result.0) }
        ensures unread { IfErr result.1 (HasPolledFor self result.0) }
        ensures many { IsErrOf result.1 ManyLocations ↔ (reads_limit < length locations.now) }
    {
        let OwnedAgent {
            shared,
            part,
            spare,
        } = self;
        let mut agent = Agent::of(&shared.storage, part);
        let answer = agent.read(alloc, locations);
        let part = agent.into_part();
        (
            OwnedAgent {
                shared,
                part,
                spare,
            },
            answer,
        )
    }

    /// Fire the move.
    pub(crate) fn fire(
        &mut self,
        alloc: Global,
        reads: Items<Named>,
        instrs: Instructions,
    ) -> Result<Reply, FireError>
        ensures answered { HasAnswered result self.old self.new }
        ensures replied { IfOk result (IsReplied meaning self.old self.new reads instrs) }
        ensures coherent { IfOk result (IsCoherentReply meaning self.new reads instrs) }
        ensures many { IsErrOf result ManyReads ↔ (reads_limit < length reads) }
    {
        self.part.try_fire_owned(alloc, &self.shared.storage, reads, &[], instrs, &mut || {})
    }

    /// Fire the move, so that it depends on the scanned functions too.
    pub(crate) fn fire_over(
        &mut self,
        alloc: Global,
        reads: Items<Named>,
        scans: &[Scanned],
        instrs: Instructions,
    ) -> Result<Reply, FireError>
        ensures answered { HasAnswered result self.old self.new }
        ensures replied { IfOk result (IsRepliedOver self.old self.new reads scans.now instrs) }
        ensures many { IsErrOf result ManyReads ↔ (reads_limit < length reads + length scans.now) }
    {
        self.part.try_fire_owned(
            alloc,
            &self.shared.storage,
            reads,
            scans,
            instrs,
            &mut || {},
        )
    }

    /// Return its storage's aggregator.
    pub(crate) fn aggregator(&self) -> &Standard
        ensures { result.now ≡ self.now.storage.agg }
    {
        self.shared.storage.aggregator()
    }

    /// Return its own state.
    pub(crate) fn state(&self) -> &State
        ensures following { IsFollowing (machine_of meaning self.now.storage) self.now.account.seen result.now }
        ensures within { result.now.number ≤ length self.now.account.seen }
        ensures number { result.now.number ≡ self.now.number }
    {
        self.part.state()
    }

    /// Refuse a read whose line would be too long, with the values in its own state.
    pub(crate) fn expect_read<P: HasPlace>(&self, alloc: Global, places: &[P]) -> Result<(), Code>
        ensures { MatchResult result (λ done. ¬ IsLongOwnRead (map P.place_of places.now) self.now)
            (LongOr (IsLongOwnRead (map P.place_of places.now) self.now)) }
    {
        expect_read(alloc, self.state(), places)
    }

    /// Poll the row until no move is left, and follow; return how many it has seen.
    ///
    /// # Errors
    ///
    /// - `AllocError` only if memory is refused.
    pub fn follow(&mut self, alloc: Global) -> Result<u32, AllocError>
        ensures same { IsSameAgent self.old self.new }
        ensures polled { HasPolledOn self.old self.new }
        ensures seen { SeesOn self.old self.new }
        ensures number { IfOk result (λ n. n ≡ length self.new.account.seen) }
        ensures stands { IfOk result (λ n. n ≡ self.new.number) }
    {
        self.part.follow(alloc, &self.shared.storage)
    }

    /// Poll, and return the smallest stale location of the declared reads, if any.
    pub(crate) fn stale_of(
        self,
        alloc: Global,
        reads: &[Named],
    ) -> (OwnedAgent, Result<Option<Location>, ReadError>)
        ensures same { IsSameAgent self result.0 }
        ensures stale { IfOk result.1 (IsStaleRead meaning result.0 reads.now) }
        ensures polled { OnOk result.1 (HasPolledOn self result.0) }
        ensures seen { SeesOn self result.0 }
        ensures kept { HasPolled self result.0 }
        ensures unread { IfErr result.1 (HasPolledFor self result.0) }
        ensures many { IsErrOf result.1 ManyLocations ↔ (reads_limit < length reads.now) }
    {
        let OwnedAgent {
            shared,
            part,
            spare,
        } = self;
        let mut agent = Agent::of(&shared.storage, part);
        let stale = agent.stands(alloc, reads);
        let part = agent.into_part();
        (
            OwnedAgent {
                shared,
                part,
                spare,
            },
            stale,
        )
    }

    /// Return its number, below 256.
    pub(crate) fn id(&self) -> u32
        ensures id { result ≡ self.now.account.id }
        ensures few { result < agents_limit }
    {
        self.part.id()
    }

    /// Return how many moves it has seen.
    pub fn seen(&self) -> u32
        ensures { result ≡ length self.now.account.seen }
    {
        self.part.seen()
    }

    /// Return whether one of the reads has a number above what it has seen.
    pub(crate) fn is_behind(&self, reads: &[Named]) -> bool
        ensures { result ≡ is_any_above reads.now (length self.now.account.seen) }
    {
        has_above(reads, self.seen())
    }

    /// Return whether a read or a scan has a number above what it has seen.
    pub(crate) fn is_behind_over(&self, reads: &[Named], scans: &[Scanned]) -> bool
        ensures { result ≡ is_any_over reads.now scans.now (length self.now.account.seen) }
    {
        self.is_behind(reads) || has_later(scans, self.seen())
    }

    /// Return how many of its attempts to append won.
    pub fn won(&self) -> u32
        ensures { result ≡ self.now.account.won }
    {
        self.part.won()
    }

    /// Return how many of its polls found an empty cell.
    pub fn misses(&self) -> u64
        ensures { result ≡ self.now.misses }
    {
        self.part.misses()
    }

    /// Return a mark of what it has seen.
    pub fn mark(self, alloc: Global) -> (OwnedAgent, Mark)
        ensures same { result.0 ≡ self }
        ensures mark { result.1 ≡ record { row = self.storage.row; seen = self.account.seen } }
    {
        let OwnedAgent {
            shared,
            part,
            spare,
        } = self;
        let agent = Agent::of(&shared.storage, part);
        let mark = agent.mark(alloc).unwrap();
        let part = agent.into_part();
        (
            OwnedAgent {
                shared,
                part,
                spare,
            },
            mark,
        )
    }

    /// Learn what the mark holds.
    pub fn learn(self, alloc: Global, mark: &Mark) -> OwnedAgent
        requires { mark.now.row ≡ self.storage.row }
        ensures { HasLearnt mark.now.seen self result }
    {
        let OwnedAgent {
            shared,
            part,
            spare,
        } = self;
        let mut agent = Agent::of(&shared.storage, part);
        agent.learn(alloc, mark).unwrap();
        let part = agent.into_part();
        OwnedAgent {
            shared,
            part,
            spare,
        }
    }

    /// Learn what another agent of the storage has seen, and take its newer state.
    ///
    /// If the other's state is ahead, the two exchange their states.
    pub fn take_state(&mut self, other: &mut OwnedAgent)
        requires { other.old.storage ≡ self.old.storage }
        ensures { HasTaken self.old other.old self.new other.new }
    {
        self.part.take_state(&self.shared.storage, &mut other.part);
    }

    /// Return the text of the answer to its last answered call.
    ///
    /// `None` means that it has answered no call.
    ///
    /// # Errors
    ///
    /// - `AllocError` only if memory is refused.
    pub fn answer(self, alloc: Global) -> (OwnedAgent, Result<Option<String>, AllocError>)
        ensures same { result.0 ≡ self }
        ensures reported { IfOk result.1 (λ o. IsLastText self (option_map string_bytes o)) }
    {
        let OwnedAgent {
            shared,
            part,
            spare,
        } = self;
        let agent = Agent::of(&shared.storage, part);
        let answer = last_answer(alloc, &agent);
        let part = agent.into_part();
        (
            OwnedAgent {
                shared,
                part,
                spare,
            },
            answer,
        )
    }
}

// Return whether one of the reads has a number above this one.
fn has_above(reads: &[Named], seen: u32) -> bool
    ensures { result ≡ is_any_above reads.now seen }
{
    reads.iter().any(|read| seen < read.number)
}

// Return whether one of the scans has a number above this one.
fn has_later(scans: &[Scanned], seen: u32) -> bool
    ensures { result ≡ list_any (λ s. nat_lt seen s.number) scans.now }
{
    scans.iter().any(|scan| seen < scan.number)
}

fn last_answer(alloc: Global, agent: &Agent<'_, Standard>) -> Result<Option<String>, AllocError>
    ensures { IfOk result (λ o. IsLastText agent.now (option_map string_bytes o)) }
{
    match agent.receipts().last() {
        Some(receipt) => Ok(Some(answer_text(alloc, &receipt.answer)?)),
        None => Ok(None),
    }
}
