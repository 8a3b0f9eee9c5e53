//! Committing a transaction.
ghost use Rattle.std.specs.Prelude.{◌≡◌, [], unwrap_or, IfOk, OnErr};
ghost use mathlib.Core.List.{IsPrefix};
ghost use Rattle.asm_update.specs.Aggregator.{AggregatorLaws};
ghost use Rattle.asm_step.specs.Layers.{one_move};
ghost use Rattle.asm_storage.specs.Storage.{has_polled, IsSameAgent};
ghost use Rattle.asm_transaction.specs.Commit.{Commits, FiresOnce, IsMoveOf, IsPreview, NamesAll};
ghost use Rattle.asm_transaction.specs.Reading.{IsOf};

use crate::transaction::Transaction;
use asm_element::Items;
use asm_state::Named;
use asm_storage::{Agent, Call, FireError, Reply};
use asm_update::{Aggregator, Instructions};
use std::alloc::{AllocError, Global};

// State for proofs that an aggregator keeps the laws; do nothing at run time.
//
// Proof: a function that may wait, as a fire is one to the prover, doesn't know the laws of its bound.
pub(crate) fn keeps_laws<A: Aggregator>()
    ensures { (a : A) → AggregatorLaws (A.meaning a) }
{}

// Fire the transaction's one move with all reads that its commit declares, and with all its scans.
pub(crate) fn fire_prepared<A: Aggregator + Sync + Drop>(
    alloc: Global,
    agent: &mut Agent<'_, A>,
    transaction: &Transaction,
    instrs: &Instructions,
    reads: &[Named],
) -> Result<Reply, FireError>
    requires names { NamesAll transaction.now reads.now }
    requires one { instrs.now ≡ unwrap_or (one_move transaction.now.layers) [] }
    requires stands { IsMoveOf transaction.now.layers instrs.now }
    ensures commits { IsOf A.meaning agent.old transaction.now →
        Commits A.meaning agent.old agent.new transaction.now result }
    ensures once { FiresOnce A.meaning agent.old agent.new transaction.now reads.now instrs.now result }
{
    keeps_laws::<A>();
    agent.try_fire_over(alloc, reads, &transaction.scanned, instrs)
}

impl Transaction {
    /// Return all reads that a commit declares, at the transaction's version.
    ///
    /// # Errors
    ///
    /// - `AllocError` only if memory is refused.
    pub fn reads(&self, alloc: Global) -> Result<Items<Named>, AllocError>
        ensures { IfOk result (NamesAll self.now) }
    {
        let dependencies = self.step.dependency_locations(alloc)?;
        self.list_with(alloc, dependencies)
    }

    // Return the one move, with all reads that a commit declares.
    pub(crate) fn prepare(&self, alloc: Global) -> Result<(Instructions, Items<Named>), AllocError>
        ensures names { IfOk result (λ p. NamesAll self.now p.1) }
        ensures one { IfOk result (λ p. p.0 ≡ unwrap_or (one_move self.now.layers) []) }
        ensures stands { IfOk result (λ p. IsMoveOf self.now.layers p.0) }
    {
        let instrs = self.step.as_move(alloc)?;
        let reads = self.reads(alloc)?;
        Ok((instrs, reads))
    }

    /// Fire one move that does what all pushed moves do in turn, unless what the transaction depends on was written.
    ///
    /// It depends on what it has read of the state at its version, and on each location where the first of its moves
    /// that writes has partial updates alone and another one writes too. The answer `Stale` has such a location.
    ///
    /// # Errors
    ///
    /// - `ManyReads` if it depends on more than 256 locations and functions.
    /// - `Busy` if 64 attempts were lost.
    /// - `Memory` only if memory is refused.
    ///
    /// On error, nothing was fired, and the commit may be repeated.
    pub fn commit<A: Aggregator + Sync + Drop>(
        &self,
        alloc: Global,
        agent: &mut Agent<'_, A>,
    ) -> Result<Reply, FireError>
        ensures commits { IsOf A.meaning agent.old self.now → Commits A.meaning agent.old agent.new self.now result }
        ensures same { IsSameAgent agent.old agent.new }
        ensures seen { IsPrefix agent.old.account.seen agent.new.account.seen }
        ensures refused { OnErr result (agent.new ≡
            has_polled agent.old agent.new.account.seen agent.new.misses agent.new.number) }
    {
        match self.prepare(alloc) {
            Ok((instrs, reads)) => fire_prepared(alloc, agent, self, &instrs, reads.as_slice()),
            Err(_) => Err(FireError::Memory),
        }
    }

    /// Return the fire that a commit makes: its one move, and all reads that it declares.
    ///
    /// The scanned functions, on which the commit depends too, aren't in it.
    ///
    /// # Errors
    ///
    /// - `AllocError` only if memory is refused.
    pub fn preview(&self, alloc: Global) -> Result<Call, AllocError>
        ensures { IfOk result (IsPreview self.now) }
    {
        let (instrs, reads) = self.prepare(alloc)?;
        Ok(Call::Fire { reads, instrs })
    }
}
