//! The calls of a transaction for an owner of a share of the storage, who can't hold the agent, as that borrows it.
//!
//! Each takes the storage and the agent's part in place of the agent, and has the contract of the call of that name over
//! the agent of this part.
ghost use Rattle.std.specs.Prelude.{◌≡◌, [], length, unwrap_or, IfOk, OnErr, OnOk};
ghost use Rattle.asm_step.specs.Layers.{one_move};
ghost use Rattle.asm_storage.specs.Part.{agent_of, HasPolledRow, IsPartOf};
ghost use Rattle.asm_storage.specs.Storage.{IsUpToDate, last_poll, Missed};
ghost use Rattle.asm_transaction.specs.Commit.{Commits, FiresOnce, IsMoveOf, IsOneFire, NamesAll};
ghost use Rattle.asm_transaction.specs.Reading.{IsOf};
ghost use Rattle.asm_transaction.specs.View.{new_transaction};

use crate::committing::keeps_laws;
use crate::transaction::Transaction;
use asm_element::Items;
use asm_state::Named;
use asm_storage::{AgentPart, FireError, Reply, Storage};
use asm_update::{Aggregator, Instructions};
use std::alloc::{AllocError, Global};

// Fire the transaction's one move with all reads that its commit declares, and with all its scans.
pub(crate) fn fire_prepared_in<A: Aggregator + Sync + Drop>(
    alloc: Global,
    storage: &Storage<A>,
    part: &mut AgentPart,
    transaction: &Transaction,
    instrs: Instructions,
    reads: Items<Named>,
) -> Result<Reply, FireError>
    requires part { IsPartOf A.meaning storage.now part.old }
    requires names { NamesAll transaction.now reads }
    requires one { instrs ≡ unwrap_or (one_move transaction.now.layers) [] }
    requires stands { IsMoveOf transaction.now.layers instrs }
    ensures part { IsPartOf A.meaning storage.now part.new }
    ensures commits { IsOf A.meaning (agent_of storage.now part.old) transaction.now →
        Commits A.meaning (agent_of storage.now part.old) (agent_of storage.now part.new) transaction.now result }
    ensures once { FiresOnce A.meaning (agent_of storage.now part.old) (agent_of storage.now part.new) transaction.now
        reads instrs result }
{
    keeps_laws::<A>();
    part.try_fire_owned(
        alloc,
        storage,
        reads,
        &transaction.scanned,
        instrs,
        &mut || {},
    )
}

impl Transaction {
    /// Do what `begin` does.
    pub fn begin_in<A: Aggregator + Sync + Drop>(
        alloc: Global,
        storage: &Storage<A>,
        part: &mut AgentPart,
    ) -> Result<Transaction, AllocError>
        requires { IsPartOf A.meaning storage.now part.old }
        ensures polled { HasPolledRow A.meaning storage.now part.old part.new }
        ensures missed { Missed (agent_of storage.now part.old) (last_poll (agent_of storage.now part.new))
            (agent_of storage.now part.new) }
        ensures level { OnOk result (IsUpToDate (agent_of storage.now part.new)) }
        ensures begun { IfOk result (λ t. t ≡ new_transaction (length (agent_of storage.now part.new).account.seen)) }
        ensures of { IfOk result (IsOf A.meaning (agent_of storage.now part.new)) }
    {
        let number = part.follow(alloc, storage)?;
        Ok(Transaction::at(alloc, number))
    }

    /// Do what `begin` does, in the memory of this transaction.
    ///
    /// On error, it is unchanged.
    pub fn begin_again_in<A: Aggregator + Sync + Drop>(
        &mut self,
        alloc: Global,
        storage: &Storage<A>,
        part: &mut AgentPart,
    ) -> Result<(), AllocError>
        requires { IsPartOf A.meaning storage.now part.old }
        ensures polled { HasPolledRow A.meaning storage.now part.old part.new }
        ensures missed { Missed (agent_of storage.now part.old) (last_poll (agent_of storage.now part.new))
            (agent_of storage.now part.new) }
        ensures level { OnOk result (IsUpToDate (agent_of storage.now part.new)) }
        ensures begun { OnOk result (self.new ≡ new_transaction (length (agent_of storage.now part.new).account.seen)) }
        ensures of { OnOk result (IsOf A.meaning (agent_of storage.now part.new) self.new) }
        ensures stays { OnErr result (self.new ≡ self.old) }
    {
        let number = part.follow(alloc, storage)?;
        self.restart(number);
        Ok(())
    }

    /// Return the one move, with all reads that a commit declares: what `commit_in` fires.
    ///
    /// # Errors
    ///
    /// - `AllocError` only if memory is refused.
    pub fn prepared(&self, alloc: Global) -> Result<(Instructions, Items<Named>), AllocError>
        ensures names { IfOk result (λ p. NamesAll self.now p.1) }
        ensures one { IfOk result (λ p. p.0 ≡ unwrap_or (one_move self.now.layers) []) }
        ensures stands { IfOk result (λ p. IsMoveOf self.now.layers p.0) }
    {
        let Some(instrs) = self.step.as_move_in_place() else {
            return self.prepare(alloc);
        };
        let instrs = instrs.copy(alloc)?;
        let reads = self.reads(alloc)?;
        Ok((instrs, reads))
    }

    /// Do what `commit` does, with what `prepared` has returned.
    pub fn commit_in<A: Aggregator + Sync + Drop>(
        &self,
        alloc: Global,
        storage: &Storage<A>,
        part: &mut AgentPart,
        instrs: Instructions,
        reads: Items<Named>,
    ) -> Result<Reply, FireError>
        requires part { IsPartOf A.meaning storage.now part.old }
        requires names { NamesAll self.now reads }
        requires one { instrs ≡ unwrap_or (one_move self.now.layers) [] }
        requires stands { IsMoveOf self.now.layers instrs }
        ensures part { IsPartOf A.meaning storage.now part.new }
        ensures commits { IsOf A.meaning (agent_of storage.now part.old) self.now →
            Commits A.meaning (agent_of storage.now part.old) (agent_of storage.now part.new) self.now result }
        ensures one_fire { IsOneFire A.meaning (agent_of storage.now part.old) (agent_of storage.now part.new) self.now result }
    {
        fire_prepared_in(alloc, storage, part, self, instrs, reads)
    }
}
