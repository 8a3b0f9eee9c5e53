//! Beginning a step in the memory of the agent's last one, and committing it.
#![tactic(auto, unfolding(asm_aggregate::specs::Standard::standard_meaning))]

ghost use Rattle.std.specs.Prelude.{◌≡◌, ◌≤◌, ◌+◌, [], length, unwrap_or, IfOk, OnOk};
ghost use Rattle.asm_step.specs.Layers.{one_move};
ghost use Rattle.asm_storage.specs.Limits.{reads_limit};
ghost use Rattle.asm_storage.specs.Storage.{IsSameAgent};
ghost use Rattle.asm_slots.specs.Standard.{meaning};
ghost use Rattle.asm_slots.specs.OwnState.{HasPolledOn};
ghost use Rattle.asm_slots.specs.AgentCalls.{SeesOn};
ghost use Rattle.asm_transaction.specs.Commit.{Commits, IsMoveOf, IsOneFire, NamesAll};
ghost use Rattle.asm_transaction.specs.Reading.{IsOf};
ghost use Rattle.asm_transaction.specs.Record.{Records};
ghost use Rattle.asm_transaction.specs.View.{new_transaction};

use crate::owned_agent::OwnedAgent;
use asm_element::Items;
use asm_state::Named;
use asm_storage::{FireError, Reply};
use asm_transaction::Transaction;
use asm_update::Instructions;
use std::alloc::{AllocError, Global};
use std::mem;

impl OwnedAgent {
    /// Begin a transaction, after a poll until no move is left.
    pub(crate) fn begin(&mut self, alloc: Global) -> Result<Transaction, AllocError>
        ensures same { IsSameAgent self.old self.new }
        ensures polled { HasPolledOn self.old self.new }
        ensures seen { SeesOn self.old self.new }
        ensures begun { IfOk result (λ t. t ≡ new_transaction (length self.new.account.seen)) }
        ensures stands { OnOk result (length self.new.account.seen ≡ self.new.number) }
        ensures of { IfOk result (IsOf meaning self.new) }
    {
        let mut step = mem::replace(&mut self.spare, Transaction::empty(alloc));
        step.begin_again_in(alloc, &self.shared.storage, &mut self.part)?;
        Ok(step)
    }

    /// Retain the memory of a step that ends, for the next one to begin in.
    pub(crate) fn keep_memory(&mut self, step: &mut Transaction)
        ensures { self.new ≡ self.old }
    {
        step.restart(0);
        mem::swap(&mut self.spare, step);
    }

    /// Commit the transaction, with what it prepared.
    pub(crate) fn commit(
        &mut self,
        alloc: Global,
        transaction: &Transaction,
        instrs: Instructions,
        reads: Items<Named>,
    ) -> Result<Reply, FireError>
        requires names { NamesAll transaction.now reads }
        requires one { instrs ≡ unwrap_or (one_move transaction.now.layers) [] }
        requires stands { IsMoveOf transaction.now.layers instrs }
        ensures commits { IsOf meaning self.old transaction.now → Commits meaning self.old self.new transaction.now result }
        ensures once { IsOneFire meaning self.old self.new transaction.now result }
    {
        transaction.commit_in(alloc, &self.shared.storage, &mut self.part, instrs, reads)
    }

    /// Record what the transaction has read, and commit it, with what it prepared.
    pub(crate) fn commit_recorded(
        &mut self,
        alloc: Global,
        transaction: &Transaction,
        instrs: Instructions,
        reads: Items<Named>,
    ) -> Result<Reply, FireError>
        requires names { NamesAll transaction.now reads }
        requires one { instrs ≡ unwrap_or (one_move transaction.now.layers) [] }
        requires stands { IsMoveOf transaction.now.layers instrs }
        requires few { length reads + length transaction.now.scanned ≤ reads_limit }
        ensures { Records meaning self.old self.new transaction.now result }
    {
        transaction.commit_recorded_in(alloc, &self.shared.storage, &mut self.part, instrs, reads)
    }
}
