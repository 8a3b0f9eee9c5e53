//! A commit that first records what the transaction has read.
ghost use Rattle.std.specs.Prelude.{◌≡◌, ◌≤◌, ◌+◌, [], length, unwrap_or, IfErr, IfOk};
ghost use mathlib.Core.List.{IsPrefix};
ghost use Rattle.asm_step.specs.Layers.{one_move};
ghost use Rattle.asm_storage.specs.Limits.{reads_limit};
ghost use Rattle.asm_storage.specs.Part.{agent_of, IsPartOf};
ghost use Rattle.asm_storage.specs.Storage.{IsSameAgent};
ghost use Rattle.asm_transaction.specs.Commit.{IsMoveOf, NamesAll};
ghost use Rattle.asm_transaction.specs.Record.{IsReading, IsUnprepared, IsUnvalidated, Records, fire_error_of};

use crate::committing::fire_prepared;
use crate::part::fire_prepared_in;
use crate::transaction::Transaction;
use asm_element::Items;
use asm_state::Named;
use asm_storage::{
    Agent, AgentPart, FireError, NamedReading, READS_LIMIT, ReadError, Reply, Storage,
};
use asm_update::{Aggregator, Instructions};
use std::alloc::Global;

fn fire_error(error: ReadError) -> FireError
    ensures { result ≡ fire_error_of error }
{
    match error {
        ReadError::ManyLocations => FireError::ManyReads,
        ReadError::Memory => FireError::Memory,
    }
}

// Validate the declared reads, if there are any, and read their locations if none is stale.
fn read_named<A: Aggregator + Sync + Drop>(
    alloc: Global,
    agent: &mut Agent<'_, A>,
    reads: &[Named],
) -> Result<Option<NamedReading>, FireError>
    ensures read { IfOk result (IsReading A.meaning agent.old agent.new reads.now) }
    ensures refused { IfErr result (IsUnvalidated agent.old agent.new reads.now) }
    ensures same { IsSameAgent agent.old agent.new }
    ensures seen { IsPrefix agent.old.account.seen agent.new.account.seen }
{
    if reads.is_empty() {
        return Ok(None);
    }
    match agent.read_named(alloc, reads) {
        Ok(reading) => Ok(Some(reading)),
        Err(error) => Err(fire_error(error)),
    }
}

// Do so for an owner of a share of the storage.
fn read_named_in<A: Aggregator + Sync + Drop>(
    alloc: Global,
    storage: &Storage<A>,
    part: &mut AgentPart,
    reads: &[Named],
) -> Result<Option<NamedReading>, FireError>
    requires { IsPartOf A.meaning storage.now part.old }
    ensures part { IsPartOf A.meaning storage.now part.new }
    ensures read { IfOk result (
        IsReading A.meaning (agent_of storage.now part.old) (agent_of storage.now part.new) reads.now) }
    ensures refused { IfErr result (
        IsUnvalidated (agent_of storage.now part.old) (agent_of storage.now part.new) reads.now) }
{
    if reads.is_empty() {
        return Ok(None);
    }
    match part.read_named(alloc, storage, reads) {
        Ok(reading) => Ok(Some(reading)),
        Err(error) => Err(fire_error(error)),
    }
}

impl Transaction {
    /// Return the one move, with all reads that a commit declares; with the scans they are at most 256.
    ///
    /// # Errors
    ///
    /// - `ManyReads` if the reads and the scans are more than 256.
    /// - `Memory` only if memory is refused.
    pub fn prepare_within(&self, alloc: Global) -> Result<(Instructions, Items<Named>), FireError>
        ensures names { IfOk result (λ p. NamesAll self.now p.1) }
        ensures one { IfOk result (λ p. p.0 ≡ unwrap_or (one_move self.now.layers) []) }
        ensures stands { IfOk result (λ p. IsMoveOf self.now.layers p.0) }
        ensures few { IfOk result (λ p. length p.1 + length self.now.scanned ≤ reads_limit) }
        ensures err { IfErr result (IsUnprepared self.now) }
    {
        let (instrs, reads) = match self.prepare(alloc) {
            Ok(prepared) => prepared,
            Err(_) => return Err(FireError::Memory),
        };
        if reads.as_slice().len() > READS_LIMIT - self.scanned.len() {
            return Err(FireError::ManyReads);
        }
        Ok((instrs, reads))
    }

    /// Read all that the commit declares, with a receipt, and then commit.
    ///
    /// The call polls, if there is a declared read. If one is stale by then, it reads nothing, and the commit answers `Stale`. Else the
    /// values of the read are those at the transaction's version, whatever the commit answers. Scans aren't recorded.
    ///
    /// # Errors
    ///
    /// - `ManyReads` as `commit`; nothing was read.
    /// - `Busy` and `Memory` as `commit`; the read may have been recorded, and the call may be repeated.
    pub fn commit_recorded<A: Aggregator + Sync + Drop>(
        &self,
        alloc: Global,
        agent: &mut Agent<'_, A>,
    ) -> Result<Reply, FireError>
        ensures records { Records A.meaning agent.old agent.new self.now result }
        ensures same { IsSameAgent agent.old agent.new }
        ensures seen { IsPrefix agent.old.account.seen agent.new.account.seen }
    {
        let (instrs, reads) = match self.prepare_within(alloc) {
            Ok(prepared) => prepared,
            Err(error) => return Err(error),
        };
        match read_named(alloc, agent, reads.as_slice()) {
            Ok(_) => {}
            Err(error) => return Err(error),
        }
        fire_prepared(alloc, agent, self, &instrs, reads.as_slice())
    }

    /// Do what `commit_recorded` does, with what `prepare_within` has returned.
    pub fn commit_recorded_in<A: Aggregator + Sync + Drop>(
        &self,
        alloc: Global,
        storage: &Storage<A>,
        part: &mut AgentPart,
        instrs: Instructions,
        reads: Items<Named>,
    ) -> Result<Reply, FireError>
        requires part { IsPartOf A.meaning storage.now part.old }
        requires names { NamesAll self.now reads }
        requires one { instrs ≡ unwrap_or (one_move self.now.layers) [] }
        requires stands { IsMoveOf self.now.layers instrs }
        requires few { length reads + length self.now.scanned ≤ reads_limit }
        ensures part { IsPartOf A.meaning storage.now part.new }
        ensures records { Records A.meaning (agent_of storage.now part.old) (agent_of storage.now part.new) self.now result }
    {
        match read_named_in(alloc, storage, part, reads.as_slice()) {
            Ok(_) => {}
            Err(error) => return Err(error),
        }
        fire_prepared_in(alloc, storage, part, self, instrs, reads)
    }
}
