//! Scanning a function: reading all its locations at once.
ghost use Rattle.std.specs.Prelude.{◌≡◌, ◌<◌, ◌∷◌, ◌++◌, [], vec_len, IfErr, IfOk, IfNone, IfSome, IsSome, OnErr, OnOk};
ghost use Rattle.std.specs.Vec.{vec_capacity};
ghost use Rattle.asm_storage.specs.Part.{IsFollowing};
ghost use Rattle.asm_storage.specs.Storage.{AgentAt, machine_of};
ghost use Rattle.asm_transaction.specs.Reading.{IsOf};
ghost use Rattle.asm_transaction.specs.Scanning.{HasScanned, IsNoScanFor, IsScan, IsScanFor, IsUnscanned, has_scan};

use crate::error::TransactionError;
use crate::transaction::Transaction;
use asm_state::{Scanned, State};
use asm_storage::{Agent, READS_LIMIT};
use asm_update::{Aggregator, PlainState};
use std::alloc::Global;

// Return whether one of the scans is of the function with this name.
fn is_scanned(scans: &[Scanned], name: &str) -> bool
    ensures { result ≡ has_scan name.now scans.now }
{
    scans.iter().any(|scan| name == scan.name.as_str())
}

// Return a scan of the function and make room for it behind the others, unless one of these is of the function.
pub(crate) fn scan_for(
    alloc: Global,
    limit: usize,
    scans: &mut Vec<Scanned>,
    name: &str,
    number: u32,
) -> Result<Option<Scanned>, TransactionError>
    ensures kept { scans.new.items ≡ scans.old.items }
    ensures scan { IfOk result (IsScanFor limit scans.old.items name.now number) }
    ensures room { IfOk result (λ scan. IsSome scan → vec_len scans.new < vec_capacity scans.new) }
    ensures err { IfErr result (IsNoScanFor limit scans.old.items name.now) }
{
    if is_scanned(scans, name) {
        return Ok(None);
    }
    if scans.len() >= limit {
        return Err(TransactionError::ManyReads);
    }
    let name = String::from_str(alloc, name)?;
    scans.reserve_exact(scans.len().max(1))?;
    Ok(Some(Scanned { name, number }))
}

// Append the scan, if there is one.
pub(crate) fn note_scan(scans: &mut Vec<Scanned>, scan: Option<Scanned>)
    requires { IsSome scan → vec_len scans.old < vec_capacity scans.old }
    ensures some { IfSome scan (λ one. scans.new.items ≡ scans.old.items ++ one ∷ []) }
    ensures none { IfNone scan (scans.new.items ≡ scans.old.items) }
{
    let Some(scan) = scan else {
        return;
    };
    scans.push(scan).unwrap();
}

impl Transaction {
    // Return the function's values, over the agent's own state, and note that it is scanned.
    pub(crate) fn scan_on<A: Aggregator>(
        &mut self,
        alloc: Global,
        state: &State,
        name: &str,
    ) -> Result<PlainState, TransactionError>
        ensures found { IfOk result (λ found. (a : AgentAt A) →
            IsFollowing (machine_of A.meaning a.storage) a.account.seen state.now →
            IsOf A.meaning a self.old → IsScan A.meaning a self.old name.now found) }
        ensures scanned { OnOk result (HasScanned name.now self.old self.new) }
        ensures unscanned { IfErr result (IsUnscanned name.now state.now.number self.old) }
        ensures stays { OnErr result (self.new ≡ self.old) }
    {
        if state.number() != self.number {
            return Err(TransactionError::Moved);
        }
        let below = state.of_name(alloc, name)?;
        let found = self.step.scan(alloc, below, name)?;
        let limit = READS_LIMIT - self.tracked.len();
        let scan = scan_for(alloc, limit, &mut self.scanned, name, self.number)?;
        note_scan(&mut self.scanned, scan);
        Ok(found)
    }

    /// Return the function's values at all its locations: those in the state at its version, once its moves have fired.
    ///
    /// The commit then depends on the whole function: on each of its locations, with or without a value. On error,
    /// nothing changes.
    ///
    /// # Errors
    ///
    /// - `Moved` if the agent's own state is at another version.
    /// - `ManyReads` if the function would be the 257th that is scanned, tracked locations included.
    /// - `Memory` only if memory is refused.
    pub fn scan<A: Aggregator + Sync + Drop>(
        &mut self,
        alloc: Global,
        agent: &Agent<'_, A>,
        name: &str,
    ) -> Result<PlainState, TransactionError>
        ensures found { IfOk result (λ found. IsOf A.meaning agent.now self.old →
            IsScan A.meaning agent.now self.old name.now found) }
        ensures scanned { OnOk result (HasScanned name.now self.old self.new) }
        ensures unscanned { IfErr result (IsUnscanned name.now agent.now.number self.old) }
        ensures stays { OnErr result (self.new ≡ self.old) }
    {
        self.scan_on::<A>(alloc, agent.state(), name)
    }
}
