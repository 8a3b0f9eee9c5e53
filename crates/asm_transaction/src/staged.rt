//! What a get, a scan and a refused push do, one thing at a time.
//!
//! So a caller does something else in between that may fail, such as writing into a buffer, before anything is tracked.
//! Each call takes the agent's own state, which an agent and the part of an agent lend.
ghost use Rattle.std.specs.Prelude.{◌≡◌, ◌≢◌, IfErr, IfOk, MatchOption, OnErr, OnOk};
ghost use Rattle.asm_overlay.specs.Frames.{seen_through};
ghost use Rattle.asm_state.specs.Listed.{IsListOf, by_value};
ghost use Rattle.asm_state.specs.View.{value_at};
ghost use Rattle.asm_storage.specs.Part.{IsFollowing};
ghost use Rattle.asm_storage.specs.Storage.{AgentAt, machine_of};
ghost use Rattle.asm_transaction.specs.Reading.{IsOf, IsUnseen, Shows};
ghost use Rattle.asm_transaction.specs.Scanning.{HasScanned, IsScan, IsUnlisted, IsUntaken};

use crate::error::TransactionError;
use crate::scanning::{note_scan, scan_for};
use crate::transaction::Transaction;
use asm_element::{Location, Value};
use asm_state::State;
use asm_step::OverStep;
use asm_storage::READS_LIMIT;
use asm_update::{Aggregator, PlainState};
use std::alloc::Global;

impl Transaction {
    /// Return what the transaction shows, as a look-up that copies nothing.
    ///
    /// # Errors
    ///
    /// - `Moved` if the state is at another version.
    pub fn shows<'a, A: Aggregator>(
        &'a self,
        state: &'a State,
    ) -> Result<OverStep<'a, State>, TransactionError>
        ensures shown { IfOk result (λ seen. (a : AgentAt A) →
            IsFollowing (machine_of A.meaning a.storage) a.account.seen state.now →
            IsOf A.meaning a self.now → Shows A.meaning a self.now (seen_through seen.frames (value_at seen.below))) }
        ensures level { OnOk result (state.now.number ≡ self.now.number) }
        ensures unseen { IfErr result (IsUnseen state.now.number self.now) }
    {
        if state.number() != self.number {
            return Err(TransactionError::Moved);
        }
        Ok(self.step.over(state))
    }

    /// Return what `scan` returns, and scan nothing.
    ///
    /// # Errors
    ///
    /// - `Moved` if the state is at another version.
    /// - `Memory` only if memory is refused.
    pub fn see_name<A: Aggregator>(
        &self,
        alloc: Global,
        state: &State,
        name: &str,
    ) -> Result<PlainState, TransactionError>
        ensures found { IfOk result (λ found. (a : AgentAt A) →
            IsFollowing (machine_of A.meaning a.storage) a.account.seen state.now →
            IsOf A.meaning a self.now → IsScan A.meaning a self.now name.now found) }
        ensures level { OnOk result (state.now.number ≡ self.now.number) }
        ensures unseen { IfErr result (IsUnseen state.now.number self.now) }
    {
        if state.number() != self.number {
            return Err(TransactionError::Moved);
        }
        let below = state.of_name(alloc, name)?;
        let found = self.step.scan(alloc, below, name)?;
        Ok(found)
    }

    /// Return the locations of `see_name` that aren't undef, each with its value, in ascending order.
    ///
    /// It copies no value: the values are those of the state. `None` is the answer only if a move is pushed, or to a text
    /// that is no name of a function.
    ///
    /// # Errors
    ///
    /// - `Moved` if the state is at another version.
    /// - `Memory` only if memory is refused.
    pub fn list_name<'a, A: Aggregator>(
        &self,
        alloc: Global,
        state: &'a State,
        name: &str,
    ) -> Result<Option<Vec<(&'a Location, &'a Value)>>, TransactionError>
        ensures found { IfOk result (λ found. MatchOption found (IsUnlisted name.now self.now)
            (λ list. IsListOf (λ P. (a : AgentAt A) →
            IsFollowing (machine_of A.meaning a.storage) a.account.seen state.now →
            IsOf A.meaning a self.now → IsScan A.meaning a self.now name.now P) (by_value list.items))) }
        ensures level { OnOk result (state.now.number ≡ self.now.number) }
        ensures unseen { IfErr result (IsUnseen state.now.number self.now) }
    {
        if state.number() != self.number {
            return Err(TransactionError::Moved);
        }
        if self.step.depth() > 0 {
            return Ok(None);
        }
        let found = state.list_of_name(alloc, name)?;
        Ok(found)
    }

    /// Scan the function, as `scan` does, and return nothing of it.
    ///
    /// # Errors
    ///
    /// - `ManyReads` if the function would be the 257th that is scanned, tracked locations included.
    /// - `Memory` only if memory is refused.
    pub fn track_name(&mut self, alloc: Global, name: &str) -> Result<(), TransactionError>
        ensures scanned { OnOk result (HasScanned name.now self.old self.new) }
        ensures untaken { IfErr result (IsUntaken name.now self.old) }
        ensures stays { OnErr result (self.new ≡ self.old) }
    {
        let limit = READS_LIMIT - self.tracked.len();
        let scan = scan_for(alloc, limit, &mut self.scanned, name, self.number)?;
        note_scan(&mut self.scanned, scan);
        Ok(())
    }
}
