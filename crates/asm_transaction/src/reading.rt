//! Reading a location of the state at the transaction's version.
ghost use Rattle.std.specs.Prelude.{◌≡◌, ◌∷◌, [], IfErr, IfOk, OnErr, OnOk};
ghost use Rattle.asm_storage.specs.Part.{IsFollowing};
ghost use Rattle.asm_storage.specs.Storage.{AgentAt, machine_of};
ghost use Rattle.asm_transaction.specs.Reading.{HasTracked, IsOf, IsShown, IsUnread, IsUnseen};

use crate::error::TransactionError;
use crate::transaction::Transaction;
use asm_element::{Location, Value};
use asm_state::State;
use asm_storage::Agent;
use asm_update::Aggregator;
use std::alloc::Global;

impl Transaction {
    // Return the value at the location, over the agent's own state.
    pub(crate) fn see_on<A: Aggregator>(
        &self,
        alloc: Global,
        state: &State,
        at: &Location,
    ) -> Result<Value, TransactionError>
        ensures value { IfOk result (λ v. (a : AgentAt A) →
            IsFollowing (machine_of A.meaning a.storage) a.account.seen state.now →
            IsOf A.meaning a self.now → IsShown A.meaning a self.now at.now v) }
        ensures unseen { IfErr result (IsUnseen state.now.number self.now) }
    {
        if state.number() != self.number {
            return Err(TransactionError::Moved);
        }
        let value = Value::copy_or_undef(alloc, self.step.get(state, at))?;
        Ok(value)
    }

    // Return the value at the location, over the agent's own state, and track the location.
    pub(crate) fn get_on<A: Aggregator>(
        &mut self,
        alloc: Global,
        state: &State,
        at: &Location,
    ) -> Result<Value, TransactionError>
        ensures value { IfOk result (λ v. (a : AgentAt A) →
            IsFollowing (machine_of A.meaning a.storage) a.account.seen state.now →
            IsOf A.meaning a self.old → IsShown A.meaning a self.old at.now v) }
        ensures tracked { OnOk result (HasTracked (at.now ∷ []) self.old self.new) }
        ensures unread { IfErr result (IsUnread at.now state.now.number self.old) }
        ensures stays { OnErr result (self.new ≡ self.old) }
    {
        let value = self.see_on::<A>(alloc, state, at)?;
        self.track_one(alloc, at)?;
        Ok(value)
    }

    /// Return the value at the location: that in the state at its version, once its moves have fired there.
    ///
    /// The location isn't tracked, so the commit doesn't depend on it.
    ///
    /// # Errors
    ///
    /// - `Moved` if the agent's own state is at another version.
    /// - `Memory` only if memory is refused.
    pub fn see<A: Aggregator + Sync + Drop>(
        &self,
        alloc: Global,
        agent: &Agent<'_, A>,
        at: &Location,
    ) -> Result<Value, TransactionError>
        ensures value { IfOk result (λ v. IsOf A.meaning agent.now self.now → IsShown A.meaning agent.now self.now at.now v) }
        ensures unseen { IfErr result (IsUnseen agent.now.number self.now) }
    {
        self.see_on::<A>(alloc, agent.state(), at)
    }

    /// Return the value at the location, as `see` does, and track the location.
    ///
    /// It isn't tracked if the first of the transaction's moves that writes there puts a value: the answer then doesn't
    /// depend on the state. On error, nothing changes.
    ///
    /// # Errors
    ///
    /// - `Moved` if the agent's own state is at another version.
    /// - `ManyReads` if the location would be the 257th that is tracked, scanned functions included.
    /// - `Memory` only if memory is refused.
    pub fn get<A: Aggregator + Sync + Drop>(
        &mut self,
        alloc: Global,
        agent: &Agent<'_, A>,
        at: &Location,
    ) -> Result<Value, TransactionError>
        ensures value { IfOk result (λ v. IsOf A.meaning agent.now self.old → IsShown A.meaning agent.now self.old at.now v) }
        ensures tracked { OnOk result (HasTracked (at.now ∷ []) self.old self.new) }
        ensures unread { IfErr result (IsUnread at.now agent.now.number self.old) }
        ensures stays { OnErr result (self.new ≡ self.old) }
    {
        self.get_on::<A>(alloc, agent.state(), at)
    }
}
