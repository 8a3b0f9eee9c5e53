//! Whether a function has a value anywhere, and at how many locations, without listing it.
ghost use Rattle.std.specs.Bool.{OnFalse, OnTrue};
ghost use Rattle.std.specs.Prelude.{◌≡◌, ◌≢◌, [], IfErr, IfOk, IfSome, OnErr, OnOk};
ghost use Rattle.asm_element.specs.Place.{Place};
ghost use Rattle.asm_element.specs.Value.{undef};
ghost use Rattle.asm_update.specs.State.{val};
ghost use Rattle.asm_storage.specs.Part.{IsFollowing};
ghost use Rattle.asm_storage.specs.Storage.{AgentAt, machine_of};
ghost use Rattle.asm_transaction.specs.Counting.{IsAnyOf, IsCountIn};
ghost use Rattle.asm_transaction.specs.Reading.{IsOf, IsUnseen};
ghost use Rattle.asm_transaction.specs.Scanning.{HasScanned, IsUnscanned};

use crate::error::TransactionError;
use crate::transaction::Transaction;
use asm_element::Location;
use asm_state::State;
use asm_storage::Agent;
use asm_update::{Aggregator, PlainState};
use std::alloc::{AllocError, Global};

// Return the location without arguments of the function, if the text is a name of functions.
fn first_of(alloc: Global, name: &str) -> Result<Option<Location>, AllocError>
    ensures { IfOk result (λ found. IfSome found (λ l. (l.name ≡ name.now) × (l.args ≡ []))) }
{
    let owned = String::from_str(alloc, name)?;
    match Location::new(owned, Vec::new(alloc)) {
        Ok(first) => Ok(Some(first)),
        Err(_) => Ok(None),
    }
}

// Return whether the state has a value at a location.
fn lists_any(found: &PlainState) -> bool
    ensures some { OnTrue result ((l : Place) × (val found.now l ≢ undef)) }
    ensures none { OnFalse result ((l : Place) → val found.now l ≡ undef) }
{
    found.proper();
    !found.is_empty()
}

impl Transaction {
    // Return whether a value is shown at a location with the name of the first one, over the agent's own state.
    fn any_from<A: Aggregator>(
        &self,
        alloc: Global,
        state: &State,
        first: &Location,
    ) -> Result<bool, TransactionError>
        requires { first.now.args ≡ [] }
        ensures any { IfOk result (λ b. (a : AgentAt A) →
            IsFollowing (machine_of A.meaning a.storage) a.account.seen state.now →
            IsOf A.meaning a self.now → IsAnyOf A.meaning a self.now first.now.name b) }
        ensures level { OnOk result (state.now.number ≡ self.now.number) }
        ensures unseen { IfErr result (IsUnseen state.now.number self.now) }
    {
        if state.number() != self.number {
            return Err(TransactionError::Moved);
        }
        let seen = self.step.over(state);
        if state.shows_one(first, &seen) {
            return Ok(true);
        }
        let own = self.step.scan(alloc, PlainState::new(alloc), first.name())?;
        Ok(lists_any(&own))
    }

    // Return whether the scan of the function has a value at a location, over the agent's own state.
    fn find_any<A: Aggregator>(
        &self,
        alloc: Global,
        state: &State,
        name: &str,
    ) -> Result<bool, TransactionError>
        ensures any { IfOk result (λ b. (a : AgentAt A) →
            IsFollowing (machine_of A.meaning a.storage) a.account.seen state.now →
            IsOf A.meaning a self.now → IsAnyOf A.meaning a self.now name.now b) }
        ensures level { OnOk result (state.now.number ≡ self.now.number) }
        ensures unseen { IfErr result (IsUnseen state.now.number self.now) }
    {
        let Some(first) = first_of(alloc, name)? else {
            let found = self.see_name::<A>(alloc, state, name)?;
            return Ok(lists_any(&found));
        };
        self.any_from::<A>(alloc, state, &first)
    }

    // Return at how many locations with the name of the first one a value is shown, over the agent's own state.
    fn count_from<A: Aggregator>(
        &self,
        alloc: Global,
        state: &State,
        first: &Location,
    ) -> Result<u64, TransactionError>
        requires { first.now.args ≡ [] }
        ensures count { IfOk result (λ n. (a : AgentAt A) →
            IsFollowing (machine_of A.meaning a.storage) a.account.seen state.now →
            IsOf A.meaning a self.now → IsCountIn A.meaning a self.now first.now.name n) }
        ensures level { OnOk result (state.now.number ≡ self.now.number) }
        ensures unseen { IfErr result (IsUnseen state.now.number self.now) }
    {
        if state.number() != self.number {
            return Err(TransactionError::Moved);
        }
        let seen = self.step.over(state);
        let counted = state.count_shown(first, &seen);
        let own = self.step.scan(alloc, PlainState::new(alloc), first.name())?;
        // Proof: the count is of a state without undef, and only this call shows that it is one.
        own.proper();
        Ok(state.count_beside(&own, counted))
    }

    // Return how many locations the scan of the function lists, over the agent's own state.
    fn find_count<A: Aggregator>(
        &self,
        alloc: Global,
        state: &State,
        name: &str,
    ) -> Result<u64, TransactionError>
        ensures count { IfOk result (λ n. (a : AgentAt A) →
            IsFollowing (machine_of A.meaning a.storage) a.account.seen state.now →
            IsOf A.meaning a self.now → IsCountIn A.meaning a self.now name.now n) }
        ensures level { OnOk result (state.now.number ≡ self.now.number) }
        ensures unseen { IfErr result (IsUnseen state.now.number self.now) }
    {
        let Some(first) = first_of(alloc, name)? else {
            let found = self.see_name::<A>(alloc, state, name)?;
            found.proper();
            return Ok(found.len() as u64);
        };
        self.count_from::<A>(alloc, state, &first)
    }

    /// Do what `any` does, over the agent's own state, which an agent and the part of an agent lend.
    pub fn any_on<A: Aggregator>(
        &mut self,
        alloc: Global,
        state: &State,
        name: &str,
    ) -> Result<bool, TransactionError>
        ensures any { IfOk result (λ b. (a : AgentAt A) →
            IsFollowing (machine_of A.meaning a.storage) a.account.seen state.now →
            IsOf A.meaning a self.old → IsAnyOf A.meaning a self.old name.now b) }
        ensures level { OnOk result (state.now.number ≡ self.old.number) }
        ensures scanned { OnOk result (HasScanned name.now self.old self.new) }
        ensures unscanned { IfErr result (IsUnscanned name.now state.now.number self.old) }
        ensures stays { OnErr result (self.new ≡ self.old) }
    {
        let any = self.find_any::<A>(alloc, state, name)?;
        self.track_name(alloc, name)?;
        Ok(any)
    }

    /// Do what `count` does, over the agent's own state, which an agent and the part of an agent lend.
    pub fn count_on<A: Aggregator>(
        &mut self,
        alloc: Global,
        state: &State,
        name: &str,
    ) -> Result<u64, TransactionError>
        ensures count { IfOk result (λ n. (a : AgentAt A) →
            IsFollowing (machine_of A.meaning a.storage) a.account.seen state.now →
            IsOf A.meaning a self.old → IsCountIn A.meaning a self.old name.now n) }
        ensures level { OnOk result (state.now.number ≡ self.old.number) }
        ensures scanned { OnOk result (HasScanned name.now self.old self.new) }
        ensures unscanned { IfErr result (IsUnscanned name.now state.now.number self.old) }
        ensures stays { OnErr result (self.new ≡ self.old) }
    {
        let count = self.find_count::<A>(alloc, state, name)?;
        self.track_name(alloc, name)?;
        Ok(count)
    }

    /// Return whether `scan` would list a location, and scan the function.
    ///
    /// The commit then depends on the whole function, whatever the answer. The call asks for the locations of the
    /// function up to the first with a value, and copies only what pushed moves have written there. On error, nothing
    /// changes.
    ///
    /// # Errors
    ///
    /// The errors are those of `scan`.
    pub fn any<A: Aggregator + Sync + Drop>(
        &mut self,
        alloc: Global,
        agent: &Agent<'_, A>,
        name: &str,
    ) -> Result<bool, TransactionError>
        ensures any { IfOk result (λ b. IsOf A.meaning agent.now self.old →
            IsAnyOf A.meaning agent.now self.old name.now b) }
        ensures scanned { OnOk result (HasScanned name.now self.old self.new) }
        ensures unscanned { IfErr result (IsUnscanned name.now agent.now.number self.old) }
        ensures stays { OnErr result (self.new ≡ self.old) }
    {
        self.any_on::<A>(alloc, agent.state(), name)
    }

    /// Return how many locations `scan` would list, and scan the function.
    ///
    /// The count is at most 18,446,744,073,709,551,615. The commit then depends on the whole function. The call walks the
    /// locations of the function, and copies only what pushed moves have written there. On error, nothing changes.
    ///
    /// # Errors
    ///
    /// The errors are those of `scan`.
    pub fn count<A: Aggregator + Sync + Drop>(
        &mut self,
        alloc: Global,
        agent: &Agent<'_, A>,
        name: &str,
    ) -> Result<u64, TransactionError>
        ensures count { IfOk result (λ n. IsOf A.meaning agent.now self.old →
            IsCountIn A.meaning agent.now self.old name.now n) }
        ensures scanned { OnOk result (HasScanned name.now self.old self.new) }
        ensures unscanned { IfErr result (IsUnscanned name.now agent.now.number self.old) }
        ensures stays { OnErr result (self.new ≡ self.old) }
    {
        self.count_on::<A>(alloc, agent.state(), name)
    }
}
