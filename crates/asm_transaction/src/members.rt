//! How often a set or a bag has an element, and how many it has, without a copy of its value.
ghost use Rattle.std.specs.Prelude.{◌≡◌, ◌∷◌, [], min, sum, unwrap_or, IfErr, IfOk, OnErr, OnOk};
ghost use Rattle.std.specs.Option.{option_copied};
ghost use Rattle.asm_element.specs.Bag as bags;
ghost use Rattle.asm_element.specs.Value.{undef};
ghost use Rattle.asm_storage.specs.Part.{IsFollowing};
ghost use Rattle.asm_storage.specs.Storage.{AgentAt, machine_of};
ghost use Rattle.asm_transaction.specs.Members.{count_in, size_limit, size_of, IsCountShown, IsSizeShown};
ghost use Rattle.asm_transaction.specs.Reading.{HasTracked, IsOf, IsUnread, IsUnseen};

use crate::error::TransactionError;
use crate::transaction::Transaction;
use asm_element::{ElemBag, Element, Location, Value};
use asm_state::State;
use asm_storage::Agent;
use asm_update::{Aggregator, Lookup};
use std::alloc::Global;

// Return how often the value has the element; no value is undef.
fn count_in(found: Option<&Value>, element: &Element) -> Option<u32>
    ensures { result ≡ count_in (unwrap_or (option_copied found.entry) undef) element.now }
{
    match found {
        None => Some(0),
        Some(Value::Plain(Element::Undef)) => Some(0),
        Some(Value::Plain(_)) => None,
        Some(Value::Set(set)) => Some(if set.contains(element) { 1 } else { 0 }),
        Some(Value::Bag(bag)) => Some(bag.count(element)),
    }
}

// Return how many elements the bag has, each as often as it is there.
fn bag_size(bag: &ElemBag) -> u64
    ensures { result ≡ min (sum (bags.counts bag.now)) size_limit }
{
    let mut size: u64 = 0;
    for (_element, count) in bag.iter() {
        size = size.saturating_add(*count as u64);
    }
    size
}

// Return how many elements the value has; no value is undef.
fn size_of(found: Option<&Value>) -> Option<u64>
    ensures { result ≡ size_of (unwrap_or (option_copied found.entry) undef) }
{
    match found {
        None => Some(0),
        Some(Value::Plain(Element::Undef)) => Some(0),
        Some(Value::Plain(_)) => None,
        Some(Value::Set(set)) => Some(set.len() as u64),
        Some(Value::Bag(bag)) => Some(bag_size(bag)),
    }
}

impl Transaction {
    // Return the count of the element in what is shown at the location, over the agent's own state.
    fn see_count<A: Aggregator>(
        &self,
        state: &State,
        at: &Location,
        element: &Element,
    ) -> Result<Option<u32>, TransactionError>
        ensures count { IfOk result (λ n. (a : AgentAt A) →
            IsFollowing (machine_of A.meaning a.storage) a.account.seen state.now →
            IsOf A.meaning a self.now → IsCountShown A.meaning a self.now at.now element.now n) }
        ensures level { OnOk result (state.now.number ≡ self.now.number) }
        ensures unseen { IfErr result (IsUnseen state.now.number self.now) }
    {
        let seen = self.shows::<A>(state)?;
        Ok(count_in(seen.get(at), element))
    }

    // Return the size of what is shown at the location, over the agent's own state.
    fn see_size<A: Aggregator>(
        &self,
        state: &State,
        at: &Location,
    ) -> Result<Option<u64>, TransactionError>
        ensures size { IfOk result (λ n. (a : AgentAt A) →
            IsFollowing (machine_of A.meaning a.storage) a.account.seen state.now →
            IsOf A.meaning a self.now → IsSizeShown A.meaning a self.now at.now n) }
        ensures level { OnOk result (state.now.number ≡ self.now.number) }
        ensures unseen { IfErr result (IsUnseen state.now.number self.now) }
    {
        let seen = self.shows::<A>(state)?;
        Ok(size_of(seen.get(at)))
    }

    /// Do what `count_of` does, over the agent's own state, which an agent and the part of an agent lend.
    pub fn count_of_on<A: Aggregator>(
        &mut self,
        alloc: Global,
        state: &State,
        at: &Location,
        element: &Element,
    ) -> Result<Option<u32>, TransactionError>
        ensures count { IfOk result (λ n. (a : AgentAt A) →
            IsFollowing (machine_of A.meaning a.storage) a.account.seen state.now →
            IsOf A.meaning a self.old → IsCountShown A.meaning a self.old at.now element.now n) }
        ensures level { OnOk result (state.now.number ≡ self.old.number) }
        ensures tracked { OnOk result (HasTracked (at.now ∷ []) self.old self.new) }
        ensures unread { IfErr result (IsUnread at.now state.now.number self.old) }
        ensures stays { OnErr result (self.new ≡ self.old) }
    {
        let count = self.see_count::<A>(state, at, element)?;
        self.track_one(alloc, at)?;
        Ok(count)
    }

    /// Do what `size` does, over the agent's own state, which an agent and the part of an agent lend.
    pub fn size_on<A: Aggregator>(
        &mut self,
        alloc: Global,
        state: &State,
        at: &Location,
    ) -> Result<Option<u64>, TransactionError>
        ensures size { IfOk result (λ n. (a : AgentAt A) →
            IsFollowing (machine_of A.meaning a.storage) a.account.seen state.now →
            IsOf A.meaning a self.old → IsSizeShown A.meaning a self.old at.now n) }
        ensures level { OnOk result (state.now.number ≡ self.old.number) }
        ensures tracked { OnOk result (HasTracked (at.now ∷ []) self.old self.new) }
        ensures unread { IfErr result (IsUnread at.now state.now.number self.old) }
        ensures stays { OnErr result (self.new ≡ self.old) }
    {
        let size = self.see_size::<A>(state, at)?;
        self.track_one(alloc, at)?;
        Ok(size)
    }

    /// Return how often a set or a bag has the element, and track the location.
    ///
    /// The value is what `get` returns, and isn't copied. A set has the element 0 times or once, and undef 0 times. Any
    /// other value has no count. On error, nothing changes.
    ///
    /// # Errors
    ///
    /// The errors are those of `get`.
    pub fn count_of<A: Aggregator + Sync + Drop>(
        &mut self,
        alloc: Global,
        agent: &Agent<'_, A>,
        at: &Location,
        element: &Element,
    ) -> Result<Option<u32>, TransactionError>
        ensures count { IfOk result (λ n. IsOf A.meaning agent.now self.old →
            IsCountShown A.meaning agent.now self.old at.now element.now n) }
        ensures tracked { OnOk result (HasTracked (at.now ∷ []) self.old self.new) }
        ensures unread { IfErr result (IsUnread at.now agent.now.number self.old) }
        ensures stays { OnErr result (self.new ≡ self.old) }
    {
        self.count_of_on::<A>(alloc, agent.state(), at, element)
    }

    /// Return how many elements a set or a bag has, and track the location.
    ///
    /// The value is what `get` returns, and isn't copied. Each element of a bag counts as often as it is there, and undef
    /// has none. The size is at most 18,446,744,073,709,551,615, and any other value has no size. The time is constant for
    /// a set, and grows with the different elements of a bag. On error, nothing changes.
    ///
    /// # Errors
    ///
    /// The errors are those of `get`.
    pub fn size<A: Aggregator + Sync + Drop>(
        &mut self,
        alloc: Global,
        agent: &Agent<'_, A>,
        at: &Location,
    ) -> Result<Option<u64>, TransactionError>
        ensures size { IfOk result (λ n. IsOf A.meaning agent.now self.old →
            IsSizeShown A.meaning agent.now self.old at.now n) }
        ensures tracked { OnOk result (HasTracked (at.now ∷ []) self.old self.new) }
        ensures unread { IfErr result (IsUnread at.now agent.now.number self.old) }
        ensures stays { OnErr result (self.new ≡ self.old) }
    {
        self.size_on::<A>(alloc, agent.state(), at)
    }
}
