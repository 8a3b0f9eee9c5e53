ghost use Rattle.std.specs.Prelude.{◌≡◌, ◌↔◌, ◌<◌, ◌≤◌, map, length, take, IfOk, IfErr, OnOk, OnErr, IsErrOf};
ghost use mathlib.Core.List.{IsPrefix};
ghost use Rattle.asm_update.specs.State.{val};
ghost use Rattle.asm_storage.specs.declared.call.Call.TheVariants as call;
ghost use Rattle.asm_storage.specs.declared.error.ReadError.TheVariants.{ManyLocations};
ghost use Rattle.asm_storage.specs.Machine.{machine_state};
ghost use Rattle.asm_storage.specs.Agents.{moves_seen, next_stood};
ghost use Rattle.asm_storage.specs.Limits.{reads_limit};
ghost use Rattle.asm_storage.specs.NamedRead.{IsNamedRead};
ghost use Rattle.asm_storage.specs.Storage.{has_polled, last_poll, machine_of, with_receipt, Missed};
ghost use Rattle.asm_storage.specs.Calls.{receipt_at, read_answer, HasPolledFor, IsOwnRead, IsPeek, IsStaleRead};
ghost use Rattle.asm_storage.specs.Part.{agent_of, IsPartOf};

use crate::call::{Answer, Call};
use crate::error::ReadError;
use crate::held_values::have_values;
use crate::limits::READS_LIMIT;
use crate::part::AgentPart;
use crate::reading::{NamedReading, Reading};
use crate::receipt::Receipt;
use crate::shared_lists::{places_named, same_list, share_or_copy_places};
use crate::storage::Storage;
use asm_element::{Items, Location, Value};
use asm_state::{Named, Objection};
use asm_update::{Aggregator, Instructions, Lookup};
use std::alloc::{AllocError, Global};

// Copies of the values of the locations, in their order.
fn copied_values<L: Lookup>(
    alloc: Global,
    lookup: &L,
    places: &[Location],
) -> Result<Items<Value>, AllocError>
    ensures { IfOk result (λ values. values ≡ map (L.value_at lookup.now) places.now) }
{
    let mut values = Vec::with_capacity(alloc, places.len())?;
    for place in places {
        let value = Value::copy_or_undef(alloc, lookup.get(place))?;
        values.push(value)?;
    }
    Items::shared(alloc, values)
}

// The values of the locations, in their order: the earlier list, where they are unchanged, or else copies.
fn share_or_copy_values<L: Lookup>(
    alloc: Global,
    lookup: &L,
    places: &[Location],
    earlier: Option<&Items<Value>>,
) -> Result<Items<Value>, AllocError>
    ensures { IfOk result (λ values. values ≡ map (L.value_at lookup.now) places.now) }
{
    match earlier {
        Some(list) if have_values(lookup, places, list.as_slice()) => same_list(list),
        _ => copied_values(alloc, lookup, places),
    }
}

impl AgentPart {
    // The lists of the last read, if it is one of the last two calls: a read that is answered the same shares them.
    fn last_read(&self) -> Option<(&Items<Location>, &Items<Value>)> {
        let (last, before) = self.receipts.split_last()?;
        match last.lists_of_read() {
            Some(lists) => Some(lists),
            None => before.last()?.lists_of_read(),
        }
    }

    // The values of the locations after the moves that the state has followed.
    fn values_held<A: Aggregator + Sync + Drop>(
        &self,
        alloc: Global,
        storage: &Storage<A>,
        places: &[Location],
    ) -> Result<Items<Value>, AllocError>
        requires { IsPartOf A.meaning storage.now self.now }
        ensures within { self.now.state.number ≤ length self.now.progress.seen }
        ensures count { self.now.state.number ≡ length (take self.now.state.number (moves_seen self.now.progress.seen)) }
        ensures values { IfOk result (λ values. values ≡ map (val (machine_state (machine_of A.meaning storage.now)
            (take self.now.state.number (moves_seen self.now.progress.seen)))) places.now) }
    {
        let earlier = self.last_read().map(|(_places, values)| values);
        share_or_copy_values(alloc, &self.state, places, earlier)
    }

    /// Return the locations with their values after the moves that the state followed.
    ///
    /// It neither polls nor adds a receipt.
    pub(crate) fn peek<A: Aggregator + Sync + Drop>(
        &self,
        alloc: Global,
        storage: &Storage<A>,
        places: &[Location],
    ) -> Result<Reading, AllocError>
        requires { IsPartOf A.meaning storage.now self.now }
        ensures peeked { IfOk result (IsPeek A.meaning (agent_of storage.now self.now) places.now) }
        ensures number { IfOk result (λ r. r.number ≡ self.now.state.number) }
    {
        let values = self.values_held(alloc, storage, places)?;
        let earlier = self.last_read().map(|(places, _values)| places);
        let places = share_or_copy_places(alloc, places, earlier)?;
        let number = self.state.number();
        Ok(Reading {
            number,
            places,
            values,
        })
    }

    // Keeps the receipt of a read from the agent's own state.
    fn keep_reading<A: Aggregator + Sync + Drop>(
        &mut self,
        alloc: Global,
        storage: &Storage<A>,
        reading: &Reading,
    ) -> Result<(), AllocError>
        requires part { IsPartOf A.meaning storage.now self.old }
        requires later { next_stood 0 self.old.receipts.items ≤ self.old.state.number }
        requires peek { IsPeek A.meaning (agent_of storage.now self.old) reading.now.places reading.now }
        ensures part { IsPartOf A.meaning storage.now self.new }
        ensures ok { OnOk result (agent_of storage.now self.new ≡ with_receipt (agent_of storage.now self.old)
            (receipt_at reading.now.number (call.Read reading.now.places) (read_answer reading.now))) }
        ensures err { OnErr result (agent_of storage.now self.new ≡ agent_of storage.now self.old) }
    {
        let places = same_list(&reading.places)?;
        let values = same_list(&reading.values)?;
        let answer = Answer::Read {
            number: reading.number,
            values,
        };
        self.keep(storage, Call::Read(places), answer, reading.number)
    }

    /// Read the locations from the agent's own state, and add a receipt of that.
    ///
    /// The state isn't behind its receipts.
    pub(crate) fn read_own<A: Aggregator + Sync + Drop>(
        &mut self,
        alloc: Global,
        storage: &Storage<A>,
        places: &[Location],
    ) -> Result<Reading, AllocError>
        requires part { IsPartOf A.meaning storage.now self.old }
        requires later { next_stood 0 self.old.receipts.items ≤ self.old.state.number }
        ensures part { IsPartOf A.meaning storage.now self.new }
        ensures read { IfOk result (
            IsOwnRead A.meaning (agent_of storage.now self.old) (agent_of storage.now self.new) places.now) }
        ensures refused { OnErr result (agent_of storage.now self.new ≡ agent_of storage.now self.old) }
    {
        let reading = self.peek(alloc, storage, places)?;
        self.keep_reading(alloc, storage, &reading)?;
        Ok(reading)
    }

    /// Return the smallest of the declared locations that is stale after all seen moves.
    pub(crate) fn stale_read<A: Aggregator + Sync + Drop>(
        &self,
        alloc: Global,
        storage: &Storage<A>,
        reads: &[Named],
    ) -> Result<Option<Location>, AllocError>
        requires part { IsPartOf A.meaning storage.now self.now }
        requires level { self.now.state.number ≡ length self.now.progress.seen }
        ensures { IfOk result (IsStaleRead A.meaning (agent_of storage.now self.now) reads.now) }
    {
        let none = Instructions::new(alloc);
        match self
            .state
            .objection(alloc, storage.aggregator(), reads, &none)?
        {
            Some(Objection::Stale(at)) => Ok(Some(at)),
            Some(Objection::Clash(_clash)) => Ok(None),
            None => Ok(None),
        }
    }

    // Reads the locations of the declared reads from the agent's own state, and adds a receipt of that.
    fn read_own_named<A: Aggregator + Sync + Drop>(
        &mut self,
        alloc: Global,
        storage: &Storage<A>,
        reads: &[Named],
    ) -> Result<Reading, AllocError>
        requires part { IsPartOf A.meaning storage.now self.old }
        requires later { next_stood 0 self.old.receipts.items ≤ self.old.state.number }
        ensures part { IsPartOf A.meaning storage.now self.new }
        ensures read { IfOk result (IsOwnRead A.meaning (agent_of storage.now self.old) (agent_of storage.now self.new)
            (map (λ x. x.at) reads.now)) }
        ensures refused { OnErr result (agent_of storage.now self.new ≡ agent_of storage.now self.old) }
    {
        let places = places_named(alloc, reads)?;
        self.read_own(alloc, storage, &places)
    }

    /// Read the locations of at most 256 declared reads, if none is stale, as `Agent::read_named` does.
    ///
    /// The part came from this storage.
    ///
    /// # Errors
    ///
    /// - Those of `Agent::read_named`.
    pub fn read_named<A: Aggregator + Sync + Drop>(
        &mut self,
        alloc: Global,
        storage: &Storage<A>,
        reads: &[Named],
    ) -> Result<NamedReading, ReadError>
        requires { IsPartOf A.meaning storage.now self.old }
        ensures part { IsPartOf A.meaning storage.now self.new }
        ensures answered { IfOk result (
            IsNamedRead A.meaning (agent_of storage.now self.old) (agent_of storage.now self.new) reads.now) }
        ensures polled { OnOk result (Missed (agent_of storage.now self.old) (last_poll (agent_of storage.now self.new))
            (agent_of storage.now self.new)) }
        ensures seen { IsPrefix self.old.progress.seen self.new.progress.seen }
        ensures onward { self.old.state.number ≤ self.new.state.number }
        ensures refused { OnErr result (agent_of storage.now self.new ≡
            has_polled (agent_of storage.now self.old) self.new.progress.seen self.new.progress.misses self.new.state.number) }
        ensures unread { IfErr result (HasPolledFor (agent_of storage.now self.old) (agent_of storage.now self.new)) }
        ensures many { IsErrOf result ManyLocations ↔ (reads_limit < length reads.now) }
    {
        if reads.len() > READS_LIMIT {
            return Err(ReadError::ManyLocations);
        }
        self.follow_row(alloc, storage)?;
        match self.stale_read(alloc, storage, reads)? {
            Some(at) => Ok(NamedReading::Stale(at)),
            None => Ok(NamedReading::Read(self.read_own_named(alloc, storage, reads)?)),
        }
    }
}
