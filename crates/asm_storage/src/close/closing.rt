ghost use Rattle.std.specs.Prelude.{◌≡◌, ◌↔◌, ◌<◌, length, slice_get, map, All, IfOk, IsTrue, Some};
ghost use Rattle.std.specs.Option.{option_copied};
ghost use Rattle.asm_storage.specs.History.{move_of, EventFits, Fits};
ghost use Rattle.asm_storage.specs.Proper.{IsProper, IsProperEvent};
ghost use Rattle.asm_storage.specs.ReceiptOrder.{merged_event};
ghost use Rattle.asm_storage.specs.declared.history.Event.{Event as Entry};

use crate::close::merging::AgentReceipt;
use crate::history::{Event, History};
use crate::limits::{AGENTS_LIMIT, EVENTS_LIMIT};
use crate::proper::proper_call_and_answer;
use asm_element::Items;
use asm_row::CAPACITY_LIMIT;
use asm_update::{Instructions, PlainState};
use std::alloc::{AllocError, Global};
use std::marker::Model;

/// The history of agents, of which each event is made on request.
///
/// It holds references to the agents' receipts, and their order. Contracts see it as that history.
#[derive(Drop)]
pub struct Closing<'a> {
    init: &'a PlainState,
    capacity: u32,
    agents: u32,
    receipts: Vec<AgentReceipt<'a>>,
}

impl<'a> Model for Closing<'a> {
    ghost use Rattle.std.specs.Prelude.{map};
    ghost use Rattle.asm_storage.specs.declared.history.History.{History};
    ghost use Rattle.asm_storage.specs.contracts.history.History.{the_row as history_row};
    ghost use Rattle.asm_storage.specs.ReceiptOrder.{merged_event};

    ghost Value = { History };

    ghost coded = { history_row.coded };

    ghost view = { λ c. record {
      init = c.init.now;
      capacity = c.capacity;
      agents = c.agents;
      events = map merged_event c.receipts.items;
    } };
}

// Whether a journal of so many agents can hold each of the events.
fn all_fit(receipts: &[AgentReceipt<'_>], agents: u32) -> bool
    ensures { IsTrue result ↔ All (EventFits agents) (map merged_event receipts.now) }
{
    for kept in receipts {
        if !kept.fits(agents) {
            return false;
        }
    }
    true
}

// State for proofs that the events are well-formed; do nothing at run time.
fn proper_events(receipts: &[AgentReceipt<'_>])
    ensures { All (λ kept. IsProperEvent (merged_event kept)) receipts.now }
{
    for kept in receipts {
        kept.proper();
    }
}

impl<'a> Closing<'a> {
    /// Return the history of these receipts, in their order.
    pub(crate) fn of(
        init: &'a PlainState,
        capacity: u32,
        agents: u32,
        receipts: Vec<AgentReceipt<'a>>,
    ) -> Closing<'a>
        ensures init { result.init ≡ init.now }
        ensures capacity { result.capacity ≡ capacity }
        ensures agents { result.agents ≡ agents }
        ensures events { result.events ≡ map merged_event receipts.entry.items }
    {
        Closing {
            init,
            capacity,
            agents,
            receipts,
        }
    }

    /// Return the opening state.
    pub fn init(&self) -> &PlainState
        ensures { result.now ≡ self.now.init }
    {
        self.init
    }

    /// Return the most moves that the storage takes.
    pub fn capacity(&self) -> u32
        ensures { result ≡ self.now.capacity }
    {
        self.capacity
    }

    /// Return one more than the greatest number of an agent, or 0 without agents.
    pub fn agents(&self) -> u32
        ensures { result ≡ self.now.agents }
    {
        self.agents
    }

    /// Return how many events there are.
    pub fn len(&self) -> usize
        ensures { result ≡ length self.now.events }
    {
        self.receipts.len()
    }

    /// Return the event with this number, from 0.
    ///
    /// It shares the lists of the receipt.
    ///
    /// There must be one.
    ///
    /// # Errors
    ///
    /// - `AllocError` only if memory is refused.
    pub fn event(&self, alloc: Global, number: usize) -> Result<Event, AllocError>
        requires { number < length self.now.events }
        ensures { IfOk result (λ e. slice_get self.now.events number ≡ Some e) }
    {
        self.receipts[number].event(alloc)
    }

    /// Return the move of the event with this number, from 0, if that fired one.
    ///
    /// There must be such an event.
    pub fn fired_move(&self, number: usize) -> Option<&Instructions>
        requires { number < length self.now.events }
        ensures { (e : Entry) × (slice_get self.now.events number ≡ Some e) × (option_copied result ≡ move_of e) }
    {
        self.receipts[number].fired_move()
    }

    // State for proofs that it is a history that a program can hold; do nothing at run time.
    fn proper(&self)
        ensures { IsProper self.now }
    {
        self.init.proper();
        proper_events(self.receipts.as_slice());
    }

    /// Return whether it is within the limits of a journal, as `History::fits` does.
    pub fn fits(&self) -> bool
        ensures { IsTrue result ↔ Fits self.now }
    {
        self.proper();
        let receipts = self.receipts.as_slice();
        self.agents <= AGENTS_LIMIT
            && 1 <= self.capacity
            && self.capacity <= CAPACITY_LIMIT
            && receipts.len() as u64 <= EVENTS_LIMIT
            && all_fit(receipts, self.agents)
    }

    // Its events, each of them made.
    fn events(&self, alloc: Global) -> Result<Vec<Event>, AllocError>
        ensures { IfOk result (λ events. events.items ≡ self.now.events) }
    {
        let mut events = Vec::with_capacity(alloc, self.receipts.len())?;
        for kept in &self.receipts {
            events.push(kept.event(alloc)?)?;
        }
        Ok(events)
    }

    /// Return the history with all its events made, which outlives the agents.
    ///
    /// # Errors
    ///
    /// - `AllocError` only if memory is refused.
    pub fn history(&self, alloc: Global) -> Result<History, AllocError>
        ensures { IfOk result (λ history. history ≡ self.now) }
    {
        let events = self.events(alloc)?;
        Ok(History {
            init: self.init.copy(alloc)?,
            capacity: self.capacity,
            agents: self.agents,
            events: Items::new(events),
        })
    }
}
