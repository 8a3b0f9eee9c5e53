ghost use Rattle.std.specs.Prelude.{◌≡◌, ◌↔◌, length, min, All, IsTrue};
ghost use Rattle.std.specs.Option.{option_copied};
ghost use Rattle.asm_storage.specs.History.{move_of, fired_moves, EventFits, Fits};
ghost use Rattle.asm_storage.specs.Limits.{most_counted};

use crate::call::{Answer, Call};
use crate::limits::{AGENTS_LIMIT, EVENTS_LIMIT};
use asm_element::Items;
use asm_row::CAPACITY_LIMIT;
use asm_update::{Instructions, PlainState};

/// An answered call, with the agent that made it.
#[derive(Debug, Drop, PartialEq, Eq)]
pub struct Event {
    /// The number of the agent.
    pub agent: u32,
    /// What was asked.
    pub call: Call,
    /// What was answered.
    pub answer: Answer,
}

impl Event {
    /// Return the instructions of the move that the call fired, if it fired one.
    pub fn fired_move(&self) -> Option<&Instructions>
        ensures { option_copied result ≡ move_of self.now }
    {
        self.call.fired_move(&self.answer)
    }

    /// Return whether a journal of so many agents can hold the event.
    ///
    /// It can if the number of the event's agent is below `agents`, its call has at most 256 locations or declared
    /// reads, and its answer fits the call, with a value for each location read.
    pub fn fits(&self, agents: u32) -> bool
        ensures { IsTrue result ↔ EventFits agents self.now }
    {
        self.agent < agents && self.call.fits(&self.answer)
    }
}

/// The answered calls of a storage's agents in one order, with its opening.
#[derive(Debug, Drop, PartialEq, Eq)]
pub struct History {
    /// The opening state.
    pub init: PlainState,
    /// The most moves that the storage takes.
    pub capacity: u32,
    /// One more than the greatest number of an agent, or 0.
    pub agents: u32,
    /// The answered calls.
    pub events: Items<Event>,
}

impl History {
    /// Return how many moves were fired; 4,294,967,295 where there are more.
    pub fn moves(&self) -> u32
        ensures { result ≡ min (length (fired_moves self.now.events)) most_counted }
    {
        let mut count = 0u32;
        for event in self.events.as_slice() {
            if event.fired_move().is_some() {
                count = count.saturating_add(1);
            }
        }
        count
    }

    /// Return whether the history is within the limits of a journal.
    ///
    /// These are at most 256 agents, a capacity of 1 to 1,048,576, and at most 4,294,967,295 events. Each event is of
    /// an agent with a number below `agents`, with at most 256 locations or declared reads, and with an answer that
    /// fits the call.
    ///
    /// Lists also hold at most 4,096 items and nest at most 8 deep, which is true of every list in a program.
    pub fn fits(&self) -> bool
        ensures { IsTrue result ↔ Fits self.now }
    {
        self.proper();
        let events = self.events.as_slice();
        self.agents <= AGENTS_LIMIT
            && 1 <= self.capacity
            && self.capacity <= CAPACITY_LIMIT
            && events.len() as u64 <= EVENTS_LIMIT
            && all_fit(events, self.agents)
    }
}

// Whether each of the events fits a history with so many agents.
fn all_fit(events: &[Event], agents: u32) -> bool
    ensures { IsTrue result ↔ All (EventFits agents) events.now }
{
    for event in events {
        if !event.fits(agents) {
            return false;
        }
    }
    true
}
