ghost use Rattle.std.specs.Prelude.{◌≡◌, IfOk};
ghost use Rattle.asm_storage.specs.Agents.{event_of, is_fired};

use crate::call::{Answer, Call, Reply};
use crate::history::Event;
use asm_element::{Items, Location, Value};
use std::alloc::{AllocError, Global};

/// An answered call of one agent.
#[derive(Debug, Drop, PartialEq, Eq)]
pub struct Receipt {
    /// What was asked.
    pub call: Call,
    /// What was answered.
    pub answer: Answer,
    /// The number of fired moves on which the answer was judged.
    ///
    /// For `Fired(k)` it is k − 1.
    pub stood: u32,
}

impl Receipt {
    /// Return whether the call fired a move.
    pub(crate) fn is_fired(&self) -> bool
        ensures { result ≡ is_fired self.now }
    {
        match (&self.call, &self.answer) {
            (Call::Fire { .. }, Answer::Fire(Reply::Fired(_))) => true,
            _ => false,
        }
    }

    /// Return the locations and the values of a read, for a later one to share.
    pub(crate) fn lists_of_read(&self) -> Option<(&Items<Location>, &Items<Value>)> {
        match (&self.call, &self.answer) {
            (Call::Read(places), Answer::Read { values, .. }) => Some((places, values)),
            _ => None,
        }
    }

    /// Return the call and the answer as an event of that agent.
    pub(crate) fn event(&self, alloc: Global, agent: u32) -> Result<Event, AllocError>
        ensures { IfOk result (λ e. e ≡ event_of agent self.now) }
    {
        Ok(Event {
            agent,
            call: self.call.copy(alloc)?,
            answer: self.answer.copy(alloc)?,
        })
    }
}
