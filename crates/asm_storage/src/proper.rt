//! What a history holds is well-formed. A list states that of no item before the item is read, so these walk every
//! list: the goal `proper` of `History::fits` needs it, and the round trip of a journal. That a number is below 2^32,
//! and a move within its limit, is known once the number or the length is read, hence `_number` and `_count`.
ghost use Rattle.std.specs.Prelude.{All};
ghost use Rattle.asm_element.specs.Place as place;
ghost use Rattle.asm_element.specs.Value as value;
ghost use Rattle.asm_storage.specs.Proper.{IsProper, IsProperNamed, IsProperCall, IsProperAnswer, IsProperEvent};

use crate::call::{Answer, Call, Reply};
use crate::history::{Event, History};
use asm_element::{Location, Value};
use asm_state::Named;

// State for proofs that the locations are well-formed; do nothing at run time.
fn proper_locations(places: &[Location])
    ensures { All place.IsProper places.now }
{
    for at in places {
        at.proper();
    }
}

// State for proofs that the values are well-formed; do nothing at run time.
fn proper_values(values: &[Value])
    ensures { All value.IsProper values.now }
{
    for value in values {
        value.proper();
    }
}

// State for proofs that a declared read is well-formed; do nothing at run time.
fn proper_read(read: &Named)
    ensures { IsProperNamed read.now }
{
    read.at.proper();
    let _number = read.number;
}

// State for proofs that the declared reads are well-formed; do nothing at run time.
fn proper_reads(reads: &[Named])
    ensures { All IsProperNamed reads.now }
{
    for read in reads {
        proper_read(read);
    }
}

// State for proofs that a call is well-formed; do nothing at run time.
fn proper_call(call: &Call)
    ensures { IsProperCall call.now }
{
    match call {
        Call::Read(places) => proper_locations(places.as_slice()),
        Call::Fire { reads, instrs } => {
            proper_reads(reads.as_slice());
            instrs.proper();
            let _count = instrs.len();
        }
    }
}

// State for proofs that an answer is well-formed; do nothing at run time.
fn proper_answer(answer: &Answer)
    ensures { IsProperAnswer answer.now }
{
    match answer {
        Answer::Read { number, values } => {
            let _number = *number;
            proper_values(values.as_slice());
        }
        Answer::Fire(Reply::Fired(number)) => {
            let _number = *number;
        }
        Answer::Fire(Reply::Stale(at)) => at.proper(),
        Answer::Fire(Reply::Clash(clash)) => clash.at.proper(),
        Answer::Fire(Reply::Full) => {}
    }
}

/// State for proofs that a call and its answer are well-formed.
///
/// Do nothing at run time.
pub(crate) fn proper_call_and_answer(call: &Call, answer: &Answer)
    ensures call { IsProperCall call.now }
    ensures answer { IsProperAnswer answer.now }
{
    proper_call(call);
    proper_answer(answer);
}

// State for proofs that the events are well-formed; do nothing at run time.
fn proper_events(events: &[Event])
    ensures { All IsProperEvent events.now }
{
    for event in events {
        proper_call_and_answer(&event.call, &event.answer);
    }
}

impl History {
    /// State for proofs that the history is well-formed; do nothing at run time.
    ///
    /// The opening state and the events of every history in a program are well-formed, so each list in it has at most
    /// 4,096 items and nests at most 8 deep.
    pub fn proper(&self)
        ensures { IsProper self.now }
    {
        self.init.proper();
        proper_events(self.events.as_slice());
    }
}
