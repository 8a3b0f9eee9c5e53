//! The text of a history.
ghost use Rattle.std.specs.Prelude.{◌≡◌, ◌≤◌, ◌++◌, false, length, IfOk, OnOk, string_bytes};
ghost use Rattle.serde_json.specs.Data.{no_members};
ghost use Rattle.serde_json.specs.View.{members_view, view};
ghost use Rattle.serde_json.specs.Written.{has_float};
ghost use Rattle.asm_storage.specs.History.{Fits};
ghost use Rattle.asm_storage.specs.Limits.{events_limit};
ghost use Rattle.asm_journal.specs.Event.{event_json_of};
ghost use Rattle.asm_journal.specs.Text.{header_members_of, header_of, line, numbers_members_of, state_json_of, text_of};

use crate::form::ToJson;
use crate::spelling::{ToText, push_member, push_sign};
use asm_storage::{Closing, Event, History};
use asm_update::PlainState;
use serde_json::{Map, Value as Json};
use std::alloc::{AllocError, Global};

/// The contents of a header.
///
/// They are the numbers of agents, of moves that there is room for and of events, and the opening state.
#[derive(Drop)]
struct Numbers<'a> {
    agents: u32,
    capacity: u32,
    events: u32,
    init: &'a PlainState,
}

impl Numbers<'_> {
    fn members(&self, alloc: Global) -> Result<Map<String, Json>, AllocError>
        ensures { IfOk result (λ members. members_view members.entries ≡ numbers_members_of
            self.now.agents self.now.capacity self.now.events self.now.init.now no_members) }
    {
        let mut members = Map::new(alloc);
        serde_json::put(&mut members, alloc, "agents", Json::from(self.agents))?;
        serde_json::put(&mut members, alloc, "capacity", Json::from(self.capacity))?;
        serde_json::put(&mut members, alloc, "events", Json::from(self.events))?;
        serde_json::put(&mut members, alloc, "init", self.init.to_json(alloc)?)?;
        Ok(members)
    }

    /// Return the text of a journal's header: its line.
    fn header_line(&self, alloc: Global) -> Result<String, AllocError>
        ensures { IfOk result (λ text. string_bytes text ≡ line (header_of
            self.now.agents self.now.capacity self.now.events (state_json_of self.now.init.now))) }
    {
        let mut text = String::with_capacity(alloc, 128)?;
        push_sign(&mut text, '{')?;
        push_member(alloc, &mut text, false, "agents", &self.agents)?;
        push_member(alloc, &mut text, true, "capacity", &self.capacity)?;
        push_member(alloc, &mut text, true, "events", &self.events)?;
        push_member(alloc, &mut text, true, "init", self.init)?;
        push_member(alloc, &mut text, true, "version", &2u32)?;
        push_sign(&mut text, '}')?;
        push_sign(&mut text, '\n')?;
        Ok(text)
    }
}

// The numbers in the history's header.
fn numbers_of(history: &History) -> Numbers<'_>
    requires { length history.now.events ≤ events_limit }
    ensures agents { result.agents ≡ history.now.agents }
    ensures capacity { result.capacity ≡ history.now.capacity }
    ensures events { result.events ≡ length history.now.events }
    ensures init { result.init.now ≡ history.now.init }
{
    Numbers {
        agents: history.agents,
        capacity: history.capacity,
        events: history.events.as_slice().len() as u32,
        init: &history.init,
    }
}

/// Return what the headers of a history's journal and of its trace have in common.
///
/// It is the header's numbers and the opening state, without a version. There are at most as many events as a journal
/// has.
///
/// # Errors
///
/// - `AllocError` only if memory is refused.
pub fn header_members(alloc: Global, history: &History) -> Result<Map<String, Json>, AllocError>
    requires { length history.now.events ≤ events_limit }
    ensures { IfOk result (λ members. members_view members.entries ≡ header_members_of history.now no_members) }
{
    numbers_of(history).members(alloc)
}

/// Append the compact text of a value without floats, and a line feed.
///
/// # Errors
///
/// - `AllocError` only if memory is refused.
pub fn push_line(alloc: Global, text: &mut String, json: &Json) -> Result<(), AllocError>
    requires { has_float (view json.now) ≡ false }
    ensures { OnOk result (string_bytes text.new ≡ string_bytes text.old ++ line (view json.now)) }
{
    let body = json.to_string(alloc)?;
    text.push_str(body.as_str())?;
    text.push_str("\n")?;
    Ok(())
}

// Appends the line of an event.
fn push_event(alloc: Global, text: &mut String, event: &Event) -> Result<(), AllocError>
    ensures { OnOk result (string_bytes text.new ≡ string_bytes text.old ++ line (event_json_of event.now)) }
{
    event.push_text(alloc, text)?;
    push_sign(text, '\n')?;
    Ok(())
}

/// Write a history as a journal of version 2: a header, and a line for each event.
///
/// The history must be within the limits of a journal, which `History::fits` tests. It costs one pass over the text.
///
/// # Errors
///
/// - `AllocError` only if memory is refused.
pub fn to_text(alloc: Global, history: &History) -> Result<String, AllocError>
    requires { Fits history.now }
    ensures { IfOk result (λ s. string_bytes s ≡ text_of history.now) }
{
    let mut text = numbers_of(history).header_line(alloc)?;
    for event in history.events.as_slice() {
        push_event(alloc, &mut text, event)?;
    }
    Ok(text)
}

/// Write the history of agents as `to_text` does, with one event in memory.
///
/// Each event is made for its line and then dropped. The history must be within the limits of a journal, which
/// `Closing::fits` tests.
///
/// # Errors
///
/// - `AllocError` only if memory is refused.
pub fn closing_text(alloc: Global, closing: &Closing<'_>) -> Result<String, AllocError>
    requires { Fits closing.now }
    ensures { IfOk result (λ s. string_bytes s ≡ text_of closing.now) }
{
    let numbers = Numbers {
        agents: closing.agents(),
        capacity: closing.capacity(),
        events: closing.len() as u32,
        init: closing.init(),
    };
    let mut text = numbers.header_line(alloc)?;
    for number in 0..closing.len() {
        push_event(alloc, &mut text, &closing.event(alloc, number)?)?;
    }
    Ok(text)
}
