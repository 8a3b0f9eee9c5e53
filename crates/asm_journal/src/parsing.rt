//! How a text is parsed as a journal.
ghost use Rattle.std.specs.Prelude.{◌≡◌, ◌≤◌, ◌<◌, ◌+◌, ◌↔◌, ℕ, List, length, IsTrue, IfOk, IfErr, IfSome, IfNone};
ghost use Rattle.serde_json.specs.Data.{Data};
ghost use Rattle.serde_json.specs.View.{view};
ghost use Rattle.asm_row.specs.Limits.{capacity_limit};
ghost use Rattle.asm_storage.specs.History.{Fits};
ghost use Rattle.asm_storage.specs.Limits.{agents_limit};
ghost use Rattle.asm_storage.specs.Proper.{IsProper};
ghost use Rattle.asm_storage.specs.declared.history.Event.{Event as Item};
ghost use Rattle.asm_storage.specs.declared.history.History.{History as Log};
ghost use Rattle.asm_journal.specs.Shape.{IsParsed, IsVersion};
ghost use Rattle.asm_journal.specs.Event.{IsEventBelow};
ghost use Rattle.asm_journal.specs.Reading.{AreNumbers, HasLine, IsHeader, HasEvents, ReadsAs};
ghost use Rattle.asm_journal.specs.Fault.{HasOtherVersion, BreaksHeader, BreaksEvent, IsRefused, GivesHistory};

use crate::error::JournalError;
use crate::form::{five_members, read_form, read_number};
use crate::front::FromFront;
use crate::front::scalars::{behind, number};
use crate::line::json_line;
use crate::version::{is_of_version, is_version};
use asm_element::Items;
use asm_row::CAPACITY_LIMIT;
use asm_storage::{AGENTS_LIMIT, Event, History};
use asm_update::PlainState;
use serde_json::Value as Json;
use std::alloc::{AllocError, Global};

/// What the header of a journal says.
#[derive(Drop)]
pub struct Header {
    /// The numbers of the journal.
    pub limits: Limits,
    /// The state with which the storage opened.
    pub init: PlainState,
}

/// Return whether the value is an object with another version than 1 and 2.
///
/// Its version is a whole number.
fn has_other_version(json: &Json) -> bool
    ensures { IsTrue result ↔ HasOtherVersion (view json.now) }
{
    match json.get("version").and_then(Json::as_number) {
        Some(version) => {
            !version.is_f64() && version.as_u64() != Some(1) && version.as_u64() != Some(2)
        }
        None => false,
    }
}

/// The numbers in the header of a journal.
#[derive(Clone, Copy, Drop)]
pub struct Limits {
    /// How many agents there are, at most 256: each agent's number is below.
    pub agents: u32,
    /// The most moves that the storage takes, from 1 to 1,048,576.
    pub capacity: u32,
    /// How many events follow the header, each on a line of its own.
    pub events: u32,
    /// The version of the journal, 1 or 2.
    pub version: u32,
}

/// Return whether a journal of this version is read.
///
/// It must be allowed so many agents and this capacity.
fn are_supported(version: u32, agents: u32, capacity: u32) -> bool
    ensures { IsTrue result ↔ (IsVersion version
        × (agents ≤ agents_limit) × (1 ≤ capacity) × (capacity ≤ capacity_limit)) }
{
    is_version(version) && agents <= AGENTS_LIMIT && 1 <= capacity && capacity <= CAPACITY_LIMIT
}

/// Read the numbers of a header.
///
/// `None` means that one is outside its limits, or that no journal of the version is read.
fn limits_of(agents: &Json, capacity: &Json, events: &Json, version: &Json) -> Option<Limits>
    ensures some { IfSome result (λ l. AreNumbers l.version l.agents l.capacity l.events
        (view agents.now) (view capacity.now) (view events.now) (view version.now)) }
    ensures none { IfNone result ((v a c n : ℕ) → ¬ AreNumbers v a c n
        (view agents.now) (view capacity.now) (view events.now) (view version.now)) }
{
    let agents = read_number(agents)?;
    let capacity = read_number(capacity)?;
    let events = read_number(events)?;
    let version = read_number(version)?;
    if !are_supported(version, agents, capacity) {
        return None;
    }
    Some(Limits {
        agents,
        capacity,
        events,
        version,
    })
}

/// Read a header from the value of its line.
fn header_from(alloc: Global, json: &Json) -> Result<Option<Header>, AllocError>
    ensures { IfOk result (IsParsed (λ h d. IsHeader h.limits.version h.limits.agents h.limits.capacity
        h.limits.events h.init d) (view json.now)) }
{
    let members = five_members(json, "agents", "capacity", "events", "init", "version");
    let Some((agents, capacity, events, init, version)) = members else {
        return Ok(None);
    };
    let Some(limits) = limits_of(agents, capacity, events, version) else {
        return Ok(None);
    };
    if !is_of_version(json, limits.version) {
        return Ok(None);
    }
    match read_form::<PlainState>(alloc, init)? {
        Some(init) => Ok(Some(Header { limits, init })),
        None => Ok(None),
    }
}

/// Read a header of version 2 from a first line in compact JSON.
///
/// The text after that line is returned too. `None` says nothing about the text.
fn compact_header(alloc: Global, text: &[u8]) -> Option<(Header, &[u8])>
    ensures { IfSome result (λ p. (d : Data) × HasLine text.now d p.1.now
        × IsHeader p.0.limits.version p.0.limits.agents p.0.limits.capacity p.0.limits.events p.0.init d) }
{
    let first = behind(text, b"{\"agents\":")?;
    let (agents, left) = number(first)?;
    let second = behind(left, b",\"capacity\":")?;
    let (capacity, next) = number(second)?;
    let third = behind(next, b",\"events\":")?;
    let (events, later) = number(third)?;
    let fourth = behind(later, b",\"init\":")?;
    let (init, end) = PlainState::from_front(alloc, fourth)?;
    let rest = behind(end, b",\"version\":2}\n")?;
    if !are_supported(2, agents, capacity) {
        return None;
    }
    let limits = Limits {
        agents,
        capacity,
        events,
        version: 2,
    };
    Some((Header { limits, init }, rest))
}

/// Read a header as `read_header` does, by way of a value of `serde_json`.
///
/// It has a stack frame of its own.
#[inline(never)]
fn header_by_tree(alloc: Global, text: &[u8]) -> Result<(Header, &[u8]), JournalError>
    ensures ok { IfOk result (λ p. (d : Data) × HasLine text.now d p.1.now
        × IsHeader p.0.limits.version p.0.limits.agents p.0.limits.capacity p.0.limits.events p.0.init d) }
    ensures err { IfErr result (BreaksHeader text.now) }
{
    let (json, rest) = json_line(alloc, text, 1)?;
    if has_other_version(&json) {
        return Err(JournalError::Version);
    }
    match header_from(alloc, &json)? {
        Some(header) => Ok((header, rest)),
        None => Err(JournalError::Shape(1)),
    }
}

/// Read a header from the first line of a text, and return the text after it too.
///
/// It costs one pass over the line, and doesn't look at what follows.
///
/// # Errors
///
/// - `Cut` if the text is empty, or its first line is JSON that no line feed ends.
/// - `NotJson(1)` if the first line isn't JSON.
/// - `Version` if it is an object whose version is a whole number other than 1 and 2.
/// - `Shape(1)` if it is other JSON, and no header.
/// - `Memory` only if memory is refused.
pub fn read_header(alloc: Global, text: &[u8]) -> Result<(Header, &[u8]), JournalError>
    ensures ok { IfOk result (λ p. (d : Data) × HasLine text.now d p.1.now
        × IsHeader p.0.limits.version p.0.limits.agents p.0.limits.capacity p.0.limits.events p.0.init d) }
    ensures err { IfErr result (BreaksHeader text.now) }
{
    match compact_header(alloc, text) {
        Some(read) => Ok(read),
        None => header_by_tree(alloc, text),
    }
}

/// Read an event of version 2 from a first line in compact JSON.
///
/// The text after that line is returned too. `None` says nothing about the text.
fn compact_event(alloc: Global, text: &[u8], limits: Limits) -> Option<(Event, &[u8])>
    ensures { IfSome result (λ p. (d : Data) × HasLine text.now d p.1.now
        × IsEventBelow limits.version limits.agents p.0 d) }
{
    if limits.version != 2 {
        return None;
    }
    let (event, left) = Event::from_front(alloc, text)?;
    let (byte, rest) = left.split_first()?;
    if *byte != b'\n' {
        return None;
    }
    if !event.fits(limits.agents) {
        return None;
    }
    Some((event, rest))
}

/// Read an event as `read_event` does, by way of a value of `serde_json`.
///
/// It has a stack frame of its own.
#[inline(never)]
fn event_by_tree(
    alloc: Global,
    text: &[u8],
    number: u64,
    limits: Limits,
) -> Result<(Event, &[u8]), JournalError>
    ensures ok { IfOk result (λ p. (d : Data) × HasLine text.now d p.1.now
        × IsEventBelow limits.version limits.agents p.0 d) }
    ensures err { IfErr result (BreaksEvent limits.version limits.agents number text.now) }
{
    let (json, rest) = json_line(alloc, text, number)?;
    if !is_of_version(&json, limits.version) {
        return Err(JournalError::Shape(number));
    }
    match read_form::<Event>(alloc, &json)? {
        Some(event) if event.fits(limits.agents) => Ok((event, rest)),
        _ => Err(JournalError::Shape(number)),
    }
}

/// Read an event from the first line of a text, and return the text after it too.
///
/// It is read as one of a journal with this version and so many agents. `number` is the line's number in the journal,
/// which the errors name. It costs one pass over the line, in version 1 one more over its value, and doesn't look at
/// what follows.
///
/// # Errors
///
/// - `Cut` if the text is empty, or its first line is JSON that no line feed ends.
/// - `NotJson(number)` if the first line isn't JSON.
/// - `Shape(number)` if it is JSON, and no event of such a journal, perhaps as its agent's number isn't below the
///   number of agents or, in version 1, as it has a list.
/// - `Memory` only if memory is refused.
pub fn read_event(
    alloc: Global,
    text: &[u8],
    number: u64,
    limits: Limits,
) -> Result<(Event, &[u8]), JournalError>
    ensures ok { IfOk result (λ p. (d : Data) × HasLine text.now d p.1.now
        × IsEventBelow limits.version limits.agents p.0 d) }
    ensures err { IfErr result (BreaksEvent limits.version limits.agents number text.now) }
{
    match compact_event(alloc, text, limits) {
        Some(read) => Ok(read),
        None => event_by_tree(alloc, text, number, limits),
    }
}

/// Read as many events as the limits say, each on its line, and return the rest.
fn read_events(
    alloc: Global,
    text: &[u8],
    limits: Limits,
) -> Result<(Vec<Event>, &[u8]), JournalError>
    ensures ok { IfOk result (λ p. (length p.0.items ≡ limits.events)
        × HasEvents limits.version limits.agents text.now p.0.items p.1.now) }
    ensures err { IfErr result (λ e. (es : List Item) × (left : List ℕ)
        × HasEvents limits.version limits.agents text.now es left × (length es < limits.events)
        × BreaksEvent limits.version limits.agents (length es + 2) left e) }
{
    let mut events = Vec::new(alloc);
    let mut rest = text;
    for index in 0..limits.events {
        let (event, after) = read_event(alloc, rest, u64::from(index) + 2, limits)?;
        events.push(event)?;
        rest = after;
    }
    Ok((events, rest))
}

/// Read a journal, or return its first fault.
fn read_journal(alloc: Global, bytes: &[u8]) -> Result<History, JournalError>
    ensures ok { IfOk result (ReadsAs bytes.now) }
    ensures err { IfErr result (IsRefused bytes.now) }
    ensures proper { IfOk result IsProper }
{
    let (header, rest) = read_header(alloc, bytes)?;
    let limits = header.limits;
    let (events, rest) = read_events(alloc, rest, limits)?;
    if !rest.is_empty() {
        return Err(JournalError::Shape(u64::from(limits.events) + 2));
    }
    let history = History {
        init: header.init,
        capacity: limits.capacity,
        agents: limits.agents,
        events: Items::new(events),
    };
    history.proper();
    Ok(history)
}

/// Read a journal, of version 1 or 2, or return its first fault.
///
/// Lines are judged in turn: a line that isn't JSON is `NotJson`, a text that ends before a line or before its line
/// feed is `Cut`, and a line of a wrong shape is `Shape`, in this order for each line. Another version in the header is
/// `Version`, before the header's shape. In version 1 a line with a list in it has a wrong shape. Bytes behind the last
/// line are one line more, of a wrong shape.
///
/// It costs one pass over the text, and in version 1 one more over each line's value. No memory is reserved by the
/// numbers in the header. A history that was read fits a journal, so it may be written as one.
///
/// # Errors
///
/// - `Memory` only if memory is refused.
pub fn from_text(alloc: Global, bytes: &[u8]) -> Result<History, JournalError>
    ensures ok { IfOk result (ReadsAs bytes.now) }
    ensures err { IfErr result (IsRefused bytes.now) }
    // A text that reads as a history is answered with it, unless memory is refused.
    ensures only { (h : Log) → ReadsAs bytes.now h → GivesHistory h result }
    // A history that was read may be written.
    ensures fits { IfOk result Fits }
{
    read_journal(alloc, bytes)
}
