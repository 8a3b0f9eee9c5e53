//! Where and why a text is no journal: its line, counted from 1, and a sentence.
ghost use Rattle.std.specs.Prelude.{◌≡◌, IfOk, IfNone, IfSome, string_bytes};
ghost use Rattle.asm_storage.specs.declared.history.History.{History};
ghost use Rattle.asm_journal.specs.Reading.{ReadsAs};
ghost use Rattle.asm_explain.specs.Lines.{last_line as last_of, line_sentence as sentence_of};
ghost use Rattle.asm_explain.specs.Lines.{ReportsFault, NamesLine, ReportsRefusal};

use crate::fault::{INIT, OBJECT, sentence_of, why_not};
use crate::sentence::{as_one_line, grouped, not_json};
use asm_journal::{FromJson, JournalError, from_text};
use asm_row::CAPACITY_LIMIT;
use asm_storage::{AGENTS_LIMIT, Event};
use asm_update::PlainState;
use serde_json::Value as Json;
use std::alloc::{AllocError, Global};

const HEADER: &str =
    "the first line of a journal is an object with the members agents, capacity, events, init and version";

const VERSION: &str = "a journal has version 1 or 2";

const LISTS: &str = "a journal of version 1 has no lists";

// The whole number that the member of a header is, if it is one up to 4,294,967,295.
fn number_in(header: &Json, key: &str) -> Option<u32> {
    u32::try_from(header.get(key)?.as_u64()?).ok()
}

// The line with this number, which is counted from 1, without its line feed.
fn line_of(text: &[u8], number: u64) -> &[u8] {
    let mut left = number;
    let mut rest = text;
    while left > 1 {
        let Some(end) = rest.iter().position(|byte| *byte == b'\n') else {
            return b"";
        };
        rest = &rest[end + 1..];
        left -= 1;
    }
    match rest.iter().position(|byte| *byte == b'\n') {
        Some(end) => &rest[..end],
        None => rest,
    }
}

// The header, where the first line is JSON.
fn header_of(alloc: Global, text: &[u8]) -> Result<Option<Json>, AllocError> {
    match Json::from_slice(alloc, line_of(text, 1)) {
        Ok(header) => Ok(Some(header)),
        Err(error) if error.is_memory() => Err(AllocError),
        Err(_) => Ok(None),
    }
}

// Whether the member of a header is a number in this range.
fn is_between(header: &Json, key: &str, least: u32, most: u32) -> bool {
    match number_in(header, key) {
        Some(number) => least <= number && number <= most,
        None => false,
    }
}

// The numbers of a header but its version: the key, the least and the most.
static NUMBERS: [(&str, u32, u32); 3] = [
    ("agents", 0, AGENTS_LIMIT),
    ("capacity", 1, CAPACITY_LIMIT),
    ("events", 0, u32::MAX),
];

// What is said of a header's numbers, if one is none.
fn wrong_number(alloc: Global, header: &Json) -> Result<Option<String>, AllocError> {
    for (key, least, most) in NUMBERS.iter() {
        if !is_between(header, key, *least, *most) {
            let most = grouped(alloc, *most as usize)?;
            return Ok(Some(format!(in alloc; "{key} is a whole number, from {least} to {most}")?));
        }
    }
    if !is_between(header, "version", 1, 2) {
        return Ok(Some(String::from_str(alloc, VERSION)?));
    }
    Ok(None)
}

fn has_five_members(header: &Json) -> bool {
    let keys = ["agents", "capacity", "events", "init", "version"];
    match header.as_object() {
        Some(members) => {
            members.len() == keys.len() && keys.iter().all(|key| header.get(*key).is_some())
        }
        None => false,
    }
}

// Why JSON is no header of a journal.
fn wrong_header(alloc: Global, header: &Json) -> Result<String, AllocError> {
    let (true, Some(init)) = (has_five_members(header), header.get("init")) else {
        return String::from_str(alloc, HEADER);
    };
    if let Some(why) = wrong_number(alloc, header)? {
        return Ok(why);
    }
    match why_not::<PlainState>(alloc, INIT, init)? {
        Some(why) => Ok(why),
        None => String::from_str(alloc, LISTS),
    }
}

// Why JSON is no event of a journal of so many agents.
fn wrong_event(alloc: Global, agents: u32, json: &Json) -> Result<String, AllocError> {
    let event = match Event::from_json(alloc, json) {
        Ok(event) => event,
        Err(error) => return sentence_of(alloc, OBJECT, json, error),
    };
    if event.agent >= agents {
        let agent = event.agent;
        return format!(in alloc;
            "the agent is {agent}, and has to be below {agents}, the number of agents in line 1"
        );
    }
    if !event.fits(agents) {
        return String::from_str(
            alloc,
            "the call has more than 256 locations or reads, or its reply answers another call",
        );
    }
    String::from_str(alloc, LISTS)
}

// The number of the line of the last event, by the number of events in the header.
fn last_by(header: &Json) -> u64 {
    match number_in(header, "events") {
        Some(events) => u64::from(events) + 1,
        None => 1,
    }
}

// What is said of a line behind the last one.
fn one_too_many(alloc: Global, line: &[u8], last: u64) -> Result<String, AllocError> {
    let what = if line.is_empty() {
        "an empty line"
    } else {
        "one line too many"
    };
    format!(in alloc; "{what}, the journal ends with line {last}")
}

// Why the line with this number isn't JSON, or has a wrong shape.
fn why_line(alloc: Global, text: &[u8], number: u64) -> Result<String, AllocError> {
    let line = line_of(text, number);
    let header = header_of(alloc, text)?.unwrap_or(Json::Null);
    let last = last_by(&header);
    if number > last {
        return one_too_many(alloc, line, last);
    }
    if line.is_empty() {
        return String::from_str(alloc, "an empty line");
    }
    match Json::from_slice(alloc, line) {
        Ok(header) if number == 1 => wrong_header(alloc, &header),
        Ok(event) => wrong_event(alloc, number_in(&header, "agents").unwrap_or(0), &event),
        Err(error) if error.is_memory() => Err(AllocError),
        Err(error) => not_json(alloc, line, &error, false),
    }
}

// The number of the last line, which has no line feed or isn't there.
fn last_line(text: &[u8]) -> u64
    ensures { result ≡ last_of text.now }
{
    let feeds = text.iter().filter(|byte| **byte == b'\n').count();
    (feeds as u64).saturating_add(1)
}

// Why a journal is cut at the line with this number.
fn why_cut(alloc: Global, text: &[u8], number: u64) -> Result<String, AllocError> {
    if text.is_empty() {
        return String::from_str(alloc, "the text is empty");
    }
    if !line_of(text, number).is_empty() {
        return String::from_str(alloc, "cut off, it has no line feed at its end");
    }
    match header_of(alloc, text)? {
        Some(header) => {
            let last = last_by(&header);
            format!(in alloc; "missing, the journal ends with line {last}")
        }
        None => String::from_str(alloc, "missing"),
    }
}

// The sentence that says this of the line.
fn line_sentence(alloc: Global, line: u64, why: &String) -> Result<String, AllocError>
    ensures { IfOk result (λ s. string_bytes s ≡ sentence_of line (string_bytes why.now)) }
{
    format!(in alloc; "journal line {line}: {why}")
}

// The same, in any case with something behind the line.
fn at_line(alloc: Global, line: u64, said: String) -> Result<String, AllocError>
    ensures { IfOk result (λ s. NamesLine line (string_bytes s)) }
{
    let why = as_one_line(alloc, said)?;
    line_sentence(alloc, line, &why)
}

// The sentence on this fault of the text.
fn sentence(alloc: Global, text: &[u8], fault: JournalError) -> Result<String, AllocError>
    ensures { IfOk result (λ s. ReportsFault text.now fault (string_bytes s)) }
{
    match fault {
        JournalError::NotJson(line) | JournalError::Shape(line) => {
            at_line(alloc, line, why_line(alloc, text, line)?)
        }
        JournalError::Version => at_line(alloc, 1, String::from_str(alloc, VERSION)?),
        JournalError::Cut => {
            let line = last_line(text);
            at_line(alloc, line, why_cut(alloc, text, line)?)
        }
        JournalError::Memory => Err(AllocError),
    }
}

/// Explain where and why a text is no journal; return None if it is one.
///
/// The sentence begins with the line: `journal line 12: an empty line`. `None` is the answer exactly if `from_text`
/// reads the text. Else the sentence names the line of the first fault, and of a journal that is cut the last line,
/// which is missing or has no line feed. The sentence has no line feed. What it says of the line is tested.
///
/// # Errors
///
/// - `AllocError` only if memory is refused.
pub fn explain_journal(alloc: Global, text: &[u8]) -> Result<Option<String>, AllocError>
    ensures accepted { IfOk result (λ said. IfNone said ((h : History) × ReadsAs text.now h)) }
    ensures refused { IfOk result (λ said. IfSome said (λ s. ReportsRefusal text.now (string_bytes s))) }
{
    let fault = match from_text(alloc, text) {
        Ok(_history) => return Ok(None),
        Err(fault) => fault,
    };
    Ok(Some(sentence(alloc, text, fault)?))
}
