//! The first wrong answer of a journal, next to the right one.
use asm_driver::shown_text;
use asm_element::{Location, Value};
use asm_journal::{ToJson, from_text, judge_event, value_json};
use asm_play::aggregator::script_aggregator;
use asm_state::State;
use asm_storage::{Call, Event};
use asm_trace::push_standard_note;
use asm_update::Lookup;
use serde_json::Value as Json;
use std::alloc::{AllocError, Global};

// How many bytes of an answer are made, of which fewer are shown.
const ANSWER_BYTES: usize = 1000;

// Return the value of a location as JSON.
fn value_text(alloc: Global, value: Option<&Value>) -> Result<String, AllocError> {
    match value {
        Some(value) => value_json(alloc, value)?.to_string(alloc),
        None => String::from_str(alloc, "null"),
    }
}

// Return the right answer to a read of these locations, or its beginning.
fn right_read(alloc: Global, state: &State, places: &[Location]) -> Result<String, AllocError> {
    let number = state.number();
    let mut text = format!(in alloc; "{{\"number\":{number},\"values\":[")?;
    for (index, place) in places.iter().enumerate() {
        if text.len() > ANSWER_BYTES {
            return Ok(text);
        }
        if index > 0 {
            text.push_str(",")?;
        }
        text.push_str(value_text(alloc, state.get(place))?.as_str())?;
    }
    text.push_str("]}")?;
    Ok(text)
}

// Return the right answer in the note of an event.
fn right_of_note(alloc: Global, record_last: &str) -> Result<String, AllocError> {
    match Json::from_slice(alloc, record_last.as_bytes()) {
        Ok(json) => match json.get("right") {
            Some(right) => right.to_string(alloc),
            None => String::from_str(alloc, "another"),
        },
        Err(_) => String::from_str(alloc, "another"),
    }
}

// Return the right answer to the call of the event with this number, after those that the state has followed.
fn right_answer(
    alloc: Global,
    state: &mut State,
    capacity: u32,
    number: u64,
    event: &Event,
) -> Result<String, AllocError> {
    if let Call::Read(places) = &event.call {
        return right_read(alloc, state, places.as_slice());
    }
    if state.number() == u32::MAX {
        return String::from_str(alloc, "another");
    }
    let mut record_last = String::new(alloc);
    push_standard_note(alloc, &mut record_last, state, capacity, number, event)?;
    right_of_note(alloc, record_last.as_str())
}

// Return what is said of the event with this number.
fn answer_sentence(
    alloc: Global,
    state: &mut State,
    capacity: u32,
    number: u64,
    event: &Event,
) -> Result<String, AllocError> {
    let right = right_answer(alloc, state, capacity, number, event)?;
    let right = shown_text(alloc, right.as_str())?;
    let call = shown_text(alloc, event.call.to_json(alloc)?.to_string(alloc)?.as_str())?;
    let reply = shown_text(
        alloc,
        event.answer.to_json(alloc)?.to_string(alloc)?.as_str(),
    )?;
    let (agent, line) = (event.agent, number.saturating_add(2));
    format!(in alloc;
        "line {line}: agent {agent} was answered {reply}, where {right} is right (call {number}: {call})"
    )
}

/// Describe the call of a journal whose answer is wrong, and the right answer.
/// It returns `None` if no answer is wrong, or if the bytes don't read as a journal.
pub(crate) fn wrong_answer(alloc: Global, bytes: &[u8]) -> Result<Option<String>, AllocError> {
    let Ok(history) = from_text(alloc, bytes) else {
        return Ok(None);
    };
    let mut state = State::new(alloc, history.init.copy(alloc)?)?;
    for (number, event) in history.events.as_slice().iter().enumerate() {
        if !judge_event(
            alloc,
            &script_aggregator(),
            &mut state,
            history.capacity,
            event,
        )? {
            let sentence = answer_sentence(
                alloc,
                &mut state,
                history.capacity,
                number as u64,
                event,
            )?;
            return Ok(Some(sentence));
        }
    }
    Ok(None)
}
