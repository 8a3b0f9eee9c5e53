//! Events, judged and written one by one.
ghost use Rattle.std.specs.Prelude.{◌≡◌, ◌<◌, ◌++◌, ◌∷◌, [], true, List, IfOk, OnOk, filter, map, option_map, string_bytes};
ghost use Rattle.serde_json.specs.View.{view};
ghost use Rattle.asm_element.specs.Value.{value_eq};
ghost use Rattle.asm_update.specs.State as plain;
ghost use Rattle.asm_update.specs.Move.{Move};
ghost use Rattle.asm_state.specs.View.{value_at};
ghost use Rattle.asm_state.specs.FollowsFrom.{FollowsFrom};
ghost use Rattle.asm_storage.specs.Limits.{events_limit};
ghost use Rattle.asm_storage.specs.Machine.{reply_to};
ghost use Rattle.asm_storage.specs.declared.call.Answer.TheVariants as answer;
ghost use Rattle.asm_storage.specs.declared.call.Call.TheVariants as call;
ghost use Rattle.asm_journal.specs.Check.{machine, judged_reply, moves_with};
ghost use Rattle.asm_journal.specs.Shape.{list_of, number_json_of};
ghost use Rattle.asm_trace.specs.Change.{IsLocal};
ghost use Rattle.asm_trace.specs.Text.{differing_positions, event_with, is_other_at, right_json_of, IsRightJson, IsJudgedAs, IsNoteAppended};

use crate::changes::event_changes;
use crate::json::{array_of, differs_and_number, put_some};
use asm_element::{Element, Items, Location, Value};
use asm_journal::{ToJson, judge_event, push_line};
use asm_state::{Named, Objection, State};
use asm_storage::{Answer, Call, Event, Reply};
use asm_update::{Aggregator, Instructions, Lookup};
use serde_json::{Map, Value as Json};
use std::alloc::{AllocError, Global};

/// Return the value of a location, in its own memory.
fn held(alloc: Global, state: &State, at: &Location) -> Result<Value, AllocError>
    ensures { IfOk result (λ v. v ≡ value_at state.now at.now) }
{
    Value::copy_or_undef(alloc, state.get(at))
}

/// Return the values of the locations, in their order.
fn all_held(alloc: Global, state: &State, places: &[Location]) -> Result<Vec<Value>, AllocError>
    ensures { IfOk result (λ values. values.items ≡ map (value_at state.now) places.now) }
{
    let mut values = Vec::new(alloc);
    for place in places {
        values.push(held(alloc, state, place)?)?;
    }
    Ok(values)
}

/// Return the reply to a move with this objection or with none.
///
/// `number` moves were fired before it.
fn reply_of(objection: Option<Objection>, capacity: u32, number: u32) -> Reply
    ensures { result ≡ judged_reply capacity number objection }
{
    match objection {
        Some(Objection::Stale(at)) => Reply::Stale(at),
        Some(Objection::Clash(clash)) => Reply::Clash(clash),
        None => {
            if number < capacity {
                Reply::Fired(number + 1)
            } else {
                Reply::Full
            }
        }
    }
}

/// Return the sequential storage's reply to the move.
///
/// It is the reply after the moves that the state has followed.
fn right_reply<A: Aggregator>(
    alloc: Global,
    aggregator: &A,
    state: &State,
    capacity: u32,
    reads: &[Named],
    instructions: &Instructions,
) -> Result<Reply, AllocError>
    ensures { IfOk result (λ reply. (init : plain.State) (q : List Move) →
        FollowsFrom (A.meaning aggregator.now).part init state.now q →
        answer.Fire reply ≡ reply_to (machine (A.meaning aggregator.now).part init capacity) q
        (call.Fire reads.now instructions.now)) }
{
    let objection = state.objection(alloc, aggregator, reads, instructions)?;
    Ok(reply_of(objection, capacity, state.number()))
}

/// Follow the event's move, if it fired one, whatever the right answer is.
fn follow_event<A: Aggregator>(
    alloc: Global,
    aggregator: &A,
    state: &mut State,
    event: &Event,
) -> Result<(), AllocError>
    requires { state.old.number < events_limit }
    ensures { OnOk result ((init : plain.State) (q : List Move) →
        FollowsFrom (A.meaning aggregator.now).part init state.old q →
        FollowsFrom (A.meaning aggregator.now).part init state.new (moves_with q event.now)) }
{
    match event.fired_move() {
        Some(instructions) => state.follow(alloc, aggregator, instructions),
        None => Ok(()),
    }
}

/// Return whether the state has the value at the location.
fn is_held(state: &State, at: &Location, given: &Value) -> bool
    ensures { result ≡ value_eq given.now (value_at state.now at.now) }
{
    match state.get(at) {
        Some(held) => given == held,
        None => given == &Value::Plain(Element::Undef),
    }
}

/// Return whether the right value at this position was not answered.
///
/// The right value is the one that the state has at the location there.
fn differs_at(given: &[Value], state: &State, places: &[Location], i: usize) -> bool
    ensures { result ≡ is_other_at given.now (map (value_at state.now) places.now) i }
{
    match (given.get(i), places.get(i)) {
        (Some(given), Some(at)) => !is_held(state, at, given),
        (None, Some(_)) => true,
        _ => false,
    }
}

/// Add the position, where the right value was not answered.
fn push_other(
    alloc: Global,
    list: &mut Vec<Json>,
    given: &[Value],
    state: &State,
    places: &[Location],
    i: usize,
) -> Result<(), AllocError>
    ensures { OnOk result (map view list.new.items ≡ map view list.old.items
        ++ map number_json_of (filter (is_other_at given.now (map (value_at state.now) places.now)) (i ∷ []))) }
{
    if differs_at(given, state, places, i) {
        list.push(Json::from(i as u64))?;
    }
    Ok(())
}

/// Return the JSON of the positions of the right values that were not answered.
///
/// The right values are those of the state, which are compared where they are.
fn positions_json(
    alloc: Global,
    given: &[Value],
    state: &State,
    places: &[Location],
) -> Result<Json, AllocError>
    ensures { IfOk result (λ json. view json ≡ list_of (map number_json_of
        (differing_positions given.now (map (value_at state.now) places.now)))) }
{
    let mut list = Vec::new(alloc);
    for i in 0..places.len() {
        push_other(alloc, &mut list, given, state, places, i)?;
    }
    Ok(array_of(list))
}

/// Return the JSON of the right answer to a read beside the given answer.
fn right_read_json(
    alloc: Global,
    state: &State,
    places: &[Location],
    given: &Answer,
) -> Result<Json, AllocError>
    ensures { IfOk result (λ json. view json
        ≡ right_json_of given.now (answer.Read state.now.number (map (value_at state.now) places.now))) }
{
    match given {
        Answer::Read { values, .. } => {
            let positions = positions_json(alloc, values.as_slice(), state, places)?;
            differs_and_number(alloc, positions, Json::from(state.number()))
        }
        Answer::Fire(_) => {
            let number = state.number();
            let values = Items::new(all_held(alloc, state, places)?);
            Answer::Read { number, values }.to_json(alloc)
        }
    }
}

/// Return the JSON of the right answer beside the event's own.
///
/// It is the answer after the moves that the state has followed.
fn right_json<A: Aggregator>(
    alloc: Global,
    aggregator: &A,
    state: &State,
    capacity: u32,
    event: &Event,
) -> Result<Json, AllocError>
    ensures { IfOk result (λ json. IsRightJson (A.meaning aggregator.now).part capacity event.now state.now (view json)) }
{
    match &event.call {
        Call::Read(places) => right_read_json(alloc, state, places.as_slice(), &event.answer),
        Call::Fire { reads, instrs } => {
            let reply = right_reply(alloc, aggregator, state, capacity, reads.as_slice(), instrs)?;
            reply.to_json(alloc)
        }
    }
}

/// Return the JSON of the right answer to the event's call, if the event has another.
///
/// It is the answer after the moves that the state has followed. The state follows the event's move.
fn other_json<A: Aggregator>(
    alloc: Global,
    aggregator: &A,
    state: &mut State,
    capacity: u32,
    event: &Event,
) -> Result<Option<Json>, AllocError>
    requires { state.old.number < events_limit }
    ensures { IfOk result (λ o. IsJudgedAs (A.meaning aggregator.now).part capacity
        event.now state.old state.new (option_map view o)) }
{
    if judge_event(alloc, aggregator, state, capacity, event)? {
        return Ok(None);
    }
    let right = right_json(alloc, aggregator, state, capacity, event)?;
    follow_event(alloc, aggregator, state, event)?;
    Ok(Some(right))
}

/// Write as JSON the event with this number.
///
/// It has the right answer if there is another, and what its move changes if it fired one.
fn note_json(
    alloc: Global,
    number: u64,
    event: &Event,
    right: Option<Json>,
    changes: Option<Json>,
) -> Result<Json, AllocError>
    ensures { IfOk result (λ json. view json
        ≡ event_with number event.now (option_map view right) (option_map view changes)) }
{
    let mut members = Map::new(alloc);
    serde_json::put(&mut members, alloc, "agent", Json::from(event.agent))?;
    serde_json::put(&mut members, alloc, "call", event.call.to_json(alloc)?)?;
    serde_json::put(&mut members, alloc, "event", Json::from(number))?;
    serde_json::put(&mut members, alloc, "reply", event.answer.to_json(alloc)?)?;
    put_some(alloc, &mut members, "right", right)?;
    put_some(alloc, &mut members, "updates", changes)?;
    Ok(Json::Object(members))
}

/// Append the line of the event with this number.
///
/// The event comes after the moves that the state has followed. The state follows the event's move.
pub(crate) fn push_note<A: Aggregator>(
    alloc: Global,
    aggregator: &A,
    is_local: bool,
    text: &mut String,
    state: &mut State,
    capacity: u32,
    number: u64,
    event: &Event,
) -> Result<(), AllocError>
    requires few { state.old.number < events_limit }
    requires local { is_local ≡ true → IsLocal (A.meaning aggregator.now).part }
    ensures { OnOk result (IsNoteAppended (A.meaning aggregator.now).part capacity number event.now state.old state.new
        (string_bytes text.old) (string_bytes text.new)) }
{
    let changes = event_changes(alloc, aggregator, is_local, state, event)?;
    let right = other_json(alloc, aggregator, state, capacity, event)?;
    let json = note_json(alloc, number, event, right, changes)?;
    push_line(alloc, text, &json)
}
