//! What moves change.
ghost use Rattle.std.specs.Prelude.{◌≡◌, true, None, IfOk, option_map};
ghost use Rattle.serde_json.specs.View.{view};
ghost use Rattle.asm_state.specs.View.{value_at};
ghost use Rattle.asm_storage.specs.History.{move_of};
ghost use Rattle.asm_trace.specs.Change.{change_of, changes_by, changes_of, changes_at, change_by, IsLocal};
ghost use Rattle.asm_trace.specs.Text.{change_json_of, changes_json_of};

use crate::bags::bag_change_json;
use crate::json::{array_of, array_of_one, array_of_three};
use crate::named::named_of;
use crate::sets::set_change_json;
use asm_aggregate::aggregate;
use asm_element::{Element, Location, Value};
use asm_journal::ToJson;
use asm_state::{State, one_change};
use asm_storage::Event;
use asm_update::{AggError, Aggregator, Group, Instructions, Lookup, ResultError, UpdateSet};
use serde_json::Value as Json;
use std::alloc::{AllocError, Global};

/// Return the JSON of a location at which one value takes the place of another.
fn value_change_json(
    alloc: Global,
    at: &Location,
    old: &Value,
    new: &Value,
) -> Result<Json, AllocError>
    ensures { IfOk result (λ json. view json ≡ change_json_of at.now (change_of old.now new.now)) }
{
    match (old, new) {
        (Value::Set(old), Value::Set(new)) => set_change_json(alloc, at, old, new),
        (Value::Bag(old), Value::Bag(new)) => bag_change_json(alloc, at, old, new),
        _ => array_of_three(
            alloc,
            at.to_json(alloc)?,
            old.to_json(alloc)?,
            new.to_json(alloc)?,
        ),
    }
}

/// Return the JSON of a location that gets this value.
fn change_json(alloc: Global, state: &State, at: &Location, new: &Value) -> Result<Json, AllocError>
    ensures { IfOk result (λ json. view json
        ≡ change_json_of at.now (change_of (value_at state.now at.now) new.now)) }
{
    match state.get(at) {
        Some(old) => value_change_json(alloc, at, old, new),
        None => value_change_json(alloc, at, &Value::Plain(Element::Undef), new),
    }
}

/// Return the JSON of what the updates change in the state.
fn updates_json(alloc: Global, state: &State, updates: &UpdateSet) -> Result<Json, AllocError>
    ensures { IfOk result (λ json. view json ≡ changes_json_of (changes_by (value_at state.now) updates.now)) }
{
    let mut list = Vec::new(alloc);
    for (at, value) in updates.iter() {
        list.push(change_json(alloc, state, at, value)?)?;
    }
    Ok(array_of(list))
}

/// Write as JSON what a group of partial updates changes at a location.
///
/// It is nothing if the group clashes. It is made of what the group names, whatever else the value has.
fn group_json<A: Aggregator>(
    alloc: Global,
    aggregator: &A,
    state: &State,
    at: &Location,
    group: &Group,
) -> Result<Json, AllocError>
    requires alone { group.now.regular ≡ None }
    requires local { IsLocal (A.meaning aggregator.now).part }
    ensures { IfOk result (λ json. view json ≡ changes_json_of (changes_at at.now
        (change_by (value_at state.now at.now)
        ((A.meaning aggregator.now).part (value_at state.now at.now) None group.now.partials)))) }
{
    let old = named_of(alloc, state.get(at), group.partials())?;
    match aggregator.result(alloc, Some(&old), group) {
        Ok(new) => array_of_one(alloc, value_change_json(alloc, at, &old, &new)?),
        Err(ResultError::Cause(_)) => Ok(array_of(Vec::new(alloc))),
        Err(ResultError::Memory) => Err(AllocError),
    }
}

/// Return the JSON of what a move changes in the state: nothing where it clashes.
///
/// Its update set is made for it.
fn updated_json<A: Aggregator>(
    alloc: Global,
    aggregator: &A,
    state: &State,
    instructions: &Instructions,
) -> Result<Json, AllocError>
    ensures { IfOk result (λ json. view json ≡ changes_json_of
        (changes_of (A.meaning aggregator.now).part (value_at state.now) instructions.now)) }
{
    match aggregate(alloc, aggregator, state, instructions) {
        Ok(updates) => updates_json(alloc, state, &updates),
        Err(AggError::Clash(_)) => Ok(array_of(Vec::new(alloc))),
        Err(AggError::Memory) => Err(AllocError),
    }
}

/// Write as JSON what a move changes in the state: nothing if it clashes.
///
/// Partial updates of one location are listed by what they name.
fn named_json<A: Aggregator>(
    alloc: Global,
    aggregator: &A,
    state: &State,
    instructions: &Instructions,
) -> Result<Json, AllocError>
    requires { IsLocal (A.meaning aggregator.now).part }
    ensures { IfOk result (λ json. view json ≡ changes_json_of
        (changes_of (A.meaning aggregator.now).part (value_at state.now) instructions.now)) }
{
    match one_change(alloc, instructions)? {
        Some((at, group)) => group_json(alloc, aggregator, state, at, &group),
        None => updated_json(alloc, aggregator, state, instructions),
    }
}

/// Return the JSON of what a move changes in the state: nothing where it clashes.
fn move_json<A: Aggregator>(
    alloc: Global,
    aggregator: &A,
    is_local: bool,
    state: &State,
    instructions: &Instructions,
) -> Result<Json, AllocError>
    requires { is_local ≡ true → IsLocal (A.meaning aggregator.now).part }
    ensures { IfOk result (λ json. view json ≡ changes_json_of
        (changes_of (A.meaning aggregator.now).part (value_at state.now) instructions.now)) }
{
    if is_local {
        named_json(alloc, aggregator, state, instructions)
    } else {
        updated_json(alloc, aggregator, state, instructions)
    }
}

/// Return the JSON of what the event's move changes in the state, if it fired one.
pub(crate) fn event_changes<A: Aggregator>(
    alloc: Global,
    aggregator: &A,
    is_local: bool,
    state: &State,
    event: &Event,
) -> Result<Option<Json>, AllocError>
    requires { is_local ≡ true → IsLocal (A.meaning aggregator.now).part }
    ensures { IfOk result (λ o. option_map view o ≡ option_map changes_json_of
        (option_map (changes_of (A.meaning aggregator.now).part (value_at state.now)) (move_of event.now))) }
{
    match event.fired_move() {
        Some(instructions) => Ok(Some(move_json(
            alloc,
            aggregator,
            is_local,
            state,
            instructions,
        )?)),
        None => Ok(None),
    }
}
