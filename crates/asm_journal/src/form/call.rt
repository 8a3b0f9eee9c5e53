//! The JSON of calls: reads, and fires with their declared reads; and of events: an agent, its call, and the answer.
ghost use Rattle.std.specs.Prelude.{◌≡◌, IfOk, codes, map};
ghost use Rattle.serde_json.specs.View.{view};
ghost use Rattle.asm_journal.specs.Form.{IsRead};
ghost use Rattle.asm_journal.specs.Shape.{IsParsed, list_of, one_of, two_of};
ghost use Rattle.asm_journal.specs.Event.{named_json_of, move_json_of, call_json_of, event_json_of};
ghost use Rattle.asm_journal.specs.Event.{IsNamedForm, IsMoveForm, IsMoveOf, IsCallForm, IsEventForm};

use crate::form::array::{Listed, list_json, pair_items, pair_of};
use crate::form::fault::{FormCause, FormError, OfPart};
use crate::form::object::{object_of, one_member, three_members, two_members};
use crate::form::{FromJson, ToJson, read_number};
use asm_element::{Items, Location};
use asm_state::Named;
use asm_storage::{Answer, Call, Event};
use asm_update::{Instruction, Instructions, InstructionsError};
use serde_json::{Map, Value as Json};
use std::alloc::{AllocError, Global};

impl ToJson for Named {
    ghost json_of = { named_json_of };

    fn to_json(&self, alloc: Global) -> Result<Json, AllocError> {
        pair_of(alloc, self.at.to_json(alloc)?, Json::from(self.number))
    }
}

impl FromJson for Named {
    ghost is_form = { IsNamedForm };

    fn from_json(alloc: Global, json: &Json) -> Result<Named, FormError> {
        let Some((at, number)) = pair_items(json) else {
            return Err(FormError::of(alloc, FormCause::Read));
        };
        let Some(number) = read_number(number) else {
            return Err(FormError::of(alloc, FormCause::ReadNumber));
        };
        let at = Location::from_json(alloc, at).within(0)?;
        Ok(Named { at, number })
    }
}

impl ToJson for Instructions {
    ghost json_of = { move_json_of };

    fn to_json(&self, alloc: Global) -> Result<Json, AllocError> {
        list_json(alloc, self.as_slice())
    }
}

/// Make a move of the instructions, unless there are more than 4,096.
pub(crate) fn instructions_of(
    alloc: Global,
    list: Vec<Instruction>,
) -> Result<Option<Instructions>, AllocError>
    ensures { IfOk result (IsParsed IsMoveOf list.items) }
{
    match Instructions::from_vec(alloc, list) {
        Ok(instructions) => Ok(Some(instructions)),
        Err(InstructionsError::ManyInstructions) => Ok(None),
        Err(InstructionsError::Memory) => Err(AllocError),
    }
}

impl FromJson for Instructions {
    ghost is_form = { IsMoveForm };

    fn from_json(alloc: Global, json: &Json) -> Result<Instructions, FormError> {
        let read = Listed::<Instruction>::from_json(alloc, json)?;
        let list = read.into_vec();
        let count = list.len();
        match instructions_of(alloc, list)? {
            Some(instrs) => Ok(instrs),
            None => Err(FormError::of(alloc, FormCause::Many(count))),
        }
    }
}

/// Return the JSON of a fire: its instructions and its declared reads.
fn fire_json(alloc: Global, instrs: &Instructions, reads: &[Named]) -> Result<Json, AllocError>
    ensures { IfOk result (λ json. view json ≡ two_of (codes "fire") (move_json_of instrs.now)
        (codes "reads") (list_of (map named_json_of reads.now))) }
{
    let mut members = Map::new(alloc);
    serde_json::put(&mut members, alloc, "fire", instrs.to_json(alloc)?)?;
    serde_json::put(&mut members, alloc, "reads", list_json(alloc, reads)?)?;
    Ok(Json::Object(members))
}

impl ToJson for Call {
    ghost json_of = { call_json_of };

    fn to_json(&self, alloc: Global) -> Result<Json, AllocError> {
        match self {
            Call::Read(locations) => object_of(
                alloc,
                "read",
                list_json(alloc, locations.as_slice())?,
            ),
            Call::Fire { reads, instrs } => fire_json(alloc, instrs, reads.as_slice()),
        }
    }
}

/// Read a fire from the JSON of its instructions and of its declared reads.
fn read_fire(alloc: Global, instrs: &Json, reads: &Json) -> Result<Call, FormError>
    ensures { IsRead IsCallForm
        (two_of (codes "fire") (view instrs.now) (codes "reads") (view reads.now)) result }
{
    let instrs = Instructions::from_json(alloc, instrs).at("fire")?;
    let reads = Listed::<Named>::from_json(alloc, reads).at("reads")?;
    Ok(Call::Fire {
        reads: Items::packed(reads.into_vec()),
        instrs,
    })
}

/// Read a read from the JSON of its locations.
fn read_read(alloc: Global, locations: &Json) -> Result<Call, FormError>
    ensures { IsRead IsCallForm (one_of (codes "read") (view locations.now)) result }
{
    let locations = Listed::<Location>::from_json(alloc, locations).at("read")?;
    Ok(Call::Read(Items::packed(locations.into_vec())))
}

impl FromJson for Call {
    ghost is_form = { IsCallForm };

    fn from_json(alloc: Global, json: &Json) -> Result<Call, FormError> {
        if let Some(locations) = one_member(json, "read") {
            return read_read(alloc, locations);
        }
        match two_members(json, "fire", "reads") {
            Some((instrs, reads)) => read_fire(alloc, instrs, reads),
            None => Err(FormError::of(alloc, FormCause::Call)),
        }
    }
}

impl ToJson for Event {
    ghost json_of = { event_json_of };

    fn to_json(&self, alloc: Global) -> Result<Json, AllocError> {
        let mut members = Map::new(alloc);
        serde_json::put(&mut members, alloc, "agent", Json::from(self.agent))?;
        serde_json::put(&mut members, alloc, "call", self.call.to_json(alloc)?)?;
        serde_json::put(&mut members, alloc, "reply", self.answer.to_json(alloc)?)?;
        Ok(Json::Object(members))
    }
}

impl FromJson for Event {
    ghost is_form = { IsEventForm };

    fn from_json(alloc: Global, json: &Json) -> Result<Event, FormError> {
        let Some((agent, call, reply)) = three_members(json, "agent", "call", "reply") else {
            return Err(FormError::of(alloc, FormCause::Event));
        };
        let Some(agent) = read_number(agent) else {
            return Err(FormError::of(alloc, FormCause::Agent));
        };
        let call = Call::from_json(alloc, call).at("call")?;
        let answer = Answer::from_json(alloc, reply).at("reply")?;
        Ok(Event {
            agent,
            call,
            answer,
        })
    }
}
