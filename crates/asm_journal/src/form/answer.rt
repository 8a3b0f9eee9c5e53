//! The JSON of answers: the number and values of a read, and the replies to a fire.
ghost use Rattle.std.specs.Prelude.{◌≡◌, IfOk, codes, map};
ghost use Rattle.serde_json.specs.View.{view};
ghost use Rattle.asm_journal.specs.Form.{IsRead};
ghost use Rattle.asm_journal.specs.Shape.{IsParsed, list_of, two_of, number_json_of};
ghost use Rattle.asm_journal.specs.Value.{value_json_of};
ghost use Rattle.asm_journal.specs.Event.{word_of_cause, clash_json_of, reply_json_of, answer_json_of};
ghost use Rattle.asm_journal.specs.Event.{IsCauseForm, IsClashForm, IsReplyForm, IsAnswerForm};

use crate::form::array::{Listed, list_json, pair_items, pair_of};
use crate::form::fault::{FormCause, FormError, OfPart};
use crate::form::object::{object_of, one_member, two_members};
use crate::form::{FromJson, ToJson, read_number};
use asm_element::{Items, Location, Value};
use asm_storage::{Answer, Reply};
use asm_update::{Cause, Clash};
use serde_json::{Map, Value as Json};
use std::alloc::{AllocError, Global};

/// Return the word by which journals and reports name the cause of a clash.
pub fn word_of_cause(cause: Cause) -> &'static str
    ensures { result.now ≡ word_of_cause cause }
{
    match cause {
        Cause::Two => "Two",
        Cause::Mixed => "Mixed",
        Cause::Kind => "Kind",
        Cause::Both => "Both",
        Cause::Against => "Against",
        Cause::Short => "Short",
        Cause::Large => "Large",
    }
}

/// Read a cause from its word.
fn read_cause(json: &Json) -> Option<Cause>
    ensures { IsParsed IsCauseForm (view json.now) result }
{
    match json.as_str()? {
        "Two" => Some(Cause::Two),
        "Mixed" => Some(Cause::Mixed),
        "Kind" => Some(Cause::Kind),
        "Both" => Some(Cause::Both),
        "Against" => Some(Cause::Against),
        "Short" => Some(Cause::Short),
        "Large" => Some(Cause::Large),
        _ => None,
    }
}

impl ToJson for Clash {
    ghost json_of = { clash_json_of };

    fn to_json(&self, alloc: Global) -> Result<Json, AllocError> {
        let cause = Json::try_from_str(alloc, word_of_cause(self.cause))?;
        pair_of(alloc, self.at.to_json(alloc)?, cause)
    }
}

impl FromJson for Clash {
    ghost is_form = { IsClashForm };

    fn from_json(alloc: Global, json: &Json) -> Result<Clash, FormError> {
        let Some((at, cause)) = pair_items(json) else {
            return Err(FormError::of(alloc, FormCause::Reply));
        };
        let Some(cause) = read_cause(cause) else {
            return Err(FormError::of(alloc, FormCause::Reply));
        };
        let at = Location::from_json(alloc, at).within(0)?;
        Ok(Clash { at, cause })
    }
}

impl ToJson for Reply {
    ghost json_of = { reply_json_of };

    fn to_json(&self, alloc: Global) -> Result<Json, AllocError> {
        match self {
            Reply::Fired(number) => object_of(alloc, "fired", Json::from(*number)),
            Reply::Stale(at) => object_of(alloc, "stale", at.to_json(alloc)?),
            Reply::Clash(clash) => object_of(alloc, "clash", clash.to_json(alloc)?),
            Reply::Full => Json::try_from_str(alloc, "full"),
        }
    }
}

impl FromJson for Reply {
    ghost is_form = { IsReplyForm };

    fn from_json(alloc: Global, json: &Json) -> Result<Reply, FormError> {
        if let Some(word) = json.as_str() {
            return if word == "full" {
                Ok(Reply::Full)
            } else {
                Err(FormError::of(alloc, FormCause::Reply))
            };
        }
        if let Some(number) = one_member(json, "fired") {
            return match read_number(number) {
                Some(number) => Ok(Reply::Fired(number)),
                None => Err(FormError::of(alloc, FormCause::Reply)),
            };
        }
        if let Some(at) = one_member(json, "stale") {
            let at = Location::from_json(alloc, at).at("stale")?;
            return Ok(Reply::Stale(at));
        }
        let Some(clash) = one_member(json, "clash") else {
            return Err(FormError::of(alloc, FormCause::Reply));
        };
        let clash = Clash::from_json(alloc, clash).at("clash")?;
        Ok(Reply::Clash(clash))
    }
}

/// Return the JSON of the answer to a read: its number and its values.
fn values_json(alloc: Global, number: u32, values: &[Value]) -> Result<Json, AllocError>
    ensures { IfOk result (λ json. view json ≡ two_of (codes "number") (number_json_of number)
        (codes "values") (list_of (map value_json_of values.now))) }
{
    let mut members = Map::new(alloc);
    serde_json::put(&mut members, alloc, "number", Json::from(number))?;
    serde_json::put(&mut members, alloc, "values", list_json(alloc, values)?)?;
    Ok(Json::Object(members))
}

impl ToJson for Answer {
    ghost json_of = { answer_json_of };

    fn to_json(&self, alloc: Global) -> Result<Json, AllocError> {
        match self {
            Answer::Read { number, values } => values_json(alloc, *number, values.as_slice()),
            Answer::Fire(reply) => reply.to_json(alloc),
        }
    }
}

/// Read the answer to a read from the JSON of its number and of its values.
fn read_values(alloc: Global, number: &Json, values: &Json) -> Result<Answer, FormError>
    ensures { IsRead IsAnswerForm
        (two_of (codes "number") (view number.now) (codes "values") (view values.now)) result }
{
    let Some(number) = read_number(number) else {
        return Err(FormError::of(alloc, FormCause::Reply));
    };
    let values = Listed::<Value>::from_json(alloc, values).at("values")?;
    Ok(Answer::Read {
        number,
        values: Items::new(values.into_vec()),
    })
}

impl FromJson for Answer {
    ghost is_form = { IsAnswerForm };

    fn from_json(alloc: Global, json: &Json) -> Result<Answer, FormError> {
        match two_members(json, "number", "values") {
            Some((number, values)) => read_values(alloc, number, values),
            None => Ok(Answer::Fire(Reply::from_json(alloc, json)?)),
        }
    }
}
