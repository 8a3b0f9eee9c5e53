//! The JSON of states and update sets: locations with their values.
ghost use Rattle.std.specs.Prelude.{◌≡◌, ◌||◌, IfOk, OnOk, is_some, if◌then◌else◌};
ghost use Rattle.std.specs.Prelude as list;
ghost use Rattle.std.specs.FinMap as map;
ghost use Rattle.serde_json.specs.View.{view};
ghost use Rattle.asm_element.specs.Value.{is_undef};
ghost use Rattle.asm_journal.specs.Shape.{IsParsed, list_of};
ghost use Rattle.asm_journal.specs.Value.{pair_json_of, IsPairForm, IsStateOf, IsStateForm};
ghost use Rattle.asm_journal.specs.Text.{state_json_of};

use crate::form::array::{Listed, array_of, pair_items, pair_of};
use crate::form::fault::{FormCause, FormError, OfPart};
use crate::form::{FromJson, ToJson};
use asm_element::{Location, Value};
use asm_update::{PlainState, UpdateSet};
use serde_json::Value as Json;
use std::alloc::{AllocError, Global};
use std::collections::btree_map::Iter;

/// A location with its value.
#[derive(Drop)]
pub(crate) struct StatePair(pub(crate) Location, pub(crate) Value);

impl FromJson for StatePair {
    ghost is_form = { λ p. IsPairForm (p.0, p.1) };

    #[tactic(auto, using(crate::proofs::Carried::carried_ok, crate::proofs::Carried::carried_err, crate::proofs::Carried::refused))]
    fn from_json(alloc: Global, json: &Json) -> Result<StatePair, FormError> {
        let Some((at, value)) = pair_items(json) else {
            return Err(FormError::of(alloc, FormCause::Pair));
        };
        let at = Location::from_json(alloc, at).within(0)?;
        let value = Value::from_json(alloc, value).within(1)?;
        Ok(StatePair(at, value))
    }
}

// Whether a pair of the location was read. A state holds no undef, so the locations of undef are separate.
fn is_read(state: &PlainState, undefined: &UpdateSet, at: &Location) -> bool
    ensures { result ≡ (is_some (map.get state.now at.now) || is_some (map.get undefined.now at.now)) }
{
    state.get(at).is_some() || undefined.get(at).is_some()
}

// Notes the location of a value that is undef.
fn note_undef(
    alloc: Global,
    undefined: &mut UpdateSet,
    at: &Location,
    value: &Value,
) -> Result<(), AllocError>
    ensures { OnOk result (undefined.new ≡
        if is_undef value.now then map.insert undefined.old at.now value.now else undefined.old) }
{
    if value.is_undef() {
        undefined.put(at.copy(alloc)?, value.copy(alloc)?)?;
    }
    Ok(())
}

/// Make a state of the pairs, unless a location is there twice.
pub(crate) fn state_from(
    alloc: Global,
    mut pairs: Vec<StatePair>,
) -> Result<Option<PlainState>, AllocError>
    ensures { IfOk result (IsParsed IsStateOf (list.map (λ p. (p.0, p.1)) pairs.items)) }
{
    let mut state = PlainState::new(alloc);
    let mut undefined = UpdateSet::new(alloc);
    while let Some(StatePair(at, value)) = pairs.pop() {
        if is_read(&state, &undefined, &at) {
            return Ok(None);
        }
        note_undef(alloc, &mut undefined, &at, &value)?;
        // Copies of its location then take no memory.
        let shared = at.share(alloc)?;
        state.set(shared, value)?;
    }
    Ok(Some(state))
}

impl FromJson for PlainState {
    ghost is_form = { IsStateForm };

    fn from_json(alloc: Global, json: &Json) -> Result<PlainState, FormError> {
        let pairs = Listed::<StatePair>::from_json(alloc, json)?;
        match state_from(alloc, pairs.into_vec())? {
            Some(state) => Ok(state),
            None => Err(FormError::of(alloc, FormCause::StateTwice)),
        }
    }
}

/// Write a location and its value as JSON: an array of both.
///
/// # Errors
///
/// - `AllocError` only if memory is refused.
pub fn pair_json(alloc: Global, location: &Location, value: &Value) -> Result<Json, AllocError>
    ensures { IfOk result (λ json. view json ≡ pair_json_of (location.now, value.now)) }
{
    pair_of(alloc, location.to_json(alloc)?, value.to_json(alloc)?)
}

/// Return an array of the JSON of locations with their values.
fn pairs_json(alloc: Global, pairs: Iter<'_, Location, Value>) -> Result<Json, AllocError>
    ensures { IfOk result (λ json. view json ≡ list_of (list.map pair_json_of pairs.entry)) }
{
    let mut list = Vec::new(alloc);
    for (at, value) in pairs {
        list.push(pair_json(alloc, at, value)?)?;
    }
    Ok(array_of(list))
}

impl ToJson for PlainState {
    ghost json_of = { state_json_of };

    fn to_json(&self, alloc: Global) -> Result<Json, AllocError> {
        pairs_json(alloc, self.iter())
    }
}

impl ToJson for UpdateSet {
    ghost json_of = { state_json_of };

    fn to_json(&self, alloc: Global) -> Result<Json, AllocError> {
        pairs_json(alloc, self.iter())
    }
}
