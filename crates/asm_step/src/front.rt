//! What is done at a location, in a form that one more partial update joins at its own cost.
ghost use Rattle.std.specs.Prelude.{◌≡◌, ◌≤◌, ◌+◌, ◌++◌, ◌∷◌, [], true, false, if◌then◌else◌, OnOk, OnErr, IfOk, IfSome, length};
ghost use Rattle.std.specs.Bool.{OnTrue};
ghost use Rattle.asm_aggregate.specs.Compose.{placed};
ghost use Rattle.asm_element.specs.declared.value.Value as values;
ghost use Rattle.asm_update.specs.Action.{is_partial};
ghost use Rattle.asm_update.specs.Limits.{instructions_limit};
ghost use Rattle.asm_update.specs.declared.action.Action.TheVariants.{Regular};
ghost use Rattle.asm_step.specs.Front.{IsApplied, IsChanged, IsFront, amounts_list, front_list, sides_list};
ghost use Rattle.asm_aggregate.specs.Sets.{meets};
ghost use Rattle.asm_step.specs.Outcomes.{acts};

use crate::amounts::Amounts;
use crate::in_place::{InPlace, Known};
use crate::listing::{append, push_put};
use crate::sides::{Sides, meet};
use asm_element::{Location, Value};
use asm_update::{Action, Aggregator, Family, Group, Instructions, ResultError};
use std::alloc::{AllocError, Global};

/// By how much a list is longer.
#[derive(Clone, Copy, Debug)]
pub(crate) struct Growth {
    /// So many actions came.
    pub(crate) more: usize,
    /// And so many went.
    pub(crate) less: usize,
}

/// The first actions at a location.
#[derive(Drop)]
pub(crate) enum Front {
    /// None.
    Nothing,
    /// A put of the value that is left there.
    Put,
    /// Additions to a set by element, then removals by element.
    Sets(Sides),
    /// The same of a bag.
    Bags(Amounts),
}

/// 1 for a test that holds, and else 0.
pub(crate) fn one_if(test: bool) -> usize
    ensures { result ≡ if test then 1 else 0 }
{
    if test { 1 } else { 0 }
}

/// Apply the partial update to the value in place; whether it has a result.
pub(crate) fn changed<A: Aggregator>(
    alloc: Global,
    aggregator: &A,
    value: &mut Value,
    action: &Action,
) -> Result<bool, AllocError>
    requires { is_partial action.now ≡ true }
    ensures ok { IfOk result (IsChanged (A.meaning aggregator.now) action.now value.old value.new) }
    ensures err { OnErr result (value.new ≡ value.old) }
{
    let group = Group::new(None, vec![in alloc; action.clone()?]?);
    match aggregator.change(alloc, value, &group) {
        Ok(()) => Ok(true),
        Err(ResultError::Cause(_)) => Ok(false),
        Err(ResultError::Memory) => Err(AllocError),
    }
}

// Applies the partial update to a value that was put.
fn put_changed<A: Aggregator>(
    alloc: Global,
    aggregator: &A,
    value: &mut Value,
    action: &Action,
) -> Result<Option<Growth>, AllocError>
    requires { is_partial action.now ≡ true }
    ensures ok { IfOk result (IsApplied (A.meaning aggregator.now) action.now
        value.old (Regular value.old ∷ []) value.new (Regular value.new ∷ [])) }
    ensures err { OnErr result (value.new ≡ value.old) }
{
    // Proof: the sequence is promised of well-formed values.
    value.proper();
    if changed(alloc, aggregator, value, action)? {
        return Ok(Some(Growth { more: 0, less: 0 }));
    }
    Ok(None)
}

fn puts(action: &Action, value: &Value) -> bool
    ensures { OnTrue result (action.now ≡ Regular value.now) }
{
    match action {
        Action::Regular(put) => put == value,
        _ => false,
    }
}

// Whether the actions are a put of the value.
fn is_put(actions: &[Action], value: &Value) -> bool
    ensures { OnTrue result (actions.now ≡ Regular value.now ∷ []) }
{
    match actions {
        [action] => puts(action, value),
        _ => false,
    }
}

fn are_same(list: &Vec<Action>, actions: &[Action]) -> bool
    ensures { OnTrue result (list.now.items ≡ actions.now) }
{
    list.as_slice() == actions
}

// The additions to a set and the removals, if the actions are those.
fn sets_of(alloc: Global, actions: &[Action]) -> Result<Option<Sides>, AllocError>
    ensures same { IfOk result (λ found. IfSome found (λ sides. sides_list sides ≡ actions.now)) }
    ensures apart { IfOk result (λ found. IfSome found (λ sides. meets sides.added sides.removed ≡ false)) }
{
    let sides = Sides::of(alloc, actions)?;
    if meet(&sides.added, &sides.removed) || !are_same(&sides.listed(alloc)?, actions) {
        return Ok(None);
    }
    Ok(Some(sides))
}

// The same of a bag.
fn bags_of(alloc: Global, actions: &[Action]) -> Result<Option<Amounts>, AllocError>
    ensures { IfOk result (λ found. IfSome found (λ amounts. amounts_list amounts ≡ actions.now)) }
{
    let amounts = Amounts::of(alloc, actions)?;
    if !are_same(&amounts.listed(alloc)?, actions) {
        return Ok(None);
    }
    Ok(Some(amounts))
}

// The family of the first of the actions, if it is a partial update.
fn first_family(actions: &[Action]) -> Option<Family> {
    actions.first()?.family()
}

impl Front {
    /// Return the front of the actions that leave this value, if there is one.
    pub(crate) fn of(
        alloc: Global,
        value: &Value,
        actions: &[Action],
    ) -> Result<Option<Front>, AllocError>
        ensures same { IfOk result (λ found. IfSome found (λ front. front_list value.now front ≡ actions.now)) }
        ensures apart { IfOk result (λ found. IfSome found IsFront) }
    {
        if is_put(actions, value) {
            return Ok(Some(Front::Put));
        }
        match first_family(actions) {
            Some(Family::Set) => match sets_of(alloc, actions)? {
                Some(sides) => Ok(Some(Front::Sets(sides))),
                None => Ok(None),
            },
            Some(Family::Bag) => match bags_of(alloc, actions)? {
                Some(amounts) => Ok(Some(Front::Bags(amounts))),
                None => Ok(None),
            },
            Some(Family::Count) | None => Ok(None),
        }
    }

    /// Return whether there are actions.
    pub(crate) fn acts(&self) -> bool
        ensures { (v : values.Value) → result ≡ acts (front_list v self.now) }
    {
        match self {
            Front::Nothing => false,
            Front::Put => true,
            Front::Sets(sides) => sides.acts(),
            Front::Bags(amounts) => amounts.acts(),
        }
    }

    /// Append a copy of each of the actions, which leave this value, at the location.
    pub(crate) fn append_to(
        &self,
        alloc: Global,
        list: &mut Instructions,
        at: &Location,
        value: &Value,
    ) -> Result<(), AllocError>
        requires { length list.old + length (front_list value.now self.now) ≤ instructions_limit }
        ensures { OnOk result (list.new ≡ list.old ++ placed at.now (front_list value.now self.now)) }
    {
        match self {
            Front::Nothing => Ok(()),
            Front::Put => push_put(alloc, list, at, value),
            Front::Sets(sides) => append(alloc, list, at, sides.listed(alloc)?.as_slice()),
            Front::Bags(amounts) => append(alloc, list, at, amounts.listed(alloc)?.as_slice()),
        }
    }

    /// Join the partial update to the actions, and apply it to their value in place.
    ///
    /// `None` is the answer if that isn't done here. On error, nothing changes.
    pub(crate) fn join<A: InPlace>(
        &mut self,
        alloc: Global,
        aggregator: &A,
        value: &mut Value,
        action: &Action,
    ) -> Result<Option<Growth>, AllocError>
        requires partial { is_partial action.now ≡ true }
        requires some { acts (front_list value.old self.old) ≡ true }
        requires apart { IsFront self.old }
        ensures apart { IsFront self.new }
        ensures ok { IfOk result (IsApplied (A.meaning aggregator.now) action.now
            value.old (front_list value.old self.old) value.new (front_list value.new self.new)) }
        ensures err { OnErr result (self.new ≡ self.old) }
        ensures err_value { OnErr result (value.new ≡ value.old) }
    {
        match self {
            Front::Nothing => Ok(None),
            Front::Put => put_changed(alloc, aggregator, value, action),
            Front::Sets(sides) => match A::sets() {
                Known::Own => sides.join(alloc, aggregator, value, action),
                Known::Other | Known::Unknown => Ok(None),
            },
            Front::Bags(amounts) => match A::bags() {
                Known::Own => amounts.join(alloc, aggregator, value, action),
                Known::Other | Known::Unknown => Ok(None),
            },
        }
    }
}
