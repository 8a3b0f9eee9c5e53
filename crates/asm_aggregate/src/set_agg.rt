ghost use Rattle.std.specs.Prelude.{◌≡◌, ◌++◌, ◌∷◌, [], ◌||◌, not, unwrap_or, true, false};
ghost use Rattle.std.specs.Prelude.{Ok, Err, IfOk, IfErr, OnOk, OnErr, IfSome, IfNone};
ghost use Rattle.std.specs.List.{list_all};
ghost use Rattle.std.specs.Option.{option_copied};
ghost use Rattle.asm_element.specs.Set as set;
ghost use Rattle.asm_element.specs.Value.{undef};
ghost use Rattle.asm_element.specs.declared.value.Value.TheVariants as values;
ghost use Rattle.asm_update.specs.Action.{is_of};
ghost use Rattle.asm_update.specs.Aggregator.{Refused, IsOutcome, IsJoined};
ghost use Rattle.asm_update.specs.declared.action.Family.TheVariants as family;
ghost use Rattle.asm_update.specs.declared.clash.Cause.TheVariants.{Mixed, Both, Against};
ghost use Rattle.asm_aggregate.specs.Families.{is_kind};
ghost use Rattle.asm_aggregate.specs.Sets.{union, difference, meets, is_subset, IsSameBesides};
ghost use Rattle.asm_aggregate.specs.SetMeaning.{set_meaning, element_on, elements_on, adds_and_removes};
ghost use Rattle.asm_aggregate.specs.SetMeaning.{set_action, set_side, set_result, members, updated as set_update};
ghost use Rattle.asm_aggregate.specs.Table.{first_cause};
ghost use Rattle.asm_aggregate.specs.declared.side.Side.TheVariants as sides;
ghost use Rattle.asm_aggregate.specs.laws.SetLaws.{set_laws};

use crate::families::{are_all_of, base_of};
use crate::side::{Side, note};
use asm_element::{ElemSet, Element, Value};
use asm_update::{Action, Aggregator, Cause, Family, Group, JoinError, ResultError};
use std::alloc::{AllocError, Global};

/// The aggregator of sets: it owns `Family::Set` alone.
///
/// A group's result is its base without the removed elements and with the added ones. There is no result where the base
/// isn't a set (`Kind`), where one element is both added and removed (`Both`), or where a regular value lacks an added
/// element or has a removed one (`Against`). Removing an absent element is allowed. These are CoreASM's partial updates
/// of sets.
#[derive(Clone, Copy, Debug)]
pub struct SetAgg;

/// What a list of actions adds, and what it removes.
#[derive(Drop)]
struct Sides {
    added: ElemSet,
    removed: ElemSet,
}

fn set_of(value: Option<&Value>) -> Option<&ElemSet>
    ensures some { IfSome result (λ s. unwrap_or (option_copied value.entry) undef ≡ values.Set s.now) }
    ensures none { IfNone result (is_kind family.Set (unwrap_or (option_copied value.entry) undef) ≡ false) }
{
    match value {
        None => None,
        Some(value) => match value {
            Value::Set(set) => Some(set),
            Value::Plain(_) | Value::Bag(_) => None,
        },
    }
}

fn meet(one: &ElemSet, other: &ElemSet) -> bool
    ensures { result ≡ meets one.now other.now }
{
    one.iter().any(|element| other.contains(element))
}

fn is_within(inner: &ElemSet, outer: &ElemSet) -> bool
    ensures { result ≡ is_subset inner.now outer.now }
{
    inner.iter().all(|element| outer.contains(element))
}

/// Return the element that the action adds, or the one that it removes.
fn element_of(side: Side, action: &Action) -> Option<&Element>
    ensures { option_copied result ≡ element_on side action.now }
{
    match (side, action) {
        (Side::Added, Action::SetAdd(element)) => Some(element),
        (Side::Removed, Action::SetRemove(element)) => Some(element),
        _ => None,
    }
}

/// Gather what the actions add and what they remove, by one walk.
fn sides_of(alloc: Global, actions: &[Action]) -> Result<Sides, AllocError>
    ensures added { IfOk result (λ s. s.added ≡ elements_on sides.Added actions.now) }
    ensures removed { IfOk result (λ s. s.removed ≡ elements_on sides.Removed actions.now) }
{
    let mut added = ElemSet::new(alloc);
    let mut removed = ElemSet::new(alloc);
    for action in actions {
        note(alloc, &mut added, element_of(Side::Added, action))?;
        note(alloc, &mut removed, element_of(Side::Removed, action))?;
    }
    Ok(Sides { added, removed })
}

fn without(mut set: ElemSet, gone: &ElemSet) -> ElemSet
    ensures { result ≡ difference set gone.now }
{
    take_all(&mut set, gone);
    set
}

fn with(alloc: Global, mut set: ElemSet, more: &ElemSet) -> Result<ElemSet, AllocError>
    ensures { IfOk result (λ s. s ≡ union set more.now) }
{
    for element in more.iter() {
        set.insert(element.copy(alloc)?)?;
    }
    Ok(set)
}

fn action_of(side: Side, element: Element) -> Action
    ensures { result ≡ set_action side element }
{
    match side {
        Side::Added => Action::SetAdd(element),
        Side::Removed => Action::SetRemove(element),
    }
}

/// Append the additions of the elements, or their removals.
fn push_side(
    alloc: Global,
    actions: &mut Vec<Action>,
    side: Side,
    elements: &ElemSet,
) -> Result<(), AllocError>
    ensures { OnOk result (actions.new.items ≡ actions.old.items ++ set_side side elements.now) }
{
    for element in elements.iter() {
        actions.push(action_of(side, element.copy(alloc)?))?;
    }
    Ok(())
}

/// Take the elements out of the set, for which no memory is needed.
fn take_all(set: &mut ElemSet, gone: &ElemSet)
    ensures { set.new ≡ difference set.old gone.now }
{
    for element in gone.iter() {
        set.remove(element);
    }
}

/// Put the element into the set, and record it if it is new there.
///
/// Elements of the set that aren't recorded stay, also on error.
fn put_noting<'a>(
    alloc: Global,
    elements: &mut ElemSet,
    fresh: &mut Vec<&'a Element>,
    element: &'a Element,
) -> Result<(), AllocError>
    ensures ok { OnOk result (elements.new ≡ set.insert elements.old element.now) }
    ensures besides { IsSameBesides elements.old fresh.old.items elements.new fresh.new.items }
{
    if !elements.insert(element.copy(alloc)?)? {
        return Ok(());
    }
    if fresh.push(element).is_err() {
        elements.remove(element);
        return Err(AllocError);
    }
    Ok(())
}

/// Put the elements into the set, and record those that are new there.
///
/// On error, those that are already in the set are recorded too.
fn put_all<'a>(
    alloc: Global,
    elements: &mut ElemSet,
    fresh: &mut Vec<&'a Element>,
    more: &'a ElemSet,
) -> Result<(), AllocError>
    ensures ok { OnOk result (elements.new ≡ union elements.old more.now) }
    ensures besides { IsSameBesides elements.old fresh.old.items elements.new fresh.new.items }
{
    for element in more.iter() {
        put_noting(alloc, elements, fresh, element)?;
    }
    Ok(())
}

/// Take the recorded elements out again, which needs no memory.
fn take_back(elements: &mut ElemSet, noted: Vec<&Element>)
    ensures { IsSameBesides elements.old noted.entry.items elements.new [] }
{
    for element in noted {
        elements.remove(element);
    }
}

/// Change the set in place: the additions first, since the removals take no memory.
///
/// On error, it is unchanged.
fn change_set(alloc: Global, set: &mut ElemSet, sides: &Sides) -> Result<(), AllocError>
    requires { meets sides.now.added sides.now.removed ≡ false }
    ensures ok { OnOk result (set.new ≡ union (difference set.old sides.now.removed) sides.now.added) }
    ensures err { OnErr result (set.new ≡ set.old) }
{
    let mut fresh = Vec::new(alloc);
    match put_all(alloc, set, &mut fresh, &sides.added) {
        Ok(()) => {
            take_all(set, &sides.removed);
            Ok(())
        }
        Err(error) => {
            take_back(set, fresh);
            Err(error)
        }
    }
}

/// Return the set without what is removed and with what is added.
fn updated(alloc: Global, base: &ElemSet, sides: &Sides) -> Result<Value, ResultError>
    ensures { IsOutcome result (Ok (values.Set (union (difference base.now sides.now.removed) sides.now.added))) }
{
    let rest = without(base.copy(alloc)?, &sides.removed);
    Ok(Value::Set(with(alloc, rest, &sides.added)?))
}

/// Gather what a group adds and removes, if it has a result on the old value.
fn admitted(alloc: Global, old: Option<&Value>, group: &Group) -> Result<Sides, ResultError>
    ensures added { IfOk result (λ s. s.added ≡ elements_on sides.Added group.now.partials) }
    ensures removed { IfOk result (λ s. s.removed ≡ elements_on sides.Removed group.now.partials) }
    ensures apart { IfOk result (λ s. meets s.added s.removed ≡ false) }
    ensures ok { IfOk result (λ s. set_result (unwrap_or (option_copied old.entry) undef) group.now.regular
        group.now.partials ≡ Ok (unwrap_or group.now.regular (values.Set
        (set_update (members (unwrap_or (option_copied old.entry) undef)) group.now.partials)))) }
    ensures kind { IfOk result (λ s. is_kind family.Set
        (unwrap_or group.now.regular (unwrap_or (option_copied old.entry) undef)) ≡ true) }
    ensures err { IfErr result (λ e. IsOutcome (Err e)
        (set_result (unwrap_or (option_copied old.entry) undef) group.now.regular group.now.partials)) }
{
    let partials = group.partials();
    if !are_all_of(Family::Set, partials) {
        return Err(ResultError::Cause(Cause::Mixed));
    }
    let Some(base) = set_of(base_of(old, group)) else {
        return Err(ResultError::Cause(Cause::Kind));
    };
    let sides = sides_of(alloc, partials)?;
    if meet(&sides.added, &sides.removed) {
        return Err(ResultError::Cause(Cause::Both));
    }
    if group.regular().is_some() && (!is_within(&sides.added, base) || meet(&sides.removed, base)) {
        return Err(ResultError::Cause(Cause::Against));
    }
    Ok(sides)
}

/// Return the sides of a list that a join accepts.
///
/// Its actions are of sets, and it adds nothing that it removes.
fn sides_of_sets(alloc: Global, actions: &[Action]) -> Result<Sides, JoinError>
    ensures added { IfOk result (λ s. s.added ≡ elements_on sides.Added actions.now) }
    ensures removed { IfOk result (λ s. s.removed ≡ elements_on sides.Removed actions.now) }
    ensures of_sets { IfOk result (λ _. list_all (is_of family.Set) actions.now ≡ true) }
    ensures apart { IfOk result (λ _. adds_and_removes actions.now ≡ false) }
    ensures err { IfErr result (λ e. IsJoined (Err e)
        (first_cause
        ((not (list_all (is_of family.Set) actions.now), Refused Mixed)
        ∷ (adds_and_removes actions.now, Refused Both) ∷ [])
        [])) }
{
    if !are_all_of(Family::Set, actions) {
        return Err(JoinError::Cause(Cause::Mixed));
    }
    let sides = sides_of(alloc, actions)?;
    if meet(&sides.added, &sides.removed) {
        return Err(JoinError::Cause(Cause::Both));
    }
    Ok(sides)
}

/// Return the additions and then the removals.
fn listed(alloc: Global, added: &ElemSet, removed: &ElemSet) -> Result<Vec<Action>, AllocError>
    ensures { IfOk result (λ v. v.items ≡ set_side sides.Added added.now ++ set_side sides.Removed removed.now) }
{
    let mut joined = Vec::new(alloc);
    push_side(alloc, &mut joined, Side::Added, added)?;
    push_side(alloc, &mut joined, Side::Removed, removed)?;
    Ok(joined)
}

/// Return the actions that do what the first sides and then the second do.
fn joined_sides(alloc: Global, one: Sides, two: &Sides) -> Result<Vec<Action>, AllocError>
    ensures { IfOk result (λ v. v.items
        ≡ set_side sides.Added (union (difference one.added two.now.removed) two.now.added)
        ++ set_side sides.Removed (union (difference one.removed two.now.added) two.now.removed)) }
{
    let added = with(alloc, without(one.added, &two.removed), &two.added)?;
    let removed = with(alloc, without(one.removed, &two.added), &two.removed)?;
    listed(alloc, &added, &removed)
}

/// Return the join of a list that has these sides with the second list.
fn join_after(alloc: Global, one: Sides, second: &[Action]) -> Result<Vec<Action>, JoinError>
    ensures { IsJoined result
        (first_cause
        ((not (list_all (is_of family.Set) second.now), Refused Mixed)
        ∷ (adds_and_removes second.now, Refused Both) ∷ [])
        (set_side sides.Added
        (union (difference one.added (elements_on sides.Removed second.now)) (elements_on sides.Added second.now))
        ++ set_side sides.Removed
        (union (difference one.removed (elements_on sides.Added second.now)) (elements_on sides.Removed second.now)))) }
{
    match sides_of_sets(alloc, second) {
        Ok(two) => Ok(joined_sides(alloc, one, &two)?),
        Err(error) => Err(error),
    }
}

impl Aggregator for SetAgg {
    ghost meaning = { λ _. set_meaning };

    ghost laws = { λ _. set_laws };

    fn owns(&self, family: Family) -> bool {
        matches!(family, Family::Set)
    }

    fn result(
        &self,
        alloc: Global,
        old: Option<&Value>,
        group: &Group,
    ) -> Result<Value, ResultError> {
        let sides = admitted(alloc, old, group)?;
        if let Some(value) = group.regular() {
            return Ok(value.copy(alloc)?);
        }
        match set_of(old) {
            Some(base) => updated(alloc, base, &sides),
            None => unreachable!(),
        }
    }

    fn admit(&self, alloc: Global, old: Option<&Value>, group: &Group) -> Result<(), ResultError> {
        match admitted(alloc, old, group) {
            Ok(_) => Ok(()),
            Err(error) => Err(error),
        }
    }

    fn change(&self, alloc: Global, value: &mut Value, group: &Group) -> Result<(), ResultError> {
        let sides = admitted(alloc, Some(&*value), group)?;
        if let Some(regular) = group.regular() {
            *value = regular.copy(alloc)?;
            return Ok(());
        }
        match value {
            Value::Set(set) => {
                change_set(alloc, set, &sides)?;
                Ok(())
            }
            Value::Plain(_) | Value::Bag(_) => unreachable!(),
        }
    }

    fn join(
        &self,
        alloc: Global,
        first: &[Action],
        second: &[Action],
    ) -> Result<Vec<Action>, JoinError> {
        match sides_of_sets(alloc, first) {
            Ok(one) => join_after(alloc, one, second),
            Err(error) => Err(error),
        }
    }
}
