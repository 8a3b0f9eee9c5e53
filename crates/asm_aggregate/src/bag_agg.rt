ghost use Rattle.std.specs.Prelude.{◌≡◌, ◌+◌, ◌<◌, ◌++◌, ◌||◌, unwrap_or, false, IfOk, IfErr, OnOk, IfSome};
ghost use Rattle.std.specs.Prelude.{IfNone};
ghost use Rattle.std.specs.List.{list_any};
ghost use Rattle.std.specs.Option.{option_copied};
ghost use Rattle.asm_element.specs.Bag.{count, IsProper};
ghost use Rattle.asm_element.specs.Set as set;
ghost use Rattle.asm_element.specs.Value.{undef};
ghost use Rattle.asm_element.specs.declared.element.Element.{Element};
ghost use Rattle.asm_element.specs.declared.value.Value.TheVariants as values;
ghost use Rattle.asm_update.specs.declared.action.Family.TheVariants as family;
ghost use Rattle.asm_aggregate.specs.Families.{is_kind};
ghost use Rattle.asm_aggregate.specs.Steps.{names, one_action, IsMoreBy, IsShort, IsAbove, IsLargeIf, AreActions};
ghost use Rattle.asm_aggregate.specs.BagMeaning.{bag_meaning, element_of, amount, amount_in, named, joined_amount};
ghost use Rattle.asm_aggregate.specs.BagMeaning.{bag_action};
ghost use Rattle.asm_aggregate.specs.BagMeaning.{is_large};
ghost use Rattle.asm_aggregate.specs.declared.side.Side.TheVariants as sides;
ghost use Rattle.asm_aggregate.specs.laws.BagLaws.{bag_laws};

use crate::bag_change::{admitted, change_bag};
use crate::bag_sums::{Amounts, Sums};
use crate::families::{are_all_of, base_of};
use crate::side::{Side, note};
use asm_element::{ElemBag, ElemSet, Element, Value};
use asm_update::{Action, Aggregator, Amount, Cause, Family, Group, JoinError, ResultError};
use std::alloc::{AllocError, Global};

/// The aggregator of bags: it owns `Family::Bag` alone.
///
/// A group's result has of each element the old count, less what is removed, and then what is added. There is no result
/// where the base isn't a bag (`Kind`), beside a regular value (`Against`), where more of an element is removed than
/// the old bag has (`Short`), or where a new count would be above 4,294,967,295 (`Large`). Partial updates of bags are
/// of this project's profile.
#[derive(Clone, Copy, Debug)]
pub struct BagAgg;

pub(crate) fn bag_of(value: Option<&Value>) -> Option<&ElemBag>
    ensures some { IfSome result (λ b. unwrap_or (option_copied value.entry) undef ≡ values.Bag b.now) }
    ensures proper { IfSome result (λ b. IsProper b.now) }
    ensures none { IfNone result (is_kind family.Bag (unwrap_or (option_copied value.entry) undef) ≡ false) }
{
    match value {
        None => None,
        Some(value) => {
            value.proper();
            match value {
                Value::Bag(bag) => Some(bag),
                Value::Plain(_) | Value::Set(_) => None,
            }
        }
    }
}

fn take_removed(bag: &mut ElemBag, action: &Action) -> Result<(), ResultError>
    ensures ok { OnOk result (IsMoreBy (count bag.new) (count bag.old) (λ e. amount sides.Removed e action.now)) }
    ensures err { IfErr result (IsShort (count bag.old) (λ e. amount sides.Removed e action.now)) }
{
    match action {
        Action::BagRemove(element, amount) => {
            if !bag.checked_take(element, amount.get()) {
                return Err(ResultError::Cause(Cause::Short));
            }
        }
        Action::Regular(_)
        | Action::SetAdd(_)
        | Action::SetRemove(_)
        | Action::BagAdd(..)
        | Action::Increment(_) => {}
    }
    Ok(())
}

fn put_added(alloc: Global, bag: &mut ElemBag, action: &Action) -> Result<(), ResultError>
    ensures ok { OnOk result (IsMoreBy (count bag.old) (count bag.new) (λ e. amount sides.Added e action.now)) }
    ensures err { IfErr result (IsAbove (λ e. count bag.old e + amount sides.Added e action.now)) }
{
    match action {
        Action::BagAdd(element, amount) => {
            if !bag.checked_put(alloc, element, amount.get())? {
                return Err(ResultError::Cause(Cause::Large));
            }
        }
        Action::Regular(_)
        | Action::SetAdd(_)
        | Action::SetRemove(_)
        | Action::BagRemove(..)
        | Action::Increment(_) => {}
    }
    Ok(())
}

/// Return the bag less what the actions remove.
pub(crate) fn without(mut bag: ElemBag, actions: &[Action]) -> Result<ElemBag, ResultError>
    ensures ok { IfOk result (λ b. IsMoreBy (count b) (count bag) (amount_in sides.Removed actions.now)) }
    ensures err { IfErr result (IsShort (count bag) (amount_in sides.Removed actions.now)) }
{
    for action in actions {
        take_removed(&mut bag, action)?;
    }
    Ok(bag)
}

/// Return the bag and what the actions add.
pub(crate) fn with(
    alloc: Global,
    mut bag: ElemBag,
    actions: &[Action],
) -> Result<ElemBag, ResultError>
    ensures ok { IfOk result (λ b. IsMoreBy (count bag) (count b) (amount_in sides.Added actions.now)) }
    ensures err { IfErr result (IsAbove (λ e. count bag e + amount_in sides.Added actions.now e)) }
{
    for action in actions {
        put_added(alloc, &mut bag, action)?;
    }
    Ok(bag)
}

pub(crate) fn element_named(action: &Action) -> Option<&Element>
    ensures { option_copied result ≡ element_of action.now }
{
    match action {
        Action::BagAdd(element, _) | Action::BagRemove(element, _) => Some(element),
        Action::Regular(_) | Action::SetAdd(_) | Action::SetRemove(_) | Action::Increment(_) => {
            None
        }
    }
}

fn note_elements(
    alloc: Global,
    elements: &mut ElemSet,
    actions: &[Action],
) -> Result<(), AllocError>
    ensures { OnOk result
        ((e : Element) → set.contains elements.new e
        ≡ (set.contains elements.old e || list_any (names e) actions.now)) }
{
    for action in actions {
        note(alloc, elements, element_named(action))?;
    }
    Ok(())
}

/// Return the elements that the actions of both lists add or remove.
fn named_by(alloc: Global, first: &[Action], second: &[Action]) -> Result<ElemSet, AllocError>
    ensures { IfOk result (λ s. set.elements s ≡ named (first.now ++ second.now)) }
{
    let mut elements = ElemSet::new(alloc);
    note_elements(alloc, &mut elements, first)?;
    note_elements(alloc, &mut elements, second)?;
    Ok(elements)
}

/// Return what the two lists in turn add to a count and what they remove from it.
fn joined_amounts<'a>(first: &Sums<'a>, second: &Sums<'a>, element: &'a Element) -> Amounts
    ensures added { result.added ≡ joined_amount first.now second.now sides.Added element.now }
    ensures removed { result.removed ≡ joined_amount first.now second.now sides.Removed element.now }
{
    let one = first.at(element);
    let two = second.at(element);
    Amounts {
        added: two.added + one.added.saturating_sub(two.removed),
        removed: one.removed + two.removed.saturating_sub(one.added),
    }
}

/// Return the amount of a number, and None for 0.
///
/// # Errors
///
/// - `Large` exactly if the number is above 4,294,967,295.
fn amount_from(total: u128) -> Result<Option<Amount>, JoinError>
    ensures ok { IfOk result (λ amount. is_large total ≡ false) }
    ensures none { IfOk result (λ amount. IfNone amount (total ≡ 0)) }
    ensures some { IfOk result (λ amount. IfSome amount (λ n. (n ≡ total) × (0 < total))) }
    ensures err { IfErr result (IsLargeIf (is_large total)) }
{
    if total > u128::from(u32::MAX) {
        return Err(JoinError::Large);
    }
    Ok(Amount::new(total as u32))
}

fn action_of(side: Side, element: Element, amount: Amount) -> Action
    ensures { result ≡ bag_action side element amount }
{
    match side {
        Side::Added => Action::BagAdd(element, amount),
        Side::Removed => Action::BagRemove(element, amount),
    }
}

/// Append the addition or the removal of so many of the element, unless it is of 0.
fn push_side(
    alloc: Global,
    actions: &mut Vec<Action>,
    side: Side,
    element: &Element,
    total: u128,
) -> Result<(), JoinError>
    ensures small { OnOk result (is_large total ≡ false) }
    ensures items { OnOk result (actions.new.items ≡ actions.old.items ++ one_action side element.now total) }
    ensures err { IfErr result (IsLargeIf (is_large total)) }
{
    if let Some(amount) = amount_from(total)? {
        actions.push(action_of(side, element.copy(alloc)?, amount))?;
    }
    Ok(())
}

/// Return additions by element, then removals by element, of the two lists in turn.
fn joined_actions<'a>(
    alloc: Global,
    elements: &'a ElemSet,
    first: &Sums<'a>,
    second: &Sums<'a>,
) -> Result<Vec<Action>, JoinError>
    ensures { AreActions (joined_amount first.now second.now) (set.elements elements.now) result }
{
    let mut additions = Vec::new(alloc);
    let mut removals = Vec::new(alloc);
    for element in elements.iter() {
        let amounts = joined_amounts(first, second, element);
        push_side(alloc, &mut additions, Side::Added, element, amounts.added)?;
        push_side(
            alloc,
            &mut removals,
            Side::Removed,
            element,
            amounts.removed,
        )?;
    }
    additions.append(&mut removals)?;
    Ok(additions)
}

impl Aggregator for BagAgg {
    ghost meaning = { λ _. bag_meaning };

    ghost laws = { λ _. bag_laws };

    fn owns(&self, family: Family) -> bool {
        matches!(family, Family::Bag)
    }

    fn result(
        &self,
        alloc: Global,
        old: Option<&Value>,
        group: &Group,
    ) -> Result<Value, ResultError> {
        let partials = group.partials();
        if !are_all_of(Family::Bag, partials) {
            return Err(ResultError::Cause(Cause::Mixed));
        }
        let Some(base) = bag_of(base_of(old, group)) else {
            return Err(ResultError::Cause(Cause::Kind));
        };
        if group.regular().is_some() {
            return Err(ResultError::Cause(Cause::Against));
        }
        let rest = without(base.copy(alloc)?, partials)?;
        let value = Value::Bag(with(alloc, rest, partials)?);
        value.proper();
        Ok(value)
    }

    fn admit(&self, alloc: Global, old: Option<&Value>, group: &Group) -> Result<(), ResultError> {
        match admitted(alloc, old, group) {
            Ok(_) => Ok(()),
            Err(error) => Err(error),
        }
    }

    fn change(&self, alloc: Global, value: &mut Value, group: &Group) -> Result<(), ResultError> {
        let recount = admitted(alloc, Some(&*value), group)?;
        match value {
            Value::Bag(bag) => {
                change_bag(alloc, bag, &recount, group.partials())?;
                Ok(())
            }
            Value::Plain(_) | Value::Set(_) => unreachable!(),
        }
    }

    fn join(
        &self,
        alloc: Global,
        first: &[Action],
        second: &[Action],
    ) -> Result<Vec<Action>, JoinError> {
        if !are_all_of(Family::Bag, first) || !are_all_of(Family::Bag, second) {
            return Err(JoinError::Cause(Cause::Mixed));
        }
        let elements = named_by(alloc, first, second)?;
        let first = Sums::of(alloc, first)?;
        let second = Sums::of(alloc, second)?;
        joined_actions(alloc, &elements, &first, &second)
    }
}
