//! What partial updates name of a value: a set or a bag of these elements alone changes as the complete one does.
ghost use Rattle.std.specs.Prelude.{◌≡◌, ◌&&◌, ◌||◌, IfOk, OnOk, if◌then◌else◌, unwrap_or};
ghost use Rattle.std.specs.Option.{option_copied};
ghost use Rattle.asm_element.specs.Bag as bag;
ghost use Rattle.asm_element.specs.Set.{contains};
ghost use Rattle.asm_element.specs.Value.{undef};
ghost use Rattle.asm_element.specs.declared.element.Element.{Element as Datum};
ghost use Rattle.asm_element.specs.declared.value.Value.TheVariants as values;
ghost use Rattle.asm_aggregate.specs.Steps.{raised};
ghost use Rattle.asm_trace.specs.Change.{element_named, names, AreSameTo};

use asm_element::{ElemBag, ElemSet, Element, Value};
use asm_update::Action;
use std::alloc::{AllocError, Global};

/// Return the element that a partial update adds or removes.
fn named(action: &Action) -> Option<&Element>
    ensures { option_copied result ≡ element_named action.now }
{
    match action {
        Action::SetAdd(element) | Action::SetRemove(element) => Some(element),
        Action::BagAdd(element, _) | Action::BagRemove(element, _) => Some(element),
        Action::Regular(_) | Action::Increment(_) => None,
    }
}

/// Add the element that the action names to the named ones, if the set has it.
///
/// The set is the complete one.
fn keep(
    alloc: Global,
    part: &mut ElemSet,
    whole: &ElemSet,
    action: &Action,
) -> Result<(), AllocError>
    ensures { OnOk result ((e : Datum) → contains part.new e
        ≡ (contains part.old e || (names e action.now && contains whole.now e))) }
{
    if let Some(element) = named(action) {
        if whole.contains(element) {
            part.insert(element.copy(alloc)?)?;
        }
    }
    Ok(())
}

/// Return the elements of the set that the actions name.
fn named_of_set(alloc: Global, whole: &ElemSet, actions: &[Action]) -> Result<ElemSet, AllocError>
    ensures { IfOk result (λ part. AreSameTo actions.now (values.Set whole.now) (values.Set part)) }
{
    let mut part = ElemSet::new(alloc);
    for action in actions {
        keep(alloc, &mut part, whole, action)?;
    }
    Ok(part)
}

/// Raise the count of the action's element to that of the complete bag.
fn raise(
    alloc: Global,
    part: &mut ElemBag,
    whole: &ElemBag,
    action: &Action,
) -> Result<(), AllocError>
    ensures { OnOk result ((e : Datum) → bag.count part.new e
        ≡ (if names e action.now then raised (bag.count part.old e) (bag.count whole.now e)
        else bag.count part.old e)) }
{
    if let Some(element) = named(action) {
        let had = part.count(element);
        let count = whole.count(element);
        if had < count {
            part.put(element.copy(alloc)?, count - had)?;
        }
    }
    Ok(())
}

/// Return the elements of the bag that the actions name, as often as it has them.
fn named_of_bag(alloc: Global, whole: &ElemBag, actions: &[Action]) -> Result<ElemBag, AllocError>
    ensures { IfOk result (λ part. AreSameTo actions.now (values.Bag whole.now) (values.Bag part)) }
{
    let mut part = ElemBag::new(alloc);
    for action in actions {
        raise(alloc, &mut part, whole, action)?;
    }
    Ok(part)
}

/// Return the part of the value that the actions name, where None means undef.
///
/// Of a set or a bag it has the elements that they name, and any other value completely.
pub(crate) fn named_of(
    alloc: Global,
    value: Option<&Value>,
    actions: &[Action],
) -> Result<Value, AllocError>
    ensures { IfOk result (λ part. AreSameTo actions.now (unwrap_or (option_copied value.entry) undef) part) }
{
    match value {
        Some(Value::Set(set)) => Ok(Value::Set(named_of_set(alloc, set, actions)?)),
        Some(Value::Bag(bag)) => Ok(Value::Bag(named_of_bag(alloc, bag, actions)?)),
        Some(plain) => plain.copy(alloc),
        None => Ok(Value::Plain(Element::Undef)),
    }
}
