//! Values, partial updates, moves and states in few letters, of which the tests are made.
use crate::update::elements::text;
use asm_element::{ElemBag, ElemSet, Element, Value};
use asm_test_support::{Zero, location, number};
use asm_update::{Action, Amount, Instruction, Instructions, PlainState, UpdateSet};
use std::alloc::Global;
use std::test::Fail;

/// A value, in few letters.
///
/// A bag has these counts of e and of f.
#[derive(Clone, Copy)]
pub(crate) enum Old {
    Undef,
    Num(i64),
    Set(&'static [i64]),
    Bag(u32, u32),
}

/// A partial update, in few letters.
#[derive(Clone, Copy)]
pub(crate) enum Act {
    Add(i64),
    Remove(i64),
    BagAdd(&'static str, u32),
    BagRemove(&'static str, u32),
    Inc(i64),
}

use Act::{Add, BagAdd, BagRemove, Inc, Remove};
use Old::{Bag, Num, Set, Undef};

fn put_text(alloc: Global, bag: &mut ElemBag, name: &str, n: u32) -> Result<(), Fail> {
    let element = text(alloc, name)?;
    if n > 0 && bag.count(&element) == 0 {
        bag.put(element, n)?;
    }
    Ok(())
}

fn set_of(alloc: Global, numbers: &[i64]) -> Result<Value, Fail> {
    let mut set = ElemSet::new(alloc);
    for n in numbers {
        set.insert(Element::Num(*n))?;
    }
    Ok(Value::Set(set))
}

fn bag_of(alloc: Global, e: u32, f: u32) -> Result<Value, Fail> {
    let mut bag = ElemBag::new(alloc);
    put_text(alloc, &mut bag, "e", e)?;
    put_text(alloc, &mut bag, "f", f)?;
    Ok(Value::Bag(bag))
}

pub(crate) fn value_of(alloc: Global, value: Old) -> Result<Value, Fail> {
    match value {
        Undef => Ok(Value::Plain(Element::Undef)),
        Num(n) => Ok(number(n)),
        Set(numbers) => set_of(alloc, numbers),
        Bag(e, f) => bag_of(alloc, e, f),
    }
}

pub(crate) fn action_of(alloc: Global, action: Act) -> Result<Action, Fail> {
    Ok(match action {
        Add(n) => Action::SetAdd(Element::Num(n)),
        Remove(n) => Action::SetRemove(Element::Num(n)),
        BagAdd(name, n) => {
            let amount = Amount::new(n).ok_or(Zero)?;
            Action::BagAdd(text(alloc, name)?, amount)
        }
        BagRemove(name, n) => {
            let amount = Amount::new(n).ok_or(Zero)?;
            Action::BagRemove(text(alloc, name)?, amount)
        }
        Inc(n) => Action::Increment(n),
    })
}

pub(crate) fn actions_of(alloc: Global, actions: &[Act]) -> Result<Vec<Action>, Fail> {
    let mut list = Vec::new(alloc);
    for action in actions {
        list.push(action_of(alloc, *action)?)?;
    }
    Ok(list)
}

pub(crate) fn push_at(
    alloc: Global,
    list: &mut Instructions,
    name: &str,
    action: Action,
) -> Result<(), Fail> {
    let at = location(alloc, name)?;
    list.push(Instruction { at, action })?;
    Ok(())
}

pub(crate) fn put_at(
    alloc: Global,
    list: &mut Instructions,
    name: &str,
    value: Old,
) -> Result<(), Fail> {
    push_at(alloc, list, name, Action::Regular(value_of(alloc, value)?))
}

pub(crate) fn do_at(
    alloc: Global,
    list: &mut Instructions,
    name: &str,
    action: Act,
) -> Result<(), Fail> {
    push_at(alloc, list, name, action_of(alloc, action)?)
}

pub(crate) fn move_of(alloc: Global, puts: &[Old], partials: &[Act]) -> Result<Instructions, Fail> {
    let mut list = Instructions::new(alloc);
    for put in puts {
        put_at(alloc, &mut list, "x", *put)?;
    }
    for partial in partials {
        do_at(alloc, &mut list, "x", *partial)?;
    }
    Ok(list)
}

/// Give the location of this name the value.
pub(crate) fn set_at(
    alloc: Global,
    state: &mut PlainState,
    name: &str,
    value: Old,
) -> Result<(), Fail> {
    let at = location(alloc, name)?;
    let value = value_of(alloc, value)?;
    state.set(at, value)?;
    Ok(())
}

pub(crate) fn state_with(alloc: Global, old: Old) -> Result<PlainState, Fail> {
    let mut state = PlainState::new(alloc);
    set_at(alloc, &mut state, "x", old)?;
    Ok(state)
}

/// Put the value at the location of this name.
pub(crate) fn write_at(
    alloc: Global,
    updates: &mut UpdateSet,
    name: &str,
    value: Old,
) -> Result<(), Fail> {
    let at = location(alloc, name)?;
    let value = value_of(alloc, value)?;
    updates.put(at, value)?;
    Ok(())
}

pub(crate) fn updates_of(alloc: Global, value: Old) -> Result<UpdateSet, Fail> {
    let mut updates = UpdateSet::new(alloc);
    write_at(alloc, &mut updates, "x", value)?;
    Ok(updates)
}
