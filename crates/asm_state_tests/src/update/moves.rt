//! Moves: their instructions, and what firing one leaves.
ghost use Rattle.std.specs.Prelude.{◌≤ℤ◌, IsTrue, pos};
ghost use Rattle.asm_update.specs.Move.{all_regular};

use asm_element::Element;
use asm_test_support::{Zero, is_clash, location, location_at, value};
use asm_update::{
    Action, AggError, Amount, Cause, Instruction, Instructions, InstructionsError, PlainState,
    consistent, fire_plain,
};
use std::alloc::{AllocError, Global};
use std::test::Fail;

/// An update as plain data.
///
/// An amount of 0 is none.
#[derive(Clone, Copy)]
enum Update {
    Put(Option<i64>),
    SetAdd(i64),
    SetRemove(i64),
    BagAdd(i64, u32),
    BagRemove(i64, u32),
}

fn action(update: Update) -> Option<Action> {
    Some(match update {
        Update::Put(number) => Action::Regular(value(number)),
        Update::SetAdd(n) => Action::SetAdd(Element::Num(n)),
        Update::SetRemove(n) => Action::SetRemove(Element::Num(n)),
        Update::BagAdd(n, times) => Action::BagAdd(Element::Num(n), Amount::new(times)?),
        Update::BagRemove(n, times) => Action::BagRemove(Element::Num(n), Amount::new(times)?),
    })
}

fn push(alloc: Global, list: &mut Instructions, name: &str, update: Update) -> Result<(), Fail> {
    let at = location(alloc, name)?;
    let action = action(update).ok_or(Zero)?;
    list.push(Instruction { at, action })?;
    Ok(())
}

fn list_of(alloc: Global, updates: &[(&'static str, Update)]) -> Result<Instructions, Fail> {
    let mut list = Instructions::new(alloc);
    for (name, update) in updates {
        push(alloc, &mut list, name, *update)?;
    }
    Ok(list)
}

pub(crate) fn set(
    alloc: Global,
    state: &mut PlainState,
    name: &str,
    args: &[i64],
    number: i64,
) -> Result<(), Fail> {
    let at = location_at(alloc, name, args)?;
    state.set(at, value(Some(number)))?;
    Ok(())
}

fn state_with(alloc: Global, name: &str, number: i64) -> Result<PlainState, Fail> {
    let mut state = PlainState::new(alloc);
    set(alloc, &mut state, name, &[], number)?;
    Ok(state)
}

#[test]
fn an_amount_is_at_least_one(rt: HostRuntime) -> Result<(), Fail> {
    assert!(rt; Amount::new(0).is_none());
    assert_eq!(rt; Amount::new(1).ok_or(Zero)?.get(), 1);
    assert_eq!(rt; Amount::new(u32::MAX).ok_or(Zero)?.get(), 4_294_967_295);
    Ok(())
}

/// Return whether firing clashes there.
///
/// # Errors
///
/// - `AllocError` only if memory is refused.
fn clashes_at(
    alloc: Global,
    state: &mut PlainState,
    list: &Instructions,
    name: &str,
) -> Result<bool, AllocError>
    requires { IsTrue (all_regular list.now) }
{
    match fire_plain(alloc, state, list) {
        Ok(()) => Ok(false),
        Err(AggError::Clash(clash)) => Ok(is_clash(&clash, name, Cause::Two)),
        Err(AggError::Memory) => Err(AllocError),
    }
}

/// Return whether firing on x = 7 clashes there and changes nothing.
fn only_clashes_at(alloc: Global, list: &Instructions, name: &str) -> Result<bool, Fail>
    requires { IsTrue (all_regular list.now) }
{
    let mut state = state_with(alloc, "x", 7)?;
    let clashes = clashes_at(alloc, &mut state, list, name)?;
    Ok(clashes && state == state_with(alloc, "x", 7)?)
}

fn is_inconsistent_at(list: &Instructions, name: &str) -> bool {
    match consistent(list) {
        Some(at) => at.name() == name && at.args().is_empty(),
        None => false,
    }
}

#[test]
fn two_clashes_answer_the_least_location(rt: HostRuntime) -> Result<(), Fail> {
    let puts = [
        ("x", Update::Put(Some(1))),
        ("x", Update::Put(Some(2))),
        ("a", Update::Put(Some(3))),
        ("a", Update::Put(Some(4))),
    ];
    let list = list_of(rt.alloc(), &puts)?;
    assert!(rt; is_inconsistent_at(&list, "a"));
    assert!(rt; list.all_regular());
    assert!(rt; only_clashes_at(rt.alloc(), &list, "a")?);
    Ok(())
}

/// Return whether firing on x = 1 leaves this number at that name alone.
fn fires_to(alloc: Global, list: &Instructions, name: &str, number: i64) -> Result<bool, Fail>
    requires { IsTrue (all_regular list.now) }
{
    let mut state = state_with(alloc, "x", 1)?;
    fire_plain(alloc, &mut state, list)?;
    Ok(state.len() == 1 && state == state_with(alloc, name, number)?)
}

#[test]
fn firing_writes_values_and_takes_undef_out(rt: HostRuntime) -> Result<(), Fail> {
    let puts = [("x", Update::Put(None)), ("y", Update::Put(Some(2)))];
    let list = list_of(rt.alloc(), &puts)?;
    assert!(rt; list.all_regular());
    assert!(rt; fires_to(rt.alloc(), &list, "y", 2)?);
    Ok(())
}

fn is_refused(alloc: Global, list: &mut Instructions) -> Result<bool, Fail> {
    let at = location(alloc, "x")?;
    let action = Action::SetAdd(Element::Num(1));
    Ok(list.push(Instruction { at, action }) == Err(InstructionsError::ManyInstructions))
}

#[test]
fn one_instruction_more_than_4096_is_refused(rt: HostRuntime) -> Result<(), Fail> {
    let mut list = Instructions::new(rt.alloc());
    for n in 0..4096 {
        push(rt.alloc(), &mut list, "x", Update::Put(Some(n)))?;
    }
    assert!(rt; is_refused(rt.alloc(), &mut list)? && list.len() == 4096);
    Ok(())
}

/// Return whether the list puts 0, 1 and so on.
fn counts_up(list: &Instructions) -> bool {
    for i in 0..list.len() {
        let want = Action::Regular(value(i64::try_from(i).ok()));
        if list.get(i).action != want {
            return false;
        }
    }
    true
}

fn is_copied(alloc: Global, list: Instructions) -> Result<bool, AllocError> {
    Ok(list.copy(alloc)? == list)
}

#[test]
fn copies_are_equal(rt: HostRuntime) -> Result<(), Fail> {
    let alloc = rt.alloc();
    let updates = [
        ("x", Update::Put(Some(1))),
        ("s", Update::SetAdd(1)),
        ("s", Update::SetRemove(2)),
        ("b", Update::BagAdd(1, 2)),
        ("b", Update::BagRemove(2, 2)),
    ];
    assert!(rt; is_copied(alloc, list_of(alloc, &updates)?)?);
    Ok(())
}

/// Copy of the list before each of so many puts of 0, 1 and so on.
fn copies_before_each(
    alloc: Global,
    list: &mut Instructions,
    count: i64,
) -> Result<Vec<Instructions>, Fail> {
    let mut copies = Vec::new(alloc);
    for n in 0..count {
        let copy = list.copy(alloc)?;
        copies.push(copy)?;
        push(alloc, list, "x", Update::Put(Some(n)))?;
    }
    Ok(copies)
}

/// Return whether the first is empty, the second has one put more, and so on.
fn each_is_longer(copies: &[Instructions]) -> bool {
    for (n, copy) in copies.iter().enumerate() {
        if copy.len() != n || !counts_up(copy) {
            return false;
        }
    }
    true
}

#[test]
fn a_list_that_grows_leaves_its_copies_as_they_were(rt: HostRuntime) -> Result<(), Fail> {
    let mut list = Instructions::new(rt.alloc());
    let copies = copies_before_each(rt.alloc(), &mut list, 6)?;
    assert!(rt; copies.len() == 6 && each_is_longer(&copies));
    assert!(rt; list.len() == 6 && counts_up(&list));
    Ok(())
}

#[test]
fn a_move_of_one_instruction_is_one_that_is_pushed(rt: HostRuntime) -> Result<(), Fail> {
    let alloc = rt.alloc();
    let at = location(alloc, "x")?;
    let action = Action::Regular(value(Some(1)));
    let one = Instructions::one(alloc, Instruction { at, action })?;
    assert!(rt; one == list_of(alloc, &[("x", Update::Put(Some(1)))])?);
    Ok(())
}

/// Return the puts of the numbers from the first to below the last.
fn puts(alloc: Global, first: i64, last: i64) -> Result<Instructions, Fail> {
    let mut list = Instructions::new(alloc);
    for n in first..last {
        push(alloc, &mut list, "x", Update::Put(Some(n)))?;
    }
    Ok(list)
}

/// Return whether this many puts and three more make a move in their order.
fn is_appended(alloc: Global, count: i64) -> Result<bool, Fail>
    requires { count ≤ℤ pos 2 }
{
    let mut list = puts(alloc, 0, count)?;
    let more = puts(alloc, count, count + 3)?;
    list.append(&more)?;
    Ok(counts_up(&list) && list.len() == 3 + puts(alloc, 0, count)?.len())
}

#[test]
fn a_move_of_any_length_is_appended_to(rt: HostRuntime) -> Result<(), Fail> {
    let alloc = rt.alloc();
    assert!(rt; is_appended(alloc, 0)?);
    assert!(rt; is_appended(alloc, 1)?);
    assert!(rt; is_appended(alloc, 2)?);
    Ok(())
}
