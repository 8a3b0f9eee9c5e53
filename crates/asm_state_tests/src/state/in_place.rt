//! A move that changes one location in place.
use asm_aggregate::standard;
use asm_element::{ElemSet, Element, Value};
use asm_state::State;
use asm_test_support::location;
use asm_update::{Action, Instruction, Instructions, Lookup, PlainState};
use std::alloc::{AllocError, Global};
use std::test::Fail;

/// Return a state where s is the set of 1.
fn opened(alloc: Global) -> Result<State, Fail> {
    let mut set = ElemSet::new(alloc);
    set.insert(Element::Num(1))?;
    let mut init = PlainState::new(alloc);
    init.set(location(alloc, "s")?, Value::Set(set))?;
    Ok(State::new(alloc, init)?)
}

/// Return a move that adds 2 and 3 to s.
fn additions(alloc: Global) -> Result<Instructions, Fail> {
    let mut list = Instructions::new(alloc);
    for n in [2, 3] {
        let at = location(alloc, "s")?;
        let action = Action::SetAdd(Element::Num(n));
        list.push(Instruction { at, action })?;
    }
    Ok(list)
}

/// Return whether a follow changed s and counted the move, or left both where memory was refused.
fn is_whole(alloc: Global, state: &State, answer: Result<(), AllocError>) -> Result<bool, Fail> {
    let at = location(alloc, "s")?;
    let members = match state.get(&at) {
        Some(Value::Set(set)) => set.len(),
        _ => 0,
    };
    match answer {
        Ok(()) => Ok(members == 3 && state.number() == 1 && state.written_at(&at) == 1),
        Err(_) => Ok(members == 1 && state.number() == 0 && state.written_at(&at) == 0),
    }
}

/// Return whether a follow changes s and counts the move, or does neither.
fn follows_whole(
    alloc: Global,
    state: &mut State,
    instructions: &Instructions,
) -> Result<bool, Fail> {
    if state.number() == 4_294_967_295 {
        return Ok(false);
    }
    let answer = state.follow(alloc, &standard(), instructions);
    is_whole(alloc, state, answer)
}

#[test]
fn a_change_in_place_is_whole_or_none(rt: HostRuntime) -> Result<(), Fail> {
    let instructions = additions(rt.alloc())?;
    let mut state = opened(rt.alloc())?;
    assert!(rt; follows_whole(rt.alloc(), &mut state, &instructions)?);
    Ok(())
}
