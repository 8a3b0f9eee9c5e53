//! Locations that a caller made, held as the state holds them.
use asm_aggregate::standard;
use asm_element::{Items, Location};
use asm_state::{Named, State};
use asm_test_support::{location, location_at, number};
use asm_update::{Action, Instruction, Instructions, PlainState};
use std::alloc::{AllocError, Global};
use std::process::Abort;
use std::test::Fail;

/// How often a location is copied, which takes no memory where its copies share it.
const COPIES: usize = 100;

/// Return locations of which the state has the first two.
fn asked(alloc: Global) -> Result<Vec<Location>, Fail> {
    let mut list = Vec::new(alloc);
    list.push(location_at(alloc, "opened", &[1, 2])?)?;
    list.push(location(alloc, "written")?)?;
    list.push(location(alloc, "unknown")?)?;
    Ok(list)
}

fn put(alloc: Global, at: Location, n: i64) -> Result<Instructions, Fail> {
    let action = Action::Regular(number(n));
    Ok(Instructions::one(alloc, Instruction { at, action })?)
}

/// Return a state that opened with a value at the first location, and in which a move wrote the second one.
fn state<R: Abort>(rt: &R, alloc: Global) -> Result<State, Fail> {
    let mut init = PlainState::new(alloc);
    init.set(
        location_at(alloc, "opened", &[1, 2])?.share(alloc)?,
        number(1),
    )?;
    let mut state = State::new(alloc, init)?;
    let write = put(alloc, location(alloc, "written")?, 2)?;
    assert!(rt; state.number() < 4_294_967_295);
    state.follow(alloc, &standard(), &write)?;
    Ok(state)
}

/// Return whether copies of the location are equal to it.
fn copies_are_equal(alloc: Global, at: &Location) -> Result<bool, AllocError> {
    for _ in 0..COPIES {
        if at.copy(alloc)? != *at {
            return Ok(false);
        }
    }
    Ok(true)
}

fn named(alloc: Global, count: usize) -> Result<Items<Named>, Fail> {
    let mut reads = Vec::new(alloc);
    for at in asked(alloc)? {
        if reads.len() < count {
            reads.push(Named { at, number: 1 })?;
        }
    }
    Ok(Items::packed(reads))
}

fn move_of(alloc: Global, count: usize) -> Result<Instructions, Fail> {
    let mut list = Vec::new(alloc);
    for at in asked(alloc)? {
        if list.len() < count {
            let action = Action::Regular(number(3));
            list.push(Instruction { at, action })?;
        }
    }
    Ok(Instructions::from_vec(alloc, list)?)
}

#[test]
fn a_state_has_the_locations_of_its_values(rt: HostRuntime) -> Result<(), Fail> {
    let alloc = rt.alloc();
    let state = state(&rt, alloc)?;
    let opened = location_at(alloc, "opened", &[1, 2])?;
    let written = location(alloc, "written")?;
    assert!(rt; state.location_of(&opened) == Some(&opened));
    assert!(rt; state.location_of(&written) == Some(&written));
    assert!(rt; state.location_of(&location(alloc, "unknown")?).is_none());
    Ok(())
}

#[test]
fn held_locations_are_equal(rt: HostRuntime) -> Result<(), Fail> {
    let alloc = rt.alloc();
    let state = state(&rt, alloc)?;
    let mut held = asked(alloc)?;
    state.hold_locations(alloc, &mut held)?;
    assert!(rt; held == asked(alloc)?);
    for at in held.iter() {
        assert!(rt; at.name() == "unknown" || copies_are_equal(alloc, at)?);
    }
    Ok(())
}

#[test]
fn held_moves_are_equal(rt: HostRuntime) -> Result<(), Fail> {
    let alloc = rt.alloc();
    let state = state(&rt, alloc)?;
    for count in 0..4 {
        let mut held = move_of(alloc, count)?;
        state.hold_move(alloc, &mut held)?;
        assert!(rt; held == move_of(alloc, count)?);
        for instruction in held.as_slice() {
            assert!(rt;
                instruction.at.name() == "unknown" || copies_are_equal(alloc, &instruction.at)?
            );
        }
    }
    Ok(())
}

#[test]
fn held_reads_are_equal(rt: HostRuntime) -> Result<(), Fail> {
    let alloc = rt.alloc();
    let state = state(&rt, alloc)?;
    for count in 0..4 {
        let mut held = named(alloc, count)?;
        state.hold_reads(alloc, &mut held)?;
        assert!(rt; held == named(alloc, count)?);
        for read in held.as_slice() {
            assert!(rt; read.at.name() == "unknown" || copies_are_equal(alloc, &read.at)?);
        }
    }
    Ok(())
}

#[test]
fn what_copies_share_stays(rt: HostRuntime) -> Result<(), Fail> {
    let alloc = rt.alloc();
    let state = state(&rt, alloc)?;
    for count in 1..4 {
        let mut held = move_of(alloc, count)?;
        let copy = held.copy(alloc)?;
        state.hold_move(alloc, &mut held)?;
        assert!(rt; held == copy && copy == move_of(alloc, count)?);
    }
    Ok(())
}
