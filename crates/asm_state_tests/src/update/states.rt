//! States and update sets: their copies, and where two are equal.
use crate::update::moves::set;
use asm_test_support::{location, value};
use asm_update::{PlainState, UpdateSet};
use std::alloc::{AllocError, Global};
use std::test::Fail;

/// Return a state where x(0), x(1) and so on, below the limit, hold their argument.
fn numbered(alloc: Global, limit: i64) -> Result<PlainState, Fail> {
    let mut state = PlainState::new(alloc);
    for n in 0..limit {
        set(alloc, &mut state, "x", &[n], n)?;
    }
    Ok(state)
}

fn is_state_copied(alloc: Global, state: PlainState) -> Result<bool, AllocError> {
    Ok(state.copy(alloc)? == state)
}

#[test]
fn copies_of_states_are_equal(rt: HostRuntime) -> Result<(), Fail> {
    for limit in [0, 1, 4097] {
        let state = numbered(rt.alloc(), limit)?;
        assert!(rt; is_state_copied(rt.alloc(), state)?, "{limit}");
    }
    Ok(())
}

fn set_of(alloc: Global, puts: &[(&'static str, Option<i64>)]) -> Result<UpdateSet, Fail> {
    let mut updates = UpdateSet::new(alloc);
    for (name, number) in puts {
        let at = location(alloc, name)?;
        updates.put(at, value(*number))?;
    }
    Ok(updates)
}

/// Puts, the last of which counts at each location.
type Puts = &'static [(&'static str, Option<i64>)];

fn are_equal(alloc: Global, one: Puts, other: Puts) -> Result<bool, Fail> {
    let one = set_of(alloc, one)?;
    Ok(one == set_of(alloc, other)?)
}

const LAST: Puts = &[("y", None), ("x", Some(1)), ("x", Some(2))];

#[test]
fn update_sets_are_equal_by_their_locations_and_values(rt: HostRuntime) -> Result<(), Fail> {
    let alloc = rt.alloc();
    assert!(rt; are_equal(alloc, LAST, &[("x", Some(2)), ("y", None)])?);
    assert!(rt; !are_equal(alloc, LAST, &[("x", Some(2))])?);
    Ok(())
}
