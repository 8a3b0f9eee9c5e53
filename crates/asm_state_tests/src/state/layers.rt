//! A look-up through an overlay over a state, which is asked only where no frame has the location.
ghost use Rattle.asm_update.specs.State.{val};

use asm_element::{Location, Value};
use asm_overlay::{Over, Overlay};
use asm_test_support::{location, value};
use asm_update::{Lookup, PlainState, UpdateSet};
use std::alloc::Global;
use std::cell::Cell;
use std::test::Fail;

/// A look-up that counts how often it is asked.
#[derive(Drop)]
struct Counting {
    state: PlainState,
    asked: Cell<u32>,
}

impl Lookup for Counting {
    ghost value_at = { λ c. val c.state };

    fn get(&self, at: &Location) -> Option<&Value> {
        self.asked.set(self.asked.get().saturating_add(1));
        self.state.get(at)
    }
}

/// Return a state where x is 1 and y is 2.
fn state(alloc: Global) -> Result<Counting, Fail> {
    let mut state = PlainState::new(alloc);
    state.set(location(alloc, "x")?, value(Some(1)))?;
    state.set(location(alloc, "y")?, value(Some(2)))?;
    let asked = Cell::new(0);
    Ok(Counting { state, asked })
}

/// Return one frame, in which x is undef.
fn overlay(alloc: Global) -> Result<Overlay, Fail> {
    let mut frame = UpdateSet::new(alloc);
    frame.put(location(alloc, "x")?, value(None))?;
    let mut overlay = Overlay::new(alloc);
    overlay.push(frame)?;
    Ok(overlay)
}

fn gives<L: Lookup>(
    alloc: Global,
    lookup: &L,
    name: &str,
    number: Option<i64>,
) -> Result<bool, Fail> {
    let at = location(alloc, name)?;
    Ok(match lookup.get(&at) {
        Some(held) => number.is_some() && *held == value(number),
        None => number.is_none(),
    })
}

#[test]
fn a_frame_hides_what_is_below(rt: HostRuntime) -> Result<(), Fail> {
    let alloc = rt.alloc();
    let (state, overlay) = (state(alloc)?, overlay(alloc)?);
    assert!(rt; gives(alloc, &Over::new(&overlay, &state), "x", None)?);
    assert_eq!(rt; state.asked.get(), 0);
    assert!(rt; gives(alloc, &Over::new(&overlay, &state), "y", Some(2))?);
    assert!(rt; gives(alloc, &Over::new(&overlay, &state), "z", None)?);
    assert_eq!(rt; state.asked.get(), 2);
    Ok(())
}
