//! Moves that raise one counter.
use crate::examples::shared::{location, number, one};
use asm_aggregate::{aggregate, compose, standard};
use asm_update::{Action, PlainState};
use std::test::Fail;

#[test]
fn one_move_does_what_two_do(rt: HostRuntime) -> Result<(), Fail> {
    let alloc = rt.alloc();
    let first = one(alloc, "count", Action::Regular(number(1)))?;
    let second = one(alloc, "count", Action::Increment(2))?;
    let both = compose(alloc, &standard(), &first, &second)?;
    let updates = aggregate(alloc, &standard(), &PlainState::new(alloc), &both)?;
    assert_eq!(rt; updates.get(&location(alloc, "count")?), Some(&number(3)));
    Ok(())
}
