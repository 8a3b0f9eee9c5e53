//! Three moves of one step, of which each sees those before it.
use crate::examples::shared::{location, number, one};
use asm_aggregate::{aggregate, standard};
use asm_step::Step;
use asm_update::{Action, PlainState};
use std::test::Fail;

#[test]
fn one_move_does_what_three_do_in_turn(rt: HostRuntime) -> Result<(), Fail> {
    let alloc = rt.alloc();
    let at = location(alloc, "count")?;
    let state = PlainState::new(alloc);
    let put = one(alloc, "count", Action::Regular(number(1)))?;
    let raise = one(alloc, "count", Action::Increment(2))?;

    let mut step = Step::new(alloc);
    step.push(alloc, &standard(), &state, &put)?;
    step.push(alloc, &standard(), &state, &raise)?;
    step.extend(alloc, &standard(), &state, &raise)?;
    assert_eq!(rt; step.get(&state, &at), Some(&number(5)));
    assert_eq!(rt; step.depth(), 2);

    let updates = aggregate(alloc, &standard(), &state, &step.as_move(alloc)?)?;
    assert_eq!(rt; updates.get(&at), Some(&number(5)));
    Ok(())
}
