//! Two agents that act by turns, each with the state that the other has followed so far.
ghost use Rattle.std.specs.Prelude.{◌≡◌};
ghost use Rattle.asm_storage.specs.Storage.{IsSameAgent};

use crate::storage::asked::{Act, At, Put, Want};
use crate::storage::performing::{asks, counts};
use crate::storage::two_agents::storage_of;
use asm_aggregate::Standard;
use asm_storage::Agent;
use std::alloc::{AllocError, Global};
use std::test::Fail;

/// Take the other's state; return whether the two are then at these versions.
///
/// The first version is its own, the second the other's.
fn takes(
    agent: &mut Agent<'_, Standard>,
    other: &mut Agent<'_, Standard>,
    own: u32,
    left: u32,
) -> bool
    requires { other.old.storage ≡ agent.old.storage }
    ensures first { IsSameAgent agent.old agent.new }
    ensures second { IsSameAgent other.old other.new }
{
    agent.take_state(other);
    agent.state().number() == own && other.state().number() == left
}

/// Return whether the first is answered, and the second takes over from it: it has seen what the first has, and
/// fires by that.
fn takes_over(
    alloc: Global,
    a: &mut Agent<'_, Standard>,
    b: &mut Agent<'_, Standard>,
) -> Result<bool, AllocError>
    requires { b.old.storage ≡ a.old.storage }
    ensures first { IsSameAgent a.old a.new }
    ensures second { IsSameAgent b.old b.new }
{
    Ok(
        asks(alloc, a, Act::Fire(&[Put("x", 1)], &[]), Want::Fired(1))?
            && asks(alloc, a, Act::Read(&["x"]), Want::Read(1, &[Some(1)]))?
            && takes(b, a, 1, 0)
            && counts(b, (1, 0, 0, 0))
            && asks(
                alloc,
                b,
                Act::Fire(&[Put("x", 2)], &[At("x", 1)]),
                Want::Fired(2),
            )?,
    )
}

/// Return whether the first catches up from the older state, and keeps it where the other's is no further.
fn catches_up(
    alloc: Global,
    a: &mut Agent<'_, Standard>,
    b: &mut Agent<'_, Standard>,
) -> Result<bool, AllocError>
    requires { b.old.storage ≡ a.old.storage }
    ensures first { IsSameAgent a.old a.new }
    ensures second { IsSameAgent b.old b.new }
{
    Ok(
        asks(
            alloc,
            a,
            Act::Fire(&[Put("x", 3)], &[At("x", 1)]),
            Want::Stale("x", 2),
        )? && takes(a, b, 2, 1)
            && takes(b, a, 2, 1)
            && asks(alloc, a, Act::Read(&["x"]), Want::Read(2, &[Some(2)]))?
            && asks(alloc, b, Act::Read(&["x"]), Want::Read(2, &[Some(2)]))?,
    )
}

#[test]
fn agents_that_take_states_by_turns_are_answered_as_before(rt: HostRuntime) -> Result<(), Fail> {
    let alloc = rt.alloc();
    let storage = storage_of(alloc, None, 8)?;
    let mut a = storage.agent_at(alloc, 0)?;
    let mut b = storage.agent_at(alloc, 1)?;
    assert!(rt; takes_over(alloc, &mut a, &mut b)?);
    assert!(rt; catches_up(alloc, &mut a, &mut b)?);
    assert!(rt; counts(&a, (2, 1, 4, 4)) && counts(&b, (2, 1, 2, 2)));
    Ok(())
}
