//! The capacities of runs, and how often a step is tried.
ghost use Rattle.std.specs.Prelude.{◌≡◌, ◌≤◌, ◌+◌, ◌*◌, ℕ, List, length};
ghost use Rattle.asm_element.specs.Place.{Place};
ghost use Rattle.asm_update.specs.Aggregator.{Meaning};
ghost use Rattle.asm_update.specs.Move.{Move};
ghost use Rattle.asm_storage.specs.Machine.{Machine};
ghost use Rattle.asm_storage.specs.declared.history.Event.{Event};
ghost use Rattle.asm_script.specs.declared.step.Step.{Step};
ghost use Rattle.asm_play.specs.StepEvents.{stale_fires, AreInVain, IsEndedAfter, IsGivenUp};

use asm_play::{Open, RunError, run_script};
use asm_script::parse_script;
use std::alloc::Global;
use std::sync::Wait;
use std::test::Fail;
use std::thread::Threads;

/// Return whether a script is refused for this capacity.
fn is_refused<R: Threads + Wait + Sync>(
    rt: &R,
    alloc: Global,
    capacity: u32,
) -> Result<bool, Fail> {
    let script = parse_script(alloc, b"{\"init\":[],\"agents\":[]}")?;
    match run_script(rt, alloc, &script, capacity, &Open) {
        Err(RunError::BadCapacity) => Ok(true),
        Err(error) => Err(Fail::from(error)),
        Ok(_) => Ok(false),
    }
}

#[test]
fn a_capacity_is_from_1_to_1048576(rt: HostRuntime) -> Result<(), Fail> {
    for (capacity, want) in [
        (0u32, true),
        (1, false),
        (1_048_576, false),
        (1_048_577, true),
    ] {
        assert!(rt;
            is_refused(&rt, rt.alloc(), capacity)? == want,
            "{capacity}"
        );
    }
    Ok(())
}

// Does nothing; its contract states the limits of a step's tries, which are in definitions alone.
fn tries_have_limits()
    ensures in_vain { (own : Meaning) (m : Machine) (q : List Move) (s : Step) (places : List Place) (n : ℕ)
        (es : List Event) (vain : AreInVain own m q s places n es) →
        (64 * vain.busy ≤ length q) × (stale_fires es + vain.busy ≡ n) }
    ensures given_up { (own : Meaning) (m : Machine) (q : List Move) (s : Step) (places : List Place) (es : List Event)
        (given : IsGivenUp own m q s places es) → (given.tried ≡ 1001) × (length places ≤ 256) }
    ensures ended { (own : Meaning) (m : Machine) (q : List Move) (s : Step) (places : List Place) (es : List Event)
        (after : IsEndedAfter own m q s places es) →
        (after.tried ≤ 1000) × (length places ≤ 256) × (stale_fires after.last ≡ 0) }
{}

#[test]
fn tries_end_at_their_limits(_rt: HostRuntime) {
    tries_have_limits();
}
