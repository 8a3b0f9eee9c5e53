//! Two agents of one storage fire, each on a thread of its own. Where memory is refused, a thread ends with `AllocError`.
ghost use Rattle.std.specs.Prelude.{◌≡◌, IfOk};

use crate::storage::asked::move_at;
use crate::storage::closings::Closing;
use crate::storage::two_agents::{Two, storage_of};
use crate::storage::workers::{fires_as, puts, two_with};
use asm_aggregate::{Standard, standard};
use asm_element::{ElemBag, Element, Value};
use asm_storage::{Agent, Storage};
use asm_test_support::location;
use asm_update::{Action, Amount, Instructions, PlainState};
use std::alloc::{AllocError, Global};
use std::test::Fail;
use std::thread;
use std::thread::Threads;

/// Two agents, when each has fired the moves on a thread of its own.
fn both_fire<'s, R: Threads>(
    rt: &R,
    alloc: Global,
    storage: &'s Storage<Standard>,
    moves: &[Instructions],
) -> Result<Two<'s>, AllocError> {
    let (a, b) = thread::join(
        rt,
        move || -> Result<Agent<'_, Standard>, AllocError>
            ensures { IfOk result (λ a. (a.storage ≡ storage.entry.now) × (a.account.id ≡ 0)) }
        { fires_as(alloc, storage, 0, moves) },
        move || -> Result<Agent<'_, Standard>, AllocError>
            ensures { IfOk result (λ a. (a.storage ≡ storage.entry.now) × (a.account.id ≡ 1)) }
        { fires_as(alloc, storage, 1, moves) },
    );
    Ok(two_with(storage, a?, b?))
}

/// Return how many attempts each of the agents has won.
fn wins(two: &Two<'_>) -> (u32, u32) {
    (two.a.won(), two.b.won())
}

/// Return a storage for 200 moves where b is an empty bag.
fn storage_of_bag(alloc: Global) -> Result<Storage<Standard>, AllocError> {
    let mut init = PlainState::new(alloc);
    init.set(location(alloc, "b")?, Value::Bag(ElemBag::new(alloc)))?;
    Storage::new(alloc, standard(), init, 200).map_err(|_| AllocError)
}

/// Return a move that adds one 5 to the bag b.
fn addition(alloc: Global) -> Result<Instructions, AllocError> {
    match Amount::new(1) {
        Some(one) => move_at(alloc, "b", Action::BagAdd(Element::Num(5), one)),
        None => Err(AllocError),
    }
}

fn additions(alloc: Global) -> Result<Vec<Instructions>, AllocError> {
    let mut moves = Vec::new(alloc);
    for _ in 0..100 {
        let instrs = addition(alloc)?;
        moves.push(instrs)?;
    }
    Ok(moves)
}

/// Return whether two agents on threads of their own fire 100 additions each.
fn adds_by_two<R: Threads>(
    rt: &R,
    alloc: Global,
    storage: &Storage<Standard>,
) -> Result<bool, AllocError> {
    let moves = additions(alloc)?;
    let two = both_fire(rt, alloc, storage, &moves)?;
    Ok(wins(&two) == (100, 100) && two.closes(alloc, Closing::Counted(200, 200)))
}

#[test]
fn additions_of_two_threads_are_all_fired(rt: HostRuntime) -> Result<(), Fail> {
    let alloc = rt.alloc();
    let storage = storage_of_bag(alloc)?;
    assert!(&rt; adds_by_two(&rt, alloc, &storage)?);
    Ok(())
}

/// Return whether one of two agents on threads of their own fires, and the other finds the storage full.
fn fires_last<R: Threads>(
    rt: &R,
    alloc: Global,
    storage: &Storage<Standard>,
) -> Result<bool, AllocError> {
    let moves = puts(alloc, 1)?;
    let two = both_fire(rt, alloc, storage, &moves)?;
    let is_one_fired = matches!(wins(&two), (0, 1) | (1, 0));
    Ok(is_one_fired && two.closes(alloc, Closing::Counted(1, 2)))
}

#[test]
fn last_place_is_fired_by_one_of_two_threads(rt: HostRuntime) -> Result<(), Fail> {
    let alloc = rt.alloc();
    let storage = storage_of(alloc, None, 1)?;
    assert!(&rt; fires_last(&rt, alloc, &storage)?);
    Ok(())
}
