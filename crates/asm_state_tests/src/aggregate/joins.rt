//! What the partial updates of two moves join to.
use crate::aggregate::groups::{are_partial, pairs};
use crate::aggregate::plain_data::Act::{self, Add, BagAdd, BagRemove, Inc, Remove};
use crate::aggregate::plain_data::actions_of;
use asm_aggregate::standard;
use asm_update::{Action, Aggregator, Cause, JoinError};
use std::alloc::{AllocError, Global};
use std::process::Abort;
use std::test::Fail;

/// What is done first, what is done then, and what joins the two.
#[derive(Clone, Copy)]
pub(crate) struct Joint(
    pub(crate) &'static [Act],
    pub(crate) &'static [Act],
    pub(crate) Result<&'static [Act], JoinError>,
);

fn are_actions(
    alloc: Global,
    actions: &[Action],
    want: Result<&[Act], JoinError>,
) -> Result<bool, Fail> {
    match want {
        Ok(wanted) => Ok(actions == actions_of(alloc, wanted)?.as_slice()),
        Err(_) => Ok(false),
    }
}

/// Return whether they are the wanted actions, or it is the wanted refusal.
///
/// # Errors
///
/// - `AllocError` only if memory is refused.
fn is_joined(
    alloc: Global,
    answer: Result<Vec<Action>, JoinError>,
    want: Result<&[Act], JoinError>,
) -> Result<bool, Fail> {
    match answer {
        Ok(actions) => are_actions(alloc, actions.as_slice(), want),
        Err(JoinError::Memory) => Err(Fail::from(AllocError)),
        Err(error) => match want {
            Ok(_) => Ok(false),
            Err(wanted) => Ok(error == wanted),
        },
    }
}

fn join_by<R: Abort, A: Aggregator>(
    rt: &R,
    alloc: Global,
    aggregator: &A,
    first: &[Action],
    second: &[Action],
) -> Result<Vec<Action>, JoinError> {
    assert!(rt; !first.is_empty() || !second.is_empty());
    assert!(rt; are_partial(first));
    assert!(rt; are_partial(second));
    aggregator.join(alloc, first, second)
}

/// Return what joins the two lists, which are dropped.
pub(crate) fn join_of<R: Abort, A: Aggregator>(
    rt: &R,
    alloc: Global,
    aggregator: &A,
    first: Vec<Action>,
    second: Vec<Action>,
) -> Result<Vec<Action>, JoinError> {
    join_by(rt, alloc, aggregator, first.as_slice(), second.as_slice())
}

fn joins_right<R: Abort, A: Aggregator>(
    rt: &R,
    alloc: Global,
    aggregator: &A,
    row: Joint,
) -> Result<bool, Fail> {
    let first = actions_of(alloc, row.0)?;
    let second = actions_of(alloc, row.1)?;
    let answer = join_of(rt, alloc, aggregator, first, second);
    is_joined(alloc, answer, row.2)
}

pub(crate) fn join_all<R: Abort, A: Aggregator>(
    rt: &R,
    alloc: Global,
    aggregator: &A,
    rows: &[Joint],
) -> Result<(), Fail> {
    for (k, row) in rows.iter().enumerate() {
        assert!(rt; joins_right(rt, alloc, aggregator, *row)?, "at row {k}");
    }
    Ok(())
}

static SET_JOINTS: [Joint; 2] = [
    Joint(&[Add(1)], &[Add(2), Remove(1)], Ok(&[Add(2), Remove(1)])),
    Joint(
        &[Add(1)],
        &[BagAdd("e", 1)],
        Err(JoinError::Cause(Cause::Kind)),
    ),
];

static BAG_JOINTS: [Joint; 3] = [
    Joint(
        &[BagAdd("e", 3)],
        &[BagRemove("e", 5)],
        Ok(&[BagRemove("e", 2)]),
    ),
    Joint(
        &[BagAdd("e", 3), BagRemove("f", 1)],
        &[BagRemove("e", 1), BagAdd("f", 4)],
        Ok(&[BagAdd("e", 2), BagAdd("f", 4), BagRemove("f", 1)]),
    ),
    Joint(
        &[BagRemove("e", u32::MAX)],
        &[BagRemove("e", 1)],
        Err(JoinError::Large),
    ),
];

static CANCELLING: [Joint; 3] = [
    Joint(
        &[BagRemove("e", 1)],
        &[BagAdd("e", 1)],
        Ok(&[BagAdd("e", 1), BagRemove("e", 1)]),
    ),
    Joint(&[BagAdd("e", 1)], &[BagRemove("e", 1)], Ok(&[])),
    Joint(
        &[Add(1), Remove(2)],
        &[Add(2), Remove(1)],
        Ok(&[Add(2), Remove(1)]),
    ),
];

static NOTHING_AFTER: [Joint; 2] = [
    Joint(
        &[BagAdd("e", 1), BagAdd("e", 1)],
        &[],
        Ok(&[BagAdd("e", 2)]),
    ),
    Joint(
        &[Add(1), Remove(1)],
        &[],
        Err(JoinError::Cause(Cause::Both)),
    ),
];

#[test]
fn updates_are_joined_or_refused(rt: HostRuntime) -> Result<(), Fail> {
    join_all(&rt, rt.alloc(), &standard(), &SET_JOINTS)?;
    join_all(&rt, rt.alloc(), &standard(), &BAG_JOINTS)?;
    join_all(&rt, rt.alloc(), &standard(), &CANCELLING)?;
    join_all(&rt, rt.alloc(), &standard(), &NOTHING_AFTER)
}

static BY_PAIRS: [Joint; 3] = [
    Joint(&[Add(1)], &[Remove(1)], Ok(&[Remove(1)])),
    Joint(&[Inc(1)], &[], Err(JoinError::Cause(Cause::Mixed))),
    Joint(&[Add(1)], &[Inc(1)], Err(JoinError::Cause(Cause::Mixed))),
];

#[test]
fn a_pair_of_pairs_joins_what_its_parts_own(rt: HostRuntime) -> Result<(), Fail> {
    join_all(&rt, rt.alloc(), &pairs(), &BY_PAIRS)
}
