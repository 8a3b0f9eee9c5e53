//! What `admit` answers beside `aggregate`, and how a group changes a state.
use crate::aggregate::groups::{Row, group_in};
use crate::aggregate::plain_data::Act::{Add, BagAdd, BagRemove, Inc, Remove};
use crate::aggregate::plain_data::Old::{self, Bag, Num, Set};
use crate::aggregate::plain_data::{move_of, state_with};
use asm_aggregate::{admit, standard};
use asm_test_support::{Resultless, is_clash, location};
use asm_update::{AggError, Aggregator, Cause, Instructions, PlainState, ResultError};
use std::alloc::{AllocError, Global};
use std::test::Fail;

/// Return whether the move is admitted on the state; both are dropped.
fn admit_on<A: Aggregator>(
    alloc: Global,
    aggregator: &A,
    state: PlainState,
    instructions: Instructions,
) -> Result<(), AggError> {
    admit(alloc, aggregator, &state, &instructions)
}

/// Return whether the row's move is admitted exactly where the row has a value, and else has the row's clash at x.
pub(crate) fn admits<A: Aggregator>(alloc: Global, aggregator: &A, row: Row) -> Result<bool, Fail> {
    let state = state_with(alloc, row.0)?;
    let instructions = move_of(alloc, row.1, row.2)?;
    match (admit_on(alloc, aggregator, state, instructions), row.3) {
        (Ok(()), want) => Ok(want.is_ok()),
        (Err(AggError::Clash(clash)), Err(cause)) => Ok(is_clash(&clash, "x", cause)),
        (Err(AggError::Clash(_clash)), Ok(_)) => Ok(false),
        (Err(AggError::Memory), _) => Err(Fail::from(AllocError)),
    }
}

/// Return whether the answer matches what is left.
///
/// That is the new value, or for the wanted cause the old one. Also if memory was refused the old one has to be left.
fn is_told(
    answer: Result<(), ResultError>,
    is_new: bool,
    is_old: bool,
    want: Result<Old, Cause>,
) -> Result<bool, Fail> {
    match answer {
        Ok(()) => Ok(is_new),
        Err(ResultError::Cause(cause)) => Ok(is_old && want.err() == Some(cause)),
        Err(ResultError::Memory) => {
            if is_old {
                return Err(Fail::from(AllocError));
            }
            Ok(false)
        }
    }
}

/// Return what a change at x by the row's group answers; None where the row has no group.
fn change_of_x<A: Aggregator>(
    alloc: Global,
    aggregator: &A,
    state: &mut PlainState,
    row: Row,
) -> Result<Option<Result<(), ResultError>>, Fail> {
    let at = location(alloc, "x")?;
    Ok(match group_in(alloc, row)? {
        Some(group) => Some(state.change(alloc, aggregator, &at, &group)),
        None => None,
    })
}

/// Return whether the state has the wanted value at x, and nothing else.
fn is_state(alloc: Global, state: &PlainState, want: Result<Old, Cause>) -> Result<bool, Fail> {
    match want {
        Ok(value) => Ok(*state == state_with(alloc, value)?),
        Err(_) => Ok(false),
    }
}

/// Return whether a change by the row's group of a state with the old value at x leaves the row's value there, or
/// for the row's cause the old state.
pub(crate) fn changes_a_state<A: Aggregator>(
    alloc: Global,
    aggregator: &A,
    row: Row,
) -> Result<bool, Fail> {
    let mut state = state_with(alloc, row.0)?;
    let Some(answer) = change_of_x(alloc, aggregator, &mut state, row)? else {
        return Ok(false);
    };
    let is_new = is_state(alloc, &state, row.3)?;
    let is_old = is_state(alloc, &state, Ok(row.0))?;
    is_told(answer, is_new, is_old, row.3)
}

static GROWN: [Row; 8] = [
    Row(Set(&[]), &[], &[Add(1)], Ok(Set(&[1]))),
    Row(
        Set(&[1, 2, 3]),
        &[],
        &[Add(2), Add(4)],
        Ok(Set(&[1, 2, 3, 4])),
    ),
    Row(
        Set(&[1, 2, 3]),
        &[],
        &[Add(2), Remove(1), Add(4), Remove(9)],
        Ok(Set(&[2, 3, 4])),
    ),
    Row(Set(&[1]), &[], &[Remove(2), Remove(1)], Ok(Set(&[]))),
    Row(
        Set(&[1]),
        &[],
        &[Add(2), Add(1), Remove(2)],
        Err(Cause::Both),
    ),
    Row(
        Bag(1, 0),
        &[],
        &[BagAdd("f", 2), BagAdd("e", 1)],
        Ok(Bag(2, 2)),
    ),
    Row(
        Bag(3, 1),
        &[],
        &[BagRemove("e", 3), BagAdd("f", 1)],
        Ok(Bag(0, 2)),
    ),
    Row(Num(5), &[], &[Inc(3), Inc(-9)], Ok(Num(-1))),
];

/// Return whether the aggregator admits the rows and changes a state to theirs.
fn admits_and_changes_all<A: Aggregator>(
    alloc: Global,
    aggregator: &A,
    rows: &[Row],
) -> Result<bool, Fail> {
    for row in rows {
        if !admits(alloc, aggregator, *row)? || !changes_a_state(alloc, aggregator, *row)? {
            return Ok(false);
        }
    }
    Ok(true)
}

#[test]
fn an_admission_and_a_change_ask_for_no_result(rt: HostRuntime) -> Result<(), Fail> {
    let aggregator = Resultless::over(standard());
    assert!(rt; admits_and_changes_all(rt.alloc(), &aggregator, &GROWN)?);
    Ok(())
}
