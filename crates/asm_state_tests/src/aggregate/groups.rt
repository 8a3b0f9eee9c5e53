//! Groups of updates of one location, and what an aggregator makes of them.
ghost use Rattle.std.specs.Prelude.{◌≡◌};
ghost use Rattle.std.specs.List.{list_all};
ghost use Rattle.asm_update.specs.Action.{is_partial};
ghost use Rattle.asm_state_tests.specs.Nobody.{nobody_meaning};
ghost use Rattle.asm_state_tests.specs.laws.NobodyLaws.{nobody_laws};

use crate::aggregate::admissions::{admits, changes_a_state};
use crate::aggregate::plain_data::Act::{Add, BagAdd, BagRemove, Inc, Remove};
use crate::aggregate::plain_data::Old::{Bag, Num, Set, Undef};
use crate::aggregate::plain_data::{
    Act, Old, actions_of, move_of, state_with, updates_of, value_of,
};
use asm_aggregate::{BagAgg, Pair, SetAgg, aggregate, standard};
use asm_element::Value;
use asm_test_support::is_clash;
use asm_update::{
    Action, AggError, Aggregator, Cause, Family, Group, Instructions, JoinError, PlainState,
    ResultError, UpdateSet,
};
use std::alloc::{AllocError, Global};
use std::process::Abort;
use std::test::Fail;

/// A row: the value at x, what a move puts there, its partial updates, the result.
///
/// The result is what the aggregator makes of them.
#[derive(Clone, Copy)]
pub(crate) struct Row(
    pub(crate) Old,
    pub(crate) &'static [Old],
    pub(crate) &'static [Act],
    pub(crate) Result<Old, Cause>,
);

fn are_updates(alloc: Global, updates: &UpdateSet, want: Result<Old, Cause>) -> Result<bool, Fail> {
    match want {
        Ok(value) => Ok(*updates == updates_of(alloc, value)?),
        Err(_) => Ok(false),
    }
}

/// Return whether it is the wanted value at x alone, or the wanted clash there.
///
/// # Errors
///
/// - `AllocError` only if memory is refused.
pub(crate) fn is_wanted(
    alloc: Global,
    answer: Result<UpdateSet, AggError>,
    want: Result<Old, Cause>,
) -> Result<bool, Fail> {
    match answer {
        Ok(updates) => are_updates(alloc, &updates, want),
        Err(AggError::Clash(clash)) => match want {
            Ok(_) => Ok(false),
            Err(cause) => Ok(is_clash(&clash, "x", cause)),
        },
        Err(AggError::Memory) => Err(Fail::from(AllocError)),
    }
}

/// Return what the move gives on the state, both of which are dropped.
pub(crate) fn aggregate_on<A: Aggregator>(
    alloc: Global,
    aggregator: &A,
    state: PlainState,
    instructions: Instructions,
) -> Result<UpdateSet, AggError> {
    aggregate(alloc, aggregator, &state, &instructions)
}

fn aggregates<A: Aggregator>(alloc: Global, aggregator: &A, row: Row) -> Result<bool, Fail> {
    let state = state_with(alloc, row.0)?;
    let instructions = move_of(alloc, row.1, row.2)?;
    let answer = aggregate_on(alloc, aggregator, state, instructions);
    is_wanted(alloc, answer, row.3)
}

pub(crate) fn are_partial(actions: &[Action]) -> bool
    ensures { result ≡ list_all is_partial actions.now }
{
    actions.iter().all(|action| action.family().is_some())
}

fn put_of(alloc: Global, puts: &[Old]) -> Result<Option<Value>, Fail> {
    match puts.first() {
        Some(put) => Ok(Some(value_of(alloc, *put)?)),
        None => Ok(None),
    }
}

/// Return the group, if its actions are partial updates, and some.
pub(crate) fn group_of(regular: Option<Value>, partials: Vec<Action>) -> Option<Group> {
    if partials.is_empty() || !are_partial(partials.as_slice()) {
        return None;
    }
    Some(Group::new(regular, partials))
}

pub(crate) fn is_value(
    alloc: Global,
    value: &Value,
    want: Result<Old, Cause>,
) -> Result<bool, Fail> {
    match want {
        Ok(old) => Ok(*value == value_of(alloc, old)?),
        Err(_) => Ok(false),
    }
}

/// Return whether it is the wanted value, or the wanted cause.
///
/// # Errors
///
/// - `AllocError` only if memory is refused.
fn is_result(
    alloc: Global,
    answer: Result<Value, ResultError>,
    want: Result<Old, Cause>,
) -> Result<bool, Fail> {
    match answer {
        Ok(value) => is_value(alloc, &value, want),
        Err(ResultError::Cause(cause)) => match want {
            Ok(_) => Ok(false),
            Err(wanted) => Ok(cause == wanted),
        },
        Err(ResultError::Memory) => Err(Fail::from(AllocError)),
    }
}

/// Return what the aggregator makes of the group on the old value, both of which are dropped.
fn result_by<A: Aggregator>(
    alloc: Global,
    aggregator: &A,
    old: Value,
    group: Group,
) -> Result<Value, ResultError> {
    let known = if old.is_undef() { None } else { Some(&old) };
    aggregator.result(alloc, known, &group)
}

pub(crate) fn group_in(alloc: Global, row: Row) -> Result<Option<Group>, Fail> {
    let regular = put_of(alloc, row.1)?;
    let partials = actions_of(alloc, row.2)?;
    Ok(group_of(regular, partials))
}

fn results<A: Aggregator>(alloc: Global, aggregator: &A, row: Row) -> Result<bool, Fail> {
    let old = value_of(alloc, row.0)?;
    match group_in(alloc, row)? {
        Some(group) => is_result(alloc, result_by(alloc, aggregator, old, group), row.3),
        None => Ok(false),
    }
}

/// Return whether the row is for a group: with partial updates and at most one put.
fn is_of_group(row: Row) -> bool {
    row.1.len() <= 1 && !row.2.is_empty()
}

/// Return whether the aggregator makes of the row what it shows, by `aggregate` and, for a group, by `result`,
/// `admit` and `change`.
fn judges<A: Aggregator>(alloc: Global, aggregator: &A, row: Row) -> Result<bool, Fail> {
    if !aggregates(alloc, aggregator, row)? || !admits(alloc, aggregator, row)? {
        return Ok(false);
    }
    Ok(
        !is_of_group(row)
            || (results(alloc, aggregator, row)? && changes_a_state(alloc, aggregator, row)?),
    )
}

pub(crate) fn judge_all<R: Abort, A: Aggregator>(
    rt: &R,
    alloc: Global,
    aggregator: &A,
    rows: &[Row],
) -> Result<(), Fail> {
    for (k, row) in rows.iter().enumerate() {
        assert!(rt; judges(alloc, aggregator, *row)?, "at row {k}");
    }
    Ok(())
}

static REGULAR: [Row; 6] = [
    Row(Num(7), &[Undef], &[], Ok(Undef)),
    Row(Undef, &[Num(1), Num(1)], &[], Ok(Num(1))),
    Row(Undef, &[Num(1), Num(2)], &[Add(3)], Err(Cause::Two)),
    Row(Num(7), &[Set(&[1, 2])], &[Add(1)], Ok(Set(&[1, 2]))),
    Row(Set(&[]), &[Set(&[1, 2])], &[Remove(2)], Err(Cause::Against)),
    Row(Set(&[]), &[Set(&[1, 2])], &[Remove(3)], Ok(Set(&[1, 2]))),
];

static SETS: [Row; 4] = [
    Row(Set(&[1]), &[], &[Add(2), BagAdd("e", 1)], Err(Cause::Mixed)),
    Row(Num(7), &[], &[Add(1)], Err(Cause::Kind)),
    Row(Set(&[1]), &[], &[Remove(1)], Ok(Set(&[]))),
    Row(Set(&[1]), &[Undef], &[Add(1)], Err(Cause::Kind)),
];

static BAGS: [Row; 6] = [
    Row(
        Bag(0, 0),
        &[Bag(1, 0)],
        &[BagAdd("e", 1)],
        Err(Cause::Against),
    ),
    Row(Bag(0, 0), &[Set(&[])], &[BagAdd("e", 1)], Err(Cause::Kind)),
    Row(Bag(2, 0), &[], &[BagRemove("e", 2)], Ok(Bag(0, 0))),
    Row(
        Bag(2, 0),
        &[],
        &[BagRemove("e", 1), BagRemove("e", 2)],
        Err(Cause::Short),
    ),
    Row(
        Bag(1, u32::MAX),
        &[],
        &[BagRemove("e", 2), BagAdd("f", 1)],
        Err(Cause::Short),
    ),
    Row(Bag(0, u32::MAX), &[], &[BagAdd("f", 1)], Err(Cause::Large)),
];

static CAUSES: [Row; 3] = [
    Row(Undef, &[], &[Add(1), BagAdd("e", 1)], Err(Cause::Mixed)),
    Row(Undef, &[], &[Add(1), Remove(1)], Err(Cause::Kind)),
    Row(Set(&[1]), &[], &[Add(1), Remove(1)], Err(Cause::Both)),
];

static A_BAG_FOR_SETS: [Row; 1] = [Row(Undef, &[], &[BagAdd("e", 1)], Err(Cause::Mixed))];

static A_SET_FOR_BAGS: [Row; 1] = [Row(Set(&[1]), &[], &[Add(1)], Err(Cause::Mixed))];

#[test]
fn groups_have_a_value_or_a_cause(rt: HostRuntime) -> Result<(), Fail> {
    judge_all(&rt, rt.alloc(), &standard(), &REGULAR)?;
    judge_all(&rt, rt.alloc(), &standard(), &SETS)?;
    judge_all(&rt, rt.alloc(), &standard(), &BAGS)?;
    judge_all(&rt, rt.alloc(), &standard(), &CAUSES)?;
    judge_all(&rt, rt.alloc(), &SetAgg, &A_BAG_FOR_SETS)?;
    judge_all(&rt, rt.alloc(), &BagAgg, &A_SET_FOR_BAGS)
}

/// An aggregator that owns no family.
#[derive(Debug, Drop)]
pub(crate) struct Nobody;

impl Aggregator for Nobody {
    ghost meaning = { λ _. nobody_meaning };

    ghost laws = { λ _. nobody_laws };

    fn owns(&self, _family: Family) -> bool {
        false
    }

    fn result(
        &self,
        _alloc: Global,
        _old: Option<&Value>,
        _group: &Group,
    ) -> Result<Value, ResultError> {
        Err(ResultError::Cause(Cause::Mixed))
    }

    fn join(
        &self,
        _alloc: Global,
        _first: &[Action],
        _second: &[Action],
    ) -> Result<Vec<Action>, JoinError> {
        Err(JoinError::Cause(Cause::Mixed))
    }
}

fn owns_both<A: Aggregator>(aggregator: &A) -> bool {
    aggregator.owns(Family::Set) && aggregator.owns(Family::Bag)
}

/// Return a pair of pairs that owns both families.
pub(crate) fn pairs() -> Pair<Pair<Nobody, BagAgg>, Pair<SetAgg, Nobody>> {
    Pair::new(Pair::new(Nobody, BagAgg), Pair::new(SetAgg, Nobody))
}

static BY_PAIRS: [Row; 3] = [
    Row(Set(&[1]), &[], &[Add(2)], Ok(Set(&[1, 2]))),
    Row(Bag(1, 0), &[], &[BagAdd("e", 1)], Ok(Bag(2, 0))),
    Row(Num(1), &[], &[Inc(1)], Err(Cause::Mixed)),
];

#[test]
fn a_pair_of_pairs_owns_what_its_parts_own(rt: HostRuntime) -> Result<(), Fail> {
    assert!(rt; owns_both(&pairs()));
    judge_all(&rt, rt.alloc(), &pairs(), &BY_PAIRS)
}
