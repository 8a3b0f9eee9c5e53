//! What two moves compose to.
use crate::aggregate::groups::{is_wanted, pairs};
use crate::aggregate::plain_data::Act::{self, Add, BagAdd, BagRemove, Remove};
use crate::aggregate::plain_data::Old::{self, Bag, Num, Set};
use crate::aggregate::plain_data::{do_at, put_at, state_with};
use asm_aggregate::{ComposeError, aggregate, compose, standard};
use asm_test_support::is_clash;
use asm_update::{Aggregator, Cause, Instructions};
use std::alloc::{AllocError, Global};
use std::process::Abort;
use std::test::Fail;

/// What is done at a location, in few letters.
#[derive(Clone, Copy)]
pub(crate) enum Line {
    Put(&'static str, Old),
    Do(&'static str, Act),
}

/// Why there is no composition, and where.
#[derive(Clone, Copy)]
pub(crate) enum NoComposition {
    Clashes(&'static str, Cause),
    Large(&'static str),
}

use Line::{Do, Put};
use NoComposition::{Clashes, Large};

/// What is done first, what is done then, and what the two compose to.
#[derive(Clone, Copy)]
pub(crate) struct Row(
    pub(crate) &'static [Line],
    pub(crate) &'static [Line],
    pub(crate) Result<&'static [Line], NoComposition>,
);

/// Return the move of these lines.
pub(crate) fn steps(alloc: Global, lines: &[Line]) -> Result<Instructions, Fail> {
    let mut list = Instructions::new(alloc);
    for line in lines {
        match *line {
            Put(name, value) => put_at(alloc, &mut list, name, value)?,
            Do(name, act) => do_at(alloc, &mut list, name, act)?,
        }
    }
    Ok(list)
}

fn is_move(
    alloc: Global,
    list: &Instructions,
    want: Result<&[Line], NoComposition>,
) -> Result<bool, Fail> {
    match want {
        Ok(lines) => Ok(*list == steps(alloc, lines)?),
        Err(_) => Ok(false),
    }
}

fn is_refusal(error: &ComposeError, want: Result<&[Line], NoComposition>) -> bool {
    match (error, want) {
        (ComposeError::Clash(clash), Err(Clashes(name, cause))) => is_clash(clash, name, cause),
        (ComposeError::Large(at), Err(Large(name))) => at.name() == name && at.args().is_empty(),
        _ => false,
    }
}

/// Return whether it is the wanted move, or the wanted refusal.
///
/// # Errors
///
/// - `AllocError` only if memory is refused.
fn is_composed(
    alloc: Global,
    answer: Result<Instructions, ComposeError>,
    want: Result<&[Line], NoComposition>,
) -> Result<bool, Fail> {
    match answer {
        Ok(list) => is_move(alloc, &list, want),
        Err(ComposeError::Memory) => Err(Fail::from(AllocError)),
        Err(error) => Ok(is_refusal(&error, want)),
    }
}

/// Return the composition of the two moves, which are dropped.
pub(crate) fn compose_of<A: Aggregator>(
    alloc: Global,
    aggregator: &A,
    first: Instructions,
    second: Instructions,
) -> Result<Instructions, ComposeError> {
    compose(alloc, aggregator, &first, &second)
}

fn composes<A: Aggregator>(alloc: Global, aggregator: &A, row: Row) -> Result<bool, Fail> {
    let first = steps(alloc, row.0)?;
    let second = steps(alloc, row.1)?;
    let answer = compose_of(alloc, aggregator, first, second);
    is_composed(alloc, answer, row.2)
}

pub(crate) fn compose_all<R: Abort, A: Aggregator>(
    rt: &R,
    alloc: Global,
    aggregator: &A,
    rows: &[Row],
) -> Result<(), Fail> {
    for (k, row) in rows.iter().enumerate() {
        assert!(rt; composes(alloc, aggregator, *row)?, "at row {k}");
    }
    Ok(())
}

static PUTS: [Row; 6] = [
    Row(&[], &[], Ok(&[])),
    Row(
        &[Put("x", Num(1))],
        &[Put("x", Num(2))],
        Ok(&[Put("x", Num(2))]),
    ),
    Row(
        &[Put("s", Set(&[1]))],
        &[Do("s", Add(2)), Do("s", Remove(1))],
        Ok(&[Put("s", Set(&[2]))]),
    ),
    Row(
        &[Put("s", Set(&[1])), Do("s", Add(1))],
        &[Do("s", Add(3))],
        Ok(&[Put("s", Set(&[1, 3]))]),
    ),
    Row(
        &[Put("x", Num(1)), Put("x", Num(2))],
        &[],
        Err(Clashes("x", Cause::Two)),
    ),
    Row(
        &[Put("x", Num(1))],
        &[Put("x", Num(2)), Put("x", Num(3))],
        Err(Clashes("x", Cause::Two)),
    ),
];

static PUTS_OVER_PARTIALS: [Row; 5] = [
    Row(
        &[Do("s", Add(1))],
        &[Put("s", Num(5))],
        Ok(&[Put("s", Num(5))]),
    ),
    Row(
        &[Do("s", Add(1)), Do("s", Remove(1))],
        &[Put("s", Num(5))],
        Err(Clashes("s", Cause::Both)),
    ),
    Row(
        &[Put("s", Num(1))],
        &[Do("s", Add(1))],
        Err(Clashes("s", Cause::Kind)),
    ),
    Row(
        &[Do("s", Add(1))],
        &[Put("s", Set(&[1, 2])), Do("s", Add(2))],
        Ok(&[Put("s", Set(&[1, 2]))]),
    ),
    Row(
        &[],
        &[Put("s", Set(&[1])), Do("s", Add(2))],
        Err(Clashes("s", Cause::Against)),
    ),
];

static SETS: [Row; 3] = [
    Row(
        &[Do("s", Add(1))],
        &[Do("s", Add(2)), Do("s", Remove(1))],
        Ok(&[Do("s", Add(2)), Do("s", Remove(1))]),
    ),
    Row(
        &[Do("s", Add(1)), Do("s", Remove(2))],
        &[Do("s", Add(2)), Do("s", Remove(1))],
        Ok(&[Do("s", Add(2)), Do("s", Remove(1))]),
    ),
    Row(
        &[Do("s", Add(1))],
        &[Do("s", BagAdd("e", 1))],
        Err(Clashes("s", Cause::Kind)),
    ),
];

static BAGS: [Row; 3] = [
    Row(
        &[Do("b", BagAdd("e", 3))],
        &[Do("b", BagRemove("e", 5))],
        Ok(&[Do("b", BagRemove("e", 2))]),
    ),
    Row(
        &[Do("b", BagAdd("e", 3)), Do("b", BagRemove("f", 1))],
        &[Do("b", BagRemove("e", 1)), Do("b", BagAdd("f", 4))],
        Ok(&[
            Do("b", BagAdd("e", 2)),
            Do("b", BagAdd("f", 4)),
            Do("b", BagRemove("f", 1)),
        ]),
    ),
    Row(
        &[Do("b", BagAdd("e", 1)), Do("b", BagAdd("e", 1))],
        &[],
        Ok(&[Do("b", BagAdd("e", 2))]),
    ),
];

static AMOUNTS: [Row; 3] = [
    Row(
        &[Do("b", BagAdd("e", 1))],
        &[Do("b", BagRemove("e", 1))],
        Ok(&[]),
    ),
    Row(
        &[Do("b", BagRemove("e", u32::MAX))],
        &[Do("b", BagRemove("e", 1))],
        Err(Large("b")),
    ),
    Row(
        &[Do("b", BagAdd("e", u32::MAX))],
        &[Do("b", BagAdd("e", 1))],
        Err(Large("b")),
    ),
];

/// More of an element than one amount can be, which no bag takes.
const OVER: &[Line] = &[Do("b", BagAdd("e", u32::MAX)), Do("b", BagAdd("e", 1))];

static TOO_LARGE_ALONE: [Row; 4] = [
    Row(OVER, &[], Err(Large("b"))),
    Row(&[], OVER, Err(Large("b"))),
    Row(OVER, &[Put("b", Num(5))], Ok(&[Put("b", Num(5))])),
    Row(
        OVER,
        &[Do("b", BagRemove("e", 1))],
        Ok(&[Do("b", BagAdd("e", u32::MAX))]),
    ),
];

/// Return whether the move has this result at x on a state with that value there.
pub(crate) fn fires(
    alloc: Global,
    list: &Instructions,
    old: Old,
    want: Result<Old, Cause>,
) -> Result<bool, Fail> {
    let state = state_with(alloc, old)?;
    is_wanted(alloc, aggregate(alloc, &standard(), &state, list), want)
}

static BACK_AGAIN: [Row; 1] = [Row(
    &[Do("x", BagRemove("e", 1))],
    &[Do("x", BagAdd("e", 1))],
    Ok(&[Do("x", BagAdd("e", 1)), Do("x", BagRemove("e", 1))]),
)];

pub(crate) fn composition_of(alloc: Global, row: Row) -> Result<Instructions, Fail> {
    let first = steps(alloc, row.0)?;
    let second = steps(alloc, row.1)?;
    Ok(compose_of(alloc, &standard(), first, second)?)
}

#[test]
fn a_removal_stays_though_the_amount_comes_back(rt: HostRuntime) -> Result<(), Fail> {
    let alloc = rt.alloc();
    compose_all(&rt, alloc, &standard(), &BACK_AGAIN)?;
    let composed = composition_of(alloc, BACK_AGAIN[0])?;
    assert!(rt; fires(alloc, &composed, Bag(1, 0), Ok(Bag(1, 0)))?);
    assert!(rt; fires(alloc, &composed, Bag(0, 0), Err(Cause::Short))?);
    Ok(())
}

static LEAST: [Row; 2] = [
    Row(
        &[
            Do("d", BagAdd("e", u32::MAX)),
            Put("c", Num(1)),
            Put("a", Num(2)),
        ],
        &[Do("d", BagAdd("e", 1)), Do("c", Add(1)), Put("b", Num(3))],
        Err(Clashes("c", Cause::Kind)),
    ),
    Row(
        &[Put("a", Num(2))],
        &[Put("b", Num(3))],
        Ok(&[Put("a", Num(2)), Put("b", Num(3))]),
    ),
];

static BY_PAIRS: [Row; 2] = [
    Row(
        &[Do("s", Add(1))],
        &[Do("s", Add(2))],
        Ok(&[Do("s", Add(1)), Do("s", Add(2))]),
    ),
    Row(
        &[Do("s", BagAdd("e", 1))],
        &[Do("s", Add(1))],
        Err(Clashes("s", Cause::Kind)),
    ),
];

#[test]
fn moves_compose_or_are_refused(rt: HostRuntime) -> Result<(), Fail> {
    compose_all(&rt, rt.alloc(), &pairs(), &BY_PAIRS)?;
    for rows in [
        PUTS.as_slice(),
        &PUTS_OVER_PARTIALS,
        &SETS,
        &BAGS,
        &AMOUNTS,
        &TOO_LARGE_ALONE,
        &LEAST,
    ] {
        compose_all(&rt, rt.alloc(), &standard(), rows)?;
    }
    Ok(())
}
