//! Groups, joins and compositions of increments.
use crate::aggregate::compositions::Line::{Do, Put};
use crate::aggregate::compositions::NoComposition::{Clashes, Large};
use crate::aggregate::compositions::{Row as Composition, compose_all, composition_of, fires};
use crate::aggregate::groups::{Row, judge_all};
use crate::aggregate::joins::{Joint, join_all};
use crate::aggregate::plain_data::Act::{Add, BagAdd, Inc, Remove};
use crate::aggregate::plain_data::Old::{Bag, Num, Set, Undef};
use asm_aggregate::{BagAgg, CountAgg, SetAgg, standard};
use asm_update::{Aggregator, Cause, Family, JoinError};
use std::test::Fail;

const MIN: i64 = i64::MIN;

const MAX: i64 = i64::MAX;

static SUMS: [Row; 6] = [
    Row(Num(5), &[], &[Inc(3), Inc(-1)], Ok(Num(7))),
    Row(Num(4), &[], &[Inc(0)], Ok(Num(4))),
    Row(Num(MAX), &[], &[Inc(1), Inc(-1)], Ok(Num(MAX))),
    Row(Num(MIN), &[], &[Inc(-1), Inc(1)], Ok(Num(MIN))),
    Row(Num(0), &[], &[Inc(MIN)], Ok(Num(MIN))),
    Row(Num(MIN), &[], &[Inc(MAX), Inc(1), Inc(MAX)], Ok(Num(MAX))),
];

static TOO_LARGE: [Row; 5] = [
    Row(Num(MAX), &[], &[Inc(1)], Err(Cause::Large)),
    Row(Num(MIN), &[], &[Inc(-1)], Err(Cause::Large)),
    Row(Num(-1), &[], &[Inc(MIN)], Err(Cause::Large)),
    Row(
        Num(MIN),
        &[],
        &[Inc(MAX), Inc(2), Inc(MAX)],
        Err(Cause::Large),
    ),
    Row(Num(MAX), &[], &[Inc(MIN), Inc(MIN)], Err(Cause::Large)),
];

static CAUSES: [Row; 9] = [
    Row(Undef, &[], &[Inc(1)], Err(Cause::Kind)),
    Row(Undef, &[Num(1)], &[Inc(1)], Err(Cause::Against)),
    Row(Undef, &[], &[Inc(1), Add(1)], Err(Cause::Mixed)),
    Row(Num(1), &[Num(1), Num(2)], &[Inc(1)], Err(Cause::Two)),
    Row(Num(1), &[Set(&[])], &[Inc(0)], Err(Cause::Kind)),
    Row(Num(1), &[Num(1)], &[Inc(0)], Err(Cause::Against)),
    Row(Num(MAX), &[Num(MAX)], &[Inc(1)], Err(Cause::Against)),
    Row(Bag(1, 0), &[], &[Inc(1)], Err(Cause::Kind)),
    Row(Bag(1, 0), &[], &[BagAdd("e", 1), Inc(1)], Err(Cause::Mixed)),
];

static ANOTHER_FAMILY: [Row; 2] = [
    Row(Set(&[1]), &[], &[Remove(1)], Err(Cause::Mixed)),
    Row(Num(1), &[], &[Inc(1), BagAdd("e", 1)], Err(Cause::Mixed)),
];

#[test]
fn counters_are_raised_and_lowered(rt: HostRuntime) -> Result<(), Fail> {
    judge_all(&rt, rt.alloc(), &standard(), &SUMS)?;
    judge_all(&rt, rt.alloc(), &standard(), &TOO_LARGE)?;
    judge_all(&rt, rt.alloc(), &standard(), &CAUSES)?;
    judge_all(&rt, rt.alloc(), &CountAgg, &ANOTHER_FAMILY)
}

#[test]
fn counters_are_owned(rt: HostRuntime) {
    let families = [Family::Set, Family::Bag, Family::Count];
    assert!(rt; families.iter().all(|family| standard().owns(*family)));
    assert!(rt; CountAgg.owns(Family::Count));
    assert!(rt; !CountAgg.owns(Family::Set) && !CountAgg.owns(Family::Bag));
    assert!(rt; !SetAgg.owns(Family::Count) && !BagAgg.owns(Family::Count));
}

static JOINTS: [Joint; 8] = [
    Joint(&[Inc(1)], &[Inc(2)], Ok(&[Inc(3)])),
    Joint(&[Inc(1)], &[Inc(-1)], Ok(&[])),
    Joint(&[Inc(1), Inc(-1)], &[], Ok(&[])),
    Joint(&[Inc(0)], &[], Ok(&[])),
    Joint(&[], &[Inc(1), Inc(-1)], Ok(&[Inc(0)])),
    Joint(&[], &[Inc(0)], Ok(&[Inc(0)])),
    Joint(&[], &[Inc(2), Inc(-3)], Ok(&[Inc(-1)])),
    Joint(&[Inc(0)], &[Inc(0)], Ok(&[])),
];

static SPLIT: [Joint; 9] = [
    Joint(&[Inc(MAX)], &[Inc(1)], Ok(&[Inc(MAX), Inc(1)])),
    Joint(&[Inc(MAX)], &[Inc(MAX)], Ok(&[Inc(MAX), Inc(MAX)])),
    Joint(
        &[Inc(1), Inc(MAX)],
        &[Inc(MAX)],
        Ok(&[Inc(MAX), Inc(MAX), Inc(1)]),
    ),
    Joint(&[Inc(MAX), Inc(MAX)], &[Inc(2)], Err(JoinError::Large)),
    Joint(&[Inc(MAX), Inc(MAX), Inc(2)], &[], Err(JoinError::Large)),
    Joint(&[Inc(MIN)], &[Inc(0)], Ok(&[Inc(MIN)])),
    Joint(&[Inc(-1)], &[Inc(MIN)], Ok(&[Inc(MIN), Inc(-1)])),
    Joint(
        &[Inc(MIN)],
        &[Inc(1), Inc(MIN)],
        Ok(&[Inc(MIN), Inc(MIN + 1)]),
    ),
    Joint(&[Inc(MIN)], &[Inc(MIN)], Err(JoinError::Large)),
];

static REFUSED: [Joint; 3] = [
    Joint(&[Add(1)], &[Inc(1)], Err(JoinError::Cause(Cause::Kind))),
    Joint(
        &[Inc(1), Add(1)],
        &[Inc(1)],
        Err(JoinError::Cause(Cause::Mixed)),
    ),
    Joint(
        &[Inc(1)],
        &[Inc(1), Add(1)],
        Err(JoinError::Cause(Cause::Mixed)),
    ),
];

#[test]
fn increments_are_joined_or_refused(rt: HostRuntime) -> Result<(), Fail> {
    join_all(&rt, rt.alloc(), &standard(), &JOINTS)?;
    join_all(&rt, rt.alloc(), &standard(), &SPLIT)?;
    join_all(&rt, rt.alloc(), &standard(), &REFUSED)
}

static COMPOSITIONS: [Composition; 6] = [
    Composition(
        &[Put("n", Num(1))],
        &[Do("n", Inc(2))],
        Ok(&[Put("n", Num(3))]),
    ),
    Composition(&[Do("n", Inc(1))], &[Do("n", Inc(-1))], Ok(&[])),
    Composition(
        &[Do("n", Add(1))],
        &[Do("n", Inc(1))],
        Err(Clashes("n", Cause::Kind)),
    ),
    Composition(
        &[],
        &[Do("n", Inc(1)), Do("n", Inc(-1))],
        Ok(&[Do("n", Inc(0))]),
    ),
    Composition(
        &[Do("n", Inc(MAX)), Do("n", Inc(MAX))],
        &[Do("n", Inc(1))],
        Ok(&[Do("n", Inc(MAX)), Do("n", Inc(MAX)), Do("n", Inc(1))]),
    ),
    Composition(
        &[Do("n", Inc(MAX)), Do("n", Inc(MAX))],
        &[Do("n", Inc(2))],
        Err(Large("n")),
    ),
];

static BESIDE_PUTS: [Composition; 3] = [
    Composition(
        &[Do("n", Inc(1))],
        &[Put("n", Num(5))],
        Ok(&[Put("n", Num(5))]),
    ),
    Composition(
        &[Put("n", Num(MAX))],
        &[Do("n", Inc(1))],
        Err(Clashes("n", Cause::Large)),
    ),
    Composition(
        &[Put("n", Num(1)), Do("n", Inc(1))],
        &[],
        Err(Clashes("n", Cause::Against)),
    ),
];

#[test]
fn moves_on_counters_compose(rt: HostRuntime) -> Result<(), Fail> {
    compose_all(&rt, rt.alloc(), &standard(), &COMPOSITIONS)?;
    compose_all(&rt, rt.alloc(), &standard(), &BESIDE_PUTS)
}

static CANCELLED: Composition = Composition(
    &[],
    &[Do("x", Inc(1)), Do("x", Inc(-1))],
    Ok(&[Do("x", Inc(0))]),
);

#[test]
fn an_increment_by_0_asks_for_a_number(rt: HostRuntime) -> Result<(), Fail> {
    let composed = composition_of(rt.alloc(), CANCELLED)?;
    assert!(rt; fires(rt.alloc(), &composed, Undef, Err(Cause::Kind))?);
    assert!(rt; fires(rt.alloc(), &composed, Num(MAX), Ok(Num(MAX)))?);
    Ok(())
}
