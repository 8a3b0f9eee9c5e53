//! What an aggregation looks up, and how many instructions a composition has.
ghost use Rattle.asm_update.specs.State.{val};

use crate::aggregate::compositions::Line::{self, Do, Put};
use crate::aggregate::compositions::{compose_of, steps};
use crate::aggregate::plain_data::Act::{Add, BagAdd, BagRemove};
use crate::aggregate::plain_data::Old::{Bag, Num, Set, Undef};
use crate::aggregate::plain_data::{do_at, set_at, write_at};
use asm_aggregate::{ComposeError, admit, aggregate, results, standard};
use asm_element::{Location, Value};
use asm_test_support::{location_at, number};
use asm_update::{Action, AggError, Instruction, Instructions, Lookup, PlainState, UpdateSet};
use std::alloc::{AllocError, Global};
use std::cell::Cell;
use std::test::Fail;

/// A look-up that records what it is asked for: 1 for b, 2 for c, 3 for any other.
#[derive(Drop)]
struct Noting {
    state: PlainState,
    asked: Cell<u64>,
}

impl Lookup for Noting {
    ghost value_at = { λ n. val n.state };

    fn get(&self, at: &Location) -> Option<&Value> {
        let letter = match at.name() {
            "b" => 1,
            "c" => 2,
            _ => 3,
        };
        self.asked
            .set(self.asked.get().saturating_mul(10).saturating_add(letter));
        self.state.get(at)
    }
}

/// Return a state in which b and c are empty bags.
fn two_empty_bags(alloc: Global) -> Result<PlainState, Fail> {
    let mut state = PlainState::new(alloc);
    for name in ["b", "c"] {
        set_at(alloc, &mut state, name, Bag(0, 0))?;
    }
    Ok(state)
}

/// Return a look-up that was asked for nothing, in which b and c are empty bags.
fn noting_two_bags(alloc: Global) -> Result<Noting, Fail> {
    let state = two_empty_bags(alloc)?;
    let asked = Cell::new(0);
    Ok(Noting { state, asked })
}

/// Return what the look-up is asked for until the move is aggregated, and whether it has an update set.
fn aggregate_on(
    alloc: Global,
    lookup: Noting,
    list: &Instructions,
) -> Result<(u64, bool), AllocError> {
    let has_updates = match aggregate(alloc, &standard(), &lookup, list) {
        Ok(_updates) => true,
        Err(AggError::Clash(_clash)) => false,
        Err(AggError::Memory) => return Err(AllocError),
    };
    Ok((lookup.asked.get(), has_updates))
}

/// Return the same of its results beside its own locations.
fn results_on(
    alloc: Global,
    lookup: Noting,
    list: &Instructions,
) -> Result<(u64, bool), AllocError> {
    let has_results = match results(alloc, &standard(), &lookup, list) {
        Ok(_results) => true,
        Err(AggError::Clash(_clash)) => false,
        Err(AggError::Memory) => return Err(AllocError),
    };
    Ok((lookup.asked.get(), has_results))
}

/// Return what the look-up is asked for until the move is admitted or not, and which of the two it is.
fn admit_on(alloc: Global, lookup: Noting, list: &Instructions) -> Result<(u64, bool), AllocError> {
    let is_admitted = match admit(alloc, &standard(), &lookup, list) {
        Ok(()) => true,
        Err(AggError::Clash(_clash)) => false,
        Err(AggError::Memory) => return Err(AllocError),
    };
    Ok((lookup.asked.get(), is_admitted))
}

/// Return whether an aggregation, a list of results and an admission of the move each ask for this, and find that
/// it fires or clashes.
fn asks(alloc: Global, list: &Instructions, asked: u64, fires: bool) -> Result<bool, Fail> {
    let aggregated = aggregate_on(alloc, noting_two_bags(alloc)?, list)?;
    let listed = results_on(alloc, noting_two_bags(alloc)?, list)?;
    let admitted = admit_on(alloc, noting_two_bags(alloc)?, list)?;
    Ok(aggregated == (asked, fires) && listed == (asked, fires) && admitted == (asked, fires))
}

/// A move, what the look-up is asked for where b and c are empty bags, and whether the move fires there.
#[derive(Clone, Copy)]
struct Row(&'static [Line], u64, bool);

static ASKED: [Row; 12] = [
    Row(&[], 0, true),
    Row(&[Put("b", Num(1))], 0, true),
    Row(&[Put("b", Undef)], 0, true),
    Row(
        &[Put("b", Undef), Put("b", Undef), Put("a", Undef)],
        0,
        true,
    ),
    Row(&[Put("b", Undef), Do("c", BagAdd("e", 1))], 2, true),
    Row(
        &[Do("c", BagAdd("e", 1)), Do("b", BagAdd("e", 1))],
        12,
        true,
    ),
    Row(&[Put("b", Set(&[1, 2])), Do("b", Add(1))], 1, true),
    Row(
        &[Do("b", Add(1)), Put("b", Set(&[1])), Do("b", Add(1))],
        1,
        true,
    ),
    Row(&[Put("b", Bag(1, 0)), Do("b", BagAdd("e", 1))], 1, false),
    Row(
        &[
            Do("c", BagAdd("e", 1)),
            Put("b", Num(0)),
            Put("b", Num(1)),
            Do("b", BagAdd("e", 1)),
        ],
        0,
        false,
    ),
    Row(
        &[Do("c", BagAdd("e", 1)), Do("b", BagRemove("e", 1))],
        1,
        false,
    ),
    Row(
        &[Do("d", Add(1)), Do("c", Add(1)), Do("b", BagAdd("e", 1))],
        12,
        false,
    ),
];

fn asks_as_told(alloc: Global, row: Row) -> Result<bool, Fail> {
    let list = steps(alloc, row.0)?;
    asks(alloc, &list, row.1, row.2)
}

#[test]
fn partial_updates_up_to_a_clash_are_looked_up(rt: HostRuntime) -> Result<(), Fail> {
    for (k, row) in ASKED.iter().enumerate() {
        assert!(rt; asks_as_told(rt.alloc(), *row)?, "at row {k}");
    }
    Ok(())
}

/// Return what the move gives where b and c are empty bags.
fn updates_of(alloc: Global, list: &Instructions) -> Result<UpdateSet, Fail> {
    let state = two_empty_bags(alloc)?;
    Ok(aggregate(alloc, &standard(), &state, list)?)
}

/// Additions of one e each, by turns at c and at b.
fn additions_by_turns(alloc: Global, count: u32) -> Result<Instructions, Fail> {
    let mut list = Instructions::new(alloc);
    for n in 0..count {
        let name = if n % 2 == 0 { "c" } else { "b" };
        do_at(alloc, &mut list, name, BagAdd("e", 1))?;
    }
    Ok(list)
}

/// Updates by which b and c are bags with this count of e.
fn counts_at_both(alloc: Global, count: u32) -> Result<UpdateSet, Fail> {
    let mut updates = UpdateSet::new(alloc);
    for name in ["b", "c"] {
        write_at(alloc, &mut updates, name, Bag(count, 0))?;
    }
    Ok(updates)
}

#[test]
fn each_location_is_looked_up_once_in_ascending_order(rt: HostRuntime) -> Result<(), Fail> {
    let list = additions_by_turns(rt.alloc(), 4096)?;
    assert!(rt; asks(rt.alloc(), &list, 12, true)?);
    assert!(rt; updates_of(rt.alloc(), &list)? == counts_at_both(rt.alloc(), 2048)?);
    Ok(())
}

/// Put at so many locations of this name, the greatest first.
fn puts_downwards(alloc: Global, name: &str, count: i64) -> Result<Instructions, Fail> {
    let mut list = Instructions::new(alloc);
    for n in (0..count).rev() {
        let at = location_at(alloc, name, &[n])?;
        let action = Action::Regular(number(n));
        list.push(Instruction { at, action })?;
    }
    Ok(list)
}

fn ascends(updates: &UpdateSet) -> bool {
    let mut last: Option<&Location> = None;
    for (at, _value) in updates.iter() {
        if let Some(last) = last {
            if at <= last {
                return false;
            }
        }
        last = Some(at);
    }
    true
}

fn is_of_4096_that_ascend(updates: &UpdateSet) -> bool {
    updates.len() == 4096 && ascends(updates)
}

#[test]
fn puts_are_not_looked_up(rt: HostRuntime) -> Result<(), Fail> {
    let list = puts_downwards(rt.alloc(), "x", 4096)?;
    assert!(rt; asks(rt.alloc(), &list, 0, true)?);
    assert!(rt; is_of_4096_that_ascend(&updates_of(rt.alloc(), &list)?));
    Ok(())
}

/// Return how many instructions it has; None where they are too many.
fn length_of(answer: Result<Instructions, ComposeError>) -> Result<Option<usize>, Fail> {
    match answer {
        Ok(list) => Ok(Some(list.len())),
        Err(ComposeError::ManyInstructions) => Ok(None),
        Err(error) => Err(Fail::from(error)),
    }
}

/// So many puts at the first name, then so many at the second, and how many they compose to; None where they are
/// too many for one move.
#[derive(Clone, Copy)]
struct Lengths((&'static str, i64), (&'static str, i64), Option<usize>);

static LENGTHS: [Lengths; 3] = [
    Lengths(("x", 2048), ("y", 2048), Some(4096)),
    Lengths(("x", 4096), ("y", 1), None),
    Lengths(("x", 1), ("y", 4096), None),
];

/// Return how many instructions the row's moves compose to.
fn composed_length(alloc: Global, row: Lengths) -> Result<Option<usize>, Fail> {
    let first = puts_downwards(alloc, row.0.0, row.0.1)?;
    let second = puts_downwards(alloc, row.1.0, row.1.1)?;
    length_of(compose_of(alloc, &standard(), first, second))
}

#[test]
fn a_composition_has_4096_instructions_at_most(rt: HostRuntime) -> Result<(), Fail> {
    for (k, row) in LENGTHS.iter().enumerate() {
        assert!(rt; composed_length(rt.alloc(), *row)? == row.2, "at row {k}");
    }
    Ok(())
}
