//! Values that differ in one part alone aren't equal.
use crate::storage::asked::{Act, At, Put, Want, move_of, receipt_of};
use Act::{Fire, Read};
use asm_element::Items;
use asm_storage::{Answer, Entry, Event, History, Receipt, Reply};
use asm_test_support::{are_distinct, clash_at, location, number};
use asm_update::{Cause, PlainState};
use std::alloc::{AllocError, Global};
use std::test::Fail;

/// Calls and answers of which no two are alike.
static ASKED: [(Act, Want); 12] = [
    (Read(&[]), Want::Read(0, &[])),
    (Read(&["x"]), Want::Read(0, &[])),
    (Read(&["y"]), Want::Read(0, &[])),
    (Read(&[]), Want::Read(0, &[Some(1)])),
    (Read(&[]), Want::Read(0, &[Some(2)])),
    (Fire(&[], &[]), Want::Fired(1)),
    (Fire(&[Put("x", 1)], &[]), Want::Fired(1)),
    (Fire(&[Put("x", 2)], &[]), Want::Fired(1)),
    (Fire(&[], &[At("x", 1)]), Want::Fired(1)),
    (Fire(&[], &[At("x", 2)]), Want::Fired(1)),
    (Fire(&[], &[At("y", 1)]), Want::Fired(1)),
    (Fire(&[], &[]), Want::Full(0)),
];

fn receipts(alloc: Global) -> Result<Vec<Receipt>, AllocError> {
    let mut receipts = Vec::new(alloc);
    for (act, want) in ASKED {
        receipts.push(receipt_of(alloc, act, want)?)?;
    }
    // The same call and answer at another number.
    let mut later = receipt_of(alloc, Fire(&[], &[]), Want::Full(1))?;
    later.stood = 1;
    receipts.push(later)?;
    Ok(receipts)
}

/// Return the answers to reads at two numbers, and to fires.
fn answers(alloc: Global) -> Result<Vec<Answer>, AllocError> {
    let mut answers = Vec::new(alloc);
    for number in [0, 1] {
        let values = Items::new(Vec::new(alloc));
        answers.push(Answer::Read { number, values })?;
        answers.push(Answer::Fire(Reply::Fired(number)))?;
    }
    answers.push(Answer::Fire(Reply::Full))?;
    for name in ["x", "y"] {
        let at = location(alloc, name)?;
        answers.push(Answer::Fire(Reply::Stale(at)))?;
    }
    for (name, cause) in [("x", Cause::Two), ("x", Cause::Kind), ("y", Cause::Two)] {
        let clash = clash_at(alloc, name, cause)?;
        answers.push(Answer::Fire(Reply::Clash(clash)))?;
    }
    Ok(answers)
}

/// Events of which no two are alike: of two agents, and with two calls and answers.
fn events(alloc: Global) -> Result<Vec<Event>, AllocError> {
    let mut events = Vec::new(alloc);
    for (agent, act, number) in [
        (0, Fire(&[], &[]), 0),
        (1, Fire(&[], &[]), 0),
        (0, Fire(&[], &[At("x", 1)]), 0),
        (0, Fire(&[], &[]), 1),
    ] {
        let Receipt { call, answer, .. } = receipt_of(alloc, act, Want::Fired(number))?;
        events.push(Event {
            agent,
            call,
            answer,
        })?;
    }
    Ok(events)
}

/// Entries whose agent or move is another.
fn entries(alloc: Global) -> Result<Vec<Entry>, AllocError> {
    let mut entries = Vec::new(alloc);
    for (agent, n) in [(0, 1), (1, 1), (0, 2)] {
        let instrs = move_of(alloc, &[Put("x", n)])?;
        entries.push(Entry { agent, instrs })?;
    }
    Ok(entries)
}

/// Return a history with this number at x at first, and with the events or none.
fn history(
    alloc: Global,
    (n, capacity, agents): (i64, u32, u32),
    has_events: bool,
) -> Result<History, AllocError> {
    let mut init = PlainState::new(alloc);
    init.set(location(alloc, "x")?, number(n))?;
    let events = if has_events {
        events(alloc)?
    } else {
        Vec::new(alloc)
    };
    Ok(History {
        init,
        capacity,
        agents,
        events: Items::new(events),
    })
}

fn histories(alloc: Global) -> Result<Vec<History>, AllocError> {
    let mut histories = Vec::new(alloc);
    for parts in [(1, 8, 2), (2, 8, 2), (1, 9, 2), (1, 8, 3)] {
        histories.push(history(alloc, parts, false)?)?;
    }
    histories.push(history(alloc, (1, 8, 2), true)?)?;
    Ok(histories)
}

#[test]
fn one_part_that_differs_reports_values_apart(rt: HostRuntime) -> Result<(), Fail> {
    let alloc = rt.alloc();
    assert!(rt; are_distinct(&receipts(alloc)?), "receipts");
    assert!(rt; are_distinct(&answers(alloc)?), "answers");
    assert!(rt; are_distinct(&events(alloc)?), "events");
    assert!(rt; are_distinct(&entries(alloc)?), "entries");
    assert!(rt; are_distinct(&histories(alloc)?), "histories");
    Ok(())
}
