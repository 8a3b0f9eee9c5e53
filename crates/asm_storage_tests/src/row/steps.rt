//! What three seats at one row append, find and show, step by step.
use crate::row::seats::{offers, shows};
use asm_row::{Row, Seat};
use std::alloc::{AllocError, Global};
use std::process::Abort;
use std::test::Fail;

/// What a seat does, and what comes of it.
#[derive(Clone, Copy)]
enum Step {
    /// It attempts to append this entry, and wins.
    Wins(char),
    /// It attempts to append the first entry, and the second is there.
    Loses(char, char),
    /// It polls, and finds this entry, or nothing.
    Looks(Option<char>),
    /// It polls so many times, and finds nothing.
    Misses(u32),
    /// It has won so many attempts, found so many cells empty, and seen these entries.
    Shows(u32, u64, &'static [char]),
    /// It has seen an entry in each cell.
    IsFull(bool),
}

/// One of three seats.
#[derive(Clone, Copy)]
enum Who {
    A,
    B,
    C,
}

/// What three seats do at a row of this capacity.
#[derive(Clone, Copy)]
struct Case {
    capacity: u32,
    steps: &'static [(Who, Step)],
}

// How many of so many polls find nothing.
fn misses_in(seat: &mut Seat<'_, char>, looks: u32) -> u32 {
    let mut misses: u32 = 0;
    for _ in 0..looks {
        if seat.next().is_none() {
            misses = misses.saturating_add(1);
        }
    }
    misses
}

fn takes(alloc: Global, seat: &mut Seat<'_, char>, step: Step) -> Result<bool, AllocError> {
    match step {
        Step::Wins(entry) => offers(alloc, seat, entry, None),
        Step::Loses(entry, standing) => offers(alloc, seat, entry, Some(standing)),
        Step::Looks(found) => Ok(seat.next().copied() == found),
        Step::Misses(looks) => Ok(misses_in(seat, looks) == looks),
        Step::Shows(won, misses, entries) => {
            Ok(seat.won() == won && seat.misses() == misses && shows(seat, entries))
        }
        Step::IsFull(is_full) => Ok(seat.is_full() == is_full),
    }
}

fn three_at(alloc: Global, row: &Row<char>) -> Result<Vec<Seat<'_, char>>, AllocError> {
    let mut seats = Vec::new(alloc);
    for _ in 0..3 {
        seats.push(row.seat(alloc)?)?;
    }
    Ok(seats)
}

fn take(
    alloc: Global,
    seats: &mut Vec<Seat<'_, char>>,
    who: Who,
    step: Step,
) -> Result<bool, AllocError> {
    let k = match who {
        Who::A => 0,
        Who::B => 1,
        Who::C => 2,
    };
    match seats.get_mut(k) {
        Some(seat) => takes(alloc, seat, step),
        None => Ok(false),
    }
}

fn play<R: Abort>(
    rt: &R,
    alloc: Global,
    seats: &mut Vec<Seat<'_, char>>,
    steps: &[(Who, Step)],
) -> Result<(), AllocError> {
    for (k, (who, step)) in steps.iter().enumerate() {
        assert!(rt; take(alloc, seats, *who, *step)?, "at step {k}");
    }
    Ok(())
}

fn check<R: Abort>(rt: &R, alloc: Global, case: Case) -> Result<(), Fail> {
    let row = Row::new(alloc, case.capacity)?;
    let mut seats = three_at(alloc, &row)?;
    play(rt, alloc, &mut seats, case.steps)?;
    Ok(())
}

static OFFERS: [Case; 2] = [
    Case {
        capacity: 2,
        steps: &[
            (Who::A, Step::Shows(0, 0, &[])),
            (Who::A, Step::IsFull(false)),
            (Who::A, Step::Wins('p')),
            (Who::A, Step::Shows(1, 0, &['p'])),
            (Who::B, Step::Loses('q', 'p')),
            (Who::B, Step::Shows(0, 0, &['p'])),
            (Who::B, Step::Looks(None)),
            (Who::B, Step::Shows(0, 1, &['p'])),
            (Who::B, Step::IsFull(false)),
            (Who::B, Step::Wins('q')),
            (Who::B, Step::Shows(1, 1, &['p', 'q'])),
            (Who::B, Step::IsFull(true)),
        ],
    },
    Case {
        capacity: 3,
        steps: &[
            (Who::A, Step::Wins('p')),
            (Who::B, Step::Loses('q', 'p')),
            (Who::C, Step::Looks(Some('p'))),
            (Who::C, Step::Looks(None)),
            (Who::C, Step::Wins('r')),
            (Who::C, Step::Wins('s')),
            (Who::C, Step::Shows(2, 1, &['p', 'r', 's'])),
            (Who::A, Step::Looks(Some('r'))),
            (Who::A, Step::Looks(Some('s'))),
            (Who::A, Step::IsFull(true)),
        ],
    },
];

static LOOKS: [Case; 2] = [
    Case {
        capacity: 2,
        steps: &[
            (Who::A, Step::Wins('p')),
            (Who::A, Step::Wins('q')),
            (Who::B, Step::Looks(Some('p'))),
            (Who::B, Step::Looks(Some('q'))),
            (Who::B, Step::Looks(None)),
            (Who::B, Step::Shows(0, 0, &['p', 'q'])),
            (Who::B, Step::IsFull(true)),
        ],
    },
    Case {
        capacity: 3,
        steps: &[
            (Who::A, Step::Wins('p')),
            (Who::A, Step::Wins('q')),
            (Who::B, Step::Looks(Some('p'))),
            (Who::B, Step::Looks(Some('q'))),
            (Who::B, Step::Shows(0, 0, &['p', 'q'])),
            (Who::B, Step::Looks(None)),
            (Who::B, Step::Shows(0, 1, &['p', 'q'])),
        ],
    },
];

static LATE: [Case; 4] = [
    Case {
        capacity: 3,
        steps: &[
            (Who::B, Step::Looks(None)),
            (Who::A, Step::Wins('p')),
            (Who::B, Step::Loses('q', 'p')),
            (Who::B, Step::Shows(0, 1, &['p'])),
            (Who::A, Step::Looks(None)),
            (Who::B, Step::Looks(None)),
            (Who::C, Step::Looks(Some('p'))),
            (Who::C, Step::Looks(None)),
            (Who::B, Step::Shows(0, 2, &['p'])),
        ],
    },
    Case {
        capacity: 3,
        steps: &[
            (Who::A, Step::Wins('p')),
            (Who::B, Step::Looks(Some('p'))),
            (Who::B, Step::Looks(None)),
            (Who::A, Step::Wins('q')),
            (Who::B, Step::Loses('r', 'q')),
            (Who::B, Step::Shows(0, 1, &['p', 'q'])),
            (Who::A, Step::Looks(None)),
            (Who::B, Step::Looks(None)),
            (Who::B, Step::Wins('s')),
            (Who::A, Step::Loses('t', 's')),
            (Who::A, Step::IsFull(true)),
        ],
    },
    Case {
        capacity: 2,
        steps: &[
            (Who::A, Step::Looks(None)),
            (Who::A, Step::Looks(None)),
            (Who::A, Step::Wins('p')),
            (Who::A, Step::Shows(1, 2, &['p'])),
            (Who::B, Step::Looks(Some('p'))),
            (Who::B, Step::Looks(None)),
        ],
    },
    Case {
        capacity: 2,
        steps: &[
            (Who::B, Step::Looks(None)),
            (Who::A, Step::Wins('p')),
            (Who::B, Step::Looks(Some('p'))),
            (Who::B, Step::Looks(None)),
            (Who::C, Step::Loses('r', 'p')),
            (Who::C, Step::Wins('q')),
            (Who::B, Step::Looks(Some('q'))),
            (Who::B, Step::Shows(0, 2, &['p', 'q'])),
        ],
    },
];

// After any number of misses, a seat polls, wins and loses as before.
static QUIET: [Case; 1] = [Case {
    capacity: 3,
    steps: &[
        (Who::A, Step::Misses(5_000)),
        (Who::B, Step::Misses(5_000)),
        (Who::B, Step::Wins('p')),
        (Who::A, Step::Looks(Some('p'))),
        (Who::A, Step::Misses(5_000)),
        (Who::C, Step::Looks(Some('p'))),
        (Who::C, Step::Misses(5_000)),
        (Who::A, Step::Wins('q')),
        (Who::B, Step::Looks(Some('q'))),
        (Who::B, Step::Misses(5_000)),
        (Who::C, Step::Loses('r', 'q')),
        (Who::A, Step::Shows(1, 10_000, &['p', 'q'])),
        (Who::B, Step::Shows(1, 10_000, &['p', 'q'])),
        (Who::C, Step::Shows(0, 5_000, &['p', 'q'])),
    ],
}];

#[test]
fn seats_win_lose_and_find(rt: HostRuntime) -> Result<(), Fail> {
    for cases in [OFFERS.as_slice(), &LOOKS, &LATE, &QUIET] {
        for case in cases {
            check(&rt, rt.alloc(), *case)?;
        }
    }
    Ok(())
}
