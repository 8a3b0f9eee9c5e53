//! What two agents of one storage ask and are answered, alone and in contest, and what closing gives.
use crate::storage::asked::{Act, At, Put, Want};
use crate::storage::closings::Closing;
use crate::storage::contests::{Contest, Outcome};
use crate::storage::two_agents::{Case, Step, Who, check_all};
use Act::{Fire, Read};
use Outcome::{Answered, Busy};
use Step::{Alone, Ask, Contend, Count, Fill, Learn, Look, NameMany, ReadMany, Rest, Retry, Row};
use Who::{A, B};
use std::test::Fail;

const NOTHING: Act = Fire(&[], &[]);

const PUT: Act = Fire(&[Put("y", 1)], &[]);

static TURNS: [Case; 9] = [
    // The same value that was read is written.
    Case {
        x: Some(7),
        capacity: 8,
        steps: &[
            Rest,
            Ask(A, PUT, Want::Fired(2)),
            Ask(A, Fire(&[Put("y", 2)], &[At("x", 1)]), Want::Fired(3)),
            Ask(A, Fire(&[], &[At("y", 2), At("x", 0)]), Want::Stale("x", 3)),
        ],
        both: Closing::Events(3, &[0, 1, 0, 0, 0, 0]),
    },
    Case {
        x: Some(7),
        capacity: 8,
        steps: &[
            Ask(B, Fire(&[Put("x", 7)], &[]), Want::Fired(1)),
            Ask(A, PUT, Want::Fired(2)),
        ],
        both: Closing::Events(2, &[1, 0]),
    },
    Case {
        x: Some(7),
        capacity: 8,
        steps: &[
            Ask(A, Read(&["x"]), Want::Read(0, &[Some(7)])),
            Ask(B, NOTHING, Want::Fired(1)),
            Ask(A, Fire(&[Put("y", 1)], &[At("x", 0)]), Want::Fired(2)),
        ],
        both: Closing::Events(2, &[0, 1, 0]),
    },
    Case {
        x: None,
        capacity: 8,
        steps: &[
            Ask(B, PUT, Want::Fired(1)),
            Ask(A, Fire(&[Put("x", 1)], &[]), Want::Fired(2)),
            Alone(Closing::Missing(1)),
        ],
        both: Closing::Events(2, &[1, 0]),
    },
    // A mark says what a poll finds.
    Case {
        x: None,
        capacity: 8,
        steps: &[
            Ask(B, Fire(&[Put("x", 5)], &[]), Want::Fired(1)),
            Learn(A, 1),
            Count(1, 0, 0, 0),
            Ask(A, Read(&["x"]), Want::Read(1, &[Some(5)])),
        ],
        both: Closing::Events(1, &[1, 0]),
    },
    Case {
        x: None,
        capacity: 8,
        steps: &[
            Ask(B, Fire(&[Put("x", 5)], &[]), Want::Fired(1)),
            Ask(A, Read(&["x"]), Want::Read(1, &[Some(5)])),
            Count(1, 0, 1, 1),
        ],
        both: Closing::Events(1, &[1, 0]),
    },
    Case {
        x: Some(7),
        capacity: 8,
        steps: &[
            Ask(B, Fire(&[Put("x", 5)], &[]), Want::Fired(1)),
            Learn(A, 1),
            Count(1, 0, 0, 0),
            Ask(A, Fire(&[Put("y", 1)], &[At("x", 0)]), Want::Stale("x", 1)),
            Ask(A, Fire(&[Put("y", 1)], &[At("x", 1)]), Want::Fired(2)),
            Learn(B, 2),
            Ask(B, Read(&["x", "y"]), Want::Read(2, &[Some(5), Some(1)])),
            Ask(B, Fire(&[Put("z", 1)], &[At("x", 9)]), Want::Fired(3)),
        ],
        both: Closing::Events(3, &[1, 0, 0, 1, 1]),
    },
    // What an agent doesn't see it doesn't miss.
    Case {
        x: None,
        capacity: 200,
        steps: &[
            Ask(A, PUT, Want::Fired(1)),
            Ask(B, PUT, Want::Fired(2)),
            Alone(Closing::Events(1, &[0])),
            Ask(A, Read(&[]), Want::Read(2, &[])),
            Alone(Closing::Missing(2)),
            Row(2),
        ],
        both: Closing::Events(2, &[0, 1, 0]),
    },
    Case {
        x: Some(7),
        capacity: 8,
        steps: &[
            Look,
            Row(2),
            ReadMany(0, true),
            ReadMany(256, true),
            Count(2, 2, 4, 4),
            ReadMany(257, false),
            NameMany(257, false),
            Count(2, 2, 4, 4),
            NameMany(256, true),
            Row(3),
        ],
        both: Closing::Events(3, &[0, 0, 0, 0, 0]),
    },
];

#[test]
fn calls_are_answered_as_by_a_storage_of_one_thread(rt: HostRuntime) -> Result<(), Fail> {
    check_all(&rt, rt.alloc(), &TURNS)
}

/// The second agent fires a move without instructions before each attempt.
const ALWAYS: Contest = Contest {
    reads: &[],
    others: &[],
    times: u32::MAX,
    fires_twice: false,
    outcome: Busy(0, 64),
};

/// What most cases share; each has its own steps, and what closing gives.
const CASE: Case = Case {
    x: None,
    capacity: 200,
    steps: &[],
    both: Closing::Counted(65, 65),
};

static CONTESTS: [Case; 9] = [
    Case {
        steps: &[
            Contend(&ALWAYS),
            Count(64, 0, 64, 0),
            Row(64),
            Ask(A, PUT, Want::Fired(65)),
        ],
        ..CASE
    },
    Case {
        x: Some(7),
        capacity: 8,
        steps: &[
            Ask(A, Read(&["x"]), Want::Read(0, &[Some(7)])),
            Contend(&Contest {
                reads: &[At("x", 0)],
                others: &[Put("x", 5)],
                outcome: Answered(Want::Stale("x", 1)),
                ..ALWAYS
            }),
            Count(1, 0, 3, 2),
            Row(1),
        ],
        both: Closing::Events(1, &[0, 1, 0]),
    },
    Case {
        x: Some(7),
        capacity: 1,
        steps: &[
            Contend(&Contest {
                others: &[Put("x", 5)],
                outcome: Answered(Want::Full(1)),
                ..ALWAYS
            }),
            Count(1, 0, 1, 1),
            Row(1),
        ],
        both: Closing::Events(1, &[1, 0]),
    },
    Case {
        steps: &[
            Contend(&Contest {
                times: 63,
                outcome: Answered(Want::Fired(64)),
                ..ALWAYS
            }),
            Count(64, 1, 64, 1),
            Row(64),
        ],
        both: Closing::Counted(64, 64),
        ..CASE
    },
    Case {
        capacity: 63,
        steps: &[
            Contend(&Contest {
                outcome: Answered(Want::Full(63)),
                ..ALWAYS
            }),
            Count(63, 0, 63, 1),
            Row(63),
        ],
        both: Closing::Counted(63, 64),
        ..CASE
    },
    Case {
        capacity: 64,
        steps: &[
            Contend(&ALWAYS),
            Count(64, 0, 64, 0),
            Ask(A, PUT, Want::Full(64)),
            Row(64),
        ],
        both: Closing::Counted(64, 65),
        ..CASE
    },
    Case {
        steps: &[
            Contend(&Contest {
                fires_twice: true,
                outcome: Busy(0, 127),
                ..ALWAYS
            }),
            Count(127, 0, 64, 0),
            Row(128),
            Alone(Closing::Missing(1)),
        ],
        both: Closing::Counted(128, 128),
        ..CASE
    },
    Case {
        steps: &[Fill(0, 64), Ask(A, PUT, Want::Fired(65)), Row(65)],
        ..CASE
    },
    // What isn't named is judged again and fires.
    Case {
        steps: &[
            Fill(0, 3),
            Learn(A, 3),
            Fill(3, 5),
            Contend(&Contest {
                reads: &[At("y", 0)],
                others: &[Put("x", 5)],
                times: 2,
                outcome: Answered(Want::Fired(8)),
                ..ALWAYS
            }),
            Count(8, 1, 3, 1),
        ],
        both: Closing::Counted(8, 8),
        ..CASE
    },
];

#[test]
fn lost_offers_are_judged_again_and_counted(rt: HostRuntime) -> Result<(), Fail> {
    check_all(&rt, rt.alloc(), &CONTESTS)
}

static RETRIES: [Case; 4] = [
    Case {
        x: Some(7),
        capacity: 8,
        steps: &[
            Ask(A, Read(&["x"]), Want::Read(0, &[Some(7)])),
            Retry(Fire(&[Put("y", 1)], &[At("x", 0)]), Want::Fired(1), 0),
        ],
        both: Closing::Events(1, &[0, 0]),
    },
    Case {
        x: Some(7),
        capacity: 8,
        steps: &[
            Ask(A, Read(&["x"]), Want::Read(0, &[Some(7)])),
            Ask(B, NOTHING, Want::Fired(1)),
            Retry(Fire(&[Put("y", 1)], &[At("x", 0)]), Want::Fired(2), 1),
        ],
        both: Closing::Events(2, &[0, 1, 0]),
    },
    Case {
        x: Some(7),
        capacity: 8,
        steps: &[
            Ask(B, Fire(&[Put("x", 5)], &[]), Want::Fired(1)),
            Retry(Read(&["x", "y"]), Want::Read(1, &[Some(5), None]), 1),
        ],
        both: Closing::Events(1, &[1, 0]),
    },
    Case {
        x: Some(7),
        capacity: 8,
        steps: &[
            Ask(B, Fire(&[Put("x", 5)], &[]), Want::Fired(1)),
            Learn(A, 1),
            Retry(Fire(&[Put("y", 1)], &[At("x", 0)]), Want::Stale("x", 1), 1),
        ],
        both: Closing::Events(1, &[1, 0]),
    },
];

#[test]
fn a_call_that_was_refused_memory_can_be_made_again(rt: HostRuntime) -> Result<(), Fail> {
    check_all(&rt, rt.alloc(), &RETRIES)
}
