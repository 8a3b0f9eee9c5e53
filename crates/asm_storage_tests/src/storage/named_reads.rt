//! What an agent reads by declared reads, and where such a read comes in the history.
use crate::storage::asked::{Act, At, Put, Want};
use crate::storage::closings::Closing;
use crate::storage::performing::Validated;
use crate::storage::two_agents::{Case, Step, Who, check_all};
use Act::Fire;
use Step::{Ask, Count, Learn, ReadNamed, ReadNamedMany, Row};
use Validated::{Read, Stale};
use Who::{A, B};
use std::test::Fail;

const PUT: Act = Fire(&[Put("y", 1)], &[]);

static NAMED_READS: [Case; 6] = [
    // The read comes behind the move that the agent had learnt, also where the locations are declared at no move.
    Case {
        x: Some(7),
        capacity: 8,
        steps: &[
            Ask(B, PUT, Want::Fired(1)),
            Learn(A, 1),
            ReadNamed(&[At("x", 0)], Read(1, &[Some(7)])),
            Ask(A, Fire(&[Put("x", 8)], &[At("x", 0)]), Want::Fired(2)),
        ],
        both: Closing::Events(2, &[1, 0, 0]),
    },
    // It polls, and reads all that is declared, in its order.
    Case {
        x: Some(7),
        capacity: 8,
        steps: &[
            ReadNamed(&[], Read(0, &[])),
            Ask(B, PUT, Want::Fired(1)),
            ReadNamed(
                &[At("y", 1), At("x", 0), At("y", 1)],
                Read(1, &[Some(1), Some(7), Some(1)]),
            ),
            Row(1),
        ],
        both: Closing::Events(1, &[0, 1, 0]),
    },
    // The smallest stale location is returned, and nothing is read.
    Case {
        x: Some(7),
        capacity: 8,
        steps: &[
            Ask(B, PUT, Want::Fired(1)),
            Ask(B, Fire(&[Put("x", 5)], &[]), Want::Fired(2)),
            ReadNamed(&[At("z", 0), At("y", 0), At("x", 0)], Stale("x")),
            ReadNamed(&[At("x", 2), At("y", 0)], Stale("y")),
            ReadNamed(&[At("x", 2), At("y", 1)], Read(2, &[Some(5), Some(1)])),
        ],
        both: Closing::Events(2, &[1, 1, 0]),
    },
    // It follows a move that the agent fired itself, and one that is written as it was.
    Case {
        x: Some(7),
        capacity: 2,
        steps: &[
            Ask(A, Fire(&[Put("x", 1)], &[At("x", 0)]), Want::Fired(1)),
            ReadNamed(&[At("x", 1)], Read(1, &[Some(1)])),
            Ask(B, Fire(&[Put("x", 1)], &[]), Want::Fired(2)),
            ReadNamed(&[At("x", 1)], Stale("x")),
            Ask(A, PUT, Want::Full(2)),
            ReadNamed(&[At("y", 0)], Read(2, &[None])),
        ],
        both: Closing::Events(2, &[0, 0, 1, 0, 0]),
    },
    // Too many declared reads are refused before it polls.
    Case {
        x: Some(7),
        capacity: 8,
        steps: &[
            Ask(B, PUT, Want::Fired(1)),
            ReadNamedMany(257, false),
            Count(0, 0, 0, 0),
            ReadNamedMany(256, true),
            Count(1, 0, 1, 1),
        ],
        both: Closing::Events(1, &[1, 0]),
    },
    // A declared read of a later number than all that was seen isn't stale.
    Case {
        x: Some(7),
        capacity: 8,
        steps: &[
            Ask(B, Fire(&[Put("x", 5)], &[]), Want::Fired(1)),
            ReadNamed(&[At("x", 9)], Read(1, &[Some(5)])),
        ],
        both: Closing::Events(1, &[1, 0]),
    },
];

#[test]
fn declared_reads_are_validated_and_read(rt: HostRuntime) -> Result<(), Fail> {
    check_all(&rt, rt.alloc(), &NAMED_READS)
}
