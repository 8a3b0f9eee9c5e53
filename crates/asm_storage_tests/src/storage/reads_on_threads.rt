//! One agent reads on a thread while another fires on a second. Where memory is refused, a thread ends with `AllocError`.
ghost use Rattle.std.specs.Prelude.{◌≡◌, All, IfOk};
ghost use Rattle.asm_storage.specs.Storage.{IsSameAgent};

use crate::storage::asked::places_of;
use crate::storage::closings::Closing;
use crate::storage::two_agents::{Two, storage_of};
use crate::storage::workers::{first_marks, is_put, puts, second_reads, two_with};
use asm_aggregate::Standard;
use asm_element::Location;
use asm_storage::{Agent, Answer, Mark, Receipt, Storage};
use asm_update::Instructions;
use std::alloc::{AllocError, Global};
use std::test::Fail;
use std::thread;
use std::thread::Threads;

/// Two agents and the marks of the first, when that one has fired the moves and the second has read, each on a
/// thread of its own.
fn mark_and_read<'s, R: Threads>(
    rt: &R,
    alloc: Global,
    storage: &'s Storage<Standard>,
    moves: &[Instructions],
    places: &[Location],
) -> Result<(Two<'s>, Vec<Mark>), AllocError>
    ensures reader { IfOk result (λ r. r.0.b.storage ≡ storage.now) }
    ensures marks { IfOk result (λ r. All (λ m. m.row ≡ storage.now.row) r.1.items) }
{
    let (written, b) = thread::join(
        rt,
        move || -> Result<(Agent<'_, Standard>, Vec<Mark>), AllocError>
            ensures agent { IfOk result (λ r. (r.0.storage ≡ storage.entry.now) × (r.0.account.id ≡ 0)) }
            ensures marks { IfOk result (λ r. All (λ m. m.row ≡ storage.entry.now.row) r.1.items) }
        { first_marks(alloc, storage, moves) },
        move || -> Result<Agent<'_, Standard>, AllocError>
            ensures { IfOk result (λ a. (a.storage ≡ storage.entry.now) × (a.account.id ≡ 1)) }
        { second_reads(alloc, storage, places) },
    );
    let (a, marks) = written?;
    Ok((two_with(storage, a, b?), marks))
}

/// Return whether the receipts are of reads whose numbers never fall, each of what the put of its number left.
fn never_fall(receipts: &[Receipt]) -> bool {
    let mut last = 0;
    for receipt in receipts {
        let Answer::Read { number, values } = &receipt.answer else {
            return false;
        };
        if *number < last || !is_put(values.as_slice().first(), i64::from(*number)) {
            return false;
        }
        last = *number;
    }
    true
}

/// Return whether a read reports at least so many moves.
fn reads_at_least(
    alloc: Global,
    agent: &mut Agent<'_, Standard>,
    places: &[Location],
    moves: u32,
) -> Result<bool, AllocError>
    ensures { IsSameAgent agent.old agent.new }
{
    match agent.read(alloc, places) {
        Ok(reading) => Ok(moves <= reading.number()),
        Err(_) => Err(AllocError),
    }
}

/// Return whether a read after learning the mark reports at least its moves.
fn reads_mark(
    alloc: Global,
    agent: &mut Agent<'_, Standard>,
    mark: &Mark,
    places: &[Location],
) -> Result<bool, AllocError>
    requires { mark.now.row ≡ agent.old.storage.row }
    ensures { IsSameAgent agent.old agent.new }
{
    agent.learn(alloc, mark)?;
    reads_at_least(alloc, agent, places, mark.len())
}

/// Return whether that is so of each of the marks in turn, of which each holds one move more than the one before.
fn reads_each_mark(
    alloc: Global,
    agent: &mut Agent<'_, Standard>,
    marks: &[Mark],
    places: &[Location],
) -> Result<bool, AllocError>
    requires { All (λ m. m.row ≡ agent.old.storage.row) marks.now }
    ensures { IsSameAgent agent.old agent.new }
{
    let mut len = 0u32;
    for mark in marks {
        len = len.saturating_add(1);
        if mark.len() != len || !reads_mark(alloc, agent, mark, places)? {
            return Ok(false);
        }
    }
    Ok(true)
}

/// Return whether the second agent's reads beside the first one's 100 moves, and then of each mark, never fall.
fn is_never_falling(
    alloc: Global,
    mut two: Two<'_>,
    marks: &[Mark],
    places: &[Location],
) -> Result<bool, AllocError>
    requires { All (λ m. m.row ≡ two.b.storage.row) marks.now }
{
    let is_read = marks.len() == 100 && reads_each_mark(alloc, &mut two.b, marks, places)?;
    let receipts = two.b.receipts();
    let never_falls = receipts.len() == 200 && never_fall(receipts);
    Ok(is_read && never_falls && two.closes(alloc, Closing::Counted(100, 300)))
}

/// Return whether the reads of one agent never fall beside the other one, which fires the moves.
fn reads_beside<R: Threads>(
    rt: &R,
    alloc: Global,
    storage: &Storage<Standard>,
    moves: &[Instructions],
    places: &[Location],
) -> Result<bool, AllocError> {
    let (two, marks) = mark_and_read(rt, alloc, storage, moves, places)?;
    is_never_falling(alloc, two, &marks, places)
}

fn reads_beside_moves<R: Threads>(
    rt: &R,
    alloc: Global,
    storage: &Storage<Standard>,
    moves: &[Instructions],
) -> Result<bool, AllocError> {
    let places = places_of(alloc, &["x"])?;
    reads_beside(rt, alloc, storage, moves, &places)
}

fn reads_beside_puts<R: Threads>(
    rt: &R,
    alloc: Global,
    storage: &Storage<Standard>,
) -> Result<bool, AllocError> {
    let moves = puts(alloc, 100)?;
    reads_beside_moves(rt, alloc, storage, &moves)
}

#[test]
fn reads_beside_a_writer_never_fall(rt: HostRuntime) -> Result<(), Fail> {
    let alloc = rt.alloc();
    let storage = storage_of(alloc, None, 200)?;
    assert!(&rt; reads_beside_puts(&rt, alloc, &storage)?);
    Ok(())
}
