//! The limits of a storage and of its calls, and calls by a reading or without a receipt.
ghost use Rattle.asm_storage.specs.Storage.{IsSameAgent};

use crate::storage::asked::{Act, Put, Want, is_number, move_of, places_of};
use crate::storage::performing::{asks, fires};
use crate::storage::two_agents::storage_of;
use asm_aggregate::{Standard, standard};
use asm_element::Location;
use asm_state::{Named, Scanned};
use asm_storage::{
    Agent, AgentsError, FireError, NamedReading, ReadError, Reading, Reply, Storage, StorageError,
};
use asm_test_support::location;
use asm_update::{Instructions, PlainState};
use std::alloc::{AllocError, Global};
use std::slice;
use std::test::Fail;

/// Return whether a storage of this capacity is made.
///
/// # Errors
///
/// - `AllocError` only if memory is refused.
fn is_made(alloc: Global, capacity: u32) -> Result<bool, AllocError> {
    match Storage::new(alloc, standard(), PlainState::new(alloc), capacity) {
        Ok(_) => Ok(true),
        Err(StorageError::BadCapacity) => Ok(false),
        Err(StorageError::Memory) => Err(AllocError),
    }
}

#[test]
fn capacities_out_of_range_are_refused(rt: HostRuntime) -> Result<(), Fail> {
    for (capacity, is_good) in [(0, false), (1, true), (1_048_576, true), (1_048_577, false)] {
        assert_eq!(rt; is_made(rt.alloc(), capacity)?, is_good, "{capacity}");
    }
    Ok(())
}

/// Return whether so many agents are made, the last of which has the last of the numbers from 0 up, and no move.
///
/// # Errors
///
/// - `AllocError` only if memory is refused.
fn are_made(alloc: Global, storage: &Storage<Standard>, n: u32) -> Result<bool, AllocError> {
    match storage.agents(alloc, n) {
        Ok(agents) => {
            let last = agents.as_slice().last().map_or(0, |agent| agent.id());
            let are_numbered = agents.len() == n as usize && last == n.saturating_sub(1);
            Ok(are_numbered && storage.moves() == 0)
        }
        Err(AgentsError::BadAgents) => Ok(false),
        Err(AgentsError::Memory) => Err(AllocError),
    }
}

#[test]
fn from_1_to_256_agents_are_made(rt: HostRuntime) -> Result<(), Fail> {
    let storage = storage_of(rt.alloc(), None, 1)?;
    for (n, is_good) in [(0, false), (1, true), (256, true), (257, false)] {
        assert_eq!(rt; are_made(rt.alloc(), &storage, n)?, is_good, "{n}");
    }
    Ok(())
}

fn places_many(alloc: Global, n: usize) -> Result<Vec<Location>, AllocError> {
    let mut places = Vec::new(alloc);
    for _ in 0..n {
        let place = location(alloc, "x")?;
        places.push(place)?;
    }
    Ok(places)
}

/// Return whether so many locations are read, or refused for their number where that isn't good.
pub(crate) fn reads_many(
    alloc: Global,
    agent: &mut Agent<'_, Standard>,
    n: usize,
    is_good: bool,
) -> Result<bool, AllocError>
    ensures { IsSameAgent agent.old agent.new }
{
    let places = places_many(alloc, n)?;
    match agent.read(alloc, &places) {
        Ok(reading) => Ok(is_good && reading.len() == n),
        Err(ReadError::ManyLocations) => Ok(!is_good),
        Err(ReadError::Memory) => Err(AllocError),
    }
}

fn named_many(alloc: Global, n: usize) -> Result<Vec<Named>, AllocError> {
    let mut reads = Vec::new(alloc);
    for _ in 0..n {
        let at = location(alloc, "x")?;
        reads.push(Named { at, number: 0 })?;
    }
    Ok(reads)
}

/// Return whether so many declared reads are read, or refused for their number where that isn't good.
pub(crate) fn reads_named_many(
    alloc: Global,
    agent: &mut Agent<'_, Standard>,
    n: usize,
    is_good: bool,
) -> Result<bool, AllocError>
    ensures { IsSameAgent agent.old agent.new }
{
    let reads = named_many(alloc, n)?;
    match agent.read_named(alloc, &reads) {
        Ok(NamedReading::Read(reading)) => Ok(is_good && reading.len() == n),
        Ok(NamedReading::Stale(_)) => Ok(false),
        Err(ReadError::ManyLocations) => Ok(!is_good),
        Err(ReadError::Memory) => Err(AllocError),
    }
}

/// Return whether a move with so many declared reads fires, or is refused for their number where that isn't good.
pub(crate) fn names_many(
    alloc: Global,
    agent: &mut Agent<'_, Standard>,
    n: usize,
    is_good: bool,
) -> Result<bool, AllocError>
    ensures { IsSameAgent agent.old agent.new }
{
    let reads = named_many(alloc, n)?;
    match agent.try_fire(alloc, &reads, &Instructions::new(alloc)) {
        Ok(reply) => Ok(is_good && matches!(reply, Reply::Fired(_))),
        Err(FireError::ManyReads) => Ok(!is_good),
        Err(FireError::Memory) => Err(AllocError),
        Err(FireError::Busy { .. }) => Ok(false),
    }
}

/// Return what the agent reads at x.
fn read_x(alloc: Global, agent: &mut Agent<'_, Standard>) -> Result<Reading, AllocError>
    ensures { IsSameAgent agent.old agent.new }
{
    let places = places_of(alloc, &["x"])?;
    agent.read(alloc, &places).map_err(|_| AllocError)
}

/// Return whether a put of 1 at y is stale at x where it names x by the reading, in which x is 7 at no move.
fn is_stale_by(
    alloc: Global,
    agent: &mut Agent<'_, Standard>,
    reading: &Reading,
) -> Result<bool, AllocError>
    ensures { IsSameAgent agent.old agent.new }
{
    if reading.len() != 1 || reading.number() != 0 || !is_number(reading.value(0), 7) {
        return Ok(false);
    }
    let named = reading.named(alloc, 0)?;
    let instrs = move_of(alloc, &[Put("y", 1)])?;
    let wanted = Reply::Stale(location(alloc, "x")?);
    fires(alloc, agent, slice::from_ref(&named), &instrs, &wanted)
}

/// Return whether a fire by a reading is stale after the other has put the same value.
pub(crate) fn depends(
    alloc: Global,
    agent: &mut Agent<'_, Standard>,
    other: &mut Agent<'_, Standard>,
) -> Result<bool, AllocError>
    ensures first { IsSameAgent agent.old agent.new }
    ensures second { IsSameAgent other.old other.new }
{
    let reading = read_x(alloc, agent)?;
    let is_put = asks(alloc, other, Act::Fire(&[Put("x", 7)], &[]), Want::Fired(1))?;
    Ok(is_put && is_stale_by(alloc, agent, &reading)?)
}

/// Return whether the agent peeks at x, where it finds 7, and fires twice over a scan of x.
pub(crate) fn looks(alloc: Global, agent: &mut Agent<'_, Standard>) -> Result<bool, AllocError>
    ensures { IsSameAgent agent.old agent.new }
{
    let places = places_of(alloc, &["x"])?;
    let peeked = agent.peek(alloc, &places)?;
    if peeked.len() != 1 || !is_number(peeked.value(0), 7) {
        return Ok(false);
    }
    let name = String::from_str(alloc, "x")?;
    let scans = vec![in alloc; Scanned { name, number: 0 }]?;
    let is_fired = agent
        .try_fire_over_with(alloc, &[], &scans, &Instructions::new(alloc), &mut || {})
        .is_ok();
    let again = agent.try_fire_over(alloc, &[], &scans, &Instructions::new(alloc));
    Ok(is_fired && again.is_ok())
}
