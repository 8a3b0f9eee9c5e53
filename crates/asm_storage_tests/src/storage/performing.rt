//! What one agent does, each time with the answer that it has to get. `AllocError` only if memory is refused.
ghost use Rattle.std.specs.Prelude.{◌≡◌};
ghost use Rattle.asm_storage.specs.Storage.{IsSameAgent};

use crate::storage::asked::{Act, At, Want, named_of, receipt_of, receipt_of_read};
use asm_aggregate::Standard;
use asm_element::{Location, Value};
use asm_state::Named;
use asm_storage::{
    Agent, Answer, Call, FireError, NamedReading, ReadError, Reading, Receipt, Reply,
};
use asm_test_support::location;
use asm_update::Instructions;
use std::alloc::{AllocError, Global};

/// Return whether these values were read, in this order.
fn are_read(reading: &Reading, values: &[Value]) -> bool {
    if reading.len() != values.len() {
        return false;
    }
    for (k, value) in values.iter().enumerate() {
        if reading.value(k) != value {
            return false;
        }
    }
    true
}

/// Return whether a read is answered so.
fn reads(
    alloc: Global,
    agent: &mut Agent<'_, Standard>,
    places: &[Location],
    number: u32,
    values: &[Value],
) -> Result<bool, AllocError>
    ensures { IsSameAgent agent.old agent.new }
{
    match agent.read(alloc, places) {
        Ok(reading) => Ok(reading.number() == number && are_read(&reading, values)),
        Err(ReadError::ManyLocations) => Ok(false),
        Err(ReadError::Memory) => Err(AllocError),
    }
}

/// Return whether a fire is answered so.
pub(crate) fn fires(
    alloc: Global,
    agent: &mut Agent<'_, Standard>,
    reads: &[Named],
    instrs: &Instructions,
    wanted: &Reply,
) -> Result<bool, AllocError>
    ensures { IsSameAgent agent.old agent.new }
{
    match agent.try_fire(alloc, reads, instrs) {
        Ok(reply) => Ok(reply == *wanted),
        Err(FireError::Memory) => Err(AllocError),
        Err(_) => Ok(false),
    }
}

/// Return whether this is the agent's last receipt.
pub(crate) fn is_last(agent: &Agent<'_, Standard>, wanted: &Receipt) -> bool {
    agent.receipts().last() == Some(wanted)
}

/// Perform the receipt's call; return whether its answer and receipt are these.
fn performs(
    alloc: Global,
    agent: &mut Agent<'_, Standard>,
    wanted: &Receipt,
) -> Result<bool, AllocError>
    ensures { IsSameAgent agent.old agent.new }
{
    let is_answered = match (&wanted.call, &wanted.answer) {
        (Call::Read(places), Answer::Read { number, values }) => {
            reads(alloc, agent, places.as_slice(), *number, values.as_slice())
        }
        (Call::Fire { reads, instrs }, Answer::Fire(reply)) => {
            fires(alloc, agent, reads.as_slice(), instrs, reply)
        }
        _ => Ok(false),
    };
    Ok(is_answered? && is_last(agent, wanted))
}

/// Perform this call; return whether it is answered so, and its receipt recorded.
pub(crate) fn asks(
    alloc: Global,
    agent: &mut Agent<'_, Standard>,
    act: Act,
    want: Want,
) -> Result<bool, AllocError>
    ensures { IsSameAgent agent.old agent.new }
{
    let wanted = receipt_of(alloc, act, want)?;
    performs(alloc, agent, &wanted)
}

/// Perform this call, and once more if memory was refused.
///
/// It has then as many receipts as before, and has seen at most so many moves. Return whether it is answered so.
pub(crate) fn retries(
    alloc: Global,
    agent: &mut Agent<'_, Standard>,
    act: Act,
    want: Want,
    seen: u32,
) -> Result<bool, AllocError>
    ensures { IsSameAgent agent.old agent.new }
{
    let wanted = receipt_of(alloc, act, want)?;
    let receipts = agent.receipts().len();
    match performs(alloc, agent, &wanted) {
        Err(_) if agent.receipts().len() == receipts && agent.seen() <= seen => {
            performs(alloc, agent, &wanted)
        }
        Err(_) => Ok(false),
        is_right => is_right,
    }
}

/// What a read of declared reads gives.
#[derive(Clone, Copy)]
pub(crate) enum Validated {
    /// These values, at this number.
    Read(u32, &'static [Option<i64>]),
    /// The location of this name is stale.
    Stale(&'static str),
}

/// Return whether the values of the receipt were read, which is then the agent's last one.
fn is_read_with(agent: &Agent<'_, Standard>, reading: &Reading, wanted: &Receipt) -> bool {
    match &wanted.answer {
        Answer::Read { number, values } => {
            reading.number() == *number
                && are_read(reading, values.as_slice())
                && is_last(agent, wanted)
        }
        Answer::Fire(_) => false,
    }
}

/// Read by the declared reads; return whether that gives the receipt, or else the stale location.
fn reads_named_once(
    alloc: Global,
    agent: &mut Agent<'_, Standard>,
    reads: &[Named],
    wanted: &Result<Receipt, Location>,
) -> Result<bool, AllocError>
    ensures { IsSameAgent agent.old agent.new }
{
    match (agent.read_named(alloc, reads), wanted) {
        (Ok(NamedReading::Read(reading)), Ok(receipt)) => {
            Ok(is_read_with(agent, &reading, receipt))
        }
        (Ok(NamedReading::Stale(at)), Err(location)) => Ok(at == *location),
        (Err(ReadError::Memory), _) => Err(AllocError),
        _ => Ok(false),
    }
}

/// Read by the declared reads, and once more if memory was refused.
///
/// Return whether that gives what is wanted, the agent's state has followed all that it has seen, and it has one
/// receipt more, or none if a read is stale or memory was refused.
pub(crate) fn reads_named(
    alloc: Global,
    agent: &mut Agent<'_, Standard>,
    reads: &'static [At],
    want: Validated,
) -> Result<bool, AllocError>
    ensures { IsSameAgent agent.old agent.new }
{
    let wanted = match want {
        Validated::Read(number, values) => Ok(receipt_of_read(alloc, reads, number, values)?),
        Validated::Stale(name) => Err(location(alloc, name)?),
    };
    let named = named_of(alloc, reads)?;
    let receipts = agent.receipts().len();
    let is_right = match reads_named_once(alloc, agent, &named, &wanted) {
        Err(_) if agent.receipts().len() != receipts => return Ok(false),
        Err(_) => reads_named_once(alloc, agent, &named, &wanted)?,
        Ok(is_right) => is_right,
    };
    let receipts = receipts.saturating_add(usize::from(wanted.is_ok()));
    let has_followed = agent.state().number() == agent.seen();
    Ok(is_right && has_followed && agent.receipts().len() == receipts)
}

/// Learn the other's mark; whether it has then seen so many moves.
pub(crate) fn learns(
    alloc: Global,
    agent: &mut Agent<'_, Standard>,
    other: &Agent<'_, Standard>,
    seen: u32,
) -> Result<bool, AllocError>
    requires { other.now.storage ≡ agent.old.storage }
    ensures { IsSameAgent agent.old agent.new }
{
    let mark = other.mark(alloc)?;
    agent.learn(alloc, &mark)?;
    Ok(agent.seen() == seen)
}

/// Return whether the agent, which makes no call, has these counts.
///
/// They are how many moves it has seen, how many attempts it has won, how many cells it has found empty, and how many
/// receipts it has.
pub(crate) fn counts(agent: &Agent<'_, Standard>, wanted: (u32, u32, u64, usize)) -> bool {
    let (seen, won, misses, receipts) = wanted;
    agent.seen() == seen
        && agent.won() == won
        && agent.misses() == misses
        && agent.receipts().len() == receipts
}
