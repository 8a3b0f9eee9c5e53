//! What an agent does on a thread of its own. Where memory is refused, it ends with `AllocError`.
ghost use Rattle.std.specs.Prelude.{◌≡◌, ◌<◌, All, IfOk};
ghost use Rattle.asm_storage.specs.Storage.{IsSameAgent};

use crate::storage::asked::{Put, is_number, move_of};
use crate::storage::two_agents::Two;
use asm_aggregate::Standard;
use asm_element::{Location, Value};
use asm_storage::{Agent, FireError, Mark, ReadError, Storage};
use asm_update::Instructions;
use std::alloc::{AllocError, Global};

/// Return whether the fire was answered.
fn is_answered(
    alloc: Global,
    agent: &mut Agent<'_, Standard>,
    instrs: &Instructions,
) -> Result<bool, AllocError>
    ensures { IsSameAgent agent.old agent.new }
{
    match agent.try_fire(alloc, &[], instrs) {
        Ok(_) => Ok(true),
        Err(FireError::Memory) => Err(AllocError),
        Err(_) => Ok(false),
    }
}

/// Fires, and again where it was busy: once, as the other agent fires fewer than 128 moves.
pub(crate) fn fires(
    alloc: Global,
    agent: &mut Agent<'_, Standard>,
    instrs: &Instructions,
) -> Result<(), AllocError>
    ensures { IsSameAgent agent.old agent.new }
{
    if !is_answered(alloc, agent, instrs)? {
        is_answered(alloc, agent, instrs)?;
    }
    Ok(())
}

fn fires_each(
    alloc: Global,
    agent: &mut Agent<'_, Standard>,
    moves: &[Instructions],
) -> Result<(), AllocError>
    ensures { IsSameAgent agent.old agent.new }
{
    for instrs in moves {
        fires(alloc, agent, instrs)?;
    }
    Ok(())
}

/// Add a mark of what the agent has seen.
fn push_mark(
    alloc: Global,
    agent: &Agent<'_, Standard>,
    marks: &mut Vec<Mark>,
) -> Result<(), AllocError>
    requires { All (λ m. m.row ≡ agent.now.storage.row) marks.old.items }
    ensures { All (λ m. m.row ≡ agent.now.storage.row) marks.new.items }
{
    let mark = agent.mark(alloc)?;
    marks.push(mark)?;
    Ok(())
}

/// Fire each of the moves, and takes a mark after each.
fn marks_each(
    alloc: Global,
    agent: &mut Agent<'_, Standard>,
    moves: &[Instructions],
) -> Result<Vec<Mark>, AllocError>
    ensures same { IsSameAgent agent.old agent.new }
    ensures marks { IfOk result (λ marks. All (λ m. m.row ≡ agent.old.storage.row) marks.items) }
{
    let mut marks = Vec::new(alloc);
    for instrs in moves {
        fires(alloc, agent, instrs)?;
        push_mark(alloc, agent, &mut marks)?;
    }
    Ok(marks)
}

pub(crate) fn read_once(
    alloc: Global,
    agent: &mut Agent<'_, Standard>,
    places: &[Location],
) -> Result<(), AllocError>
    ensures { IsSameAgent agent.old agent.new }
{
    match agent.read(alloc, places) {
        Err(ReadError::Memory) => Err(AllocError),
        _ => Ok(()),
    }
}

fn reads_often(
    alloc: Global,
    agent: &mut Agent<'_, Standard>,
    places: &[Location],
    times: u32,
) -> Result<(), AllocError>
    ensures { IsSameAgent agent.old agent.new }
{
    for _ in 0..times {
        read_once(alloc, agent, places)?;
    }
    Ok(())
}

/// Return the agent with this number, when it has fired each of the moves.
pub(crate) fn fires_as<'s>(
    alloc: Global,
    storage: &'s Storage<Standard>,
    id: u32,
    moves: &[Instructions],
) -> Result<Agent<'s, Standard>, AllocError>
    requires { id < 256 }
    ensures { IfOk result (λ a. (a.storage ≡ storage.now) × (a.account.id ≡ id)) }
{
    let mut agent = storage.agent_at(alloc, id)?;
    fires_each(alloc, &mut agent, moves)?;
    Ok(agent)
}

/// Return the agent with the number 0, when it has fired each of the moves, and its marks.
pub(crate) fn first_marks<'s>(
    alloc: Global,
    storage: &'s Storage<Standard>,
    moves: &[Instructions],
) -> Result<(Agent<'s, Standard>, Vec<Mark>), AllocError>
    ensures agent { IfOk result (λ r. (r.0.storage ≡ storage.now) × (r.0.account.id ≡ 0)) }
    ensures marks { IfOk result (λ r. All (λ m. m.row ≡ storage.now.row) r.1.items) }
{
    let mut agent = storage.agent_at(alloc, 0)?;
    let marks = marks_each(alloc, &mut agent, moves)?;
    Ok((agent, marks))
}

/// Return the agent with the number 1, when it has read the locations 100 times.
pub(crate) fn second_reads<'s>(
    alloc: Global,
    storage: &'s Storage<Standard>,
    places: &[Location],
) -> Result<Agent<'s, Standard>, AllocError>
    ensures { IfOk result (λ a. (a.storage ≡ storage.now) × (a.account.id ≡ 1)) }
{
    let mut agent = storage.agent_at(alloc, 1)?;
    reads_often(alloc, &mut agent, places, 100)?;
    Ok(agent)
}

pub(crate) fn two_with<'s>(
    storage: &'s Storage<Standard>,
    a: Agent<'s, Standard>,
    b: Agent<'s, Standard>,
) -> Two<'s>
    requires first { (a.storage ≡ storage.now) × (a.account.id ≡ 0) }
    requires second { (b.storage ≡ storage.now) × (b.account.id ≡ 1) }
    ensures { result.b.storage ≡ storage.now }
{
    Two { storage, a, b }
}

/// Return the moves that put 1, 2 and so on at x.
pub(crate) fn puts(alloc: Global, times: i64) -> Result<Vec<Instructions>, AllocError> {
    let mut moves = Vec::new(alloc);
    for k in 0..times {
        let instrs = move_of(alloc, &[Put("x", k.saturating_add(1))])?;
        moves.push(instrs)?;
    }
    Ok(moves)
}

/// Return whether x has this number, or nothing at 0.
pub(crate) fn is_put(value: Option<&Value>, number: i64) -> bool {
    match value {
        Some(value) => is_number(value, number) || (number == 0 && value.is_undef()),
        None => false,
    }
}
