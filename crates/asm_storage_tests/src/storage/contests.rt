//! Fires of one agent in whose turns another one fires first.
ghost use Rattle.asm_storage.specs.Storage.{IsSameAgent};

use crate::storage::asked::{Act, At, Put, Want, move_of, receipt_of};
use crate::storage::performing::is_last;
use asm_aggregate::Standard;
use asm_state::Named;
use asm_storage::{Agent, Answer, Call, FireError, Receipt, Reply};
use asm_update::Instructions;
use std::alloc::{AllocError, Global};

/// What the fire gives.
#[derive(Clone, Copy)]
pub(crate) enum Outcome {
    /// This answer, and its receipt.
    Answered(Want),
    /// 64 attempts were lost, with these moves seen at start and end, and no receipt.
    Busy(u32, u32),
}

/// A contest: one agent puts 1 at y, with these declared reads.
///
/// Just before each of its attempts, but at most so many times, the other fires a move with this put, or two.
#[derive(Clone, Copy)]
pub(crate) struct Contest {
    pub(crate) reads: &'static [At],
    pub(crate) others: &'static [Put],
    pub(crate) times: u32,
    pub(crate) fires_twice: bool,
    pub(crate) outcome: Outcome,
}

/// How often the other agent fires yet, whether it fires twice then, and whether memory was refused to it.
#[derive(Clone, Copy)]
struct Rival {
    times: u32,
    fires_twice: bool,
    is_refused: bool,
}

/// Fire once.
fn fire(alloc: Global, agent: &mut Agent<'_, Standard>, instrs: &Instructions) -> bool
    ensures { IsSameAgent agent.old agent.new }
{
    agent.try_fire(alloc, &[], instrs).is_ok()
}

/// Fire as the rival has it; return what is left of that.
fn before_attempt(
    alloc: Global,
    other: &mut Agent<'_, Standard>,
    others: &Instructions,
    rival: Rival,
) -> Rival
    ensures { IsSameAgent other.old other.new }
{
    if rival.times == 0 {
        return rival;
    }
    let is_first_fired = fire(alloc, other, others);
    let is_fired = is_first_fired && (!rival.fires_twice || fire(alloc, other, others));
    Rival {
        times: rival.times - 1,
        fires_twice: rival.fires_twice,
        is_refused: rival.is_refused || !is_fired,
    }
}

/// Return what the agent's fire gives, where the other meddles; an allocation failure of either is that of both.
fn fire_against(
    alloc: Global,
    agent: &mut Agent<'_, Standard>,
    other: &mut Agent<'_, Standard>,
    reads: &[Named],
    instrs: &Instructions,
    others: &Instructions,
    rival: Rival,
) -> Result<Reply, FireError>
    ensures first { IsSameAgent agent.old agent.new }
    ensures second { IsSameAgent other.old other.new }
{
    let mut left = rival;
    let given = agent.try_fire_with(
        alloc,
        reads,
        instrs,
        &mut || left = before_attempt(alloc, other, others, left),
    );
    if left.is_refused {
        return Err(FireError::Memory);
    }
    given
}

/// Return whether the fire gave this: the answer of the receipt, where there is one.
fn is_given(
    given: Result<Reply, FireError>,
    wanted: &Answer,
    outcome: Outcome,
) -> Result<bool, AllocError> {
    match (given, wanted, outcome) {
        (Ok(reply), Answer::Fire(wanted), Outcome::Answered(_)) => Ok(reply == *wanted),
        (Err(FireError::Busy { from, to }), _, Outcome::Busy(start, end)) => {
            Ok(start == from && end == to)
        }
        (Err(FireError::Memory), _, _) => Err(AllocError),
        _ => Ok(false),
    }
}

/// Return whether the agent's fire gives the outcome, and it keeps the receipt of an answer alone.
fn contends_for(
    alloc: Global,
    agent: &mut Agent<'_, Standard>,
    other: &mut Agent<'_, Standard>,
    wanted: &Receipt,
    contest: &Contest,
) -> Result<bool, AllocError>
    ensures first { IsSameAgent agent.old agent.new }
    ensures second { IsSameAgent other.old other.new }
{
    let Call::Fire { reads, instrs } = &wanted.call else {
        return Ok(false);
    };
    let others = move_of(alloc, contest.others)?;
    let rival = Rival {
        times: contest.times,
        fires_twice: contest.fires_twice,
        is_refused: false,
    };
    let given = fire_against(
        alloc,
        agent,
        other,
        reads.as_slice(),
        instrs,
        &others,
        rival,
    );
    let is_right = is_given(given, &wanted.answer, contest.outcome)?;
    let is_answered = matches!(contest.outcome, Outcome::Answered(_));
    Ok(is_right && is_last(agent, wanted) == is_answered)
}

/// Return whether the contest of the two agents comes out right.
pub(crate) fn contends(
    alloc: Global,
    agent: &mut Agent<'_, Standard>,
    other: &mut Agent<'_, Standard>,
    contest: &Contest,
) -> Result<bool, AllocError>
    ensures first { IsSameAgent agent.old agent.new }
    ensures second { IsSameAgent other.old other.new }
{
    // The first move is number 1, so that no fire is answered 0.
    let want = match contest.outcome {
        Outcome::Answered(want) => want,
        Outcome::Busy(_, _) => Want::Fired(0),
    };
    let wanted = receipt_of(alloc, Act::Fire(&[Put("y", 1)], contest.reads), want)?;
    contends_for(alloc, agent, other, &wanted, contest)
}
