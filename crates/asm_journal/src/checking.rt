//! Whether a history is one that the storage of one thread could have.
ghost use Rattle.std.specs.Prelude.{◌≡◌, ◌↔◌, IsTrue, IfOk, OnErr};
ghost use Rattle.asm_journal.specs.Check.{machine_of, IsLegality, objection_reply, judged_reply, was_fired, IsStep};
ghost use Rattle.asm_storage.specs.Machine.{fired_or_full};

use asm_state::{Objection, State};
use asm_storage::{Answer, Call, Event, History, Reply, have_values};
use asm_update::Aggregator;
use std::alloc::{AllocError, Global};

/// Whether a history is legal: each answer is the one of the sequential storage.
#[derive(Clone, Copy, Debug, Drop, PartialEq, Eq)]
pub enum Legality {
    /// It is legal, with so many calls (its events) and so many fired moves.
    Legal { calls: u64, moves: u32 },
    /// It isn't; the first call with another answer has this number, counted from 0.
    Illegal { call: u64 },
}

/// Return whether the reply reports the objection to a move.
fn reports(objection: &Objection, reply: &Reply) -> bool
    ensures { IsTrue result ↔ (reply.now ≡ objection_reply objection.now) }
{
    match (objection, reply) {
        (Objection::Stale(at), Reply::Stale(reported)) => at == reported,
        (Objection::Clash(clash), Reply::Clash(reported)) => {
            clash.at == reported.at && clash.cause == reported.cause
        }
        _ => false,
    }
}

/// Return whether this is the reply to a move without an objection.
///
/// `number` moves were fired before it.
fn is_fired_or_full(capacity: u32, number: u32, reply: &Reply) -> bool
    ensures { IsTrue result ↔ (reply.now ≡ fired_or_full capacity number) }
{
    match reply {
        Reply::Fired(reported) => number < capacity && *reported == number + 1,
        Reply::Full => capacity <= number,
        Reply::Stale(_) | Reply::Clash(_) => false,
    }
}

/// Return whether this is the reply to a move with this objection or with none.
///
/// `number` moves were fired before it.
fn is_reply(objection: &Option<Objection>, capacity: u32, number: u32, reply: &Reply) -> bool
    ensures { IsTrue result ↔ (reply.now ≡ judged_reply capacity number objection.now) }
{
    match objection {
        Some(objection) => reports(objection, reply),
        None => is_fired_or_full(capacity, number, reply),
    }
}

/// Return whether the move was fired.
fn is_fired(reply: &Reply) -> bool
    ensures { result ≡ was_fired reply.now }
{
    matches!(reply, Reply::Fired(_))
}

/// Judge whether the event's answer is the one that the sequential storage gives.
///
/// The storage has this capacity and the moves that the state has followed. If the answer is right, the state follows
/// the event's move too; else it is unchanged.
///
/// # Errors
///
/// - `AllocError` only if memory is refused.
///
/// On error, the state is unchanged.
pub fn judge_event<A: Aggregator>(
    alloc: Global,
    aggregator: &A,
    state: &mut State,
    capacity: u32,
    event: &Event,
) -> Result<bool, AllocError>
    ensures step { IfOk result (IsStep (A.meaning aggregator.now).part capacity
        event.now state.old state.new) }
    ensures err { OnErr result (state.new ≡ state.old) }
{
    match (&event.call, &event.answer) {
        (Call::Read(locations), Answer::Read { number, values }) => {
            Ok(
                *number == state.number()
                    && have_values(state, locations.as_slice(), values.as_slice()),
            )
        }
        (Call::Fire { reads, instrs }, Answer::Fire(reply)) => {
            let objection = state.objection(alloc, aggregator, reads.as_slice(), instrs)?;
            if !is_reply(&objection, capacity, state.number(), reply) {
                return Ok(false);
            }
            if is_fired(reply) {
                state.follow(alloc, aggregator, instrs)?;
            }
            Ok(true)
        }
        _ => Ok(false),
    }
}

/// Check whether each event of a history has the answer of the sequential storage.
///
/// It costs one judgement for each event, independent of how many came before it. Source: Herlihy and Shavit, where a
/// history is legal by the sequential specification of its object.
///
/// # Errors
///
/// - `AllocError` only if memory is refused.
pub fn check<A: Aggregator>(
    alloc: Global,
    aggregator: &A,
    history: &History,
) -> Result<Legality, AllocError>
    ensures { IfOk result (IsLegality (machine_of (A.meaning aggregator.now).part history.now)
        history.now.events) }
{
    let mut state = State::new(alloc, history.init.copy(alloc)?)?;
    let events = history.events.as_slice();
    for (index, event) in events.iter().enumerate() {
        if !judge_event(alloc, aggregator, &mut state, history.capacity, event)? {
            return Ok(Legality::Illegal { call: index as u64 });
        }
    }
    Ok(Legality::Legal {
        calls: events.len() as u64,
        moves: state.number(),
    })
}
