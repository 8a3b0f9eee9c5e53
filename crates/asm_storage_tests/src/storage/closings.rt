//! What closing gives, and how many moves the row then holds.
ghost use Rattle.std.specs.Prelude.{All};
ghost use Rattle.std.specs.List.Sorted.{IsStrictlyIncreasing};
ghost use Rattle.asm_storage.specs.Agents.{ids};
ghost use Rattle.asm_storage.specs.Storage.{accounts, IsOf};

use asm_aggregate::Standard;
use asm_storage::{Agent, CloseError, Event, History, Storage};
use std::alloc::Global;

/// What closing gives.
#[derive(Clone, Copy)]
pub(crate) enum Closing {
    /// This move is missing.
    Missing(u32),
    /// So many moves, in events of these agents.
    Events(u32, &'static [u32]),
    /// So many moves, in so many events.
    Counted(u32, usize),
}

fn is_by(events: &[Event], agents: &[u32]) -> bool {
    events
        .iter()
        .map(|event| event.agent)
        .eq(agents.iter().copied())
}

fn is_closed(closed: &Result<History, CloseError>, want: Closing) -> bool {
    match (closed, want) {
        (Ok(history), Closing::Events(moves, by)) => {
            history.fits() && history.moves() == moves && is_by(history.events.as_slice(), by)
        }
        (Ok(history), Closing::Counted(moves, events)) => {
            history.fits() && history.moves() == moves && history.events.as_slice().len() == events
        }
        (Err(CloseError::Missing(number)), Closing::Missing(wanted)) => *number == wanted,
        _ => false,
    }
}

/// Return what closing gives, which is asked once more where memory was refused.
fn close(
    alloc: Global,
    storage: &Storage<Standard>,
    agents: &[Agent<'_, Standard>],
) -> Result<History, CloseError>
    requires of_this { All (IsOf storage.now) agents.now }
    requires ascending { IsStrictlyIncreasing (ids (accounts agents.now)) }
{
    match storage.close(alloc, agents) {
        Err(CloseError::Memory) => storage.close(alloc, agents),
        closed => closed,
    }
}

/// Return whether closing gives this, and again the same.
pub(crate) fn closes(
    alloc: Global,
    storage: &Storage<Standard>,
    agents: &[Agent<'_, Standard>],
    want: Closing,
) -> bool
    requires of_this { All (IsOf storage.now) agents.now }
    requires ascending { IsStrictlyIncreasing (ids (accounts agents.now)) }
{
    let closed = close(alloc, storage, agents);
    is_closed(&closed, want) && close(alloc, storage, agents) == closed
}
