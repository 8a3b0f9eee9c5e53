//! The text of a trace.
ghost use Rattle.std.specs.Prelude.{◌≡◌, ◌≤◌, ◌<◌, true, IfOk, OnOk, length, string_bytes};
ghost use Rattle.serde_json.specs.View.{view};
ghost use Rattle.asm_storage.specs.History.{Fits};
ghost use Rattle.asm_storage.specs.Limits.{events_limit};
ghost use Rattle.asm_aggregate.specs.Standard.{standard_part};
ghost use Rattle.asm_trace.specs.Change.{IsLocal};
ghost use Rattle.asm_trace.specs.Text.{header_of, IsNoteAppended, IsTrace};

use crate::notes::push_note;
use asm_aggregate::standard;
use asm_journal::{header_members, push_line};
use asm_state::State;
use asm_storage::{Event, History};
use asm_update::Aggregator;
use serde_json::Value as Json;
use std::alloc::{AllocError, Global};

/// Return the JSON of a trace's header.
fn header_json(alloc: Global, history: &History) -> Result<Json, AllocError>
    requires { length history.now.events ≤ events_limit }
    ensures { IfOk result (λ json. view json ≡ header_of history.now) }
{
    let mut header = header_members(alloc, history)?;
    serde_json::put(&mut header, alloc, "trace", Json::from(1u32))?;
    Ok(Json::Object(header))
}

/// Write what each event of a history did.
///
/// If partial updates are known to change what they name alone, those of one location are listed by what they name.
fn traced<A: Aggregator>(
    alloc: Global,
    aggregator: &A,
    is_local: bool,
    history: &History,
) -> Result<String, AllocError>
    requires fits { Fits history.now }
    requires local { is_local ≡ true → IsLocal (A.meaning aggregator.now).part }
    ensures { IfOk result (λ s. IsTrace (A.meaning aggregator.now).part history.now (string_bytes s)) }
{
    let mut text = String::new(alloc);
    push_line(alloc, &mut text, &header_json(alloc, history)?)?;
    let mut state = State::new(alloc, history.init.copy(alloc)?)?;
    for (index, event) in history.events.as_slice().iter().enumerate() {
        push_note(
            alloc,
            aggregator,
            is_local,
            &mut text,
            &mut state,
            history.capacity,
            index as u64,
            event,
        )?;
    }
    Ok(text)
}

/// Write what each event of a history did, as a trace of version 1.
///
/// The trace has a header line, and for each event a line with its call and its reply. A fired move has each location
/// that it writes, in ascending order, with what differs there: of a set the added and removed elements, of a bag the
/// counts that differ, else the value before and the new one, which may be the same. If a reply isn't the one that a
/// sequential storage gives there, the line has that reply too, as `right`. Of a read it has the right number and the
/// positions of the values that differ, so that a location that is read again and again doesn't have its value written
/// as often.
///
/// The history may be illegal: each move that it reports as fired is fired, and one that clashes changes nothing. It
/// must be within the limits of a journal, which `History::fits` tests. A move costs as much as the sets and bags have
/// elements that it changes, but the text has what differs alone.
///
/// # Errors
///
/// - `AllocError` only if memory is refused.
pub fn trace_text<A: Aggregator>(
    alloc: Global,
    aggregator: &A,
    history: &History,
) -> Result<String, AllocError>
    requires { Fits history.now }
    ensures { IfOk result (λ s. IsTrace (A.meaning aggregator.now).part history.now (string_bytes s)) }
{
    traced(alloc, aggregator, false, history)
}

/// Write the trace of a history with the aggregator of sets, bags and counters.
///
/// It is that of `trace_text` with `standard` of `asm_aggregate`. A move of partial updates of one location costs as
/// much as they name of a set or a bag, whatever else it has; any other move costs what it costs there.
///
/// # Errors
///
/// - `AllocError` only if memory is refused.
pub fn standard_trace_text(alloc: Global, history: &History) -> Result<String, AllocError>
    requires { Fits history.now }
    ensures { IfOk result (λ s. IsTrace standard_part history.now (string_bytes s)) }
{
    traced(alloc, &standard(), true, history)
}

/// Append the line that `standard_trace_text` has for the event with this number.
///
/// The event comes after the moves that the state has followed, in a history of this capacity. The state follows the
/// event's move. It must have followed fewer than 4,294,967,295 moves.
///
/// # Errors
///
/// - `AllocError` only if memory is refused.
///
/// On error, the text and the state are of no further use.
pub fn push_standard_note(
    alloc: Global,
    text: &mut String,
    state: &mut State,
    capacity: u32,
    number: u64,
    event: &Event,
) -> Result<(), AllocError>
    requires { state.old.number < events_limit }
    ensures { OnOk result (IsNoteAppended standard_part capacity number event.now state.old state.new
        (string_bytes text.old) (string_bytes text.new)) }
{
    push_note(
        alloc,
        &standard(),
        true,
        text,
        state,
        capacity,
        number,
        event,
    )
}
