//! The trace of the journal on the input, which is written event by event.
ghost use Rattle.std.specs.Prelude.{◌≡◌, ◌≤◌, ◌<◌, ◌++◌, true, false, List, [], ℕ, length, IfOk, IfErr, OnOk, OnErr, is_err, string_bytes};
ghost use Rattle.std.specs.Io.KnownBytes.{Appends};
ghost use Rattle.serde_json.specs.View.{view};
ghost use Rattle.asm_aggregate.specs.Standard.{standard_part};
ghost use Rattle.asm_state.specs.FollowsFrom.{FollowsFrom};
ghost use Rattle.asm_journal.specs.Reading.{ReadsAs};
ghost use Rattle.asm_journal.specs.Text.{line};
ghost use Rattle.asm_storage.specs.History.{Fits};
ghost use Rattle.asm_storage.specs.Limits.{events_limit};
ghost use Rattle.asm_trace.specs.Text.{header_of, IsTrace};
ghost use Rattle.asm_driver.specs.Ports.{AppendsSome, IsPassedOn};
ghost use Rattle.asm_driver.specs.Run.{IsWhole, IsNoAnswer, input_of};
ghost use Rattle.asm_driver.specs.Trace.{IsTraceStopped};
ghost use Rattle.asm_driver.specs.Watch.{is_unwritten};
ghost use Rattle.asm_driver.specs.Words.{Words, AsksFor};
ghost use Rattle.asm_driver.specs.declared.program.words.Request.TheVariants as requests;

use crate::ports::PortFailed;
use crate::ports::input::read_input;
use crate::ports::output::write_whole;
use crate::ports::sink::Sink;
use crate::ports::source::Source;
use crate::program::refusal::Refusal;
use crate::program::watching::Stop;
use asm_journal::{from_text, header_members, push_line};
use asm_state::State;
use asm_storage::History;
use asm_trace::push_standard_note;
use serde_json::Value as Json;
use std::alloc::{AllocError, Global};

// Number of bytes of the text from which on they are written.
const FULL: usize = 65_536;

/// Read the input as a journal, legal or not.
pub(crate) fn read_journal<S: Source>(alloc: Global, input: &mut S) -> Result<History, Refusal>
    requires { S.failed input.old ≡ false }
    ensures same_reference { S.lender input.new ≡ S.lender input.old }
    ensures ok { IfOk result (λ h. (bytes : List ℕ)
        × IsWhole (input_of (S.remaining input.old) (S.remaining input.new) (S.failed input.new)) bytes × ReadsAs bytes h) }
    ensures fits { IfOk result Fits }
    ensures err { IfErr result (λ r. (words : Words) → AsksFor words requests.Trace → IsNoAnswer words
        (input_of (S.remaining input.old) (S.remaining input.new) (S.failed input.new)) r) }
{
    let bytes = read_input(alloc, input)?;
    Ok(from_text(alloc, bytes.as_slice())?)
}

/// Return the JSON header of the history's trace.
fn header_json(alloc: Global, history: &History) -> Result<Json, AllocError>
    requires { length history.now.events ≤ events_limit }
    ensures { IfOk result (λ json. view json ≡ header_of history.now) }
{
    let mut header = header_members(alloc, history)?;
    serde_json::put(&mut header, alloc, "trace", Json::from(1u32))?;
    Ok(Json::Object(header))
}

/// Append the header line of the history's trace, and return the opening state.
fn begin(alloc: Global, history: &History, text: &mut String) -> Result<State, AllocError>
    requires { length history.now.events ≤ events_limit }
    ensures header { OnOk result (string_bytes text.new ≡ string_bytes text.old ++ line (header_of history.now)) }
    ensures state { IfOk result (λ s. FollowsFrom standard_part history.now.init s []) }
{
    push_line(alloc, text, &header_json(alloc, history)?)?;
    State::new(alloc, history.init.copy(alloc)?)
}

/// Write the text and clear it, if it is long.
fn pass_on<K: Sink>(output: &mut K, text: &mut String) -> Result<(), PortFailed>
    requires { K.failed output.old ≡ false }
    ensures same_reference { K.lender output.new ≡ K.lender output.old }
    ensures ok { OnOk result (IsPassedOn (K.contents output.old) (K.contents output.new)
        (string_bytes text.old) (string_bytes text.new)) }
    ensures short { OnOk result (length (string_bytes text.new) < 65536) }
    ensures err { OnErr result (AppendsSome (K.contents output.old) (K.contents output.new) (string_bytes text.old)) }
    ensures noted { K.failed output.new ≡ is_err result }
{
    let bytes = text.as_bytes();
    if bytes.len() < FULL {
        return Ok(());
    }
    write_whole(output, bytes)?;
    text.clear();
    Ok(())
}

/// Write the trace of the history and flush it.
///
/// It holds the state, and one line behind less than 65,536 bytes of those before it.
pub(crate) fn write_trace<K: Sink>(
    alloc: Global,
    history: &History,
    output: &mut K,
) -> Result<(), Stop>
    requires unwritten { K.failed output.old ≡ false }
    requires fits { Fits history.now }
    ensures same_reference { K.lender output.new ≡ K.lender output.old }
    ensures ok { OnOk result ((text : List ℕ) × IsTrace standard_part history.now text
        × Appends (K.contents output.old) (K.contents output.new) text) }
    ensures flushed { OnOk result (K.flushed output.new ≡ true) }
    ensures err { IfErr result (IsTraceStopped history.now (K.contents output.old) (K.contents output.new)) }
    ensures noted { K.failed output.new ≡ is_unwritten result }
{
    let mut text = String::new(alloc);
    let mut state = begin(alloc, history, &mut text)?;
    for (index, event) in history.events.as_slice().iter().enumerate() {
        pass_on(output, &mut text)?;
        push_standard_note(
            alloc,
            &mut text,
            &mut state,
            history.capacity,
            index as u64,
            event,
        )?;
    }
    Ok(write_whole(output, text.as_bytes())?)
}
