//! The trace of a window of the run on the input.
ghost use Rattle.std.specs.Prelude.{◌≡◌, ◌≤◌, ◌<◌, ◌+◌, ℕ, false, List, [], length, take, drop, IfOk, IfErr, IfSome, IfNone, string_bytes};
ghost use Rattle.serde_json.specs.View.{view};
ghost use Rattle.asm_aggregate.specs.Standard.{standard_part};
ghost use Rattle.asm_update.specs.State.{State as Plain};
ghost use Rattle.asm_state.specs.FollowsFrom.{FollowsFrom};
ghost use Rattle.asm_storage.specs.History.{fired_moves};
ghost use Rattle.asm_storage.specs.declared.history.Event.{Event as Item};
ghost use Rattle.asm_audit.proofs.SameState.{IsHeld};
ghost use Rattle.asm_audit.specs.PartAuditor.{history_of};
ghost use Rattle.asm_driver.specs.Ports.{Known};
ghost use Rattle.asm_driver.specs.Lines.{pending};
ghost use Rattle.asm_journal.specs.Reading.{HasNoLineFeed, EndsLine};
ghost use Rattle.asm_journal.specs.declared.parsing.Header.{Header as Head};
ghost use Rattle.asm_driver.specs.Parts.{HasSegments, IsSkipping, IsAt, IsPartRead, IsEventRead, IsNext};
ghost use Rattle.asm_driver.specs.Window.{end_in, LiesIn, IsHeaderRead, IsSkipped, IsPassed, IsPartOpened, AreNoted};
ghost use Rattle.asm_driver.specs.Window.{window_header, window_header_with};
ghost use Rattle.asm_driver.specs.Window.{IsWindow, IsNoWindow};
ghost use Rattle.asm_driver.specs.declared.program.words.Window.{Window as Wanted};

use crate::ports::line_reader::LineReader;
use crate::ports::source::Source;
use crate::program::commands::Ending;
use crate::program::refusal::Refusal;
use crate::program::words::Window;
use asm_audit::{PartAuditor, read_part_header};
use asm_journal::{Header, JournalError, ToJson, push_line};
use asm_play::aggregator::script_aggregator;
use asm_storage::Event;
use asm_trace::push_standard_note;
use asm_update::PlainState;
use serde_json::{Map, Value as Json};
use std::alloc::{AllocError, Global};
use std::sync::Wait;

// Return the number of the call behind the window's last one, in a segment of this many calls.
// `None` if the window isn't within these calls.
fn end_of(window: Window, calls: u32) -> Option<u32>
    ensures some { IfSome result (λ end. (end ≡ end_in window calls) × LiesIn window calls) }
    ensures none { IfNone result (¬ LiesIn window calls) }
{
    let end = window.to.unwrap_or(calls);
    if window.from <= end && end <= calls {
        Some(end)
    } else {
        None
    }
}

// Return the position of the first line feed of the bytes.
fn line_feed_in(bytes: &[u8]) -> Option<usize>
    ensures some { IfSome result (λ end. EndsLine bytes.now (take end bytes.now) (drop (end + 1) bytes.now)) }
    ensures none { IfNone result (HasNoLineFeed bytes.now) }
{
    bytes.iter().position(|b| *b == b'\n')
}

/// Read the header of the next segment, which has this number.
fn next_header<T: Wait, S: Source>(
    rt: &T,
    alloc: Global,
    number: u32,
    lines: &mut LineReader,
    input: &mut S,
) -> Result<Header, Refusal>
    requires unread { S.failed input.old ≡ false }
    ensures same_reference { S.lender input.new ≡ S.lender input.old }
    ensures unread { IfOk result (λ _. S.failed input.new ≡ false) }
    ensures ok { IfOk result (λ h. (had : Known) (text : List ℕ) →
        IsAt had (S.remaining input.old) text (pending lines.old) →
        IsHeaderRead had (S.remaining input.new) (S.failed input.new) text (pending lines.new) h) }
    ensures err { IfErr result (λ r. (w : Wanted) (had : Known) (text : List ℕ) → number ≤ w.part →
        IsAt had (S.remaining input.old) text (pending lines.old) → HasSegments number text [] →
        IsNoWindow w had (S.remaining input.new) (S.failed input.new) r) }
{
    lines.read(rt, input)?;
    if 0 < number && lines.line().is_empty() {
        return Err(Refusal::FewParts(u64::from(number)));
    }
    Ok(read_part_header(alloc, u64::from(number), lines.line())?)
}

/// Pass the events of the segment with this number, so many lines, whatever they are.
fn skip_events<T: Wait, S: Source>(
    rt: &T,
    number: u32,
    events: u32,
    lines: &mut LineReader,
    input: &mut S,
) -> Result<(), Refusal>
    requires unread { S.failed input.old ≡ false }
    ensures same_reference { S.lender input.new ≡ S.lender input.old }
    ensures unread { IfOk result (λ _. S.failed input.new ≡ false) }
    ensures answer { (w : Wanted) (had : Known) (text : List ℕ) (h : Head) → number < w.part →
        h.limits.events ≡ events → IsAt had (S.remaining input.old) text (pending lines.old) →
        IsSkipping number h 0 text →
        IsSkipped w had (S.remaining input.new) (S.failed input.new) number (pending lines.new) result }
{
    for _ in 0..events {
        lines.read(rt, input)?;
        let Some(_) = line_feed_in(lines.line()) else {
            return Err(Refusal::BadPart {
                part: u64::from(number),
                fault: JournalError::Cut,
            });
        };
    }
    Ok(())
}

/// Find the segment with this number, and return an auditor of it.
///
/// It passes the segments before it by the number of events in their headers.
fn find_part<T: Wait, S: Source>(
    rt: &T,
    alloc: Global,
    wanted: u32,
    lines: &mut LineReader,
    input: &mut S,
) -> Result<PartAuditor, Refusal>
    requires unread { S.failed input.old ≡ false }
    requires begins { pending lines.old ≡ [] }
    ensures same_reference { S.lender input.new ≡ S.lender input.old }
    ensures ok { IfOk result (IsPartOpened (S.remaining input.old) (S.remaining input.new) (S.failed input.new) wanted
        (pending lines.new)) }
    ensures err { IfErr result (λ r. (w : Wanted) → wanted ≡ w.part →
        IsNoWindow w (S.remaining input.old) (S.remaining input.new) (S.failed input.new) r) }
{
    for number in 0..wanted {
        let header = next_header(rt, alloc, number, lines, input)?;
        skip_events(rt, number, header.limits.events, lines, input)?;
    }
    let header = next_header(rt, alloc, wanted, lines, input)?;
    Ok(PartAuditor::new(alloc, u64::from(wanted), header)?)
}

/// Read the next event of the segment.
fn next_event<T: Wait, S: Source>(
    rt: &T,
    alloc: Global,
    opened: &mut PartAuditor,
    lines: &mut LineReader,
    input: &mut S,
) -> Result<Event, Refusal>
    requires unread { S.failed input.old ≡ false }
    requires some { opened.old.taken < opened.old.limits.events }
    ensures same_reference { S.lender input.new ≡ S.lender input.old }
    ensures next { IfOk result (λ _. IsNext opened.old opened.new) }
    ensures unread { IfOk result (λ _. S.failed input.new ≡ false) }
    ensures reported { (number : ℕ) (had : Known) (text : List ℕ) (A : Plain) (es : List Item) →
        IsAt had (S.remaining input.old) text (pending lines.old) → IsPartRead number text opened.old A es →
        IsEventRead had (S.remaining input.new) (S.failed input.new) number text (pending lines.new) opened.new A es result }
{
    lines.read(rt, input)?;
    Ok(opened.take(alloc, &script_aggregator(), lines.line())?)
}

/// Read the first `calls` events of the segment.
fn pass<T: Wait, S: Source>(
    rt: &T,
    alloc: Global,
    opened: &mut PartAuditor,
    calls: u32,
    lines: &mut LineReader,
    input: &mut S,
) -> Result<(), Refusal>
    requires unread { S.failed input.old ≡ false }
    requires none { opened.old.taken ≡ 0 }
    requires enough { calls ≤ opened.old.limits.events }
    ensures same_reference { S.lender input.new ≡ S.lender input.old }
    ensures unread { IfOk result (λ _. S.failed input.new ≡ false) }
    ensures number { IfOk result (λ _. opened.new.number ≡ opened.old.number) }
    ensures limits { IfOk result (λ _. opened.new.limits ≡ opened.old.limits) }
    ensures taken { IfOk result (λ _. opened.new.taken ≡ calls) }
    ensures reported { (w : Wanted) (had : Known) (text : List ℕ) (A : Plain) →
        calls ≤ end_in w opened.old.limits.events → IsAt had (S.remaining input.old) text (pending lines.old) →
        IsPartRead w.part text opened.old A [] →
        IsPassed w had (S.remaining input.new) (S.failed input.new) calls (pending lines.new) opened.new A result }
{
    for _ in 0..calls {
        next_event(rt, alloc, opened, lines, input)?;
    }
    Ok(())
}

/// Return the JSON header of a window, which begins behind what was read.
///
/// The window has this many calls, and what was read of its segment leaves this state.
fn header_with(
    alloc: Global,
    opened: &PartAuditor,
    init: &PlainState,
    calls: u32,
) -> Result<Json, AllocError>
    ensures { IfOk result (λ json. view json ≡ window_header_with opened.now.limits.agents opened.now.limits.capacity
        calls opened.now.taken init.now opened.now.state.number opened.now.number) }
{
    let mut header = Map::new(alloc);
    serde_json::put(
        &mut header,
        alloc,
        "agents",
        Json::from(opened.limits.agents),
    )?;
    serde_json::put(
        &mut header,
        alloc,
        "capacity",
        Json::from(opened.limits.capacity),
    )?;
    serde_json::put(&mut header, alloc, "events", Json::from(calls))?;
    serde_json::put(&mut header, alloc, "from", Json::from(opened.taken))?;
    serde_json::put(&mut header, alloc, "init", init.to_json(alloc)?)?;
    serde_json::put(
        &mut header,
        alloc,
        "moves",
        Json::from(opened.state.number()),
    )?;
    serde_json::put(&mut header, alloc, "part", Json::from(opened.number))?;
    serde_json::put(&mut header, alloc, "trace", Json::from(2u32))?;
    Ok(Json::Object(header))
}

/// Return the JSON header of a window, which begins behind what was read.
///
/// The window has this many calls.
fn header_json(alloc: Global, opened: &PartAuditor, calls: u32) -> Result<Json, AllocError>
    ensures { IfOk result (λ json. (A : Plain) (es all : List Item) → IsHeld A → opened.now.taken ≡ length es →
        FollowsFrom standard_part A opened.now.state (fired_moves es) →
        view json ≡ window_header opened.now.number (history_of opened.now.limits A all) es calls) }
{
    let init = opened.plain_state(alloc)?;
    header_with(alloc, opened, &init, calls)
}

/// Read the segment's events before the call `end`, and append a line for each.
fn note_calls<T: Wait, S: Source>(
    rt: &T,
    alloc: Global,
    opened: &mut PartAuditor,
    end: u32,
    lines: &mut LineReader,
    input: &mut S,
    text: &mut String,
) -> Result<(), Refusal>
    requires unread { S.failed input.old ≡ false }
    requires forward { opened.old.taken ≤ end }
    requires enough { end ≤ opened.old.limits.events }
    requires known { (number : ℕ) × (text : List ℕ) × (A : Plain) × (es : List Item)
        × IsPartRead number text opened.old A es }
    ensures same_reference { S.lender input.new ≡ S.lender input.old }
    ensures limits { IfOk result (λ _. opened.new.limits ≡ opened.old.limits) }
    ensures reported { (w : Wanted) (had : Known) (before : List ℕ) (A : Plain) (es : List Item) →
        end ≡ end_in w opened.old.limits.events →
        IsAt had (S.remaining input.old) before (pending lines.old) → IsPartRead w.part before opened.old A es →
        AreNoted w had (S.remaining input.new) (S.failed input.new) end (pending lines.new) opened.new A es
        (string_bytes text.old) (string_bytes text.new) result }
{
    // Events are judged on one state and noted on another: a note is about the state before its event.
    let mut noted = opened.state.copy(alloc)?;
    let capacity = opened.limits.capacity;
    for call in opened.taken..end {
        let event = next_event(rt, alloc, opened, lines, input)?;
        push_standard_note(alloc, text, &mut noted, capacity, u64::from(call), &event)?;
    }
    Ok(())
}

/// Read the run up to the window's end, and return the trace of the window.
fn window_text<T: Wait, S: Source>(
    rt: &T,
    alloc: Global,
    window: Window,
    lines: &mut LineReader,
    input: &mut S,
) -> Result<String, Refusal>
    requires unread { S.failed input.old ≡ false }
    requires begins { pending lines.old ≡ [] }
    ensures same_reference { S.lender input.new ≡ S.lender input.old }
    ensures ok { IfOk result (λ text. IsWindow window (S.remaining input.old) (S.remaining input.new) (S.failed input.new)
        (string_bytes text)) }
    ensures err { IfErr result (IsNoWindow window (S.remaining input.old) (S.remaining input.new) (S.failed input.new)) }
{
    let mut opened = find_part(rt, alloc, window.part, lines, input)?;
    let Some(end) = end_of(window, opened.limits.events) else {
        return Err(Refusal::FewCalls {
            part: window.part,
            calls: opened.limits.events,
        });
    };
    pass(rt, alloc, &mut opened, window.from, lines, input)?;
    let mut text = String::new(alloc);
    let header = header_json(alloc, &opened, end - window.from)?;
    push_line(alloc, &mut text, &header)?;
    note_calls(rt, alloc, &mut opened, end, lines, input, &mut text)?;
    Ok(text)
}

/// Trace a window of the run on the input; return its trace, with status 0.
///
/// It judges the window's segment alone, from the state in its header, up to the window's end. It reads no further
/// than the chunk of bytes in which that is. It holds one line, the state, which it holds twice within the window, and
/// the window's text.
pub(crate) fn window_input<T: Wait, S: Source>(
    rt: &T,
    alloc: Global,
    window: Window,
    input: &mut S,
) -> Result<Ending, Refusal>
    requires { S.failed input.old ≡ false }
    ensures same_reference { S.lender input.new ≡ S.lender input.old }
    ensures status { IfOk result (λ e. e.status ≡ 0) }
    ensures ok { IfOk result (λ e. IsWindow window (S.remaining input.old) (S.remaining input.new) (S.failed input.new)
        (string_bytes e.text)) }
    ensures err { IfErr result (IsNoWindow window (S.remaining input.old) (S.remaining input.new) (S.failed input.new)) }
{
    let mut lines = LineReader::new(alloc);
    let text = window_text(rt, alloc, window, &mut lines, input)?;
    Ok(Ending { status: 0, text })
}
