//! An agent's own state: its text, values at locations, and the validation of declared reads.
ghost use Rattle.std.specs.Prelude.{◌≡◌, string_bytes, IfErr, IfOk, MatchResult, OnErr, Some};
ghost use Rattle.asm_slots.specs.AgentAnswers.{DoesNotValidate, Validates};
ghost use Rattle.asm_slots.specs.Answers.{EmptyOr, IsMemory, IsNoName, IsUnreadAs};
ghost use Rattle.asm_slots.specs.OwnState.{DoesNotFollow, Follows};
ghost use Rattle.asm_slots.specs.OwnState.{IsOwnOfName, IsOwnState, IsPeek, IsPeekOf, IsStaleText};
ghost use Rattle.asm_slots.specs.Slots.{Holds, Lacks, an_agent, content_of};
ghost use Rattle.asm_slots.specs.StepAnswers.{DoesNotPeekAt, IsNoValue, PeeksAt};
ghost use Rattle.asm_explain.specs.Bytes.{AreLocations};
ghost use Rattle.asm_slots.specs.WrittenText.{IsWritten};

use crate::codes::{Code, write};
use crate::lend;
use crate::owned_agent::OwnedAgent;
use crate::parsing::{locations_of, reads_of};
use crate::slot::Slot;
use crate::take_and_put::{put_agent, take_agent};
use crate::value_head::{ValueHead, write_value_at};
use asm_element::{Location, Value};
use asm_journal::{answer_text, list_text, state_text, values_text};
use asm_storage::{Answer, ReadError, Reply};
use asm_update::Lookup;
use std::alloc::{AllocError, Global};
use std::str;

/// Do what `asm_follow` does.
pub fn follow(alloc: Global, agent: &mut Slot, number: &mut u32) -> Result<(), Code>
    ensures answers { MatchResult result (λ done. Follows number.new (content_of agent.old) (content_of agent.new))
        (DoesNotFollow (content_of agent.old) (content_of agent.new)) }
    ensures none { OnErr result (number.new ≡ 0) }
{
    *number = 0;
    lend!(inner: Agent = agent, Err(Code::Empty));
    *number = inner.follow(alloc)?;
    Ok(())
}

// The text of a state, with its version.
#[derive(Drop)]
struct StateText {
    number: u32,
    text: String,
}

fn own_text(alloc: Global, agent: &OwnedAgent) -> Result<StateText, AllocError>
    ensures { IfOk result (λ s. IsOwnState agent.now s.number (string_bytes s.text)) }
{
    let state = agent.state();
    let plain = state.to_plain(alloc)?;
    // Proof: the clause is about a state without undef, and only this call shows that it is one.
    plain.proper();
    let text = state_text(alloc, &plain)?;
    Ok(StateText {
        number: state.number(),
        text,
    })
}

/// Do what `asm_state` does.
pub fn own_state(
    alloc: Global,
    agent: &mut Slot,
    number: &mut u32,
    out: &mut [u8],
    written: &mut usize,
) -> Result<(), Code>
    ensures text { IsWritten (λ text. Holds an_agent (content_of agent.old) (λ a. IsOwnState a number.new text))
        (λ c. (number.new ≡ 0) × EmptyOr (Lacks an_agent (content_of agent.old)) IsMemory c)
        out.old out.new written.new result }
    ensures kept { content_of agent.new ≡ content_of agent.old }
{
    *number = 0;
    *written = 0;
    lend!(inner: Agent = agent, Err(Code::Empty));
    let own = own_text(alloc, inner)?;
    *number = own.number;
    write(own.text.as_bytes(), out, written)
}

// Return the text of the state at the locations with this name, by a copy of it.
fn copied_of_name(alloc: Global, agent: &OwnedAgent, name: &str) -> Result<StateText, AllocError>
    ensures { IfOk result (λ s. IsOwnOfName name.now agent.now s.number (string_bytes s.text)) }
{
    let state = agent.state();
    let plain = state.of_name(alloc, name)?;
    // Proof: the clause is about a state without undef, and only this call shows that it is one.
    plain.proper();
    let text = state_text(alloc, &plain)?;
    Ok(StateText {
        number: state.number(),
        text,
    })
}

fn own_of_name(alloc: Global, agent: &OwnedAgent, name: &str) -> Result<StateText, AllocError>
    ensures { IfOk result (λ s. IsOwnOfName name.now agent.now s.number (string_bytes s.text)) }
{
    let state = agent.state();
    let Some(list) = state.list_of_name(alloc, name)? else {
        return copied_of_name(alloc, agent, name);
    };
    let text = list_text(alloc, &list)?;
    Ok(StateText {
        number: state.number(),
        text,
    })
}

fn named(alloc: Global, agent: &OwnedAgent, name: &[u8]) -> Result<StateText, Code>
    ensures ok { IfOk result (λ s. IsOwnOfName name.now agent.now s.number (string_bytes s.text)) }
    ensures err { IfErr result (IsNoName name.now) }
{
    let Ok(name) = str::from_utf8(name) else {
        return Err(Code::Shape);
    };
    Ok(own_of_name(alloc, agent, name)?)
}

/// Do what `asm_scan` does.
pub fn scan(
    alloc: Global,
    agent: &mut Slot,
    name: &[u8],
    number: &mut u32,
    out: &mut [u8],
    written: &mut usize,
) -> Result<(), Code>
    ensures text { IsWritten (λ text. Holds an_agent (content_of agent.old) (λ a. IsOwnOfName name.now a number.new text))
        (λ c. (number.new ≡ 0) × EmptyOr (Lacks an_agent (content_of agent.old)) (IsNoName name.now) c)
        out.old out.new written.new result }
    ensures kept { content_of agent.new ≡ content_of agent.old }
{
    *number = 0;
    *written = 0;
    lend!(inner: Agent = agent, Err(Code::Empty));
    let own = named(alloc, inner, name)?;
    *number = own.number;
    write(own.text.as_bytes(), out, written)
}

/// Do what `asm_peek_at` does.
pub fn peek_at(
    alloc: Global,
    agent: &mut Slot,
    at: &mut Slot,
    number: &mut u32,
    value: &mut ValueHead,
    out: &mut [u8],
    written: &mut usize,
) -> Result<(), Code>
    ensures answers { MatchResult result
        (λ done. PeeksAt (content_of at.old) (content_of agent.old) number.new value.new out.old out.new written.new)
        (DoesNotPeekAt (content_of at.old) (content_of agent.old) out.old out.new written.new) }
    ensures none { OnErr result ((number.new ≡ 0) × IsNoValue value.new) }
    ensures kept { content_of agent.new ≡ content_of agent.old }
    ensures stays { content_of at.new ≡ content_of at.old }
{
    *written = 0;
    *number = 0;
    *value = ValueHead::none();
    lend!(at: Location = at, Err(Code::Empty));
    lend!(inner: Agent = agent, Err(Code::Empty));
    let state = inner.state();
    *value = write_value_at(alloc, state, at, out, written)?;
    *number = state.number();
    Ok(())
}

pub(crate) fn value_at<L: Lookup>(
    alloc: Global,
    seen: &L,
    at: &Location,
) -> Result<Value, AllocError>
    ensures { IfOk result (λ value. value ≡ L.value_at seen.now at.now) }
{
    Value::copy_or_undef(alloc, seen.get(at))
}

// Return the text of the values at the locations.
fn peeked(alloc: Global, agent: &OwnedAgent, locations: &[Location]) -> Result<String, AllocError>
    ensures { IfOk result (λ text. IsPeek locations.now agent.now (string_bytes text)) }
{
    let state = agent.state();
    let text = values_text(alloc, state.number(), state, locations)?;
    Ok(text)
}

/// Do what `asm_peek` does.
pub fn peek(
    alloc: Global,
    agent: &mut Slot,
    locations: &[u8],
    out: &mut [u8],
    written: &mut usize,
) -> Result<(), Code>
    ensures text { IsWritten (λ text. Holds an_agent (content_of agent.old) (λ a. IsPeekOf locations.now a text))
        (EmptyOr (Lacks an_agent (content_of agent.old)) (IsUnreadAs AreLocations locations.now))
        out.old out.new written.new result }
    ensures kept { content_of agent.new ≡ content_of agent.old }
{
    *written = 0;
    lend!(inner: Agent = agent, Err(Code::Empty));
    let locations = locations_of(alloc, locations)?;
    let text = peeked(alloc, inner, &locations)?;
    write(text.as_bytes(), out, written)
}

/// Return `{"stale":LOC}`.
pub(crate) fn stale_text(alloc: Global, at: Location) -> Result<String, AllocError>
    ensures { IfOk result (λ text. IsStaleText at (string_bytes text)) }
{
    answer_text(alloc, &Answer::Fire(Reply::Stale(at)))
}

/// Do what `asm_stands` does.
pub fn validate(
    alloc: Global,
    agent: &mut Slot,
    reads: &[u8],
    out: &mut [u8],
    written: &mut usize,
) -> Result<(), Code>
    ensures answers { MatchResult result
        (λ done. Validates reads.now (content_of agent.old) (content_of agent.new) × (out.new ≡ out.old) × (written.new ≡ 0))
        (DoesNotValidate reads.now (content_of agent.old) (content_of agent.new) out.old out.new written.new) }
{
    *written = 0;
    let Some((shell, inner)) = take_agent(alloc, agent) else {
        return Err(Code::Empty);
    };
    let reads = match reads_of(alloc, reads) {
        Ok(reads) => reads,
        Err(error) => {
            put_agent(agent, shell, inner);
            return Err(Code::from(error));
        }
    };
    if inner.is_behind(&reads) {
        put_agent(agent, shell, inner);
        return Err(Code::Ahead);
    }
    let (inner, stale) = inner.stale_of(alloc, &reads);
    put_agent(agent, shell, inner);
    let at = match stale {
        Ok(Some(at)) => at,
        Ok(None) => return Ok(()),
        Err(ReadError::ManyLocations) => return Err(Code::Many),
        Err(ReadError::Memory) => return Err(Code::Memory),
    };
    let text = stale_text(alloc, at)?;
    write(text.as_bytes(), out, written)?;
    Err(Code::Stale)
}
