//! Beginning a step, and reading through its pushed moves.
ghost use Rattle.std.specs.Prelude.{◌≡◌, ◌∷◌, [], string_bytes, IfErr, IfOk, MatchResult, OnErr, OnOk};
ghost use Rattle.std.specs.Bool.{OnFalse, OnTrue};
ghost use Rattle.asm_slots.specs.Kinds.{bytes_of};
ghost use Rattle.asm_slots.specs.OwnState.{Begins, DoesNotBegin};
ghost use Rattle.asm_slots.specs.Slots.{Changes, HasRoomFor, a_step, content_of};
ghost use Rattle.asm_slots.specs.Standard.{meaning};
ghost use Rattle.asm_slots.specs.StepAnswers.{DoesNotGetAt, GetsAt, IsNoValue, ShowsBoth, ShowsNoText};
ghost use Rattle.asm_slots.specs.StepCalls.{AreSeen, Errs, HasReached, HasTrackedBy, IsBytesSeen, IsNotGot, IsNotSeen, IsSeenBy, IsValueSeen};
ghost use Rattle.asm_slots.specs.WrittenText.{HasNoText, HasText, IsCopied, IsWritten};
ghost use Rattle.asm_transaction.specs.Reading.{HasTracked, IsOf, IsShown, IsUnread, IsUnseen, IsUntracked};

use crate::codes::{Code, copy_into, fit, write};
use crate::content::Content;
use crate::holding::held_locations;
use crate::lend;
use crate::own_state::value_at;
use crate::owned_agent::OwnedAgent;
use crate::parsing::locations_of;
use crate::slot::Slot;
use crate::value_head::{ValueHead, bytes_in};
use asm_aggregate::Standard;
use asm_element::{Location, Value};
use asm_journal::{value_text, values_text};
use asm_transaction::Transaction;
use std::alloc::Global;

// Return whether the slot is empty or holds a step.
fn has_room(slot: &mut Slot) -> bool
    ensures kept { content_of slot.new ≡ content_of slot.old }
    ensures yes { OnTrue result (HasRoomFor a_step (content_of slot.old)) }
    ensures no { OnFalse result (¬ HasRoomFor a_step (content_of slot.old)) }
{
    let Some(held) = slot.as_mut() else {
        return true;
    };
    matches!(held, Content::Step(_))
}

/// Do what `asm_begin` does.
pub fn begin(alloc: Global, agent: &mut Slot, step: &mut Slot, number: &mut u32) -> Result<(), Code>
    ensures answers { MatchResult result
        (λ done. Begins number.new (content_of agent.old) (content_of agent.new) (content_of step.old) (content_of step.new))
        (DoesNotBegin (content_of agent.old) (content_of agent.new) (content_of step.old)) }
    ensures stays { OnErr result (content_of step.new ≡ content_of step.old) }
    ensures none { OnErr result (number.new ≡ 0) }
{
    *number = 0;
    if !has_room(step) {
        return Err(Code::Taken);
    }
    lend!(inner: Agent = agent, Err(Code::Empty));
    let begun = inner.begin(alloc)?;
    let seen = begun.number();
    let made = Box::new(alloc, Content::Step(begun))?;
    *step = Slot::holding(made);
    *number = seen;
    Ok(())
}

// Return the text of what the transaction shows at the locations.
#[tactic(auto, using(crate::proofs::Refused::unseen_as))]
fn seen_text(
    alloc: Global,
    agent: &OwnedAgent,
    step: &Transaction,
    locations: &[Location],
) -> Result<String, Code>
    ensures text { IfOk result (λ text. AreSeen locations.now agent.now step.now (string_bytes text)) }
    ensures reached { OnOk result (HasReached agent.now step.now) }
    ensures err { IfErr result (Errs (IsUnseen agent.now.number step.now)) }
{
    let seen = step.shows::<Standard>(agent.state())?;
    Ok(values_text(alloc, step.number(), &seen, locations)?)
}

/// Do what `asm_see` does.
pub fn see(
    alloc: Global,
    agent: &mut Slot,
    step: &mut Slot,
    locations: &[u8],
    out: &mut [u8],
    written: &mut usize,
) -> Result<(), Code>
    ensures answers { MatchResult result
        (λ done. ShowsBoth (IsSeenBy locations.now) (content_of agent.old) (content_of step.old) out.old out.new written.new)
        (ShowsNoText (IsSeenBy locations.now) (IsNotSeen locations.now) (content_of agent.old) (content_of step.old)
        out.old out.new written.new) }
    ensures kept { content_of agent.new ≡ content_of agent.old }
    ensures held { content_of step.new ≡ content_of step.old }
{
    *written = 0;
    lend!(agent: Agent = agent, Err(Code::Empty));
    lend!(step: Step = step, Err(Code::Empty));
    let locations = locations_of(alloc, locations)?;
    let text = seen_text(alloc, agent, step, &locations)?;
    write(text.as_bytes(), out, written)
}

fn get_in(
    alloc: Global,
    agent: &OwnedAgent,
    step: &mut Transaction,
    locations: &[u8],
    out: &mut [u8],
    written: &mut usize,
) -> Result<(), Code>
    requires { written.old ≡ 0 }
    ensures text { IsWritten (IsSeenBy locations.now agent.now step.old) (IsNotGot locations.now agent.now step.old)
        out.old out.new written.new result }
    ensures tracked { OnOk result (HasTrackedBy locations.now step.old step.new) }
    ensures stays { OnErr result (step.new ≡ step.old) }
{
    let locations = held_locations(alloc, agent.state(), locations)?;
    let text = seen_text(alloc, agent, step, &locations)?;
    fit(text.as_bytes(), out, written)?;
    step.track(alloc, locations)?;
    copy_into(text.as_bytes(), out, written);
    Ok(())
}

/// Do what `asm_get` does.
pub fn get(
    alloc: Global,
    agent: &mut Slot,
    step: &mut Slot,
    locations: &[u8],
    out: &mut [u8],
    written: &mut usize,
) -> Result<(), Code>
    ensures answers { MatchResult result
        (λ done. ShowsBoth (IsSeenBy locations.now) (content_of agent.old) (content_of step.old) out.old out.new written.new
        × Changes a_step (content_of step.old) (content_of step.new) (HasTrackedBy locations.now))
        (ShowsNoText (IsSeenBy locations.now) (IsNotGot locations.now) (content_of agent.old) (content_of step.old)
        out.old out.new written.new) }
    ensures stays { OnErr result (content_of step.new ≡ content_of step.old) }
    ensures kept { content_of agent.new ≡ content_of agent.old }
{
    *written = 0;
    lend!(agent: Agent = agent, Err(Code::Empty));
    lend!(step: Step = step, Err(Code::Empty));
    get_in(alloc, agent, step, locations, out, written)
}

// Return what the transaction shows at the location.
#[tactic(auto, using(crate::proofs::Refused::unseen_as))]
fn see_one(
    alloc: Global,
    agent: &OwnedAgent,
    step: &Transaction,
    at: &Location,
) -> Result<Value, Code>
    ensures value { IfOk result (λ v. IsOf meaning agent.now step.now → IsShown meaning agent.now step.now at.now v) }
    ensures reached { OnOk result (HasReached agent.now step.now) }
    ensures err { IfErr result (Errs (IsUnseen agent.now.number step.now)) }
{
    let seen = step.shows::<Standard>(agent.state())?;
    Ok(value_at(alloc, &seen, at)?)
}

// Track the location, and write the bytes of its value.
#[tactic(auto, using(crate::proofs::Refused::untracked_as))]
fn get_bytes(
    alloc: Global,
    step: &mut Transaction,
    at: &Location,
    bytes: &[u8],
    out: &mut [u8],
    written: &mut usize,
) -> Result<(), Code>
    requires { written.old ≡ 0 }
    ensures copied { OnOk result (IsCopied bytes.now out.old out.new written.new) }
    ensures tracked { OnOk result (HasTracked (at.now ∷ []) step.old step.new) }
    ensures err { IfErr result (HasNoText (λ text. text ≡ bytes.now) (Errs (IsUntracked (at.now ∷ []) step.old))
        out.old out.new written.new) }
    ensures stays { OnErr result (step.new ≡ step.old) }
{
    fit(bytes, out, written)?;
    step.track_one(alloc, at)?;
    copy_into(bytes, out, written);
    Ok(())
}

// Track the location, and write its value.
fn get_value(
    alloc: Global,
    step: &mut Transaction,
    at: &Location,
    value: &Value,
    out: &mut [u8],
    written: &mut usize,
) -> Result<(), Code>
    requires { written.old ≡ 0 }
    ensures copied { OnOk result (IsCopied (bytes_of value.now) out.old out.new written.new) }
    ensures tracked { OnOk result (HasTracked (at.now ∷ []) step.old step.new) }
    ensures err { IfErr result (HasNoText (λ text. text ≡ bytes_of value.now) (Errs (IsUntracked (at.now ∷ []) step.old))
        out.old out.new written.new) }
    ensures stays { OnErr result (step.new ≡ step.old) }
{
    if let Some(bytes) = bytes_in(value) {
        return get_bytes(alloc, step, at, bytes, out, written);
    }
    let text = value_text(alloc, value)?;
    get_bytes(alloc, step, at, text.as_bytes(), out, written)
}

#[tactic(auto, using(crate::proofs::Refused::unread_unseen, crate::proofs::Refused::unread_untracked))]
fn get_one(
    alloc: Global,
    agent: &OwnedAgent,
    step: &mut Transaction,
    at: &Location,
    out: &mut [u8],
    written: &mut usize,
) -> Result<ValueHead, Code>
    requires { written.old ≡ 0 }
    ensures ok { IfOk result (λ value. HasText (IsValueSeen at.now agent.now step.old value.kind value.number) out.old out.new written.new) }
    ensures err { IfErr result (HasNoText (IsBytesSeen at.now agent.now step.old)
        (Errs (IsUnread at.now agent.now.number step.old)) out.old out.new written.new) }
    ensures tracked { OnOk result (HasTracked (at.now ∷ []) step.old step.new) }
    ensures stays { OnErr result (step.new ≡ step.old) }
{
    let value = see_one(alloc, agent, step, at)?;
    get_value(alloc, step, at, &value, out, written)?;
    Ok(ValueHead::of(&value))
}

/// Do what `asm_get_at` does.
pub fn get_at(
    alloc: Global,
    agent: &mut Slot,
    step: &mut Slot,
    at: &mut Slot,
    value: &mut ValueHead,
    out: &mut [u8],
    written: &mut usize,
) -> Result<(), Code>
    ensures answers { MatchResult result
        (λ done. GetsAt (content_of at.old) (content_of agent.old) (content_of step.old) (content_of step.new) value.new out.old out.new written.new)
        (DoesNotGetAt (content_of at.old) (content_of agent.old) (content_of step.old) out.old out.new written.new) }
    ensures none { OnErr result (IsNoValue value.new) }
    ensures stays { OnErr result (content_of step.new ≡ content_of step.old) }
    ensures kept { content_of agent.new ≡ content_of agent.old }
    ensures held { content_of at.new ≡ content_of at.old }
{
    *written = 0;
    *value = ValueHead::none();
    lend!(at: Location = at, Err(Code::Empty));
    lend!(agent: Agent = agent, Err(Code::Empty));
    lend!(step: Step = step, Err(Code::Empty));
    *value = get_one(alloc, agent, step, at, out, written)?;
    Ok(())
}
