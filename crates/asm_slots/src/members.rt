//! How often a set or a bag has an element, and how many it has, through the pushed moves of a step.
ghost use Rattle.std.specs.Prelude.{◌≡◌, ◌∷◌, [], IfErr, IfNone, IfOk, IfSome, MatchResult, OnErr, OnOk, Some};
ghost use Rattle.asm_element.specs.declared.value.Value.TheVariants as values;
ghost use Rattle.asm_slots.specs.Kinds.{CannotTake, IsOperand};
ghost use Rattle.asm_slots.specs.Members.{CountsAt, DoesNotCountAt, DoesNotSizeAt, IsCountBy, IsNoElement};
ghost use Rattle.asm_slots.specs.Members.{IsNotCounted, IsNotSized, IsSizeBy, SizesAt};
ghost use Rattle.asm_slots.specs.Slots.{content_of};
ghost use Rattle.asm_slots.specs.Standard.{meaning};
ghost use Rattle.asm_slots.specs.StepCalls.{Errs, HasReached};
ghost use Rattle.asm_slots.specs.declared.operands.Verb.TheVariants as verbs;
ghost use Rattle.asm_transaction.specs.Members.{IsCountShown, IsSizeShown};
ghost use Rattle.asm_transaction.specs.Reading.{HasTracked, IsOf, IsUnread};

use crate::codes::Code;
use crate::lend;
use crate::operands::value_of;
use crate::owned_agent::OwnedAgent;
use crate::slot::Slot;
use asm_aggregate::Standard;
use asm_element::{Element, Location, Value};
use asm_transaction::Transaction;
use std::alloc::Global;

// Return the element that the value is.
fn element_in(value: Value) -> Option<Element>
    ensures some { IfSome result (λ e. value ≡ values.Plain e) }
    ensures none { IfNone result (CannotTake verbs.Add value) }
{
    match value {
        Value::Plain(element) => Some(element),
        _ => None,
    }
}

// Return the element with this kind, this number and these bytes.
fn element_by(alloc: Global, kind: i32, number: i64, bytes: &[u8]) -> Result<Element, Code>
    ensures ok { IfOk result (λ e. IsOperand kind number bytes.now (values.Plain e)) }
    ensures err { IfErr result (IsNoElement kind number bytes.now) }
{
    let value = value_of(alloc, kind, number, bytes)?;
    match element_in(value) {
        Some(element) => Ok(element),
        None => Err(Code::Operand),
    }
}

// Return the count of the element in what is shown at the location, and track the location.
#[tactic(auto, using(crate::proofs::MembersOfSteps::unread_as))]
fn count_element(
    alloc: Global,
    agent: &OwnedAgent,
    step: &mut Transaction,
    at: &Location,
    element: &Element,
) -> Result<Option<u32>, Code>
    ensures count { IfOk result (λ n. IsOf meaning agent.now step.old →
        IsCountShown meaning agent.now step.old at.now element.now n) }
    ensures reached { OnOk result (HasReached agent.now step.old) }
    ensures tracked { OnOk result (HasTracked (at.now ∷ []) step.old step.new) }
    ensures err { IfErr result (Errs (IsUnread at.now agent.now.number step.old)) }
    ensures stays { OnErr result (step.new ≡ step.old) }
{
    let count = step.count_of_on::<Standard>(alloc, agent.state(), at, element)?;
    Ok(count)
}

// Return the count of the element that kind, number and bytes mean, and track the location.
fn count_one(
    alloc: Global,
    agent: &OwnedAgent,
    step: &mut Transaction,
    at: &Location,
    kind: i32,
    number: i64,
    bytes: &[u8],
) -> Result<u32, Code>
    ensures count { IfOk result (λ n. IsCountBy at.now kind number bytes.now agent.now step.old (Some n)) }
    ensures tracked { OnOk result (HasTracked (at.now ∷ []) step.old step.new) }
    ensures err { IfErr result (IsNotCounted at.now kind number bytes.now agent.now step.old step.new) }
{
    let element = element_by(alloc, kind, number, bytes)?;
    match count_element(alloc, agent, step, at, &element)? {
        Some(count) => Ok(count),
        None => Err(Code::Shape),
    }
}

/// Do what `asm_count_of` does.
pub fn count_of(
    alloc: Global,
    agent: &mut Slot,
    step: &mut Slot,
    at: &mut Slot,
    kind: i32,
    number: i64,
    bytes: &[u8],
    count: &mut u32,
) -> Result<(), Code>
    ensures answers { MatchResult result
        (λ done. CountsAt kind number bytes.now (content_of at.old) (content_of agent.old) (content_of step.old) (content_of step.new) count.new)
        (DoesNotCountAt kind number bytes.now (content_of at.old) (content_of agent.old) (content_of step.old) (content_of step.new)) }
    ensures none { OnErr result (count.new ≡ 0) }
    ensures kept { content_of agent.new ≡ content_of agent.old }
    ensures held { content_of at.new ≡ content_of at.old }
{
    *count = 0;
    lend!(at: Location = at, Err(Code::Empty));
    lend!(agent: Agent = agent, Err(Code::Empty));
    lend!(step: Step = step, Err(Code::Empty));
    *count = count_one(alloc, agent, step, at, kind, number, bytes)?;
    Ok(())
}

// Return the size of what is shown at the location, and track the location.
#[tactic(auto, using(crate::proofs::MembersOfSteps::unread_as))]
fn find_size(
    alloc: Global,
    agent: &OwnedAgent,
    step: &mut Transaction,
    at: &Location,
) -> Result<Option<u64>, Code>
    ensures size { IfOk result (λ n. IsOf meaning agent.now step.old → IsSizeShown meaning agent.now step.old at.now n) }
    ensures reached { OnOk result (HasReached agent.now step.old) }
    ensures tracked { OnOk result (HasTracked (at.now ∷ []) step.old step.new) }
    ensures err { IfErr result (Errs (IsUnread at.now agent.now.number step.old)) }
    ensures stays { OnErr result (step.new ≡ step.old) }
{
    let size = step.size_on::<Standard>(alloc, agent.state(), at)?;
    Ok(size)
}

// Return the size of the set or the bag at the location, and track the location.
fn size_one(
    alloc: Global,
    agent: &OwnedAgent,
    step: &mut Transaction,
    at: &Location,
) -> Result<u64, Code>
    ensures size { IfOk result (λ n. IsSizeBy at.now agent.now step.old (Some n)) }
    ensures tracked { OnOk result (HasTracked (at.now ∷ []) step.old step.new) }
    ensures err { IfErr result (IsNotSized at.now agent.now step.old step.new) }
{
    match find_size(alloc, agent, step, at)? {
        Some(size) => Ok(size),
        None => Err(Code::Shape),
    }
}

/// Do what `asm_size` does.
pub fn size(
    alloc: Global,
    agent: &mut Slot,
    step: &mut Slot,
    at: &mut Slot,
    size: &mut u64,
) -> Result<(), Code>
    ensures answers { MatchResult result
        (λ done. SizesAt (content_of at.old) (content_of agent.old) (content_of step.old) (content_of step.new) size.new)
        (DoesNotSizeAt (content_of at.old) (content_of agent.old) (content_of step.old) (content_of step.new)) }
    ensures none { OnErr result (size.new ≡ 0) }
    ensures kept { content_of agent.new ≡ content_of agent.old }
    ensures held { content_of at.new ≡ content_of at.old }
{
    *size = 0;
    lend!(at: Location = at, Err(Code::Empty));
    lend!(agent: Agent = agent, Err(Code::Empty));
    lend!(step: Step = step, Err(Code::Empty));
    *size = size_one(alloc, agent, step, at)?;
    Ok(())
}
