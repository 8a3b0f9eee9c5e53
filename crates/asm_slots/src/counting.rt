//! Whether a function has a value anywhere, and at how many locations, through the pushed moves of a step.
ghost use Rattle.std.specs.Prelude.{◌≡◌, ◌⊎◌, if◌then◌else◌, IfErr, IfOk, MatchResult, OnErr, OnOk};
ghost use Rattle.asm_slots.specs.Answers.{IsNoName};
ghost use Rattle.asm_slots.specs.Counting.{FindsNothingOf, FindsOf, IsAnyBy, IsCountBy};
ghost use Rattle.asm_slots.specs.Slots.{content_of};
ghost use Rattle.asm_slots.specs.Standard.{meaning};
ghost use Rattle.asm_slots.specs.StepCalls.{Errs, HasReached, IsNotScanned};
ghost use Rattle.asm_transaction.specs.Counting.{IsAnyOf, IsCountIn};
ghost use Rattle.asm_transaction.specs.Reading.{IsOf};
ghost use Rattle.asm_transaction.specs.Scanning.{HasScanned, IsUnscanned};

use crate::codes::Code;
use crate::lend;
use crate::owned_agent::OwnedAgent;
use crate::slot::Slot;
use asm_aggregate::Standard;
use asm_transaction::Transaction;
use std::alloc::Global;
use std::str;

// Return whether the function has a value at a location, and scan it.
#[tactic(auto, using(crate::proofs::CountsOfSteps::unscanned_as))]
fn any_of(
    alloc: Global,
    agent: &OwnedAgent,
    step: &mut Transaction,
    name: &str,
) -> Result<bool, Code>
    ensures any { IfOk result (λ b. IsOf meaning agent.now step.old → IsAnyOf meaning agent.now step.old name.now b) }
    ensures reached { OnOk result (HasReached agent.now step.old) }
    ensures scanned { OnOk result (HasScanned name.now step.old step.new) }
    ensures err { IfErr result (Errs (IsUnscanned name.now agent.now.number step.old)) }
    ensures stays { OnErr result (step.new ≡ step.old) }
{
    let any = step.any_on::<Standard>(alloc, agent.state(), name)?;
    Ok(any)
}

// Return how many locations of the function have a value, and scan it.
#[tactic(auto, using(crate::proofs::CountsOfSteps::unscanned_as))]
fn count_of(
    alloc: Global,
    agent: &OwnedAgent,
    step: &mut Transaction,
    name: &str,
) -> Result<u64, Code>
    ensures count { IfOk result (λ n. IsOf meaning agent.now step.old → IsCountIn meaning agent.now step.old name.now n) }
    ensures reached { OnOk result (HasReached agent.now step.old) }
    ensures scanned { OnOk result (HasScanned name.now step.old step.new) }
    ensures err { IfErr result (Errs (IsUnscanned name.now agent.now.number step.old)) }
    ensures stays { OnErr result (step.new ≡ step.old) }
{
    let count = step.count_on::<Standard>(alloc, agent.state(), name)?;
    Ok(count)
}

fn number_of(any: bool) -> u32
    ensures { result ≡ if any then 1 else 0 }
{
    if any { 1 } else { 0 }
}

// Do so of the function with these bytes as its name: 1 if it has a value at a location, else 0.
fn any_in(
    alloc: Global,
    agent: &OwnedAgent,
    step: &mut Transaction,
    name: &[u8],
) -> Result<u32, Code>
    ensures any { IfOk result (IsAnyBy name.now agent.now step.old) }
    ensures scanned { OnOk result (HasScanned name.now step.old step.new) }
    ensures err { IfErr result (λ c. IsNoName name.now c ⊎ IsNotScanned name.now agent.now step.old c) }
    ensures stays { OnErr result (step.new ≡ step.old) }
{
    let Ok(name) = str::from_utf8(name) else {
        return Err(Code::Shape);
    };
    let any = any_of(alloc, agent, step, name)?;
    Ok(number_of(any))
}

// Return how many locations have a value of the function with these bytes as its name.
fn count_in(
    alloc: Global,
    agent: &OwnedAgent,
    step: &mut Transaction,
    name: &[u8],
) -> Result<u64, Code>
    ensures count { IfOk result (IsCountBy name.now agent.now step.old) }
    ensures scanned { OnOk result (HasScanned name.now step.old step.new) }
    ensures err { IfErr result (λ c. IsNoName name.now c ⊎ IsNotScanned name.now agent.now step.old c) }
    ensures stays { OnErr result (step.new ≡ step.old) }
{
    let Ok(name) = str::from_utf8(name) else {
        return Err(Code::Shape);
    };
    let count = count_of(alloc, agent, step, name)?;
    Ok(count)
}

/// Do what `asm_any` does.
pub fn any(
    alloc: Global,
    agent: &mut Slot,
    step: &mut Slot,
    name: &[u8],
    any: &mut u32,
) -> Result<(), Code>
    ensures answers { MatchResult result
        (λ done. FindsOf IsAnyBy name.now (content_of agent.old) (content_of step.old) (content_of step.new) any.new)
        (FindsNothingOf name.now (content_of agent.old) (content_of step.old)) }
    ensures none { OnErr result (any.new ≡ 0) }
    ensures stays { OnErr result (content_of step.new ≡ content_of step.old) }
    ensures kept { content_of agent.new ≡ content_of agent.old }
{
    *any = 0;
    lend!(agent: Agent = agent, Err(Code::Empty));
    lend!(step: Step = step, Err(Code::Empty));
    *any = any_in(alloc, agent, step, name)?;
    Ok(())
}

/// Do what `asm_count` does.
pub fn count(
    alloc: Global,
    agent: &mut Slot,
    step: &mut Slot,
    name: &[u8],
    count: &mut u64,
) -> Result<(), Code>
    ensures answers { MatchResult result
        (λ done. FindsOf IsCountBy name.now (content_of agent.old) (content_of step.old) (content_of step.new) count.new)
        (FindsNothingOf name.now (content_of agent.old) (content_of step.old)) }
    ensures none { OnErr result (count.new ≡ 0) }
    ensures stays { OnErr result (content_of step.new ≡ content_of step.old) }
    ensures kept { content_of agent.new ≡ content_of agent.old }
{
    *count = 0;
    lend!(agent: Agent = agent, Err(Code::Empty));
    lend!(step: Step = step, Err(Code::Empty));
    *count = count_in(alloc, agent, step, name)?;
    Ok(())
}
