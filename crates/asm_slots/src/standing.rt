//! Whether a step stands: whether its commit would find it stale.
ghost use Rattle.std.specs.Prelude.{◌≡◌, IfOk, MatchResult, OnOk};
ghost use Rattle.asm_storage.specs.Storage.{IsSameAgent, IsUpToDate};
ghost use Rattle.asm_slots.specs.AgentCalls.{SeesOn};
ghost use Rattle.asm_slots.specs.Answers.{IsMemory};
ghost use Rattle.asm_slots.specs.OwnState.{HasPolledOn, IsStaleText};
ghost use Rattle.asm_slots.specs.Slots.{content_of};
ghost use Rattle.asm_slots.specs.Standard.{meaning};
ghost use Rattle.asm_slots.specs.Standing.{DoesNotStand, ReportsStale, StepStands};
ghost use Rattle.asm_slots.specs.WrittenText.{IsWritten, WritesNothing};
ghost use Rattle.asm_transaction.specs.Reading.{IsOf};
ghost use Rattle.asm_transaction.specs.Standing.{Stands};

use crate::codes::{Code, write};
use crate::lend;
use crate::own_state::stale_text;
use crate::owned_agent::OwnedAgent;
use crate::slot::Slot;
use asm_aggregate::Standard;
use asm_element::Location;
use asm_transaction::Transaction;
use std::alloc::{AllocError, Global};

// Poll, follow, and return a location on which the commit depends, if one was written.
fn overwritten(
    alloc: Global,
    agent: &mut OwnedAgent,
    step: &Transaction,
) -> Result<Option<Location>, AllocError>
    ensures same { IsSameAgent agent.old agent.new }
    ensures polled { HasPolledOn agent.old agent.new }
    ensures seen { SeesOn agent.old agent.new }
    ensures level { OnOk result (IsUpToDate agent.new) }
    ensures stands { IfOk result (λ found. IsOf meaning agent.old step.now → Stands meaning agent.new step.now found) }
{
    agent.follow(alloc)?;
    step.overwritten_on::<Standard>(alloc, agent.state())
}

fn write_stale(alloc: Global, at: Location, out: &mut [u8], written: &mut usize) -> Result<(), Code>
    requires { written.old ≡ 0 }
    ensures { IsWritten (IsStaleText at) IsMemory out.old out.new written.new result }
{
    let text = stale_text(alloc, at)?;
    write(text.as_bytes(), out, written)
}

// Write `{"stale":LOC}`, and return the code of that.
fn report_stale(alloc: Global, at: Location, out: &mut [u8], written: &mut usize) -> Code
    requires { written.old ≡ 0 }
    ensures { ReportsStale at out.old out.new written.new result }
{
    match write_stale(alloc, at, out, written) {
        Ok(()) => Code::Stale,
        Err(code) => code,
    }
}

/// Do what `asm_step_stands` does.
pub fn step_stands(
    alloc: Global,
    agent: &mut Slot,
    step: &mut Slot,
    out: &mut [u8],
    written: &mut usize,
) -> Result<(), Code>
    ensures answers { MatchResult result
        (λ done. StepStands (content_of agent.old) (content_of agent.new) (content_of step.old) × WritesNothing out.old out.new written.new)
        (DoesNotStand (content_of agent.old) (content_of agent.new) (content_of step.old) out.old out.new written.new) }
    ensures kept { content_of step.new ≡ content_of step.old }
{
    *written = 0;
    lend!(inner: Agent = agent, Err(Code::Empty));
    lend!(over: Step = step, Err(Code::Empty));
    let found = overwritten(alloc, inner, over)?;
    match found {
        Some(at) => Err(report_stale(alloc, at, out, written)),
        None => Ok(()),
    }
}
