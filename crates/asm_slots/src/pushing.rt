//! Pushing moves onto a step, and extending the one that was pushed last.
#![tactic(auto, unfolding(asm_aggregate::specs::Standard::standard_meaning))]

ghost use Rattle.std.specs.Prelude.{◌≡◌, string_bytes, IfErr, IfOk, MatchResult, OnErr, OnOk, Some};
ghost use Rattle.asm_slots.specs.StepAnswers.{DoesNotGrow, DoesNotGrowBy, Grows, GrowsBy};
ghost use Rattle.asm_slots.specs.Slots.{content_of};
ghost use Rattle.asm_slots.specs.StepCalls.{Errs, IsGrown, IsNotGrown, IsPushError, ReportsRefusal};
ghost use Rattle.asm_slots.specs.WrittenText.{WritesNothing};
ghost use Rattle.asm_slots.specs.declared.content.Content.TheVariants as content;
ghost use Rattle.asm_transaction.specs.Reading.{HasTracked, IsUntracked};
ghost use Rattle.asm_transaction.specs.Tracked.{refusal_places};

use crate::codes::{Code, write};
use crate::composing::{Refusal, clash_text, large_text};
use crate::holding::held_move;
use crate::lend;
use crate::owned_agent::OwnedAgent;
use crate::slot::Slot;
use asm_step::StepError;
use asm_transaction::{Transaction, refusal_places};
use asm_update::Instructions;
use std::alloc::{AllocError, Global};

/// How a move is put onto a step.
#[derive(Clone, Copy, Drop)]
pub enum PushMode {
    Push,
    Extend,
}

fn refusal_of(alloc: Global, error: StepError) -> Result<Refusal, AllocError>
    ensures { IfOk result (λ r. ReportsRefusal error r.code (string_bytes r.text)) }
{
    match error {
        StepError::Clash(clash) => Ok(Refusal {
            code: Code::Clash,
            text: clash_text(alloc, clash)?,
        }),
        StepError::Large(at) => Ok(Refusal {
            code: Code::Large,
            text: large_text(alloc, &at)?,
        }),
        StepError::Many => Ok(Refusal {
            code: Code::LongMove,
            text: String::new(alloc),
        }),
        StepError::Deep => Ok(Refusal {
            code: Code::Deep,
            text: String::new(alloc),
        }),
        StepError::Memory => Err(AllocError),
    }
}

// Return why the move isn't accepted, and track the locations on which that depends.
#[tactic(auto, using(crate::proofs::Refused::untracked_as))]
fn refuse(
    alloc: Global,
    step: &mut Transaction,
    instrs: &Instructions,
    error: StepError,
) -> Result<Refusal, Code>
    ensures reported { IfOk result (λ r. ReportsRefusal error r.code (string_bytes r.text)) }
    ensures tracked { OnOk result (HasTracked (refusal_places instrs.now error) step.old step.new) }
    ensures err { IfErr result (Errs (IsUntracked (refusal_places instrs.now error) step.old)) }
    ensures stays { OnErr result (step.new ≡ step.old) }
{
    let places = refusal_places(alloc, instrs, &error)?;
    let refusal = refusal_of(alloc, error)?;
    step.track(alloc, places)?;
    Ok(refusal)
}

// Put the move onto the step, at whose version the agent's own state is.
fn grow(
    alloc: Global,
    agent: &OwnedAgent,
    step: &mut Transaction,
    way: PushMode,
    instrs: &Instructions,
) -> Result<(), StepError>
    requires { agent.now.number ≡ step.old.number }
    ensures grown { OnOk result (IsGrown way instrs.now agent.now step.old step.new) }
    ensures err { IfErr result (IsPushError way instrs.now agent.now step.old) }
    ensures stays { OnErr result (step.new ≡ step.old) }
{
    let state = agent.state();
    match way {
        PushMode::Push => step.push_move(alloc, agent.aggregator(), state, instrs),
        PushMode::Extend => step.extend_last(alloc, agent.aggregator(), state, instrs),
    }
}

// Put the move onto the step, or report why it isn't accepted.
fn grow_by(
    alloc: Global,
    agent: &OwnedAgent,
    step: &mut Transaction,
    way: PushMode,
    instrs: &Instructions,
    out: &mut [u8],
    written: &mut usize,
) -> Result<(), Code>
    requires { written.old ≡ 0 }
    ensures grown { OnOk result (IsGrown way instrs.now agent.now step.old step.new) }
    ensures unwritten { OnOk result (WritesNothing out.old out.new written.new) }
    ensures err { IfErr result (IsNotGrown way instrs.now agent.now step.old step.new out.old out.new written.new) }
{
    if agent.state().number() != step.number() {
        return Err(Code::Moved);
    }
    let Err(error) = grow(alloc, agent, step, way, instrs) else {
        return Ok(());
    };
    let refusal = refuse(alloc, step, instrs, error)?;
    write(refusal.text.as_bytes(), out, written)?;
    Err(refusal.code)
}

/// Do what `asm_push` or `asm_extend` does.
pub fn grow_of(
    alloc: Global,
    agent: &mut Slot,
    step: &mut Slot,
    way: PushMode,
    instrs: &[u8],
    out: &mut [u8],
    written: &mut usize,
) -> Result<(), Code>
    ensures answers { MatchResult result
        (λ done. Grows way instrs.now (content_of agent.old) (content_of step.old) (content_of step.new) out.old out.new written.new)
        (DoesNotGrow way instrs.now (content_of agent.old) (content_of step.old) (content_of step.new) out.old out.new written.new) }
    ensures kept { content_of agent.new ≡ content_of agent.old }
{
    *written = 0;
    lend!(agent: Agent = agent, Err(Code::Empty));
    lend!(step: Step = step, Err(Code::Empty));
    let instrs = held_move(alloc, agent.state(), instrs)?;
    grow_by(alloc, agent, step, way, &instrs, out, written)
}

/// Do what `asm_push_move` or `asm_extend_move` does, with a move that no slot holds.
pub(crate) fn grow_with(
    alloc: Global,
    agent: &mut Slot,
    step: &mut Slot,
    way: PushMode,
    instrs: &Instructions,
    out: &mut [u8],
    written: &mut usize,
) -> Result<(), Code>
    requires { written.old ≡ 0 }
    ensures answers { MatchResult result
        (λ done. GrowsBy way (Some (content.Move instrs.now)) (content_of agent.old) (content_of step.old) (content_of step.new)
        out.old out.new written.new)
        (DoesNotGrowBy way (Some (content.Move instrs.now)) (content_of agent.old) (content_of step.old) (content_of step.new)
        out.old out.new written.new) }
    ensures kept { content_of agent.new ≡ content_of agent.old }
{
    lend!(agent: Agent = agent, Err(Code::Empty));
    lend!(step: Step = step, Err(Code::Empty));
    grow_by(alloc, agent, step, way, instrs, out, written)
}

/// Do what `asm_push_move` or `asm_extend_move` does.
pub fn grow_from(
    alloc: Global,
    agent: &mut Slot,
    step: &mut Slot,
    way: PushMode,
    instrs: &mut Slot,
    out: &mut [u8],
    written: &mut usize,
) -> Result<(), Code>
    ensures answers { MatchResult result
        (λ done. GrowsBy way (content_of instrs.old) (content_of agent.old) (content_of step.old) (content_of step.new)
        out.old out.new written.new)
        (DoesNotGrowBy way (content_of instrs.old) (content_of agent.old) (content_of step.old) (content_of step.new)
        out.old out.new written.new) }
    ensures kept { content_of agent.new ≡ content_of agent.old }
    ensures held { content_of instrs.new ≡ content_of instrs.old }
{
    *written = 0;
    lend!(instrs: Move = instrs, Err(Code::Empty));
    lend!(agent: Agent = agent, Err(Code::Empty));
    lend!(step: Step = step, Err(Code::Empty));
    grow_by(alloc, agent, step, way, instrs, out, written)
}
