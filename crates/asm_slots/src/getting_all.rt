//! Reading through a step all locations with one function name, and the scan of the function.
ghost use Rattle.std.specs.Prelude.{◌≡◌, ◌⊎◌, string_bytes, IfErr, IfOk, MatchResult, OnErr, OnOk};
ghost use Rattle.asm_slots.specs.Answers.{IsNoName};
ghost use Rattle.asm_slots.specs.Slots.{Changes, a_step, content_of};
ghost use Rattle.asm_slots.specs.StepAnswers.{ShowsBoth, ShowsNoText};
ghost use Rattle.asm_slots.specs.StepCalls.{Errs, HasReached, IsFoundBy, IsFoundText, IsNotScanned};
ghost use Rattle.asm_slots.specs.WrittenText.{IsWritten};
ghost use Rattle.asm_transaction.specs.Reading.{IsUnseen};
ghost use Rattle.asm_transaction.specs.Scanning.{HasScanned};

use crate::codes::{Code, copy_into, fit};
use crate::lend;
use crate::owned_agent::OwnedAgent;
use crate::slot::Slot;
use asm_aggregate::Standard;
use asm_journal::{list_text, state_text};
use asm_transaction::Transaction;
use std::alloc::Global;
use std::str;

// Return the text of what the transaction shows at the locations with this name, by a copy of it.
#[tactic(auto, using(crate::proofs::Refused::unseen_as))]
fn copied_text(
    alloc: Global,
    agent: &OwnedAgent,
    step: &Transaction,
    name: &str,
) -> Result<String, Code>
    ensures text { IfOk result (λ text. IsFoundText name.now agent.now step.now (string_bytes text)) }
    ensures reached { OnOk result (HasReached agent.now step.now) }
    ensures err { IfErr result (Errs (IsUnseen agent.now.number step.now)) }
{
    let found = step.see_name::<Standard>(alloc, agent.state(), name)?;
    // Proof: the clause is about a state without undef, and only this call shows that it is one.
    found.proper();
    Ok(state_text(alloc, &found)?)
}

// Return the text of what the transaction shows at the locations with this name. It copies no value if no move is pushed.
#[tactic(auto, using(crate::proofs::Refused::unseen_as))]
fn found_text(
    alloc: Global,
    agent: &OwnedAgent,
    step: &Transaction,
    name: &str,
) -> Result<String, Code>
    ensures text { IfOk result (λ text. IsFoundText name.now agent.now step.now (string_bytes text)) }
    ensures reached { OnOk result (HasReached agent.now step.now) }
    ensures err { IfErr result (Errs (IsUnseen agent.now.number step.now)) }
{
    let Some(list) = step.list_name::<Standard>(alloc, agent.state(), name)? else {
        return copied_text(alloc, agent, step, name);
    };
    Ok(list_text(alloc, &list)?)
}

#[tactic(auto, using(crate::proofs::Refused::unscanned_unseen, crate::proofs::Refused::unscanned_untaken, crate::proofs::Refused::untaken_as))]
fn scan_of_name(
    alloc: Global,
    agent: &OwnedAgent,
    step: &mut Transaction,
    name: &str,
    out: &mut [u8],
    written: &mut usize,
) -> Result<(), Code>
    requires { written.old ≡ 0 }
    ensures text { IsWritten (IsFoundBy name.now agent.now step.old) (IsNotScanned name.now agent.now step.old)
        out.old out.new written.new result }
    ensures scanned { OnOk result (HasScanned name.now step.old step.new) }
    ensures stays { OnErr result (step.new ≡ step.old) }
{
    let text = found_text(alloc, agent, step, name)?;
    fit(text.as_bytes(), out, written)?;
    step.track_name(alloc, name)?;
    copy_into(text.as_bytes(), out, written);
    Ok(())
}

fn scan_in(
    alloc: Global,
    agent: &OwnedAgent,
    step: &mut Transaction,
    name: &[u8],
    out: &mut [u8],
    written: &mut usize,
) -> Result<(), Code>
    requires { written.old ≡ 0 }
    ensures text { IsWritten (IsFoundBy name.now agent.now step.old)
        (λ c. IsNoName name.now c ⊎ IsNotScanned name.now agent.now step.old c) out.old out.new written.new result }
    ensures scanned { OnOk result (HasScanned name.now step.old step.new) }
    ensures stays { OnErr result (step.new ≡ step.old) }
{
    let Ok(name) = str::from_utf8(name) else {
        return Err(Code::Shape);
    };
    scan_of_name(alloc, agent, step, name, out, written)
}

/// Do what `asm_step_scan` does.
pub fn step_scan(
    alloc: Global,
    agent: &mut Slot,
    step: &mut Slot,
    name: &[u8],
    out: &mut [u8],
    written: &mut usize,
) -> Result<(), Code>
    ensures answers { MatchResult result
        (λ done. ShowsBoth (IsFoundBy name.now) (content_of agent.old) (content_of step.old) out.old out.new written.new
        × Changes a_step (content_of step.old) (content_of step.new) (HasScanned name.now))
        (ShowsNoText (IsFoundBy name.now) (λ a s c. IsNoName name.now c ⊎ IsNotScanned name.now a s c)
        (content_of agent.old) (content_of step.old) out.old out.new written.new) }
    ensures stays { OnErr result (content_of step.new ≡ content_of step.old) }
    ensures kept { content_of agent.new ≡ content_of agent.old }
{
    *written = 0;
    lend!(agent: Agent = agent, Err(Code::Empty));
    lend!(step: Step = step, Err(Code::Empty));
    scan_in(alloc, agent, step, name, out, written)
}
