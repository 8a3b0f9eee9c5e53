//! Committing a step: firing its one move, with or without a receipt of what the step read.
ghost use Rattle.std.specs.Prelude.{◌≡◌, IfOk, MatchResult, None, string_bytes};
ghost use Rattle.serde_json.specs.Written.{compact_text};
ghost use Rattle.asm_journal.specs.Event.{call_json_of};
ghost use Rattle.asm_slots.specs.AgentCalls.{no_numbers};
ghost use Rattle.asm_slots.specs.Answers.{EmptyOr, IsMemory};
ghost use Rattle.asm_slots.specs.Commit.{CommitsIn, HasCommitted, HasCommittedRecorded, HasFiredOnce, IsOfferText};
ghost use Rattle.asm_slots.specs.Slots.{Holds, Lacks, a_step, content_of};
ghost use Rattle.asm_slots.specs.WrittenText.{IsWritten};

use crate::codes::{Code, write};
use crate::lend;
use crate::long_lines::expect_fire;
use crate::owned_agent::OwnedAgent;
use crate::read_and_fire::{Numbers, report};
use crate::slot::Slot;
use asm_journal::ToJson;
use asm_storage::Call;
use asm_transaction::Transaction;
use std::alloc::{AllocError, Global};

fn commit_of(
    alloc: Global,
    agent: &mut OwnedAgent,
    step: &Transaction,
    numbers: &mut Numbers,
) -> Result<(), Code>
    requires { numbers.old ≡ no_numbers }
    ensures committed { HasCommitted step.now agent.old agent.new numbers.new result }
    ensures once { HasFiredOnce step.now agent.old agent.new numbers.new result }
{
    let (instrs, reads) = step.prepared(alloc)?;
    expect_fire(alloc, reads.as_slice(), instrs.as_slice())?;
    report(agent.commit(alloc, step, instrs, reads), numbers)
}

fn commit_recorded_of(
    alloc: Global,
    agent: &mut OwnedAgent,
    step: &Transaction,
    numbers: &mut Numbers,
) -> Result<(), Code>
    requires { numbers.old ≡ no_numbers }
    ensures { HasCommittedRecorded step.now agent.old agent.new numbers.new result }
{
    let (instrs, reads) = match step.prepare_within(alloc) {
        Ok(prepared) => prepared,
        Err(error) => return report(Err(error), numbers),
    };
    expect_fire(alloc, reads.as_slice(), instrs.as_slice())?;
    agent.expect_read(alloc, reads.as_slice())?;
    report(agent.commit_recorded(alloc, step, instrs, reads), numbers)
}

/// Do what `asm_commit` does.
pub fn commit(
    alloc: Global,
    agent: &mut Slot,
    step: &mut Slot,
    numbers: &mut Numbers,
) -> Result<(), Code>
    ensures commits { CommitsIn HasCommitted (content_of agent.old) (content_of agent.new) (content_of step.old) numbers.new result }
    ensures once { CommitsIn HasFiredOnce (content_of agent.old) (content_of agent.new) (content_of step.old) numbers.new result }
    ensures step { MatchResult result (λ done. content_of step.new ≡ None) (λ c. content_of step.new ≡ content_of step.old) }
{
    *numbers = Numbers::none();
    lend!(inner: Agent = agent, Err(Code::Empty));
    lend!(over: Step = step, Err(Code::Empty));
    commit_of(alloc, inner, over, numbers)?;
    inner.keep_memory(over);
    *step = Slot::empty(alloc);
    Ok(())
}

/// Do what `asm_commit_recorded` does.
pub fn commit_recorded(
    alloc: Global,
    agent: &mut Slot,
    step: &mut Slot,
    numbers: &mut Numbers,
) -> Result<(), Code>
    ensures commits { CommitsIn HasCommittedRecorded (content_of agent.old) (content_of agent.new) (content_of step.old) numbers.new result }
    ensures step { MatchResult result (λ done. content_of step.new ≡ None) (λ c. content_of step.new ≡ content_of step.old) }
{
    *numbers = Numbers::none();
    lend!(inner: Agent = agent, Err(Code::Empty));
    lend!(over: Step = step, Err(Code::Empty));
    commit_recorded_of(alloc, inner, over, numbers)?;
    inner.keep_memory(over);
    *step = Slot::empty(alloc);
    Ok(())
}

#[tactic(auto, using(asm_journal::proofs::Floats::call_no_float))]
fn call_text(alloc: Global, call: &Call) -> Result<String, AllocError>
    ensures { IfOk result (λ text. string_bytes text ≡ compact_text (call_json_of call.now)) }
{
    call.to_json(alloc)?.to_string(alloc)
}

fn offer_text(alloc: Global, step: &Transaction) -> Result<String, AllocError>
    ensures { IfOk result (λ text. IsOfferText step.now (string_bytes text)) }
{
    call_text(alloc, &step.preview(alloc)?)
}

/// Do what `asm_offer` does.
pub fn offer(
    alloc: Global,
    step: &mut Slot,
    out: &mut [u8],
    written: &mut usize,
) -> Result<(), Code>
    ensures text { IsWritten (λ text. Holds a_step (content_of step.old) (λ s. IsOfferText s text))
        (EmptyOr (Lacks a_step (content_of step.old)) IsMemory) out.old out.new written.new result }
    ensures kept { content_of step.new ≡ content_of step.old }
{
    *written = 0;
    lend!(step: Step = step, Err(Code::Empty));
    let text = offer_text(alloc, step)?;
    write(text.as_bytes(), out, written)
}
