//! Reading and firing, with their codes and numbers.
ghost use Rattle.std.specs.Prelude.{◌≡◌, ◌⊎◌, [], IfOk, IfErr, MatchResult, OnOk};
ghost use Rattle.asm_slots.specs.AgentAnswers.{AreScans, Fires, FiresOver, IsNoRead, IsNotRead, IsShortRead};
ghost use Rattle.asm_slots.specs.AgentAnswers.{ReadAsFireOver, Reads, TriesIn};
ghost use Rattle.asm_slots.specs.AgentCalls.{IsLastAnswer, ReportsFire, no_numbers};
ghost use Rattle.asm_slots.specs.Answers.{EmptyOr, IsMemory};
ghost use Rattle.asm_slots.specs.Bytes.{AreMisread, IsFireForm, ReadAsLocations};
ghost use Rattle.asm_slots.specs.Slots.{Holds, Lacks, an_agent, content_of};
ghost use Rattle.asm_slots.specs.WrittenText.{IsWritten};

use crate::codes::{Code, write};
use crate::holding::{held_fire, held_locations};
use crate::lend;
use crate::long_lines::expect_fire;
use crate::owned_agent::OwnedAgent;
use crate::reading_scans::scans_of;
use crate::slot::Slot;
use crate::take_and_put::{put_agent, take_agent};
use asm_element::Location;
use asm_explain::Fire;
use asm_state::{Scanned, State};
use asm_storage::{FireError, ReadError, Reply};
use std::alloc::Global;

// Read the locations, of which a read with the values in the agent's own state has a line that isn't too long.
fn locations_to_read(
    alloc: Global,
    agent: &OwnedAgent,
    locations: &[u8],
) -> Result<Vec<Location>, Code>
    ensures ok { IfOk result (λ ls. ReadAsLocations locations.now ls.items) }
    ensures short { OnOk result (IsShortRead locations.now agent.now) }
    ensures err { IfErr result (IsNoRead locations.now agent.now) }
{
    let locations = held_locations(alloc, agent.state(), locations)?;
    agent.expect_read(alloc, &locations)?;
    Ok(locations)
}

/// Do what `asm_read` does.
pub fn read(alloc: Global, agent: &mut Slot, locations: &[u8]) -> Result<(), Code>
    ensures { MatchResult result (λ done. Reads locations.now (content_of agent.old) (content_of agent.new))
        (IsNotRead locations.now (content_of agent.old) (content_of agent.new)) }
{
    let Some((shell, inner)) = take_agent(alloc, agent) else {
        return Err(Code::Empty);
    };
    let locations = match locations_to_read(alloc, &inner, locations) {
        Ok(locations) => locations,
        Err(code) => {
            put_agent(agent, shell, inner);
            return Err(code);
        }
    };
    let (inner, answer) = inner.read(alloc, &locations);
    put_agent(agent, shell, inner);
    match answer {
        Ok(_) => Ok(()),
        Err(ReadError::ManyLocations) => Err(Code::Many),
        Err(ReadError::Memory) => Err(Code::Memory),
    }
}

/// Do what `asm_answer` does.
pub fn last_answer(
    alloc: Global,
    agent: &mut Slot,
    out: &mut [u8],
    written: &mut usize,
) -> Result<(), Code>
    ensures text { IsWritten (λ text. Holds an_agent (content_of agent.old) (λ a. IsLastAnswer a.account.receipts text))
        (EmptyOr (Lacks an_agent (content_of agent.old))
        (λ c. IsMemory c ⊎ ((c ≡ Code.NoAnswer) × Holds an_agent (content_of agent.old) (λ a. a.account.receipts ≡ []))))
        out.old out.new written.new result }
    ensures kept { content_of agent.new ≡ content_of agent.old }
{
    *written = 0;
    let Some((shell, inner)) = take_agent(alloc, agent) else {
        return Err(Code::Empty);
    };
    let (inner, answer) = inner.answer(alloc);
    put_agent(agent, shell, inner);
    let Some(text) = answer? else {
        return Err(Code::NoAnswer);
    };
    write(text.as_bytes(), out, written)
}

/// The numbers of a fire; each is 0 if the code doesn't set it.
#[repr(C)]
#[derive(Drop)]
pub struct Numbers {
    /// The number of the fired move.
    pub fired: u32,
    /// How many moves had been seen at the start of a busy call.
    pub from: u32,
    /// How many moves had been seen at its end.
    pub to: u32,
}

impl Numbers {
    pub(crate) fn none() -> Numbers
        ensures { result ≡ no_numbers }
    {
        Numbers {
            fired: 0,
            from: 0,
            to: 0,
        }
    }
}

/// Return what a call answers for the fire's answer, and set the numbers.
pub(crate) fn report(answer: Result<Reply, FireError>, numbers: &mut Numbers) -> Result<(), Code>
    ensures { ReportsFire answer numbers.new result }
{
    *numbers = Numbers::none();
    match answer {
        Ok(Reply::Fired(number)) => {
            numbers.fired = number;
            Ok(())
        }
        Ok(Reply::Stale(_)) => Err(Code::Stale),
        Ok(Reply::Clash(_)) => Err(Code::Clash),
        Ok(Reply::Full) => Err(Code::Full),
        Err(FireError::ManyReads) => Err(Code::Many),
        Err(FireError::Busy { from, to }) => {
            *numbers = Numbers { fired: 0, from, to };
            Err(Code::Busy)
        }
        Err(FireError::Memory) => Err(Code::Memory),
    }
}

fn fire_in(
    alloc: Global,
    agent: &mut OwnedAgent,
    call: &[u8],
    numbers: &mut Numbers,
) -> Result<(), Code>
    requires { numbers.old ≡ no_numbers }
    ensures { Fires call.now agent.old agent.new numbers.new result }
{
    let fire = held_fire(alloc, agent.state(), call)?;
    if agent.is_behind(fire.reads.as_slice()) {
        return Err(Code::Ahead);
    }
    expect_fire(alloc, fire.reads.as_slice(), fire.instrs.as_slice())?;
    report(agent.fire(alloc, fire.reads, fire.instrs), numbers)
}

/// Do what `asm_try_fire` does.
pub fn fire(alloc: Global, agent: &mut Slot, call: &[u8], numbers: &mut Numbers) -> Result<(), Code>
    ensures { TriesIn (Fires call.now) (content_of agent.old) (content_of agent.new) numbers.new result }
{
    *numbers = Numbers::none();
    lend!(inner: Agent = agent, Err(Code::Empty));
    fire_in(alloc, inner, call, numbers)
}

// Read the move of the one text, and the scans of the other.
fn fire_over_of(
    alloc: Global,
    state: &State,
    call: &[u8],
    scans: &[u8],
) -> Result<(Fire, Vec<Scanned>), Code>
    ensures ok { IfOk result (λ p. ReadAsFireOver call.now scans.now p.0.reads p.1.items p.0.instrs) }
    ensures err { IfErr result (AreMisread IsFireForm AreScans call.now scans.now) }
{
    let fire = held_fire(alloc, state, call)?;
    let scans = scans_of(alloc, scans)?;
    Ok((fire, scans))
}

fn fire_over_in(
    alloc: Global,
    agent: &mut OwnedAgent,
    call: &[u8],
    scans: &[u8],
    numbers: &mut Numbers,
) -> Result<(), Code>
    requires { numbers.old ≡ no_numbers }
    ensures { FiresOver call.now scans.now agent.old agent.new numbers.new result }
{
    let (fire, scans) = fire_over_of(alloc, agent.state(), call, scans)?;
    if agent.is_behind_over(fire.reads.as_slice(), &scans) {
        return Err(Code::Ahead);
    }
    expect_fire(alloc, fire.reads.as_slice(), fire.instrs.as_slice())?;
    report(
        agent.fire_over(alloc, fire.reads, &scans, fire.instrs),
        numbers,
    )
}

/// Do what `asm_try_fire_over` does.
pub fn fire_over(
    alloc: Global,
    agent: &mut Slot,
    call: &[u8],
    scans: &[u8],
    numbers: &mut Numbers,
) -> Result<(), Code>
    ensures { TriesIn (FiresOver call.now scans.now) (content_of agent.old) (content_of agent.new) numbers.new result }
{
    *numbers = Numbers::none();
    lend!(inner: Agent = agent, Err(Code::Empty));
    fire_over_in(alloc, inner, call, scans, numbers)
}
