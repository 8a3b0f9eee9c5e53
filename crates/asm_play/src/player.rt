//! Playing the steps of one agent.
ghost use Rattle.std.specs.Prelude.{◌≡◌, ◌≤◌, length, IfOk};
ghost use Rattle.asm_update.specs.Aggregator.{AggregatorLaws};
ghost use Rattle.asm_play.specs.AgentPlay.{Plays};
ghost use Rattle.asm_script.specs.Sequencing.{IsStepMove};
ghost use Rattle.asm_script.specs.StepReads.{AreReads};
ghost use Rattle.asm_storage.specs.Limits.{reads_limit};
ghost use Rattle.asm_play.specs.Trying.{names_of, end_of as end_of_reply, read_value, HasRead, HasTried, IsEndOf, IsTry, IsStepPlayed};

use crate::gate::Passage;
use crate::read_values::ReadValues;
use crate::step_end::StepEnd;
use asm_element::{Items, Location};
use asm_script::{Step, StepFault, step_move};
use asm_state::Named;
use asm_storage::{Agent, FireError, READS_LIMIT, ReadError, Reading, Reply};
use asm_update::{Aggregator, Instructions};
use std::alloc::{AllocError, Global};
use std::sync::Wait;
use std::thread;

/// The most tries of a step.
const TRIES_LIMIT: u32 = 1001;

/// The most times that an agent yields to other threads before it retries a step.
const PAUSES_LIMIT: u32 = 64;

/// An agent after its steps were played, and how each ended.
#[derive(Drop)]
pub struct PlayedAgent<'s, A: Aggregator + Sync + Drop> {
    /// The agent.
    pub agent: Agent<'s, A>,
    /// How its steps ended, in order.
    pub ends: Vec<StepEnd>,
}

/// Plays the steps of one agent behind a passage.
pub struct Player<'a, A, P> {
    /// The allocator.
    pub alloc: Global,
    /// The aggregator that composes the blocks of a step.
    ///
    /// It must have the same meaning as the storage's.
    pub aggregator: &'a A,
    /// What is called before and after each call of the agent.
    pub passage: P,
}

// Each location that was read, with the number at which it was read.
fn names(alloc: Global, reading: &Option<Reading>) -> Result<Vec<Named>, AllocError>
    ensures { IfOk result (λ names. names.items ≡ names_of reading.now) }
{
    let mut names = Vec::new(alloc);
    let Some(reading) = reading else {
        return Ok(names);
    };
    for i in 0..reading.len() {
        names.push(reading.named(alloc, i)?)?;
    }
    Ok(names)
}

// How a step ended whose fire was answered by this reply; `None` means: retry.
fn end_of(reply: Option<Reply>) -> Option<StepEnd>
    ensures { result ≡ end_of_reply reply }
{
    match reply? {
        Reply::Fired(number) => Some(StepEnd::Fired(number)),
        Reply::Clash(clash) => Some(StepEnd::Clash(clash)),
        Reply::Full => Some(StepEnd::Full),
        Reply::Stale(_) => None,
    }
}

// How a step ended that has no move.
fn stopped(fault: StepFault) -> Result<StepEnd, AllocError>
    ensures { IfOk result (IsEndOf fault) }
{
    match fault {
        StepFault::Term(term) => Ok(StepEnd::Term(term)),
        StepFault::Clash(clash) => Ok(StepEnd::Clash(clash)),
        StepFault::Large(at) => Ok(StepEnd::Large(at)),
        StepFault::Many => Ok(StepEnd::Many),
        StepFault::Memory => Err(AllocError),
    }
}

// Lets other threads run, longer with each further try in vain: tries that follow at once would each meet the next fire
// of the same agent, and the step would be given up within a few milliseconds.
fn pause(tried: u32) {
    for _ in 0..tried.min(PAUSES_LIMIT) {
        thread::yield_now();
    }
}

// The step's move on what was read. Proof: the clause `laws` is for `one_try`: the prover has the laws of a bound in no
// function that may wait.
fn move_of<A: Aggregator>(
    alloc: Global,
    aggregator: &A,
    step: &Step,
    reading: &Option<Reading>,
) -> Result<Instructions, StepFault>
    ensures stands { IsStepMove (A.meaning aggregator.now) (read_value reading.now) step.now result }
    ensures laws { (a : A) → AggregatorLaws (A.meaning a) }
{
    let reading = reading.as_ref();
    step_move(alloc, aggregator, step, &ReadValues { reading })
}

impl<'a, A: Aggregator + Sync + Drop, P: Passage> Player<'a, A, P> {
    // One read of the locations, if there are any.
    fn read<'s, R: Wait>(
        &self,
        rt: &R,
        agent: &mut Agent<'s, A>,
        calls: &mut u64,
        places: &[Location],
    ) -> Result<Option<Reading>, AllocError>
        requires { length places.now ≤ reads_limit }
        ensures { IfOk result (HasRead A.meaning agent.old agent.new places.now) }
    {
        if places.is_empty() {
            return Ok(None);
        }
        self.passage.enter(rt, agent.id(), *calls);
        let answer = agent.read(self.alloc, places);
        self.passage.leave(rt, agent.id(), *calls);
        *calls = calls.saturating_add(1);
        match answer {
            Ok(reading) => Ok(Some(reading)),
            Err(ReadError::ManyLocations) => unreachable!(),
            Err(ReadError::Memory) => Err(AllocError),
        }
    }

    // One fire of the move; `None` if its attempts were lost.
    fn fire<'s, R: Wait>(
        &self,
        rt: &R,
        agent: &mut Agent<'s, A>,
        calls: &mut u64,
        reads: &Items<Named>,
        instrs: &Instructions,
    ) -> Result<Option<Reply>, AllocError>
        requires { length reads.now ≤ reads_limit }
        ensures { IfOk result (HasTried A.meaning agent.old agent.new reads.now instrs.now) }
    {
        self.passage.enter(rt, agent.id(), *calls);
        let passage = &self.passage;
        let answer = agent.try_fire_shared_with(
            self.alloc,
            reads,
            instrs,
            &mut || passage.before_attempt(),
        );
        self.passage.leave(rt, agent.id(), *calls);
        *calls = calls.saturating_add(1);
        match answer {
            Ok(reply) => Ok(Some(reply)),
            Err(FireError::Busy { .. }) => Ok(None),
            Err(FireError::ManyReads) => unreachable!(),
            Err(FireError::Memory) => Err(AllocError),
        }
    }

    // One try of the step; `None` means: retry.
    fn one_try<'s, R: Wait>(
        &self,
        rt: &R,
        agent: &mut Agent<'s, A>,
        calls: &mut u64,
        step: &Step,
        places: &[Location],
    ) -> Result<Option<StepEnd>, AllocError>
        requires few { length places.now ≤ reads_limit }
        requires reads { AreReads step.now places.now }
        ensures { IfOk result (
            IsTry A.meaning (A.meaning self.now.aggregator.now) agent.old agent.new step.now places.now) }
    {
        let reading = self.read(rt, agent, calls, places)?;
        let instrs = match move_of(self.alloc, self.aggregator, step, &reading) {
            Ok(instrs) => instrs,
            Err(fault) => return Ok(Some(stopped(fault)?)),
        };
        let reads = Items::shared(self.alloc, names(self.alloc, &reading)?)?;
        let reply = self.fire(rt, agent, calls, &reads, &instrs)?;
        Ok(end_of(reply))
    }

    // Tries the step until it ends, at most 1,001 times.
    fn play_step<'s, R: Wait>(
        &self,
        rt: &R,
        agent: &mut Agent<'s, A>,
        calls: &mut u64,
        step: &Step,
    ) -> Result<StepEnd, AllocError>
        ensures { IfOk result (
            IsStepPlayed A.meaning (A.meaning self.now.aggregator.now) agent.old agent.new step.now) }
    {
        let places = step.reads();
        if places.len() > READS_LIMIT {
            return Ok(StepEnd::Many);
        }
        for tried in 0..TRIES_LIMIT {
            match self.one_try(rt, agent, calls, step, places)? {
                Some(end) => return Ok(end),
                None => pause(tried),
            }
        }
        Ok(StepEnd::GaveUp)
    }

    /// Play each of the steps, in order.
    ///
    /// # Errors
    ///
    /// - `AllocError` only if memory is refused.
    ///
    /// On error, the agent is dropped.
    pub fn play<'s, R: Wait>(
        &self,
        rt: &R,
        agent: Agent<'s, A>,
        steps: &[Step],
    ) -> Result<PlayedAgent<'s, A>, AllocError>
        ensures { IfOk result (λ t. Plays A.meaning (A.meaning self.now.aggregator.now)
            agent.entry t.agent steps.now t.ends.items) }
    {
        let mut agent = agent;
        let mut ends = Vec::new(self.alloc);
        let mut calls = 0;
        for step in steps {
            ends.push(self.play_step(rt, &mut agent, &mut calls, step)?)?;
        }
        Ok(PlayedAgent { agent, ends })
    }
}
