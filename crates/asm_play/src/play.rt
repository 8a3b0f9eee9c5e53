//! Playing a script: its agents on one storage, each on a thread of its own.
ghost use Rattle.std.specs.Prelude.{◌≡◌, ◌≢◌, ◌↔◌, ◌≤◌, ◌<◌, ◌⊎◌, List, [], All, IfOk, IfErr, IsErrOf, get_or, length};
ghost use Rattle.std.specs.Prelude.{map, vec_len};
ghost use Rattle.std.specs.List.{range_with_len};
ghost use Rattle.asm_storage.specs.Limits.{agents_limit};
ghost use Rattle.asm_storage.specs.Storage.{accounts, at_start};
ghost use Rattle.asm_row.specs.Limits.{IsNoCapacity};
ghost use Rattle.asm_play.specs.Ends.{outcome_in, terms_in};
ghost use Rattle.asm_play.specs.Play.{IsPlayOf, IsPlayWithTerms};
ghost use Rattle.asm_play.specs.declared.step_end.StepEnd.{StepEnd};
ghost use Rattle.asm_play.specs.AgentPlay.{Plays};
ghost use Rattle.asm_aggregate.specs.Standard.{standard_meaning};
ghost use Rattle.asm_play.specs.PlayedAgents.{steps_at, run_error_of_close, ArePlayed, IsNotClosed};
ghost use Rattle.asm_play.specs.Jobs.{GivesEach, IsUndone};
ghost use Rattle.asm_play.specs.declared.outcome.RunError.TheVariants as run_error;

use crate::aggregator::script_aggregator;
use crate::gate::{Gate, GatePassage, Passage};
use crate::outcome::{Outcome, Played, PlayedWithTerms, RunError, StepTerm};
use crate::player::{PlayedAgent, Player};
use crate::step_end::agent_ends;
use crate::workers;
use crate::workers::Task;
use asm_aggregate::Standard;
use asm_element::Items;
use asm_row::CAPACITY_LIMIT;
use asm_script::{Script, Step};
use asm_storage::{Agent, CloseError, Storage};
use asm_update::Aggregator;
use std::alloc::{AllocError, Global};
use std::marker::Sync;
use std::sync::Wait;
use std::thread::Threads;

impl From<CloseError> for RunError {
    ghost from_gives = { λ e r. r ≡ run_error_of_close e };

    fn from(error: CloseError) -> RunError {
        match error {
            CloseError::Missing(number) => RunError::Missing(number),
            CloseError::Memory => RunError::Memory,
        }
    }
}

// The steps of agents, by their numbers. A trait, since the goal that a task is `Sync` is proved from bounds of type
// parameters, and isn't found for a gate beside a slice of steps.
trait Scripted {
    ghost use Rattle.asm_script.specs.declared.step.Step.{Step};

    ghost steps: { Self → List (List Step) };

    fn of(&self, id: usize) -> &[Step]
        ensures { result.now ≡ get_or (steps self.now) id [] };
}

// The steps as they are written in a script.
struct WrittenSteps<'p>(&'p [Items<Step>]);

impl<'p> Scripted for WrittenSteps<'p> {
    ghost steps = { λ w. w.0.now };

    fn of(&self, id: usize) -> &[Step] {
        match self.0.get(id) {
            Some(steps) => steps.as_slice(),
            None => &[],
        }
    }
}

// Plays each agent with the steps at its number.
struct Playing<'a, P, S> {
    player: Player<'a, Standard, P>,
    scripted: S,
}

impl<'a, 's, P: Passage + Sync, S: Scripted + Sync> Task<
    Agent<'s, Standard>,
    PlayedAgent<'s, Standard>,
> for Playing<'a, P, S> {
    ghost use Rattle.asm_play.specs.AgentPlay.{Plays};
    ghost use Rattle.asm_play.specs.PlayedAgents.{steps_at};

    ghost gives = { λ p a t. Plays (⟦<Standard as Aggregator>⟧.meaning)
        (⟦<Standard as Aggregator>⟧.meaning p.player.aggregator.now) a t.agent
        (steps_at (S.steps p.scripted) a) t.ends.items };

    fn run<R: Wait>(
        &self,
        rt: &R,
        agent: Agent<'s, Standard>,
    ) -> Result<PlayedAgent<'s, Standard>, AllocError> {
        let steps = self.scripted.of(agent.id() as usize);
        self.player.play(rt, agent, steps)
    }
}

// Proof: plays each agent on a thread of its own. The steps are a type parameter here, for the goal that `each` asks
// for a task that is `Sync`.
fn play_agents<'s, 'a, R: Threads + Wait + Sync, P: Passage + Sync, S: Scripted + Sync>(
    rt: &R,
    alloc: Global,
    playing: &Playing<'a, P, S>,
    agents: Vec<Agent<'s, Standard>>,
) -> Result<Vec<PlayedAgent<'s, Standard>>, RunError>
    ensures played { IfOk result (λ played. GivesEach (λ a t. Plays (⟦<Standard as Aggregator>⟧.meaning)
        (⟦<Standard as Aggregator>⟧.meaning playing.now.player.aggregator.now) a t.agent
        (steps_at (S.steps playing.now.scripted) a) t.ends.items) agents.entry.items played.items) }
    ensures error { IfErr result IsUndone }
    ensures threads { IsErrOf result run_error.NoThread → 2 ≤ vec_len agents.entry }
{
    workers::each(rt, alloc, playing, agents)
}

// Plays each agent, on a thread of its own, with the steps at its number in the script. Proof: it is separate from
// `play_agents` for the goal `play_agents-requires-sync-S`: that the steps of a script are `Sync`.
fn play_script_agents<'s, 'a, 'p, R: Threads + Wait + Sync, P: Passage + Sync>(
    rt: &R,
    alloc: Global,
    playing: &Playing<'a, P, WrittenSteps<'p>>,
    agents: Vec<Agent<'s, Standard>>,
) -> Result<Vec<PlayedAgent<'s, Standard>>, RunError>
    ensures played { IfOk result (λ played. GivesEach (λ a t. Plays (⟦<Standard as Aggregator>⟧.meaning)
        (⟦<Standard as Aggregator>⟧.meaning playing.now.player.aggregator.now) a t.agent
        (steps_at playing.now.scripted.0.now a) t.ends.items) agents.entry.items played.items) }
    ensures error { IfErr result IsUndone }
    ensures threads { IsErrOf result run_error.NoThread → 2 ≤ vec_len agents.entry }
{
    play_agents(rt, alloc, playing, agents)
}

// The storage that the script opens. The capacity is tested before any memory is asked for.
fn opened(alloc: Global, script: &Script, capacity: u32) -> Result<Storage<Standard>, RunError>
    ensures meaning { IfOk result (λ s. ⟦<Standard as Aggregator>⟧.meaning s.agg ≡ standard_meaning) }
    ensures init { IfOk result (λ s. s.init ≡ script.now.init) }
    ensures capacity { IfOk result (λ s. length s.row ≡ capacity) }
    ensures bad { IsErrOf result RunError.BadCapacity ↔ IsNoCapacity capacity }
    ensures error { IfErr result (λ e. (e ≡ RunError.BadCapacity) ⊎ (e ≡ RunError.Memory)) }
{
    if capacity == 0 || CAPACITY_LIMIT < capacity {
        return Err(RunError::BadCapacity);
    }
    let init = script.share_init()?;
    match Storage::over(alloc, script_aggregator(), init, capacity) {
        Ok(storage) => Ok(storage),
        Err(_) => Err(RunError::Memory),
    }
}

// So many agents of the storage, which may be none.
fn agents_of<'s>(
    alloc: Global,
    storage: &'s Storage<Standard>,
    count: usize,
) -> Result<Vec<Agent<'s, Standard>>, AllocError>
    requires { count ≤ agents_limit }
    ensures { IfOk result (λ agents. agents.items ≡ map (at_start storage.now) (range_with_len 0 count)) }
{
    if count == 0 {
        return Ok(Vec::new(alloc));
    }
    match storage.agents(alloc, count as u32) {
        Ok(agents) => Ok(agents),
        Err(_) => Err(AllocError),
    }
}

// The agents that played, and the outcomes of their steps.
#[derive(Drop)]
struct Ended<'s> {
    agents: Vec<Agent<'s, Standard>>,
    outcomes: Vec<Items<Outcome>>,
    terms: Vec<Items<StepTerm>>,
}

fn split_ends<'s>(
    alloc: Global,
    played_agents: Vec<PlayedAgent<'s, Standard>>,
) -> Result<Ended<'s>, AllocError>
    ensures agents { IfOk result (λ e. e.agents.items ≡ map (λ t. t.agent) played_agents.entry.items) }
    ensures outcomes { IfOk result (λ e.
        e.outcomes.items ≡ map (λ t. map outcome_in t.ends.items) played_agents.entry.items) }
    ensures terms { IfOk result (λ e. e.terms.items ≡ map (λ t. terms_in t.ends.items) played_agents.entry.items) }
{
    let mut agents = Vec::new(alloc);
    let mut outcomes = Vec::new(alloc);
    let mut terms = Vec::new(alloc);
    for played in played_agents {
        let PlayedAgent { agent, ends } = played;
        agents.push(agent)?;
        let reported = agent_ends(alloc, ends)?;
        outcomes.push(Items::new(reported.outcomes))?;
        terms.push(Items::new(reported.terms))?;
    }
    Ok(Ended {
        agents,
        outcomes,
        terms,
    })
}

// The result of playing: the closed history of the agents, and the outcomes of their steps.
fn closed<'s>(
    alloc: Global,
    storage: &Storage<Standard>,
    script: &Script,
    ended: Ended<'s>,
) -> Result<PlayedWithTerms, RunError>
    requires meaning { ⟦<Standard as Aggregator>⟧.meaning storage.now.agg ≡ standard_meaning }
    requires init { storage.now.init ≡ script.now.init }
    requires agents { (ends : List (List StepEnd)) × ArePlayed (⟦<Standard as Aggregator>⟧.meaning) standard_meaning
        storage.now 0 script.now.agents ended.agents.items ends × (ended.outcomes.items ≡ map (map outcome_in) ends)
        × (ended.terms.items ≡ map terms_in ends) }
    ensures played { IfOk result (IsPlayWithTerms script.now (length storage.now.row)) }
    ensures later { IfErr result (λ e. e ≢ RunError.BadCapacity) }
    ensures missing { IfErr result (IsNotClosed (accounts ended.entry.agents.items)) }
{
    let Ended {
        agents,
        outcomes,
        terms,
    } = ended;
    match storage.close(alloc, agents.as_slice()) {
        Ok(history) => {
            // Proof: for the clause `played`, which is proved of what a program can hold.
            history.proper();
            Ok(PlayedWithTerms {
                played: Played {
                    history,
                    outcomes: Items::new(outcomes),
                },
                terms: Items::new(terms),
            })
        }
        Err(error) => Err(RunError::from(error)),
    }
}

// Plays the script on its storage.
fn play_on<R: Threads + Wait + Sync, G: Gate>(
    rt: &R,
    alloc: Global,
    storage: &Storage<Standard>,
    script: &Script,
    gate: &G,
) -> Result<PlayedWithTerms, RunError>
    requires meaning { ⟦<Standard as Aggregator>⟧.meaning storage.now.agg ≡ standard_meaning }
    requires init { storage.now.init ≡ script.now.init }
    ensures played { IfOk result (IsPlayWithTerms script.now (length storage.now.row)) }
    ensures later { IfErr result (λ e. e ≢ RunError.BadCapacity) }
    ensures threads { IsErrOf result RunError.NoThread → 2 ≤ length script.now.agents }
{
    let scripted = script.agents();
    let agents = agents_of(alloc, storage, scripted.len())?;
    let player = Player {
        alloc,
        aggregator: storage.aggregator(),
        passage: GatePassage(gate),
    };
    let playing = Playing {
        player,
        scripted: WrittenSteps(scripted),
    };
    let played = play_script_agents(rt, alloc, &playing, agents);
    let Playing {
        player: Player {
            alloc: _,
            aggregator: _,
            passage: GatePassage(_),
        },
        scripted: WrittenSteps(_),
    } = playing;
    let ended = split_ends(alloc, played?)?;
    closed(alloc, storage, script, ended)
}

/// Play the script on a storage, each agent on its own thread, behind the gate.
///
/// The storage is for at most `capacity` moves. The history is closed when all agents have ended.
///
/// # Errors
///
/// - `RunError::BadCapacity` before anything else, and exactly for a capacity outside 1 to 1,048,576.
/// - `NoThread` if a thread for an agent couldn't be started, after the agents that were started have ended, and before
///   `Memory`.
/// - `Memory` only if memory is refused.
/// - `Missing` if the agents' receipts don't close.
pub fn run_script<R: Threads + Wait + Sync, G: Gate>(
    rt: &R,
    alloc: Global,
    script: &Script,
    capacity: u32,
    gate: &G,
) -> Result<Played, RunError>
    ensures capacity { IsErrOf result RunError.BadCapacity ↔ IsNoCapacity capacity }
    ensures played { IfOk result (IsPlayOf script.now capacity) }
    ensures agents { IfOk result (λ p. All (λ e. e.agent < length script.now.agents) p.history.events) }
    ensures threads { IsErrOf result RunError.NoThread → 2 ≤ length script.now.agents }
{
    match run_script_with_terms(rt, alloc, script, capacity, gate) {
        Ok(PlayedWithTerms { played, terms: _ }) => Ok(played),
        Err(error) => Err(error),
    }
}

/// Play the script as `run_script` does, and report the terms that had no value.
///
/// # Errors
///
/// - As `run_script`.
pub fn run_script_with_terms<R: Threads + Wait + Sync, G: Gate>(
    rt: &R,
    alloc: Global,
    script: &Script,
    capacity: u32,
    gate: &G,
) -> Result<PlayedWithTerms, RunError>
    ensures capacity { IsErrOf result RunError.BadCapacity ↔ IsNoCapacity capacity }
    ensures played { IfOk result (IsPlayWithTerms script.now capacity) }
    ensures threads { IsErrOf result RunError.NoThread → 2 ≤ length script.now.agents }
{
    let storage = opened(alloc, script, capacity)?;
    play_on(rt, alloc, &storage, script, gate)
}
