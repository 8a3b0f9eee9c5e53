//! Making agents of a storage, each number once.
ghost use Rattle.std.specs.Prelude.{◌≡◌, ◌+◌, ◌<◌, ◌≤◌, ◌∷◌, ◌++◌, [], length, vec_capacity};
ghost use Rattle.std.specs.Prelude.{IfOk, MatchResult, OnOk, OnErr, Some};
ghost use Rattle.std.specs.List.{range_with_len};
ghost use Rattle.std_alloc.specs.Arc.{arc_value};
ghost use Rattle.asm_storage.specs.Limits.{agents_limit};
ghost use Rattle.asm_storage.specs.Storage.{at_start};
ghost use Rattle.asm_slots.specs.AgentCalls.{HasMade};
ghost use Rattle.asm_slots.specs.MadeAgents.{MakesAgent, MakesAgents, MakesNoAgent, MakesNoAgents, is_any_below, was_any_made, was_made};
ghost use Rattle.asm_slots.specs.Slots.{AreEmpty, AreNew, Holds, an_agent, content_of};

use crate::codes::Code;
use crate::content::Content;
use crate::lend;
use crate::opening::{clear, is_any_full};
use crate::owned_agent::OwnedAgent;
use crate::shared::Shared;
use crate::slot::Slot;
use crate::store::Store;
use asm_storage::AGENTS_LIMIT;
use std::alloc::{AllocError, Global};
use std::sync::Arc;

fn agent_of(alloc: Global, shared: &Arc<Shared>, id: u32) -> Result<Box<Content>, AllocError>
    requires { id < agents_limit }
    ensures { IfOk result (λ b. Holds an_agent (Some b.value) (λ a. a ≡ at_start (arc_value shared.now).storage id)) }
{
    let agent = OwnedAgent::at_start(alloc, shared, id)?;
    Ok(Box::new(alloc, Content::Agent(agent))?)
}

// Return whether one of the numbers is below this one.
fn has_below(numbers: &[u32], count: u32) -> bool
    ensures { result ≡ is_any_below numbers.now count }
{
    numbers.iter().any(|number| *number < count)
}

// Make an agent in each of the slots, with the numbers from 0 up; without memory, empty them.
fn fill(alloc: Global, shared: &Arc<Shared>, agents: &mut [Slot]) -> Result<(), AllocError>
    requires { length agents.old ≤ agents_limit }
    ensures made { OnOk result (AreNew (arc_value shared.now).storage agents.new) }
    ensures none { OnErr result (AreEmpty agents.new) }
{
    for id in 0..agents.len() {
        let Ok(made) = agent_of(alloc, shared, id as u32) else {
            clear(alloc, agents);
            return Err(AllocError);
        };
        agents[id] = Slot::holding(made);
    }
    Ok(())
}

// Record the numbers from 0 up, in room that was reserved for them.
fn note(numbers: &mut Vec<u32>, count: u32)
    requires { length numbers.old.items + count ≤ vec_capacity numbers.old }
    ensures { numbers.new.items ≡ numbers.old.items ++ range_with_len 0 count }
{
    for id in 0..count {
        numbers.push(id).unwrap();
    }
}

impl Store {
    // Return whether an agent with this number was made.
    fn has_made(&self, id: u32) -> bool
        ensures { result ≡ was_made self.now id }
    {
        self.numbers.contains(&id)
    }

    // Return whether an agent with a number below this one was made.
    fn has_made_below(&self, count: u32) -> bool
        ensures { result ≡ was_any_made self.now count }
    {
        has_below(&self.numbers, count)
    }

    // Make an agent, and record its number.
    fn add_agent(&mut self, alloc: Global, id: u32) -> Result<Box<Content>, AllocError>
        requires { id < agents_limit }
        ensures agent { IfOk result (λ b. Holds an_agent (Some b.value) (λ a. a ≡ at_start self.old.storage id)) }
        ensures made { OnOk result (HasMade (id ∷ []) self.old self.new) }
        ensures kept { OnErr result (self.new ≡ self.old) }
    {
        self.numbers.reserve(1)?;
        let made = agent_of(alloc, &self.shared, id)?;
        self.numbers.push(id).unwrap();
        Ok(made)
    }

    // Make an agent in each of the empty slots, and record their numbers.
    fn add_agents(&mut self, alloc: Global, agents: &mut [Slot]) -> Result<(), AllocError>
        requires few { length agents.old ≤ agents_limit }
        requires empty { AreEmpty agents.old }
        ensures agents { OnOk result (AreNew self.old.storage agents.new) }
        ensures made { OnOk result (HasMade (range_with_len 0 (length agents.old)) self.old self.new) }
        ensures kept { OnErr result (self.new ≡ self.old) }
        ensures none { OnErr result (AreEmpty agents.new) }
    {
        let count = agents.len();
        self.numbers.reserve(count)?;
        fill(alloc, &self.shared, agents)?;
        note(&mut self.numbers, count as u32);
        Ok(())
    }
}

/// Do what `asm_agent` does.
pub fn make_agent(alloc: Global, store: &mut Slot, id: u32, agent: &mut Slot) -> Result<(), Code>
    ensures answers { MatchResult result
        (λ done. MakesAgent id (content_of store.old) (content_of store.new) (content_of agent.old) (content_of agent.new))
        (MakesNoAgent id (content_of store.old) (content_of agent.old)) }
    ensures kept { OnErr result (content_of store.new ≡ content_of store.old) }
    ensures held { OnErr result (content_of agent.new ≡ content_of agent.old) }
{
    if id >= AGENTS_LIMIT {
        return Err(Code::Agents);
    }
    if agent.is_full() {
        return Err(Code::Taken);
    }
    lend!(kept: Store = store, Err(Code::Empty));
    if kept.has_made(id) {
        return Err(Code::Number);
    }
    *agent = Slot::holding(kept.add_agent(alloc, id)?);
    Ok(())
}

/// Do what `asm_agents` does.
pub fn make_agents(alloc: Global, store: &mut Slot, agents: &mut [Slot]) -> Result<(), Code>
    ensures answers { MatchResult result (λ done. MakesAgents (content_of store.old) (content_of store.new) agents.old agents.new)
        (MakesNoAgents (content_of store.old) agents.old agents.new) }
    ensures kept { OnErr result (content_of store.new ≡ content_of store.old) }
{
    if agents.len() > AGENTS_LIMIT as usize {
        return Err(Code::Agents);
    }
    if is_any_full(agents) {
        return Err(Code::Taken);
    }
    lend!(kept: Store = store, Err(Code::Empty));
    if kept.has_made_below(agents.len() as u32) {
        return Err(Code::Number);
    }
    kept.add_agents(alloc, agents)?;
    Ok(())
}
