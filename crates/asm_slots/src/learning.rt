//! What an agent learns and takes from another of its storage.
ghost use Rattle.std.specs.Prelude.{◌≡◌, MatchResult, OnErr};
ghost use Rattle.asm_slots.specs.AgentCalls.{Learns};
ghost use Rattle.asm_slots.specs.Answers.{AreNotTwo};
ghost use Rattle.asm_slots.specs.OwnState.{TakesState};
ghost use Rattle.asm_slots.specs.Slots.{AreOfOneStorage, content_of};

use crate::codes::Code;
use crate::slot::Slot;
use crate::take_and_put::{TwoAgents, put_agent, take_agents};
use std::alloc::Global;

/// Do what `asm_learn` does.
pub fn learn(alloc: Global, agent: &mut Slot, other: &mut Slot) -> Result<(), Code>
    requires { AreOfOneStorage (content_of agent.old) (content_of other.old) }
    ensures answers { MatchResult result (λ done. Learns (content_of other.old) (content_of agent.old) (content_of agent.new))
        (AreNotTwo (content_of agent.old) (content_of other.old)) }
    ensures theirs { content_of other.new ≡ content_of other.old }
    ensures kept { OnErr result (content_of agent.new ≡ content_of agent.old) }
{
    let both = take_agents(alloc, agent, other)?;
    let (theirs, mark) = both.other.mark(alloc);
    put_agent(other, both.other_shell, theirs);
    put_agent(agent, both.shell, both.agent.learn(alloc, &mark));
    Ok(())
}

/// Do what `asm_take_state` does.
pub fn take_state(alloc: Global, agent: &mut Slot, other: &mut Slot) -> Result<(), Code>
    requires { AreOfOneStorage (content_of agent.old) (content_of other.old) }
    ensures answers { MatchResult result
        (λ done. TakesState (content_of agent.old) (content_of other.old) (content_of agent.new) (content_of other.new))
        (AreNotTwo (content_of agent.old) (content_of other.old)) }
    ensures kept { OnErr result (content_of agent.new ≡ content_of agent.old) }
    ensures theirs { OnErr result (content_of other.new ≡ content_of other.old) }
{
    let mut both = take_agents(alloc, agent, other)?;
    both.agent.take_state(&mut both.other);
    let TwoAgents {
        shell,
        agent: inner,
        other_shell,
        other: theirs,
    } = both;
    put_agent(other, other_shell, theirs);
    put_agent(agent, shell, inner);
    Ok(())
}
