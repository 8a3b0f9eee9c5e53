//! What an agent has seen and counted, and what it learns and takes from another.
ghost use Rattle.std.specs.Prelude.{◌≡◌, ◌≢◌, length};
ghost use Rattle.asm_slots.specs.AgentCalls.{Learns};
ghost use Rattle.asm_slots.specs.Answers.{AreNotTwo};
ghost use Rattle.asm_slots.specs.Codes.{ASM_DONE, Answers};
ghost use Rattle.asm_slots.specs.OwnState.{TakesState};
ghost use Rattle.asm_slots.specs.Slots.{AreOfOneStorage, IfHolds, Lacks, an_agent, content_of};

use asm_slots::learning::{learn, take_state};
use asm_slots::{Slot, answer, lend};
use std::alloc::Global;

/// Return how many moves the agent has seen; 0 for a slot without an agent.
#[unsafe(no_mangle)]
pub extern "C" fn asm_seen(alloc: Global, agent: &mut Slot) -> u32
    ensures kept { content_of agent.new ≡ content_of agent.old }
    ensures value { IfHolds an_agent (content_of agent.old) (λ a. result ≡ length a.account.seen) }
    ensures none { Lacks an_agent (content_of agent.old) → result ≡ 0 }
{
    lend!(inner: Agent = agent, 0);
    inner.seen()
}

/// Return how many moves the agent fired; 0 for a slot without an agent.
#[unsafe(no_mangle)]
pub extern "C" fn asm_won(alloc: Global, agent: &mut Slot) -> u32
    ensures kept { content_of agent.new ≡ content_of agent.old }
    ensures value { IfHolds an_agent (content_of agent.old) (λ a. result ≡ a.account.won) }
    ensures none { Lacks an_agent (content_of agent.old) → result ≡ 0 }
{
    lend!(inner: Agent = agent, 0);
    inner.won()
}

/// Return how many of the agent's polls found no further move.
/// It returns 0 for a slot without an agent.
#[unsafe(no_mangle)]
pub extern "C" fn asm_misses(alloc: Global, agent: &mut Slot) -> u64
    ensures kept { content_of agent.new ≡ content_of agent.old }
    ensures value { IfHolds an_agent (content_of agent.old) (λ a. result ≡ a.misses) }
    ensures none { Lacks an_agent (content_of agent.old) → result ≡ 0 }
{
    lend!(inner: Agent = agent, 0);
    inner.misses()
}

/// Take in what the other agent of the same storage has seen, without polling.
/// So what the agent is answered from then on comes after all that the other was answered before. The other slot is
/// unchanged; on error, both are.
///
/// The caller must pass agents of one storage. `ASM_OTHER` reports a mistake, except possibly while other threads are
/// in `asm_learn`, `asm_take_state` or `asm_give` on both storages.
///
/// # Errors
/// - `ASM_EMPTY`: one of the slots has no agent, or the two are one.
/// - `ASM_OTHER`: the agents are of two storages.
#[unsafe(no_mangle)]
pub extern "C" fn asm_learn(alloc: Global, agent: &mut Slot, other: &mut Slot) -> i32
    requires { AreOfOneStorage (content_of agent.old) (content_of other.old) }
    ensures answers { Answers result (Learns (content_of other.old) (content_of agent.old) (content_of agent.new))
        (AreNotTwo (content_of agent.old) (content_of other.old)) }
    ensures theirs { content_of other.new ≡ content_of other.old }
    ensures kept { result ≢ ASM_DONE → content_of agent.new ≡ content_of agent.old }
{
    answer(learn(alloc, agent, other))
}

/// Take in what the other agent has seen, and take its state if that is newer.
/// The two agents are of one storage, and exchange their states if the other's is at more moves. So agents that one
/// thread plays by turns follow each move about once: the one that is about to act takes the state of the one that
/// acted last. The call doesn't poll and takes no memory; the receipts and counts of both are unchanged. A step of
/// either agent is `ASM_MOVED` while that agent's state is at another number than the step. On error, both slots are
/// unchanged.
///
/// The caller must pass agents of one storage, as to `asm_learn`.
///
/// # Errors
/// - `ASM_EMPTY`: one of the slots has no agent, or the two are one.
/// - `ASM_OTHER`: the agents are of two storages.
#[unsafe(no_mangle)]
pub extern "C" fn asm_take_state(alloc: Global, agent: &mut Slot, other: &mut Slot) -> i32
    requires { AreOfOneStorage (content_of agent.old) (content_of other.old) }
    ensures answers { Answers result
        (TakesState (content_of agent.old) (content_of other.old) (content_of agent.new) (content_of other.new))
        (AreNotTwo (content_of agent.old) (content_of other.old)) }
    ensures kept { result ≢ ASM_DONE → content_of agent.new ≡ content_of agent.old }
    ensures theirs { result ≢ ASM_DONE → content_of other.new ≡ content_of other.old }
{
    answer(take_state(alloc, agent, other))
}
