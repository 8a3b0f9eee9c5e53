//! Taking the content of slots out of them, in its box or without it, and putting it in again.
ghost use Rattle.std.specs.Prelude.{◌≡◌, IfErr, IfNone, IfOk, IfSome, None, OnErr, Some};
ghost use denote.Param.Send.{IsSend};
ghost use Rattle.asm_slots.specs.Answers.{AreNotTwo};
ghost use Rattle.asm_slots.specs.Slots.{AreOfOneStorage, Lacks, a_store, an_agent, content_of};
ghost use Rattle.asm_slots.specs.contracts.content.Content.{the_row as content_row};
ghost use Rattle.asm_slots.specs.declared.content.Content.TheVariants as content;

use crate::codes::Code;
use crate::content::Content;
use crate::owned_agent::OwnedAgent;
use crate::shared::are_one;
use crate::slot::Slot;
use crate::store::Store;
use std::alloc::Global;

/// Take the box out of the slot, if the slot holds something.
pub(crate) fn take_shell(alloc: Global, slot: &mut Slot) -> Option<Box<Content>>
    ensures some { IfSome result (λ shell. content_of slot.old ≡ Some shell.value) }
    ensures none { IfNone result (content_of slot.new ≡ content_of slot.old) }
    ensures empty { IfNone result (content_of slot.old ≡ None) }
{
    std::mem::replace(slot, Slot::empty(alloc)).into_box()
}

/// Put the box into the slot.
pub(crate) fn put_shell(slot: &mut Slot, shell: Box<Content>)
    ensures { content_of slot.new ≡ Some shell.value }
{
    *slot = Slot::holding(shell);
}

/// Take the agent and its box out of the slot, if it holds an agent.
///
/// Else the slot is unchanged.
pub(crate) fn take_agent(alloc: Global, slot: &mut Slot) -> Option<(Box<Content>, OwnedAgent)>
    ensures some { IfSome result (λ p. content_of slot.old ≡ Some (content.Agent p.1)) }
    ensures none { IfNone result (content_of slot.new ≡ content_of slot.old) }
    ensures other { IfNone result (Lacks an_agent (content_of slot.old)) }
{
    let mut shell = take_shell(alloc, slot)?;
    match std::mem::replace(&mut *shell, Content::Nothing) {
        Content::Agent(agent) => Some((shell, agent)),
        other => {
            *shell = other;
            put_shell(slot, shell);
            None
        }
    }
}

/// Put the agent into the slot, in its box.
pub(crate) fn put_agent(slot: &mut Slot, mut shell: Box<Content>, agent: OwnedAgent)
    ensures { content_of slot.new ≡ Some (content.Agent agent) }
{
    *shell = Content::Agent(agent);
    put_shell(slot, shell);
}

/// Two agents of one storage and their boxes, taken out of their slots.
#[derive(Drop)]
pub(crate) struct TwoAgents {
    pub(crate) shell: Box<Content>,
    pub(crate) agent: OwnedAgent,
    pub(crate) other_shell: Box<Content>,
    pub(crate) other: OwnedAgent,
}

/// Take the agents of two slots and their boxes out of them.
///
/// On error, both slots are unchanged.
///
/// # Errors
///
/// - `ASM_EMPTY`: one of the slots has no agent.
/// - `ASM_OTHER`: `are_one` reports that the agents are of two storages.
pub(crate) fn take_agents(
    alloc: Global,
    agent: &mut Slot,
    other: &mut Slot,
) -> Result<TwoAgents, Code>
    requires { AreOfOneStorage (content_of agent.old) (content_of other.old) }
    ensures agent { IfOk result (λ both. content_of agent.old ≡ Some (content.Agent both.agent)) }
    ensures other { IfOk result (λ both. content_of other.old ≡ Some (content.Agent both.other)) }
    ensures one { IfOk result (λ both. both.agent.storage ≡ both.other.storage) }
    ensures kept { OnErr result (content_of agent.new ≡ content_of agent.old) }
    ensures theirs { OnErr result (content_of other.new ≡ content_of other.old) }
    ensures err { IfErr result (AreNotTwo (content_of agent.old) (content_of other.old)) }
{
    let Some((other_shell, theirs)) = take_agent(alloc, other) else {
        return Err(Code::Empty);
    };
    let Some((shell, inner)) = take_agent(alloc, agent) else {
        put_agent(other, other_shell, theirs);
        return Err(Code::Empty);
    };
    if !are_one(theirs.shared(), inner.shared()) {
        put_agent(other, other_shell, theirs);
        put_agent(agent, shell, inner);
        return Err(Code::Other);
    }
    Ok(TwoAgents {
        shell,
        agent: inner,
        other_shell,
        other: theirs,
    })
}

/// Take the storage and its box out of the slot, if it holds a storage.
///
/// Else the slot is unchanged.
pub(crate) fn take_store(alloc: Global, slot: &mut Slot) -> Option<(Box<Content>, Store)>
    ensures some { IfSome result (λ p. content_of slot.old ≡ Some (content.Store p.1)) }
    ensures none { IfNone result (content_of slot.new ≡ content_of slot.old) }
    ensures other { IfNone result (Lacks a_store (content_of slot.old)) }
{
    let mut shell = take_shell(alloc, slot)?;
    match std::mem::replace(&mut *shell, Content::Nothing) {
        Content::Store(store) => Some((shell, store)),
        other => {
            *shell = other;
            put_shell(slot, shell);
            None
        }
    }
}

/// Put the storage into the slot, in its box.
pub(crate) fn put_store(slot: &mut Slot, mut shell: Box<Content>, store: Store)
    ensures { content_of slot.new ≡ Some (content.Store store) }
{
    *shell = Content::Store(store);
    put_shell(slot, shell);
}

/// Borrow what the slot holds of this kind, in place, for the rest of the block.
///
/// Without it, the caller returns `$none`.
// Proof: what is lent must not leave the block, or nothing is known of the slot afterwards.
#[macro_export]
macro_rules! lend {
    ($inner:ident: $kind:ident = $slot:ident, $none:expr) => {
        let Some(held) = $slot.as_mut() else {
            return $none;
        };
        let $crate::Content::$kind($inner) = held else {
            return $none;
        };
    };
}

// Proof: no goal needs this claim, which can only be proved at a function: the content of a slot may be sent to another
// thread.
pub(crate) fn may_cross(_content: &Content)
    ensures { IsSend content_row }
{}
