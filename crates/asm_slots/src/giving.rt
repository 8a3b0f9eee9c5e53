//! Returning agents to their storage, checking them out again, and closing them into a journal.
ghost use Rattle.std.specs.Prelude.{◌≡◌, ◌≢◌, None, Some, ◌<◌, ◌≤◌, All, IfNone, IfSome, IfErr, OnOk, length};
ghost use Rattle.std.specs.Prelude.{map, slice_get, take, IfOk, MatchResult, OnErr};
ghost use Rattle.std.specs.List.Sorted.{IsStrictlyIncreasing};
ghost use Rattle.asm_storage.specs.Part.{agent_of, IsPartOf};
ghost use Rattle.asm_storage.specs.declared.part.AgentPart.{AgentPart};
ghost use Rattle.asm_slots.specs.Answers.{EmptyOr};
ghost use Rattle.asm_slots.specs.WrittenText.{IsWritten};
ghost use Rattle.asm_slots.specs.AgentCalls.{Gives, HasClosed, HasLost, HasTaken};
ghost use Rattle.asm_slots.specs.ClosedStore.{IsNotClosed};
ghost use Rattle.asm_slots.specs.InsertPoint.{IsInsertPoint, IsAmong};
ghost use Rattle.asm_slots.specs.MadeAgents.{IsNotAdded, IsNotGiven, IsNotReturned, TakesAgent, TakesNoAgent};
ghost use Rattle.asm_slots.specs.Slots.{Changes, Holds, IsOfStore, Lacks, a_store, an_agent, content_of};
ghost use Rattle.asm_slots.specs.Standard.{meaning};

use crate::codes::{Code, write};
use crate::content::Content;
use crate::lend;
use crate::owned_agent::OwnedAgent;
use crate::shared::are_one;
use crate::slot::Slot;
use crate::store::Store;
use crate::store_close::Unclosed;
use crate::take_and_put::{put_agent, put_store, take_agent, take_store};
use asm_storage::AgentPart;
use asm_transaction::Transaction;
use std::alloc::Global;
use std::sync::Arc;

// Return how many of the parts, whose numbers ascend, have a number below this one.
fn below(parts: &[AgentPart], id: u32) -> usize
    ensures within { result ≤ length parts.now }
    ensures before { All (λ p. p.id < id) (take result parts.now) }
    ensures next { (p : AgentPart) → slice_get parts.now result ≡ Some p → id ≤ p.id }
{
    for (at, part) in parts.iter().enumerate() {
        if id <= part.id() {
            return at;
        }
    }
    parts.len()
}

// Return the index at which an agent with this number goes among the parts; `None` if one of them has the number.
fn insert_point(parts: &[AgentPart], id: u32) -> Option<usize>
    requires { IsStrictlyIncreasing (map (λ p. p.id) parts.now) }
    ensures some { IfSome result (IsInsertPoint parts.now id) }
    ensures none { IfNone result (IsAmong parts.now id) }
{
    let at = below(parts, id);
    if at < parts.len() && parts[at].id() == id {
        return None;
    }
    Some(at)
}

// Return the agent's part, without its share of the storage.
fn part_of(agent: OwnedAgent) -> AgentPart
    ensures agent { agent_of agent.storage result ≡ agent }
    ensures part { IsPartOf meaning agent.storage result }
{
    let OwnedAgent {
        shared: _,
        part,
        spare: _,
    } = agent;
    part
}

impl Store {
    // Add the agent to the returned ones, and discard the journal.
    //
    // On error, the storage is unchanged; the agent comes back with the code.
    fn give(&mut self, agent: OwnedAgent) -> Result<(), (Code, OwnedAgent)>
        requires { agent.storage ≡ self.old.storage }
        ensures given { OnOk result (HasTaken agent self.old self.new) }
        ensures err { IfErr result (λ p. IsNotAdded self.old agent p.0) }
        ensures back { IfErr result (λ p. p.1 ≡ agent) }
        ensures kept { OnErr result (self.new ≡ self.old) }
    {
        let id = agent.id();
        let Some(at) = insert_point(&self.parts, id) else {
            return Err((Code::Number, agent));
        };
        if self.parts.reserve(1).is_err() {
            return Err((Code::Memory, agent));
        }
        self.parts.insert(at, part_of(agent)).unwrap();
        self.journal = None;
        Ok(())
    }
}

/// Do what `asm_give` does.
#[tactic(auto, using(crate::proofs::Refused::not_given))]
pub fn give(alloc: Global, store: &mut Slot, agent: &mut Slot) -> Result<(), Code>
    requires { IsOfStore (content_of agent.old) (content_of store.old) }
    ensures answers { MatchResult result
        (λ done. Gives (content_of store.old) (content_of agent.old) (content_of store.new) × (content_of agent.new ≡ None))
        (IsNotGiven (content_of store.old) (content_of agent.old)) }
    ensures kept { OnErr result (content_of store.new ≡ content_of store.old) }
    ensures back { OnErr result (content_of agent.new ≡ content_of agent.old) }
{
    lend!(kept: Store = store, Err(Code::Empty));
    let Some((shell, inner)) = take_agent(alloc, agent) else {
        return Err(Code::Empty);
    };
    if !are_one(kept.shared(), inner.shared()) {
        put_agent(agent, shell, inner);
        return Err(Code::Other);
    }
    if let Err((code, inner)) = kept.give(inner) {
        put_agent(agent, shell, inner);
        return Err(code);
    }
    *agent = Slot::empty(alloc);
    Ok(())
}

// Return the index of the part with this number, if there is one.
fn place_of(parts: &[AgentPart], number: u32) -> Option<usize>
    ensures within { IfSome result (λ at. at < length parts.now) }
    ensures there { IfSome result (λ at. (p : AgentPart) → slice_get parts.now at ≡ Some p → p.id ≡ number) }
    ensures none { IfNone result (All (λ p. p.id ≢ number) parts.now) }
{
    for (at, part) in parts.iter().enumerate() {
        if part.id() == number {
            return Some(at);
        }
    }
    None
}

impl Store {
    /// Check out the returned agent with this number, in a slot's box.
    fn take_back(&mut self, alloc: Global, number: u32) -> Result<Box<Content>, Code>
        ensures lost { IfOk result (λ b. Holds an_agent (Some b.value) (λ a. HasLost a self.old self.new)) }
        ensures numbered { IfOk result (λ b. Holds an_agent (Some b.value) (λ a. a.account.id ≡ number)) }
        ensures err { IfErr result (IsNotReturned number self.old) }
        ensures kept { OnErr result (self.new ≡ self.old) }
    {
        let Some(at) = place_of(&self.parts, number) else {
            return Err(Code::NoAgent);
        };
        let Ok(shared) = Arc::try_clone(&self.shared) else {
            return Err(Code::Memory);
        };
        let Ok(mut made) = Box::new(alloc, Content::Nothing) else {
            return Err(Code::Memory);
        };
        let part = self.parts.remove(at);
        self.journal = None;
        let spare = Transaction::empty(alloc);
        *made = Content::Agent(OwnedAgent {
            shared,
            part,
            spare,
        });
        Ok(made)
    }
}

/// Do what `asm_take` does.
#[tactic(auto, using(crate::proofs::Refused::takes_none))]
pub fn check_out(alloc: Global, store: &mut Slot, number: u32, agent: &mut Slot) -> Result<(), Code>
    ensures answers { MatchResult result
        (λ done. TakesAgent number (content_of store.old) (content_of store.new) (content_of agent.old) (content_of agent.new))
        (TakesNoAgent number (content_of store.old) (content_of agent.old)) }
    ensures kept { OnErr result (content_of store.new ≡ content_of store.old) }
    ensures held { OnErr result (content_of agent.new ≡ content_of agent.old) }
{
    if agent.is_full() {
        return Err(Code::Taken);
    }
    lend!(kept: Store = store, Err(Code::Empty));
    *agent = Slot::holding(kept.take_back(alloc, number)?);
    Ok(())
}

/// Do what `asm_close` does.
pub fn close(alloc: Global, store: &mut Slot, number: &mut u32) -> Result<(), Code>
    ensures answers { MatchResult result (λ done. (number.new ≡ 0) × Changes a_store (content_of store.old) (content_of store.new) HasClosed)
        (IsNotClosed (content_of store.old) number.new) }
    ensures kept { OnErr result (content_of store.new ≡ content_of store.old) }
{
    *number = 0;
    let Some((shell, kept)) = take_store(alloc, store) else {
        return Err(Code::Empty);
    };
    let (kept, closed) = kept.close(alloc);
    put_store(store, shell, kept);
    let Err(error) = closed else {
        return Ok(());
    };
    match error {
        Unclosed::Missing(missing) => {
            *number = missing;
            Err(Code::Missing)
        }
        Unclosed::Large => Err(Code::ManyCalls),
        Unclosed::Memory => Err(Code::Memory),
    }
}

/// Do what `asm_moves` does.
pub fn moves(store: &mut Slot, moves: &mut u32) -> Result<(), Code>
    ensures counted { MatchResult result (λ done. Holds a_store (content_of store.old) (λ s. moves.new ≤ length s.storage.row))
        (λ c. (c ≡ Code.Empty) × Lacks a_store (content_of store.old) × (moves.new ≡ 0)) }
    ensures kept { content_of store.new ≡ content_of store.old }
{
    *moves = 0;
    lend!(kept: Store = store, Err(Code::Empty));
    *moves = kept.moves();
    Ok(())
}

/// Do what `asm_journal` does.
pub fn journal(store: &mut Slot, out: &mut [u8], written: &mut usize) -> Result<(), Code>
    ensures text { IsWritten (λ text. Holds a_store (content_of store.old) (λ s. s.journal ≡ Some text))
        (EmptyOr (Lacks a_store (content_of store.old)) (λ c. (c ≡ Code.NoJournal) × Holds a_store (content_of store.old) (λ s. s.journal ≡ None)))
        out.old out.new written.new result }
    ensures kept { content_of store.new ≡ content_of store.old }
{
    *written = 0;
    lend!(kept: Store = store, Err(Code::Empty));
    let Some(text) = kept.journal() else {
        return Err(Code::NoJournal);
    };
    write(text.as_bytes(), out, written)
}
