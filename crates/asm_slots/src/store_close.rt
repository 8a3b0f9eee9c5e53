//! Closing the returned agents into one journal.
#![tactic(auto, unfolding(asm_aggregate::specs::Standard::standard_meaning))]

ghost use Rattle.std.specs.Prelude.{◌≡◌, ◌≤◌, ◌+◌, [], All, length, map, vec_capacity, IfErr, IfOk, IfSome, IsNone, OnOk, OnErr};
ghost use Rattle.std.specs.List.Sorted.{IsStrictlyIncreasing};
ghost use Rattle.asm_storage.specs.Agents.{ids, most_seen};
ghost use Rattle.asm_storage.specs.History.{Fits};
ghost use Rattle.asm_storage.specs.Part.{agent_of, IsPartOf};
ghost use Rattle.asm_storage.specs.Storage.{IsOf, accounts};
ghost use Rattle.asm_journal.specs.Text.{text_of};
ghost use Rattle.asm_slots.specs.AgentCalls.{HasClosed};
ghost use Rattle.asm_slots.specs.ClosedStore.{IsJournalOf, IsUnclosed, HasNoJournal};
ghost use Rattle.asm_slots.specs.Standard.{meaning};

use crate::closed_journal::ClosedJournal;
use crate::store::Store;
use asm_aggregate::Standard;
use asm_storage::{Agent, AgentPart, CloseError, Closing, Storage};
use std::alloc::{AllocError, Global};

// Return the agents with these parts, in room that was reserved for them.
fn agents_of<'s>(
    storage: &'s Storage<Standard>,
    parts: Vec<AgentPart>,
    mut agents: Vec<Agent<'s, Standard>>,
) -> Vec<Agent<'s, Standard>>
    requires parts { All (IsPartOf meaning storage.now) parts.items }
    requires empty { agents.items ≡ [] }
    requires room { length parts.items ≤ vec_capacity agents }
    ensures { result.items ≡ map (agent_of storage.now) parts.items }
{
    for part in parts {
        agents.push(Agent::of(storage, part)).unwrap();
    }
    agents
}

// Return their parts again, in room that was reserved for them.
// Proof: only the contract needs the storage.
fn parts_of(
    storage: &Storage<Standard>,
    agents: Vec<Agent<'_, Standard>>,
    mut parts: Vec<AgentPart>,
) -> Vec<AgentPart>
    requires storage { All (IsOf storage.now) agents.items }
    requires empty { parts.items ≡ [] }
    requires room { length agents.items ≤ vec_capacity parts }
    ensures parts { All (IsPartOf meaning storage.now) result.items }
    ensures agents { map (agent_of storage.now) result.items ≡ agents.entry.items }
{
    for agent in agents {
        parts.push(agent.into_part()).unwrap();
    }
    parts
}

/// Why a storage wasn't closed.
#[derive(Drop)]
pub enum Unclosed {
    Missing(u32),
    Large,
    Memory,
}

// Return the most moves that one of the agents has seen.
fn most_seen(agents: &[Agent<'_, Standard>]) -> u32
    ensures { result ≡ most_seen (accounts agents.now) }
{
    let mut seen = 0;
    for agent in agents {
        seen = seen.max(agent.seen());
    }
    seen
}

// Return the number of the first of these moves after all that the agents have seen, if there is one.
fn unseen_move(moves: u32, agents: &[Agent<'_, Standard>]) -> Option<u32>
    ensures some { IfSome result (λ number. (number ≡ most_seen (accounts agents.now) + 1) × (number ≤ moves)) }
    ensures none { IsNone result → moves ≤ most_seen (accounts agents.now) }
{
    let seen = most_seen(agents);
    if moves <= seen {
        return None;
    }
    Some(seen + 1)
}

// Return the journal of the agents' history, unless the row has a move that none of them has seen.
fn written(
    alloc: Global,
    storage: &Storage<Standard>,
    agents: &[Agent<'_, Standard>],
    closing: &Closing<'_>,
) -> Result<ClosedJournal, Unclosed>
    ensures ok { IfOk result (λ journal. Fits closing.now × (journal ≡ text_of closing.now)) }
    ensures err { IfErr result (HasNoJournal storage.now agents.now closing.now) }
{
    if let Some(number) = unseen_move(storage.moves(), agents) {
        return Err(Unclosed::Missing(number));
    }
    if !closing.fits() {
        return Err(Unclosed::Large);
    }
    match ClosedJournal::of(alloc, closing) {
        Ok(journal) => Ok(journal),
        Err(AllocError) => Err(Unclosed::Memory),
    }
}

// Return the journal of the agents' history, unless a move has no receipt among them.
fn journal_of(
    alloc: Global,
    storage: &Storage<Standard>,
    agents: &[Agent<'_, Standard>],
) -> Result<ClosedJournal, Unclosed>
    requires of_this { All (IsOf storage.now) agents.now }
    requires ascending { IsStrictlyIncreasing (ids (accounts agents.now)) }
    ensures ok { IfOk result (IsJournalOf storage.now agents.now) }
    ensures err { IfErr result (IsUnclosed storage.now agents.now) }
{
    match storage.closing(alloc, agents) {
        Ok(closing) => match written(alloc, storage, agents, &closing) {
            Ok(journal) => Ok(journal),
            Err(error) => Err(error),
        },
        Err(CloseError::Missing(number)) => Err(Unclosed::Missing(number)),
        Err(CloseError::Memory) => Err(Unclosed::Memory),
    }
}

impl Store {
    /// Make the journal of the returned agents as `asm_close` does.
    pub fn close(self, alloc: Global) -> (Store, Result<(), Unclosed>)
        ensures closed { OnOk result.1 (HasClosed self result.0) }
        ensures unchanged { OnErr result.1 (result.0 ≡ self) }
        ensures err { IfErr result.1 (IsUnclosed self.storage self.agents) }
    {
        let count = self.parts.len();
        let (Ok(agents), Ok(room)) = (
            Vec::with_capacity(alloc, count),
            Vec::with_capacity(alloc, count),
        ) else {
            return (self, Err(Unclosed::Memory));
        };
        let Store {
            shared,
            numbers,
            parts,
            journal,
        } = self;
        let agents = agents_of(&shared.storage, parts, agents);
        let closed = journal_of(alloc, &shared.storage, agents.as_slice());
        let parts = parts_of(&shared.storage, agents, room);
        match closed {
            Ok(kept) => {
                let store = Store {
                    shared,
                    numbers,
                    parts,
                    journal: Some(kept),
                };
                (store, Ok(()))
            }
            Err(error) => {
                let store = Store {
                    shared,
                    numbers,
                    parts,
                    journal,
                };
                (store, Err(error))
            }
        }
    }
}
