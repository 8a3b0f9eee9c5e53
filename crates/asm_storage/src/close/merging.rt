ghost use Rattle.std.specs.Prelude.{◌≡◌, ◌↔◌, IfOk, OnOk, IsTrue, map, ◌++◌};
ghost use Rattle.std.specs.Option.{option_copied};
ghost use Rattle.asm_storage.specs.Agents.{merged};
ghost use Rattle.asm_storage.specs.History.{move_of, EventFits};
ghost use Rattle.asm_storage.specs.Proper.{IsProperEvent};
ghost use Rattle.asm_storage.specs.Storage.{accounts};
ghost use Rattle.asm_storage.specs.ReceiptOrder.{with_id, key_of, merged_event, receipts_with_ids, id_and_receipt};

use crate::agent::Agent;
use crate::history::Event;
use crate::proper::proper_call_and_answer;
use crate::receipt::Receipt;
use asm_update::{Aggregator, Instructions};
use std::alloc::{AllocError, Global};

/// A receipt with the agent that has it.
#[derive(Drop, Clone, Copy)]
pub(crate) struct AgentReceipt<'a> {
    agent: u32,
    receipt: &'a Receipt,
}

impl<'a> AgentReceipt<'a> {
    // Receipts merge by number, and at each number a fired move comes after the calls that fired nothing.
    fn key(&self) -> u64
        ensures { result ≡ key_of self.now }
    {
        2 * u64::from(self.receipt.stood) + u64::from(self.receipt.is_fired())
    }

    /// Return the event that this entry describes.
    pub(crate) fn event(&self, alloc: Global) -> Result<Event, AllocError>
        ensures { IfOk result (λ e. e ≡ merged_event self.now) }
    {
        self.receipt.event(alloc, self.agent)
    }

    /// Return the move that it fired, or `None` where it fired none.
    pub(crate) fn fired_move(&self) -> Option<&'a Instructions>
        ensures { option_copied result ≡ move_of (merged_event self.now) }
    {
        self.receipt.call.fired_move(&self.receipt.answer)
    }

    /// State for proofs that the event is well-formed; do nothing at run time.
    pub(crate) fn proper(&self)
        ensures { IsProperEvent (merged_event self.now) }
    {
        proper_call_and_answer(&self.receipt.call, &self.receipt.answer);
    }

    /// Return whether a journal of so many agents can hold the event of this entry.
    pub(crate) fn fits(&self, agents: u32) -> bool
        ensures { IsTrue result ↔ EventFits agents (merged_event self.now) }
    {
        self.agent < agents && self.receipt.call.fits(&self.receipt.answer)
    }
}

// Adds the receipts of one agent to those of all.
fn push_receipts<'a>(
    all: &mut Vec<AgentReceipt<'a>>,
    agent: u32,
    receipts: &'a [Receipt],
) -> Result<(), AllocError>
    ensures { OnOk result (map id_and_receipt all.new.items ≡
        map id_and_receipt all.old.items ++ map (with_id agent) receipts.now) }
{
    all.reserve(receipts.len())?;
    for receipt in receipts {
        all.push(AgentReceipt { agent, receipt })?;
    }
    Ok(())
}

// The receipts of the agents, agent by agent.
fn all_receipts<'a, A: Aggregator + Sync + Drop>(
    alloc: Global,
    agents: &'a [Agent<'_, A>],
) -> Result<Vec<AgentReceipt<'a>>, AllocError>
    ensures { IfOk result (λ s. map id_and_receipt s.items ≡ receipts_with_ids (accounts agents.now)) }
{
    let mut all = Vec::new(alloc);
    for agent in agents {
        push_receipts(&mut all, agent.id(), agent.receipts())?;
    }
    Ok(all)
}

/// Return the receipts of the agents, in the order of their calls in the history.
pub(crate) fn merge<'a, A: Aggregator + Sync + Drop>(
    alloc: Global,
    agents: &'a [Agent<'_, A>],
) -> Result<Vec<AgentReceipt<'a>>, AllocError>
    ensures { IfOk result (λ kept. map merged_event kept.items ≡ merged (accounts agents.now)) }
{
    let mut all = all_receipts(alloc, agents)?;
    all.sort_by_key(|kept| kept.key())?;
    Ok(all)
}
