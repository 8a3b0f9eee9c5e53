//! A share of a storage, with the numbers of its agents, the returned agents, and their journal.
ghost use Rattle.std.specs.Prelude.{◌≡◌, ◌≤◌, IfNone, IfSome, None, Some, length, string_bytes};
ghost use Rattle.std_alloc.specs.Arc.{arc_value};

use crate::closed_journal::ClosedJournal;
use crate::shared::Shared;
use asm_storage::AgentPart;
use std::marker::Model;
use std::sync::Arc;

/// A share of a storage, with its agents; the numbers of the returned ones ascend.
#[derive(Drop)]
pub struct Store {
    pub(crate) shared: Arc<Shared>,
    // The number of each agent that was made: the row may have moves of an agent that was freed.
    pub(crate) numbers: Vec<u32>,
    pub(crate) parts: Vec<AgentPart>,
    pub(crate) journal: Option<ClosedJournal>,
}

impl Model for Store {
    ghost use Rattle.std.specs.Prelude.{All, map};
    ghost use Rattle.std.specs.List.Sorted.{IsStrictlyIncreasing};
    ghost use Rattle.std_alloc.specs.Arc.{arc_value};
    ghost use Rattle.asm_aggregate.specs.contracts.pair.Pair.{the_row as pair_row};
    ghost use Rattle.asm_aggregate.specs.contracts.set_agg.SetAgg.{the_row as set_row};
    ghost use Rattle.asm_aggregate.specs.contracts.bag_agg.BagAgg.{the_row as bag_row};
    ghost use Rattle.asm_aggregate.specs.contracts.count_agg.CountAgg.{the_row as count_row};
    ghost use Rattle.asm_update.specs.contracts.plain_state.PlainState.{the_row as state_row};
    ghost use Rattle.asm_storage.specs.contracts.entry.Entry.{the_row as entry_row};
    ghost use Rattle.asm_storage.specs.contracts.receipt.Receipt.{the_row as receipt_row};
    ghost use Rattle.asm_storage.specs.Agents.{account_code};
    ghost use Rattle.asm_storage.specs.Part.{agent_of, IsPartOf};
    ghost use Rattle.asm_storage.specs.Storage.{storage_code, agent_code};
    ghost use Rattle.asm_slots.specs.Standard.{meaning};
    ghost use Rattle.asm_slots.specs.Store.{StoreView, store_code};

    ghost Value = { StoreView };

    ghost coded = { store_code
        (storage_code (pair_row (pair_row set_row bag_row) count_row).coded state_row.coded)
        (agent_code
        (storage_code (pair_row (pair_row set_row bag_row) count_row).coded state_row.coded)
        (account_code entry_row.coded receipt_row.coded)) };

    ghost view = { λ s. record {
      storage = (arc_value s.shared).storage;
      numbers = s.numbers.items;
      agents = map (agent_of (arc_value s.shared).storage) s.parts.items;
      journal = s.journal;
    } };

    ghost invariant = { λ s. All (IsPartOf meaning (arc_value s.shared).storage) s.parts.items
        × IsStrictlyIncreasing (map (λ p. p.id) s.parts.items) };
}

impl Store {
    /// Return the share of the storage.
    pub fn shared(&self) -> &Arc<Shared>
        ensures { (arc_value result.now).storage ≡ self.now.storage }
    {
        &self.shared
    }

    /// Return how many moves the storage's row has.
    ///
    /// It polls the row from the first move on until no move is left.
    pub fn moves(&self) -> u32
        ensures { result ≤ length self.now.storage.row }
    {
        self.shared.storage.moves()
    }

    /// Return the text of the journal, if one is retained.
    pub fn journal(&self) -> Option<&String>
        ensures some { IfSome result (λ text. self.now.journal ≡ Some (string_bytes text.now)) }
        ensures none { IfNone result (self.now.journal ≡ None) }
    {
        match &self.journal {
            Some(journal) => Some(journal.text()),
            None => None,
        }
    }
}
