//! A transaction: what it is, and how it begins.
ghost use Rattle.std.specs.Prelude.{◌≡◌, length, IfOk, OnOk};
ghost use mathlib.Core.List.{IsPrefix};
ghost use Rattle.asm_storage.specs.Storage.{has_polled, IsSameAgent, IsUpToDate};
ghost use Rattle.asm_transaction.specs.Reading.{IsOf};
ghost use Rattle.asm_transaction.specs.View.{new_transaction};

use asm_state::{Named, Scanned};
use asm_step::Step;
use asm_storage::Agent;
use asm_update::Aggregator;
use std::alloc::{AllocError, Global};
use std::marker::Model;

/// A transaction of an agent.
///
/// It borrows nothing: each call is lent the agent that began it. Contracts see the version at which it began, a layer
/// for each pushed move with those that extend it, the locations that it tracks, and the names of the functions that it
/// has scanned. `IsOf` says that it is a transaction of this agent: `begin` makes it so, and each call of either keeps it
/// so.
pub struct Transaction {
    pub(crate) number: u32,
    pub(crate) step: Step,
    // The tracked locations: each once, in ascending order, at the transaction's version; with the scans at most 256.
    pub(crate) tracked: Vec<Named>,
    // Each name once, at the transaction's version.
    pub(crate) scanned: Vec<Scanned>,
}

impl Model for Transaction {
    ghost use Rattle.std.specs.Coded.{coded_list};
    ghost use Rattle.asm_element.specs.contracts.location.Location.{the_row as location_row};
    ghost use Rattle.asm_step.specs.contracts.step.Step.{the_row as step_row};
    ghost use Rattle.asm_transaction.specs.View.{TransactionView, names_of, places_of, transaction_code};

    ghost Value = { TransactionView };

    ghost coded = { transaction_code step_row.coded (coded_list location_row.coded) };

    ghost view = { λ t. record {
      number = t.number;
      layers = t.step;
      tracked = places_of t.tracked.items;
      scanned = names_of t.scanned.items;
    } };

    ghost use Rattle.std.specs.Prelude.{All, length, ◌+◌, ◌≡◌, ◌≤◌};
    ghost use Rattle.std.specs.List.Sorted.{IsStrictlySortedBy};
    ghost use Rattle.asm_element.specs.Place.{location_cmp};
    ghost use Rattle.asm_storage.specs.Limits.{reads_limit};

    ghost invariant = { λ t. IsStrictlySortedBy location_cmp (places_of t.tracked.items)
        × (length t.tracked.items + length t.scanned.items ≤ reads_limit)
        × All (λ read. read.number ≡ t.number) t.tracked.items
        × All (λ scan. scan.number ≡ t.number) t.scanned.items };
}

// Written by hand, so that code that drops a transaction has one call, independent of what is pushed.
impl Drop for Transaction {
    fn drop(self) {
        let Transaction {
            number: _,
            step: _,
            tracked: _,
            scanned: _,
        } = self;
    }
}

impl Transaction {
    // Return a transaction at this version, without moves; it takes no memory.
    pub(crate) fn at(alloc: Global, number: u32) -> Transaction
        ensures { result ≡ new_transaction number }
    {
        Transaction {
            number,
            step: Step::new(alloc),
            tracked: Vec::new(alloc),
            scanned: Vec::new(alloc),
        }
    }

    /// Poll the row until no move is left, follow, and begin a transaction at that version.
    ///
    /// # Errors
    ///
    /// - `AllocError` only if memory is refused; the agent may then have seen more.
    pub fn begin<A: Aggregator + Sync + Drop>(
        alloc: Global,
        agent: &mut Agent<'_, A>,
    ) -> Result<Transaction, AllocError>
        ensures same { IsSameAgent agent.old agent.new }
        ensures seen { IsPrefix agent.old.account.seen agent.new.account.seen }
        ensures polled { agent.new ≡ has_polled agent.old agent.new.account.seen agent.new.misses agent.new.number }
        ensures level { OnOk result (IsUpToDate agent.new) }
        ensures begun { IfOk result (λ t. t ≡ new_transaction (length agent.new.account.seen)) }
        ensures of { IfOk result (IsOf A.meaning agent.new) }
    {
        let number = agent.follow(alloc)?;
        Ok(Transaction::at(alloc, number))
    }

    /// Return a transaction at version 0 without moves; it takes no memory.
    pub fn empty(alloc: Global) -> Transaction
        ensures { result ≡ new_transaction 0 }
    {
        Transaction::at(alloc, 0)
    }

    /// Become a transaction at this version without moves, and retain the memory of the lists.
    pub fn restart(&mut self, number: u32)
        ensures { self.new ≡ new_transaction number }
    {
        self.step.clear();
        self.tracked.clear();
        self.scanned.clear();
        self.number = number;
    }

    /// Return the version at which it began: how many moves had been fired.
    pub fn number(&self) -> u32
        ensures { result ≡ self.now.number }
    {
        self.number
    }

    /// Return how many moves are pushed, at most 64; those that extend one don't count.
    pub fn depth(&self) -> u32
        ensures { result ≡ length self.now.layers }
    {
        self.step.depth() as u32
    }
}
