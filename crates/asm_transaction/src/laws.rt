//! What callers may conclude of a transaction between calls.
ghost use Rattle.std.specs.Prelude.{◌≡◌};
ghost use mathlib.Core.List.{IsPrefix};
ghost use Rattle.asm_storage.specs.Storage.{AgentAt};
ghost use Rattle.asm_transaction.specs.Reading.{IsOf};
ghost use Rattle.asm_transaction.specs.View.{TransactionView};

use asm_update::Aggregator;

/// State for proofs that a transaction stays one of its agent; do nothing at run time.
///
/// It stays one after the agent has seen more, and after the transaction has read, scanned or popped.
pub fn keeps<A: Aggregator>()
    ensures { (a b : AgentAt A) (t u : TransactionView) → b.storage ≡ a.storage →
        IsPrefix a.account.seen b.account.seen → u.number ≡ t.number → IsPrefix u.layers t.layers →
        IsOf A.meaning a t → IsOf A.meaning b u }
{}
