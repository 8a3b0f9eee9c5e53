//! Transfers between two accounts by transactions; one that is stale is made again.
ghost use Rattle.std.specs.Prelude.{◌≡◌};
ghost use Rattle.asm_storage.specs.Storage.{IsSameAgent};

use crate::examples::shared::{location, number, one};
use asm_aggregate::standard;
use asm_element::{Element, Location, Value};
use asm_storage::{Agent, Reply, Storage};
use asm_transaction::Transaction;
use asm_update::{Action, Aggregator, Instructions, PlainState};
use std::alloc::Global;
use std::test::Fail;

/// A transfer of 10: from which account, the move that takes, and the move that gives.
struct Transfer {
    from: Location,
    take: Instructions,
    give: Instructions,
}

impl Drop for Transfer {
    fn drop(self) {
        let Transfer {
            from: _,
            take: _,
            give: _,
        } = self;
    }
}

fn transfer_of_ten(alloc: Global) -> Result<Transfer, Fail> {
    let from = location(alloc, "from")?;
    let take = one(alloc, "from", Action::Increment(-10))?;
    let give = one(alloc, "to", Action::Increment(10))?;
    Ok(Transfer { from, take, give })
}

/// Begin a transaction that makes the transfer, if the account has as much.
fn begin<A: Aggregator + Sync + Drop>(
    alloc: Global,
    aggregator: &A,
    agent: &mut Agent<'_, A>,
    transfer: &Transfer,
) -> Result<Transaction, Fail>
    requires { aggregator.now ≡ agent.old.storage.agg }
    ensures { IsSameAgent agent.old agent.new }
{
    let Transfer { from, take, give } = transfer;
    let mut transaction = Transaction::begin(alloc, agent)?;
    let left = transaction.get(alloc, agent, from)?;
    if matches!(left, Value::Plain(Element::Num(n)) if n >= 10) {
        transaction.push(alloc, aggregator, agent, take)?;
        transaction.push(alloc, aggregator, agent, give)?;
    }
    Ok(transaction)
}

/// Commit the transaction, and return whether it fired.
fn fires<A: Aggregator + Sync + Drop>(
    alloc: Global,
    transaction: &Transaction,
    agent: &mut Agent<'_, A>,
) -> Result<bool, Fail>
    ensures { IsSameAgent agent.old agent.new }
{
    Ok(matches!(transaction.commit(alloc, agent)?, Reply::Fired(_)))
}

/// Make the transfer, and return whether it fired.
fn makes<A: Aggregator + Sync + Drop>(
    alloc: Global,
    aggregator: &A,
    agent: &mut Agent<'_, A>,
    transfer: &Transfer,
) -> Result<bool, Fail>
    requires { aggregator.now ≡ agent.old.storage.agg }
    ensures { IsSameAgent agent.old agent.new }
{
    let transaction = begin(alloc, aggregator, agent, transfer)?;
    fires(alloc, &transaction, agent)
}

/// Begin a transfer of one agent, make one of the other, and return whether the first is stale then.
fn is_stale<A: Aggregator + Sync + Drop>(
    alloc: Global,
    aggregator: &A,
    a: &mut Agent<'_, A>,
    b: &mut Agent<'_, A>,
    transfer: &Transfer,
) -> Result<bool, Fail>
    requires a { aggregator.now ≡ a.old.storage.agg }
    requires b { aggregator.now ≡ b.old.storage.agg }
    ensures a { IsSameAgent a.old a.new }
    ensures b { IsSameAgent b.old b.new }
{
    let transaction = begin(alloc, aggregator, a, transfer)?;
    let is_made = makes(alloc, aggregator, b, transfer)?;
    Ok(is_made && !fires(alloc, &transaction, a)?)
}

/// Open two accounts, of which the first has 25.
fn accounts(alloc: Global) -> Result<PlainState, Fail> {
    let mut state = PlainState::new(alloc);
    state.set(location(alloc, "from")?, number(25))?;
    state.set(location(alloc, "to")?, number(0))?;
    Ok(state)
}

#[test]
fn a_stale_transfer_is_made_again(rt: HostRuntime) -> Result<(), Fail> {
    let alloc = rt.alloc();
    let transfer = transfer_of_ten(alloc)?;
    let storage = Storage::new(alloc, standard(), accounts(alloc)?, 8)?;
    let mut a = storage.agent_at(alloc, 0)?;
    let mut b = storage.agent_at(alloc, 1)?;
    let is_stale = is_stale(alloc, storage.aggregator(), &mut a, &mut b, &transfer)?;
    let is_made = makes(alloc, storage.aggregator(), &mut a, &transfer)?;
    assert!(rt; is_stale && is_made);
    Ok(())
}
