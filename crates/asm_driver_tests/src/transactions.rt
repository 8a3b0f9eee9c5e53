//! What a transaction does besides what its example shows: scans, clashes, refused and popped moves, and members.
ghost use Rattle.std.specs.Prelude.{◌≡◌};
ghost use Rattle.asm_storage.specs.Storage.{IsSameAgent};

use asm_aggregate::{Standard, standard};
use asm_element::{ElemSet, Element, Location, Value};
use asm_journal::{Legality, check};
use asm_storage::{Agent, Call, Reply, Storage};
use asm_test_support::{clash_at, location, number};
use asm_transaction::{PushError, Transaction};
use asm_update::{Action, Cause, Instruction, Instructions, PlainState};
use std::alloc::{AllocError, Global};
use std::test::Fail;

/// Return the move with one instruction.
fn one(alloc: Global, name: &str, action: Action) -> Result<Instructions, AllocError> {
    let at: Location = location(alloc, name)?;
    let mut instrs = Instructions::new(alloc);
    match instrs.push(Instruction { at, action }) {
        Ok(()) => Ok(instrs),
        Err(_) => Err(AllocError),
    }
}

/// Return a state whose location `n` has 5, and `s` the empty set.
fn opening(alloc: Global) -> Result<PlainState, AllocError> {
    let mut state = PlainState::new(alloc);
    state.set(location(alloc, "n")?, number(5))?;
    state.set(location(alloc, "s")?, Value::Set(ElemSet::new(alloc)))?;
    Ok(state)
}

/// Return a transaction that has scanned `b` and raised `n` without a read.
fn scans_and_raises(
    alloc: Global,
    aggregator: &Standard,
    agent: &mut Agent<'_, Standard>,
) -> Result<Transaction, Fail>
    requires { aggregator.now ≡ agent.old.storage.agg }
    ensures { IsSameAgent agent.old agent.new }
{
    let raise = one(alloc, "n", Action::Increment(1))?;
    let mut transaction = Transaction::begin(alloc, agent)?;
    transaction.scan(alloc, agent, "b")?;
    transaction.push(alloc, aggregator, agent, &raise)?;
    Ok(transaction)
}

/// Return whether the one-instruction move fires.
fn fires(
    alloc: Global,
    agent: &mut Agent<'_, Standard>,
    name: &str,
    action: Action,
) -> Result<bool, Fail> {
    let instrs = one(alloc, name, action)?;
    Ok(matches!(agent.try_fire(alloc, &[], &instrs)?, Reply::Fired(_)))
}

/// Return whether the commit has this answer, and `stands` has reported a location exactly if it is stale.
fn answers(
    alloc: Global,
    transaction: &Transaction,
    agent: &mut Agent<'_, Standard>,
    wanted: &Reply,
) -> Result<bool, Fail>
    ensures { IsSameAgent agent.old agent.new }
{
    let overwritten = transaction.stands(alloc, agent)?;
    let reply = transaction.commit(alloc, agent)?;
    Ok(reply == *wanted && overwritten.is_some() == matches!(reply, Reply::Stale(_)))
}

/// Return whether the first agent's commit has this answer, if the second one fires in between.
fn answers_after(
    alloc: Global,
    aggregator: &Standard,
    a: &mut Agent<'_, Standard>,
    b: &mut Agent<'_, Standard>,
    name: &str,
    action: Action,
    wanted: &Reply,
) -> Result<bool, Fail>
    requires { aggregator.now ≡ a.old.storage.agg }
    ensures { IsSameAgent a.old a.new }
{
    let transaction = scans_and_raises(alloc, aggregator, a)?;
    Ok(fires(alloc, b, name, action)? && answers(alloc, &transaction, a, wanted)?)
}

/// Return whether two raises of one location fire.
fn both_fire(
    alloc: Global,
    aggregator: &Standard,
    a: &mut Agent<'_, Standard>,
    b: &mut Agent<'_, Standard>,
) -> Result<bool, Fail>
    requires { aggregator.now ≡ a.old.storage.agg }
    ensures { IsSameAgent a.old a.new }
{
    let raise = Action::Increment(1);
    answers_after(alloc, aggregator, a, b, "n", raise, &Reply::Fired(2))
}

/// Return whether a first value makes a scan stale.
fn is_stale(
    alloc: Global,
    aggregator: &Standard,
    a: &mut Agent<'_, Standard>,
    b: &mut Agent<'_, Standard>,
) -> Result<bool, Fail>
    requires { aggregator.now ≡ a.old.storage.agg }
    ensures { IsSameAgent a.old a.new }
{
    let stale = Reply::Stale(location(alloc, "b")?);
    let put = Action::Regular(number(1));
    answers_after(alloc, aggregator, a, b, "b", put, &stale)
}

/// Return whether a raise of what is no number any more clashes.
fn clashes(
    alloc: Global,
    aggregator: &Standard,
    a: &mut Agent<'_, Standard>,
    b: &mut Agent<'_, Standard>,
) -> Result<bool, Fail>
    requires { aggregator.now ≡ a.old.storage.agg }
    ensures { IsSameAgent a.old a.new }
{
    let clash = Reply::Clash(clash_at(alloc, "n", Cause::Kind)?);
    let spoil = Action::Regular(Value::Plain(Element::Bool(true)));
    answers_after(alloc, aggregator, a, b, "n", spoil, &clash)
}

/// Return whether each commit answers as the other agent's move demands.
fn all_answer(
    alloc: Global,
    aggregator: &Standard,
    a: &mut Agent<'_, Standard>,
    b: &mut Agent<'_, Standard>,
) -> Result<bool, Fail>
    requires { aggregator.now ≡ a.old.storage.agg }
{
    Ok(
        both_fire(alloc, aggregator, a, b)?
            && is_stale(alloc, aggregator, a, b)?
            && clashes(alloc, aggregator, a, b)?,
    )
}

#[test]
fn a_commit_answers_by_what_it_depends_on(rt: HostRuntime) -> Result<(), Fail> {
    let alloc = rt.alloc();
    let storage = Storage::new(alloc, standard(), opening(alloc)?, 8)?;
    let mut a = storage.agent_at(alloc, 0)?;
    let mut b = storage.agent_at(alloc, 1)?;
    assert!(rt; all_answer(alloc, storage.aggregator(), &mut a, &mut b)?);
    Ok(())
}

/// Return whether the transaction shows this number at `n`, and its fire has so many instructions and declared reads.
fn has(
    alloc: Global,
    agent: &Agent<'_, Standard>,
    transaction: &Transaction,
    shown: i64,
    counts: (usize, usize),
) -> Result<bool, Fail> {
    let at = location(alloc, "n")?;
    if transaction.see(alloc, agent, &at)? != number(shown) {
        return Ok(false);
    }
    match transaction.preview(alloc)? {
        Call::Fire { reads, instrs } => {
            Ok((instrs.as_slice().len(), reads.as_slice().len()) == counts)
        }
        Call::Read(_) => Ok(false),
    }
}

/// Return whether a set's update of a number is refused.
fn refuses(
    alloc: Global,
    aggregator: &Standard,
    agent: &Agent<'_, Standard>,
    transaction: &mut Transaction,
) -> Result<bool, Fail>
    requires { aggregator.now ≡ agent.now.storage.agg }
{
    let add = one(alloc, "n", Action::SetAdd(Element::Num(1)))?;
    let refused = transaction.push(alloc, aggregator, agent, &add);
    Ok(matches!(refused, Err(PushError::Refused(_))))
}

/// Return whether a refused push leaves the moves, and tracks what it depends on.
fn refuses_alone(
    alloc: Global,
    aggregator: &Standard,
    agent: &mut Agent<'_, Standard>,
) -> Result<bool, Fail>
    requires { aggregator.now ≡ agent.old.storage.agg }
{
    let mut transaction = scans_and_raises(alloc, aggregator, agent)?;
    Ok(
        has(alloc, agent, &transaction, 6, (1, 0))?
            && refuses(alloc, aggregator, agent, &mut transaction)?
            && has(alloc, agent, &transaction, 6, (1, 1))?
            && answers(alloc, &transaction, agent, &Reply::Fired(1))?,
    )
}

#[test]
fn a_refused_push_leaves_the_moves(rt: HostRuntime) -> Result<(), Fail> {
    let alloc = rt.alloc();
    let storage = Storage::new(alloc, standard(), opening(alloc)?, 8)?;
    let mut a = storage.agent_at(alloc, 0)?;
    assert!(rt; refuses_alone(alloc, storage.aggregator(), &mut a)?);
    Ok(())
}

/// Push a move, extend it by itself, and pop both as one.
fn pops(
    alloc: Global,
    aggregator: &Standard,
    agent: &Agent<'_, Standard>,
    transaction: &mut Transaction,
    raise: &Instructions,
) -> Result<Option<Instructions>, Fail>
    requires { aggregator.now ≡ agent.now.storage.agg }
{
    transaction.extend(alloc, aggregator, agent, raise)?;
    transaction.extend(alloc, aggregator, agent, raise)?;
    Ok(transaction.pop_move(alloc, aggregator)?)
}

/// Push the one move, pop it, and push the other one.
fn replaces(
    alloc: Global,
    aggregator: &Standard,
    agent: &Agent<'_, Standard>,
    transaction: &mut Transaction,
    first: &Instructions,
    second: &Instructions,
) -> Result<(), Fail>
    requires { aggregator.now ≡ agent.now.storage.agg }
{
    transaction.push(alloc, aggregator, agent, first)?;
    transaction.pop(alloc)?;
    transaction.push(alloc, aggregator, agent, second)?;
    Ok(())
}

/// Return whether two raises that are popped as one move and pushed again are shown as before.
fn pushes_again(
    alloc: Global,
    aggregator: &Standard,
    agent: &Agent<'_, Standard>,
    transaction: &mut Transaction,
) -> Result<bool, Fail>
    requires { aggregator.now ≡ agent.now.storage.agg }
{
    let raise = one(alloc, "n", Action::Increment(1))?;
    let Some(both) = pops(alloc, aggregator, agent, transaction, &raise)? else {
        return Ok(false);
    };
    let is_popped = has(alloc, agent, transaction, 5, (0, 1))?;
    replaces(alloc, aggregator, agent, transaction, &raise, &both)?;
    Ok(is_popped && has(alloc, agent, transaction, 7, (1, 1))?)
}

/// Return whether the commit fires the first move, with what it read on record.
fn is_recorded(
    alloc: Global,
    transaction: &Transaction,
    agent: &mut Agent<'_, Standard>,
) -> Result<bool, Fail>
    ensures { IsSameAgent agent.old agent.new }
{
    Ok(transaction.commit_recorded(alloc, agent)? == Reply::Fired(1))
}

/// Return whether `n` has this number in the state that the agent finds.
fn finds(alloc: Global, agent: &mut Agent<'_, Standard>, wanted: i64) -> Result<bool, Fail>
    ensures { IsSameAgent agent.old agent.new }
{
    let transaction = Transaction::begin(alloc, agent)?;
    has(alloc, agent, &transaction, wanted, (0, 0))
}

/// Return whether a move that was popped and pushed again fires as if nothing had been popped.
fn commits_again(
    alloc: Global,
    aggregator: &Standard,
    agent: &mut Agent<'_, Standard>,
) -> Result<bool, Fail>
    requires { aggregator.now ≡ agent.old.storage.agg }
    ensures { IsSameAgent agent.old agent.new }
{
    let mut transaction = Transaction::begin(alloc, agent)?;
    Ok(
        pushes_again(alloc, aggregator, agent, &mut transaction)?
            && is_recorded(alloc, &transaction, agent)?
            && finds(alloc, agent, 7)?,
    )
}

/// Return whether the history of the one agent is legal, and has a read and a move.
fn is_legal(
    alloc: Global,
    storage: &Storage<Standard>,
    agent: Agent<'_, Standard>,
) -> Result<bool, Fail>
    requires { agent.storage ≡ storage.now }
{
    let history = storage.close(alloc, &[agent])?;
    Ok(check(alloc, &standard(), &history)? == Legality::Legal { calls: 2, moves: 1 })
}

#[test]
fn a_popped_move_is_pushed_again(rt: HostRuntime) -> Result<(), Fail> {
    let alloc = rt.alloc();
    let storage = Storage::new(alloc, standard(), opening(alloc)?, 8)?;
    let mut a = storage.agent_at(alloc, 0)?;
    assert!(rt; commits_again(alloc, storage.aggregator(), &mut a)?);
    assert!(rt; is_legal(alloc, &storage, a)?);
    Ok(())
}

/// Return a transaction that has added 1 to the set `s`, which was empty.
fn adds(
    alloc: Global,
    aggregator: &Standard,
    agent: &mut Agent<'_, Standard>,
) -> Result<Transaction, Fail>
    requires { aggregator.now ≡ agent.old.storage.agg }
    ensures { IsSameAgent agent.old agent.new }
{
    let add = one(alloc, "s", Action::SetAdd(Element::Num(1)))?;
    let mut transaction = Transaction::begin(alloc, agent)?;
    transaction.push(alloc, aggregator, agent, &add)?;
    Ok(transaction)
}

/// Return how many elements there are, and how often 1 and 2 are there.
fn counts(
    alloc: Global,
    agent: &Agent<'_, Standard>,
    transaction: &mut Transaction,
    name: &str,
) -> Result<(Option<u64>, Option<u32>, Option<u32>), Fail> {
    let at = location(alloc, name)?;
    let size = transaction.size(alloc, agent, &at)?;
    let ones = transaction.count_of(alloc, agent, &at, &Element::Num(1))?;
    let twos = transaction.count_of(alloc, agent, &at, &Element::Num(2))?;
    Ok((size, ones, twos))
}

/// Return whether the functions with a value are found and counted.
fn counts_functions(
    alloc: Global,
    agent: &Agent<'_, Standard>,
    transaction: &mut Transaction,
) -> Result<bool, Fail> {
    Ok(
        transaction.count(alloc, agent, "s")? == 1
            && transaction.any(alloc, agent, "n")?
            && !transaction.any(alloc, agent, "b")?,
    )
}

/// Return whether members and locations are counted through a push.
///
/// Members are counted only where there is a set or a bag.
fn counts_members(
    alloc: Global,
    aggregator: &Standard,
    agent: &mut Agent<'_, Standard>,
) -> Result<bool, Fail>
    requires { aggregator.now ≡ agent.old.storage.agg }
{
    let mut transaction = adds(alloc, aggregator, agent)?;
    let counted = counts(alloc, agent, &mut transaction, "s")?;
    let uncounted = counts(alloc, agent, &mut transaction, "n")?;
    Ok(
        counted == (Some(1), Some(1), Some(0))
            && uncounted == (None, None, None)
            && counts_functions(alloc, agent, &mut transaction)?,
    )
}

#[test]
fn members_are_counted_through_pushes(rt: HostRuntime) -> Result<(), Fail> {
    let alloc = rt.alloc();
    let storage = Storage::new(alloc, standard(), opening(alloc)?, 8)?;
    let mut a = storage.agent_at(alloc, 0)?;
    assert!(rt; counts_members(alloc, storage.aggregator(), &mut a)?);
    Ok(())
}
