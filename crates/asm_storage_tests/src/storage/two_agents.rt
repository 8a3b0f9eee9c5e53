//! Steps of two agents on one storage as plain data, and what closing gives after them.
ghost use Rattle.std.specs.Prelude.{◌≡◌, ◌<◌};
ghost use Rattle.asm_storage.specs.Storage.{IsSameAgent};

use crate::storage::asked::{Act, At, Want};
use crate::storage::closings::{Closing, closes};
use crate::storage::contests::{Contest, contends};
use crate::storage::limits::{depends, looks, names_many, reads_many, reads_named_many};
use crate::storage::performing::{Validated, asks, counts, learns, reads_named, retries};
use asm_aggregate::{Standard, standard};
use asm_storage::{Agent, Storage};
use asm_test_support::{location, value};
use asm_update::PlainState;
use std::alloc::{AllocError, Global};
use std::process::Abort;
use std::slice;
use std::test::Fail;

/// The one or the other of the two agents: they have the numbers 0 and 1.
#[derive(Clone, Copy)]
pub(crate) enum Who {
    A,
    B,
}

#[derive(Clone, Copy)]
pub(crate) enum Step {
    /// It asks, and is answered.
    Ask(Who, Act, Want),
    /// It learns the other's mark, and has then seen so many moves.
    Learn(Who, u32),
    /// The counts of the first agent.
    ///
    /// It has seen so many moves, won so many attempts, found so many cells empty, and has so many receipts.
    Count(u32, u32, u64, usize),
    /// The row holds so many moves.
    Row(u32),
    /// Closing with the first alone gives this.
    Alone(Closing),
    /// The second fires moves without instructions: those after this number, up to that one.
    Fill(u32, u32),
    /// The first fires while the second fires too.
    Contend(&'static Contest),
    /// The first reads x at no move, the second puts the same there, and the first's fire by its reading is stale.
    Rest,
    /// The first one peeks, and fires twice over a scan.
    Look,
    /// The first reads so many locations; whether that isn't refused for their number.
    ReadMany(usize, bool),
    /// The first fires by so many declared reads; whether that isn't refused for their number.
    NameMany(usize, bool),
    /// The first reads by these declared reads, which gives that.
    ReadNamed(&'static [At], Validated),
    /// The first reads by so many declared reads; whether that isn't refused for their number.
    ReadNamedMany(usize, bool),
    /// The first asks, and once more where memory was refused: it has then seen at most so many moves, and has no
    /// receipt more.
    Retry(Act, Want, u32),
}

/// Two agents of one storage.
#[derive(Drop)]
pub(crate) struct Two<'s> {
    pub(crate) storage: &'s Storage<Standard>,
    pub(crate) a: Agent<'s, Standard>,
    pub(crate) b: Agent<'s, Standard>,
    ghost first: { a.storage ≡ storage.now },
    ghost second: { b.storage ≡ storage.now },
    ghost ascending: { a.account.id < b.account.id },
}

/// Fire moves without instructions: those after this number, up to that one.
fn fills(
    alloc: Global,
    agent: &mut Agent<'_, Standard>,
    from: u32,
    to: u32,
) -> Result<bool, AllocError>
    ensures { IsSameAgent agent.old agent.new }
{
    for k in from..to {
        let want = Want::Fired(k.saturating_add(1));
        if !asks(alloc, agent, Act::Fire(&[], &[]), want)? {
            return Ok(false);
        }
    }
    Ok(true)
}

impl Two<'_> {
    /// Return whether a step that asks nothing comes out right.
    fn reports(&self, alloc: Global, step: Step) -> bool {
        match step {
            Step::Count(seen, won, misses, receipts) => {
                counts(&self.a, (seen, won, misses, receipts))
            }
            Step::Row(moves) => self.storage.moves() == moves,
            Step::Alone(closing) => closes(alloc, self.storage, slice::from_ref(&self.a), closing),
            _ => false,
        }
    }

    /// Return whether the step comes out right.
    ///
    /// # Errors
    ///
    /// - `AllocError` only if memory is refused.
    fn step(&mut self, alloc: Global, step: Step) -> Result<bool, AllocError> {
        match step {
            Step::Ask(Who::A, act, want) => asks(alloc, &mut self.a, act, want),
            Step::Ask(Who::B, act, want) => asks(alloc, &mut self.b, act, want),
            Step::Learn(Who::A, seen) => learns(alloc, &mut self.a, &self.b, seen),
            Step::Learn(Who::B, seen) => learns(alloc, &mut self.b, &self.a, seen),
            Step::Fill(from, to) => fills(alloc, &mut self.b, from, to),
            Step::Contend(contest) => contends(alloc, &mut self.a, &mut self.b, contest),
            Step::Rest => depends(alloc, &mut self.a, &mut self.b),
            Step::Look => looks(alloc, &mut self.a),
            Step::ReadMany(n, is_good) => reads_many(alloc, &mut self.a, n, is_good),
            Step::NameMany(n, is_good) => names_many(alloc, &mut self.a, n, is_good),
            Step::ReadNamed(reads, want) => reads_named(alloc, &mut self.a, reads, want),
            Step::ReadNamedMany(n, is_good) => reads_named_many(alloc, &mut self.a, n, is_good),
            Step::Retry(act, want, seen) => retries(alloc, &mut self.a, act, want, seen),
            _ => Ok(self.reports(alloc, step)),
        }
    }

    /// Return how many of the steps come out right, up to the first that doesn't.
    fn right_steps(&mut self, alloc: Global, steps: &[Step]) -> Result<usize, AllocError> {
        for (k, step) in steps.iter().enumerate() {
            if !self.step(alloc, *step)? {
                return Ok(k);
            }
        }
        Ok(steps.len())
    }

    /// Return whether closing with both gives this.
    pub(crate) fn closes(self, alloc: Global, both: Closing) -> bool {
        let Two { storage, a, b } = self;
        let agents = [a, b];
        closes(alloc, storage, &agents, both)
    }
}

/// Return a storage where x has this value.
///
/// # Errors
///
/// - `AllocError` if memory was refused, and for a capacity out of range.
pub(crate) fn storage_of(
    alloc: Global,
    x: Option<i64>,
    capacity: u32,
) -> Result<Storage<Standard>, AllocError> {
    let mut init = PlainState::new(alloc);
    init.set(location(alloc, "x")?, value(x))?;
    Storage::new(alloc, standard(), init, capacity).map_err(|_| AllocError)
}

fn two_with<'s>(
    alloc: Global,
    storage: &'s Storage<Standard>,
    a: Agent<'s, Standard>,
) -> Result<Two<'s>, AllocError>
    requires { (a.storage ≡ storage.now) × (a.account.id ≡ 0) }
{
    match storage.agent_at(alloc, 1) {
        Ok(b) => Ok(Two { storage, a, b }),
        Err(error) => Err(error),
    }
}

/// Steps of two agents on a storage of this capacity where x has this value, and what closing with both gives then.
#[derive(Clone, Copy)]
pub(crate) struct Case {
    pub(crate) x: Option<i64>,
    pub(crate) capacity: u32,
    pub(crate) steps: &'static [Step],
    pub(crate) both: Closing,
}

/// Return how many steps come out right, and one more where closing does.
fn right_parts(alloc: Global, mut two: Two<'_>, case: Case) -> Result<usize, AllocError> {
    let right = two.right_steps(alloc, case.steps)?;
    let is_closed = right == case.steps.len() && two.closes(alloc, case.both);
    Ok(right.saturating_add(usize::from(is_closed)))
}

fn play(alloc: Global, case: Case) -> Result<usize, AllocError> {
    let storage = storage_of(alloc, case.x, case.capacity)?;
    let a = storage.agent_at(alloc, 0)?;
    right_parts(alloc, two_with(alloc, &storage, a)?, case)
}

pub(crate) fn check_all<R: Abort>(rt: &R, alloc: Global, cases: &[Case]) -> Result<(), Fail> {
    for (k, case) in cases.iter().enumerate() {
        let right = play(alloc, *case)?;
        assert!(rt; right > case.steps.len(), "case {k} is right up to {right}");
    }
    Ok(())
}
