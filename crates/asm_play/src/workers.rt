//! Jobs, each done on a thread of its own.
ghost use Rattle.std.specs.Prelude.{◌≡◌, ◌≤◌, ◌<◌, ◌++◌, IfOk, IfErr, IsErrOf, IsOkAnd, vec_len};
ghost use Rattle.std.specs.Thread.{IsSync};
ghost use denote.Param.Send.{IsSend};
ghost use Rattle.asm_play.specs.Jobs.{GivesEach, IsUndone, foremost_error, error_of_both};
ghost use Rattle.asm_play.specs.declared.outcome.RunError.TheVariants as run_error;

use crate::outcome::RunError;
use std::alloc::{AllocError, Global};
use std::marker::{PhantomData, Send, Sync};
use std::snapshot::Snapshot;
use std::sync::Wait;
use std::thread;
use std::thread::{Promise, Threads};

/// A task, which is done with each job.
pub trait Task<J, X>: Sync {
    /// What the task may return for a job.
    ghost gives: { Self → J → X → Type 0 };

    /// Do the job.
    ///
    /// # Errors
    ///
    /// - `AllocError` only if memory is refused.
    fn run<R: Wait>(&self, rt: &R, job: J) -> Result<X, AllocError>
        ensures { IfOk result (λ x. gives self.now job x) };
}

// Which of two errors goes before the other: a missing thread before an allocation failure.
fn foremost_error(error: RunError, other: RunError) -> RunError
    ensures { result ≡ foremost_error error other }
{
    match error {
        RunError::NoThread => error,
        _ => other,
    }
}

// A worker's promise: it returns what the task gives for each of its jobs.
struct GivesEachOf<J, X, T: Task<J, X>> {
    task: Snapshot<T>,
    jobs: Snapshot<Vec<J>>,
    done: PhantomData<X>,
}

impl<J, X, T: Task<J, X>> Drop for GivesEachOf<J, X, T> {
    fn drop(self) {
        let GivesEachOf {
            task: _,
            jobs: _,
            done: _,
        } = self;
    }
}

impl<J, X, T: Task<J, X>> Promise<Result<Vec<X>, RunError>> for GivesEachOf<J, X, T> {
    ghost kept_by = { λ p r. IfOk r (λ done. GivesEach (T.gives p.task.value) p.jobs.value.items done.items)
        × IfErr r IsUndone };
}

/// Do each job on a thread of its own, the last on this one.
///
/// The results are in the order of the jobs. The jobs are halved until they are single, so a worker starts the workers
/// of its half. The call returns when all of them have ended. Fewer than two jobs start no thread.
///
/// # Errors
///
/// - `NoThread` if a thread couldn't be started.
/// - `Memory` otherwise, only if memory is refused.
#[cycle(halves)]
pub fn each<R: Threads + Wait + Sync, J: Send + Drop, X: Send + Drop, T: Task<J, X>>(
    rt: &R,
    alloc: Global,
    task: &T,
    mut jobs: Vec<J>,
) -> Result<Vec<X>, RunError>
    ensures done { IfOk result (λ done. GivesEach (T.gives task.now) jobs.items done.items) }
    ensures error { IfErr result IsUndone }
    ensures threads { IsErrOf result run_error.NoThread → 2 ≤ vec_len jobs }
{
    if jobs.len() < 2 {
        return at_most_one(rt, alloc, task, jobs);
    }
    let second = jobs.split_off(jobs.len() / 2)?;
    both(rt, alloc, task, jobs, second)
}

fn at_most_one<R: Wait, J: Drop, X: Drop, T: Task<J, X>>(
    rt: &R,
    alloc: Global,
    task: &T,
    mut jobs: Vec<J>,
) -> Result<Vec<X>, RunError>
    requires { vec_len jobs < 2 }
    ensures done { IfOk result (λ done. GivesEach (T.gives task.now) jobs.items done.items) }
    ensures error { IfErr result (λ e. e ≡ run_error.Memory) }
{
    let mut done = Vec::new(alloc);
    let Some(job) = jobs.pop() else {
        return Ok(done);
    };
    done.push(task.run(rt, job)?)?;
    Ok(done)
}

// A worker does the first half while this thread does the second.
#[cycle(halves)]
fn both<R: Threads + Wait + Sync, J: Send + Drop, X: Send + Drop, T: Task<J, X>>(
    rt: &R,
    alloc: Global,
    task: &T,
    first: Vec<J>,
    second: Vec<J>,
) -> Result<Vec<X>, RunError>
    ensures done { IfOk result (λ done. GivesEach (T.gives task.now) (first.items ++ second.items) done.items) }
    ensures error { IfErr result IsUndone }
{
    thread::scope(
        thread::scope_env(),
        rt,
        move |scope| -> Result<Vec<X>, RunError>
            requires { IsSync R.row × IsSync T.row × IsSend J.row × IsSend X.row }
            ensures done { IfOk result (λ done. GivesEach (T.gives task.entry.now) (first.items ++ second.items)
                done.items) }
            ensures error { IfErr result IsUndone }
        {
            let promise = GivesEachOf {
                task: Snapshot::of(task),
                jobs: Snapshot::of(&first),
                done: PhantomData,
            };
            let work = move || -> Result<Vec<X>, RunError>
                requires { IsSync R.row × IsSync T.row × IsSend J.row × IsSend X.row }
                ensures done { IfOk result (λ done. GivesEach (T.gives task.entry.now) first.items done.items) }
                ensures error { IfErr result IsUndone }
            { each(rt, alloc, task, first) };
            let worker = scope.spawn_with(promise, work)?;
            let ours = each(rt, alloc, task, second);
            joined(worker.join(rt), ours)
        },
    )
}

// What both halves gave, in order.
fn joined<X: Drop>(
    first: Result<Vec<X>, RunError>,
    second: Result<Vec<X>, RunError>,
) -> Result<Vec<X>, RunError>
    ensures done { IfOk result (λ done. IsOkAnd first (λ a. IsOkAnd second (λ b. done.items ≡ a.items ++ b.items))) }
    ensures error { IfErr result (λ e. e ≡ error_of_both first second) }
{
    match (first, second) {
        (Ok(mut done), Ok(mut more)) => {
            done.append(&mut more)?;
            Ok(done)
        }
        (Ok(_), Err(error)) => Err(error),
        (Err(error), Ok(_)) => Err(error),
        (Err(error), Err(other)) => Err(foremost_error(error, other)),
    }
}
