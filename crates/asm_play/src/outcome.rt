//! What playing a script leaves.
ghost use Rattle.std.specs.Prelude.{◌≡◌};
ghost use Rattle.asm_play.specs.declared.outcome.RunError.TheVariants as run_error;

use asm_element::{Items, Location};
use asm_script::FaultyTerm;
use asm_storage::History;
use asm_update::Clash;
use std::alloc::{AllocError, AllocFailed};
use std::thread::SpawnError;
use thiserror::Error;

/// What became of a step.
#[derive(Debug, Drop)]
pub enum Outcome {
    /// It fired as the move with this number.
    Fired(u32),
    /// Its updates clash at this location.
    Clash(Clash),
    /// As many moves were fired as the capacity.
    Full,
    /// A term of it has no value.
    Term,
    /// A composed amount or sum of increments at this location is too large.
    Large(Location),
    /// Its blocks compose to more than 4,096 instructions.
    Many,
    /// It was tried 1,001 times, in vain.
    ///
    /// Each time a location that it had read was written, or its attempts were lost to other agents.
    GaveUp,
}

/// A step that ended since a term of it had no value.
#[derive(Debug, Drop)]
pub struct StepTerm {
    /// The number of the step among those of its agent, counted from 0.
    pub step: usize,
    /// The first instruction whose term had no value on what the step read, and why.
    pub term: FaultyTerm,
}

/// The result of playing a script: its history, and the outcomes of all steps.
#[derive(Debug, Drop)]
pub struct Played {
    /// The answered calls of the agents in one order.
    pub history: History,
    /// For each agent the outcomes of its steps, in order.
    pub outcomes: Items<Items<Outcome>>,
}

/// The result of playing a script, and why terms had no value.
#[derive(Debug, Drop)]
pub struct PlayedWithTerms {
    /// The history and the outcomes.
    pub played: Played,
    /// For each agent those of its steps whose outcome is `Term`, in order.
    pub terms: Items<Items<StepTerm>>,
}

/// Why a script was not played to its end.
#[derive(Clone, Copy, Debug, PartialEq, Eq, Error)]
pub enum RunError {
    /// The capacity is not in the range from 1 to 1,048,576.
    #[error("the capacity is not in 1 to 1,048,576")]
    BadCapacity,
    /// A thread for an agent couldn't be started.
    #[error("no thread")]
    NoThread,
    /// The move with this number has no receipt.
    #[error("missing move {0}")]
    Missing(u32),
    /// The memory that the call asked for was refused.
    #[error("out of memory")]
    Memory,
}

impl From<AllocError> for RunError {
    ghost from_gives = { λ _ e. e ≡ run_error.Memory };

    fn from(_refused: AllocError) -> RunError {
        RunError::Memory
    }
}

impl<T: Drop> From<AllocFailed<T>> for RunError {
    ghost from_gives = { λ _ e. e ≡ run_error.Memory };

    fn from(_refused: AllocFailed<T>) -> RunError {
        RunError::Memory
    }
}

impl<F: Drop> From<SpawnError<F>> for RunError {
    ghost from_gives = { λ _ e. e ≡ run_error.NoThread };

    fn from(_refused: SpawnError<F>) -> RunError {
        RunError::NoThread
    }
}
