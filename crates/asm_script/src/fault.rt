//! Why a step has no move.
ghost use Rattle.std.specs.Prelude.{◌≡◌};
ghost use Rattle.asm_script.specs.declared.fault.StepFault.TheVariants as step_fault;

use crate::term::NoValue;
use asm_element::Location;
use asm_update::Clash;
use std::alloc::{AllocError, AllocFailed};
use thiserror::Error;

/// The first instruction of a step whose term has no value, and why it has none.
#[derive(Debug, Drop, PartialEq, Eq)]
pub struct FaultyTerm {
    /// The number of its block in the step, counted from 0.
    pub block: usize,
    /// Its number in the block, counted from 0.
    pub instruction: usize,
    /// Why its term has no value in the state before the block.
    pub why: NoValue,
}

/// Why a step has no move: the first of these faults, block by block.
#[derive(Debug, Drop, PartialEq, Eq, Error)]
pub enum StepFault {
    /// A term of a block is faulty in the state before that block.
    #[error("a faulty term")]
    Term(FaultyTerm),
    /// The instructions of a block clash, or those of two blocks in sequence.
    #[error("the updates clash")]
    Clash(Clash),
    /// Blocks in sequence change a value at this location by too much.
    ///
    /// They add or remove more of an element in a bag than an amount can be, or the sum of their increments of a
    /// counter is farther from 0 than 18,446,744,073,709,551,615.
    #[error("too large an amount or sum")]
    Large(Location),
    /// The one move of the blocks would have more than 4,096 instructions.
    #[error("more than 4,096 instructions")]
    Many,
    /// The memory that the call asked for was refused.
    #[error("out of memory")]
    Memory,
}

impl From<AllocError> for StepFault {
    ghost from_gives = { λ _ e. e ≡ step_fault.Memory };

    fn from(_refused: AllocError) -> StepFault {
        StepFault::Memory
    }
}

impl<T: Drop> From<AllocFailed<T>> for StepFault {
    ghost from_gives = { λ _ e. e ≡ step_fault.Memory };

    fn from(_refused: AllocFailed<T>) -> StepFault {
        StepFault::Memory
    }
}
