use asm_element::Location;
use asm_update::Clash;
use std::alloc::{AllocError, AllocFailed};
use thiserror::Error;

/// Why a step refuses a move; the step is then unchanged.
#[derive(Debug, Drop, PartialEq, Eq, Error)]
pub enum StepError {
    /// The move clashes on what is seen through the step's moves.
    ///
    /// Over what is no state, it may also be the clash for which the moves and this one don't compose.
    #[error("the updates clash")]
    Clash(Clash),
    /// The moves together change a value at this location by too much.
    ///
    /// The step's moves and this one add or remove more of an element in a bag than an amount can be, or the sum of
    /// their increments of a counter is farther from 0 than 18,446,744,073,709,551,615. This never happens over a
    /// state, where the move clashes.
    #[error("too large an amount or sum")]
    Large(Location),
    /// The one move for all would have more than 4,096 instructions.
    #[error("more than 4,096 instructions")]
    Many,
    /// There are 64 pushed moves already.
    #[error("more than 64 pushed moves")]
    Deep,
    /// The memory that the call asked for was refused.
    #[error("out of memory")]
    Memory,
}

impl From<AllocError> for StepError {
    ghost use Rattle.std.specs.Prelude.{◌≡◌};
    ghost use Rattle.asm_step.specs.declared.error.StepError.TheVariants as step_error;

    ghost from_gives = { λ _ e. e ≡ step_error.Memory };

    fn from(_error: AllocError) -> StepError {
        StepError::Memory
    }
}

impl<T: Drop> From<AllocFailed<T>> for StepError {
    ghost use Rattle.std.specs.Prelude.{◌≡◌};
    ghost use Rattle.asm_step.specs.declared.error.StepError.TheVariants as step_error;

    ghost from_gives = { λ _ e. e ≡ step_error.Memory };

    fn from(_error: AllocFailed<T>) -> StepError {
        StepError::Memory
    }
}
