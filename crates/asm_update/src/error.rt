ghost use Rattle.std.specs.Prelude.{◌≡◌};
ghost use Rattle.asm_update.specs.declared.error.ResultError.TheVariants as result_error;
ghost use Rattle.asm_update.specs.declared.error.JoinError.TheVariants as join_error;

use crate::clash::Cause;
use std::alloc::{AllocError, AllocFailed};
use thiserror::Error;

/// Why a call of `Aggregator::result` gives no value.
#[derive(Clone, Copy, Debug, PartialEq, Eq, Error)]
pub enum ResultError {
    /// The group has no result, for this cause.
    #[error("the updates of a location have no result: {0}")]
    Cause(Cause),
    /// The memory that the call asked for was refused.
    #[error("out of memory")]
    Memory,
}

/// Why a call of `Aggregator::join` gives no list.
#[derive(Clone, Copy, Debug, PartialEq, Eq, Error)]
pub enum JoinError {
    /// The lists have no result on any value, for this cause.
    ///
    /// It is one of the lists, or the two together.
    #[error("the updates of a location have no result: {0}")]
    Cause(Cause),
    /// The joined updates are too large.
    ///
    /// A joined amount of a bag would be above 4,294,967,295, or the sum of the increments of both lists is farther
    /// from 0 than 18,446,744,073,709,551,615.
    #[error("a joined amount or sum is too large")]
    Large,
    /// The memory that the call asked for was refused.
    #[error("out of memory")]
    Memory,
}

impl From<AllocError> for ResultError {
    ghost from_gives = { λ _ e. e ≡ result_error.Memory };

    fn from(_error: AllocError) -> ResultError {
        ResultError::Memory
    }
}

impl<T: Drop> From<AllocFailed<T>> for ResultError {
    ghost from_gives = { λ _ e. e ≡ result_error.Memory };

    fn from(_error: AllocFailed<T>) -> ResultError {
        ResultError::Memory
    }
}

impl From<AllocError> for JoinError {
    ghost from_gives = { λ _ e. e ≡ join_error.Memory };

    fn from(_error: AllocError) -> JoinError {
        JoinError::Memory
    }
}

impl<T: Drop> From<AllocFailed<T>> for JoinError {
    ghost from_gives = { λ _ e. e ≡ join_error.Memory };

    fn from(_error: AllocFailed<T>) -> JoinError {
        JoinError::Memory
    }
}
