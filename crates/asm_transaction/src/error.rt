use asm_aggregate::ComposeError;
use asm_step::StepError;
use std::alloc::{AllocError, AllocFailed};
use thiserror::Error;

/// Why a transaction read or popped nothing.
#[derive(Debug, Drop, PartialEq, Eq, Error)]
pub enum TransactionError {
    /// The agent's own state is at another version than the transaction.
    #[error("the agent has moved past the transaction's version")]
    Moved,
    /// The transaction would track more than 256 locations and functions.
    #[error("more than 256 tracked locations and functions")]
    ManyReads,
    /// Memory was refused.
    #[error("out of memory")]
    Memory,
}

impl From<AllocError> for TransactionError {
    ghost use Rattle.std.specs.Prelude.{◌≡◌};
    ghost use Rattle.asm_transaction.specs.declared.error.TransactionError.TheVariants as transaction_error;

    ghost from_gives = { λ _ e. e ≡ transaction_error.Memory };

    fn from(_error: AllocError) -> TransactionError {
        TransactionError::Memory
    }
}

impl<T: Drop> From<AllocFailed<T>> for TransactionError {
    ghost use Rattle.std.specs.Prelude.{◌≡◌};
    ghost use Rattle.asm_transaction.specs.declared.error.TransactionError.TheVariants as transaction_error;

    ghost from_gives = { λ _ e. e ≡ transaction_error.Memory };

    fn from(_error: AllocFailed<T>) -> TransactionError {
        TransactionError::Memory
    }
}

/// Why a transaction refuses a move.
#[derive(Debug, Drop, PartialEq, Eq, Error)]
pub enum PushError {
    /// The agent's own state is at another version than the transaction.
    #[error("the agent has moved past the transaction's version")]
    Moved,
    /// The move doesn't fire after the pushed ones. It is never `StepError::Memory`.
    #[error("{0}")]
    Refused(StepError),
    /// The move is refused, and with the locations of the refusal the transaction would track more than 256.
    #[error("more than 256 tracked locations and functions")]
    ManyReads,
    /// Memory was refused.
    #[error("out of memory")]
    Memory,
}

/// Why a transaction returns no popped move.
#[derive(Debug, Drop, PartialEq, Eq, Error)]
pub enum PopError {
    /// The moves don't compose to one move.
    #[error("{0}")]
    Composition(ComposeError),
    /// The transaction would track more than 256 locations and functions.
    #[error("more than 256 tracked locations and functions")]
    ManyReads,
    /// Memory was refused.
    #[error("out of memory")]
    Memory,
}
