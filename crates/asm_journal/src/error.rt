//! Why a journal isn't read or isn't written.
ghost use Rattle.std.specs.Prelude.{◌≡◌};
ghost use Rattle.asm_journal.specs.declared.error.JournalError.TheVariants as journal_error;
ghost use Rattle.asm_journal.specs.declared.error.WriteError.TheVariants as write_error;

use std::alloc::{AllocError, AllocFailed};
use thiserror::Error;

/// The first fault of a journal, in the order of its lines.
///
/// Lines count from 1.
#[derive(Clone, Copy, Debug, Drop, PartialEq, Eq, Error)]
pub enum JournalError {
    /// The line with this number isn't JSON.
    #[error("line {0} is not JSON")]
    NotJson(u64),
    /// The line isn't a header or an event of the journal, or is one line too many.
    #[error("line {0} has a wrong shape")]
    Shape(u64),
    /// The header's version is a whole number other than 1 and 2.
    #[error("the version is not 1 or 2")]
    Version,
    /// The text ends before a line that the journal has, or before its line feed.
    #[error("the journal is cut")]
    Cut,
    /// The memory that the call asked for was refused.
    #[error("out of memory")]
    Memory,
}

impl From<AllocError> for JournalError {
    ghost from_gives = { λ _ e. e ≡ journal_error.Memory };

    fn from(_error: AllocError) -> JournalError {
        JournalError::Memory
    }
}

impl<T: Drop> From<AllocFailed<T>> for JournalError {
    ghost from_gives = { λ _ e. e ≡ journal_error.Memory };

    fn from(_error: AllocFailed<T>) -> JournalError {
        JournalError::Memory
    }
}

/// Why a journal wasn't written completely.
#[derive(Clone, Copy, Debug, Drop, PartialEq, Eq, Error)]
pub enum WriteError {
    /// A write failed or took no byte, after this many bytes of the text.
    #[error("the output failed after {written} bytes")]
    Output { written: u64 },
    /// The memory that the call asked for was refused; nothing was written.
    #[error("out of memory")]
    Memory,
}

impl From<AllocError> for WriteError {
    ghost from_gives = { λ _ e. e ≡ write_error.Memory };

    fn from(_error: AllocError) -> WriteError {
        WriteError::Memory
    }
}
