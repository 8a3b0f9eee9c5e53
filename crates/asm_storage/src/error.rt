ghost use Rattle.std.specs.Prelude.{◌≡◌};
ghost use Rattle.asm_storage.specs.declared.error.FireError.TheVariants as fire_error;
ghost use Rattle.asm_storage.specs.declared.error.CloseError.TheVariants as close_error;
ghost use Rattle.asm_storage.specs.declared.error.ReadError.TheVariants as read_error;
ghost use Rattle.asm_storage.specs.declared.error.AgentsError.TheVariants as agents_error;

use std::alloc::{AllocError, AllocFailed};
use thiserror::Error;

/// Why locations weren't read.
#[derive(Debug, Drop, PartialEq, Eq, Error)]
pub enum ReadError {
    /// More than 256 locations, or declared reads to be tested.
    ///
    /// This is found before anything else.
    #[error("more than 256 locations")]
    ManyLocations,
    /// The memory that the call asked for was refused.
    #[error("out of memory")]
    Memory,
}

/// Why a fire wasn't answered.
#[derive(Debug, Drop, PartialEq, Eq, Error)]
pub enum FireError {
    /// More than 256 declared reads and scans together.
    ///
    /// This is found before anything else.
    #[error("more than 256 named reads")]
    ManyReads,
    /// 64 attempts of the call to append its move were lost.
    #[error("64 attempts to append were lost to other agents")]
    Busy {
        /// How many moves the agent had seen at the start of the call.
        from: u32,
        /// How many at its end: at least 64 more.
        to: u32,
    },
    /// The memory that the call asked for was refused.
    #[error("out of memory")]
    Memory,
}

impl From<AllocError> for ReadError {
    ghost from_gives = { λ _ e. e ≡ read_error.Memory };

    fn from(_error: AllocError) -> ReadError {
        ReadError::Memory
    }
}

impl From<AllocError> for FireError {
    ghost from_gives = { λ _ e. e ≡ fire_error.Memory };

    fn from(_error: AllocError) -> FireError {
        FireError::Memory
    }
}

/// Why a storage wasn't made.
#[derive(Debug, Drop, PartialEq, Eq, Error)]
pub enum StorageError {
    /// The capacity is 0 or above 1,048,576.
    ///
    /// This is found before any memory is asked for.
    #[error("the capacity is not in 1 to 1,048,576")]
    BadCapacity,
    /// The memory that the call asked for was refused.
    #[error("out of memory")]
    Memory,
}

/// Why agents weren't made.
#[derive(Debug, Drop, PartialEq, Eq, Error)]
pub enum AgentsError {
    /// None, or more than 256.
    ///
    /// This is found before any memory is asked for.
    #[error("not 1 to 256 agents")]
    BadAgents,
    /// The memory that the call asked for was refused.
    #[error("out of memory")]
    Memory,
}

impl From<AllocError> for AgentsError {
    ghost from_gives = { λ _ e. e ≡ agents_error.Memory };

    fn from(_error: AllocError) -> AgentsError {
        AgentsError::Memory
    }
}

impl<T: Drop> From<AllocFailed<T>> for AgentsError {
    ghost from_gives = { λ _ e. e ≡ agents_error.Memory };

    fn from(_error: AllocFailed<T>) -> AgentsError {
        AgentsError::Memory
    }
}

/// Why receipts didn't close.
#[derive(Debug, Drop, PartialEq, Eq, Error)]
pub enum CloseError {
    /// A move that an agent has seen and none has a receipt of: the smallest number.
    #[error("move {0} has no receipt")]
    Missing(u32),
    /// The memory that the call asked for was refused.
    #[error("out of memory")]
    Memory,
}

impl From<AllocError> for CloseError {
    ghost from_gives = { λ _ e. e ≡ close_error.Memory };

    fn from(_error: AllocError) -> CloseError {
        CloseError::Memory
    }
}
