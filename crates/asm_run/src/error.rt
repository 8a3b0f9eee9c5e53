//! Why a run is refused, or a segment isn't saved.
ghost use Rattle.std.specs.Prelude.{◌≡◌};

use asm_audit::AuditError;
use std::alloc::AllocError;
use thiserror::Error;

/// Why a folder isn't read.
#[derive(Clone, Copy, Debug, Drop, PartialEq, Eq, Error)]
pub enum ReadError {
    /// Memory was refused.
    #[error("out of memory")]
    Memory,
    /// The call doesn't come next: a name before a text, a text behind its name, and nothing after a refused text.
    #[error("another call comes next")]
    Busy,
    /// The name has another form.
    #[error("not the name of a segment")]
    Name,
    /// The number in the name isn't the next one.
    #[error("another number")]
    Number,
    /// The name is that of segment 0, and not `00000000-0-0-0-ZEROS-DIGEST.journal`.
    #[error("segment 0 has another name")]
    Opening,
    /// The name has another digest or another number of moves before it than the segments before it.
    #[error("not the segment after the one before")]
    Previous,
    /// The run is too long to be counted.
    #[error("too many moves or events")]
    Many,
    /// The text isn't the one that was saved.
    #[error("damaged")]
    Damaged,
    /// The text has this fault as the next part of the run.
    #[error("{0}")]
    Audit(AuditError),
    /// The text isn't one journal with the moves and events that its name says.
    #[error("other counts than in the name")]
    Counts,
}

impl From<AllocError> for ReadError {
    ghost use Rattle.asm_run.specs.declared.error.ReadError.TheVariants as read_error;

    ghost from_gives = { λ _ e. e ≡ read_error.Memory };

    fn from(_error: AllocError) -> ReadError {
        ReadError::Memory
    }
}

/// Why a writer doesn't do what it is asked.
#[derive(Clone, Copy, Debug, Drop, PartialEq, Eq, Error)]
pub enum WriteError {
    /// Memory was refused.
    #[error("out of memory")]
    Memory,
    /// The writer is at another stage.
    #[error("the writer is at another stage")]
    Busy,
    /// The run has 100,000,000 segments.
    #[error("100,000,000 segments")]
    Segments,
    /// The run would have 2^64 moves or more.
    #[error("too many moves")]
    Moves,
    /// The segment would be segment 0, and has events.
    #[error("segment 0 has events")]
    Opening,
}

impl From<AllocError> for WriteError {
    ghost use Rattle.asm_run.specs.declared.error.WriteError.TheVariants as write_error;

    ghost from_gives = { λ _ e. e ≡ write_error.Memory };

    fn from(_error: AllocError) -> WriteError {
        WriteError::Memory
    }
}
