//! Why an audit ends.
ghost use Rattle.std.specs.Prelude.{◌≡◌};
ghost use Rattle.asm_audit.specs.Fault.{part_fault};
ghost use Rattle.asm_audit.specs.declared.error.AuditError.TheVariants as audit_error;
ghost use Rattle.asm_audit.specs.declared.error.AuditInputError.TheVariants as input_error;

use asm_journal::JournalError;
use std::alloc::{AllocError, AllocFailed};
use thiserror::Error;

/// Why an audit ends before the end of the run.
/// The parts of a run count from 0.
#[derive(Clone, Copy, Debug, Drop, PartialEq, Eq, Error)]
pub enum AuditError {
    /// The journal of this part has this fault, which is the first.
    /// Its lines count from 1.
    #[error("part {part}: {fault}")]
    Journal { part: u64, fault: JournalError },
    /// This part opens with another state than the part before it leaves.
    #[error("part {part} opens with another state")]
    Apart { part: u64 },
    /// The first wrong answer is that to this call of this part, counted from 0.
    /// A wrong answer is one that a sequential storage doesn't give.
    #[error("part {part}: call {call} has a wrong answer")]
    Illegal { part: u64, call: u64 },
    /// A line has more than 1,073,741,824 bytes.
    #[error("a line is too long")]
    LongLine,
    /// The memory that the call asked for was refused.
    #[error("out of memory")]
    Memory,
}

impl From<AllocError> for AuditError {
    ghost from_gives = { λ _ e. e ≡ audit_error.Memory };

    fn from(_error: AllocError) -> AuditError {
        AuditError::Memory
    }
}

impl<T: Drop> From<AllocFailed<T>> for AuditError {
    ghost from_gives = { λ _ e. e ≡ audit_error.Memory };

    fn from(_error: AllocFailed<T>) -> AuditError {
        AuditError::Memory
    }
}

/// Why an input isn't audited to its end.
#[derive(Clone, Copy, Debug, Drop, PartialEq, Eq, Error)]
pub enum AuditInputError {
    /// The audit of its bytes ended with this error.
    #[error("{0}")]
    Audit(AuditError),
    /// A read of it failed, or 18,446,744,073,709,551,615 reads didn't reach its end.
    #[error("the input failed")]
    Input,
}

impl From<AuditError> for AuditInputError {
    ghost from_gives = { λ e r. r ≡ input_error.Audit e };

    fn from(error: AuditError) -> AuditInputError {
        AuditInputError::Audit(error)
    }
}

/// Return the error for a fault of the journal of the part with this number.
pub(crate) fn part_fault(number: u64, fault: JournalError) -> AuditError
    ensures { result ≡ part_fault number fault }
{
    match fault {
        JournalError::Memory => AuditError::Memory,
        fault => AuditError::Journal {
            part: number,
            fault,
        },
    }
}
