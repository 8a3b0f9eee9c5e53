//! The input, read to its end.
ghost use Rattle.std.specs.Prelude.{◌≡◌, false, IfOk, OnErr, IsErrOf};
ghost use Rattle.asm_driver.specs.Ports.{ReadsAll, TakesTooMany, TakesSome, is_fault};

use crate::ports::PortFailed;
use crate::ports::source::Source;
use std::alloc::{AllocError, Global};

/// Limit of the input's size, in bytes.
pub const INPUT_LIMIT: usize = 16_777_216;

// Number of bytes that a read asks for.
const CHUNK: usize = 4096;

/// Why there is no input.
#[derive(Clone, Copy, Debug, PartialEq, Eq)]
pub enum InputError {
    /// It has more than 16,777,216 bytes.
    TooLarge,
    /// A read failed.
    Fault,
    /// Memory was refused.
    Memory,
}

impl From<PortFailed> for InputError {
    ghost use Rattle.std.specs.Prelude.{◌≡◌};
    ghost use Rattle.asm_driver.specs.declared.ports.input.InputError.TheVariants.{Fault};

    ghost from_gives = { λ _ e. e ≡ Fault };

    fn from(_failed: PortFailed) -> InputError {
        InputError::Fault
    }
}

impl From<AllocError> for InputError {
    ghost use Rattle.std.specs.Prelude.{◌≡◌};
    ghost use Rattle.asm_driver.specs.declared.ports.input.InputError.TheVariants.{Memory};

    ghost from_gives = { λ _ e. e ≡ Memory };

    fn from(_refused: AllocError) -> InputError {
        InputError::Memory
    }
}

/// Read the input to its end, or one byte beyond the limit.
///
/// No read is retried.
///
/// # Errors
///
/// - `TooLarge` if the input has more than 16,777,216 bytes.
/// - `Fault` exactly if a read failed.
/// - `Memory` only if memory is refused.
pub fn read_input<S: Source>(alloc: Global, input: &mut S) -> Result<Vec<u8>, InputError>
    requires { S.failed input.old ≡ false }
    ensures same_reference { S.lender input.new ≡ S.lender input.old }
    ensures all { IfOk result (λ bytes. ReadsAll (S.remaining input.old) (S.remaining input.new) bytes.items) }
    ensures large { IsErrOf result InputError.TooLarge → TakesTooMany (S.remaining input.old) (S.remaining input.new) }
    ensures some { OnErr result (TakesSome (S.remaining input.old) (S.remaining input.new)) }
    ensures noted { S.failed input.new ≡ is_fault result }
{
    let mut bytes = Vec::new(alloc);
    let mut buffer = [0u8; CHUNK];
    loop {
        let room = buffer.len().min(INPUT_LIMIT + 1 - bytes.len());
        let part = &mut buffer[..room];
        let count = input.read(part)?;
        if count == 0 {
            return Ok(bytes);
        }
        if count > INPUT_LIMIT - bytes.len() {
            return Err(InputError::TooLarge);
        }
        bytes.extend_from_slice(&part[..count])?;
    }
}
