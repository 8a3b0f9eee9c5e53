//! What bytes read as.
ghost use Rattle.std.specs.Prelude.{◌≤◌, IfOk, IfErr};
ghost use Rattle.serde_json.specs.Read.{max_depth};
ghost use Rattle.serde_json.specs.View.{view};
ghost use Rattle.asm_journal.specs.Reading.{IsJson};
ghost use Rattle.asm_explain.specs.Bytes.{IsFireForm, IsMisread, IsUnread, ReadAs, ReadAsFire};

use asm_element::Items;
use asm_journal::{FromFront, FromJson, read_compact, read_form};
use asm_state::Named;
use asm_storage::Call;
use asm_update::Instructions;
use serde_json::Value as Json;
use std::alloc::{AllocError, Global};

/// Why bytes weren't read.
#[derive(Clone, Copy, Drop)]
pub enum TextError {
    /// They are not JSON.
    NotJson,
    /// They are JSON of another form.
    Shape,
    /// Memory was refused.
    Memory,
}

// In a stack frame of its own, as `serde_json` reads with 16 KiB of the stack.
#[inline(never)]
fn json_of(alloc: Global, bytes: &[u8]) -> Result<Json, TextError>
    ensures ok { IfOk result (λ v. IsJson bytes.now (view v)) }
    ensures err { IfErr result (IsUnread bytes.now) }
{
    match Json::from_slice(alloc, bytes) {
        Ok(json) => Ok(json),
        Err(error) if error.is_memory() => Err(TextError::Memory),
        Err(_) => Err(TextError::NotJson),
    }
}

/// Read the value of this type whose JSON the bytes are.
///
/// # Errors
///
/// - `NotJson` and `Shape` if no value has this JSON; they say why.
/// - `Memory` only if memory is refused.
pub fn read_as<T: FromJson>(alloc: Global, bytes: &[u8]) -> Result<T, TextError>
    ensures ok { IfOk result (ReadAs T.is_form bytes.now) }
    ensures err { IfErr result (IsMisread T.is_form bytes.now) }
{
    let json = match json_of(alloc, bytes) {
        Ok(json) => json,
        Err(error) => return Err(error),
    };
    match read_form::<T>(alloc, &json) {
        Ok(Some(read)) => Ok(read),
        Ok(None) => Err(TextError::Shape),
        Err(AllocError) => Err(TextError::Memory),
    }
}

/// Read a value as `read_as` does, faster for compact JSON.
///
/// Bytes in compact JSON make no value of `serde_json`.
///
/// # Errors
///
/// - Those of `read_as`.
pub fn read_quickly<T: FromFront>(alloc: Global, bytes: &[u8]) -> Result<T, TextError>
    requires { T.nests ≤ max_depth }
    ensures ok { IfOk result (ReadAs T.is_form bytes.now) }
    ensures err { IfErr result (IsMisread T.is_form bytes.now) }
{
    match read_compact::<T>(alloc, bytes) {
        Some(read) => Ok(read),
        None => read_as::<T>(alloc, bytes),
    }
}

/// A move with its declared reads.
#[derive(Drop)]
pub struct Fire {
    /// The declared reads.
    pub reads: Items<Named>,
    /// The move.
    pub instrs: Instructions,
}

/// Read the move of `{"fire":[INSTR, ..],"reads":[NAMED, ..]}`.
///
/// # Errors
///
/// - `NotJson` and `Shape` if the bytes are none; they say why.
/// - `Memory` only if memory is refused.
pub fn fire_of(alloc: Global, bytes: &[u8]) -> Result<Fire, TextError>
    ensures ok { IfOk result (λ f. ReadAsFire bytes.now f.reads f.instrs) }
    ensures err { IfErr result (IsMisread IsFireForm bytes.now) }
{
    match read_quickly::<Call>(alloc, bytes) {
        Ok(Call::Fire { reads, instrs }) => Ok(Fire { reads, instrs }),
        Ok(Call::Read(_)) => Err(TextError::Shape),
        Err(error) => Err(error),
    }
}
