//! The texts of values, of answers, of moves, and of states and update sets.
ghost use Rattle.std.specs.Prelude.{◌≡◌, IfOk, string_bytes};
ghost use Rattle.serde_json.specs.Written.{compact_text};
ghost use Rattle.asm_journal.specs.Event.{answer_json_of, move_json_of};
ghost use Rattle.asm_journal.specs.Text.{state_json_of};
ghost use Rattle.asm_journal.specs.Value.{value_json_of};

use crate::spelling::text_of;
use asm_element::Value;
use asm_storage::Answer;
use asm_update::{Instructions, PlainState, UpdateSet};
use std::alloc::{AllocError, Global};

/// Write a value as a journal does.
///
/// # Errors
///
/// - `AllocError` only if memory is refused.
pub fn value_text(alloc: Global, value: &Value) -> Result<String, AllocError>
    ensures { IfOk result (λ s. string_bytes s ≡ compact_text (value_json_of value.now)) }
{
    text_of(alloc, value)
}

/// Write an answer as a journal does.
///
/// It is the number and the values of a read, or the reply to a fire.
///
/// # Errors
///
/// - `AllocError` only if memory is refused.
pub fn answer_text(alloc: Global, answer: &Answer) -> Result<String, AllocError>
    ensures { IfOk result (λ s. string_bytes s ≡ compact_text (answer_json_of answer.now)) }
{
    text_of(alloc, answer)
}

/// Write a state as a journal writes an opening state.
///
/// It has the locations in ascending order, each with its value.
///
/// # Errors
///
/// - `AllocError` only if memory is refused.
pub fn state_text(alloc: Global, state: &PlainState) -> Result<String, AllocError>
    ensures { IfOk result (λ s. string_bytes s ≡ compact_text (state_json_of state.now)) }
{
    text_of(alloc, state)
}

/// Write an update set as a state is written.
///
/// It has the locations in ascending order, each with its value, which may be undef.
///
/// # Errors
///
/// - `AllocError` only if memory is refused.
pub fn updates_text(alloc: Global, updates: &UpdateSet) -> Result<String, AllocError>
    ensures { IfOk result (λ s. string_bytes s ≡ compact_text (state_json_of updates.now)) }
{
    text_of(alloc, updates)
}

/// Write a move as a journal does in a fire: its instructions, in their order.
///
/// # Errors
///
/// - `AllocError` only if memory is refused.
pub fn move_text(alloc: Global, instrs: &Instructions) -> Result<String, AllocError>
    ensures { IfOk result (λ s. string_bytes s ≡ compact_text (move_json_of instrs.now)) }
{
    text_of(alloc, instrs)
}
