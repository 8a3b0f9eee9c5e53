//! How many instructions a move has, and each of them.
ghost use Rattle.std.specs.Prelude.{◌≡◌, ◌≢◌, length};
ghost use Rattle.asm_slots.specs.Codes.{ASM_DONE, Answers};
ghost use Rattle.asm_slots.specs.ReadMoves.{DoesNotReadAt, IsNoHead, ReadsAt};
ghost use Rattle.asm_slots.specs.Slots.{IfHolds, Lacks, a_move, content_of};

use asm_slots::reading_moves::move_at;
use asm_slots::{InstructionHead, Slot, answer, lend};
use std::alloc::Global;

/// Return how many instructions the move has, at most 4,096; 0 for a slot without a move.
#[unsafe(no_mangle)]
pub extern "C" fn asm_move_length(alloc: Global, instrs: &mut Slot) -> u32
    ensures kept { content_of instrs.new ≡ content_of instrs.old }
    ensures value { IfHolds a_move (content_of instrs.old) (λ M. result ≡ length M) }
    ensures none { Lacks a_move (content_of instrs.old) → result ≡ 0 }
{
    lend!(gathered: Move = instrs, 0);
    gathered.len() as u32
}

/// Return the instruction at a place of the move, counted from 0.
/// `found` gets its verb, its amount, and the kind and the number of its operand, as `asm_instruct` takes them. The text
/// in `out` is the location `LOC`, of `found.place` bytes, and behind it the bytes of the operand, as `asm_get_at` writes
/// those of a value. The slot is unchanged. On error, everything in `found` is 0.
///
/// # Errors
/// - `ASM_SMALL`: `out` is too small, and `written` is the room that is needed.
/// - `ASM_EMPTY`: the slot has no move.
/// - `ASM_NO_INSTRUCTION`: the move has `number` instructions or fewer.
/// - `ASM_MEMORY`: out of memory.
#[unsafe(no_mangle)]
pub extern "C" fn asm_move_at(
    alloc: Global,
    instrs: &mut Slot,
    number: u32,
    found: &mut InstructionHead,
    out: &mut [u8],
    written: &mut usize,
) -> i32
    ensures answers { Answers result (ReadsAt number (content_of instrs.old) found.new out.old out.new written.new)
        (DoesNotReadAt number (content_of instrs.old) out.old out.new written.new) }
    ensures none { result ≢ ASM_DONE → IsNoHead found.new }
    ensures kept { content_of instrs.new ≡ content_of instrs.old }
{
    answer(move_at(alloc, instrs, number, found, out, written))
}
