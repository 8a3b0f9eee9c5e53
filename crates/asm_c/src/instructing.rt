//! Preparing locations, and building moves in slots.
ghost use Rattle.std.specs.Prelude.{◌≡◌, ◌≢◌, ◌++◌, None};
ghost use Rattle.asm_slots.specs.Answers.{IsNotInstructed, IsNotPrepared, IsNotUnited};
ghost use Rattle.asm_slots.specs.Codes.{ASM_DONE, Answers};
ghost use Rattle.asm_slots.specs.Kinds.{IsInstructed};
ghost use Rattle.asm_slots.specs.Slots.{HasRoomFor, Holds, a_location, a_move, content_of, move_of};
ghost use Rattle.asm_slots.specs.Bytes.{ReadAsLocation};

use asm_slots::instructing::{instruct, prepare, unite};
use asm_slots::{Slot, answer};
use std::alloc::Global;

/// Append an instruction at a prepared location to the move in a slot.
/// An empty slot holds the move of this instruction then. The operand is a value, given by its kind, its number and its
/// bytes. The bytes of a list, a set or a bag are any JSON of it. A set and a bag can be put, and no more. `amount` is
/// 1 or above for `ASM_BAGADD` and `ASM_BAGREMOVE`, and 0 for any other verb. `ASM_INC` takes a number alone. On error,
/// both slots are unchanged; the location's always is.
///
/// # Errors
/// `ASM_TAKEN` comes before all others. If several of the others hold, one of them is returned.
/// - `ASM_TAKEN`: the first slot holds something else than a move.
/// - `ASM_EMPTY`: the second slot has no location, or the two are one.
/// - `ASM_OPERAND`: there is no such verb, no such operand of it, or no such amount.
/// - `ASM_NOT_JSON`: the bytes of a list, a set or a bag aren't JSON.
/// - `ASM_SHAPE`: these are JSON of no value of this kind, or the bytes of a text aren't UTF-8.
/// - `ASM_LONG_MOVE`: the move has 4,096 instructions.
/// - `ASM_MEMORY`: out of memory.
#[unsafe(no_mangle)]
pub extern "C" fn asm_instruct(
    alloc: Global,
    instrs: &mut Slot,
    at: &mut Slot,
    verb: i32,
    kind: i32,
    number: i64,
    bytes: &[u8],
    amount: u32,
) -> i32
    ensures answers { Answers result (HasRoomFor a_move (content_of instrs.old) × Holds a_location (content_of at.old)
        (λ l. Holds a_move (content_of instrs.new) (IsInstructed l verb kind number bytes.now amount (move_of (content_of instrs.old)))))
        (IsNotInstructed (content_of at.old) (content_of instrs.old) verb kind number bytes.now amount) }
    ensures kept { result ≢ ASM_DONE → content_of instrs.new ≡ content_of instrs.old }
    ensures held { content_of at.new ≡ content_of at.old }
{
    answer(instruct(alloc, instrs, at, verb, kind, number, bytes, amount))
}

/// Append the instructions of the other move to those of `instrs`.
/// It is then the move that does what both do at once, as the agents of a block in parallel do. Instructions that occur
/// in both count twice. An empty slot is the move of no instructions, so `instrs` holds a move afterwards. On error,
/// both slots are unchanged; the second always is.
///
/// # Errors
/// - `ASM_TAKEN`: the first slot holds something else than a move. It comes before all others.
/// - `ASM_EMPTY`: the second slot holds something else than a move, or the two are one.
/// - `ASM_LONG_MOVE`: the two have more than 4,096 instructions together.
/// - `ASM_MEMORY`: out of memory.
#[unsafe(no_mangle)]
pub extern "C" fn asm_unite(alloc: Global, instrs: &mut Slot, other: &mut Slot) -> i32
    ensures answers { Answers result (HasRoomFor a_move (content_of instrs.old) × HasRoomFor a_move (content_of other.old)
        × Holds a_move (content_of instrs.new) (λ united. united ≡ move_of (content_of instrs.old) ++ move_of (content_of other.old)))
        (IsNotUnited (content_of instrs.old) (content_of other.old)) }
    ensures kept { result ≢ ASM_DONE → content_of instrs.new ≡ content_of instrs.old }
    ensures held { content_of other.new ≡ content_of other.old }
{
    answer(unite(alloc, instrs, other))
}

/// Prepare the location `LOC` in an empty slot.
/// It serves agents and steps of any storage. On error, the slot is unchanged.
///
/// # Errors
/// - `ASM_TAKEN`: the slot is full.
/// - `ASM_NOT_JSON`: `location` isn't JSON.
/// - `ASM_SHAPE`: `location` is JSON of another shape, or beyond a limit.
/// - `ASM_MEMORY`: out of memory.
#[unsafe(no_mangle)]
pub extern "C" fn asm_location(alloc: Global, location: &[u8], at: &mut Slot) -> i32
    ensures answers { Answers result ((content_of at.old ≡ None) × Holds a_location (content_of at.new) (ReadAsLocation location.now))
        (IsNotPrepared (content_of at.old) location.now) }
    ensures refused { result ≢ ASM_DONE → content_of at.new ≡ content_of at.old }
{
    answer(prepare(alloc, location, at))
}
