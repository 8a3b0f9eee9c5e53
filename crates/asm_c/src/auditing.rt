//! Audits of runs of any length, whose bytes come in pieces.
ghost use Rattle.std.specs.Prelude.{◌≡◌, ◌⊎◌};
ghost use Rattle.asm_slots.specs.Answers.{EmptyOr, IsMemory};
ghost use Rattle.asm_slots.specs.Audits.{Audits, EndsAudit, HasNoState, IsAuditState};
ghost use Rattle.asm_slots.specs.Codes.{Replies};
ghost use Rattle.asm_slots.specs.Slots.{Holds, Lacks, an_audit, content_of};
ghost use Rattle.asm_slots.specs.WrittenText.{WritesText};
ghost use Rattle.asm_slots.specs.declared.codes.Code.TheVariants as variant;

use asm_slots::auditing::{self, audit_state, audited};
use asm_slots::{AuditNumbers, Slot, answer};
use std::alloc::Global;

/// Take the next bytes of a run into a slot that holds an audit or is empty.
/// There may be any number of them, and `taken` is how many were taken. In an empty slot an audit begins. A run is
/// parts, each a complete journal, one after the other, each of which opens with the state that the one before it
/// leaves. An audit holds that state and the line that hasn't ended.
///
/// With `ASM_DONE` all bytes were taken, and each answer in the lines that have ended is right. `reported` then has the
/// numbers of complete parts, and of calls and moves, so far. With any other code those before the byte at which it
/// comes were taken, and no others; a line is judged at its line feed. A number that its code doesn't set is 0.
///
/// # Errors
/// - `ASM_ILLEGAL`: the first wrong answer, with the numbers of its part, from 0, and of its call in it, from 0.
/// - `ASM_NOT_JSON`, `ASM_SHAPE`: the first fault of the journal of a part, with the numbers of the part, from 0, and
///   of the line in it, from 1.
/// - `ASM_VERSION`, `ASM_CUT`: the same, with the number of the part.
/// - `ASM_APART`: the part with this number opens with another state than the one before it leaves.
/// - `ASM_LONG_LINE`: a line has more than 1,073,741,824 bytes.
/// - `ASM_MEMORY`: out of memory. Pass the bytes that weren't taken again.
/// - `ASM_TAKEN`: the slot holds something else, and is unchanged.
#[unsafe(no_mangle)]
pub extern "C" fn asm_audit(
    alloc: Global,
    audit: &mut Slot,
    bytes: &[u8],
    taken: &mut usize,
    reported: &mut AuditNumbers,
) -> i32
    ensures { Replies result (Audits bytes.now (content_of audit.old) (content_of audit.new) taken.new reported.new) }
{
    answer(auditing::audit(alloc, audit, bytes, taken, reported))
}

/// Report what holds of the run if no further byte comes.
/// With `ASM_DONE` it is complete parts, at least one, and legal, with its numbers. The slot is unchanged, and further
/// bytes may come. A number that its code doesn't set is 0.
///
/// # Errors
/// - `ASM_CUT`, `ASM_NOT_JSON`: its last part or its last line isn't complete, with the numbers that `asm_audit` sets
///   with them.
/// - `ASM_EMPTY`: the slot has no audit.
/// - `ASM_MEMORY`: out of memory.
#[unsafe(no_mangle)]
pub extern "C" fn asm_audited(alloc: Global, audit: &mut Slot, reported: &mut AuditNumbers) -> i32
    ensures ends { Replies result (EndsAudit (content_of audit.old) reported.new) }
    ensures kept { content_of audit.new ≡ content_of audit.old }
{
    answer(audited(alloc, audit, reported))
}

/// Write the state `[PAIR, ..]` that the moves so far leave.
/// They are those of the lines that have ended. The locations are in ascending order. The slot is unchanged.
///
/// # Errors
/// - `ASM_SMALL`: `out` is too small, and `written` is the room that is needed.
/// - `ASM_NO_PART`: no part has begun.
/// - `ASM_EMPTY`: the slot has no audit.
/// - `ASM_MEMORY`: out of memory.
#[unsafe(no_mangle)]
pub extern "C" fn asm_audit_state(
    alloc: Global,
    audit: &mut Slot,
    out: &mut [u8],
    written: &mut usize,
) -> i32
    ensures text { WritesText (λ text. Holds an_audit (content_of audit.old) (λ a. IsAuditState a text))
        (EmptyOr (Lacks an_audit (content_of audit.old))
        (λ c. IsMemory c ⊎ ((c ≡ variant.NoPart) × Holds an_audit (content_of audit.old) HasNoState)))
        out.old out.new written.new result }
    ensures kept { content_of audit.new ≡ content_of audit.old }
{
    answer(audit_state(alloc, audit, out, written))
}
