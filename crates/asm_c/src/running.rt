//! Runs in folders: what is read of one, and which call of the system comes next as a segment is saved or dropped.
ghost use Rattle.std.specs.Prelude.{◌≡◌, ◌⊎◌, Err, Ok, pos};
ghost use Rattle.asm_run.specs.Protocol.{request_at};
ghost use Rattle.asm_slots.specs.Answers.{EmptyOr};
ghost use Rattle.asm_slots.specs.Audits.{no_numbers};
ghost use Rattle.asm_slots.specs.Codes.{Replies};
ghost use Rattle.asm_slots.specs.RunReads.{EndsText, IsNoRunState, IsRunState, SkipsText, TakesNameBytes, TakesText};
ghost use Rattle.asm_slots.specs.RunReads.{no_segment};
ghost use Rattle.asm_slots.specs.RunWrites.{BeginsRun, DropsOrNot, GoesOnOrNot, Hands, HasSaved, NotesDone, NotesFailure};
ghost use Rattle.asm_slots.specs.RunWrites.{no_run_numbers, number_of_request};
ghost use Rattle.asm_slots.specs.Runs.{ChangesRun, HoldsNoRun, HoldsRun, IfHoldsRun};
ghost use Rattle.asm_slots.specs.Slots.{content_of};
ghost use Rattle.asm_slots.specs.WrittenText.{WritesText};
ghost use Rattle.asm_slots.specs.declared.codes.Code.TheVariants as variant;

use asm_slots::{AuditNumbers, RunNumbers, Segment, Slot, answer, running};
use std::alloc::Global;

/// Begin with a folder that this process has locked.
/// The first request is to flush the folder. Then its segments are read: for each file that ends in `.journal`, in
/// ascending order of names, `asm_run_name`, `asm_run_text` with all bytes of its text, and `asm_run_end`. Then
/// `asm_run_read`. On error, the slot is unchanged.
///
/// # Errors
/// - `ASM_TAKEN`: the slot isn't empty.
/// - `ASM_MEMORY`: out of memory.
#[unsafe(no_mangle)]
pub extern "C" fn asm_run_open(alloc: Global, run: &mut Slot) -> i32
    ensures { Replies result (BeginsRun (content_of run.old) (content_of run.new)) }
{
    answer(running::open(alloc, run))
}

/// Take the next name, of a text of so many bytes.
/// The first segment may have any number: those before it were dropped. `found` is what the name says; its numbers are 0
/// with any other code than `ASM_DONE`. On error, the slot is unchanged.
///
/// # Errors
/// - `ASM_NAME`: the bytes aren't UTF-8. Else the first of these:
/// - `ASM_ORDER`: the text of another name comes next, or a text was refused.
/// - `ASM_NAME`: it isn't the name of a segment.
/// - `ASM_NOT_NEXT`: its number isn't the next one.
/// - `ASM_OPENING`: it is that of segment 0, and has events, or moves or a digest before it.
/// - `ASM_PREVIOUS`: it says another digest, or another number of moves, of the segments before it.
/// - `ASM_DAMAGED`: the text has 2^64 - 1 bytes.
/// - `ASM_LONG_RUN`: with it the run has 2^64 moves or more.
/// - `ASM_EMPTY`: the slot has no run.
/// - `ASM_MEMORY`: out of memory.
#[unsafe(no_mangle)]
pub extern "C" fn asm_run_name(
    alloc: Global,
    run: &mut Slot,
    name: &[u8],
    bytes: u64,
    found: &mut Segment,
) -> i32
    ensures { Replies result (λ r. ChangesRun (content_of run.old) (content_of run.new)
        ((r ≡ Err variant.Empty) × (found.new ≡ no_segment)) (TakesNameBytes name.now bytes found.new r)) }
{
    answer(running::name(alloc, run, name, bytes, found))
}

/// Take the next bytes of the text; `asm_run_end` reports its faults.
/// On error, the slot is unchanged.
///
/// # Errors
/// - `ASM_ORDER`: no text comes next.
/// - `ASM_EMPTY`: the slot has no run.
#[unsafe(no_mangle)]
pub extern "C" fn asm_run_text(alloc: Global, run: &mut Slot, bytes: &[u8]) -> i32
    ensures { Replies result (λ r. ChangesRun (content_of run.old) (content_of run.new) (r ≡ Err variant.Empty)
        (TakesText bytes.now r)) }
{
    answer(running::text(alloc, run, bytes))
}

/// End the text, if it is the one that was saved and continues the run.
/// With `ASM_DONE` `reported` has the numbers of all texts that were read. A number that its code doesn't set is 0. After
/// another error than `ASM_ORDER` and `ASM_EMPTY` nothing more is read; after `ASM_MEMORY` another run may read the
/// folder again.
///
/// # Errors
/// The first of these:
/// - `ASM_EMPTY`: the slot has no run.
/// - `ASM_ORDER`: no text comes next. The slot is unchanged.
/// - `ASM_DAMAGED`: the text has another digest or another length.
/// - The codes of `asm_audit`, with their numbers: its fault as the next part of the texts that were read.
/// - `ASM_LONG_RUN`: the counts of the run are beyond 64 bits.
/// - `ASM_COUNTS`: it isn't one journal with the moves and events that its name says.
#[unsafe(no_mangle)]
pub extern "C" fn asm_run_end(alloc: Global, run: &mut Slot, reported: &mut AuditNumbers) -> i32
    ensures { Replies result (λ r. ChangesRun (content_of run.old) (content_of run.new)
        ((r ≡ Err variant.Empty) × (reported.new ≡ no_numbers)) (EndsText reported.new r)) }
{
    answer(running::end(alloc, run, reported))
}

/// End the segment without its text: only its name is checked.
/// On error, the slot is unchanged.
///
/// # Errors
/// - `ASM_ORDER`: no text comes next, or a text was read.
/// - `ASM_EMPTY`: the slot has no run.
#[unsafe(no_mangle)]
pub extern "C" fn asm_run_skip(alloc: Global, run: &mut Slot) -> i32
    ensures { Replies result (λ r. ChangesRun (content_of run.old) (content_of run.new) (r ≡ Err variant.Empty)
        (SkipsText r)) }
{
    answer(running::skip(run))
}

/// Write the state `[PAIR, ..]` that the segments leave, with which the next storage opens.
/// The slot is unchanged.
///
/// # Errors
/// - `ASM_SMALL`: `out` is too small, and `written` is the room that is needed.
/// - `ASM_NO_PART`: no text was read.
/// - `ASM_ORDER`: a text is open or was refused.
/// - `ASM_EMPTY`: the slot has no run.
/// - `ASM_MEMORY`: out of memory.
#[unsafe(no_mangle)]
pub extern "C" fn asm_run_state(
    alloc: Global,
    run: &mut Slot,
    out: &mut [u8],
    written: &mut usize,
) -> i32
    ensures text { WritesText (λ text. HoldsRun (content_of run.old) (λ x. IsRunState x text))
        (EmptyOr (HoldsNoRun (content_of run.old))
        (λ c. HoldsRun (content_of run.old) (λ x. IsNoRunState x c)))
        out.old out.new written.new result }
    ensures kept { content_of run.new ≡ content_of run.old }
{
    answer(running::state(alloc, run, out, written))
}

/// Go on after the segments that were read: from now on segments may be saved and dropped.
/// On error, the slot is unchanged.
///
/// # Errors
/// - `ASM_ORDER`: it was called before, or failed, or a text is open or was refused.
/// - `ASM_EMPTY`: the slot has no run.
#[unsafe(no_mangle)]
pub extern "C" fn asm_run_read(alloc: Global, run: &mut Slot) -> i32
    ensures { Replies result (λ r. ChangesRun (content_of run.old) (content_of run.new) (r ≡ Err variant.Empty)
        (GoesOnOrNot r)) }
{
    answer(running::read(run))
}

/// Begin to save the next segment, with these moves, events and text, and write its name.
/// The text isn't checked: for the theorem it must be the journal of a storage that opened with the state that the
/// segments leave (`Continues`). On error, the slot is unchanged.
///
/// # Errors
/// - `ASM_ORDER`: the writer doesn't rest. It comes before all others but `ASM_EMPTY`.
/// - `ASM_LONG_RUN`: the run has 100,000,000 segments, or would have 2^64 moves or more.
/// - `ASM_OPENING`: it would be segment 0, and has moves or events.
/// - `ASM_SMALL`: `out` is too small, and `written` is the room that is needed.
/// - `ASM_EMPTY`: the slot has no run.
/// - `ASM_MEMORY`: out of memory.
#[unsafe(no_mangle)]
pub extern "C" fn asm_run_hand(
    alloc: Global,
    run: &mut Slot,
    moves: u64,
    events: u64,
    text: &[u8],
    out: &mut [u8],
    written: &mut usize,
) -> i32
    ensures { Replies result (λ r. ChangesRun (content_of run.old) (content_of run.new)
        ((r ≡ Err variant.Empty) × (out.new ≡ out.old) × (written.new ≡ 0))
        (Hands moves events text.now out.old out.new written.new r)) }
{
    answer(running::hand(alloc, run, moves, events, text, out, written))
}

/// Begin to drop the oldest segment, the file with this number.
/// On error, the slot is unchanged, and `number` is 0.
///
/// # Errors
/// - `ASM_ORDER`: the writer doesn't rest.
/// - `ASM_ONE_SEGMENT`: there are fewer than two segments.
/// - `ASM_EMPTY`: the slot has no run.
#[unsafe(no_mangle)]
pub extern "C" fn asm_run_drop(alloc: Global, run: &mut Slot, number: &mut u64) -> i32
    ensures { Replies result (λ r. ChangesRun (content_of run.old) (content_of run.new)
        ((r ≡ Err variant.Empty) × (number.new ≡ 0)) (DropsOrNot number.new r)) }
{
    answer(running::drop_oldest(run, number))
}

/// Return which call of the system comes next; 0 while the writer rests, and once it has ended.
/// The slot is unchanged.
///
/// # Errors
/// - `ASM_EMPTY`: the slot has no run, and `request` is 0.
#[unsafe(no_mangle)]
pub extern "C" fn asm_run_request(alloc: Global, run: &mut Slot, request: &mut i32) -> i32
    ensures asks { Replies result (λ r. IfHoldsRun (content_of run.old) ((r ≡ Err variant.Empty) × (request.new ≡ pos 0))
        (λ x. (r ≡ Ok tt) × (request.new ≡ number_of_request (request_at x.writer.stage)))) }
    ensures kept { content_of run.new ≡ content_of run.old }
{
    answer(running::request(run, request))
}

/// Note that this call was made: the next one comes, or what was ordered is done.
/// While the writer rests, opens or has ended, nothing changes.
///
/// # Errors
/// - `ASM_EMPTY`: the slot has no run.
#[unsafe(no_mangle)]
pub extern "C" fn asm_run_done(alloc: Global, run: &mut Slot) -> i32
    ensures { Replies result (λ r. ChangesRun (content_of run.old) (content_of run.new) (r ≡ Err variant.Empty)
        (λ a b. (r ≡ Ok tt) × NotesDone a b)) }
{
    answer(running::done(run))
}

/// Note that this call failed: nothing more is saved or dropped.
///
/// # Errors
/// - `ASM_EMPTY`: the slot has no run.
#[unsafe(no_mangle)]
pub extern "C" fn asm_run_failed(alloc: Global, run: &mut Slot) -> i32
    ensures { Replies result (λ r. ChangesRun (content_of run.old) (content_of run.new) (r ≡ Err variant.Empty)
        (λ a b. (r ≡ Ok tt) × NotesFailure a b)) }
{
    answer(running::failed(run))
}

/// Return what is saved, and write the digest of the last segment, of 64 digits.
/// Whatever happens then, it survives. The slot is unchanged.
///
/// # Errors
/// - `ASM_SMALL`: `out` is too small, and `written` is the room that is needed. The numbers are set.
/// - `ASM_EMPTY`: the slot has no run, and all numbers are 0.
#[unsafe(no_mangle)]
pub extern "C" fn asm_run_saved(
    alloc: Global,
    run: &mut Slot,
    saved: &mut RunNumbers,
    out: &mut [u8],
    written: &mut usize,
) -> i32
    ensures text { WritesText (λ digest. HoldsRun (content_of run.old) (λ x. HasSaved saved.new x digest))
        (λ c. (c ≡ variant.Empty) × (saved.new ≡ no_run_numbers) × HoldsNoRun (content_of run.old))
        out.old out.new written.new result }
    ensures kept { content_of run.new ≡ content_of run.old }
{
    answer(running::saved(run, saved, out, written))
}
