//! Runs in slots: reading their folders, and saving in them.
ghost use Rattle.std.specs.Prelude.{◌≡◌, ◌⊎◌, Err, IfOk, Ok, pos};
ghost use Rattle.asm_slots.specs.Answers.{EmptyOr};
ghost use Rattle.asm_slots.specs.Audits.{no_numbers};
ghost use Rattle.asm_slots.specs.RunReads.{EndsText, IsNoRunState, IsRunState, SkipsText, TakesNameBytes, TakesText};
ghost use Rattle.asm_slots.specs.RunReads.{no_segment};
ghost use Rattle.asm_slots.specs.RunWrites.{BeginsRun, DropsOrNot, GoesOnOrNot, Hands, HasBegun, HasSaved, NotesDone};
ghost use Rattle.asm_slots.specs.RunWrites.{NotesFailure, no_run_numbers, number_of_request};
ghost use Rattle.asm_slots.specs.Runs.{ChangesRun, HoldsNoRun, HoldsRun, IfHoldsRun};
ghost use Rattle.asm_slots.specs.Slots.{content_of};
ghost use Rattle.asm_slots.specs.WrittenText.{IsWritten};
ghost use Rattle.asm_slots.specs.declared.codes.Code.TheVariants as variant;
ghost use Rattle.asm_slots.specs.declared.content.Content.TheVariants as content;
ghost use Rattle.asm_slots.specs.RunView.{RunView};
ghost use Rattle.asm_run.specs.Protocol.{request_at};

use crate::audit::AuditNumbers;
use crate::codes::{Code, write};
use crate::content::Content;
use crate::lend;
use crate::run::{Run, RunNumbers, Segment};
use crate::slot::Slot;
use std::alloc::{AllocError, Global};

// Return a run that begins, in a slot's box.
fn new_run(alloc: Global) -> Result<Box<Content>, AllocError>
    ensures { IfOk result (λ b. (x : RunView) × (b.value ≡ content.Run x) × HasBegun x) }
{
    let run = Run::begin(alloc)?;
    Ok(Box::new(alloc, Content::Run(run))?)
}

/// Do what `asm_run_open` does.
pub fn open(alloc: Global, slot: &mut Slot) -> Result<(), Code>
    ensures { BeginsRun (content_of slot.old) (content_of slot.new) result }
{
    if slot.is_full() {
        return Err(Code::Taken);
    }
    *slot = Slot::holding(new_run(alloc)?);
    Ok(())
}

/// Do what `asm_run_name` does.
pub fn name(
    alloc: Global,
    slot: &mut Slot,
    name: &[u8],
    bytes: u64,
    found: &mut Segment,
) -> Result<(), Code>
    ensures { ChangesRun (content_of slot.old) (content_of slot.new)
        ((result ≡ Err variant.Empty) × (found.new ≡ no_segment))
        (TakesNameBytes name.now bytes found.new result) }
{
    *found = Segment::none();
    lend!(run: Run = slot, Err(Code::Empty));
    run.name(alloc, name, bytes, found)
}

/// Do what `asm_run_text` does.
pub fn text(alloc: Global, slot: &mut Slot, bytes: &[u8]) -> Result<(), Code>
    ensures { ChangesRun (content_of slot.old) (content_of slot.new) (result ≡ Err variant.Empty)
        (TakesText bytes.now result) }
{
    lend!(run: Run = slot, Err(Code::Empty));
    run.text(alloc, bytes)
}

/// Do what `asm_run_end` does.
pub fn end(alloc: Global, slot: &mut Slot, reported: &mut AuditNumbers) -> Result<(), Code>
    ensures { ChangesRun (content_of slot.old) (content_of slot.new)
        ((result ≡ Err variant.Empty) × (reported.new ≡ no_numbers)) (EndsText reported.new result) }
{
    *reported = AuditNumbers::none();
    lend!(run: Run = slot, Err(Code::Empty));
    run.end(alloc, reported)
}

/// Do what `asm_run_skip` does.
pub fn skip(slot: &mut Slot) -> Result<(), Code>
    ensures { ChangesRun (content_of slot.old) (content_of slot.new) (result ≡ Err variant.Empty) (SkipsText result) }
{
    lend!(run: Run = slot, Err(Code::Empty));
    run.skip()
}

/// Do what `asm_run_state` does.
pub fn state(
    alloc: Global,
    slot: &mut Slot,
    out: &mut [u8],
    written: &mut usize,
) -> Result<(), Code>
    ensures text { IsWritten (λ text. HoldsRun (content_of slot.old) (λ x. IsRunState x text))
        (EmptyOr (HoldsNoRun (content_of slot.old))
        (λ c. HoldsRun (content_of slot.old) (λ x. IsNoRunState x c)))
        out.old out.new written.new result }
    ensures kept { content_of slot.new ≡ content_of slot.old }
{
    *written = 0;
    lend!(run: Run = slot, Err(Code::Empty));
    let text = run.state(alloc)?;
    write(text.as_bytes(), out, written)
}

/// Do what `asm_run_read` does.
pub fn read(slot: &mut Slot) -> Result<(), Code>
    ensures { ChangesRun (content_of slot.old) (content_of slot.new) (result ≡ Err variant.Empty)
        (GoesOnOrNot result) }
{
    lend!(run: Run = slot, Err(Code::Empty));
    run.read()
}

/// Do what `asm_run_hand` does.
pub fn hand(
    alloc: Global,
    slot: &mut Slot,
    moves: u64,
    events: u64,
    text: &[u8],
    out: &mut [u8],
    written: &mut usize,
) -> Result<(), Code>
    ensures { ChangesRun (content_of slot.old) (content_of slot.new)
        ((result ≡ Err variant.Empty) × (out.new ≡ out.old) × (written.new ≡ 0))
        (Hands moves events text.now out.old out.new written.new result) }
{
    *written = 0;
    lend!(run: Run = slot, Err(Code::Empty));
    run.hand(alloc, moves, events, text, out, written)
}

/// Do what `asm_run_drop` does.
pub fn drop_oldest(slot: &mut Slot, number: &mut u64) -> Result<(), Code>
    ensures { ChangesRun (content_of slot.old) (content_of slot.new)
        ((result ≡ Err variant.Empty) × (number.new ≡ 0)) (DropsOrNot number.new result) }
{
    *number = 0;
    lend!(run: Run = slot, Err(Code::Empty));
    run.drop_oldest(number)
}

/// Do what `asm_run_request` does.
pub fn request(slot: &mut Slot, number: &mut i32) -> Result<(), Code>
    ensures asks { IfHoldsRun (content_of slot.old) ((result ≡ Err variant.Empty) × (number.new ≡ pos 0))
        (λ x. (result ≡ Ok tt) × (number.new ≡ number_of_request (request_at x.writer.stage))) }
    ensures kept { content_of slot.new ≡ content_of slot.old }
{
    *number = 0;
    lend!(run: Run = slot, Err(Code::Empty));
    *number = run.request();
    Ok(())
}

/// Do what `asm_run_done` does.
pub fn done(slot: &mut Slot) -> Result<(), Code>
    ensures { ChangesRun (content_of slot.old) (content_of slot.new) (result ≡ Err variant.Empty)
        (λ a b. (result ≡ Ok tt) × NotesDone a b) }
{
    lend!(run: Run = slot, Err(Code::Empty));
    run.done();
    Ok(())
}

/// Do what `asm_run_failed` does.
pub fn failed(slot: &mut Slot) -> Result<(), Code>
    ensures { ChangesRun (content_of slot.old) (content_of slot.new) (result ≡ Err variant.Empty)
        (λ a b. (result ≡ Ok tt) × NotesFailure a b) }
{
    lend!(run: Run = slot, Err(Code::Empty));
    run.fail();
    Ok(())
}

/// Do what `asm_run_saved` does.
pub fn saved(
    slot: &mut Slot,
    numbers: &mut RunNumbers,
    out: &mut [u8],
    written: &mut usize,
) -> Result<(), Code>
    ensures text { IsWritten (λ digest. HoldsRun (content_of slot.old) (λ x. HasSaved numbers.new x digest))
        (λ c. (c ≡ variant.Empty) × (numbers.new ≡ no_run_numbers) × HoldsNoRun (content_of slot.old))
        out.old out.new written.new result }
    ensures kept { content_of slot.new ≡ content_of slot.old }
{
    *numbers = RunNumbers::none();
    *written = 0;
    lend!(run: Run = slot, Err(Code::Empty));
    run.saved(numbers, out, written)
}
