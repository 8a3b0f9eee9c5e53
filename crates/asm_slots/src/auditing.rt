//! Feeding bytes to audits, and their answers as codes and numbers.
ghost use Rattle.std.specs.Prelude.{◌≡◌, ◌⊎◌, [], IfErr, IfOk, Err, None, string_bytes};
ghost use Rattle.asm_slots.specs.Answers.{EmptyOr, IsMemory};
ghost use Rattle.asm_slots.specs.Audits.{Audits, EndsAudit, HasAudited, HasNoState, IsAuditState, code_of_audit, counts_of};
ghost use Rattle.asm_slots.specs.Audits.{no_numbers, numbers_of};
ghost use Rattle.asm_slots.specs.AuditView.{AuditView, WasFed};
ghost use Rattle.asm_slots.specs.Slots.{Holds, Lacks, an_audit, content_of};
ghost use Rattle.asm_slots.specs.WrittenText.{IsWritten};
ghost use Rattle.asm_slots.specs.declared.content.Content.TheVariants as content;

use crate::audit::{Audit, AuditNumbers};
use crate::codes::{Code, write};
use crate::content::Content;
use crate::journals::code_of_error;
use crate::lend;
use crate::slot::Slot;
use crate::take_and_put::put_shell;
use asm_audit::{AuditError, Counts};
use asm_journal::state_text;
use std::alloc::{AllocError, Global};

impl AuditNumbers {
    pub fn none() -> AuditNumbers
        ensures { result ≡ no_numbers }
    {
        AuditNumbers {
            parts: 0,
            calls: 0,
            moves: 0,
        }
    }

    pub(crate) fn of(counts: Counts) -> AuditNumbers
        ensures { counts_of result ≡ counts }
    {
        AuditNumbers {
            parts: counts.parts,
            calls: counts.calls,
            moves: counts.moves,
        }
    }

    // Return the numbers of a segment, and of a call or a line in it.
    fn at(part: u64, number: u64) -> AuditNumbers
        ensures { result ≡ record { parts = part; calls = number; moves = 0 } }
    {
        AuditNumbers {
            parts: part,
            calls: number,
            moves: 0,
        }
    }
}

// Return the code of the error, and set its numbers.
pub(crate) fn code_of_audit_error(error: AuditError, reported: &mut AuditNumbers) -> Code
    ensures code { result ≡ code_of_audit error }
    ensures numbers { reported.new ≡ numbers_of error }
{
    *reported = AuditNumbers::none();
    match error {
        AuditError::Journal { part, fault } => {
            let mut line = 0;
            let code = code_of_error(fault, &mut line);
            *reported = AuditNumbers::at(part, line);
            code
        }
        AuditError::Illegal { part, call } => {
            *reported = AuditNumbers::at(part, call);
            Code::Illegal
        }
        AuditError::Apart { part } => {
            *reported = AuditNumbers::at(part, 0);
            Code::Apart
        }
        AuditError::LongLine => Code::LongLine,
        AuditError::Memory => Code::Memory,
    }
}

// Feed the bytes to the audit; write how many of them were read, and the numbers.
fn feed(
    alloc: Global,
    audit: &mut Audit,
    bytes: &[u8],
    taken: &mut usize,
    reported: &mut AuditNumbers,
) -> Result<(), Code>
    ensures { HasAudited bytes.now taken.new reported.new result audit.old audit.new }
{
    let (count, fed) = audit.feed(alloc, bytes);
    *taken = count;
    match fed {
        Ok(()) => {
            *reported = AuditNumbers::of(audit.counts());
            Ok(())
        }
        Err(error) => Err(code_of_audit_error(error, reported)),
    }
}

// Feed the bytes to the audit in the slot.
fn feed_in(
    alloc: Global,
    slot: &mut Slot,
    bytes: &[u8],
    taken: &mut usize,
    reported: &mut AuditNumbers,
) -> Result<(), Code>
    ensures audited { Holds an_audit (content_of slot.old)
        (λ a. Holds an_audit (content_of slot.new) (HasAudited bytes.now taken.new reported.new result a))
        ⊎ (Lacks an_audit (content_of slot.old) × (content_of slot.new ≡ content_of slot.old) × (result ≡ Err Code.Taken)
        × (taken.new ≡ taken.old) × (reported.new ≡ reported.old)) }
{
    lend!(audit: Audit = slot, Err(Code::Taken));
    feed(alloc, audit, bytes, taken, reported)
}

// Return an audit that has read nothing, in a slot's box.
fn new_audit(alloc: Global) -> Result<Box<Content>, AllocError>
    ensures { IfOk result (λ b. (a : AuditView) × (b.value ≡ content.Audit a) × WasFed [] a) }
{
    let audit = Audit::new(alloc)?;
    Ok(Box::new(alloc, Content::Audit(audit))?)
}

/// Do what `asm_audit` does.
pub fn audit(
    alloc: Global,
    slot: &mut Slot,
    bytes: &[u8],
    taken: &mut usize,
    reported: &mut AuditNumbers,
) -> Result<(), Code>
    ensures { Audits bytes.now (content_of slot.old) (content_of slot.new) taken.new reported.new result }
{
    *taken = 0;
    *reported = AuditNumbers::none();
    if slot.is_full() {
        return feed_in(alloc, slot, bytes, taken, reported);
    }
    put_shell(slot, new_audit(alloc)?);
    feed_in(alloc, slot, bytes, taken, reported)
}

/// Do what `asm_audited` does.
pub fn audited(alloc: Global, slot: &mut Slot, reported: &mut AuditNumbers) -> Result<(), Code>
    ensures ends { EndsAudit (content_of slot.old) reported.new result }
    ensures kept { content_of slot.new ≡ content_of slot.old }
{
    *reported = AuditNumbers::none();
    lend!(audit: Audit = slot, Err(Code::Empty));
    match audit.finish(alloc) {
        Ok(counts) => {
            *reported = AuditNumbers::of(counts);
            Ok(())
        }
        Err(error) => Err(code_of_audit_error(error, reported)),
    }
}

// Return the text of the state that the moves so far leave.
fn state_so_far(alloc: Global, audit: &Audit) -> Result<String, Code>
    ensures ok { IfOk result (λ text. IsAuditState audit.now (string_bytes text)) }
    ensures err { IfErr result (λ c. IsMemory c ⊎ ((c ≡ Code.NoPart) × HasNoState audit.now)) }
{
    match audit.state(alloc)? {
        Some(left) => Ok(state_text(alloc, &left)?),
        None => Err(Code::NoPart),
    }
}

/// Do what `asm_audit_state` does.
pub fn audit_state(
    alloc: Global,
    slot: &mut Slot,
    out: &mut [u8],
    written: &mut usize,
) -> Result<(), Code>
    ensures text { IsWritten (λ text. Holds an_audit (content_of slot.old) (λ a. IsAuditState a text))
        (EmptyOr (Lacks an_audit (content_of slot.old)) (λ c. IsMemory c ⊎ ((c ≡ Code.NoPart) × Holds an_audit (content_of slot.old) HasNoState)))
        out.old out.new written.new result }
    ensures kept { content_of slot.new ≡ content_of slot.old }
{
    *written = 0;
    lend!(audit: Audit = slot, Err(Code::Empty));
    let text = state_so_far(alloc, audit)?;
    write(text.as_bytes(), out, written)
}
