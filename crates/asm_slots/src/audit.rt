//! Audits of runs, and the numbers that they report to C.
#![tactic(auto, unfolding(asm_aggregate::specs::Standard::standard_meaning))]

ghost use Rattle.std.specs.Prelude.{◌≡◌, [], IfErr, IfOk};
ghost use Rattle.asm_audit.specs.Audited.{IsFormFault};
ghost use Rattle.asm_audit.specs.Fed.{FeedsFirst, IsFedAnswer, IsFedEnd};
ghost use Rattle.asm_audit.specs.SoFar.{AreFedSoFar, IsFedStateSoFar};
ghost use Rattle.asm_slots.specs.AuditView.{WasFed};
ghost use Rattle.asm_slots.specs.Standard.{part};

use asm_aggregate::{Standard, standard};
use asm_audit::{AuditError, ByteAuditor, Counts};
use asm_update::PlainState;
use std::alloc::{AllocError, Global};
use std::marker::Model;

/// The numbers that an audit reports.
#[repr(C)]
#[derive(Drop)]
pub struct AuditNumbers {
    /// How many segments are complete; after a fault, the number of its segment.
    ///
    /// Segments are counted from 0.
    pub parts: u64,
    /// How many calls were judged, in all segments.
    ///
    /// After a fault, the number of the call with the wrong answer, or of the line at fault.
    pub calls: u64,
    /// How many moves were fired, in all segments.
    pub moves: u64,
}

/// An audit of a run, with the standard aggregator.
#[derive(Drop)]
pub struct Audit {
    // Boxed, so that what a slot holds stays small.
    auditor: Box<ByteAuditor<Standard>>,
}

impl Model for Audit {
    ghost use Rattle.asm_audit.specs.contracts.progress.Progress.{the_row as progress_row};
    ghost use Rattle.asm_slots.specs.AuditView.{AuditView, audit_code};

    ghost Value = { AuditView };

    ghost coded = { audit_code progress_row.coded };

    ghost view = { λ a. record { progress = a.auditor.value.auditor.progress; line = a.auditor.value.line.items } };
}

impl Audit {
    /// Return an audit that has read nothing.
    pub(crate) fn new(alloc: Global) -> Result<Audit, AllocError>
        ensures { IfOk result (WasFed []) }
    {
        let auditor = Box::new(alloc, ByteAuditor::new(alloc, standard()))?;
        Ok(Audit { auditor })
    }

    /// Read the next bytes; return how many of them were read, and the answer.
    pub(crate) fn feed(&mut self, alloc: Global, bytes: &[u8]) -> (usize, Result<(), AuditError>)
        ensures answer { IsFedAnswer part bytes.now self.old.progress self.old.line self.new.progress self.new.line result.1 }
        ensures first { FeedsFirst part bytes.now self.old.progress self.old.line self.new.progress self.new.line
            result.0 result.1 }
    {
        self.auditor.feed_some(alloc, bytes)
    }

    /// Return the answer if no further byte comes; the audit is unchanged.
    pub(crate) fn finish(&mut self, alloc: Global) -> Result<Counts, AuditError>
        ensures answer { IsFedEnd part self.old.progress self.old.line result }
        ensures form { IfErr result IsFormFault }
        ensures same { self.new ≡ self.old }
    {
        self.auditor.finish(alloc)
    }

    /// Return the numbers so far.
    pub(crate) fn counts(&self) -> Counts
        ensures { AreFedSoFar part self.now.progress self.now.line result }
    {
        self.auditor.counts()
    }

    /// Return the state that the moves so far leave, if a segment has begun.
    pub(crate) fn state(&self, alloc: Global) -> Result<Option<PlainState>, AllocError>
        ensures { IfOk result (IsFedStateSoFar part self.now.progress self.now.line) }
    {
        self.auditor.state(alloc)
    }
}
