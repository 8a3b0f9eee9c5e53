//! What an audit says of the texts of a run, up to its first fault.
ghost use Rattle.std.specs.Prelude.{◌≡◌, ◌++◌, [], ℕ, List, None, Some, IfOk, IfSome};
ghost use Rattle.asm_audit.specs.Audited.{IsVerdict};
ghost use Rattle.asm_run.specs.Judge.{Judges};

use asm_audit::{AuditError, ByteAuditor, Counts};
use asm_update::Aggregator;
use std::alloc::Global;

/// An auditor of bytes that retains the first fault.
#[derive(Drop)]
pub struct Judge<A: Aggregator + Drop> {
    /// The auditor of the bytes up to the fault.
    pub auditor: ByteAuditor<A>,
    /// The first fault.
    pub fault: Option<AuditError>,
}

impl<A: Aggregator + Drop> Judge<A> {
    // Return a judge that was fed nothing.
    pub(crate) fn new(alloc: Global, aggregator: A) -> Judge<A>
        ensures aggregator { result.auditor.auditor.aggregator ≡ aggregator }
        ensures judges { Judges (A.meaning aggregator).part [] result.auditor.auditor.progress
            result.auditor.line.items result.fault }
        ensures open { result.fault ≡ None }
    {
        Judge {
            auditor: ByteAuditor::new(alloc, aggregator),
            fault: None,
        }
    }

    // Take the next bytes.
    pub(crate) fn feed(&mut self, alloc: Global, bytes: &[u8])
        ensures aggregator { self.new.auditor.auditor.aggregator ≡ self.old.auditor.auditor.aggregator }
        ensures judges { (text : List ℕ) →
            Judges (A.meaning self.old.auditor.auditor.aggregator).part text self.old.auditor.auditor.progress
            self.old.auditor.line.items self.old.fault →
            Judges (A.meaning self.old.auditor.auditor.aggregator).part
            (text ++ bytes.now) self.new.auditor.auditor.progress self.new.auditor.line.items self.new.fault }
        ensures stays { IfSome self.old.fault (λ e. self.new.fault ≡ Some e) }
    {
        match self.fault {
            Some(_) => return,
            None => {}
        }
        let fed = self.auditor.feed(alloc, bytes);
        self.fault = fed.err();
    }

    // Return the counts of the complete text, or its first fault.
    pub(crate) fn finish(&mut self, alloc: Global) -> Result<Counts, AuditError>
        ensures aggregator { self.new.auditor.auditor.aggregator ≡ self.old.auditor.auditor.aggregator }
        ensures progress { self.new.auditor.auditor.progress ≡ self.old.auditor.auditor.progress }
        ensures line { self.new.auditor.line.items ≡ self.old.auditor.line.items }
        ensures fault { self.new.fault ≡ self.old.fault }
        ensures verdict { (text : List ℕ) →
            Judges (A.meaning self.old.auditor.auditor.aggregator).part text self.old.auditor.auditor.progress
            self.old.auditor.line.items self.old.fault →
            IsVerdict (A.meaning self.old.auditor.auditor.aggregator).part text result }
        ensures open { IfOk result (λ _. self.old.fault ≡ None) }
    {
        match self.fault {
            Some(error) => return Err(error),
            None => {}
        }
        self.auditor.finish(alloc)
    }
}
