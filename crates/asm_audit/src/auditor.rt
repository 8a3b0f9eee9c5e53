//! The audit of a run, line by line.
ghost use Rattle.std.specs.Prelude.{◌≡◌, [], OnErr, IfOk};
ghost use Rattle.asm_audit.specs.Text.{IsLineBefore};
ghost use Rattle.asm_audit.specs.Audited.{IsAudited, IsLineAnswer, JudgesEnded, IsEnd, IsCutEnd};
ghost use Rattle.asm_audit.specs.SoFar.{AreSoFar, IsStateSoFar};

use crate::error::AuditError;
use crate::progress::{Counts, Progress};
use asm_update::{Aggregator, PlainState};
use std::alloc::{AllocError, Global};

/// An auditor of a run, which judges each answered call as its line comes.
/// It holds the state that the moves so far leave, but no call. A run is written in parts, one after the other. Each
/// part is a complete journal, of either version, and opens with the state that the part before it leaves; its agents
/// and its capacity are its own.
#[derive(Drop)]
pub struct Auditor<A: Aggregator + Drop> {
    aggregator: A,
    progress: Progress,
}

impl<A: Aggregator + Drop> Auditor<A> {
    /// Return an auditor that has read nothing.
    pub fn new(aggregator: A) -> Auditor<A>
        ensures aggregator { result.aggregator ≡ aggregator }
        ensures audited { IsAudited (A.meaning aggregator).part [] result.progress }
    {
        Auditor {
            aggregator,
            progress: Progress::new(),
        }
    }

    /// Take the next line, with the line feed that ends it.
    /// Each answer so far is then right. What is reported holds whatever lines come after this one. On error, nothing
    /// changes, so that with more memory the line may be taken again.
    ///
    /// A line costs what reading and judging it cost, independent of how many came before; the header of a further part
    /// costs a copy of the state too.
    ///
    /// # Errors
    /// - `AuditError::Journal`: the line is at fault, as `from_text` reports it of its journal. The last line of a text
    ///   may come without a line feed; it is then cut or, if it isn't JSON, reported so.
    /// - `Apart`: a part begins, but opens with another state than the part before it leaves.
    /// - `Illegal`: the line's event is the first whose answer isn't the one that a sequential storage gives.
    /// - `Memory` only if memory is refused.
    pub fn line(&mut self, alloc: Global, line: &[u8]) -> Result<(), AuditError>
        requires { IsLineBefore line.now [] }
        ensures aggregator { self.new.aggregator ≡ self.old.aggregator }
        ensures answer { IsLineAnswer (A.meaning self.old.aggregator).part line.now self.old.progress self.new.progress result }
        ensures unchanged { OnErr result (self.new.progress ≡ self.old.progress) }
        ensures ended { JudgesEnded line.now result }
    {
        self.progress.line(alloc, &self.aggregator, line)
    }

    /// Return how many calls, moves and parts the run has, if no further line comes.
    /// It takes no memory.
    ///
    /// # Errors
    /// - `AuditError::Journal` with `Cut`, and no other: the last part lacks an event, or no line came at all.
    pub fn finish(&self) -> Result<Counts, AuditError>
        ensures answer { IsEnd (A.meaning self.now.aggregator).part self.now.progress result }
        ensures cut { IsCutEnd result }
    {
        self.progress.finish()
    }

    /// Return the numbers of right answers, fired moves and complete parts so far.
    /// A part is complete once all its events were taken.
    pub fn counts(&self) -> Counts
        ensures { AreSoFar (A.meaning self.now.aggregator).part self.now.progress result }
    {
        self.progress.counts()
    }

    /// Return the state that all moves so far leave; `None` if no part has begun.
    /// It costs a copy of each value.
    ///
    /// # Errors
    /// - `AllocError` only if memory is refused.
    pub fn state(&self, alloc: Global) -> Result<Option<PlainState>, AllocError>
        ensures { IfOk result (IsStateSoFar (A.meaning self.now.aggregator).part self.now.progress) }
    {
        self.progress.state(alloc)
    }
}
