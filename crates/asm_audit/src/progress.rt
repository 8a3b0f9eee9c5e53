//! How far an audit has come.
ghost use Rattle.std.specs.Prelude.{◌≡◌, [], List, ℕ, IfOk, OnErr};
ghost use Rattle.asm_update.specs.Fire.{Part};
ghost use Rattle.asm_audit.specs.Text.{IsLineBefore};
ghost use Rattle.asm_audit.specs.Step.{whole_with, all_with, is_between, IsOnTest};
ghost use Rattle.asm_audit.specs.Audited.{IsAudited, IsLineAnswer, JudgesEnded, IsEnd, IsCutEnd};
ghost use Rattle.asm_audit.specs.SoFar.{AreSoFar, IsStateSoFar};

use crate::error::{AuditError, part_fault};
use crate::part_auditor::{PartAuditor, read_part_header};
use asm_journal::{Header, JournalError};
use asm_update::{Aggregator, PlainState};
use std::alloc::{AllocError, Global};

/// How many calls, moves and parts a run of legal parts has.
/// A number saturates at 18,446,744,073,709,551,615.
#[derive(Clone, Copy, Debug, Drop, PartialEq, Eq)]
pub struct Counts {
    /// The answered calls.
    pub calls: u64,
    /// The fired moves.
    pub moves: u64,
    /// The parts.
    pub parts: u64,
}

/// How far an audit has come.
#[derive(Drop)]
pub(crate) struct Progress {
    /// The counts of the parts before the one that is being read.
    pub(crate) before: Counts,
    /// The part that is being read; none before the first header.
    pub(crate) current: Option<PartAuditor>,
}

impl Counts {
    /// Return the counts with the part that is being read.
    fn with(&self, part: &PartAuditor) -> Counts
        ensures { result ≡ whole_with self.now part.now }
    {
        Counts {
            calls: self.calls.saturating_add(u64::from(part.taken)),
            moves: self.moves.saturating_add(u64::from(part.state.number())),
            parts: self.parts.saturating_add(1),
        }
    }
}

impl Progress {
    /// Return the progress of an audit that has read nothing.
    pub(crate) fn new() -> Progress
        ensures { (part : Part) → IsAudited part [] result }
    {
        Progress {
            before: Counts {
                calls: 0,
                moves: 0,
                parts: 0,
            },
            current: None,
        }
    }

    /// Return the counts of all parts, with the one that is being read.
    fn all(&self) -> Counts
        ensures { result ≡ all_with self.now.before self.now.current }
    {
        match &self.current {
            Some(part) => self.before.with(part),
            None => self.before,
        }
    }

    /// Return whether the header continues the part that was read; the first one does.
    fn is_continued_by(&self, alloc: Global, header: &Header) -> Result<bool, AllocError>
        ensures { IfOk result (IsOnTest self.now.current header.now.init) }
    {
        match &self.current {
            Some(part) => part.leads_to(alloc, header),
            None => Ok(true),
        }
    }

    /// Take the header of the next part.
    fn open(&mut self, alloc: Global, line: &[u8]) -> Result<(), AuditError>
        requires line { IsLineBefore line.now [] }
        requires between { is_between self.old.current }
        ensures answer { (part : Part) → IsLineAnswer part line.now self.old self.new result }
        ensures unchanged { OnErr result (self.new ≡ self.old) }
        ensures ended { JudgesEnded line.now result }
    {
        let before = self.all();
        let header = read_part_header(alloc, before.parts, line)?;
        if !self.is_continued_by(alloc, &header)? {
            return Err(AuditError::Apart { part: before.parts });
        }
        let part = PartAuditor::new(alloc, before.parts, header)?;
        self.before = before;
        self.current = Some(part);
        Ok(())
    }

    /// Take the next line.
    pub(crate) fn line<A: Aggregator>(
        &mut self,
        alloc: Global,
        aggregator: &A,
        line: &[u8],
    ) -> Result<(), AuditError>
        requires { IsLineBefore line.now [] }
        ensures answer { IsLineAnswer (A.meaning aggregator.now).part line.now self.old self.new result }
        ensures unchanged { OnErr result (self.new ≡ self.old) }
        ensures ended { JudgesEnded line.now result }
    {
        match &mut self.current {
            Some(part) => {
                if part.is_complete() {
                    return self.open(alloc, line);
                }
                part.take(alloc, aggregator, line)?;
                Ok(())
            }
            None => self.open(alloc, line),
        }
    }

    /// Return the counts of all that was read, if no line comes after it.
    pub(crate) fn finish(&self) -> Result<Counts, AuditError>
        ensures answer { (part : Part) → IsEnd part self.now result }
        ensures cut { IsCutEnd result }
    {
        match &self.current {
            Some(part) => {
                if part.is_complete() {
                    return Ok(self.before.with(part));
                }
                Err(part_fault(self.before.parts, JournalError::Cut))
            }
            None => Err(part_fault(0, JournalError::Cut)),
        }
    }

    /// Return the counts of all that was read so far.
    pub(crate) fn counts(&self) -> Counts
        ensures { (part : Part) → AreSoFar part self.now result }
    {
        match &self.current {
            Some(part) => {
                let all = self.before.with(part);
                if part.is_complete() {
                    return all;
                }
                Counts {
                    calls: all.calls,
                    moves: all.moves,
                    parts: self.before.parts,
                }
            }
            None => self.before,
        }
    }

    /// Return the state that all moves so far leave; `None` before the first header.
    pub(crate) fn state(&self, alloc: Global) -> Result<Option<PlainState>, AllocError>
        ensures { IfOk result (λ s. (part : Part) → IsStateSoFar part self.now s) }
    {
        match &self.current {
            Some(part) => Ok(Some(part.plain_state(alloc)?)),
            None => Ok(None),
        }
    }
}
