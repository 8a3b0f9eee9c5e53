//! The audit of a run, as its bytes come.
ghost use Rattle.std.specs.Prelude.{◌≡◌, ◌≢◌, ◌≤◌, ◌+◌, length, take, drop, IfOk, IfSome, IfNone};
ghost use Rattle.asm_journal.specs.Reading.{HasNoLineFeed, EndsLine};
ghost use Rattle.asm_audit.specs.Limits.{line_limit};

use crate::auditor::Auditor;
use crate::error::AuditError;
use crate::progress::Counts;
use asm_update::{Aggregator, PlainState};
use std::alloc::{AllocError, Global};

/// The most bytes of a line that an audit of bytes holds, without the line feed.
pub const LINE_LIMIT: usize = 1_073_741_824;

// Return the position of the first line feed of the bytes.
fn line_feed_in(bytes: &[u8]) -> Option<usize>
    ensures some { IfSome result (λ end. EndsLine bytes.now (take end bytes.now) (drop (end + 1) bytes.now)) }
    ensures none { IfNone result (HasNoLineFeed bytes.now) }
{
    bytes.iter().position(|b| *b == b'\n')
}

/// An auditor of a run whose bytes come in pieces.
/// They may begin and end anywhere. Beside an `Auditor` it holds the bytes of the line that hasn't ended, of which there
/// are at most 1,073,741,824.
#[derive(Drop)]
pub struct ByteAuditor<A: Aggregator + Drop> {
    auditor: Auditor<A>,
    line: Vec<u8>,
    ghost open_line: { HasNoLineFeed line.items },
    ghost within: { length line.items ≤ line_limit },
}

impl<A: Aggregator + Drop> ByteAuditor<A> {
    ghost use Rattle.std.specs.Prelude.{◌++◌, ◌∷◌, [], IfErr, OnOk, OnErr};
    ghost use Rattle.asm_audit.specs.Audited.{IsLineAnswer, IsFormFault};
    ghost use Rattle.asm_audit.specs.Fed.{IsFed, IsFedAnswer, IsExtended, FeedsPrefix, FeedsLine, FeedsFirst, IsFedEnd};
    ghost use Rattle.asm_audit.specs.SoFar.{AreFedSoFar, IsFedStateSoFar};

    /// Return an auditor that has read nothing.
    pub fn new(alloc: Global, aggregator: A) -> ByteAuditor<A>
        ensures aggregator { result.auditor.aggregator ≡ aggregator }
        ensures fed { IsFed (A.meaning aggregator).part [] result.auditor.progress result.line.items }
    {
        ByteAuditor {
            auditor: Auditor::new(aggregator),
            line: Vec::new(alloc),
        }
    }

    // Take the line feed that ends the line.
    fn end_line(&mut self, alloc: Global) -> Result<(), AuditError>
        ensures aggregator { self.new.auditor.aggregator ≡ self.old.auditor.aggregator }
        ensures answer { IsLineAnswer (A.meaning self.old.auditor.aggregator).part (self.old.line.items ++ 10 ∷ [])
            self.old.auditor.progress self.new.auditor.progress result }
        ensures ended { OnOk result (self.new.line.items ≡ []) }
        ensures unchanged { OnErr result (self.new.auditor.progress ≡ self.old.auditor.progress) }
        ensures line { OnErr result (self.new.line.items ≡ self.old.line.items) }
    {
        let length = self.line.len();
        self.line.push(b'\n')?;
        match self.auditor.line(alloc, self.line.as_slice()) {
            Ok(()) => {
                self.line.clear();
                Ok(())
            }
            Err(error) => {
                self.line.truncate(length);
                Err(error)
            }
        }
    }

    // Add bytes to the line, and return how many were added: fewer if it would be too long, and none if memory is
    // refused.
    fn keep(&mut self, body: &[u8]) -> (usize, Result<(), AuditError>)
        requires { HasNoLineFeed body.now }
        ensures auditor { self.new.auditor ≡ self.old.auditor }
        ensures kept { IsExtended body.now self.old.line.items self.new.line.items result.0 result.1 }
    {
        let count = body.len().min(LINE_LIMIT - self.line.len());
        if self.line.extend_from_slice(&body[..count]).is_err() {
            return (0, Err(AuditError::Memory));
        }
        if count < body.len() {
            return (count, Err(AuditError::LongLine));
        }
        (count, Ok(()))
    }

    /// Take the next bytes up to the first line feed, or all if there is none.
    /// It returns how many of them were taken, and reports as `feed_some` does.
    pub fn feed_line(&mut self, alloc: Global, bytes: &[u8]) -> (usize, Result<(), AuditError>)
        requires { bytes.now ≢ [] }
        ensures aggregator { self.new.auditor.aggregator ≡ self.old.auditor.aggregator }
        ensures taken { FeedsLine (A.meaning self.old.auditor.aggregator).part bytes.now
            self.old.auditor.progress self.old.line.items self.new.auditor.progress self.new.line.items
            result.0 result.1 }
    {
        let Some(end) = line_feed_in(bytes) else {
            return self.keep(bytes);
        };
        let (count, kept) = self.keep(&bytes[..end]);
        if kept.is_err() {
            return (count, kept);
        }
        match self.end_line(alloc) {
            Ok(()) => (end + 1, Ok(())),
            Err(error) => (end, Err(error)),
        }
    }

    /// Take the next bytes, and return how many of them were taken.
    /// The report is that of `Auditor::line`, made at the line feed of a line; it holds whatever bytes come after
    /// these. On error, the bytes before the one at which it came were taken, and no others.
    ///
    /// # Errors
    /// - `AuditError::Journal`, `Apart` and `Illegal`: as from `Auditor::line`.
    /// - `LongLine`: at the byte that makes a line longer than 1,073,741,824 bytes.
    /// - `Memory` only if memory is refused; the rest may be passed again.
    pub fn feed_some(&mut self, alloc: Global, bytes: &[u8]) -> (usize, Result<(), AuditError>)
        ensures aggregator { self.new.auditor.aggregator ≡ self.old.auditor.aggregator }
        ensures answer { IsFedAnswer (A.meaning self.old.auditor.aggregator).part bytes.now
            self.old.auditor.progress self.old.line.items self.new.auditor.progress self.new.line.items result.1 }
        ensures taken { FeedsFirst (A.meaning self.old.auditor.aggregator).part bytes.now
            self.old.auditor.progress self.old.line.items self.new.auditor.progress self.new.line.items
            result.0 result.1 }
    {
        let mut rest = bytes;
        while !rest.is_empty() {
            let (count, fed) = self.feed_line(alloc, rest);
            rest = &rest[count..];
            if fed.is_err() {
                return (bytes.len() - rest.len(), fed);
            }
        }
        (bytes.len(), Ok(()))
    }

    /// Take the next bytes, and report as `feed_some` does.
    pub fn feed(&mut self, alloc: Global, bytes: &[u8]) -> Result<(), AuditError>
        ensures aggregator { self.new.auditor.aggregator ≡ self.old.auditor.aggregator }
        ensures answer { IsFedAnswer (A.meaning self.old.auditor.aggregator).part bytes.now
            self.old.auditor.progress self.old.line.items self.new.auditor.progress self.new.line.items result }
        ensures taken { FeedsPrefix (A.meaning self.old.auditor.aggregator).part bytes.now
            self.old.auditor.progress self.old.line.items self.new.auditor.progress self.new.line.items }
    {
        let (_, fed) = self.feed_some(alloc, bytes);
        fed
    }

    /// Return how many calls, moves and parts the run has, if no further byte comes.
    /// The bytes are then complete legal parts, at least one. The auditor is unchanged, and further bytes may come.
    ///
    /// # Errors
    /// - `AuditError::Journal` with `Cut`: the last part lacks an event, or no byte came.
    /// - `Journal` with `Cut` or `NotJson`: the last line has no line feed.
    /// - `Memory` only if memory is refused, for such a line.
    pub fn finish(&mut self, alloc: Global) -> Result<Counts, AuditError>
        ensures answer { IsFedEnd (A.meaning self.old.auditor.aggregator).part self.old.auditor.progress
            self.old.line.items result }
        ensures form { IfErr result IsFormFault }
        ensures auditor { self.new.auditor ≡ self.old.auditor }
        ensures line { self.new.line.items ≡ self.old.line.items }
    {
        if self.line.is_empty() {
            return self.auditor.finish();
        }
        match self.auditor.line(alloc, self.line.as_slice()) {
            Err(error) => Err(error),
            Ok(()) => unreachable!(),
        }
    }

    /// Return the numbers of right answers, fired moves and complete parts so far.
    /// They are those of the lines that have ended. A part is complete once all its events were taken.
    pub fn counts(&self) -> Counts
        ensures { AreFedSoFar (A.meaning self.now.auditor.aggregator).part self.now.auditor.progress
            self.now.line.items result }
    {
        self.auditor.counts()
    }

    /// Return the state that all moves of the lines that have ended leave.
    /// It is `None` if no part has begun. It costs a copy of each value.
    ///
    /// # Errors
    /// - `AllocError` only if memory is refused.
    pub fn state(&self, alloc: Global) -> Result<Option<PlainState>, AllocError>
        ensures { IfOk result (IsFedStateSoFar (A.meaning self.now.auditor.aggregator).part
            self.now.auditor.progress self.now.line.items) }
    {
        self.auditor.state(alloc)
    }
}
