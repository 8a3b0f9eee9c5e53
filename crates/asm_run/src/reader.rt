//! The segments of a run, read one after the other.
ghost use Rattle.std.specs.Prelude.{◌≡◌, ◌≢◌, ◌⊎◌, ◌↔◌, ◌<◌, ◌+◌, ◌^◌, ◌++◌, ◌∷◌, [], ℕ, List};
ghost use Rattle.std.specs.Prelude.{None, Some, IfOk, IfErr, IfSome, OnOk, OnErr, IsErrOf};
ghost use Rattle.asm_audit.specs.Audited.{IsVerdict};
ghost use Rattle.asm_run.specs.Name.{IsName};
ghost use Rattle.asm_run.specs.Protocol.{Segment};
ghost use Rattle.asm_run.specs.Reader.{part_of, WasRead, HasRead, IsWithin, IsCounted, HasFed};
ghost use Rattle.asm_run.specs.Reader.{IsRefusedName, IsRefusedText, IsStateAfter, texts_of};
ghost use Rattle.asm_run.specs.Run.{IsExtentOf};
ghost use Rattle.asm_run.specs.declared.error.ReadError.TheVariants as read_error;
ghost use Rattle.asm_run.specs.declared.trail.Place.TheVariants as at;

use crate::error::ReadError;
use crate::judge::Judge;
use crate::name::SegmentName;
use crate::trail::{Place, Trail, are_same_counts, counts_with};
use crate::writer::Extent;
use asm_audit::Counts;
use asm_update::{Aggregator, PlainState};
use std::alloc::{AllocError, Global};

/// Reads the segments of a run in order, each text once and in pieces of any length.
///
/// For each file that ends in `.journal`, in ascending order of names: `name`, then `feed` with all bytes of its text,
/// then `end`. After a refused text nothing more is read.
#[derive(Drop)]
pub struct RunReader<A: Aggregator + Drop> {
    /// What the texts are.
    pub judge: Judge<A>,
    /// How far the names, the digests and the counts have come.
    pub trail: Trail,
}

impl<A: Aggregator + Drop> RunReader<A> {
    /// Return a reader that has read nothing.
    pub fn new(alloc: Global, aggregator: A) -> RunReader<A>
        ensures aggregator { result.judge.auditor.auditor.aggregator ≡ aggregator }
        ensures read { HasRead result [] [] }
    {
        RunReader {
            judge: Judge::new(alloc, aggregator),
            trail: Trail::new(),
        }
    }

    /// Begin the segment of this name, whose text has so many bytes.
    /// The first one may have any number; the segments before it were dropped.
    ///
    /// # Errors
    ///
    /// The first of these:
    ///
    /// - `Busy`: the text of another name comes next, or a text was refused.
    /// - `Name`: it isn't the name of a segment.
    /// - `Number`: its number isn't the next one.
    /// - `Opening`: it is that of segment 0, and has events, or moves or a digest before it.
    /// - `Previous`: it says another digest, or another number of moves, of the segments before it.
    /// - `Damaged`: the text has 2^64 - 1 bytes.
    /// - `Many`: with it the run has 2^64 moves or more.
    /// - `Memory` only if memory is refused.
    ///
    /// On error, nothing changes.
    pub fn name(&mut self, alloc: Global, name: &str, length: u64) -> Result<SegmentName, ReadError>
        ensures aggregator { self.new.judge.auditor.auditor.aggregator ≡ self.old.judge.auditor.auditor.aggregator }
        ensures ok { IfOk result (λ n. (skipped segments : List Segment) → HasRead self.old skipped segments →
            IsWithin self.new skipped segments name.now []) }
        ensures named { IfOk result (λ n. IsName name.now n × (n ≡ self.new.trail.segment.name)) }
        ensures length { OnOk result (self.new.trail.segment.length ≡ length) }
        ensures judge { self.new.judge ≡ self.old.judge }
        ensures busy { IsErrOf result read_error.Busy ↔ (self.old.trail.place ≢ at.Between) }
        ensures error { IfErr result (IsRefusedName self.old.trail name.now length) }
        ensures unchanged { OnErr result (self.new ≡ self.old) }
    {
        if !self.trail.place.is_between() {
            return Err(ReadError::Busy);
        }
        let parsed = match SegmentName::parse(name) {
            Some(parsed) => parsed,
            None => return Err(ReadError::Name),
        };
        if self.trail.from.segments == self.trail.end.segments {
            self.trail.begin_first(alloc, parsed, length)?;
        } else {
            self.trail.begin_next(alloc, parsed, length)?;
        }
        Ok(parsed)
    }

    /// Take the next bytes of the text; `end` reports its faults. Where no text comes next, nothing changes.
    pub fn feed(&mut self, alloc: Global, bytes: &[u8])
        ensures aggregator { self.new.judge.auditor.auditor.aggregator ≡ self.old.judge.auditor.auditor.aggregator }
        ensures fed { (skipped segments : List Segment) (title text : List ℕ) →
            IsWithin self.old skipped segments title text →
            IsWithin self.new skipped segments title (text ++ bytes.now) }
        ensures stays { IfSome self.old.judge.fault (λ e. self.new.judge.fault ≡ Some e) }
        ensures length { self.new.trail.segment.length ≡ self.old.trail.segment.length }
        ensures unchanged { self.old.trail.place ≢ at.Within → self.new ≡ self.old }
    {
        if !self.trail.place.is_within() {
            return;
        }
        self.trail.segment.feed(bytes);
        self.judge.feed(alloc, bytes);
    }

    // Return the counts with the segment, if its text is the one that was saved and continues the run.
    fn verdict(&mut self, alloc: Global) -> Result<Counts, ReadError>
        ensures aggregator { self.new.judge.auditor.auditor.aggregator ≡ self.old.judge.auditor.auditor.aggregator }
        ensures trail { self.new.trail ≡ record self.old.trail { segment = self.new.trail.segment } }
        ensures next { self.new.trail.segment.next ≡ self.old.trail.segment.next }
        ensures progress { self.new.judge.auditor.auditor.progress ≡ self.old.judge.auditor.auditor.progress }
        ensures line { self.new.judge.auditor.line.items ≡ self.old.judge.auditor.line.items }
        ensures fault { self.new.judge.fault ≡ self.old.judge.fault }
        ensures ok { IfOk result (λ counts. (skipped segments : List Segment) (title text : List ℕ) →
            IsWithin self.old skipped segments title text →
            IsCounted (part_of self.old) self.old.trail self.old.judge.fault segments text counts) }
        ensures error { IfErr result (λ e. (skipped segments : List Segment) (title text : List ℕ) →
            IsWithin self.old skipped segments title text →
            IsRefusedText (part_of self.old) self.old.trail segments text e) }
        ensures not_busy { IsErrOf result read_error.Busy → ⊥ }
    {
        let name = self.trail.segment.name;
        if !self.trail.segment.finish() {
            return Err(ReadError::Damaged);
        }
        let counts = match self.judge.finish(alloc) {
            Ok(counts) => counts,
            Err(error) => return Err(ReadError::Audit(error)),
        };
        let Some(next) = counts_with(&self.trail.counts, name.moves, name.events) else {
            return Err(ReadError::Many);
        };
        if are_same_counts(&counts, &next) {
            return Ok(next);
        }
        Err(ReadError::Counts)
    }

    /// End the segment, if its text is the one that was saved and continues the run.
    ///
    /// # Errors
    ///
    /// The first of these:
    ///
    /// - `Busy`: no text comes next. Nothing changes.
    /// - `Damaged`: the text has another digest or another length.
    /// - `Audit`: its fault as the next part of the run, or refused memory.
    /// - `Many`: the counts of the run are beyond 64 bits.
    /// - `Counts`: it isn't one journal with the moves and events that its name says.
    ///
    /// After another one than `Busy` nothing more is read. After refused memory a new reader may read the run again.
    pub fn end(&mut self, alloc: Global) -> Result<(), ReadError>
        ensures aggregator { self.new.judge.auditor.auditor.aggregator ≡ self.old.judge.auditor.auditor.aggregator }
        ensures ok { OnOk result ((skipped segments : List Segment) (title text : List ℕ) →
            IsWithin self.old skipped segments title text →
            HasRead self.new skipped (segments ++ (title, text) ∷ [])) }
        ensures busy { IsErrOf result read_error.Busy ↔ (self.old.trail.place ≢ at.Within) }
        ensures error { IfErr result (λ e. (skipped segments : List Segment) (title text : List ℕ) →
            IsWithin self.old skipped segments title text →
            IsRefusedText (part_of self.old) self.old.trail segments text e) }
        ensures fault { self.new.judge.fault ≡ self.old.judge.fault }
        ensures refused { OnErr result (self.old.trail.place ≡ at.Within →
            self.new.trail ≡ record self.old.trail { place = at.Refused; segment = self.new.trail.segment }) }
        ensures unchanged { self.old.trail.place ≢ at.Within → self.new ≡ self.old }
    {
        if !self.trail.place.is_within() {
            return Err(ReadError::Busy);
        }
        match self.verdict(alloc) {
            Ok(counts) => {
                self.trail.end = self.trail.segment.next;
                self.trail.counts = counts;
                self.trail.place = Place::Between;
                Ok(())
            }
            Err(error) => {
                self.trail.place = Place::Refused;
                Err(error)
            }
        }
    }

    /// End the segment without its text: only its name is checked. No text was fed yet.
    ///
    /// # Errors
    ///
    /// - `Busy`: no text comes next, or the reader was fed one. Nothing changes.
    pub fn skip(&mut self) -> Result<(), ReadError>
        ensures aggregator { self.new.judge.auditor.auditor.aggregator ≡ self.old.judge.auditor.auditor.aggregator }
        ensures ok { OnOk result ((skipped segments : List Segment) (title text any : List ℕ) →
            IsWithin self.old skipped segments title text →
            HasRead self.new (skipped ++ (title, any) ∷ []) []) }
        ensures none { OnOk result ((skipped segments : List Segment) (title text : List ℕ) →
            IsWithin self.old skipped segments title text → segments ≡ []) }
        ensures busy { IfErr result (λ e. (e ≡ read_error.Busy) ×
            ((self.old.trail.place ≢ at.Within) ⊎ HasFed self.old.trail self.old.judge.fault)) }
        ensures unchanged { OnErr result (self.new ≡ self.old) }
    {
        if !self.trail.place.is_within() {
            return Err(ReadError::Busy);
        }
        if self.trail.counts.parts != 0 || self.trail.segment.taken != 0 {
            return Err(ReadError::Busy);
        }
        match self.judge.fault {
            Some(_) => return Err(ReadError::Busy),
            None => {}
        }
        let end = self.trail.segment.next;
        self.trail.end = end;
        self.trail.since = end;
        self.trail.place = Place::Between;
        Ok(())
    }

    /// Return the extent of what was read, after which a writer goes on.
    pub fn extent(&self) -> Extent
        ensures { (skipped segments : List Segment) → WasRead (part_of self.now) self.now.trail skipped segments →
            IsExtentOf (skipped ++ segments) result }
    {
        if self.trail.from.segments == self.trail.end.segments {
            return Extent::none();
        }
        Extent {
            first: self.trail.from.segments,
            end: self.trail.end,
        }
    }

    /// Return the state that the segments leave; `None` if no text was read.
    ///
    /// # Errors
    ///
    /// - `AllocError` only if memory is refused.
    pub fn state(&self, alloc: Global) -> Result<Option<PlainState>, AllocError>
        ensures { IfOk result (λ state. (skipped segments : List Segment) → HasRead self.now skipped segments →
            IsStateAfter (part_of self.now) segments state) }
    {
        self.judge.auditor.state(alloc)
    }
}
