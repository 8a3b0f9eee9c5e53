//! How far a reader has come in the names, the digests and the counts of a run.
ghost use Rattle.std.specs.Prelude.{◌≡◌, ◌<◌, ◌↔◌, [], IsTrue, IfSome, OnOk, OnErr, IfErr, None};
ghost use Rattle.asm_run.specs.Chain.{start_end, start_of};
ghost use Rattle.asm_run.specs.Reader.{IsExactly, AreTooMany};
ghost use Rattle.asm_run.specs.Segment.{IsTaken, IsMisplaced};
ghost use Rattle.asm_run.specs.declared.trail.Place.TheVariants as at;

use crate::end::RunEnd;
use crate::error::ReadError;
use crate::name::SegmentName;
use crate::segment::SegmentReader;
use asm_audit::Counts;
use std::alloc::Global;

/// What comes next in a folder.
#[derive(Clone, Copy, Debug, PartialEq, Eq)]
pub enum Place {
    /// A name.
    Between,
    /// The text of a name.
    Within,
    /// Nothing, as a text was refused.
    Refused,
}

/// How far a reader has come in the names, the digests and the counts of a run.
#[derive(Drop)]
pub struct Trail {
    /// What comes next.
    pub place: Place,
    /// The end before the first segment.
    pub from: RunEnd,
    /// The end before the first text.
    pub since: RunEnd,
    /// The end of what was read.
    pub end: RunEnd,
    /// The segment that is being read.
    pub segment: SegmentReader,
    /// The counts of all texts.
    pub counts: Counts,
}

impl Place {
    // Return whether a name comes next.
    pub(crate) fn is_between(self) -> bool
        ensures { IsTrue result ↔ (self ≡ at.Between) }
    {
        match self {
            Place::Between => true,
            Place::Within | Place::Refused => false,
        }
    }

    // Return whether a text comes next.
    pub(crate) fn is_within(self) -> bool
        ensures { IsTrue result ↔ (self ≡ at.Within) }
    {
        match self {
            Place::Within => true,
            Place::Between | Place::Refused => false,
        }
    }
}

impl Trail {
    // Return the trail of a reader that has read nothing.
    pub(crate) fn new() -> Trail
        ensures place { result.place ≡ at.Between }
        ensures from { result.from ≡ start_end }
        ensures since { result.since ≡ start_end }
        ensures end { result.end ≡ start_end }
        ensures counts { result.counts ≡ record { calls = 0; moves = 0; parts = 0 } }
    {
        Trail {
            place: Place::Between,
            from: RunEnd::start(),
            since: RunEnd::start(),
            end: RunEnd::start(),
            segment: SegmentReader::none(),
            counts: Counts {
                calls: 0,
                moves: 0,
                parts: 0,
            },
        }
    }

    // Begin with the first segment.
    pub(crate) fn begin_first(
        &mut self,
        alloc: Global,
        name: SegmentName,
        length: u64,
    ) -> Result<(), ReadError>
        requires { name.number < 100000000 }
        ensures ok { OnOk result (self.new ≡ record {
          place = at.Within;
          from = start_of name;
          since = start_of name;
          end = start_of name;
          segment = self.new.segment;
          counts = self.old.counts;
        }) }
        ensures taken { OnOk result (IsTaken (start_of name) self.new.segment []) }
        ensures name { OnOk result (self.new.segment.name ≡ name) }
        ensures length { OnOk result (self.new.segment.length ≡ length) }
        ensures error { IfErr result (IsMisplaced (start_of name) name length) }
        ensures unchanged { OnErr result (self.new ≡ self.old) }
    {
        let end = name.start();
        let segment = SegmentReader::begin(alloc, &end, name, length)?;
        self.place = Place::Within;
        self.from = end;
        self.since = end;
        self.end = end;
        self.segment = segment;
        Ok(())
    }

    // Begin with another segment.
    pub(crate) fn begin_next(
        &mut self,
        alloc: Global,
        name: SegmentName,
        length: u64,
    ) -> Result<(), ReadError>
        requires { name.number < 100000000 }
        ensures ok { OnOk result (self.new ≡ record self.old { place = at.Within; segment = self.new.segment }) }
        ensures taken { OnOk result (IsTaken self.old.end self.new.segment []) }
        ensures name { OnOk result (self.new.segment.name ≡ name) }
        ensures length { OnOk result (self.new.segment.length ≡ length) }
        ensures error { IfErr result (IsMisplaced self.old.end name length) }
        ensures unchanged { OnErr result (self.new ≡ self.old) }
    {
        let segment = SegmentReader::begin(alloc, &self.end, name, length)?;
        self.place = Place::Within;
        self.segment = segment;
        Ok(())
    }
}

// Return the counts with one more segment; `None` if one of them is too large.
pub(crate) fn counts_with(counts: &Counts, moves: u64, events: u64) -> Option<Counts>
    ensures some { IfSome result (IsExactly counts.now moves events) }
    ensures none { result ≡ None → AreTooMany counts.now moves events }
{
    let calls = counts.calls.saturating_add(events);
    let moves = counts.moves.saturating_add(moves);
    let parts = counts.parts.saturating_add(1);
    if calls == u64::MAX || moves == u64::MAX || parts == u64::MAX {
        return None;
    }
    Some(Counts {
        calls,
        moves,
        parts,
    })
}

// Return whether the counts are these.
pub(crate) fn are_same_counts(one: &Counts, other: &Counts) -> bool
    ensures { IsTrue result ↔ (one.now ≡ other.now) }
{
    *one == *other
}
