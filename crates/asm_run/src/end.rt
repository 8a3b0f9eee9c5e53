//! The end of the first segments of a run, and the digest of the next one.
ghost use Rattle.std.specs.Prelude.{◌≡◌, ◌≢◌, ◌+◌, ◌≤◌, ◌<◌, ◌↔◌, ◌^◌, ◌⊎◌, true, false, IfOk};
ghost use Rattle.std.specs.Prelude.{IfErr, IsTrue, string_bytes};
ghost use Rattle.asm_run.specs.Chain.{digest_after, line_of, start_end, Follows};
ghost use Rattle.asm_run.specs.Name.{IsDigest};
ghost use Rattle.asm_run.specs.Writer.{IsUnsaved};

use crate::error::WriteError;
use crate::name::SegmentName;
use sha2::{Digest, Sha256};
use std::alloc::{AllocError, Global};

/// How many segments a run has at most, as a name has eight digits for its number.
pub const SEGMENT_LIMIT: u64 = 100_000_000;

/// The end of the first segments of a run.
#[derive(Clone, Copy, Debug, PartialEq, Eq)]
pub struct RunEnd {
    /// How many they are.
    pub segments: u64,
    /// How many moves they have.
    pub moves: u64,
    /// The digest of the last one, as hexadecimal digits; zeros if there is none.
    pub digest: [u8; 64],
}

impl RunEnd {
    /// Return the end of a run without segments.
    pub fn start() -> RunEnd
        ensures { result ≡ start_end }
    {
        RunEnd {
            segments: 0,
            moves: 0,
            digest: [b'0'; 64],
        }
    }

    // Return what is hashed between the digest and the text of the next segment.
    pub(crate) fn line(
        &self,
        alloc: Global,
        moves: u64,
        events: u64,
        length: u64,
    ) -> Result<String, AllocError>
        ensures { IfOk result (λ line. string_bytes line ≡ line_of self.now.segments self.now.moves moves events
            length) }
    {
        let number = self.segments;
        let first = self.moves;
        Ok(format!(in alloc; " {number} {first} {moves} {events} {length}\n")?)
    }

    // Return the digest of the next segment.
    fn hash(
        &self,
        alloc: Global,
        moves: u64,
        events: u64,
        text: &[u8],
    ) -> Result<[u8; 64], AllocError>
        ensures { IfOk result (λ digest. digest ≡ digest_after self.now moves events text.now) }
    {
        let number = self.segments;
        let first = self.moves;
        let length = text.len();
        let line = format!(in alloc; " {number} {first} {moves} {events} {length}\n")?;
        let mut hasher = Sha256::new();
        hasher.update(self.digest.as_slice());
        hasher.update(line.as_str());
        hasher.update(text);
        let digest = hasher.finalize();
        let mut digits = [0; 64];
        let _ = hex::encode_to_slice(digest.as_slice(), digits.as_mut_slice());
        Ok(digits)
    }

    /// Return the digest of the next segment, with these moves, events and text.
    ///
    /// # Errors
    ///
    /// - `AllocError` only if memory is refused.
    pub fn digest_of(
        &self,
        alloc: Global,
        moves: u64,
        events: u64,
        text: &[u8],
    ) -> Result<[u8; 64], AllocError>
        ensures value { IfOk result (λ digest. digest ≡ digest_after self.now moves events text.now) }
        ensures digits { IfOk result (λ digest. IsDigest digest) }
    {
        let digest = self.hash(alloc, moves, events, text)?;
        Ok(digest)
    }

    // Return whether a segment with these moves and events may come next, unless it is that of another number: segment 0
    // has none, and nothing comes before it.
    pub(crate) fn may_precede(&self, moves: u64, events: u64) -> bool
        ensures yes { result ≡ true → self.now.segments ≡ 0 → (self.now ≡ start_end) × (moves + events ≡ 0) }
        ensures no { result ≡ false → (self.now.segments ≡ 0) × ((self.now ≢ start_end) ⊎ (moves + events ≢ 0)) }
    {
        if self.segments != 0 {
            return true;
        }
        if moves != 0 || events != 0 {
            return false;
        }
        are_same(self, &RunEnd::start())
    }

    /// Return the name of the next segment, with these moves, events and text, and the end with it.
    ///
    /// # Errors
    ///
    /// - `Segments`: the run has 100,000,000 segments.
    /// - `Opening`: it would be segment 0, and has events.
    /// - `Moves`: the run would have 2^64 moves or more.
    /// - `Memory` only if memory is refused.
    pub fn next(
        &self,
        alloc: Global,
        moves: u64,
        events: u64,
        text: &[u8],
    ) -> Result<(SegmentName, RunEnd), WriteError>
        ensures follows { IfOk result (λ r. Follows self.now r.0 text.now r.1) }
        ensures moves { IfOk result (λ r. r.0.moves ≡ moves) }
        ensures events { IfOk result (λ r. r.0.events ≡ events) }
        ensures digest { IfOk result (λ r. IsDigest r.0.digest) }
        ensures error { IfErr result (IsUnsaved self.now moves events) }
    {
        if self.segments >= SEGMENT_LIMIT {
            return Err(WriteError::Segments);
        }
        if !self.may_precede(moves, events) {
            return Err(WriteError::Opening);
        }
        let digest = self.digest_of(alloc, moves, events, text)?;
        let name = SegmentName {
            number: self.segments,
            first: self.moves,
            moves,
            events,
            previous: self.digest,
            digest,
        };
        match name.end() {
            Some(end) => Ok((name, end)),
            None => Err(WriteError::Moves),
        }
    }
}

// Return whether both are the same end.
pub(crate) fn are_same(one: &RunEnd, other: &RunEnd) -> bool
    ensures { IsTrue result ↔ (one.now ≡ other.now) }
{
    *one == *other
}
