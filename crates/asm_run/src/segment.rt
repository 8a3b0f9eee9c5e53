//! A segment whose text comes in pieces: its name, and the digest of what was taken.
ghost use Rattle.std.specs.Prelude.{◌≡◌, ◌<◌, ◌++◌, [], ℕ, List, length, true, false, IfOk, IfErr};
ghost use Rattle.sha2.specs.Hashers.{Holds256};
ghost use Rattle.asm_run.specs.declared.end.RunEnd.{RunEnd as IsAnEnd};
ghost use Rattle.asm_run.specs.Chain.{hex_digest, Follows};
ghost use Rattle.asm_run.specs.Segment.{IsTaken, IsDamaged, IsMisplaced};

use crate::end::{RunEnd, are_same};
use crate::error::ReadError;
use crate::name::SegmentName;
use sha2::{Digest, Sha256};
use std::alloc::Global;
use std::mem;

/// A segment that is being read.
#[derive(Drop)]
pub struct SegmentReader {
    /// What its name says.
    pub name: SegmentName,
    /// The end of the run with it.
    pub next: RunEnd,
    /// How many bytes its text has.
    pub length: u64,
    /// How many were taken.
    pub taken: u64,
    /// What was hashed.
    pub hasher: Sha256,
}

// Return the hexadecimal digits of what is hashed.
fn digits_of(hasher: Sha256) -> [u8; 64]
    ensures { (m : List ℕ) → Holds256 hasher m → result ≡ hex_digest m }
{
    let digest = hasher.finalize();
    let mut digits = [0; 64];
    let _ = hex::encode_to_slice(digest.as_slice(), digits.as_mut_slice());
    digits
}

impl SegmentReader {
    /// Return the reader of no segment.
    pub(crate) fn none() -> SegmentReader {
        SegmentReader {
            name: SegmentName {
                number: 0,
                first: 0,
                moves: 0,
                events: 0,
                previous: [b'0'; 64],
                digest: [b'0'; 64],
            },
            next: RunEnd::start(),
            length: 0,
            taken: 0,
            hasher: Sha256::new(),
        }
    }

    /// Return the reader of the segment of this name, with a text of so many bytes, after this end.
    pub(crate) fn begin(
        alloc: Global,
        end: &RunEnd,
        name: SegmentName,
        length: u64,
    ) -> Result<SegmentReader, ReadError>
        requires { name.number < 100000000 }
        ensures taken { IfOk result (λ r. IsTaken end.now r []) }
        ensures name { IfOk result (λ r. r.name ≡ name) }
        ensures length { IfOk result (λ r. r.length ≡ length) }
        ensures error { IfErr result (IsMisplaced end.now name length) }
    {
        if name.number != end.segments {
            return Err(ReadError::Number);
        }
        if !end.may_precede(name.moves, name.events) {
            return Err(ReadError::Opening);
        }
        if !are_same(end, &name.start()) {
            return Err(ReadError::Previous);
        }
        if length == u64::MAX {
            return Err(ReadError::Damaged);
        }
        let Some(next) = name.end() else {
            return Err(ReadError::Many);
        };
        let line = end.line(alloc, name.moves, name.events, length)?;
        let mut hasher = Sha256::new();
        hasher.update(end.digest.as_slice());
        hasher.update(line.as_str());
        Ok(SegmentReader {
            name,
            next,
            length,
            taken: 0,
            hasher,
        })
    }

    /// Take the next bytes.
    pub(crate) fn feed(&mut self, bytes: &[u8])
        ensures taken { (e : IsAnEnd) (text : List ℕ) → IsTaken e self.old text →
            IsTaken e self.new (text ++ bytes.now) }
        ensures name { self.new.name ≡ self.old.name }
        ensures next { self.new.next ≡ self.old.next }
        ensures length { self.new.length ≡ self.old.length }
    {
        self.hasher.update(bytes);
        self.taken = self.taken.saturating_add(bytes.len() as u64);
    }

    /// Return whether the bytes that were taken are the text that was saved.
    pub(crate) fn finish(&mut self) -> bool
        ensures right { result ≡ true → (e : IsAnEnd) (text : List ℕ) → IsTaken e self.old text →
            Follows e self.old.name text self.old.next }
        ensures wrong { result ≡ false → (e : IsAnEnd) (text : List ℕ) → IsTaken e self.old text →
            IsDamaged e self.old text }
        ensures name { self.new.name ≡ self.old.name }
        ensures next { self.new.next ≡ self.old.next }
    {
        let digits = digits_of(mem::replace(&mut self.hasher, Sha256::new()));
        if self.taken != self.length {
            return false;
        }
        digits.as_slice() == self.name.digest.as_slice()
    }
}
