//! The names of segments.
ghost use Rattle.std.specs.Prelude.{◌≡◌, ◌≢◌, ◌<◌, ◌≤◌, ◌^◌, ◌+◌, ℕ, None, List, ◌++◌, ◌∷◌, []};
ghost use Rattle.std.specs.Prelude.{◌-◌, length, replicate, decimal, codes, string_bytes};
ghost use Rattle.std.specs.Prelude.{slice_index, IfSome, IfOk};
ghost use Rattle.asm_run.specs.Chain.{start_of, end_of};
ghost use Rattle.asm_run.specs.Name.{IsEight, is_hex_digit, IsDigest, IsName, name_text};
ghost use Rattle.asm_run.specs.declared.name.SegmentName.{SegmentName as IsAName};

use crate::end::RunEnd;
use itoa::Buffer;
use std::alloc::{AllocError, Global};

/// What the name of a segment says: `NUMBER-FIRST-MOVES-EVENTS-PREVIOUS-DIGEST.journal`.
#[derive(Clone, Copy, Debug)]
pub struct SegmentName {
    /// Its number, from 0, with eight digits.
    pub number: u64,
    /// How many moves the segments before it have.
    pub first: u64,
    /// How many moves it has.
    pub moves: u64,
    /// How many events it has.
    pub events: u64,
    /// The digest of the segment before it, as hexadecimal digits; zeros for segment 0.
    pub previous: [u8; 64],
    /// Its own digest, as hexadecimal digits.
    pub digest: [u8; 64],
}

// Cut a text at its first dash.
fn cut(text: &str) -> Option<(&str, &str)>
    ensures some { IfSome result (λ parts. (text.now ≡ parts.0.now ++ (45 ∷ parts.1.now)) × ((i : ℕ) →
        i < length parts.0.now → slice_index parts.0.now i ≢ 45)) }
    ensures none { result ≡ None → (i : ℕ) → i < length text.now → slice_index text.now i ≢ 45 }
{
    text.split_once('-')
}

// Read a number that is written without leading zeros.
fn number(text: &str) -> Option<u64>
    ensures some { IfSome result (λ n. text.now ≡ decimal n) }
    ensures none { result ≡ None → (n : ℕ) → n < 2 ^ 64 → text.now ≢ decimal n }
{
    let number = text.parse::<u64>().ok()?;
    let mut buffer = Buffer::new();
    if buffer.format(number) == text {
        Some(number)
    } else {
        None
    }
}

// Read a number that is written with eight digits.
fn eight(text: &str) -> Option<u64>
    ensures some { IfSome result (λ n. IsEight n text.now) }
    ensures none { result ≡ None → (n : ℕ) → IsEight n text.now → ⊥ }
{
    if text.len() != 8 || text.as_bytes()[0] == b'+' {
        return None;
    }
    text.parse::<u64>().ok()
}

fn is_digit(byte: u8) -> bool
    ensures { result ≡ is_hex_digit byte }
{
    matches!(byte, b'0'..=b'9' | b'a'..=b'f')
}

// Read a digest.
fn digest(text: &[u8]) -> Option<[u8; 64]>
    ensures some { IfSome result (λ d. (d ≡ text.now) × IsDigest text.now) }
    ensures none { result ≡ None → IsDigest text.now → ⊥ }
{
    if text.len() != 64 || !text.iter().all(|byte| is_digit(*byte)) {
        return None;
    }
    let mut digest = [0; 64];
    digest.copy_from_slice(text);
    Some(digest)
}

// Read eight digits and a dash, and return what is behind them.
fn cut_eight(text: &str) -> Option<(u64, &str)>
    ensures some { IfSome result (λ r. (front : List ℕ) × IsEight r.0 front × (text.now ≡ front ++ (45 ∷ r.1.now))) }
    ensures none { result ≡ None → (n : ℕ) (front rest : List ℕ) → IsEight n front → text.now ≢ front ++ (45 ∷ rest) }
{
    let (digits, rest) = cut(text)?;
    Some((eight(digits)?, rest))
}

// Read a number and a dash, and return what is behind them.
fn cut_number(text: &str) -> Option<(u64, &str)>
    ensures some { IfSome result (λ r. text.now ≡ decimal r.0 ++ (45 ∷ r.1.now)) }
    ensures few { IfSome result (λ r. r.0 < 2 ^ 64) }
    ensures none { result ≡ None → (n : ℕ) (rest : List ℕ) → n < 2 ^ 64 → text.now ≢ decimal n ++ (45 ∷ rest) }
{
    let (digits, rest) = cut(text)?;
    Some((number(digits)?, rest))
}

// Read a digest and a dash, and return what is behind them.
fn cut_digest(text: &str) -> Option<([u8; 64], &str)>
    ensures some { IfSome result (λ r. IsDigest r.0 × (text.now ≡ r.0 ++ (45 ∷ r.1.now))) }
    ensures none { result ≡ None → (d rest : List ℕ) → IsDigest d → text.now ≢ d ++ (45 ∷ rest) }
{
    let (digits, rest) = cut(text)?;
    Some((digest(digits.as_bytes())?, rest))
}

// Read the digest at the end of a name.
fn last_digest(text: &str) -> Option<[u8; 64]>
    ensures some { IfSome result (λ d. IsDigest d × (text.now ≡ d ++ codes ".journal")) }
    ensures none { result ≡ None → (d : List ℕ) → IsDigest d → text.now ≢ d ++ codes ".journal" }
{
    let digits = text.as_bytes().strip_suffix(b".journal")?;
    let read = digest(digits)?;
    Some(read)
}

fn digits_of(alloc: Global, number: u64) -> Result<String, AllocError>
    ensures { IfOk result (λ text. string_bytes text ≡ decimal number) }
{
    Ok(format!(in alloc; "{number}")?)
}

fn eight_of(alloc: Global, number: u64) -> Result<Vec<u8>, AllocError>
    ensures { IfOk result (λ text. text.items ≡ replicate (8 - length (decimal number)) 48 ++ decimal number) }
{
    let digits = digits_of(alloc, number)?;
    let bytes = digits.as_bytes();
    let mut text = vec![in alloc; b'0'; 8usize.saturating_sub(bytes.len())]?;
    text.extend_from_slice(bytes)?;
    Ok(text)
}

fn counts_of(alloc: Global, first: u64, moves: u64, events: u64) -> Result<String, AllocError>
    ensures { IfOk result (λ text. string_bytes text ≡ 45 ∷
        (decimal first ++ (45 ∷ (decimal moves ++ (45 ∷ (decimal events ++ (45 ∷ []))))))) }
{
    Ok(format!(in alloc; "-{first}-{moves}-{events}-")?)
}

impl SegmentName {
    /// Read the name of a segment; `None` if the text isn't one.
    pub fn parse(text: &str) -> Option<SegmentName>
        ensures some { IfSome result (λ name. IsName text.now name) }
        ensures few { IfSome result (λ name. name.number < 100000000) }
        ensures none { result ≡ None → (name : IsAName) → name.first < 2 ^ 64 → name.moves < 2 ^ 64 →
            name.events < 2 ^ 64 → IsName text.now name → ⊥ }
    {
        let (number, rest) = cut_eight(text)?;
        let (first, rest) = cut_number(rest)?;
        let (moves, rest) = cut_number(rest)?;
        let (events, rest) = cut_number(rest)?;
        let (previous, rest) = cut_digest(rest)?;
        let digest = last_digest(rest)?;
        Some(SegmentName {
            number,
            first,
            moves,
            events,
            previous,
            digest,
        })
    }

    // Write the name, whatever its digests are.
    pub(crate) fn written(&self, alloc: Global) -> Result<Vec<u8>, AllocError>
        ensures { IfOk result (λ text. text.items ≡ name_text self.now) }
    {
        let rest = counts_of(alloc, self.first, self.moves, self.events)?;
        let mut text = eight_of(alloc, self.number)?;
        text.extend_from_slice(rest.as_bytes())?;
        text.extend_from_slice(self.previous.as_slice())?;
        text.push(b'-')?;
        text.extend_from_slice(self.digest.as_slice())?;
        text.extend_from_slice(b".journal")?;
        Ok(text)
    }

    /// Write the name.
    ///
    /// # Errors
    ///
    /// - `AllocError` only if memory is refused.
    pub fn to_text(&self, alloc: Global) -> Result<Vec<u8>, AllocError>
        requires number { self.now.number < 100000000 }
        requires previous { IsDigest self.now.previous }
        requires digest { IsDigest self.now.digest }
        ensures { IfOk result (λ text. IsName text.items self.now) }
    {
        let text = self.written(alloc)?;
        Ok(text)
    }

    /// Return the end of the segments before this one.
    pub fn start(&self) -> RunEnd
        ensures { result ≡ start_of self.now }
    {
        RunEnd {
            segments: self.number,
            moves: self.first,
            digest: self.previous,
        }
    }

    /// Return the end of the segments with this one; `None` if they have 2^64 moves or more.
    pub fn end(&self) -> Option<RunEnd>
        requires { self.now.number < 100000000 }
        ensures some { IfSome result (λ end. end ≡ end_of self.now) }
        ensures few { IfSome result (λ _. self.now.first + self.now.moves < 2 ^ 64) }
        ensures none { result ≡ None → 2 ^ 64 ≤ self.now.first + self.now.moves }
    {
        let moves = self.first.checked_add(self.moves)?;
        Some(RunEnd {
            segments: self.number + 1,
            moves,
            digest: self.digest,
        })
    }
}
