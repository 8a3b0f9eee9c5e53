//! Refusing what would make a line of a journal longer than an audit reads.
//!
//! A bound decides nearly always. Where it doesn't, each piece is spelled alone, and their lengths are added.
ghost use Rattle.std.specs.Prelude.{◌≡◌, ◌≤◌, ◌+◌, ◌∷◌, [], IfOk, IfSome, IsTrue, MatchResult, map};
ghost use Rattle.std.specs.FinMap as finite;
ghost use Rattle.asm_journal.specs.Element.{location_json_of};
ghost use Rattle.asm_journal.specs.Event.{named_json_of};
ghost use Rattle.asm_journal.specs.Instruction.{instruction_json_of};
ghost use Rattle.asm_journal.specs.Value.{pair_json_of};
ghost use Rattle.asm_slots.specs.LongLines.{IsLeft, IsLongFire, IsLongRead, IsLongState, LongOr};
ghost use Rattle.asm_slots.specs.LongLines.{answer_for_room, counted_limit, fire_size, longest, spelled, spelled_list, spelled_values};

use crate::codes::Code;
use crate::line_room::{HasPlace, items_room, less, state_room, values_room};
use crate::short_lines::is_of_short;
use asm_audit::LINE_LIMIT;
use asm_element::{Location, Value};
use asm_journal::ToText;
use asm_state::Named;
use asm_update::{Instruction, Lookup, PlainState};
use std::alloc::{AllocError, Global};

/// The most bytes of what is counted of a line.
const COUNTED_LIMIT: usize = LINE_LIMIT - 120;

// Return how many bytes a piece has, spelled.
fn length_of<T: ToText>(alloc: Global, piece: &T) -> Result<usize, AllocError>
    ensures { IfOk result (λ n. n ≡ spelled (T.json_of piece.now)) }
{
    let mut text = String::with_capacity(alloc, 64)?;
    piece.push_text(alloc, &mut text)?;
    Ok(text.as_str().len())
}

// Take the bytes of an item and of a comma.
fn less_item(left: usize, length: usize) -> Option<usize>
    ensures { IsLeft left (length + 1) result }
{
    less(less(left, 1)?, length)
}

// Take a spelled piece and a comma from the bytes that are left.
fn piece_length<T: ToText>(
    alloc: Global,
    piece: &T,
    left: usize,
) -> Result<Option<usize>, AllocError>
    ensures { IfOk result (IsLeft left (spelled (T.json_of piece.now) + 1)) }
{
    let length = length_of(alloc, piece)?;
    Ok(less_item(left, length))
}

// Take the spelled items from the bytes that are left, each with a comma.
fn items_length<T: ToText>(
    alloc: Global,
    items: &[T],
    left: usize,
) -> Result<Option<usize>, AllocError>
    ensures { IfOk result (IsLeft left (spelled_list (map T.json_of items.now))) }
{
    let mut left = left;
    for item in items {
        match piece_length(alloc, item, left)? {
            Some(rest) => left = rest,
            None => return Ok(None),
        }
    }
    Ok(Some(left))
}

// Return how many bytes the longest of the locations has.
fn longest_place<P: HasPlace>(alloc: Global, items: &[P]) -> Result<usize, AllocError>
    ensures { IfOk result (λ n. n ≡ longest (map (λ x. location_json_of (P.place_of x)) items.now)) }
{
    let mut most = 0;
    for item in items {
        most = most.max(length_of(alloc, item.place())?);
    }
    Ok(most)
}

// Take two pieces from the bytes that are left, each with a comma.
fn two_length<A: ToText, B: ToText>(
    alloc: Global,
    first: &A,
    second: &B,
    left: usize,
) -> Result<Option<usize>, AllocError>
    ensures { IfOk result (IsLeft left (spelled (A.json_of first.now) + 1 + (spelled (B.json_of second.now) + 1))) }
{
    match piece_length(alloc, first, left)? {
        Some(rest) => piece_length(alloc, second, rest),
        None => Ok(None),
    }
}

// Take a location and the value there from the bytes that are left, each with a comma.
fn seen_length<L: Lookup>(
    alloc: Global,
    seen: &L,
    at: &Location,
    left: usize,
) -> Result<Option<usize>, AllocError>
    ensures { IfOk result (IsLeft left (spelled_values (L.value_at seen.now) (at.now ∷ []))) }
{
    let value = Value::copy_or_undef(alloc, seen.get(at))?;
    two_length(alloc, at, &value, left)
}

// Take the locations and the values that are seen there from the bytes that are left.
fn values_length<P: HasPlace, L: Lookup>(
    alloc: Global,
    seen: &L,
    places: &[P],
    left: usize,
) -> Result<Option<usize>, AllocError>
    ensures { IfOk result (IsLeft left (spelled_values (L.value_at seen.now) (map P.place_of places.now))) }
{
    let mut left = left;
    for place in places {
        match seen_length(alloc, seen, place.place(), left)? {
            Some(rest) => left = rest,
            None => return Ok(None),
        }
    }
    Ok(Some(left))
}

// Take a pair of a state from the bytes that are left, with a comma.
fn pair_length(
    alloc: Global,
    at: &Location,
    value: &Value,
    left: usize,
) -> Result<Option<usize>, AllocError>
    ensures { IfOk result (IsLeft left (spelled (pair_json_of (at.now, value.now)) + 1)) }
{
    match less(left, 2) {
        Some(rest) => two_length(alloc, at, value, rest),
        None => Ok(None),
    }
}

// Take the pairs of a state from the bytes that are left.
fn state_length(alloc: Global, state: &PlainState, left: usize) -> Result<Option<usize>, AllocError>
    ensures { IfOk result (IsLeft left (spelled_list (map pair_json_of (finite.entries state.now)))) }
{
    let mut left = left;
    for (at, value) in state.iter() {
        match pair_length(alloc, at, value, left)? {
            Some(rest) => left = rest,
            None => return Ok(None),
        }
    }
    Ok(Some(left))
}

// Take the room of the instructions and the reads of a fire, each with a comma.
fn fire_room(reads: &[Named], instrs: &[Instruction], left: usize) -> Option<usize>
    ensures { IfSome result (λ rest. spelled_list (map instruction_json_of instrs.now)
        + spelled_list (map named_json_of reads.now) + rest ≤ left) }
{
    let left = items_room(instrs, left)?;
    items_room(reads, left)
}

// Return whether the line of a fire surely isn't too long: no location has more bytes than all that is counted.
fn is_short_fire(reads: &[Named], instrs: &[Instruction]) -> bool
    ensures { IsTrue result → ¬ IsLongFire reads.now instrs.now }
{
    if is_of_short(reads, instrs) {
        return true;
    }
    fire_room(reads, instrs, COUNTED_LIMIT / 2).is_some()
}

// Take the instructions and the reads of a fire from the bytes that are left, each with a comma.
fn both_length(
    alloc: Global,
    reads: &[Named],
    instrs: &[Instruction],
    left: usize,
) -> Result<Option<usize>, AllocError>
    ensures { IfOk result (IsLeft left
        (spelled_list (map instruction_json_of instrs.now) + spelled_list (map named_json_of reads.now))) }
{
    match items_length(alloc, instrs, left)? {
        Some(rest) => items_length(alloc, reads, rest),
        None => Ok(None),
    }
}

// Take all that is counted of a fire from the bytes that a line has.
fn fire_length(
    alloc: Global,
    reads: &[Named],
    instrs: &[Instruction],
) -> Result<Option<usize>, AllocError>
    ensures { IfOk result (IsLeft counted_limit (fire_size reads.now instrs.now)) }
{
    let of_instrs = longest_place(alloc, instrs)?;
    let of_reads = longest_place(alloc, reads)?;
    match less(COUNTED_LIMIT, of_instrs.max(of_reads)) {
        Some(left) => both_length(alloc, reads, instrs, left),
        None => Ok(None),
    }
}

// Refuse what has no room.
fn expect_room(room: Result<Option<usize>, AllocError>) -> Result<(), Code>
    ensures { result ≡ answer_for_room room }
{
    match room {
        Ok(Some(_)) => Ok(()),
        Ok(None) => Err(Code::LongLine),
        Err(AllocError) => Err(Code::Memory),
    }
}

/// Refuse a fire whose line could be too long, with one of its locations in the reply.
pub(crate) fn expect_fire(
    alloc: Global,
    reads: &[Named],
    instrs: &[Instruction],
) -> Result<(), Code>
    ensures { MatchResult result (λ done. ¬ IsLongFire reads.now instrs.now) (LongOr (IsLongFire reads.now instrs.now)) }
{
    if is_short_fire(reads, instrs) {
        return Ok(());
    }
    expect_room(fire_length(alloc, reads, instrs))
}

/// Refuse a read whose line would be too long, with what is seen.
pub(crate) fn expect_read<P: HasPlace, L: Lookup>(
    alloc: Global,
    seen: &L,
    places: &[P],
) -> Result<(), Code>
    ensures { MatchResult result (λ done. ¬ IsLongRead (L.value_at seen.now) (map P.place_of places.now))
        (LongOr (IsLongRead (L.value_at seen.now) (map P.place_of places.now))) }
{
    if values_room(seen, places, COUNTED_LIMIT).is_some() {
        return Ok(());
    }
    expect_room(values_length(alloc, seen, places, COUNTED_LIMIT))
}

/// Refuse a state with which the first line of a journal would be too long.
pub(crate) fn expect_state(alloc: Global, state: &PlainState) -> Result<(), Code>
    ensures { MatchResult result (λ done. ¬ IsLongState state.now) (LongOr (IsLongState state.now)) }
{
    if state_room(state, COUNTED_LIMIT).is_some() {
        return Ok(());
    }
    expect_room(state_length(alloc, state, COUNTED_LIMIT))
}
