//! What a seat of letters does, and what it shows, for the tests of this crate.
ghost use Rattle.std.specs.Prelude.{◌≡◌};

use asm_row::{Offer, Seat};
use std::alloc::{AllocError, Global};

/// Attempt to append the entry; return None if the seat is full.
pub(crate) fn offered<'r, T: Drop>(seat: &mut Seat<'r, T>, entry: Box<T>) -> Option<Offer<'r, T>>
    ensures { seat.new.row ≡ seat.old.row }
{
    if seat.is_full() {
        None
    } else {
        Some(seat.offer(entry))
    }
}

/// Return whether the attempt wins, or is lost to the entry that is already there.
pub(crate) fn offers(
    alloc: Global,
    seat: &mut Seat<'_, char>,
    entry: char,
    standing: Option<char>,
) -> Result<bool, AllocError>
    ensures { seat.new.row ≡ seat.old.row }
{
    let entry = Box::new(alloc, entry)?;
    Ok(match offered(seat, entry) {
        Some(Offer::Won) => standing.is_none(),
        Some(Offer::Lost(other)) => standing == Some(*other),
        None => false,
    })
}

pub(crate) fn shows(seat: &Seat<'_, char>, entries: &[char]) -> bool {
    if seat.seen_len() as usize != entries.len() {
        return false;
    }
    for k in 0..seat.seen_len() {
        if *seat.at(k) != entries[k as usize] {
            return false;
        }
    }
    true
}
