//! Entries are dropped once: those that lost, at once or when no attempt is made any more, and those in the row, with
//! it.
ghost use Rattle.std.specs.Prelude.{◌≡◌};

use crate::row::seats::offered;
use asm_row::{Offer, Progress, Row, Seat};
use std::alloc::{AllocError, Global};
use std::sync::atomic::AtomicU32;
use std::sync::atomic::Ordering::SeqCst;
use std::test::Fail;

/// An entry that counts its drops.
struct Counted<'c>(&'c AtomicU32);

impl Drop for Counted<'_> {
    fn drop(self) {
        self.0.fetch_add(1, SeqCst);
        let Counted(_) = self;
    }
}

// Whether the seat wins the first cell that it hasn't seen.
fn wins_by<'c>(
    alloc: Global,
    seat: &mut Seat<'_, Counted<'c>>,
    drops: &'c AtomicU32,
) -> Result<bool, AllocError> {
    let entry = Box::new(alloc, Counted(drops))?;
    Ok(match offered(seat, entry) {
        Some(Offer::Won) => true,
        Some(Offer::Lost(_standing)) => false,
        None => false,
    })
}

// Whether an attempt to set the first cell, from a seat of its own, wins.
fn wins<'c>(
    alloc: Global,
    row: &Row<Counted<'c>>,
    drops: &'c AtomicU32,
) -> Result<bool, AllocError> {
    let mut seat = row.seat(alloc)?;
    wins_by(alloc, &mut seat, drops)
}

// Whether the seat, which missed while the first cell was empty, loses it, and its entry is dropped at once.
fn misses_and_loses<'c>(
    alloc: Global,
    row: &Row<Counted<'c>>,
    seat: &mut Seat<'_, Counted<'c>>,
    won: &'c AtomicU32,
    lost: &'c AtomicU32,
) -> Result<bool, AllocError> {
    let misses = seat.next().is_none();
    let wins = wins(alloc, row, won)?;
    let loses = !wins_by(alloc, seat, lost)?;
    Ok(misses && wins && loses && is_dropped(won, 0) && is_dropped(lost, 1))
}

fn is_dropped(drops: &AtomicU32, times: u32) -> bool {
    drops.load(SeqCst) == times
}

// Whether, of three attempts to set one cell, the entries of those that lose are dropped at once, and once.
fn losers_are_dropped<'c>(
    alloc: Global,
    row: &Row<Counted<'c>>,
    won: &'c AtomicU32,
    lost: &'c AtomicU32,
) -> Result<bool, AllocError> {
    let first = wins(alloc, row, won)?;
    let stands = is_dropped(won, 0);
    let second = wins(alloc, row, lost)?;
    let is_gone = is_dropped(lost, 1);
    let third = wins(alloc, row, lost)?;
    let are_gone = is_gone && is_dropped(lost, 2);
    Ok(first && !second && !third && stands && are_gone && is_dropped(won, 0))
}

#[test]
fn each_entry_is_dropped_once(rt: HostRuntime) -> Result<(), Fail> {
    let alloc = rt.alloc();
    let (won, lost) = (AtomicU32::new(0), AtomicU32::new(0));
    let row = Row::new(alloc, 3)?;
    assert!(rt; losers_are_dropped(alloc, &row, &won, &lost)?);
    drop(row);
    assert!(rt; is_dropped(&won, 1));
    assert!(rt; is_dropped(&lost, 2));
    Ok(())
}

#[test]
fn an_entry_that_is_lost_after_a_miss_is_dropped(rt: HostRuntime) -> Result<(), Fail> {
    let alloc = rt.alloc();
    let (won, lost) = (AtomicU32::new(0), AtomicU32::new(0));
    let row = Row::new(alloc, 2)?;
    let mut seat = row.seat(alloc)?;
    assert!(rt; misses_and_loses(alloc, &row, &mut seat, &won, &lost)?);
    Ok(())
}

// Whether the box, which was lost, is given to the next cell undropped.
fn wins_next<'c>(
    row: &Row<Counted<'c>>,
    progress: &mut Progress<Counted<'c>>,
    back: Box<Counted<'c>>,
) -> bool
    requires { row.now ≡ progress.old.row }
{
    !progress.is_full() && progress.try_offer(row, back).is_ok()
}

// Whether an entry that is lost to another comes back undropped, and then wins the next cell.
fn loser_comes_back<'c>(
    alloc: Global,
    row: &Row<Counted<'c>>,
    won: &'c AtomicU32,
    lost: &'c AtomicU32,
) -> Result<bool, AllocError> {
    let has_won = wins(alloc, row, won)?;
    let entry = Box::new(alloc, Counted(lost))?;
    let mut progress = row.progress();
    if progress.is_full() {
        return Ok(false);
    }
    Ok(match progress.try_offer(row, entry) {
        Ok(()) => false,
        Err(back) => has_won && is_dropped(lost, 0) && wins_next(row, &mut progress, back),
    })
}

#[test]
fn a_lost_entry_may_be_offered_again(rt: HostRuntime) -> Result<(), Fail> {
    let alloc = rt.alloc();
    let (won, lost) = (AtomicU32::new(0), AtomicU32::new(0));
    let row = Row::new(alloc, 2)?;
    assert!(rt; loser_comes_back(alloc, &row, &won, &lost)?);
    assert!(rt; is_dropped(&lost, 0));
    drop(row);
    assert!(rt; is_dropped(&won, 1));
    assert!(rt; is_dropped(&lost, 1));
    Ok(())
}
