//! Seats, marks and progress in several threads, which agree on the entries.
ghost use Rattle.std.specs.Prelude.{◌≡◌, IfOk};

use asm_row::{Mark, Offer, Progress, Row, Seat};
use std::alloc::{AllocError, Global};
use std::sync::atomic::AtomicU32;
use std::sync::atomic::Ordering::SeqCst;
use std::test::Fail;
use std::thread;
use std::thread::Threads;

fn is_send<X: Send>(_: &X) {}

fn is_sync<X: Sync>(_: &X) {}

fn cross_threads<T: Send + Sync>(row: &Row<T>, seat: &Seat<'_, T>, mark: &Mark<T>) {
    is_sync(row);
    is_send(seat);
    is_send(mark);
}

fn cross_threads_with_any_entry<T>(mark: &Mark<T>, progress: &Progress<T>) {
    is_send(mark);
    is_sync(mark);
    is_send(progress);
    is_sync(progress);
}

// Offers through a seat of its own until it is full: its entry for place k is `first` + k. Counts the answers `Won`.
fn fill<'r>(
    alloc: Global,
    row: &'r Row<u32>,
    first: u32,
    wins: &AtomicU32,
) -> Result<Seat<'r, u32>, AllocError>
    ensures { IfOk result (λ seat. seat.row ≡ row.now) }
{
    let mut seat = row.seat(alloc)?;
    while !seat.is_full() {
        let entry = first.wrapping_add(seat.seen_len());
        if seat.offer(Box::new(alloc, entry)?) == Offer::Won {
            wins.fetch_add(1, SeqCst);
        }
    }
    Ok(seat)
}

fn fill_by_two_threads<'r, R: Threads>(
    rt: &R,
    alloc: Global,
    row: &'r Row<u32>,
    wins: &AtomicU32,
) -> Result<(Seat<'r, u32>, Seat<'r, u32>), AllocError>
    ensures one { IfOk result (λ seats. seats.0.row ≡ row.now) }
    ensures two { IfOk result (λ seats. seats.1.row ≡ row.now) }
{
    let (one, two) = thread::join(
        rt,
        move || -> Result<Seat<'_, u32>, AllocError>
            ensures { IfOk result (λ seat. seat.row ≡ row.entry.now) }
        { fill(alloc, row, 1000, wins) },
        move || -> Result<Seat<'_, u32>, AllocError>
            ensures { IfOk result (λ seat. seat.row ≡ row.entry.now) }
        { fill(alloc, row, 2000, wins) },
    );
    Ok((one?, two?))
}

fn agree(one: &Seat<'_, u32>, two: &Seat<'_, u32>) -> bool {
    if one.seen_len() != two.seen_len() {
        return false;
    }
    for k in 0..one.seen_len() {
        if one.at(k) != two.at(k) {
            return false;
        }
    }
    true
}

// A seat that has learnt a mark of each.
fn learner_of_marks<'r>(
    alloc: Global,
    row: &'r Row<u32>,
    one: &Seat<'_, u32>,
    two: &Seat<'_, u32>,
) -> Result<Seat<'r, u32>, AllocError>
    requires one { one.now.row ≡ row.now }
    requires two { two.now.row ≡ row.now }
{
    let mut seat = row.seat(alloc)?;
    seat.learn(&one.mark(alloc)?);
    seat.learn(&two.mark(alloc)?);
    Ok(seat)
}

// Whether each entry is one that the first thread or the second attempted to append at its place.
fn is_by_either(seat: &Seat<'_, u32>) -> bool {
    for k in 0..seat.seen_len() {
        let first = seat.at(k).checked_sub(k);
        if first != Some(1000) && first != Some(2000) {
            return false;
        }
    }
    true
}

fn agree_by_marks(one: &Seat<'_, u32>, two: &Seat<'_, u32>, learner: &Seat<'_, u32>) -> bool {
    let is_whole = learner.is_full() && learner.won() == 0 && is_by_either(learner);
    is_whole && agree(learner, one) && agree(learner, two)
}

// Whether a seat that learns the marks of both agrees with each at every place.
fn learner_of_marks_agrees(
    alloc: Global,
    row: &Row<u32>,
    one: &Seat<'_, u32>,
    two: &Seat<'_, u32>,
) -> Result<bool, AllocError>
    requires one { one.now.row ≡ row.now }
    requires two { two.now.row ≡ row.now }
{
    let learner = learner_of_marks(alloc, row, one, two)?;
    Ok(agree_by_marks(one, two, &learner))
}

#[test]
fn seats_of_two_threads_agree(rt: HostRuntime) -> Result<(), Fail> {
    let alloc = rt.alloc();
    let row = Row::new(alloc, 100)?;
    let wins = AtomicU32::new(0);
    let (one, two) = fill_by_two_threads(&rt, alloc, &row, &wins)?;
    assert!(rt; wins.load(SeqCst) == 100);
    assert!(rt; one.won().checked_add(two.won()) == Some(100));
    assert!(rt; learner_of_marks_agrees(alloc, &row, &one, &two)?);
    Ok(())
}

#[test]
fn seats_and_marks_cross_threads(rt: HostRuntime) -> Result<(), Fail> {
    let alloc = rt.alloc();
    let row: Row<u32> = Row::new(alloc, 1)?;
    let seat = row.seat(alloc)?;
    let mark = seat.mark(alloc)?;
    cross_threads(&row, &seat, &mark);
    cross_threads_with_any_entry(&mark, &row.progress());
    Ok(())
}
