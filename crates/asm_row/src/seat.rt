ghost use Rattle.std.specs.Prelude.{◌≡◌, ◌+◌, ◌-◌, ◌^◌, ◌<◌, ◌≤◌, ◌∷◌, ◌++◌, [], length, max, min};
ghost use Rattle.std.specs.Prelude.{slice_get, IfOk, IsOk, IfSome, IfNone, IsNone, MatchBool};
ghost use mathlib.Core.List.{IsPrefix};
ghost use Rattle.asm_row.specs.Offer.{IfWon, IfLost};

use crate::mark::Mark;
use crate::progress::Progress;
use crate::row::Row;
use std::alloc::{AllocError, Global};
use std::marker::Model;

/// The result of an attempt to append.
#[derive(Debug, Drop, PartialEq, Eq)]
pub enum Offer<'r, T> {
    /// The cell was empty, and has the passed entry from now on.
    Won,
    /// The cell has this entry. The passed one was dropped.
    Lost(&'r T),
}

/// One thread's seat at a row, which has seen the row's first entries.
///
/// It follows the row from its first cell, and is the thread's view of the agreed list of a universal construction
/// (Herlihy and Shavit): a borrow of the row beside a `Progress`, which does the work. Contracts see it as its row, the
/// list of entries that it has seen, how many of its attempts to append won, and how many of its polls found an empty
/// cell. A seat is `Send` if `T` is `Send` and `Sync`. No call waits, takes a lock or asks for memory.
#[derive(Drop)]
pub struct Seat<'r, T> {
    row: &'r Row<T>,
    progress: Progress<T>,
}

impl<'r, T> Model for Seat<'r, T> {
    ghost use Rattle.std.specs.Prelude.{◌≡◌};
    ghost use Rattle.asm_row.specs.Seat.{SeatView};

    ghost Value = { SeatView T };

    ghost view = { λ s. s.progress };

    ghost invariant = { λ s. s.row.now ≡ s.progress.row };
}

impl<'r, T> Seat<'r, T> {
    /// Return a seat that has seen nothing.
    pub(crate) fn at_start(row: &'r Row<T>) -> Seat<'r, T>
        ensures { result ≡ record { row = row.now; seen = []; won = 0; misses = 0 } }
    {
        Seat {
            row,
            progress: row.progress(),
        }
    }

    /// Return how many entries this seat has seen: at most the row's capacity.
    pub fn seen_len(&self) -> u32
        ensures value { result ≡ length self.now.seen }
        ensures within { length self.now.seen ≤ length self.now.row }
    {
        self.progress.seen_len()
    }

    /// Return whether this seat has seen an entry in each cell of the row.
    pub fn is_full(&self) -> bool
        ensures { MatchBool result
            (length self.now.seen ≡ length self.now.row)
            (length self.now.seen < length self.now.row) }
    {
        self.progress.is_full()
    }

    /// Return the entry at place `k`, counted from 0, of those that this seat has seen.
    pub fn at(&self, k: u32) -> &'r T
        requires { k < length self.now.seen }
        ensures { slice_get self.now.seen k ≡ Some result.now }
    {
        self.progress.at(self.row, k)
    }

    /// Return how many of this seat's attempts to append won.
    ///
    /// They are at most as many as the entries that it has seen.
    pub fn won(&self) -> u32
        ensures value { result ≡ self.now.won }
        ensures within { self.now.won ≤ length self.now.seen }
    {
        self.progress.won()
    }

    /// Return how many of this seat's polls found an empty cell.
    ///
    /// The counter saturates at 18,446,744,073,709,551,615.
    pub fn misses(&self) -> u64
        ensures { result ≡ self.now.misses }
    {
        self.progress.misses()
    }

    /// Poll the first cell that this seat has not seen, once.
    ///
    /// An entry found there is returned, and is the next of those that the seat has seen. `None` is one miss, counted
    /// up to 18,446,744,073,709,551,615. A seat that is full polls no cell: it returns `None`, and nothing changes.
    pub fn next(&mut self) -> Option<&'r T>
        ensures row { self.new.row ≡ self.old.row }
        ensures found { IfSome result (λ entry.
            self.new ≡ record self.old { seen = self.old.seen ++ entry.now ∷ [] }) }
        ensures miss { length self.old.seen < length self.old.row →
            IfNone result (self.new ≡ record self.old { misses = min (self.old.misses + 1) (2 ^ 64 - 1) }) }
        ensures full { length self.old.seen ≡ length self.old.row →
            IsNone result × (self.new ≡ self.old) }
    {
        self.progress.next(self.row)
    }

    /// Return a mark of what this seat has seen, for other seats of the row to learn.
    ///
    /// The answer is always `Ok`: a mark takes no memory of its own.
    pub fn mark(&self, alloc: Global) -> Result<Mark<T>, AllocError>
        ensures made { IsOk result }
        ensures holds { IfOk result (λ mark.
            mark ≡ record { row = self.now.row; seen = self.now.seen }) }
    {
        self.progress.mark(alloc)
    }

    /// Take in what a mark of the same row holds, without polling the row.
    ///
    /// The mark's entries and those that the seat had seen are prefixes of one list; afterwards the seat has seen the
    /// longer of the two. Wins and misses are unchanged.
    pub fn learn(&mut self, mark: &Mark<T>)
        requires { mark.now.row ≡ self.old.row }
        ensures kept { self.new ≡ record self.old { seen = self.new.seen } }
        ensures mine { IsPrefix self.old.seen self.new.seen }
        ensures theirs { IsPrefix mark.now.seen self.new.seen }
        ensures longest { length self.new.seen ≡ max (length self.old.seen) (length mark.now.seen) }
    {
        self.progress.learn(mark)
    }
}

impl<'r, T: Drop> Seat<'r, T> {
    /// Attempt to append `value`: set the first unseen cell, if that is empty.
    ///
    /// Either way the seat has then seen one entry more, the one in the cell: on `Won` the passed one, and `won` grows
    /// by one; on `Lost` the returned one, and `value` is dropped. Contracts cover the seen cells alone; tests show
    /// that a lost value is put into no other cell.
    pub fn offer(&mut self, value: Box<T>) -> Offer<'r, T>
        requires { length self.old.seen < length self.old.row }
        ensures row { self.new.row ≡ self.old.row }
        ensures won { IfWon result
            (self.new ≡ record self.old { seen = self.old.seen ++ value.value ∷ []; won = self.old.won + 1 }) }
        ensures lost { IfLost result (λ entry.
            self.new ≡ record self.old { seen = self.old.seen ++ entry.now ∷ [] }) }
    {
        let last = self.progress.seen_len();
        match self.progress.try_offer(self.row, value) {
            Ok(()) => Offer::Won,
            Err(_) => Offer::Lost(self.progress.at(self.row, last)),
        }
    }
}
