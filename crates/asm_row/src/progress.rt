ghost use Rattle.std.specs.Prelude.{◌≡◌, ◌+◌, ◌-◌, ◌^◌, ◌<◌, ◌≤◌, ◌∷◌, ◌++◌, [], length, max, min, slice_get};
ghost use Rattle.std.specs.Prelude.{IfOk, IfErr, IsOk, IfSome, IfNone, IsNone, IsSome, MatchBool};
ghost use mathlib.Core.List.{IsPrefix};
ghost use Rattle.std.specs.declared.option.Option.TheVariants.{None, Some};

use crate::known_prefix::KnownPrefix;
use crate::mark::Mark;
use crate::row::Row;
use once_cell::race::Note;
use std::alloc::{AllocError, Global};
use std::marker::Model;

/// How far one thread has followed a row: a `Seat` without its borrow of the row.
///
/// It borrows nothing, so one value may hold it beside an owner of the row, which it may outlive. Each call that
/// touches a cell is passed the row, which must be the one that made the progress; no call tests this. Contracts see it
/// as they see a seat: its row, the entries that were seen, how many attempts to append won, and how many polls found
/// an empty cell. It is `Send` and `Sync` for every `T`. No call waits, takes a lock or asks for memory.
#[derive(Drop)]
pub struct Progress<T> {
    capacity: u32,
    seen_len: u32,
    prefix: KnownPrefix<T>,
    won: u32,
    misses: u64,
}

impl<T> Model for Progress<T> {
    ghost use Rattle.asm_row.specs.Seat.{SeatView, IsProgress};

    ghost Value = { SeatView T };

    ghost view = { λ s. record { row = s.prefix.row; seen = s.prefix.seen; won = s.won; misses = s.misses } };

    ghost invariant = { λ s. IsProgress s.capacity s.seen_len s.won s.prefix.row s.prefix.seen };
}

impl<T> Progress<T> {
    /// Return the progress that has seen nothing of `row`, with no win and no miss.
    pub(crate) fn at_start(row: &Row<T>) -> Progress<T>
        ensures { result ≡ record { row = row.now; seen = []; won = 0; misses = 0 } }
    {
        Progress {
            capacity: row.capacity(),
            seen_len: 0,
            prefix: KnownPrefix::nothing(row),
            won: 0,
            misses: 0,
        }
    }

    /// Return how many entries were seen: at most the row's capacity.
    pub fn seen_len(&self) -> u32
        ensures value { result ≡ length self.now.seen }
        ensures within { length self.now.seen ≤ length self.now.row }
    {
        self.seen_len
    }

    /// Return whether an entry was seen in each cell of the row.
    pub fn is_full(&self) -> bool
        ensures { MatchBool result
            (length self.now.seen ≡ length self.now.row)
            (length self.now.seen < length self.now.row) }
    {
        self.seen_len == self.capacity
    }

    /// Return the entry at place `k`, counted from 0, of those that were seen.
    ///
    /// It reads the cell again, which still has that entry: no copy of an entry is retained.
    pub fn at<'r>(&self, row: &'r Row<T>, k: u32) -> &'r T
        requires own { row.now ≡ self.now.row }
        requires seen { k < length self.now.seen }
        ensures { slice_get self.now.seen k ≡ Some result.now }
    {
        let prefix = &self.prefix;
        let cell = row.cell(k as usize);
        let mut note = cell.note();
        prefix.tell(k as usize, &mut note);
        match cell.get_as(&mut note) {
            Some(entry) => entry,
            None => unreachable!(),
        }
    }

    /// Return how many attempts to append won: at most as many as the entries seen.
    pub fn won(&self) -> u32
        ensures value { result ≡ self.now.won }
        ensures within { self.now.won ≤ length self.now.seen }
    {
        self.won
    }

    /// Return how many polls found an empty cell, at most 18,446,744,073,709,551,615.
    ///
    /// The counter saturates there.
    pub fn misses(&self) -> u64
        ensures { result ≡ self.now.misses }
    {
        self.misses
    }

    // Takes in the entry of the first unseen cell, which the note knows.
    fn see(&mut self, note: &mut Note<T>)
        requires cell { slice_get self.old.row (length self.old.seen) ≡ Some note.old.cell }
        requires known { IsSome note.old.known }
        ensures { IfSome note.old.known (λ entry.
            self.new ≡ record self.old { seen = self.old.seen ++ entry ∷ [] }) }
    {
        self.prefix.add(note);
        self.seen_len += 1;
    }

    /// Poll the first cell that was not seen, once.
    ///
    /// An entry found there is returned, and is the next of those that were seen. `None` is one miss, counted up to
    /// 18,446,744,073,709,551,615. If all cells were seen, none is polled: the answer is `None`, and nothing changes.
    pub fn next<'r>(&mut self, row: &'r Row<T>) -> Option<&'r T>
        requires own { row.now ≡ self.old.row }
        ensures row { self.new.row ≡ self.old.row }
        ensures found { IfSome result (λ entry.
            self.new ≡ record self.old { seen = self.old.seen ++ entry.now ∷ [] }) }
        ensures miss { length self.old.seen < length self.old.row →
            IfNone result (self.new ≡ record self.old { misses = min (self.old.misses + 1) (2 ^ 64 - 1) }) }
        ensures full { length self.old.seen ≡ length self.old.row →
            IsNone result × (self.new ≡ self.old) }
    {
        if self.is_full() {
            return None;
        }
        let cell = row.cell(self.seen_len as usize);
        let mut note = cell.note();
        match cell.get_as(&mut note) {
            Some(entry) => {
                self.see(&mut note);
                Some(entry)
            }
            None => {
                self.misses = self.misses.saturating_add(1);
                None
            }
        }
    }

    /// Return a mark of what was seen, which another seat or progress can learn.
    ///
    /// The other one must be of the same row. The answer is always `Ok`: a mark takes no memory of its own.
    pub fn mark(&self, _alloc: Global) -> Result<Mark<T>, AllocError>
        ensures made { IsOk result }
        ensures holds { IfOk result (λ mark.
            mark ≡ record { row = self.now.row; seen = self.now.seen }) }
    {
        Ok(Mark {
            len: self.seen_len,
            prefix: self.prefix.copy(),
        })
    }

    /// Take in what a mark of the same row holds, without polling the row.
    ///
    /// The mark's entries and those that were seen before are prefixes of one list; the longer of the two is what was
    /// seen afterwards. Wins and misses are unchanged.
    pub fn learn(&mut self, mark: &Mark<T>)
        requires { mark.now.row ≡ self.old.row }
        ensures kept { self.new ≡ record self.old { seen = self.new.seen } }
        ensures mine { IsPrefix self.old.seen self.new.seen }
        ensures theirs { IsPrefix mark.now.seen self.new.seen }
        ensures longest { length self.new.seen ≡ max (length self.old.seen) (length mark.now.seen) }
    {
        self.prefix.agrees(&mark.prefix);
        if self.seen_len < mark.len {
            self.seen_len = mark.len;
            self.prefix = mark.prefix.copy();
        }
    }

    /// Take in what another progress at the same row has seen, as `learn` does.
    pub fn learn_from(&mut self, other: &Progress<T>)
        requires { other.now.row ≡ self.old.row }
        ensures kept { self.new ≡ record self.old { seen = self.new.seen } }
        ensures mine { IsPrefix self.old.seen self.new.seen }
        ensures theirs { IsPrefix other.now.seen self.new.seen }
        ensures longest { length self.new.seen ≡ max (length self.old.seen) (length other.now.seen) }
    {
        self.learn(&Mark {
            len: other.seen_len,
            prefix: other.prefix.copy(),
        })
    }
}

impl<T: Drop> Progress<T> {
    /// Attempt to append `value`: set the first unseen cell, if that is empty.
    ///
    /// Either way one entry more was then seen, the one in the cell: on `Ok` the passed one, and `won` grows by one. A
    /// lost attempt learns the entry from the failed set itself, and doesn't read the cell again. Contracts cover the
    /// seen cells alone; tests show that a lost value is put into no other cell.
    ///
    /// # Errors
    ///
    /// - The same box, if another entry is in the cell. That entry is then the last of those that were seen, and the
    ///   box may be passed again, for the next cell.
    pub fn try_offer(&mut self, row: &Row<T>, value: Box<T>) -> Result<(), Box<T>>
        requires own { row.now ≡ self.old.row }
        requires room { length self.old.seen < length self.old.row }
        ensures row { self.new.row ≡ self.old.row }
        ensures won { IfOk result (λ _.
            self.new ≡ record self.old { seen = self.old.seen ++ value.value ∷ []; won = self.old.won + 1 }) }
        ensures lost { IfErr result (λ back. (entry : T) ×
            (self.new ≡ record self.old { seen = self.old.seen ++ entry ∷ [] })) }
        ensures back { IfErr result (λ back. back.value ≡ value.value) }
    {
        let cell = row.cell(self.seen_len as usize);
        let mut note = cell.note();
        let offer = cell.set_as(value, &mut note);
        self.see(&mut note);
        if offer.is_ok() {
            self.won += 1;
        }
        offer
    }
}
