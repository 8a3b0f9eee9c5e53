ghost use Rattle.std.specs.Prelude.{◌≡◌, ◌∷◌, ◌++◌, ◌⊎◌, ℕ, List, [], length, slice_get, IfSome, IsSome};
ghost use base.Stored.{coded_list};
ghost use mathlib.Core.List.{IsPrefix};

use crate::row::Row;
use once_cell::race::Note;
use std::marker::{Model, PhantomData};

/// The entries of a row's first cells, which can't change any more.
///
/// It takes no bytes, and replaces a note of each of those cells. Unlike a `Note` it can be read and copied behind a
/// `&`.
pub(crate) struct KnownPrefix<T> {
    marker: PhantomData<T>,
    pub(crate) ghost row: { List ℕ },
    pub(crate) ghost seen: { List T } by { coded_list T.code },
}

impl<T> Model for KnownPrefix<T> {
    ghost use denote.Sharing.{said};
    ghost use Rattle.asm_row.specs.KnownPrefix.{all_noted};

    ghost also_owns = { λ k. all_noted T.row k.row k.seen };

    ghost also_shares = { λ k _ κ. said (all_noted T.row k.row k.seen) κ };
}

impl<T> KnownPrefix<T> {
    /// Return the empty prefix of the row.
    pub(crate) fn nothing(row: &Row<T>) -> KnownPrefix<T>
        ensures { (result.row ≡ row.now) × (result.seen ≡ []) }
    {
        KnownPrefix {
            marker: PhantomData,
        }
    }

    /// Return the same prefix once more.
    pub(crate) fn copy(&self) -> KnownPrefix<T>
        ensures { result ≡ self.now }
    {
        KnownPrefix {
            marker: PhantomData,
        }
    }

    /// Add the entry of the next cell, of which there is a note.
    pub(crate) fn add(&mut self, note: &mut Note<T>)
        requires cell { slice_get self.old.row (length self.old.seen) ≡ Some note.old.cell }
        requires known { IsSome note.old.known }
        ensures row { self.new.row ≡ self.old.row }
        ensures seen { IfSome note.old.known (λ entry. self.new.seen ≡ self.old.seen ++ entry ∷ []) }
    {}

    /// Give a note of the cell at place `at` that cell's entry, if the prefix has it.
    pub(crate) fn tell(&self, at: usize, note: &mut Note<T>)
        requires { slice_get self.now.row at ≡ Some note.old.cell }
        ensures cell { note.new.cell ≡ note.old.cell }
        ensures known { note.new.known ≡ slice_get self.now.seen at }
    {}

    /// Prove that of two prefixes of one row one begins the other.
    ///
    /// A cell never changes its entry.
    pub(crate) fn agrees(&self, other: &KnownPrefix<T>)
        requires { other.now.row ≡ self.now.row }
        ensures { IsPrefix self.now.seen other.now.seen ⊎ IsPrefix other.now.seen self.now.seen }
    {}
}

impl<T> Drop for KnownPrefix<T> {
    fn drop(self) {
        let KnownPrefix { marker: _ } = self;
    }
}

unsafe impl<T> Send for KnownPrefix<T> {}

unsafe impl<T> Sync for KnownPrefix<T> {}
