ghost use Rattle.std.specs.Prelude.{◌≡◌, ◌↔◌, ◌≤◌, IsTrue, length};

use crate::known_prefix::KnownPrefix;
use std::marker::Model;

/// What one seat had seen when the mark was made.
///
/// It holds no entry and no borrow, so it may leave the seat's thread and outlive the row: it is `Send` and `Sync`
/// for every `T`. Contracts see it as its row and the list of those entries. Marks of this form are this project's
/// profile.
#[derive(Drop)]
pub struct Mark<T> {
    pub(crate) len: u32,
    pub(crate) prefix: KnownPrefix<T>,
}

impl<T> Model for Mark<T> {
    ghost use Rattle.std.specs.Prelude.{◌≡◌, ◌≤◌, length};
    ghost use Rattle.asm_row.specs.Mark.{MarkView};

    ghost Value = { MarkView T };

    ghost view = { λ m. record { row = m.prefix.row; seen = m.prefix.seen } };

    ghost invariant = { λ m. (m.len ≡ length m.prefix.seen) × (length m.prefix.seen ≤ length m.prefix.row) };
}

impl<T> Mark<T> {
    /// Return how many entries the mark holds: at most the capacity of its row.
    pub fn len(&self) -> u32
        ensures value { result ≡ length self.now.seen }
        ensures within { length self.now.seen ≤ length self.now.row }
    {
        self.len
    }

    /// Return whether the mark holds no entry.
    pub fn is_empty(&self) -> bool
        ensures { IsTrue result ↔ (length self.now.seen ≡ 0) }
    {
        0 == self.len()
    }
}
