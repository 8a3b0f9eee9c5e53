ghost use Rattle.std.specs.Prelude.{◌≡◌, ◌<◌, IfSome, length};
ghost use Rattle.std.specs.Map.Iter.{TakesFirst};
ghost use Rattle.asm_element.specs.Chunks.{there, slot_at};

use crate::chunk::Chunk;
use crate::marks::Marks;
use std::marker::Model;

/// The keys of chunks that are there, ascending, from a place in the first chunk on.
///
/// Contracts see them with their counts.
#[derive(Drop)]
pub(crate) struct Marked<'a, M: Marks> {
    chunks: &'a [Chunk<M>],
    at: usize,
}

impl<'a, M: Marks> Model for Marked<'a, M> {
    ghost use Rattle.std.specs.Prelude.{List, ℕ};
    ghost use Rattle.std.specs.Coded.{coded_list, coded×, coded_ℕ};
    ghost use Rattle.asm_element.specs.declared.element.Element.{Element};
    ghost use Rattle.asm_element.specs.contracts.element.Element.{the_row as element_row};
    ghost use Rattle.asm_element.specs.Slots.{live};
    ghost use Rattle.asm_element.specs.Chunks.{left_from};

    ghost Value = { List (Element × ℕ) };

    ghost coded = { coded_list (coded× element_row.coded coded_ℕ) };

    ghost view = { λ s. live (left_from s.chunks.now s.at) };
}

impl<'a, M: Marks> Marked<'a, M> {
    /// Return those of all chunks.
    pub(crate) fn of(chunks: &'a [Chunk<M>]) -> Marked<'a, M>
        ensures { result ≡ there chunks.now }
    {
        Marked { chunks, at: 0 }
    }

    /// Return the chunk and the place of the next one.
    pub(crate) fn next(&mut self) -> Option<(&'a Chunk<M>, usize)>
        ensures in_range { IfSome result (λ s. s.1 < length s.0.now) }
        ensures steps { TakesFirst slot_at self.old result self.new }
    {
        while let Some((chunk, rest)) = self.chunks.split_first() {
            let at = self.at;
            if at < chunk.len() {
                self.at = at + 1;
                if chunk.count(at) > 0 {
                    return Some((chunk, at));
                }
            } else {
                self.chunks = rest;
                self.at = 0;
            }
        }
        None
    }
}
