ghost use Rattle.std.specs.Prelude.{◌≡◌, ◌<◌, ◌≤◌, [], All, IfOk, OnErr, None, is_some, not, length, if◌then◌else◌, vec_len};
ghost use Rattle.asm_element.specs.Element.{element_cmp};
ghost use Rattle.std.specs.List.Sorted.{IsStrictlySortedBy};
ghost use Rattle.std.specs.BTreeMap.{insert_entry};
ghost use Rattle.std.specs.Map.{keys_of, values_of};
ghost use Rattle.asm_element.specs.Entries.{at, held, assigned, AllFit};
ghost use Rattle.asm_element.specs.Chunks.{there};

use crate::chunk::Chunk;
use crate::chunk_vec::{assign, copied, count_in, put_in};
use crate::element::Element;
use crate::marks::Marks;
use std::alloc::{AllocError, Global};
use std::marker::Model;

/// Elements in order with their counts, whose copies share the elements.
///
/// Contracts see it as its entries, ascending. None has the count 0.
#[derive(Drop)]
pub(crate) struct Chunks<M: Marks> {
    chunks: Vec<Chunk<M>>,
    len: usize,
}

impl<M: Marks> Model for Chunks<M> {
    ghost use Rattle.std.specs.Prelude.{◌≡◌, ℕ, List, length};
    ghost use Rattle.std.specs.Coded.{coded_list, coded×, coded_ℕ};
    ghost use Rattle.asm_element.specs.declared.element.Element.{Element};
    ghost use Rattle.asm_element.specs.contracts.element.Element.{the_row as element_row};
    ghost use Rattle.asm_element.specs.Chunks.{there, AreChunks};

    ghost Value = { List (Element × ℕ) };

    ghost coded = { coded_list (coded× element_row.coded coded_ℕ) };

    ghost view = { λ s. there s.chunks.items };

    ghost invariant = { λ s. AreChunks s.chunks.items × (s.len ≡ length (there s.chunks.items)) };
}

impl<M: Marks> Chunks<M> {
    /// Return none.
    pub(crate) fn new(alloc: Global) -> Self
        ensures { result ≡ [] }
    {
        Chunks {
            chunks: Vec::new(alloc),
            len: 0,
        }
    }

    /// Return 1 to 64 entries, as one chunk.
    pub(crate) fn of(alloc: Global, pairs: Vec<(Element, u32)>) -> Result<Chunks<M>, AllocError>
        requires some { 0 < vec_len pairs }
        requires few { vec_len pairs ≤ 64 }
        requires ascending { IsStrictlySortedBy element_cmp (keys_of pairs.items) }
        requires positive { All (λ n. 1 ≤ n) (values_of pairs.items) }
        requires fits { AllFit M.most pairs.items }
        ensures { IfOk result (λ chunks. chunks ≡ pairs.items) }
    {
        let len = pairs.len();
        let mut chunks = Vec::new(alloc);
        chunks.push(Chunk::<M>::of(alloc, pairs)?)?;
        Ok(Chunks { chunks, len })
    }

    /// Return how often the key is there.
    pub(crate) fn count(&self, key: &Element) -> u32
        ensures { at self.now key.now ≡ held result }
    {
        count_in(&self.chunks, key)
    }

    /// Return how many keys there are.
    pub(crate) fn len(&self) -> usize
        ensures { result ≡ length self.now }
    {
        self.len
    }

    /// Add the key `n` times if it isn't there; return whether it was new.
    pub(crate) fn insert(&mut self, key: Element, n: u32) -> Result<bool, AllocError>
        requires positive { 1 ≤ n }
        requires fits { n ≤ M.most }
        ensures added { IfOk result (λ added. added ≡ not (is_some (at self.old key))) }
        ensures ok { IfOk result (λ added. self.new ≡ (if added then insert_entry element_cmp self.old key n else self.old)) }
        ensures err { OnErr result (self.new ≡ self.old) }
        ensures absent { OnErr result (at self.old key ≡ None) }
    {
        if self.len == usize::MAX {
            if count_in(&self.chunks, &key) > 0 {
                return Ok(false);
            }
            return Err(AllocError);
        }
        let alloc = *self.chunks.allocator();
        if put_in(&mut self.chunks, alloc, key, n)? {
            self.len += 1;
            return Ok(true);
        }
        Ok(false)
    }

    /// Say how often the key is there, if it is. It takes no memory.
    pub(crate) fn assign(&mut self, key: &Element, n: u32)
        requires { n ≤ M.most }
        ensures { self.new ≡ assigned self.old key.now n }
    {
        let gone = assign(&mut self.chunks, key, n);
        self.len -= gone;
    }

    /// Return the chunks.
    pub(crate) fn all(&self) -> &[Chunk<M>]
        ensures { there result.now ≡ self.now }
    {
        &self.chunks
    }

    /// State for proofs that the keys ascend; do nothing at run time.
    pub(crate) fn ascends(&self)
        ensures { IsStrictlySortedBy element_cmp (keys_of self.now) }
    {
        let _chunks = &self.chunks;
    }

    /// Return the same, which shares the elements.
    pub(crate) fn copy(&self, alloc: Global) -> Result<Chunks<M>, AllocError>
        ensures { IfOk result (λ copy. copy ≡ self.now) }
    {
        let chunks = copied(&self.chunks, alloc)?;
        Ok(Chunks {
            chunks,
            len: self.len,
        })
    }
}
