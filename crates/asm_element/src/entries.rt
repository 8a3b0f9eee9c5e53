ghost use Rattle.std.specs.Prelude.{◌≡◌, ◌<◌, ◌≤◌, ◌++◌, [], All, IfOk, OnErr, None, is_some, not, length, if◌then◌else◌};
ghost use Rattle.std.specs.BTreeMap.{insert_entry};
ghost use Rattle.std.specs.List.Sorted.{IsStrictlySortedBy};
ghost use Rattle.std.specs.Map.{keys_of, values_of};
ghost use Rattle.asm_element.specs.Element.{element_cmp};
ghost use Rattle.asm_element.specs.Entries.{at, held, assigned};

use crate::chunks::Chunks;
use crate::counts::Counts;
use crate::element::Element;
use crate::iter::{BagIter, SetIter};
use crate::marked::Marked;
use crate::marks::Marks;
use crate::mask::Mask;
use crate::tree::Tree;
use std::alloc::{AllocError, Global};
use std::collections::btree_map::Iter;
use std::fmt;
use std::marker::Model;

/// The most keys of the tree.
const FEW: usize = 32;

/// Elements in order with their counts: a few in a tree, which is faster, and more in chunks, which copies share.
///
/// Contracts see it as its entries, ascending. None has the count 0.
#[derive(Drop)]
pub(crate) struct Entries<M: Marks> {
    few: Tree,
    many: Option<Box<Chunks<M>>>,
    alloc: Global,
}

impl<M: Marks> Model for Entries<M> {
    ghost use Rattle.std.specs.Prelude.{◌≡◌, ◌≤◌, List, ℕ, All, [], IsSome};
    ghost use Rattle.std.specs.Coded.{coded_list, coded×, coded_ℕ};
    ghost use Rattle.std.specs.Map.{values_of};
    ghost use Rattle.asm_element.specs.declared.element.Element.{Element};
    ghost use Rattle.asm_element.specs.contracts.element.Element.{the_row as element_row};
    ghost use Rattle.asm_element.specs.Entries.{either};

    ghost Value = { List (Element × ℕ) };

    ghost coded = { coded_list (coded× element_row.coded coded_ℕ) };

    ghost view = { λ e. either e.few e.many };

    ghost invariant = { λ e. All (λ n. n ≤ M.most) (values_of e.few) × (IsSome e.many → e.few ≡ []) };
}

impl<M: Marks> Entries<M> {
    /// Return no entries.
    pub(crate) fn new(alloc: Global) -> Self
        ensures { result ≡ [] }
    {
        Entries {
            few: Tree::new(alloc),
            many: None,
            alloc,
        }
    }

    /// Return how often the key is there.
    pub(crate) fn count(&self, key: &Element) -> u32
        ensures { at self.now key.now ≡ held result }
    {
        match &self.many {
            Some(chunks) => chunks.count(key),
            None => self.few.count(key),
        }
    }

    /// Return how many keys there are.
    pub(crate) fn len(&self) -> usize
        ensures { result ≡ length self.now }
    {
        match &self.many {
            Some(chunks) => chunks.len(),
            None => self.few.len(),
        }
    }

    /// Return the allocator.
    pub(crate) fn alloc(&self) -> Global {
        self.alloc
    }

    /// Add the key `n` times if it isn't there; return whether it was new.
    pub(crate) fn insert(&mut self, key: Element, n: u32) -> Result<bool, AllocError>
        requires positive { 1 ≤ n }
        requires fits { n ≤ M.most }
        ensures added { IfOk result (λ added. added ≡ not (is_some (at self.old key))) }
        ensures ok { IfOk result (λ added. self.new
            ≡ (if added then insert_entry element_cmp self.old key n else self.old)) }
        ensures err { OnErr result (self.new ≡ self.old) }
        ensures absent { OnErr result (at self.old key ≡ None) }
    {
        if let Some(chunks) = &mut self.many {
            return chunks.insert(key, n);
        }
        if self.few.len() != FEW {
            return self.few.insert(key, n);
        }
        if self.few.count(&key) > 0 {
            return Ok(false);
        }
        let mut chunks = chunked::<M>(&self.few, self.alloc)?;
        chunks.insert(key, n)?;
        self.many = Some(Box::new(self.alloc, chunks)?);
        self.few = Tree::new(self.alloc);
        Ok(true)
    }

    /// Set the count of the key if it is there; where it is 0, take the key out. It takes no memory.
    pub(crate) fn assign(&mut self, key: &Element, n: u32)
        requires { n ≤ M.most }
        ensures { self.new ≡ assigned self.old key.now n }
    {
        match &mut self.many {
            Some(chunks) => chunks.assign(key, n),
            None => self.few.assign(key, n),
        }
    }

    /// Return the entries of the tree, and those of the chunks, which follow them.
    pub(crate) fn parts(&self) -> (Iter<'_, Element, u32>, Marked<'_, M>)
        ensures { result.0 ++ result.1 ≡ self.now }
    {
        let few = self.few.iter();
        match &self.many {
            Some(chunks) => (few, Marked::of(chunks.all())),
            None => (few, Marked::of(&[])),
        }
    }

    /// State for proofs that the keys ascend; do nothing at run time.
    pub(crate) fn ascends(&self)
        ensures { IsStrictlySortedBy element_cmp (keys_of self.now) }
    {
        match &self.many {
            Some(chunks) => chunks.ascends(),
            None => self.few.proper(),
        }
    }

    /// Return the same; chunks share the elements.
    pub(crate) fn copy(&self, alloc: Global) -> Result<Entries<M>, AllocError>
        ensures { IfOk result (λ copy. copy ≡ self.now) }
    {
        let few = self.few.copy()?;
        let many = match &self.many {
            Some(chunks) => Some(Box::new(alloc, chunks.copy(alloc)?)?),
            None => None,
        };
        Ok(Entries { few, many, alloc })
    }
}

/// Return chunks of the tree's entries.
fn chunked<M: Marks>(tree: &Tree, alloc: Global) -> Result<Chunks<M>, AllocError>
    requires some { 0 < length tree.now }
    requires few { length tree.now ≤ 64 }
    requires fits { All (λ n. n ≤ M.most) (values_of tree.now) }
    ensures { IfOk result (λ chunks. chunks ≡ tree.now) }
{
    tree.proper();
    let pairs = tree.pairs(alloc)?;
    Chunks::of(alloc, pairs)
}

impl fmt::Debug for Entries<Mask> {
    fn fmt<W: fmt::Write>(&self, f: &mut fmt::Formatter<W>) -> fmt::Result {
        f.debug_set().entries(SetIter::of(self)).finish()
    }
}

impl fmt::Debug for Entries<Counts> {
    fn fmt<W: fmt::Write>(&self, f: &mut fmt::Formatter<W>) -> fmt::Result {
        let mut out = f.debug_map();
        for (element, count) in BagIter::of(self) {
            out.entry(element, count);
        }
        out.finish()
    }
}
