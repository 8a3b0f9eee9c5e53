ghost use Rattle.std.specs.Prelude.{◌≡◌, ◌≤◌, [], All, IfOk, OnErr, None, is_some, not, length, if◌then◌else◌};
ghost use Rattle.std.specs.BTreeMap.{insert_entry};
ghost use Rattle.std.specs.List.Sorted.{IsStrictlySortedBy};
ghost use Rattle.std.specs.Map.{keys_of, values_of};
ghost use Rattle.asm_element.specs.Element.{element_cmp};
ghost use Rattle.asm_element.specs.Entries.{at, held, assigned};

use crate::element::Element;
use std::alloc::{AllocError, Global};
use std::collections::BTreeMap;
use std::collections::btree_map::Iter;
use std::marker::Model;

/// Elements in order with their counts, in a tree of their own.
///
/// Contracts see it as its entries, ascending. None has the count 0.
#[derive(Drop)]
pub(crate) struct Tree {
    entries: BTreeMap<Element, u32>,
}

impl Model for Tree {
    ghost use Rattle.std.specs.Prelude.{List, ℕ, ◌≤◌, All};
    ghost use Rattle.std.specs.Coded.{coded_list, coded×, coded_ℕ};
    ghost use Rattle.std.specs.List.Sorted.{IsStrictlySortedBy};
    ghost use Rattle.std.specs.Map.{keys_of, values_of};
    ghost use Rattle.asm_element.specs.declared.element.Element.{Element};
    ghost use Rattle.asm_element.specs.Element.{element_cmp};
    ghost use Rattle.asm_element.specs.contracts.element.Element.{the_row as element_row};

    ghost Value = { List (Element × ℕ) };

    ghost coded = { coded_list (coded× element_row.coded coded_ℕ) };

    ghost view = { λ t. t.entries.entries };

    ghost invariant = { λ t. IsStrictlySortedBy element_cmp (keys_of t.entries.entries)
        × All (λ n. 1 ≤ n) (values_of t.entries.entries) };
}

impl Tree {
    /// Return no entries.
    pub(crate) fn new(alloc: Global) -> Self
        ensures { result ≡ [] }
    {
        Tree {
            entries: BTreeMap::new(alloc),
        }
    }

    /// Return how often the key is there.
    pub(crate) fn count(&self, key: &Element) -> u32
        ensures { at self.now key.now ≡ held result }
    {
        self.entries.get(key).copied().unwrap_or(0)
    }

    /// Return how many keys there are.
    pub(crate) fn len(&self) -> usize
        ensures { result ≡ length self.now }
    {
        self.entries.len()
    }

    /// Add the key `n` times if it isn't there; return whether it was new.
    pub(crate) fn insert(&mut self, key: Element, n: u32) -> Result<bool, AllocError>
        requires positive { 1 ≤ n }
        ensures added { IfOk result (λ added. added ≡ not (is_some (at self.old key))) }
        ensures ok { IfOk result (λ added. self.new
            ≡ (if added then insert_entry element_cmp self.old key n else self.old)) }
        ensures err { OnErr result (self.new ≡ self.old) }
        ensures absent { OnErr result (at self.old key ≡ None) }
    {
        let before = self.entries.len();
        let _count = self.entries.entry(key)?.or_insert(n);
        Ok(self.entries.len() > before)
    }

    /// Set the count of the key if it is there; where it is 0, take the key out.
    pub(crate) fn assign(&mut self, key: &Element, n: u32)
        ensures { self.new ≡ assigned self.old key.now n }
    {
        if n == 0 {
            self.entries.remove(key);
            return;
        }
        if let Some(count) = self.entries.get_mut(key) {
            *count = n;
        }
    }

    /// Return the entries in order.
    pub(crate) fn iter(&self) -> Iter<'_, Element, u32>
        ensures { result ≡ self.now }
    {
        self.entries.iter()
    }

    /// State for proofs that the keys ascend and no count is 0; do nothing at run time.
    pub(crate) fn proper(&self)
        ensures ascending { IsStrictlySortedBy element_cmp (keys_of self.now) }
        ensures counts { All (λ n. 1 ≤ n) (values_of self.now) }
    {
        let _entries = &self.entries;
    }

    /// Return copies of the entries, in order.
    pub(crate) fn pairs(&self, alloc: Global) -> Result<Vec<(Element, u32)>, AllocError>
        ensures { IfOk result (λ pairs. pairs.items ≡ self.now) }
    {
        let mut pairs = Vec::with_capacity(alloc, self.len())?;
        for (key, count) in self.entries.iter() {
            pairs.push((key.clone()?, *count))?;
        }
        Ok(pairs)
    }

    /// Return the same, in its own memory.
    pub(crate) fn copy(&self) -> Result<Tree, AllocError>
        ensures { IfOk result (λ copy. copy ≡ self.now) }
    {
        let entries = self.entries.clone()?;
        Ok(Tree { entries })
    }
}
