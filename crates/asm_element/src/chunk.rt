ghost use Rattle.std.specs.Prelude.{◌≡◌, ℕ, List, ◌<◌, ◌≤◌, ◌+◌, ◌-◌, ◌∷◌, ◌++◌, [], if◌then◌else◌, ◌==◌, IsTrue, IfOk, IfErr, IfSome, IfNone, OnOk, OnErr, length, take, drop, set, vec_len};
ghost use Rattle.asm_element.specs.Element.{element_cmp, number_in};
ghost use Rattle.std.specs.Ordering.{is_gt};
ghost use Rattle.std.specs.List.{insert};
ghost use Rattle.std.specs.List.Sorted.{IsStrictlySortedBy};
ghost use Rattle.std.specs.Map.{keys_of};
ghost use Rattle.asm_element.specs.Slots.{slots, first_number, live, count_of, key_of, IsSpot, IsGap};
ghost use Rattle.asm_element.specs.Entries.{AllFit};

use crate::counts::Counts;
use crate::element::Element;
use crate::marks::Marks;
use std::alloc::{AllocError, Global};
use std::marker::Model;
use std::sync::Arc;

/// The most items of a chunk.
pub(crate) const ROOM: usize = 64;

/// At most 64 ascending keys, which several owners share, and this owner's own counts of them.
#[derive(Drop)]
pub(crate) struct Chunk<M: Marks> {
    items: Arc<Vec<Element>>,
    marks: M,
    // The first key, if it is a number: a search over chunks reads it without a look at the keys.
    first: Option<i64>,
}

impl<M: Marks> Model for Chunk<M> {
    ghost use Rattle.std.specs.Prelude.{◌≡◌, ℕ, List, length, ◌≤◌};
    ghost use Rattle.std.specs.Arc.{arc_value};
    ghost use Rattle.asm_element.specs.Slots.{slots, first_number};
    ghost use Rattle.std.specs.Coded.{coded_list, coded×, coded_ℕ};
    ghost use Rattle.asm_element.specs.declared.element.Element.{Element};
    ghost use Rattle.asm_element.specs.contracts.element.Element.{the_row as element_row};

    ghost Value = { List (Element × ℕ) };

    ghost coded = { coded_list (coded× element_row.coded coded_ℕ) };

    ghost view = { λ c. slots (arc_value c.items).items (M.counts c.marks) };

    ghost invariant = { λ c. ((length (arc_value c.items).items ≤ 64) × (length (M.counts c.marks) ≡ 64)) × (c.first ≡ first_number (arc_value c.items).items) };
}

/// Return the keys of the pairs, and their counts as marks.
fn parted<M: Marks>(
    alloc: Global,
    pairs: Vec<(Element, u32)>,
) -> Result<(Vec<Element>, M), AllocError>
    requires few { vec_len pairs ≤ 64 }
    requires fits { AllFit M.most pairs.items }
    ensures slots { IfOk result (λ p. slots p.0.items (M.counts p.1) ≡ pairs.items) }
    ensures few { IfOk result (λ p. vec_len p.0 ≤ 64) }
    ensures long { IfOk result (λ p. length (M.counts p.1) ≡ 64) }
{
    let mut items = Vec::with_capacity(alloc, pairs.len())?;
    let mut marks = M::none(alloc)?;
    for (key, n) in pairs {
        marks.put(items.len(), n);
        items.push(key)?;
    }
    Ok((items, marks))
}

/// Return the number that the key is, if it is one.
fn number_of(key: &Element) -> Option<i64>
    ensures { result ≡ number_in key.now }
{
    match key {
        Element::Num(n) => Some(*n),
        _ => None,
    }
}

/// Return the number that the first key is, if it is one.
fn first_of(items: &[Element]) -> Option<i64>
    ensures { result ≡ first_number items.now }
{
    if items.is_empty() {
        return None;
    }
    number_of(&items[0])
}

impl<M: Marks> Chunk<M> {
    /// Return the chunk of these keys with these counts.
    pub(crate) fn of(alloc: Global, pairs: Vec<(Element, u32)>) -> Result<Chunk<M>, AllocError>
        requires few { vec_len pairs ≤ 64 }
        requires fits { AllFit M.most pairs.items }
        ensures { IfOk result (λ c. c ≡ pairs.items) }
    {
        let (items, marks) = parted::<M>(alloc, pairs)?;
        let first = first_of(&items);
        let items = Arc::new(alloc, items)?;
        Ok(Chunk {
            items,
            marks,
            first,
        })
    }

    /// Return how many keys it has, with those that are not there.
    pub(crate) fn len(&self) -> usize
        ensures len { result ≡ length self.now }
        ensures few { result ≤ 64 }
    {
        self.items.len()
    }

    /// Return the key at the place.
    pub(crate) fn key(&self, at: usize) -> &Element
        requires { at < length self.now }
        ensures { result.now ≡ key_of self.now at }
    {
        &self.items[at]
    }

    /// Return whether the first key is above this one.
    pub(crate) fn is_above(&self, key: &Element) -> bool
        requires { 0 < length self.now }
        ensures { result ≡ is_gt (element_cmp (key_of self.now 0) key.now) }
    {
        match (self.first, key) {
            (Some(a), Element::Num(b)) => a.cmp(b).is_gt(),
            _ => self.key(0).cmp(key).is_gt(),
        }
    }

    /// Return how often the key at the place is there.
    pub(crate) fn count(&self, at: usize) -> u32
        requires { at < length self.now }
        ensures value { result ≡ count_of self.now at }
        ensures fits { result ≤ M.most }
    {
        self.marks.at(at)
    }

    /// Say how often the key at the place is there.
    pub(crate) fn set_count(&mut self, at: usize, n: u32)
        requires place { at < length self.old }
        requires fits { n ≤ M.most }
        ensures { self.new ≡ set self.old at (key_of self.old at, n) }
    {
        self.marks.put(at, n);
    }

    /// Return where the key is, or where it would go.
    pub(crate) fn find(&self, key: &Element) -> Result<usize, usize>
        requires { IsStrictlySortedBy element_cmp (keys_of self.now) }
        ensures found { IfOk result (IsSpot self.now key.now) }
        ensures absent { IfErr result (IsGap self.now key.now) }
    {
        self.items.binary_search(key)
    }

    /// Return the chunk with the same keys and counts, which shares the keys.
    pub(crate) fn twin(&self, alloc: Global) -> Result<Chunk<M>, AllocError>
        ensures { IfOk result (λ c. c ≡ self.now) }
    {
        let marks = self.marks.twin(alloc)?;
        let items = Arc::try_clone(&self.items)?;
        Ok(Chunk {
            items,
            marks,
            first: self.first,
        })
    }

    /// Add the key at the place if no other owner shares the keys; else give it back.
    pub(crate) fn insert_here(
        &mut self,
        at: usize,
        key: Element,
        n: u32,
    ) -> Result<Option<Element>, AllocError>
        requires place { at ≤ length self.old }
        requires room { length self.old < 64 }
        requires fits { n ≤ M.most }
        ensures added { IfOk result (λ back. IfNone back (self.new ≡ insert self.old at (key, n))) }
        ensures same { IfOk result (λ back. IfSome back (λ k. self.new ≡ self.old)) }
        ensures back { IfOk result (λ back. IfSome back (λ k. k ≡ key)) }
        ensures err { OnErr result (self.new ≡ self.old) }
    {
        let Some(items) = Arc::get_mut(&mut self.items) else {
            return Ok(Some(key));
        };
        items.insert(at, key)?;
        let first = first_of(items);
        self.marks.open(at, n);
        self.first = first;
        Ok(None)
    }

    /// Return the slot at the place, with a copy of the key.
    fn copied(&self, at: usize) -> Result<(Element, u32), AllocError>
        requires { at < length self.now }
        ensures value { IfOk result (λ s. s ≡ (key_of self.now at, count_of self.now at)) }
        ensures fits { IfOk result (λ s. s.1 ≤ M.most) }
    {
        let n = self.count(at);
        let key = self.key(at).clone()?;
        Ok((key, n))
    }

    /// Return the entries that are there, with this one at its place.
    pub(crate) fn with(
        &self,
        alloc: Global,
        at: usize,
        key: Element,
        n: u32,
    ) -> Result<Vec<(Element, u32)>, AllocError>
        requires place { at ≤ length self.now }
        requires fits { n ≤ M.most }
        ensures items { IfOk result (λ v. v.items ≡ live (take at self.now) ++ (key, n) ∷ live (drop at self.now)) }
        ensures few { IfOk result (λ v. vec_len v ≤ 65) }
        ensures fits { IfOk result (λ v. AllFit M.most v.items) }
    {
        let mut pairs = Vec::with_capacity(alloc, self.len() + 1)?;
        for index in 0..at {
            if self.count(index) > 0 {
                pairs.push(self.copied(index)?)?;
            }
        }
        pairs.push((key, n))?;
        for index in at..self.len() {
            if self.count(index) > 0 {
                pairs.push(self.copied(index)?)?;
            }
        }
        Ok(pairs)
    }

    /// Return whether none of its keys is there.
    pub(crate) fn is_dead(&self) -> bool
        ensures { IsTrue result → live self.now ≡ [] }
    {
        self.marks.is_none()
    }
}

impl Chunk<Counts> {
    /// Return the entry at the place.
    pub(crate) fn entry(&self, at: usize) -> (&Element, &u32)
        requires { at < length self.now }
        ensures key { result.0.now ≡ key_of self.now at }
        ensures count { result.1.now ≡ count_of self.now at }
    {
        (&self.items[at], self.marks.entry(at))
    }
}
