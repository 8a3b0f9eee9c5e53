ghost use Rattle.std.specs.Prelude.{◌≡◌, ◌&&◌, length};
ghost use Rattle.std.specs.Bool.{◌==◌};
ghost use Rattle.std.specs.Cmp.Lexicographic.{pointwise};
ghost use Rattle.std.specs.Ordering.{eq_by_cmp};
ghost use Rattle.asm_element.specs.Element.{element_cmp};
ghost use Rattle.std.specs.Iterator.{at_most};
ghost use Rattle.std.specs.Map.{keys_of};
ghost use Rattle.std.specs.Map.Iter.{TakesFirst, deref, deref_pair};

use crate::counts::Counts;
use crate::element::Element;
use crate::entries::Entries;
use crate::marked::Marked;
use crate::mask::Mask;
use std::collections::btree_map::Iter;
use std::marker::Model;

/// The elements of a set, ascending.
#[derive(Drop)]
pub struct SetIter<'a> {
    few: Iter<'a, Element, u32>,
    many: Marked<'a, Mask>,
}

impl<'a> Model for SetIter<'a> {
    ghost use Rattle.std.specs.Prelude.{List, ◌++◌};
    ghost use Rattle.std.specs.Coded.{coded_list};
    ghost use Rattle.std.specs.Map.{keys_of};
    ghost use Rattle.asm_element.specs.declared.element.Element.{Element};
    ghost use Rattle.asm_element.specs.contracts.element.Element.{the_row as element_row};

    ghost Value = { List Element };

    ghost coded = { coded_list element_row.coded };

    ghost view = { λ s. keys_of (s.few ++ s.many) };
}

impl<'a> SetIter<'a> {
    /// Return the elements of the entries.
    pub(crate) fn of(entries: &'a Entries<Mask>) -> SetIter<'a>
        ensures { result ≡ keys_of entries.now }
    {
        let (few, many) = entries.parts();
        SetIter { few, many }
    }
}

impl<'a> Iterator for SetIter<'a> {
    type Item = &'a Element;

    ghost next_gives = { TakesFirst deref };

    ghost remaining = { λ s. at_most (length s) };

    fn next(&mut self) -> Option<&'a Element> {
        if let Some((element, _)) = self.few.next() {
            return Some(element);
        }
        match self.many.next() {
            Some((chunk, at)) => Some(chunk.key(at)),
            None => None,
        }
    }
}

/// The elements of a bag with their counts, ascending.
#[derive(Drop)]
pub struct BagIter<'a> {
    few: Iter<'a, Element, u32>,
    many: Marked<'a, Counts>,
}

impl<'a> Model for BagIter<'a> {
    ghost use Rattle.std.specs.Prelude.{List, ℕ, ◌++◌};
    ghost use Rattle.std.specs.Coded.{coded_list, coded×, coded_ℕ};
    ghost use Rattle.asm_element.specs.declared.element.Element.{Element};
    ghost use Rattle.asm_element.specs.contracts.element.Element.{the_row as element_row};

    ghost Value = { List (Element × ℕ) };

    ghost coded = { coded_list (coded× element_row.coded coded_ℕ) };

    ghost view = { λ s. s.few ++ s.many };
}

impl<'a> BagIter<'a> {
    /// Return the elements of the entries, with their counts.
    pub(crate) fn of(entries: &'a Entries<Counts>) -> BagIter<'a>
        ensures { result ≡ entries.now }
    {
        let (few, many) = entries.parts();
        BagIter { few, many }
    }
}

impl<'a> Iterator for BagIter<'a> {
    type Item = (&'a Element, &'a u32);

    ghost next_gives = { TakesFirst deref_pair };

    ghost remaining = { λ s. at_most (length s) };

    fn next(&mut self) -> Option<(&'a Element, &'a u32)> {
        if let Some(entry) = self.few.next() {
            return Some(entry);
        }
        match self.many.next() {
            Some((chunk, at)) => Some(chunk.entry(at)),
            None => None,
        }
    }
}

/// Return whether the two have the same elements.
pub(crate) fn same_elements(mut mine: SetIter<'_>, mut theirs: SetIter<'_>) -> bool
    ensures { result ≡ pointwise (eq_by_cmp element_cmp) mine.entry theirs.entry }
{
    while let Some(x) = mine.next() {
        let Some(y) = theirs.next() else {
            return false;
        };
        if *x != *y {
            return false;
        }
    }
    theirs.next().is_none()
}

/// Return whether the two have the same elements as often.
pub(crate) fn same_counts(mut mine: BagIter<'_>, mut theirs: BagIter<'_>) -> bool
    ensures { result ≡ pointwise (λ p q. eq_by_cmp element_cmp p.0 q.0 && p.1 == q.1) mine.entry theirs.entry }
{
    while let Some((x, m)) = mine.next() {
        let Some((y, n)) = theirs.next() else {
            return false;
        };
        if *m != *n || *x != *y {
            return false;
        }
    }
    theirs.next().is_none()
}
