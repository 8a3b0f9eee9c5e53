//! Sets, bags and values.
ghost use Rattle.std.specs.Prelude.{IfSome};
ghost use Rattle.asm_journal.specs.Value.{IsValueForm};
ghost use Rattle.asm_journal.specs.readback.{set_form_clean, bag_form_clean, count_form_clean, value_form_clean};
ghost use Rattle.asm_journal.specs.Shape.{BeginsAs};

use crate::form::{Counted, Listed, bag_of, set_of};
use crate::front::FromFront;
use crate::front::instruction::counted;
use crate::front::scalars::behind;
use asm_element::{ElemBag, ElemSet, Element, Value};
use std::alloc::Global;

impl FromFront for ElemSet {
    ghost nests = { 17 };

    ghost clean = { set_form_clean };

    fn from_front(alloc: Global, text: &[u8]) -> Option<(ElemSet, &[u8])> {
        let (elements, rest) = Listed::<Element>::from_front(alloc, text)?;
        let Ok(Some(set)) = set_of(alloc, elements.into_vec()) else {
            return None;
        };
        Some((set, rest))
    }
}

impl FromFront for Counted {
    ghost nests = { 17 };

    ghost clean = { λ c. count_form_clean (c.0, c.1) };

    fn from_front(alloc: Global, text: &[u8]) -> Option<(Counted, &[u8])> {
        let inside = behind(text, b"[")?;
        let (element, amount, rest) = counted(alloc, inside)?;
        Some((Counted(element, amount), rest))
    }
}

impl FromFront for ElemBag {
    ghost nests = { 18 };

    ghost clean = { bag_form_clean };

    fn from_front(alloc: Global, text: &[u8]) -> Option<(ElemBag, &[u8])> {
        let (counts, rest) = Listed::<Counted>::from_front(alloc, text)?;
        let Ok(Some(bag)) = bag_of(alloc, counts.into_vec()) else {
            return None;
        };
        Some((bag, rest))
    }
}

/// Return the set behind its key.
fn front_set(alloc: Global, text: &[u8]) -> Option<(Value, &[u8])>
    ensures { IfSome result (λ p. BeginsAs IsValueForm text.now p.0 p.1.now) }
{
    let inside = behind(text, b"{\"set\":")?;
    let (set, left) = ElemSet::from_front(alloc, inside)?;
    let rest = behind(left, b"}")?;
    Some((Value::Set(set), rest))
}

/// Return the bag behind its key.
fn front_bag(alloc: Global, text: &[u8]) -> Option<(Value, &[u8])>
    ensures { IfSome result (λ p. BeginsAs IsValueForm text.now p.0 p.1.now) }
{
    let inside = behind(text, b"{\"bag\":")?;
    let (bag, left) = ElemBag::from_front(alloc, inside)?;
    let rest = behind(left, b"}")?;
    Some((Value::Bag(bag), rest))
}

/// Return the element as a value.
fn front_plain(alloc: Global, text: &[u8]) -> Option<(Value, &[u8])>
    ensures { IfSome result (λ p. BeginsAs IsValueForm text.now p.0 p.1.now) }
{
    let (element, rest) = Element::from_front(alloc, text)?;
    Some((Value::Plain(element), rest))
}

impl FromFront for Value {
    ghost nests = { 19 };

    ghost clean = { value_form_clean };

    fn from_front(alloc: Global, text: &[u8]) -> Option<(Value, &[u8])> {
        match text {
            [b'{', _, b's', ..] => front_set(alloc, text),
            [b'{', _, b'b', ..] => front_bag(alloc, text),
            _ => front_plain(alloc, text),
        }
    }
}
