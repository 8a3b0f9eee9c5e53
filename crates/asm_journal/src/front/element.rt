//! Elements and locations.
ghost use Rattle.std.specs.Prelude.{◌≡◌, ◌∷◌, ◌++◌, [], true, false, IfSome, codes, string_bytes};
ghost use Rattle.serde_json.specs.Data.{Items, array};
ghost use Rattle.serde_json.specs.Written.{items_text};
ghost use Rattle.asm_journal.specs.Shape.{AreForms, one_of, BeginsAs, BeginsItems};
ghost use Rattle.asm_journal.specs.Element.{IsIntegerForm, IsElementForm, IsLocationForm};
ghost use Rattle.asm_journal.specs.readback.{integer_form_clean, element_form_clean, location_form_clean};

use crate::front::FromFront;
use crate::front::items::push_item;
use crate::front::scalars::{behind, integer, quoted_text};
use asm_element::{ElemList, ElemText, Element, Location};
use std::alloc::Global;

// How deep lists nest in an element.
const LEVELS: u32 = 8;

impl FromFront for i64 {
    ghost nests = { 0 };

    ghost clean = { integer_form_clean };

    fn from_front(_alloc: Global, text: &[u8]) -> Option<(i64, &[u8])> {
        integer(text)
    }
}

/// Return the text in quotes as an element.
fn front_text(alloc: Global, text: &[u8]) -> Option<(Element, &[u8])>
    ensures { IfSome result (λ p. BeginsAs IsElementForm text.now p.0 p.1.now) }
{
    let (found, rest) = quoted_text(text)?;
    match String::from_str(alloc, found) {
        Ok(found) => Some((Element::Text(ElemText::new(found)), rest)),
        Err(_) => None,
    }
}

/// Return the element that is no list.
fn front_plain(alloc: Global, text: &[u8]) -> Option<(Element, &[u8])>
    ensures { IfSome result (λ p. BeginsAs IsElementForm text.now p.0 p.1.now) }
{
    match *text.first()? {
        b'"' => front_text(alloc, text),
        b'n' => {
            let rest = behind(text, b"null")?;
            Some((Element::Undef, rest))
        }
        b't' => {
            let rest = behind(text, b"true")?;
            Some((Element::Bool(true), rest))
        }
        b'f' => {
            let rest = behind(text, b"false")?;
            Some((Element::Bool(false), rest))
        }
        _ => {
            let (number, rest) = integer(text)?;
            Some((Element::Num(number), rest))
        }
    }
}

/// Return the element, in which lists nest at most to these levels.
#[cycle(front_element)]
fn front_element(alloc: Global, text: &[u8], levels: u32) -> Option<(Element, &[u8])>
    ensures { IfSome result (λ p. BeginsAs IsElementForm text.now p.0 p.1.now) }
{
    if let Some(inside) = behind(text, b"{\"list\":[") {
        if levels == 0 {
            return None;
        }
        return front_list(alloc, inside, levels - 1);
    }
    front_plain(alloc, text)
}

/// Return the list behind its opening bracket.
#[cycle(front_element)]
fn front_list(alloc: Global, inside: &[u8], levels: u32) -> Option<(Element, &[u8])>
    ensures { IfSome result (λ p. (ds : Items) × (inside.now ≡ items_text false ds ++ 125 ∷ p.1.now)
        × IsElementForm p.0 (one_of (codes "list") (array ds))) }
{
    let (found, left) = first_elements(alloc, inside, levels)?;
    let rest = behind(left, b"}")?;
    match ElemList::new(found) {
        Ok(list) => Some((Element::List(list), rest)),
        Err(_) => None,
    }
}

/// Return the elements after the opening bracket, and the rest after the closing.
#[cycle(front_element)]
fn first_elements(alloc: Global, inside: &[u8], levels: u32) -> Option<(Vec<Element>, &[u8])>
    ensures { IfSome result (λ p. BeginsItems false (AreForms IsElementForm) inside.now p.0.items p.1.now) }
{
    if let Some(left) = behind(inside, b"]") {
        return Some((Vec::new(alloc), left));
    }
    some_elements(alloc, inside, levels)
}

/// Return the elements after a comma, at least one, and the rest after the bracket.
#[cycle(front_element)]
fn some_elements(alloc: Global, text: &[u8], levels: u32) -> Option<(Vec<Element>, &[u8])>
    ensures { IfSome result (λ p. BeginsItems true (AreForms IsElementForm) (44 ∷ text.now) p.0.items p.1.now) }
{
    let mut found = Vec::new(alloc);
    let mut rest = text;
    'items: loop {
        let (item, left) = front_element(alloc, rest, levels)?;
        push_item(&mut found, item)?;
        let (byte, more) = left.split_first()?;
        match *byte {
            b',' => rest = more,
            b']' => return Some((found, more)),
            _ => return None,
        }
    }
}

impl FromFront for Element {
    ghost nests = { 16 };

    ghost clean = { element_form_clean };

    fn from_front(alloc: Global, text: &[u8]) -> Option<(Element, &[u8])> {
        front_element(alloc, text, LEVELS)
    }
}

/// Return a text of its own, unless memory was refused.
pub(crate) fn owned_text(alloc: Global, text: &str) -> Option<String>
    ensures { IfSome result (λ s. string_bytes s ≡ text.now) }
{
    match String::from_str(alloc, text) {
        Ok(owned) => Some(owned),
        Err(_) => None,
    }
}

/// Return the arguments behind a name, up to the closing bracket.
fn front_args(alloc: Global, text: &[u8]) -> Option<(Vec<Element>, &[u8])>
    ensures { IfSome result (λ p. BeginsItems true (AreForms IsElementForm) text.now p.0.items p.1.now) }
{
    let (byte, left) = text.split_first()?;
    match *byte {
        b',' => some_elements(alloc, left, LEVELS),
        b']' => Some((Vec::new(alloc), left)),
        _ => None,
    }
}

impl FromFront for Location {
    ghost nests = { 17 };

    ghost clean = { location_form_clean };

    fn from_front(alloc: Global, text: &[u8]) -> Option<(Location, &[u8])> {
        let inside = behind(text, b"[")?;
        let (name, left) = quoted_text(inside)?;
        let (args, rest) = front_args(alloc, left)?;
        let owned = owned_text(alloc, name)?;
        match Location::new(owned, args) {
            Ok(location) => Some((location, rest)),
            Err(_) => None,
        }
    }
}
