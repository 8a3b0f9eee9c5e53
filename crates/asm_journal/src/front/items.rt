//! The items of an array.
ghost use Rattle.std.specs.Prelude.{◌≡◌, ◌∷◌, ◌++◌, [], true, false, IfSome, OnSome, suc};
ghost use Rattle.asm_journal.specs.Shape.{AreForms, IsListForm, IsOnly, BeginsAs, BeginsItems};
ghost use Rattle.asm_journal.specs.readback.{list_form_clean};

use crate::form::Listed;
use crate::front::FromFront;
use crate::front::scalars::behind;
use std::alloc::Global;

/// Put one more item behind the others, unless memory was refused.
pub(crate) fn push_item<T: Drop>(found: &mut Vec<T>, item: T) -> Option<()>
    ensures { OnSome result (found.new.items ≡ found.old.items ++ item ∷ []) }
{
    found.push(item).ok()
}

/// Return the items after a comma, at least one, and the rest after the bracket.
pub(crate) fn some_items<T: FromFront>(alloc: Global, text: &[u8]) -> Option<(Vec<T>, &[u8])>
    ensures { IfSome result (λ p. BeginsItems true (AreForms T.is_form) (44 ∷ text.now) p.0.items p.1.now) }
{
    let mut found = Vec::new(alloc);
    let mut rest = text;
    'items: loop {
        let (item, left) = T::from_front(alloc, rest)?;
        push_item(&mut found, item)?;
        let (byte, more) = left.split_first()?;
        match *byte {
            b',' => rest = more,
            b']' => return Some((found, more)),
            _ => return None,
        }
    }
}

/// Return the items after the opening bracket, and the rest after the closing one.
pub(crate) fn first_items<T: FromFront>(alloc: Global, text: &[u8]) -> Option<(Vec<T>, &[u8])>
    ensures { IfSome result (λ p. BeginsItems false (AreForms T.is_form) text.now p.0.items p.1.now) }
{
    if let Some(rest) = behind(text, b"]") {
        return Some((Vec::new(alloc), rest));
    }
    some_items(alloc, text)
}

impl<T: FromFront> FromFront for Listed<T> {
    ghost nests = { suc T.nests };

    ghost clean = { list_form_clean T.nests T.is_form T.clean };

    fn from_front(alloc: Global, text: &[u8]) -> Option<(Listed<T>, &[u8])> {
        let inside = behind(text, b"[")?;
        let (items, rest) = first_items(alloc, inside)?;
        Some((Listed::new(items), rest))
    }
}

/// Return the last item of an array, after a comma, and the rest after the bracket.
pub(crate) fn only_item<T: FromFront>(alloc: Global, text: &[u8]) -> Option<(T, &[u8])>
    ensures { IfSome result (λ p. BeginsItems true (IsOnly T.is_form) (44 ∷ text.now) p.0 p.1.now) }
{
    let (item, left) = T::from_front(alloc, text)?;
    let rest = behind(left, b"]")?;
    Some((item, rest))
}
