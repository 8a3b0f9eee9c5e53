//! Arrays and objects: their items and members.
ghost use Rattle.std.specs.Prelude.{◌≡◌, ◌++◌, ◌∷◌, [], OnOk, map, string_bytes};
ghost use Rattle.json.specs.Print.{quoted};
ghost use Rattle.serde_json.specs.View.{items_of};
ghost use Rattle.serde_json.specs.Written.{comma_if, compact_text, items_text};
ghost use Rattle.asm_journal.specs.Shape.{list_of, one_of, pair_of, two_of};

use crate::spelling::ToText;
use crate::spelling::scalars::{push_comma, push_quoted, push_sign};
use std::alloc::{AllocError, Global};

/// Append an item of an array, behind a comma if others come before.
pub(crate) fn push_next<T: ToText>(
    alloc: Global,
    text: &mut String,
    later: bool,
    item: &T,
) -> Result<(), AllocError>
    ensures { OnOk result (string_bytes text.new ≡ string_bytes text.old
        ++ (comma_if later ++ compact_text (T.json_of item.now))) }
{
    push_comma(text, later)?;
    item.push_text(alloc, text)?;
    Ok(())
}

/// Append the items of an array and its closing bracket; `after`: items come before.
pub(crate) fn push_items<T: ToText>(
    alloc: Global,
    text: &mut String,
    after: bool,
    items: &[T],
) -> Result<(), AllocError>
    ensures { OnOk result (string_bytes text.new ≡ string_bytes text.old
        ++ items_text after (items_of (map T.json_of items.now))) }
{
    let mut later = after;
    for item in items {
        push_next(alloc, text, later, item)?;
        later = true;
    }
    push_sign(text, ']')?;
    Ok(())
}

/// Append an array of these items.
pub(crate) fn push_list<T: ToText>(
    alloc: Global,
    text: &mut String,
    items: &[T],
) -> Result<(), AllocError>
    ensures { OnOk result (string_bytes text.new ≡ string_bytes text.old
        ++ compact_text (list_of (map T.json_of items.now))) }
{
    push_sign(text, '[')?;
    push_items(alloc, text, false, items)?;
    Ok(())
}

/// Append an array of these two.
pub(crate) fn push_pair<A: ToText, B: ToText>(
    alloc: Global,
    text: &mut String,
    first: &A,
    second: &B,
) -> Result<(), AllocError>
    ensures { OnOk result (string_bytes text.new ≡ string_bytes text.old
        ++ compact_text (pair_of (A.json_of first.now) (B.json_of second.now))) }
{
    push_sign(text, '[')?;
    first.push_text(alloc, text)?;
    push_next(alloc, text, true, second)?;
    push_sign(text, ']')?;
    Ok(())
}

/// Append a key and its colon, behind a comma if members come before.
pub(crate) fn push_key(
    alloc: Global,
    text: &mut String,
    later: bool,
    key: &str,
) -> Result<(), AllocError>
    ensures { OnOk result (string_bytes text.new ≡ string_bytes text.old
        ++ (comma_if later ++ (quoted key.now ++ 58 ∷ []))) }
{
    push_comma(text, later)?;
    push_quoted(alloc, text, key)?;
    push_sign(text, ':')?;
    Ok(())
}

/// Append what is before the items of an object's only member, an array.
pub(crate) fn push_open(alloc: Global, text: &mut String, key: &str) -> Result<(), AllocError>
    ensures { OnOk result (string_bytes text.new ≡ string_bytes text.old ++ 123 ∷ (quoted key.now ++ 58 ∷ 91 ∷ [])) }
{
    push_sign(text, '{')?;
    push_key(alloc, text, false, key)?;
    push_sign(text, '[')?;
    Ok(())
}

/// Append what is behind these items.
pub(crate) fn push_close(text: &mut String) -> Result<(), AllocError>
    ensures { OnOk result (string_bytes text.new ≡ string_bytes text.old ++ 93 ∷ 125 ∷ []) }
{
    push_sign(text, ']')?;
    push_sign(text, '}')?;
    Ok(())
}

/// Append a member of an object, behind a comma if others come before.
pub(crate) fn push_member<T: ToText>(
    alloc: Global,
    text: &mut String,
    later: bool,
    key: &str,
    value: &T,
) -> Result<(), AllocError>
    ensures { OnOk result (string_bytes text.new ≡ string_bytes text.old
        ++ (comma_if later ++ (quoted key.now ++ 58 ∷ compact_text (T.json_of value.now)))) }
{
    push_key(alloc, text, later, key)?;
    value.push_text(alloc, text)?;
    Ok(())
}

/// Append a member of an object with an array of these items, behind a comma if others come before.
pub(crate) fn push_list_member<T: ToText>(
    alloc: Global,
    text: &mut String,
    later: bool,
    key: &str,
    items: &[T],
) -> Result<(), AllocError>
    ensures { OnOk result (string_bytes text.new ≡ string_bytes text.old ++ (comma_if later
        ++ (quoted key.now ++ 58 ∷ compact_text (list_of (map T.json_of items.now))))) }
{
    push_key(alloc, text, later, key)?;
    push_list(alloc, text, items)?;
    Ok(())
}

/// Append an object of one member.
pub(crate) fn push_one<T: ToText>(
    alloc: Global,
    text: &mut String,
    key: &str,
    value: &T,
) -> Result<(), AllocError>
    ensures { OnOk result (string_bytes text.new ≡ string_bytes text.old
        ++ compact_text (one_of key.now (T.json_of value.now))) }
{
    push_sign(text, '{')?;
    push_member(alloc, text, false, key, value)?;
    push_sign(text, '}')?;
    Ok(())
}

/// Append an object of one member, an array of these items.
pub(crate) fn push_one_list<T: ToText>(
    alloc: Global,
    text: &mut String,
    key: &str,
    items: &[T],
) -> Result<(), AllocError>
    ensures { OnOk result (string_bytes text.new ≡ string_bytes text.old
        ++ compact_text (one_of key.now (list_of (map T.json_of items.now)))) }
{
    push_sign(text, '{')?;
    push_list_member(alloc, text, false, key, items)?;
    push_sign(text, '}')?;
    Ok(())
}

/// Append an object of two members, of which the second is an array of these items.
pub(crate) fn push_with_list<A: ToText, B: ToText>(
    alloc: Global,
    text: &mut String,
    key: &str,
    first: &A,
    next: &str,
    items: &[B],
) -> Result<(), AllocError>
    ensures { OnOk result (string_bytes text.new ≡ string_bytes text.old ++ compact_text (two_of
        key.now (A.json_of first.now) next.now (list_of (map B.json_of items.now)))) }
{
    push_sign(text, '{')?;
    push_member(alloc, text, false, key, first)?;
    push_list_member(alloc, text, true, next, items)?;
    push_sign(text, '}')?;
    Ok(())
}
