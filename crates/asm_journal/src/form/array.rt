//! JSON arrays: items that are read in their order, and items that are written.
ghost use Rattle.std.specs.Prelude.{◌≡◌, ◌≢◌, ◌++◌, [], ◌∷◌, IfOk, IfSome, IfNone, OnOk, map};
ghost use Rattle.serde_json.specs.Data.{Data};
ghost use Rattle.serde_json.specs.View.{view, items_of, items_view};
ghost use Rattle.asm_journal.specs.Form.{IsRead};
ghost use Rattle.asm_journal.specs.Shape.{AreForms, IsListForm, IsOnly, list_of};

use crate::form::fault::{FormCause, FormError, OfPart};
use crate::form::{FromJson, ToJson};
use serde_json::Value as Json;
use std::alloc::{AllocError, Global};
use std::marker::Model;

/// The items that a JSON array was read as, which its reader may take out.
///
/// `Items` is a list that is retained and shared. Contracts see it as the list of them.
#[derive(Drop)]
pub struct Listed<T> {
    items: Vec<T>,
}

impl<T> Model for Listed<T> {
    ghost use Rattle.std.specs.Prelude.{List};

    ghost Value = { List T };

    ghost view = { λ l. l.items.items };
}

impl<T> Listed<T> {
    /// Return the list of these items.
    pub fn new(items: Vec<T>) -> Self
        ensures { result ≡ items.items }
    {
        Listed { items }
    }

    /// Return the items, moved out.
    pub fn into_vec(self) -> Vec<T>
        ensures { result.items ≡ self }
    {
        self.items
    }
}

/// Read each of the items, in their order. The first of them has this index in its array.
pub(crate) fn read_items<T: FromJson>(
    alloc: Global,
    items: &[Json],
    first: usize,
) -> Result<Listed<T>, FormError>
    ensures { IsRead (AreForms T.is_form) (items_view items.now) result }
{
    let mut found = Vec::with_capacity(alloc, items.len())?;
    for (index, item) in items.iter().enumerate() {
        found.push(T::from_json(alloc, item).within(first.saturating_add(index))?)?;
    }
    Ok(Listed::new(found))
}

impl<T: FromJson> FromJson for Listed<T> {
    ghost is_form = { IsListForm T.is_form };

    fn from_json(alloc: Global, json: &Json) -> Result<Listed<T>, FormError> {
        match json.as_array() {
            Some(items) => read_items(alloc, items, 0),
            None => Err(FormError::of(alloc, FormCause::NoArray)),
        }
    }
}

/// Read the operand of an action that has one, behind the word and the location.
///
/// # Errors
///
/// - `Form` if there are fewer or more operands, with this cause, or if the operand has another form.
/// - `Memory` only if memory is refused.
pub fn read_one<T: FromJson>(
    alloc: Global,
    items: &[Json],
    cause: FormCause,
) -> Result<T, FormError>
    ensures { IsRead (IsOnly T.is_form) (items_view items.now) result }
{
    let mut items = items.iter();
    match (items.next(), items.next()) {
        (Some(item), None) => T::from_json(alloc, item).within(2),
        _ => Err(FormError::of(alloc, cause)),
    }
}

/// Return the items of a list of two, or `None` where there are fewer or more.
pub fn two_items(items: &[Json]) -> Option<(&Json, &Json)>
    ensures some { IfSome result
        (λ p. items_view items.now ≡ items_of (view p.0.now ∷ view p.1.now ∷ [])) }
    ensures none { IfNone result ((a b : Data) → items_view items.now ≢ items_of (a ∷ b ∷ [])) }
{
    let (first, rest) = items.split_first()?;
    let (second, rest) = rest.split_first()?;
    if rest.is_empty() {
        Some((first, second))
    } else {
        None
    }
}

/// Return the items of an array of two.
pub(crate) fn pair_items(json: &Json) -> Option<(&Json, &Json)>
    ensures some { IfSome result (λ p. view json.now ≡ list_of (view p.0.now ∷ view p.1.now ∷ [])) }
    ensures none { IfNone result ((a b : Data) → view json.now ≢ list_of (a ∷ b ∷ [])) }
{
    two_items(json.as_array()?)
}

/// Append the JSON of each item to a list.
pub(crate) fn push_items<T: ToJson>(
    alloc: Global,
    list: &mut Vec<Json>,
    items: &[T],
) -> Result<(), AllocError>
    ensures { OnOk result (map view list.new.items
        ≡ map view list.old.items ++ map T.json_of items.now) }
{
    for item in items {
        list.push(item.to_json(alloc)?)?;
    }
    Ok(())
}

/// Return an array of these values.
pub(crate) fn array_of(list: Vec<Json>) -> Json
    ensures { view result ≡ list_of (map view list.items) }
{
    Json::Array(list)
}

/// Return an array of the JSON of these items.
pub(crate) fn list_json<T: ToJson>(alloc: Global, items: &[T]) -> Result<Json, AllocError>
    ensures { IfOk result (λ json. view json ≡ list_of (map T.json_of items.now)) }
{
    let mut list = Vec::new(alloc);
    push_items(alloc, &mut list, items)?;
    Ok(array_of(list))
}

/// Return an array of two values.
pub(crate) fn pair_of(alloc: Global, first: Json, second: Json) -> Result<Json, AllocError>
    ensures { IfOk result (λ json. view json ≡ list_of (view first ∷ view second ∷ [])) }
{
    Ok(Json::Array(vec![in alloc; first, second]?))
}
