//! What a trace lists of a set's change.
ghost use Rattle.std.specs.Prelude.{◌≡◌, ◌++◌, [], ◌∷◌, IfOk, OnOk, map, filter};
ghost use Rattle.serde_json.specs.View.{view};
ghost use Rattle.asm_element.specs.Set.{contains};
ghost use Rattle.asm_journal.specs.Element.{element_json_of};
ghost use Rattle.asm_trace.specs.Change.{without, is_missing, OfSet};
ghost use Rattle.asm_trace.specs.Text.{elements_json_of, change_json_of};

use crate::json::{added_and_removed, array_of, array_of_two};
use asm_element::{ElemSet, Element, Location};
use asm_journal::ToJson;
use serde_json::Value as Json;
use std::alloc::{AllocError, Global};

/// Append the JSON of the element, unless the set has it.
fn push_missing(
    alloc: Global,
    list: &mut Vec<Json>,
    set: &ElemSet,
    element: &Element,
) -> Result<(), AllocError>
    ensures { OnOk result (map view list.new.items
        ≡ map view list.old.items ++ map element_json_of (filter (is_missing set.now) (element.now ∷ []))) }
{
    if !set.contains(element) {
        list.push(element.to_json(alloc)?)?;
    }
    Ok(())
}

/// Return the JSON of the elements of the first set that the second hasn't.
fn without_json(alloc: Global, first: &ElemSet, second: &ElemSet) -> Result<Json, AllocError>
    ensures { IfOk result (λ json. view json ≡ elements_json_of (without first.now second.now)) }
{
    let mut list = Vec::new(alloc);
    for element in first.iter() {
        push_missing(alloc, &mut list, second, element)?;
    }
    Ok(array_of(list))
}

/// Return the JSON of a location at which one set takes the place of another.
pub(crate) fn set_change_json(
    alloc: Global,
    at: &Location,
    old: &ElemSet,
    new: &ElemSet,
) -> Result<Json, AllocError>
    ensures { IfOk result (λ json. view json
        ≡ change_json_of at.now (OfSet (without new.now old.now) (without old.now new.now))) }
{
    let added = without_json(alloc, new, old)?;
    let removed = without_json(alloc, old, new)?;
    array_of_two(
        alloc,
        at.to_json(alloc)?,
        added_and_removed(alloc, added, removed)?,
    )
}
