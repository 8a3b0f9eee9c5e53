//! What a trace lists of a bag's change.
ghost use Rattle.std.specs.Prelude.{◌≡◌, ◌&&◌, ◌||◌, IfOk, OnOk, map};
ghost use Rattle.std.specs.Ordering.{eq_by_cmp};
ghost use Rattle.std.specs.List.{list_any};
ghost use Rattle.serde_json.specs.View.{view};
ghost use Rattle.asm_element.specs.Bag as bag;
ghost use Rattle.asm_element.specs.Set.{contains};
ghost use Rattle.asm_element.specs.Element.{element_cmp};
ghost use Rattle.asm_element.specs.declared.element.Element.{Element as Datum};
ghost use Rattle.asm_journal.specs.Shape.{list_of};
ghost use Rattle.asm_trace.specs.Change.{differ_at, differing, recount, recounts, OfBag};
ghost use Rattle.asm_trace.specs.Text.{recount_json_of, change_json_of};

use crate::json::{array_of, array_of_three, array_of_two, counts_object};
use asm_element::{ElemBag, ElemSet, Element, Location};
use asm_journal::ToJson;
use serde_json::Value as Json;
use std::alloc::{AllocError, Global};

/// Add the element to the set, where the bags hold it a different number of times.
fn note(
    alloc: Global,
    set: &mut ElemSet,
    old: &ElemBag,
    new: &ElemBag,
    element: &Element,
) -> Result<(), AllocError>
    ensures { OnOk result ((e : Datum) → contains set.new e
        ≡ (contains set.old e || (eq_by_cmp element_cmp e element.now && differ_at old.now new.now e))) }
{
    if old.count(element) != new.count(element) {
        set.insert(element.copy(alloc)?)?;
    }
    Ok(())
}

/// Record the elements of a bag that the two bags have a different number of times.
fn note_all(
    alloc: Global,
    set: &mut ElemSet,
    old: &ElemBag,
    new: &ElemBag,
    all: &ElemBag,
) -> Result<(), AllocError>
    ensures { OnOk result ((e : Datum) → contains set.new e
        ≡ (contains set.old e
        || (list_any (eq_by_cmp element_cmp e) (bag.elements all.now) && differ_at old.now new.now e))) }
{
    for (element, _count) in all.iter() {
        note(alloc, set, old, new, element)?;
    }
    Ok(())
}

/// Return the elements that the bags hold a different number of times.
fn differing_elements(alloc: Global, old: &ElemBag, new: &ElemBag) -> Result<ElemSet, AllocError>
    ensures { IfOk result (λ set. set ≡ differing old.now new.now) }
{
    let mut set = ElemSet::new(alloc);
    note_all(alloc, &mut set, old, new, old)?;
    note_all(alloc, &mut set, old, new, new)?;
    Ok(set)
}

/// Return the JSON of an element with its counts in both bags.
fn recount_json(
    alloc: Global,
    old: &ElemBag,
    new: &ElemBag,
    element: &Element,
) -> Result<Json, AllocError>
    ensures { IfOk result (λ json. view json ≡ recount_json_of (recount old.now new.now element.now)) }
{
    array_of_three(
        alloc,
        element.to_json(alloc)?,
        Json::from(old.count(element)),
        Json::from(new.count(element)),
    )
}

/// Write as JSON the elements whose counts in the bags differ, with both counts.
fn recounts_json(alloc: Global, old: &ElemBag, new: &ElemBag) -> Result<Json, AllocError>
    ensures { IfOk result (λ json. view json ≡ list_of (map recount_json_of (recounts old.now new.now))) }
{
    let set = differing_elements(alloc, old, new)?;
    let mut list = Vec::new(alloc);
    for element in set.iter() {
        list.push(recount_json(alloc, old, new, element)?)?;
    }
    Ok(array_of(list))
}

/// Return the JSON of a location at which one bag takes the place of another.
pub(crate) fn bag_change_json(
    alloc: Global,
    at: &Location,
    old: &ElemBag,
    new: &ElemBag,
) -> Result<Json, AllocError>
    ensures { IfOk result (λ json. view json ≡ change_json_of at.now (OfBag (recounts old.now new.now))) }
{
    let counts = recounts_json(alloc, old, new)?;
    array_of_two(alloc, at.to_json(alloc)?, counts_object(alloc, counts)?)
}
