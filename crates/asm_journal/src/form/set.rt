//! The JSON of sets and bags: written in ascending order, and read in any.
ghost use Rattle.std.specs.Prelude.{◌≡◌, IfOk, map};
ghost use Rattle.serde_json.specs.View.{view, items_view};
ghost use Rattle.asm_journal.specs.Form.{IsRead};
ghost use Rattle.asm_journal.specs.Shape.{IsParsed};
ghost use Rattle.asm_journal.specs.Set.{count_json_of, set_json_of, bag_json_of, IsSetOf, IsSetForm};
ghost use Rattle.asm_journal.specs.Set.{IsAmountForm, IsCounted, IsCountForm, IsBagOf, IsBagForm};

use crate::form::array::{Listed, array_of, pair_of, two_items};
use crate::form::fault::{FormCause, FormError, OfPart};
use crate::form::object::object_of;
use crate::form::{FromJson, ToJson, read_number};
use asm_element::{ElemBag, ElemSet, Element};
use asm_update::Amount;
use serde_json::Value as Json;
use std::alloc::{AllocError, Global};

impl ToJson for ElemSet {
    ghost json_of = { set_json_of };

    fn to_json(&self, alloc: Global) -> Result<Json, AllocError> {
        let mut list = Vec::new(alloc);
        for element in self.iter() {
            list.push(element.to_json(alloc)?)?;
        }
        object_of(alloc, "set", array_of(list))
    }
}

/// Make a set of the elements, unless one is there twice.
pub(crate) fn set_of(
    alloc: Global,
    mut elements: Vec<Element>,
) -> Result<Option<ElemSet>, AllocError>
    ensures { IfOk result (IsParsed IsSetOf elements.items) }
{
    let mut set = ElemSet::new(alloc);
    while let Some(element) = elements.pop() {
        if !set.insert(element)? {
            return Ok(None);
        }
    }
    Ok(Some(set))
}

impl FromJson for ElemSet {
    ghost is_form = { IsSetForm };

    fn from_json(alloc: Global, json: &Json) -> Result<ElemSet, FormError> {
        let elements = Listed::<Element>::from_json(alloc, json)?;
        match set_of(alloc, elements.into_vec())? {
            Some(set) => Ok(set),
            None => Err(FormError::of(alloc, FormCause::SetTwice)),
        }
    }
}

/// Return the JSON of an element with its count.
fn count_json(alloc: Global, element: &Element, count: u32) -> Result<Json, AllocError>
    ensures { IfOk result (λ json. view json ≡ count_json_of (element.now, count)) }
{
    pair_of(alloc, element.to_json(alloc)?, Json::from(count))
}

impl ToJson for ElemBag {
    ghost json_of = { bag_json_of };

    fn to_json(&self, alloc: Global) -> Result<Json, AllocError> {
        let mut list = Vec::new(alloc);
        for (element, count) in self.iter() {
            list.push(count_json(alloc, element, *count)?)?;
        }
        object_of(alloc, "bag", array_of(list))
    }
}

/// Read an amount, or a count of a bag: a whole number from 1 to 4,294,967,295.
pub fn read_amount(json: &Json) -> Option<Amount>
    ensures { IsParsed IsAmountForm (view json.now) result }
{
    Amount::new(read_number(json)?)
}

/// An element with its count, or an amount of it.
#[derive(Drop)]
pub(crate) struct Counted(pub(crate) Element, pub(crate) Amount);

/// Read an element and its count, or its amount, from a list of two items. The first has this index in its array.
/// Fewer or more items are refused for this cause.
pub(crate) fn read_counted(
    alloc: Global,
    items: &[Json],
    first: usize,
    cause: FormCause,
) -> Result<Counted, FormError>
    ensures { IsRead (λ c. IsCounted (c.0, c.1)) (items_view items.now) result }
{
    let Some((element, amount)) = two_items(items) else {
        return Err(FormError::of(alloc, cause));
    };
    let element = Element::from_json(alloc, element).within(first)?;
    match read_amount(amount) {
        Some(amount) => Ok(Counted(element, amount)),
        None => Err(FormError::of(alloc, FormCause::Amount)),
    }
}

impl FromJson for Counted {
    ghost is_form = { λ c. IsCountForm (c.0, c.1) };

    fn from_json(alloc: Global, json: &Json) -> Result<Counted, FormError> {
        match json.as_array() {
            Some(items) => read_counted(alloc, items, 0, FormCause::Counted),
            None => Err(FormError::of(alloc, FormCause::Bag)),
        }
    }
}

/// Make a bag of the counts, unless an element is there twice.
pub(crate) fn bag_of(alloc: Global, mut counts: Vec<Counted>) -> Result<Option<ElemBag>, AllocError>
    ensures { IfOk result (IsParsed IsBagOf (map (λ c. (c.0, c.1)) counts.items)) }
{
    let mut bag = ElemBag::new(alloc);
    while let Some(Counted(element, amount)) = counts.pop() {
        if bag.count(&element) > 0 {
            return Ok(None);
        }
        bag.put(element, amount.get())?;
    }
    Ok(Some(bag))
}

impl FromJson for ElemBag {
    ghost is_form = { IsBagForm };

    fn from_json(alloc: Global, json: &Json) -> Result<ElemBag, FormError> {
        let counts = Listed::<Counted>::from_json(alloc, json)?;
        match bag_of(alloc, counts.into_vec())? {
            Some(bag) => Ok(bag),
            None => Err(FormError::of(alloc, FormCause::BagTwice)),
        }
    }
}
