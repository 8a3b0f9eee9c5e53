//! The JSON of whole numbers, elements and locations.
ghost use Rattle.std.specs.Prelude.{◌≡◌, ◌≢◌, IfOk, IfSome, IfNone, codes};
ghost use Rattle.serde_json.specs.Data.{Items, array};
ghost use Rattle.serde_json.specs.View.{view, items_view};
ghost use Rattle.asm_journal.specs.Form.{IsRead};
ghost use Rattle.asm_journal.specs.Shape.{IsParsed, one_of};
ghost use Rattle.asm_journal.specs.Element.{integer_json_of, element_json_of, location_json_of, IsIntegerForm, IsElementForm, IsLocationForm};

use crate::form::array::{array_of, push_items, read_items};
use crate::form::fault::{FormCause, FormError, OfPart};
use crate::form::object::{object_of, one_member};
use crate::form::{FromJson, ToJson, read_form};
use asm_element::{ElemList, ElemText, Element, ListError, Location, LocationError};
use serde_json::Value as Json;
use std::alloc::{AllocError, Global};

impl ToJson for i64 {
    ghost json_of = { integer_json_of };

    fn to_json(&self, _alloc: Global) -> Result<Json, AllocError> {
        Ok(Json::from(*self))
    }
}

impl FromJson for i64 {
    ghost is_form = { IsIntegerForm };

    fn from_json(alloc: Global, json: &Json) -> Result<i64, FormError> {
        match json.as_i64() {
            Some(number) => Ok(number),
            None => Err(FormError::of(alloc, FormCause::Whole)),
        }
    }
}

/// Write an element as JSON.
///
/// It recurses as deep as lists nest, at most 8 levels.
fn write_element(alloc: Global, element: &Element) -> Result<Json, AllocError>
    ensures { IfOk result (λ json. view json ≡ element_json_of element.now) }
{
    match element {
        Element::Undef => Ok(Json::Null),
        Element::Bool(truth) => Ok(Json::Bool(*truth)),
        Element::Num(number) => number.to_json(alloc),
        Element::Text(text) => Json::try_from_str(alloc, text.as_str()),
        Element::List(list) => {
            let mut items = Vec::new(alloc);
            for item in list.items() {
                items.push(write_element(alloc, item)?)?;
            }
            object_of(alloc, "list", array_of(items))
        }
    }
}

impl ToJson for Element {
    ghost json_of = { element_json_of };

    fn to_json(&self, alloc: Global) -> Result<Json, AllocError> {
        write_element(alloc, self)
    }
}

/// Return the array in an object whose only member is `list`.
fn list_items(json: &Json) -> Option<&Vec<Json>>
    ensures some { IfSome result
        (λ v. view json.now ≡ one_of (codes "list") (array (items_view v.now.items))) }
    ensures none { IfNone result ((ds : Items) → view json.now ≢ one_of (codes "list") (array ds)) }
{
    one_member(json, "list")?.as_array()
}

/// Read an element.
///
/// It recurses as deep as the value nests, at most 127 levels in what was read from a text.
#[cycle(read_element)]
fn read_element(alloc: Global, json: &Json) -> Result<Element, FormError>
    ensures { IsRead IsElementForm (view json.now) result }
{
    if let Some(items) = list_items(json) {
        return read_list(alloc, items).at("list");
    }
    match json {
        Json::Null => Ok(Element::Undef),
        Json::Bool(truth) => Ok(Element::Bool(*truth)),
        Json::Number(_) => Ok(Element::Num(i64::from_json(alloc, json)?)),
        Json::String(text) => Ok(Element::Text(ElemText::new(text.clone()?))),
        Json::Array(_) | Json::Object(_) => Err(FormError::of(alloc, cause_of(json))),
    }
}

/// Return why an array or an object is no element.
fn cause_of(json: &Json) -> FormCause {
    if one_member(json, "set").is_some() {
        return FormCause::HeldSet;
    }
    if one_member(json, "bag").is_some() {
        return FormCause::HeldBag;
    }
    if json.is_object() && one_member(json, "list").is_none() {
        return FormCause::Object;
    }
    FormCause::List
}

/// Return why items are no list.
fn list_cause(error: ListError) -> FormCause {
    match error {
        ListError::ManyItems => FormCause::LongList,
        ListError::TooDeep => FormCause::DeepList,
    }
}

/// Read a list from the JSON of its items.
#[cycle(read_element)]
fn read_list(alloc: Global, items: &[Json]) -> Result<Element, FormError>
    ensures { IsRead IsElementForm (one_of (codes "list") (array (items_view items.now))) result }
{
    let mut found = Vec::with_capacity(alloc, items.len())?;
    for (index, item) in items.iter().enumerate() {
        found.push(read_element(alloc, item).within(index)?)?;
    }
    match ElemList::new(found) {
        Ok(list) => Ok(Element::List(list)),
        Err(error) => Err(FormError::of(alloc, list_cause(error))),
    }
}

impl FromJson for Element {
    ghost is_form = { IsElementForm };

    fn from_json(alloc: Global, json: &Json) -> Result<Element, FormError> {
        read_element(alloc, json)
    }
}

impl ToJson for Location {
    ghost json_of = { location_json_of };

    fn to_json(&self, alloc: Global) -> Result<Json, AllocError> {
        let mut list = Vec::new(alloc);
        list.push(Json::try_from_str(alloc, self.name())?)?;
        push_items(alloc, &mut list, self.args())?;
        Ok(Json::Array(list))
    }
}

/// Return why a name with arguments is no location.
fn location_cause(error: LocationError) -> FormCause {
    match error {
        LocationError::BadName => FormCause::Name,
        LocationError::ManyArgs => FormCause::Location,
    }
}

impl FromJson for Location {
    ghost is_form = { IsLocationForm };

    fn from_json(alloc: Global, json: &Json) -> Result<Location, FormError> {
        let Some(items) = json.as_array() else {
            return Err(FormError::of(alloc, FormCause::Location));
        };
        let Some((first, rest)) = items.split_first() else {
            return Err(FormError::of(alloc, FormCause::Location));
        };
        let Some(name) = first.as_str() else {
            return Err(FormError::of(alloc, FormCause::Location));
        };
        let args = read_items(alloc, rest, 1)?;
        match Location::new(String::from_str(alloc, name)?, args.into_vec()) {
            Ok(location) => Ok(location),
            Err(error) => Err(FormError::of(alloc, location_cause(error))),
        }
    }
}

/// Write a location as JSON: an array of its name and its arguments.
///
/// # Errors
///
/// - `AllocError` only if memory is refused.
pub fn location_json(alloc: Global, location: &Location) -> Result<Json, AllocError>
    ensures { IfOk result (λ json. view json ≡ location_json_of location.now) }
{
    location.to_json(alloc)
}

/// Read a location from JSON.
///
/// `None` where the value isn't an array of a name and at most 8 elements, or where the name breaks the rule of
/// names.
///
/// # Errors
///
/// - `AllocError` only if memory is refused.
pub fn read_location(alloc: Global, json: &Json) -> Result<Option<Location>, AllocError>
    ensures { IfOk result (IsParsed IsLocationForm (view json.now)) }
{
    read_form(alloc, json)
}
