//! The values of one function, listed in ascending order and not copied.
ghost use Rattle.std.specs.Prelude.{◌≡◌, ◌++◌, [], false, All, drop, IfOk, MatchOption, OnOk, unwrap_or};
ghost use Rattle.std.specs.Option.{option_copied};
ghost use Rattle.asm_element.specs.Place.{is_name};
ghost use Rattle.asm_element.specs.Value.{undef};
ghost use Rattle.asm_state.specs.Listed.{IsListing, by_value};
ghost use Rattle.asm_state.specs.Merging.{IsListed, front, from_on, listing, seen, seen_all, seen_below, starts_at};
ghost use Rattle.asm_state.specs.Plain.{value_of_name};

use crate::entries::WrittenValue;
use crate::entries::scanning::has_name;
use crate::state::State;
use asm_element::{Location, Value};
use std::alloc::{AllocError, Global};
use std::collections::btree_map::Range;

// Return what the walk comes by, up to the first location with another name.
fn named<'a, X>(
    alloc: Global,
    name: &str,
    walk: Range<'a, Location, X>,
) -> Result<Vec<(&'a Location, &'a X)>, AllocError>
    ensures { IfOk result (λ list. by_value list.items ≡ front name.now walk.entry) }
{
    let mut list = Vec::new(alloc);
    for (at, held) in walk {
        if !has_name(name, at) {
            return Ok(list);
        }
        list.push((at, held))?;
    }
    Ok(list)
}

// Append the location with its value, unless that is undef.
fn push_seen<'a>(
    list: &mut Vec<(&'a Location, &'a Value)>,
    at: &'a Location,
    value: Option<&'a Value>,
) -> Result<(), AllocError>
    ensures list { OnOk result (by_value list.new.items
        ≡ by_value list.old.items ++ seen at.now (unwrap_or (option_copied value.entry) undef)) }
    ensures listed { OnOk result (All IsListed (by_value list.old.items) → All IsListed (by_value list.new.items)) }
{
    let Some(value) = value else {
        return Ok(());
    };
    if value.is_undef() {
        return Ok(());
    }
    at.proper();
    value.proper();
    list.push((at, value))?;
    Ok(())
}

// Append what the entries from this place on have that are below the location, and return the place behind them.
fn push_below<'a>(
    list: &mut Vec<(&'a Location, &'a Value)>,
    written: &[(&'a Location, &'a WrittenValue)],
    from: usize,
    at: &Location,
) -> Result<usize, AllocError>
    ensures list { OnOk result (by_value list.new.items
        ≡ by_value list.old.items ++ seen_below at.now (by_value (drop from written.now))) }
    ensures listed { OnOk result (All IsListed (by_value list.old.items) → All IsListed (by_value list.new.items)) }
    ensures left { IfOk result (λ next. by_value (drop next written.now) ≡ from_on at.now (by_value (drop from written.now))) }
{
    let mut next = from;
    while next < written.len() {
        let (place, one) = written[next];
        if place >= at {
            return Ok(next);
        }
        push_seen(list, place, one.value.as_ref())?;
        next += 1;
    }
    Ok(next)
}

// Append what the entries from this place on have.
fn push_rest<'a>(
    list: &mut Vec<(&'a Location, &'a Value)>,
    written: &[(&'a Location, &'a WrittenValue)],
    from: usize,
) -> Result<(), AllocError>
    ensures list { OnOk result (by_value list.new.items
        ≡ by_value list.old.items ++ seen_all (by_value (drop from written.now))) }
    ensures listed { OnOk result (All IsListed (by_value list.old.items) → All IsListed (by_value list.new.items)) }
{
    let mut next = from;
    while next < written.len() {
        let (at, one) = written[next];
        push_seen(list, at, one.value.as_ref())?;
        next += 1;
    }
    Ok(())
}

// Return whether the entry at this place is at the location.
fn starts_at(written: &[(&Location, &WrittenValue)], next: usize, at: &Location) -> bool
    ensures { result ≡ starts_at at.now (by_value (drop next written.now)) }
{
    match written.get(next) {
        Some((place, _one)) => *place == at,
        None => false,
    }
}

// Return what the opening values show with the entries over them, in ascending order.
fn merged<'a>(
    alloc: Global,
    opening: &[(&'a Location, &'a Value)],
    written: &[(&'a Location, &'a WrittenValue)],
) -> Result<Vec<(&'a Location, &'a Value)>, AllocError>
    ensures list { IfOk result (λ list. by_value list.items ≡ listing (by_value opening.now) (by_value written.now)) }
    ensures listed { IfOk result (λ list. All IsListed (by_value list.items)) }
{
    let mut list = Vec::new(alloc);
    let mut next = 0;
    for (at, value) in opening {
        next = push_below(&mut list, written, next, at)?;
        if !starts_at(written, next, at) {
            push_seen(&mut list, at, Some(value))?;
        }
    }
    push_rest(&mut list, written, next)?;
    Ok(list)
}

impl State {
    // Return the locations with the name of the first one, which has no arguments, each with its value.
    fn list_from(
        &self,
        alloc: Global,
        first: &Location,
    ) -> Result<Vec<(&Location, &Value)>, AllocError>
        requires { first.now.args ≡ [] }
        ensures { IfOk result (λ list. IsListing (value_of_name self.now first.now.name) (by_value list.items)) }
    {
        let opening = named(alloc, first.name(), self.base.onward(first))?;
        let written = named(alloc, first.name(), self.entries.onward(first))?;
        let list = merged(alloc, &opening, &written)?;
        Ok(list)
    }

    /// Return the locations with this function name that aren't undef, each with its value, in ascending order.
    ///
    /// They are those of `of_name`, and no value is copied. The call walks the locations of that name alone, including
    /// those that moves wrote undef. `None` is the answer only to a text that is no name of a function.
    ///
    /// # Errors
    ///
    /// - `AllocError` only if memory is refused.
    pub fn list_of_name(
        &self,
        alloc: Global,
        name: &str,
    ) -> Result<Option<Vec<(&Location, &Value)>>, AllocError>
        ensures { IfOk result (λ found. MatchOption found (is_name name.now ≡ false) (λ list.
            IsListing (value_of_name self.now name.now) (by_value list.items))) }
    {
        let owned = String::from_str(alloc, name)?;
        let Ok(first) = Location::new(owned, Vec::new(alloc)) else {
            return Ok(None);
        };
        let list = self.list_from(alloc, &first)?;
        Ok(Some(list))
    }
}
