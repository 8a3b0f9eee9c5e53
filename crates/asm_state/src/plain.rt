//! The values of a state without the numbers of their writers.
ghost use Rattle.std.specs.Prelude.{◌≡◌, [], IfOk, OnOk, unwrap_or, if◌then◌else◌};
ghost use Rattle.std.specs.Option.{option_copied};
ghost use Rattle.asm_element.specs.Place.{Place};
ghost use Rattle.asm_element.specs.Value.{undef};
ghost use Rattle.asm_update.specs.State.{val, write};
ghost use Rattle.asm_state.specs.Plain.{is_wanted, wanted_value, value_of_name};
ghost use Rattle.asm_state.specs.Scans.{has_name};
ghost use Rattle.asm_state.specs.View.{value_at};

use crate::entries::scanning::has_name;
use crate::state::State;
use asm_element::{Element, Location, Value};
use asm_update::PlainState;
use std::alloc::{AllocError, Global};

// Whether the location has the function name; without a name every location is wanted.
fn is_wanted(name: Option<&str>, at: &Location) -> bool
    ensures { result ≡ is_wanted name.entry at.now }
{
    match name {
        None => true,
        Some(name) => has_name(name, at),
    }
}

// Gives a location a copy of the value, which is undef for `None`.
fn put_copy(
    alloc: Global,
    plain: &mut PlainState,
    at: &Location,
    value: Option<&Value>,
) -> Result<(), AllocError>
    ensures { OnOk result (plain.new ≡ write plain.old at.now (unwrap_or (option_copied value.entry) undef)) }
{
    let value = match value {
        Some(value) => value.copy(alloc)?,
        None => Value::Plain(Element::Undef),
    };
    plain.set(at.copy(alloc)?, value)
}

// The same where the location is wanted.
fn put_wanted(
    alloc: Global,
    plain: &mut PlainState,
    name: Option<&str>,
    at: &Location,
    value: Option<&Value>,
) -> Result<(), AllocError>
    ensures { OnOk result (plain.new ≡
        if is_wanted name.entry at.now
        then write plain.old at.now (unwrap_or (option_copied value.entry) undef)
        else plain.old) }
{
    if !is_wanted(name, at) {
        return Ok(());
    }
    put_copy(alloc, plain, at, value)
}

// The wanted values of the opening state.
fn opening_values(
    alloc: Global,
    opening: &PlainState,
    name: Option<&str>,
) -> Result<PlainState, AllocError>
    ensures { IfOk result (λ plain. (l : Place) → val plain l ≡
        if is_wanted name.entry l then val opening.now l else undef) }
{
    let mut plain = PlainState::new(alloc);
    for (at, value) in opening.iter() {
        put_wanted(alloc, &mut plain, name, at, Some(value))?;
    }
    Ok(plain)
}

// The opening values at the locations with the name of the first one, which has no arguments: it walks these alone.
fn opening_from(
    alloc: Global,
    opening: &PlainState,
    first: &Location,
) -> Result<PlainState, AllocError>
    requires { first.now.args ≡ [] }
    ensures { IfOk result (λ plain. (l : Place) → val plain l ≡
        if has_name first.now.name l then val opening.now l else undef) }
{
    let mut plain = PlainState::new(alloc);
    for (at, value) in opening.onward(first) {
        if !has_name(first.name(), at) {
            return Ok(plain);
        }
        put_copy(alloc, &mut plain, at, Some(value))?;
    }
    Ok(plain)
}

impl State {
    // The values at the locations with the name of the first one, which has no arguments: it walks these alone.
    fn from_first(&self, alloc: Global, first: &Location) -> Result<PlainState, AllocError>
        requires { first.now.args ≡ [] }
        ensures { IfOk result (λ plain. (l : Place) → val plain l ≡ value_of_name self.now first.now.name l) }
    {
        let mut plain = opening_from(alloc, &self.base, first)?;
        for (at, written) in self.entries.onward(first) {
            if !has_name(first.name(), at) {
                return Ok(plain);
            }
            put_copy(alloc, &mut plain, at, written.value.as_ref())?;
        }
        Ok(plain)
    }

    // The values of the wanted locations.
    fn wanted(&self, alloc: Global, name: Option<&str>) -> Result<PlainState, AllocError>
        ensures { IfOk result (λ plain. (l : Place) → val plain l ≡ wanted_value self.now name.entry l) }
    {
        let mut plain = opening_values(alloc, &self.base, name)?;
        for (at, written) in self.entries.iter() {
            put_wanted(alloc, &mut plain, name, at, written.value.as_ref())?;
        }
        Ok(plain)
    }

    /// Return the values at all locations, as a plain state of their own.
    ///
    /// It costs a copy of each value.
    ///
    /// # Errors
    ///
    /// - `AllocError` only if memory is refused.
    pub fn to_plain(&self, alloc: Global) -> Result<PlainState, AllocError>
        ensures { IfOk result (λ plain. (l : Place) → val plain l ≡ value_at self.now l) }
    {
        self.wanted(alloc, None)
    }

    /// Return the values at the locations with this function name, as a plain state.
    ///
    /// Every other location is undef in it. The call walks the locations of that name alone, including those that moves
    /// wrote undef, and copies the values that it returns. With a text that is no name of a function it walks all
    /// locations.
    ///
    /// # Errors
    ///
    /// - `AllocError` only if memory is refused.
    pub fn of_name(&self, alloc: Global, name: &str) -> Result<PlainState, AllocError>
        ensures { IfOk result (λ plain. (l : Place) → val plain l ≡ value_of_name self.now name.now l) }
    {
        let owned = String::from_str(alloc, name)?;
        match Location::new(owned, Vec::new(alloc)) {
            Ok(first) => self.from_first(alloc, &first),
            // No location that a program holds has such a name.
            Err(_) => self.wanted(alloc, Some(name)),
        }
    }
}
