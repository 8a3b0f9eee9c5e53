//! What is seen at the locations with one function name.
ghost use Rattle.std.specs.Prelude.{◌≡◌, ◌∷◌, [], nat_eq, IfOk, OnOk, if◌then◌else◌};
ghost use Rattle.std.specs.Cmp.Lexicographic.{pointwise};
ghost use Rattle.asm_element.specs.Place.{Place};
ghost use Rattle.asm_update.specs.State.{val, write};
ghost use Rattle.asm_step.specs.Layers.{frames_of};
ghost use Rattle.asm_step.specs.Outcomes.{frame, put_on, puts_on};
ghost use Rattle.std.specs.FinMap as map;
ghost use Rattle.asm_step.specs.Layers.{scanned};

use crate::outcomes::Outcomes;
use crate::own::Own;
use crate::puts::value_put;
use crate::step::Step;
use asm_element::{Location, Value};
use asm_update::{Instruction, PlainState};
use std::alloc::{AllocError, Global};

// Gives the location a copy of the value, if it has the name; undef takes it out.
fn put_named(
    alloc: Global,
    plain: &mut PlainState,
    name: &str,
    at: &Location,
    value: &Value,
) -> Result<(), AllocError>
    ensures { OnOk result (plain.new ≡
        if pointwise nat_eq at.now.name name.now then write plain.old at.now value.now else plain.old) }
{
    if at.name() != name {
        return Ok(());
    }
    let at = at.copy(alloc)?;
    plain.set(at, value.copy(alloc)?)
}

// Writes the outcomes' values at the locations with the name.
fn put_each(
    alloc: Global,
    plain: &mut PlainState,
    name: &str,
    outcomes: &Outcomes,
) -> Result<(), AllocError>
    ensures { OnOk result ((l : Place) →
        val plain.new l ≡ scanned (frame outcomes.now ∷ []) (val plain.old) name.now l) }
{
    for (at, outcome) in outcomes.iter() {
        put_named(alloc, plain, name, at, outcome.value())?;
    }
    Ok(())
}

// Writes the value of the instruction, if it is a put at a location with the name.
fn put_one(
    alloc: Global,
    plain: &mut PlainState,
    name: &str,
    put: &Instruction,
) -> Result<(), AllocError>
    ensures { OnOk result ((l : Place) →
        val plain.new l ≡ scanned (frame (put_on map.empty put.now) ∷ []) (val plain.old) name.now l) }
{
    match value_put(put) {
        Some(value) => put_named(alloc, plain, name, &put.at, value),
        None => Ok(()),
    }
}

// Writes the values of the puts at the locations with the name.
fn put_puts(
    alloc: Global,
    plain: &mut PlainState,
    name: &str,
    puts: &[Instruction],
) -> Result<(), AllocError>
    ensures { OnOk result ((l : Place) →
        val plain.new l ≡ scanned (frame (puts_on map.empty puts.now) ∷ []) (val plain.old) name.now l) }
{
    for put in puts {
        put_one(alloc, plain, name, put)?;
    }
    Ok(())
}

// Writes the values of what a layer has at the locations with the name.
fn put_values(
    alloc: Global,
    plain: &mut PlainState,
    name: &str,
    own: &Own,
) -> Result<(), AllocError>
    ensures { OnOk result ((l : Place) →
        val plain.new l ≡ scanned (frame own.now ∷ []) (val plain.old) name.now l) }
{
    if own.puts.is_empty() {
        return put_each(alloc, plain, name, &own.each);
    }
    put_puts(alloc, plain, name, own.puts.as_slice())
}

impl Step {
    /// Return what is seen at the locations with this function name, as a plain state.
    ///
    /// It is seen through the step's moves, over the values that `below` has there. At every other location it has what
    /// `below` has. It walks all that the moves write, and copies their values at these locations.
    ///
    /// # Errors
    ///
    /// - `AllocError` only if memory is refused; `below` is dropped then.
    pub fn scan(
        &self,
        alloc: Global,
        below: PlainState,
        name: &str,
    ) -> Result<PlainState, AllocError>
        ensures { IfOk result (λ plain. (l : Place) →
            val plain l ≡ scanned (frames_of self.now) (val below) name.now l) }
    {
        let mut plain = below;
        for layer in &self.layers {
            put_values(alloc, &mut plain, name, &layer.own)?;
        }
        Ok(plain)
    }
}
