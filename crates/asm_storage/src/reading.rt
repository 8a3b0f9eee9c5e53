ghost use Rattle.std.specs.Prelude.{◌≡◌, ◌↔◌, ◌<◌, IsTrue, length, Some, slice_get, IfOk};

use asm_element::{Items, Location, Value};
use asm_state::Named;
use std::alloc::{AllocError, Global};
use std::marker::Model;

/// The answer to a read: the locations of the call and their values.
///
/// It also has the number of moves at which they were read. The agent's receipt holds the same.
#[derive(Drop)]
pub struct Reading {
    pub(crate) number: u32,
    pub(crate) places: Items<Location>,
    pub(crate) values: Items<Value>,
}

/// The answer to a read of declared reads.
#[derive(Drop)]
pub enum NamedReading {
    /// No declared read was stale: their locations and values.
    Read(Reading),
    /// The smallest declared location that was written since its read.
    ///
    /// Nothing was read.
    Stale(Location),
}

impl Model for Reading {
    ghost use Rattle.std.specs.Prelude.{◌≡◌, length};
    ghost use Rattle.asm_element.specs.contracts.location.Location.{the_row as location_row};
    ghost use Rattle.asm_element.specs.contracts.value.Value.{the_row as value_row};
    ghost use Rattle.asm_storage.specs.Calls.{ReadingView, reading_code};

    ghost Value = { ReadingView };

    ghost coded = { reading_code location_row.coded value_row.coded };

    ghost view = { λ r. record { number = r.number; places = r.places; values = r.values } };

    ghost invariant = { λ r. length r.values ≡ length r.places };
}

impl Reading {
    /// Return the number of moves at which it was read.
    pub fn number(&self) -> u32
        ensures { result ≡ self.now.number }
    {
        self.number
    }

    /// Return how many locations were read.
    pub fn len(&self) -> usize
        ensures { result ≡ length self.now.places }
    {
        self.places.as_slice().len()
    }

    /// Return whether no location was read.
    pub fn is_empty(&self) -> bool
        ensures { IsTrue result ↔ (length self.now.places ≡ 0) }
    {
        0 == self.len()
    }

    /// Return the value of the location at place `i` of the call, counted from 0.
    ///
    /// `i` must be below `len`.
    pub fn value(&self, i: usize) -> &Value
        requires { i < length self.now.places }
        ensures { slice_get self.now.values i ≡ Some result.now }
    {
        &self.values.as_slice()[i]
    }

    /// Return the location at place `i` of the call, counted from 0.
    ///
    /// `i` must be below `len`.
    pub fn at(&self, i: usize) -> &Location
        requires { i < length self.now.places }
        ensures { slice_get self.now.places i ≡ Some result.now }
    {
        &self.places.as_slice()[i]
    }

    /// Return the location at place `i` of the call with the number of the reading.
    ///
    /// A fire that depends on the value passes it as a declared read.
    ///
    /// # Errors
    ///
    /// - `AllocError` only if memory is refused.
    pub fn named(&self, alloc: Global, i: usize) -> Result<Named, AllocError>
        requires { i < length self.now.places }
        ensures at { IfOk result (λ n. slice_get self.now.places i ≡ Some n.at) }
        ensures number { IfOk result (λ n. n.number ≡ self.now.number) }
    {
        let at = self.at(i).copy(alloc)?;
        let number = self.number;
        Ok(Named { at, number })
    }
}
