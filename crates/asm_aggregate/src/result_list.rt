//! What a move gives each of its locations, beside the locations themselves, which are only referred to.
ghost use Rattle.std.specs.Prelude.{◌≡◌, true, IfOk, OnOk, is_some};
ghost use Rattle.std.specs.FinMap as map;
ghost use Rattle.std.specs.declared.cmp.Ordering.TheVariants.{Less};
ghost use Rattle.asm_element.specs.Place.{Place, location_cmp};
ghost use Rattle.asm_aggregate.specs.Bundle.{by_place};

use asm_element::{Location, Value};
use std::alloc::{AllocError, Global};
use std::marker::Model;

/// One value for each of some locations of a move, in ascending order of locations.
///
/// The locations belong to the move. Contracts see it as a finite map, as they see an `UpdateSet`. A caller who has
/// most of the locations already writes the values without a copy of a location.
#[derive(Debug, Drop)]
pub struct Results<'a> {
    list: Vec<(&'a Location, Value)>,
}

impl<'a> Model for Results<'a> {
    ghost use Rattle.std.specs.FinMap as map;
    ghost use Rattle.std.specs.List.Sorted.{IsStrictlySortedBy};
    ghost use Rattle.std.specs.Map.{keys_of};
    ghost use Rattle.asm_element.specs.Place.{location_cmp};
    ghost use Rattle.asm_element.specs.contracts.location.Location.{the_row as location_row};
    ghost use Rattle.asm_element.specs.contracts.value.Value.{the_row as value_row};
    ghost use Rattle.asm_update.specs.State.{Updates};
    ghost use Rattle.asm_aggregate.specs.Bundle.{by_place};

    ghost Value = { Updates };

    ghost coded = { map.code location_row.coded value_row.coded };

    ghost view = { λ s. map.from_entries (by_place s.list.items) };

    ghost invariant = { λ s. IsStrictlySortedBy location_cmp (keys_of (by_place s.list.items)) };
}

impl<'a> Results<'a> {
    /// Return an empty list of results, with room for so many.
    pub(crate) fn with_room(alloc: Global, room: usize) -> Result<Results<'a>, AllocError>
        ensures { IfOk result (λ results. results ≡ map.empty) }
    {
        Ok(Results {
            list: Vec::with_capacity(alloc, room)?,
        })
    }

    /// Put the value of a location behind those of the locations below it.
    pub(crate) fn push(&mut self, at: &'a Location, value: Value) -> Result<(), AllocError>
        requires { (l : Place) → is_some (map.get self.old l) ≡ true → location_cmp l at.now ≡ Less }
        ensures { OnOk result (self.new ≡ map.insert self.old at.now value) }
    {
        self.list.push((at, value))?;
        Ok(())
    }

    /// Return how many locations there are.
    pub fn len(&self) -> usize
        ensures { result ≡ map.len self.now }
    {
        self.list.len()
    }

    /// Return the locations with their values, in ascending order of the locations.
    pub fn into_vec(self) -> Vec<(&'a Location, Value)>
        ensures { by_place result.items ≡ map.entries self.entry }
    {
        self.list
    }
}
