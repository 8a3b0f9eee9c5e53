ghost use Rattle.std.specs.Prelude.{◌≡◌, ◌↔◌, IsTrue, None, OnOk, OnErr};
ghost use Rattle.std.specs.Option.{option_copied};
ghost use Rattle.std.specs.Cmp.{partial_equiv_from_equiv};
ghost use Rattle.std.specs.FinMap as map;
ghost use Rattle.std.specs.List.Sorted.{IsStrictlySortedBy};
ghost use Rattle.asm_element.specs.Place.{location_cmp};
ghost use Rattle.asm_update.specs.State.{GivesAscending};
ghost use Rattle.asm_update.specs.Equal.{state_eq, state_eq-equiv};

use asm_element::{Location, Value};
use std::alloc::{AllocError, Global};
use std::collections::BTreeMap;
use std::collections::btree_map::{IntoIter, Iter};
use std::iter::IntoIterator;
use std::marker::Model;

/// One value for each of some locations, undef among them.
///
/// Contracts see it as a finite map. Source: a consistent set of updates, in Börger and Stärk.
#[derive(Debug, Drop)]
pub struct UpdateSet {
    values: BTreeMap<Location, Value>,
}

impl Model for UpdateSet {
    ghost use Rattle.std.specs.FinMap as map;
    ghost use Rattle.std.specs.List.Sorted.{IsStrictlySortedBy};
    ghost use Rattle.std.specs.Map.{keys_of};
    ghost use Rattle.asm_element.specs.Place.{location_cmp};
    ghost use Rattle.asm_element.specs.contracts.location.Location.{the_row as location_row};
    ghost use Rattle.asm_element.specs.contracts.value.Value.{the_row as value_row};
    ghost use Rattle.asm_update.specs.State.{Updates};

    ghost Value = { Updates };

    ghost coded = { map.code location_row.coded value_row.coded };

    ghost view = { λ s. map.from_entries s.values.entries };

    ghost invariant = { λ s. IsStrictlySortedBy location_cmp (keys_of s.values.entries) };
}

impl UpdateSet {
    /// Return the empty update set.
    pub fn new(alloc: Global) -> Self
        ensures { result ≡ map.empty }
    {
        UpdateSet {
            values: BTreeMap::new(alloc),
        }
    }

    /// Return how many locations are written.
    pub fn len(&self) -> usize
        ensures { result ≡ map.len self.now }
    {
        self.values.len()
    }

    /// Return whether no location is written.
    pub fn is_empty(&self) -> bool
        ensures { IsTrue result ↔ (map.len self.now ≡ 0) }
    {
        self.len() == 0
    }

    /// Return the value that is written at a location; None where none is.
    pub fn get(&self, at: &Location) -> Option<&Value>
        ensures { option_copied result ≡ map.get self.now at.now }
    {
        self.values.get(at)
    }

    /// Write the value of a location, in place of the one that it had.
    ///
    /// # Errors
    ///
    /// - `AllocError` only if memory is refused for a location that has no value yet.
    ///
    /// On error, the updates are unchanged.
    pub fn put(&mut self, at: Location, value: Value) -> Result<(), AllocError>
        ensures ok { OnOk result (self.new ≡ map.insert self.old at value) }
        ensures err { OnErr result (self.new ≡ self.old) }
        ensures absent { OnErr result (map.get self.old at ≡ None) }
    {
        self.values.insert(at, value)?;
        Ok(())
    }

    /// Return the locations with their values, in ascending order of locations.
    pub fn iter(&self) -> Iter<'_, Location, Value>
        ensures entries { result ≡ map.entries self.now }
        ensures ascending { IsStrictlySortedBy location_cmp (map.keys self.now) }
    {
        self.values.iter()
    }
}

impl IntoIterator for UpdateSet {
    type Item = (Location, Value);

    type IntoIter = IntoIter<Location, Value>;

    ghost into_iter_gives = { λ updates walk. GivesAscending updates walk };

    /// Return the locations with their values, in ascending order of locations.
    ///
    /// They are moved, so a caller who writes them copies nothing.
    fn into_iter(self) -> IntoIter<Location, Value> {
        self.values.into_iter()
    }
}

impl PartialEq for UpdateSet {
    ghost eq = { state_eq };

    ghost laws = { partial_equiv_from_equiv state_eq-equiv };

    fn eq(&self, other: &UpdateSet) -> bool
        ensures eq { result ≡ state_eq self.now other.now }
        ensures same { IsTrue result ↔ (self.now ≡ other.now) }
    {
        self.values == other.values
    }
}

impl Eq for UpdateSet {
    ghost laws = { state_eq-equiv };
}
