ghost use Rattle.std.specs.Prelude.{◌≡◌, ◌↔◌, IsNone, IsTrue, IsOk, None, OnOk, OnErr, IfOk, IfErr, IfSome, Err, false};
ghost use Rattle.std.specs.Option.{option_copied};
ghost use Rattle.std.specs.BTreeMap.Range.{entries_between};
ghost use Rattle.std.specs.declared.ops.Bound.TheVariants.{Included, Unbounded};
ghost use Rattle.std.specs.FinMap as map;
ghost use Rattle.asm_element.specs.Place.{location_cmp};
ghost use Rattle.asm_element.specs.Value as held;
ghost use Rattle.asm_update.specs.State as state;
ghost use Rattle.asm_update.specs.State.{GivesAscending};
ghost use Rattle.asm_update.specs.Aggregator.{IsOutcome, IsLeft};
ghost use Rattle.asm_update.specs.Change.{IsChangedAt};
ghost use Rattle.std.specs.List.Sorted.{IsStrictlySortedBy};
ghost use Rattle.std.specs.Cmp.{partial_equiv_from_equiv};
ghost use Rattle.asm_update.specs.Equal.{state_eq, state_eq-equiv};

use crate::aggregator::Aggregator;
use crate::error::ResultError;
use crate::group::Group;
use asm_element::{Location, Value};
use std::alloc::{AllocError, Global};
use std::collections::BTreeMap;
use std::collections::btree_map::{IntoIter, Iter, Range};
use std::iter::IntoIterator;
use std::marker::Model;

/// A state, as one map from its locations to their values, of which none is undef.
///
/// Contracts see it as that finite map. Source: Börger and Stärk, where a state gives each location a value and
/// `undef` is the value of a location that holds nothing else.
#[derive(Debug, Drop)]
pub struct PlainState {
    values: BTreeMap<Location, Value>,
}

impl Model for PlainState {
    ghost use Rattle.std.specs.FinMap as map;
    ghost use Rattle.asm_element.specs.contracts.location.Location.{the_row as location_row};
    ghost use Rattle.asm_element.specs.contracts.value.Value.{the_row as value_row};
    ghost use Rattle.asm_update.specs.State as state;
    ghost use Rattle.asm_update.specs.State.{AreStateEntries};

    ghost Value = { state.State };

    ghost coded = { map.code location_row.coded value_row.coded };

    ghost view = { λ s. map.from_entries s.values.entries };

    ghost invariant = { λ s. AreStateEntries s.values.entries };
}

// Changes a value in place to what the group gives on it, which is never undef.
fn change_value<A: Aggregator>(
    alloc: Global,
    aggregator: &A,
    value: &mut Value,
    group: &Group,
) -> Result<(), ResultError>
    requires { held.is_undef value.old ≡ false }
    ensures left { IsLeft result value.new
        ((A.meaning aggregator.now).part value.old group.now.regular group.now.partials) }
    ensures err { OnErr result (value.new ≡ value.old) }
    ensures held { held.is_undef value.new ≡ false }
    ensures proper { held.IsProper value.new }
{
    // Proof: the goal `proper` needs that they are partial updates.
    let _partials = group.partials();
    let changed = aggregator.change(alloc, value, group);
    value.proper();
    changed
}

impl PlainState {
    /// Return the state in which each location is undef.
    pub fn new(alloc: Global) -> Self
        ensures { result ≡ state.empty }
    {
        PlainState {
            values: BTreeMap::new(alloc),
        }
    }

    /// Return how many locations aren't undef.
    pub fn len(&self) -> usize
        ensures { result ≡ map.len self.now }
    {
        self.values.len()
    }

    /// Return whether each location is undef.
    pub fn is_empty(&self) -> bool
        ensures { IsTrue result ↔ (map.len self.now ≡ 0) }
    {
        self.len() == 0
    }

    /// Return the value at a location; None exactly where it is undef.
    pub fn get(&self, at: &Location) -> Option<&Value>
        ensures value { option_copied result ≡ map.get self.now at.now }
        ensures none { IsNone result ↔ (state.val self.now at.now ≡ held.undef) }
    {
        self.values.get(at)
    }

    /// Return the location as the state holds it; None exactly where it is undef.
    pub fn location_of(&self, at: &Location) -> Option<&Location>
        ensures same { IfSome result (λ held. held.now ≡ at.now) }
        ensures none { IsNone result ↔ (map.get self.now at.now ≡ None) }
    {
        match self.values.get_key_value(at) {
            Some((held, _)) => Some(held),
            None => None,
        }
    }

    /// Give a location this value; undef takes the location out.
    ///
    /// # Errors
    ///
    /// - `AllocError` only if memory is refused for a value other than undef at a location that is undef.
    ///
    /// On error, the state is unchanged.
    pub fn set(&mut self, at: Location, value: Value) -> Result<(), AllocError>
        ensures ok { OnOk result (self.new ≡ state.write self.old at value) }
        ensures err { OnErr result (self.new ≡ self.old) }
        ensures absent { OnErr result (map.get self.old at ≡ None) }
        ensures undef { IsTrue (held.is_undef value) → IsOk result }
    {
        if value.is_undef() {
            self.take_out(&at);
            return Ok(());
        }
        self.put_in(at, value)
    }

    /// Put the result of a group at a location in the place of its value.
    ///
    /// A value that is there is changed in place, as `Aggregator::change` does it: so an addition to a large set
    /// costs no copy of the set, as `get` and `set` would.
    ///
    /// # Errors
    ///
    /// - `ResultError::Cause` exactly if the group has no result on the value.
    /// - `Memory` only if memory is refused.
    ///
    /// On error, the state is unchanged.
    pub fn change<A: Aggregator>(
        &mut self,
        alloc: Global,
        aggregator: &A,
        at: &Location,
        group: &Group,
    ) -> Result<(), ResultError>
        ensures ok { OnOk result (
            IsChangedAt (A.meaning aggregator.now).part self.old at.now group.now self.new) }
        ensures cause { IfErr result (λ e. IsOutcome (Err e)
            ((A.meaning aggregator.now).part (state.val self.old at.now) group.now.regular group.now.partials)) }
        ensures err { OnErr result (self.new ≡ self.old) }
    {
        match self.values.get_mut(at) {
            Some(value) => change_value(alloc, aggregator, value, group),
            None => self.change_undef(alloc, aggregator, at, group),
        }
    }

    fn change_undef<A: Aggregator>(
        &mut self,
        alloc: Global,
        aggregator: &A,
        at: &Location,
        group: &Group,
    ) -> Result<(), ResultError>
        requires { map.get self.old at.now ≡ None }
        ensures ok { OnOk result (
            IsChangedAt (A.meaning aggregator.now).part self.old at.now group.now self.new) }
        ensures cause { IfErr result (λ e. IsOutcome (Err e)
            ((A.meaning aggregator.now).part (state.val self.old at.now) group.now.regular group.now.partials)) }
        ensures err { OnErr result (self.new ≡ self.old) }
    {
        let value = aggregator.result(alloc, None, group)?;
        self.set(at.copy(alloc)?, value)?;
        Ok(())
    }

    fn take_out(&mut self, at: &Location)
        ensures { self.new ≡ map.remove self.old at.now }
    {
        self.values.remove(at);
    }

    fn put_in(&mut self, at: Location, value: Value) -> Result<(), AllocError>
        requires { held.is_undef value ≡ false }
        ensures ok { OnOk result (self.new ≡ map.insert self.old at value) }
        ensures err { OnErr result (self.new ≡ self.old) }
        ensures absent { OnErr result (map.get self.old at ≡ None) }
    {
        at.proper();
        value.proper();
        self.values.insert(at, value)?;
        Ok(())
    }

    /// Return the locations that aren't undef with their values, in ascending order.
    pub fn iter(&self) -> Iter<'_, Location, Value>
        ensures entries { result ≡ map.entries self.now }
        ensures ascending { IsStrictlySortedBy location_cmp (map.keys self.now) }
    {
        self.values.iter()
    }

    /// Return the locations from this one on that aren't undef, in ascending order.
    ///
    /// Each comes with its value. The walk visits no location below the first, so a caller who wants those of one
    /// function name, which are adjacent, walks these alone.
    pub fn onward(&self, first: &Location) -> Range<'_, Location, Value>
        ensures { result ≡ entries_between location_cmp (Included first.now) Unbounded (map.entries self.now) }
    {
        self.values.range(first..)
    }

    /// Return the same state.
    ///
    /// The two share at most the arguments of their locations.
    ///
    /// # Errors
    ///
    /// - `AllocError` only if memory is refused, or if more copies would share a location than can be counted.
    pub fn copy(&self, _alloc: Global) -> Result<PlainState, AllocError>
        ensures { IfOk result (λ copy. copy ≡ self.now) }
    {
        self.clone()
    }

    /// State for proofs that the state is well-formed; do nothing at run time.
    pub fn proper(&self)
        ensures { state.IsProper self.now }
    {
        let _ = &self.values;
    }
}

impl Clone for PlainState {
    ghost is_clone = { λ state copy. copy ≡ state };

    fn clone(&self) -> Result<PlainState, AllocError> {
        let values = self.values.clone()?;
        Ok(PlainState { values })
    }
}

impl IntoIterator for PlainState {
    type Item = (Location, Value);

    type IntoIter = IntoIter<Location, Value>;

    ghost into_iter_gives = { λ state walk. GivesAscending state walk };

    /// Return the locations that aren't undef with their values, in ascending order.
    ///
    /// They are moved, so a caller who takes a state to pieces copies nothing.
    fn into_iter(self) -> IntoIter<Location, Value> {
        self.values.into_iter()
    }
}

impl PartialEq for PlainState {
    ghost eq = { state_eq };

    ghost laws = { partial_equiv_from_equiv state_eq-equiv };

    fn eq(&self, other: &PlainState) -> bool
        ensures eq { result ≡ state_eq self.now other.now }
        ensures same { IsTrue result ↔ (self.now ≡ other.now) }
    {
        self.values == other.values
    }
}

impl Eq for PlainState {
    ghost laws = { state_eq-equiv };
}
