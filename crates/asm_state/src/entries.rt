//! What a state keeps of the locations that moves wrote.
ghost use Rattle.std.specs.Prelude.{◌≡◌, ◌↔◌, IfOk, IfErr, IfSome, IsNone, IsTrue, OnOk, OnErr, None, Some, Err, false};
ghost use Rattle.asm_update.specs.Aggregator.{IsOutcome};
ghost use Rattle.asm_state.specs.Change.{IsChanged};
ghost use Rattle.asm_state.specs.declared.entries.WrittenValue.{WrittenValue};
ghost use Rattle.std.specs.Option.{option_copied};
ghost use Rattle.std.specs.BTreeMap.Range.{entries_between};
ghost use Rattle.std.specs.declared.ops.Bound.TheVariants.{Included, Unbounded};
ghost use Rattle.std.specs.FinMap as map;
ghost use Rattle.asm_element.specs.Place.{location_cmp};
ghost use Rattle.asm_update.specs.State.{val};
ghost use Rattle.asm_state.specs.View.{value_of, value_over};
ghost use Rattle.asm_state.specs.Follow.{written_by};

pub(crate) mod scanning;
mod writing;

use asm_element::{Element, Location, Value};
use asm_update::{Aggregator, Group, PlainState, ResultError};
use std::alloc::{AllocError, Global};
use std::collections::BTreeMap;
use std::collections::btree_map::{Iter, Range};
use std::marker::Model;

/// What a location holds, and the number of the move that wrote it last.
#[derive(Debug, Drop)]
pub(crate) struct WrittenValue {
    /// None where it is undef, whatever the opening state has there.
    pub(crate) value: Option<Value>,
    pub(crate) writer: u32,
}

/// Give a number the place of another one, without memory; return false if either is no number.
fn replace_number(held: &mut Option<Value>, value: &Value) -> bool
    ensures replaced { IsTrue result → held.new ≡ Some value.now }
    ensures kept { result ≡ false → held.new ≡ held.old }
{
    let Value::Plain(Element::Num(next)) = value else {
        return false;
    };
    match held {
        Some(Value::Plain(Element::Num(number))) => {
            *number = *next;
            true
        }
        _ => false,
    }
}

impl WrittenValue {
    /// Return the entry that the move with this number leaves if it writes the value.
    fn by(writer: u32, value: Value) -> WrittenValue
        ensures { result ≡ written_by writer value }
    {
        if value.is_undef() {
            WrittenValue {
                value: None,
                writer,
            }
        } else {
            WrittenValue {
                value: Some(value),
                writer,
            }
        }
    }

    /// Record its writer, and remove a value that is undef.
    fn settle(&mut self, writer: u32)
        ensures { self.new ≡ written_by writer (value_of (Some self.old)) }
    {
        self.writer = writer;
        let is_undef = match &self.value {
            Some(value) => value.is_undef(),
            None => true,
        };
        if is_undef {
            self.value = None;
        }
    }

    /// Change the value to the group's result on it, in the move with this number.
    ///
    /// It is changed in place. On error, nothing changes.
    fn change<A: Aggregator>(
        &mut self,
        alloc: Global,
        aggregator: &A,
        writer: u32,
        group: &Group,
    ) -> Result<(), ResultError>
        ensures ok { OnOk result (IsChanged (A.meaning aggregator.now).part (value_of (Some self.old)) group.now writer self.new) }
        ensures cause { IfErr result (λ e. IsOutcome (Err e)
            ((A.meaning aggregator.now).part (value_of (Some self.old)) group.now.regular group.now.partials)) }
        ensures err { OnErr result (self.new ≡ self.old) }
    {
        match &mut self.value {
            Some(value) => aggregator.change(alloc, value, group)?,
            None => self.value = Some(aggregator.result(alloc, None, group)?),
        }
        self.settle(writer);
        Ok(())
    }

    /// Change the value to a copy of this one, in the move with this number.
    ///
    /// On error, nothing changes.
    fn put(&mut self, alloc: Global, writer: u32, value: &Value) -> Result<(), AllocError>
        ensures ok { OnOk result (self.new ≡ written_by writer value.now) }
        ensures err { OnErr result (self.new ≡ self.old) }
    {
        if !replace_number(&mut self.value, value) {
            self.value = Some(value.copy(alloc)?);
        }
        self.settle(writer);
        Ok(())
    }

    fn copy(&self, alloc: Global) -> Result<WrittenValue, AllocError>
        ensures { IfOk result (λ copy. copy ≡ self.now) }
    {
        let value = match &self.value {
            Some(value) => Some(value.copy(alloc)?),
            None => None,
        };
        Ok(WrittenValue {
            value,
            writer: self.writer,
        })
    }
}

/// Entries of locations, which contracts see as a finite map.
#[derive(Debug, Drop)]
pub(crate) struct Entries {
    tree: BTreeMap<Location, WrittenValue>,
}

impl Model for Entries {
    ghost use Rattle.std.specs.FinMap as map;
    ghost use Rattle.std.specs.List.Sorted.{IsStrictlySortedBy};
    ghost use Rattle.std.specs.Map.{keys_of};
    ghost use Rattle.asm_element.specs.Place.{location_cmp};
    ghost use Rattle.asm_element.specs.contracts.location.Location.{the_row as location_row};
    ghost use Rattle.asm_state.specs.declared.entries.WrittenValue.{WrittenValue};
    ghost use Rattle.asm_state.specs.contracts.entries.WrittenValue.{the_row as written_row};

    ghost Value = { map.FinMap location_cmp WrittenValue };

    ghost coded = { map.code location_row.coded written_row.coded };

    ghost view = { λ s. map.from_entries s.tree.entries };

    ghost invariant = { λ s. IsStrictlySortedBy location_cmp (keys_of s.tree.entries) };
}

impl Entries {
    pub(crate) fn new(alloc: Global) -> Entries
        ensures { result ≡ map.empty }
    {
        Entries {
            tree: BTreeMap::new(alloc),
        }
    }

    pub(crate) fn get(&self, at: &Location) -> Option<&WrittenValue>
        ensures { option_copied result ≡ map.get self.now at.now }
    {
        self.tree.get(at)
    }

    /// Return the location of an entry as the entry has it.
    pub(crate) fn location_of(&self, at: &Location) -> Option<&Location>
        ensures same { IfSome result (λ held. held.now ≡ at.now) }
        ensures none { IsNone result ↔ (map.get self.now at.now ≡ None) }
    {
        match self.tree.get_key_value(at) {
            Some((held, _)) => Some(held),
            None => None,
        }
    }

    pub(crate) fn iter(&self) -> Iter<'_, Location, WrittenValue>
        ensures { result ≡ map.entries self.now }
    {
        self.tree.iter()
    }

    // The entries from this location on.
    pub(crate) fn onward(&self, first: &Location) -> Range<'_, Location, WrittenValue>
        ensures { result ≡ entries_between location_cmp (Included first.now) Unbounded (map.entries self.now) }
    {
        self.tree.range(first..)
    }

    /// Write an entry, and drop the one that it replaces; only a new one takes memory.
    pub(crate) fn put(&mut self, at: Location, written: WrittenValue) -> Result<(), AllocError>
        ensures ok { OnOk result (self.new ≡ map.insert self.old at written) }
        ensures absent { OnErr result (map.get self.old at ≡ None) }
        ensures err { OnErr result (self.new ≡ self.old) }
    {
        self.tree.insert(at, written)?;
        Ok(())
    }

    fn take_out(&mut self, at: &Location)
        ensures { self.new ≡ map.remove self.old at.now }
    {
        self.tree.remove(at);
    }

    /// Return the same entries, in a tree of their own.
    pub(crate) fn copy(&self, alloc: Global) -> Result<Entries, AllocError>
        ensures { IfOk result (λ copy. copy ≡ self.now) }
    {
        let mut copy = Entries::new(alloc);
        for (at, written) in self.iter() {
            copy.put(at.copy(alloc)?, written.copy(alloc)?)?;
        }
        Ok(copy)
    }

    /// Make the entry of a location that has none.
    ///
    /// It is the group's result on the location's opening value.
    fn open_at<A: Aggregator>(
        &mut self,
        alloc: Global,
        aggregator: &A,
        base: &PlainState,
        at: &Location,
        writer: u32,
        group: &Group,
    ) -> Result<(), ResultError>
        ensures ok { OnOk result ((w : WrittenValue) × (self.new ≡ map.insert self.old at.now w)
            × IsChanged (A.meaning aggregator.now).part (val base.now at.now) group.now writer w) }
        ensures cause { IfErr result (λ e. IsOutcome (Err e)
            ((A.meaning aggregator.now).part (val base.now at.now) group.now.regular group.now.partials)) }
        ensures err { OnErr result (self.new ≡ self.old) }
    {
        let value = aggregator.result(alloc, base.get(at), group)?;
        self.put(at.copy(alloc)?, WrittenValue::by(writer, value))?;
        Ok(())
    }

    /// Give the location the group's result on its value.
    ///
    /// An entry is changed in place; a location that has none has its opening value.
    ///
    /// On error, nothing changes.
    pub(crate) fn change_at<A: Aggregator>(
        &mut self,
        alloc: Global,
        aggregator: &A,
        base: &PlainState,
        at: &Location,
        writer: u32,
        group: &Group,
    ) -> Result<(), ResultError>
        ensures ok { OnOk result ((w : WrittenValue) × (self.new ≡ map.insert self.old at.now w)
            × IsChanged (A.meaning aggregator.now).part (value_over (val base.now at.now) (map.get self.old at.now))
            group.now writer w) }
        ensures cause { IfErr result (λ e. IsOutcome (Err e)
            ((A.meaning aggregator.now).part (value_over (val base.now at.now) (map.get self.old at.now))
            group.now.regular group.now.partials)) }
        ensures err { OnErr result (self.new ≡ self.old) }
    {
        match self.tree.get_mut(at) {
            Some(written) => written.change(alloc, aggregator, writer, group),
            None => self.open_at(alloc, aggregator, base, at, writer, group),
        }
    }
}
