//! How a move's values come in.
ghost use Rattle.std.specs.Prelude.{◌≡◌, IfOk, IfErr, OnOk, OnErr, Some, None};
ghost use Rattle.std.specs.FinMap as map;
ghost use Rattle.asm_element.specs.Place.{Place};
ghost use Rattle.asm_aggregate.specs.Bundle.{by_place};
ghost use Rattle.asm_state.specs.declared.entries.WrittenValue.{WrittenValue};
ghost use Rattle.asm_state.specs.Follow.{written_by, entry_after};
ghost use Rattle.asm_state.specs.Replaced.{AreReplaced};
ghost use Rattle.asm_state.specs.View as view;

use crate::entries::{Entries, WrittenValue};
use asm_aggregate::Results;
use asm_element::{Location, Value};
use std::alloc::{AllocError, Global};
use std::mem;

impl Entries {
    /// Replace the entry of the location, and return the old one.
    ///
    /// If there is none, return this one.
    fn exchange(
        &mut self,
        at: &Location,
        written: WrittenValue,
    ) -> Result<WrittenValue, WrittenValue>
        ensures there { IfOk result (λ old. map.get self.old at.now ≡ Some old) }
        ensures ok { OnOk result (self.new ≡ map.insert self.old at.now written) }
        ensures absent { OnErr result (map.get self.old at.now ≡ None) }
        ensures back { IfErr result (λ back. back ≡ written) }
        ensures err { OnErr result (self.new ≡ self.old) }
    {
        let Some(now) = self.tree.get_mut(at) else {
            return Err(written);
        };
        Ok(mem::replace(now, written))
    }

    /// Write an entry, and return what the location held before.
    ///
    /// On error, nothing changes.
    fn write_at(
        &mut self,
        alloc: Global,
        at: &Location,
        written: WrittenValue,
    ) -> Result<Option<WrittenValue>, AllocError>
        ensures before { IfOk result (λ before. before ≡ map.get self.old at.now) }
        ensures ok { OnOk result (self.new ≡ map.insert self.old at.now written) }
        ensures err { OnErr result (self.new ≡ self.old) }
    {
        match self.exchange(at, written) {
            Ok(old) => Ok(Some(old)),
            Err(written) => {
                self.put(at.copy(alloc)?, written)?;
                Ok(None)
            }
        }
    }

    /// Make the entry of a location that has none, with a copy of the value.
    fn put_first(
        &mut self,
        alloc: Global,
        at: &Location,
        writer: u32,
        value: &Value,
    ) -> Result<(), AllocError>
        ensures ok { OnOk result (self.new ≡ map.insert self.old at.now (written_by writer value.now)) }
        ensures err { OnErr result (self.new ≡ self.old) }
    {
        let written = WrittenValue::by(writer, value.copy(alloc)?);
        self.put(at.copy(alloc)?, written)
    }

    /// Write a copy of the value at the location in the move with this number.
    ///
    /// An entry is changed in place; only a new one copies the location.
    ///
    /// On error, nothing changes.
    pub(crate) fn put_value(
        &mut self,
        alloc: Global,
        at: &Location,
        writer: u32,
        value: &Value,
    ) -> Result<(), AllocError>
        ensures ok { OnOk result (self.new ≡ map.insert self.old at.now (written_by writer value.now)) }
        ensures err { OnErr result (self.new ≡ self.old) }
    {
        match self.tree.get_mut(at) {
            Some(written) => written.put(alloc, writer, value),
            None => self.put_first(alloc, at, writer, value),
        }
    }

    /// Take the last write of a location back, which takes no memory.
    fn take_back(&mut self, at: &Location, before: Option<WrittenValue>)
        ensures { (old : view.Entries) (w : WrittenValue) → before ≡ map.get old at.now →
            self.old ≡ map.insert old at.now w → self.new ≡ old }
    {
        match before {
            Some(written) => {
                let _ = self.exchange(at, written);
            }
            None => self.take_out(at),
        }
    }

    /// Take writes back by what they replaced, the last one first.
    fn take_all_back(&mut self, mut replaced: Vec<(&Location, Option<WrittenValue>)>)
        ensures { (old : view.Entries) → AreReplaced (by_place replaced.entry.items) old self.old → self.new ≡ old }
    {
        while let Some((at, before)) = replaced.pop() {
            self.take_back(at, before);
        }
    }

    /// Write the results of the move with this number, one by one.
    ///
    /// Until all are written it holds what they replace.
    fn write_each(
        &mut self,
        alloc: Global,
        writer: u32,
        results: Results<'_>,
    ) -> Result<(), AllocError>
        ensures ok { OnOk result ((q : Place) →
            map.get self.new q ≡ entry_after writer (map.get results.entry q) (map.get self.old q)) }
        ensures err { OnErr result (self.new ≡ self.old) }
    {
        let mut replaced = Vec::with_capacity(alloc, results.len())?;
        for (at, value) in results.into_vec() {
            match self.write_at(alloc, at, WrittenValue::by(writer, value)) {
                Ok(before) => replaced.push_reserved((at, before)),
                Err(error) => {
                    self.take_all_back(replaced);
                    return Err(error);
                }
            }
        }
        Ok(())
    }

    /// Write the results of the move with this number.
    ///
    /// The values move in, and only new locations are copied. On error, nothing changes.
    pub(crate) fn write(
        &mut self,
        alloc: Global,
        writer: u32,
        results: Results<'_>,
    ) -> Result<(), AllocError>
        ensures ok { OnOk result ((q : Place) →
            map.get self.new q ≡ entry_after writer (map.get results.entry q) (map.get self.old q)) }
        ensures err { OnErr result (self.new ≡ self.old) }
    {
        if results.len() > 1 {
            return self.write_each(alloc, writer, results);
        }
        // A write works or changes nothing, so what one result replaces needn't be held.
        match results.into_vec().into_iter().next() {
            Some((at, value)) => {
                self.write_at(alloc, at, WrittenValue::by(writer, value))?;
                Ok(())
            }
            None => Ok(()),
        }
    }
}
