//! Locations that a caller made, held as the state holds them.
//!
//! Nothing that a contract sees changes. What the caller then keeps has no memory of its own for them.
ghost use Rattle.std.specs.Prelude.{◌≡◌, ◌↔◌, IfOk, IfSome, IsNone, None};
ghost use Rattle.std.specs.FinMap as map;

use crate::named::Named;
use crate::state::State;
use asm_element::{Items, Location};
use asm_update::Instructions;
use std::alloc::{AllocError, Global};

impl State {
    /// Return the location as the state holds it.
    ///
    /// `None` is the answer exactly if no move wrote it and it is undef in the opening state.
    pub fn location_of(&self, at: &Location) -> Option<&Location>
        ensures same { IfSome result (λ held. held.now ≡ at.now) }
        ensures none { IsNone result ↔
            ((map.get self.now.entries at.now ≡ None) × (map.get self.now.base at.now ≡ None)) }
    {
        match self.entries.location_of(at) {
            Some(held) => Some(held),
            None => self.base.location_of(at),
        }
    }

    // A share of the location as the state holds it, if it does.
    fn share_of(&self, alloc: Global, at: &Location) -> Result<Option<Location>, AllocError>
        ensures { IfOk result (λ share. IfSome share (λ l. l ≡ at.now)) }
    {
        match self.location_of(at) {
            Some(held) => Ok(Some(held.copy(alloc)?)),
            None => Ok(None),
        }
    }

    /// Hold each of the locations as the state holds it, if it does.
    ///
    /// # Errors
    ///
    /// - `AllocError` only if memory is refused, or if more copies would share a location than can be counted.
    pub fn hold_locations(
        &self,
        alloc: Global,
        locations: &mut Vec<Location>,
    ) -> Result<(), AllocError>
        ensures { locations.new.items ≡ locations.old.items }
    {
        for i in 0..locations.len() {
            if let Some(share) = self.share_of(alloc, &locations[i])? {
                locations[i] = share;
            }
        }
        Ok(())
    }

    /// Hold the location of each instruction as the state holds it, if it does.
    ///
    /// Instructions that copies of the move share stay as they are.
    ///
    /// # Errors
    ///
    /// - `AllocError` only if memory is refused, or if more copies would share a location than can be counted.
    pub fn hold_move(&self, alloc: Global, instrs: &mut Instructions) -> Result<(), AllocError>
        ensures { instrs.new ≡ instrs.old }
    {
        for i in 0..instrs.len() {
            if let Some(share) = self.share_of(alloc, &instrs.get(i).at)? {
                instrs.hold(i, share);
            }
        }
        Ok(())
    }

    /// Hold the location of each declared read as the state holds it, if it does.
    ///
    /// Reads that clones of the list share stay as they are.
    ///
    /// # Errors
    ///
    /// - `AllocError` only if memory is refused, or if more copies would share a location than can be counted.
    pub fn hold_reads(&self, alloc: Global, reads: &mut Items<Named>) -> Result<(), AllocError>
        ensures { reads.new ≡ reads.old }
    {
        for i in 0..reads.as_slice().len() {
            let named = &reads.as_slice()[i];
            let number = named.number;
            if let Some(at) = self.share_of(alloc, &named.at)? {
                reads.hold(i, Named { at, number });
            }
        }
        Ok(())
    }
}
