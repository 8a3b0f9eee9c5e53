//! Reading what C passes, with the locations of an agent's own state held as it holds them.
//!
//! What the call keeps, such as a receipt, then has no memory of its own for a location that has a value or was written.
ghost use Rattle.std.specs.Prelude.{◌≡◌, IfErr, IfOk};
ghost use Rattle.asm_explain.specs.Bytes.{AreLocations, IsFireForm, IsMisread, ReadAsFire};
ghost use Rattle.asm_journal.specs.Event.{IsMoveForm};
ghost use Rattle.asm_slots.specs.Bytes.{ReadAsLocations, ReadAsMove};

use crate::parsing::{locations_of, move_of};
use asm_element::Location;
use asm_explain::{Fire, TextError, fire_of};
use asm_state::State;
use asm_update::Instructions;
use std::alloc::{AllocError, Global};

/// Read the locations of `[LOC, ..]`.
pub(crate) fn held_locations(
    alloc: Global,
    state: &State,
    bytes: &[u8],
) -> Result<Vec<Location>, TextError>
    ensures ok { IfOk result (λ locations. ReadAsLocations bytes.now locations.items) }
    ensures err { IfErr result (IsMisread AreLocations bytes.now) }
{
    let mut locations = locations_of(alloc, bytes)?;
    match state.hold_locations(alloc, &mut locations) {
        Ok(()) => Ok(locations),
        Err(AllocError) => Err(TextError::Memory),
    }
}

/// Read the move of `[INSTR, ..]`.
pub(crate) fn held_move(
    alloc: Global,
    state: &State,
    bytes: &[u8],
) -> Result<Instructions, TextError>
    ensures ok { IfOk result (ReadAsMove bytes.now) }
    ensures err { IfErr result (IsMisread IsMoveForm bytes.now) }
{
    let mut instrs = move_of(alloc, bytes)?;
    match state.hold_move(alloc, &mut instrs) {
        Ok(()) => Ok(instrs),
        Err(AllocError) => Err(TextError::Memory),
    }
}

// Hold the locations of a move and of its declared reads.
fn hold_fire(alloc: Global, state: &State, fire: &mut Fire) -> Result<(), AllocError>
    ensures { fire.new ≡ fire.old }
{
    state.hold_reads(alloc, &mut fire.reads)?;
    state.hold_move(alloc, &mut fire.instrs)
}

/// Read the move of `{"fire":[INSTR, ..],"reads":[NAMED, ..]}`.
pub(crate) fn held_fire(alloc: Global, state: &State, bytes: &[u8]) -> Result<Fire, TextError>
    ensures ok { IfOk result (λ f. ReadAsFire bytes.now f.reads f.instrs) }
    ensures err { IfErr result (IsMisread IsFireForm bytes.now) }
{
    let mut fire = fire_of(alloc, bytes)?;
    match hold_fire(alloc, state, &mut fire) {
        Ok(()) => Ok(fire),
        Err(AllocError) => Err(TextError::Memory),
    }
}
