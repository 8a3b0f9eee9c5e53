//! Reading the bytes that C passes.
ghost use Rattle.std.specs.Prelude.{IfOk, IfErr};
ghost use Rattle.asm_journal.specs.Value.{IsStateForm};
ghost use Rattle.asm_explain.specs.Bytes.{AreLocations, IsMisread, ReadAs};
ghost use Rattle.asm_slots.specs.Bytes.{AreMisread, AreReads, ReadAsMove, ReadAsReads};
ghost use Rattle.asm_journal.specs.Event.{IsMoveForm};
ghost use Rattle.asm_slots.specs.Answers.{IsUnreadAs};
ghost use Rattle.asm_slots.specs.Bytes.{ReadAsLocations, ReadAsState};

use crate::codes::Code;
use asm_element::Location;
use asm_explain::{TextError, read_as, read_quickly};
use asm_journal::{FromJson, Listed};
use asm_state::Named;
use asm_update::{Instructions, PlainState};
use std::alloc::Global;

/// Read the locations of `[LOC, ..]`.
pub(crate) fn locations_of(alloc: Global, bytes: &[u8]) -> Result<Vec<Location>, TextError>
    ensures ok { IfOk result (λ locations. ReadAsLocations bytes.now locations.items) }
    ensures err { IfErr result (IsMisread AreLocations bytes.now) }
{
    match read_quickly::<Listed<Location>>(alloc, bytes) {
        Ok(locations) => Ok(locations.into_vec()),
        Err(error) => Err(error),
    }
}

/// Read the declared reads of `[NAMED, ..]`.
pub(crate) fn reads_of(alloc: Global, bytes: &[u8]) -> Result<Vec<Named>, TextError>
    ensures ok { IfOk result (λ reads. ReadAsReads bytes.now reads.items) }
    ensures err { IfErr result (IsMisread AreReads bytes.now) }
{
    match read_quickly::<Listed<Named>>(alloc, bytes) {
        Ok(reads) => Ok(reads.into_vec()),
        Err(error) => Err(error),
    }
}

/// Read the move of `[INSTR, ..]`.
pub(crate) fn move_of(alloc: Global, bytes: &[u8]) -> Result<Instructions, TextError>
    ensures ok { IfOk result (ReadAsMove bytes.now) }
    ensures err { IfErr result (IsMisread IsMoveForm bytes.now) }
{
    read_quickly::<Instructions>(alloc, bytes)
}

/// Read the values of two texts; the error is that of the first with a fault.
pub(crate) fn read_both<T: FromJson, U: FromJson>(
    alloc: Global,
    first: &[u8],
    second: &[u8],
) -> Result<(T, U), Code>
    ensures first { IfOk result (λ p. ReadAs T.is_form first.now p.0) }
    ensures second { IfOk result (λ p. ReadAs U.is_form second.now p.1) }
    ensures err { IfErr result (AreMisread T.is_form U.is_form first.now second.now) }
{
    let one = read_as::<T>(alloc, first)?;
    let two = read_as::<U>(alloc, second)?;
    Ok((one, two))
}

/// Read the opening state of `[PAIR, ..]`.
pub(crate) fn state_of(alloc: Global, bytes: &[u8]) -> Result<PlainState, Code>
    ensures ok { IfOk result (ReadAsState bytes.now) }
    ensures err { IfErr result (IsUnreadAs IsStateForm bytes.now) }
{
    Ok(read_as::<PlainState>(alloc, bytes)?)
}
