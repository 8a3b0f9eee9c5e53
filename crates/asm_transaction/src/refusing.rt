//! The locations on which the refusal of a move depends.
ghost use Rattle.std.specs.Prelude.{◌≡◌, ◌++◌, filter, IfErr, IfOk, OnErr, OnOk};
ghost use Rattle.std.specs.Ordering.{is_le};
ghost use Rattle.asm_element.specs.Place.{location_cmp};
ghost use Rattle.asm_step.specs.Places.{all_partial_places, partial_place, partial_places};
ghost use Rattle.asm_transaction.specs.Pushing.{HasTrackedRefusal, IsReport};
ghost use Rattle.asm_transaction.specs.Reading.{HasTracked, IsUntracked};
ghost use Rattle.asm_transaction.specs.Tracked.{refusal_places, refusal_places_to};

use crate::error::{PushError, TransactionError};
use crate::transaction::Transaction;
use asm_element::Location;
use asm_step::StepError;
use asm_update::{Instruction, Instructions};
use std::alloc::{AllocError, Global};

// Append a copy of the instruction's location, if it is a partial update.
fn push_partial(
    alloc: Global,
    all: &mut Vec<Location>,
    instruction: &Instruction,
) -> Result<(), AllocError>
    ensures { OnOk result (all.new.items ≡ all.old.items ++ partial_place instruction.now) }
{
    if instruction.action.family().is_none() {
        return Ok(());
    }
    all.push(instruction.at.copy(alloc)?)?;
    Ok(())
}

// Append copies of the locations of the move's partial updates.
pub(crate) fn push_partials(
    alloc: Global,
    all: &mut Vec<Location>,
    instrs: &Instructions,
) -> Result<(), AllocError>
    ensures { OnOk result (all.new.items ≡ all.old.items ++ partial_places instrs.now) }
{
    for instruction in instrs.as_slice() {
        push_partial(alloc, all, instruction)?;
    }
    Ok(())
}

// Append copies of the locations of all the moves' partial updates.
pub(crate) fn push_all_partials(
    alloc: Global,
    all: &mut Vec<Location>,
    moves: &[Instructions],
) -> Result<(), AllocError>
    ensures { OnOk result (all.new.items ≡ all.old.items ++ all_partial_places moves.now) }
{
    for instrs in moves {
        push_partials(alloc, all, instrs)?;
    }
    Ok(())
}

// Return those of the locations that aren't above the last one.
fn up_to(
    alloc: Global,
    locations: Vec<Location>,
    last: &Location,
) -> Result<Vec<Location>, AllocError>
    ensures { IfOk result (λ kept. kept.items ≡ filter (λ l. is_le (location_cmp l last.now)) locations.items) }
{
    let mut kept = Vec::with_capacity(alloc, locations.len())?;
    for at in locations {
        if at.cmp(last).is_le() {
            kept.push(at)?;
        }
    }
    Ok(kept)
}

// Return the location of a refusal, and those up to it at which the move has partial updates.
fn refusal_places_to(
    alloc: Global,
    at: &Location,
    instrs: &Instructions,
) -> Result<Vec<Location>, AllocError>
    ensures { IfOk result (λ ls. ls.items ≡ refusal_places_to at.now instrs.now) }
{
    let mut partials = Vec::new(alloc);
    push_partials(alloc, &mut partials, instrs)?;
    let mut all = up_to(alloc, partials, at)?;
    all.insert(0, at.copy(alloc)?)?;
    Ok(all)
}

/// Return the locations on which the refusal of the move depends, which `push` tracks.
///
/// # Errors
///
/// - `AllocError` only if memory is refused.
pub fn refusal_places(
    alloc: Global,
    instrs: &Instructions,
    error: &StepError,
) -> Result<Vec<Location>, AllocError>
    ensures { IfOk result (λ ls. ls.items ≡ refusal_places instrs.now error.now) }
{
    let mut all = Vec::new(alloc);
    match error {
        StepError::Clash(clash) => return refusal_places_to(alloc, &clash.at, instrs),
        StepError::Large(at) => return refusal_places_to(alloc, at, instrs),
        StepError::Many => push_partials(alloc, &mut all, instrs)?,
        StepError::Deep | StepError::Memory => {}
    }
    Ok(all)
}

impl Transaction {
    // Track the locations on which the refusal of the move depends.
    fn track_refusal(
        &mut self,
        alloc: Global,
        instrs: &Instructions,
        error: &StepError,
    ) -> Result<(), TransactionError>
        ensures tracked { OnOk result (HasTracked (refusal_places instrs.now error.now) self.old self.new) }
        ensures err { IfErr result (IsUntracked (refusal_places instrs.now error.now) self.old) }
        ensures stays { OnErr result (self.new ≡ self.old) }
    {
        let places = refusal_places(alloc, instrs, error)?;
        self.track(alloc, places)
    }

    // Track the locations on which the step's refusal depends, and report it.
    pub(crate) fn refuse(
        &mut self,
        alloc: Global,
        instrs: &Instructions,
        error: StepError,
    ) -> PushError
        ensures report { IsReport instrs.now self.old error result }
        ensures tracked { HasTrackedRefusal instrs.now self.old self.new result }
    {
        if matches!(&error, StepError::Memory) {
            return PushError::Memory;
        }
        match self.track_refusal(alloc, instrs, &error) {
            Ok(()) => PushError::Refused(error),
            Err(TransactionError::ManyReads) => PushError::ManyReads,
            Err(TransactionError::Moved | TransactionError::Memory) => PushError::Memory,
        }
    }
}
