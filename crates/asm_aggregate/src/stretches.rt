//! The instructions of a move in ascending order of their locations, and the stretches of those at one location.
ghost use Rattle.std.specs.Prelude.{◌≡◌, ◌≤◌, true, false, [], IfOk, MatchOption, length, take, drop};
ghost use Rattle.std.specs.List.{AllByRecursion};
ghost use Rattle.std.specs.Ordering.{eq_by_cmp};
ghost use Rattle.asm_element.specs.Place.{location_cmp};
ghost use Rattle.asm_aggregate.specs.Stretch.{IsArranged, IsParted, left_in, referred, starts_at};

use asm_element::Location;
use asm_update::{Instruction, Instructions};
use std::alloc::{AllocError, Global};

/// The instructions of a move at one location.
#[derive(Clone, Copy, Debug)]
pub(crate) struct Stretch<'a, 's> {
    pub(crate) at: &'a Location,
    pub(crate) instructions: &'s [&'a Instruction],
}

/// A walk of a move's instructions in ascending order of locations, by stretches.
#[derive(Clone, Copy, Debug)]
pub(crate) struct Stretches<'a, 's> {
    list: &'s [&'a Instruction],
    done: usize,
}

/// Return the instructions in ascending order of locations.
///
/// Those at one location stay in their order.
pub(crate) fn ascending<'a>(
    alloc: Global,
    instructions: &'a Instructions,
) -> Result<Vec<&'a Instruction>, AllocError>
    ensures { IfOk result (λ list. IsArranged instructions.now (referred list.items)) }
{
    let mut list = Vec::with_capacity(alloc, instructions.len())?;
    for instruction in instructions.as_slice() {
        list.push(instruction)?;
    }
    list.sort_by(|one, other| one.at.cmp(&other.at))?;
    Ok(list)
}

/// Return how many instructions at the head of the list are at the location.
fn count_at(list: &[&Instruction], at: &Location) -> usize
    ensures within { result ≤ length list.now }
    ensures here { AllByRecursion (λ i. eq_by_cmp location_cmp i.at at.now ≡ true) (referred (take result list.now)) }
    ensures ends { starts_at at.now (referred (drop result list.now)) ≡ false }
{
    for (count, instruction) in list.iter().enumerate() {
        if &instruction.at != at {
            return count;
        }
    }
    list.len()
}

impl<'a, 's> Stretches<'a, 's> {
    pub(crate) fn of(list: &'s [&'a Instruction]) -> Stretches<'a, 's>
        ensures { left_in result.list.now result.done ≡ referred list.now }
    {
        Stretches { list, done: 0 }
    }

    /// Return the first stretch of what is left, unless nothing is.
    pub(crate) fn next(&mut self) -> Option<Stretch<'a, 's>>
        ensures { MatchOption result (left_in self.old.list.now self.old.done ≡ []) (λ stretch.
            IsParted (left_in self.old.list.now self.old.done) (referred stretch.instructions.now)
            (left_in self.new.list.now self.new.done) stretch.at.now) }
    {
        let len = self.list.len();
        if self.done >= len {
            return None;
        }
        let (_, left) = self.list.split_at(self.done);
        let Some(first) = left.first() else {
            return None;
        };
        let count = count_at(left, &first.at);
        let (instructions, _) = left.split_at(count);
        self.done += count;
        Some(Stretch {
            at: &first.at,
            instructions,
        })
    }
}
