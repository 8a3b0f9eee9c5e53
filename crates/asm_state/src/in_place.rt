//! Moves that change one location alone, and so can change its value in place.
ghost use Rattle.std.specs.Prelude.{◌≡◌, ◌≢◌, ◌&&◌, [], None, true, map, IfOk, IfSome, IsNone};
ghost use Rattle.std.specs.Ordering.{eq_by_cmp};
ghost use Rattle.asm_element.specs.Place.{location_cmp};
ghost use Rattle.asm_update.specs.Action.{is_partial};
ghost use Rattle.asm_state.specs.Change.{changes_only, IsNotOneChange, IsOneChange};

use asm_element::Location;
use asm_update::{Group, Instruction, Instructions};
use std::alloc::{AllocError, Global};

fn is_change_at(at: &Location, instruction: &Instruction) -> bool
    ensures { result ≡ (is_partial instruction.now.action && eq_by_cmp location_cmp instruction.now.at at.now) }
{
    instruction.action.family().is_some() && instruction.at == *at
}

fn are_changes_at(at: &Location, instructions: &[Instruction]) -> bool
    ensures { result ≡ changes_only at.now instructions.now }
{
    instructions
        .iter()
        .all(|instruction| is_change_at(at, instruction))
}

/// Return the one location of all instructions, which are partial updates.
///
/// `None` is the answer if they aren't, and if there are none.
fn only_location(instructions: &[Instruction]) -> Option<&Location>
    ensures some { IfSome result (λ l. instructions.now ≢ []) }
    ensures only { IfSome result (λ l. changes_only l.now instructions.now ≡ true) }
    ensures none { IsNone result → IsNotOneChange instructions.now }
{
    let first = instructions.first()?;
    let at = &first.at;
    if are_changes_at(at, instructions) {
        Some(at)
    } else {
        None
    }
}

/// Return the group of the instructions' partial updates.
fn group_of(alloc: Global, at: &Location, instructions: &[Instruction]) -> Result<Group, AllocError>
    requires some { instructions.now ≢ [] }
    requires only { changes_only at.now instructions.now ≡ true }
    ensures { IfOk result (λ g.
        g ≡ record { regular = None; partials = map (λ i. i.action) instructions.now }) }
{
    let mut partials = Vec::with_capacity(alloc, instructions.len())?;
    for instruction in instructions {
        partials.push(instruction.action.clone()?)?;
    }
    Ok(Group::new(None, partials))
}

/// Return the one location that a move changes, and the group of its updates there.
///
/// `None` is the answer if an instruction is a regular update or at another location, or if there is no instruction. A
/// state follows such a move by changing that one value in place (`PlainState::change`), without an update set.
///
/// # Errors
///
/// - `AllocError` only if memory is refused.
pub fn one_change(
    alloc: Global,
    instructions: &Instructions,
) -> Result<Option<(&Location, Group)>, AllocError>
    ensures some { IfOk result (λ change. IfSome change (λ c. IsOneChange instructions.now c.0.now c.1)) }
    ensures none { IfOk result (λ change. IsNone change → IsNotOneChange instructions.now) }
{
    match only_location(instructions.as_slice()) {
        Some(at) => Ok(Some((at, group_of(alloc, at, instructions.as_slice())?))),
        None => Ok(None),
    }
}
