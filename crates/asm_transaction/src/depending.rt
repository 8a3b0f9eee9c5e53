//! Where moves depend on what is below them.
ghost use Rattle.std.specs.Prelude.{◌≡◌, filter, IfOk};
ghost use Rattle.asm_step.specs.Dependencies.{depends, one_writes, puts};
ghost use Rattle.asm_update.specs.Move.{writes};

use asm_element::Location;
use asm_step::Popped;
use asm_update::{Action, Instructions};
use std::alloc::{AllocError, Global};

// Return whether the move writes the location.
fn writes(instrs: &Instructions, at: &Location) -> bool
    ensures { result ≡ writes instrs.now at.now }
{
    instrs.iter().any(|instruction| instruction.at == *at)
}

// Return whether one of the moves writes the location.
fn one_writes(moves: &[Instructions], at: &Location) -> bool
    ensures { result ≡ one_writes moves.now at.now }
{
    moves.iter().any(|instrs| writes(instrs, at))
}

// Return whether the move puts a value at the location.
fn puts(instrs: &Instructions, at: &Location) -> bool
    ensures { result ≡ puts instrs.now at.now }
{
    instrs.iter().any(|instruction| instruction.at == *at
        && matches!(&instruction.action, Action::Regular(_)))
}

// Return whether the moves depend on the value below them at the location.
fn depends(popped: &Popped, at: &Location) -> bool
    ensures { result ≡ depends popped.now at.now }
{
    let (first, more) = popped.moves();
    if writes(first, at) {
        return !puts(first, at) && one_writes(more, at);
    }
    for (i, next) in more.iter().enumerate() {
        if writes(next, at) {
            return !puts(next, at) && one_writes(&more[i + 1..], at);
        }
    }
    false
}

/// Return those of the locations at which the moves depend on what is below them.
pub(crate) fn dependencies_of(
    alloc: Global,
    popped: &Popped,
    locations: Vec<Location>,
) -> Result<Vec<Location>, AllocError>
    ensures { IfOk result (λ kept. kept.items ≡ filter (depends popped.now) locations.items) }
{
    let mut kept = Vec::new(alloc);
    for at in locations {
        if depends(popped, &at) {
            kept.push(at)?;
        }
    }
    Ok(kept)
}
