//! Moves of one regular update: what becomes of them doesn't depend on the state.
ghost use Rattle.std.specs.Prelude.{◌≡◌, IfSome, IsNone, Some, None};
ghost use Rattle.asm_aggregate.specs.OnlyPut as specs;

use asm_element::{Location, Value};
use asm_update::{Action, Instruction, Instructions};

// The location and the value of an instruction, if it is a regular update.
fn put_of(instruction: &Instruction) -> Option<(&Location, &Value)>
    ensures some { IfSome result (λ p. specs.put_of instruction.now ≡ Some (p.0.now, p.1.now)) }
    ensures none { IsNone result → specs.put_of instruction.now ≡ None }
{
    match &instruction.action {
        Action::Regular(value) => Some((&instruction.at, value)),
        _ => None,
    }
}

/// Return the location and the value of a move that is one regular update.
///
/// `None` is the answer for each other move. Such a move has this one update on every state, so following it needs no
/// update set.
pub fn only_put(instructions: &Instructions) -> Option<(&Location, &Value)>
    ensures some { IfSome result (λ p. specs.only_put instructions.now ≡ Some (p.0.now, p.1.now)) }
    ensures none { IsNone result → specs.only_put instructions.now ≡ None }
{
    if instructions.len() == 1 {
        put_of(instructions.get(0))
    } else {
        None
    }
}
