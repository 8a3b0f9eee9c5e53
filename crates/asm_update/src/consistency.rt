ghost use Rattle.std.specs.Prelude.{◌≡◌, false, MatchOption};
ghost use Rattle.asm_element.specs.Place.{Place};
ghost use Rattle.asm_update.specs.Move.{has_two, IsLeast};

use crate::action::{Action, Instruction};
use crate::instructions::Instructions;
use asm_element::{Location, Value};

/// Return whether two regular updates of the location have different values.
fn has_two_values(instructions: &[Instruction], at: &Location) -> bool
    ensures { result ≡ has_two instructions.now at.now }
{
    let mut first: Option<&Value> = None;
    for instruction in instructions {
        if instruction.at != *at {
            continue;
        }
        if let Action::Regular(value) = &instruction.action {
            match first {
                None => first = Some(value),
                Some(other) => {
                    if other != value {
                        return true;
                    }
                }
            }
        }
    }
    false
}

/// Return the smallest location with two different regular values, if there is one.
///
/// `None` means that the instructions are consistent. Partial updates don't count. Source: Börger and Stärk, for
/// regular updates.
pub fn consistent(instructions: &Instructions) -> Option<&Location>
    ensures { MatchOption result
        ((l : Place) → has_two instructions.now l ≡ false)
        (λ l. IsLeast (has_two instructions.now) l.now) }
{
    let list = instructions.as_slice();
    let mut least: Option<&Location> = None;
    for instruction in list {
        let at = &instruction.at;
        if at.comes_before(least) && has_two_values(list, at) {
            least = Some(at);
        }
    }
    least
}
