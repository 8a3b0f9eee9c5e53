ghost use Rattle.std.specs.Prelude.{◌≡◌, IsTrue, IfErr, OnOk, OnErr, Ok};
ghost use Rattle.asm_update.specs.Move.{all_regular};
ghost use Rattle.asm_update.specs.Fire.{Part, fire, TellsClash};

use crate::action::Action;
use crate::clash::{AggError, Cause, Clash};
use crate::consistency::consistent;
use crate::instructions::Instructions;
use crate::plain_state::PlainState;
use std::alloc::Global;

/// Fire instructions of which none is partial.
///
/// The state then has each of their values, and undef removes its location. Source: firing of a consistent update set,
/// by Börger and Stärk.
///
/// # Errors
///
/// - `AggError::Clash` exactly if two of the values at one location differ: at the smallest such location, with
///   `Cause::Two`.
/// - `Memory` only if memory is refused.
///
/// On error, the state is unchanged.
pub fn fire_plain(
    alloc: Global,
    state: &mut PlainState,
    instructions: &Instructions,
) -> Result<(), AggError>
    requires { IsTrue (all_regular instructions.now) }
    ensures fired { OnOk result ((part : Part) → fire part state.old instructions.now ≡ Ok state.new) }
    ensures clash { IfErr result (TellsClash state.old instructions.now) }
    ensures err { OnErr result (state.new ≡ state.old) }
{
    if let Some(at) = consistent(instructions) {
        return Err(AggError::Clash(Clash {
            at: at.copy(alloc)?,
            cause: Cause::Two,
        }));
    }
    let mut next = state.copy(alloc)?;
    for instruction in instructions.as_slice() {
        if let Action::Regular(value) = &instruction.action {
            next.set(instruction.at.copy(alloc)?, value.copy(alloc)?)?;
        }
    }
    *state = next;
    Ok(())
}
