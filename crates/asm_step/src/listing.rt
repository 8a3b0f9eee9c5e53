//! Instructions that are listed from actions at locations.
ghost use Rattle.std.specs.Prelude.{◌≡◌, ◌≤◌, ◌+◌, ◌++◌, ◌∷◌, [], OnOk, IfOk, length};
ghost use Rattle.asm_aggregate.specs.Compose.{placed};
ghost use Rattle.asm_update.specs.Limits.{instructions_limit};
ghost use Rattle.asm_update.specs.declared.action.Action.TheVariants.{Regular};
ghost use Rattle.asm_step.specs.Outcomes.{listed, dependencies_in};

use crate::held::Gathered;
use asm_element::{Location, Value};
use asm_update::{Action, Instruction, Instructions};
use std::alloc::{AllocError, Global};

/// Append a copy of each of the actions at the location.
pub(crate) fn append(
    alloc: Global,
    list: &mut Instructions,
    at: &Location,
    actions: &[Action],
) -> Result<(), AllocError>
    requires { length list.old + length actions.now ≤ instructions_limit }
    ensures { OnOk result (list.new ≡ list.old ++ placed at.now actions.now) }
{
    for action in actions {
        let instruction = Instruction {
            at: at.copy(alloc)?,
            action: action.clone()?,
        };
        push_within(list, instruction)?;
    }
    Ok(())
}

/// State for proofs that a move has at most 4,096 instructions; do nothing at run time.
pub(crate) fn within_limit(instructions: &Instructions)
    ensures { length instructions.now ≤ instructions_limit }
{
    let _count = instructions.len();
}

/// Append the instruction, for which there is room.
pub(crate) fn push_within(
    list: &mut Instructions,
    instruction: Instruction,
) -> Result<(), AllocError>
    requires { length list.old + 1 ≤ instructions_limit }
    ensures { OnOk result (list.new ≡ list.old ++ instruction ∷ []) }
{
    match list.push(instruction) {
        Ok(()) => Ok(()),
        Err(_) => Err(AllocError),
    }
}

/// Append a put of a copy of the value at the location.
pub(crate) fn push_put(
    alloc: Global,
    list: &mut Instructions,
    at: &Location,
    value: &Value,
) -> Result<(), AllocError>
    requires { length list.old + 1 ≤ instructions_limit }
    ensures { OnOk result (list.new ≡ list.old ++ placed at.now (Regular value.now ∷ [])) }
{
    let put = Instruction {
        at: at.copy(alloc)?,
        action: Action::Regular(value.copy(alloc)?),
    };
    push_within(list, put)
}

/// Return the instructions of all outcomes, by location.
pub(crate) fn listing(alloc: Global, all: Gathered<'_>) -> Result<Instructions, AllocError>
    requires { length (listed all) ≤ instructions_limit }
    ensures { IfOk result (λ list. list ≡ listed all.entry) }
{
    let mut list = Instructions::new(alloc);
    for (at, held) in all.into_entries() {
        held.append_to(alloc, &mut list, at)?;
    }
    Ok(list)
}

/// Return where they depend on what is below.
pub(crate) fn dependency_places(
    alloc: Global,
    all: Gathered<'_>,
) -> Result<Vec<Location>, AllocError>
    ensures { IfOk result (λ places. places.items ≡ dependencies_in all.entry) }
{
    let mut places = Vec::new(alloc);
    for (at, held) in all.into_entries() {
        if held.depends() {
            places.push(at.copy(alloc)?)?;
        }
    }
    Ok(places)
}
