ghost use Rattle.std.specs.Prelude.{◌≡◌, ◌++◌, unwrap_or, Ok};
ghost use Rattle.std.specs.Option.{option_copied};
ghost use Rattle.std.specs.List.{list_all};
ghost use Rattle.asm_element.specs.Value.{undef};
ghost use Rattle.asm_update.specs.Action.{is_of};
ghost use Rattle.asm_update.specs.Aggregator.{IsOutcome};
ghost use Rattle.asm_aggregate.specs.Families as families;

use asm_element::Value;
use asm_update::{Action, Family, Group, ResultError};
use std::alloc::Global;

fn belongs_to(action: &Action, family: Family) -> bool
    ensures { result ≡ is_of family action.now }
{
    action.family() == Some(family)
}

/// Return whether the actions are all partial updates of the family.
pub(crate) fn are_all_of(family: Family, actions: &[Action]) -> bool
    ensures { result ≡ list_all (is_of family) actions.now }
{
    actions.iter().all(|action| belongs_to(action, family))
}

/// Return the family of all the actions, if there is one.
pub(crate) fn common_family(actions: &[Action]) -> Option<Family>
    ensures { result ≡ families.common_family actions.now }
{
    let Some((first, rest)) = actions.split_first() else {
        return None;
    };
    let Some(family) = first.family() else {
        return None;
    };
    if are_all_of(family, rest) {
        Some(family)
    } else {
        None
    }
}

/// Return the family of all the actions of both lists, if there is one.
pub(crate) fn family_of_both(first: &[Action], second: &[Action]) -> Option<Family>
    ensures { result ≡ families.common_family (first.now ++ second.now) }
{
    if first.is_empty() {
        return common_family(second);
    }
    let Some(family) = common_family(first) else {
        return None;
    };
    if are_all_of(family, second) {
        Some(family)
    } else {
        None
    }
}

/// Return the value that a group's partial updates change.
///
/// It is the regular value, or else the old one.
pub(crate) fn base_of<'a>(old: Option<&'a Value>, group: &'a Group) -> Option<&'a Value>
    ensures { unwrap_or (option_copied result) undef
        ≡ unwrap_or group.now.regular (unwrap_or (option_copied old.entry) undef) }
{
    match group.regular() {
        Some(value) => Some(value),
        None => old,
    }
}

/// Return a copy of the value, in its own memory.
pub(crate) fn unchanged(alloc: Global, value: &Value) -> Result<Value, ResultError>
    ensures { IsOutcome result (Ok value.now) }
{
    Ok(value.copy(alloc)?)
}
