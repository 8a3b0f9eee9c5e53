ghost use Rattle.std.specs.Prelude.{◌≡◌, ℤ, pos, ◌+ℤ◌, ◌≤ℤ◌, neg_ℤ, ◌*◌, ◌<◌, map, true, false};
ghost use Rattle.std.specs.Prelude.{if◌then◌else◌, Ok, Err, IfOk, IfSome, IfNone, unwrap_or};
ghost use Rattle.std.specs.Option.{option_copied};
ghost use Rattle.asm_element.specs.Value.{undef};
ghost use Rattle.asm_element.specs.declared.element.Element.TheVariants as element;
ghost use Rattle.asm_element.specs.declared.value.Value.TheVariants as values;
ghost use Rattle.asm_update.specs.Aggregator.{IsOutcome};
ghost use Rattle.asm_update.specs.declared.action.Action.TheVariants as action;
ghost use Rattle.asm_update.specs.declared.action.Family.TheVariants as family;
ghost use Rattle.asm_update.specs.declared.clash.Cause.TheVariants.{Large};
ghost use Rattle.asm_aggregate.specs.Families.{is_kind};
ghost use Rattle.asm_aggregate.specs.CountMeaning.{count_meaning, increment, total, is_outside, is_beyond, split};
ghost use Rattle.asm_aggregate.specs.CountMeaning.{stands_alone, increments};
ghost use Rattle.asm_aggregate.specs.laws.CountLaws.{count_laws};

use crate::families::{are_all_of, base_of};
use asm_element::{Element, Value};
use asm_update::{Action, Aggregator, Cause, Family, Group, JoinError, ResultError};
use std::alloc::{AllocError, Global};

/// The aggregator of counters: it owns `Family::Count` alone.
///
/// A group's result is the old number and the sum of the increments. There is no result where the base isn't a number
/// (`Kind`), beside a regular value (`Against`), or where the new number would be outside the range of i64 (`Large`),
/// whatever the sums on the way are. Increments are of this project's profile.
#[derive(Clone, Copy, Debug)]
pub struct CountAgg;

fn number_of(value: Option<&Value>) -> Option<i64>
    ensures some { IfSome result (λ n. unwrap_or (option_copied value.entry) undef ≡ values.Plain (element.Num n)) }
    ensures none { IfNone result (is_kind family.Count (unwrap_or (option_copied value.entry) undef) ≡ false) }
{
    match value {
        Some(Value::Plain(Element::Num(n))) => Some(*n),
        _ => None,
    }
}

fn increment_of(action: &Action) -> i64
    ensures { result ≡ increment action.now }
{
    match action {
        Action::Increment(n) => *n,
        _ => 0,
    }
}

/// Return the sum of the increments.
fn total_of(actions: &[Action]) -> i128
    ensures sum { result ≡ total actions.now }
    ensures below { result ≤ℤ pos (18446744073709551615 * 9223372036854775808) }
    ensures above { neg_ℤ (pos (18446744073709551615 * 9223372036854775808)) ≤ℤ result }
{
    let mut sum: i128 = 0;
    for action in actions {
        sum += i128::from(increment_of(action));
    }
    sum
}

/// Return the counter with this number, if a counter can have it.
fn counter_of(number: i128) -> Result<Value, ResultError>
    ensures { IsOutcome result (if is_outside number then Err Large else Ok (values.Plain (element.Num number))) }
{
    match i64::try_from(number) {
        Ok(number) => Ok(Value::Plain(Element::Num(number))),
        Err(_) => Err(ResultError::Cause(Cause::Large)),
    }
}

/// Return the sum of both totals, if it is at most the distance of two counters.
fn sum_of(first: i128, second: i128) -> Option<i128>
    ensures some { IfSome result (λ s. (s ≡ first +ℤ second) × (is_beyond s ≡ false)) }
    ensures none { IfNone result (is_beyond (first +ℤ second) ≡ true) }
{
    let sum = first.checked_add(second)?;
    let most = i128::from(u64::MAX);
    if sum > most || sum < -most {
        return None;
    }
    Some(sum)
}

/// Return a sum as increments.
///
/// Each is the greatest or the smallest one while the rest is outside the range; the last is the rest.
fn split_into(alloc: Global, sum: i128) -> Result<Vec<Action>, AllocError>
    requires { is_beyond sum ≡ false }
    ensures { IfOk result (λ v. v.items ≡ map action.Increment (split sum)) }
{
    let greatest = i128::from(i64::MAX);
    let least = i128::from(i64::MIN);
    if sum > 2 * greatest {
        let rest = (sum - 2 * greatest) as i64;
        let most = i64::MAX;
        Ok(vec![in alloc;
            Action::Increment(most),
            Action::Increment(most),
            Action::Increment(rest),
        ]?)
    } else if sum > greatest {
        let rest = (sum - greatest) as i64;
        Ok(vec![in alloc; Action::Increment(i64::MAX), Action::Increment(rest)]?)
    } else if sum < least {
        let rest = (sum - least) as i64;
        Ok(vec![in alloc; Action::Increment(i64::MIN), Action::Increment(rest)]?)
    } else {
        Ok(vec![in alloc; Action::Increment(sum as i64)]?)
    }
}

/// Return the increments of a sum.
///
/// There are none of 0, except where the second list is alone.
fn increments_of(
    alloc: Global,
    first: &[Action],
    second: &[Action],
    sum: i128,
) -> Result<Vec<Action>, AllocError>
    requires { is_beyond sum ≡ false }
    ensures { IfOk result (λ v. v.items ≡ increments first.now second.now sum) }
{
    let stands_alone = first.is_empty() && !second.is_empty();
    if sum == 0 && !stands_alone {
        return Ok(Vec::new(alloc));
    }
    split_into(alloc, sum)
}

impl Aggregator for CountAgg {
    ghost meaning = { λ _. count_meaning };

    ghost laws = { λ _. count_laws };

    fn owns(&self, family: Family) -> bool {
        matches!(family, Family::Count)
    }

    fn result(
        &self,
        _alloc: Global,
        old: Option<&Value>,
        group: &Group,
    ) -> Result<Value, ResultError> {
        let partials = group.partials();
        if !are_all_of(Family::Count, partials) {
            return Err(ResultError::Cause(Cause::Mixed));
        }
        let Some(number) = number_of(base_of(old, group)) else {
            return Err(ResultError::Cause(Cause::Kind));
        };
        if group.regular().is_some() {
            return Err(ResultError::Cause(Cause::Against));
        }
        counter_of(i128::from(number) + total_of(partials))
    }

    fn join(
        &self,
        alloc: Global,
        first: &[Action],
        second: &[Action],
    ) -> Result<Vec<Action>, JoinError> {
        if !are_all_of(Family::Count, first) || !are_all_of(Family::Count, second) {
            return Err(JoinError::Cause(Cause::Mixed));
        }
        let Some(sum) = sum_of(total_of(first), total_of(second)) else {
            return Err(JoinError::Large);
        };
        Ok(increments_of(alloc, first, second, sum)?)
    }
}
