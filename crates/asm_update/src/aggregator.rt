ghost use Rattle.std.specs.Prelude.{◌≡◌, ◌≢◌, ◌++◌, [], IsTrue, OnErr, unwrap_or};
ghost use Rattle.std.specs.Option.{option_copied};
ghost use Rattle.std.specs.List.{list_all};
ghost use Rattle.asm_element.specs.Value.{undef};
ghost use Rattle.asm_update.specs.Action.{is_partial};
ghost use Rattle.asm_update.specs.Aggregator.{Meaning, AggregatorLaws, IsOutcome, IsJoined};
ghost use Rattle.asm_update.specs.Aggregator.{IsAdmitted, IsLeft};

use crate::action::{Action, Family};
use crate::error::{JoinError, ResultError};
use crate::group::Group;
use asm_element::Value;
use std::alloc::Global;

/// The meaning of partial updates: results of groups, and joins of two lists.
///
/// This is CoreASM's aggregation. An implementation says in `meaning` what its calls compute, and proves in `laws` that
/// this obeys ten laws:
///
/// 1. The order of the partial updates of a group doesn't matter (`any_order`).
/// 2. Partial updates that aren't all of one family that is owned are `Mixed` (`mixed`).
/// 3. Where the first list has a result on a value, the joined list gives on that value what the second gives on the
/// result, causes included. An empty list leaves each value unchanged (`join_is_sequence`).
/// 4. Where a join is refused, no value lets the first and then the second list have results (`refused_join`).
/// 5. The regular value of a group is its result, or the group has a cause (`regular_result`).
/// 6. Which of the two it is doesn't depend on the old value (`regular_decides`).
/// 7. Partial updates of a family have a result only on a base of the family's kind, and the result is of that kind
/// (`kind_kept`).
/// 8. What is well-formed stays well-formed (`proper_kept`).
/// 9. A joined list has partial updates alone (`join_is_partial`).
/// 10. Each of them is of a family that one of the two lists has (`join_family`).
///
/// Laws 3 and 4 apply to what a program can hold, and to two lists that aren't both empty.
pub trait Aggregator {
    /// The families that it owns, what a group gives, and what two lists join to.
    ghost meaning: { Self → Meaning };

    /// Return whether partial updates of the family are this aggregator's.
    fn owns(&self, family: Family) -> bool
        ensures { result ≡ (meaning self.now).owns family };

    /// Return the result of a group on the old value, where None means undef.
    ///
    /// # Errors
    ///
    /// - `ResultError::Cause` exactly if the group has no result.
    /// - `Memory` only if memory is refused.
    fn result(
        &self,
        alloc: Global,
        old: Option<&Value>,
        group: &Group,
    ) -> Result<Value, ResultError>
        ensures { IsOutcome result
            ((meaning self.now).part (unwrap_or (option_copied old.entry) undef)
            group.now.regular group.now.partials) };

    /// Test whether a group has a result on the old value, where None means undef.
    ///
    /// An aggregator that can test this without making the value has its own implementation.
    ///
    /// # Errors
    ///
    /// - `ResultError::Cause` exactly if `result` would return it.
    /// - `Memory` only if memory is refused.
    fn admit(&self, alloc: Global, old: Option<&Value>, group: &Group) -> Result<(), ResultError>
        ensures { IsAdmitted result
            ((meaning self.now).part (unwrap_or (option_copied old.entry) undef)
            group.now.regular group.now.partials) }
    {
        match self.result(alloc, old, group) {
            Ok(_) => Ok(()),
            Err(error) => Err(error),
        }
    }

    /// Put the result of a group on a value in its place.
    ///
    /// An aggregator that can change a value in place writes its own.
    ///
    /// # Errors
    ///
    /// - `ResultError::Cause` exactly if the group has no result.
    /// - `Memory` only if memory is refused.
    ///
    /// On error, the value is unchanged.
    fn change(&self, alloc: Global, value: &mut Value, group: &Group) -> Result<(), ResultError>
        ensures left { IsLeft result value.new
            ((meaning self.now).part value.old group.now.regular group.now.partials) }
        ensures err { OnErr result (value.new ≡ value.old) }
    {
        *value = self.result(alloc, Some(&*value), group)?;
        Ok(())
    }

    /// Return the list of partial updates that does what both lists do, one by one.
    ///
    /// An empty list leaves each value unchanged.
    ///
    /// # Errors
    ///
    /// - `JoinError::Cause` and `Large` exactly if the two have no join.
    /// - `Memory` only if memory is refused.
    fn join(
        &self,
        alloc: Global,
        first: &[Action],
        second: &[Action],
    ) -> Result<Vec<Action>, JoinError>
        requires some { first.now ++ second.now ≢ [] }
        requires partial { IsTrue (list_all is_partial (first.now ++ second.now)) }
        ensures { IsJoined result ((meaning self.now).joins first.now second.now) };

    /// The laws, whatever the values and the lists are.
    ghost laws: { (a : Self) → AggregatorLaws (meaning a) };
}
