ghost use Rattle.std.specs.Prelude.{◌≡◌, ◌≢◌, ◌++◌, true, false, []};
ghost use Rattle.std.specs.List.{list_all};
ghost use Rattle.asm_update.specs.Action.{is_partial};
ghost use Rattle.asm_update.specs.declared.action.Family as family;
ghost use Rattle.asm_aggregate.specs.laws.PairLaws.{pair_laws};
ghost use Rattle.asm_aggregate.specs.PairMeaning.{pair_meaning, by_owner, refused, cause_by_owner};
ghost use Rattle.asm_aggregate.specs.Standard.{standard_meaning};
ghost use Rattle.asm_aggregate.specs.Steps.{IsRefusedFor};

use crate::bag_agg::BagAgg;
use crate::count_agg::CountAgg;
use crate::families::{common_family, family_of_both};
use crate::set_agg::SetAgg;
use asm_element::Value;
use asm_update::{Action, Aggregator, Cause, Family, Group, JoinError, ResultError};
use std::alloc::Global;

/// Two aggregators as one, which owns what either of them owns.
///
/// Each group goes to the one that owns its family. Partial updates of two families, or of one that neither owns, are
/// `Mixed` (this project's profile).
#[derive(Debug, Drop)]
pub struct Pair<A, B> {
    a: A,
    b: B,
}

/// Which of the two owns a family.
enum Owner {
    One,
    Other,
    Neither,
}

/// Return why the aggregator refuses the actions with nothing after them, if so.
pub(crate) fn cause_alone<A: Aggregator>(
    aggregator: &A,
    alloc: Global,
    actions: &[Action],
) -> Result<(), JoinError>
    requires some { actions.now ++ [] ≢ [] }
    requires partial { list_all is_partial (actions.now ++ []) ≡ true }
    ensures { IsRefusedFor result (refused ((A.meaning aggregator.now).joins actions.now [])) }
{
    match aggregator.join(alloc, actions, &[]) {
        Ok(_) => Ok(()),
        Err(JoinError::Cause(cause)) => Err(JoinError::Cause(cause)),
        Err(JoinError::Large) => Ok(()),
        Err(JoinError::Memory) => Err(JoinError::Memory),
    }
}

impl<A: Aggregator, B: Aggregator> Pair<A, B> {
    /// Return the two as one.
    ///
    /// No family may be owned by both.
    pub fn new(a: A, b: B) -> Pair<A, B>
        requires { (f : family.Family) → (A.meaning a).owns f ≡ true → (B.meaning b).owns f ≡ false }
        ensures { ⟦<Pair<A, B> as Aggregator>⟧.meaning result ≡ pair_meaning (A.meaning a) (B.meaning b) }
    {
        Pair { a, b }
    }

    /// Return which of the two owns the family, if there is one.
    fn owner(&self, family: Option<Family>) -> Owner
        ensures { result ≡ by_owner (A.meaning self.now.a) (B.meaning self.now.b) family
            Owner.One Owner.Other Owner.Neither }
    {
        match family {
            Some(family) if self.a.owns(family) => Owner::One,
            Some(family) if self.b.owns(family) => Owner::Other,
            _ => Owner::Neither,
        }
    }

    /// Return why the owner of the actions refuses them with nothing after them, if so.
    fn cause_by_owner(&self, alloc: Global, actions: &[Action]) -> Result<(), JoinError>
        ensures { IsRefusedFor result (cause_by_owner (A.meaning self.now.a) (B.meaning self.now.b) actions.now) }
    {
        if actions.is_empty() {
            return Ok(());
        }
        match self.owner(common_family(actions)) {
            Owner::One => cause_alone(&self.a, alloc, actions),
            Owner::Other => cause_alone(&self.b, alloc, actions),
            Owner::Neither => Err(JoinError::Cause(Cause::Mixed)),
        }
    }
}

impl<A: Aggregator, B: Aggregator> Aggregator for Pair<A, B> {
    ghost meaning = { λ p. pair_meaning (A.meaning p.a) (B.meaning p.b) };

    ghost laws = { λ p. pair_laws (A.laws p.a) (B.laws p.b) };

    fn owns(&self, family: Family) -> bool {
        self.a.owns(family) || self.b.owns(family)
    }

    fn result(
        &self,
        alloc: Global,
        old: Option<&Value>,
        group: &Group,
    ) -> Result<Value, ResultError> {
        match self.owner(common_family(group.partials())) {
            Owner::One => self.a.result(alloc, old, group),
            Owner::Other => self.b.result(alloc, old, group),
            Owner::Neither => Err(ResultError::Cause(Cause::Mixed)),
        }
    }

    fn admit(&self, alloc: Global, old: Option<&Value>, group: &Group) -> Result<(), ResultError> {
        match self.owner(common_family(group.partials())) {
            Owner::One => self.a.admit(alloc, old, group),
            Owner::Other => self.b.admit(alloc, old, group),
            Owner::Neither => Err(ResultError::Cause(Cause::Mixed)),
        }
    }

    fn change(&self, alloc: Global, value: &mut Value, group: &Group) -> Result<(), ResultError> {
        match self.owner(common_family(group.partials())) {
            Owner::One => self.a.change(alloc, value, group),
            Owner::Other => self.b.change(alloc, value, group),
            Owner::Neither => Err(ResultError::Cause(Cause::Mixed)),
        }
    }

    fn join(
        &self,
        alloc: Global,
        first: &[Action],
        second: &[Action],
    ) -> Result<Vec<Action>, JoinError> {
        self.cause_by_owner(alloc, first)?;
        self.cause_by_owner(alloc, second)?;
        match self.owner(family_of_both(first, second)) {
            Owner::One => self.a.join(alloc, first, second),
            Owner::Other => self.b.join(alloc, first, second),
            Owner::Neither => Err(JoinError::Cause(Cause::Kind)),
        }
    }
}

/// The type of `standard()`.
pub type Standard = Pair<Pair<SetAgg, BagAgg>, CountAgg>;

/// Return the aggregator of sets, bags and counters.
pub fn standard() -> Standard
    ensures { ⟦<Standard as Aggregator>⟧.meaning result ≡ standard_meaning }
{
    Pair::new(Pair::new(SetAgg, BagAgg), CountAgg)
}
