//! What moves come to at a location, in either form, and at all locations together.
ghost use Rattle.std.specs.Prelude.{◌≡◌, ◌≤◌, ◌+◌, ◌++◌, OnOk, length};
ghost use Rattle.asm_aggregate.specs.Compose.{placed};
ghost use Rattle.asm_update.specs.Limits.{instructions_limit};
ghost use Rattle.asm_step.specs.Outcomes.{acts, put_outcome};
ghost use Rattle.std.specs.Option.{option_or};
ghost use Rattle.asm_aggregate.specs.Bundle.{by_place};
ghost use Rattle.asm_element.specs.Place.{Place};
ghost use Rattle.std.specs.FinMap as map;

use crate::listing::push_put;
use crate::outcomes::{Outcome, Outcomes};
use asm_element::{Location, Value};
use asm_update::Instructions;
use std::alloc::{AllocError, Global};
use std::collections::BTreeMap;
use std::collections::btree_map::IntoIter;
use std::marker::Model;

/// An outcome, or a put in its place; contracts see it as the outcome.
#[derive(Drop)]
pub(crate) struct Held<'a> {
    /// The value that is put, where there is no outcome.
    value: &'a Value,
    outcome: Option<&'a Outcome>,
}

impl<'a> Model for Held<'a> {
    ghost use Rattle.std.specs.Option.{option_map_or};
    ghost use Rattle.asm_element.specs.contracts.value.Value.{the_row as value_row};
    ghost use Rattle.asm_update.specs.contracts.action.Action.{the_row as action_row};
    ghost use Rattle.asm_step.specs.Outcomes.{Outcome, outcome_code, put_outcome};

    ghost Value = { Outcome };

    ghost coded = { outcome_code value_row.coded action_row.coded };

    ghost view = { λ h. option_map_or (λ o. o.now) h.outcome (put_outcome h.value.now) };
}

impl<'a> Held<'a> {
    /// Return the outcome of a put of the value that is the first to write.
    pub(crate) fn of_put(value: &'a Value) -> Held<'a>
        ensures { result ≡ put_outcome value.now }
    {
        Held {
            value,
            outcome: None,
        }
    }

    /// Return the outcome itself.
    pub(crate) fn of(outcome: &'a Outcome) -> Held<'a>
        ensures { result ≡ outcome.now }
    {
        Held {
            value: outcome.value(),
            outcome: Some(outcome),
        }
    }

    /// Return the value that is left there.
    pub(crate) fn value(&self) -> &'a Value
        ensures { result.now ≡ self.now.value }
    {
        match self.outcome {
            Some(outcome) => outcome.value(),
            None => self.value,
        }
    }

    /// Return whether there are actions.
    pub(crate) fn acts(&self) -> bool
        ensures { result ≡ acts self.now.actions }
    {
        match self.outcome {
            Some(outcome) => outcome.acts(),
            None => true,
        }
    }

    /// Return whether it builds on the value below.
    pub(crate) fn builds(&self) -> bool
        ensures { result ≡ self.now.builds }
    {
        match self.outcome {
            Some(outcome) => outcome.builds(),
            None => false,
        }
    }

    /// Return whether it depends on that.
    pub(crate) fn depends(&self) -> bool
        ensures { result ≡ self.now.depends }
    {
        match self.outcome {
            Some(outcome) => outcome.depends(),
            None => false,
        }
    }

    /// Append a copy of each of the actions, at the location.
    pub(crate) fn append_to(
        &self,
        alloc: Global,
        list: &mut Instructions,
        at: &Location,
    ) -> Result<(), AllocError>
        requires { length list.old + length self.now.actions ≤ instructions_limit }
        ensures { OnOk result (list.new ≡ list.old ++ placed at.now self.now.actions) }
    {
        match self.outcome {
            Some(outcome) => outcome.append_to(alloc, list, at),
            None => push_put(alloc, list, at, self.value),
        }
    }
}

/// What moves come to at each location that one of them writes.
///
/// Contracts see it as a finite map.
#[derive(Drop)]
pub(crate) struct Gathered<'a> {
    tree: BTreeMap<&'a Location, Held<'a>>,
}

impl<'a> Model for Gathered<'a> {
    ghost use Rattle.std.specs.Borrow.{Bor};
    ghost use Rattle.std.specs.FinMap as map;
    ghost use Rattle.std.specs.List.Sorted.{IsStrictlySortedBy};
    ghost use Rattle.std.specs.Map.{keys_of};
    ghost use Rattle.asm_aggregate.specs.Bundle.{by_place};
    ghost use Rattle.asm_element.specs.Place.{Place, location_cmp};
    ghost use Rattle.asm_element.specs.contracts.location.Location.{the_row as location_row};
    ghost use Rattle.asm_step.specs.Outcomes.{Outcome};
    ghost use Rattle.asm_step.specs.contracts.outcomes.Outcome.{the_row as outcome_row};

    ghost Value = { map.FinMap location_cmp Outcome };

    ghost coded = { map.code location_row.coded outcome_row.coded };

    ghost view = { λ s. map.from_entries (by_place s.tree.entries) };

    ghost invariant = { λ s. IsStrictlySortedBy (λ (p q : Bor Place). location_cmp p.now q.now)
        (keys_of s.tree.entries) };
}

impl<'a> Gathered<'a> {
    pub(crate) fn new(alloc: Global) -> Gathered<'a>
        ensures { result ≡ map.empty }
    {
        Gathered {
            tree: BTreeMap::new(alloc),
        }
    }

    /// Give the location what is held.
    #[tactic(auto, using(crate::proofs::Insertions::put_in))]
    pub(crate) fn put(&mut self, at: &'a Location, held: Held<'a>) -> Result<(), AllocError>
        ensures { OnOk result (self.new ≡ map.insert self.old at.now held.entry) }
    {
        self.tree.insert(at, held)?;
        Ok(())
    }

    /// Give each location of the outcomes above what these have there.
    pub(crate) fn take(&mut self, above: &'a Outcomes) -> Result<(), AllocError>
        ensures { OnOk result ((q : Place) → map.get self.new q ≡ option_or (map.get above.now q) (map.get self.old q)) }
    {
        for (at, outcome) in above.iter() {
            self.put(at, Held::of(outcome))?;
        }
        Ok(())
    }

    /// Return the locations with what is held there, in ascending order.
    pub(crate) fn into_entries(self) -> IntoIter<&'a Location, Held<'a>>
        ensures { by_place result ≡ map.entries self.entry }
    {
        self.tree.into_iter()
    }
}
