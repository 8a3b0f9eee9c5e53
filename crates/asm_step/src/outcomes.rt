//! What moves come to at each location that they write, and how more comes in.
ghost use Rattle.std.specs.Prelude.{◌≡◌, ◌≤◌, ◌+◌, ◌++◌, ◌∷◌, [], true, length, IfOk, OnOk, OnErr, IfErr, Some, None};
ghost use Rattle.std.specs.Bool.{OnFalse};
ghost use Rattle.std.specs.Option.{option_or};
ghost use Rattle.std.specs.FinMap as map;
ghost use Rattle.asm_element.specs.Place.{Place};
ghost use Rattle.asm_aggregate.specs.Compose.{placed};
ghost use Rattle.asm_update.specs.Action.{is_partial};
ghost use Rattle.asm_update.specs.Limits.{instructions_limit};
ghost use Rattle.asm_step.specs.Front.{IsExtendedInPlace, IsExtendedInPlaceAt};
ghost use Rattle.asm_step.specs.Outcomes.{Outcome, Outcomes, acts, with_action, dependencies_in, with_put, AreReplaced};

use crate::front::{Front, Growth, changed};
use crate::held::Held;
use crate::in_place::InPlace;
use crate::listing::append;
use asm_element::{Location, Value};
use asm_update::{Action, Aggregator, Instructions};
use std::alloc::{AllocError, Global};
use std::collections::BTreeMap;
use std::collections::btree_map::{IntoIter, Iter};
use std::marker::Model;
use std::mem;

/// What moves come to at a location that one of them writes.
#[derive(Drop)]
pub(crate) struct Outcome {
    /// The value that they leave there.
    value: Value,
    /// What does there what they do in turn: first this.
    front: Front,
    /// Then these, one by one.
    rest: Vec<Action>,
    /// Whether they build on the value below. They do if the first that writes there has partial updates alone.
    builds: bool,
    /// Whether they depend on it: a later one writes there too.
    depends: bool,
}

impl Model for Outcome {
    ghost use Rattle.asm_element.specs.contracts.value.Value.{the_row as value_row};
    ghost use Rattle.asm_update.specs.contracts.action.Action.{the_row as action_row};
    ghost use Rattle.std.specs.Prelude.{◌++◌};
    ghost use Rattle.asm_step.specs.Front.{IsFront, front_list};
    ghost use Rattle.asm_step.specs.Outcomes.{Outcome, outcome_code};

    ghost Value = { Outcome };

    ghost coded = { outcome_code value_row.coded action_row.coded };

    ghost view = { λ o. record {
      value = o.value;
      actions = front_list o.value o.front ++ o.rest.items;
      builds = o.builds;
      depends = o.depends;
    } };

    ghost invariant = { λ o. IsFront o.front };
}

impl Outcome {
    /// Return the value, of no actions so far.
    pub(crate) fn new(alloc: Global, value: Value, builds: bool, depends: bool) -> Outcome
        ensures { result ≡ record { value = value; actions = []; builds = builds; depends = depends } }
    {
        Outcome {
            value,
            front: Front::Nothing,
            rest: Vec::new(alloc),
            builds,
            depends,
        }
    }

    pub(crate) fn value(&self) -> &Value
        ensures { result.now ≡ self.now.value }
    {
        &self.value
    }

    /// Return whether there are actions.
    pub(crate) fn acts(&self) -> bool
        ensures { result ≡ acts self.now.actions }
    {
        self.front.acts() || !self.rest.is_empty()
    }

    pub(crate) fn builds(&self) -> bool
        ensures { result ≡ self.now.builds }
    {
        self.builds
    }

    pub(crate) fn depends(&self) -> bool
        ensures { result ≡ self.now.depends }
    {
        self.depends
    }

    pub(crate) fn add(&mut self, action: Action) -> Result<(), AllocError>
        ensures { OnOk result (self.new ≡ record self.old { actions = self.old.actions ++ action ∷ [] }) }
    {
        self.rest.push(action)?;
        Ok(())
    }

    fn mark(&mut self)
        ensures { self.new ≡ record self.old { builds = self.old.depends } }
    {
        self.builds = self.depends;
    }

    /// Append a copy of each of the actions, at the location.
    pub(crate) fn append_to(
        &self,
        alloc: Global,
        list: &mut Instructions,
        at: &Location,
    ) -> Result<(), AllocError>
        requires { length list.old + length self.now.actions ≤ instructions_limit }
        ensures { OnOk result (list.new ≡ list.old ++ placed at.now self.now.actions) }
    {
        self.front.append_to(alloc, list, at, &self.value)?;
        append(alloc, list, at, self.rest.as_slice())
    }

    // Moves the actions to the front, if there is one.
    fn fill_front(&mut self, alloc: Global) -> Result<(), AllocError>
        ensures { self.new ≡ self.old }
    {
        if let Front::Nothing = self.front {
            if let Some(front) = Front::of(alloc, &self.value, self.rest.as_slice())? {
                self.front = front;
                self.rest = Vec::new(alloc);
            }
        }
        Ok(())
    }

    // Goes on with one partial update where there are no actions so far: it is the only one then.
    #[tactic(auto, using(crate::proofs::Joined::begun))]
    fn begin<A: Aggregator>(
        &mut self,
        alloc: Global,
        aggregator: &A,
        action: &Action,
    ) -> Result<Option<Growth>, AllocError>
        requires partial { is_partial action.now ≡ true }
        requires none { self.old.actions ≡ [] }
        ensures ok { IfOk result (IsExtendedInPlace (A.meaning aggregator.now) action.now self.old self.new) }
        ensures err { OnErr result (self.new ≡ self.old) }
    {
        let rest = vec![in alloc; action.clone()?]?;
        if !changed(alloc, aggregator, &mut self.value, action)? {
            return Ok(None);
        }
        self.front = Front::Nothing;
        self.rest = rest;
        self.depends = self.builds;
        Ok(Some(Growth { more: 1, less: 0 }))
    }

    /// Add one partial update in place; return None if that isn't done here. On error, nothing changes.
    #[tactic(auto, using(crate::proofs::Joined::none_act))]
    fn extend_in_place<A: InPlace>(
        &mut self,
        alloc: Global,
        aggregator: &A,
        action: &Action,
    ) -> Result<Option<Growth>, AllocError>
        ensures ok { IfOk result (IsExtendedInPlace (A.meaning aggregator.now) action.now self.old self.new) }
        ensures err { OnErr result (self.new ≡ self.old) }
    {
        if action.family().is_none() {
            return Ok(None);
        }
        if !self.acts() {
            return self.begin(alloc, aggregator, action);
        }
        self.fill_front(alloc)?;
        if !self.rest.is_empty() {
            return Ok(None);
        }
        let grown = self.front.join(alloc, aggregator, &mut self.value, action)?;
        if grown.is_some() {
            self.depends = self.builds;
        }
        Ok(grown)
    }
}

/// Outcomes of locations, which contracts see as a finite map.
#[derive(Drop)]
pub(crate) struct Outcomes {
    tree: BTreeMap<Location, Outcome>,
}

impl Model for Outcomes {
    ghost use Rattle.std.specs.FinMap as map;
    ghost use Rattle.std.specs.List.Sorted.{IsStrictlySortedBy};
    ghost use Rattle.std.specs.Map.{keys_of};
    ghost use Rattle.asm_element.specs.Place.{location_cmp};
    ghost use Rattle.asm_element.specs.contracts.location.Location.{the_row as location_row};
    ghost use Rattle.asm_step.specs.Outcomes.{Outcome};
    ghost use Rattle.asm_step.specs.contracts.outcomes.Outcome.{the_row as outcome_row};

    ghost Value = { map.FinMap location_cmp Outcome };

    ghost coded = { map.code location_row.coded outcome_row.coded };

    ghost view = { λ s. map.from_entries s.tree.entries };

    ghost invariant = { λ s. IsStrictlySortedBy location_cmp (keys_of s.tree.entries) };
}

impl Outcomes {
    pub(crate) fn new(alloc: Global) -> Outcomes
        ensures { result ≡ map.empty }
    {
        Outcomes {
            tree: BTreeMap::new(alloc),
        }
    }

    pub(crate) fn held(&self, at: &Location) -> Option<Held<'_>>
        ensures { result ≡ map.get self.now at.now }
    {
        match self.tree.get(at) {
            Some(outcome) => Some(Held::of(outcome)),
            None => None,
        }
    }

    #[tactic(auto, using(crate::proofs::Insertions::walked))]
    pub(crate) fn iter(&self) -> Iter<'_, Location, Outcome>
        ensures { result ≡ map.entries self.now }
    {
        self.tree.iter()
    }

    /// Return whether one of the outcomes depends on what is below.
    pub(crate) fn depends_somewhere(&self) -> bool
        ensures { OnFalse result (dependencies_in self.now ≡ []) }
    {
        for (_, outcome) in self.iter() {
            if outcome.depends() {
                return true;
            }
        }
        false
    }

    /// Return how many locations there are.
    #[tactic(auto, using(crate::proofs::Insertions::so_many_in))]
    fn len(&self) -> usize
        ensures { result ≡ map.len self.now }
    {
        self.tree.len()
    }

    #[tactic(auto, using(crate::proofs::Insertions::walked))]
    fn into_entries(self) -> IntoIter<Location, Outcome>
        ensures { result ≡ map.entries self }
    {
        self.tree.into_iter()
    }

    /// Give the location this outcome. On error, nothing changes.
    #[tactic(auto, using(crate::proofs::Insertions::inserted_in))]
    pub(crate) fn put(&mut self, at: Location, outcome: Outcome) -> Result<(), AllocError>
        ensures ok { OnOk result (self.new ≡ map.insert self.old at outcome) }
        ensures err { OnErr result (self.new ≡ self.old) }
    {
        self.tree.insert(at, outcome)?;
        Ok(())
    }

    /// Append a copy of the action to those at the location. The answer is whether the location has an outcome.
    pub(crate) fn add(&mut self, at: &Location, action: &Action) -> Result<bool, AllocError>
        ensures { IfOk result (λ is_there.
            (self.new ≡ with_action at.now action.now self.old) × (is_there ≡ map.contains_key self.old at.now)) }
    {
        let action = action.clone()?;
        let Some(outcome) = self.tree.get_mut(at) else {
            return Ok(false);
        };
        outcome.add(action)?;
        Ok(true)
    }

    /// Record at an outcome a regular update of the next move, which builds on nothing.
    pub(crate) fn mark(&mut self, at: &Location)
        ensures { self.new ≡ with_put at.now self.old }
    {
        let Some(outcome) = self.tree.get_mut(at) else {
            return;
        };
        outcome.mark();
    }

    /// Add one partial update at the location in place. `None` is the answer if that isn't done here.
    pub(crate) fn extend_in_place<A: InPlace>(
        &mut self,
        alloc: Global,
        aggregator: &A,
        at: &Location,
        action: &Action,
    ) -> Result<Option<Growth>, AllocError>
        ensures ok { IfOk result (IsExtendedInPlaceAt (A.meaning aggregator.now) at.now action.now self.old self.new) }
        ensures err { OnErr result (self.new ≡ self.old) }
    {
        let Some(outcome) = self.tree.get_mut(at) else {
            return Ok(None);
        };
        outcome.extend_in_place(alloc, aggregator, action)
    }

    /// Replace the outcome of the location, and return the old one. If there is none, return this one.
    fn exchange(&mut self, at: &Location, outcome: Outcome) -> Result<Outcome, Outcome>
        ensures there { IfOk result (λ old. map.get self.old at.now ≡ Some old) }
        ensures ok { OnOk result (self.new ≡ map.insert self.old at.now outcome) }
        ensures absent { OnErr result (map.get self.old at.now ≡ None) }
        ensures handed_back { IfErr result (λ handed. handed ≡ outcome) }
        ensures err { OnErr result (self.new ≡ self.old) }
    {
        let Some(now) = self.tree.get_mut(at) else {
            return Err(outcome);
        };
        Ok(mem::replace(now, outcome))
    }

    /// Give the location this outcome, and return what it had before. On error, nothing changes.
    fn write_at(
        &mut self,
        alloc: Global,
        at: &Location,
        outcome: Outcome,
    ) -> Result<Option<Outcome>, AllocError>
        ensures before { IfOk result (λ before. before ≡ map.get self.old at.now) }
        ensures ok { OnOk result (self.new ≡ map.insert self.old at.now outcome) }
        ensures err { OnErr result (self.new ≡ self.old) }
    {
        match self.exchange(at, outcome) {
            Ok(old) => Ok(Some(old)),
            Err(outcome) => {
                self.put(at.copy(alloc)?, outcome)?;
                Ok(None)
            }
        }
    }

    #[tactic(auto, using(crate::proofs::Insertions::removed_in))]
    fn take_out(&mut self, at: &Location)
        ensures { self.new ≡ map.remove self.old at.now }
    {
        self.tree.remove(at);
    }

    /// Take the last write of a location back, which takes no memory.
    #[tactic(auto, using(crate::proofs::Insertions::exchanged, crate::proofs::Insertions::none_again))]
    fn take_back(&mut self, at: &Location, before: Option<Outcome>)
        ensures { (old : Outcomes) (w : Outcome) → before ≡ map.get old at.now →
            self.old ≡ map.insert old at.now w → self.new ≡ old }
    {
        match before {
            Some(outcome) => {
                let _ = self.exchange(at, outcome);
            }
            None => self.take_out(at),
        }
    }

    /// Take writes back by what they replaced, the last one first.
    fn take_all_back(&mut self, mut replaced: Vec<(Location, Option<Outcome>)>)
        ensures { (old : Outcomes) → AreReplaced replaced.items old self.old → self.new ≡ old }
    {
        while let Some((at, before)) = replaced.pop() {
            self.take_back(&at, before);
        }
    }

    /// Give each location of the outcomes above what these have there. On error, nothing changes.
    pub(crate) fn take_in(&mut self, alloc: Global, above: Outcomes) -> Result<(), AllocError>
        ensures ok { OnOk result ((q : Place) → map.get self.new q ≡ option_or (map.get above q) (map.get self.old q)) }
        ensures err { OnErr result (self.new ≡ self.old) }
    {
        let mut replaced = Vec::with_capacity(alloc, above.len())?;
        for (at, outcome) in above.into_entries() {
            match self.write_at(alloc, &at, outcome) {
                Ok(before) => replaced.push_reserved((at, before)),
                Err(error) => {
                    self.take_all_back(replaced);
                    return Err(error);
                }
            }
        }
        Ok(())
    }
}
