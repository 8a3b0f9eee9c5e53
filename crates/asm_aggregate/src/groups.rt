//! The groups of a move: what it does at each of its locations, gathered in one walk.
ghost use Rattle.std.specs.Prelude.{◌≡◌, ◌≢◌, ◌++◌, ◌∷◌, [], List, IfOk, OnOk, map as map_list, unwrap_or, true};
ghost use Rattle.std.specs.List.{list_all};
ghost use Rattle.std.specs.Option.{option_copied};
ghost use Rattle.std.specs.FinMap as map;
ghost use Rattle.asm_element.specs.Place.{Place};
ghost use Rattle.asm_element.specs.Value.{undef};
ghost use Rattle.asm_update.specs.Action.{is_partial};
ghost use Rattle.asm_update.specs.Aggregator.{IsAdmitted, IsOutcome};
ghost use Rattle.asm_update.specs.declared.action.Action.{Action};
ghost use Rattle.asm_update.specs.declared.action.Action.TheVariants.{Regular};
ghost use Rattle.asm_aggregate.specs.Bundle.{bundle_of, AreGroups, HaveRoom, by_place, with_room};
ghost use Rattle.asm_aggregate.specs.Stretch.{referred};
ghost use Rattle.asm_update.specs.Move.{Move};

use asm_element::{Location, Value};
use asm_update::{Action, Aggregator, Group, Instruction, Instructions, ResultError};
use std::alloc::{AllocError, Global};
use std::collections::BTreeMap;
use std::collections::btree_map::IntoIter;
use std::marker::Model;

/// What a move does at one location.
///
/// It has the first regular value, whether another one differs from it, and the partial updates.
#[derive(Debug, Drop)]
pub(crate) struct Bundle<'a> {
    regular: Option<&'a Value>,
    differ: bool,
    partials: Vec<Action>,
}

impl<'a> Model for Bundle<'a> {
    ghost use Rattle.std.specs.Prelude.{◌≡◌, true};
    ghost use Rattle.std.specs.List.{list_all};
    ghost use Rattle.std.specs.Option.{option_copied};
    ghost use Rattle.asm_update.specs.Action.{is_partial};
    ghost use Rattle.asm_element.specs.contracts.value.Value.{the_row as value_row};
    ghost use Rattle.asm_update.specs.contracts.action.Action.{the_row as action_row};
    ghost use Rattle.asm_aggregate.specs.Bundle.{Bundle, bundle_code};

    ghost Value = { Bundle };

    ghost coded = { bundle_code value_row.coded action_row.coded };

    ghost view = { λ b. record { regular = option_copied b.regular; differ = b.differ; partials = b.partials.items } };

    ghost invariant = { λ b. list_all is_partial b.partials.items ≡ true };
}

impl<'a> Bundle<'a> {
    fn new(alloc: Global) -> Bundle<'a>
        ensures { result ≡ bundle_of [] }
    {
        Bundle {
            regular: None,
            differ: false,
            partials: Vec::new(alloc),
        }
    }

    fn add_regular(&mut self, value: &'a Value)
        ensures { (G : List Action) → self.old ≡ bundle_of G → self.new ≡ bundle_of (G ++ Regular value.now ∷ []) }
    {
        match self.regular {
            None => self.regular = Some(value),
            Some(first) => {
                if first != value {
                    self.differ = true;
                }
            }
        }
    }

    fn add(&mut self, action: &'a Action) -> Result<(), AllocError>
        ensures { OnOk result ((G : List Action) → self.old ≡ bundle_of G →
            self.new ≡ bundle_of (G ++ action.now ∷ [])) }
    {
        match action {
            Action::Regular(value) => self.add_regular(value),
            partial => self.partials.push(partial.clone()?)?,
        }
        Ok(())
    }

    /// Return what the instructions do, as if all were at one location.
    pub(crate) fn of(
        alloc: Global,
        instructions: &[&'a Instruction],
    ) -> Result<Bundle<'a>, AllocError>
        ensures { IfOk result (λ bundle. bundle ≡ bundle_of (map_list (λ i. i.action) (referred instructions.now))) }
    {
        let mut bundle = Bundle::new(alloc);
        for instruction in instructions {
            bundle.add(&instruction.action)?;
        }
        Ok(bundle)
    }

    /// Return whether two of the regular values differ.
    pub(crate) fn differs(&self) -> bool
        ensures { result ≡ self.now.differ }
    {
        self.differ
    }

    /// Return the first regular value, if there is one.
    pub(crate) fn regular(&self) -> Option<&'a Value>
        ensures { option_copied result ≡ self.now.regular }
    {
        self.regular
    }

    /// Return the partial updates.
    pub(crate) fn partials(&self) -> &[Action]
        ensures partials { result.now ≡ self.now.partials }
        ensures partial { list_all is_partial self.now.partials ≡ true }
    {
        self.partials.as_slice()
    }

    /// Return the group of a copy of the first regular value, and the partial updates.
    pub(crate) fn into_group(self, alloc: Global) -> Result<Group, AllocError>
        requires { self.partials ≢ [] }
        ensures { IfOk result (λ group.
            group ≡ record { regular = self.entry.regular; partials = self.entry.partials }) }
    {
        let regular = match self.regular {
            Some(value) => Some(value.copy(alloc)?),
            None => None,
        };
        Ok(Group::new(regular, self.partials))
    }

    /// Return the result of the first regular value and the partial updates.
    pub(crate) fn result_by<A: Aggregator>(
        self,
        alloc: Global,
        aggregator: &A,
        old: Option<&Value>,
    ) -> Result<Value, ResultError>
        requires { self.partials ≢ [] }
        ensures { IsOutcome result
            ((A.meaning aggregator.now).part (unwrap_or (option_copied old.entry) undef)
            self.entry.regular self.entry.partials) }
    {
        aggregator.result(alloc, old, &self.into_group(alloc)?)
    }

    /// Return whether the first regular value and the partial updates have a result.
    pub(crate) fn admit_by<A: Aggregator>(
        self,
        alloc: Global,
        aggregator: &A,
        old: Option<&Value>,
    ) -> Result<(), ResultError>
        requires { self.partials ≢ [] }
        ensures { IsAdmitted result
            ((A.meaning aggregator.now).part (unwrap_or (option_copied old.entry) undef)
            self.entry.regular self.entry.partials) }
    {
        aggregator.admit(alloc, old, &self.into_group(alloc)?)
    }
}

/// What a move does at each of its locations, which contracts see as a finite map.
#[derive(Debug, Drop)]
pub(crate) struct Groups<'a> {
    tree: BTreeMap<&'a Location, Bundle<'a>>,
}

impl<'a> Model for Groups<'a> {
    ghost use Rattle.std.specs.Borrow.{Bor};
    ghost use Rattle.std.specs.FinMap as map;
    ghost use Rattle.std.specs.List.Sorted.{IsStrictlySortedBy};
    ghost use Rattle.std.specs.Map.{keys_of};
    ghost use Rattle.asm_element.specs.Place.{Place, location_cmp};
    ghost use Rattle.asm_element.specs.contracts.location.Location.{the_row as location_row};
    ghost use Rattle.asm_element.specs.contracts.value.Value.{the_row as value_row};
    ghost use Rattle.asm_update.specs.contracts.action.Action.{the_row as action_row};
    ghost use Rattle.asm_aggregate.specs.Bundle.{Bundle, bundle_code, by_place};

    ghost Value = { map.FinMap location_cmp Bundle };

    ghost coded = { map.code location_row.coded (bundle_code value_row.coded action_row.coded) };

    ghost view = { λ s. map.from_entries (by_place s.tree.entries) };

    ghost invariant = { λ s. IsStrictlySortedBy (λ (p q : Bor Place). location_cmp p.now q.now)
        (keys_of s.tree.entries) };
}

impl<'a> Groups<'a> {
    fn new(alloc: Global) -> Groups<'a>
        ensures { result ≡ map.empty }
    {
        Groups {
            tree: BTreeMap::new(alloc),
        }
    }

    fn add(&mut self, alloc: Global, instruction: &'a Instruction) -> Result<(), AllocError>
        ensures { OnOk result ((M : Move) → AreGroups M self.old → AreGroups (M ++ instruction.now ∷ []) self.new) }
    {
        let bundle = self
            .tree
            .entry(&instruction.at)?
            .or_insert(Bundle::new(alloc));
        bundle.add(&instruction.action)
    }

    /// Return the groups of the instructions, in one walk.
    pub(crate) fn of(
        alloc: Global,
        instructions: &'a Instructions,
    ) -> Result<Groups<'a>, AllocError>
        ensures { IfOk result (λ groups. AreGroups instructions.now groups) }
    {
        let mut groups = Groups::new(alloc);
        for i in 0..instructions.len() {
            groups.add(alloc, instructions.get(i))?;
        }
        Ok(groups)
    }

    /// Return the locations with what the move does there, in ascending order.
    pub(crate) fn into_entries(self) -> IntoIter<&'a Location, Bundle<'a>>
        ensures { by_place result ≡ map.entries self.entry }
    {
        self.tree.into_iter()
    }

    fn make_room_at(&mut self, alloc: Global, at: &'a Location) -> Result<(), AllocError>
        ensures { OnOk result ((l : Place) → map.get self.new l ≡ with_room at.now l (map.get self.old l)) }
    {
        if self.tree.contains_key(&at) {
            return Ok(());
        }
        self.tree.insert(at, Bundle::new(alloc))?;
        Ok(())
    }

    /// Make an empty bundle at each written location that has none.
    fn make_room(&mut self, alloc: Global, instructions: &'a Instructions) -> Result<(), AllocError>
        ensures { OnOk result ((M : Move) → AreGroups M self.old → HaveRoom M instructions.now self.new) }
    {
        for i in 0..instructions.len() {
            self.make_room_at(alloc, &instructions.get(i).at)?;
        }
        Ok(())
    }

    /// Return the groups of the first move, with room for the second.
    ///
    /// Each location that only the second writes has an empty bundle.
    pub(crate) fn with_room(
        alloc: Global,
        first: &'a Instructions,
        second: &'a Instructions,
    ) -> Result<Groups<'a>, AllocError>
        ensures { IfOk result (λ groups. HaveRoom first.now second.now groups) }
    {
        let mut groups = Groups::of(alloc, first)?;
        groups.make_room(alloc, second)?;
        Ok(groups)
    }

    /// Take out what the move does at the location: nothing if it doesn't write it.
    pub(crate) fn take(&mut self, alloc: Global, at: &'a Location) -> Bundle<'a>
        ensures taken { result ≡ unwrap_or (map.get self.old at.now) (bundle_of []) }
        ensures rest { self.new ≡ map.remove self.old at.now }
    {
        self.tree.remove(&at).unwrap_or(Bundle::new(alloc))
    }
}
