//! What a layer has of its own moves.
ghost use Rattle.std.specs.Prelude.{◌≡◌, [], IfOk, OnOk, OnErr};
ghost use Rattle.std.specs.Bool.{OnFalse};
ghost use Rattle.std.specs.Option.{option_or};
ghost use Rattle.std.specs.FinMap as map;
ghost use Rattle.asm_element.specs.Place.{Place};
ghost use Rattle.asm_step.specs.Front.{IsExtendedInPlaceAt};
ghost use Rattle.asm_step.specs.Outcomes.{own_of, dependencies_in};

use crate::front::Growth;
use crate::held::{Gathered, Held};
use crate::in_place::InPlace;
use crate::outcomes::Outcomes;
use crate::puts::{gather_puts, held_put, outcomes_of_puts};
use asm_element::Location;
use asm_update::{Action, Instructions};
use std::alloc::{AllocError, Global};
use std::marker::Model;

/// What the moves of a layer come to, which contracts see as outcomes.
///
/// If the first move has puts at different locations alone, it is held as it was pushed: its copy takes no memory, and
/// most steps are of such a move.
#[derive(Drop)]
pub(crate) struct Own {
    /// The move, if it has such puts; there are no outcomes then.
    pub(crate) puts: Instructions,
    /// An outcome for each location, for any other moves.
    pub(crate) each: Outcomes,
}

impl Model for Own {
    ghost use Rattle.std.specs.FinMap as map;
    ghost use Rattle.asm_element.specs.Place.{location_cmp};
    ghost use Rattle.asm_element.specs.contracts.location.Location.{the_row as location_row};
    ghost use Rattle.asm_step.specs.Outcomes.{Outcome, own_of};
    ghost use Rattle.asm_step.specs.contracts.outcomes.Outcome.{the_row as outcome_row};

    ghost Value = { map.FinMap location_cmp Outcome };

    ghost coded = { map.code location_row.coded outcome_row.coded };

    ghost view = { λ s. own_of s.puts s.each };
}

impl Own {
    /// Return what a move of puts at different locations comes to.
    pub(crate) fn of_puts(alloc: Global, puts: Instructions) -> Own
        ensures { result ≡ own_of puts map.empty }
    {
        Own {
            puts,
            each: Outcomes::new(alloc),
        }
    }

    pub(crate) fn of_each(alloc: Global, each: Outcomes) -> Own
        ensures { result ≡ each }
    {
        Own {
            puts: Instructions::new(alloc),
            each,
        }
    }

    pub(crate) fn get(&self, at: &Location) -> Option<Held<'_>>
        ensures { result ≡ map.get self.now at.now }
    {
        if self.puts.is_empty() {
            return self.each.held(at);
        }
        held_put(self.puts.as_slice(), at)
    }

    /// Return whether one of the outcomes depends on what is below.
    pub(crate) fn depends_somewhere(&self) -> bool
        ensures { OnFalse result (dependencies_in self.now ≡ []) }
    {
        if self.puts.is_empty() {
            return self.each.depends_somewhere();
        }
        false
    }

    /// Give each location what this has there.
    pub(crate) fn gather<'a>(&'a self, all: &mut Gathered<'a>) -> Result<(), AllocError>
        ensures { OnOk result ((q : Place) → map.get all.new q ≡ option_or (map.get self.now q) (map.get all.old q)) }
    {
        if self.puts.is_empty() {
            return all.take(&self.each);
        }
        gather_puts(self.puts.as_slice(), all)
    }

    /// Add one partial update of a later move at the location, in place.
    ///
    /// `None` is the answer if that isn't done here. On error, nothing changes.
    #[tactic(auto, using(crate::proofs::Depending::each_gone_on_err, crate::proofs::Depending::each_gone_on_ok))]
    pub(crate) fn extend_in_place<A: InPlace>(
        &mut self,
        alloc: Global,
        aggregator: &A,
        at: &Location,
        action: &Action,
    ) -> Result<Option<Growth>, AllocError>
        ensures ok { IfOk result (IsExtendedInPlaceAt (A.meaning aggregator.now) at.now action.now self.old self.new) }
        ensures err { OnErr result (self.new ≡ self.old) }
    {
        if self.puts.is_empty() {
            return self.each.extend_in_place(alloc, aggregator, at, action);
        }
        Ok(None)
    }

    // The outcomes, laid open.
    fn into_each(self, alloc: Global) -> Result<Outcomes, AllocError>
        ensures { IfOk result (λ each. each ≡ self) }
    {
        if self.puts.is_empty() {
            return Ok(self.each);
        }
        outcomes_of_puts(alloc, self.puts.as_slice())
    }

    /// Give each location of those above what these have there.
    ///
    /// On error, nothing changes.
    pub(crate) fn take_in(&mut self, alloc: Global, above: Own) -> Result<(), AllocError>
        ensures ok { OnOk result ((q : Place) → map.get self.new q ≡ option_or (map.get above q) (map.get self.old q)) }
        ensures err { OnErr result (self.new ≡ self.old) }
    {
        let above = above.into_each(alloc)?;
        if self.puts.is_empty() {
            return self.each.take_in(alloc, above);
        }
        let mut each = outcomes_of_puts(alloc, self.puts.as_slice())?;
        each.take_in(alloc, above)?;
        *self = Own::of_each(alloc, each);
        Ok(())
    }
}
