//! What a layer keeps, and how its parts are made.
ghost use Rattle.std.specs.Prelude.{◌≡◌, ◌++◌, ◌∷◌, [], Some, None, IfOk, OnErr, OnOk, false};
ghost use Rattle.std.specs.FinMap as map;
ghost use Rattle.asm_element.specs.Place.{Place};
ghost use Rattle.asm_update.specs.Aggregator.{Meaning};
ghost use Rattle.asm_update.specs.Move.{Move};
ghost use Rattle.std.specs.Option.{option_copied, option_or};
ghost use Rattle.asm_step.specs.Next.{IsLayerExtendedInPlace};
ghost use Rattle.asm_step.specs.Layers.{alone_in};
ghost use Rattle.asm_step.specs.Next.{IsComposed, IsFrame};

use crate::error::StepError;
use crate::in_place::InPlace;
use crate::listing::within_limit;
use crate::own::Own;
use crate::popped::Popped;
use asm_aggregate::{ComposeError, aggregate, compose};
use asm_update::{AggError, Aggregator, INSTRUCTIONS_LIMIT, Instructions, Lookup, UpdateSet};
use std::alloc::{AllocError, Global};

/// What a pushed move and those that extend it write.
#[derive(Drop)]
pub(crate) struct OwnLayer {
    /// What all moves of the step up to here come to, where these write.
    pub(crate) own: Own,
    /// These moves, as a pop hands them back.
    pub(crate) moves: Popped,
    /// Whether the first of them is the step's one move: it was pushed alone.
    pub(crate) is_alone: bool,
    /// How many instructions all moves up to here come to.
    pub(crate) count: usize,
}

impl OwnLayer {
    /// Return the step's one move, if it is one that was pushed alone.
    pub(crate) fn alone(&self) -> Option<&Instructions>
        ensures { option_copied result ≡ alone_in self.now }
    {
        if self.is_alone {
            return Some(self.moves.moves().0);
        }
        None
    }

    /// Take in a move of one partial update in place; return whether that is done.
    ///
    /// Its location is one that these moves have written. On error, nothing changes.
    pub(crate) fn extend_in_place<A: InPlace>(
        &mut self,
        alloc: Global,
        aggregator: &A,
        instructions: &Instructions,
    ) -> Result<bool, AllocError>
        ensures ok { IfOk result (IsLayerExtendedInPlace (A.meaning aggregator.now) instructions.now self.old self.new) }
        ensures err { OnErr result (self.new ≡ self.old) }
    {
        if instructions.len() != 1 {
            return Ok(false);
        }
        let one = instructions.get(0);
        if self.count >= INSTRUCTIONS_LIMIT {
            return Ok(false);
        }
        // Proof: what is done in turn is promised of well-formed moves.
        instructions.proper();
        self.moves.push(instructions.copy(alloc)?)?;
        match self
            .own
            .extend_in_place(alloc, aggregator, &one.at, &one.action)
        {
            Ok(Some(grown)) => {
                self.is_alone = false;
                self.count = (self.count + grown.more).saturating_sub(grown.less);
                Ok(true)
            }
            Ok(None) => {
                self.moves.take_back();
                Ok(false)
            }
            Err(error) => {
                self.moves.take_back();
                Err(error)
            }
        }
    }

    /// Take in the layer of a move that extends this one.
    ///
    /// On error, nothing changes.
    pub(crate) fn extend(&mut self, alloc: Global, next: OwnLayer) -> Result<(), AllocError>
        ensures own { OnOk result ((q : Place) →
            map.get self.new.own q ≡ option_or (map.get next.own q) (map.get self.old.own q)) }
        ensures moves { OnOk result ((M : Move) → next.moves ≡ M ∷ [] → self.new.moves ≡ self.old.moves ++ M ∷ []) }
        ensures alone { OnOk result (self.new.is_alone ≡ false) }
        ensures count { OnOk result (self.new.count ≡ next.count) }
        ensures err { OnErr result (self.new ≡ self.old) }
    {
        self.moves.push(next.moves.into_first())?;
        if let Err(error) = self.own.take_in(alloc, next.own) {
            self.moves.take_back();
            return Err(error);
        }
        self.is_alone = false;
        self.count = next.count;
        Ok(())
    }
}

/// Return the update set of the instructions on what is seen.
pub(crate) fn frame_on<A: Aggregator, L: Lookup>(
    alloc: Global,
    aggregator: &A,
    seen: &L,
    instructions: &Instructions,
) -> Result<UpdateSet, StepError>
    ensures { IsFrame (A.meaning aggregator.now).part (L.value_at seen.now) instructions.now result }
{
    match aggregate(alloc, aggregator, seen, instructions) {
        Ok(frame) => Ok(frame),
        Err(AggError::Clash(clash)) => Err(StepError::Clash(clash)),
        Err(AggError::Memory) => Err(StepError::Memory),
    }
}

/// Return the instructions alone, where no others are earlier.
fn first_move(alloc: Global, instructions: &Instructions) -> Result<Instructions, StepError>
    ensures { (a : Meaning) → IsComposed a None instructions.now result }
{
    within_limit(instructions);
    Ok(instructions.copy(alloc)?)
}

/// Return the instructions that do what the earlier ones and then the next ones do.
///
/// There may be no earlier ones.
pub(crate) fn move_after<A: Aggregator>(
    alloc: Global,
    aggregator: &A,
    earlier: Option<&Instructions>,
    next: &Instructions,
) -> Result<Instructions, StepError>
    ensures { IsComposed (A.meaning aggregator.now) (option_copied earlier.entry) next.now result }
{
    let Some(earlier) = earlier else {
        return first_move(alloc, next);
    };
    match compose(alloc, aggregator, earlier, next) {
        Ok(composed) => Ok(composed),
        Err(ComposeError::Clash(clash)) => Err(StepError::Clash(clash)),
        Err(ComposeError::Large(at)) => Err(StepError::Large(at)),
        Err(ComposeError::ManyInstructions) => Err(StepError::Many),
        Err(ComposeError::Memory) => Err(StepError::Memory),
    }
}
