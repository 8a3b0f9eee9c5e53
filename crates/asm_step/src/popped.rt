//! A pushed move with those that extend it.
ghost use Rattle.std.specs.Prelude.{◌≡◌, ◌≢◌, ◌++◌, ◌∷◌, [], IfOk, List, OnErr, OnOk};
ghost use Rattle.asm_update.specs.Fire.{Old};
ghost use Rattle.asm_update.specs.Move.{Move};
ghost use Rattle.asm_step.specs.Layers.{IsStepOf, Layer};
ghost use Rattle.asm_step.specs.Popped.{AreProper, IsAsOne, IsOneOf, IsPushedAgain, KeepsTurns};

use crate::step::Step;
use asm_aggregate::ComposeError;
use asm_update::{Aggregator, Instructions};
use std::alloc::{AllocError, Global};
use std::marker::Model;

/// A move that was pushed, with those that extend it, each unchanged given.
///
/// Contracts see it as these moves, in turn.
#[derive(Drop)]
pub struct Popped {
    first: Instructions,
    // It takes no memory while nothing extends the first one.
    more: Vec<Instructions>,
}

impl Model for Popped {
    ghost use Rattle.std.specs.Prelude.{List, ◌∷◌};
    ghost use Rattle.std.specs.Coded.{coded_list};
    ghost use Rattle.asm_update.specs.Move.{Move};
    ghost use Rattle.asm_update.specs.contracts.instructions.Instructions.{the_row as move_row};

    ghost Value = { List Move };

    ghost coded = { coded_list move_row.coded };

    ghost view = { λ p. p.first ∷ p.more.items };
}

impl Popped {
    /// Return a single move, which nothing extends.
    pub(crate) fn of(alloc: Global, first: Instructions) -> Popped
        ensures { result ≡ first ∷ [] }
    {
        Popped {
            first,
            more: Vec::new(alloc),
        }
    }

    /// Return the first one, which was pushed, by value.
    pub(crate) fn into_first(self) -> Instructions
        ensures { (M : Move) (Ms : List Move) → self ≡ M ∷ Ms → result ≡ M }
    {
        self.first
    }

    /// Take in one that extends them.
    ///
    /// On error, nothing changes.
    pub(crate) fn push(&mut self, next: Instructions) -> Result<(), AllocError>
        ensures some { self.old ≢ [] }
        ensures ok { OnOk result (self.new ≡ self.old ++ next ∷ []) }
        ensures err { OnErr result (self.new ≡ self.old) }
    {
        self.more.push(next)?;
        Ok(())
    }

    /// Take the last one that extends them away.
    pub(crate) fn take_back(&mut self)
        ensures { (Ms : List Move) (M : Move) → Ms ≢ [] → self.old ≡ Ms ++ M ∷ [] → self.new ≡ Ms }
    {
        self.more.pop();
    }

    /// Return the moves, in turn: the one that was pushed, and those that extend it.
    pub fn moves(&self) -> (&Instructions, &[Instructions])
        ensures { self.now ≡ result.0.now ∷ result.1.now }
    {
        (&self.first, self.more.as_slice())
    }

    // Return a step that has the one move of these.
    fn as_one<A: Aggregator>(&self, alloc: Global, aggregator: &A) -> Result<Step, ComposeError>
        ensures { IsAsOne (A.meaning aggregator.now) self.now result }
    {
        let mut step = Step::new(alloc);
        step.join(alloc, aggregator, &self.first)?;
        for next in &self.more {
            step.join(alloc, aggregator, next)?;
        }
        Ok(step)
    }

    /// Return the one move that does what these do in turn.
    ///
    /// If nothing extends the first one, it is the answer itself. Else the answer is by location, in ascending order. At
    /// a location that one of them alone writes it has the same updates, even if they change nothing. Where several
    /// write, it has what these compose to. So the step itself makes its one move. The call costs by the moves' own
    /// instructions.
    ///
    /// On a state on which all but the last of them fire in turn, it does what they do, clashes of the last included.
    /// On others nothing is promised, as with any composition. Pushed again in their place, it leaves the step what it
    /// is, on each state that has what is below wherever the step depends on it.
    ///
    /// # Errors
    ///
    /// - `Clash` and `Large` only if no state lets them fire in turn, so never for moves that were pushed over a state.
    /// - `ManyInstructions` if the first ones of them come to more than 4,096 instructions.
    /// - `Memory` only if memory is refused.
    pub fn as_move<A: Aggregator>(
        &self,
        alloc: Global,
        aggregator: &A,
    ) -> Result<Instructions, ComposeError>
        ensures one { IsOneOf (A.meaning aggregator.now) self.now result }
        ensures turns { KeepsTurns (A.meaning aggregator.now).part self.now result }
        ensures again { IfOk result (λ one. (old : Old) (s : List Layer) (groups : List (List Move)) →
            IsStepOf (A.meaning aggregator.now).part old s (groups ++ self.now ∷ []) → AreProper s →
            IsPushedAgain (A.meaning aggregator.now) old s groups self.now one) }
    {
        let (first, more) = self.moves();
        if more.is_empty() {
            return Ok(first.copy(alloc)?);
        }
        let step = self.as_one(alloc, aggregator)?;
        Ok(step.as_move(alloc)?)
    }
}
