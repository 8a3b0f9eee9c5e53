//! Popping what was pushed last.
ghost use Rattle.std.specs.Prelude.{◌≡◌, ◌≢◌, ◌≤◌, ◌+◌, ◌++◌, [], All, length, Err, Ok, IfErr, IfOk, IfSome, IsNone, OnErr};
ghost use Rattle.asm_step.specs.Layers.{moves_of as last_moves};
ghost use Rattle.asm_step.specs.Places.{AreEach, all_partial_places};
ghost use Rattle.asm_storage.specs.Limits.{reads_limit};
ghost use Rattle.asm_transaction.specs.Popping.{dependencies_last, HasPopped, HasPoppedMove, IsLastAsOne, IsNotPopped, IsOneMoveOf};
ghost use Rattle.asm_transaction.specs.Reading.{from_below, IsUntracked};
ghost use Rattle.asm_transaction.specs.Tracked.{last_partial_places};
ghost use Rattle.asm_transaction.specs.View.{places_of};

use crate::depending::dependencies_of;
use crate::error::{PopError, TransactionError};
use crate::refusing::{push_all_partials, push_partials};
use crate::transaction::Transaction;
use asm_aggregate::ComposeError;
use asm_element::Location;
use asm_state::Named;
use asm_step::Popped;
use asm_update::{Aggregator, Instructions};
use std::alloc::{AllocError, Global};

impl Transaction {
    // Return the locations at which the last pushed moves have partial updates; `None` if no move is pushed.
    fn last_partial_places(&self, alloc: Global) -> Result<Option<Vec<Location>>, AllocError>
        ensures some { IfOk result (λ o. IfSome o (λ ls. ls.items ≡ last_partial_places self.now)) }
        ensures pushed { IfOk result (λ o. IfSome o (λ ls. self.now.layers ≢ [])) }
        ensures none { IfOk result (λ o. IsNone o → self.now.layers ≡ []) }
    {
        let (first, more) = match self.step.last() {
            Some(popped) => popped.moves(),
            None => return Ok(None),
        };
        let mut all = Vec::new(alloc);
        push_partials(alloc, &mut all, first)?;
        push_all_partials(alloc, &mut all, more)?;
        Ok(Some(all))
    }

    /// Pop the move that was pushed last, with those that extend it; `None` if no move is pushed.
    ///
    /// The transaction then tracks the locations of their partial updates at which what it shows is made from the state
    /// at its version: that they fired depends on these. On error, nothing changes.
    ///
    /// # Errors
    ///
    /// - `ManyReads` if the transaction would track more than 256 locations, scanned functions included.
    /// - `Memory` only if memory is refused.
    pub fn pop(&mut self, alloc: Global) -> Result<Option<Popped>, TransactionError>
        ensures popped { IfOk result (λ o. IfSome o (λ Ms. HasPopped (all_partial_places Ms) Ms self.old self.new)) }
        ensures none { IfOk result (λ o. IsNone o → (self.old.layers ≡ [])) }
        ensures same { IfOk result (λ o. IsNone o → (self.new ≡ self.old)) }
        ensures err { IfErr result (IsUntracked (last_partial_places self.old) self.old) }
        ensures stays { OnErr result (self.new ≡ self.old) }
    {
        let Some(places) = self.last_partial_places(alloc)? else {
            return Ok(None);
        };
        let tracked = self.tracked_with(alloc, places)?;
        self.tracked = tracked;
        Ok(self.step.pop())
    }

    // Return the locations on which the last pushed moves depend by themselves.
    fn dependencies_last(&self, alloc: Global) -> Result<Vec<Location>, AllocError>
        ensures { IfOk result (λ ls. ls.items ≡ dependencies_last self.now) }
    {
        match self.step.last() {
            Some(popped) => dependencies_of(alloc, popped, self.step.dependency_locations(alloc)?),
            None => Ok(Vec::new(alloc)),
        }
    }

    // Return all tracked locations, once those are read too on which the last pushed moves depend by themselves.
    fn with_dependencies(&self, alloc: Global) -> Result<Vec<Named>, TransactionError>
        ensures all { IfOk result (λ all.
            AreEach (self.now.tracked ++ from_below self.now (dependencies_last self.now)) (places_of all.items)) }
        ensures numbers { IfOk result (λ all. All (λ r. r.number ≡ self.now.number) all.items) }
        ensures few { IfOk result (λ all. length all.items + length self.now.scanned ≤ reads_limit) }
        ensures err { IfErr result (IsUntracked (dependencies_last self.now) self.now) }
    {
        let places = self.dependencies_last(alloc)?;
        self.tracked_with(alloc, places)
    }

    // Return the one move of the last pushed moves; `None` if no move is pushed.
    fn last_as_move<A: Aggregator>(
        &self,
        alloc: Global,
        aggregator: &A,
    ) -> Result<Option<Instructions>, ComposeError>
        ensures some { IfOk result (λ o. IfSome o (IsLastAsOne (A.meaning aggregator.now) self.now)) }
        ensures pushed { IfOk result (λ o. IfSome o (λ C. self.now.layers ≢ [])) }
        ensures none { IfOk result (λ o. IsNone o → self.now.layers ≡ []) }
        ensures one { IfOk result (λ o. IfSome o (λ C.
            IsOneMoveOf (A.meaning aggregator.now) (last_moves self.now.layers) (Ok C))) }
        ensures err { IfErr result (λ e. IsOneMoveOf (A.meaning aggregator.now) (last_moves self.now.layers) (Err e)) }
    {
        // Proof: the popped moves are joined on well-formed values.
        self.step.proper();
        match self.step.last() {
            Some(popped) => Ok(Some(popped.as_move(alloc, aggregator)?)),
            None => Ok(None),
        }
    }

    /// Pop the move that was pushed last, with those that extend it, as one move; `None` if no move is pushed.
    ///
    /// The one move does what they do in turn (`Popped::as_move`). The transaction then tracks the locations on which the
    /// popped moves depend by themselves, where it depends on the state at its version. So, if the one move is pushed
    /// again, the commit has the same answer and effect as if nothing had been popped. On error, nothing changes.
    ///
    /// # Errors
    ///
    /// - `Composition` if the moves don't compose: the one move would be too long, or no well-formed state lets them fire
    ///   in turn.
    /// - `ManyReads` if the transaction would track more than 256 locations, scanned functions included.
    /// - `Memory` only if memory is refused.
    pub fn pop_move<A: Aggregator>(
        &mut self,
        alloc: Global,
        aggregator: &A,
    ) -> Result<Option<Instructions>, PopError>
        ensures popped { IfOk result (λ o. IfSome o (HasPoppedMove (A.meaning aggregator.now) self.old self.new)) }
        ensures none { IfOk result (λ o. IsNone o → (self.old.layers ≡ [])) }
        ensures same { IfOk result (λ o. IsNone o → (self.new ≡ self.old)) }
        ensures err { IfErr result (IsNotPopped (A.meaning aggregator.now) self.old) }
        ensures stays { OnErr result (self.new ≡ self.old) }
    {
        let one = match self.last_as_move(alloc, aggregator) {
            Ok(Some(one)) => one,
            Ok(None) => return Ok(None),
            Err(error) => return Err(PopError::Composition(error)),
        };
        let tracked = match self.with_dependencies(alloc) {
            Ok(tracked) => tracked,
            Err(TransactionError::ManyReads) => return Err(PopError::ManyReads),
            Err(TransactionError::Moved | TransactionError::Memory) => return Err(PopError::Memory),
        };
        self.tracked = tracked;
        self.step.pop();
        Ok(Some(one))
    }
}
