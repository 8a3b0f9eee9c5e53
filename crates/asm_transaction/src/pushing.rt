//! Pushing moves, and extending the one that was pushed last.
ghost use Rattle.std.specs.Prelude.{◌≡◌, ◌++◌, ◌∷◌, [], IfErr, OnErr, OnOk};
ghost use Rattle.asm_storage.specs.Storage.{AgentAt};
ghost use Rattle.asm_step.specs.Layers.{extended};
ghost use Rattle.asm_step.specs.declared.error.StepError.TheVariants as step_error;
ghost use Rattle.asm_transaction.specs.Pushing.{HasPushed, HasTrackedRefusal, IsBelow, IsRefusal, IsRefused};
ghost use Rattle.asm_transaction.specs.Reading.{IsOf};
ghost use Rattle.asm_transaction.specs.View.{pushed};
ghost use Rattle.asm_transaction.specs.declared.error.PushError.TheVariants as push_error;

use crate::error::PushError;
use crate::transaction::Transaction;
use asm_state::State;
use asm_step::{InPlace, StepError};
use asm_storage::Agent;
use asm_update::{Aggregator, Instructions};
use std::alloc::Global;

impl Transaction {
    /// Push the move over the agent's own state, which is at the transaction's version; a refusal tracks nothing.
    ///
    /// # Errors
    ///
    /// - Those of `Step::push`.
    pub fn push_move<A: Aggregator>(
        &mut self,
        alloc: Global,
        aggregator: &A,
        state: &State,
        instrs: &Instructions,
    ) -> Result<(), StepError>
        ensures grown { (a : AgentAt A) → IsBelow A.meaning a aggregator.now state.now →
            a.number ≡ self.old.number → IsOf A.meaning a self.old →
            OnOk result (HasPushed A.meaning a (pushed self.old ++ (instrs.now ∷ []) ∷ []) self.new) }
        ensures refused { (a : AgentAt A) → IsBelow A.meaning a aggregator.now state.now →
            a.number ≡ self.old.number → IfErr result (IsRefusal A.meaning a self.old instrs.now) }
        ensures kept { self.new ≡ record self.old { layers = self.new.layers } }
        ensures stays { OnErr result (self.new ≡ self.old) }
    {
        self.step.push(alloc, aggregator, state, instrs)
    }

    /// Extend the last move over the agent's own state, which is at the transaction's version; a refusal tracks nothing.
    ///
    /// # Errors
    ///
    /// - Those of `Step::extend`.
    pub fn extend_last<A: InPlace>(
        &mut self,
        alloc: Global,
        aggregator: &A,
        state: &State,
        instrs: &Instructions,
    ) -> Result<(), StepError>
        ensures grown { (a : AgentAt A) → IsBelow A.meaning a aggregator.now state.now →
            a.number ≡ self.old.number → IsOf A.meaning a self.old →
            OnOk result (HasPushed A.meaning a (extended (pushed self.old) instrs.now) self.new) }
        ensures refused { (a : AgentAt A) → IsBelow A.meaning a aggregator.now state.now →
            a.number ≡ self.old.number → IfErr result (IsRefusal A.meaning a self.old instrs.now) }
        ensures deep { IfErr result (λ e. ¬ (e ≡ step_error.Deep)) }
        ensures kept { self.new ≡ record self.old { layers = self.new.layers } }
        ensures stays { OnErr result (self.new ≡ self.old) }
    {
        self.step.extend(alloc, aggregator, state, instrs)
    }

    // Push the move, over the agent's own state; track the locations of a refusal.
    pub(crate) fn push_on<A: Aggregator>(
        &mut self,
        alloc: Global,
        aggregator: &A,
        state: &State,
        instrs: &Instructions,
    ) -> Result<(), PushError>
        ensures pushed { (a : AgentAt A) → IsBelow A.meaning a aggregator.now state.now → IsOf A.meaning a self.old →
            OnOk result (HasPushed A.meaning a (pushed self.old ++ (instrs.now ∷ []) ∷ []) self.new) }
        ensures kept { OnOk result (self.new ≡ record self.old { layers = self.new.layers }) }
        ensures refused { (a : AgentAt A) → IsBelow A.meaning a aggregator.now state.now →
            IfErr result (IsRefused A.meaning a self.old instrs.now) }
        ensures tracked { IfErr result (HasTrackedRefusal instrs.now self.old self.new) }
    {
        if state.number() != self.number {
            return Err(PushError::Moved);
        }
        match self.push_move(alloc, aggregator, state, instrs) {
            Ok(()) => Ok(()),
            Err(error) => Err(self.refuse(alloc, instrs, error)),
        }
    }

    // Extend the last move, over the agent's own state; track the locations of a refusal.
    pub(crate) fn extend_on<A: InPlace>(
        &mut self,
        alloc: Global,
        aggregator: &A,
        state: &State,
        instrs: &Instructions,
    ) -> Result<(), PushError>
        ensures pushed { (a : AgentAt A) → IsBelow A.meaning a aggregator.now state.now → IsOf A.meaning a self.old →
            OnOk result (HasPushed A.meaning a (extended (pushed self.old) instrs.now) self.new) }
        ensures kept { OnOk result (self.new ≡ record self.old { layers = self.new.layers }) }
        ensures refused { (a : AgentAt A) → IsBelow A.meaning a aggregator.now state.now →
            IfErr result (IsRefused A.meaning a self.old instrs.now) }
        ensures deep { IfErr result (λ e. ¬ (e ≡ push_error.Refused step_error.Deep)) }
        ensures tracked { IfErr result (HasTrackedRefusal instrs.now self.old self.new) }
    {
        if state.number() != self.number {
            return Err(PushError::Moved);
        }
        match self.extend_last(alloc, aggregator, state, instrs) {
            Ok(()) => Ok(()),
            Err(error) => Err(self.refuse(alloc, instrs, error)),
        }
    }

    /// Push a move onto what the transaction shows.
    ///
    /// # Errors
    ///
    /// - `Moved` if the agent's own state is at another version.
    /// - `Refused` for the errors of `Step::push`, except for refused memory.
    /// - `ManyReads` if the transaction would then track more than 256 locations, scanned functions included.
    /// - `Memory` only if memory is refused.
    ///
    /// After `Refused` the transaction tracks the locations on which the refusal depends; else nothing changes.
    pub fn push<A: Aggregator + Sync + Drop>(
        &mut self,
        alloc: Global,
        aggregator: &A,
        agent: &Agent<'_, A>,
        instrs: &Instructions,
    ) -> Result<(), PushError>
        requires { aggregator.now ≡ agent.now.storage.agg }
        ensures pushed { IsOf A.meaning agent.now self.old → OnOk result (HasPushed A.meaning agent.now
            (pushed self.old ++ (instrs.now ∷ []) ∷ []) self.new) }
        ensures kept { OnOk result (self.new ≡ record self.old { layers = self.new.layers }) }
        ensures refused { IfErr result (IsRefused A.meaning agent.now self.old instrs.now) }
        ensures tracked { IfErr result (HasTrackedRefusal instrs.now self.old self.new) }
    {
        self.push_on(alloc, aggregator, agent.state(), instrs)
    }

    /// Extend the move that was pushed last, or push a first one.
    ///
    /// # Errors
    ///
    /// - Those of `push`, but never `StepError::Deep`, with the same effects.
    pub fn extend<A: InPlace + Sync + Drop>(
        &mut self,
        alloc: Global,
        aggregator: &A,
        agent: &Agent<'_, A>,
        instrs: &Instructions,
    ) -> Result<(), PushError>
        requires { aggregator.now ≡ agent.now.storage.agg }
        ensures pushed { IsOf A.meaning agent.now self.old → OnOk result (HasPushed A.meaning agent.now
            (extended (pushed self.old) instrs.now) self.new) }
        ensures kept { OnOk result (self.new ≡ record self.old { layers = self.new.layers }) }
        ensures refused { IfErr result (IsRefused A.meaning agent.now self.old instrs.now) }
        ensures deep { IfErr result (λ e. ¬ (e ≡ push_error.Refused step_error.Deep)) }
        ensures tracked { IfErr result (HasTrackedRefusal instrs.now self.old self.new) }
    {
        self.extend_on(alloc, aggregator, agent.state(), instrs)
    }
}
