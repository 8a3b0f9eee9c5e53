//! The layer of a move that is next.
ghost use Rattle.std.specs.Prelude.{◌≡◌, ◌≢◌, ◌≤◌, ◌+◌, ◌++◌, ◌∷◌, [], true, false, length, Some, None, IfOk, OnErr, OnOk, if◌then◌else◌};
ghost use Rattle.std.specs.List.{flat_map};
ghost use Rattle.std.specs.Option.{option_copied, option_map};
ghost use Rattle.std.specs.FinMap as finite;
ghost use Rattle.asm_aggregate.specs.Compose.{placed};
ghost use Rattle.asm_update.specs.Action.{is_regular};
ghost use Rattle.asm_update.specs.Fire.{Old};
ghost use Rattle.asm_update.specs.Limits.{instructions_limit};
ghost use Rattle.asm_update.specs.Move.{Move};
ghost use Rattle.asm_step.specs.InTurn.{all_but_last};
ghost use Rattle.asm_step.specs.Layers.{Layer, IsSound, alone_in, behind, stacked_on, moves_of, outcomes_of, top_of};
ghost use Rattle.asm_step.specs.Next.{AreWhere, IsNext, IsOver, AreFilled, AreMarked, AreOpened, IsLayerFrom, count_of, is_first, on_top, opened_at, those};
ghost use Rattle.asm_step.specs.Next.{IsStepExtendedInPlace, IsExtensionAnswer};
ghost use Rattle.asm_step.specs.Outcomes.{acts_at, actions_in, listed, with_put};

use crate::error::StepError;
use crate::firsts::{change_layer, only_change, puts_layer, value_on};
use crate::front::one_if;
use crate::in_place::InPlace;
use crate::layer::{OwnLayer, frame_on, move_after};
use crate::listing::{push_within, within_limit};
use crate::outcomes::{Outcome, Outcomes};
use crate::own::Own;
use crate::popped::Popped;
use crate::puts::are_puts;
use crate::step::Step;
use asm_element::{Location, Value};
use asm_update::{Aggregator, INSTRUCTIONS_LIMIT, Instruction, Instructions, Lookup, UpdateSet};
use std::alloc::{AllocError, Global};

// Appends a copy of each of the instructions' actions to those at its location; how many were.
fn fill(outcomes: &mut Outcomes, instructions: &Instructions) -> Result<usize, AllocError>
    ensures filled { OnOk result (AreFilled instructions.now outcomes.old outcomes.new) }
    ensures count { IfOk result (λ n. n + length (listed outcomes.old) ≡ length (listed outcomes.new)) }
    ensures few { IfOk result (λ n. n ≤ length instructions.now) }
{
    let mut count: usize = 0;
    for instruction in instructions.as_slice() {
        let is_there = outcomes.add(&instruction.at, &instruction.action)?;
        count += one_if(is_there);
    }
    Ok(count)
}

// Notes the instruction's location, if it is a regular update.
fn mark(outcomes: &mut Outcomes, instruction: &Instruction)
    ensures { outcomes.new ≡
        if is_regular instruction.now.action then with_put instruction.now.at outcomes.old else outcomes.old }
{
    if instruction.action.family().is_some() {
        return;
    }
    outcomes.mark(&instruction.at);
}

// Notes where the instructions have regular updates.
fn mark_each(outcomes: &mut Outcomes, instructions: &Instructions)
    ensures { AreMarked instructions.now outcomes.old outcomes.new }
{
    for instruction in instructions.as_slice() {
        mark(outcomes, instruction);
    }
}

impl Step {
    // Extends the topmost layer by a move in place; whether that is done here. On error, nothing changes.
    fn extend_in_place<A: InPlace>(
        &mut self,
        alloc: Global,
        aggregator: &A,
        instructions: &Instructions,
    ) -> Result<bool, AllocError>
        requires { self.old ≢ [] }
        ensures ok { IfOk result (λ done. (old : Old) → IsStepExtendedInPlace (A.meaning aggregator.now) old self.old self.new
            instructions.now done) }
        ensures err { OnErr result (self.new ≡ self.old) }
    {
        let last = self.layers.len() - 1;
        self.layers[last].extend_in_place(alloc, aggregator, instructions)
    }

    // How many instructions the moves come to.
    pub(crate) fn count(&self) -> usize
        ensures count { result ≡ count_of self.now }
        ensures listed { count_of self.now ≡ length (listed (outcomes_of self.now)) }
        ensures few { count_of self.now ≤ instructions_limit }
    {
        // Proof: the invariant is known once a field is read.
        let _ = &self.layers;
        match self.top() {
            Some(top) => top.count,
            None => 0,
        }
    }

    // State for proofs that the moves come to at most 4,096 instructions; do nothing at run time.
    pub(crate) fn within_limit(&self)
        ensures listed { count_of self.now ≡ length (listed (outcomes_of self.now)) }
        ensures few { count_of self.now ≤ instructions_limit }
    {
        let _count = self.count();
    }

    // Appends what the moves so far do at the location.
    fn append_earlier(
        &self,
        alloc: Global,
        list: &mut Instructions,
        at: &Location,
    ) -> Result<(), AllocError>
        requires { length list.old + length (actions_in (outcomes_of self.now) at.now) ≤ instructions_limit }
        ensures { OnOk result (list.new ≡ list.old ++ placed at.now (actions_in (outcomes_of self.now) at.now)) }
    {
        match self.held(at) {
            Some(held) => held.append_to(alloc, list, at),
            None => Ok(()),
        }
    }

    // What the moves so far do at the locations of the frame.
    fn earlier_at(&self, alloc: Global, frame: &UpdateSet) -> Result<Instructions, AllocError>
        ensures { IfOk result (λ earlier. earlier
            ≡ flat_map (λ e. placed e.0 (actions_in (outcomes_of self.now) e.0)) (finite.entries frame.now)) }
    {
        self.within_limit();
        let mut list = Instructions::new(alloc);
        for (at, _) in frame.iter() {
            self.append_earlier(alloc, &mut list, at)?;
        }
        Ok(list)
    }

    // The value as an outcome without actions, over what the moves so far come to at the location.
    fn opened_at(&self, alloc: Global, at: &Location, value: Value) -> Outcome
        ensures { result ≡ opened_at (outcomes_of self.now) at.now value }
    {
        match self.held(at) {
            Some(earlier) => Outcome::new(alloc, value, earlier.builds(), earlier.builds()),
            None => Outcome::new(alloc, value, true, false),
        }
    }

    // The values of the frame as outcomes without actions.
    fn opened(&self, alloc: Global, frame: UpdateSet) -> Result<Outcomes, AllocError>
        ensures { IfOk result (λ opened. AreOpened (outcomes_of self.now) frame opened) }
    {
        let mut opened = Outcomes::new(alloc);
        for (at, value) in frame {
            let outcome = self.opened_at(alloc, &at, value);
            opened.put(at, outcome)?;
        }
        Ok(opened)
    }

    // The earlier instructions, if there are earlier moves.
    fn if_later<'a>(&self, earlier: &'a Instructions) -> Option<&'a Instructions>
        ensures { option_copied result ≡ option_map (λ _. earlier.now) (top_of self.now) }
    {
        match self.top() {
            Some(_) => Some(earlier),
            None => None,
        }
    }

    // Whether there are no moves so far.
    #[tactic(auto, using(crate::proofs::Prefixes::first_by))]
    fn is_first(&self) -> bool
        ensures { result ≡ is_first self.now }
    {
        match self.top() {
            Some(_) => false,
            None => true,
        }
    }

    // Whether the moves so far do anything at the location.
    #[tactic(auto, using(crate::proofs::Insertions::acting_nowhere, crate::proofs::Insertions::acting_there))]
    fn acts_at(&self, at: &Location) -> bool
        ensures { result ≡ acts_at (outcomes_of self.now) at.now }
    {
        match self.held(at) {
            Some(held) => held.acts(),
            None => false,
        }
    }

    // Appends a copy of the instruction to those where the moves so far do anything, or to the others.
    fn take_one(
        &self,
        alloc: Global,
        shared: &mut Instructions,
        apart: &mut Instructions,
        instruction: &Instruction,
    ) -> Result<(), AllocError>
        requires shared { length shared.old + 1 ≤ instructions_limit }
        requires apart { length apart.old + 1 ≤ instructions_limit }
        ensures shared { OnOk result (shared.new ≡ shared.old ++ those true (outcomes_of self.now) (instruction.now ∷ [])) }
        ensures apart { OnOk result (apart.new ≡ apart.old ++ those false (outcomes_of self.now) (instruction.now ∷ [])) }
    {
        let one = Instruction {
            at: instruction.at.copy(alloc)?,
            action: instruction.action.clone()?,
        };
        if self.acts_at(&instruction.at) {
            return push_within(shared, one);
        }
        push_within(apart, one)
    }

    // The instructions at the locations where the moves so far do anything, and those at the others.
    fn split(
        &self,
        alloc: Global,
        instructions: &Instructions,
    ) -> Result<(Instructions, Instructions), AllocError>
        ensures shared { IfOk result (λ parts. parts.0 ≡ those true (outcomes_of self.now) instructions.now) }
        ensures apart { IfOk result (λ parts. parts.1 ≡ those false (outcomes_of self.now) instructions.now) }
    {
        within_limit(instructions);
        let mut shared = Instructions::new(alloc);
        let mut apart = Instructions::new(alloc);
        for instruction in instructions.as_slice() {
            self.take_one(alloc, &mut shared, &mut apart, instruction)?;
        }
        Ok((shared, apart))
    }

    // The layer of the frame, from what is composed at its locations, what is separate there, and the number of
    // instructions at the others.
    fn layer_of(
        &self,
        alloc: Global,
        frame: UpdateSet,
        others: usize,
        composed: &Instructions,
        apart: &Instructions,
        instructions: &Instructions,
    ) -> Result<OwnLayer, StepError>
        requires { others ≤ instructions_limit }
        ensures { IsLayerFrom self.now frame others (composed.now ++ apart.now) instructions.now result }
    {
        let mut own = self.opened(alloc, frame)?;
        mark_each(&mut own, instructions);
        let added = fill(&mut own, composed)?;
        let more = fill(&mut own, apart)?;
        within_limit(composed);
        within_limit(apart);
        let count = others + added + more;
        if count > INSTRUCTIONS_LIMIT {
            return Err(StepError::Many);
        }
        let moves = Popped::of(alloc, instructions.copy(alloc)?);
        Ok(OwnLayer {
            own: Own::of_each(alloc, own),
            moves,
            is_alone: self.is_first(),
            count,
        })
    }

    // The layer of a first move. Puts at different locations are their own outcomes, over any look-up below them, and one
    // partial update needs no update set.
    fn first_layer<A: Aggregator, L: Lookup>(
        &self,
        alloc: Global,
        aggregator: &A,
        below: &L,
        instructions: &Instructions,
    ) -> Result<OwnLayer, StepError>
        requires { top_of self.now ≡ None }
        ensures { IsNext (A.meaning aggregator.now) (L.value_at below.now) self.now instructions.now
            (on_top self.now result) }
    {
        // Proof: the invariant is known once a field is read.
        let _ = &self.layers;
        within_limit(instructions);
        if are_puts(instructions) {
            return Ok(puts_layer(alloc, instructions)?);
        }
        if let Some(one) = only_change(instructions) {
            let value = value_on(alloc, aggregator, below, one)?;
            return Ok(change_layer(alloc, instructions, one, value)?);
        }
        let updates = frame_on(alloc, aggregator, &self.over(below), instructions)?;
        let none = Instructions::new(alloc);
        self.layer_of(alloc, updates, 0, &none, instructions, instructions)
    }

    /// Return the layer of a move over those so far, which writes these updates.
    ///
    /// Of the updates the values alone are new: what the one move does depends on their locations.
    pub(crate) fn layer_over<A: Aggregator>(
        &self,
        alloc: Global,
        aggregator: &A,
        frame: UpdateSet,
        instructions: &Instructions,
    ) -> Result<OwnLayer, StepError>
        requires { AreWhere instructions.now frame }
        ensures { IsOver (A.meaning aggregator.now) self.now instructions.now frame (on_top self.now result) }
    {
        // Proof: the invariant is known once a field is read.
        let _ = &self.layers;
        within_limit(instructions);
        let earlier = self.earlier_at(alloc, &frame)?;
        let (shared, apart) = self.split(alloc, instructions)?;
        // Proof: the sequence is promised of well-formed moves.
        earlier.proper();
        shared.proper();
        let composed = move_after(alloc, aggregator, self.if_later(&earlier), &shared)?;
        let others = self.count() - earlier.len();
        self.layer_of(alloc, frame, others, &composed, &apart, instructions)
    }

    // The layer of a move that comes after others.
    fn later_layer<A: Aggregator, L: Lookup>(
        &self,
        alloc: Global,
        aggregator: &A,
        below: &L,
        instructions: &Instructions,
    ) -> Result<OwnLayer, StepError>
        ensures { IsNext (A.meaning aggregator.now) (L.value_at below.now) self.now instructions.now
            (on_top self.now result) }
    {
        let frame = frame_on(alloc, aggregator, &self.over(below), instructions)?;
        self.layer_over(alloc, aggregator, frame, instructions)
    }

    /// Return the layer of a move that is next.
    #[tactic(auto, using(crate::proofs::Prefixes::without_top))]
    pub(crate) fn next_layer<A: Aggregator, L: Lookup>(
        &self,
        alloc: Global,
        aggregator: &A,
        below: &L,
        instructions: &Instructions,
    ) -> Result<OwnLayer, StepError>
        ensures { IsNext (A.meaning aggregator.now) (L.value_at below.now) self.now instructions.now
            (on_top self.now result) }
    {
        match self.top() {
            Some(_) => self.later_layer(alloc, aggregator, below, instructions),
            None => self.first_layer(alloc, aggregator, below, instructions),
        }
    }

    /// Let the topmost layer take in the layer of a move that extends it. On error, nothing changes.
    pub(crate) fn extend_top(&mut self, alloc: Global, next: OwnLayer) -> Result<(), AllocError>
        requires some { self.old ≢ [] }
        requires sound { IsSound (stacked_on (outcomes_of self.old) next) }
        requires one { (M : Move) × (next.moves ≡ M ∷ []) }
        requires later { alone_in next ≡ None }
        ensures ok { OnOk result (self.new ≡ all_but_last self.old
            ++ behind (moves_of self.old) (stacked_on (outcomes_of self.old) next) ∷ []) }
        ensures err { OnErr result (self.new ≡ self.old) }
    {
        let last = self.layers.len() - 1;
        self.layers[last].extend(alloc, next)?;
        Ok(())
    }

    /// Extend the topmost layer by a move, in place where that is done.
    pub(crate) fn take_in<A: InPlace, L: Lookup>(
        &mut self,
        alloc: Global,
        aggregator: &A,
        below: &L,
        instructions: &Instructions,
    ) -> Result<(), StepError>
        requires { (z : Layer) × (top_of self.old ≡ Some z) }
        ensures { IsExtensionAnswer (A.meaning aggregator.now) (L.value_at below.now) self.old self.new instructions.now result }
    {
        let done = self.extend_in_place(alloc, aggregator, instructions)?;
        if done {
            return Ok(());
        }
        let next = self.next_layer(alloc, aggregator, below, instructions)?;
        self.extend_top(alloc, next)?;
        Ok(())
    }
}
