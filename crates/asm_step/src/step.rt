ghost use Rattle.std.specs.Prelude.{◌≡◌, ◌≢◌, ◌↔◌, ◌++◌, ◌∷◌, ◌≤◌, [], List, length, unwrap_or};
ghost use Rattle.std.specs.Prelude.{OnOk, OnErr, IfOk, IfErr, IfSome, IsErrOf, IsNone, Ok, Err, None, Some};
ghost use Rattle.std.specs.Bool.{OnFalse};
ghost use Rattle.std.specs.FinMap as finite;
ghost use Rattle.std.specs.Option.{option_copied, option_map};
ghost use Rattle.asm_element.specs.Value.{undef};
ghost use Rattle.asm_update.specs.Aggregator.{AggregatorLaws, Meaning};
ghost use Rattle.asm_update.specs.Fire.{Part, Old, fire};
ghost use Rattle.asm_update.specs.declared.clash.Clash.{Clash};
ghost use Rattle.asm_update.specs.Move.{Move};
ghost use Rattle.asm_update.specs.State.{State, IsProper, val};
ghost use Rattle.asm_overlay.specs.Frames.{under, seen_through, topmost};
ghost use Rattle.asm_overlay.specs.Limits.{frames_limit};
ghost use Rattle.asm_step.specs.Answer.{IsPushAnswer, IsPushAnswerOn, IsFollowedBy, IsLastOn};
ghost use Rattle.asm_step.specs.InTurn.{IsClashOfOne};
ghost use Rattle.asm_step.specs.InTurn.{fire_all, all_but_last, Agrees, DoesAll};
ghost use Rattle.asm_step.specs.Layers.{Layer, frames_of, outcomes_of, one_move, all_moves, dependencies_of, shows_below};
ghost use Rattle.asm_step.specs.Layers.{alone_in, extended, top_of, IsSound, IsStepOf};
ghost use Rattle.asm_step.specs.Next.{alone_of};
ghost use Rattle.asm_step.specs.Dependencies.{left_by, depends, sees_below, AgreesAtDependencies, AgreesIfSeen, AreThose};

use crate::error::StepError;
use crate::held::{Gathered, Held};
use crate::in_place::InPlace;
use crate::layer::{OwnLayer, move_after};
use crate::listing::{dependency_places, listing};
use crate::over::OverStep;
use crate::popped::Popped;
use asm_element::{Location, Value};
use asm_overlay::FRAMES_LIMIT;
use asm_update::{Aggregator, Instructions, Lookup};
use std::alloc::{AllocError, Global};
use std::marker::Model;

/// At most 64 pushed moves, each with any number of moves that extend it.
///
/// It borrows nothing: what is below it is passed to each call, and must be the same look-up for all. Contracts see it
/// as its layers, one for each pushed move with those that extend it, the oldest first. `IsStepOf` defines of which
/// moves it is a step, over what is below it.
#[derive(Drop)]
pub struct Step {
    pub(crate) layers: Vec<OwnLayer>,
}

impl Model for Step {
    ghost use Rattle.std.specs.Prelude.{◌≤◌, All, List, length};
    ghost use Rattle.std.specs.Coded.{coded_list};
    ghost use Rattle.std.specs.FinMap as finite;
    ghost use Rattle.asm_overlay.specs.Limits.{frames_limit};
    ghost use Rattle.asm_step.specs.Layers.{Layer, IsSound, layer_code, layers_on};
    ghost use Rattle.asm_step.specs.contracts.outcomes.Outcomes.{the_row as outcomes_row};
    ghost use Rattle.asm_update.specs.contracts.instructions.Instructions.{the_row as move_row};

    ghost Value = { List Layer };

    ghost coded = { coded_list (layer_code outcomes_row.coded move_row.coded) };

    ghost view = { λ s. layers_on finite.empty s.layers.items };

    ghost invariant = { λ s. (length s.layers.items ≤ frames_limit)
        × All IsSound (layers_on finite.empty s.layers.items) };
}

impl Step {
    /// Return the step without moves; it takes no memory.
    pub fn new(alloc: Global) -> Step
        ensures empty { result ≡ [] }
        ensures step { (part : Part) (old : Old) → IsStepOf part old result [] }
    {
        Step {
            layers: Vec::new(alloc),
        }
    }

    /// Return how many moves are pushed, at most 64; those that extend one don't count.
    pub fn depth(&self) -> usize
        ensures value { result ≡ length self.now }
        ensures within { length self.now ≤ frames_limit }
    {
        self.layers.len()
    }

    // The topmost layer, if there is one.
    pub(crate) fn top(&self) -> Option<&OwnLayer>
        ensures moves { option_map (λ y. y.moves) (option_copied result) ≡ option_map (λ y. y.moves) (top_of self.now) }
        ensures alone { option_map alone_in (option_copied result) ≡ option_map (λ y. y.alone) (top_of self.now) }
        ensures count { option_map (λ y. y.count) (option_copied result) ≡ option_map (λ y. y.count) (top_of self.now) }
    {
        self.layers.as_slice().last()
    }

    /// Push a move, and make it part of the step's one move.
    ///
    /// Its instructions are aggregated on what is seen through the step's moves. At a location that both write the two
    /// are composed; elsewhere each is unchanged. The step's first move is its one move, as it was pushed. The call
    /// costs by its own instructions: of what was pushed before, the layers are asked at its locations alone. On error,
    /// nothing changes, so a push that is refused, or is popped, is a dry run.
    ///
    /// # Errors
    /// - `Deep` exactly if 64 are pushed, before anything else.
    /// - `Clash` if the move clashes there.
    /// - `Many` if the one move would have more than 4,096 instructions.
    /// - `Memory` only if memory is refused.
    pub fn push<A: Aggregator, L: Lookup>(
        &mut self,
        alloc: Global,
        aggregator: &A,
        below: &L,
        instructions: &Instructions,
    ) -> Result<(), StepError>
        ensures step { OnOk result ((groups : List (List Move)) →
            IsStepOf (A.meaning aggregator.now).part (L.value_at below.now) self.old groups →
            IsStepOf (A.meaning aggregator.now).part (L.value_at below.now) self.new
            (groups ++ (instructions.now ∷ []) ∷ [])) }
        ensures more { OnOk result ((y : Layer) × (self.new ≡ self.old ++ y ∷ [])) }
        ensures answer { IsPushAnswer (A.meaning aggregator.now) (L.value_at below.now) self.old self.new
            instructions.now result }
        ensures answer_on { (groups : List (List Move)) (B : State) →
            IsStepOf (A.meaning aggregator.now).part (L.value_at below.now) self.old groups →
            IsProper B → Agrees B (L.value_at below.now) (all_moves groups ++ instructions.now ∷ []) →
            IsPushAnswerOn (A.meaning aggregator.now).part B self.old self.new instructions.now result }
        ensures err { OnErr result (self.new ≡ self.old) }
        ensures deep { IsErrOf result StepError.Deep ↔ (length self.old ≡ frames_limit) }
    {
        if self.depth() >= FRAMES_LIMIT {
            return Err(StepError::Deep);
        }
        let layer = self.next_layer(alloc, aggregator, below, instructions)?;
        self.layers.push(layer)?;
        Ok(())
    }

    /// Extend the move that was pushed last.
    ///
    /// What the instructions write goes into its layer, and the step is no deeper. A step without moves has one after
    /// it, as after a push. The call costs as much as a push. But one partial update of a set or a bag that the topmost
    /// layer has changed already, or of any value that it has put, is applied in place. On error, nothing changes.
    ///
    /// # Errors
    /// - Those of `push`, under the same conditions, but never `Deep`.
    pub fn extend<A: InPlace, L: Lookup>(
        &mut self,
        alloc: Global,
        aggregator: &A,
        below: &L,
        instructions: &Instructions,
    ) -> Result<(), StepError>
        ensures step { OnOk result ((groups : List (List Move)) →
            IsStepOf (A.meaning aggregator.now).part (L.value_at below.now) self.old groups →
            IsStepOf (A.meaning aggregator.now).part (L.value_at below.now) self.new
            (extended groups instructions.now)) }
        ensures instead { OnOk result ((y : Layer) × (self.new ≡ all_but_last self.old ++ y ∷ [])) }
        ensures answer { IsPushAnswer (A.meaning aggregator.now) (L.value_at below.now) self.old self.new
            instructions.now result }
        ensures answer_on { (groups : List (List Move)) (B : State) →
            IsStepOf (A.meaning aggregator.now).part (L.value_at below.now) self.old groups →
            IsProper B → Agrees B (L.value_at below.now) (all_moves groups ++ instructions.now ∷ []) →
            IsPushAnswerOn (A.meaning aggregator.now).part B self.old self.new instructions.now result }
        ensures err { OnErr result (self.new ≡ self.old) }
        ensures deep { IfErr result (λ e. ¬ (e ≡ StepError.Deep)) }
    {
        if self.top().is_none() {
            return self.push(alloc, aggregator, below, instructions);
        }
        self.take_in(alloc, aggregator, below, instructions)
    }

    /// Return the last pushed move with those that extend it, as a pop does.
    #[tactic(auto, using(crate::proofs::Layered::last_group))]
    pub fn last(&self) -> Option<&Popped>
        ensures moves { option_copied result ≡ option_map (λ y. y.moves) (top_of self.now) }
        ensures step { (part : Part) (old : Old) (groups : List (List Move)) (group : List Move) →
            IsStepOf part old self.now (groups ++ group ∷ []) → option_copied result ≡ Some group }
    {
        match self.top() {
            Some(top) => Some(&top.moves),
            None => None,
        }
    }

    /// Pop the move that was pushed last, with those that extend it.
    /// It returns them as they were given, and None if there is none. It takes no memory, and what was seen before that
    /// push is seen again.
    pub fn pop(&mut self) -> Option<Popped>
        ensures less { IfSome result (λ popped. (y : Layer) × (self.old ≡ self.new ++ y ∷ []) × (popped ≡ y.moves)) }
        ensures none { IsNone result → (self.old ≡ []) × (self.new ≡ []) }
        ensures step { (part : Part) (old : Old) (groups : List (List Move)) (group : List Move) →
            IsStepOf part old self.old (groups ++ group ∷ []) →
            (result ≡ Some group) × IsStepOf part old self.new groups }

        // On a state that has what is below, they fire in turn where the others have fired.
        ensures fires { (part : Part) (old : Old) (groups : List (List Move)) (group : List Move) (B : State) →
            IsStepOf part old self.old (groups ++ group ∷ []) → Agrees B old (all_moves (groups ++ group ∷ [])) →
            fire_all part (Ok (under B (frames_of self.new))) group ≡ Ok (under B (frames_of self.old)) }
    {
        let Some(layer) = self.layers.pop() else {
            return None;
        };
        Some(layer.moves)
    }

    // What the step's moves come to at the location: that of the topmost layer that has it.
    pub(crate) fn held(&self, at: &Location) -> Option<Held<'_>>
        ensures { result ≡ finite.get (outcomes_of self.now) at.now }
    {
        for layer in self.layers.iter().rev() {
            if let Some(held) = layer.own.get(at) {
                return Some(held);
            }
        }
        None
    }

    // The value that the step's moves write at the location, if one writes it.
    fn written(&self, at: &Location) -> Option<&Value>
        ensures { option_copied result ≡ topmost (frames_of self.now) at.now }
    {
        match self.held(at) {
            Some(held) => Some(held.value()),
            None => None,
        }
    }

    /// Return the value that the step's moves leave at the location, or the one below.
    /// `None` is the answer exactly if that is undef.
    pub fn get<'a, L: Lookup>(&'a self, below: &'a L, at: &Location) -> Option<&'a Value>
        ensures value { unwrap_or (option_copied result) undef
            ≡ seen_through (frames_of self.now) (L.value_at below.now) at.now }
        ensures none { IsNone result
            ↔ (seen_through (frames_of self.now) (L.value_at below.now) at.now ≡ undef) }

        // Over a state: the value in the state that is overwritten by each frame in turn.
        ensures overwritten { (A : State) → val A at.now ≡ L.value_at below.now at.now →
            unwrap_or (option_copied result) undef ≡ val (under A (frames_of self.now)) at.now }

        // Where all moves fire in turn on a state that has the value below, if what is seen is made from that: the value
        // that they leave there.
        ensures stands { (a : Meaning) (groups : List (List Move)) (B D : State) →
            AggregatorLaws a → IsStepOf a.part (L.value_at below.now) self.now groups →
            AgreesIfSeen B (L.value_at below.now) (all_moves groups) at.now →
            fire_all a.part (Ok B) (all_moves groups) ≡ Ok D →
            unwrap_or (option_copied result) undef ≡ val D at.now }
    {
        match self.written(at) {
            Some(value) if value.is_undef() => None,
            Some(value) => Some(value),
            None => below.get(at),
        }
    }

    /// Return the step over `below`, as a look-up.
    pub fn over<'a, L>(&'a self, below: &'a L) -> OverStep<'a, L>
        ensures { result ≡ record { frames = frames_of self.now; below = below.now } }
    {
        OverStep::new(self, below)
    }

    // What all moves come to.
    fn gathered(&self, alloc: Global) -> Result<Gathered<'_>, AllocError>
        ensures { IfOk result (λ all. all ≡ outcomes_of self.now) }
    {
        let mut all = Gathered::new(alloc);
        for layer in &self.layers {
            layer.own.gather(&mut all)?;
        }
        Ok(all)
    }

    // The move, if it is one that was pushed alone.
    #[tactic(auto, using(crate::proofs::OneMove::alone_by))]
    pub(crate) fn alone_move(&self) -> Option<&Instructions>
        ensures { option_copied result ≡ alone_of self.now }
    {
        match self.top() {
            Some(top) => top.alone(),
            None => None,
        }
    }

    // The one move.
    fn one(&self, alloc: Global) -> Result<Instructions, AllocError>
        ensures { IfOk result (λ one. one ≡ unwrap_or (one_move self.now) []) }
    {
        self.within_limit();
        match self.alone_move() {
            Some(alone) => alone.copy(alloc),
            None => listing(alloc, self.gathered(alloc)?),
        }
    }

    /// Return the one move that does what the step's moves do in turn.
    ///
    /// Without moves it has no instructions. A move that was pushed alone is unchanged. Else the instructions are
    /// listed by location, in ascending order: at each location, what the first move that writes there does, and what
    /// the next ones compose it to.
    ///
    /// On a state on which all but the last of the moves fire in turn, it does what they do, clashes of the last
    /// included. On one that has what is below at each of the `dependency_locations`, it fires exactly if all of them fire
    /// in turn, and leaves what they leave. Elsewhere it may fire where an earlier move clashes, so name these
    /// locations in its fire.
    ///
    /// # Errors
    /// - `AllocError` only if memory is refused.
    pub fn as_move(&self, alloc: Global) -> Result<Instructions, AllocError>
        ensures all { (part : Part) (old : Old) (groups : List (List Move)) →
            IsStepOf part old self.now groups → IfOk result (DoesAll part (all_moves groups)) }
        ensures fires { (part : Part) (old : Old) (groups : List (List Move)) (B : State) →
            IsStepOf part old self.now groups → IsProper B → Agrees B old (all_moves groups) →
            IfOk result (λ one. (fire part B one ≡ Ok (under B (frames_of self.now)))
            × (fire_all part (Ok B) (all_moves groups) ≡ Ok (under B (frames_of self.now)))) }
        ensures one { IfOk result (λ one. one ≡ unwrap_or (one_move self.now) []) }
        ensures stands { (a : Meaning) (old : Old) (groups : List (List Move)) (B : State) →
            AggregatorLaws a → IsStepOf a.part old self.now groups → IsProper B →
            AgreesAtDependencies B old (all_moves groups) →
            IfOk result (λ one. left_by (fire a.part B one) ≡ left_by (fire_all a.part (Ok B) (all_moves groups))) }
        ensures clash { (a : Meaning) (old : Old) (groups : List (List Move)) (B : State) (c : Clash) →
            AggregatorLaws a → IsStepOf a.part old self.now groups → IsProper B →
            AgreesAtDependencies B old (all_moves groups) →
            IfOk result (λ one. fire a.part B one ≡ Err c → IsClashOfOne a.part B (all_moves groups) c) }
    {
        self.one(alloc)
    }

    /// Return the one move that does what the step's moves and then this one do.
    /// The step is unchanged, and the move isn't aggregated: if it clashes after the others, the one move clashes.
    ///
    /// # Errors
    /// - `Clash` and `Large` if it doesn't compose with the step's moves; `Deep` never.
    /// - `Many` if more than 4,096 instructions come together.
    /// - `Memory` only if memory is refused.
    pub fn followed_by<A: Aggregator>(
        &self,
        alloc: Global,
        aggregator: &A,
        instructions: &Instructions,
    ) -> Result<Instructions, StepError>
        ensures composed { IsFollowedBy (A.meaning aggregator.now) (one_move self.now) instructions.now result }
        ensures all { (old : Old) (groups : List (List Move)) →
            IsStepOf (A.meaning aggregator.now).part old self.now groups →
            IfOk result (DoesAll (A.meaning aggregator.now).part (all_moves groups ++ instructions.now ∷ [])) }
        ensures last { (old : Old) (groups : List (List Move)) (B : State) →
            IsStepOf (A.meaning aggregator.now).part old self.now groups →
            IsProper B → Agrees B old (all_moves groups) →
            IsLastOn (A.meaning aggregator.now).part B self.now instructions.now result }
    {
        if self.top().is_none() {
            return move_after(alloc, aggregator, None, instructions);
        }
        let earlier = self.as_move(alloc)?;
        move_after(alloc, aggregator, Some(&earlier), instructions)
    }

    // Whether one of the layers has an outcome that depends on what is below.
    fn depends_somewhere(&self) -> bool
        ensures { OnFalse result (dependencies_of self.now ≡ []) }
    {
        for layer in &self.layers {
            if layer.own.depends_somewhere() {
                return true;
            }
        }
        false
    }

    /// Return the locations on whose values below the one move depends.
    ///
    /// At such a location the first of the moves that writes has partial updates alone, and a later one writes too.
    /// Each is there once, in ascending order. Moves that were popped don't count.
    ///
    /// Where one move alone writes, by partial updates, nothing has to be named: the one move has these too, and fires
    /// or clashes there as that move does.
    ///
    /// # Errors
    /// - `AllocError` only if memory is refused.
    pub fn dependency_locations(&self, alloc: Global) -> Result<Vec<Location>, AllocError>
        ensures those { (part : Part) (old : Old) (groups : List (List Move)) →
            IsStepOf part old self.now groups → IfOk result (λ ls. AreThose (depends (all_moves groups)) ls.items) }
        ensures kept { IfOk result (λ ls. ls.items ≡ dependencies_of self.now) }
    {
        if !self.depends_somewhere() {
            return Ok(Vec::new(alloc));
        }
        dependency_places(alloc, self.gathered(alloc)?)
    }

    /// Return whether what is seen at the location is made from the value below it.
    /// That location must then be named. No move writes there, or the first that does has partial updates alone.
    pub fn sees_below(&self, at: &Location) -> bool
        ensures sees { (part : Part) (old : Old) (groups : List (List Move)) →
            IsStepOf part old self.now groups → result ≡ sees_below (all_moves groups) at.now }
        ensures shows { result ≡ shows_below self.now at.now }
    {
        match self.held(at) {
            Some(held) => held.builds(),
            None => true,
        }
    }
}
