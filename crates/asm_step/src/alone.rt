//! The one move of a step, where it is one that was pushed alone.
ghost use Rattle.std.specs.Prelude.{◌≡◌, [], unwrap_or, IfSome, List, Ok};
ghost use Rattle.std.specs.Option.{option_copied};
ghost use Rattle.asm_update.specs.Aggregator.{AggregatorLaws, Meaning};
ghost use Rattle.asm_update.specs.Fire.{Old, fire};
ghost use Rattle.asm_update.specs.Move.{Move};
ghost use Rattle.asm_update.specs.State.{State, IsProper};
ghost use Rattle.asm_step.specs.Dependencies.{left_by, AgreesAtDependencies};
ghost use Rattle.asm_step.specs.InTurn.{fire_all};
ghost use Rattle.asm_step.specs.Layers.{all_moves, one_move, IsStepOf};
ghost use Rattle.asm_step.specs.Next.{alone_of};

use crate::step::Step;
use asm_update::Instructions;

impl Step {
    /// Return the one move in place, if it is one that was pushed alone.
    ///
    /// It is what `as_move` then copies.
    pub fn as_move_in_place(&self) -> Option<&Instructions>
        ensures alone { option_copied result ≡ alone_of self.now }
        ensures one { IfSome result (λ one. one.now ≡ unwrap_or (one_move self.now) []) }
        ensures stands { (a : Meaning) (old : Old) (groups : List (List Move)) (B : State) →
            AggregatorLaws a → IsStepOf a.part old self.now groups → IsProper B →
            AgreesAtDependencies B old (all_moves groups) →
            IfSome result (λ one. left_by (fire a.part B one.now) ≡ left_by (fire_all a.part (Ok B) (all_moves groups))) }
    {
        match self.alone_move() {
            Some(one) => Some(one),
            None => None,
        }
    }
}
