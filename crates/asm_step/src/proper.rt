//! State for proofs that the moves of a step are well-formed.
ghost use Rattle.std.specs.Prelude.{All};
ghost use Rattle.asm_update.specs.Action.{IsProperInstruction};
ghost use Rattle.asm_step.specs.Popped.{AreProper};

use crate::layer::OwnLayer;
use crate::popped::Popped;
use crate::step::Step;

impl Popped {
    /// State for proofs that the moves are well-formed; do nothing at run time.
    pub fn proper(&self)
        ensures { All (All IsProperInstruction) self.now }
    {
        let (first, more) = self.moves();
        first.proper();
        for next in more {
            next.proper();
        }
    }
}

impl OwnLayer {
    /// State for proofs that its moves are well-formed; do nothing at run time.
    pub(crate) fn proper(&self)
        ensures { All (All IsProperInstruction) self.now.moves }
    {
        self.moves.proper();
    }
}

impl Step {
    /// State for proofs that all pushed moves, and those that extend them, are well-formed; do nothing at run time.
    pub fn proper(&self)
        ensures { AreProper self.now }
    {
        for layer in &self.layers {
            layer.proper();
        }
    }
}
