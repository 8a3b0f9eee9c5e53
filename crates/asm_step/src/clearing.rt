//! Emptying a step, so that its memory serves the next one.
ghost use Rattle.std.specs.Prelude.{◌≡◌, []};

use crate::step::Step;

impl Step {
    /// Drop all moves, and retain the memory of their list.
    pub fn clear(&mut self)
        ensures { self.new ≡ [] }
    {
        self.layers.clear();
    }
}
