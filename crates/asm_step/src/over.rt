ghost use Rattle.std.specs.Prelude.{◌≡◌, ◌↔◌, IsNone, unwrap_or};
ghost use Rattle.std.specs.Option.{option_copied};
ghost use Rattle.asm_element.specs.Value.{undef};
ghost use Rattle.asm_overlay.specs.Frames.{seen_through};
ghost use Rattle.asm_step.specs.Layers.{frames_of};

use crate::step::Step;
use asm_element::{Location, Value};
use asm_update::Lookup;
use std::marker::Model;

/// A step over a look-up for the locations that its moves don't write.
///
/// Contracts see it as the step's frames and what is below them.
#[derive(Drop)]
pub struct OverStep<'a, L> {
    step: &'a Step,
    below: &'a L,
}

impl<'a, L> Model for OverStep<'a, L> {
    ghost use Rattle.std.specs.Coded.{coded_list};
    ghost use Rattle.asm_overlay.specs.Frames.{OverView, over_code};
    ghost use Rattle.asm_step.specs.Layers.{frames_of};
    ghost use Rattle.asm_update.specs.contracts.update_set.UpdateSet.{the_row as frame_row};

    ghost Value = { OverView L };

    ghost coded = { over_code (coded_list frame_row.coded) L.code };

    ghost view = { λ o. record { frames = frames_of o.step.now; below = o.below.now } };
}

impl<'a, L> OverStep<'a, L> {
    /// Return the step over what is looked up below it.
    pub(crate) fn new(step: &'a Step, below: &'a L) -> OverStep<'a, L>
        ensures { result ≡ record { frames = frames_of step.now; below = below.now } }
    {
        OverStep { step, below }
    }
}

impl<'a, L: Lookup> Lookup for OverStep<'a, L> {
    ghost value_at = { λ over. seen_through over.frames (L.value_at over.below) };

    /// Return the value that the step's moves leave at the location.
    ///
    /// `None` is the answer exactly if that is undef.
    fn get(&self, at: &Location) -> Option<&Value>
        ensures value { unwrap_or (option_copied result) undef
            ≡ seen_through self.now.frames (L.value_at self.now.below) at.now }
        ensures none { IsNone result
            ↔ (seen_through self.now.frames (L.value_at self.now.below) at.now ≡ undef) }
    {
        self.step.get(self.below, at)
    }
}
