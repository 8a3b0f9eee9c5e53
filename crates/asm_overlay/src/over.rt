ghost use Rattle.std.specs.Prelude.{◌≡◌, ◌↔◌, IsNone, unwrap_or};
ghost use Rattle.std.specs.Option.{option_copied};
ghost use Rattle.asm_element.specs.Value.{undef};
ghost use Rattle.asm_update.specs.State.{State, val};
ghost use Rattle.asm_overlay.specs.Frames.{under, seen_through};

use crate::overlay::{Overlay, Seen};
use asm_element::{Location, Value};
use asm_update::Lookup;
use std::marker::Model;

/// An overlay over a look-up for the locations that no frame has.
///
/// Contracts see it as the overlay's frames and what is below them.
#[derive(Drop)]
pub struct Over<'a, L> {
    overlay: &'a Overlay,
    below: &'a L,
}

impl<'a, L> Model for Over<'a, L> {
    ghost use Rattle.std.specs.Coded.{coded_list};
    ghost use Rattle.asm_overlay.specs.Frames.{OverView, over_code};
    ghost use Rattle.asm_update.specs.contracts.update_set.UpdateSet.{the_row as frame_row};

    ghost Value = { OverView L };

    ghost coded = { over_code (coded_list frame_row.coded) L.code };

    ghost view = { λ o. record { frames = o.overlay.now; below = o.below.now } };
}

impl<'a, L> Over<'a, L> {
    /// Return the overlay over what is looked up below it.
    pub fn new(overlay: &'a Overlay, below: &'a L) -> Over<'a, L>
        ensures { result ≡ record { frames = overlay.now; below = below.now } }
    {
        Over { overlay, below }
    }
}

impl<'a, L: Lookup> Lookup for Over<'a, L> {
    ghost value_at = { λ over. seen_through over.frames (L.value_at over.below) };

    /// Return the value of the topmost frame that has the location, else the one below.
    ///
    /// `None` is the answer exactly if that is undef.
    fn get(&self, at: &Location) -> Option<&Value>
        ensures value { unwrap_or (option_copied result) undef
            ≡ seen_through self.now.frames (L.value_at self.now.below) at.now }
        ensures none { IsNone result
            ↔ (seen_through self.now.frames (L.value_at self.now.below) at.now ≡ undef) }

        // Over a state: the value in the state that is overwritten by each frame in turn.
        ensures overwritten { (A : State) → val A at.now ≡ L.value_at self.now.below at.now →
            unwrap_or (option_copied result) undef ≡ val (under A self.now.frames) at.now }
    {
        match self.overlay.get(at) {
            Seen::Held(value) if value.is_undef() => None,
            Seen::Held(value) => Some(value),
            Seen::Below => self.below.get(at),
        }
    }
}
