ghost use Rattle.std.specs.Prelude.{◌≡◌, ◌↔◌, IsNone, unwrap_or};
ghost use Rattle.std.specs.Option.{option_copied};
ghost use Rattle.asm_element.specs.Value.{undef};
ghost use Rattle.asm_update.specs.Fire.{Old};
ghost use Rattle.asm_update.specs.State.{val};

use crate::plain_state::PlainState;
use asm_element::{Location, Value};

/// What can be asked for the value of a location.
pub trait Lookup {
    /// The value at each location.
    ghost value_at: { Self → Old };

    /// Return the value at a location; None exactly where it is undef.
    fn get(&self, at: &Location) -> Option<&Value>
        ensures value { unwrap_or (option_copied result) undef ≡ value_at self.now at.now }
        ensures none { IsNone result ↔ (value_at self.now at.now ≡ undef) };
}

impl Lookup for PlainState {
    ghost value_at = { val };

    fn get(&self, at: &Location) -> Option<&Value> {
        PlainState::get(self, at)
    }
}
