//! The answer to a step's read, as a look-up.
ghost use Rattle.std.specs.Prelude.{◌≡◌, ◌↔◌, IsNone, unwrap_or};
ghost use Rattle.std.specs.Option.{option_copied};
ghost use Rattle.asm_element.specs.Value.{undef};
ghost use Rattle.asm_play.specs.Trying.{read_value};

use asm_element::{Location, Value};
use asm_storage::Reading;
use asm_update::Lookup;

/// The values that a step read; all other locations are undef.
///
/// A step that read nothing has no reading.
#[derive(Drop)]
pub(crate) struct ReadValues<'r> {
    pub(crate) reading: Option<&'r Reading>,
}

// The value, or `None` where it is undef.
fn unless_undef(value: &Value) -> Option<&Value>
    ensures value { unwrap_or (option_copied result) undef ≡ value.now }
    ensures none { IsNone result ↔ (value.now ≡ undef) }
{
    if value.is_undef() { None } else { Some(value) }
}

impl<'r> Lookup for ReadValues<'r> {
    ghost value_at = { λ values. read_value (option_copied values.reading) };

    fn get(&self, at: &Location) -> Option<&Value> {
        let reading = self.reading?;
        for i in 0..reading.len() {
            let value = reading.value(i);
            if reading.at(i) == at {
                return unless_undef(value);
            }
        }
        None
    }
}
