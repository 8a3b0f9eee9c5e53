//! Whether locations have values: a read asks it of the last one, and a check of a history of what a read answered.
ghost use Rattle.std.specs.Prelude.{◌≡◌, ◌↔◌, map, IsTrue};

use asm_element::{Location, Value};
use asm_update::Lookup;

/// Return whether the location has the value.
///
/// No memory is asked for.
pub fn has_value<L: Lookup>(lookup: &L, at: &Location, value: &Value) -> bool
    ensures { IsTrue result ↔ (L.value_at lookup.now at.now ≡ value.now) }
{
    match lookup.get(at) {
        Some(held) => held == value,
        None => value.is_undef(),
    }
}

/// Return whether the locations have the values, in their order.
///
/// There are as many values as locations, each that of its location. No memory is asked for.
pub fn have_values<L: Lookup>(lookup: &L, locations: &[Location], values: &[Value]) -> bool
    ensures { IsTrue result ↔ (map (L.value_at lookup.now) locations.now ≡ values.now) }
{
    if locations.len() != values.len() {
        return false;
    }
    for (index, at) in locations.iter().enumerate() {
        if !has_value(lookup, at, &values[index]) {
            return false;
        }
    }
    true
}
