//! Whether a line of a journal surely has room for what it must hold: a bound, found without a spelled text.
//!
//! Each function takes what it is about from the bytes that are left. `None` means that there may be too few of them. A text may take
//! six bytes for each of its own, as an escape does, and a number takes as many as the longest of its kind.
ghost use Rattle.std.specs.Prelude.{◌≡◌, ◌≤◌, ◌+◌, IfSome, IsTrue, length, map, unwrap_or};
ghost use Rattle.std.specs.Option.{option_copied};
ghost use Rattle.std.specs.FinMap as finite;
ghost use Rattle.json.specs.Print.{quoted};
ghost use Rattle.asm_element.specs.Bag as bag;
ghost use Rattle.asm_element.specs.Place.{Place};
ghost use Rattle.asm_element.specs.Set as set;
ghost use Rattle.asm_element.specs.Value.{undef};
ghost use Rattle.asm_journal.specs.Element.{element_json_of, integer_json_of, location_json_of};
ghost use Rattle.asm_journal.specs.Instruction.{instruction_json_of, operands_of};
ghost use Rattle.asm_journal.specs.Set.{bag_json_of, count_json_of, set_json_of};
ghost use Rattle.asm_journal.specs.Shape.{number_json_of};
ghost use Rattle.asm_journal.specs.Value.{pair_json_of, value_json_of};
ghost use Rattle.asm_slots.specs.LongLines.{IsLeft, spelled, spelled_list, spelled_values};

use asm_element::{ElemBag, ElemSet, Element, Location, Value};
use asm_journal::ToText;
use asm_state::Named;
use asm_update::{Action, Instruction, Lookup, PlainState};

/// A value whose spelled length has a bound.
pub(crate) trait Bounded: ToText {
    /// Take its room.
    fn take_room(&self, left: usize) -> Option<usize>
        ensures { IfSome result (λ rest. spelled (Self.json_of self.now) + rest ≤ left) };
}

/// Take so many bytes, if there are so many.
pub(crate) fn less(left: usize, length: usize) -> Option<usize>
    ensures { IsLeft left length result }
{
    if left < length {
        return None;
    }
    Some(left - length)
}

// Take the room of a text in quotes.
fn text_room(text: &str, left: usize) -> Option<usize>
    ensures { IfSome result (λ rest. length (quoted text.now) + rest ≤ left) }
{
    let most = text.len().checked_mul(6)?;
    less(less(left, 2)?, most)
}

// Take the room of a number.
fn integer_room(_number: i64, left: usize) -> Option<usize>
    ensures { IfSome result (λ rest. spelled (integer_json_of _number) + rest ≤ left) }
{
    less(left, 20)
}

// Take the room of a number that isn't below 0.
fn number_room(_number: u32, left: usize) -> Option<usize>
    ensures { IfSome result (λ rest. spelled (number_json_of _number) + rest ≤ left) }
{
    less(left, 10)
}

// Take the room of an element.
//
// It recurses as deep as lists nest, at most 8 levels.
fn element_room(element: &Element, left: usize) -> Option<usize>
    ensures { IfSome result (λ rest. spelled (element_json_of element.now) + rest ≤ left) }
{
    match element {
        Element::Undef => less(left, 4),
        Element::Bool(_) => less(left, 5),
        Element::Num(number) => integer_room(*number, left),
        Element::Text(body) => text_room(body.as_str(), left),
        Element::List(list) => {
            let mut left = less(left, 31)?;
            for item in list.items() {
                left = element_room(item, less(left, 1)?)?;
            }
            Some(left)
        }
    }
}

impl Bounded for Element {
    fn take_room(&self, left: usize) -> Option<usize> {
        element_room(self, left)
    }
}

/// Take the room of the items of a list, each with a comma.
pub(crate) fn items_room<T: Bounded>(items: &[T], left: usize) -> Option<usize>
    ensures { IfSome result (λ rest. spelled_list (map T.json_of items.now) + rest ≤ left) }
{
    let mut left = left;
    for item in items {
        left = item.take_room(less(left, 1)?)?;
    }
    Some(left)
}

impl Bounded for Location {
    fn take_room(&self, left: usize) -> Option<usize> {
        let name = self.name();
        let behind = self.args();
        let left = text_room(name, less(left, 2)?)?;
        items_room(behind, left)
    }
}

// Take the room of the elements of a set, each with a comma.
fn elements_room(all: &ElemSet, left: usize) -> Option<usize>
    ensures { IfSome result (λ rest. spelled_list (map element_json_of (set.elements all.now)) + rest ≤ left) }
{
    let mut left = left;
    for element in all.iter() {
        left = element_room(element, less(left, 1)?)?;
    }
    Some(left)
}

// Take the room of the elements of a bag, each with its count and a comma.
fn counts_room(all: &ElemBag, left: usize) -> Option<usize>
    ensures { IfSome result (λ rest. spelled_list (map count_json_of (bag.entries all.now)) + rest ≤ left) }
{
    let mut left = left;
    for (element, count) in all.iter() {
        left = counted_room(element, *count, less(left, 4)?)?;
    }
    Some(left)
}

// Take the room of a set.
fn set_room(all: &ElemSet, left: usize) -> Option<usize>
    ensures { IfSome result (λ rest. spelled (set_json_of all.now) + rest ≤ left) }
{
    elements_room(all, less(left, 25)?)
}

// Take the room of a bag.
fn bag_room(all: &ElemBag, left: usize) -> Option<usize>
    ensures { IfSome result (λ rest. spelled (bag_json_of all.now) + rest ≤ left) }
{
    counts_room(all, less(left, 25)?)
}

impl Bounded for Value {
    fn take_room(&self, left: usize) -> Option<usize> {
        match self {
            Value::Plain(element) => element_room(element, left),
            Value::Set(all) => set_room(all, left),
            Value::Bag(all) => bag_room(all, left),
        }
    }
}

// Take the room of an element and of an amount.
fn counted_room(element: &Element, amount: u32, left: usize) -> Option<usize>
    ensures { IfSome result (λ rest. spelled (element_json_of element.now) + spelled (number_json_of amount) + rest ≤ left) }
{
    let left = element_room(element, left)?;
    number_room(amount, left)
}

// Take the room of the operands of an action, without the commas: they are at most two.
fn operands_room(action: &Action, left: usize) -> Option<usize>
    ensures { IfSome result (λ rest. spelled_list (operands_of action.now) + rest ≤ left + 2) }
{
    match action {
        Action::Regular(value) => value.take_room(left),
        Action::SetAdd(element) => element_room(element, left),
        Action::SetRemove(element) => element_room(element, left),
        Action::BagAdd(element, amount) => counted_room(element, amount.get(), left),
        Action::BagRemove(element, amount) => counted_room(element, amount.get(), left),
        Action::Increment(number) => integer_room(*number, left),
    }
}

impl Bounded for Instruction {
    fn take_room(&self, left: usize) -> Option<usize> {
        let left = self.at.take_room(less(left, 61)?)?;
        operands_room(&self.action, left)
    }
}

impl Bounded for Named {
    fn take_room(&self, left: usize) -> Option<usize> {
        let left = self.at.take_room(less(left, 3)?)?;
        number_room(self.number, left)
    }
}

// Take the room of a location and of the value there, each with a comma.
fn seen_room(at: &Location, value: Option<&Value>, left: usize) -> Option<usize>
    ensures { IfSome result (λ rest. spelled (location_json_of at.now) + 1
        + (spelled (value_json_of (unwrap_or (option_copied value.entry) undef)) + 1) + rest ≤ left) }
{
    let left = at.take_room(less(left, 2)?)?;
    match value {
        Some(value) => value.take_room(left),
        None => less(left, 4),
    }
}

/// Take the room of locations and of the values that are seen there, each with a comma.
pub(crate) fn values_room<P: HasPlace, L: Lookup>(
    seen: &L,
    places: &[P],
    left: usize,
) -> Option<usize>
    ensures { IfSome result (λ rest. spelled_values (L.value_at seen.now) (map P.place_of places.now) + rest ≤ left) }
{
    let mut left = left;
    for place in places {
        let at = place.place();
        left = seen_room(at, seen.get(at), left)?;
    }
    Some(left)
}

/// Take the room of the pairs of a state, each with a comma.
pub(crate) fn state_room(state: &PlainState, left: usize) -> Option<usize>
    ensures { IfSome result (λ rest. spelled_list (map pair_json_of (finite.entries state.now)) + rest ≤ left) }
{
    let mut left = left;
    for (at, value) in state.iter() {
        left = value.take_room(at.take_room(less(left, 4)?)?)?;
    }
    Some(left)
}

/// What has a location.
pub(crate) trait HasPlace {
    /// Its location.
    ghost place_of: { Self → Place };

    /// Return its location.
    fn place(&self) -> &Location
        ensures { result.now ≡ place_of self.now };
}

impl HasPlace for Location {
    ghost place_of = { λ l. l };

    fn place(&self) -> &Location {
        self
    }
}

impl HasPlace for Named {
    ghost place_of = { λ r. r.at };

    fn place(&self) -> &Location {
        &self.at
    }
}

impl HasPlace for Instruction {
    ghost place_of = { λ i. i.at };

    fn place(&self) -> &Location {
        &self.at
    }
}
