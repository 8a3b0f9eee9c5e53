//! Whether the line of a fire is surely short, by a look at each of its operands.
//!
//! It adds nothing up, so that a usual step costs little more than the look. A text is short with at most 1,000 bytes, a list never.
ghost use Rattle.std.specs.Prelude.{◌≤◌, ◌+◌, All, IsTrue, ℕ, length};
ghost use Rattle.json.specs.Print.{quoted};
ghost use Rattle.asm_journal.specs.Element.{element_json_of, integer_json_of};
ghost use Rattle.asm_journal.specs.Instruction.{operands_of};
ghost use Rattle.asm_journal.specs.Shape.{number_json_of};
ghost use Rattle.asm_journal.specs.Value.{value_json_of};
ghost use Rattle.asm_slots.specs.LongLines.{IsLongFire, spelled, spelled_list};
ghost use Rattle.asm_slots.specs.LongLines.{short_element, short_instruction, short_operands, short_place, short_read};

use asm_element::{Element, Location, Value};
use asm_journal::ToText;
use asm_state::Named;
use asm_update::{Action, Instruction};

/// The most bytes of a short text.
const SHORT_TEXT: usize = 1_000;

/// The most instructions of a fire that is looked at.
const SHORT_MOVE: usize = 4_096;

/// The most reads of a fire that is looked at.
const SHORT_READS: usize = 256;

/// A value that a look can find short.
trait Short: ToText {
    /// The most bytes of a short one, spelled.
    ghost most: { ℕ };

    /// Return whether it is surely short.
    fn is_short(&self) -> bool
        ensures { IsTrue result → spelled (Self.json_of self.now) ≤ most };
}

// Return whether all items are surely short.
fn are_short<T: Short>(items: &[T]) -> bool
    ensures { IsTrue result → All (λ x. spelled (T.json_of x) ≤ T.most) items.now }
{
    for item in items {
        if !item.is_short() {
            return false;
        }
    }
    true
}

// State for proofs that a number is short; do nothing at run time.
fn short_integer(_number: i64)
    ensures { spelled (integer_json_of _number) ≤ 20 }
{}

// State for proofs that a number that isn't below 0 is short; do nothing at run time.
fn short_number(_number: u32)
    ensures { spelled (number_json_of _number) ≤ 10 }
{}

// Return whether a text is short.
fn is_short_text(text: &str) -> bool
    ensures { IsTrue result → length (quoted text.now) ≤ short_element }
{
    text.len() <= SHORT_TEXT
}

impl Short for Element {
    ghost most = { short_element };

    fn is_short(&self) -> bool {
        match self {
            Element::Undef => true,
            Element::Bool(_) => true,
            Element::Num(number) => {
                short_integer(*number);
                true
            }
            Element::Text(body) => is_short_text(body.as_str()),
            Element::List(_) => false,
        }
    }
}

impl Short for Location {
    ghost most = { short_place };

    fn is_short(&self) -> bool {
        // Proof: a name has at most 64 bytes.
        let _name = self.name();
        let behind = self.args();
        are_short(behind)
    }
}

// Return whether a value is a short element.
fn is_short_value(value: &Value) -> bool
    ensures { IsTrue result → spelled (value_json_of value.now) ≤ short_element }
{
    match value {
        Value::Plain(element) => element.is_short(),
        Value::Set(_) => false,
        Value::Bag(_) => false,
    }
}

// Return whether an element that has an amount is short.
fn is_short_counted(element: &Element, amount: u32) -> bool
    ensures { IsTrue result → spelled (element_json_of element.now) + spelled (number_json_of amount) ≤ short_element + 10 }
{
    short_number(amount);
    element.is_short()
}

// Return whether the operands of an action are short.
fn are_short_operands(action: &Action) -> bool
    ensures { IsTrue result → spelled_list (operands_of action.now) ≤ short_operands }
{
    match action {
        Action::Regular(value) => is_short_value(value),
        Action::SetAdd(element) => element.is_short(),
        Action::SetRemove(element) => element.is_short(),
        Action::BagAdd(element, amount) => is_short_counted(element, amount.get()),
        Action::BagRemove(element, amount) => is_short_counted(element, amount.get()),
        Action::Increment(number) => {
            short_integer(*number);
            true
        }
    }
}

impl Short for Instruction {
    ghost most = { short_instruction };

    fn is_short(&self) -> bool {
        if !are_short_operands(&self.action) {
            return false;
        }
        self.at.is_short()
    }
}

impl Short for Named {
    ghost most = { short_read };

    fn is_short(&self) -> bool {
        short_number(self.number);
        self.at.is_short()
    }
}

/// Return whether a fire is of so few and so short instructions and reads that its line surely isn't too long.
pub(crate) fn is_of_short(reads: &[Named], instrs: &[Instruction]) -> bool
    ensures { IsTrue result → ¬ IsLongFire reads.now instrs.now }
{
    if reads.len() > SHORT_READS || instrs.len() > SHORT_MOVE {
        return false;
    }
    if !are_short(reads) {
        return false;
    }
    are_short(instrs)
}
