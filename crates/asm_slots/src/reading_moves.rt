//! The instructions of a move in a slot, one by one.
ghost use Rattle.std.specs.Prelude.{◌≡◌, ◌++◌, pos, string_bytes, IfErr, IfOk, MatchResult, OnErr, OnOk};
ghost use Rattle.asm_element.specs.declared.value.Value.TheVariants as values;
ghost use Rattle.asm_update.specs.Action.{content_of as operand_in};
ghost use Rattle.asm_slots.specs.Answers.{IsMemory};
ghost use Rattle.asm_slots.specs.Kinds.{IsAmount, bytes_of, kind_of, number_of, verb_of};
ghost use Rattle.asm_slots.specs.ReadMoves.{DoesNotReadAt, HasAt, IsHeadOf, IsInstructionBy, IsNoHead, IsNoneAt, ReadsAt};
ghost use Rattle.asm_slots.specs.ReadMoves.{instruction_text, place_text};
ghost use Rattle.asm_slots.specs.Slots.{content_of};
ghost use Rattle.asm_slots.specs.WrittenText.{HasNoText, HasText};

use crate::codes::{Code, write};
use crate::lend;
use crate::operands::{ADD, BAGADD, BAGREMOVE, INC, PUT, REMOVE};
use crate::slot::Slot;
use crate::value_head::{NUM, ValueHead};
use asm_element::{Element, Location, Value};
use asm_journal::ToText;
use asm_update::{Action, Instruction, Instructions};
use std::alloc::{AllocError, Global};

/// An instruction without its texts, by the words that `asm_instruct` takes.
#[repr(C)]
#[derive(Drop)]
pub struct InstructionHead {
    /// What it does.
    pub verb: i32,
    /// How many a bag gets or loses, and 0 of any other verb.
    pub amount: u32,
    /// The kind of the operand.
    pub kind: i32,
    /// The number of the operand, as of a value.
    pub number: i64,
    /// How many of the bytes that are written are the location's; those of the operand follow.
    pub place: usize,
}

impl InstructionHead {
    pub fn none() -> InstructionHead
        ensures { IsNoHead result }
    {
        InstructionHead {
            verb: 0,
            amount: 0,
            kind: 0,
            number: 0,
            place: 0,
        }
    }
}

// Return the verb of the action.
fn verb_of(action: &Action) -> i32
    ensures { result ≡ verb_of action.now }
{
    match action {
        Action::Regular(_) => PUT,
        Action::SetAdd(_) => ADD,
        Action::SetRemove(_) => REMOVE,
        Action::BagAdd(_, _) => BAGADD,
        Action::BagRemove(_, _) => BAGREMOVE,
        Action::Increment(_) => INC,
    }
}

// Return how many a bag gets or loses, and 0 of any other action.
fn amount_of(action: &Action) -> u32
    ensures { IsAmount action.now result }
{
    match action {
        Action::BagAdd(_, amount) | Action::BagRemove(_, amount) => amount.get(),
        _ => 0,
    }
}

// Return the operand without its bytes.
fn operand_head(action: &Action) -> ValueHead
    ensures kind { result.kind ≡ kind_of (operand_in action.now) }
    ensures number { result.number ≡ number_of (operand_in action.now) }
{
    match action {
        Action::Regular(value) => ValueHead::of(value),
        Action::SetAdd(element)
        | Action::SetRemove(element)
        | Action::BagAdd(element, _)
        | Action::BagRemove(element, _) => ValueHead::of_element(element),
        Action::Increment(number) => ValueHead {
            kind: NUM,
            number: *number,
        },
    }
}

// Append the bytes of an element.
fn push_element(alloc: Global, text: &mut String, element: &Element) -> Result<(), AllocError>
    ensures { OnOk result (string_bytes text.new ≡ string_bytes text.old ++ bytes_of (values.Plain element.now)) }
{
    match element {
        Element::Text(body) => text.push_str(body.as_str()),
        Element::List(_) => element.push_text(alloc, text),
        _ => Ok(()),
    }
}

// Append the bytes of a value.
fn push_value(alloc: Global, text: &mut String, value: &Value) -> Result<(), AllocError>
    ensures { OnOk result (string_bytes text.new ≡ string_bytes text.old ++ bytes_of value.now) }
{
    match value {
        Value::Plain(element) => push_element(alloc, text, element),
        Value::Set(_) | Value::Bag(_) => value.push_text(alloc, text),
    }
}

// Append the bytes of the operand.
fn push_operand(alloc: Global, text: &mut String, action: &Action) -> Result<(), AllocError>
    ensures { OnOk result (string_bytes text.new ≡ string_bytes text.old ++ bytes_of (operand_in action.now)) }
{
    match action {
        Action::Regular(value) => push_value(alloc, text, value),
        Action::SetAdd(element)
        | Action::SetRemove(element)
        | Action::BagAdd(element, _)
        | Action::BagRemove(element, _) => push_element(alloc, text, element),
        Action::Increment(_) => Ok(()),
    }
}

fn place_text(alloc: Global, at: &Location) -> Result<String, AllocError>
    ensures { IfOk result (λ text. string_bytes text ≡ place_text at.now) }
{
    let mut text = String::with_capacity(alloc, 64)?;
    at.push_text(alloc, &mut text)?;
    Ok(text)
}

// Write the location, and behind it the bytes of the operand; return the rest of the instruction.
fn write_instruction(
    alloc: Global,
    instruction: &Instruction,
    out: &mut [u8],
    written: &mut usize,
) -> Result<InstructionHead, Code>
    requires { written.old ≡ 0 }
    ensures ok { IfOk result (λ head. HasText (IsInstructionBy instruction.now head) out.old out.new written.new) }
    ensures err { IfErr result
        (HasNoText (λ text. text ≡ instruction_text instruction.now) IsMemory out.old out.new written.new) }
{
    let mut text = place_text(alloc, &instruction.at)?;
    let place = text.len();
    let action = &instruction.action;
    push_operand(alloc, &mut text, action)?;
    write(text.as_bytes(), out, written)?;
    let operand = operand_head(action);
    Ok(InstructionHead {
        verb: verb_of(action),
        amount: amount_of(action),
        kind: operand.kind,
        number: operand.number,
        place,
    })
}

// Write the instruction at this place of the move.
fn write_at(
    alloc: Global,
    gathered: &Instructions,
    number: u32,
    out: &mut [u8],
    written: &mut usize,
) -> Result<InstructionHead, Code>
    requires { written.old ≡ 0 }
    ensures ok { IfOk result (λ head. HasText
        (λ text. HasAt number gathered.now (λ i. IsInstructionBy i head text)) out.old out.new written.new) }
    ensures err { IfErr result (HasNoText (λ text. HasAt number gathered.now (λ i. text ≡ instruction_text i))
        (IsNoneAt number gathered.now) out.old out.new written.new) }
{
    let Some(instruction) = gathered.as_slice().get(number as usize) else {
        return Err(Code::NoInstruction);
    };
    write_instruction(alloc, instruction, out, written)
}

/// Do what `asm_move_at` does.
pub fn move_at(
    alloc: Global,
    instrs: &mut Slot,
    number: u32,
    found: &mut InstructionHead,
    out: &mut [u8],
    written: &mut usize,
) -> Result<(), Code>
    ensures answers { MatchResult result
        (λ done. ReadsAt number (content_of instrs.old) found.new out.old out.new written.new)
        (DoesNotReadAt number (content_of instrs.old) out.old out.new written.new) }
    ensures none { OnErr result (IsNoHead found.new) }
    ensures kept { content_of instrs.new ≡ content_of instrs.old }
{
    *written = 0;
    *found = InstructionHead::none();
    lend!(gathered: Move = instrs, Err(Code::Empty));
    *found = write_at(alloc, gathered, number, out, written)?;
    Ok(())
}
