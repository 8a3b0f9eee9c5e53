//! The actions of instructions, from the numbers and bytes that C passes.
ghost use Rattle.std.specs.Prelude.{◌≡◌, ◌≢◌, [], IfErr, IfNone, IfOk, IfSome};
ghost use Rattle.asm_element.specs.declared.element.Element.{Element};
ghost use Rattle.asm_element.specs.declared.value.Value.TheVariants as values;
ghost use Rattle.asm_slots.specs.Kinds.{IsAction, IsByJson, IsOperand, IsTextOrPlain, IsValueBy, ASM_INC, ASM_KIND_BOOL};
ghost use Rattle.asm_slots.specs.Kinds.{ASM_KIND_TEXT, kind_of, CannotTake, IsActionOn, IsNoVerb, IsVerb, action_with};
ghost use Rattle.asm_slots.specs.Answers.{IsNoActionFor, IsNoElementFor, IsNoOperandFor};

use crate::codes::Code;
use crate::value_head::{BAG, BOOL, LIST, NUM, SET, TEXT, UNDEF, ValueHead};
use asm_element::{ElemText, Element, Value};
use asm_explain::read_quickly;
use asm_update::{Action, Amount};
use std::alloc::Global;

pub(crate) const PUT: i32 = 0;

pub(crate) const ADD: i32 = 1;

pub(crate) const REMOVE: i32 = 2;

pub(crate) const BAGADD: i32 = 3;

pub(crate) const BAGREMOVE: i32 = 4;

pub(crate) const INC: i32 = 5;

/// What an instruction does with an element.
#[derive(Clone, Copy, Drop)]
pub(crate) enum Verb {
    Put,
    Add,
    Remove,
    BagAdd(Amount),
    BagRemove(Amount),
}

fn truth_of(number: i64) -> Option<Element>
    ensures some { IfSome result (λ e. IsValueBy (values.Plain e) ASM_KIND_BOOL number []) }
    ensures none { IfNone result ((e : Element) → ¬ IsValueBy (values.Plain e) ASM_KIND_BOOL number []) }
{
    match number {
        0 => Some(Element::Bool(false)),
        1 => Some(Element::Bool(true)),
        _ => None,
    }
}

// Return the element of this kind and number, without bytes.
fn plain_of(kind: i32, number: i64) -> Option<Element>
    ensures some { IfSome result (IsTextOrPlain kind number []) }
    ensures none { IfNone result (kind ≢ ASM_KIND_TEXT → (e : Element) → ¬ IsTextOrPlain kind number [] e) }
{
    match kind {
        UNDEF if number == 0 => Some(Element::Undef),
        BOOL => truth_of(number),
        NUM => Some(Element::Num(number)),
        _ => None,
    }
}

fn text_of(alloc: Global, number: i64, bytes: &[u8]) -> Result<Element, Code>
    ensures ok { IfOk result (IsTextOrPlain ASM_KIND_TEXT number bytes.now) }
    ensures err { IfErr result (IsNoElementFor ASM_KIND_TEXT number bytes.now) }
{
    if number != 0 {
        return Err(Code::Operand);
    }
    let Ok(text) = str::from_utf8(bytes) else {
        return Err(Code::Shape);
    };
    Ok(Element::Text(ElemText::new(String::from_str(alloc, text)?)))
}

// Return the element of this kind, except a list, with this number and these bytes.
fn element_of(alloc: Global, kind: i32, number: i64, bytes: &[u8]) -> Result<Element, Code>
    ensures ok { IfOk result (IsTextOrPlain kind number bytes.now) }
    ensures err { IfErr result (IsNoElementFor kind number bytes.now) }
{
    if kind == TEXT {
        return text_of(alloc, number, bytes);
    }
    if !bytes.is_empty() {
        return Err(Code::Operand);
    }
    plain_of(kind, number).ok_or(Code::Operand)
}

// Read the list, the set or the bag of these bytes, by the kind.
fn read_value(alloc: Global, kind: i32, number: i64, bytes: &[u8]) -> Result<Value, Code>
    requires { IsByJson kind }
    ensures ok { IfOk result (IsOperand kind number bytes.now) }
    ensures kind { IfOk result (λ v. kind ≡ kind_of v) }
    ensures err { IfErr result (IsNoOperandFor kind number bytes.now) }
{
    if number != 0 {
        return Err(Code::Operand);
    }
    let value = read_quickly::<Value>(alloc, bytes)?;
    if ValueHead::of(&value).kind != kind {
        return Err(Code::Shape);
    }
    Ok(value)
}

// Return the value of this kind, with this number and these bytes.
pub(crate) fn value_of(alloc: Global, kind: i32, number: i64, bytes: &[u8]) -> Result<Value, Code>
    ensures ok { IfOk result (IsOperand kind number bytes.now) }
    ensures err { IfErr result (IsNoOperandFor kind number bytes.now) }
{
    if kind == LIST || kind == SET || kind == BAG {
        return read_value(alloc, kind, number, bytes);
    }
    Ok(Value::Plain(element_of(alloc, kind, number, bytes)?))
}

fn plain_verb_of(verb: i32) -> Option<Verb>
    ensures some { IfSome result (IsVerb verb 0) }
    ensures none { IfNone result (verb ≢ ASM_INC → IsNoVerb verb 0) }
{
    match verb {
        PUT => Some(Verb::Put),
        ADD => Some(Verb::Add),
        REMOVE => Some(Verb::Remove),
        _ => None,
    }
}

fn bag_verb_of(verb: i32, amount: Amount) -> Option<Verb>
    ensures some { IfSome result (IsVerb verb amount) }
    ensures none { IfNone result (IsNoVerb verb amount) }
{
    match verb {
        BAGADD => Some(Verb::BagAdd(amount)),
        BAGREMOVE => Some(Verb::BagRemove(amount)),
        _ => None,
    }
}

fn verb_of(verb: i32, amount: u32) -> Option<Verb>
    ensures some { IfSome result (IsVerb verb amount) }
    ensures none { IfNone result (verb ≢ ASM_INC → IsNoVerb verb amount) }
{
    match Amount::new(amount) {
        Some(amount) => bag_verb_of(verb, amount),
        None => plain_verb_of(verb),
    }
}

fn action_with(verb: Verb, element: Element) -> Action
    ensures { result ≡ action_with verb element }
{
    match verb {
        Verb::Put => Action::Regular(Value::Plain(element)),
        Verb::Add => Action::SetAdd(element),
        Verb::Remove => Action::SetRemove(element),
        Verb::BagAdd(amount) => Action::BagAdd(element, amount),
        Verb::BagRemove(amount) => Action::BagRemove(element, amount),
    }
}

// Return the action with this value; a set or a bag can only be put.
fn action_on(verb: Verb, value: Value) -> Option<Action>
    ensures some { IfSome result (IsActionOn verb value) }
    ensures none { IfNone result (CannotTake verb value) }
{
    match (verb, value) {
        (Verb::Put, value) => Some(Action::Regular(value)),
        (verb, Value::Plain(element)) => Some(action_with(verb, element)),
        _ => None,
    }
}

fn increment_of(kind: i32, number: i64, bytes: &[u8], amount: u32) -> Result<Action, Code>
    ensures ok { IfOk result (IsAction ASM_INC kind number bytes.now amount) }
    ensures err { IfErr result (IsNoActionFor ASM_INC kind number bytes.now amount) }
{
    if kind != NUM || amount != 0 || !bytes.is_empty() {
        return Err(Code::Operand);
    }
    Ok(Action::Increment(number))
}

/// Return the action of this verb, with this value and this amount.
///
/// Kind, number and bytes mean the value.
///
/// # Errors
///
/// - `Operand`: verb, kind, number, bytes and amount make no action.
/// - `NotJson`: the bytes of a list, a set or a bag aren't JSON.
/// - `Shape`: the bytes of a text aren't UTF-8, or those of a list, a set or a bag are JSON of no such value.
/// - `Memory`
pub(crate) fn action_of(
    alloc: Global,
    verb: i32,
    kind: i32,
    number: i64,
    bytes: &[u8],
    amount: u32,
) -> Result<Action, Code>
    ensures ok { IfOk result (IsAction verb kind number bytes.now amount) }
    ensures err { IfErr result (IsNoActionFor verb kind number bytes.now amount) }
{
    if verb == INC {
        return increment_of(kind, number, bytes, amount);
    }
    let Some(verb) = verb_of(verb, amount) else {
        return Err(Code::Operand);
    };
    let value = value_of(alloc, kind, number, bytes)?;
    match action_on(verb, value) {
        Some(action) => Ok(action),
        None => Err(Code::Operand),
    }
}
