//! What the examples share.
use asm_element::{Element, Location, Value};
use asm_update::{Action, Instruction, Instructions};
use std::alloc::Global;
use std::test::Fail;

/// The location of this name, without arguments.
pub(crate) fn location(alloc: Global, name: &str) -> Result<Location, Fail> {
    Ok(Location::new(String::from_str(alloc, name)?, Vec::new(alloc))?)
}

pub(crate) fn number(n: i64) -> Value {
    Value::Plain(Element::Num(n))
}

/// The move with one instruction.
pub(crate) fn one(alloc: Global, name: &str, action: Action) -> Result<Instructions, Fail> {
    let at = location(alloc, name)?;
    let mut step = Instructions::new(alloc);
    step.push(Instruction { at, action })?;
    Ok(step)
}
