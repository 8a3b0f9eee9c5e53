//! Calls of agents and their answers, as plain data, and the calls and answers that it describes.
//!
//! `AllocError` means that memory was refused, or that a name isn't one, which no table has.

use asm_element::{Element, Items, Location, Value};
use asm_state::Named;
use asm_storage::{Answer, Call, Receipt, Reply};
use asm_test_support::{location, number, value};
use asm_update::{Action, Instruction, Instructions};
use std::alloc::{AllocError, Global};

/// A put of a number at the location of this name.
#[derive(Clone, Copy)]
pub(crate) struct Put(pub(crate) &'static str, pub(crate) i64);

/// The location of this name, named with a number.
#[derive(Clone, Copy)]
pub(crate) struct At(pub(crate) &'static str, pub(crate) u32);

/// What an agent asks.
#[derive(Clone, Copy)]
pub(crate) enum Act {
    Read(&'static [&'static str]),
    Fire(&'static [Put], &'static [At]),
}

/// What it is answered.
///
/// The number of a reply that fires nothing is that of the moves that it was judged on.
#[derive(Clone, Copy)]
pub(crate) enum Want {
    Read(u32, &'static [Option<i64>]),
    Fired(u32),
    Stale(&'static str, u32),
    Full(u32),
}

pub(crate) fn is_number(value: &Value, n: i64) -> bool {
    match value {
        Value::Plain(Element::Num(found)) => *found == n,
        _ => false,
    }
}

/// Return the move that does this at the location of this name.
pub(crate) fn move_at(
    alloc: Global,
    name: &str,
    action: Action,
) -> Result<Instructions, AllocError> {
    let mut list = Instructions::new(alloc);
    let at = location(alloc, name)?;
    match list.push(Instruction { at, action }) {
        Ok(()) => Ok(list),
        Err(_) => Err(AllocError),
    }
}

/// Return the move of these puts, of which there is one or none.
pub(crate) fn move_of(alloc: Global, puts: &[Put]) -> Result<Instructions, AllocError> {
    match puts.first() {
        Some(put) => move_at(alloc, put.0, Action::Regular(number(put.1))),
        None => Ok(Instructions::new(alloc)),
    }
}

pub(crate) fn places_of(
    alloc: Global,
    names: &[&'static str],
) -> Result<Vec<Location>, AllocError> {
    let mut list = Vec::new(alloc);
    for name in names {
        let place = location(alloc, name)?;
        list.push(place)?;
    }
    Ok(list)
}

pub(crate) fn named_of(alloc: Global, reads: &[At]) -> Result<Vec<Named>, AllocError> {
    let mut list = Vec::new(alloc);
    for read in reads {
        let at = location(alloc, read.0)?;
        list.push(Named { at, number: read.1 })?;
    }
    Ok(list)
}

/// Return the receipt of a read of these locations, with these contents at this number.
pub(crate) fn receipt_of_read(
    alloc: Global,
    reads: &[At],
    number: u32,
    contents: &[Option<i64>],
) -> Result<Receipt, AllocError> {
    let mut places = Vec::new(alloc);
    for read in reads {
        let place = location(alloc, read.0)?;
        places.push(place)?;
    }
    let values = Items::new(values_of(alloc, contents)?);
    Ok(Receipt {
        call: Call::Read(Items::new(places)),
        answer: Answer::Read { number, values },
        stood: number,
    })
}

fn values_of(alloc: Global, contents: &[Option<i64>]) -> Result<Vec<Value>, AllocError> {
    let mut list = Vec::new(alloc);
    for content in contents {
        list.push(value(*content))?;
    }
    Ok(list)
}

fn call_of(alloc: Global, act: Act) -> Result<Call, AllocError> {
    match act {
        Act::Read(names) => Ok(Call::Read(Items::new(places_of(alloc, names)?))),
        Act::Fire(puts, reads) => {
            let reads = Items::new(named_of(alloc, reads)?);
            let instrs = move_of(alloc, puts)?;
            Ok(Call::Fire { reads, instrs })
        }
    }
}

fn answer_of(alloc: Global, want: Want) -> Result<Answer, AllocError> {
    match want {
        Want::Read(number, contents) => {
            let values = Items::new(values_of(alloc, contents)?);
            Ok(Answer::Read { number, values })
        }
        Want::Fired(number) => Ok(Answer::Fire(Reply::Fired(number))),
        Want::Stale(name, _) => Ok(Answer::Fire(Reply::Stale(location(alloc, name)?))),
        Want::Full(_) => Ok(Answer::Fire(Reply::Full)),
    }
}

fn stood_of(want: Want) -> u32 {
    match want {
        Want::Fired(number) => number.saturating_sub(1),
        Want::Read(number, _) | Want::Stale(_, number) | Want::Full(number) => number,
    }
}

/// Return the receipt of an agent that asks this and is answered so.
pub(crate) fn receipt_of(alloc: Global, act: Act, want: Want) -> Result<Receipt, AllocError> {
    let call = call_of(alloc, act)?;
    let answer = answer_of(alloc, want)?;
    Ok(Receipt {
        call,
        answer,
        stood: stood_of(want),
    })
}
