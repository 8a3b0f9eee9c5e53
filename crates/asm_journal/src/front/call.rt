//! Calls: reads, and fires with their declared reads; and events: an agent, its call, and the answer.
ghost use Rattle.std.specs.Prelude.{IfSome};
ghost use Rattle.asm_journal.specs.Event.{IsCallForm};
ghost use Rattle.asm_journal.specs.readback.{named_form_clean, move_form_clean, call_form_clean, event_form_clean};
ghost use Rattle.asm_journal.specs.Shape.{BeginsAs};

use crate::form::{Listed, instructions_of};
use crate::front::FromFront;
use crate::front::scalars::{behind, number};
use asm_element::{Items, Location};
use asm_state::Named;
use asm_storage::{Answer, Call, Event};
use asm_update::{Instruction, Instructions};
use std::alloc::Global;

impl FromFront for Named {
    ghost nests = { 18 };

    ghost clean = { named_form_clean };

    fn from_front(alloc: Global, text: &[u8]) -> Option<(Named, &[u8])> {
        let inside = behind(text, b"[")?;
        let (at, left) = Location::from_front(alloc, inside)?;
        let second = behind(left, b",")?;
        let (number, end) = number(second)?;
        let rest = behind(end, b"]")?;
        Some((Named { at, number }, rest))
    }
}

impl FromFront for Instructions {
    ghost nests = { 21 };

    ghost clean = { move_form_clean };

    fn from_front(alloc: Global, text: &[u8]) -> Option<(Instructions, &[u8])> {
        let (list, rest) = Listed::<Instruction>::from_front(alloc, text)?;
        let Ok(Some(instrs)) = instructions_of(alloc, list.into_vec()) else {
            return None;
        };
        Some((instrs, rest))
    }
}

/// Return the read.
fn front_read(alloc: Global, text: &[u8]) -> Option<(Call, &[u8])>
    ensures { IfSome result (λ p. BeginsAs IsCallForm text.now p.0 p.1.now) }
{
    let inside = behind(text, b"{\"read\":")?;
    let (locations, left) = Listed::<Location>::from_front(alloc, inside)?;
    let rest = behind(left, b"}")?;
    Some((Call::Read(Items::packed(locations.into_vec())), rest))
}

/// Return the fire.
fn front_fire(alloc: Global, text: &[u8]) -> Option<(Call, &[u8])>
    ensures { IfSome result (λ p. BeginsAs IsCallForm text.now p.0 p.1.now) }
{
    let inside = behind(text, b"{\"fire\":")?;
    let (instrs, left) = Instructions::from_front(alloc, inside)?;
    let second = behind(left, b",\"reads\":")?;
    let (listed, end) = Listed::<Named>::from_front(alloc, second)?;
    let rest = behind(end, b"}")?;
    let reads = Items::packed(listed.into_vec());
    Some((Call::Fire { reads, instrs }, rest))
}

impl FromFront for Call {
    ghost nests = { 22 };

    ghost clean = { call_form_clean };

    fn from_front(alloc: Global, text: &[u8]) -> Option<(Call, &[u8])> {
        match text.get(2) {
            Some(b'f') => front_fire(alloc, text),
            _ => front_read(alloc, text),
        }
    }
}

impl FromFront for Event {
    ghost nests = { 23 };

    ghost clean = { event_form_clean };

    fn from_front(alloc: Global, text: &[u8]) -> Option<(Event, &[u8])> {
        let inside = behind(text, b"{\"agent\":")?;
        let (agent, left) = number(inside)?;
        let second = behind(left, b",\"call\":")?;
        let (call, next) = Call::from_front(alloc, second)?;
        let third = behind(next, b",\"reply\":")?;
        let (answer, end) = Answer::from_front(alloc, third)?;
        let rest = behind(end, b"}")?;
        Some((
            Event {
                agent,
                call,
                answer,
            },
            rest,
        ))
    }
}
