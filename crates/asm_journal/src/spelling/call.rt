//! Calls: reads, and fires with their declared reads; and events: an agent, its call, and the answer.
use crate::spelling::ToText;
use crate::spelling::items::{push_member, push_one_list, push_pair, push_with_list};
use crate::spelling::scalars::push_sign;
use asm_state::Named;
use asm_storage::{Call, Event};
use std::alloc::{AllocError, Global};

impl ToText for Named {
    fn push_text(&self, alloc: Global, text: &mut String) -> Result<(), AllocError> {
        push_pair(alloc, text, &self.at, &self.number)
    }
}

impl ToText for Call {
    fn push_text(&self, alloc: Global, text: &mut String) -> Result<(), AllocError> {
        match self {
            Call::Read(locations) => push_one_list(alloc, text, "read", locations.as_slice()),
            Call::Fire { reads, instrs } => {
                push_with_list(alloc, text, "fire", instrs, "reads", reads.as_slice())
            }
        }
    }
}

impl ToText for Event {
    fn push_text(&self, alloc: Global, text: &mut String) -> Result<(), AllocError> {
        push_sign(text, '{')?;
        push_member(alloc, text, false, "agent", &self.agent)?;
        push_member(alloc, text, true, "call", &self.call)?;
        push_member(alloc, text, true, "reply", &self.answer)?;
        push_sign(text, '}')?;
        Ok(())
    }
}
