ghost use Rattle.std.specs.Prelude.{◌≡◌, IfOk, IfSome, None};
ghost use Rattle.asm_storage.specs.declared.call.Call.TheVariants as call;
ghost use Rattle.asm_storage.specs.Part.{IsEntryOf};

use crate::call::Call;
use crate::entry::Entry;
use crate::shared_lists::{copied_named, same_list};
use asm_element::Items;
use asm_state::Named;
use asm_update::Instructions;
use std::alloc::{AllocError, Global};
use std::mem;

/// A fire that is asked for, and the entry that it attempts to append, once that is made.
///
/// A turn that lost its attempt leaves the entry to the next one.
#[derive(Drop)]
pub(crate) struct Asked {
    pub(crate) reads: Items<Named>,
    pub(crate) instrs: Instructions,
    pub(crate) entry: Option<Box<Entry>>,
}

impl Asked {
    /// Return the fire of this move with these declared reads.
    pub(crate) fn new(reads: Items<Named>, instrs: Instructions) -> Asked
        ensures reads { result.reads ≡ reads }
        ensures instrs { result.instrs ≡ instrs }
        ensures entry { result.entry ≡ None }
    {
        Asked {
            reads,
            instrs,
            entry: None,
        }
    }

    /// Return the fire of this move with these declared reads, which it shares.
    pub(crate) fn sharing(reads: &Items<Named>, instrs: &Instructions) -> Result<Asked, AllocError>
        ensures reads { IfOk result (λ asked. asked.reads ≡ reads.now) }
        ensures instrs { IfOk result (λ asked. asked.instrs ≡ instrs.now) }
        ensures entry { IfOk result (λ asked. asked.entry ≡ None) }
    {
        let reads = same_list(reads)?;
        let instrs = instrs.clone()?;
        Ok(Asked::new(reads, instrs))
    }

    /// Return the fire of this move with copies of these declared reads.
    pub(crate) fn copying(
        alloc: Global,
        reads: &[Named],
        instrs: &Instructions,
    ) -> Result<Asked, AllocError>
        ensures reads { IfOk result (λ asked. asked.reads ≡ reads.now) }
        ensures instrs { IfOk result (λ asked. asked.instrs ≡ instrs.now) }
        ensures entry { IfOk result (λ asked. asked.entry ≡ None) }
    {
        let reads = copied_named(alloc, reads)?;
        let instrs = instrs.copy(alloc)?;
        Ok(Asked::new(reads, instrs))
    }

    /// Take the entry that a lost turn left, or else make one of this agent.
    pub(crate) fn take_entry(&mut self, alloc: Global, agent: u32) -> Result<Box<Entry>, AllocError>
        requires { IfSome self.old.entry (λ b. IsEntryOf agent self.old.instrs b.value) }
        ensures entry { IfOk result (λ b. IsEntryOf agent self.old.instrs b.value) }
        ensures left { self.new ≡ record self.old { entry = None } }
    {
        match self.entry.take() {
            Some(left) => Ok(left),
            None => {
                let instrs = self.instrs.copy(alloc)?;
                Ok(Box::new(alloc, Entry { agent, instrs })?)
            }
        }
    }

    /// Take the call.
    pub(crate) fn take_call(&mut self, alloc: Global) -> Call
        ensures { result ≡ call.Fire self.old.reads self.old.instrs }
    {
        Call::Fire {
            reads: mem::replace(&mut self.reads, Items::new(Vec::new(alloc))),
            instrs: mem::replace(&mut self.instrs, Instructions::new(alloc)),
        }
    }
}
