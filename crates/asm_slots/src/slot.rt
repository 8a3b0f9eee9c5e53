//! The slots that C holds.
ghost use Rattle.std.specs.Prelude.{◌≡◌, true, None, Some, MatchOption};
ghost use Rattle.std.specs.Borrow.{sem};
ghost use Rattle.asm_slots.specs.BoxedContent.{is_some};

use crate::content::Content;
use crate::handle::Handle;
use crate::raw_box::RawBox;
use std::alloc::Global;

/// A slot, which holds nothing if `full` is false.
///
/// So a slot of zeros holds nothing.
#[repr(C)]
pub struct Slot {
    full: bool,
    handle: Handle,
    ghost tag: { full ≡ is_some handle.value },
}

impl Slot {
    ghost use Rattle.asm_slots.specs.Lends.{slot_follows, slot_follows_if};

    /// Return a slot that holds nothing.
    pub fn empty(alloc: Global) -> Slot
        ensures { result.handle.value ≡ None }
    {
        Slot {
            full: false,
            handle: Handle::empty(alloc),
        }
    }

    pub fn holding(value: Box<Content>) -> Slot
        ensures { result.handle.value ≡ Some value.value }
    {
        Slot {
            full: true,
            handle: Handle::of(RawBox::of(value)),
        }
    }

    /// Return whether it holds something.
    pub fn is_full(&self) -> bool
        ensures { result ≡ is_some self.now.handle.value }
    {
        self.full
    }

    /// Return its content in place, if it holds something.
    pub fn as_mut(&mut self) -> Option<&mut Content>
        ensures* writes_back { sem 𝓛 (slot_follows_if self.entry result) }
        ensures value { MatchOption result (self.old.handle.value ≡ None) (λ x. self.old.handle.value ≡ Some x.now) }
    {
        if !self.full {
            return None;
        }
        Some(self.full_mut())
    }

    fn full_mut(&mut self) -> &mut Content
        requires { self.old.full ≡ true }
        ensures* writes_back { sem 𝓛 (slot_follows self.entry result) }
        ensures value { self.old.handle.value ≡ Some result.now }
    {
        self.handle.get_mut()
    }

    pub(crate) fn into_box(self) -> Option<Box<Content>>
        ensures { MatchOption result (self.handle.value ≡ None) (λ b. self.handle.value ≡ Some b.value) }
    {
        let Slot { full, handle } = self;
        if full {
            return Some(handle.into_raw_box().into_box());
        }
        handle.end();
        None
    }
}

impl Drop for Slot {
    fn drop(self) {
        let _ = self.into_box();
    }
}
