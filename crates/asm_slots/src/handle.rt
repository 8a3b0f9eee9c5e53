//! What C holds of a value: a pointer that it never follows.
ghost use Rattle.std.specs.Prelude.{◌≡◌, Option, Some, IsSome, IsNone};
ghost use Rattle.std.specs.Borrow.{sem};
ghost use Rattle.std.specs.Coded.{coded_option};
ghost use Rattle.asm_slots.specs.contracts.content.Content.{the_row as content_row};
ghost use Rattle.asm_slots.specs.declared.content.Content.{Content};

use crate::content::Content;
use crate::raw_box::RawBox;
use std::alloc::Global;
use std::marker::Model;

/// The pointer of a box, or nothing.
#[repr(C)]
pub struct Handle {
    pub(crate) at: *mut u8,
    pub(crate) alloc: Global,
    pub(crate) ghost value: { Option Content } by { coded_option content_row.coded },
}

impl Model for Handle {
    ghost use Rattle.asm_slots.specs.BoxedContent.{option_box_owns};
    ghost use Rattle.std.specs.contracts.impls.GlobalAllocator.TheImpl.{ghosts};

    ghost also_owns = { λ h. option_box_owns (ghosts.dealloc_token h.alloc) h.at h.value };
}

impl Handle {
    ghost use Rattle.asm_slots.specs.Lends.{handle_follows};

    pub fn empty(alloc: Global) -> Handle
        ensures { result.value ≡ None }
    {
        Handle {
            at: std::ptr::null_mut(),
            alloc,
        }
    }

    pub(crate) fn of(raw_box: RawBox<Content, Global>) -> Handle
        ensures { result.value ≡ Some raw_box.value }
    {
        let RawBox { at, alloc } = raw_box;
        Handle {
            at: at as *mut u8,
            alloc,
        }
    }

    pub(crate) fn into_raw_box(self) -> RawBox<Content, Global>
        requires { IsSome self.value }
        ensures { self.value ≡ Some result.value }
    {
        let Handle { at, alloc } = self;
        RawBox {
            at: at as *mut Content,
            alloc,
        }
    }

    pub(crate) fn end(self)
        requires { IsNone self.value }
    {
        let Handle { at: _, alloc: _ } = self;
    }

    pub(crate) fn get_mut(&mut self) -> &mut Content
        requires { IsSome self.old.value }
        ensures* writes_back { sem 𝓛 (handle_follows self.entry result) }
        ensures value { self.old.value ≡ Some result.now }
    {
        unsafe {
            let at = self.at as *mut Content;
            &mut *at
        }
    }
}
