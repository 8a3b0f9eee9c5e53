ghost use Rattle.std.specs.Prelude.{◌≡◌, ◌<◌, ◌≤◌, ◌++◌, ◌∷◌, ◌↔◌, ◌⊎◌, [], length};
ghost use Rattle.std.specs.Prelude.{OnOk, OnErr, IfErr, IfSome, IfNone, IsErrOf};
ghost use Rattle.asm_overlay.specs.Limits.{frames_limit};
ghost use Rattle.asm_overlay.specs.Frames.{topmost};
ghost use Rattle.asm_overlay.specs.Seen.{held_value};

use asm_element::{Location, Value};
use asm_update::UpdateSet;
use std::alloc::{AllocFailed, Global};
use std::marker::Model;
use thiserror::Error;

/// The most frames of one overlay.
pub const FRAMES_LIMIT: usize = 64;

/// Why a frame isn't pushed; the frame that was passed is returned.
#[derive(Debug, Drop, PartialEq, Eq, Error)]
pub enum OverlayError {
    /// There are 64 frames already; this is found before memory is asked for.
    #[error("more than 64 frames")]
    Deep(UpdateSet),
    /// The memory that the call asked for was refused.
    #[error("out of memory")]
    Memory(UpdateSet),
}

/// What an overlay shows at a location.
#[derive(Clone, Copy, Debug, PartialEq, Eq)]
pub enum Seen<'a> {
    /// The value of the topmost frame that has the location; it may be undef.
    Held(&'a Value),
    /// No frame has the location, so it has the value that it has below the overlay.
    Below,
}

/// A stack of at most 64 frames, each an update set.
///
/// Contracts see it as the list of its frames, the oldest first. Source: pushed and popped states, in CoreASM; the
/// limit is of this project's profile.
#[derive(Debug, Drop)]
pub struct Overlay {
    frames: Vec<UpdateSet>,
}

impl Model for Overlay {
    ghost use Rattle.std.specs.Prelude.{length, ◌≤◌};
    ghost use Rattle.std.specs.Coded.{coded_list};
    ghost use Rattle.asm_overlay.specs.Limits.{frames_limit};
    ghost use Rattle.asm_overlay.specs.Frames.{Frames};
    ghost use Rattle.asm_update.specs.contracts.update_set.UpdateSet.{the_row as frame_row};

    ghost Value = { Frames };

    ghost coded = { coded_list frame_row.coded };

    ghost view = { λ o. o.frames.items };

    ghost invariant = { λ o. length o.frames.items ≤ frames_limit };
}

impl Overlay {
    /// Return the overlay without frames.
    pub fn new(alloc: Global) -> Self
        ensures { result ≡ [] }
    {
        Overlay {
            frames: Vec::new(alloc),
        }
    }

    /// Put a frame on top of the others.
    ///
    /// # Errors
    ///
    /// - `Deep` exactly if there are 64 frames, before memory is asked for.
    /// - `Memory` only if memory is refused.
    ///
    /// Either returns the frame that was passed. On error, nothing changes.
    pub fn push(&mut self, frame: UpdateSet) -> Result<(), OverlayError>
        ensures ok { OnOk result (self.new ≡ self.old ++ frame ∷ []) }
        ensures err { OnErr result (self.new ≡ self.old) }
        ensures deep { IsErrOf result (OverlayError.Deep frame) ↔ (length self.old ≡ frames_limit) }
        ensures memory { IsErrOf result (OverlayError.Memory frame) → length self.old < frames_limit }
        ensures handed_back { IfErr result (λ e.
            (e ≡ OverlayError.Deep frame) ⊎ (e ≡ OverlayError.Memory frame)) }
    {
        if self.frames.len() >= FRAMES_LIMIT {
            return Err(OverlayError::Deep(frame));
        }
        match self.frames.push(frame) {
            Ok(()) => Ok(()),
            Err(refused) => Err(OverlayError::Memory(refused.value)),
        }
    }

    /// Take the topmost frame away, and give it back; None where there is no frame.
    pub fn pop(&mut self) -> Option<UpdateSet>
        ensures some { IfSome result (λ frame. self.old ≡ self.new ++ frame ∷ []) }
        ensures none { IfNone result ((self.old ≡ []) × (self.new ≡ [])) }
    {
        self.frames.pop()
    }

    /// Return how many frames there are, at most 64.
    pub fn depth(&self) -> usize
        ensures value { result ≡ length self.now }
        ensures within { length self.now ≤ frames_limit }
    {
        self.frames.len()
    }

    /// Return the value of the topmost frame that has the location, or `Below`.
    ///
    /// It costs one look-up in each frame, from the top, and stops at the first that has the location.
    pub fn get(&self, at: &Location) -> Seen<'_>
        ensures { held_value result ≡ topmost self.now at.now }
    {
        for frame in self.frames.iter().rev() {
            if let Some(value) = frame.get(at) {
                return Seen::Held(value);
            }
        }
        Seen::Below
    }
}
