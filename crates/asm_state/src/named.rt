ghost use Rattle.std.specs.Prelude.{◌≡◌, ◌↔◌, IfOk, IsTrue};
ghost use Rattle.std.specs.Cmp.{partial_equiv_from_equiv};
ghost use Rattle.asm_state.specs.Named.{named_eq, named_eq-equiv};

use asm_element::Location;
use std::alloc::{AllocError, Global};

/// A declared read: a location with the number of moves at which it was read.
///
/// It is stale once a move with a greater number writes the location, even with the same value. Source: this
/// project's profile.
#[derive(Debug, Drop)]
pub struct Named {
    /// The location that was read.
    pub at: Location,
    /// How many moves had been fired where it was read.
    pub number: u32,
}

impl Named {
    /// Return the same declared read, with a copy of its location.
    ///
    /// # Errors
    ///
    /// - `AllocError` only if memory is refused.
    pub fn copy(&self, _alloc: Global) -> Result<Named, AllocError>
        ensures { IfOk result (λ copy. copy ≡ self.now) }
    {
        self.clone()
    }
}

impl Clone for Named {
    ghost is_clone = { λ named copy. copy ≡ named };

    fn clone(&self) -> Result<Named, AllocError> {
        Ok(Named {
            at: self.at.clone()?,
            number: self.number,
        })
    }
}

impl PartialEq for Named {
    ghost eq = { named_eq };

    ghost laws = { partial_equiv_from_equiv named_eq-equiv };

    fn eq(&self, other: &Named) -> bool
        ensures eq { result ≡ named_eq self.now other.now }
        ensures same { IsTrue result ↔ (self.now ≡ other.now) }
    {
        self.at == other.at && self.number == other.number
    }
}

impl Eq for Named {
    ghost laws = { named_eq-equiv };
}
