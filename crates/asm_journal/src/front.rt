//! Reads values from the front of a text without a tree, where the text is compact JSON: no space, no escape, no leading
//! zero, and the keys of an object in order. `None` says nothing about the text: read it by `FromJson` then.
ghost use Rattle.std.specs.Prelude.{ℕ, ◌≤◌, IfSome};
ghost use Rattle.serde_json.specs.Data.{Data};
ghost use Rattle.serde_json.specs.Read.{max_depth};
ghost use Rattle.asm_journal.specs.Shape.{BeginsAs};
ghost use Rattle.asm_journal.specs.Reading.{IsJson};
ghost use Rattle.asm_journal.specs.readback.{IsCleanTo};

use crate::form::FromJson;
use std::alloc::Global;

mod answer;
mod call;
mod element;
mod instruction;
mod items;
pub(crate) mod scalars;
mod state;
mod value;

/// A value that can be read directly from the front of a compact text.
///
/// No value of `serde_json` is made on the way.
pub trait FromFront: FromJson {
    // how deep it nests at most
    ghost nests: { ℕ };

    /// Read the value whose compact JSON the text begins with; return the rest too.
    ///
    /// `None` means that the text is written in another way, or that memory is refused.
    fn from_front(alloc: Global, text: &[u8]) -> Option<(Self, &[u8])>
    where
        Self: Sized,
        ensures { IfSome result (λ p. BeginsAs Self.is_form text.now p.0 p.1.now) };

    // its compact text is read as it
    ghost clean: { (x : Self) (d : Data) → Self.is_form x d → IsCleanTo nests d };
}

/// Read the value whose compact JSON the bytes are.
///
/// `None`: the bytes are written in another way, or memory was refused.
pub fn read_compact<T: FromFront>(alloc: Global, bytes: &[u8]) -> Option<T>
    requires { T.nests ≤ max_depth }
    ensures { IfSome result (λ x. (d : Data) × IsJson bytes.now d × T.is_form x d) }
{
    let (found, rest) = T::from_front(alloc, bytes)?;
    if rest.is_empty() { Some(found) } else { None }
}
