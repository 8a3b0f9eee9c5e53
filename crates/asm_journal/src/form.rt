//! The JSON forms of elements, values, states, instructions, calls, answers and events, read and written.
ghost use Rattle.std.specs.Prelude.{◌≡◌, IfOk};
ghost use Rattle.serde_json.specs.Data.{Data};
ghost use Rattle.serde_json.specs.View.{view};
ghost use Rattle.asm_journal.specs.Form.{IsRead};
ghost use Rattle.asm_journal.specs.Shape.{IsNumberForm, IsParsed};

use serde_json::Value as Json;
use std::alloc::{AllocError, Global};

mod answer;
mod array;
mod call;
mod element;
mod fault;
mod instruction;
mod object;
mod set;
mod state;
mod value;

pub use answer::word_of_cause;
pub use array::{Listed, read_one, two_items};
pub(crate) use call::instructions_of;
pub use element::{location_json, read_location};
pub use fault::{FormCause, FormError, FormFault, OfPart, PathStep};
pub use instruction::{instruction_json, instruction_parts, read_instruction};
pub(crate) use object::five_members;
pub use object::{one_member, two_members};
pub use set::read_amount;
pub(crate) use set::{Counted, bag_of, set_of};
pub use state::pair_json;
pub(crate) use state::{StatePair, state_from};
pub use value::{read_value, value_json};

/// A value that is read from JSON.
pub trait FromJson: Drop {
    // the JSON that is read as this value
    ghost is_form: { Self → Data → Type 0 };

    /// Return the value with this form.
    ///
    /// # Errors
    ///
    /// - `Form` if no value has it: where the JSON has another form, and why.
    /// - `Memory` only if memory is refused.
    fn from_json(alloc: Global, json: &Json) -> Result<Self, FormError>
    where
        Self: Sized,
        ensures { IsRead is_form (view json.now) result };
}

/// Read a value of this type; `None` means that no value has this JSON.
///
/// # Errors
///
/// - `AllocError` only if memory is refused.
pub fn read_form<T: FromJson>(alloc: Global, json: &Json) -> Result<Option<T>, AllocError>
    ensures { IfOk result (IsParsed T.is_form (view json.now)) }
{
    match T::from_json(alloc, json) {
        Ok(read) => Ok(Some(read)),
        Err(FormError::Form(_)) => Ok(None),
        Err(FormError::Memory) => Err(AllocError),
    }
}

/// A value that is written as JSON.
pub trait ToJson {
    // the JSON that is written
    ghost json_of: { Self → Data };

    /// Its form.
    ///
    /// # Errors
    ///
    /// - `AllocError` only if memory is refused.
    fn to_json(&self, alloc: Global) -> Result<Json, AllocError>
        ensures { IfOk result (λ json. view json ≡ json_of self.now) };
}

/// Read a whole number from 0 to 4,294,967,295.
pub(crate) fn read_number(json: &Json) -> Option<u32>
    ensures { IsParsed IsNumberForm (view json.now) result }
{
    u32::try_from(json.as_u64()?).ok()
}
