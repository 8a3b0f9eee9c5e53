//! What moves wrote of one function name.
ghost use Rattle.std.specs.Prelude.{◌≡◌, [], IfOk};
ghost use Rattle.std.specs.Option.{option_copied};
ghost use Rattle.std.specs.FinMap as map;
ghost use Rattle.asm_state.specs.Scans.{has_name, is_newer, IsLeastOf};
ghost use Rattle.asm_state.specs.View.{writer_of};

use crate::entries::{Entries, WrittenValue};
use asm_element::Location;
use std::alloc::{AllocError, Global};

/// Return whether the location has the function name.
pub(crate) fn has_name(name: &str, at: &Location) -> bool
    ensures { result ≡ has_name name.now at.now }
{
    at.name() == name
}

/// Return whether the location has the name, and a move above the number wrote it.
fn is_newer(name: &str, number: u32, at: &Location, written: &WrittenValue) -> bool
    ensures { result ≡ is_newer name.now number at.now written.now.writer }
{
    has_name(name, at) && number < written.writer
}

impl Entries {
    // The smallest location with the name of the first one, which has no arguments, whose entry a move above the
    // number wrote. It walks the entries of that name, up to that one.
    fn least_from(&self, first: &Location, number: u32) -> Option<&Location>
        requires { first.now.args ≡ [] }
        ensures { IsLeastOf (λ l. is_newer first.now.name number l (writer_of (map.get self.now l)))
            (option_copied result) }
    {
        for (at, written) in self.onward(first) {
            if !has_name(first.name(), at) {
                return None;
            }
            if number < written.writer {
                return Some(at);
            }
        }
        None
    }

    // The same for any name, by a walk of all entries up to that one.
    fn least_of_all(&self, name: &str, number: u32) -> Option<&Location>
        ensures { IsLeastOf (λ l. is_newer name.now number l (writer_of (map.get self.now l))) (option_copied result) }
    {
        for (at, written) in self.iter() {
            if is_newer(name, number, at, written) {
                return Some(at);
            }
        }
        None
    }

    /// Return the smallest location with this name that a move above the number wrote.
    ///
    /// It walks the entries of that name, up to that one.
    pub(crate) fn least_written(
        &self,
        alloc: Global,
        name: &str,
        number: u32,
    ) -> Result<Option<&Location>, AllocError>
        ensures { IfOk result (λ found. IsLeastOf (λ l. is_newer name.now number l (writer_of (map.get self.now l)))
            (option_copied found)) }
    {
        let owned = String::from_str(alloc, name)?;
        match Location::new(owned, Vec::new(alloc)) {
            Ok(first) => Ok(self.least_from(&first, number)),
            // No location that a program holds has such a name.
            Err(_) => Ok(self.least_of_all(name, number)),
        }
    }
}
