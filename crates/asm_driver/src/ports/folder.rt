//! Folders whose files are read one after the other.

use crate::ports::PortFailed;
use crate::ports::input::InputError;

/// The files of a folder, of which one at most is open. No call follows one that failed.
pub trait Folder {
    ghost use Rattle.std.specs.Prelude.{◌≡◌, ℕ, Bool, false, is_err, List, Option, IfOk, OnOk, IsErrOf};
    ghost use Rattle.std.specs.Io.{ReadsAtMost};
    ghost use Rattle.std.specs.Io.KnownBytes.{Keeps, ReadConsumes};
    ghost use Rattle.asm_driver.specs.Folder.{IsSizeOf};
    ghost use Rattle.asm_driver.specs.Ports.{is_fault};

    // What the file of each name holds, if that is known.
    ghost files: { Self → List ℕ → Option (List ℕ) };
    // The bytes that reads of the open file will return from here on, if they are known.
    ghost remaining: { Self → Option (List ℕ) };
    // Whether a call failed.
    ghost failed: { Self → Bool };

    /// Open the file of this name in place of the open one, and return how many bytes it has.
    fn open(&mut self, name: &str) -> Result<u64, InputError>
        requires { failed self.old ≡ false }
        ensures files { files self.new ≡ files self.old }
        ensures opened { OnOk result (Keeps (files self.old name.now) (remaining self.new)) }
        ensures size { IfOk result (IsSizeOf (files self.old name.now)) }
        ensures not_large { IsErrOf result InputError.TooLarge → ⊥ }
        ensures noted { failed self.new ≡ is_fault result };

    /// Read into the buffer from the open file, and return how many bytes were read.
    ///
    /// That is 0 only at the end of the file.
    fn read(&mut self, buffer: &mut [u8]) -> Result<usize, PortFailed>
        requires { failed self.old ≡ false }
        ensures files { files self.new ≡ files self.old }
        ensures bound { ReadsAtMost result buffer.new }
        ensures bytes { ReadConsumes (remaining self.old) (remaining self.new) result buffer.new }
        ensures noted { failed self.new ≡ is_err result };
}
