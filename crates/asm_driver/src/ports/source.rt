//! Inputs that record whether a read failed.

use crate::ports::PortFailed;
use std::io::Read;

/// What the input is read from. No read follows one that failed.
pub trait Source {
    ghost use Rattle.std.specs.Prelude.{◌≡◌, ℕ, Bool, false, is_err, List, Option};
    ghost use Rattle.std.specs.Io.{ReadsAtMost};
    ghost use Rattle.std.specs.Io.KnownBytes.{ReadConsumes};

    // The bytes that reads will return from here on, if they are known.
    ghost remaining: { Self → Option (List ℕ) };
    // Whether a read failed.
    ghost failed: { Self → Bool };
    // Which reference it reads through.
    ghost lender: { Self → ℕ };

    /// Read into the buffer, and return how many bytes were read.
    ///
    /// That is 0 only at the end of the input.
    fn read(&mut self, buffer: &mut [u8]) -> Result<usize, PortFailed>
        requires { failed self.old ≡ false }
        ensures same_reference { lender self.new ≡ lender self.old }
        ensures bound { ReadsAtMost result buffer.new }
        ensures bytes { ReadConsumes (remaining self.old) (remaining self.new) result buffer.new }
        ensures noted { failed self.new ≡ is_err result };
}

/// A reader that records whether a read of it failed.
#[derive(Drop)]
pub struct NotedReader<'a, R> {
    reader: &'a mut R,
    failed: bool,
}

impl<'a, R> NotedReader<'a, R> {
    ghost use Rattle.std.specs.Prelude.{◌≡◌, false};

    /// Wrap the reader, with no failed read recorded.
    pub fn new(reader: &'a mut R) -> NotedReader<'a, R>
        ensures same_reference { result.reader.ghost_name ≡ reader.entry.ghost_name }
        ensures reader { result.reader.now ≡ reader.old }
        ensures whole { result.failed ≡ false }
    {
        NotedReader {
            reader,
            failed: false,
        }
    }
}

impl<R: Read> Source for NotedReader<'_, R> {
    ghost remaining = { λ s. R.remaining s.reader.now };

    ghost failed = { λ s. s.failed };

    ghost lender = { λ s. s.reader.ghost_name };

    fn read(&mut self, buffer: &mut [u8]) -> Result<usize, PortFailed> {
        match self.reader.read(buffer) {
            Ok(count) => Ok(count),
            Err(_) => {
                self.failed = true;
                Err(PortFailed)
            }
        }
    }
}
