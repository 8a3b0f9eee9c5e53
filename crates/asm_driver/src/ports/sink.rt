//! Outputs that record whether a call failed, and whether what was written is flushed.

use crate::ports::PortFailed;
use std::io::Write;

/// What the output is written to. No call follows one that failed.
pub trait Sink {
    ghost use Rattle.std.specs.Prelude.{◌≡◌, ◌<◌, ◌≤◌, ℕ, Bool, false, is_ok, is_err, length, List, Option, IfOk};
    ghost use Rattle.std.specs.Io.KnownBytes.{Keeps, WriteAppends};

    // The bytes that it holds, if they are known.
    ghost contents: { Self → Option (List ℕ) };
    // Whether a call failed.
    ghost failed: { Self → Bool };
    // Whether all that was written is flushed.
    ghost flushed: { Self → Bool };
    // Which reference it writes through.
    ghost lender: { Self → ℕ };

    /// Write the first bytes, at least one; return how many.
    ///
    /// A write that takes no byte has failed.
    fn write(&mut self, bytes: &[u8]) -> Result<usize, PortFailed>
        requires { failed self.old ≡ false }
        ensures same_reference { lender self.new ≡ lender self.old }
        ensures bound { IfOk result (λ count. (0 < count) × (count ≤ length bytes.now)) }
        ensures bytes { WriteAppends (contents self.old) (contents self.new) result bytes.now }
        ensures noted { failed self.new ≡ is_err result }
        ensures unflushed { flushed self.new ≡ false };

    /// Flush what was written.
    fn flush(&mut self) -> Result<(), PortFailed>
        requires { failed self.old ≡ false }
        ensures same_reference { lender self.new ≡ lender self.old }
        ensures bytes { Keeps (contents self.old) (contents self.new) }
        ensures noted { failed self.new ≡ is_err result }
        ensures flushed { flushed self.new ≡ is_ok result };
}

/// A writer that records failed calls.
///
/// It also records whether what was written is flushed.
#[derive(Drop)]
pub struct NotedWriter<'a, W> {
    writer: &'a mut W,
    failed: bool,
    flushed: bool,
}

impl<'a, W> NotedWriter<'a, W> {
    ghost use Rattle.std.specs.Prelude.{◌≡◌, false};

    /// Wrap the writer, with no failed call recorded.
    pub fn new(writer: &'a mut W) -> NotedWriter<'a, W>
        ensures same_reference { result.writer.ghost_name ≡ writer.entry.ghost_name }
        ensures writer { result.writer.now ≡ writer.old }
        ensures whole { result.failed ≡ false }
    {
        NotedWriter {
            writer,
            failed: false,
            flushed: false,
        }
    }
}

impl<W: Write> Sink for NotedWriter<'_, W> {
    ghost contents = { λ s. W.contents s.writer.now };

    ghost failed = { λ s. s.failed };

    ghost flushed = { λ s. s.flushed };

    ghost lender = { λ s. s.writer.ghost_name };

    fn write(&mut self, bytes: &[u8]) -> Result<usize, PortFailed> {
        self.flushed = false;
        match self.writer.write(bytes) {
            Ok(count) if 0 < count => Ok(count),
            _ => {
                self.failed = true;
                Err(PortFailed)
            }
        }
    }

    fn flush(&mut self) -> Result<(), PortFailed> {
        match self.writer.flush() {
            Ok(()) => {
                self.flushed = true;
                Ok(())
            }
            Err(_) => {
                self.flushed = false;
                self.failed = true;
                Err(PortFailed)
            }
        }
    }
}
