//! The input, line by line.
ghost use Rattle.std.specs.Prelude.{◌≤◌, length};

use crate::ports::input::InputError;
use crate::ports::source::Source;
use asm_audit::LINE_LIMIT;
use std::alloc::Global;
use std::sync::Wait;

// Number of bytes that a read asks for.
const CHUNK: usize = 4096;

/// A reader of an input's lines.
///
/// It holds the last line that was read, and the bytes behind it that came with it.
#[derive(Drop)]
pub(crate) struct LineReader {
    /// The bytes of the last read.
    chunk: Vec<u8>,
    /// How many of these were consumed.
    taken: usize,
    /// The last line that was read, with its line feed.
    line: Vec<u8>,
    ghost within: { taken ≤ length chunk.items },
}

impl LineReader {
    ghost use Rattle.std.specs.Prelude.{◌≡◌, ◌∷◌, ◌++◌, false, [], IfErr, OnOk};
    ghost use Rattle.asm_driver.specs.Lines.{IsFilled, IsToppedUp, IsNextByte, IsLineRead, pending};
    ghost use Rattle.asm_driver.specs.declared.ports.input.InputError.TheVariants as errors;

    /// Return a reader for an input of which nothing was read.
    pub(crate) fn new(alloc: Global) -> LineReader
        ensures pending { pending result ≡ [] }
    {
        LineReader {
            chunk: Vec::new(alloc),
            taken: 0,
            line: Vec::new(alloc),
        }
    }

    /// Return the last line that was read.
    ///
    /// It has a line feed at its end and nowhere else, unless the input ended without one. It is empty if no byte was
    /// left.
    pub(crate) fn line(&self) -> &[u8]
        ensures { result.now ≡ self.now.line.items }
    {
        self.line.as_slice()
    }

    // Read more bytes, once all are consumed.
    fn fill<S: Source>(&mut self, input: &mut S) -> Result<(), InputError>
        requires unread { S.failed input.old ≡ false }
        ensures same_reference { S.lender input.new ≡ S.lender input.old }
        ensures filled { IsFilled (S.remaining input.old) (S.remaining input.new) (S.failed input.new) (pending self.new)
            result }
        ensures line { self.new.line ≡ self.old.line }
    {
        let mut buffer = [0u8; CHUNK];
        let count = input.read(&mut buffer)?;
        self.taken = 0;
        self.chunk.clear();
        self.chunk.extend_from_slice(&buffer[..count])?;
        Ok(())
    }

    // Read more bytes if all are consumed.
    fn top_up<S: Source>(&mut self, input: &mut S) -> Result<(), InputError>
        requires unread { S.failed input.old ≡ false }
        ensures same_reference { S.lender input.new ≡ S.lender input.old }
        ensures topped { IsToppedUp (S.remaining input.old) (S.remaining input.new) (S.failed input.new)
            (pending self.old) (pending self.new) result }
        ensures line { self.new.line ≡ self.old.line }
    {
        if self.taken == self.chunk.len() {
            return self.fill(input);
        }
        Ok(())
    }

    // Consume the next byte and return it, or `None` at the end of the input.
    fn next_byte<S: Source>(&mut self, input: &mut S) -> Result<Option<u8>, InputError>
        requires unread { S.failed input.old ≡ false }
        ensures same_reference { S.lender input.new ≡ S.lender input.old }
        ensures next { IsNextByte (S.remaining input.old) (S.remaining input.new) (S.failed input.new)
            (pending self.old) (pending self.new) result }
        ensures line { self.new.line ≡ self.old.line }
    {
        self.top_up(input)?;
        if self.taken == self.chunk.len() {
            return Ok(None);
        }
        let byte = self.chunk[self.taken];
        self.taken += 1;
        Ok(Some(byte))
    }

    // Append a byte to the line.
    fn keep(&mut self, byte: u8) -> Result<(), InputError>
        ensures kept { OnOk result (self.new.line.items ≡ self.old.line.items ++ byte ∷ []) }
        ensures err { IfErr result (λ e. e ≡ errors.Memory) }
        ensures pending { pending self.new ≡ pending self.old }
    {
        match self.line.push(byte) {
            Ok(()) => Ok(()),
            Err(_) => Err(InputError::Memory),
        }
    }

    /// Read the next line.
    ///
    /// No read is retried.
    ///
    /// # Errors
    ///
    /// - `TooLarge` if the line has more than 1,073,741,824 bytes, not counting the line feed.
    /// - `Fault` if a read failed.
    /// - `Memory` only if memory is refused.
    pub(crate) fn read<T: Wait, S: Source>(
        &mut self,
        rt: &T,
        input: &mut S,
    ) -> Result<(), InputError>
        requires unread { S.failed input.old ≡ false }
        ensures same_reference { S.lender input.new ≡ S.lender input.old }
        ensures read { IsLineRead (S.remaining input.old) (S.remaining input.new) (S.failed input.new)
            (pending self.old) (pending self.new) self.new.line.items result }
    {
        self.line.clear();
        'bytes: for _ in rt.forever() {
            let Some(byte) = self.next_byte(input)? else {
                return Ok(());
            };
            if byte == b'\n' {
                return self.keep(byte);
            }
            if LINE_LIMIT <= self.line.len() {
                return Err(InputError::TooLarge);
            }
            self.keep(byte)?;
        }
        unreachable!()
    }
}
