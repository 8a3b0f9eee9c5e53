//! Writing a journal to an output.
ghost use Rattle.std.specs.Prelude.{◌≡◌, ◌<◌, ℕ, length, OnOk, IfErr};
ghost use Rattle.std.specs.Io.KnownBytes.{Appends};
ghost use Rattle.asm_storage.specs.History.{Fits};
ghost use Rattle.asm_journal.specs.Text.{text_of, Stops};

use crate::error::WriteError;
use crate::writing::to_text;
use asm_storage::History;
use std::alloc::Global;
use std::io::Write;

/// Write all the bytes, or return how many went out.
fn write_bytes<W: Write>(out: &mut W, bytes: &[u8]) -> Result<(), WriteError>
    ensures ok { OnOk result (Appends (W.contents out.old) (W.contents out.new) bytes.now) }
    ensures err { IfErr result (Stops (W.contents out.old) (W.contents out.new) bytes.now) }
{
    let mut written = 0;
    while written < bytes.len() {
        match out.write(&bytes[written..]) {
            Ok(count) if count > 0 => written += count,
            _ => {
                return Err(WriteError::Output {
                    written: written as u64,
                });
            }
        }
    }
    Ok(())
}

/// Write the journal of a history to an output.
///
/// It makes the complete text, and then writes it in as many calls as it takes. The history must be within the limits
/// of a journal, which `History::fits` tests. The output isn't flushed.
///
/// # Errors
///
/// - `Output` only if a write failed or took no byte; the first `written` bytes of the text went out then.
/// - `Memory` only if memory is refused, and then nothing went out.
pub fn write_text<W: Write>(alloc: Global, out: &mut W, history: &History) -> Result<(), WriteError>
    requires { Fits history.now }
    ensures ok { OnOk result
        (Appends (W.contents out.old) (W.contents out.new) (text_of history.now)) }
    ensures err { IfErr result
        (Stops (W.contents out.old) (W.contents out.new) (text_of history.now)) }
    // Where the output failed, not all of the text went out.
    ensures part { IfErr result (λ e. (written : ℕ) → e ≡ WriteError.Output written
        → written < length (text_of history.now)) }
{
    let text = to_text(alloc, history)?;
    write_bytes(out, text.as_bytes())
}
