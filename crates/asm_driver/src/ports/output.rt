//! The output.
ghost use Rattle.std.specs.Prelude.{◌≡◌, true, false, is_err, OnOk, OnErr};
ghost use Rattle.std.specs.Io.KnownBytes.{Appends};
ghost use Rattle.asm_driver.specs.Ports.{AppendsSome};

use crate::ports::PortFailed;
use crate::ports::sink::Sink;

/// Write the complete text and flush it.
///
/// No call is retried.
///
/// # Errors
///
/// - `PortFailed` if a call failed; the first bytes of the text may then have gone out.
pub fn write_whole<K: Sink>(output: &mut K, text: &[u8]) -> Result<(), PortFailed>
    requires { K.failed output.old ≡ false }
    ensures same_reference { K.lender output.new ≡ K.lender output.old }
    ensures ok { OnOk result (Appends (K.contents output.old) (K.contents output.new) text.now) }
    ensures flushed { OnOk result (K.flushed output.new ≡ true) }
    ensures err { OnErr result (AppendsSome (K.contents output.old) (K.contents output.new) text.now) }
    ensures noted { K.failed output.new ≡ is_err result }
{
    let mut rest = text;
    while !rest.is_empty() {
        let count = output.write(rest)?;
        rest = &rest[count..];
    }
    output.flush()
}
