//! The audit of a complete input.
ghost use Rattle.std.specs.Prelude.{IfSome, []};
ghost use Rattle.asm_audit.specs.Audited.{IsInputVerdict};
ghost use Rattle.asm_audit.specs.Fed.{IsFed};

use crate::byte_auditor::ByteAuditor;
use crate::error::AuditInputError;
use crate::progress::Counts;
use asm_update::Aggregator;
use std::alloc::Global;
use std::io::Read;

// How many bytes are requested at once.
const CHUNK: usize = 4096;

/// Feed the input to the auditor, up to its end or an error.
fn feed_input<A: Aggregator + Drop, R: Read>(
    alloc: Global,
    auditor: &mut ByteAuditor<A>,
    input: &mut R,
) -> Result<Counts, AuditInputError>
    requires { IsFed (A.meaning auditor.old.auditor.aggregator).part [] auditor.old.auditor.progress
        auditor.old.line.items }
    ensures { IfSome (R.remaining input.old) (λ text.
        IsInputVerdict (A.meaning auditor.old.auditor.aggregator).part text result) }
{
    let mut buffer = [0u8; CHUNK];
    'chunks: for _ in 0..u64::MAX {
        let count = match input.read(&mut buffer) {
            Ok(count) => count,
            Err(_) => return Err(AuditInputError::Input),
        };
        if count == 0 {
            return Ok(auditor.finish(alloc)?);
        }
        auditor.feed(alloc, &buffer[..count])?;
    }
    Err(AuditInputError::Input)
}

/// Audit the run in an input, and return how many calls, moves and parts it has.
/// It reads no further than the chunk of 4,096 bytes in which an error occurs. It holds the state, one line and a chunk.
///
/// # Errors
/// - `AuditInputError::Audit` has the error of a `ByteAuditor`.
/// - `Input` only if a read failed, or after 18,446,744,073,709,551,615 reads; no read is repeated.
pub fn audit<A: Aggregator + Drop, R: Read>(
    alloc: Global,
    aggregator: A,
    input: &mut R,
) -> Result<Counts, AuditInputError>
    ensures { IfSome (R.remaining input.old) (λ text. IsInputVerdict (A.meaning aggregator).part text result) }
{
    let mut auditor = ByteAuditor::new(alloc, aggregator);
    let counts = feed_input(alloc, &mut auditor, input);
    counts
}
