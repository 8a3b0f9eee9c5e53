//! The audit of the run on the input, which may report its progress.
ghost use Rattle.std.specs.Prelude.{◌≡◌, ◌↔◌, ◌∷◌, ◌++◌, false, [], List, ℕ, IfOk, IsTrue, OnOk, OnErr, is_err, string_bytes};
ghost use Rattle.asm_aggregate.specs.Standard.{standard_meaning, standard_part};
ghost use Rattle.asm_audit.specs.Fed.{IsFed};
ghost use Rattle.std.specs.Io.KnownBytes.{Appends};
ghost use Rattle.asm_driver.specs.Audit.{refusal_of_audit, legal_line as line_of_legal};
ghost use Rattle.asm_driver.specs.Ports.{AppendsSome};
ghost use Rattle.asm_driver.specs.Refusal.{refusal_of_input};
ghost use Rattle.asm_driver.specs.Watch.{so_far_line as line_of_counts, IsDue, AddsDue, IsWatched, IsWatchAnswer};
ghost use Rattle.asm_driver.specs.Watch.{is_unwritten, IsWrittenAnswer, IsWatchEnd};
ghost use Rattle.asm_driver.specs.declared.program.refusal.Refusal.TheVariants as refusals;
ghost use Rattle.asm_driver.specs.declared.program.watching.Stop.TheVariants as stops;

use crate::ports::PortFailed;
use crate::ports::input::InputError;
use crate::ports::output::write_whole;
use crate::ports::sink::Sink;
use crate::ports::source::Source;
use crate::program::refusal::Refusal;
use asm_audit::{AuditError, ByteAuditor, Counts};
use asm_play::aggregator::script_aggregator;
use asm_update::Aggregator;
use std::alloc::{AllocError, Global};
use std::sync::Wait;

// Number of bytes that a read asks for.
const CHUNK: usize = 4096;

/// Why an audit or a trace ends early.
#[derive(Clone, Copy, Debug, PartialEq, Eq)]
pub enum Stop {
    /// What is asked for is refused.
    Refused(Refusal),
    /// A call of the output failed.
    Unwritten,
}

impl From<PortFailed> for Stop {
    ghost from_gives = { λ _ s. s ≡ stops.Unwritten };

    fn from(_failed: PortFailed) -> Stop {
        Stop::Unwritten
    }
}

impl From<AllocError> for Stop {
    ghost from_gives = { λ _ s. s ≡ stops.Refused refusals.Memory };

    fn from(_refused: AllocError) -> Stop {
        Stop::Refused(Refusal::Memory)
    }
}

impl From<InputError> for Stop {
    ghost from_gives = { λ e s. s ≡ stops.Refused (refusal_of_input e) };

    fn from(error: InputError) -> Stop {
        Stop::Refused(Refusal::from(error))
    }
}

impl From<Refusal> for Stop {
    ghost from_gives = { λ r s. s ≡ stops.Refused r };

    fn from(refusal: Refusal) -> Stop {
        Stop::Refused(refusal)
    }
}

impl From<AuditError> for Stop {
    ghost from_gives = { λ e s. s ≡ stops.Refused (refusal_of_audit e) };

    fn from(error: AuditError) -> Stop {
        Stop::Refused(Refusal::from(error))
    }
}

/// Return the line of a legal run.
pub(crate) fn legal_line(alloc: Global, counts: Counts) -> Result<String, AllocError>
    ensures { IfOk result (λ text. string_bytes text ≡ line_of_legal counts) }
{
    let Counts {
        calls,
        moves,
        parts,
    } = counts;
    Ok(format!(in alloc; "legal {calls} {moves} {parts}\n")?)
}

/// Return the line with the progress of an audit.
fn so_far_line(alloc: Global, counts: Counts) -> Result<String, AllocError>
    ensures { IfOk result (λ text. string_bytes text ≡ line_of_counts counts) }
{
    let Counts {
        calls,
        moves,
        parts,
    } = counts;
    Ok(format!(in alloc; "so far {calls} {moves} {parts}\n")?)
}

/// Return whether a line with the progress is due.
///
/// It is due if there is a call more than before, and `every` isn't 0 and divides the number of calls.
fn is_due(every: u32, before: u64, calls: u64) -> bool
    ensures { IsTrue result ↔ IsDue every before calls }
{
    0 < every && before < calls && calls % u64::from(every) == 0
}

/// Append the line that is due, if one is.
pub(crate) fn add_due(
    alloc: Global,
    every: u32,
    before: Counts,
    counts: Counts,
    lines: &mut String,
) -> Result<(), AllocError>
    ensures ok { OnOk result (AddsDue every before counts (string_bytes lines.old) (string_bytes lines.new)) }
    ensures err { OnErr result (string_bytes lines.new ≡ string_bytes lines.old) }
{
    if !is_due(every, before.calls, counts.calls) {
        return Ok(());
    }
    let line = so_far_line(alloc, counts)?;
    lines.push_str(line.as_str())
}

/// Feed the bytes line by line, and append the line that is due after each.
fn take_bytes<A: Aggregator + Drop>(
    alloc: Global,
    every: u32,
    auditor: &mut ByteAuditor<A>,
    bytes: &[u8],
    lines: &mut String,
) -> Result<(), AuditError>
    requires { A.meaning auditor.old.auditor.aggregator ≡ standard_meaning }
    ensures aggregator { auditor.new.auditor.aggregator ≡ auditor.old.auditor.aggregator }
    ensures reported { (text before : List ℕ)
        → IsWatched every text auditor.old.auditor.progress auditor.old.line.items (before ++ string_bytes lines.old)
        → IsWatchAnswer every text bytes.now auditor.new.auditor.progress auditor.new.line.items
        (before ++ string_bytes lines.new) result }
{
    let mut rest = bytes;
    while !rest.is_empty() {
        let before = auditor.counts();
        let (count, fed) = auditor.feed_line(alloc, rest);
        rest = &rest[count..];
        fed?;
        add_due(alloc, every, before, auditor.counts(), lines)?;
    }
    Ok(())
}

/// Write the lines and flush them, if there are any.
pub(crate) fn write_lines<K: Sink>(output: &mut K, lines: &str) -> Result<(), PortFailed>
    requires { K.failed output.old ≡ false }
    ensures same_reference { K.lender output.new ≡ K.lender output.old }
    ensures ok { OnOk result (Appends (K.contents output.old) (K.contents output.new) lines.now) }
    ensures err { OnErr result (AppendsSome (K.contents output.old) (K.contents output.new) lines.now) }
    ensures noted { K.failed output.new ≡ is_err result }
{
    if lines.is_empty() {
        return Ok(());
    }
    write_whole(output, lines.as_bytes())
}

/// Feed the bytes, and write the lines that become due.
fn watch_bytes<A: Aggregator + Drop, K: Sink>(
    alloc: Global,
    every: u32,
    auditor: &mut ByteAuditor<A>,
    bytes: &[u8],
    output: &mut K,
) -> Result<(), Stop>
    requires meaning { A.meaning auditor.old.auditor.aggregator ≡ standard_meaning }
    requires output { K.failed output.old ≡ false }
    ensures aggregator { auditor.new.auditor.aggregator ≡ auditor.old.auditor.aggregator }
    ensures same_reference { K.lender output.new ≡ K.lender output.old }
    ensures reported { (text before : List ℕ)
        → IsWatched every text auditor.old.auditor.progress auditor.old.line.items before
        → IsWrittenAnswer every text bytes.now auditor.new.auditor.progress auditor.new.line.items before
        (K.contents output.old) (K.contents output.new) result }
    ensures noted { K.failed output.new ≡ is_unwritten result }
{
    let mut lines = String::new(alloc);
    let fed = take_bytes(alloc, every, auditor, bytes, &mut lines);
    write_lines(output, lines.as_str())?;
    Ok(fed?)
}

/// Feed the input to the auditor, and write the lines that are due.
///
/// It stops at the input's end, or at the first error. No call is retried.
fn watch_all<T: Wait, A: Aggregator + Drop, S: Source, K: Sink>(
    rt: &T,
    alloc: Global,
    every: u32,
    auditor: &mut ByteAuditor<A>,
    input: &mut S,
    output: &mut K,
) -> Result<Counts, Stop>
    requires unread { S.failed input.old ≡ false }
    requires unwritten { K.failed output.old ≡ false }
    requires meaning { A.meaning auditor.old.auditor.aggregator ≡ standard_meaning }
    requires fed { IsFed standard_part [] auditor.old.auditor.progress auditor.old.line.items }
    ensures same_input { S.lender input.new ≡ S.lender input.old }
    ensures same_output { K.lender output.new ≡ K.lender output.old }
    ensures reported { IsWatchEnd every (S.remaining input.old) (S.remaining input.new) (S.failed input.new)
        (K.contents output.old) (K.contents output.new) result }
    ensures noted { K.failed output.new ≡ is_unwritten result }
{
    let mut buffer = [0u8; CHUNK];
    'chunks: for _ in rt.forever() {
        let count = match input.read(&mut buffer) {
            Ok(count) => count,
            Err(_) => return Err(Stop::Refused(Refusal::InputFault)),
        };
        if count == 0 {
            return Ok(auditor.finish(alloc)?);
        }
        watch_bytes(alloc, every, auditor, &buffer[..count], output)?;
    }
    unreachable!()
}

/// Audit the run on the input, and write its progress.
///
/// It stops at the input's end, or at the first error. It writes its progress after each `every` calls,
/// or never if `every` is 0. It holds one state and one line.
pub(crate) fn watched<T: Wait, S: Source, K: Sink>(
    rt: &T,
    alloc: Global,
    every: u32,
    input: &mut S,
    output: &mut K,
) -> Result<Counts, Stop>
    requires unread { S.failed input.old ≡ false }
    requires unwritten { K.failed output.old ≡ false }
    ensures same_input { S.lender input.new ≡ S.lender input.old }
    ensures same_output { K.lender output.new ≡ K.lender output.old }
    ensures reported { IsWatchEnd every (S.remaining input.old) (S.remaining input.new) (S.failed input.new)
        (K.contents output.old) (K.contents output.new) result }
    ensures noted { K.failed output.new ≡ is_unwritten result }
{
    let mut auditor = ByteAuditor::new(alloc, script_aggregator());
    let counts = watch_all(rt, alloc, every, &mut auditor, input, output);
    counts
}
