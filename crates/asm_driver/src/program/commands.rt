//! What the commands do with the input.
ghost use Rattle.std.specs.Prelude.{◌≡◌, ◌≢◌, ℕ, false, IfOk, IfErr, string_bytes};
ghost use Rattle.asm_driver.specs.declared.program.words.Request.TheVariants as requests;
ghost use Rattle.asm_driver.specs.declared.program.words.Window.{Window as Wanted};
ghost use Rattle.asm_driver.specs.Commands.{text_of_played, IsNoText, IsRunText, IsTermsText, IsNoRun, IsCheck};
ghost use Rattle.asm_driver.specs.Commands.{IsNoJournal, IsRewrite};
ghost use Rattle.asm_driver.specs.Commands.{legality_line, legality_status, IsDone, IsNotDone};

use crate::program::explained::explained;
use crate::program::refusal::Refusal;
use crate::program::words::Request;
use crate::reporting::report_of_owned;
use crate::terms::terms_text;
use asm_journal::{Legality, check, from_text, to_text};
use asm_play::aggregator::script_aggregator;
use asm_play::{Open, Played, PlayedWithTerms, run_script, run_script_with_terms};
use asm_script::parse_script;
use std::alloc::{AllocError, Global};
use std::sync::Wait;
use std::thread::Threads;

/// The answer: the program's status, and the text that it writes.
#[derive(Drop)]
pub(crate) struct Ending {
    pub(crate) status: u8,
    pub(crate) text: String,
}

/// Return the text of a played script: its journal if asked for, else its report.
fn played_text(alloc: Global, played: Played, journal: bool) -> Result<String, Refusal>
    ensures ok { IfOk result (λ text. string_bytes text ≡ text_of_played journal played) }
    ensures err { IfErr result (IsNoText journal played) }
{
    if !journal {
        return Ok(report_of_owned(alloc, played)?);
    }
    if !played.history.fits() {
        return Err(Refusal::Unfit);
    }
    Ok(to_text(alloc, &played.history)?)
}

/// Read the bytes as a script, and play it.
fn run<T: Threads + Wait + Sync>(
    rt: &T,
    alloc: Global,
    bytes: &[u8],
    capacity: u32,
    journal: bool,
) -> Result<String, Refusal>
    ensures ok { IfOk result (λ text. IsRunText bytes.now capacity journal (string_bytes text)) }
    ensures err { IfErr result (IsNoRun bytes.now capacity journal) }
{
    let script = parse_script(alloc, bytes)?;
    let played = run_script(rt, alloc, &script, capacity, &Open)?;
    played_text(alloc, played, journal)
}

/// Read the bytes as a script, play it, and return the report with its terms.
///
/// Behind the report are lines that say where terms had no value, and why.
fn run_with_terms<T: Threads + Wait + Sync>(
    rt: &T,
    alloc: Global,
    bytes: &[u8],
    capacity: u32,
) -> Result<String, Refusal>
    ensures ok { IfOk result (λ text. IsTermsText bytes.now capacity (string_bytes text)) }
    ensures err { IfErr result (IsNoRun bytes.now capacity false) }
{
    let script = parse_script(alloc, bytes)?;
    let play = run_script_with_terms(rt, alloc, &script, capacity, &Open)?;
    let PlayedWithTerms { played, terms } = play;
    let reported = terms_text(alloc, terms.as_slice())?;
    let mut text = report_of_owned(alloc, played)?;
    text.push_str(reported.as_str())?;
    Ok(text)
}

/// Return the line and the status of a check.
fn legality_ending(alloc: Global, legality: Legality) -> Result<Ending, AllocError>
    ensures status { IfOk result (λ e. e.status ≡ legality_status legality) }
    ensures text { IfOk result (λ e. string_bytes e.text ≡ legality_line legality) }
{
    Ok(match legality {
        Legality::Legal { calls, moves } => Ending {
            status: 0,
            text: format!(in alloc; "legal {calls} {moves}\n")?,
        },
        Legality::Illegal { call } => Ending {
            status: 1,
            text: format!(in alloc; "illegal {call}\n")?,
        },
    })
}

/// Read the bytes as a journal, and check it.
fn check_journal(alloc: Global, bytes: &[u8]) -> Result<Ending, Refusal>
    ensures ok { IfOk result (λ e. IsCheck bytes.now e.status (string_bytes e.text)) }
    ensures err { IfErr result (IsNoJournal bytes.now) }
{
    let history = from_text(alloc, bytes)?;
    let legality = check(alloc, &script_aggregator(), &history)?;
    Ok(legality_ending(alloc, legality)?)
}

/// Read the bytes as a journal, legal or not, and write it again.
///
/// What was read always fits a journal.
fn rewrite(alloc: Global, bytes: &[u8]) -> Result<String, Refusal>
    ensures ok { IfOk result (λ text. IsRewrite bytes.now (string_bytes text)) }
    ensures err { IfErr result (IsNoJournal bytes.now) }
{
    let history = from_text(alloc, bytes)?;
    Ok(to_text(alloc, &history)?)
}

/// Carry out the request on the bytes of the complete input.
pub(crate) fn carry_out<T: Threads + Wait + Sync>(
    rt: &T,
    alloc: Global,
    request: Request,
    bytes: &[u8],
) -> Result<Ending, Refusal>
    requires audit { (every : ℕ) → request ≢ requests.Audit every }
    requires show { (w : Wanted) → request ≢ requests.Show w }
    requires trace { request ≢ requests.Trace }
    ensures ok { IfOk result (λ e. IsDone bytes.now request e.status (string_bytes e.text)) }
    ensures err { IfErr result (IsNotDone bytes.now request) }
{
    match request {
        Request::Run { capacity, journal } => Ok(Ending {
            status: 0,
            text: run(rt, alloc, bytes, capacity, journal)?,
        }),
        Request::Terms { capacity } => Ok(Ending {
            status: 0,
            text: run_with_terms(rt, alloc, bytes, capacity)?,
        }),
        Request::Check => check_journal(alloc, bytes),
        Request::Rewrite => Ok(Ending {
            status: 0,
            text: rewrite(alloc, bytes)?,
        }),
        Request::Trace => unreachable!(),
        Request::Show(_) => unreachable!(),
        Request::Audit { every: _ } => unreachable!(),
        Request::Explain(kind) => Ok(explained(alloc, kind, bytes)?),
    }
}
