//! The laws of the journal's text, and of a run that continues. Each function does nothing; its contract is the law.
ghost use Rattle.std.specs.Prelude.{◌≡◌};
ghost use Rattle.asm_storage.specs.History.{Fits};
ghost use Rattle.asm_storage.specs.declared.history.History.{History as Log};
ghost use Rattle.asm_journal.specs.Text.{text_of};
ghost use Rattle.asm_journal.specs.Reading.{ReadsAs, TextReadsBack, OneReading, RewrittenReadsBack};
ghost use Rattle.asm_journal.specs.Fault.{RefusedReadsAsNone, OneFault, SomeFault};
ghost use Rattle.asm_journal.specs.Next.{RunContinues};

use asm_storage::History;

/// State that the text of a well-formed history that fits a journal reads as it.
#[tactic(auto, using(crate::proofs::RoundTrip::text_reads))]
pub fn text_reads_back()
    ensures { TextReadsBack }
{}

/// State that a text reads as one history at most.
pub fn one_reading()
    ensures { OneReading }
{}

/// State that a history that was read may be written again.
///
/// It was read from a journal of either version, and the new text reads as the same history.
pub fn rewritten_reads_back()
    ensures { RewrittenReadsBack }
{}

/// State that a text with a fault reads as no history.
///
/// An allocation failure is no fault of the text.
pub fn refused_reads_as_none()
    ensures { RefusedReadsAsNone }
{}

/// State that a text has at most one first fault, and one if it is no history.
///
/// An allocation failure is no fault of the text.
pub fn one_fault()
    ensures one { OneFault }
    ensures some { SomeFault }
{}

/// State that the text of a history that fits a journal reads as it and no other.
pub fn reads_back(history: &History)
    requires { Fits history.now }
    ensures back { ReadsAs (text_of history.now) history.now }
    ensures only { (h : Log) → ReadsAs (text_of history.now) h → h ≡ history.now }
{
    history.proper();
    text_reads_back();
    one_reading();
}

/// State that a history and its continuation are one run.
///
/// These are the moves of a history, and then those of another whose storage opened with the state that the first ones
/// leave. They are one run from the first opening state.
#[tactic(auto, using(crate::proofs::GoesOn::run_continues))]
pub fn run_continues()
    ensures { RunContinues }
{}
