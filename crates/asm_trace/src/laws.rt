//! The laws of traces. Each function does nothing; its contract is the law.
ghost use Rattle.asm_trace.specs.Text.{OneTrace, LegalTrace, FirstWrongIsCorrected, ChangesReachState, WithoutListsDifference, RecountsListCounts};

/// State that a history has at most one trace.
pub fn one_trace()
    ensures { OneTrace }
{}

/// State that the trace of a legal history reports no wrong answer.
///
/// If an event has the first wrong answer of a history, its note is the first that has the right one.
pub fn wrong_answers()
    ensures legal { LegalTrace }
    ensures first { FirstWrongIsCorrected }
{}

/// State that the changes in a trace leave what the history's moves leave.
///
/// They are made one after the other on the opening state. The state is the one that `replay` of `asm_journal` gives.
pub fn changes_reach_state()
    ensures { ChangesReachState }
{}

/// State that a set change lists the added and removed elements.
///
/// Those are elements that were there and aren't, or the other way about. A bag change lists the counts of both bags
/// where they differ.
pub fn changes_list_differences()
    ensures sets { WithoutListsDifference }
    ensures bags { RecountsListCounts }
{}
