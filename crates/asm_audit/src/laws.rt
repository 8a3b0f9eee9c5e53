//! The laws of audits. Each function does nothing; its contract is the law.
ghost use Rattle.asm_audit.specs.Laws.{OneLegal, OneIllegal, FirstFault, OneVerdict, OneRun, OneCount, OneState};

/// State that an audit of a run of one part reports what its journal's check does.
/// These are the reports of `from_text` and `check`.
pub fn one_journal()
    ensures legal { OneLegal }
    ensures illegal { OneIllegal }
    ensures fault { FirstFault }
{}

/// State that an audit reports one thing alone of a text.
/// This excludes refused memory and lines that are too long.
pub fn one_verdict()
    ensures { OneVerdict }
{}

/// State that the moves of parts that continue one another are one run.
/// All in turn, they are a run from the first opening state, and leave the state that the last part leaves.
pub fn one_run()
    ensures { OneRun }
{}

/// State that a text that was read has one count of each kind and leaves one state.
/// It may have been read completely or up to any line. The counts are those of calls, of moves and of complete parts.
pub fn one_so_far()
    ensures counts { OneCount }
    ensures state { OneState }
{}
