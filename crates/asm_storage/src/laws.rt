//! The laws of histories. The function does nothing; its contract is the law.
ghost use Rattle.asm_storage.specs.History.{CallsDecideAnswers, CallsDecideMoves};

/// State that the calls of a legal history, in order, decide its answers and moves.
///
/// The opening state, the capacity and the aggregator must be the same.
pub fn calls_decide()
    ensures answers { CallsDecideAnswers }
    ensures moves { CallsDecideMoves }
{}
