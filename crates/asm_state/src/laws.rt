//! The law of stale reads. The function does nothing; its contract is the law.
ghost use Rattle.asm_state.specs.LeastNamed.{FindsLeast};

/// State that a walk along the declared reads finds the smallest stale location.
///
/// That is the smallest location that is declared with a number at which it is stale. The walk finds none exactly if
/// there is no such location.
pub fn finds_least()
    ensures { FindsLeast }
{}
