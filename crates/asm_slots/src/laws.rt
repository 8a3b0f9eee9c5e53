//! The law of a journal's lines. The function does nothing; its contract is the law.
ghost use Rattle.asm_slots.specs.FittingLines.{FiresFit, ReadsFit, StatesFit};

/// State that an audit reads the line of each fire, read and opening state that isn't too long.
///
/// The fire may have any reply of a sequential storage. The read returns the values with which it isn't too long.
pub fn lines_fit()
    ensures fires { FiresFit }
    ensures reads { ReadsFit }
    ensures states { StatesFit }
{}
