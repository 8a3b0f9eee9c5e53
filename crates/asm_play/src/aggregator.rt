//! The aggregator that scripts are played with.
ghost use Rattle.std.specs.Prelude.{◌≡◌};
ghost use Rattle.asm_aggregate.specs.Standard.{standard_meaning};

use asm_aggregate::{Standard, standard};
use asm_update::Aggregator;

/// Return the aggregator that scripts are played with.
///
/// It is that of sets, bags and counters, and is chosen here alone.
pub fn script_aggregator() -> Standard
    ensures { ⟦<Standard as Aggregator>⟧.meaning result ≡ standard_meaning }
{
    standard()
}
