use asm_element::Location;
use asm_update::{Clash, UpdateSet};

/// What becomes of a move on a state.
#[derive(Debug, Drop, PartialEq, Eq)]
pub enum Verdict {
    /// A declared read is stale: the smallest location written since it was read.
    Stale(Location),
    /// The move clashes: the smallest location without a result, and the cause.
    Clash(Clash),
    /// The move fires: its update set.
    Ready(UpdateSet),
}

/// Why a move doesn't fire on a state.
#[derive(Debug, Drop, PartialEq, Eq)]
pub enum Objection {
    /// A declared read is stale: the smallest location written since it was read.
    Stale(Location),
    /// The move clashes: the smallest location without a result, and the cause.
    Clash(Clash),
}
