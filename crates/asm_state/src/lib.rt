//! The state of an abstract state machine with the number of the move that wrote each location last.
//!
//! Where a comment says that memory is refused, this includes that more copies would share a location's arguments or an
//! opening state than can be counted.
#![tactic(auto)]

mod entries;
mod holding;
mod in_place;
pub mod laws;
mod listed;
mod named;
mod plain;
mod scanned;
mod shown;
mod state;
mod verdict;

pub use in_place::one_change;
pub use named::Named;
pub use scanned::Scanned;
pub use state::State;
pub use verdict::{Objection, Verdict};
