//! Moves of an abstract state machine: update instructions, consistency and firing.
#![tactic(auto)]

mod action;
mod aggregator;
mod clash;
mod consistency;
mod error;
mod fire;
mod group;
mod instructions;
mod lookup;
mod plain_state;
mod proper;
mod update_set;

pub use action::{Action, Amount, Family, Instruction};
pub use aggregator::Aggregator;
pub use clash::{AggError, Cause, Clash};
pub use consistency::consistent;
pub use error::{JoinError, ResultError};
pub use fire::fire_plain;
pub use group::Group;
pub use instructions::{INSTRUCTIONS_LIMIT, Instructions, InstructionsError};
pub use lookup::Lookup;
pub use plain_state::PlainState;
pub use update_set::UpdateSet;
