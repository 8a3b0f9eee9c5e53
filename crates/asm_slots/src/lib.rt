//! Slots that hold a storage, an agent, a step, a location, a move, an audit or a run: the base of the calls of the
//! library for C.
//!
//! A slot is in the memory of the caller; one of zeros holds nothing. Each agent owns a share of its storage, so slots
//! may be released in any order. Texts are those of journals. Each call returns a code.
#![tactic(auto)]

mod agent_steps;
mod audit;
pub mod auditing;
mod closed_journal;
pub mod codes;
pub mod committing;
pub mod composing;
mod content;
pub mod counting;
mod explaining;
pub mod getting_all;
pub mod giving;
mod handle;
mod holding;
pub mod instructing;
pub mod journals;
pub mod laws;
pub mod learning;
mod line_room;
mod long_lines;
pub mod members;
pub mod opening;
mod operands;
pub mod own_state;
mod owned_agent;
mod parsing;
pub mod popping;
pub mod pushing;
pub mod pushing_at;
mod raw_box;
pub mod read_and_fire;
pub mod reading_moves;
mod reading_scans;
mod run;
pub mod running;
mod shared;
mod short_lines;
mod slot;
pub mod standing;
pub mod steps;
mod store;
pub mod store_agents;
mod store_close;
mod take_and_put;
mod value_head;

pub use audit::{Audit, AuditNumbers};
pub use codes::{Code, answer};
pub use content::Content;
pub use explaining::explain;
pub use owned_agent::OwnedAgent;
pub use pushing::PushMode;
pub use read_and_fire::Numbers;
pub use reading_moves::InstructionHead;
pub use run::{Run, RunNumbers, Segment};
pub use shared::{Shared, are_one};
pub use slot::Slot;
pub use store::Store;
pub use store_close::Unclosed;
pub use value_head::ValueHead;
