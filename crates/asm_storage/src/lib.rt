//! Agents that share the state of an abstract state machine without locks, with a receipt of each answered call.
//!
//! A `Storage` has an opening state and a row for the moves that are fired. Each `Agent` of it follows that row with a
//! state of its own: it polls for new moves, validates its call on what it has then seen, and attempts to append its
//! move to the row. `Storage::close` merges the receipts of agents into one history, in which each answer is the one
//! that a sequential storage gives. No call waits or takes a lock.
//!
//! Where a comment says that memory is refused, this includes that more copies would share a list, a location's
//! arguments or an opening state than can be counted.
#![tactic(auto)]

mod agent;
mod call;
mod close;
mod entry;
mod error;
mod held_values;
mod history;
pub mod laws;
mod limits;
mod part;
mod proper;
mod reading;
mod receipt;
mod shared_lists;
mod storage;

pub use agent::{Agent, Mark};
pub use call::{Answer, Call, Reply};
pub use close::Closing;
pub use entry::Entry;
pub use error::{AgentsError, CloseError, FireError, ReadError, StorageError};
pub use held_values::{has_value, have_values};
pub use history::{Event, History};
pub use limits::{AGENTS_LIMIT, EVENTS_LIMIT, OFFERS_LIMIT, READS_LIMIT};
pub use part::AgentPart;
pub use reading::{NamedReading, Reading};
pub use receipt::Receipt;
pub use storage::Storage;
