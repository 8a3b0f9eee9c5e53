//! Transactions of an agent: tracked reads of the state at one version, moves pushed over it, and their commit.
//!
//! A `Transaction` borrows nothing: each call is lent the agent that began it. Its commit fires one move that does what
//! all pushed moves do in turn, unless a move since its version has written what the transaction has read.
#![tactic(auto)]

mod committing;
mod counting;
mod depending;
mod error;
mod laws;
mod members;
mod part;
mod popping;
mod pushing;
mod reading;
mod recording;
mod refusing;
mod scanning;
mod staged;
mod standing;
mod tracking;
mod transaction;

pub use error::{PopError, PushError, TransactionError};
pub use laws::keeps;
pub use refusing::refusal_places;
pub use transaction::Transaction;
