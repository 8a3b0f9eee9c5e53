//! Traces of histories: what each answered call did.
#![tactic(auto)]

mod bags;
mod changes;
mod json;
pub mod laws;
mod named;
mod notes;
mod sets;
mod tracing;

pub use tracing::{push_standard_note, standard_trace_text, trace_text};
