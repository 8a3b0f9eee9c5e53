//! Playing a script: its agents on one storage, each on a thread of its own, behind a gate.
#![tactic(auto)]

pub mod aggregator;
mod gate;
mod outcome;
mod play;
mod player;
mod read_values;
mod step_end;
mod workers;

pub use gate::{Gate, Open, Passage};
pub use outcome::{Outcome, Played, PlayedWithTerms, RunError, StepTerm};
pub use play::{run_script, run_script_with_terms};
pub use player::{PlayedAgent, Player};
pub use step_end::StepEnd;
