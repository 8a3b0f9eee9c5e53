//! Scripts, which say what the agents of a machine do: how they are read from texts, what each step reads, and the one
//! move that a step makes.
#![tactic(auto)]

mod block;
mod fault;
mod parsing;
mod ready;
mod script;
mod step;
mod term;
mod term_form;

pub use block::{TermAction, TermInstruction};
pub use fault::{FaultyTerm, StepFault};
pub use parsing::{parse_script, read_script};
pub use script::{Script, ScriptCause, ScriptError};
pub use step::{Step, step_move};
pub use term::{Found, NoValue, Term};
