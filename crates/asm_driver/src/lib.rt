//! The driver of an abstract state machine's agents.
//!
//! It reports on played scripts, and runs the complete program over any input and output.
#![tactic(auto)]

mod ports;
mod program;
mod reporting;
mod shown;
mod terms;

pub use asm_play::{Gate, Open, Outcome, Played, RunError, run_script};
pub use asm_script::{Script, ScriptCause, ScriptError, parse_script};
pub use ports::PortFailed;
pub use ports::folder::Folder;
pub use ports::input::InputError;
pub use program::{bare_program, run_folder, run_given, run_main, segment_files, subcommands};
pub use reporting::report;
pub use shown::shown_text;
