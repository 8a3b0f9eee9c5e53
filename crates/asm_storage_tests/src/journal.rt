//! Tests of `asm_journal` and `asm_audit`, of what no case of the program shows.
mod audits;
mod errors;
mod forms;
mod outputs;
mod replays;
