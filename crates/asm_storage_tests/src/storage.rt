//! Tests of `asm_storage`.
mod asked;
mod closings;
mod contests;
mod equality;
mod errors;
mod fires_on_threads;
mod limits;
mod named_reads;
mod performing;
mod reads_on_threads;
mod rows;
mod taken_states;
mod two_agents;
mod workers;
