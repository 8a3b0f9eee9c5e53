//! Tests of `asm_element` and `asm_update`.
pub(crate) mod elements;
mod errors;
mod lists;
mod locations;
mod moves;
mod states;
