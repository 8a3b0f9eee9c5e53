//! Tests of the crates from `asm_element` to `asm_state`, which see their public items alone.
#![tactic(auto)]

#[cfg(test)]
mod aggregate;
#[cfg(test)]
mod state;
#[cfg(test)]
mod update;
