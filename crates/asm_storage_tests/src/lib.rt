//! Tests of `asm_row`, `asm_storage`, `asm_journal` and `asm_audit`, which see their public items alone.
#![tactic(auto)]

#[cfg(test)]
mod journal;
#[cfg(test)]
mod row;
#[cfg(test)]
mod storage;
