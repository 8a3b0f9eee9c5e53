use asm_update::Instructions;

/// A move in the row of a storage.
#[derive(Debug, Drop, PartialEq, Eq)]
pub struct Entry {
    /// The agent that fired it.
    pub agent: u32,
    /// Its instructions.
    pub instrs: Instructions,
}
