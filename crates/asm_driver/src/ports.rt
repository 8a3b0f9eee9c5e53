//! The program's input and output, each of which records whether a call of it failed.

pub(crate) mod folder;
pub(crate) mod input;
pub(crate) mod line_reader;
pub(crate) mod output;
pub(crate) mod sink;
pub(crate) mod source;

/// Failure of a call: a read, a write, a write that took no byte, or the flush.
#[derive(Clone, Copy, Debug, PartialEq, Eq)]
pub struct PortFailed;
