//! Durable runs: the names of segments and the chain of their digests, their reading, and how one is saved or dropped,
//! so that no crash loses one that was reported as saved.
//!
//! Nothing here makes a call of the system: a `RunWriter` says which one comes next, and a `RunReader` takes the bytes of
//! each text once.
#![tactic(auto)]

mod end;
mod error;
mod handing;
mod judge;
pub mod laws;
mod name;
mod reader;
mod segment;
mod stage;
mod trail;
mod writer;

pub use end::{RunEnd, SEGMENT_LIMIT};
pub use error::{ReadError, WriteError};
pub use judge::Judge;
pub use name::SegmentName;
pub use reader::RunReader;
pub use segment::SegmentReader;
pub use stage::{Request, Stage};
pub use trail::{Place, Trail};
pub use writer::{Extent, RunWriter};
