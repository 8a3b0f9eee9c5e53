//! The audit of runs of any length: their parts, journals one after the other, are checked as they come.
#![tactic(auto)]

mod auditor;
mod byte_auditor;
mod error;
pub mod laws;
mod part_auditor;
mod progress;
mod reading;

pub use auditor::Auditor;
pub use byte_auditor::{ByteAuditor, LINE_LIMIT};
pub use error::{AuditError, AuditInputError};
pub use part_auditor::{PartAuditor, read_part_header};
pub use progress::Counts;
pub use reading::audit;
