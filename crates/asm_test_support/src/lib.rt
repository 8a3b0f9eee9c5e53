//! What the tests of several crates share; no library or program uses it.
#![tactic(auto)]

mod apart;
mod error_kinds;
mod plain_data;
mod reported;
mod resultless;

pub use apart::are_distinct;
pub use error_kinds::ERROR_KINDS;
pub use plain_data::{Zero, location, location_at, number, value};
pub use reported::{clash_at, has_text, is_clash};
pub use resultless::Resultless;
