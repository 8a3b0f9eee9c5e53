//! A row of cells that are set once: threads agree on its entries one by one, without locks.
//!
//! Each thread follows the row through a seat of its own. A seat touches cells in two ways: it polls a cell, or it sets
//! the first unseen cell if that is empty. If another thread set the cell first, a poll of it returns the entry of that
//! thread. Whatever else a seat does reads or passes on what was seen, and touches no cell. A cell that is set never
//! changes its entry, so the seats of one row have seen prefixes of one list. A seat borrows the row; a value that
//! holds the row and also follows it has a `Progress` instead of a seat.
#![tactic(auto)]

mod known_prefix;
mod mark;
mod progress;
mod row;
mod seat;

pub use mark::Mark;
pub use progress::Progress;
pub use row::{CAPACITY_LIMIT, Row, RowError};
pub use seat::{Offer, Seat};
