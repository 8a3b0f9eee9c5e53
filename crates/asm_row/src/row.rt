ghost use Rattle.std.specs.Prelude.{◌≡◌, ◌<◌, ◌≤◌, ◌↔◌, [], length, slice_get, IfOk, IsOk, IsErrOf};
ghost use Rattle.once_cell.specs.Once.{cell_name};
ghost use Rattle.asm_row.specs.Limits.{capacity_limit, IsNoCapacity};
ghost use Rattle.asm_row.specs.declared.row.RowError.TheVariants.{Memory};

use crate::progress::Progress;
use crate::seat::Seat;
use once_cell::race::OnceBox;
use std::alloc::{AllocError, Global};
use std::marker::Model;
use thiserror::Error;

/// The greatest capacity of a row.
pub const CAPACITY_LIMIT: u32 = 1_048_576;

/// Why a row was not made.
#[derive(Debug, Drop, PartialEq, Eq, Error)]
pub enum RowError {
    /// The capacity is 0 or above 1,048,576.
    ///
    /// This is found before any memory is asked for.
    #[error("the capacity is not in 1 to 1,048,576")]
    BadCapacity,
    /// The memory for the cells was refused.
    #[error("out of memory")]
    Memory,
}

impl From<AllocError> for RowError {
    ghost from_gives = { λ _ e. e ≡ Memory };

    fn from(_error: AllocError) -> RowError {
        RowError::Memory
    }
}

/// A row of cells, each set at most once, which threads share.
///
/// It is the list of consensus objects of a universal construction (Herlihy and Shavit, "The Art of Multiprocessor
/// Programming"): threads that poll it and append to it agree on one list of entries. It is `Sync` if `T` is `Send` and
/// `Sync`. The number of cells is fixed (this project's profile). An entry exists as long as the row, and is dropped
/// with it. Contracts see a row as the names of its cells, which distinguish it from other rows; only seats know the
/// entries of the cells.
#[derive(Drop)]
pub struct Row<T> {
    cells: Vec<OnceBox<T>>,
}

impl<T> Model for Row<T> {
    ghost use Rattle.std.specs.Prelude.{ℕ, List, ◌<◌, ◌≤◌, length};
    ghost use Rattle.asm_row.specs.Limits.{capacity_limit};
    ghost use Rattle.asm_row.specs.Row.{cell_names};

    ghost Value = { List ℕ };

    ghost view = { λ r. cell_names r.cells.items };

    ghost invariant = { λ r. (0 < length r.cells.items) × (length r.cells.items ≤ capacity_limit) };
}

impl<T: Drop> Row<T> {
    /// Return a row of `capacity` empty cells, from 1 to 1,048,576.
    ///
    /// # Errors
    ///
    /// - `RowError::BadCapacity` exactly for another capacity.
    /// - `Memory` only if the memory for the cells was refused.
    #[tactic(auto, using(crate::proofs::Cells::names))]
    pub fn new(alloc: Global, capacity: u32) -> Result<Row<T>, RowError>
        ensures ok { IfOk result (λ row. length row ≡ capacity) }
        ensures bad { IsErrOf result RowError.BadCapacity ↔ IsNoCapacity capacity }
    {
        if capacity == 0 || capacity > CAPACITY_LIMIT {
            return Err(RowError::BadCapacity);
        }
        let capacity = capacity as usize;
        let mut cells = Vec::with_capacity(alloc, capacity)?;
        cells.resize_with(capacity, || OnceBox::new(alloc))?;
        Ok(Row { cells })
    }
}

impl<T> Row<T> {
    /// Return the number of cells, which the row was made with: 1 to 1,048,576.
    #[tactic(auto, using(crate::proofs::Cells::names))]
    pub fn capacity(&self) -> u32
        ensures value { result ≡ length self.now }
        ensures within { (0 < length self.now) × (length self.now ≤ capacity_limit) }
    {
        self.cells.len() as u32
    }

    /// Return a seat at this row that has seen nothing, with no win and no miss.
    ///
    /// The answer is always `Ok`: a seat has no copy of what it has seen, so neither this call nor `next`, `offer` and
    /// `learn` asks for memory.
    pub fn seat(&self, _alloc: Global) -> Result<Seat<'_, T>, AllocError>
        ensures made { IsOk result }
        ensures fresh { IfOk result (λ seat.
            seat ≡ record { row = self.now; seen = []; won = 0; misses = 0 }) }
    {
        Ok(Seat::at_start(self))
    }

    /// Return progress at this row that has seen nothing, with no win and no miss.
    ///
    /// It is a seat without the borrow.
    pub fn progress(&self) -> Progress<T>
        ensures { result ≡ record { row = self.now; seen = []; won = 0; misses = 0 } }
    {
        Progress::at_start(self)
    }

    /// Return the cell at place `at`, counted from 0.
    #[tactic(auto, using(crate::proofs::Cells::names))]
    pub(crate) fn cell(&self, at: usize) -> &OnceBox<T>
        requires { at < length self.now }
        ensures { slice_get self.now at ≡ Some (cell_name result.now) }
    {
        &self.cells[at]
    }
}
