//! What the slots of one storage share.
ghost use Rattle.std.specs.Prelude.{◌≡◌, length};

use asm_aggregate::Standard;
use asm_storage::Storage;
use std::sync::Arc;
use std::sync::atomic::{AtomicU64, Ordering};

/// A storage with its capacity, and a counter that distinguishes it from others.
#[derive(Drop)]
pub struct Shared {
    pub(crate) storage: Storage<Standard>,
    pub(crate) count: AtomicU64,
    capacity: u32,
    ghost room: { capacity ≡ length storage.row },
}

impl Shared {
    pub fn new(storage: Storage<Standard>, capacity: u32) -> Shared
        requires { length storage.row ≡ capacity }
        ensures { result.storage ≡ storage }
    {
        Shared {
            storage,
            count: AtomicU64::new(0),
            capacity,
        }
    }

    /// Return how many moves the storage has room for.
    pub(crate) fn capacity(&self) -> u32
        ensures { result ≡ length self.now.storage.row }
    {
        self.capacity
    }
}

// Return whether the counter of the second goes up when that of the first does.
fn counts_together(first: &Shared, second: &Shared) -> bool {
    let before = second.count.load(Ordering::SeqCst);
    first.count.fetch_add(1, Ordering::SeqCst);
    second.count.load(Ordering::SeqCst) != before
}

/// Return whether two shares are of one storage.
///
/// It tries whether the counter of each goes up when that of the other does. A counter never goes down, so shares of
/// one storage are always detected as such. Those of two storages are distinguished, unless other calls count in both
/// of them, between two steps of each of eight tries.
pub fn are_one(first: &Arc<Shared>, second: &Arc<Shared>) -> bool {
    for _ in 0..4 {
        if !counts_together(first, second) || !counts_together(second, first) {
            return false;
        }
    }
    true
}
