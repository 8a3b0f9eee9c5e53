//! A replay, and a storage that continues from it.
use asm_aggregate::standard;
use asm_journal::{JournalError, from_text, next_storage, replay, state_text};
use asm_storage::{CloseError, History, StorageError};
use asm_update::PlainState;
use std::alloc::{AllocError, Global};
use std::test::Fail;

const JOURNAL: &str =
    r#"{"agents":1,"capacity":4,"events":4,"init":[[["n"],5],[["s"],{"set":[1]}]],"version":2}
{"agent":0,"call":{"fire":[["put",["n"],null]],"reads":[]},"reply":{"fired":1}}
{"agent":0,"call":{"fire":[["inc",["n"],1]],"reads":[]},"reply":{"fired":2}}
{"agent":0,"call":{"fire":[["add",["s"],3],["remove",["s"],3]],"reads":[]},"reply":{"fired":3}}
{"agent":0,"call":{"fire":[["add",["s"],2]],"reads":[]},"reply":{"fired":4}}
"#;

/// What the moves leave of which two clash.
const LEFT: &str = r#"[[["s"],{"set":[1,2]}]]"#;

/// Return whether a storage that continues from the history opens with this state.
///
/// It is for so many moves.
fn opens_next(
    alloc: Global,
    history: &History,
    capacity: u32,
    left: &PlainState,
) -> Result<bool, StorageError> {
    let storage = next_storage(alloc, standard(), history, capacity)?;
    match storage.close(alloc, &[]) {
        Ok(opened) => Ok(
            opened.init == *left && opened.capacity == capacity && opened.moves() == 0,
        ),
        Err(CloseError::Memory) => Err(StorageError::Memory),
        Err(CloseError::Missing(_)) => Ok(false),
    }
}

/// Return whether it does for the most moves, and is refused for one more.
fn goes_on(alloc: Global, history: &History, left: &PlainState) -> Result<bool, AllocError> {
    for (capacity, is_good) in [(1_048_576, true), (1_048_577, false)] {
        match opens_next(alloc, history, capacity, left) {
            Ok(true) if is_good => {}
            Err(StorageError::BadCapacity) if !is_good => {}
            Err(StorageError::Memory) => return Err(AllocError),
            _ => return Ok(false),
        }
    }
    Ok(true)
}

/// Return whether a replay of the journal leaves this state.
///
/// A storage that continues from it opens with the same state.
fn leaves(alloc: Global, journal: &str, state: &str) -> Result<bool, JournalError> {
    let history = from_text(alloc, journal.as_bytes())?;
    let left = replay(alloc, &standard(), &history)?;
    Ok(state_text(alloc, &left)?.as_str() == state && goes_on(alloc, &history, &left)?)
}

#[test]
fn a_storage_goes_on_with_what_the_moves_leave(rt: HostRuntime) -> Result<(), Fail> {
    assert!(rt; leaves(rt.alloc(), JOURNAL, LEFT)?);
    Ok(())
}
