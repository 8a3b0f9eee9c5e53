//! What errors say, and which are equal.
use asm_storage::{AgentsError, CloseError, FireError, ReadError, StorageError};
use asm_test_support::{are_distinct, has_text};
use std::test::Fail;

#[test]
fn errors_have_their_texts(rt: HostRuntime) -> Result<(), Fail> {
    let alloc = rt.alloc();
    let memory = "out of memory";
    assert!(rt; has_text(alloc, &FireError::ManyReads, "more than 256 named reads")?);
    assert!(rt;
        has_text(
            alloc,
            &FireError::Busy { from: 0, to: 64 },
            "64 attempts to append were lost to other agents"
        )?
    );
    assert!(rt; has_text(alloc, &FireError::Memory, memory)?);
    assert!(rt; has_text(alloc, &CloseError::Missing(3), "move 3 has no receipt")?);
    assert!(rt; has_text(alloc, &CloseError::Memory, memory)?);
    assert!(rt; has_text(alloc, &ReadError::ManyLocations, "more than 256 locations")?);
    assert!(rt; has_text(alloc, &ReadError::Memory, memory)?);
    assert!(rt; has_text(alloc, &AgentsError::BadAgents, "not 1 to 256 agents")?);
    assert!(rt; has_text(alloc, &AgentsError::Memory, memory)?);
    let capacity = "the capacity is not in 1 to 1,048,576";
    assert!(rt; has_text(alloc, &StorageError::BadCapacity, capacity)?);
    assert!(rt; has_text(alloc, &StorageError::Memory, memory)?);
    Ok(())
}

#[test]
fn kinds_and_numbers_of_errors_are_distinct(rt: HostRuntime) {
    let fires = [
        FireError::ManyReads,
        FireError::Memory,
        FireError::Busy { from: 0, to: 64 },
        FireError::Busy { from: 1, to: 64 },
        FireError::Busy { from: 0, to: 65 },
    ];
    let closings = [
        CloseError::Memory,
        CloseError::Missing(1),
        CloseError::Missing(2),
    ];
    assert!(rt; are_distinct(&fires) && are_distinct(&closings));
    assert!(rt; are_distinct(&[ReadError::ManyLocations, ReadError::Memory]));
    assert!(rt; are_distinct(&[AgentsError::BadAgents, AgentsError::Memory]));
    assert!(rt; are_distinct(&[StorageError::BadCapacity, StorageError::Memory]));
}
