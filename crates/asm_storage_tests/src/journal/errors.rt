//! The errors, and the answers of checks.
use asm_journal::{JournalError, Legality, WriteError};
use asm_test_support::{are_distinct, has_text};
use std::test::Fail;

#[test]
fn legalities_differ_in_each_number(rt: HostRuntime) {
    assert!(rt;
        are_distinct(&[
            Legality::Legal { calls: 3, moves: 1 },
            Legality::Legal { calls: 4, moves: 1 },
            Legality::Legal {
                calls: 4_294_967_299,
                moves: 1
            },
            Legality::Legal { calls: 3, moves: 2 },
            Legality::Illegal { call: 3 },
            Legality::Illegal { call: 4 },
            Legality::Illegal {
                call: 4_294_967_299
            },
        ])
    );
}

#[test]
fn errors_differ_in_each_number(rt: HostRuntime) {
    assert!(rt;
        are_distinct(&[
            JournalError::NotJson(1),
            JournalError::NotJson(2),
            JournalError::NotJson(4_294_967_297),
            JournalError::Shape(1),
            JournalError::Shape(2),
            JournalError::Shape(4_294_967_297),
            JournalError::Version,
            JournalError::Cut,
            JournalError::Memory,
        ])
    );
    assert!(rt;
        are_distinct(&[
            WriteError::Output { written: 0 },
            WriteError::Output { written: 1 },
            WriteError::Output {
                written: 4_294_967_296
            },
            WriteError::Memory,
        ])
    );
}

static ERRORS: [(JournalError, &str); 5] = [
    (JournalError::NotJson(1), "line 1 is not JSON"),
    (JournalError::Shape(3), "line 3 has a wrong shape"),
    (JournalError::Version, "the version is not 1 or 2"),
    (JournalError::Cut, "the journal is cut"),
    (JournalError::Memory, "out of memory"),
];

static WRITE_ERRORS: [(WriteError, &str); 2] = [
    (
        WriteError::Output { written: 5 },
        "the output failed after 5 bytes",
    ),
    (WriteError::Memory, "out of memory"),
];

#[test]
fn errors_have_their_texts(rt: HostRuntime) -> Result<(), Fail> {
    for (error, want) in ERRORS.iter() {
        assert!(rt; has_text(rt.alloc(), error, want)?, "{want}");
    }
    for (error, want) in WRITE_ERRORS.iter() {
        assert!(rt; has_text(rt.alloc(), error, want)?, "{want}");
    }
    Ok(())
}
