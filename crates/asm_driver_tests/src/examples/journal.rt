//! A journal of one move.
use asm_aggregate::standard;
use asm_journal::{Legality, check, from_text, replay, state_text, to_text};
use std::test::Fail;

const JOURNAL: &str = r#"{"agents":1,"capacity":8,"events":1,"init":[],"version":2}
{"agent":0,"call":{"fire":[["put",["count"],5]],"reads":[]},"reply":{"fired":1}}
"#;

#[test]
fn a_journal_is_read_checked_and_written(rt: HostRuntime) -> Result<(), Fail> {
    let alloc = rt.alloc();
    let history = from_text(alloc, JOURNAL.as_bytes())?;
    let legality = check(alloc, &standard(), &history)?;
    assert_eq!(rt; legality, Legality::Legal { calls: 1, moves: 1 });

    let state = replay(alloc, &standard(), &history)?;
    assert_eq!(rt; state_text(alloc, &state)?.as_str(), r#"[[["count"],5]]"#);
    assert_eq!(rt; to_text(alloc, &history)?.as_str(), JOURNAL);
    Ok(())
}
