//! What the calls of a journal did.
use asm_aggregate::standard;
use asm_journal::from_text;
use asm_trace::trace_text;
use std::test::Fail;

const JOURNAL: &str =
    r#"{"agents":1,"capacity":8,"events":2,"init":[[["s"],{"set":[1,2]}]],"version":2}
{"agent":0,"call":{"fire":[["add",["s"],3],["remove",["s"],1]],"reads":[]},"reply":{"fired":1}}
{"agent":0,"call":{"read":[["s"]]},"reply":{"number":1,"values":[null]}}
"#;

const TRACE: &str = r#"{"agents":1,"capacity":8,"events":2,"init":[[["s"],{"set":[1,2]}]],"trace":1}
{"agent":0,"call":{"fire":[["add",["s"],3],["remove",["s"],1]],"reads":[]},"event":0,"reply":{"fired":1},"updates":[[["s"],{"added":[3],"removed":[1]}]]}
{"agent":0,"call":{"read":[["s"]]},"event":1,"reply":{"number":1,"values":[null]},"right":{"differs":[0],"number":1}}
"#;

#[test]
fn a_trace_reports_what_changed_and_what_is_wrong(rt: HostRuntime) -> Result<(), Fail> {
    let alloc = rt.alloc();
    let history = from_text(alloc, JOURNAL.as_bytes())?;
    assert_eq!(rt; trace_text(alloc, &standard(), &history)?.as_str(), TRACE);
    Ok(())
}
