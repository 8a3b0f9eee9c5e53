//! Two agents that raise one counter.
use asm_driver::{Open, parse_script, report, run_script};
use std::test::Fail;

const SCRIPT: &str = r#"{
    "init": [[["count"], 0]],
    "agents": [[[[["inc", ["count"], 1]]]], [[[["inc", ["count"], 2]]]]]
}"#;

#[test]
fn both_agents_count(rt: HostRuntime) -> Result<(), Fail> {
    let alloc = rt.alloc();
    let script = parse_script(alloc, SCRIPT.as_bytes())?;
    let played = run_script(&rt, alloc, &script, 8, &Open)?;
    let text = report(alloc, &played)?;
    assert_eq!(rt; text.as_str(), "[[\"count\"],3]\nmoves 2\n");
    Ok(())
}
