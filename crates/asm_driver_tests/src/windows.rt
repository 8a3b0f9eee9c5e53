//! Windows of a run, over an input that comes slowly.
use crate::ports::Slow;
use crate::running::words_of;
use asm_driver::run_main;
use std::alloc::{AllocError, Global};
use std::sync::Wait;
use std::test::Fail;
use std::thread::Threads;

const RUN: &str = r#"{"agents":1,"capacity":2,"events":2,"init":[],"version":2}
{"agent":0,"call":{"fire":[["put",["x"],1]],"reads":[]},"reply":{"fired":1}}
{"agent":0,"call":{"fire":[["put",["x"],2]],"reads":[]},"reply":{"fired":2}}
{"agents":1,"capacity":1,"events":1,"init":[[["x"],2]],"version":2}
{"agent":0,"call":{"read":[["x"]]},"reply":{"number":0,"values":[3]}}
"#;

const OPENING: &str =
    r#"{"agents":1,"capacity":1,"events":0,"from":0,"init":[[["x"],2]],"moves":0,"part":1,"trace":2}
"#;

const FIRST_CALL: &str =
    r#"{"agents":1,"capacity":2,"events":1,"from":0,"init":[],"moves":0,"part":0,"trace":2}
{"agent":0,"call":{"fire":[["put",["x"],1]],"reads":[]},"event":0,"reply":{"fired":1},"updates":[[["x"],null,1]]}
"#;

/// What the program does with words and an input: its status, how many bytes it leaves unread, and what it writes.
type Ending = (u8, usize, &'static str);

static ENDINGS: [(&[&str], Ending); 6] = [
    // No byte is read behind the window's end.
    (&["asm_driver", "trace", "--to", "1"], (0, 215, FIRST_CALL)),
    (
        &["asm_driver", "trace", "--part", "1", "--to", "0"],
        (0, 70, OPENING),
    ),
    // The header shows that a segment has too few calls, and the run's end that it has too few segments.
    (
        &["asm_driver", "trace", "--to", "3"],
        (2, 292, "part 0 has 2 calls\n"),
    ),
    (
        &["asm_driver", "trace", "--part", "1", "--from", "2"],
        (2, 70, "part 1 has 1 calls\n"),
    ),
    (
        &["asm_driver", "trace", "--part", "1"],
        (1, 0, "illegal 1 0\n"),
    ),
    (
        &["asm_driver", "trace", "--part", "2"],
        (2, 0, "the run has 2 parts\n"),
    ),
];

/// Return whether the program ends so with these words, over a slow run.
///
/// The run comes one byte at a time. The error is an allocation failure, which the program reports.
fn ends_slowly<T: Threads + Wait + Sync>(
    rt: &T,
    alloc: Global,
    words: &[&str],
    (wanted, left, text): Ending,
) -> Result<bool, AllocError> {
    let mut input = Slow {
        rest: RUN.as_bytes(),
    };
    let mut output = Vec::with_capacity(alloc, 512)?;
    let status = run_main(rt, alloc, words_of(alloc, words)?, &mut input, &mut output);
    if status == 3 {
        return Err(AllocError);
    }
    Ok(status == wanted && input.rest.len() == left && output.as_slice() == text.as_bytes())
}

#[test]
fn nothing_is_read_behind_a_window(rt: HostRuntime) -> Result<(), Fail> {
    for (words, wanted) in ENDINGS.iter() {
        assert!(rt;
            ends_slowly(&rt, rt.alloc(), words, *wanted)?,
            "{}",
            wanted.2
        );
    }
    Ok(())
}
