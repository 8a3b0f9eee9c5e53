//! Audits that report their progress, over inputs and outputs that are slow or failing.
use crate::ports::{Failing, Short, Slow};
use crate::running::words_of;
use asm_driver::run_main;
use std::alloc::{AllocError, Global};
use std::io::ErrorKind;
use std::sync::Wait;
use std::test::Fail;
use std::thread::Threads;

const WATCH: [&str; 4] = ["asm_driver", "audit", "--every", "1"];

const JOURNAL: &str = r#"{"agents":1,"capacity":2,"events":3,"init":[],"version":2}
{"agent":0,"call":{"fire":[["put",["x"],1]],"reads":[]},"reply":{"fired":1}}
{"agent":0,"call":{"fire":[["put",["x"],2]],"reads":[]},"reply":{"fired":2}}
{"agent":0,"call":{"read":[["x"]]},"reply":{"number":2,"values":[2]}}
"#;

/// How a watched audit of the journal ends, over an input of one byte at a time: its status, how many bytes it
/// leaves unread, how often the output is called, and what that takes.
struct Ending {
    output: Failing,
    status: u8,
    left: usize,
    calls: usize,
    text: &'static str,
}

static ENDINGS: [Ending; 4] = [
    // Each line is flushed before the next byte is read.
    Ending {
        output: (100, None, None),
        status: 0,
        left: 0,
        calls: 8,
        text: "so far 1 1 0\nso far 2 2 0\nso far 3 2 1\nlegal 3 2 1\n",
    },
    // Where the output fails, no further byte is read.
    Ending {
        output: (0, None, None),
        status: 4,
        left: 147,
        calls: 1,
        text: "",
    },
    Ending {
        output: (17, Some(ErrorKind::Other), None),
        status: 4,
        left: 70,
        calls: 4,
        text: "so far 1 1 0\nso f",
    },
    Ending {
        output: (100, None, Some(ErrorKind::Other)),
        status: 4,
        left: 147,
        calls: 2,
        text: "so far 1 1 0\n",
    },
];

/// Return whether a watched audit ends so.
///
/// The error is an allocation failure, which the program reports.
fn ends<T: Threads + Wait + Sync>(
    rt: &T,
    alloc: Global,
    wanted: &Ending,
) -> Result<bool, AllocError> {
    let mut input = Slow {
        rest: JOURNAL.as_bytes(),
    };
    let mut output = Short::new(alloc, wanted.output)?;
    let status = run_main(rt, alloc, words_of(alloc, &WATCH)?, &mut input, &mut output);
    if status == 3 || output.taken().ends_with(b"out of memory\n") {
        return Err(AllocError);
    }
    Ok(
        status == wanted.status
            && input.rest.len() == wanted.left
            && output.calls == wanted.calls
            && output.taken() == wanted.text.as_bytes(),
    )
}

#[test]
fn lines_are_flushed_as_the_input_comes(rt: HostRuntime) -> Result<(), Fail> {
    for wanted in ENDINGS.iter() {
        assert!(rt; ends(&rt, rt.alloc(), wanted)?, "{}", wanted.text);
    }
    Ok(())
}
