//! Journals that are written to an output that fails.
use crate::ports::{Failing, Short};
use crate::running::{JOURNAL, REWRITE, words_of};
use asm_driver::run_main;
use std::alloc::{AllocError, Global};
use std::io::ErrorKind;
use std::process::Abort;
use std::sync::Wait;
use std::test::Fail;
use std::thread::Threads;

const SEQUENCE: &str =
    r#"{"init":[[["s"],{"set":[]}]],"agents":[[[[["add",["s"],1]],[["put",["y"],{"val":["s"]}]]]]]}"#;

const SEQUENCE_JOURNAL: &str =
    r#"{"agents":1,"capacity":4096,"events":2,"init":[[["s"],{"set":[]}]],"version":2}
{"agent":0,"call":{"read":[["s"]]},"reply":{"number":0,"values":[{"set":[]}]}}
{"agent":0,"call":{"fire":[["add",["s"],1],["put",["y"],{"set":[1]}]],"reads":[[["s"],0]]},"reply":{"fired":1}}
"#;

/// The same journal in the version before.
const SEQUENCE_JOURNAL_1: &str =
    r#"{"agents":1,"capacity":4096,"events":2,"init":[[["s"],{"set":[]}]],"version":1}
{"agent":0,"call":{"read":[["s"]]},"reply":{"number":0,"values":[{"set":[]}]}}
{"agent":0,"call":{"fire":[["add",["s"],1],["put",["y"],{"set":[1]}]],"reads":[[["s"],0]]},"reply":{"fired":1}}
"#;

/// Return whether the program with these words and this input, when its output fails or takes nothing after so many
/// bytes, or when its flush fails, ends with status 4, and these bytes of the journal went out.
///
/// The error is an allocation failure: its line begins otherwise than a journal.
fn ends_after<T: Threads + Wait + Sync>(
    rt: &T,
    alloc: Global,
    (words, input): (&[&str], &str),
    failing: Failing,
) -> Result<bool, AllocError> {
    let mut input = input.as_bytes();
    let mut short = Short::new(alloc, failing)?;
    let words = words_of(alloc, words)?;
    let status = run_main(rt, alloc, words, &mut input, &mut short);
    if status == 3 || matches!(short.taken().first(), Some(b'o' | b'n')) {
        return Err(AllocError);
    }
    Ok(status == 4 && SEQUENCE_JOURNAL.as_bytes().get(..failing.0) == Some(short.taken()))
}

const FAULT: Option<ErrorKind> = Some(ErrorKind::Interrupted);

/// Asserts that the program ends so after each number of bytes, where the output fails or takes nothing, and with
/// all bytes where the flush fails.
fn assert_failures<T: Threads + Wait + Sync + Abort>(
    rt: &T,
    alloc: Global,
    given: (&[&str], &str),
) -> Result<(), AllocError> {
    let whole = SEQUENCE_JOURNAL.len();
    for room in 0..whole {
        assert!(rt;
            ends_after(rt, alloc, given, (room, FAULT, None))?,
            "{room}"
        );
        assert!(rt; ends_after(rt, alloc, given, (room, None, None))?, "{room}");
    }
    assert!(rt; ends_after(rt, alloc, given, (whole, None, FAULT))?);
    Ok(())
}

#[test]
fn a_journal_to_an_output_that_fails_is_a_fault(rt: HostRuntime) -> Result<(), Fail> {
    assert_failures(&rt, rt.alloc(), (JOURNAL.as_slice(), SEQUENCE))?;
    Ok(assert_failures(&rt, rt.alloc(), (REWRITE.as_slice(), SEQUENCE_JOURNAL_1))?)
}
