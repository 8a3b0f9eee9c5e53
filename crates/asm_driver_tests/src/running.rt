//! Runs of the program, from the words to what is written.
use asm_driver::run_main;
use std::alloc::{AllocError, Global};
use std::sync::Wait;
use std::thread::Threads;

pub(crate) const JOURNAL: [&str; 3] = ["asm_driver", "run", "--journal"];

pub(crate) const REWRITE: [&str; 2] = ["asm_driver", "rewrite"];

pub(crate) const ONE_PUT: &str = r#"{"init":[],"agents":[[[[["put",["x"],1]]]]]}"#;

pub(crate) fn words_of(alloc: Global, words: &[&str]) -> Result<Vec<String>, AllocError> {
    let mut list = Vec::new(alloc);
    for word in words {
        list.push(String::from_str(alloc, word)?)?;
    }
    Ok(list)
}

/// Return whether the program ends with this status, and writes this.
///
/// The error is an allocation failure, also if the program reports it: an output for which there is none is a fault to
/// the program.
pub(crate) fn ends<T: Threads + Wait + Sync>(
    rt: &T,
    alloc: Global,
    words: &[&str],
    input: &str,
    wanted: (u8, &str),
) -> Result<bool, AllocError> {
    let mut input = input.as_bytes();
    let mut output = Vec::new(alloc);
    let status = run_main(rt, alloc, words_of(alloc, words)?, &mut input, &mut output);
    if status > 2 {
        return Err(AllocError);
    }
    Ok(status == wanted.0 && output.as_slice() == wanted.1.as_bytes())
}
