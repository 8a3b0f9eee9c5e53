//! The program: it plays scripts, checks, rewrites and traces journals, explains texts and audits runs.
//! What `asm_driver` proves of it goes to standard output; where and why something is refused goes to standard error.
#![tactic(auto)]

mod diagnostics;
mod hints;
mod input;
mod output;
mod words;
mod wrong;

use crate::diagnostics::carry_out;
use std::alloc::Global;
use std::io::IsTerminal;
use std::process::ExitCode;
use std::rt::Env;
use std::{env, io};

fn main(rt: HostRuntime) -> ExitCode {
    let alloc: Global = rt.alloc();
    let words = words_given(&rt, alloc);
    ExitCode::from(carry_out(&rt, alloc, words, rt.reader().is_terminal()))
}

// Return the words of the command line. The first is the program's name, by whatever name it was started.
fn words_given<R: Env + AllocGlobal>(rt: &R, alloc: Global) -> io::Result<Vec<String>> {
    let mut words = Vec::new(alloc);
    words.push(String::from_str(alloc, "asm_driver")?)?;
    for word in env::args(rt)?.skip(1) {
        words.push(word)?;
    }
    Ok(words)
}
