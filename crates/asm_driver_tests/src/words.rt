//! Words that ask for help, which names the program as its words do, and words that the system doesn't give.
use crate::running::{ONE_PUT, ends};
use asm_driver::run_given;
use std::alloc::{AllocError, Global};
use std::io;
use std::io::ErrorKind;
use std::sync::Wait;
use std::test::Fail;
use std::thread::Threads;

const HELP: &str =
    r#"Plays the steps of an abstract state machine's agents on one storage, checks, rewrites and traces journals, audits runs, and explains why a text is refused

Usage: asm_driver <COMMAND>

Commands:
  run      Plays a script, which is read from standard input, and writes the report
  check    Checks a journal of at most 16777216 bytes, which is read from standard input, and writes whether it is legal; audit has no such limit
  rewrite  Rewrites a journal of at most 16777216 bytes, which is read from standard input, in version 2, and doesn't check it; audit has no such limit
  trace    Traces a journal of at most 16777216 bytes, which is read from standard input, and writes what each call did; with an option it traces a window of a run of any length, judges only the part with that window, from the state in its header, and holds the window's text in memory until its end was read
  explain  Explains where and why a script or a journal, which is read from standard input, is refused
  audit    Audits a run of any length, whose parts are journals and are read from standard input, and writes whether it is legal
  help     Print this message or the help of the given subcommand(s)

Options:
  -h, --help     Print help
  -V, --version  Print version
"#;

const RUN_HELP: &str = r#"Plays a script, which is read from standard input, and writes the report

Usage: asm_driver run [OPTIONS]

Options:
      --capacity <N>  How many moves may be fired, from 1 to 1048576 [default: 4096]
      --journal       Writes the journal of the calls in place of the report
      --terms         Writes behind the report where terms had no value, and why
  -h, --help          Print help
"#;

const CHECK_HELP: &str =
    r#"Checks a journal of at most 16777216 bytes, which is read from standard input, and writes whether it is legal; audit has no such limit

Usage: asm_driver check

Options:
  -h, --help  Print help
"#;

const REWRITE_HELP: &str =
    r#"Rewrites a journal of at most 16777216 bytes, which is read from standard input, in version 2, and doesn't check it; audit has no such limit

Usage: asm_driver rewrite

Options:
  -h, --help  Print help
"#;

const TRACE_HELP: &str =
    r#"Traces a journal of at most 16777216 bytes, which is read from standard input, and writes what each call did; with an option it traces a window of a run of any length, judges only the part with that window, from the state in its header, and holds the window's text in memory until its end was read

Usage: asm_driver trace [OPTIONS]

Options:
      --part <N>  Which part of the run, counted from 0; 0 where it isn't given
      --from <N>  The window's first call, counted from 0 in its part; 0 where it isn't given
      --to <N>    The call behind the window's last one; the end of its part where it isn't given
  -h, --help      Print help
"#;

const EXPLAIN_HELP: &str =
    r#"Explains where and why a script or a journal, which is read from standard input, is refused

Usage: asm_driver explain <script|journal>

Arguments:
  <script|journal>  What the text should be

Options:
  -h, --help  Print help
"#;

const AUDIT_HELP: &str =
    r#"Audits a run of any length, whose parts are journals and are read from standard input, and writes whether it is legal

Usage: asm_driver audit [OPTIONS]

Options:
      --every <N>  Writes so far CALLS MOVES PARTS after each N calls, from 1 to 4294967295
  -h, --help       Print help
"#;

static HELPS: [(&[&str], &str); 13] = [
    (&["asm_driver", "--help"], HELP),
    (&["asm_driver", "help"], HELP),
    (&["asm_driver", "run", "--help"], RUN_HELP),
    (&["asm_driver", "help", "run"], RUN_HELP),
    (&["asm_driver", "check", "--help"], CHECK_HELP),
    (&["asm_driver", "rewrite", "--help"], REWRITE_HELP),
    (&["asm_driver", "help", "rewrite"], REWRITE_HELP),
    (&["asm_driver", "trace", "--help"], TRACE_HELP),
    (&["asm_driver", "help", "trace"], TRACE_HELP),
    (&["asm_driver", "explain", "--help"], EXPLAIN_HELP),
    (&["asm_driver", "help", "explain"], EXPLAIN_HELP),
    (&["asm_driver", "audit", "--help"], AUDIT_HELP),
    (&["asm_driver", "help", "audit"], AUDIT_HELP),
];

#[test]
fn help_is_no_mistake(rt: HostRuntime) -> Result<(), Fail> {
    for (words, want) in HELPS.iter() {
        assert!(rt; ends(&rt, rt.alloc(), words, "", (0, *want))?, "{want}");
    }
    Ok(())
}

/// Return whether the program ends so where the system gives no words, with an error of this kind.
fn ends_without_words<T: Threads + Wait + Sync>(
    rt: &T,
    alloc: Global,
    kind: ErrorKind,
    wanted: (u8, &str),
) -> Result<bool, AllocError> {
    let mut input = ONE_PUT.as_bytes();
    let mut output = Vec::with_capacity(alloc, 64)?;
    let words = Err(io::Error::from(kind));
    let status = run_given(rt, alloc, words, &mut input, &mut output);
    Ok(status == wanted.0 && output.as_slice() == wanted.1.as_bytes())
}

/// Test that words which the system can't give end the program.
///
/// One isn't UTF-8, or there was no memory for them.
#[test]
fn words_that_are_not_given_end_the_program(rt: HostRuntime) -> Result<(), Fail> {
    let alloc = rt.alloc();
    let bad = (2, "bad words\n");
    assert!(rt; ends_without_words(&rt, alloc, ErrorKind::InvalidData, bad)?);
    let memory = (3, "out of memory\n");
    assert!(rt; ends_without_words(&rt, alloc, ErrorKind::OutOfMemory, memory)?);
    Ok(())
}
