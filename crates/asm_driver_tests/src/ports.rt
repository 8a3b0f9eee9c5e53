//! The program over inputs and outputs that are slow, long or failing.
use crate::running::{ONE_PUT, words_of};
use asm_driver::run_main;
use asm_test_support::ERROR_KINDS;
use std::alloc::{AllocError, Global};
use std::io;
use std::io::{ErrorKind, Read, Write};
use std::sync::Wait;
use std::test::Fail;
use std::thread::Threads;

const ONE_PUT_REPORT: &str = r#"[["x"],1]
moves 1
"#;

/// Return the program's status with these words, over an input and an output.
///
/// The error is an allocation failure, which the program reports.
fn status_of<T: Threads + Wait + Sync, R: Read, W: Write>(
    rt: &T,
    alloc: Global,
    words: &[&str],
    input: &mut R,
    output: &mut W,
) -> Result<u8, AllocError> {
    match run_main(rt, alloc, words_of(alloc, words)?, input, output) {
        3 => Err(AllocError),
        status => Ok(status),
    }
}

/// Gives spaces: so many bytes, and then the end, or a fault of this kind and then the end.
///
/// It counts its bytes and its reads.
#[derive(Clone, Copy)]
pub(crate) struct Spaces {
    left: usize,
    fails: Option<ErrorKind>,
    given: usize,
    reads: usize,
}

impl Spaces {
    pub(crate) fn new((left, fails): (usize, Option<ErrorKind>)) -> Spaces {
        Spaces {
            left,
            fails,
            given: 0,
            reads: 0,
        }
    }
}

impl Read for Spaces {
    fn read(&mut self, buffer: &mut [u8]) -> io::Result<usize> {
        self.reads = self.reads.saturating_add(1);
        if self.left == 0 {
            if let Some(kind) = self.fails {
                self.fails = None;
                return Err(io::Error::from(kind));
            }
        }
        let count = buffer.len().min(self.left);
        for byte in buffer[..count].iter_mut() {
            *byte = b' ';
        }
        self.left -= count;
        self.given = self.given.saturating_add(count);
        Ok(count)
    }
}

/// What the program does with words and so many spaces, which may end in a fault: its status, how much it reads,
/// and what it writes.
#[derive(Clone, Copy)]
struct Ending {
    status: u8,
    given: usize,
    text: &'static str,
}

/// Return whether the program ends so.
fn ends<T: Threads + Wait + Sync>(
    rt: &T,
    alloc: Global,
    words: &[&str],
    spaces: (usize, Option<ErrorKind>),
    wanted: Ending,
) -> Result<bool, AllocError> {
    let mut input = Spaces::new(spaces);
    let mut output = Vec::with_capacity(alloc, 64)?;
    let status = status_of(rt, alloc, words, &mut input, &mut output)?;
    Ok(
        status == wanted.status
            && input.given == wanted.given
            && output.as_slice() == wanted.text.as_bytes(),
    )
}

const NOT_JSON: Ending = Ending {
    status: 2,
    given: 16_777_216,
    text: "bad script: not JSON\n",
};

const TOO_LARGE: Ending = Ending {
    status: 2,
    given: 16_777_217,
    text: "input too large\n",
};

const FAULT: Ending = Ending {
    status: 4,
    given: 4096,
    text: "input fault\n",
};

static REFUSED: [(&[&str], (usize, Option<ErrorKind>), Ending); 8] = [
    (&["asm_driver", "run"], (16_777_216, None), NOT_JSON),
    (&["asm_driver", "run"], (16_777_217, None), TOO_LARGE),
    (&["asm_driver", "check"], (usize::MAX, None), TOO_LARGE),
    (
        &["asm_driver", "check"],
        (4096, Some(ErrorKind::Other)),
        FAULT,
    ),
    (
        &["asm_driver", "rewrite"],
        (4096, Some(ErrorKind::Other)),
        FAULT,
    ),
    (
        &["asm_driver", "trace"],
        (4096, Some(ErrorKind::Other)),
        FAULT,
    ),
    (
        &["asm_driver", "audit"],
        (4096, Some(ErrorKind::Other)),
        FAULT,
    ),
    (
        &["asm_driver", "trace", "--part", "0"],
        (4096, Some(ErrorKind::Other)),
        FAULT,
    ),
];

#[test]
fn long_and_failing_inputs_are_refused(rt: HostRuntime) -> Result<(), Fail> {
    for (index, (words, spaces, wanted)) in REFUSED.iter().enumerate() {
        assert!(rt; ends(&rt, rt.alloc(), words, *spaces, *wanted)?, "{index}");
    }
    Ok(())
}

/// Return how often the input is read with these words, and the status.
fn reads_of<T: Threads + Wait + Sync>(
    rt: &T,
    alloc: Global,
    words: &[&str],
    spaces: (usize, Option<ErrorKind>),
) -> Result<(usize, u8), AllocError> {
    let mut input = Spaces::new(spaces);
    let mut output = Vec::with_capacity(alloc, 1024)?;
    let status = status_of(rt, alloc, words, &mut input, &mut output)?;
    Ok((input.reads, status))
}

#[test]
fn a_failed_read_is_not_tried_again_whatever_its_kind(rt: HostRuntime) -> Result<(), Fail> {
    for (index, kind) in ERROR_KINDS.iter().enumerate() {
        let spaces = (0, Some(*kind));
        assert!(rt;
            reads_of(&rt, rt.alloc(), &["asm_driver", "run"], spaces)? == (1, 4),
            "{index}"
        );
    }
    Ok(())
}

#[test]
fn nothing_is_read_before_the_words_are_good(rt: HostRuntime) -> Result<(), Fail> {
    let spaces = (1, Some(ErrorKind::Other));
    assert!(rt; reads_of(&rt, rt.alloc(), &["asm_driver", "play"], spaces)? == (0, 2));
    assert!(rt; reads_of(&rt, rt.alloc(), &["asm_driver", "--help"], spaces)? == (0, 0));
    assert!(rt; reads_of(&rt, rt.alloc(), &["asm_driver", "--version"], spaces)? == (0, 0));
    Ok(())
}

/// Gives one byte at a time.
#[derive(Clone, Copy)]
pub(crate) struct Slow<'a> {
    pub(crate) rest: &'a [u8],
}

impl Read for Slow<'_> {
    fn read(&mut self, buffer: &mut [u8]) -> io::Result<usize> {
        let count = buffer.len().min(1).min(self.rest.len());
        for i in 0..count {
            buffer[i] = self.rest[i];
        }
        self.rest = &self.rest[count..];
        Ok(count)
    }
}

/// How much room an output has, and with which faults a write then fails and its flush does.
///
/// Without the first, a write takes none.
pub(crate) type Failing = (usize, Option<ErrorKind>, Option<ErrorKind>);

/// Takes as many bytes as it has room for.
///
/// Then a write takes none, or fails; its first flush may fail. It counts its calls.
#[derive(Drop)]
pub(crate) struct Short {
    taken: Vec<u8>,
    room: usize,
    write_fails: Option<ErrorKind>,
    flush_fails: Option<ErrorKind>,
    pub(crate) calls: usize,
}

impl Short {
    pub(crate) fn new(
        alloc: Global,
        (room, write_fails, flush_fails): Failing,
    ) -> Result<Short, AllocError> {
        Ok(Short {
            taken: Vec::with_capacity(alloc, 512)?,
            room,
            write_fails,
            flush_fails,
            calls: 0,
        })
    }

    pub(crate) fn taken(&self) -> &[u8] {
        self.taken.as_slice()
    }
}

impl Write for Short {
    fn write(&mut self, bytes: &[u8]) -> io::Result<usize> {
        self.calls = self.calls.saturating_add(1);
        let count = bytes.len().min(self.room);
        if count == 0 {
            if let Some(kind) = self.write_fails {
                self.write_fails = None;
                self.room = usize::MAX;
                return Err(io::Error::from(kind));
            }
        }
        if self.taken.extend_from_slice(&bytes[..count]).is_err() {
            return Err(io::Error::from(ErrorKind::OutOfMemory));
        }
        self.room -= count;
        Ok(count)
    }

    fn flush(&mut self) -> io::Result<()> {
        self.calls = self.calls.saturating_add(1);
        match self.flush_fails {
            Some(kind) => {
                self.flush_fails = None;
                Err(io::Error::from(kind))
            }
            None => Ok(()),
        }
    }
}

/// Return whether over an output that fails so the program ends with status 4 after so many calls of the output,
/// which has the text.
///
/// The error is an allocation failure: its line begins otherwise than a report.
fn fails_over<T: Threads + Wait + Sync>(
    rt: &T,
    alloc: Global,
    failing: Failing,
    calls: usize,
    text: &str,
) -> Result<bool, AllocError> {
    let mut input = ONE_PUT.as_bytes();
    let mut output = Short::new(alloc, failing)?;
    let status = status_of(rt, alloc, &["asm_driver", "run"], &mut input, &mut output)?;
    if matches!(output.taken.as_slice().first(), Some(b'o')) {
        return Err(AllocError);
    }
    Ok(status == 4 && output.calls == calls && output.taken.as_slice() == text.as_bytes())
}

#[test]
fn an_output_that_takes_nothing_more_is_a_fault(rt: HostRuntime) -> Result<(), Fail> {
    let alloc = rt.alloc();
    assert!(rt; fails_over(&rt, alloc, (0, None, None), 1, "")?);
    assert!(rt; fails_over(&rt, alloc, (5, None, None), 2, r#"[["x""#)?);
    Ok(())
}

/// Return whether no call of the output comes after a write that fails so, at once or later, or after a flush that
/// does.
fn is_called_no_more<T: Threads + Wait + Sync>(
    rt: &T,
    alloc: Global,
    kind: ErrorKind,
) -> Result<bool, AllocError> {
    let fault = Some(kind);
    Ok(
        fails_over(rt, alloc, (0, fault, None), 1, "")?
            && fails_over(rt, alloc, (5, fault, None), 2, r#"[["x""#)?
            && fails_over(rt, alloc, (18, None, fault), 2, ONE_PUT_REPORT)?,
    )
}

#[test]
fn a_failed_output_is_called_no_more_whatever_the_kind(rt: HostRuntime) -> Result<(), Fail> {
    for (index, kind) in ERROR_KINDS.iter().enumerate() {
        assert!(rt; is_called_no_more(&rt, rt.alloc(), *kind)?, "{index}");
    }
    Ok(())
}
