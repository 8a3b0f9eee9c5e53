//! What the program writes.
use std::alloc::Global;
use std::io;
use std::io::Write;

// How many bytes of what was written last are retained.
const LAST_BYTES: usize = 64;

/// An output, which passes a report on and retains the lines of terms after it.
#[derive(Drop)]
pub(crate) struct Output<W> {
    output: W,
    // How many bytes of the report weren't written yet; `None` before it comes.
    report: Option<usize>,
    /// Whether such lines are retained.
    keeps_terms: bool,
    /// The lines after the report, without those for which there was no memory.
    pub(crate) terms: Vec<u8>,
    /// The first bytes of what was written last.
    pub(crate) last: Vec<u8>,
    // Whether what comes next is the rest of it.
    is_rest: bool,
}

// Return whether the line reports a term: `agent 0 step 0 block ..`.
fn is_term_line(line: &[u8]) -> bool {
    line.starts_with(b"agent ")
        && line.split(|byte| *byte == b' ').nth(4) == Some(b"block".as_slice())
}

// Return how many bytes come before the first line that reports a term.
fn report_length(text: &[u8]) -> usize {
    let mut length = 0usize;
    for line in text.split(|byte| *byte == b'\n') {
        if is_term_line(line) {
            return length;
        }
        length = length.saturating_add(line.len()).saturating_add(1);
    }
    text.len()
}

impl<W: Write> Output<W> {
    pub(crate) fn new(alloc: Global, output: W, keeps_terms: bool) -> Output<W> {
        Output {
            output,
            report: None,
            keeps_terms,
            terms: Vec::new(alloc),
            last: Vec::new(alloc),
            is_rest: false,
        }
    }

    // Retain the beginning of what is written.
    fn record_last(&mut self, bytes: &[u8]) {
        if self.is_rest {
            return;
        }
        self.last.clear();
        let count = bytes.len().min(LAST_BYTES);
        let _recorded = self.last.extend_from_slice(&bytes[..count]);
    }
}

impl<W: Write> Write for Output<W> {
    fn write(&mut self, bytes: &[u8]) -> io::Result<usize> {
        self.record_last(bytes);
        if !self.keeps_terms {
            let count = self.output.write(bytes)?;
            self.is_rest = count < bytes.len();
            return Ok(count);
        }
        let left = match self.report {
            Some(left) => left,
            None => report_length(bytes),
        };
        self.report = Some(left);
        if left == 0 {
            let _recorded = self.terms.extend_from_slice(bytes);
            return Ok(bytes.len());
        }
        let most = bytes.len().min(left);
        let count = self.output.write(&bytes[..most])?;
        self.report = Some(left.saturating_sub(count));
        Ok(count)
    }

    fn flush(&mut self) -> io::Result<()> {
        self.output.flush()
    }
}
