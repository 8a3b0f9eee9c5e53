//! Journals on outputs that take all, a part, or nothing.
use asm_journal::{JournalError, WriteError, from_text, write_text};
use asm_storage::History;
use asm_test_support::ERROR_KINDS;
use std::alloc::{AllocError, Global};
use std::io;
use std::io::{ErrorKind, Write};
use std::test::Fail;

/// A move of two blocks, where the second saw what the first had added.
const BLOCKS: &str =
    r#"{"agents":1,"capacity":4096,"events":2,"init":[[["s"],{"set":[]}]],"version":2}
{"agent":0,"call":{"read":[["s"]]},"reply":{"number":0,"values":[{"set":[]}]}}
{"agent":0,"call":{"fire":[["add",["s"],1],["put",["y"],{"set":[1]}]],"reads":[[["s"],0]]},"reply":{"fired":1}}
"#;

/// An output that takes some bytes, a few at a time.
///
/// Then one write takes none or fails, and the next ones take all. It counts its calls, and knows whether each was
/// a write of all that is left of `BLOCKS`, which was something.
#[derive(Clone, Copy)]
struct Short {
    room: usize,
    most: usize,
    fails: Option<ErrorKind>,
    taken: usize,
    calls: u32,
    writes_the_rest: bool,
}

impl Write for Short {
    fn write(&mut self, buf: &[u8]) -> io::Result<usize> {
        self.calls = self.calls.saturating_add(1);
        if buf.is_empty() || BLOCKS.as_bytes().get(self.taken..) != Some(buf) {
            self.writes_the_rest = false;
        }
        if self.room == 0 {
            self.room = usize::MAX;
            self.most = usize::MAX;
            return match self.fails {
                Some(kind) => Err(io::Error::from(kind)),
                None => Ok(0),
            };
        }
        let count = buf.len().min(self.room).min(self.most);
        self.taken = self.taken.saturating_add(count);
        self.room -= count;
        Ok(count)
    }

    fn flush(&mut self) -> io::Result<()> {
        self.writes_the_rest = false;
        Ok(())
    }
}

/// An output with this much room, that takes at most so much in one write, and then fails so or takes nothing; and
/// how often it is called.
type Row = (usize, usize, Option<ErrorKind>, u32);

/// Return whether the history's journal, `BLOCKS`, goes out as far as there is room, and the answer says so.
fn goes_out(
    alloc: Global,
    history: &History,
    (room, most, fails, calls): Row,
) -> Result<bool, AllocError> {
    if !history.fits() {
        return Ok(false);
    }
    let mut out = Short {
        room,
        most,
        fails,
        taken: 0,
        calls: 0,
        writes_the_rest: true,
    };
    let whole = BLOCKS.len();
    let reported = match write_text(alloc, &mut out, history) {
        Ok(()) => whole <= room,
        Err(WriteError::Output { written }) => room < whole && written == room as u64,
        Err(WriteError::Memory) => return Err(AllocError),
    };
    Ok(reported && out.writes_the_rest && out.taken == room.min(whole) && out.calls == calls)
}

// `BLOCKS` has 271 bytes.
static ROWS: [Row; 12] = [
    (0, 1, Some(ErrorKind::Other), 1),
    (0, 1, None, 1),
    (1, 1, Some(ErrorKind::WouldBlock), 2),
    (5, 5, Some(ErrorKind::Interrupted), 2),
    (5, 2, None, 4),
    (100, 64, Some(ErrorKind::Interrupted), 3),
    (270, 4096, Some(ErrorKind::Other), 2),
    (270, 4096, None, 2),
    (271, 1, None, 271),
    (271, 7, Some(ErrorKind::Other), 39),
    (271, 4096, None, 1),
    (4096, 4096, None, 1),
];

/// Return whether the journal `BLOCKS` goes out so.
fn blocks_go_out(alloc: Global, row: Row) -> Result<bool, JournalError> {
    let history = from_text(alloc, BLOCKS.as_bytes())?;
    Ok(goes_out(alloc, &history, row)?)
}

#[test]
fn what_went_out_is_reported_and_nothing_follows_a_failed_write(
    rt: HostRuntime,
) -> Result<(), Fail> {
    for (index, row) in ROWS.iter().enumerate() {
        assert!(rt; blocks_go_out(rt.alloc(), *row)?, "{index}");
    }
    Ok(())
}

#[test]
fn a_write_that_fails_is_not_tried_again_whatever_its_kind(rt: HostRuntime) -> Result<(), Fail> {
    for (index, kind) in ERROR_KINDS.iter().enumerate() {
        let row = (5, 5, Some(*kind), 2);
        assert!(rt; blocks_go_out(rt.alloc(), row)?, "{index}");
    }
    Ok(())
}
