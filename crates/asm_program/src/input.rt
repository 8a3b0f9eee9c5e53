//! What the program reads: standard input, a file, or the segments of a run's folder.
ghost use Rattle.std.specs.Prelude.{◌≡◌, ◌≤◌, false, length, vec_len, IfSome};
ghost use Rattle.std.specs.Option.{option_and_then};
ghost use Rattle.std.specs.Io.{ReadsAtMost};
ghost use Rattle.std.specs.Io.KnownBytes.{ReadConsumes};

use crate::diagnostics::INPUT_LIMIT;
use asm_driver::{Folder, InputError, PortFailed, segment_files};
use asm_play::aggregator::script_aggregator;
use asm_run::RunReader;
use std::alloc::Global;
use std::io::{ErrorKind, Read};
use std::rt::{Files, Runtime};
use std::sync::Wait;
use std::{fs, io};

// Number of bytes of names that are read at once.
const CHUNK: usize = 4096;

/// An input, with the first bytes that were read of it.
#[derive(Drop)]
pub(crate) struct Recorder<I> {
    input: I,
    most: usize,
    bytes: Vec<u8>,
    // Whether there was no memory for some of them.
    lacks_memory: bool,
    /// Whether a read failed.
    pub(crate) failed: bool,
    ghost within: { vec_len bytes ≤ most },
    ghost few: { most ≤ 16777217 },
}

impl<I: Read> Recorder<I> {
    /// Wrap the input, and retain at most this many of its first bytes.
    /// It retains at most 16,777,217 bytes, one more than a script may have.
    pub(crate) fn new(alloc: Global, input: I, most: usize) -> Recorder<I> {
        Recorder {
            input,
            most: most.min(INPUT_LIMIT + 1),
            bytes: Vec::new(alloc),
            lacks_memory: false,
            failed: false,
        }
    }

    fn record(&mut self, bytes: &[u8]) {
        let room = self.most.saturating_sub(self.bytes.len());
        let count = bytes.len().min(room);
        if self.bytes.extend_from_slice(&bytes[..count]).is_err() {
            self.lacks_memory = true;
        }
    }

    /// Return the first bytes that were read, if there was memory for them.
    pub(crate) fn head(&self) -> Option<&[u8]>
        ensures { IfSome result (λ bytes. length bytes.now ≤ 16777217) }
    {
        if self.lacks_memory {
            None
        } else {
            Some(self.bytes.as_slice())
        }
    }
}

impl<I: Read> Read for Recorder<I> {
    fn read(&mut self, buf: &mut [u8]) -> io::Result<usize> {
        match self.input.read(buf) {
            Ok(count) => {
                self.record(&buf[..count]);
                Ok(count)
            }
            Err(error) => {
                self.failed = true;
                Err(error)
            }
        }
    }
}

/// The files of a folder.
#[derive(Drop)]
pub(crate) struct RunFolder<'r, R: Files> {
    rt: &'r R,
    alloc: Global,
    path: String,
    file: Option<R::File>,
    /// The name of the file that was opened last; it is empty before the first one.
    pub(crate) name: String,
    /// Whether it couldn't be read.
    pub(crate) has_failed: bool,
}

impl<'r, R: Files> RunFolder<'r, R> {
    /// Return the folder at this path, of which no file is open.
    pub(crate) fn new(rt: &'r R, alloc: Global, path: String) -> RunFolder<'r, R>
        ensures { result.has_failed ≡ false }
    {
        RunFolder {
            rt,
            alloc,
            path,
            file: None,
            name: String::new(alloc),
            has_failed: false,
        }
    }

    // Open the file of this name in place of the open one, and return its size.
    fn open_file(&mut self, name: &str) -> io::Result<u64> {
        self.file = None;
        self.name = String::from_str(self.alloc, name)?;
        let folder = self.path.as_str();
        let path = format!(in self.alloc; "{folder}/{name}")?;
        let size = regular_size(self.rt, path.as_str())?;
        self.file = Some(fs::open(self.rt, path.as_str())?);
        Ok(size)
    }
}

impl<R: Files> Folder for RunFolder<'_, R> {
    ghost use Rattle.std.specs.Prelude.{None};
    ghost use Rattle.std.specs.Option.{option_and_then};

    // What a file holds before it is opened isn't known.
    ghost files = { λ _ _. None };

    ghost remaining = { λ s. option_and_then (λ f. R.File.remaining f) s.file };

    ghost failed = { λ s. s.has_failed };

    fn open(&mut self, name: &str) -> Result<u64, InputError> {
        let opened = self.open_file(name);
        self.has_failed = false;
        match opened {
            Ok(size) => Ok(size),
            Err(error) if error.kind() == ErrorKind::OutOfMemory => Err(InputError::Memory),
            Err(_) => {
                self.has_failed = true;
                Err(InputError::Fault)
            }
        }
    }

    fn read(&mut self, buffer: &mut [u8]) -> Result<usize, PortFailed> {
        let read = read_file(&mut self.file, buffer);
        self.has_failed = read.is_err();
        match read {
            Ok(count) => Ok(count),
            Err(_) => Err(PortFailed),
        }
    }
}

// Read from the open file. If none is open, nothing is left.
fn read_file<F: Read>(file: &mut Option<F>, buf: &mut [u8]) -> io::Result<usize>
    ensures bound { ReadsAtMost result buf.new }
    ensures bytes { ReadConsumes (option_and_then (λ f. F.remaining f) file.old)
        (option_and_then (λ f. F.remaining f) file.new) result buf.new }
{
    match file {
        Some(file) => file.read(buf),
        None => Ok(0),
    }
}

/// The segments of a run's folder, one after the other.
#[derive(Drop)]
pub(crate) struct Segments<'r, R: Files> {
    folder: RunFolder<'r, R>,
    // The segments after it, the last one first.
    names: Vec<String>,
}

impl<R: Files> Read for Segments<'_, R> {
    fn read(&mut self, buf: &mut [u8]) -> io::Result<usize> {
        for _ in 0..self.names.len() {
            let count = read_file(&mut self.folder.file, buf)?;
            if count > 0 {
                return Ok(count);
            }
            let Some(name) = self.names.pop() else {
                return Ok(0);
            };
            let _size = self.folder.open_file(name.as_str())?;
        }
        read_file(&mut self.folder.file, buf)
    }
}

/// An input that can't be read.
#[derive(Drop)]
pub(crate) struct Unreadable;

impl Read for Unreadable {
    fn read(&mut self, _buf: &mut [u8]) -> io::Result<usize> {
        Err(io::Error::from(ErrorKind::InvalidInput))
    }
}

/// What a name leads to.
#[derive(Drop)]
pub(crate) enum Opened<F> {
    File(F),
    /// The path of a folder, with the names of its files.
    Folder(String, Vec<String>),
}

// Return the size of a regular file. Another one isn't opened, as a pipe would wait for its writer.
fn regular_size<R: Files>(rt: &R, path: &str) -> io::Result<u64> {
    let metadata = fs::metadata(rt, path)?;
    if !metadata.is_file() {
        return Err(io::Error::from(ErrorKind::InvalidInput));
    }
    Ok(metadata.len())
}

// Return the name as a text. What isn't UTF-8 becomes a text that no segment has, with the same end.
fn text_of(alloc: Global, name: &[u8]) -> io::Result<String> {
    if let Ok(text) = std::str::from_utf8(name) {
        return Ok(String::from_str(alloc, text)?);
    }
    let end = if name.ends_with(b".journal") {
        "\u{fffd}.journal"
    } else {
        "\u{fffd}"
    };
    Ok(String::from_str(alloc, end)?)
}

// Return the names of all files in the folder.
fn names_in<R: Runtime + AllocGlobal + Wait>(
    rt: &R,
    alloc: Global,
    folder: &str,
) -> io::Result<Vec<String>> {
    let mut folder = rt.open_dir(folder)?;
    let mut names = Vec::new(alloc);
    let mut buffer = [0u8; CHUNK];
    'chunks: for _ in rt.forever() {
        let count = folder.read(&mut buffer)?;
        if count == 0 {
            return Ok(names);
        }
        for name in buffer[..count].split(|byte| *byte == 0) {
            if !name.is_empty() {
                names.push(text_of(alloc, name)?)?;
            }
        }
    }
    unreachable!()
}

// Return whether these are the names of a run's segments in order, as far as names say.
fn are_chained(alloc: Global, names: &[String]) -> bool {
    let mut reader = RunReader::new(alloc, script_aggregator());
    for name in names {
        if reader.name(alloc, name.as_str(), 0).is_err() || reader.skip().is_err() {
            return false;
        }
    }
    !names.is_empty()
}

/// Return the segments of the run at this path, one after the other; `None` if the names aren't those of a run.
pub(crate) fn open_segments<'r, R: Files>(
    rt: &'r R,
    alloc: Global,
    path: String,
    names: &[String],
) -> io::Result<Option<Segments<'r, R>>> {
    let mut names = segment_files(alloc, names)?;
    if !are_chained(alloc, names.as_slice()) {
        return Ok(None);
    }
    names.reverse();
    let folder = RunFolder::new(rt, alloc, path);
    Ok(Some(Segments { folder, names }))
}

/// Open a file, or list a folder.
pub(crate) fn open<R: Runtime + AllocGlobal + Wait>(
    rt: &R,
    alloc: Global,
    path: &str,
) -> io::Result<Opened<R::File>> {
    if fs::metadata(rt, path)?.is_dir() {
        let names = names_in(rt, alloc, path)?;
        return Ok(Opened::Folder(String::from_str(alloc, path)?, names));
    }
    let _size = regular_size(rt, path)?;
    Ok(Opened::File(fs::open(rt, path)?))
}
