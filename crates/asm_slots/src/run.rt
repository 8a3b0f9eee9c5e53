//! Runs in slots: the reader and the writer of a folder, and the numbers that they report to C.
#![tactic(auto, unfolding(asm_aggregate::specs::Standard::standard_meaning))]

ghost use Rattle.std.specs.Prelude.{◌≡◌, ◌↔◌, ◌⊎◌, IfErr, IfOk, IsTrue, string_bytes};
ghost use Rattle.asm_run.specs.Protocol.{request_at};
ghost use Rattle.asm_run.specs.declared.stage.Stage.TheVariants as at;
ghost use Rattle.asm_slots.specs.RunReads.{EndsText, IsNoRunState, IsRunState, SkipsText, TakesName, TakesNameBytes, TakesText};
ghost use Rattle.asm_slots.specs.RunReads.{code_of_read, no_segment, numbers_of_read, segment_of_name};
ghost use Rattle.asm_slots.specs.RunWrites.{DropsOrNot, GoesOnOrNot, Hands, HasBegun, HasSaved, NotesDone, NotesFailure};
ghost use Rattle.asm_slots.specs.RunWrites.{code_of_write, no_run_numbers, number_of_request};
ghost use Rattle.asm_slots.specs.WrittenText.{IsWritten};

use crate::audit::AuditNumbers;
use crate::auditing::code_of_audit_error;
use crate::codes::{Code, write};
use asm_aggregate::{Standard, standard};
use asm_journal::state_text;
use asm_run::{Place, ReadError, Request, RunReader, RunWriter, SegmentName, Stage, WriteError};
use std::alloc::{AllocError, Global};
use std::marker::Model;

/// What the name of a segment says.
#[repr(C)]
#[derive(Drop)]
pub struct Segment {
    /// Its number, from 0.
    pub number: u64,
    /// How many moves the segments before it have.
    pub first: u64,
    /// How many moves it has.
    pub moves: u64,
    /// How many events it has.
    pub events: u64,
}

/// What is saved of a run.
#[repr(C)]
#[derive(Drop)]
pub struct RunNumbers {
    /// The number of the oldest segment; those before it were dropped.
    pub first: u64,
    /// How many segments there are, with those that were dropped.
    pub segments: u64,
    /// How many moves they have.
    pub moves: u64,
}

/// The reader and the writer of the folder of a run, with the standard aggregator.
#[derive(Drop)]
pub struct Run {
    // What was read of the folder. Both are boxed, so that what a slot holds stays small.
    reader: Box<RunReader<Standard>>,
    // What is saved, and which call of the system comes next.
    writer: Box<RunWriter>,
}

impl Model for Run {
    ghost use Rattle.asm_audit.specs.contracts.error.AuditError.{the_row as error_row};
    ghost use Rattle.asm_audit.specs.contracts.progress.Progress.{the_row as progress_row};
    ghost use Rattle.asm_run.specs.contracts.trail.Trail.{the_row as trail_row};
    ghost use Rattle.asm_run.specs.contracts.writer.RunWriter.{the_row as writer_row};
    ghost use Rattle.asm_slots.specs.RunView.{RunView, run_code};

    ghost Value = { RunView };

    ghost coded = { run_code progress_row.coded error_row.coded trail_row.coded writer_row.coded };

    ghost view = { λ r. record {
      progress = r.reader.value.judge.auditor.auditor.progress;
      line = r.reader.value.judge.auditor.line.items;
      fault = r.reader.value.judge.fault;
      trail = r.reader.value.trail;
      writer = r.writer.value;
    } };
}

impl Segment {
    pub(crate) fn none() -> Segment
        ensures { result ≡ no_segment }
    {
        Segment {
            number: 0,
            first: 0,
            moves: 0,
            events: 0,
        }
    }

    fn of(name: &SegmentName) -> Segment
        ensures { result ≡ segment_of_name name.now }
    {
        Segment {
            number: name.number,
            first: name.first,
            moves: name.moves,
            events: name.events,
        }
    }
}

// Return the code of the error, and set its numbers.
fn code_of_read(error: ReadError, reported: &mut AuditNumbers) -> Code
    ensures code { result ≡ code_of_read error }
    ensures numbers { reported.new ≡ numbers_of_read error }
{
    *reported = AuditNumbers::none();
    match error {
        ReadError::Memory => Code::Memory,
        ReadError::Busy => Code::Order,
        ReadError::Name => Code::Name,
        ReadError::Number => Code::NotNext,
        ReadError::Opening => Code::Opening,
        ReadError::Previous => Code::Previous,
        ReadError::Many => Code::LongRun,
        ReadError::Damaged => Code::Damaged,
        ReadError::Audit(cause) => code_of_audit_error(cause, reported),
        ReadError::Counts => Code::Counts,
    }
}

impl From<WriteError> for Code {
    ghost from_gives = { λ e c. c ≡ code_of_write e };

    fn from(error: WriteError) -> Code {
        match error {
            WriteError::Memory => Code::Memory,
            WriteError::Busy => Code::Order,
            WriteError::Segments => Code::LongRun,
            WriteError::Moves => Code::LongRun,
            WriteError::Opening => Code::Opening,
        }
    }
}

// Return the number of the request that C gets.
fn number_of_request(request: Option<Request>) -> i32
    ensures { result ≡ number_of_request request }
{
    match request {
        None => 0,
        Some(Request::Remove) => 1,
        Some(Request::Create) => 2,
        Some(Request::Write) => 3,
        Some(Request::Flush) => 4,
        Some(Request::Rename) => 5,
        Some(Request::FlushFolder) => 6,
        Some(Request::RemoveOldest) => 7,
    }
}

impl RunNumbers {
    pub(crate) fn none() -> RunNumbers
        ensures { result ≡ no_run_numbers }
    {
        RunNumbers {
            first: 0,
            segments: 0,
            moves: 0,
        }
    }
}

impl Run {
    // Return a run whose folder this process has locked.
    pub(crate) fn begin(alloc: Global) -> Result<Run, AllocError>
        ensures { IfOk result HasBegun }
    {
        let reader = Box::new(alloc, RunReader::new(alloc, standard()))?;
        let writer = Box::new(alloc, RunWriter::open())?;
        Ok(Run { reader, writer })
    }

    fn take_name(
        &mut self,
        alloc: Global,
        name: &str,
        length: u64,
        found: &mut Segment,
    ) -> Result<(), Code>
        ensures { TakesName name.now length found.new result self.old self.new }
    {
        *found = Segment::none();
        match self.reader.name(alloc, name, length) {
            Ok(taken) => {
                *found = Segment::of(&taken);
                Ok(())
            }
            Err(error) => {
                let mut numbers = AuditNumbers::none();
                Err(code_of_read(error, &mut numbers))
            }
        }
    }

    // Take the next name, of a text of so many bytes.
    pub(crate) fn name(
        &mut self,
        alloc: Global,
        name: &[u8],
        length: u64,
        found: &mut Segment,
    ) -> Result<(), Code>
        ensures { TakesNameBytes name.now length found.new result self.old self.new }
    {
        *found = Segment::none();
        let Ok(name) = str::from_utf8(name) else {
            return Err(Code::Name);
        };
        self.take_name(alloc, name, length, found)
    }

    // Take the next bytes of the text.
    pub(crate) fn text(&mut self, alloc: Global, bytes: &[u8]) -> Result<(), Code>
        ensures { TakesText bytes.now result self.old self.new }
    {
        match self.reader.trail.place {
            Place::Within => {}
            Place::Between | Place::Refused => return Err(Code::Order),
        }
        self.reader.feed(alloc, bytes);
        Ok(())
    }

    // End the text.
    pub(crate) fn end(&mut self, alloc: Global, reported: &mut AuditNumbers) -> Result<(), Code>
        ensures { EndsText reported.new result self.old self.new }
    {
        match self.reader.end(alloc) {
            Ok(()) => {
                *reported = AuditNumbers::of(self.reader.trail.counts);
                Ok(())
            }
            Err(error) => Err(code_of_read(error, reported)),
        }
    }

    // End the segment without its text.
    pub(crate) fn skip(&mut self) -> Result<(), Code>
        ensures { SkipsText result self.old self.new }
    {
        match self.reader.skip() {
            Ok(()) => Ok(()),
            Err(_) => Err(Code::Order),
        }
    }

    // Go on after what was read.
    pub(crate) fn read(&mut self) -> Result<(), Code>
        ensures { GoesOnOrNot result self.old self.new }
    {
        match self.reader.trail.place {
            Place::Between => {}
            Place::Within | Place::Refused => return Err(Code::Order),
        }
        let found = self.reader.extent();
        self.writer.read(found)?;
        Ok(())
    }

    // Return the text of the state that the segments leave.
    pub(crate) fn state(&self, alloc: Global) -> Result<String, Code>
        ensures ok { IfOk result (λ text. IsRunState self.now (string_bytes text)) }
        ensures err { IfErr result (IsNoRunState self.now) }
    {
        match self.reader.trail.place {
            Place::Between => {}
            Place::Within | Place::Refused => return Err(Code::Order),
        }
        match self.reader.state(alloc)? {
            Some(left) => Ok(state_text(alloc, &left)?),
            None => Err(Code::NoPart),
        }
    }

    // Begin to save a text, and write its name.
    pub(crate) fn hand(
        &mut self,
        alloc: Global,
        moves: u64,
        events: u64,
        text: &[u8],
        out: &mut [u8],
        written: &mut usize,
    ) -> Result<(), Code>
        ensures { Hands moves events text.now out.old out.new written.new result self.old self.new }
    {
        *written = 0;
        let mut next = *self.writer;
        let name = next.hand(alloc, moves, events, text)?;
        write(name.as_slice(), out, written)?;
        *self.writer = next;
        Ok(())
    }

    // Begin to drop the oldest segment.
    pub(crate) fn drop_oldest(&mut self, number: &mut u64) -> Result<(), Code>
        ensures { DropsOrNot number.new result self.old self.new }
    {
        *number = 0;
        if !is_resting(self.writer.stage) {
            return Err(Code::Order);
        }
        match self.writer.drop_oldest() {
            Some(oldest) => {
                *number = oldest;
                Ok(())
            }
            None => Err(Code::OneSegment),
        }
    }

    // Return the number of what the writer asks for.
    pub(crate) fn request(&self) -> i32
        ensures { result ≡ number_of_request (request_at self.now.writer.stage) }
    {
        number_of_request(self.writer.request())
    }

    // Note that what was asked for is done.
    pub(crate) fn done(&mut self)
        ensures { NotesDone self.old self.new }
    {
        self.writer.done();
    }

    // Note that it failed.
    pub(crate) fn fail(&mut self)
        ensures { NotesFailure self.old self.new }
    {
        self.writer.fail();
    }

    // Write the digest of the last segment that is saved, and set the numbers.
    pub(crate) fn saved(
        &self,
        numbers: &mut RunNumbers,
        out: &mut [u8],
        written: &mut usize,
    ) -> Result<(), Code>
        ensures { IsWritten (HasSaved numbers.new self.now) (λ c. ⊥) out.old out.new written.new result }
    {
        let extent = self.writer.saved();
        *numbers = RunNumbers {
            first: extent.first,
            segments: extent.end.segments,
            moves: extent.end.moves,
        };
        write(extent.end.digest.as_slice(), out, written)
    }
}

// Return whether an order may be given at this stage.
fn is_resting(stage: Stage) -> bool
    ensures { IsTrue result ↔ (stage ≡ at.Resting) }
{
    match stage {
        Stage::Resting => true,
        Stage::Ended
        | Stage::Opening
        | Stage::Removing
        | Stage::Creating
        | Stage::Writing
        | Stage::Flushing
        | Stage::Renaming
        | Stage::Dropping
        | Stage::FlushingFolder => false,
    }
}
