//! The codes that calls return, and their texts.
ghost use Rattle.std.specs.Prelude.{◌≡◌, ◌≤◌, ◌<◌, false, int_lt, length, IfErr, OnErr, OnOk};
ghost use Rattle.asm_slots.specs.Codes.{answer_of, first_texts, further, further_texts, number_of, text_among, text_of_code};
ghost use Rattle.asm_slots.specs.WrittenText.{IsCopied, IsTooLong};
ghost use Rattle.asm_slots.specs.Answers.{code_of_text};
ghost use Rattle.asm_slots.specs.declared.codes.Code.TheVariants as variant;

use asm_aggregate::ComposeError;
use asm_explain::TextError;
use asm_storage::StorageError;
use asm_transaction::{PopError, TransactionError};
use asm_update::InstructionsError;
use std::alloc::{AllocError, AllocFailed};

/// Why a call isn't done, with the number that C gets; the header says what each means.
#[derive(Clone, Copy, Drop)]
pub enum Code {
    Stale = 1,
    Clash = 2,
    Memory = 3,
    Full = 4,
    Empty = 5,
    Capacity = 6,
    Small = 7,
    Busy = 8,
    Many = 9,
    NoAnswer = 10,
    Taken = 11,
    Number = 12,
    Missing = 13,
    Other = 14,
    Illegal = 15,
    NotJson = 16,
    Shape = 17,
    Version = 18,
    Cut = 19,
    Large = 20,
    Moved = 21,
    Deep = 22,
    Apart = 23,
    Agents = 24,
    Ahead = 25,
    Operand = 26,
    NoForm = 27,
    NoJournal = 28,
    NoPush = 29,
    NoAgent = 30,
    NoPart = 31,
    NotFull = 32,
    ManyCalls = 33,
    LongLine = 34,
    LongMove = 35,
    Name = 36,
    Order = 37,
    NotNext = 38,
    Opening = 39,
    Previous = 40,
    Damaged = 41,
    Counts = 42,
    LongRun = 43,
    OneSegment = 44,
    NoInstruction = 45,
}

/// Set `written` to how many bytes there are, and return `Small`, if the buffer has no room for them.
pub(crate) fn fit(bytes: &[u8], out: &[u8], written: &mut usize) -> Result<(), Code>
    ensures room { OnOk result (length bytes.now ≤ length out.now) }
    ensures kept { OnOk result (written.new ≡ written.old) }
    ensures small { IfErr result (λ c. c ≡ variant.Small) }
    ensures long { OnErr result (IsTooLong bytes.now (length out.now) written.new) }
{
    if out.len() < bytes.len() {
        *written = bytes.len();
        return Err(Code::Small);
    }
    Ok(())
}

/// Copy the bytes to the start of the buffer, which has room for them.
pub(crate) fn copy_into(bytes: &[u8], out: &mut [u8], written: &mut usize)
    requires { length bytes.now ≤ length out.old }
    ensures written { written.new ≡ length bytes.now }
    ensures copied { IsCopied bytes.now out.old out.new written.new }
{
    *written = bytes.len();
    out[..bytes.len()].copy_from_slice(bytes);
}

/// Copy the bytes to the start of the buffer, if they fit.
///
/// `written` is how many bytes there are, in any case.
///
/// # Errors
///
/// - `Small`: there are more bytes than the buffer has, which is unchanged.
pub fn write(bytes: &[u8], out: &mut [u8], written: &mut usize) -> Result<(), Code>
    ensures written { written.new ≡ length bytes.now }
    ensures copied { OnOk result (IsCopied bytes.now out.old out.new written.new) }
    ensures small { IfErr result (λ c. c ≡ variant.Small) }
    ensures room { OnErr result (length out.old < written.new) }
    ensures unwritten { OnErr result (out.new ≡ out.old) }
{
    fit(bytes, out, written)?;
    copy_into(bytes, out, written);
    Ok(())
}

/// Return what the code means, as a line of English.
pub fn text_of_code(code: i32) -> &'static str
    ensures { result.now ≡ text_of_code code }
{
    if code < Code::Apart as i32 {
        first_text(code)
    } else {
        further_text(code)
    }
}

// Return the text of a code below that of `Apart`.
// Proof: one match with all codes is too large for the prover.
fn first_text(code: i32) -> &'static str
    ensures { result.now ≡ text_among first_texts code }
{
    match code {
        0 => "done",
        1 => "a location that was named, or of a function that was scanned, was written since",
        2 => "the updates of the move clash",
        3 => "out of memory",
        4 => "as many moves were fired as the capacity",
        5 => "a slot holds nothing of this kind, or is passed twice",
        6 => "the capacity is not 1 to 1,048,576",
        7 => "the buffer is too small",
        8 => "64 attempts to append were lost to other agents",
        9 => "more than 256 locations, or locations and scanned functions",
        10 => "no call was answered yet",
        11 => "the slot that was to be filled holds something else",
        12 => "the storage has, or had, another agent with this number",
        13 => "a move has no receipt among the agents that were returned",
        14 => "the two slots are of two storages",
        15 => "the journal is not legal",
        16 => "not JSON",
        17 => "JSON of another shape",
        18 => "a journal of another version",
        19 => "the journal is cut off",
        20 => "an amount or a sum is too large",
        21 => "the state of the agent is at another number of moves than the step",
        22 => "64 moves are pushed already",
        _ => "no code of this library",
    }
}

// Return the text of a code from that of `Apart` on.
fn further_text(code: i32) -> &'static str
    requires { int_lt code (number_of variant.Apart) ≡ false }
    ensures { result.now ≡ text_among further_texts (further code) }
{
    match code {
        23 => "a part opens with another state than the one before it leaves",
        24 => "the number of an agent is not below 256, or more than 256 agents are asked for",
        25 => "a location or a function is named at a number of moves that the agent has not seen",
        26 => "the verb, the kind, the number, the bytes and the amount make no instruction",
        27 => "there is no such form",
        28 => "no journal was made since an agent was returned or taken",
        29 => "no move is pushed",
        30 => "no agent with this number was returned",
        31 => "no part has begun",
        32 => "the state of the agent is at fewer moves than the storage has room for",
        33 => "more than the 4,294,967,295 calls of a journal",
        34 => "a line of more than 1,073,741,824 bytes",
        35 => "a move of more than 4,096 instructions",
        36 => "not the name of a segment",
        37 => "another call comes next",
        38 => "not the number of the next segment",
        39 => "segment 0 has events, or something before it",
        40 => "not the segment after the one before it",
        41 => "not the text that was saved",
        42 => "a segment has other counts than its name says",
        43 => "100,000,000 segments, or 2^64 moves or more",
        44 => "the only segment of a run is not dropped",
        45 => "the move has no instruction at this place",
        _ => "no code of this library",
    }
}

/// Return the number that C gets: 0 if the call is done.
pub fn answer(done: Result<(), Code>) -> i32
    ensures { result ≡ answer_of done }
{
    match done {
        Ok(()) => 0,
        Err(code) => code as i32,
    }
}

impl From<AllocError> for Code {
    ghost from_gives = { λ _ c. c ≡ variant.Memory };

    fn from(_error: AllocError) -> Code {
        Code::Memory
    }
}

impl<T: Drop> From<AllocFailed<T>> for Code {
    ghost from_gives = { λ _ c. c ≡ variant.Memory };

    fn from(_error: AllocFailed<T>) -> Code {
        Code::Memory
    }
}

impl From<TextError> for Code {
    ghost from_gives = { λ e c. c ≡ code_of_text e };

    fn from(error: TextError) -> Code {
        match error {
            TextError::NotJson => Code::NotJson,
            TextError::Shape => Code::Shape,
            TextError::Memory => Code::Memory,
        }
    }
}

impl From<StorageError> for Code {
    ghost use Rattle.asm_slots.specs.Answers.{code_of_storage};

    ghost from_gives = { λ e c. c ≡ code_of_storage e };

    fn from(error: StorageError) -> Code {
        match error {
            StorageError::BadCapacity => Code::Capacity,
            StorageError::Memory => Code::Memory,
        }
    }
}

impl From<InstructionsError> for Code {
    ghost use Rattle.asm_slots.specs.Answers.{code_of_instructions};

    ghost from_gives = { λ e c. c ≡ code_of_instructions e };

    fn from(error: InstructionsError) -> Code {
        match error {
            InstructionsError::ManyInstructions => Code::LongMove,
            InstructionsError::Memory => Code::Memory,
        }
    }
}

impl From<ComposeError> for Code {
    ghost use Rattle.asm_slots.specs.Answers.{code_of_compose};

    ghost from_gives = { λ e c. c ≡ code_of_compose e };

    fn from(error: ComposeError) -> Code {
        match error {
            ComposeError::Clash(_) => Code::Clash,
            ComposeError::Large(_) => Code::Large,
            ComposeError::ManyInstructions => Code::LongMove,
            ComposeError::Memory => Code::Memory,
        }
    }
}

impl From<TransactionError> for Code {
    ghost use Rattle.asm_slots.specs.Answers.{code_of_transaction};

    ghost from_gives = { λ e c. c ≡ code_of_transaction e };

    fn from(error: TransactionError) -> Code {
        match error {
            TransactionError::Moved => Code::Moved,
            TransactionError::ManyReads => Code::Many,
            TransactionError::Memory => Code::Memory,
        }
    }
}

impl From<PopError> for Code {
    ghost use Rattle.asm_slots.specs.Answers.{code_of_pop};

    ghost from_gives = { λ e c. c ≡ code_of_pop e };

    fn from(error: PopError) -> Code {
        match error {
            PopError::Composition(cause) => Code::from(cause),
            PopError::ManyReads => Code::Many,
            PopError::Memory => Code::Memory,
        }
    }
}
