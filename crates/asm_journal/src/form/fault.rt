//! Where JSON has another form than its reader wants, and why.
ghost use Rattle.std.specs.Prelude.{◌≡◌};
ghost use Rattle.asm_journal.specs.Form.{IsCarried, IsFault, IsFaultIn, IsFaultOf, IsPlaced};
ghost use Rattle.asm_journal.specs.declared.form.fault.FormError.TheVariants as form_error;
ghost use Rattle.asm_journal.specs.declared.form.fault.PathStep.TheVariants as path_step;

use std::alloc::{AllocError, AllocFailed, Global};
use thiserror::Error;

/// A step from a value to one of its parts.
#[derive(Clone, Copy, Debug, Drop, PartialEq, Eq)]
pub enum PathStep {
    /// The item of an array with this index.
    Index(usize),
    /// The member of an object with this key.
    Key(&'static str),
}

/// Why a part has another form.
#[derive(Clone, Copy, Debug, Drop, PartialEq, Eq, Error)]
pub enum FormCause {
    /// An array is wanted.
    #[error("it is no array")]
    NoArray,
    /// A whole number in the range of i64 is wanted.
    #[error("a number is whole, from -9,223,372,036,854,775,808 to 9,223,372,036,854,775,807")]
    Whole,
    /// An array isn't an element, and a list's member isn't an array.
    #[error("a list is written {{\"list\":[..]}}")]
    List,
    /// A list has too many items.
    #[error("a list has at most 4,096 items")]
    LongList,
    /// Lists nest too deep.
    #[error("lists nest at most 8 deep")]
    DeepList,
    /// A set isn't an element.
    #[error("it can't hold a set")]
    HeldSet,
    /// A bag isn't an element.
    #[error("it can't hold a bag")]
    HeldBag,
    /// An object has other members than a value.
    #[error("an object is a list, a set or a bag, and has one member")]
    Object,
    /// A location is wanted.
    #[error("a location is an array of a name and at most 8 arguments")]
    Location,
    /// The name of a location is wanted.
    #[error("a name has 1 to 64 letters, digits and _, and begins with no digit")]
    Name,
    /// An element is in the set twice.
    #[error("an element stands twice in a set")]
    SetTwice,
    /// The counts of a bag are wanted.
    #[error("a bag is written {{\"bag\":[[ELEMENT,COUNT],..]}}")]
    Bag,
    /// An element and its amount or count are wanted.
    #[error("an element and its amount or count stand in pairs")]
    Counted,
    /// An amount or a count is wanted.
    #[error("an amount or a count is a whole number, from 1 to 4,294,967,295")]
    Amount,
    /// An element is in the bag twice.
    #[error("an element stands twice in a bag")]
    BagTwice,
    /// An instruction is wanted.
    #[error("an instruction is an array of a word, a location and operands")]
    Instruction,
    /// The word is none of an action.
    #[error("an instruction is put, add, remove, bagadd, bagremove or inc")]
    Word,
    /// The operand of `put` is wanted.
    #[error("put has a value behind its location")]
    PutOperand,
    /// The operand of `add` and `remove` is wanted.
    #[error("add and remove have an element behind their location")]
    SetOperand,
    /// The operands of `bagadd` and `bagremove` are wanted.
    #[error("bagadd and bagremove have an element and its amount behind their location")]
    BagOperands,
    /// The operand of `inc` is wanted.
    #[error("inc has a number behind its location")]
    IncOperand,
    /// A location and its value are wanted.
    #[error("a pair is an array of a location and its value")]
    Pair,
    /// A location is in the state twice.
    #[error("a location stands twice")]
    StateTwice,
    /// A declared read is wanted.
    #[error("a read is an array of a location and a number")]
    Read,
    /// The number of a declared read is wanted.
    #[error("the number of a read is whole, from 0 to 4,294,967,295")]
    ReadNumber,
    /// A move has so many instructions, which are too many.
    #[error("a move has at most 4,096 instructions")]
    Many(usize),
    /// A call is wanted.
    #[error("a move is an object with the members fire and reads")]
    Call,
    /// An event is wanted.
    #[error("an event is an object with the members agent, call and reply")]
    Event,
    /// The number of an event's agent is wanted.
    #[error("the agent is a whole number, from 0 to 4,294,967,295")]
    Agent,
    /// A reply is wanted.
    #[error("the reply is none of a call")]
    Reply,
    /// A scan is wanted.
    #[error("a scan is an array of a name and a number")]
    Scan,
    /// A term is wanted.
    #[error("a term is a value, {{\"val\":LOC}} or {{\"sum\":[TERM,TERM]}}, and a value is no object but a list, a set or a bag")]
    Term,
    /// The terms of a sum are wanted.
    #[error("a sum is written {{\"sum\":[TERM,TERM]}}")]
    Sum,
    /// A script is wanted.
    #[error("a script is an object with the members agents and init")]
    Script,
    /// A script has so many agents, which are too many.
    #[error("a script has at most 256 agents")]
    ManyAgents(usize),
    /// A step has so many blocks: none, or too many.
    #[error("a step has 1 to 65 blocks")]
    BlockCount(usize),
    /// A step reads too many locations.
    #[error("more than 256 locations to read")]
    ManyReads,
}

/// Where JSON has another form than its reader wants, and why.
#[derive(Debug, Drop)]
pub struct FormFault {
    // from the part at fault up to the whole value
    path: Vec<PathStep>,
    cause: FormCause,
}

impl FormFault {
    /// Return the steps to the part at fault, the innermost one first.
    pub fn path(&self) -> &[PathStep]
        ensures { result.now ≡ self.now.path.items }
    {
        self.path.as_slice()
    }

    /// Return why the part has another form.
    pub fn cause(&self) -> FormCause
        ensures { result ≡ self.now.cause }
    {
        self.cause
    }
}

/// Why JSON wasn't read.
#[derive(Debug, Drop)]
pub enum FormError {
    /// No value has this JSON.
    Form(FormFault),
    /// The memory that the call asked for was refused.
    Memory,
}

impl From<AllocError> for FormError {
    ghost from_gives = { λ _ e. e ≡ form_error.Memory };

    fn from(_error: AllocError) -> FormError {
        FormError::Memory
    }
}

impl<T: Drop> From<AllocFailed<T>> for FormError {
    ghost from_gives = { λ _ e. e ≡ form_error.Memory };

    fn from(_error: AllocFailed<T>) -> FormError {
        FormError::Memory
    }
}

impl FormError {
    /// Return the fault of a complete value.
    pub fn of(alloc: Global, cause: FormCause) -> FormError
        ensures { IsFaultOf cause result }
    {
        FormError::Form(FormFault {
            path: Vec::new(alloc),
            cause,
        })
    }

    /// Return the same fault, of the value that has the faulty one as this part.
    fn in_part(self, part: PathStep) -> FormError
        ensures fault { IsFault result → IsFault self }
        ensures placed { IsFaultIn part self result }
    {
        match self {
            FormError::Form(mut fault) => match fault.path.push(part) {
                Ok(()) => FormError::Form(fault),
                Err(_) => FormError::Memory,
            },
            FormError::Memory => FormError::Memory,
        }
    }
}

/// What was read of a part, where the fault's path begins at the whole.
pub trait OfPart {
    /// Say that this was read of the item with this index.
    fn within(self, index: usize) -> Self;

    /// Say that this was read of the member with this key.
    fn at(self, key: &'static str) -> Self;
}

impl<T: Drop> OfPart for Result<T, FormError> {
    fn within(self, index: usize) -> Result<T, FormError>
        ensures carried { IsCarried self result }
        ensures placed { IsPlaced (path_step.Index index) self result }
    {
        match self {
            Ok(read) => Ok(read),
            Err(error) => Err(error.in_part(PathStep::Index(index))),
        }
    }

    fn at(self, key: &'static str) -> Result<T, FormError>
        ensures carried { IsCarried self result }
        ensures placed { IsPlaced (path_step.Key key.entry) self result }
    {
        match self {
            Ok(read) => Ok(read),
            Err(error) => Err(error.in_part(PathStep::Key(key))),
        }
    }
}
