ghost use Rattle.std.specs.Prelude.{◌≡◌, ◌↔◌, IfOk, IsTrue};
ghost use Rattle.std.specs.Option.{option_copied};
ghost use Rattle.asm_storage.specs.History.{fired_move, CallFits};
ghost use Rattle.asm_storage.specs.declared.call.Call.TheVariants as call;

use crate::limits::READS_LIMIT;
use crate::shared_lists::same_list;
use asm_element::{Items, Location, Value};
use asm_state::Named;
use asm_update::{Clash, Instructions};
use std::alloc::{AllocError, Global};

/// What an agent asks of the storage.
#[derive(Debug, Drop, PartialEq, Eq)]
pub enum Call {
    /// To read these locations.
    Read(Items<Location>),
    /// To fire the instructions, unless a declared location was written since its read.
    Fire {
        /// The locations that the instructions depend on, each with the number of its read.
        reads: Items<Named>,
        /// The move to fire.
        instrs: Instructions,
    },
}

/// The reply to a fire: the first of `Stale`, `Clash`, `Full`, `Fired` that holds.
///
/// Source: this project's profile; a clash is an inconsistent update set as in Börger and Stärk.
#[derive(Debug, Drop, PartialEq, Eq)]
pub enum Reply {
    /// The move was fired, and has this number; the first move has the number 1.
    Fired(u32),
    /// The smallest named location that was written since it was read.
    Stale(Location),
    /// The smallest location whose updates have no result, with the cause.
    Clash(Clash),
    /// As many moves were fired as the capacity.
    Full,
}

/// What the storage answers to a call.
#[derive(Debug, Drop, PartialEq, Eq)]
pub enum Answer {
    /// To a read.
    Read {
        /// How many moves were fired before it.
        number: u32,
        /// The values of the locations, in the order of the call.
        values: Items<Value>,
    },
    /// To a fire.
    Fire(Reply),
}

/// Return a call to fire, which shares its lists.
pub(crate) fn fire_call(
    alloc: Global,
    reads: &Items<Named>,
    instrs: &Instructions,
) -> Result<Call, AllocError>
    ensures { IfOk result (λ c. c ≡ call.Fire reads.now instrs.now) }
{
    Ok(Call::Fire {
        reads: same_list(reads)?,
        instrs: instrs.copy(alloc)?,
    })
}

impl Call {
    /// Return the instructions of the move that the call fired, if it fired one.
    pub(crate) fn fired_move(&self, answer: &Answer) -> Option<&Instructions>
        ensures { option_copied result ≡ fired_move self.now answer.now }
    {
        match (self, answer) {
            (Call::Fire { instrs, .. }, Answer::Fire(Reply::Fired(_))) => Some(instrs),
            _ => None,
        }
    }

    /// Return whether the call is within its limit, and the answer fits the call.
    pub(crate) fn fits(&self, answer: &Answer) -> bool
        ensures { IsTrue result ↔ CallFits self.now answer.now }
    {
        match (self, answer) {
            (Call::Read(places), Answer::Read { values, .. }) => {
                let places = places.as_slice().len();
                places <= READS_LIMIT && values.as_slice().len() == places
            }
            (Call::Fire { reads, .. }, Answer::Fire(_)) => reads.as_slice().len() <= READS_LIMIT,
            _ => false,
        }
    }

    pub(crate) fn copy(&self, alloc: Global) -> Result<Call, AllocError>
        ensures { IfOk result (λ c. c ≡ self.now) }
    {
        match self {
            Call::Read(places) => Ok(Call::Read(same_list(places)?)),
            Call::Fire { reads, instrs } => fire_call(alloc, reads, instrs),
        }
    }
}

impl Reply {
    pub(crate) fn copy(&self, alloc: Global) -> Result<Reply, AllocError>
        ensures { IfOk result (λ r. r ≡ self.now) }
    {
        Ok(match self {
            Reply::Fired(number) => Reply::Fired(*number),
            Reply::Stale(at) => Reply::Stale(at.copy(alloc)?),
            Reply::Clash(clash) => Reply::Clash(Clash {
                at: clash.at.copy(alloc)?,
                cause: clash.cause,
            }),
            Reply::Full => Reply::Full,
        })
    }
}

impl Answer {
    pub(crate) fn copy(&self, alloc: Global) -> Result<Answer, AllocError>
        ensures { IfOk result (λ a. a ≡ self.now) }
    {
        match self {
            Answer::Read { number, values } => Ok(Answer::Read {
                number: *number,
                values: same_list(values)?,
            }),
            Answer::Fire(reply) => Ok(Answer::Fire(reply.copy(alloc)?)),
        }
    }
}
