ghost use Rattle.std.specs.Prelude.{◌≡◌};
ghost use Rattle.asm_update.specs.declared.clash.AggError.TheVariants as agg_error;

use asm_element::Location;
use std::alloc::{AllocError, AllocFailed};
use std::fmt;
use thiserror::Error;

/// Why the updates of a location have no result: the first of these that holds.
///
/// The base is the regular value if there is one, else the old value. Source: this project's profile; `Two` is
/// inconsistency as in Börger and Stärk.
#[derive(Clone, Copy, Debug, PartialEq, Eq)]
pub enum Cause {
    /// Two different regular values.
    Two,
    /// Partial updates of two families, or of one that the aggregator doesn't own.
    Mixed,
    /// Partial updates whose base is no value of their kind.
    ///
    /// The kinds are a set, a bag or, for increments, a number.
    Kind,
    /// One element both added to a set and removed from it.
    Both,
    /// A regular value that disagrees with partial updates beside it.
    ///
    /// It is a set that lacks an added element or has a removed one, or any bag, or any number.
    Against,
    /// More of an element removed than the old bag has of it.
    Short,
    /// A new count or number that is too large.
    ///
    /// The count of a bag is above 4,294,967,295, or the number of a counter is outside the range of i64.
    Large,
}

/// The cause in words, as `two different regular values`.
impl fmt::Display for Cause {
    fn fmt<W: fmt::Write>(&self, f: &mut fmt::Formatter<W>) -> fmt::Result {
        f.write_str(match self {
            Cause::Two => "two different regular values",
            Cause::Mixed => "partial updates of two families, or of one that has no aggregator",
            Cause::Kind => "partial updates of a value that isn't of their kind",
            Cause::Both => "an element both added and removed",
            Cause::Against => "a regular value against partial updates",
            Cause::Short => "more of an element removed than there is",
            Cause::Large => "a count or a number too large",
        })
    }
}

/// A location whose updates have no result, with the cause.
///
/// Source: an inconsistent update set, in Börger and Stärk; the causes are of this project's profile.
#[derive(Debug, Drop, PartialEq, Eq)]
pub struct Clash {
    /// The location.
    pub at: Location,
    /// Why its updates have no result.
    pub cause: Cause,
}

/// The location and the cause, as `counter: two different regular values`.
impl fmt::Display for Clash {
    fn fmt<W: fmt::Write>(&self, f: &mut fmt::Formatter<W>) -> fmt::Result {
        write!(f, "{}: {}", self.at, self.cause)
    }
}

/// Why instructions don't become a state or an update set.
#[derive(Debug, Drop, PartialEq, Eq, Error)]
pub enum AggError {
    /// The instructions clash at this location, the smallest that has no result.
    ///
    /// It comes with the location's first cause.
    #[error("the updates clash at {0}")]
    Clash(Clash),
    /// The memory that the call asked for was refused.
    #[error("out of memory")]
    Memory,
}

impl From<AllocError> for AggError {
    ghost from_gives = { λ _ e. e ≡ agg_error.Memory };

    fn from(_error: AllocError) -> AggError {
        AggError::Memory
    }
}

impl<T: Drop> From<AllocFailed<T>> for AggError {
    ghost from_gives = { λ _ e. e ≡ agg_error.Memory };

    fn from(_error: AllocFailed<T>) -> AggError {
        AggError::Memory
    }
}
