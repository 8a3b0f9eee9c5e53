//! Which partial updates a step can apply in place.
ghost use Rattle.asm_aggregate.specs.BagMeaning.{bag_joins};
ghost use Rattle.asm_aggregate.specs.SetMeaning.{set_joins};
ghost use Rattle.asm_update.specs.declared.action.Family.TheVariants as family;
ghost use Rattle.asm_step.specs.Front.{IsKnown};

use asm_aggregate::{BagAgg, CountAgg, Pair, SetAgg};
use asm_update::Aggregator;

/// What is known of how an aggregator joins partial updates of a family.
#[derive(Clone, Copy, Debug, PartialEq, Eq)]
pub enum Known {
    /// It owns the family, and joins as this project's aggregator of that family.
    Own,
    /// It doesn't own the family.
    Other,
    /// Nothing is known.
    Unknown,
}

/// An aggregator by which a step is extended.
///
/// Where it says `Own`, a step joins partial updates without asking it, in place, at the cost of what joins them.
/// An aggregator of your own needs no more than `impl InPlace for Mine {}`.
pub trait InPlace: Aggregator {
    /// Return what is known of partial updates of sets, with any aggregator.
    fn sets() -> Known
        ensures { (a : Self) → IsKnown (Self.meaning a) family.Set set_joins result }
    {
        Known::Unknown
    }

    /// Return what is known of partial updates of bags.
    fn bags() -> Known
        ensures { (a : Self) → IsKnown (Self.meaning a) family.Bag bag_joins result }
    {
        Known::Unknown
    }
}

impl InPlace for SetAgg {
    fn sets() -> Known {
        Known::Own
    }

    fn bags() -> Known {
        Known::Other
    }
}

impl InPlace for BagAgg {
    fn sets() -> Known {
        Known::Other
    }

    fn bags() -> Known {
        Known::Own
    }
}

impl InPlace for CountAgg {
    fn sets() -> Known {
        Known::Other
    }

    fn bags() -> Known {
        Known::Other
    }
}

impl<A: InPlace, B: InPlace> InPlace for Pair<A, B> {
    fn sets() -> Known {
        match A::sets() {
            Known::Own => Known::Own,
            Known::Other => B::sets(),
            Known::Unknown => Known::Unknown,
        }
    }

    fn bags() -> Known {
        match A::bags() {
            Known::Own => Known::Own,
            Known::Other => B::bags(),
            Known::Unknown => Known::Unknown,
        }
    }
}
