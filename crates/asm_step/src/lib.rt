//! A step of an engine: moves that are pushed one after the other over what is looked up, each seen by the
//! next, and the one move that does what all of them do in turn.
//!
//! Nothing is fired before the step's one move is, so a push is also a dry run, and a pop takes it back
//! (CoreASM's pushed and popped states).
#![tactic(auto)]

mod alone;
mod amounts;
mod clearing;
mod error;
mod firsts;
mod front;
mod held;
mod in_place;
mod joining;
mod layer;
mod listing;
mod next;
mod outcomes;
mod over;
mod own;
mod popped;
mod proper;
mod puts;
mod scan;
mod sides;
mod step;

pub use error::StepError;
pub use in_place::{InPlace, Known};
pub use over::OverStep;
pub use popped::Popped;
pub use step::Step;
