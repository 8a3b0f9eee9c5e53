//! A stack of frames over a state: updates that are read before they are fired.
//!
//! In a sequence of rules the updates of one rule are pushed as a frame, the next rule is evaluated
//! on what is then seen, and the frame is popped (CoreASM's pushed and popped states).
#![tactic(auto)]

mod over;
mod overlay;

pub use over::Over;
pub use overlay::{FRAMES_LIMIT, Overlay, OverlayError, Seen};
