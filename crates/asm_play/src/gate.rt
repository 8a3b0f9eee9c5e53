//! What is called before and after each call of an agent.
use std::sync::Wait;

/// A gate that is called before and after each read and fire of an agent.
///
/// Both methods may wait, so a gate may hold agents back and release them, in any order. Calls are counted for each
/// agent from 0, including those that end with an error; the counter saturates.
pub trait Gate: Sync {
    /// Be called just before the agent's call with this count.
    fn before<R: Wait>(&self, rt: &R, agent: u32, call: u64);

    /// Be called just after it, whatever it answered.
    fn after<R: Wait>(&self, rt: &R, agent: u32, call: u64);
}

/// The gate that does nothing.
#[derive(Clone, Copy, Debug)]
pub struct Open;

impl Gate for Open {
    fn before<R: Wait>(&self, _rt: &R, _agent: u32, _call: u64) {}

    fn after<R: Wait>(&self, _rt: &R, _agent: u32, _call: u64) {}
}

// Separate from `Gate`, since the check can't pass on a bound that asks for `Sync` from a trait's method.
/// What is called before and after each call of a player's agent.
///
/// It is called before each attempt of its fires, too. Calls are counted as for a gate.
pub trait Passage {
    /// Be called just before the agent's call with this count.
    fn enter<R: Wait>(&self, rt: &R, agent: u32, call: u64);

    /// Be called just before each attempt of a fire, when the agent has polled the row.
    ///
    /// If another agent fires here, the attempt is lost.
    fn before_attempt(&self);

    /// Be called just after the call, whatever it answered.
    fn leave<R: Wait>(&self, rt: &R, agent: u32, call: u64);
}

// The passage through a gate, which isn't called before an attempt.
pub(crate) struct GatePassage<'g, G>(pub(crate) &'g G);

impl<'g, G: Gate> Passage for GatePassage<'g, G> {
    fn enter<R: Wait>(&self, rt: &R, agent: u32, call: u64) {
        self.0.before(rt, agent, call);
    }

    fn before_attempt(&self) {}

    fn leave<R: Wait>(&self, rt: &R, agent: u32, call: u64) {
        self.0.after(rt, agent, call);
    }
}
