//! States: locations with their values.
ghost use Rattle.asm_journal.specs.readback.{pair_form_clean, state_form_clean};

use crate::form::{Listed, StatePair, state_from};
use crate::front::FromFront;
use crate::front::scalars::behind;
use asm_element::{Location, Value};
use asm_update::PlainState;
use std::alloc::Global;

impl FromFront for StatePair {
    ghost nests = { 20 };

    ghost clean = { λ p. pair_form_clean (p.0, p.1) };

    fn from_front(alloc: Global, text: &[u8]) -> Option<(StatePair, &[u8])> {
        let inside = behind(text, b"[")?;
        let (at, left) = Location::from_front(alloc, inside)?;
        let second = behind(left, b",")?;
        let (value, end) = Value::from_front(alloc, second)?;
        let rest = behind(end, b"]")?;
        Some((StatePair(at, value), rest))
    }
}

impl FromFront for PlainState {
    ghost nests = { 21 };

    ghost clean = { state_form_clean };

    fn from_front(alloc: Global, text: &[u8]) -> Option<(PlainState, &[u8])> {
        let (pairs, rest) = Listed::<StatePair>::from_front(alloc, text)?;
        let Ok(Some(state)) = state_from(alloc, pairs.into_vec()) else {
            return None;
        };
        Some((state, rest))
    }
}
