//! How a step of a played script ended.
ghost use Rattle.std.specs.Prelude.{◌≡◌, ◌++◌, map, IfOk, OnOk};
ghost use Rattle.asm_play.specs.Ends.{outcome_in, term_in, terms_of_end, terms_in};

use crate::outcome::{Outcome, StepTerm};
use asm_element::Location;
use asm_script::FaultyTerm;
use asm_update::Clash;
use std::alloc::{AllocError, Global};

/// How a step ended: its outcome, and where and why a term of it had no value.
#[derive(Debug, Drop)]
pub enum StepEnd {
    /// It fired as the move with this number.
    Fired(u32),
    /// Its updates clash at this location.
    Clash(Clash),
    /// As many moves were fired as the capacity.
    Full,
    /// A term of it has no value on what it read; this is the first.
    Term(FaultyTerm),
    /// A composed amount or sum of increments at this location is too large.
    Large(Location),
    /// Its blocks compose to more than 4,096 instructions.
    Many,
    /// Each of its 1,001 tries was in vain.
    GaveUp,
}

impl StepEnd {
    /// Return the outcome, and the term without a value, if that is why the step ended.
    pub(crate) fn split(self) -> (Outcome, Option<FaultyTerm>)
        ensures outcome { result.0 ≡ outcome_in self }
        ensures term { result.1 ≡ term_in self }
    {
        match self {
            StepEnd::Fired(number) => (Outcome::Fired(number), None),
            StepEnd::Clash(clash) => (Outcome::Clash(clash), None),
            StepEnd::Full => (Outcome::Full, None),
            StepEnd::Term(term) => (Outcome::Term, Some(term)),
            StepEnd::Large(at) => (Outcome::Large(at), None),
            StepEnd::Many => (Outcome::Many, None),
            StepEnd::GaveUp => (Outcome::GaveUp, None),
        }
    }
}

// Appends the step with this number, if such a term ended it.
fn push_term(
    terms: &mut Vec<StepTerm>,
    step: usize,
    term: Option<FaultyTerm>,
) -> Result<(), AllocError>
    ensures { OnOk result (terms.new.items ≡ terms.old.items ++ terms_of_end step term) }
{
    if let Some(term) = term {
        terms.push(StepTerm { step, term })?;
    }
    Ok(())
}

/// The outcomes of an agent's steps, and the terms without a value that ended some.
#[derive(Drop)]
pub(crate) struct AgentEnds {
    pub(crate) outcomes: Vec<Outcome>,
    pub(crate) terms: Vec<StepTerm>,
}

/// Collect the ends of an agent's steps.
pub(crate) fn agent_ends(alloc: Global, ends: Vec<StepEnd>) -> Result<AgentEnds, AllocError>
    ensures outcomes { IfOk result (λ reported. reported.outcomes.items ≡ map outcome_in ends.items) }
    ensures terms { IfOk result (λ reported. reported.terms.items ≡ terms_in ends.items) }
{
    let mut outcomes = Vec::new(alloc);
    let mut terms = Vec::new(alloc);
    for end in ends {
        let (outcome, term) = end.split();
        push_term(&mut terms, outcomes.len(), term)?;
        outcomes.push(outcome)?;
    }
    Ok(AgentEnds { outcomes, terms })
}
