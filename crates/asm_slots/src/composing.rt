//! Moves without an agent: the updates of a move on a state, and the composition of two moves.
ghost use Rattle.std.specs.Prelude.{◌≡◌, ◌⊎◌, codes, string_bytes, IfErr, IfOk, MatchResult};
ghost use Rattle.serde_json.specs.View.{view};
ghost use Rattle.asm_journal.specs.Element.{location_json_of};
ghost use Rattle.asm_journal.specs.Event.{IsMoveForm};
ghost use Rattle.asm_journal.specs.Shape.{one_of};
ghost use Rattle.asm_journal.specs.Value.{IsStateForm};
ghost use Rattle.asm_slots.specs.Bytes.{AreMisread};
ghost use Rattle.asm_slots.specs.Composing.{Aggregates, Composes, DoesNotAggregate, DoesNotCompose, HasAggregate, HasComposition};
ghost use Rattle.asm_slots.specs.Composing.{ReportsUncomposed};
ghost use Rattle.asm_slots.specs.Composing.{clash_text, large_text};
ghost use Rattle.asm_slots.specs.Answers.{IsMemory};

use crate::codes::{Code, write};
use crate::parsing::read_both;
use asm_aggregate::{ComposeError, standard};
use asm_element::Location;
use asm_journal::{answer_text, location_json, move_text, updates_text};
use asm_storage::{Answer, Reply};
use asm_update::{AggError, Clash, Instructions, PlainState, UpdateSet};
use serde_json::{Map, Value as Json};
use std::alloc::{AllocError, Global};

/// Return `{"clash":[LOC,CAUSE]}`.
pub(crate) fn clash_text(alloc: Global, clash: Clash) -> Result<String, AllocError>
    ensures { IfOk result (λ s. string_bytes s ≡ clash_text clash) }
{
    answer_text(alloc, &Answer::Fire(Reply::Clash(clash)))
}

fn large_json(alloc: Global, at: &Location) -> Result<Json, AllocError>
    ensures { IfOk result (λ json. view json ≡ one_of (codes "large") (location_json_of at.now)) }
{
    let mut members = Map::new(alloc);
    serde_json::put(&mut members, alloc, "large", location_json(alloc, at)?)?;
    Ok(Json::Object(members))
}

/// Return `{"large":LOC}`.
pub(crate) fn large_text(alloc: Global, at: &Location) -> Result<String, AllocError>
    ensures { IfOk result (λ s. string_bytes s ≡ large_text at.now) }
{
    large_json(alloc, at)?.to_string(alloc)
}

// Return the answer of the aggregation of the move of the one text on the state of the other.
#[tactic(auto, unfolding(asm_aggregate::specs::Standard::standard_meaning))]
fn aggregation(
    alloc: Global,
    state: &[u8],
    instrs: &[u8],
) -> Result<Result<UpdateSet, AggError>, Code>
    ensures ok { IfOk result (HasAggregate state.now instrs.now) }
    ensures err { IfErr result (AreMisread IsStateForm IsMoveForm state.now instrs.now) }
{
    let (old, step) = read_both::<PlainState, Instructions>(alloc, state, instrs)?;
    Ok(asm_aggregate::aggregate(alloc, &standard(), &old, &step))
}

/// Do what `asm_aggregate` does.
pub fn aggregate(
    alloc: Global,
    state: &[u8],
    instrs: &[u8],
    out: &mut [u8],
    written: &mut usize,
) -> Result<(), Code>
    ensures { MatchResult result (λ done. Aggregates state.now instrs.now out.old out.new written.new)
        (DoesNotAggregate state.now instrs.now out.old out.new written.new) }
{
    *written = 0;
    match aggregation(alloc, state, instrs)? {
        Ok(updates) => {
            let text = updates_text(alloc, &updates)?;
            write(text.as_bytes(), out, written)
        }
        Err(AggError::Clash(clash)) => {
            let text = clash_text(alloc, clash)?;
            write(text.as_bytes(), out, written)?;
            Err(Code::Clash)
        }
        Err(AggError::Memory) => Err(Code::Memory),
    }
}

/// Why moves aren't put together: the code, and its text.
#[derive(Drop)]
pub(crate) struct Refusal {
    pub(crate) code: Code,
    pub(crate) text: String,
}

fn refusal_of(alloc: Global, error: ComposeError) -> Result<Refusal, Code>
    ensures reported { IfOk result (λ r. ReportsUncomposed error r.code (string_bytes r.text)) }
    ensures err { IfErr result (λ c. IsMemory c ⊎ ((c ≡ Code.LongMove) × (error ≡ ComposeError.ManyInstructions))) }
{
    match error {
        ComposeError::Clash(clash) => Ok(Refusal {
            code: Code::Clash,
            text: clash_text(alloc, clash)?,
        }),
        ComposeError::Large(at) => Ok(Refusal {
            code: Code::Large,
            text: large_text(alloc, &at)?,
        }),
        ComposeError::ManyInstructions => Err(Code::LongMove),
        ComposeError::Memory => Err(Code::Memory),
    }
}

// Return the answer of the composition of the moves of two texts.
#[tactic(auto, unfolding(asm_aggregate::specs::Standard::standard_meaning))]
fn composition(
    alloc: Global,
    first: &[u8],
    second: &[u8],
) -> Result<Result<Instructions, ComposeError>, Code>
    ensures ok { IfOk result (HasComposition first.now second.now) }
    ensures err { IfErr result (AreMisread IsMoveForm IsMoveForm first.now second.now) }
{
    let (one, two) = read_both::<Instructions, Instructions>(alloc, first, second)?;
    Ok(asm_aggregate::compose(alloc, &standard(), &one, &two))
}

/// Do what `asm_compose` does.
pub fn compose(
    alloc: Global,
    first: &[u8],
    second: &[u8],
    out: &mut [u8],
    written: &mut usize,
) -> Result<(), Code>
    ensures { MatchResult result (λ done. Composes first.now second.now out.old out.new written.new)
        (DoesNotCompose first.now second.now out.old out.new written.new) }
{
    *written = 0;
    match composition(alloc, first, second)? {
        Ok(instrs) => {
            let text = move_text(alloc, &instrs)?;
            write(text.as_bytes(), out, written)
        }
        Err(error) => {
            let refusal = refusal_of(alloc, error)?;
            write(refusal.text.as_bytes(), out, written)?;
            Err(refusal.code)
        }
    }
}
