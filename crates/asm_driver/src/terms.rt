//! The lines for steps that ended because a term had no value: where this was, and why.
ghost use Rattle.std.specs.Prelude.{◌≡◌, ◌++◌, ℕ, List, IfOk, OnOk, string_bytes};
ghost use Rattle.asm_driver.specs.Report.{term_line, AreTermLines, AreAgentsTermLines};

use crate::shown::shown_text;
use asm_element::Items;
use asm_journal::{location_json, value_json};
use asm_play::StepTerm;
use asm_script::{Found, NoValue};
use serde_json::Value as Json;
use std::alloc::{AllocError, Global};

// Return the JSON's text, as `shown_text` shows it.
fn shown_json(alloc: Global, json: &Json) -> Result<String, AllocError> {
    shown_text(alloc, json.to_string(alloc)?.as_str())
}

// Return the value in words: `LOC holds VALUE, which` if a location holds it, else the value alone.
fn found(alloc: Global, found: &Found) -> Result<String, AllocError> {
    let value = shown_json(alloc, &value_json(alloc, &found.value)?)?;
    let Some(at) = &found.at else {
        return Ok(value);
    };
    let at = shown_json(alloc, &location_json(alloc, at)?)?;
    format!(in alloc; "{at} holds {value}, which")
}

// Return why a term has no value.
fn why(alloc: Global, why: &NoValue) -> Result<String, AllocError> {
    match why {
        NoValue::NoNumber(value) => {
            let value = found(alloc, value)?;
            format!(in alloc; "{value} is no number")
        }
        NoValue::NoElement(value) => {
            let value = found(alloc, value)?;
            format!(in alloc; "{value} is no element")
        }
        NoValue::OutOfRange(first, second) => {
            format!(in alloc; "the sum of {first} and {second} is out of range")
        }
    }
}

// Append the line of one step.
fn push_line(
    alloc: Global,
    text: &mut String,
    agent: usize,
    reported: &StepTerm,
) -> Result<(), AllocError>
    ensures { OnOk result ((why : List ℕ) ×
        (string_bytes text.new ≡ string_bytes text.old ++ term_line agent reported.now why)) }
{
    let (step, block, instruction) = (
        reported.step,
        reported.term.block,
        reported.term.instruction,
    );
    let why = why(alloc, &reported.term.why)?;
    let place = format!(in alloc;
        "agent {agent} step {step} block {block} instruction {instruction}: "
    )?;
    text.push_str(place.as_str())?;
    text.push_str(why.as_str())?;
    text.push_str("\n")?;
    Ok(())
}

// Append the lines of the steps of one agent.
fn push_agent(
    alloc: Global,
    text: &mut String,
    agent: usize,
    steps: &[StepTerm],
) -> Result<(), AllocError>
    ensures { OnOk result ((added : List ℕ) × AreTermLines agent steps.now added
        × (string_bytes text.new ≡ string_bytes text.old ++ added)) }
{
    for reported in steps {
        push_line(alloc, text, agent, reported)?;
    }
    Ok(())
}

/// Return a line for each step that ended because a term had no value.
///
/// The line says where in the step this was, and why. Agents, steps, blocks and instructions count from 0.
///
/// # Errors
///
/// - `AllocError` only if memory is refused.
pub(crate) fn terms_text(alloc: Global, terms: &[Items<StepTerm>]) -> Result<String, AllocError>
    ensures { IfOk result (λ text. AreAgentsTermLines 0 terms.now (string_bytes text)) }
{
    let mut text = String::new(alloc);
    for (agent, steps) in terms.iter().enumerate() {
        push_agent(alloc, &mut text, agent, steps.as_slice())?;
    }
    Ok(text)
}
