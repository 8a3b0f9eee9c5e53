//! The report of a played script.
ghost use Rattle.std.specs.Prelude.{◌≡◌, ◌++◌, false, IfOk, OnOk, string_bytes};
ghost use Rattle.serde_json.specs.View.{view};
ghost use Rattle.serde_json.specs.Written.{has_float, compact_text};
ghost use Rattle.asm_journal.specs.Element.{location_json_of};
ghost use Rattle.asm_aggregate.specs.Standard.{standard_part};
ghost use Rattle.asm_driver.specs.Report.{state_lines, outcome_line};
ghost use Rattle.asm_driver.specs.Report.{agent_lines, moves_line, outcome_lines, reason, report_of};

use asm_element::{Items, Location};
use asm_journal::{location_json, pair_json, replay, replay_over, word_of_cause};
use asm_play::aggregator::script_aggregator;
use asm_play::{Outcome, Played};
use asm_storage::History;
use asm_update::PlainState;
use serde_json::Value as Json;
use std::alloc::{AllocError, Global};

/// Append the compact text of the JSON.
fn push_json(alloc: Global, text: &mut String, json: &Json) -> Result<(), AllocError>
    requires { has_float (view json.now) ≡ false }
    ensures { OnOk result (string_bytes text.new ≡ string_bytes text.old ++ compact_text (view json.now)) }
{
    let compact = json.to_string(alloc)?;
    text.push_str(compact.as_str())?;
    Ok(())
}

fn push_location(alloc: Global, text: &mut String, location: &Location) -> Result<(), AllocError>
    ensures { OnOk result
        (string_bytes text.new ≡ string_bytes text.old ++ compact_text (location_json_of location.now)) }
{
    push_json(alloc, text, &location_json(alloc, location)?)
}

/// Append one line for each location of the state.
fn push_state(alloc: Global, text: &mut String, state: &PlainState) -> Result<(), AllocError>
    ensures { OnOk result (string_bytes text.new ≡ string_bytes text.old ++ state_lines state.now) }
{
    for (location, value) in state.iter() {
        push_json(alloc, text, &pair_json(alloc, location, value)?)?;
        text.push_str("\n")?;
    }
    Ok(())
}

/// Append the line of a step, or nothing if it fired.
fn push_outcome(
    alloc: Global,
    text: &mut String,
    agent: usize,
    step: usize,
    outcome: &Outcome,
) -> Result<(), AllocError>
    ensures { OnOk result
        (string_bytes text.new ≡ string_bytes text.old ++ outcome_line agent step outcome.now) }
{
    if let Outcome::Fired(_) = outcome {
        return Ok(());
    }
    text.push_str(format!(in alloc; "agent {agent} step {step}")?.as_str())?;
    push_reason(alloc, text, outcome)?;
    text.push_str("\n")?;
    Ok(())
}

/// Append why the step didn't fire.
fn push_reason(alloc: Global, text: &mut String, outcome: &Outcome) -> Result<(), AllocError>
    ensures { OnOk result (string_bytes text.new ≡ string_bytes text.old ++ reason outcome.now) }
{
    match outcome {
        Outcome::Fired(_) => {}
        Outcome::Clash(clash) => {
            text.push_str(" clash ")?;
            push_location(alloc, text, &clash.at)?;
            text.push_str(" ")?;
            text.push_str(word_of_cause(clash.cause))?;
        }
        Outcome::Full => text.push_str(" full")?,
        Outcome::Term => text.push_str(" term")?,
        Outcome::Large(at) => {
            text.push_str(" large ")?;
            push_location(alloc, text, at)?;
        }
        Outcome::Many => text.push_str(" many")?,
        Outcome::GaveUp => text.push_str(" gave up")?,
    }
    Ok(())
}

fn push_agent(
    alloc: Global,
    text: &mut String,
    agent: usize,
    outcomes: &[Outcome],
) -> Result<(), AllocError>
    ensures { OnOk result
        (string_bytes text.new ≡ string_bytes text.old ++ agent_lines (agent, outcomes.now)) }
{
    for (step, outcome) in outcomes.iter().enumerate() {
        push_outcome(alloc, text, agent, step, outcome)?;
    }
    Ok(())
}

fn push_outcomes(
    alloc: Global,
    text: &mut String,
    agents: &[Items<Outcome>],
) -> Result<(), AllocError>
    ensures { OnOk result
        (string_bytes text.new ≡ string_bytes text.old ++ outcome_lines agents.now) }
{
    for (agent, outcomes) in agents.iter().enumerate() {
        push_agent(alloc, text, agent, outcomes.as_slice())?;
    }
    Ok(())
}

/// Return the report of a played script.
///
/// It has, in this order:
/// - a line for each location of the final state, in ascending order,
/// - a line with the number of fired moves,
/// - a line for each step that didn't fire, agent by agent and step by step.
///
/// The final state is that of the history's opening state and moves. The call costs one replay of the history and one
/// pass over the text.
///
/// # Errors
///
/// - `AllocError` only if memory is refused.
pub fn report(alloc: Global, played: &Played) -> Result<String, AllocError>
    ensures { IfOk result (λ text. string_bytes text ≡ report_of standard_part played.now) }
{
    let state = replay(alloc, &script_aggregator(), &played.history)?;
    let moves = played.history.moves();
    lines_of(alloc, &state, moves, played.outcomes.as_slice())
}

/// Return the report of an owned play, without copying its opening state.
pub(crate) fn report_of_owned(alloc: Global, played: Played) -> Result<String, AllocError>
    ensures { IfOk result (λ text. string_bytes text ≡ report_of standard_part played) }
{
    let moves = played.history.moves();
    let Played { history, outcomes } = played;
    let History { init, events, .. } = history;
    let state = replay_over(alloc, &script_aggregator(), init, events.as_slice())?;
    lines_of(alloc, &state, moves, outcomes.as_slice())
}

// Return the lines of a report with this final state.
fn lines_of(
    alloc: Global,
    state: &PlainState,
    moves: u32,
    outcomes: &[Items<Outcome>],
) -> Result<String, AllocError>
    ensures { IfOk result (λ text. string_bytes text ≡
        state_lines state.now ++ moves_line moves ++ outcome_lines outcomes.now) }
{
    let mut text = String::new(alloc);
    push_state(alloc, &mut text, state)?;
    text.push_str(format!(in alloc; "moves {moves}\n")?.as_str())?;
    push_outcomes(alloc, &mut text, outcomes)?;
    Ok(text)
}
