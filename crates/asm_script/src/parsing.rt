//! How a script is read from its text.
ghost use Rattle.std.specs.Prelude.{◌≡◌, IfOk, IfErr, List, map};
ghost use Rattle.std.specs.Arc.{arc_value};
ghost use Rattle.serde_json.specs.View.{view};
ghost use Rattle.asm_journal.specs.Reading.{IsJson};
ghost use Rattle.asm_script.specs.Script.{Fault, IsChecked, each, block_faults, step_faults, agent_faults, faults};
ghost use Rattle.asm_script.specs.Script.{IsNotJson, IsScriptForm, plan_of, IsReadScript, IsScriptOf, IsRefusedScript, limit_of};

use crate::block::{Block, TermInstruction};
use crate::script::{BLOCKS_LIMIT, Script, ScriptCause, ScriptError};
use crate::step::Step;
use asm_element::Items;
use asm_journal::{FormCause, FormError, FromJson, Listed, OfPart, read_form, two_members};
use asm_storage::{AGENTS_LIMIT, READS_LIMIT};
use asm_update::PlainState;
use serde_json::Value as Json;
use std::alloc::{AllocError, Global};
use std::sync::Arc;

/// A script in its written form, before its limits are checked.
#[derive(Drop)]
struct UncheckedScript {
    init: PlainState,
    agents: Listed<Listed<Listed<Listed<TermInstruction>>>>,
}

impl FromJson for UncheckedScript {
    ghost is_form = { IsScriptForm };

    fn from_json(alloc: Global, json: &Json) -> Result<UncheckedScript, FormError> {
        let Some((agents, init)) = two_members(json, "agents", "init") else {
            return Err(FormError::of(alloc, FormCause::Script));
        };
        let agents = FromJson::from_json(alloc, agents).at("agents")?;
        let init = PlainState::from_json(alloc, init).at("init")?;
        Ok(UncheckedScript { init, agents })
    }
}

/// Return the bytes as JSON.
fn json_of(alloc: Global, bytes: &[u8]) -> Result<Json, ScriptError>
    ensures ok { IfOk result (λ v. IsJson bytes.now (view v)) }
    ensures err { IfErr result (IsNotJson bytes.now) }
{
    match Json::from_slice(alloc, bytes) {
        Ok(json) => Ok(json),
        Err(error) if error.is_memory() => Err(ScriptError::Memory),
        Err(_) => Err(ScriptError::BadScript(ScriptCause::NotJson)),
    }
}

/// A part of a script, which is made of its written form.
trait Checked<W>: Drop {
    // the written form of the part
    ghost written: { Self → W };
    // where the form is beyond the limits, and why
    ghost faults: { W → List Fault };

    /// Return the part with this form, where it is within the limits.
    fn checked(alloc: Global, form: W) -> Result<Self, FormError>
    where
        Self: Sized,
        ensures { IsChecked (λ part. written part ≡ form) (faults form) result };
}

/// Return the parts with these forms, where all are within the limits.
fn each_checked<W: Drop, T: Checked<W>>(alloc: Global, forms: Vec<W>) -> Result<Vec<T>, FormError>
    ensures { IsChecked (λ done. map T.written done.items ≡ forms.items)
        (each T.faults forms.items) result }
{
    let mut done = Vec::new(alloc);
    for form in forms {
        let part = T::checked(alloc, form).within(done.len())?;
        done.push(part)?;
    }
    Ok(done)
}

impl Checked<Listed<TermInstruction>> for Block {
    ghost written = { λ b. b };

    ghost faults = { block_faults };

    #[tactic(auto, using(crate::proofs::Faults::first_of))]
    fn checked(alloc: Global, form: Listed<TermInstruction>) -> Result<Block, FormError> {
        let instructions = form.into_vec();
        let count = instructions.len();
        match Block::new(instructions) {
            Some(block) => Ok(block.prepared(alloc)?),
            None => Err(FormError::of(alloc, FormCause::Many(count))),
        }
    }
}

impl Checked<Listed<Listed<TermInstruction>>> for Step {
    ghost written = { λ s. s };

    ghost faults = { step_faults };

    #[tactic(auto, using(crate::proofs::Faults::first_of, crate::proofs::Faults::count_of_reads))]
    fn checked(alloc: Global, form: Listed<Listed<TermInstruction>>) -> Result<Step, FormError> {
        let blocks = form.into_vec();
        let count = blocks.len();
        if count == 0 || count > BLOCKS_LIMIT {
            return Err(FormError::of(alloc, FormCause::BlockCount(count)));
        }
        let blocks = each_checked(alloc, blocks)?;
        let Some(step) = Step::new(alloc, blocks)? else {
            unreachable!()
        };
        if step.reads().len() > READS_LIMIT {
            return Err(FormError::of(alloc, FormCause::ManyReads));
        }
        Ok(step)
    }
}

impl Checked<Listed<Listed<Listed<TermInstruction>>>> for Items<Step> {
    ghost written = { λ ss. ss };

    ghost faults = { agent_faults };

    fn checked(
        alloc: Global,
        form: Listed<Listed<Listed<TermInstruction>>>,
    ) -> Result<Items<Step>, FormError> {
        Ok(Items::new(each_checked(alloc, form.into_vec())?))
    }
}

/// Return the opening state, for storages to share.
fn shared(alloc: Global, init: PlainState) -> Result<Arc<PlainState>, AllocError>
    ensures { IfOk result (λ s. arc_value s ≡ init) }
{
    match Arc::new(alloc, init) {
        Ok(shared) => Ok(shared),
        Err(_) => Err(AllocError),
    }
}

/// Return the script that is written, where its agents are within the limits.
#[tactic(auto, using(crate::proofs::Faults::first_of))]
fn script_of(alloc: Global, written: UncheckedScript) -> Result<Script, FormError>
    ensures { IsChecked (λ p. p ≡ plan_of written) (faults written.agents) result }
{
    let UncheckedScript { init, agents } = written;
    let agents = agents.into_vec();
    let count = agents.len();
    if count > AGENTS_LIMIT as usize {
        return Err(FormError::of(alloc, FormCause::ManyAgents(count)));
    }
    let agents = each_checked(alloc, agents)?;
    let init = shared(alloc, init)?;
    match Script::of(init, Items::new(agents)) {
        Some(script) => Ok(script),
        None => unreachable!(),
    }
}

/// Read a script from its JSON.
///
/// # Errors
///
/// - `Form` exactly if `parse_script` refuses a text of this JSON: where it is no script, and why.
/// - `Memory` only if memory is refused.
pub fn read_script(alloc: Global, json: &Json) -> Result<Script, FormError>
    ensures { IsReadScript (view json.now) result }
{
    let written = UncheckedScript::from_json(alloc, json)?;
    script_of(alloc, written).at("agents")
}

/// Return the cause of a script that is beyond this limit.
fn limit_of(cause: FormCause) -> ScriptCause
    ensures { result ≡ limit_of cause }
{
    match cause {
        FormCause::ManyAgents(_) => ScriptCause::Agents,
        FormCause::BlockCount(_) => ScriptCause::Blocks,
        FormCause::Many(_) => ScriptCause::Instructions,
        FormCause::ManyReads => ScriptCause::Reads,
        _ => ScriptCause::Shape,
    }
}

/// Read a script from its JSON text.
///
/// `BadScript` names the first of the causes, in the order in which `ScriptCause` lists them; the last three are
/// looked for agent by agent and step by step.
///
/// # Errors
///
/// - `Memory` only if memory is refused.
pub fn parse_script(alloc: Global, bytes: &[u8]) -> Result<Script, ScriptError>
    ensures ok { IfOk result (IsScriptOf bytes.now) }
    ensures err { IfErr result (IsRefusedScript bytes.now) }
{
    let json = json_of(alloc, bytes)?;
    let Some(written) = read_form(alloc, &json)? else {
        return Err(ScriptError::BadScript(ScriptCause::Shape));
    };
    match script_of(alloc, written) {
        Ok(script) => Ok(script),
        Err(FormError::Form(fault)) => Err(ScriptError::BadScript(limit_of(fault.cause()))),
        Err(FormError::Memory) => Err(ScriptError::Memory),
    }
}
