//! Scripts, which say what the agents of a machine do, and why a text is not a script.
ghost use Rattle.std.specs.Prelude.{◌≡◌, ◌↔◌, ◌<◌, ◌≤◌, length, IfOk, IfSome, IsNone};
ghost use Rattle.std.specs.Arc.{arc_value};
ghost use Rattle.asm_storage.specs.Limits.{agents_limit};
ghost use Rattle.asm_script.specs.declared.script.ScriptError.TheVariants as script_error;

use crate::step::Step;
use asm_element::Items;
use asm_overlay::FRAMES_LIMIT;
use asm_storage::AGENTS_LIMIT;
use asm_update::PlainState;
use std::alloc::{AllocError, AllocFailed};
use std::marker::Model;
use std::sync::Arc;
use thiserror::Error;

/// The most blocks of a step: all but the last are pushed.
pub const BLOCKS_LIMIT: usize = FRAMES_LIMIT + 1;

/// Why a text is not a script: the first of these causes, in this order.
///
/// The last three are looked for agent by agent and step by step.
#[derive(Clone, Copy, Debug, PartialEq, Eq)]
pub enum ScriptCause {
    /// The text is not JSON.
    NotJson,
    /// The value has another shape than a script.
    Shape,
    /// More than 256 agents.
    Agents,
    /// A step without a block, or with more than 65.
    Blocks,
    /// A block of more than 4,096 instructions.
    Instructions,
    /// A step that reads more than 256 locations.
    Reads,
}

/// Why there is no script.
#[derive(Clone, Copy, Debug, PartialEq, Eq, Error)]
pub enum ScriptError {
    /// The text is not a script.
    #[error("bad script: {0:?}")]
    BadScript(ScriptCause),
    /// The memory that the call asked for was refused.
    #[error("out of memory")]
    Memory,
}

impl From<AllocError> for ScriptError {
    ghost from_gives = { λ _ e. e ≡ script_error.Memory };

    fn from(_refused: AllocError) -> ScriptError {
        ScriptError::Memory
    }
}

impl<T: Drop> From<AllocFailed<T>> for ScriptError {
    ghost from_gives = { λ _ e. e ≡ script_error.Memory };

    fn from(_refused: AllocFailed<T>) -> ScriptError {
        ScriptError::Memory
    }
}

/// An opening state, and the steps of at most 256 agents.
///
/// Contracts see both.
#[derive(Debug, Drop)]
pub struct Script {
    // Storages that it opens share it.
    init: Arc<PlainState>,
    agents: Items<Items<Step>>,
}

impl Model for Script {
    ghost use Rattle.std.specs.Arc.{arc_value};
    ghost use Rattle.std.specs.Prelude.{length, ◌≤◌};
    ghost use Rattle.asm_update.specs.contracts.plain_state.PlainState.{the_row as state_row};
    ghost use Rattle.asm_script.specs.contracts.block.TermInstruction.{the_row as instruction_row};
    ghost use Rattle.asm_script.specs.Plan.{Plan, plan_code};
    ghost use Rattle.asm_storage.specs.Limits.{agents_limit};

    ghost Value = { Plan };

    ghost coded = { plan_code state_row.coded instruction_row.coded };

    ghost view = { λ s. record { init = arc_value s.init; agents = s.agents } };

    ghost invariant = { λ s. length s.agents ≤ agents_limit };
}

impl Script {
    /// Return the script with this opening state and these agents' steps.
    ///
    /// `None` means that there are more than 256 agents.
    pub(crate) fn of(init: Arc<PlainState>, agents: Items<Items<Step>>) -> Option<Script>
        ensures script { IfSome result (λ s. s ≡ record { init = arc_value init; agents = agents }) }
        ensures many { IsNone result ↔ (agents_limit < length agents) }
    {
        if agents.as_slice().len() > AGENTS_LIMIT as usize {
            return None;
        }
        Some(Script { init, agents })
    }

    /// Return the opening state.
    pub fn init(&self) -> &PlainState
        ensures { result.now ≡ self.now.init }
    {
        &self.init
    }

    /// Return a share of the opening state, for a storage that opens with it.
    ///
    /// It takes no memory.
    ///
    /// # Errors
    ///
    /// - `AllocError` only if more would share it than can be counted.
    pub fn share_init(&self) -> Result<Arc<PlainState>, AllocError>
        ensures { IfOk result (λ init. arc_value init ≡ self.now.init) }
    {
        Arc::try_clone(&self.init)
    }

    /// Return the steps of each agent, at the agent's number.
    pub fn agents(&self) -> &[Items<Step>]
        ensures agents { result.now ≡ self.now.agents }
        ensures few { length self.now.agents ≤ agents_limit }
    {
        self.agents.as_slice()
    }
}
