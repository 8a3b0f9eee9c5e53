//! A step's one move, extended by a move without the values that it leaves.
ghost use Rattle.std.specs.Prelude.{◌≡◌, Err, IfErr, IfOk, OnOk};
ghost use Rattle.asm_step.specs.Layers.{one_move};
ghost use Rattle.asm_step.specs.Next.{AreWhere};
ghost use Rattle.asm_step.specs.Popped.{ExtendsMove, HasExtendedMove, as_compose_error};

use crate::error::StepError;
use crate::step::Step;
use asm_aggregate::ComposeError;
use asm_element::{Element, Value};
use asm_update::{Aggregator, Instructions, UpdateSet};
use std::alloc::{AllocError, Global};

// Return undef at each location that the instructions write.
fn undef_where(alloc: Global, instructions: &Instructions) -> Result<UpdateSet, AllocError>
    ensures { IfOk result (AreWhere instructions.now) }
{
    let mut values = UpdateSet::new(alloc);
    for instruction in instructions.as_slice() {
        values.put(instruction.at.copy(alloc)?, Value::Plain(Element::Undef))?;
    }
    Ok(values)
}

// Return why there is no one move as the error of a composition. It is never that a step is too deep.
fn as_compose_error(error: StepError) -> ComposeError
    ensures { result ≡ as_compose_error error }
{
    match error {
        StepError::Clash(clash) => ComposeError::Clash(clash),
        StepError::Large(at) => ComposeError::Large(at),
        StepError::Many | StepError::Deep => ComposeError::ManyInstructions,
        StepError::Memory => ComposeError::Memory,
    }
}

impl Step {
    /// Extend the one move by a move, as a push or an extension does over any values.
    ///
    /// The values are all undef then, so of such a step the one move alone means anything. The call costs by the move's
    /// own instructions.
    pub(crate) fn join<A: Aggregator>(
        &mut self,
        alloc: Global,
        aggregator: &A,
        instructions: &Instructions,
    ) -> Result<(), ComposeError>
        ensures ok { OnOk result (HasExtendedMove (A.meaning aggregator.now) self.old self.new instructions.now) }
        ensures err { IfErr result (λ e. ExtendsMove (A.meaning aggregator.now) (one_move self.old) instructions.now (Err e)) }
    {
        let values = undef_where(alloc, instructions)?;
        let next = match self.layer_over(alloc, aggregator, values, instructions) {
            Ok(next) => next,
            Err(error) => return Err(as_compose_error(error)),
        };
        if self.depth() == 0 {
            self.layers.push(next)?;
            return Ok(());
        }
        self.extend_top(alloc, next)?;
        Ok(())
    }
}
