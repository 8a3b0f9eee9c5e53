//! Steps: blocks that are run in sequence.
ghost use Rattle.std.specs.Prelude.{◌≡◌, ◌↔◌, ◌⊎◌, ◌<◌, ◌++◌, ◌∷◌, [], length, map, vec_len, IfSome, IsNone};
ghost use Rattle.std.specs.Prelude.{OnOk, IfOk, IfErr};
ghost use Rattle.asm_script.specs.Terms.{locations_in};
ghost use Rattle.asm_overlay.specs.Frames.{seen_through};
ghost use Rattle.asm_overlay.specs.Limits.{frames_limit};
ghost use Rattle.asm_script.specs.Limits.{blocks_limit};
ghost use Rattle.asm_script.specs.Ready.{as_written, written};
ghost use Rattle.asm_script.specs.Blocks.{move_in, IsNext};
ghost use Rattle.asm_script.specs.Sequencing.{IsFrame, Extends, IsStepMove};
ghost use Rattle.asm_script.specs.StepReads.{places_in, target_of, taken, changed, AreReads};

use crate::block::{Block, Form, TermAction, TermInstruction, block_move};
use crate::fault::StepFault;
use crate::script::BLOCKS_LIMIT;
use crate::term::Term;
use asm_aggregate::{ComposeError, aggregate, compose};
use asm_element::Location;
use asm_overlay::{Over, Overlay, OverlayError};
use asm_update::{Action, AggError, Aggregator, Instruction, Instructions, Lookup, UpdateSet};
use std::alloc::{AllocError, Global};
use std::marker::Model;

/// The blocks of a step, 1 to 65, which are run in sequence.
///
/// Contracts see it as their list.
#[derive(Debug, Drop)]
pub struct Step {
    earlier: Vec<Block>,
    last: Block,
    // What the step reads, gathered once.
    reads: Vec<Location>,
}

impl Model for Step {
    ghost use Rattle.std.specs.Prelude.{List, length, ◌≤◌, ◌++◌, ◌∷◌, []};
    ghost use Rattle.std.specs.Coded.{coded_list};
    ghost use Rattle.asm_overlay.specs.Limits.{frames_limit};
    ghost use Rattle.asm_script.specs.StepReads.{AreReads};
    ghost use Rattle.asm_script.specs.declared.block.Block.{Block};
    ghost use Rattle.asm_script.specs.contracts.block.TermInstruction.{the_row as instruction_row};

    ghost Value = { List Block };

    ghost coded = { coded_list (coded_list instruction_row.coded) };

    ghost view = { λ s. s.earlier.items ++ s.last ∷ [] };

    ghost invariant = { λ s. (length s.earlier.items ≤ frames_limit)
        × AreReads (s.earlier.items ++ s.last ∷ []) s.reads.items };
}

impl Step {
    /// Return the step of these blocks; None where there is no block, or more than 65.
    ///
    /// # Errors
    ///
    /// - `AllocError` only if memory is refused.
    pub(crate) fn new(alloc: Global, blocks: Vec<Block>) -> Result<Option<Step>, AllocError>
        ensures step { IfOk result (λ made. IfSome made (λ s. s ≡ blocks.items)) }
        ensures none { IfOk result
            (λ made. IsNone made ↔ ((blocks.items ≡ []) ⊎ (blocks_limit < vec_len blocks))) }
    {
        if blocks.len() > BLOCKS_LIMIT {
            return Ok(None);
        }
        let mut earlier = blocks;
        let Some(last) = earlier.pop() else {
            return Ok(None);
        };
        let reads = gathered_reads(alloc, earlier.as_slice(), &last)?;
        Ok(Some(Step {
            earlier,
            last,
            reads,
        }))
    }

    /// Return the locations that the step reads, each once, in ascending order.
    ///
    /// They are those whose values its terms take, and those of partial updates in all blocks but the last, since the
    /// blocks that follow are evaluated on what these updates leave.
    pub fn reads(&self) -> &[Location]
        ensures { AreReads self.now result.now }
    {
        self.reads.as_slice()
    }
}

/// Append the locations whose values the term takes.
fn push_term(alloc: Global, term: &Term, places: &mut Vec<Location>) -> Result<(), AllocError>
    ensures { OnOk result (places.new.items ≡ places.old.items ++ locations_in term.now) }
{
    match term {
        Term::Value(_) => {}
        Term::Val(at) => places.push(at.copy(alloc)?)?,
        Term::Sum(first, second) => {
            push_term(alloc, first, places)?;
            push_term(alloc, second, places)?;
        }
    }
    Ok(())
}

/// Append the locations whose values the action's term takes, if it has a term.
fn push_places(
    alloc: Global,
    action: &TermAction,
    places: &mut Vec<Location>,
) -> Result<(), AllocError>
    ensures { OnOk result (places.new.items ≡ places.old.items ++ places_in action.now) }
{
    match action {
        TermAction::Put(term)
        | TermAction::Add(term)
        | TermAction::Remove(term)
        | TermAction::BagAdd(term, _)
        | TermAction::BagRemove(term, _) => push_term(alloc, term, places),
        TermAction::Increment(_) => Ok(()),
    }
}

/// Append the locations whose values the instructions' terms take.
fn push_each(
    alloc: Global,
    instructions: &[TermInstruction],
    places: &mut Vec<Location>,
) -> Result<(), AllocError>
    ensures { OnOk result (places.new.items ≡ places.old.items ++ taken instructions.now) }
{
    for instruction in instructions {
        push_places(alloc, &instruction.action, places)?;
    }
    Ok(())
}

/// Append the locations whose values the block's terms take: none if it is ready.
fn push_terms(alloc: Global, block: &Block, places: &mut Vec<Location>) -> Result<(), AllocError>
    ensures { OnOk result (places.new.items ≡ places.old.items ++ taken block.now) }
{
    match block.form() {
        Form::Terms(instructions) => push_each(alloc, instructions.as_slice(), places),
        Form::Ready(_) => Ok(()),
    }
}

/// Append the location, if the action there is a partial update.
fn push_target(
    alloc: Global,
    at: &Location,
    action: &TermAction,
    places: &mut Vec<Location>,
) -> Result<(), AllocError>
    ensures { OnOk result (places.new.items ≡ places.old.items ++ target_of at.now action.now) }
{
    match action {
        TermAction::Put(_) => {}
        _ => places.push(at.copy(alloc)?)?,
    }
    Ok(())
}

/// Append the locations of the partial updates that have a term or an increment.
fn push_each_target(
    alloc: Global,
    instructions: &[TermInstruction],
    places: &mut Vec<Location>,
) -> Result<(), AllocError>
    ensures { OnOk result (places.new.items ≡ places.old.items ++ changed instructions.now) }
{
    for instruction in instructions {
        push_target(alloc, &instruction.at, &instruction.action, places)?;
    }
    Ok(())
}

/// Append the location, if the action there is a partial update that is ready.
fn push_ready_target(
    alloc: Global,
    at: &Location,
    action: &Action,
    places: &mut Vec<Location>,
) -> Result<(), AllocError>
    ensures { OnOk result
        (places.new.items ≡ places.old.items ++ target_of at.now (as_written action.now)) }
{
    match action {
        Action::Regular(_) => {}
        _ => places.push(at.copy(alloc)?)?,
    }
    Ok(())
}

/// Append the locations of the partial updates that are ready.
fn push_ready_targets(
    alloc: Global,
    instructions: &[Instruction],
    places: &mut Vec<Location>,
) -> Result<(), AllocError>
    ensures { OnOk result
        (places.new.items ≡ places.old.items ++ changed (map written instructions.now)) }
{
    for instruction in instructions {
        push_ready_target(alloc, &instruction.at, &instruction.action, places)?;
    }
    Ok(())
}

/// Append the locations of the block's partial updates.
fn push_targets(alloc: Global, block: &Block, places: &mut Vec<Location>) -> Result<(), AllocError>
    ensures { OnOk result (places.new.items ≡ places.old.items ++ changed block.now) }
{
    match block.form() {
        Form::Terms(instructions) => push_each_target(alloc, instructions.as_slice(), places),
        Form::Ready(instructions) => push_ready_targets(alloc, instructions.as_slice(), places),
    }
}

/// Return the locations that the step of these blocks reads.
///
/// # Errors
///
/// - `AllocError` only if memory is refused.
fn gathered_reads(
    alloc: Global,
    earlier: &[Block],
    last: &Block,
) -> Result<Vec<Location>, AllocError>
    ensures { IfOk result (λ places. AreReads (earlier.now ++ last.now ∷ []) places.items) }
{
    let mut places = Vec::new(alloc);
    for block in earlier {
        push_terms(alloc, block, &mut places)?;
        push_targets(alloc, block, &mut places)?;
    }
    push_terms(alloc, last, &mut places)?;
    places.sort_unstable();
    places.dedup();
    Ok(places)
}

/// Evaluate the next block on what is seen through the frames.
///
/// The blocks before it were pushed as frames.
fn next_move<L: Lookup>(
    alloc: Global,
    block: &Block,
    overlay: &Overlay,
    reading: &L,
) -> Result<Instructions, StepFault>
    ensures { IsNext (length overlay.now)
        (move_in (seen_through overlay.now (L.value_at reading.now)) block.now) result }
{
    block_move(alloc, overlay.depth(), block, &Over::new(overlay, reading))
}

/// Return the update set of the instructions on what is seen through the frames.
fn next_frame<A: Aggregator, L: Lookup>(
    alloc: Global,
    aggregator: &A,
    overlay: &Overlay,
    reading: &L,
    next: &Instructions,
) -> Result<UpdateSet, StepFault>
    ensures { IsFrame (A.meaning aggregator.now).part
        (seen_through overlay.now (L.value_at reading.now)) next.now result }
{
    match aggregate(alloc, aggregator, &Over::new(overlay, reading), next) {
        Ok(frame) => Ok(frame),
        Err(AggError::Clash(clash)) => Err(StepFault::Clash(clash)),
        Err(AggError::Memory) => Err(StepFault::Memory),
    }
}

/// Put a frame on top of fewer than 64.
///
/// # Errors
///
/// - `Memory` only if memory is refused.
fn push_frame(overlay: &mut Overlay, frame: UpdateSet) -> Result<(), StepFault>
    requires { length overlay.old < frames_limit }
    ensures ok { OnOk result (overlay.new ≡ overlay.old ++ frame ∷ []) }
    ensures err { IfErr result (λ fault. fault ≡ StepFault.Memory) }
{
    match overlay.push(frame) {
        Ok(()) => Ok(()),
        Err(OverlayError::Memory(_)) => Err(StepFault::Memory),
        Err(OverlayError::Deep(_)) => unreachable!(),
    }
}

/// Return the instructions that do what the earlier ones and then the next ones do.
///
/// There may be no earlier ones.
fn extended<A: Aggregator>(
    alloc: Global,
    aggregator: &A,
    earlier: &Option<Instructions>,
    next: Instructions,
) -> Result<Instructions, StepFault>
    ensures { Extends (A.meaning aggregator.now) earlier.now next result }
{
    let Some(earlier) = earlier else {
        return Ok(next);
    };
    match compose(alloc, aggregator, earlier, &next) {
        Ok(composed) => Ok(composed),
        Err(ComposeError::Clash(clash)) => Err(StepFault::Clash(clash)),
        Err(ComposeError::Large(at)) => Err(StepFault::Large(at)),
        Err(ComposeError::ManyInstructions) => Err(StepFault::Many),
        Err(ComposeError::Memory) => Err(StepFault::Memory),
    }
}

/// Return the one move of a step: firing it is firing its blocks in turn.
///
/// That holds in the states that have what `reading` gives at the locations that the step reads. The move is what the
/// blocks' moves compose to, each evaluated on the state that the blocks before it leave.
///
/// The faults are found block by block. A step of one block has the instructions of the block, also if they clash; the
/// last of several blocks clashes when the move is fired, unless it doesn't compose. Source: sequential composition, by
/// Börger and Stärk; the pushed states are CoreASM's.
///
/// # Errors
///
/// - `StepFault::Term` if a term of the block has no value in the state before it: it names the first instruction with
///   such a term, and why.
/// - `Clash` if a block that others follow clashes, or if it and the blocks before it don't compose.
/// - `Large` if an amount or a sum of increments is then too large: the blocks in turn then clash too.
/// - `Many` if more than 4,096 instructions come together.
/// - `Memory` only if memory is refused.
pub fn step_move<A: Aggregator, L: Lookup>(
    alloc: Global,
    aggregator: &A,
    step: &Step,
    reading: &L,
) -> Result<Instructions, StepFault>
    ensures { IsStepMove (A.meaning aggregator.now) (L.value_at reading.now) step.now result }
{
    let mut overlay = Overlay::new(alloc);
    let mut done: Option<Instructions> = None;
    for block in &step.earlier {
        let next = next_move(alloc, block, &overlay, reading)?;
        let frame = next_frame(alloc, aggregator, &overlay, reading, &next)?;
        push_frame(&mut overlay, frame)?;
        let composed = extended(alloc, aggregator, &done, next)?;
        done = Some(composed);
    }
    let last = next_move(alloc, &step.last, &overlay, reading)?;
    extended(alloc, aggregator, &done, last)
}
