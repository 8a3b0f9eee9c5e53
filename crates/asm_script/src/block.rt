//! Blocks: instructions with terms.
ghost use Rattle.std.specs.Prelude.{◌≡◌, ◌↔◌, ◌<◌, ◌≤◌, length, vec_len, IfOk, IfSome, IsNone};
ghost use Rattle.std.specs.List.{list_all};
ghost use Rattle.asm_update.specs.Limits.{instructions_limit};
ghost use Rattle.asm_script.specs.Terms.{IsEvaluated};
ghost use Rattle.asm_script.specs.Ready.{is_ready, written_form, is_ready_form};
ghost use Rattle.asm_script.specs.Blocks.{action_in, instruction_in, move_in, IsReady, IsNext};

use crate::fault::{FaultyTerm, StepFault};
use crate::ready::{are_ready, ready_instructions};
use crate::term::{Term, TermFault, element, evaluate};
use asm_element::Location;
use asm_update::{
    Action, Amount, INSTRUCTIONS_LIMIT, Instruction, Instructions, InstructionsError, Lookup,
};
use std::alloc::{AllocError, Global};
use std::marker::Model;

/// What an instruction of a script does at its location.
#[derive(Debug, Drop)]
pub enum TermAction {
    /// Writes the term's value; undef leaves nothing there.
    Put(Term),
    /// Adds the value of the term, an element, to a set.
    Add(Term),
    /// Removes the value of the term, an element, from a set.
    Remove(Term),
    /// Raises the count of the term's value, an element, in a bag by the amount.
    BagAdd(Term, Amount),
    /// Lowers the count of the term's value, an element, in a bag by the amount.
    BagRemove(Term, Amount),
    /// Raises the number of a counter by this one, which may be 0 or below.
    Increment(i64),
}

/// An instruction of a script, with a term for the value or the element.
///
/// Locations, amounts and the numbers of increments are literal.
#[derive(Debug, Drop)]
pub struct TermInstruction {
    /// The location that is written.
    pub at: Location,
    /// What is done there.
    pub action: TermAction,
}

/// How a block is stored.
#[derive(Debug, Drop)]
pub(crate) enum Form {
    /// Instructions with terms.
    Terms(Vec<TermInstruction>),
    /// The instructions of the block in each state, if all its terms are literal.
    Ready(Instructions),
}

/// The instructions of one block, at most 4,096.
///
/// Contracts see it as their list.
#[derive(Debug, Drop)]
pub struct Block {
    form: Form,
}

impl Model for Block {
    ghost use Rattle.std.specs.Prelude.{List, length, ◌≤◌};
    ghost use Rattle.std.specs.Coded.{coded_list};
    ghost use Rattle.asm_script.specs.declared.block.TermInstruction.{TermInstruction};
    ghost use Rattle.asm_script.specs.contracts.block.TermInstruction.{the_row as instruction_row};
    ghost use Rattle.asm_script.specs.Ready.{written_form};
    ghost use Rattle.asm_update.specs.Limits.{instructions_limit};

    ghost Value = { List TermInstruction };

    ghost coded = { coded_list instruction_row.coded };

    ghost view = { λ b. written_form b.form };

    ghost invariant = { λ b. length (written_form b.form) ≤ instructions_limit };
}

/// Return how to store these instructions: ready if all their terms are literal.
fn form_of(alloc: Global, instructions: Vec<TermInstruction>) -> Result<Form, AllocError>
    requires { vec_len instructions ≤ instructions_limit }
    ensures written { IfOk result (λ form. written_form form ≡ instructions.items) }
    ensures ready { IfOk result
        (λ form. is_ready_form form ≡ list_all is_ready instructions.items) }
{
    if !are_ready(instructions.as_slice()) {
        return Ok(Form::Terms(instructions));
    }
    let made = ready_instructions(alloc, instructions)?;
    match Instructions::from_vec(alloc, made) {
        Ok(instructions) => Ok(Form::Ready(instructions)),
        Err(InstructionsError::ManyInstructions) => unreachable!(),
        Err(InstructionsError::Memory) => Err(AllocError),
    }
}

impl Block {
    /// Return the block of these instructions; None where there are more than 4,096.
    ///
    /// It takes no memory.
    pub fn new(instructions: Vec<TermInstruction>) -> Option<Block>
        ensures block { IfSome result (λ b. b ≡ instructions.items) }
        ensures many { IsNone result ↔ (instructions_limit < vec_len instructions) }
    {
        if instructions.len() > INSTRUCTIONS_LIMIT {
            return None;
        }
        let form = Form::Terms(instructions);
        Some(Block { form })
    }

    /// Return the same block, ready if all its terms are literal.
    ///
    /// Its evaluation then shares its instructions.
    ///
    /// # Errors
    ///
    /// - `AllocError` only if memory is refused.
    pub(crate) fn prepared(self, alloc: Global) -> Result<Block, AllocError>
        ensures { IfOk result (λ b. b ≡ self) }
    {
        let Block { form } = self;
        let form = match form {
            Form::Terms(instructions) => form_of(alloc, instructions)?,
            Form::Ready(instructions) => Form::Ready(instructions),
        };
        Ok(Block { form })
    }

    /// Return how the block is stored.
    pub(crate) fn form(&self) -> &Form
        ensures form { written_form result.now ≡ self.now }
        ensures ready { IsReady result.now self.now }
        ensures few { length self.now ≤ instructions_limit }
    {
        &self.form
    }
}

/// Return the action with the term's value in its place.
fn action<L: Lookup>(alloc: Global, action: &TermAction, lookup: &L) -> Result<Action, TermFault>
    ensures { IsEvaluated (action_in (L.value_at lookup.now) action.now) result }
{
    Ok(match action {
        TermAction::Put(term) => Action::Regular(evaluate(alloc, term, lookup)?),
        TermAction::Add(term) => Action::SetAdd(element(alloc, term, lookup)?),
        TermAction::Remove(term) => Action::SetRemove(element(alloc, term, lookup)?),
        TermAction::BagAdd(term, amount) => Action::BagAdd(element(alloc, term, lookup)?, *amount),
        TermAction::BagRemove(term, amount) => {
            Action::BagRemove(element(alloc, term, lookup)?, *amount)
        }
        TermAction::Increment(n) => Action::Increment(*n),
    })
}

/// Return the instruction with the term's value in its place.
fn instruction<L: Lookup>(
    alloc: Global,
    instruction: &TermInstruction,
    lookup: &L,
) -> Result<Instruction, TermFault>
    ensures { IsEvaluated (instruction_in (L.value_at lookup.now) instruction.now) result }
{
    let action = action(alloc, &instruction.action, lookup)?;
    let at = instruction.at.copy(alloc)?;
    Ok(Instruction { at, action })
}

/// Evaluate the terms of the instructions of the block with this number, in order.
fn evaluated<L: Lookup>(
    alloc: Global,
    block: usize,
    instructions: &[TermInstruction],
    lookup: &L,
) -> Result<Instructions, StepFault>
    requires { length instructions.now ≤ instructions_limit }
    ensures { IsNext block (move_in (L.value_at lookup.now) instructions.now) result }
{
    let mut done = Vec::with_capacity(alloc, instructions.len())?;
    for written in instructions {
        match instruction(alloc, written, lookup) {
            Ok(instruction) => done.push(instruction)?,
            Err(TermFault::Faulty(why)) => {
                return Err(StepFault::Term(FaultyTerm {
                    block,
                    instruction: done.len(),
                    why,
                }));
            }
            Err(TermFault::Memory) => return Err(StepFault::Memory),
        }
    }
    match Instructions::from_vec(alloc, done) {
        Ok(instructions) => Ok(instructions),
        Err(InstructionsError::ManyInstructions) => unreachable!(),
        Err(InstructionsError::Memory) => Err(StepFault::Memory),
    }
}

/// Evaluate a block: return its instructions, with their terms' values.
///
/// The look-up gives the values of locations, and the block has this number in its step. A block without terms to
/// evaluate shares its instructions with the answer.
///
/// # Errors
///
/// - `StepFault::Term` exactly if some term has no value, or the element of a partial update is a set or a bag: it
///   names the first such instruction.
/// - `Memory` only if memory is refused, and there is no other fault.
pub fn block_move<L: Lookup>(
    alloc: Global,
    number: usize,
    block: &Block,
    lookup: &L,
) -> Result<Instructions, StepFault>
    ensures { IsNext number (move_in (L.value_at lookup.now) block.now) result }
{
    match block.form() {
        Form::Terms(instructions) => evaluated(alloc, number, instructions.as_slice(), lookup),
        Form::Ready(instructions) => Ok(instructions.copy(alloc)?),
    }
}
