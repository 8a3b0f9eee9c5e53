ghost use Rattle.std.specs.Prelude.{◌≡◌, ◌+◌, ◌<◌, ◌≤◌, ◌++◌, ◌∷◌, [], ◌↔◌, length, All, IsTrue};
ghost use Rattle.std.specs.Prelude.{OnOk, OnErr, IfOk, Some, Err, option_map, slice_get, vec_len};
ghost use Rattle.std.specs.Arc.{arc_value};
ghost use Rattle.std.specs.Slice.Iter.{iter_rest};
ghost use Rattle.std.specs.Cmp.{partial_equiv_from_equiv};
ghost use Rattle.asm_update.specs.Action.{IsProperInstruction};
ghost use Rattle.asm_update.specs.Limits.{instructions_limit};
ghost use Rattle.asm_update.specs.Move as move_spec;
ghost use Rattle.asm_update.specs.Shared.{held_items};
ghost use Rattle.asm_update.specs.Equal.{move_eq, move_eq-equiv};
ghost use Rattle.asm_update.specs.declared.instructions.InstructionsError.TheVariants as instructions_error;

use crate::action::{Action, Instruction};
use crate::proper::{proper_instruction, proper_instructions};
use asm_element::Location;
use std::alloc::{AllocError, AllocFailed, Global};
use std::marker::Model;
use std::slice;
use std::sync::Arc;
use thiserror::Error;

/// The most instructions of one move.
pub const INSTRUCTIONS_LIMIT: usize = 4096;

/// Why instructions aren't appended.
#[derive(Clone, Copy, Debug, PartialEq, Eq, Error)]
pub enum InstructionsError {
    /// There would be more than 4,096 instructions; this is found before memory is asked for.
    #[error("more than 4,096 instructions")]
    ManyInstructions,
    /// The memory that the call asked for was refused.
    #[error("out of memory")]
    Memory,
}

impl From<AllocError> for InstructionsError {
    ghost from_gives = { λ _ e. e ≡ instructions_error.Memory };

    fn from(_error: AllocError) -> InstructionsError {
        InstructionsError::Memory
    }
}

impl<T: Drop> From<AllocFailed<T>> for InstructionsError {
    ghost from_gives = { λ _ e. e ≡ instructions_error.Memory };

    fn from(_error: AllocFailed<T>) -> InstructionsError {
        InstructionsError::Memory
    }
}

/// The update instructions of one move, at most 4,096, in the order of appending.
///
/// Contracts see them as their list. Source: the multiset of update instructions that a rule yields, in CoreASM; the
/// limit is of this project's profile.
#[derive(Debug)]
pub struct Instructions {
    // Copies share it until one of them grows.
    held: Held,
    alloc: Global,
}

/// No instruction, which takes no memory; one, which takes one block of it; or a list.
#[derive(Debug, Drop)]
enum Held {
    Nothing,
    One(Arc<Instruction>),
    Many(Arc<Vec<Instruction>>),
}

// Written by hand, so that code that drops a move has one call, independent of how its instructions are held.
impl Drop for Instructions {
    fn drop(self) {
        let Instructions { held: _, alloc: _ } = self;
    }
}

impl Model for Instructions {
    ghost use Rattle.std.specs.Prelude.{List, length, ◌≤◌, All};
    ghost use Rattle.asm_update.specs.Limits.{instructions_limit};
    ghost use Rattle.asm_update.specs.Shared.{held_items};
    ghost use Rattle.asm_update.specs.Action.{IsProperInstruction};
    ghost use Rattle.asm_update.specs.declared.action.Instruction.{Instruction};
    ghost use Rattle.std.specs.Coded.{coded_list};
    ghost use Rattle.asm_update.specs.contracts.action.Instruction.{the_row as instruction_row};

    ghost Value = { List Instruction };

    ghost coded = { coded_list instruction_row.coded };

    ghost view = { λ m. held_items m.held };

    ghost invariant = { λ m. (length (held_items m.held) ≤ instructions_limit) × All IsProperInstruction (held_items m.held) };
}

// Puts the instruction behind a list, which is copied first where it has another owner.
fn push_to(list: &mut Arc<Vec<Instruction>>, instruction: Instruction) -> Result<(), AllocError>
    ensures ok { OnOk result ((arc_value list.new).items ≡ (arc_value list.old).items ++ instruction ∷ []) }
    ensures err { OnErr result ((arc_value list.new).items ≡ (arc_value list.old).items) }
{
    let unshared = Arc::make_mut(list)?;
    unshared.push(instruction)?;
    Ok(())
}

// Puts copies of the instructions behind a list, which is copied first where it has another owner.
fn append_to(list: &mut Arc<Vec<Instruction>>, more: &[Instruction]) -> Result<(), AllocError>
    ensures ok { OnOk result ((arc_value list.new).items ≡ (arc_value list.old).items ++ more.now) }
    ensures err { OnErr result ((arc_value list.new).items ≡ (arc_value list.old).items) }
{
    let unshared = Arc::make_mut(list)?;
    unshared.extend_with_clones(more)?;
    Ok(())
}

// Returns a list that begins with a copy of the instruction and has room for this many.
fn begin_list(
    alloc: Global,
    first: &Instruction,
    room: usize,
) -> Result<Vec<Instruction>, AllocError>
    ensures { IfOk result (λ list. list.items ≡ first.now ∷ []) }
{
    let mut list = Vec::with_capacity(alloc, room)?;
    list.push(first.clone()?)?;
    Ok(list)
}

// Returns the shared list of a copy of the first instruction and the second.
fn pair(alloc: Global, first: &Instruction, second: Instruction) -> Result<Held, AllocError>
    ensures { IfOk result (λ held. held_items held ≡ first.now ∷ second ∷ []) }
{
    let mut list = begin_list(alloc, first, 2)?;
    list.push(second)?;
    Ok(Held::Many(Arc::new(alloc, list)?))
}

// Returns the shared list of copies of the first instruction and the others.
fn join(alloc: Global, first: &Instruction, others: &Instructions) -> Result<Held, AllocError>
    ensures { IfOk result (λ held. held_items held ≡ first.now ∷ others.now) }
{
    let mut list = begin_list(alloc, first, 1 + others.len())?;
    list.extend_with_clones(others.as_slice())?;
    Ok(Held::Many(Arc::new(alloc, list)?))
}

// Returns how a list is held.
fn hold_list(alloc: Global, items: Vec<Instruction>) -> Result<Held, AllocError>
    ensures { IfOk result (λ held. held_items held ≡ items.items) }
{
    let mut items = items;
    if items.len() > 1 {
        return Ok(Held::Many(Arc::new(alloc, items)?));
    }
    match items.pop() {
        Some(only) => Ok(Held::One(Arc::new(alloc, only)?)),
        None => Ok(Held::Nothing),
    }
}

// Puts a location in the place of the equal one.
fn hold_in(items: &mut [Instruction], i: usize, at: Location)
    requires { option_map (λ x. x.at) (slice_get items.old i) ≡ Some at }
    ensures { items.new ≡ items.old }
{
    if i < items.len() {
        items[i].at = at;
    }
}

// Puts a location in the place of the equal one, unless copies share the instruction.
fn hold_only(only: &mut Arc<Instruction>, at: Location)
    requires { (arc_value only.old).at ≡ at }
    ensures { arc_value only.new ≡ arc_value only.old }
{
    if let Some(own) = Arc::get_mut(only) {
        own.at = at;
    }
}

// Puts a location in the place of the equal one, unless copies share the list.
fn hold_listed(list: &mut Arc<Vec<Instruction>>, i: usize, at: Location)
    requires { option_map (λ x. x.at) (slice_get (arc_value list.old).items i) ≡ Some at }
    ensures { (arc_value list.new).items ≡ (arc_value list.old).items }
{
    if let Some(own) = Arc::get_mut(list) {
        hold_in(own.as_mut_slice(), i, at);
    }
}

impl Instructions {
    /// Return the empty list of instructions.
    pub fn new(alloc: Global) -> Self
        ensures { result ≡ [] }
    {
        let held = Held::Nothing;
        Instructions { held, alloc }
    }

    /// Return the list of one instruction.
    ///
    /// # Errors
    ///
    /// - `AllocError` only if memory is refused.
    pub fn one(alloc: Global, instruction: Instruction) -> Result<Instructions, AllocError>
        ensures { IfOk result (λ list. list ≡ instruction ∷ []) }
    {
        proper_instruction(&instruction);
        let held = Held::One(Arc::new(alloc, instruction)?);
        Ok(Instructions { held, alloc })
    }

    /// Return the instructions of a list, in its order.
    ///
    /// # Errors
    ///
    /// - `ManyInstructions` exactly if there are more than 4,096, before memory is asked for.
    /// - `Memory` only if memory is refused.
    pub fn from_vec(
        alloc: Global,
        items: Vec<Instruction>,
    ) -> Result<Instructions, InstructionsError>
        ensures ok { IfOk result (λ list. list ≡ items.items) }
        ensures many { (result ≡ Err InstructionsError.ManyInstructions) ↔ (instructions_limit < vec_len items) }
    {
        if items.len() > INSTRUCTIONS_LIMIT {
            return Err(InstructionsError::ManyInstructions);
        }
        proper_instructions(items.as_slice());
        let held = hold_list(alloc, items)?;
        Ok(Instructions { held, alloc })
    }

    /// Return how many instructions there are, at most 4,096.
    pub fn len(&self) -> usize
        ensures len { result ≡ length self.now }
        ensures few { length self.now ≤ instructions_limit }
    {
        // Proof: the invariant is known once a field is read.
        let _ = &self.held;
        self.as_slice().len()
    }

    /// Return whether there is no instruction.
    pub fn is_empty(&self) -> bool
        ensures { IsTrue result ↔ (length self.now ≡ 0) }
    {
        self.len() == 0
    }

    /// Append an instruction.
    ///
    /// # Errors
    ///
    /// - `ManyInstructions` exactly if there are 4,096 already, before memory is asked for.
    /// - `Memory` only if memory is refused.
    ///
    /// On error, the list is unchanged.
    pub fn push(&mut self, instruction: Instruction) -> Result<(), InstructionsError>
        ensures ok { OnOk result (self.new ≡ self.old ++ instruction ∷ []) }
        ensures many { (result ≡ Err InstructionsError.ManyInstructions) ↔ (length self.old ≡ instructions_limit) }
        ensures err { OnErr result (self.new ≡ self.old) }
    {
        if self.len() == INSTRUCTIONS_LIMIT {
            return Err(InstructionsError::ManyInstructions);
        }
        proper_instruction(&instruction);
        match &mut self.held {
            Held::Nothing => self.held = Held::One(Arc::new(self.alloc, instruction)?),
            Held::One(first) => self.held = pair(self.alloc, first, instruction)?,
            Held::Many(list) => push_to(list, instruction)?,
        }
        Ok(())
    }

    /// Append the instructions of another move: the result is the union of the two multisets.
    ///
    /// If this list is empty, it shares that of `other` from then on, which takes no memory.
    ///
    /// # Errors
    ///
    /// - `ManyInstructions` exactly if there would be more than 4,096, before memory is asked for.
    /// - `Memory` only if memory is refused.
    ///
    /// On error, the list is unchanged.
    pub fn append(&mut self, other: &Instructions) -> Result<(), InstructionsError>
        ensures ok { OnOk result (self.new ≡ self.old ++ other.now) }
        ensures many { (result ≡ Err InstructionsError.ManyInstructions) ↔
            (instructions_limit < length self.old + length other.now) }
        ensures err { OnErr result (self.new ≡ self.old) }
    {
        if self.len() + other.len() > INSTRUCTIONS_LIMIT {
            return Err(InstructionsError::ManyInstructions);
        }
        other.proper();
        match &mut self.held {
            Held::Nothing => *self = other.clone()?,
            Held::One(first) => self.held = join(self.alloc, first, other)?,
            Held::Many(list) => append_to(list, other.as_slice())?,
        }
        Ok(())
    }

    /// Hold this location in the place of an instruction's equal one, unless copies of the list share the instruction.
    pub fn hold(&mut self, i: usize, at: Location)
        requires { option_map (λ x. x.at) (slice_get self.old i) ≡ Some at }
        ensures { self.new ≡ self.old }
    {
        match &mut self.held {
            Held::Nothing => {}
            Held::One(only) => hold_only(only, at),
            Held::Many(list) => hold_listed(list, i, at),
        }
    }

    /// Return the instruction at a place, counted from 0.
    pub fn get(&self, i: usize) -> &Instruction
        requires { i < length self.now }
        ensures { slice_get self.now i ≡ Some result.now }
    {
        &self.as_slice()[i]
    }

    /// Return the instructions, from the first to the last.
    pub fn iter(&self) -> slice::Iter<'_, Instruction>
        ensures { iter_rest result ≡ self.now }
    {
        self.as_slice().iter()
    }

    /// Return whether no instruction is partial; true of the empty list.
    pub fn all_regular(&self) -> bool
        ensures { result ≡ move_spec.all_regular self.now }
    {
        self.iter().all(|instruction| matches!(&instruction.action, Action::Regular(_)))
    }

    /// State for proofs that each instruction is well-formed; do nothing at run time.
    pub fn proper(&self)
        ensures { All IsProperInstruction self.now }
    {
        let _ = &self.held;
    }

    /// Return the same instructions, which both share until one of them grows, so that it takes no memory.
    ///
    /// # Errors
    ///
    /// - `AllocError` only if more lists would share them than can be counted.
    pub fn copy(&self, _alloc: Global) -> Result<Instructions, AllocError>
        ensures { IfOk result (λ copy. copy ≡ self.now) }
    {
        self.clone()
    }

    /// Return the instructions, from the first to the last.
    pub fn as_slice(&self) -> &[Instruction]
        ensures { result.now ≡ self.now }
    {
        match &self.held {
            Held::Nothing => &[],
            Held::One(instruction) => slice::from_ref(instruction),
            Held::Many(list) => list.as_slice(),
        }
    }
}

impl Clone for Instructions {
    ghost is_clone = { λ instructions copy. copy ≡ instructions };

    fn clone(&self) -> Result<Instructions, AllocError> {
        let held = match &self.held {
            Held::Nothing => Held::Nothing,
            Held::One(instruction) => Held::One(Arc::try_clone(instruction)?),
            Held::Many(list) => Held::Many(Arc::try_clone(list)?),
        };
        Ok(Instructions {
            held,
            alloc: self.alloc,
        })
    }
}

impl PartialEq for Instructions {
    ghost eq = { move_eq };

    ghost laws = { partial_equiv_from_equiv move_eq-equiv };

    fn eq(&self, other: &Instructions) -> bool
        ensures eq { result ≡ move_eq self.now other.now }
        ensures same { IsTrue result ↔ (self.now ≡ other.now) }
    {
        self.as_slice() == other.as_slice()
    }
}

impl Eq for Instructions {
    ghost laws = { move_eq-equiv };
}
