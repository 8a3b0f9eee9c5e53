//! Preparing locations, and building moves in slots.
ghost use Rattle.std.specs.Prelude.{◌≡◌, ◌∷◌, ◌++◌, [], IfErr, MatchResult, OnErr, OnOk, Some, IfOk, None};
ghost use Rattle.asm_slots.specs.Kinds.{IsInstructed};
ghost use Rattle.asm_slots.specs.Answers.{IsNoRoomFor, IsNotAppended, IsNotGathered, IsNotInstructed, IsNotPrepared, IsNotUnited, IsUnreadAs};
ghost use Rattle.asm_slots.specs.Slots.{HasRoomFor, Holds, a_location, a_move, content_of, move_of};
ghost use Rattle.asm_slots.specs.declared.content.Content.TheVariants as content;
ghost use Rattle.asm_journal.specs.Element.{IsLocationForm};
ghost use Rattle.asm_slots.specs.Bytes.{ReadAsLocation};

use crate::codes::Code;
use crate::content::Content;
use crate::lend;
use crate::operands::action_of;
use crate::slot::Slot;
use crate::take_and_put::{put_shell, take_shell};
use asm_element::Location;
use asm_explain::read_quickly;
use asm_update::{Action, Instruction, Instructions};
use std::alloc::{AllocError, Global};

// Append the instruction of the action at the location.
fn append(
    alloc: Global,
    gathered: &mut Instructions,
    at: &Location,
    action: Action,
) -> Result<(), Code>
    ensures done { OnOk result (gathered.new ≡ gathered.old ++ record { at = at.now; action = action } ∷ []) }
    ensures err { IfErr result (IsNoRoomFor gathered.old) }
    ensures kept { OnErr result (gathered.new ≡ gathered.old) }
{
    let at = at.copy(alloc)?;
    gathered.push(Instruction { at, action })?;
    Ok(())
}

#[tactic(auto, using(crate::proofs::Refused::no_gathered, crate::proofs::Refused::no_room))]
fn gather(
    alloc: Global,
    gathered: &mut Instructions,
    at: &Location,
    verb: i32,
    kind: i32,
    number: i64,
    bytes: &[u8],
    amount: u32,
) -> Result<(), Code>
    ensures done { OnOk result (IsInstructed at.now verb kind number bytes.now amount gathered.old gathered.new) }
    ensures err { IfErr result (IsNotGathered gathered.old verb kind number bytes.now amount) }
    ensures kept { OnErr result (gathered.new ≡ gathered.old) }
{
    let action = action_of(alloc, verb, kind, number, bytes, amount)?;
    append(alloc, gathered, at, action)
}

/// Replace what the slot holds with the move.
pub(crate) fn hold(alloc: Global, slot: &mut Slot, gathered: Instructions) -> Result<(), AllocError>
    ensures held { OnOk result (content_of slot.new ≡ Some (content.Move gathered)) }
    ensures kept { OnErr result (content_of slot.new ≡ content_of slot.old) }
{
    let made = Box::new(alloc, Content::Move(gathered))?;
    *slot = Slot::holding(made);
    Ok(())
}

/// Do what `asm_instruct` does.
#[tactic(auto, using(crate::proofs::Refused::no_instructed))]
pub fn instruct(
    alloc: Global,
    instrs: &mut Slot,
    at: &mut Slot,
    verb: i32,
    kind: i32,
    number: i64,
    bytes: &[u8],
    amount: u32,
) -> Result<(), Code>
    ensures answers { MatchResult result (λ done. HasRoomFor a_move (content_of instrs.old)
        × Holds a_location (content_of at.old) (λ l. Holds a_move (content_of instrs.new)
        (IsInstructed l verb kind number bytes.now amount (move_of (content_of instrs.old)))))
        (IsNotInstructed (content_of at.old) (content_of instrs.old) verb kind number bytes.now amount) }
    ensures kept { OnErr result (content_of instrs.new ≡ content_of instrs.old) }
    ensures held { content_of at.new ≡ content_of at.old }
{
    let Some(held) = instrs.as_mut() else {
        lend!(at: Location = at, Err(Code::Empty));
        let mut gathered = Instructions::new(alloc);
        gather(alloc, &mut gathered, at, verb, kind, number, bytes, amount)?;
        hold(alloc, instrs, gathered)?;
        return Ok(());
    };
    let Content::Move(gathered) = held else {
        return Err(Code::Taken);
    };
    lend!(at: Location = at, Err(Code::Empty));
    gather(alloc, gathered, at, verb, kind, number, bytes, amount)?;
    Ok(())
}

// Append the instructions of the move in the slot.
fn append_all(gathered: &mut Instructions, other: &mut Slot) -> Result<(), Code>
    ensures room { OnOk result (HasRoomFor a_move (content_of other.old)) }
    ensures done { OnOk result (gathered.new ≡ gathered.old ++ move_of (content_of other.old)) }
    ensures err { IfErr result (IsNotAppended gathered.old (content_of other.old)) }
    ensures kept { OnErr result (gathered.new ≡ gathered.old) }
    ensures held { content_of other.new ≡ content_of other.old }
{
    let Some(held) = other.as_mut() else {
        return Ok(());
    };
    let Content::Move(added) = held else {
        return Err(Code::Empty);
    };
    gathered.append(added)?;
    Ok(())
}

// Put a move of the other's instructions into an empty slot.
fn unite_first(alloc: Global, instrs: &mut Slot, other: &mut Slot) -> Result<(), Code>
    requires { content_of instrs.old ≡ None }
    ensures room { OnOk result (HasRoomFor a_move (content_of other.old)) }
    ensures done { OnOk result (Holds a_move (content_of instrs.new) (λ united. united ≡ move_of (content_of other.old))) }
    ensures err { IfErr result (IsNotAppended [] (content_of other.old)) }
    ensures kept { OnErr result (content_of instrs.new ≡ content_of instrs.old) }
    ensures held { content_of other.new ≡ content_of other.old }
{
    let mut gathered = Instructions::new(alloc);
    append_all(&mut gathered, other)?;
    // Proof: the limit is known once the length is read.
    let _ = gathered.len();
    let was_full = other.is_full();
    hold(alloc, instrs, gathered)?;
    // If C passes one empty slot twice, it is full now.
    if other.is_full() != was_full {
        *instrs = Slot::empty(alloc);
        return Err(Code::Empty);
    }
    Ok(())
}

/// Do what `asm_unite` does.
#[tactic(auto, using(crate::proofs::Refused::not_united))]
pub fn unite(alloc: Global, instrs: &mut Slot, other: &mut Slot) -> Result<(), Code>
    ensures answers { MatchResult result (λ done. HasRoomFor a_move (content_of instrs.old) × HasRoomFor a_move (content_of other.old)
        × Holds a_move (content_of instrs.new) (λ united. united ≡ move_of (content_of instrs.old) ++ move_of (content_of other.old)))
        (IsNotUnited (content_of instrs.old) (content_of other.old)) }
    ensures kept { OnErr result (content_of instrs.new ≡ content_of instrs.old) }
    ensures held { content_of other.new ≡ content_of other.old }
{
    let was_full = other.is_full();
    let Some(mut shell) = take_shell(alloc, instrs) else {
        return unite_first(alloc, instrs, other);
    };
    let united = match &mut *shell {
        // If C passes one slot twice, it is empty by now.
        Content::Move(_) if other.is_full() != was_full => Err(Code::Empty),
        Content::Move(gathered) => append_all(gathered, other),
        _ => Err(Code::Taken),
    };
    put_shell(instrs, shell);
    united
}

fn read_location(alloc: Global, bytes: &[u8]) -> Result<Location, Code>
    ensures ok { IfOk result (ReadAsLocation bytes.now) }
    ensures err { IfErr result (IsUnreadAs IsLocationForm bytes.now) }
{
    let at = read_quickly::<Location>(alloc, bytes)?;
    Ok(at.share(alloc)?)
}

/// Do what `asm_location` does.
#[tactic(auto, using(crate::proofs::Refused::not_prepared))]
pub fn prepare(alloc: Global, location: &[u8], at: &mut Slot) -> Result<(), Code>
    ensures answers { MatchResult result
        (λ done. (content_of at.old ≡ None) × Holds a_location (content_of at.new) (ReadAsLocation location.now))
        (IsNotPrepared (content_of at.old) location.now) }
    ensures kept { OnErr result (content_of at.new ≡ content_of at.old) }
{
    if at.is_full() {
        return Err(Code::Taken);
    }
    let made = read_location(alloc, location)?;
    *at = Slot::holding(Box::new(alloc, Content::Location(made))?);
    Ok(())
}
