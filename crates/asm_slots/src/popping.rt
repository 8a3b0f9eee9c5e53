//! Popping the move of a step that was pushed last, also into a slot.
#![tactic(auto, unfolding(asm_aggregate::specs::Standard::standard_meaning))]

ghost use Rattle.std.specs.Bool.{OnFalse, OnTrue};
ghost use Rattle.std.specs.Prelude.{◌≡◌, IfErr, MatchResult, OnErr, OnOk};
ghost use Rattle.asm_slots.specs.Popping.{HasPoppedLast, IsNotPoppedIn, IsNotPoppedInto, IsUnpopped, IsUnpoppedMove};
ghost use Rattle.asm_slots.specs.Slots.{Changes, HasRoomFor, Holds, a_move, a_step, content_of};
ghost use Rattle.asm_slots.specs.Standard.{standard};
ghost use Rattle.asm_transaction.specs.Popping.{HasPoppedMove};

use crate::codes::Code;
use crate::content::Content;
use crate::lend;
use crate::slot::Slot;
use asm_aggregate::standard;
use asm_transaction::Transaction;
use std::alloc::Global;

// Return whether the slot is empty or holds a move.
fn has_room_for_move(slot: &mut Slot) -> bool
    ensures kept { content_of slot.new ≡ content_of slot.old }
    ensures yes { OnTrue result (HasRoomFor a_move (content_of slot.old)) }
    ensures no { OnFalse result (¬ HasRoomFor a_move (content_of slot.old)) }
{
    let Some(held) = slot.as_mut() else {
        return true;
    };
    matches!(held, Content::Move(_))
}

#[tactic(auto, using(crate::proofs::Refused::not_popped, crate::proofs::Refused::untracked_as))]
fn pop_in(alloc: Global, step: &mut Transaction) -> Result<(), Code>
    ensures popped { OnOk result (HasPoppedLast step.old step.new) }
    ensures err { IfErr result (IsUnpopped step.old) }
    ensures kept { OnErr result (step.new ≡ step.old) }
{
    match step.pop(alloc)? {
        Some(_) => Ok(()),
        None => Err(Code::NoPush),
    }
}

/// Do what `asm_pop` does.
#[tactic(auto, using(crate::proofs::Refused::not_popped_in))]
pub fn pop(alloc: Global, step: &mut Slot) -> Result<(), Code>
    ensures answers { MatchResult result
        (λ done. Changes a_step (content_of step.old) (content_of step.new) HasPoppedLast)
        (IsNotPoppedIn (content_of step.old)) }
    ensures kept { OnErr result (content_of step.new ≡ content_of step.old) }
{
    lend!(step: Step = step, Err(Code::Empty));
    pop_in(alloc, step)?;
    Ok(())
}

#[tactic(auto, using(crate::proofs::Refused::not_composed))]
fn pop_into(alloc: Global, step: &mut Transaction, instrs: &mut Slot) -> Result<(), Code>
    ensures popped { OnOk result (Holds a_move (content_of instrs.new) (HasPoppedMove standard step.old step.new)) }
    ensures err { IfErr result (IsUnpoppedMove step.old) }
    ensures kept { OnErr result (step.new ≡ step.old) }
    ensures held { OnErr result (content_of instrs.new ≡ content_of instrs.old) }
{
    let mut made = Box::new(alloc, Content::Nothing)?;
    let Some(one) = step.pop_move(alloc, &standard())? else {
        return Err(Code::NoPush);
    };
    *made = Content::Move(one);
    *instrs = Slot::holding(made);
    Ok(())
}

/// Do what `asm_pop_move` does.
#[tactic(auto, using(crate::proofs::Refused::not_popped_into))]
pub fn pop_move(alloc: Global, step: &mut Slot, instrs: &mut Slot) -> Result<(), Code>
    ensures answers { MatchResult result (λ done. HasRoomFor a_move (content_of instrs.old)
        × Changes a_step (content_of step.old) (content_of step.new) (λ s t. Holds a_move (content_of instrs.new)
        (HasPoppedMove standard s t)))
        (IsNotPoppedInto (content_of step.old) (content_of instrs.old)) }
    ensures kept { OnErr result (content_of step.new ≡ content_of step.old) }
    ensures held { OnErr result (content_of instrs.new ≡ content_of instrs.old) }
{
    if !has_room_for_move(instrs) {
        return Err(Code::Taken);
    }
    lend!(step: Step = step, Err(Code::Empty));
    pop_into(alloc, step, instrs)?;
    Ok(())
}
