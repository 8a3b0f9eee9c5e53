ghost use Rattle.std.specs.Prelude.{◌≡◌, List, IfOk, Some, None, true, false, if◌then◌else◌};
ghost use Rattle.asm_update.specs.Fire.{Part};
ghost use Rattle.asm_element.specs.Place.{Place};
ghost use Rattle.asm_update.specs.Move.{Move, has_two};
ghost use Rattle.asm_update.specs.State as plain;
ghost use Rattle.asm_state.specs.FollowsFrom.{FollowsFrom};
ghost use Rattle.asm_storage.specs.declared.call.Reply.TheVariants as reply;
ghost use Rattle.std.specs.Bool.{OnTrue};
ghost use Rattle.asm_storage.specs.Part.{AreAgreed, IsReplyAt};
ghost use Rattle.asm_storage.specs.Calls.{is_plain};

use crate::call::Reply;
use asm_aggregate::only_put;
use asm_state::{Named, Objection, State};
use asm_update::{Aggregator, Cause, Clash, Instructions, consistent};
use std::alloc::{AllocError, Global};

// The most instructions of a move that is judged without a state.
const MOST_PLAIN: usize = 16;

// The answer to a move that is neither stale nor a clash.
fn full_or_none(is_full: bool) -> Option<Reply>
    ensures { result ≡ if is_full then Some reply.Full else None }
{
    if is_full { Some(Reply::Full) } else { None }
}

// What a state answers, on a row that is full or not.
pub(crate) fn judged<A: Aggregator>(
    alloc: Global,
    aggregator: &A,
    state: &State,
    is_full: bool,
    reads: &[Named],
    instrs: &Instructions,
) -> Result<Option<Reply>, AllocError>
    ensures { (init : plain.State) (q : List Move) → FollowsFrom (A.meaning aggregator.now).part init state.now q →
        IfOk result (IsReplyAt (A.meaning aggregator.now).part init q is_full reads.now instrs.now) }
{
    match state.objection(alloc, aggregator, reads, instrs)? {
        Some(Objection::Stale(at)) => Ok(Some(Reply::Stale(at))),
        Some(Objection::Clash(clash)) => Ok(Some(Reply::Clash(clash))),
        None => Ok(full_or_none(is_full)),
    }
}

// Whether a move depends on no read and no old value, so that it is judged alike on every state. A wide one is
// judged on a state all the same, which costs less than `consistent` does.
pub(crate) fn is_plain(reads: &[Named], instrs: &Instructions) -> bool
    ensures { result ≡ is_plain reads.now instrs.now }
{
    match reads.first() {
        Some(_) => false,
        None => instrs.len() <= MOST_PLAIN && instrs.all_regular(),
    }
}

// Whether no location is given two values.
fn agree(instrs: &Instructions) -> bool
    ensures { OnTrue result ((l : Place) → has_two instrs.now l ≡ false) }
{
    consistent(instrs).is_none()
}

// Whether a move has puts alone, which agree, so that it fires on every state. A wide one isn't tested.
pub(crate) fn are_agreed(instrs: &Instructions) -> bool
    ensures { OnTrue result (AreAgreed instrs.now) }
{
    if only_put(instrs).is_some() {
        return true;
    }
    if instrs.len() > MOST_PLAIN || !instrs.all_regular() {
        return false;
    }
    agree(instrs)
}

// What is answered to a move that depends on no read and no old value, on a row that is full or not; no state is asked.
pub(crate) fn judged_plain(
    alloc: Global,
    is_full: bool,
    reads: &[Named],
    instrs: &Instructions,
) -> Result<Option<Reply>, AllocError>
    requires { is_plain reads.now instrs.now ≡ true }
    ensures { (part : Part) (init : plain.State) (q : List Move) →
        IfOk result (IsReplyAt part init q is_full reads.now instrs.now) }
{
    match consistent(instrs) {
        Some(at) => Ok(Some(Reply::Clash(Clash {
            at: at.copy(alloc)?,
            cause: Cause::Two,
        }))),
        None => Ok(full_or_none(is_full)),
    }
}
