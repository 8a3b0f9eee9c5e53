ghost use Rattle.std.specs.Prelude.{◌≡◌, ℕ, ◌<◌, ◌||◌, true, false, length, slice_index_or, IfOk, MatchOption};
ghost use Rattle.std.specs.List.{list_any};
ghost use Rattle.asm_storage.specs.Agents.{is_move_at, has_receipt, IsLeastMissing};
ghost use Rattle.asm_storage.specs.Storage.{accounts};

use crate::agent::Agent;
use crate::receipt::Receipt;
use asm_update::Aggregator;
use std::alloc::{AllocError, Global};

// Notes the moves that the receipts fired.
fn mark_fired_moves(reported: &mut [bool], receipts: &[Receipt])
    ensures { (k : ℕ) → k < length reported.old → slice_index_or reported.new k false ≡
        (slice_index_or reported.old k false || list_any (is_move_at k) receipts.now) }
{
    for receipt in receipts {
        let at = receipt.stood as usize;
        if receipt.is_fired() && at < reported.len() {
            reported[at] = true;
        }
    }
}

/// Return the smallest of the first `moves` moves of which no agent has a receipt.
///
/// Moves are counted from 0.
pub(crate) fn first_missing<A: Aggregator + Sync + Drop>(
    alloc: Global,
    agents: &[Agent<'_, A>],
    moves: u32,
) -> Result<Option<u32>, AllocError>
    ensures { IfOk result (λ o. MatchOption o
        ((k : ℕ) → k < moves → has_receipt (accounts agents.now) k ≡ true)
        (IsLeastMissing (accounts agents.now) moves)) }
{
    let mut reported = vec![in alloc; false; moves as usize]?;
    for agent in agents {
        mark_fired_moves(&mut reported, agent.receipts());
    }
    for (k, is_reported) in reported.iter().enumerate() {
        if !*is_reported {
            return Ok(Some(k as u32));
        }
    }
    Ok(None)
}
