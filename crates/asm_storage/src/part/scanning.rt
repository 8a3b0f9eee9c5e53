ghost use Rattle.std.specs.Prelude.{◌≡◌, ◌≢◌, [], List, length, IfOk};
ghost use Rattle.asm_update.specs.Fire.{Part};
ghost use Rattle.asm_update.specs.Move.{Move};
ghost use Rattle.asm_update.specs.State as plain;
ghost use Rattle.asm_state.specs.FollowsFrom.{FollowsFrom};
ghost use Rattle.asm_storage.specs.Agents.{moves_seen};
ghost use Rattle.asm_storage.specs.Part.{IsPartOf};
ghost use Rattle.asm_storage.specs.Calls.{is_plain_over};
ghost use Rattle.asm_storage.specs.Scans.{IsFound, IsNamedOver};
ghost use Rattle.asm_storage.specs.Storage.{machine_of};

use crate::part::AgentPart;
use crate::part::judging::is_plain;
use crate::shared_lists::named_with;
use crate::storage::Storage;
use asm_element::Items;
use asm_state::{Named, Scanned, State};
use asm_update::{Aggregator, Instructions};
use std::alloc::{AllocError, Global};

// Whether a move depends on no read, no scan and no old value.
pub(crate) fn is_plain_over(reads: &[Named], scans: &[Scanned], instrs: &Instructions) -> bool
    ensures { result ≡ is_plain_over reads.now scans.now instrs.now }
{
    match scans.first() {
        Some(_) => false,
        None => is_plain(reads, instrs),
    }
}

// The first of the scans that a move has overtaken: the smallest location of its name that was written since, at
// the scan's number.
fn first_overtaken(
    alloc: Global,
    state: &State,
    scans: &[Scanned],
) -> Result<Option<Named>, AllocError>
    ensures { (part : Part) (init : plain.State) (q : List Move) →
        (scans.now ≢ [] → FollowsFrom part init state.now q) → IfOk result (IsFound part init q scans.now) }
{
    for scan in scans {
        let found = state.least_written_in(alloc, scan.name.as_str(), scan.number)?;
        match found {
            Some(at) => {
                return Ok(Some(Named {
                    at: at.copy(alloc)?,
                    number: scan.number,
                }));
            }
            None => {}
        }
    }
    Ok(None)
}

impl AgentPart {
    /// Return the reads that a fire declares.
    ///
    /// They are those that it was passed, and after them a location that was written since one of the scans, if there
    /// is one.
    pub(crate) fn named_over<A: Aggregator + Sync + Drop>(
        &self,
        alloc: Global,
        storage: &Storage<A>,
        reads: &Items<Named>,
        scans: &[Scanned],
    ) -> Result<Items<Named>, AllocError>
        requires part { IsPartOf A.meaning storage.now self.now }
        requires level { scans.now ≢ [] → self.now.state.number ≡ length self.now.progress.seen }
        ensures { IfOk result (IsNamedOver (machine_of A.meaning storage.now) (moves_seen self.now.progress.seen)
            reads.now scans.now) }
    {
        let found = first_overtaken(alloc, &self.state, scans)?;
        named_with(alloc, reads, found)
    }
}
