//! A fire takes turns, and its calls.
ghost use Rattle.std.specs.Prelude.{◌≡◌, ◌+◌, ◌≤◌, ℕ, length, None};
ghost use Rattle.asm_storage.specs.Calls.{IsFireOver, MadeOffers, Ran};
ghost use Rattle.asm_storage.specs.Limits.{reads_limit};
ghost use Rattle.asm_storage.specs.Part.{agent_of, IsPartOf};

use crate::call::Reply;
use crate::error::FireError;
use crate::limits::{OFFERS_LIMIT, READS_LIMIT};
use crate::part::AgentPart;
use crate::part::offering::Asked;
use crate::storage::Storage;
use asm_element::Items;
use asm_state::{Named, Scanned};
use asm_update::{Aggregator, Instructions};
use std::alloc::Global;

impl AgentPart {
    /// Take turns until one answers, at most 64.
    ///
    /// The closure is called as often as there are attempts. The entry to append is made once.
    pub(crate) fn fire<A: Aggregator + Sync + Drop, F: FnMut()>(
        &mut self,
        alloc: Global,
        storage: &Storage<A>,
        asked: Asked,
        scans: &[Scanned],
        between: &mut F,
    ) -> Result<Reply, FireError>
        requires part { IsPartOf A.meaning storage.now self.old }
        requires few { length asked.reads + length scans.now ≤ reads_limit }
        requires fresh { asked.entry ≡ None }
        requires callable { F.IsAlwaysCallable between.old }
        ensures part { IsPartOf A.meaning storage.now self.new }
        ensures fire { IsFireOver A.meaning (agent_of storage.now self.old) (agent_of storage.now self.new)
            asked.reads scans.now asked.instrs result }
        ensures callable { F.IsAlwaysCallable between.new }
        ensures offers { (n : ℕ) ×
            MadeOffers (agent_of storage.now self.old) (agent_of storage.now self.new) result n ×
            Ran (λ f g. F.step f tt g) between.old n between.new }
    {
        let from = self.progress.seen_len();
        let mut pending = asked;
        for lost in 0..OFFERS_LIMIT {
            match self.turn(alloc, storage, &mut pending, scans, between)? {
                Some(reply) => return Ok(reply),
                None => {}
            }
        }
        Err(FireError::Busy {
            from,
            to: self.progress.seen_len(),
        })
    }

    /// Fire a move of the part's agent, as `Agent::try_fire_over_with` does.
    ///
    /// The part came from this storage. Its receipt has the list of the reads itself.
    ///
    /// # Errors
    ///
    /// - Those of `Agent::try_fire_over_with`.
    pub fn try_fire_owned<A: Aggregator + Sync + Drop, F: FnMut()>(
        &mut self,
        alloc: Global,
        storage: &Storage<A>,
        reads: Items<Named>,
        scans: &[Scanned],
        instrs: Instructions,
        between: &mut F,
    ) -> Result<Reply, FireError>
        requires part { IsPartOf A.meaning storage.now self.old }
        requires callable { F.IsAlwaysCallable between.old }
        ensures part { IsPartOf A.meaning storage.now self.new }
        ensures fire { IsFireOver A.meaning (agent_of storage.now self.old) (agent_of storage.now self.new)
            reads scans.now instrs result }
        ensures callable { F.IsAlwaysCallable between.new }
        ensures offers { (n : ℕ) ×
            MadeOffers (agent_of storage.now self.old) (agent_of storage.now self.new) result n ×
            Ran (λ f g. F.step f tt g) between.old n between.new }
    {
        let declared = reads.as_slice().len();
        if declared > READS_LIMIT || scans.len() > READS_LIMIT - declared {
            return Err(FireError::ManyReads);
        }
        self.fire(alloc, storage, Asked::new(reads, instrs), scans, between)
    }

    /// Fire a move of the part's agent, as `Agent::try_fire_over_with` does.
    ///
    /// The part came from this storage. Its receipt shares the list of the reads, which isn't copied.
    ///
    /// # Errors
    ///
    /// - Those of `Agent::try_fire_over_with`.
    pub fn try_fire_over<A: Aggregator + Sync + Drop, F: FnMut()>(
        &mut self,
        alloc: Global,
        storage: &Storage<A>,
        reads: &Items<Named>,
        scans: &[Scanned],
        instrs: &Instructions,
        between: &mut F,
    ) -> Result<Reply, FireError>
        requires part { IsPartOf A.meaning storage.now self.old }
        requires callable { F.IsAlwaysCallable between.old }
        ensures part { IsPartOf A.meaning storage.now self.new }
        ensures fire { IsFireOver A.meaning (agent_of storage.now self.old) (agent_of storage.now self.new)
            reads.now scans.now instrs.now result }
        ensures callable { F.IsAlwaysCallable between.new }
        ensures offers { (n : ℕ) ×
            MadeOffers (agent_of storage.now self.old) (agent_of storage.now self.new) result n ×
            Ran (λ f g. F.step f tt g) between.old n between.new }
    {
        let named = reads.as_slice().len();
        if named > READS_LIMIT || scans.len() > READS_LIMIT - named {
            return Err(FireError::ManyReads);
        }
        match Asked::sharing(reads, instrs) {
            Ok(asked) => self.fire(alloc, storage, asked, scans, between),
            Err(_) => {
                self.poll(storage);
                Err(FireError::Memory)
            }
        }
    }
}
