//! The audit of one part, event by event.
ghost use Rattle.std.specs.Prelude.{◌≡◌, ◌<◌, ◌≤◌, ◌↔◌, [], true, IsTrue, IfOk, IfErr, OnErr};
ghost use Rattle.asm_update.specs.Fire.{Part};
ghost use Rattle.asm_state.specs.FollowsFrom.{FollowsFrom};
ghost use Rattle.asm_audit.specs.PartAuditor.{HasHeader, BreaksHeaderOf, IsJudged, IsNotTaken};
ghost use Rattle.asm_audit.specs.Step.{HasValues, IsNextTest};

use crate::error::{AuditError, part_fault};
use asm_journal::{Header, Limits, judge_event, read_event, read_header};
use asm_state::State;
use asm_storage::Event;
use asm_update::{Aggregator, PlainState};
use std::alloc::{AllocError, Global};

/// Read the header of the part with this number, from its line.
///
/// # Errors
/// - `AuditError::Journal`: the line is no header.
/// - `Memory` only if memory is refused.
pub fn read_part_header(alloc: Global, number: u64, line: &[u8]) -> Result<Header, AuditError>
    ensures ok { IfOk result (HasHeader line.now) }
    ensures err { IfErr result (BreaksHeaderOf number line.now) }
{
    match read_header(alloc, line) {
        Ok((header, _)) => Ok(header),
        Err(fault) => Err(part_fault(number, fault)),
    }
}

/// An auditor of one part, which judges each answered call as its line comes.
/// It holds the state that the moves so far leave, but no call.
#[derive(Drop)]
pub struct PartAuditor {
    /// The number of the part, counted from 0.
    pub number: u64,
    /// The numbers in its header.
    pub limits: Limits,
    /// How many of its events were taken.
    pub taken: u32,
    /// The state that the moves of these leave.
    pub state: State,
}

impl PartAuditor {
    /// Return an auditor of the part with this number and header, which has taken no event.
    ///
    /// # Errors
    /// - `AllocError` only if memory is refused.
    pub fn new(alloc: Global, number: u64, header: Header) -> Result<PartAuditor, AllocError>
        ensures number { IfOk result (λ o. o.number ≡ number) }
        ensures limits { IfOk result (λ o. o.limits ≡ header.limits) }
        ensures taken { IfOk result (λ o. o.taken ≡ 0) }
        ensures stands { IfOk result (λ o. (part : Part) → FollowsFrom part header.init o.state []) }
    {
        let state = State::new(alloc, header.init)?;
        Ok(PartAuditor {
            number,
            limits: header.limits,
            taken: 0,
            state,
        })
    }

    /// Return whether all events of the part were taken.
    pub fn is_complete(&self) -> bool
        ensures { IsTrue result ↔ (self.now.limits.events ≤ self.now.taken) }
    {
        self.limits.events <= self.taken
    }

    /// Return the state that the moves of the taken events leave.
    /// It costs a copy of each value.
    ///
    /// # Errors
    /// - `AllocError` only if memory is refused.
    pub fn plain_state(&self, alloc: Global) -> Result<PlainState, AllocError>
        ensures { IfOk result (HasValues self.now.state) }
    {
        let state = self.state.to_plain(alloc)?;
        state.proper();
        Ok(state)
    }

    // Return whether the header opens with the state that this part leaves.
    pub(crate) fn leads_to(&self, alloc: Global, header: &Header) -> Result<bool, AllocError>
        ensures { IfOk result (IsNextTest self.now.state header.now.init) }
    {
        Ok(self.plain_state(alloc)? == header.init)
    }

    /// Take the next event from its line, and return it.
    /// Its answer is right, and the state follows its move. On error, nothing changes.
    ///
    /// # Errors
    /// - `AuditError::Journal`: the line is no event.
    /// - `Illegal`: its answer isn't the one that a sequential storage gives.
    /// - `Memory` only if memory is refused.
    pub fn take<A: Aggregator>(
        &mut self,
        alloc: Global,
        aggregator: &A,
        line: &[u8],
    ) -> Result<Event, AuditError>
        requires { self.old.taken < self.old.limits.events }
        ensures ok { IfOk result (λ e. IsJudged (A.meaning aggregator.now).part line.now e self.old self.new true) }
        ensures err { IfErr result (IsNotTaken (A.meaning aggregator.now).part line.now self.old) }
        ensures unchanged { OnErr result (self.new ≡ self.old) }
    {
        // Proof: the range of this number shows that one more event can be counted.
        let _events = self.limits.events;
        let place = u64::from(self.taken) + 2;
        let (event, _) = match read_event(alloc, line, place, self.limits) {
            Ok(read) => read,
            Err(fault) => return Err(part_fault(self.number, fault)),
        };
        if !judge_event(
            alloc,
            aggregator,
            &mut self.state,
            self.limits.capacity,
            &event,
        )? {
            return Err(AuditError::Illegal {
                part: self.number,
                call: u64::from(self.taken),
            });
        }
        self.taken += 1;
        Ok(event)
    }
}
