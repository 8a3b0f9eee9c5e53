ghost use Rattle.std.specs.Prelude.{◌≡◌, ◌+◌, ◌<◌, ◌++◌, ◌∷◌, [], List, false, nat_le, nat_lt};
ghost use Rattle.std.specs.List.{list_all};
ghost use Rattle.std.specs.Prelude.{Some, IfOk, IfSome, OnOk, OnErr};
ghost use Rattle.std.specs.Arc.{arc_value};
ghost use Rattle.std.specs.FinMap as map;
ghost use Rattle.std.specs.Option.{option_copied};
ghost use Rattle.asm_element.specs.Place.{Place};
ghost use Rattle.asm_update.specs.Fire.{Part};
ghost use Rattle.asm_update.specs.Move.{Move};
ghost use Rattle.asm_update.specs.State as plain;
ghost use Rattle.asm_aggregate.specs.OnlyPut.{only_put};
ghost use Rattle.asm_state.specs.Change.{IsOneChange};
ghost use Rattle.asm_state.specs.View.{value_at, writer_at, holds_undef};
ghost use Rattle.asm_state.specs.Follow.{entry_after, IsFollowed};
ghost use Rattle.asm_state.specs.LeastNamed.{IsLeastNamed, stale_location};
ghost use Rattle.asm_state.specs.Limits.{followed_limit};
ghost use Rattle.asm_state.specs.Scans.{is_rewritten, IsLeastOf};
ghost use Rattle.asm_state.specs.FollowsFrom.{FollowsFrom, IsLastWriter, is_stale};
ghost use Rattle.asm_state.specs.Verdict.{IsObjection, IsVerdict, least_named, least_stale};

use crate::entries::{Entries, WrittenValue};
use crate::in_place::one_change;
use crate::named::Named;
use crate::verdict::{Objection, Verdict};
use asm_aggregate::{Results, admit, aggregate, only_put, results};
use asm_element::{Location, Value};
use asm_update::{AggError, Aggregator, Group, Instructions, Lookup, PlainState, ResultError};
use std::alloc::{AllocError, Global};
use std::marker::Model;
use std::sync::Arc;

/// A state that follows moves.
///
/// It has a number, which counts the moves that it has followed, a value for each location, and for each location
/// the number of the move that wrote it last.
///
/// A location that was written undef keeps the number of its writer. The first move has the number 1. Source: a
/// state after the moves of a run, by Börger and Stärk; the numbers of the writers are of this project's profile.
#[derive(Debug, Drop)]
pub struct State {
    number: u32,
    // The opening state, which copies share; the entries have what a move wrote.
    pub(crate) base: Arc<PlainState>,
    pub(crate) entries: Entries,
}

impl Model for State {
    ghost use Rattle.std.specs.FinMap as map;
    ghost use Rattle.std.specs.Arc.{arc_value};
    ghost use Rattle.asm_element.specs.contracts.location.Location.{the_row as location_row};
    ghost use Rattle.asm_update.specs.contracts.plain_state.PlainState.{the_row as base_row};
    ghost use Rattle.asm_state.specs.contracts.entries.WrittenValue.{the_row as written_row};
    ghost use Rattle.asm_state.specs.View.{StateView, view_code, AreSettled};

    ghost Value = { StateView };

    ghost coded = { view_code base_row.coded (map.code location_row.coded written_row.coded) };

    ghost view = { λ s. record { number = s.number; base = arc_value s.base; entries = s.entries } };

    ghost invariant = { λ s. AreSettled s.entries };
}

impl Lookup for State {
    ghost value_at = { value_at };

    fn get(&self, at: &Location) -> Option<&Value> {
        match self.entry(at) {
            Some(written) => written.value.as_ref(),
            None => self.base.get(at),
        }
    }
}

// Whether all were read at this number or a later one.
fn are_read_from(number: u32, reads: &[Named]) -> bool
    ensures { result ≡ list_all (λ r. nat_le number r.number) reads.now }
{
    reads.iter().all(|named| number <= named.number)
}

impl State {
    /// Return the opening state, at number 0, in which no location was written.
    ///
    /// The values move in, and its time doesn't grow with them.
    ///
    /// # Errors
    ///
    /// - `AllocError` only if memory is refused.
    pub fn new(alloc: Global, init: PlainState) -> Result<State, AllocError>
        ensures { IfOk result (λ s. (part : Part) → FollowsFrom part init s []) }
    {
        let base = Arc::new(alloc, init)?;
        Ok(State::over(alloc, base))
    }

    /// Return the same opening state over values that other states share.
    ///
    /// It takes no memory. A move that such a state follows changes nothing for the others.
    pub fn over(alloc: Global, base: Arc<PlainState>) -> State
        ensures { (part : Part) → FollowsFrom part (arc_value base) result [] }
    {
        State {
            number: 0,
            base,
            entries: Entries::new(alloc),
        }
    }

    /// Return how many moves it has followed, those that clashed included.
    pub fn number(&self) -> u32
        ensures { result ≡ self.now.number }
    {
        self.number
    }

    fn entry(&self, at: &Location) -> Option<&WrittenValue>
        ensures value { option_copied result ≡ map.get self.now.entries at.now }
        ensures held { IfSome result (λ w. holds_undef w.now ≡ false) }
    {
        self.entries.get(at)
    }

    /// Return the number of the move that wrote the location last; 0 if none did.
    ///
    /// A write counts also with the same value and with undef. A read of the location is stale exactly if its number is
    /// below this one.
    pub fn written_at(&self, at: &Location) -> u32
        ensures writer { result ≡ writer_at self.now at.now }
        ensures last { (part : Part) (init : plain.State) (q : List Move) → FollowsFrom part init self.now q →
            IsLastWriter part init q at.now result }
    {
        match self.entry(at) {
            Some(written) => written.writer,
            None => 0,
        }
    }

    /// Return the smallest location with this name that a move above the number wrote.
    ///
    /// A write counts also with the same value and with undef. `None` is the answer if no move did. It walks what moves
    /// wrote of that name, up to that location.
    ///
    /// # Errors
    ///
    /// - `AllocError` only if memory is refused.
    pub fn least_written_in(
        &self,
        alloc: Global,
        name: &str,
        number: u32,
    ) -> Result<Option<&Location>, AllocError>
        ensures { (part : Part) (init : plain.State) (q : List Move) → FollowsFrom part init self.now q →
            IfOk result (λ found. IsLeastOf (is_rewritten part init q name.now number) (option_copied found)) }
    {
        self.entries.least_written(alloc, name, number)
    }

    // Whether a move after the read wrote the location.
    fn is_written_since(&self, named: &Named) -> bool
        ensures { result ≡ nat_lt named.now.number (writer_at self.now named.now.at) }
    {
        named.number < self.written_at(&named.at)
    }

    // The smallest location that was written since it was read.
    fn least_stale<'a>(&self, reads: &'a [Named]) -> Option<&'a Location>
        ensures { option_copied result ≡ least_named (λ l n. nat_lt n (writer_at self.now l)) reads.now }
    {
        let mut best: Option<&'a Location> = None;
        for named in reads {
            if self.is_written_since(named) && named.at.comes_before(best) {
                best = Some(&named.at);
            }
        }
        best
    }

    // The smallest location that was written since it was read; it looks up none where the reads are as new as the state.
    fn least_overtaken<'a>(&self, reads: &'a [Named]) -> Option<&'a Location>
        ensures { (part : Part) (init : plain.State) (q : List Move) → FollowsFrom part init self.now q →
            option_copied result ≡ least_stale part init q reads.now }
    {
        if are_read_from(self.number(), reads) {
            return None;
        }
        self.least_stale(reads)
    }

    /// Validate a move: return whether it is stale, clashes, or is ready to fire.
    ///
    /// It is stale at the smallest declared location that is stale; else it has its clash, or else its update set. The
    /// reads are walked once, and then the instructions are aggregated once.
    ///
    /// # Errors
    ///
    /// - `AllocError` only if memory is refused.
    pub fn judge<A: Aggregator>(
        &self,
        alloc: Global,
        aggregator: &A,
        reads: &[Named],
        instructions: &Instructions,
    ) -> Result<Verdict, AllocError>
        ensures verdict { (init : plain.State) (q : List Move) →
            FollowsFrom (A.meaning aggregator.now).part init self.now q →
            IsVerdict (A.meaning aggregator.now).part init q reads.now instructions.now result }
        ensures least { (init : plain.State) (q : List Move) →
            FollowsFrom (A.meaning aggregator.now).part init self.now q →
            IfOk result (λ verdict. IsLeastNamed (is_stale (A.meaning aggregator.now).part init q) reads.now
            (stale_location verdict)) }
    {
        match self.least_overtaken(reads) {
            Some(at) => return Ok(Verdict::Stale(at.copy(alloc)?)),
            None => {}
        }
        match aggregate(alloc, aggregator, self, instructions) {
            Ok(updates) => Ok(Verdict::Ready(updates)),
            Err(AggError::Clash(clash)) => Ok(Verdict::Clash(clash)),
            Err(AggError::Memory) => Err(AllocError),
        }
    }

    /// Return why a move doesn't fire; None if it fires.
    ///
    /// It is the smallest declared location that is stale, or else the move's clash. It answers as `judge` does, and
    /// makes no update set.
    ///
    /// # Errors
    ///
    /// - `AllocError` only if memory is refused.
    pub fn objection<A: Aggregator>(
        &self,
        alloc: Global,
        aggregator: &A,
        reads: &[Named],
        instructions: &Instructions,
    ) -> Result<Option<Objection>, AllocError>
        ensures { (init : plain.State) (q : List Move) → FollowsFrom (A.meaning aggregator.now).part init self.now q →
            IsObjection (A.meaning aggregator.now).part init q reads.now instructions.now result }
    {
        match self.least_overtaken(reads) {
            Some(at) => return Ok(Some(Objection::Stale(at.copy(alloc)?))),
            None => {}
        }
        match admit(alloc, aggregator, self, instructions) {
            Ok(()) => Ok(None),
            Err(AggError::Clash(clash)) => Ok(Some(Objection::Clash(clash))),
            Err(AggError::Memory) => Err(AllocError),
        }
    }

    /// Follow a move: the number grows by one, and the move fires if it doesn't clash.
    ///
    /// If it clashes, no location changes. The state must have followed fewer than 4,294,967,295 moves. It costs a
    /// look-up for each location that the move writes, independent of the size of the state.
    ///
    /// # Errors
    ///
    /// - `AllocError` only if memory is refused.
    ///
    /// On error, the state is unchanged.
    pub fn follow<A: Aggregator>(
        &mut self,
        alloc: Global,
        aggregator: &A,
        instructions: &Instructions,
    ) -> Result<(), AllocError>
        requires { self.old.number < followed_limit }
        ensures ok { OnOk result ((init : plain.State) (q : List Move) →
            FollowsFrom (A.meaning aggregator.now).part init self.old q →
            FollowsFrom (A.meaning aggregator.now).part init self.new (q ++ instructions.now ∷ [])) }
        ensures followed { OnOk result (
            IsFollowed (A.meaning aggregator.now).part self.old instructions.now self.new) }
        ensures number { OnOk result (self.new.number ≡ self.old.number + 1) }
        ensures err { OnErr result (self.new ≡ self.old) }
    {
        match only_put(instructions) {
            Some((at, value)) => self.follow_put(alloc, at, value),
            None => self.follow_rest(alloc, aggregator, instructions),
        }
    }

    // Follows a move that isn't one put.
    fn follow_rest<A: Aggregator>(
        &mut self,
        alloc: Global,
        aggregator: &A,
        instructions: &Instructions,
    ) -> Result<(), AllocError>
        requires { self.old.number < followed_limit }
        ensures followed { OnOk result (
            IsFollowed (A.meaning aggregator.now).part self.old instructions.now self.new) }
        ensures err { OnErr result (self.new ≡ self.old) }
    {
        match one_change(alloc, instructions)? {
            Some((at, group)) => self.follow_at(alloc, aggregator, at, &group),
            None => self.follow_all(alloc, aggregator, instructions),
        }
    }

    // Follows a move that puts the value at the location.
    fn follow_put(&mut self, alloc: Global, at: &Location, value: &Value) -> Result<(), AllocError>
        requires { self.old.number < followed_limit }
        ensures followed { OnOk result ((part : Part) (M : Move) → only_put M ≡ Some (at.now, value.now) →
            IsFollowed part self.old M self.new) }
        ensures err { OnErr result (self.new ≡ self.old) }
    {
        let number = self.number + 1;
        self.entries.put_value(alloc, at, number, value)?;
        self.number = number;
        Ok(())
    }

    // Follows a move that changes one location alone, by its group there.
    fn follow_at<A: Aggregator>(
        &mut self,
        alloc: Global,
        aggregator: &A,
        at: &Location,
        group: &Group,
    ) -> Result<(), AllocError>
        requires { self.old.number < followed_limit }
        ensures followed { OnOk result ((M : Move) → IsOneChange M at.now group.now →
            IsFollowed (A.meaning aggregator.now).part self.old M self.new) }
        ensures err { OnErr result (self.new ≡ self.old) }
    {
        let number = self.number + 1;
        match self
            .entries
            .change_at(alloc, aggregator, &self.base, at, number, group)
        {
            Ok(()) => {
                self.number = number;
                Ok(())
            }
            Err(ResultError::Cause(_)) => {
                self.count(number);
                Ok(())
            }
            Err(ResultError::Memory) => Err(AllocError),
        }
    }

    // Follows a move by its results.
    fn follow_all<A: Aggregator>(
        &mut self,
        alloc: Global,
        aggregator: &A,
        instructions: &Instructions,
    ) -> Result<(), AllocError>
        requires { self.old.number < followed_limit }
        ensures followed { OnOk result (
            IsFollowed (A.meaning aggregator.now).part self.old instructions.now self.new) }
        ensures err { OnErr result (self.new ≡ self.old) }
    {
        let number = self.number + 1;
        match results(alloc, aggregator, self, instructions) {
            Ok(results) => {
                self.write_all(alloc, results, number)?;
                Ok(())
            }
            Err(AggError::Clash(_)) => {
                self.count(number);
                Ok(())
            }
            Err(AggError::Memory) => Err(AllocError),
        }
    }

    // Counts a move that changed nothing.
    fn count(&mut self, number: u32)
        ensures { self.new ≡ record self.old { number = number } }
    {
        self.number = number;
    }

    // Gives each location of the results its value, and this number.
    fn write_all(
        &mut self,
        alloc: Global,
        results: Results<'_>,
        number: u32,
    ) -> Result<(), AllocError>
        requires { 0 < number }
        ensures number { OnOk result (self.new.number ≡ number) }
        ensures base { OnOk result (self.new.base ≡ self.old.base) }
        ensures written { OnOk result ((l : Place) → map.get self.new.entries l ≡
            entry_after number (map.get results.entry l) (map.get self.old.entries l)) }
        ensures err { OnErr result (self.new ≡ self.old) }
    {
        self.entries.write(alloc, number, results)?;
        self.number = number;
        Ok(())
    }

    /// Return the same state, which has followed the same moves.
    ///
    /// Both share the opening state; what moves wrote is copied.
    ///
    /// # Errors
    ///
    /// - `AllocError` only if memory is refused.
    pub fn copy(&self, alloc: Global) -> Result<State, AllocError>
        ensures { IfOk result (λ copy. copy ≡ self.now) }
    {
        let entries = self.entries.copy(alloc)?;
        let base = Arc::try_clone(&self.base)?;
        let number = self.number;
        Ok(State {
            number,
            base,
            entries,
        })
    }
}
