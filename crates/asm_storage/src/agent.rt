ghost use Rattle.std.specs.Prelude.{filter, ◌≡◌, ◌↔◌, ◌<◌, ◌≤◌, ℕ, length, max, IfOk, IfErr, OnOk, OnErr, IsOk, IsErrOf};
ghost use mathlib.Core.List.{IsPrefix};
ghost use Rattle.asm_storage.specs.declared.error.ReadError.TheVariants.{ManyLocations};
ghost use Rattle.asm_storage.specs.Agents.{IsAgent, is_fired};
ghost use Rattle.asm_storage.specs.Calls.{HasPolledFor, IsFire, IsFireOver, IsPeek, IsRead, IsStaleRead, MadeOffers, Ran};
ghost use Rattle.asm_storage.specs.Limits.{agents_limit, reads_limit};
ghost use Rattle.asm_storage.specs.NamedRead.{IsNamedRead};
ghost use Rattle.asm_storage.specs.Part.{agent_of, IsFollowing, IsPartOf};
ghost use Rattle.asm_storage.specs.Storage.{machine_of, has_seen, has_polled, last_poll};
ghost use Rattle.asm_storage.specs.Storage.{FollowsOn, IsUpToDate, IsSameAgent, Missed};
ghost use Rattle.asm_storage.specs.Taken.{HasTaken};

use crate::call::Reply;
use crate::entry::Entry;
use crate::error::{FireError, ReadError};
use crate::limits::READS_LIMIT;
use crate::part::AgentPart;
use crate::part::offering::Asked;
use crate::reading::{NamedReading, Reading};
use crate::receipt::Receipt;
use crate::storage::Storage;
use asm_element::{Items, Location};
use asm_state::{Named, Scanned, State};
use asm_update::{Aggregator, Instructions};
use std::alloc::{AllocError, Global};
use std::marker::Model;

/// What one agent had seen when the mark was made, for the storage's other agents.
pub type Mark = asm_row::Mark<Entry>;

/// An agent of a storage: one thread's session, which reads and fires moves.
///
/// It follows the row of moves with a state of its own, and records a receipt of each of its answered calls. Contracts
/// see its storage, its number, the entries of the row that it has seen, how many of its attempts to append won, how
/// many of its polls found an empty cell, the version of its own state, and its receipts. Each answer is the one that a
/// sequential storage gives after the moves that the agent has then seen. It may be moved into any thread. No call
/// waits, and each returns (`try_fire_with` if its closure does): it follows at most as many entries as the capacity.
#[derive(Drop)]
pub struct Agent<'s, A: Aggregator + Sync + Drop> {
    storage: &'s Storage<A>,
    part: AgentPart,
}

impl<'s, A: Aggregator + Sync + Drop> Model for Agent<'s, A> {
    ghost use Rattle.asm_update.specs.contracts.plain_state.PlainState.{the_row as state_row};
    ghost use Rattle.asm_storage.specs.contracts.entry.Entry.{the_row as entry_row};
    ghost use Rattle.asm_storage.specs.contracts.receipt.Receipt.{the_row as receipt_row};
    ghost use Rattle.asm_storage.specs.Agents.{account_code};
    ghost use Rattle.asm_storage.specs.Part.{agent_of, IsPartOf};
    ghost use Rattle.asm_storage.specs.Storage.{AgentAt, storage_code, agent_code};

    ghost Value = { AgentAt A };

    ghost coded = { agent_code (storage_code A.code state_row.coded) (account_code entry_row.coded receipt_row.coded) };

    ghost view = { λ a. agent_of a.storage.now a.part };

    ghost invariant = { λ a. IsPartOf A.meaning a.storage.now a.part };
}

impl<'s, A: Aggregator + Sync + Drop> Agent<'s, A> {
    /// Return the agent with this part, at its storage.
    /// It is for an owner of a share of the storage, who can't hold the agent, as that borrows it.
    pub fn of(storage: &'s Storage<A>, part: AgentPart) -> Agent<'s, A>
        requires { IsPartOf A.meaning storage.now part }
        ensures { result ≡ agent_of storage.now part }
    {
        Agent { storage, part }
    }

    /// Return the agent's part, which borrows nothing.
    /// `of` makes the agent of it again.
    pub fn into_part(self) -> AgentPart
        ensures agent { self.entry ≡ agent_of self.entry.storage result }
        ensures part { IsPartOf A.meaning self.entry.storage result }
    {
        let Agent { storage: _, part } = self;
        part
    }

    /// Return its number among the agents of one call of `Storage::agents`, below 256.
    pub fn id(&self) -> u32
        ensures id { result ≡ self.now.account.id }
        ensures few { result < agents_limit }
    {
        self.part.id
    }

    /// Return how many moves it has seen.
    pub fn seen(&self) -> u32
        ensures { result ≡ length self.now.account.seen }
    {
        self.part.progress.seen_len()
    }

    /// Return how many of its attempts to append won: as many as its fired moves.
    pub fn won(&self) -> u32
        ensures value { result ≡ self.now.account.won }
        ensures counted { self.now.account.won ≡ length (filter is_fired self.now.account.receipts) }
    {
        self.part.progress.won()
    }

    /// Return how many of its polls found an empty cell.
    /// The counter saturates at 18,446,744,073,709,551,615.
    pub fn misses(&self) -> u64
        ensures { result ≡ self.now.misses }
    {
        self.part.progress.misses()
    }

    /// Return the receipts of its answered calls, in order.
    pub fn receipts(&self) -> &[Receipt]
        ensures { result.now ≡ self.now.account.receipts }
    {
        self.part.receipts.as_slice()
    }

    /// Return a mark of what it has seen, which another agent of the storage can learn.
    /// It always returns `Ok`: a mark takes no memory of its own.
    pub fn mark(&self, alloc: Global) -> Result<Mark, AllocError>
        ensures made { IsOk result }
        ensures holds { IfOk result (λ m. m ≡ record { row = self.now.storage.row; seen = self.now.account.seen }) }
        ensures agent { IsAgent (machine_of A.meaning self.now.storage) self.now.account }
    {
        self.part.progress.mark(alloc)
    }

    /// Take in what a mark of the same storage holds, without polling the row.
    /// Afterwards it has seen what the mark holds or what it had seen before, whichever is longer; the other is its
    /// beginning. Its receipts, wins and misses are unchanged. It always returns `Ok`: the agent's state follows what
    /// was learnt at the start of the next call.
    pub fn learn(&mut self, _alloc: Global, mark: &Mark) -> Result<(), AllocError>
        requires { mark.now.row ≡ self.old.storage.row }
        ensures kept { self.new ≡ has_seen self.old self.new.account.seen }
        ensures mine { IsPrefix self.old.account.seen self.new.account.seen }
        ensures theirs { IsPrefix mark.now.seen self.new.account.seen }
        ensures longest { length self.new.account.seen ≡ max (length self.old.account.seen) (length mark.now.seen) }
        ensures made { IsOk result }
    {
        let storage = self.storage;
        self.part.learn(storage, mark);
        Ok(())
    }

    /// Learn what another agent of the storage has seen, and take its newer state.
    /// If the other's state is ahead, the two exchange their states. So agents that one thread plays by turns share the
    /// work of following: the one that is about to act takes the state of the one that acted last, which retains an
    /// older one and catches up if it is used again. Receipts, wins and misses of both are unchanged, and so is what
    /// the other has seen. It polls nothing and takes no memory.
    pub fn take_state(&mut self, other: &mut Agent<'_, A>)
        requires { other.old.storage ≡ self.old.storage }
        ensures { HasTaken self.old other.old self.new other.new }
    {
        let storage = self.storage;
        self.part.take_state(storage, &mut other.part);
    }

    /// Poll the row until no move is left, and follow; return how many moves were seen.
    /// It adds no receipt. Until the next call that polls, `state` and `peek` are at this version.
    ///
    /// # Errors
    /// - `AllocError` only if memory is refused; it may then have seen more, and its state may lag behind.
    pub fn follow(&mut self, alloc: Global) -> Result<u32, AllocError>
        ensures same { IsSameAgent self.old self.new }
        ensures number { IfOk result (λ n. n ≡ length self.new.account.seen) }
        ensures stands { IfOk result (λ n. n ≡ self.new.number) }
        ensures follows { FollowsOn self.old self.new }
        ensures polled { Missed self.old (last_poll self.new) self.new }
        ensures seen { IsPrefix self.old.account.seen self.new.account.seen }
        ensures kept { self.new ≡ has_polled self.old self.new.account.seen self.new.misses self.new.number }
    {
        let storage = self.storage;
        self.part.follow(alloc, storage)
    }

    /// Return its own state: that after the first moves that it has seen.
    /// They are as many as the state's number says. The call doesn't poll and adds no receipt: all that is looked up in
    /// the state is at one version, and a fire that depends on a value declares its location with that number. The
    /// state has followed all that was seen after a `follow`, a `read` or a `stands`, and after a fire that fired
    /// nothing. It lags behind after a won attempt, which it hasn't followed yet, after a `learn` and after refused
    /// memory. A fire that declares no read and no scan and puts at most 16 values, without partial updates, is judged
    /// without the state and doesn't advance it.
    pub fn state(&self) -> &State
        ensures following { IsFollowing (machine_of A.meaning self.now.storage) self.now.account.seen result.now }
        ensures number { result.now.number ≡ self.now.number }
    {
        &self.part.state
    }

    /// Return the values of the locations in its own state, with that state's version.
    /// It doesn't poll and adds no receipt.
    ///
    /// # Errors
    /// - `AllocError` only if memory is refused.
    pub fn peek(&self, alloc: Global, places: &[Location]) -> Result<Reading, AllocError>
        ensures { IfOk result (IsPeek A.meaning self.now places.now) }
    {
        let storage = self.storage;
        self.part.peek(alloc, storage, places)
    }

    /// Validate reads: return the smallest location that was written since its read.
    /// `None` means that no move has written one of the at most 256 locations. It polls the row until no move is left,
    /// has its state follow what it found, and adds no receipt. A fire that declares the same reads may still be
    /// refused as stale, by a move that comes in between.
    ///
    /// # Errors
    /// - `ReadError::ManyLocations` exactly for more reads, before anything else.
    /// - `Memory` only if memory is refused, and it may then have seen more.
    pub fn stands(&mut self, alloc: Global, named: &[Named]) -> Result<Option<Location>, ReadError>
        ensures same { IsSameAgent self.old self.new }
        ensures stale { IfOk result (IsStaleRead A.meaning self.new named.now) }
        ensures polled { IfOk result (λ found. Missed self.old (last_poll self.new) self.new) }
        ensures seen { IsPrefix self.old.account.seen self.new.account.seen }
        ensures kept { self.new ≡ has_polled self.old self.new.account.seen self.new.misses self.new.number }
        ensures level { OnOk result (IsUpToDate self.new) }
        ensures follows { FollowsOn self.old self.new }
        ensures unread { IfErr result (HasPolledFor self.old self.new) }
        ensures many { IsErrOf result ManyLocations ↔ (reads_limit < length named.now) }
    {
        let storage = self.storage;
        if named.len() > READS_LIMIT {
            return Err(ReadError::ManyLocations);
        }
        self.part.follow_row(alloc, storage)?;
        let stale = self.part.stale_read(alloc, storage, named)?;
        Ok(stale)
    }

    /// Read at most 256 locations: their values, in the order of the call.
    /// The answer also has the number of moves at which they were read. The call polls the row until no move is left,
    /// has its state follow what it found, and adds a receipt, but none on error. Contracts don't cover the cells of
    /// the row: that a read adds no move there is tested.
    ///
    /// # Errors
    /// - `ReadError::ManyLocations` exactly for more locations, before anything else.
    /// - `Memory` only if memory is refused; it may then have seen more.
    pub fn read(&mut self, alloc: Global, places: &[Location]) -> Result<Reading, ReadError>
        ensures same { IsSameAgent self.old self.new }
        ensures answered { IfOk result (IsRead A.meaning self.old self.new places.now) }
        ensures polled { IfOk result (λ r. Missed self.old (last_poll self.new) self.new) }
        ensures seen { IsPrefix self.old.account.seen self.new.account.seen }
        ensures refused { OnErr result (self.new ≡ has_polled self.old self.new.account.seen self.new.misses self.new.number) }
        ensures follows { FollowsOn self.old self.new }
        ensures unread { IfErr result (HasPolledFor self.old self.new) }
        ensures many { IsErrOf result ManyLocations ↔ (reads_limit < length places.now) }
    {
        let storage = self.storage;
        if places.len() > READS_LIMIT {
            return Err(ReadError::ManyLocations);
        }
        self.part.follow_row(alloc, storage)?;
        let reading = self.part.read_own(alloc, storage, places)?;
        Ok(reading)
    }

    /// Validate at most 256 declared reads, and read their locations if none is stale.
    /// The call polls as `read` does. `Stale` has the smallest location that was written since its read, and adds no
    /// receipt. Else the locations are read in the order of the declared reads; the receipt is at the number of moves
    /// that the agent has then seen, so behind all that it had seen before.
    ///
    /// # Errors
    /// - `ReadError::ManyLocations` exactly for more declared reads, before anything else.
    /// - `Memory` only if memory is refused; it may then have seen more, and no receipt was added.
    pub fn read_named(&mut self, alloc: Global, reads: &[Named]) -> Result<NamedReading, ReadError>
        ensures same { IsSameAgent self.old self.new }
        ensures answered { IfOk result (IsNamedRead A.meaning self.old self.new reads.now) }
        ensures polled { OnOk result (Missed self.old (last_poll self.new) self.new) }
        ensures seen { IsPrefix self.old.account.seen self.new.account.seen }
        ensures refused { OnErr result (self.new ≡ has_polled self.old self.new.account.seen self.new.misses self.new.number) }
        ensures follows { FollowsOn self.old self.new }
        ensures unread { IfErr result (HasPolledFor self.old self.new) }
        ensures many { IsErrOf result ManyLocations ↔ (reads_limit < length reads.now) }
    {
        let storage = self.storage;
        self.part.read_named(alloc, storage, reads)
    }

    /// Fire a move, unless a declared read or a scan was overtaken since it was made.
    /// A declared read is overtaken once a move writes its location, a scan once a move writes a location of its name.
    /// There are at most 256 reads and scans together. A scan depends on a whole function: on each location of its
    /// name, whether it has a value or none, so a move that gives a value to a further one overtakes it. It names no
    /// location; a turn walks what moves wrote of that name, up to the first location that overtakes the scan. The call
    /// has turns as `try_fire_with` has. If a turn finds an overtaken scan, the call is from then on the one that
    /// declares, after the reads, the smallest location that was written, at the number of the scan: its reply is
    /// `Stale`.
    ///
    /// # Errors
    /// - `FireError::ManyReads` exactly for more reads and scans, before anything else.
    /// - `Busy` and `Memory` as from `try_fire_with`, and with the same effects.
    pub fn try_fire_over_with<F: FnMut()>(
        &mut self,
        alloc: Global,
        reads: &[Named],
        scans: &[Scanned],
        instrs: &Instructions,
        between: &mut F,
    ) -> Result<Reply, FireError>
        requires { F.IsAlwaysCallable between.old }
        ensures fire { IsFireOver A.meaning self.old self.new reads.now scans.now instrs.now result }
        // The closure was called as often as there were attempts.
        ensures callable { F.IsAlwaysCallable between.new }
        ensures offers { (n : ℕ) × MadeOffers self.old self.new result n ×
            Ran (λ f g. F.step f tt g) between.old n between.new }
    {
        let storage = self.storage;
        if reads.len() > READS_LIMIT || scans.len() > READS_LIMIT - reads.len() {
            return Err(FireError::ManyReads);
        }
        match Asked::copying(alloc, reads, instrs) {
            Ok(asked) => self.part.fire(alloc, storage, asked, scans, between),
            Err(_) => {
                self.part.poll(storage);
                Err(FireError::Memory)
            }
        }
    }

    /// Fire a move as `try_fire_with` does, with the same answers and errors.
    /// Its receipt shares the list of the reads, which isn't copied.
    pub fn try_fire_shared_with<F: FnMut()>(
        &mut self,
        alloc: Global,
        reads: &Items<Named>,
        instrs: &Instructions,
        between: &mut F,
    ) -> Result<Reply, FireError>
        requires { F.IsAlwaysCallable between.old }
        ensures fire { IsFire A.meaning self.old self.new reads.now instrs.now result }
        ensures callable { F.IsAlwaysCallable between.new }
        ensures offers { (n : ℕ) × MadeOffers self.old self.new result n ×
            Ran (λ f g. F.step f tt g) between.old n between.new }
    {
        let storage = self.storage;
        self.part
            .try_fire_over(alloc, storage, reads, &[], instrs, between)
    }

    /// Fire a move with declared reads and scans.
    /// It is `try_fire_over_with` with a closure that does nothing: the same answers and errors.
    pub fn try_fire_over(
        &mut self,
        alloc: Global,
        reads: &[Named],
        scans: &[Scanned],
        instrs: &Instructions,
    ) -> Result<Reply, FireError>
        ensures { IsFireOver A.meaning self.old self.new reads.now scans.now instrs.now result }
    {
        self.try_fire_over_with(alloc, reads, scans, instrs, &mut || {})
    }

    /// Fire a move, unless a declared location was written since it was read.
    /// There are at most 256 declared reads. The call has turns. A turn polls the row until no move is left and has the
    /// agent's state follow what it found. Then it answers `Stale` with the smallest stale location, else the move's
    /// `Clash`, else `Full` if it has seen as many moves as the capacity. Else it calls `between` and attempts to
    /// append the move to the row. A won attempt answers `Fired`; a lost one begins a new turn. A receipt is recorded
    /// of each answer. Contracts don't cover the cells of the row. It is tested that the call adds the move that it
    /// fires, and no other, and that `between` is called before each attempt.
    ///
    /// # Errors
    /// - `FireError::ManyReads` exactly for more declared reads, before anything else.
    /// - `Busy` if 64 attempts of this call were lost, with what had been seen at its start and at its end.
    /// - `Memory` only if memory is refused, and never after an attempt that won.
    ///
    /// On error, the agent has won no further attempt and no receipt was added, and after `Busy` and `Memory` it may
    /// have seen more.
    pub fn try_fire_with<F: FnMut()>(
        &mut self,
        alloc: Global,
        reads: &[Named],
        instrs: &Instructions,
        between: &mut F,
    ) -> Result<Reply, FireError>
        requires { F.IsAlwaysCallable between.old }
        ensures fire { IsFire A.meaning self.old self.new reads.now instrs.now result }
        // The closure was called as often as there were attempts.
        ensures callable { F.IsAlwaysCallable between.new }
        ensures offers { (n : ℕ) × MadeOffers self.old self.new result n ×
            Ran (λ f g. F.step f tt g) between.old n between.new }
    {
        self.try_fire_over_with(alloc, reads, &[], instrs, between)
    }

    /// Fire a move, unless one of at most 256 declared locations was written since.
    /// It is `try_fire_with` with a closure that does nothing: the same answers and errors.
    pub fn try_fire(
        &mut self,
        alloc: Global,
        reads: &[Named],
        instrs: &Instructions,
    ) -> Result<Reply, FireError>
        ensures { IsFire A.meaning self.old self.new reads.now instrs.now result }
    {
        self.try_fire_with(alloc, reads, instrs, &mut || {})
    }
}
