//! The locations that a transaction tracks, as declared reads at its version.
ghost use Rattle.std.specs.Prelude.{◌≡◌, ◌≤◌, ◌+◌, ◌++◌, ◌∷◌, [], All, filter, length, Contains, IfErr, IfOk, OnErr, OnOk};
ghost use Rattle.std.specs.List.Sorted.{IsStrictlySortedBy};
ghost use Rattle.asm_element.specs.Place.{location_cmp};
ghost use Rattle.asm_step.specs.Layers.{shows_below};
ghost use Rattle.asm_step.specs.Places.{AreEach};
ghost use Rattle.asm_storage.specs.Limits.{reads_limit};
ghost use Rattle.asm_transaction.specs.Reading.{from_below, HasTracked, IsUntracked};
ghost use Rattle.asm_transaction.specs.Tracked.{IsPlaceFor};
ghost use Rattle.asm_transaction.specs.View.{places_of};

use crate::error::TransactionError;
use crate::transaction::Transaction;
use asm_element::{Items, Location};
use asm_state::Named;
use asm_step::Step;
use asm_storage::READS_LIMIT;
use std::alloc::{AllocError, Global};
use std::cmp::Ordering;

// Return copies of the declared reads.
fn copied(alloc: Global, reads: &[Named]) -> Result<Vec<Named>, AllocError>
    ensures { IfOk result (λ copies. copies.items ≡ reads.now) }
{
    let mut copies = Vec::with_capacity(alloc, reads.len())?;
    for read in reads {
        copies.push(read.copy(alloc)?)?;
    }
    Ok(copies)
}

// Return a list of copies of the declared reads. The list of one read has it in itself, so it takes no memory.
fn listed(alloc: Global, reads: &[Named]) -> Result<Items<Named>, AllocError>
    ensures { IfOk result (λ list. list ≡ reads.now) }
{
    match reads.split_first() {
        Some((first, rest)) if rest.is_empty() => Ok(Items::one(first.copy(alloc)?)),
        _ => Items::shared(alloc, copied(alloc, reads)?),
    }
}

// Append copies of the locations of the declared reads.
fn push_locations(alloc: Global, all: &mut Vec<Location>, reads: &[Named]) -> Result<(), AllocError>
    ensures { OnOk result (all.new.items ≡ all.old.items ++ places_of reads.now) }
{
    for read in reads {
        all.push(read.at.copy(alloc)?)?;
    }
    Ok(())
}

// Return the locations of the declared reads and of the list, each once, in ascending order.
fn each_of(
    alloc: Global,
    reads: &[Named],
    locations: Vec<Location>,
) -> Result<Vec<Location>, AllocError>
    ensures { IfOk result (λ all. AreEach (places_of reads.now ++ locations.items) all.items) }
{
    let mut all = locations;
    push_locations(alloc, &mut all, reads)?;
    all.sort_unstable();
    all.dedup();
    Ok(all)
}

// Return a declared read of each location, at this version.
fn named_at(alloc: Global, locations: Vec<Location>, number: u32) -> Result<Vec<Named>, AllocError>
    ensures locations { IfOk result (λ reads. places_of reads.items ≡ locations.items) }
    ensures numbers { IfOk result (λ reads. All (λ r. r.number ≡ number) reads.items) }
{
    let mut reads = Vec::with_capacity(alloc, locations.len())?;
    for at in locations {
        reads.push(Named { at, number })?;
    }
    Ok(reads)
}

// Return those locations at which what is seen is made from below the step.
fn from_below(
    alloc: Global,
    step: &Step,
    locations: Vec<Location>,
) -> Result<Vec<Location>, AllocError>
    ensures { IfOk result (λ kept. kept.items ≡ filter (shows_below step.now) locations.items) }
{
    let mut kept = Vec::with_capacity(alloc, locations.len())?;
    for at in locations {
        if step.sees_below(&at) {
            let shared = at.share(alloc)?;
            kept.push(shared)?;
        }
    }
    Ok(kept)
}

// Return the place of the location among the declared ones, or where it would go.
fn search(reads: &[Named], at: &Location) -> Result<usize, usize>
    requires { IsStrictlySortedBy location_cmp (places_of reads.now) }
    ensures found { IfOk result (λ i. Contains (places_of reads.now) at.now) }
    ensures absent { IfErr result (IsPlaceFor (places_of reads.now) at.now) }
{
    reads.binary_search_by(
        |read: &Named| -> Ordering
            ensures { result ≡ location_cmp read.now.at at.entry.now }
        { read.at.cmp(at) },
    )
}

impl Transaction {
    // Return a declared read of each tracked location and of each of these.
    pub(crate) fn reads_with(
        &self,
        alloc: Global,
        locations: Vec<Location>,
    ) -> Result<Vec<Named>, AllocError>
        ensures locations { IfOk result (λ reads. AreEach (self.now.tracked ++ locations.items) (places_of reads.items)) }
        ensures numbers { IfOk result (λ reads. All (λ r. r.number ≡ self.now.number) reads.items) }
    {
        if locations.is_empty() {
            let reads = copied(alloc, &self.tracked)?;
            return Ok(reads);
        }
        let all = each_of(alloc, &self.tracked, locations)?;
        named_at(alloc, all, self.number)
    }

    // Return the list of a declared read of each tracked location and of each of these.
    pub(crate) fn list_with(
        &self,
        alloc: Global,
        locations: Vec<Location>,
    ) -> Result<Items<Named>, AllocError>
        ensures locations { IfOk result (λ reads. AreEach (self.now.tracked ++ locations.items) (places_of reads)) }
        ensures numbers { IfOk result (λ reads. All (λ r. r.number ≡ self.now.number) reads) }
    {
        if locations.is_empty() {
            let reads = listed(alloc, &self.tracked)?;
            return Ok(reads);
        }
        let reads = self.reads_with(alloc, locations)?;
        Items::shared(alloc, reads)
    }

    // Return all tracked locations, once these are read too.
    //
    // Of these it adds those at which what is seen is made from the state at the transaction's version.
    pub(crate) fn tracked_with(
        &self,
        alloc: Global,
        locations: Vec<Location>,
    ) -> Result<Vec<Named>, TransactionError>
        ensures all { IfOk result (λ all.
            AreEach (self.now.tracked ++ from_below self.now locations.items) (places_of all.items)) }
        ensures numbers { IfOk result (λ all. All (λ r. r.number ≡ self.now.number) all.items) }
        ensures few { IfOk result (λ all. length all.items + length self.now.scanned ≤ reads_limit) }
        ensures err { IfErr result (IsUntracked locations.items self.now) }
    {
        let below = from_below(alloc, &self.step, locations)?;
        let all = self.reads_with(alloc, below)?;
        if all.len() > READS_LIMIT - self.scanned.len() {
            return Err(TransactionError::ManyReads);
        }
        Ok(all)
    }

    /// Track those of the locations at which what is shown is made from the state at the version, as if each had been got.
    ///
    /// # Errors
    ///
    /// - `ManyReads` if the transaction would track more than 256 locations, scanned functions included.
    /// - `Memory` only if memory is refused.
    pub fn track(&mut self, alloc: Global, locations: Vec<Location>) -> Result<(), TransactionError>
        ensures tracked { OnOk result (HasTracked locations.items self.old self.new) }
        ensures err { IfErr result (IsUntracked locations.items self.old) }
        ensures stays { OnErr result (self.new ≡ self.old) }
    {
        // One location goes in where a search finds its place; the list isn't copied for it.
        match locations.split_first() {
            Some((at, rest)) if rest.is_empty() => return self.track_one(alloc, at),
            _ => {}
        }
        let tracked = self.tracked_with(alloc, locations)?;
        self.tracked = tracked;
        Ok(())
    }

    /// Track the location, as `get` does.
    ///
    /// # Errors
    ///
    /// - `ManyReads` if the location would be the 257th that is tracked, scanned functions included.
    /// - `Memory` only if memory is refused.
    pub fn track_one(&mut self, alloc: Global, at: &Location) -> Result<(), TransactionError>
        ensures tracked { OnOk result (HasTracked (at.now ∷ []) self.old self.new) }
        ensures err { IfErr result (IsUntracked (at.now ∷ []) self.old) }
        ensures stays { OnErr result (self.new ≡ self.old) }
    {
        if !self.step.sees_below(at) {
            return Ok(());
        }
        let place = match search(&self.tracked, at) {
            Ok(_) => return Ok(()),
            Err(place) => place,
        };
        if self.tracked.len() >= READS_LIMIT - self.scanned.len() {
            return Err(TransactionError::ManyReads);
        }
        let at = at.copy(alloc)?;
        let number = self.number;
        self.tracked.insert(place, Named { at, number })?;
        Ok(())
    }
}
