//! The writer of a run, as a state machine.
ghost use Rattle.std.specs.Prelude.{◌≡◌, ◌≢◌, ◌<◌, ◌+◌, ◌⊎◌, ◌↔◌, ◌++◌, ◌∷◌, [], List, None, Some, take};
ghost use Rattle.std.specs.Prelude.{OnOk, OnErr, IfErr, IsErrOf, IfSome};
ghost use Rattle.asm_run.specs.Chain.{start_end};
ghost use Rattle.asm_run.specs.Disk.{Disk};
ghost use Rattle.asm_run.specs.Durable.{empty_world, reported_segments, IsFound, IsSafe};
ghost use Rattle.asm_run.specs.Name.{number_in};
ghost use Rattle.asm_run.specs.Protocol.{Segment, Event, Orders, Drops, Does, Ends, Begins, Opens};
ghost use Rattle.asm_run.specs.Protocol.{request_at, world_after, IsAtWork, IsAllowed, AreAllowed};
ghost use Rattle.asm_run.specs.Run.{IsRun, IsExtentOf};
ghost use Rattle.asm_run.specs.Writer.{IsAfter, IsSaved, saved_at};
ghost use Rattle.asm_run.specs.declared.error.WriteError.TheVariants as write_error;
ghost use Rattle.asm_run.specs.declared.stage.Stage.TheVariants as at;
ghost use Rattle.asm_update.specs.Fire.{Part};

use crate::end::RunEnd;
use crate::error::WriteError;
use crate::stage::{Request, Stage};

/// The segments of a run that are in its folder.
#[derive(Clone, Copy, Debug)]
pub struct Extent {
    /// The number of the oldest one; those before it were dropped.
    pub first: u64,
    /// The end with the last one.
    pub end: RunEnd,
}

/// Saves one segment after the other, and drops the oldest ones, by the calls of the system that it asks for.
///
/// It makes no call itself: the driver makes the call that `request` returns, and reports by `done` or `fail`. `IsAfter`
/// says what has happened to the folder: `open` makes it so, and each call keeps it.
#[derive(Clone, Copy, Debug)]
pub struct RunWriter {
    /// The stage.
    pub stage: Stage,
    /// What is saved.
    pub saved: Extent,
    /// What is saved once the order is done.
    pub next: Extent,
}

impl Extent {
    /// Return the extent of a run without segments.
    pub fn none() -> Extent
        ensures first { result.first ≡ 0 }
        ensures end { result.end ≡ start_end }
    {
        Extent {
            first: 0,
            end: RunEnd::start(),
        }
    }
}

impl RunWriter {
    /// Return the writer of a folder that this process has locked. The first call is to flush the folder.
    pub fn open() -> RunWriter
        ensures stage { result.stage ≡ at.Opening }
        ensures first { result.saved.first ≡ 0 }
        ensures end { result.saved.end ≡ start_end }
        ensures after { (part : Part) (events : List Event) → AreAllowed (IsRun part) events empty_world →
            (world_after events empty_world).stage ≡ at.Ended → IsAfter part result (events ++ Begins ∷ []) }
    {
        RunWriter {
            stage: Stage::Opening,
            saved: Extent::none(),
            next: Extent::none(),
        }
    }

    /// Go on after the segments that were read once the folder was flushed.
    ///
    /// # Errors
    ///
    /// - `Busy`: the writer isn't opening. Nothing changes.
    pub fn read(&mut self, found: Extent) -> Result<(), WriteError>
        ensures ok { OnOk result ((part : Part) (events : List Event) (segments : List Segment) →
            IsAfter part self.old events → IsAllowed (IsRun part) (world_after events empty_world)
            (Opens found.first segments) →
            IsExtentOf segments found → IsAfter part self.new (events ++ Opens found.first segments ∷ [])) }
        ensures value { OnOk result (self.new ≡ record self.old { stage = at.Resting; saved = found }) }
        ensures found { (part : Part) (events : List Event) (segments : List Segment) →
            IsAfter part self.old events → IsAllowed (IsRun part) (world_after events empty_world)
            (Opens found.first segments) →
            IsFound (world_after events empty_world) segments }
        ensures legal { (part : Part) (events : List Event) (segments : List Segment) →
            IsAfter part self.old events → IsAllowed (IsRun part) (world_after events empty_world)
            (Opens found.first segments) →
            IsRun part (take found.first (reported_segments events) ++ segments) }
        ensures busy { IsErrOf result write_error.Busy ↔ (self.old.stage ≢ at.Opening) }
        ensures error { IfErr result (λ e. e ≡ write_error.Busy) }
        ensures unchanged { OnErr result (self.new ≡ self.old) }
    {
        if !self.stage.is_opening() {
            return Err(WriteError::Busy);
        }
        self.stage = Stage::Resting;
        self.saved = found;
        Ok(())
    }

    /// Begin to drop the oldest segment, and return its number; `None` unless the writer rests with at least two.
    /// The driver removes the file that has the number.
    pub fn drop_oldest(&mut self) -> Option<u64>
        ensures some { IfSome result (λ number. (part : Part) (events : List Event) → IsAfter part self.old events →
            (s : Segment) × (number_in s.0 ≡ Some number) × IsAfter part self.new (events ++ Orders (Drops s) ∷ [])) }
        ensures number { IfSome result (λ number. number ≡ self.old.saved.first) }
        ensures none { result ≡ None →
            (self.old.stage ≢ at.Resting) ⊎ (self.old.saved.end.segments < self.old.saved.first + 2) }
        ensures unchanged { result ≡ None → self.new ≡ self.old }
    {
        if !self.stage.is_resting() {
            return None;
        }
        let Extent { first, end } = self.saved;
        if end.segments <= first || end.segments - first < 2 {
            return None;
        }
        self.next = Extent {
            first: first + 1,
            end,
        };
        self.stage = Stage::Dropping;
        Some(first)
    }

    /// Return the call of the system that comes next; `None` while the writer rests or has ended.
    pub fn request(&self) -> Option<Request>
        ensures { result ≡ request_at self.now.stage }
    {
        self.stage.request()
    }

    // Return what is saved once the request is done.
    fn saved_then(&self) -> Extent
        ensures { result ≡ saved_at self.now.stage self.now }
    {
        match self.stage {
            Stage::FlushingFolder => self.next,
            Stage::Ended
            | Stage::Opening
            | Stage::Resting
            | Stage::Removing
            | Stage::Creating
            | Stage::Writing
            | Stage::Flushing
            | Stage::Renaming
            | Stage::Dropping => self.saved,
        }
    }

    /// Note that the call was made. The order is done once the folder is flushed.
    /// While the writer rests, opens or has ended, nothing changes.
    pub fn done(&mut self)
        ensures done { (part : Part) (events : List Event) → IsAfter part self.old events → IsAtWork self.old.stage →
            IsAfter part self.new (events ++ Does ∷ []) }
        ensures idle { (IsAtWork self.old.stage → ⊥) → self.new ≡ self.old }
    {
        let saved = self.saved_then();
        self.saved = saved;
        self.stage = self.stage.next();
    }

    /// Note that the call failed: nothing more is written.
    pub fn fail(&mut self)
        ensures fails { (part : Part) (events : List Event) (d : Disk) →
            IsAfter part self.old events → IsAllowed (IsRun part) (world_after events empty_world) (Ends d) →
            IsAfter part self.new (events ++ Ends d ∷ []) }
        ensures value { self.new ≡ record self.old { stage = at.Ended } }
    {
        self.stage = Stage::Ended;
    }

    /// Return what is saved. Whatever happens then, it survives.
    pub fn saved(&self) -> Extent
        ensures value { result ≡ self.now.saved }
        ensures saved { (part : Part) (events : List Event) → IsAfter part self.now events →
            IsSaved part self.now.stage (world_after events empty_world) result }
        ensures safe { (part : Part) (events : List Event) → IsAfter part self.now events →
            IsSafe (IsRun part) events }
    {
        self.saved
    }
}
