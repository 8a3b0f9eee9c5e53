//! A segment that is handed to a writer.
ghost use Rattle.std.specs.Prelude.{◌≡◌, ◌≢◌, ◌↔◌, ◌++◌, ◌∷◌, [], List, length, string_bytes};
ghost use Rattle.std.specs.Prelude.{IfOk, IfErr, OnErr, IsErrOf};
ghost use Rattle.asm_update.specs.Fire.{Part};
ghost use Rattle.asm_storage.specs.History.{IsLegal, Fits, fired_moves};
ghost use Rattle.asm_journal.specs.Check.{machine_of};
ghost use Rattle.asm_journal.specs.Text.{text_of};
ghost use Rattle.asm_run.specs.Durable.{reported_segments};
ghost use Rattle.asm_run.specs.Protocol.{Event, Orders, Saves};
ghost use Rattle.asm_run.specs.Reader.{OpensNext};
ghost use Rattle.asm_run.specs.Run.{Continues};
ghost use Rattle.asm_run.specs.Writer.{IsAfter, IsHanded, IsUnhanded};
ghost use Rattle.asm_run.specs.declared.error.WriteError.TheVariants as write_error;
ghost use Rattle.asm_run.specs.declared.stage.Stage.TheVariants as at;

use crate::error::WriteError;
use crate::stage::Stage;
use crate::writer::{Extent, RunWriter};
use asm_journal::laws::reads_back;
use asm_journal::to_text;
use asm_storage::History;
use std::alloc::Global;

impl RunWriter {
    /// Begin to save the next segment, with these moves, events and text, and return its name.
    ///
    /// # Errors
    ///
    /// - `Busy`: the writer doesn't rest.
    /// - `Segments`: the run has 100,000,000 segments.
    /// - `Opening`: it would be segment 0, and has moves or events.
    /// - `Moves`: the run would have 2^64 moves or more.
    /// - `Memory` only if memory is refused.
    ///
    /// On error, nothing changes.
    pub fn hand(
        &mut self,
        alloc: Global,
        moves: u64,
        events: u64,
        text: &[u8],
    ) -> Result<Vec<u8>, WriteError>
        ensures ok { IfOk result (λ name. (part : Part) (history : List Event) → IsAfter part self.old history →
            Continues part (reported_segments history) moves events text.now →
            IsAfter part self.new (history ++ Orders (Saves (name.items, text.now)) ∷ [])) }
        ensures handed { IfOk result (λ name. IsHanded self.old moves events text.now name.items self.new) }
        ensures busy { IsErrOf result write_error.Busy ↔ (self.old.stage ≢ at.Resting) }
        ensures error { IfErr result (IsUnhanded self.old moves events) }
        ensures unchanged { OnErr result (self.new ≡ self.old) }
    {
        if !self.stage.is_resting() {
            return Err(WriteError::Busy);
        }
        let (name, end) = self.saved.end.next(alloc, moves, events, text)?;
        let written = name.written(alloc)?;
        self.next = Extent {
            first: self.saved.first,
            end,
        };
        self.stage = Stage::Removing;
        Ok(written)
    }

    /// Begin to save the history of a closed storage, and return the name and the text of its segment.
    /// Its storage was opened with the state that the segments leave, or it is the first one.
    ///
    /// # Errors
    ///
    /// As of `hand`.
    pub fn hand_closed(
        &mut self,
        alloc: Global,
        closed: &History,
    ) -> Result<(Vec<u8>, String), WriteError>
        requires { Fits closed.now }
        ensures ok { IfOk result (λ r. (part : Part) (history : List Event) → IsAfter part self.old history →
            IsLegal (machine_of part closed.now) closed.now.events →
            OpensNext part (reported_segments history) closed.now.init →
            IsAfter part self.new (history ++ Orders (Saves (r.0.items, string_bytes r.1)) ∷ [])) }
        ensures text { IfOk result (λ r. string_bytes r.1 ≡ text_of closed.now) }
        ensures handed { IfOk result (λ r. IsHanded self.old (length (fired_moves closed.now.events))
            (length closed.now.events) (string_bytes r.1) r.0.items self.new) }
        ensures error { IfErr result (IsUnhanded self.old (length (fired_moves closed.now.events))
            (length closed.now.events)) }
        ensures unchanged { OnErr result (self.new ≡ self.old) }
    {
        if !self.stage.is_resting() {
            return Err(WriteError::Busy);
        }
        reads_back(closed);
        let text = to_text(alloc, closed)?;
        let moves = u64::from(closed.moves());
        let events = closed.events.as_slice().len() as u64;
        let name = self.hand(alloc, moves, events, text.as_bytes())?;
        Ok((name, text))
    }
}
