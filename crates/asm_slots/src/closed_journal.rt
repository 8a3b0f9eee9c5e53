//! The journal that a closed storage retains, with the state that its moves leave.
ghost use Rattle.std.specs.Prelude.{◌≡◌, IfErr, IfOk, string_bytes};
ghost use Rattle.asm_storage.specs.History.{Fits};
ghost use Rattle.asm_journal.specs.Text.{text_of};
ghost use Rattle.asm_slots.specs.LongLines.{IsLongState};
ghost use Rattle.asm_slots.specs.NextStore.{DoesNotContinue, HasOpened};

use crate::codes::Code;
use crate::long_lines::expect_state;
use asm_aggregate::{Standard, standard};
use asm_journal::laws::text_reads_back;
use asm_journal::{closing_text, replay_closing};
use asm_storage::{Closing, Storage};
use asm_update::PlainState;
use std::alloc::{AllocError, Global};
use std::marker::Model;
use std::sync::Arc;

/// A journal's text, and the state that its moves leave.
///
/// Storages that continue from the journal share this state.
#[derive(Drop)]
pub struct ClosedJournal {
    text: String,
    left: Arc<PlainState>,
}

impl Model for ClosedJournal {
    ghost use Rattle.std.specs.Prelude.{List, ℕ, string_bytes};
    ghost use Rattle.std_alloc.specs.Arc.{arc_value};
    ghost use Rattle.asm_slots.specs.ClosedJournal.{Leaves};

    ghost Value = { List ℕ };

    ghost view = { λ j. string_bytes j.text };

    ghost invariant = { λ j. Leaves (string_bytes j.text) (arc_value j.left) };
}

impl ClosedJournal {
    /// Return the journal of the agents' history.
    ///
    /// It makes at most one event of the history at a time.
    pub(crate) fn of(alloc: Global, closing: &Closing<'_>) -> Result<ClosedJournal, AllocError>
        requires { Fits closing.now }
        ensures { IfOk result (λ journal. journal ≡ text_of closing.now) }
    {
        // Proof: the invariant needs that the text reads as the history.
        text_reads_back();
        let text = closing_text(alloc, closing)?;
        let left = replay_closing(alloc, &standard(), closing)?;
        let left = Arc::new(alloc, left)?;
        Ok(ClosedJournal { text, left })
    }

    /// Return its text.
    pub fn text(&self) -> &String
        ensures { string_bytes result.now ≡ self.now }
    {
        &self.text
    }

    /// Open a storage with the state that the journal's moves leave, unless no journal can open with that.
    ///
    /// It has this capacity.
    pub(crate) fn next(&self, alloc: Global, capacity: u32) -> Result<Storage<Standard>, Code>
        ensures opened { IfOk result (λ s. HasOpened self.now capacity s × ¬ IsLongState s.init) }
        ensures refused { IfErr result (DoesNotContinue self.now capacity) }
    {
        expect_state(alloc, &self.left)?;
        let Ok(left) = Arc::try_clone(&self.left) else {
            return Err(Code::Memory);
        };
        Ok(Storage::over(alloc, standard(), left, capacity)?)
    }
}
