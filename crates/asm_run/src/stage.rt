//! The stages of a writer, and what it asks for.
ghost use Rattle.std.specs.Prelude.{◌≡◌, ◌↔◌, IsTrue};
ghost use Rattle.asm_run.specs.Protocol.{request_at, next_stage};
ghost use Rattle.asm_run.specs.declared.stage.Stage.TheVariants as at;

/// The call of the system that comes next, in the folder and for the file `new` there.
#[derive(Clone, Copy, Debug, PartialEq, Eq)]
pub enum Request {
    /// Remove `new`, if it is there.
    Remove,
    /// Create `new`, which isn't there.
    Create,
    /// Write all bytes of the segment to `new`.
    Write,
    /// Flush `new`.
    Flush,
    /// Rename `new` to the segment's name.
    Rename,
    /// Remove the oldest segment.
    RemoveOldest,
    /// Flush the folder.
    FlushFolder,
}

/// The stage of a writer.
#[derive(Clone, Copy, Debug, PartialEq, Eq)]
pub enum Stage {
    /// Nothing more is written.
    Ended,
    /// The folder is flushed, and then read.
    Opening,
    /// Nothing is ordered.
    Resting,
    /// `new` is removed.
    Removing,
    /// `new` is created.
    Creating,
    /// `new` is written.
    Writing,
    /// `new` is flushed.
    Flushing,
    /// `new` is renamed.
    Renaming,
    /// The oldest segment is removed.
    Dropping,
    /// The folder is flushed; then the order is done.
    FlushingFolder,
}

impl Stage {
    // Return the call that comes next.
    pub(crate) fn request(self) -> Option<Request>
        ensures { result ≡ request_at self }
    {
        match self {
            Stage::Ended => None,
            Stage::Opening => Some(Request::FlushFolder),
            Stage::Resting => None,
            Stage::Removing => Some(Request::Remove),
            Stage::Creating => Some(Request::Create),
            Stage::Writing => Some(Request::Write),
            Stage::Flushing => Some(Request::Flush),
            Stage::Renaming => Some(Request::Rename),
            Stage::Dropping => Some(Request::RemoveOldest),
            Stage::FlushingFolder => Some(Request::FlushFolder),
        }
    }

    // Return the stage once that is done.
    pub(crate) fn next(self) -> Stage
        ensures { result ≡ next_stage self }
    {
        match self {
            Stage::Ended => Stage::Ended,
            Stage::Opening => Stage::Opening,
            Stage::Resting | Stage::FlushingFolder => Stage::Resting,
            Stage::Removing => Stage::Creating,
            Stage::Creating => Stage::Writing,
            Stage::Writing => Stage::Flushing,
            Stage::Flushing => Stage::Renaming,
            Stage::Renaming | Stage::Dropping => Stage::FlushingFolder,
        }
    }

    // Return whether an order may be given.
    pub(crate) fn is_resting(self) -> bool
        ensures { IsTrue result ↔ (self ≡ at.Resting) }
    {
        match self {
            Stage::Resting => true,
            Stage::Ended
            | Stage::Opening
            | Stage::Removing
            | Stage::Creating
            | Stage::Writing
            | Stage::Flushing
            | Stage::Renaming
            | Stage::Dropping
            | Stage::FlushingFolder => false,
        }
    }

    // Return whether the folder is being read.
    pub(crate) fn is_opening(self) -> bool
        ensures { IsTrue result ↔ (self ≡ at.Opening) }
    {
        match self {
            Stage::Opening => true,
            Stage::Ended
            | Stage::Resting
            | Stage::Removing
            | Stage::Creating
            | Stage::Writing
            | Stage::Flushing
            | Stage::Renaming
            | Stage::Dropping
            | Stage::FlushingFolder => false,
        }
    }
}
