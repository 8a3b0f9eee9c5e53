//! Laws of runs: what digests bind, and that the theorem on crashes isn't empty.
ghost use Rattle.asm_run.specs.Chain.{Binds};
ghost use Rattle.asm_run.specs.Durable.{SavesOne, DropsOne, MayLoseName, MayTear};
ghost use Rattle.asm_run.specs.Name.{SortByNumber};
ghost use Rattle.asm_run.specs.Reader.{KeepsState, NextOpens};
ghost use Rattle.asm_run.specs.Run.{EndsOnce};

/// Two runs of as many segments with one last digest are equal, or two texts with one digest are known.
pub fn binds()
    ensures { Binds }
{}

/// Names in the order of their bytes are in the order of their numbers.
pub fn sort_by_number()
    ensures { SortByNumber }
{}

/// The names of segments say how a run ends.
pub fn ends_once()
    ensures { EndsOnce }
{}

/// The state that the last segments of a run leave is the one that all leave.
pub fn keeps_state()
    ensures { KeepsState }
{}

/// A storage that opens with what the last journal leaves may be saved next.
pub fn next_opens()
    ensures { NextOpens }
{}

/// A segment can be saved.
pub fn saves_one()
    ensures { SavesOne }
{}

/// The older of two segments can be dropped.
pub fn drops_one()
    ensures { DropsOne }
{}

/// Before the folder is flushed, a power failure may take a segment's name away.
pub fn may_lose_name()
    ensures { MayLoseName }
{}

/// Before the file is flushed, a power failure may leave any bytes in it.
pub fn may_tear()
    ensures { MayTear }
{}
