//! What seats learn from marks.
ghost use Rattle.std.specs.Prelude.{◌≡◌};

use crate::row::seats::{offers, shows};
use asm_row::{Row, Seat};
use std::alloc::{AllocError, Global};
use std::test::Fail;

fn has_learnt(seat: &Seat<'_, char>) -> bool {
    shows(seat, &['p', 'q']) && seat.won() == 0 && seat.misses() == 0
}

// Whether a mark of the seat says that it has seen two entries.
fn marks_two(alloc: Global, seat: &Seat<'_, char>) -> Result<bool, AllocError> {
    let mark = seat.mark(alloc)?;
    Ok(mark.len() == 2 && !mark.is_empty())
}

// Whether the second seat has seen p and q once it has learnt a mark of the first, which has.
fn teaches(
    alloc: Global,
    row: &Row<char>,
    one: &Seat<'_, char>,
    two: &mut Seat<'_, char>,
) -> Result<bool, AllocError>
    requires one { row.now ≡ one.now.row }
    requires two { row.now ≡ two.old.row }
{
    two.learn(&one.mark(alloc)?);
    let is_learnt = has_learnt(two);
    Ok(is_learnt && marks_two(alloc, one)?)
}

#[test]
fn seat_sees_each_entry_by_a_mark(rt: HostRuntime) -> Result<(), Fail> {
    let alloc = rt.alloc();
    let row = Row::new(alloc, 2)?;
    let mut one = row.seat(alloc)?;
    assert!(rt; offers(alloc, &mut one, 'p', None)? && offers(alloc, &mut one, 'q', None)?);
    let mut two = row.seat(alloc)?;
    assert!(rt; two.mark(alloc)?.is_empty());
    assert!(rt; teaches(alloc, &row, &one, &mut two)? && two.is_full());
    Ok(())
}
