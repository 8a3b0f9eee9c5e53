//! Which capacities a row may have, the texts of errors, and which errors and results of attempts are equal.
use asm_row::{Offer, Row, RowError};
use asm_test_support::{are_distinct, has_text};
use std::test::Fail;

#[test]
fn capacities_out_of_range_are_refused(rt: HostRuntime) {
    for capacity in [0, 1_048_577] {
        let row: Result<Row<char>, RowError> = Row::new(rt.alloc(), capacity);
        assert!(rt; matches!(row, Err(RowError::BadCapacity)), "at {capacity}");
    }
}

#[test]
fn largest_row_is_made(rt: HostRuntime) -> Result<(), Fail> {
    let row: Row<char> = Row::new(rt.alloc(), 1_048_576)?;
    assert!(rt; row.capacity() == 1_048_576);
    Ok(())
}

#[test]
fn errors_have_their_texts(rt: HostRuntime) -> Result<(), Fail> {
    let alloc = rt.alloc();
    let capacity = "the capacity is not in 1 to 1,048,576";
    assert!(rt; has_text(alloc, &RowError::BadCapacity, capacity)?);
    assert!(rt; has_text(alloc, &RowError::Memory, "out of memory")?);
    Ok(())
}

#[test]
fn errors_are_equal_to_themselves_alone(rt: HostRuntime) {
    assert!(rt; are_distinct(&[RowError::BadCapacity, RowError::Memory]));
}

#[test]
fn offers_are_equal_where_they_lost_to_equal_entries(rt: HostRuntime) {
    let (p, q) = ('p', 'q');
    assert!(rt; Offer::Lost(&p) == Offer::Lost(&'p'));
    assert!(rt; Offer::Lost(&p) != Offer::Lost(&q));
    assert!(rt; Offer::Lost(&p) != Offer::Won);
    assert!(rt; Offer::<char>::Won == Offer::Won);
}
