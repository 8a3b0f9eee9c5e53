//! Equality over a list.

/// Return whether each is equal to itself alone.
pub fn are_distinct<T: PartialEq>(items: &[T]) -> bool {
    for (i, left) in items.iter().enumerate() {
        for (j, right) in items.iter().enumerate() {
            if (left == right) != (i == j) {
                return false;
            }
        }
    }
    true
}
