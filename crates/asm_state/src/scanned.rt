/// A predicate read: a scan of every location of a function, at a number of moves.
///
/// It covers each location of this name, present or not. It is stale once a move with a greater number writes such a
/// location, including one that had no value, and including with the same value or undef. Source: this project's
/// profile.
#[derive(Debug, Drop)]
pub struct Scanned {
    /// The function's name.
    pub name: String,
    /// How many moves had been fired when the scan was made.
    pub number: u32,
}
