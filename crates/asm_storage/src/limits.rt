/// The most agents of a storage: their numbers are below it.
pub const AGENTS_LIMIT: u32 = 256;

/// The most locations of a read, and the most declared reads and scans of a fire.
///
/// Reads and scans count together.
pub const READS_LIMIT: usize = 256;

/// The most attempts of a fire to append its move: it is `Busy` if all are lost.
pub const OFFERS_LIMIT: u32 = 64;

/// The most events of a history that a journal can hold.
pub const EVENTS_LIMIT: u64 = 4_294_967_295;
