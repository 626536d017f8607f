// How far numbers count.

/// The last number that a count of calls or faults comes to, 2^64 - 1, at which it stands still.
/// Offsets, in bytes, stay below it.
pub const COUNT_END: u64 = u64::MAX;
