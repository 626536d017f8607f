// How far an arrival file goes.

/// The bytes of an arrival file: at most so many.
pub const FILE_LIMIT: usize = 64 << 20;

/// The end of the random words: each is below it.
pub const WORD_END: u64 = 1 << 32;
